// What is told on the mend of a fault.

ghost use Rattle.std.specs.Prelude.{◌≡◌, ◌+◌, ◌-◌, ◌<◌, ◌≤◌, ◌^◌, ℕ, List, length, slice_range, take, IfOk};
ghost use Rattle.tac_hints.specs.Texts.{form_hint as of_form, hint_of, kind_hint as of_kind, line_hint as of_line, names_hint as of_names, nth_line};
ghost use Rattle.tac_hints.specs.Texts.{long_name_hint as of_long_name, opened_hint as of_opened, opened_line as of_opened_line};
ghost use Rattle.tac_hints.specs.Texts.{place_of as place_in};
ghost use Rattle.tac_hints.specs.Texts.{opens_again as opening, syntax_hint as of_syntax, token_hint as of_token};
ghost use Rattle.tac_lines.specs.Text.{lines};
ghost use Rattle.tac_lines.specs.Tokens.{rows};
ghost use Rattle.tac_lines.specs.code.Views.{tokens_view};
ghost use Rattle.tac_program.specs.Limits.{longest_text};
ghost use Rattle.tac_program.specs.declared.limits.Limits.TheVariants.{Large};

use crate::byte_hints::byte_hint;
use crate::line_hints::{comment_hint, first_hint, statement_hint};
use crate::name_hints::name_hint;
use std::alloc::Global;
use tac_faults::places::{bytes_at, count_before, stands};
use tac_faults::row::read_row;
use tac_faults::slips::{Bytes, Hint, or_hint_of};
use tac_lines::lex::{lex, line_stop};
use tac_lines::{
    Keyword, Lines, OutOfMemory, Refusal, RefusalKind, Slot, Stop, Token, behind_labels, stop_of,
};
use tac_program::Limits;
use tac_reader::section::sections;

/// The longest name, in bytes.
const LONGEST_NAME: u32 = 64;

/// The line of that number, from 0.
fn nth_line_bytes(text: &[u8], number: u32) -> Bytes
    requires { length text.now < 2 ^ 31 }
    ensures line { nth_line number 0 (lines text.now) ≡ (result.start, slice_range text.now result.start result.stop) }
    ensures order { result.start ≤ result.stop }
    ensures within { result.stop ≤ length text.now }
{
    let mut at = 0;
    let mut left = number;
    while left > 0 && at < text.len() {
        at = line_stop(text, at);
        left -= 1;
    }
    let stop = if at < text.len() {
        line_stop(text, at)
    } else {
        at
    };
    Bytes {
        start: at as u32,
        stop: stop as u32,
    }
}

/// A name that is too long.
fn long_name_hint(bytes: Bytes) -> Hint
    ensures { result ≡ of_long_name bytes }
{
    Hint::LongName(
        bytes,
        bytes
            .stop
            .saturating_sub(bytes.start)
            .saturating_sub(LONGEST_NAME),
    )
}

/// Of a line that is no line form, by its tokens and the first wrong place.
fn form_hint(text: &[u8], tokens: &[Token], place: usize) -> Hint
    ensures { result ≡ of_form (tokens_view text.now tokens.now) place }
{
    if count_before(tokens, place) == 0 {
        return first_hint(text, tokens);
    }
    let statement = behind_labels(tokens);
    statement_hint(text, statement, count_before(statement, place))
}

/// The same, with comments as other languages have them.
fn syntax_hint(text: &[u8], tokens: &[Token], place: usize) -> Hint
    requires { place + 2 < 2 ^ 32 }
    ensures { result ≡ of_syntax text.now (tokens_view text.now tokens.now) place }
{
    or_hint_of(comment_hint(text, place), form_hint(text, tokens, place))
}

/// Of a fault that a line shows by itself.
fn token_hint(kind: RefusalKind, text: &[u8], tokens: &[Token], place: usize) -> Hint
    requires small { length text.now < 2 ^ 31 }
    requires within { place ≤ length text.now }
    ensures { result ≡ of_token kind text.now (tokens_view text.now tokens.now) place }
{
    match kind {
        RefusalKind::BadByte => {
            if place < text.len() {
                byte_hint(text, tokens, place)
            } else {
                Hint::None
            }
        }
        RefusalKind::NumberTooLarge => {
            Hint::LargeNumber(bytes_at(tokens, count_before(tokens, place)))
        }
        RefusalKind::NameTooLong => long_name_hint(bytes_at(tokens, count_before(tokens, place))),
        RefusalKind::Syntax => syntax_hint(text, tokens, place),
        RefusalKind::Unclosed => Hint::None,
        RefusalKind::NoMain => Hint::None,
        RefusalKind::DuplicateProcedure => Hint::None,
        RefusalKind::DuplicateLabel => Hint::None,
        RefusalKind::UnknownLabel => Hint::None,
        RefusalKind::UnknownProcedure => Hint::None,
        RefusalKind::TextTooLong => Hint::None,
        RefusalKind::TooManyProcedures => Hint::None,
        RefusalKind::DuplicateCallee => Hint::None,
    }
}

/// What is known behind a line of the procedure that is open.
fn opened_line(line: u32, tokens: &[Token], before: Hint) -> Hint
    ensures { (text : List ℕ) → of_opened_line line (tokens_view text tokens.now) before ≡ result }
{
    if stands(Slot::Keyword(Keyword::Proc), tokens, 0) {
        Hint::EndLacks(
            line,
            Bytes {
                start: bytes_at(tokens, 0).start,
                stop: stop_of(tokens),
            },
        )
    } else {
        before
    }
}

/// The last of so many lines that begins with `proc`.
fn opened_hint(alloc: Global, text: &[u8], count: u32) -> Result<Hint, OutOfMemory>
    requires { length text.now < 2 ^ 31 }
    ensures { IfOk result (λ h. h ≡ of_opened 1 (take count (rows text.now)) Hint.None) }
{
    let mut row = Vec::new(alloc);
    let mut hint = Hint::None;
    let mut at = 0;
    let mut line = 1;
    let mut left = count;
    while left > 0 && at < text.len() {
        let stop = line_stop(text, at);
        let _ = read_row(&mut row, text, at, stop)?;
        hint = opened_line(line, &row, hint);
        line += 1;
        left -= 1;
        at = stop;
    }
    Ok(hint)
}

/// Whether a line begins with `proc` at that place, where no `proc` may stand.
fn opens_again(kind: RefusalKind, tokens: &[Token], place: usize) -> bool
    ensures { (text : List ℕ) → opening kind (tokens_view text tokens.now) place ≡ result }
{
    match kind {
        RefusalKind::Syntax => {
            count_before(tokens, place) == 0 && stands(Slot::Keyword(Keyword::Proc), tokens, 0)
        }
        _ => false,
    }
}

/// The place of a refusal in the text.
fn place_of(text: &[u8], refusal: Refusal) -> usize
    requires { length text.now < 2 ^ 31 }
    ensures { result ≡ place_in text.now refusal }
{
    let line = nth_line_bytes(text, refusal.line.saturating_sub(1));
    line.start as usize + refusal.column.saturating_sub(1) as usize
}

/// Of a fault of a line.
fn line_hint(alloc: Global, text: &[u8], refusal: Refusal) -> Result<Hint, OutOfMemory>
    requires { length text.now < 2 ^ 31 }
    ensures { IfOk result (λ h. h ≡ of_line text.now refusal) }
{
    let place = place_of(text, refusal);
    if place > text.len() {
        return Ok(Hint::None);
    }
    let line = nth_line_bytes(text, refusal.line.saturating_sub(1));
    let mut row = Vec::new(alloc);
    let _ = read_row(&mut row, text, line.start as usize, line.stop as usize)?;
    if opens_again(refusal.kind, &row, place) {
        return opened_hint(alloc, text, refusal.line.saturating_sub(1));
    }
    Ok(token_hint(refusal.kind, text, &row, place))
}

/// Of a fault of names.
fn names_hint(
    alloc: Global,
    limits: Limits,
    text: &[u8],
    refusal: Refusal,
) -> Result<Hint, OutOfMemory>
    requires { length text.now ≤ longest_text Large }
    ensures { IfOk result (λ h. h ≡ of_names limits text.now refusal) }
{
    let place = place_of(text, refusal);
    match lex(alloc, text) {
        Ok(lexed) => {
            let sections = sections(alloc, Lines::of(&lexed))?;
            name_hint(alloc, limits, refusal.kind, text, &sections, place)
        }
        Err(Stop::Fault(_)) => Ok(Hint::None),
        Err(Stop::OutOfMemory) => Err(OutOfMemory),
    }
}

/// What is told of a fault of a text that is not too long.
fn kind_hint(
    alloc: Global,
    limits: Limits,
    text: &[u8],
    refusal: Refusal,
) -> Result<Hint, OutOfMemory>
    requires { length text.now ≤ longest_text Large }
    ensures { IfOk result (λ h. h ≡ of_kind refusal.kind limits text.now refusal) }
{
    match refusal.kind {
        RefusalKind::BadByte => line_hint(alloc, text, refusal),
        RefusalKind::NumberTooLarge => line_hint(alloc, text, refusal),
        RefusalKind::NameTooLong => line_hint(alloc, text, refusal),
        RefusalKind::Syntax => line_hint(alloc, text, refusal),
        RefusalKind::Unclosed => opened_hint(alloc, text, refusal.line),
        RefusalKind::NoMain => names_hint(alloc, limits, text, refusal),
        RefusalKind::DuplicateProcedure => names_hint(alloc, limits, text, refusal),
        RefusalKind::DuplicateLabel => names_hint(alloc, limits, text, refusal),
        RefusalKind::UnknownLabel => names_hint(alloc, limits, text, refusal),
        RefusalKind::UnknownProcedure => names_hint(alloc, limits, text, refusal),
        RefusalKind::TextTooLong => Ok(Hint::None),
        RefusalKind::TooManyProcedures => names_hint(alloc, limits, text, refusal),
        RefusalKind::DuplicateCallee => names_hint(alloc, limits, text, refusal),
    }
}

/// What stands at a fault that `refusals` tells of a text within these limits, and what a sentence on its mend
/// needs; `Hint::None` where it is none of the usual slips.
///
/// Goes over the text a fixed number of times. `OutOfMemory` is answered only where memory was refused.
pub fn hint(
    alloc: Global,
    limits: Limits,
    text: &[u8],
    refusal: Refusal,
) -> Result<Hint, OutOfMemory>
    ensures { IfOk result (λ h. h ≡ hint_of limits text.now refusal) }
{
    let longest = limits.text() as usize;
    if text.len() > longest {
        return Ok(Hint::LongText(text.len() - longest));
    }
    kind_hint(alloc, limits, text, refusal)
}
