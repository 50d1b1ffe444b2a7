// What is told of a name that is there already, or that there is not.

ghost use Rattle.std.specs.Prelude.{◌≡◌, ◌<◌, ◌-◌, ◌^◌, ℕ, List, length, option_map, IfOk};
ghost use Rattle.tac_faults.specs.Hints.Choices.{any_hint};
ghost use Rattle.tac_hints.specs.Names.{call_hint as of_call, callee_hint as of_callee, first_at as of_first, first_same};
ghost use Rattle.tac_hints.specs.Names.{jump_hint as of_jump, label_hint as of_label, name_hint as of_name, near_hint as of_near, nearest};
ghost use Rattle.tac_hints.specs.Names.{nearest_at as of_nearest, same_hint as of_same, token_at as token_in};
ghost use Rattle.tac_lines.specs.code.Views.{token_view, tokens_view};
ghost use Rattle.tac_program.specs.Limits.{most_procedures};
ghost use Rattle.tac_reader.specs.code.SectionViews.{section_view, sections_view};

use std::alloc::Global;
use tac_faults::names::titles;
use tac_faults::near::is_near;
use tac_faults::slips::{Bytes, Hint, or_hint_of};
use tac_lines::{Fault, OutOfMemory, RefusalKind, Role, Token};
use tac_program::Limits;
use tac_reader::located_refusal;
use tac_reader::section::{Section, labels, line_cells, section_cells};

/// Where the token stands, as the nearest name.
fn near_hint(found: Option<Token>) -> Hint
    ensures { (text : List ℕ) → of_near (option_map (token_view text) found) ≡ result }
{
    match found {
        None => Hint::None,
        Some(token) => Hint::Nearest(Bytes {
            start: token.start,
            stop: token.stop,
        }),
    }
}

/// Where the token stands, as the first of its name.
fn same_hint(text: &[u8], found: Option<Token>) -> Hint
    requires { length text.now < 2 ^ 31 }
    ensures { result ≡ of_same text.now (option_map (token_view text.now) found) }
{
    match found {
        None => Hint::None,
        Some(token) => {
            let place = located_refusal(
                text,
                Fault {
                    kind: RefusalKind::DuplicateLabel,
                    place: token.start,
                },
            );
            Hint::First(
                place.line,
                Bytes {
                    start: token.start,
                    stop: token.stop,
                },
            )
        }
    }
}

/// The token that starts at a place.
fn token_at(tokens: &[Token], place: usize) -> Option<Token>
    ensures { (text : List ℕ) → token_in (tokens_view text tokens.now) place ≡ option_map (token_view text) result }
{
    for token in tokens {
        if token.start as usize == place {
            return Some(*token);
        }
    }
    None
}

/// The first token whose name is one slip away.
fn find_nearest(text: &[u8], name: &[u8], tokens: &[Token]) -> Option<Token>
    ensures { nearest name.now (tokens_view text.now tokens.now) ≡ option_map (token_view text.now) result }
{
    for token in tokens {
        if is_near(name, token.spelling(text)) {
            return Some(*token);
        }
    }
    None
}

/// The first token of that name.
fn find_same(text: &[u8], name: &[u8], tokens: &[Token]) -> Option<Token>
    ensures { first_same name.now (tokens_view text.now tokens.now) ≡ option_map (token_view text.now) result }
{
    for token in tokens {
        if name == token.spelling(text) {
            return Some(*token);
        }
    }
    None
}

/// Among the known names the nearest to that at the place, where it is one of those used.
fn nearest_at(text: &[u8], used: &[Token], known: &[Token], place: usize) -> Hint
    ensures { result ≡ of_nearest (tokens_view text.now used.now) (tokens_view text.now known.now) place }
{
    match token_at(used, place) {
        None => Hint::None,
        Some(token) => near_hint(find_nearest(text, token.spelling(text), known)),
    }
}

/// The first of the name at the place, where it is one of these.
fn first_at(text: &[u8], used: &[Token], place: usize) -> Hint
    requires { length text.now < 2 ^ 31 }
    ensures { result ≡ of_first text.now (tokens_view text.now used.now) place }
{
    match token_at(used, place) {
        None => Hint::None,
        Some(token) => same_hint(text, find_same(text, token.spelling(text), used)),
    }
}

/// Of a label that its procedure has already.
fn label_hint(
    alloc: Global,
    text: &[u8],
    section: &Section<'_>,
    place: usize,
) -> Result<Hint, OutOfMemory>
    requires { length text.now < 2 ^ 31 }
    ensures { IfOk result (λ h. h ≡ of_label text.now place (section_view text.now section.now)) }
{
    let mut found = Vec::new(alloc);
    labels(&mut found, section.lines)?;
    Ok(first_at(text, &found, place))
}

/// Of a jump to a label that its procedure lacks.
fn jump_hint(
    alloc: Global,
    text: &[u8],
    section: &Section<'_>,
    place: usize,
) -> Result<Hint, OutOfMemory>
    ensures { IfOk result (λ h. h ≡ of_jump place (section_view text.now section.now)) }
{
    let mut known = Vec::new(alloc);
    labels(&mut known, section.lines)?;
    let mut used = Vec::new(alloc);
    section_cells(&mut used, Role::Label, section.lines)?;
    Ok(nearest_at(text, &used, &known, place))
}

/// Of a callee that is no procedure.
fn callee_hint(
    alloc: Global,
    text: &[u8],
    titles: &[Token],
    section: &Section<'_>,
    place: usize,
) -> Result<Hint, OutOfMemory>
    ensures { IfOk result (λ h. h ≡ of_callee (tokens_view text.now titles.now) place (section_view text.now section.now)) }
{
    let mut used = Vec::new(alloc);
    section_cells(&mut used, Role::Callee, section.lines)?;
    Ok(nearest_at(text, &used, titles, place))
}

/// Of a callee that stands before in the same call.
fn call_hint(
    alloc: Global,
    text: &[u8],
    section: &Section<'_>,
    place: usize,
) -> Result<Hint, OutOfMemory>
    requires { length text.now < 2 ^ 31 }
    ensures { IfOk result (λ h. h ≡ of_call text.now place (section_view text.now section.now)) }
{
    let lines = section.lines;
    let mut found = Vec::new(alloc);
    let mut hint = Hint::None;
    for at in 0..lines.len() {
        found.clear();
        line_cells(&mut found, Role::Callee, lines, at)?;
        hint = or_hint_of(hint, first_at(text, &found, place));
    }
    Ok(hint)
}

/// Of a label that its procedure has already, in any procedure.
fn labels_hint(
    alloc: Global,
    text: &[u8],
    sections: &[Section<'_>],
    place: usize,
) -> Result<Hint, OutOfMemory>
    requires { length text.now < 2 ^ 31 }
    ensures { IfOk result (λ h. h ≡ any_hint (of_label text.now place) (sections_view text.now sections.now)) }
{
    let mut hint = Hint::None;
    for section in sections {
        hint = or_hint_of(hint, label_hint(alloc, text, section, place)?);
    }
    Ok(hint)
}

/// Of a jump to a label that its procedure lacks, in any procedure.
fn jumps_hint(
    alloc: Global,
    text: &[u8],
    sections: &[Section<'_>],
    place: usize,
) -> Result<Hint, OutOfMemory>
    ensures { IfOk result (λ h. h ≡ any_hint (of_jump place) (sections_view text.now sections.now)) }
{
    let mut hint = Hint::None;
    for section in sections {
        hint = or_hint_of(hint, jump_hint(alloc, text, section, place)?);
    }
    Ok(hint)
}

/// Of a callee that is no procedure, in any procedure.
fn callees_hint(
    alloc: Global,
    text: &[u8],
    titles: &[Token],
    sections: &[Section<'_>],
    place: usize,
) -> Result<Hint, OutOfMemory>
    ensures { IfOk result (λ h. h ≡ any_hint (of_callee (tokens_view text.now titles.now) place) (sections_view text.now sections.now)) }
{
    let mut hint = Hint::None;
    for section in sections {
        hint = or_hint_of(hint, callee_hint(alloc, text, titles, section, place)?);
    }
    Ok(hint)
}

/// Of a callee that stands before in the same call, in any procedure.
fn calls_hint(
    alloc: Global,
    text: &[u8],
    sections: &[Section<'_>],
    place: usize,
) -> Result<Hint, OutOfMemory>
    requires { length text.now < 2 ^ 31 }
    ensures { IfOk result (λ h. h ≡ any_hint (of_call text.now place) (sections_view text.now sections.now)) }
{
    let mut hint = Hint::None;
    for section in sections {
        hint = or_hint_of(hint, call_hint(alloc, text, section, place)?);
    }
    Ok(hint)
}

/// How many procedures are more than the limits allow.
fn count_hint(limits: Limits, titles: &[Token]) -> Hint
    ensures { result ≡ Hint.ManyProcedures (length titles.now - most_procedures limits) }
{
    Hint::ManyProcedures(titles.len().saturating_sub(limits.procedures() as usize))
}

/// What is told of a fault of names at a place.
pub fn name_hint(
    alloc: Global,
    limits: Limits,
    kind: RefusalKind,
    text: &[u8],
    sections: &[Section<'_>],
    place: usize,
) -> Result<Hint, OutOfMemory>
    requires { length text.now < 2 ^ 31 }
    ensures { IfOk result (λ h. h ≡ of_name limits kind text.now (sections_view text.now sections.now) place) }
{
    let titles = titles(alloc, sections)?;
    match kind {
        RefusalKind::DuplicateProcedure => Ok(first_at(text, &titles, place)),
        RefusalKind::DuplicateLabel => labels_hint(alloc, text, sections, place),
        RefusalKind::UnknownLabel => jumps_hint(alloc, text, sections, place),
        RefusalKind::UnknownProcedure => callees_hint(alloc, text, &titles, sections, place),
        RefusalKind::DuplicateCallee => calls_hint(alloc, text, sections, place),
        RefusalKind::NoMain => Ok(near_hint(find_nearest(text, b"main", &titles))),
        RefusalKind::TooManyProcedures => Ok(count_hint(limits, &titles)),
        RefusalKind::BadByte => Ok(Hint::None),
        RefusalKind::NumberTooLarge => Ok(Hint::None),
        RefusalKind::NameTooLong => Ok(Hint::None),
        RefusalKind::Syntax => Ok(Hint::None),
        RefusalKind::Unclosed => Ok(Hint::None),
        RefusalKind::TextTooLong => Ok(Hint::None),
    }
}
