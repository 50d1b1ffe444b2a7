// Of each line that has faults the first one.

ghost use Rattle.std.specs.Prelude.{◌≡◌, ◌<◌, ◌≤◌, ◌^◌, ◌++◌, take, length, false, IfOk, IfSome, OnOk};
ghost use Rattle.tac_faults.specs.Listed.{first_faults, inside_behind as inside_behind_line, inside_next as inside_after_line, is_meant as meant};
ghost use Rattle.tac_faults.specs.Listed.{most_found, words_from, words_of};
ghost use Rattle.tac_lines.specs.Tokens.{rows};
ghost use Rattle.tac_lines.specs.code.Views.{fault_list, tokens_view};
ghost use Rattle.tac_program.specs.Limits.{longest_text};
ghost use Rattle.tac_program.specs.declared.limits.Limits.TheVariants.{Large};

use crate::near::{is_near, is_same_but_for_capitals};
use crate::places::{name_at, not_ascii_stop, stands};
use crate::row::read_row;
use crate::told::{MOST_FOUND, tell};
use std::alloc::Global;
use tac_lines::lex::{is_end, is_proc, line_stop};
use tac_lines::{Fault, Keyword, OutOfMemory, RefusalKind, Slot, Token, row_fault};

/// Whether the keyword is meant by a name that the first word is.
fn is_meant(text: &[u8], tokens: &[Token], keyword: Keyword) -> bool
    ensures { meant keyword (tokens_view text.now tokens.now) ≡ result }
{
    let name = name_at(text, tokens, 0);
    is_same_but_for_capitals(name, keyword.text()) || is_near(name, keyword.text())
}

/// Whether the line behind one that is refused stands inside a procedure.
fn inside_behind(inside: bool, text: &[u8], tokens: &[Token]) -> bool
    ensures { inside_behind_line inside (tokens_view text.now tokens.now) ≡ result }
{
    if stands(Slot::Keyword(Keyword::Proc), tokens, 0)
        || (tokens.len() == 2 && is_meant(text, tokens, Keyword::Proc))
    {
        true
    } else if stands(Slot::Keyword(Keyword::End), tokens, 0)
        || (tokens.len() == 1 && is_meant(text, tokens, Keyword::End))
    {
        false
    } else {
        inside
    }
}

/// Puts the words of the line that begins at the place in the place of `row`'s.
fn read_from(row: &mut Vec<Token>, text: &[u8], place: usize) -> Result<(), OutOfMemory>
    requires { length text.now < 2 ^ 32 }
    ensures { OnOk result (tokens_view text.now row.new.items ≡ words_from text.now place) }
{
    if place >= text.len() {
        row.clear();
        return Ok(());
    }
    let stop = line_stop(text, place);
    let _ = read_row(row, text, place, stop)?;
    Ok(())
}

/// Where there are no tokens before the line's bad byte, puts those there that stand behind the bytes
/// beyond ASCII with which the line begins.
fn read_words(row: &mut Vec<Token>, text: &[u8], bad: Option<u32>) -> Result<(), OutOfMemory>
    requires small { length text.now < 2 ^ 32 }
    requires within { IfSome bad (λ place. place ≤ length text.now) }
    ensures { OnOk result (tokens_view text.now row.new.items ≡ words_of text.now (tokens_view text.now row.old.items) bad) }
{
    if !row.is_empty() {
        return Ok(());
    }
    match bad {
        None => Ok(()),
        Some(place) => read_from(row, text, not_ascii_stop(text, place as usize)),
    }
}

/// Whether the line behind this one, whose first fault is given, stands inside a procedure. The row is
/// read anew where that tells it.
fn inside_next(
    inside: bool,
    text: &[u8],
    row: &mut Vec<Token>,
    bad: Option<u32>,
    fault: Option<Fault>,
) -> Result<bool, OutOfMemory>
    requires small { length text.now < 2 ^ 32 }
    requires within { IfSome bad (λ place. place ≤ length text.now) }
    ensures { IfOk result
        (λ next. next ≡ inside_after_line text.now inside (record { tokens = tokens_view text.now row.old.items; bad = bad }) fault) }
{
    match fault {
        None => Ok(is_proc(row) || (inside && !is_end(row))),
        Some(_) => {
            read_words(row, text, bad)?;
            Ok(inside_behind(inside, text, row))
        }
    }
}

/// Puts the fault last, where there is one.
fn tell_found(found: &mut Vec<Fault>, fault: Option<Fault>) -> Result<(), OutOfMemory>
    ensures { OnOk result (take most_found found.new.items ≡ take most_found (found.old.items ++ fault_list fault)) }
{
    match fault {
        None => Ok(()),
        Some(fault) => tell(found, true, fault.kind, fault.place),
    }
}

/// The first faults of the lines of a text, in the order of lines, at least as many as are looked for.
pub fn line_faults(alloc: Global, text: &[u8]) -> Result<Vec<Fault>, OutOfMemory>
    requires { length text.now ≤ longest_text Large }
    ensures { IfOk result (λ found.
        take most_found found.items ≡ take most_found (first_faults text.now false (rows text.now))) }
{
    let mut found = Vec::new(alloc);
    let mut row = Vec::new(alloc);
    let mut inside = false;
    let mut at = 0;
    while at < text.len() {
        if found.len() >= MOST_FOUND {
            return Ok(found);
        }
        let stop = line_stop(text, at);
        let bad = read_row(&mut row, text, at, stop)?;
        let fault = row_fault(inside, text, &row, bad);
        let next = inside_next(inside, text, &mut row, bad, fault)?;
        tell_found(&mut found, fault)?;
        inside = next;
        at = stop;
    }
    tell(&mut found, inside, RefusalKind::Unclosed, text.len() as u32)?;
    Ok(found)
}
