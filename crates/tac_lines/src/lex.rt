// The lines of a text by their tokens, or its first fault of a line.

ghost use Rattle.std.specs.Prelude.{◌≡◌, ◌+◌, ◌<◌, ◌≤◌, ◌++◌, ℕ, List, Option, [], ◌∷◌, false, Some, None, length, drop, slice_range, IfOk};
ghost use Rattle.std.specs.Prelude.{IfErr, OnOk};
ghost use Rattle.tac_lines.specs.LineFaults.{first_by_place, line_faults, inside_after as inside_behind};
ghost use Rattle.tac_program.specs.Limits.{longest_text};
ghost use Rattle.tac_program.specs.declared.limits.Limits.TheVariants.{Large};
ghost use Rattle.tac_lines.specs.Forms.{has_form, proc_form, end_form};
ghost use Rattle.tac_lines.specs.Tokens.{token_lines, rows};
ghost use Rattle.tac_lines.specs.Text.{lines};
ghost use Rattle.tac_lines.specs.code.Formed.{AreLines};
ghost use Rattle.tac_lines.specs.code.Lexed.{some_of, text_lines, IfFault};
ghost use Rattle.tac_lines.specs.code.Ranges.{range_views};
ghost use Rattle.tac_lines.specs.code.Views.{tokens_view};

use crate::OutOfMemory;
use crate::fault::{Fault, Stop};
use crate::form::{END, PROC, Slot, Walk, fits_at, follow};
use crate::formed::{Line, counted};
use crate::lexed::{Lexed, LineRange};
use crate::line::line_fault;
use crate::piece::line_run;
use crate::refusal::RefusalKind;
use crate::row::read_row;
use crate::token::{Keyword, Token};
use std::alloc::Global;

/// Where the line that begins at `start` ends, behind its line feed.
pub fn line_stop(text: &[u8], start: usize) -> usize
    requires { start < length text.now }
    ensures line { lines (drop start text.now) ≡ slice_range text.now start result ∷ lines (drop result text.now) }
    ensures after { start < result }
    ensures within { result ≤ length text.now }
{
    let stop = start + line_run(&text[start..]);
    if stop < text.len() { stop + 1 } else { stop }
}

/// Whether the line opens a procedure.
pub fn is_proc(tokens: &[Token]) -> bool
    ensures { (text : List ℕ) → has_form proc_form (tokens_view text tokens.now) ≡ result }
{
    if !fits_at(Slot::Keyword(Keyword::Proc), tokens, 0) {
        return false;
    }
    matches!(follow(&PROC, tokens), Walk::Whole)
}

/// Whether the line closes a procedure.
pub fn is_end(tokens: &[Token]) -> bool
    ensures { (text : List ℕ) → has_form end_form (tokens_view text tokens.now) ≡ result }
{
    if !fits_at(Slot::Keyword(Keyword::End), tokens, 0) {
        return false;
    }
    matches!(follow(&END, tokens), Walk::Whole)
}

/// Whether the next line stands inside a procedure.
fn inside_after(inside: bool, tokens: &[Token]) -> bool
    ensures { (text : List ℕ) (bad : Option ℕ) → inside_behind inside (record { tokens = tokens_view text tokens.now; bad = bad }) ≡ result }
{
    is_proc(tokens) || (inside && !is_end(tokens))
}

/// Puts a line last, where it has tokens.
fn push_line(
    tokens: &mut Vec<Token>,
    lines: &mut Vec<LineRange>,
    line: Line<'_>,
) -> Result<(), OutOfMemory>
    requires { AreLines tokens.old.items lines.old.items }
    ensures lines { OnOk result (AreLines tokens.new.items lines.new.items) }
    ensures pushed { OnOk result
        (range_views tokens.new.items lines.new.items ≡ range_views tokens.old.items lines.old.items ++ some_of line.entry.tokens.now) }
{
    if line.tokens.is_empty() {
        return Ok(());
    }
    let first = counted(tokens.len())?;
    tokens.extend_from_slice(line.tokens)?;
    let end = counted(tokens.len())?;
    lines.push(line.range(first, end))?;
    Ok(())
}

/// The lines of a text that have tokens, where no line has a fault; else the first fault.
pub fn lex(alloc: Global, text: &[u8]) -> Result<Lexed, Stop>
    requires { length text.now ≤ longest_text Large }
    ensures lines { IfOk result (λ lexed. text_lines text.now lexed ≡ token_lines (rows text.now)) }
    ensures faultless { OnOk result (first_by_place (line_faults false (length text.now) (rows text.now)) ≡ None) }
    ensures fault { IfErr result (IfFault (λ f. first_by_place (line_faults false (length text.now) (rows text.now)) ≡ Some f)) }
{
    // Room for what most texts have: a list that outgrows its room moves, and room that is not
    // written to takes no page.
    let mut tokens = Vec::with_capacity(alloc, text.len() / 4)?;
    let mut lines = Vec::with_capacity(alloc, text.len() / 8)?;
    let mut row = Vec::new(alloc);
    let mut inside = false;
    let mut at = 0;
    while at < text.len() {
        let stop = line_stop(text, at);
        let bad = read_row(inside, &mut row, text, at, stop)?;
        let line = Line::of(&row)?;
        if let Some(fault) = line_fault(inside, text, line, bad) {
            return Err(Stop::Fault(fault));
        }
        inside = inside_after(inside, line.tokens);
        push_line(&mut tokens, &mut lines, line)?;
        at = stop;
    }
    if inside {
        return Err(Stop::Fault(Fault {
            kind: RefusalKind::Unclosed,
            place: text.len() as u32,
        }));
    }
    Ok(Lexed { tokens, lines })
}
