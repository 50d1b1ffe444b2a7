// A text's procedures, by their lines.

ghost use Rattle.std.specs.Prelude.{◌≡◌, ◌<◌, ◌≤◌, ◌++◌, ℕ, List, length, map, flat_map, drop, take_while, take, slice_index_or, vec_len, IfOk, OnOk};
ghost use Rattle.tac_lines.specs.Forms.{behind_labels, cells_of, in_slot, labels_of, is_inner as is_inner_line};
ghost use Rattle.tac_lines.specs.code.Ranges.{range_view};
ghost use Rattle.tac_lines.specs.code.Roles.{role_test};
ghost use Rattle.tac_reader.specs.code.SectionViews.{lines_view, sections_view};
ghost use Rattle.tac_reader.specs.Sections.{sections_in, statements_of};
ghost use Rattle.tac_lines.specs.code.Views.{tokens_view};
ghost use Rattle.tac_lines.specs.declared.lexed.LineRange.{LineRange};

use crate::OutOfMemory;
use std::alloc::Global;
use tac_lines::lex::{is_end, is_proc};
use tac_lines::{Lines, Role, Token, cells, label_at};

/// A procedure: its name, and the lines between its `proc` line and its `end`.
#[derive(Clone, Copy)]
pub struct Section<'a> {
    pub title: Token,
    pub lines: Lines<'a>,
}

/// Whether the line neither opens nor closes a procedure.
fn is_inner(line: &[Token]) -> bool
    ensures { (text : List ℕ) → is_inner_line (tokens_view text line.now) ≡ result }
{
    !is_proc(line) && !is_end(line)
}

/// The lines from the place `first` on, up to the next one that opens or closes a procedure.
fn inner_lines<'a>(lines: Lines<'a>, first: usize) -> Lines<'a>
    requires { first ≤ length lines.ranges.now }
    ensures { (text : List ℕ)
        → lines_view text result ≡ take_while is_inner_line (map (range_view text lines.entry.tokens.now) (drop first lines.entry.ranges.now)) }
{
    let mut at = first;
    while at < lines.len() && is_inner(lines.line(at).tokens) {
        at += 1;
    }
    lines.part(first, at)
}

/// The procedures in text order: one for each `proc` line, with the lines up to the next `proc` or `end`.
pub fn sections<'a>(alloc: Global, lines: Lines<'a>) -> Result<Vec<Section<'a>>, OutOfMemory>
    ensures { IfOk result (λ found. (text : List ℕ) → sections_view text found.items ≡ sections_in (lines_view text lines.entry)) }
{
    let mut found = Vec::new(alloc);
    let mut at = 0;
    while at < lines.len() {
        let line = lines.line(at).tokens;
        at += 1;
        if is_proc(line) {
            found.push(Section {
                title: line[1],
                lines: inner_lines(lines, at),
            })?;
        }
    }
    Ok(found)
}

/// Appends the labels of a line.
fn line_labels(found: &mut Vec<Token>, line: &[Token]) -> Result<(), OutOfMemory>
    ensures kept { take (vec_len found.old) found.new.items ≡ found.old.items }
    ensures appended { OnOk result
        ((text : List ℕ) → tokens_view text found.new.items ≡ tokens_view text found.old.items ++ labels_of (tokens_view text line.now)) }
{
    let mut at = 0;
    while label_at(line, at) {
        found.push(line[at])?;
        at += 2;
    }
    Ok(())
}

/// Appends all labels of the lines. What is found already stays, also where memory runs out.
pub fn labels(found: &mut Vec<Token>, lines: Lines<'_>) -> Result<(), OutOfMemory>
    ensures kept { take (vec_len found.old) found.new.items ≡ found.old.items }
    ensures appended { OnOk result
        ((text : List ℕ) → tokens_view text found.new.items ≡ tokens_view text found.old.items ++ flat_map labels_of (lines_view text lines.entry)) }
{
    for at in 0..lines.len() {
        line_labels(found, lines.line(at).tokens)?;
    }
    Ok(())
}

/// Appends the tokens of the statement in the line there that stand in a place of that role. What is
/// found already stays, also where memory runs out.
pub fn line_cells(
    found: &mut Vec<Token>,
    role: Role,
    lines: Lines<'_>,
    at: usize,
) -> Result<(), OutOfMemory>
    requires { at < length lines.ranges.now }
    ensures kept { take (vec_len found.old) found.new.items ≡ found.old.items }
    ensures appended { OnOk result ((text : List ℕ) (r : LineRange) → tokens_view text found.new.items ≡ tokens_view text found.old.items ++ in_slot
        (role_test role) (cells_of (behind_labels (range_view text lines.entry.tokens.now (slice_index_or lines.entry.ranges.now at r))))) }
{
    if !lines.plays(at, role) {
        return Ok(());
    }
    cells(found, role, lines.line(at).statement())?;
    Ok(())
}

/// Appends the tokens of the lines' statements that stand in a place of that role. What is found
/// already stays, also where memory runs out.
pub fn section_cells(
    found: &mut Vec<Token>,
    role: Role,
    lines: Lines<'_>,
) -> Result<(), OutOfMemory>
    ensures kept { take (vec_len found.old) found.new.items ≡ found.old.items }
    ensures appended { OnOk result ((text : List ℕ) → tokens_view text found.new.items ≡ tokens_view text found.old.items
        ++ flat_map (λ statement. in_slot (role_test role) (cells_of statement)) (statements_of (lines_view text lines.entry))) }
{
    for at in 0..lines.len() {
        line_cells(found, role, lines, at)?;
    }
    Ok(())
}
