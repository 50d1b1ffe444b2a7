// The lines of lints.

ghost use Rattle.std.specs.Prelude.{◌≡◌, ◌<◌, ◌++◌, flat_map, OnOk};
ghost use Rattle.flow_graph.specs.Points.{point_count};
ghost use Rattle.lint_json.specs.LintJson.{lint_name, lint_notes, place_fields, procedure_field, remark_line, remark_name, told_lines, words_fields};
ghost use Rattle.lint_texts.specs.code.Lines.{AreLintLines, known_in, reached_in};
ghost use Rattle.text_pieces.specs.Pieces.{CanWrite, Writes};

use crate::OutOfMemory;
use crate::ends::write_begin;
use crate::notes::push_notes;
use flow_lints::{Lint, PlacedLint};
use flow_reports::Remark;
use flow_texts::line;
use lint_styles::write_size;
use lint_texts::{LintLines, Start, kind_name, words_of};
use std::alloc::Global;
use std::marker::Model;
use text_pieces::{Pieces, Sink, Text, whole_text, write_quoted};

// Writes where something is told.
pub(crate) fn write_place<K: Sink>(out: &mut Pieces<'_, K>, lines: &LintLines<'_>, start: Start)
    requires { CanWrite K.Sink out.old }
    ensures { Writes K.Sink out.old out.new (place_fields lines.now.file.text.now start) }
{
    out.write(b",\"line\":");
    write_size(out, start.line as usize);
    out.write(b",\"column\":");
    write_size(out, lines.column(start.place));
}

// Writes what a remark names.
fn write_remark_name<K: Sink>(
    out: &mut Pieces<'_, K>,
    lines: &LintLines<'_>,
    point: u32,
    remark: Remark,
)
    requires ready { CanWrite K.Sink out.old }
    requires lines { AreLintLines lines.now }
    requires point { point < point_count lines.now.graph.now }
    ensures { Writes K.Sink out.old out.new (remark_name lines.now.graph.now (reached_in lines.now) point remark) }
{
    match remark {
        Remark::NeverReached => {
            out.write(b",\"last_line\":");
            write_size(out, line(lines.graph, lines.last_unreached(point)) as usize);
        }
        Remark::Unset { variable } => {
            out.write(b",\"variable\":");
            write_quoted(out, lines.variable(variable));
        }
        Remark::Computed { expression } => {
            out.write(b",\"expression\":");
            write_quoted(out, lines.expression(expression));
        }
        Remark::VeryBusy { expression } => {
            out.write(b",\"expression\":");
            write_quoted(out, lines.expression(expression));
        }
        Remark::Dead { variable } => {
            out.write(b",\"variable\":");
            write_quoted(out, lines.variable(variable));
        }
    }
}

// Writes what a lint names.
fn write_name<K: Sink>(out: &mut Pieces<'_, K>, lines: &LintLines<'_>, placed: PlacedLint)
    requires ready { CanWrite K.Sink out.old }
    requires lines { AreLintLines lines.now }
    requires point { placed.point < point_count lines.now.graph.now }
    ensures { Writes K.Sink out.old out.new (lint_name lines.now.graph.now (reached_in lines.now) placed.point placed.lint) }
{
    match placed.lint {
        Lint::NeverCalled { .. } => {}
        Lint::Told { remark } => write_remark_name(out, lines, placed.point, remark),
    }
}

// Writes in which procedure a point lies.
pub(crate) fn write_procedure<K: Sink>(out: &mut Pieces<'_, K>, lines: &LintLines<'_>, point: u32)
    requires ready { CanWrite K.Sink out.old }
    requires point { point < point_count lines.now.graph.now }
    ensures { Writes K.Sink out.old out.new (procedure_field lines.now.graph.now point) }
{
    out.write(b",\"procedure\":");
    write_quoted(out, lines.procedure(lines.graph.place(point).procedure));
}

// Writes of which kind a lint is, and what it says.
fn write_words<K: Sink>(out: &mut Pieces<'_, K>, lint: Lint, words: &[u8])
    requires { CanWrite K.Sink out.old }
    ensures { Writes K.Sink out.old out.new (words_fields lint words.now) }
{
    out.write(b",\"kind\":");
    write_quoted(out, kind_name(lint));
    out.write(b",\"words\":");
    write_quoted(out, words);
}

/// The line of a lint that says this.
#[derive(Drop)]
struct RemarkText<'a> {
    name: &'a [u8],
    lines: &'a LintLines<'a>,
    placed: PlacedLint,
    words: &'a [u8],
}

impl<'a> Model for RemarkText<'a> {
    ghost use Rattle.std.specs.Prelude.{◌<◌, List, ℕ};
    ghost use Rattle.flow_graph.specs.Points.{point_count};
    ghost use Rattle.lint_json.specs.LintJson.{remark_line_of};
    ghost use Rattle.lint_texts.specs.code.Lines.{AreLintLines, reached_in};

    ghost Value = { List ℕ };

    ghost view = { λ text. remark_line_of text.name.now text.lines.now.file.text.now text.lines.now.graph.now (reached_in text.lines.now) text.placed
        text.words.now };

    ghost invariant = { λ text. AreLintLines text.lines.now × (text.placed.point < point_count text.lines.now.graph.now) };
}

impl<'a> Text for RemarkText<'a> {
    ghost bytes = { λ text. text };

    fn write<K: Sink>(&self, out: &mut Pieces<'_, K>) {
        let placed = self.placed;
        write_begin(out, b"remark", self.name);
        write_place(out, self.lines, self.lines.told_start(placed.point));
        write_words(out, placed.lint, self.words);
        write_name(out, self.lines, placed);
        write_procedure(out, self.lines, placed.point);
        out.write(b"}\n");
    }
}

// Puts the line of a lint behind a text.
fn push_remark(
    alloc: Global,
    text: &mut Vec<u8>,
    name: &[u8],
    lines: &LintLines<'_>,
    placed: PlacedLint,
) -> Result<(), OutOfMemory>
    requires lines { AreLintLines lines.now }
    requires point { placed.point < point_count lines.now.graph.now }
    ensures { OnOk result (text.new.items ≡ text.old.items
        ++ remark_line name.now lines.now.file.text.now lines.now.graph.now (reached_in lines.now) placed) }
{
    let words = words_of(alloc, lines, placed)?;
    let line = whole_text(
        alloc,
        &RemarkText {
            name,
            lines,
            placed,
            words: words.as_slice(),
        },
    )?;
    text.extend_from_slice(line.as_slice())?;
    Ok(())
}

// Puts the line of a lint and those of its notes behind a text.
fn push_noted(
    alloc: Global,
    text: &mut Vec<u8>,
    name: &[u8],
    lines: &LintLines<'_>,
    placed: PlacedLint,
) -> Result<(), OutOfMemory>
    requires lines { AreLintLines lines.now }
    requires point { placed.point < point_count lines.now.graph.now }
    ensures { OnOk result (text.new.items ≡ text.old.items
        ++ (remark_line name.now lines.now.file.text.now lines.now.graph.now (reached_in lines.now) placed
        ++ lint_notes name.now lines.now.file.text.now lines.now.telling lines.now.graph.now (known_in lines.now) placed.lint)) }
{
    push_remark(alloc, text, name, lines, placed)?;
    push_notes(alloc, text, name, lines, placed.lint)
}

// Puts the lines of a lint there where it is told as a remark.
fn push_told(
    alloc: Global,
    text: &mut Vec<u8>,
    name: &[u8],
    lines: &LintLines<'_>,
    placed: PlacedLint,
) -> Result<(), OutOfMemory>
    requires lines { AreLintLines lines.now }
    requires point { placed.point < point_count lines.now.graph.now }
    ensures { OnOk result (text.new.items ≡ text.old.items
        ++ told_lines name.now lines.now.file.text.now lines.now.telling lines.now.graph.now (known_in lines.now) placed) }
{
    if lines.tells(placed) {
        push_noted(alloc, text, name, lines, placed)
    } else {
        Ok(())
    }
}

/// Puts the lines of all lints that are told behind a text.
pub(crate) fn push_lints(
    alloc: Global,
    text: &mut Vec<u8>,
    name: &[u8],
    lines: &LintLines<'_>,
) -> Result<(), OutOfMemory>
    requires { AreLintLines lines.now }
    ensures { OnOk result (text.new.items ≡ text.old.items
        ++ flat_map (told_lines name.now lines.now.file.text.now lines.now.telling lines.now.graph.now (known_in lines.now))
        lines.now.linted.now.lints.items) }
{
    let lints = lines.linted.lints.as_slice();
    for placed in lints {
        push_told(alloc, text, name, lines, *placed)?;
    }
    Ok(())
}
