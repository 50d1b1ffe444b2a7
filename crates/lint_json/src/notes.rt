// The lines of notes.

ghost use Rattle.std.specs.Prelude.{◌≡◌, ◌<◌, ◌++◌, All, OnOk, flat_map, true};
ghost use Rattle.flow_graph.specs.Points.{point_count};
ghost use Rattle.lint_json.specs.LintJson.{later_line, lint_notes, more_turns_line, turn_line, way_lines};
ghost use Rattle.lint_texts.specs.LintTexts.{behind_first, is_turn, uses_told};
ghost use Rattle.lint_texts.specs.code.Lines.{AreLintLines, known_in};
ghost use Rattle.lint_texts.specs.code.Uses.{ways_in};

use crate::OutOfMemory;
use crate::ends::write_begin;
use crate::remarks::{write_place, write_procedure};
use flow_lints::Lint;
use flow_why::Hop;
use lint_styles::write_size;
use lint_texts::{LintLines, later_words, turn_point, turn_words, unset_variable};
use std::alloc::Global;
use std::marker::Model;
use text_pieces::{Pieces, Sink, Text, whole_text, write_quoted};

/// The line of a note at a point that says this.
#[derive(Drop)]
struct NoteText<'a> {
    kind: &'a [u8],
    name: &'a [u8],
    lines: &'a LintLines<'a>,
    point: u32,
    words: &'a [u8],
}

impl<'a> Model for NoteText<'a> {
    ghost use Rattle.std.specs.Prelude.{◌<◌, List, ℕ};
    ghost use Rattle.flow_graph.specs.Points.{point_count};
    ghost use Rattle.lint_json.specs.LintJson.{note_line_of};
    ghost use Rattle.lint_texts.specs.code.Lines.{AreLintLines};

    ghost Value = { List ℕ };

    ghost view = { λ text. note_line_of text.kind.now text.name.now text.lines.now.file.text.now text.lines.now.graph.now text.point text.words.now };

    ghost invariant = { λ text. AreLintLines text.lines.now × (text.point < point_count text.lines.now.graph.now) };
}

impl<'a> Text for NoteText<'a> {
    ghost bytes = { λ text. text };

    fn write<K: Sink>(&self, out: &mut Pieces<'_, K>) {
        write_begin(out, self.kind, self.name);
        write_place(out, self.lines, self.lines.point_start(self.point));
        out.write(b",\"words\":");
        write_quoted(out, self.words);
        write_procedure(out, self.lines, self.point);
        out.write(b"}\n");
    }
}

/// The line that tells how many turns are left out.
#[derive(Clone, Copy)]
struct MoreText<'a> {
    name: &'a [u8],
    count: usize,
}

impl<'a> Text for MoreText<'a> {
    ghost use Rattle.lint_json.specs.LintJson.{more_turns_line};

    ghost bytes = { λ text. more_turns_line text.name.now text.count };

    fn write<K: Sink>(&self, out: &mut Pieces<'_, K>) {
        if self.count > 0 {
            write_begin(out, b"more_turns", self.name);
            out.write(b",\"count\":");
            write_size(out, self.count);
            out.write(b"}\n");
        }
    }
}

// Puts the line of a turn behind a text.
fn push_turn(
    alloc: Global,
    text: &mut Vec<u8>,
    name: &[u8],
    lines: &LintLines<'_>,
    turn: Hop,
) -> Result<(), OutOfMemory>
    requires lines { AreLintLines lines.now }
    requires turn { is_turn lines.now.graph.now turn ≡ true }
    ensures { OnOk result (text.new.items ≡ text.old.items ++ turn_line name.now lines.now.file.text.now lines.now.graph.now turn) }
{
    let words = turn_words(alloc, lines, turn)?;
    let line = whole_text(
        alloc,
        &NoteText {
            kind: b"turn",
            name,
            lines,
            point: turn_point(turn),
            words: words.as_slice(),
        },
    )?;
    text.extend_from_slice(line.as_slice())?;
    Ok(())
}

// Puts the lines of turns behind a text.
fn push_turns(
    alloc: Global,
    text: &mut Vec<u8>,
    name: &[u8],
    lines: &LintLines<'_>,
    turns: &[Hop],
) -> Result<(), OutOfMemory>
    requires lines { AreLintLines lines.now }
    requires turns { All (λ turn. is_turn lines.now.graph.now turn ≡ true) turns.now }
    ensures { OnOk result (text.new.items ≡ text.old.items
        ++ flat_map (turn_line name.now lines.now.file.text.now lines.now.graph.now) turns.now) }
{
    for turn in turns {
        push_turn(alloc, text, name, lines, *turn)?;
    }
    Ok(())
}

// Puts the lines of the way to the first use of a variable behind a text.
fn push_told_way(
    alloc: Global,
    text: &mut Vec<u8>,
    name: &[u8],
    lines: &LintLines<'_>,
    variable: u32,
) -> Result<(), OutOfMemory>
    requires { AreLintLines lines.now }
    ensures { OnOk result (text.new.items ≡ text.old.items
        ++ (flat_map (turn_line name.now lines.now.file.text.now lines.now.graph.now) (ways_in lines.now.ways.items variable).turns
        ++ more_turns_line name.now (ways_in lines.now.ways.items variable).left_out)) }
{
    push_turns(alloc, text, name, lines, lines.turns(variable))?;
    let more = whole_text(
        alloc,
        &MoreText {
            name,
            count: lines.left_out(variable),
        },
    )?;
    text.extend_from_slice(more.as_slice())?;
    Ok(())
}

// Puts the lines of the way to the first use of a variable behind a text, where ways are asked for.
fn push_way(
    alloc: Global,
    text: &mut Vec<u8>,
    name: &[u8],
    lines: &LintLines<'_>,
    variable: u32,
) -> Result<(), OutOfMemory>
    requires { AreLintLines lines.now }
    ensures { OnOk result (text.new.items ≡ text.old.items
        ++ way_lines name.now lines.now.file.text.now lines.now.telling lines.now.graph.now (ways_in lines.now.ways.items variable)) }
{
    if lines.telling.why {
        push_told_way(alloc, text, name, lines, variable)
    } else {
        Ok(())
    }
}

// Puts the line of a later use behind a text.
fn push_later(
    alloc: Global,
    text: &mut Vec<u8>,
    name: &[u8],
    lines: &LintLines<'_>,
    variable: u32,
    point: u32,
) -> Result<(), OutOfMemory>
    requires lines { AreLintLines lines.now }
    requires point { point < point_count lines.now.graph.now }
    ensures { OnOk result (text.new.items ≡ text.old.items ++ later_line name.now lines.now.file.text.now lines.now.graph.now variable point) }
{
    let words = later_words(alloc, lines, variable)?;
    let line = whole_text(
        alloc,
        &NoteText {
            kind: b"later",
            name,
            lines,
            point,
            words: words.as_slice(),
        },
    )?;
    text.extend_from_slice(line.as_slice())?;
    Ok(())
}

// Puts the lines of all later uses of a variable behind a text.
fn push_all_later(
    alloc: Global,
    text: &mut Vec<u8>,
    name: &[u8],
    lines: &LintLines<'_>,
    variable: u32,
) -> Result<(), OutOfMemory>
    requires { AreLintLines lines.now }
    ensures { OnOk result (text.new.items ≡ text.old.items
        ++ flat_map (later_line name.now lines.now.file.text.now lines.now.graph.now variable)
        (behind_first (uses_told lines.now.telling lines.now.graph.now lines.now.linted.now variable))) }
{
    let mut number = lines.second(variable);
    while let Some(one) = lines.numbered(number) {
        push_later(alloc, text, name, lines, variable, one.point)?;
        number = one.next;
    }
    Ok(())
}

/// Puts the lines of the notes of a lint behind a text.
pub(crate) fn push_notes(
    alloc: Global,
    text: &mut Vec<u8>,
    name: &[u8],
    lines: &LintLines<'_>,
    lint: Lint,
) -> Result<(), OutOfMemory>
    requires { AreLintLines lines.now }
    ensures { OnOk result (text.new.items ≡ text.old.items
        ++ lint_notes name.now lines.now.file.text.now lines.now.telling lines.now.graph.now (known_in lines.now) lint) }
{
    match unset_variable(lint) {
        Some(variable) => {
            push_way(alloc, text, name, lines, variable)?;
            push_all_later(alloc, text, name, lines, variable)
        }
        None => Ok(()),
    }
}
