// What stands behind the remark that a variable may be used before it is set: the way there, and the later uses.

ghost use Rattle.std.specs.Prelude.{◌≡◌, ◌<◌, ℕ, List, All, flat_map, true};
ghost use Rattle.flow_graph.specs.Points.{point_count};
ghost use Rattle.lint_texts.specs.LintTexts.{behind_first, file_text, is_first as is_first_lint, is_first_of, is_turn, later_lines, later_words};
ghost use Rattle.lint_texts.specs.LintTexts.{left_out_line, left_out_words, lint_notes, note_begin, note_end, turn_lines, turn_point as point_of_turn, turn_words};
ghost use Rattle.lint_texts.specs.LintTexts.{uses_told, way_lines};
ghost use Rattle.lint_texts.specs.code.Lines.{AreLintLines};
ghost use Rattle.lint_texts.specs.code.Uses.{Follow, IsNext, ways_in};
ghost use Rattle.text_pieces.specs.Pieces.{CanWrite, Writes};

use crate::lines::LintLines;
use crate::uses::{Use, unset_variable};
use flow_lints::{Lint, PlacedLint};
use flow_texts::{line, write_number};
use flow_why::Hop;
use lint_styles::{Hue, write_painted, write_shown, write_size};
use text_pieces::{Pieces, Sink};

/// The point from which a turn leads on.
pub fn turn_point(turn: Hop) -> u32
    ensures { result ≡ point_of_turn turn }
{
    match turn {
        Hop::Step { from, to: _ } => from,
        Hop::Enter {
            site: _,
            from,
            to: _,
        } => from,
        Hop::Pass {
            site: _,
            from,
            callee: _,
            to: _,
            effect: _,
        } => from,
    }
}

// Writes how many turns are left out.
fn write_left_out<K: Sink>(out: &mut Pieces<'_, K>, count: usize)
    requires { CanWrite K.Sink out.old }
    ensures { Writes K.Sink out.old out.new (left_out_words count) }
{
    if count == 1 {
        out.write(b"1 more turn of the way is left out");
    } else {
        write_size(out, count);
        out.write(b" more turns of the way are left out");
    }
}

impl LintLines<'_> {
    // Whether a point is the first at which a variable may be used before it is set.
    fn is_first_use(&self, variable: u32, point: u32) -> bool
        requires { AreLintLines self.now }
        ensures { result ≡ is_first_of (uses_told self.now.telling self.now.graph.now self.now.linted.now variable) point }
    {
        match self.uses.first(variable) {
            Some(first) => first.point == point,
            None => true,
        }
    }

    /// Whether a lint is told by itself: it is not that a variable may be used before it is set at a later point than its first.
    pub fn is_first(&self, placed: PlacedLint) -> bool
        requires { AreLintLines self.now }
        ensures { result ≡ is_first_lint (uses_told self.now.telling self.now.graph.now self.now.linted.now) placed }
    {
        match unset_variable(placed.lint) {
            Some(variable) => self.is_first_use(variable, placed.point),
            None => true,
        }
    }

    /// The number of the use of a variable behind its first; 0 where there is none.
    pub fn second(&self, variable: u32) -> usize
        requires { AreLintLines self.now }
        ensures { Follow self.now.uses.uses.items result (behind_first (uses_told self.now.telling self.now.graph.now self.now.linted.now variable)) }
    {
        match self.uses.first(variable) {
            Some(first) => first.next,
            None => 0,
        }
    }

    /// The use of a number, from 1. None where it is 0.
    pub fn numbered(&self, number: usize) -> Option<Use>
        ensures { (points : List ℕ) → Follow self.now.uses.uses.items number points → IsNext self.now.uses.uses.items number points result }
    {
        self.uses.numbered(number)
    }

    /// The turns of the way to the first use of a variable that are told.
    pub fn turns(&self, variable: u32) -> &[Hop]
        ensures { result.now ≡ (ways_in self.now.ways.items variable).turns }
    {
        match self.ways.get(variable as usize) {
            Some(way) => way.turns.as_slice(),
            None => &[],
        }
    }

    /// How many turns more it has.
    pub fn left_out(&self, variable: u32) -> usize
        ensures { result ≡ (ways_in self.now.ways.items variable).left_out }
    {
        match self.ways.get(variable as usize) {
            Some(way) => way.left_out,
            None => 0,
        }
    }

    /// Writes where a way goes on from a turn.
    pub fn write_turn_words<K: Sink>(&self, out: &mut Pieces<'_, K>, turn: Hop)
        requires ready { CanWrite K.Sink out.old }
        requires turn { is_turn self.now.graph.now turn ≡ true }
        ensures { Writes K.Sink out.old out.new (turn_words self.now.graph.now turn) }
    {
        match turn {
            Hop::Step { from: _, to } => {
                out.write(b"the way leads on to line ");
                write_number(out, line(self.graph, to));
            }
            Hop::Enter {
                site: _,
                from: _,
                to,
            } => {
                out.write(b"the way leads into ");
                out.write(self.procedure(self.graph.place(to).procedure));
            }
            Hop::Pass {
                site: _,
                from: _,
                callee,
                to: _,
                effect: _,
            } => {
                out.write(b"the way leads past this call, by way of ");
                out.write(self.procedure(callee));
            }
        }
    }

    // Writes the beginning of a note at a point.
    fn write_note_begin<K: Sink>(&self, out: &mut Pieces<'_, K>, point: u32)
        requires ready { CanWrite K.Sink out.old }
        requires lines { AreLintLines self.now }
        requires point { point < point_count self.now.graph.now }
        ensures { Writes K.Sink out.old out.new
            (note_begin (file_text self.now.file) self.now.telling.style self.now.graph.now point) }
    {
        self.write_place(out, self.point_start(point));
        write_painted(out, self.telling.style, Hue::Note, b"note");
        out.write(b": ");
    }

    // Writes the end of a note at a point, with the line of the source.
    fn write_note_end<K: Sink>(&self, out: &mut Pieces<'_, K>, point: u32)
        requires ready { CanWrite K.Sink out.old }
        requires lines { AreLintLines self.now }
        requires point { point < point_count self.now.graph.now }
        ensures { Writes K.Sink out.old out.new
            (note_end (file_text self.now.file) self.now.telling.style self.now.graph.now point) }
    {
        out.write(b"\n");
        self.write_source(out, self.point_start(point));
    }

    // Writes the lines of a turn.
    fn write_turn<K: Sink>(&self, out: &mut Pieces<'_, K>, turn: Hop)
        requires ready { CanWrite K.Sink out.old }
        requires lines { AreLintLines self.now }
        requires turn { is_turn self.now.graph.now turn ≡ true }
        ensures { Writes K.Sink out.old out.new (turn_lines (file_text self.now.file) self.now.telling.style self.now.graph.now turn) }
    {
        let from = turn_point(turn);
        self.write_note_begin(out, from);
        self.write_turn_words(out, turn);
        self.write_note_end(out, from);
    }

    // Writes the lines of the turns of a way.
    fn write_turns<K: Sink>(&self, out: &mut Pieces<'_, K>, turns: &[Hop])
        requires ready { CanWrite K.Sink out.old }
        requires lines { AreLintLines self.now }
        requires turns { All (λ turn. is_turn self.now.graph.now turn ≡ true) turns.now }
        ensures { Writes K.Sink out.old out.new (flat_map (turn_lines (file_text self.now.file) self.now.telling.style self.now.graph.now) turns.now) }
    {
        for turn in turns {
            self.write_turn(out, *turn);
        }
    }

    // Writes how many turns are left out, where some are.
    fn write_left_out_line<K: Sink>(&self, out: &mut Pieces<'_, K>, count: usize)
        requires { CanWrite K.Sink out.old }
        ensures { Writes K.Sink out.old out.new (left_out_line self.now.file.name.now self.now.telling.style count) }
    {
        if count > 0 {
            write_shown(out, self.file.name);
            out.write(b": ");
            write_painted(out, self.telling.style, Hue::Note, b"note");
            out.write(b": ");
            write_left_out(out, count);
            out.write(b"\n");
        }
    }

    // Writes the way to the first use of a variable, where ways are asked for.
    fn write_way<K: Sink>(&self, out: &mut Pieces<'_, K>, variable: u32)
        requires ready { CanWrite K.Sink out.old }
        requires lines { AreLintLines self.now }
        ensures { Writes K.Sink out.old out.new
            (way_lines (file_text self.now.file) self.now.telling self.now.graph.now (ways_in self.now.ways.items variable)) }
    {
        if self.telling.why {
            self.write_turns(out, self.turns(variable));
            self.write_left_out_line(out, self.left_out(variable));
        }
    }

    // Writes the lines of a later use.
    fn write_later<K: Sink>(&self, out: &mut Pieces<'_, K>, variable: u32, point: u32)
        requires ready { CanWrite K.Sink out.old }
        requires lines { AreLintLines self.now }
        requires point { point < point_count self.now.graph.now }
        ensures { Writes K.Sink out.old out.new
            (later_lines (file_text self.now.file) self.now.telling.style self.now.graph.now variable point) }
    {
        self.write_note_begin(out, point);
        self.write_later_words(out, variable);
        self.write_note_end(out, point);
    }

    /// Writes what a later use of a variable says.
    pub fn write_later_words<K: Sink>(&self, out: &mut Pieces<'_, K>, variable: u32)
        requires { CanWrite K.Sink out.old }
        ensures { Writes K.Sink out.old out.new (later_words self.now.graph.now variable) }
    {
        out.write(self.variable(variable));
        out.write(b" may be used before it is set here too");
    }

    // Writes the lines of all later uses of a variable.
    fn write_all_later<K: Sink>(&self, out: &mut Pieces<'_, K>, variable: u32)
        requires ready { CanWrite K.Sink out.old }
        requires lines { AreLintLines self.now }
        ensures { Writes K.Sink out.old out.new
            (flat_map (later_lines (file_text self.now.file) self.now.telling.style self.now.graph.now variable)
            (behind_first (uses_told self.now.telling self.now.graph.now self.now.linted.now variable))) }
    {
        let mut number = self.second(variable);
        while let Some(one) = self.numbered(number) {
            self.write_later(out, variable, one.point);
            number = one.next;
        }
    }

    // Writes the notes of a lint that is told as a remark.
    pub(crate) fn write_notes<K: Sink>(&self, out: &mut Pieces<'_, K>, lint: Lint)
        requires ready { CanWrite K.Sink out.old }
        requires lines { AreLintLines self.now }
        ensures { Writes K.Sink out.old out.new
            (lint_notes (file_text self.now.file) self.now.telling self.now.graph.now
            (uses_told self.now.telling self.now.graph.now self.now.linted.now) (ways_in self.now.ways.items) lint) }
    {
        if let Some(variable) = unset_variable(lint) {
            self.write_way(out, variable);
            self.write_all_later(out, variable);
        }
    }
}
