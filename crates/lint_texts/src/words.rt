// What lints and their notes say, made whole.

ghost use Rattle.std.specs.Prelude.{◌≡◌, ◌<◌, IfOk, true};
ghost use Rattle.flow_graph.specs.Points.{point_count};
ghost use Rattle.lint_texts.specs.LintTexts.{is_turn, later_words as words_of_later, lint_words, turn_words as words_of_turn};
ghost use Rattle.lint_texts.specs.code.Lines.{AreLintLines, reached_in};

use crate::OutOfMemory;
use crate::lines::LintLines;
use flow_lints::PlacedLint;
use flow_why::Hop;
use std::alloc::Global;
use std::marker::Model;
use text_pieces::{Pieces, Sink, Text, whole_text};

// What a lint says.
#[derive(Drop)]
struct WordsText<'a> {
    lines: &'a LintLines<'a>,
    placed: PlacedLint,
}

impl<'a> Model for WordsText<'a> {
    ghost use Rattle.std.specs.Prelude.{◌<◌, List, ℕ};
    ghost use Rattle.flow_graph.specs.Points.{point_count};
    ghost use Rattle.lint_texts.specs.LintTexts.{lint_words};
    ghost use Rattle.lint_texts.specs.code.Lines.{AreLintLines, reached_in};

    ghost Value = { List ℕ };

    ghost view = { λ text. lint_words text.lines.now.graph.now (reached_in text.lines.now) text.placed.point text.placed.lint };

    ghost invariant = { λ text. AreLintLines text.lines.now × (text.placed.point < point_count text.lines.now.graph.now) };
}

impl<'a> Text for WordsText<'a> {
    ghost bytes = { λ text. text };

    fn write<K: Sink>(&self, out: &mut Pieces<'_, K>) {
        self.lines.write_words(out, self.placed);
    }
}

/// What a lint says, made whole. Fails only where memory runs out.
pub fn words_of(
    alloc: Global,
    lines: &LintLines<'_>,
    placed: PlacedLint,
) -> Result<Vec<u8>, OutOfMemory>
    requires lines { AreLintLines lines.now }
    requires point { placed.point < point_count lines.now.graph.now }
    ensures { IfOk result (λ words. words.items ≡ lint_words lines.now.graph.now (reached_in lines.now) placed.point placed.lint) }
{
    whole_text(alloc, &WordsText { lines, placed })
}

// Where a way goes on from a turn.
#[derive(Drop)]
struct TurnText<'a> {
    lines: &'a LintLines<'a>,
    turn: Hop,
}

impl<'a> Model for TurnText<'a> {
    ghost use Rattle.std.specs.Prelude.{◌≡◌, List, ℕ, true};
    ghost use Rattle.lint_texts.specs.LintTexts.{is_turn, turn_words};

    ghost Value = { List ℕ };

    ghost view = { λ text. turn_words text.lines.now.graph.now text.turn };

    ghost invariant = { λ text. is_turn text.lines.now.graph.now text.turn ≡ true };
}

impl<'a> Text for TurnText<'a> {
    ghost bytes = { λ text. text };

    fn write<K: Sink>(&self, out: &mut Pieces<'_, K>) {
        self.lines.write_turn_words(out, self.turn);
    }
}

/// Where a way goes on from a turn, made whole. Fails only where memory runs out.
pub fn turn_words(alloc: Global, lines: &LintLines<'_>, turn: Hop) -> Result<Vec<u8>, OutOfMemory>
    requires { is_turn lines.now.graph.now turn ≡ true }
    ensures { IfOk result (λ words. words.items ≡ words_of_turn lines.now.graph.now turn) }
{
    whole_text(alloc, &TurnText { lines, turn })
}

// That a variable may be used before it is set at a later point too.
#[derive(Clone, Copy)]
struct LaterText<'a> {
    lines: &'a LintLines<'a>,
    variable: u32,
}

impl<'a> Text for LaterText<'a> {
    ghost use Rattle.lint_texts.specs.LintTexts.{later_words};

    ghost bytes = { λ text. later_words text.lines.now.graph.now text.variable };

    fn write<K: Sink>(&self, out: &mut Pieces<'_, K>) {
        self.lines.write_later_words(out, self.variable);
    }
}

/// That a variable may be used before it is set at a later point too, made whole. Fails only where memory runs out.
pub fn later_words(
    alloc: Global,
    lines: &LintLines<'_>,
    variable: u32,
) -> Result<Vec<u8>, OutOfMemory>
    ensures { IfOk result (λ words. words.items ≡ words_of_later lines.now.graph.now variable) }
{
    whole_text(alloc, &LaterText { lines, variable })
}
