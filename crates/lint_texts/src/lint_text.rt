// The text of a program's lints.

ghost use Rattle.std.specs.Prelude.{IfOk};
ghost use Rattle.flow_lints.specs.Lints.{IsLinted};
ghost use Rattle.report_answers.specs.code.Reported.{TellReport};
ghost use Rattle.lint_texts.specs.LintTexts.{IsLintText, TellsLints, file_text};
ghost use Rattle.lint_texts.specs.code.Lines.{AreLintLines, AreOf};

use crate::OutOfMemory;
use crate::file::File;
use crate::lines::LintLines;
use crate::starts::Starts;
use crate::telling::Telling;
use crate::uses::Uses;
use crate::ways::ways_of;
use flow_graph::{Analysis, Graph};
use flow_lints::{Linted, linted};
use flow_texts::texts_of_bits;
use report_answers::ReportAnswers;
use std::alloc::Global;
use std::marker::Model;
use text_pieces::{Pieces, Sink, Text, whole_text};

/// What a linter tells of the program of a file: a line `FILE:LINE:COLUMN: KIND: WORDS` for each lint of a kind that is wanted, in the order of
/// points, and behind it, where the style says so, the line of the source. Of a variable that may be used before it is set the first point is told
/// so; behind it stand notes with the way there, where that is asked for, and with the later points. Where dead assignments are wanted and some
/// are left out, since the program may never end behind them, a line says so; and a last line is `FILE: N remarks`.
#[derive(Drop)]
pub struct LintText<'a> {
    lines: LintLines<'a>,
}

impl<'a> Model for LintText<'a> {
    ghost use Rattle.std.specs.Prelude.{List, ℕ};
    ghost use Rattle.lint_texts.specs.LintTexts.{file_text, lint_text_of};
    ghost use Rattle.lint_texts.specs.code.Lines.{AreLintLines, reached_in};
    ghost use Rattle.lint_texts.specs.code.Uses.{ways_in};

    ghost Value = { List ℕ };

    ghost view = { λ text. lint_text_of (file_text text.lines.file) text.lines.telling text.lines.graph.now
        (reached_in text.lines) (ways_in text.lines.ways.items) text.lines.linted.now };

    ghost invariant = { λ text. AreLintLines text.lines };
}

impl<'a> LintLines<'a> {
    /// What the text of a file's lints is written of.
    ///
    /// The conditions: the answers are to what a report on this graph's program asks, and the lints are the program's. Fails only where memory
    /// runs out.
    pub fn of(
        alloc: Global,
        file: File<'a>,
        telling: Telling,
        graph: &'a Graph<'a>,
        answers: &'a ReportAnswers,
        linted: &'a Linted,
    ) -> Result<LintLines<'a>, OutOfMemory>
        requires answers { TellReport graph.now answers.now }
        requires linted { IsLinted graph.now linted.now }
        ensures lines { IfOk result AreLintLines }
        ensures parts { IfOk result (AreOf file.entry telling graph.now answers.now linted.now) }
    {
        let expressions = texts_of_bits(alloc, graph, Analysis::Avail)?;
        let starts = Starts::of(alloc, file.text)?;
        let uses = Uses::of(alloc, telling, graph, linted)?;
        let ways = ways_of(alloc, telling, graph, linted, &uses)?;
        Ok(LintLines {
            file,
            telling,
            graph,
            answers,
            linted,
            expressions,
            starts,
            uses,
            ways,
        })
    }
}

impl<'a> LintText<'a> {
    /// The text of a file, ready to be written.
    ///
    /// The conditions: the answers are to what a report on this graph's program asks, and the lints are the program's. Fails only where memory
    /// runs out.
    pub fn of(
        alloc: Global,
        file: File<'a>,
        telling: Telling,
        graph: &'a Graph<'a>,
        answers: &'a ReportAnswers,
        linted: &'a Linted,
    ) -> Result<LintText<'a>, OutOfMemory>
        requires answers { TellReport graph.now answers.now }
        requires linted { IsLinted graph.now linted.now }
        ensures { IfOk result (IsLintText (file_text file.entry) telling graph.now linted.now) }
    {
        let lines = LintLines::of(alloc, file, telling, graph, answers, linted)?;
        Ok(LintText { lines })
    }
}

impl<'a> Text for LintText<'a> {
    ghost bytes = { λ text. text };

    fn write<K: Sink>(&self, out: &mut Pieces<'_, K>) {
        self.lines.write(out);
    }
}

/// What a linter tells of the program of a file, made whole, of what is found on the calling thread. Its room grows by doubling;
/// fails as [`ReportAnswers`] do.
pub fn lint_text_here(
    alloc: Global,
    file: File<'_>,
    telling: Telling,
    graph: &Graph<'_>,
) -> Result<Vec<u8>, OutOfMemory>
    ensures { IfOk result (λ text. TellsLints (file_text file.entry) telling graph.now text.items) }
{
    let answers = ReportAnswers::answered_here(alloc, graph)?;
    let told = linted(alloc, graph, &answers)?;
    let text = LintText::of(alloc, file, telling, graph, &answers, &told)?;
    let whole = whole_text(alloc, &text)?;
    Ok(whole)
}
