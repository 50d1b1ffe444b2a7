// The lines of lints.

ghost use Rattle.std.specs.Prelude.{◌≡◌, ◌<◌, ◌-◌, ◌^◌, ◌++◌, codes, decimal, flat_map, length};
ghost use Rattle.flow_graph.specs.Points.{point_count};
ghost use Rattle.flow_graph.specs.declared.analysis.Analysis.TheVariants.{Avail};
ghost use Rattle.flow_texts.specs.Tables.{bit_text, variable_text};
ghost use Rattle.lint_texts.specs.LintTexts.{column_at, count_line, endless_words, file_text, has_untold as has_untold_of};
ghost use Rattle.lint_texts.specs.LintTexts.{is_remark_told, is_unreached as is_unreached_at, last_unreached, lint_line, lint_text_of, lint_words, place_words};
ghost use Rattle.lint_texts.specs.LintTexts.{remark_count, remark_words, source_line, told_count as count_told, told_lines, unreached_words};
ghost use Rattle.lint_texts.specs.LintTexts.{untold_line, untold_words, wanted_note};
ghost use Rattle.lint_texts.specs.Starts.{stands_at, statement_start as start_of_statement, told_at};
ghost use Rattle.lint_texts.specs.code.Lines.{AreLintLines, known_in, reached_in};
ghost use Rattle.lint_texts.specs.code.Uses.{ways_in};
ghost use Rattle.tac_program.specs.Names.{name_at};
ghost use Rattle.text_pieces.specs.Pieces.{CanWrite, Writes};

use crate::file::File;
use crate::kinds::kind_name;
use crate::starts::{Start, Starts, start_among};
use crate::telling::Telling;
use crate::uses::Uses;
use crate::ways::Way;
use flow_graph::{Analysis, Graph};
use flow_lints::{Lint, Linted, PlacedLint};
use flow_reports::Remark;
use flow_texts::{line, write_number};
use lint_styles::{Hue, column_of, write_painted, write_shown, write_size, write_source_at};
use report_answers::ReportAnswers;
use tac_program::Stmt;
use text_pieces::{Pieces, Sink, TextBlock};

// Writes how many dead assignments are not told.
fn write_untold<K: Sink>(out: &mut Pieces<'_, K>, count: u32)
    requires { CanWrite K.Sink out.old }
    ensures { Writes K.Sink out.old out.new (untold_words count) }
{
    if count == 1 {
        out.write(b"1 dead assignment is not told");
    } else {
        write_number(out, count);
        out.write(b" dead assignments are not told");
    }
}

// Writes how many remarks there are.
fn write_remark_count<K: Sink>(out: &mut Pieces<'_, K>, count: usize)
    requires { CanWrite K.Sink out.old }
    ensures { Writes K.Sink out.old out.new (remark_count count) }
{
    if count == 0 {
        out.write(b"no remarks");
    } else if count == 1 {
        out.write(b"1 remark");
    } else {
        write_size(out, count);
        out.write(b" remarks");
    }
}

// Where a statement begins.
fn statement_start(statement: &Stmt) -> Start
    ensures { result ≡ start_of_statement statement.now }
{
    Start {
        line: statement.span.line,
        place: statement.span.start,
    }
}

/// What the text of lints is written of.
#[derive(Drop)]
pub struct LintLines<'a> {
    /// The file.
    pub file: File<'a>,
    /// What is told.
    pub telling: Telling,
    /// The program's graph.
    pub graph: &'a Graph<'a>,
    /// The answers to what a report asks.
    pub answers: &'a ReportAnswers,
    /// The program's lints.
    pub linted: &'a Linted,
    /// The texts of its expressions.
    pub expressions: TextBlock,
    /// Where its procedures begin and end in the text.
    pub starts: Starts,
    /// Where variables may be used before they are set, as far as that is told.
    pub uses: Uses,
    /// The ways to the first of these of each variable, by its number, where ways are asked for.
    pub ways: Vec<Way>,
}

impl LintLines<'_> {
    // Whether a statement stands at a point, and is never reached.
    fn is_unreached(&self, point: u32) -> bool
        requires lines { AreLintLines self.now }
        requires point { point < point_count self.now.graph.now }
        ensures { result ≡ is_unreached_at self.now.graph.now (reached_in self.now) point }
    {
        match self.graph.stmt(point) {
            Some(_) => !self.answers.has_path(Analysis::Reach, point),
            None => false,
        }
    }

    /// The last point of the statements that are never reached, from a point on.
    pub fn last_unreached(&self, point: u32) -> u32
        requires lines { AreLintLines self.now }
        requires point { point < point_count self.now.graph.now }
        ensures last { result ≡ last_unreached self.now.graph.now (reached_in self.now) point }
        ensures within { result < point_count self.now.graph.now }
    {
        let points = self.graph.points();
        for next in point + 1..points {
            if !self.is_unreached(next) {
                return next - 1;
            }
        }
        points - 1
    }

    // Writes that statements from a point on are never reached.
    fn write_unreached<K: Sink>(&self, out: &mut Pieces<'_, K>, point: u32)
        requires ready { CanWrite K.Sink out.old }
        requires lines { AreLintLines self.now }
        requires point { point < point_count self.now.graph.now }
        ensures { Writes K.Sink out.old out.new
            (unreached_words self.now.graph.now point (last_unreached self.now.graph.now (reached_in self.now) point)) }
    {
        let last = self.last_unreached(point);
        if last == point {
            out.write(b"this statement is never reached");
        } else {
            out.write(b"no statement from here to line ");
            write_number(out, line(self.graph, last));
            out.write(b" is ever reached");
        }
    }

    /// The name of a variable: no bytes where it is none of the program.
    pub fn variable(&self, variable: u32) -> &[u8]
        ensures { result.now ≡ variable_text self.now.graph.now variable }
    {
        self.graph
            .program()
            .variable_names()
            .name_or_empty(variable)
    }

    /// The name of a procedure: no bytes where it is none of the program.
    pub fn procedure(&self, procedure: u32) -> &[u8]
        ensures { result.now ≡ name_at self.now.graph.now.procedure_names procedure }
    {
        self.graph
            .program()
            .procedure_names()
            .name_or_empty(procedure)
    }

    /// The text of an expression: no bytes where it is none of the program.
    pub fn expression(&self, expression: u32) -> &[u8]
        requires { AreLintLines self.now }
        ensures { result.now ≡ bit_text self.now.graph.now Avail expression }
    {
        if expression < self.graph.bits(Analysis::Avail) {
            self.expressions.text(expression)
        } else {
            b""
        }
    }

    // Writes what is said of a statement.
    fn write_remark<K: Sink>(&self, out: &mut Pieces<'_, K>, point: u32, remark: Remark)
        requires ready { CanWrite K.Sink out.old }
        requires lines { AreLintLines self.now }
        requires point { point < point_count self.now.graph.now }
        ensures { Writes K.Sink out.old out.new (remark_words self.now.graph.now (reached_in self.now) point remark) }
    {
        match remark {
            Remark::NeverReached => self.write_unreached(out, point),
            Remark::Unset { variable } => {
                out.write(self.variable(variable));
                out.write(b" may be used before it is set");
            }
            Remark::Computed { expression } => {
                out.write(self.expression(expression));
                out.write(b" is already computed");
            }
            Remark::VeryBusy { expression } => {
                out.write(self.expression(expression));
                out.write(b" is very busy");
            }
            Remark::Dead { variable } => {
                out.write(b"the value assigned to ");
                out.write(self.variable(variable));
                out.write(b" is never used");
            }
        }
    }

    /// Writes what a lint says.
    pub(crate) fn write_words<K: Sink>(&self, out: &mut Pieces<'_, K>, placed: PlacedLint)
        requires ready { CanWrite K.Sink out.old }
        requires lines { AreLintLines self.now }
        requires point { placed.point < point_count self.now.graph.now }
        ensures { Writes K.Sink out.old out.new (lint_words self.now.graph.now (reached_in self.now) placed.point placed.lint) }
    {
        match placed.lint {
            Lint::NeverCalled { procedure } => {
                out.write(b"procedure ");
                out.write(self.procedure(procedure));
                out.write(b" is never called");
            }
            Lint::Told { remark } => self.write_remark(out, placed.point, remark),
        }
    }

    /// Where a lint at a point is told.
    pub fn told_start(&self, point: u32) -> Start
        requires lines { AreLintLines self.now }
        requires point { point < point_count self.now.graph.now }
        ensures { result ≡ told_at self.now.file.text.now self.now.graph.now point }
    {
        match self.graph.stmt(point) {
            Some(statement) => statement_start(statement),
            None => {
                let procedure = self.graph.place(point).procedure;
                start_among(self.starts.openings.as_slice(), procedure)
            }
        }
    }

    /// Where a point stands.
    pub fn point_start(&self, point: u32) -> Start
        requires lines { AreLintLines self.now }
        requires point { point < point_count self.now.graph.now }
        ensures { result ≡ stands_at self.now.file.text.now self.now.graph.now point }
    {
        match self.graph.stmt(point) {
            Some(statement) => statement_start(statement),
            None => {
                let procedure = self.graph.place(point).procedure;
                start_among(self.starts.closings.as_slice(), procedure)
            }
        }
    }

    /// In which column of its line a place of the text stands.
    pub fn column(&self, place: u32) -> usize
        ensures { result ≡ column_at self.now.file.text.now place }
    {
        let text = self.file.text;
        column_of(&text[..text.len().min(place as usize)])
    }

    // Writes where something is told.
    pub(crate) fn write_place<K: Sink>(&self, out: &mut Pieces<'_, K>, start: Start)
        requires { CanWrite K.Sink out.old }
        ensures { Writes K.Sink out.old out.new (place_words (file_text self.now.file) start) }
    {
        write_shown(out, self.file.name);
        out.write(b":");
        write_number(out, start.line);
        out.write(b":");
        write_size(out, self.column(start.place));
        out.write(b": ");
    }

    // Writes the line of a lint.
    fn write_line<K: Sink>(&self, out: &mut Pieces<'_, K>, placed: PlacedLint)
        requires ready { CanWrite K.Sink out.old }
        requires lines { AreLintLines self.now }
        requires point { placed.point < point_count self.now.graph.now }
        ensures { Writes K.Sink out.old out.new (lint_line (file_text self.now.file) self.now.telling.style self.now.graph.now (reached_in self.now) placed) }
    {
        self.write_place(out, self.told_start(placed.point));
        write_painted(out, self.telling.style, Hue::Remark, kind_name(placed.lint));
        out.write(b": ");
        self.write_words(out, placed);
        out.write(b"\n");
    }

    // Writes the line of the source in which something is told.
    pub(crate) fn write_source<K: Sink>(&self, out: &mut Pieces<'_, K>, start: Start)
        requires { CanWrite K.Sink out.old }
        ensures { Writes K.Sink out.old out.new (source_line (file_text self.now.file) self.now.telling.style start) }
    {
        write_source_at(
            out,
            self.telling.style,
            self.file.text,
            start.line,
            start.place,
        );
    }

    /// Whether a lint is told as a remark.
    pub fn tells(&self, placed: PlacedLint) -> bool
        requires lines { AreLintLines self.now }
        requires point { placed.point < point_count self.now.graph.now }
        ensures { result ≡ is_remark_told self.now.telling self.now.graph.now (known_in self.now).uses placed }
    {
        self.telling.tells(self.graph, placed) && self.is_first(placed)
    }

    // Writes the lines of a lint, where it is told as a remark.
    fn write_told<K: Sink>(&self, out: &mut Pieces<'_, K>, placed: PlacedLint)
        requires ready { CanWrite K.Sink out.old }
        requires lines { AreLintLines self.now }
        requires point { placed.point < point_count self.now.graph.now }
        ensures { Writes K.Sink out.old out.new
            (told_lines (file_text self.now.file) self.now.telling self.now.graph.now (known_in self.now) placed) }
    {
        if self.tells(placed) {
            self.write_line(out, placed);
            self.write_source(out, self.told_start(placed.point));
            self.write_notes(out, placed.lint);
        }
    }

    // Writes the lines of all lints that are told.
    fn write_lints<K: Sink>(&self, out: &mut Pieces<'_, K>)
        requires ready { CanWrite K.Sink out.old }
        requires lines { AreLintLines self.now }
        ensures { Writes K.Sink out.old out.new
            (flat_map (told_lines (file_text self.now.file) self.now.telling self.now.graph.now (known_in self.now))
            self.now.linted.now.lints.items) }
    {
        let lints = self.linted.lints.as_slice();
        for placed in lints {
            self.write_told(out, *placed);
        }
    }

    // Writes from which line on the program may never end.
    fn write_endless<K: Sink>(&self, out: &mut Pieces<'_, K>)
        requires ready { CanWrite K.Sink out.old }
        requires lines { AreLintLines self.now }
        ensures { Writes K.Sink out.old out.new (endless_words self.now.file.text.now self.now.graph.now self.now.linted.now.endless) }
    {
        if let Some(point) = self.linted.endless {
            out.write(b" (from line ");
            write_number(out, self.point_start(point).line);
            out.write(b" on)");
        }
    }

    // Writes that dead assignments are not told.
    fn write_untold_line<K: Sink>(&self, out: &mut Pieces<'_, K>)
        requires ready { CanWrite K.Sink out.old }
        requires lines { AreLintLines self.now }
        ensures { Writes K.Sink out.old out.new (untold_line (file_text self.now.file) self.now.telling.style self.now.graph.now self.now.linted.now) }
    {
        write_shown(out, self.file.name);
        out.write(b": ");
        write_painted(out, self.telling.style, Hue::Note, b"note");
        out.write(b": ");
        write_untold(out, self.linted.left_out);
        out.write(b", since the program may never end");
        self.write_endless(out);
        out.write(b"\n");
    }

    /// Whether dead assignments are wanted and some are left out.
    pub fn has_untold(&self) -> bool
        ensures { result ≡ has_untold_of self.now.telling self.now.linted.now }
    {
        self.telling.kinds.dead && 0 < self.linted.left_out
    }

    // Writes that dead assignments are not told, where that is wanted and so.
    fn write_note<K: Sink>(&self, out: &mut Pieces<'_, K>)
        requires ready { CanWrite K.Sink out.old }
        requires lines { AreLintLines self.now }
        ensures { Writes K.Sink out.old out.new (wanted_note (file_text self.now.file) self.now.telling self.now.graph.now self.now.linted.now) }
    {
        if self.has_untold() {
            self.write_untold_line(out);
        }
    }

    /// How many lints are told as remarks.
    pub fn told_count(&self) -> usize
        requires { AreLintLines self.now }
        ensures { result ≡ count_told self.now.telling self.now.graph.now self.now.linted.now }
    {
        let lints = self.linted.lints.as_slice();
        let mut count = 0;
        for placed in lints {
            if self.tells(*placed) {
                count += 1;
            }
        }
        count
    }

    // Writes how many remarks there are.
    fn write_count<K: Sink>(&self, out: &mut Pieces<'_, K>)
        requires ready { CanWrite K.Sink out.old }
        requires lines { AreLintLines self.now }
        ensures { Writes K.Sink out.old out.new
            (count_line self.now.file.name.now (count_told self.now.telling self.now.graph.now self.now.linted.now)) }
    {
        write_shown(out, self.file.name);
        out.write(b": ");
        write_remark_count(out, self.told_count());
        out.write(b"\n");
    }

    /// Writes the text.
    pub(crate) fn write<K: Sink>(&self, out: &mut Pieces<'_, K>)
        requires ready { CanWrite K.Sink out.old }
        requires lines { AreLintLines self.now }
        ensures { Writes K.Sink out.old out.new
            (lint_text_of (file_text self.now.file) self.now.telling self.now.graph.now (reached_in self.now) (ways_in self.now.ways.items)
            self.now.linted.now) }
    {
        self.write_lints(out);
        self.write_note(out);
        self.write_count(out);
    }
}
