// The text of a part.

ghost use Rattle.std.specs.Prelude.{◌≡◌, ◌≤◌, ◌++◌, IfOk, decimal};
ghost use Rattle.flow_reports.specs.Reports.{count_line};
ghost use Rattle.flow_reports.specs.code.Findings.{AreChosenFindings, knowledge_of};
ghost use Rattle.report_answers.specs.code.Reported.{TellChosen};
ghost use Rattle.text_pieces.specs.Pieces.{CanWrite, Writes};
ghost use Rattle.flow_parts.specs.code.Bits.{AreOfPart};
ghost use Rattle.flow_parts.specs.Parts.{IsPart, end_line, heading_line, part_lines, part_remarks};

use crate::OutOfMemory;
use crate::part_lines::{Share, bits_of};
use flow_graph::{Analysis, Graph};
use flow_reports::Findings;
use flow_texts::write_number;
use report_answers::{ChosenBits, ReportAnswers};
use std::alloc::Global;
use std::marker::Model;
use text_pieces::{Pieces, Sink, Text, whole_text};

// Writes a number behind what stands before it.
fn write_numbered<K: Sink>(out: &mut Pieces<'_, K>, before: &[u8], number: u32)
    requires { CanWrite K.Sink out.old }
    ensures { Writes K.Sink out.old out.new (before.now ++ decimal number) }
{
    out.write(before);
    write_number(out, number);
}

// Writes the first line of a part.
fn write_heading<K: Sink>(out: &mut Pieces<'_, K>, digest: &[u8], share: Share)
    requires { CanWrite K.Sink out.old }
    ensures { Writes K.Sink out.old out.new (heading_line digest.now share.count share.part) }
{
    write_numbered(out, b"part ", share.part);
    write_numbered(out, b" of ", share.count);
    out.write(b" of ");
    out.write(digest);
    out.write(b"\n");
}

// Writes the first line of the report.
fn write_counts<K: Sink>(out: &mut Pieces<'_, K>, graph: &Graph<'_>)
    requires { CanWrite K.Sink out.old }
    ensures { Writes K.Sink out.old out.new (count_line graph.now) }
{
    write_numbered(out, b"points ", graph.points());
    write_numbered(out, b", variables ", graph.bits(Analysis::Live));
    write_numbered(out, b", definitions ", graph.bits(Analysis::Reach));
    write_numbered(out, b", expressions ", graph.bits(Analysis::Avail));
    out.write(b"\n");
}

// Writes the lines of a part's remarks.
fn write_lines<K: Sink>(out: &mut Pieces<'_, K>, found: &Findings<'_>, share: Share)
    requires ready { CanWrite K.Sink out.old }
    requires found { AreChosenFindings found.now }
    ensures { Writes K.Sink out.old out.new
        (part_lines found.now.graph.now (part_remarks found.now.graph.now (knowledge_of found.now) share.count share.part)) }
{
    for point in 0..found.graph.points() {
        found.write_chosen_remarks(&share, out, point);
    }
}

// Writes the last line of a part.
fn write_end<K: Sink>(out: &mut Pieces<'_, K>, share: Share)
    requires { CanWrite K.Sink out.old }
    ensures { Writes K.Sink out.old out.new (end_line share.part) }
{
    write_numbered(out, b"end ", share.part);
    out.write(b"\n");
}

/// The bits that a part of the report on a graph's program asks: its share of the variables and of the expressions.
///
/// The conditions: the part is from 1 on and at most the count, and that at most 4,096.
pub fn part_bits(graph: &Graph<'_>, count: u32, part: u32) -> ChosenBits
    requires first { 1 ≤ part }
    requires last { part ≤ count }
    requires few { count ≤ 4096 }
    ensures { AreOfPart graph.now count part result }
{
    bits_of(graph, Share { count, part })
}

/// A part of the report on a program: a line `part K of N of DIGEST`, the report's first line, the lines of its remarks, and a line `end K`.
///
/// A part has its share of the variables and of the expressions, in groups of 512, and of each remark on one of them the line. That a
/// statement is never reached is in part 1.
#[derive(Drop)]
pub struct PartText<'a> {
    found: Findings<'a>,
    digest: &'a [u8],
    share: Share,
}

impl<'a> Model for PartText<'a> {
    ghost use Rattle.std.specs.Prelude.{List, ℕ};
    ghost use Rattle.flow_reports.specs.code.Findings.{AreChosenFindings, knowledge_of};
    ghost use Rattle.flow_parts.specs.Parts.{part_of};

    ghost Value = { List ℕ };

    ghost view = { λ text. part_of text.digest.now text.found.graph.now (knowledge_of text.found) text.share.count text.share.part };

    ghost invariant = { λ text. AreChosenFindings text.found };
}

impl<'a> PartText<'a> {
    /// A part of the report, ready to be written, of a program of this digest.
    ///
    /// The conditions: the answers are to what a report on this graph's program asks of the bits of the part, as [`part_bits`] has them, and of
    /// no others; the part is from 1 on and at most the count, and that at most 4,096. Fails only where memory runs out.
    pub fn of(
        alloc: Global,
        graph: &'a Graph<'a>,
        answers: &'a ReportAnswers,
        digest: &'a [u8],
        count: u32,
        part: u32,
    ) -> Result<PartText<'a>, OutOfMemory>
        requires answers { TellChosen answers.now.chosen graph.now answers.now }
        requires part { AreOfPart graph.now count part answers.now.chosen }
        requires first { 1 ≤ part }
        requires last { part ≤ count }
        requires few { count ≤ 4096 }
        ensures { IfOk result (IsPart graph.now digest.now count part) }
    {
        let found = Findings::of_chosen(alloc, graph, answers)?;
        let share = Share { count, part };
        Ok(PartText {
            found,
            digest,
            share,
        })
    }
}

impl<'a> Text for PartText<'a> {
    ghost bytes = { λ text. text };

    fn write<K: Sink>(&self, out: &mut Pieces<'_, K>) {
        write_heading(out, self.digest, self.share);
        write_counts(out, self.found.graph);
        write_lines(out, &self.found, self.share);
        write_end(out, self.share);
    }
}

/// A part of the report, made whole, of what is found on the calling thread. Fails as [`ReportAnswers`] do.
///
/// The conditions are those of [`PartText::of`].
pub fn part_here(
    alloc: Global,
    graph: &Graph<'_>,
    digest: &[u8],
    count: u32,
    part: u32,
) -> Result<Vec<u8>, OutOfMemory>
    requires first { 1 ≤ part }
    requires last { part ≤ count }
    requires few { count ≤ 4096 }
    ensures { IfOk result (λ text. IsPart graph.now digest.now count part text.items) }
{
    let answers = ReportAnswers::chosen_here(alloc, graph, part_bits(graph, count, part))?;
    let text = PartText::of(alloc, graph, &answers, digest, count, part)?;
    whole_text(alloc, &text)
}
