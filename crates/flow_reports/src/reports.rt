// The report on a program.

ghost use Rattle.std.specs.Prelude.{◌≡◌, ◌+◌, ◌<◌, ◌≤◌, ◌++◌, IfOk, codes, decimal, length, take};
ghost use Rattle.flow_graph.specs.Points.{point_count};
ghost use Rattle.flow_reports.specs.code.Findings.{AreFindings, knowledge_of, line_behind, words_before, words_behind};
ghost use Rattle.text_pieces.specs.Pieces.{CanWrite, Writes};
ghost use Rattle.flow_reports.specs.Reports.{IsReport, ListsSafely, count_line, lines_at, report_of};
ghost use Rattle.report_answers.specs.code.Reported.{TellReport};
ghost use Rattle.flow_texts.specs.Tables.{line_at};

use crate::OutOfMemory;
use crate::findings::Findings;
use crate::remark::Remark;
use crate::remark_form::RemarkForm;
use crate::remarks::words_before_name;
use flow_graph::{Analysis, Graph};
use flow_texts::{line, write_number};
use itoa::Buffer;
use report_answers::ReportAnswers;
use std::alloc::Global;
use std::marker::Model;
use text_pieces::{Pieces, Sink, Text, whole_text};

// Writes a count behind what is counted.
fn write_count<K: Sink>(out: &mut Pieces<'_, K>, counted: &[u8], count: u32)
    requires { CanWrite K.Sink out.old }
    ensures { Writes K.Sink out.old out.new (counted.now ++ decimal count) }
{
    out.write(counted);
    write_number(out, count);
}

// Writes how many points there are, and how many bits of each kind.
fn write_counts<K: Sink>(out: &mut Pieces<'_, K>, graph: &Graph<'_>)
    requires { CanWrite K.Sink out.old }
    ensures { Writes K.Sink out.old out.new (count_line graph.now) }
{
    write_count(out, b"points ", graph.points());
    write_count(out, b", variables ", graph.bits(Analysis::Live));
    write_count(out, b", definitions ", graph.bits(Analysis::Reach));
    write_count(out, b", expressions ", graph.bits(Analysis::Avail));
    out.write(b"\n");
}

// What a line says behind what the remark names, up to its end.
fn words_to_end(remark: Remark) -> &'static [u8]
    ensures { result.now ≡ words_behind remark ++ codes "\n" }
{
    match remark {
        Remark::NeverReached => b"\n",
        Remark::Unset { .. } => b" may be used before it is set\n",
        Remark::Computed { .. } => b" is already computed\n",
        Remark::VeryBusy { .. } => b" is very busy\n",
        Remark::Dead { .. } => b" is dead\n",
    }
}

// Writes what a remark says before what it names; most say nothing there.
fn write_before_name<K: Sink>(out: &mut Pieces<'_, K>, remark: Remark)
    requires { CanWrite K.Sink out.old }
    ensures { Writes K.Sink out.old out.new (words_before remark) }
{
    let words = words_before_name(remark);
    if words.is_empty() {
        return;
    }
    out.write(words);
}

// A remark as a line of the report that begins with these bytes, in as few pieces as it has: some programs have half a million.
#[derive(Clone, Copy)]
struct ReportLine<'a> {
    head: &'a [u8],
}

impl RemarkForm for ReportLine<'_> {
    ghost text = { λ line program _ remark. line_behind line.head.now program remark };

    fn write_remark<K: Sink>(
        &self,
        out: &mut Pieces<'_, K>,
        found: &Findings<'_>,
        _point: u32,
        remark: Remark,
    ) {
        out.write(self.head);
        write_before_name(out, remark);
        out.write(found.name(remark));
        out.write(words_to_end(remark));
    }
}

// Puts bytes into a buffer behind those that are there, and tells where they end.
fn put_behind(buffer: &mut [u8], filled: usize, bytes: &[u8]) -> usize
    requires { filled + length bytes.now ≤ length buffer.old }
    ensures room { length buffer.new ≡ length buffer.old }
    ensures end { result ≡ filled + length bytes.now }
    ensures bytes { take result buffer.new ≡ take filled buffer.old ++ bytes.now }
{
    let end = filled + bytes.len();
    buffer[filled..end].copy_from_slice(bytes);
    end
}

impl Findings<'_> {
    // Writes the lines of a point behind what each of them begins with.
    fn write_lines<K: Sink>(&self, out: &mut Pieces<'_, K>, point: u32, head: &[u8])
        requires ready { CanWrite K.Sink out.old }
        requires found { AreFindings self.now }
        requires point { point < point_count self.now.graph.now }
        requires head { head.now ≡ decimal (line_at self.now.graph.now point) ++ codes ": " }
        ensures { Writes K.Sink out.old out.new (lines_at self.now.graph.now (knowledge_of self.now) point) }
    {
        self.write_remarks(&ReportLine { head }, out, point);
    }

    // Writes the lines of a point. What they begin with is made once for all of them.
    fn write_point<K: Sink>(&self, out: &mut Pieces<'_, K>, point: u32)
        requires ready { CanWrite K.Sink out.old }
        requires found { AreFindings self.now }
        requires point { point < point_count self.now.graph.now }
        ensures { Writes K.Sink out.old out.new (lines_at self.now.graph.now (knowledge_of self.now) point) }
    {
        let mut digits = Buffer::new();
        let mut room = [0; 42];
        let number = digits.format(line(self.graph, point)).as_bytes();
        let end = put_behind(&mut room, 0, number);
        let end = put_behind(&mut room, end, b": ");
        self.write_lines(out, point, &room[..end]);
    }

    // Writes the report.
    fn write<K: Sink>(&self, out: &mut Pieces<'_, K>)
        requires ready { CanWrite K.Sink out.old }
        requires found { AreFindings self.now }
        ensures { Writes K.Sink out.old out.new (report_of self.now.graph.now (knowledge_of self.now)) }
    {
        write_counts(out, self.graph);
        for point in 0..self.graph.points() {
            self.write_point(out, point);
        }
    }
}

/// The report on a program: a line of counts, and behind it line by line what the four analyses say of each statement, in the
/// order of points. Each remark is a line `LINE: REMARK`:
///
/// - `never reached`, and then nothing else;
/// - `VARIABLE may be used before it is set`, for each variable that the statement reads, in the order of their numbers;
/// - `EXPRESSION is already computed`, of the expression that the statement evaluates;
/// - `EXPRESSION is very busy`, for each such expression at a test that is not doubtful;
/// - `assignment to VARIABLE is dead`, where the point after it is not doubtful: it can be deleted.
///
/// The analyses are those of Aho, Lam, Sethi, Ullman, 2nd edition, 9.2 and 9.5, over valid paths as in Reps, Horwitz, Sagiv
/// 1995. The work is linear in the program, its edges and the report, and in the words of the tests' sets of very busy
/// expressions.
#[derive(Drop)]
pub struct ReportText<'a> {
    found: Findings<'a>,
}

impl<'a> Model for ReportText<'a> {
    ghost use Rattle.std.specs.Prelude.{List, ℕ};
    ghost use Rattle.flow_reports.specs.code.Findings.{AreFindings, knowledge_of};
    ghost use Rattle.flow_reports.specs.Reports.{report_of};

    ghost Value = { List ℕ };

    ghost view = { λ text. report_of text.found.graph.now (knowledge_of text.found) };

    ghost invariant = { λ text. AreFindings text.found };
}

impl<'a> ReportText<'a> {
    /// The report, ready to be written.
    ///
    /// The condition: the answers are to what a report on this graph's program asks. Fails only where memory runs out.
    pub fn of(
        alloc: Global,
        graph: &'a Graph<'a>,
        answers: &'a ReportAnswers,
    ) -> Result<ReportText<'a>, OutOfMemory>
        requires { TellReport graph.now answers.now }
        ensures report { IfOk result (IsReport graph.now) }
        ensures safe { IfOk result (ListsSafely graph.now) }
    {
        let found = Findings::of(alloc, graph, answers)?;
        Ok(ReportText { found })
    }
}

impl<'a> Text for ReportText<'a> {
    ghost bytes = { λ text. text };

    fn write<K: Sink>(&self, out: &mut Pieces<'_, K>) {
        self.found.write(out);
    }
}

/// The report on a program, made whole, of what is found on the calling thread. Its room grows by doubling; fails as [`ReportAnswers`] do.
pub fn report_here(alloc: Global, graph: &Graph<'_>) -> Result<Vec<u8>, OutOfMemory>
    ensures report { IfOk result (λ text. IsReport graph.now text.items) }
    ensures safe { IfOk result (λ text. ListsSafely graph.now text.items) }
{
    let answers = ReportAnswers::answered_here(alloc, graph)?;
    let text = ReportText::of(alloc, graph, &answers)?;
    whole_text(alloc, &text)
}
