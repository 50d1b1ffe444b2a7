// The text for Graphviz.

ghost use Rattle.std.specs.Prelude.{◌≡◌, ◌++◌, ◌-◌, ◌<◌, ◌≤◌, All, IfOk, codes, decimal, flat_map, length, suc};
ghost use Rattle.flow_graph.specs.Analyses.{main_procedure};
ghost use Rattle.flow_graph.specs.Points.{end_place, point_count};
ghost use Rattle.flow_reports.specs.Listed.{remarks_of};
ghost use Rattle.flow_reports.specs.code.Findings.{knowledge_of};
ghost use Rattle.flow_views.specs.Dots.{text_if};
ghost use Rattle.report_answers.specs.code.Reported.{TellReport};
ghost use Rattle.text_pieces.specs.Pieces.{CanWrite, Writes};
ghost use Rattle.std.specs.List.{range_with_len};
ghost use Rattle.call_dots.specs.CallDots.{IsCallDot, all_nodes, back_look, call_dot_of, call_words, count_line, count_lines, edge_line, first_line};
ghost use Rattle.call_dots.specs.CallDots.{label_text, marks_of, node, points_words, size_line};
ghost use Rattle.call_dots.specs.code.Tables.{IsCallProgram, IsEdgeIn, recursion_of};

use crate::OutOfMemory;
use crate::calls::{CallEdge, CallGraph, call_graph};
use crate::counts::{RemarkCounts, remark_counts};
use crate::legend::{write_head, write_legend};
use crate::marks::{ProcedureMarks, write_look, write_node_names};
use flow_graph::Graph;
use flow_reports::Findings;
use flow_texts::{line, write_number};
use flow_views::{name_of_procedure, shown_points};
use itoa::Buffer;
use report_answers::ReportAnswers;
use std::alloc::Global;
use std::marker::Model;
use text_pieces::{Pieces, Sink, Text, write_escaped, write_if};

// Writes a count in decimal.
fn write_count<K: Sink>(out: &mut Pieces<'_, K>, count: u64)
    requires { CanWrite K.Sink out.old }
    ensures { Writes K.Sink out.old out.new (decimal count) }
{
    out.write(Buffer::new().format(count).as_bytes());
}

// Writes how many remarks of a kind there are, where there are any.
fn write_count_line<K: Sink>(out: &mut Pieces<'_, K>, words: &[u8], count: u64)
    requires { CanWrite K.Sink out.old }
    ensures { Writes K.Sink out.old out.new (count_line words.now count) }
{
    if count == 0 {
        return;
    }
    out.write(words);
    out.write(b": ");
    write_count(out, count);
    out.write(b"\\l");
}

// Writes how many points there are.
fn write_points_words<K: Sink>(out: &mut Pieces<'_, K>, count: u32)
    requires { CanWrite K.Sink out.old }
    ensures { Writes K.Sink out.old out.new (points_words count) }
{
    write_number(out, count);
    if count == 1 {
        out.write(b" point");
    } else {
        out.write(b" points");
    }
}

// Writes what a call looks like that leads back.
fn write_back_look<K: Sink>(out: &mut Pieces<'_, K>, back: bool)
    requires { CanWrite K.Sink out.old }
    ensures { Writes K.Sink out.old out.new (back_look back) }
{
    write_if(
        out,
        back,
        b", class=\"call recursive\", style=dashed, color=grey40, fontcolor=grey40",
    );
}

// What the picture is made of.
#[derive(Drop)]
struct CallProgram<'a> {
    found: Findings<'a>,
    calls: CallGraph,
    counts: RemarkCounts,
    legend: bool,
}

// What these answers tell of their program, with its call graph.
fn call_program<'a>(
    alloc: Global,
    graph: &'a Graph<'a>,
    answers: &'a ReportAnswers,
    legend: bool,
) -> Result<CallProgram<'a>, OutOfMemory>
    requires { TellReport graph.now answers.now }
    ensures program { IfOk result (λ shown. shown.found.graph.now ≡ graph.now) }
    ensures legend { IfOk result (λ shown. shown.legend ≡ legend) }
    ensures shown { IfOk result IsCallProgram }
{
    let found = Findings::of(alloc, graph, answers)?;
    let calls = call_graph(alloc, graph)?;
    let counts = remark_counts(alloc, &found)?;
    Ok(CallProgram {
        found,
        calls,
        counts,
        legend,
    })
}

// Writes the line of a procedure's first statement, where it has one.
fn write_first_line<K: Sink>(graph: &Graph<'_>, out: &mut Pieces<'_, K>, procedure: u32)
    requires ready { CanWrite K.Sink out.old }
    requires procedure { procedure < length graph.now.procedures }
    ensures { Writes K.Sink out.old out.new (first_line graph.now procedure) }
{
    let points = shown_points(graph, Some(procedure));
    let Some(stmt) = graph.stmt(points.first) else {
        return;
    };
    out.write(b"line ");
    write_number(out, stmt.span.line);
    out.write(b", ");
}

// How many points a procedure has.
fn points_in(graph: &Graph<'_>, procedure: u32) -> u32
    requires { procedure < length graph.now.procedures }
    ensures { result ≡ suc (end_place graph.now procedure) }
{
    let points = shown_points(graph, Some(procedure));
    points.end - points.first
}

// Writes where a procedure begins, and how large it is.
fn write_size_line<K: Sink>(graph: &Graph<'_>, out: &mut Pieces<'_, K>, procedure: u32)
    requires ready { CanWrite K.Sink out.old }
    requires procedure { procedure < length graph.now.procedures }
    ensures { Writes K.Sink out.old out.new (size_line graph.now procedure) }
{
    write_first_line(graph, out, procedure);
    write_points_words(out, points_in(graph, procedure));
    out.write(b"\\l");
}

// Writes how many remarks of each kind there are on a procedure's statements.
fn write_count_lines<K: Sink>(shown: &CallProgram<'_>, out: &mut Pieces<'_, K>, procedure: u32)
    requires ready { CanWrite K.Sink out.old }
    requires shown { IsCallProgram shown.now }
    requires procedure { procedure < length shown.now.found.graph.now.procedures }
    ensures { Writes K.Sink out.old out.new (count_lines shown.now.found.graph.now
        (remarks_of shown.now.found.graph.now (knowledge_of shown.now.found)) procedure) }
{
    let place = procedure as usize;
    let counts = &shown.counts;
    write_count_line(out, b"never reached", counts.never_reached[place]);
    write_count_line(out, b"may be used before it is set", counts.unset[place]);
    write_count_line(out, b"is already computed", counts.computed[place]);
    write_count_line(out, b"is very busy", counts.busy[place]);
    write_count_line(out, b"assignment is dead", counts.dead[place]);
}

// Writes the lines of a node.
fn write_label<K: Sink>(shown: &CallProgram<'_>, out: &mut Pieces<'_, K>, procedure: u32)
    requires ready { CanWrite K.Sink out.old }
    requires shown { IsCallProgram shown.now }
    requires procedure { procedure < length shown.now.found.graph.now.procedures }
    ensures { Writes K.Sink out.old out.new (label_text shown.now.found.graph.now
        (remarks_of shown.now.found.graph.now (knowledge_of shown.now.found)) procedure) }
{
    write_escaped(out, name_of_procedure(shown.found.graph, procedure));
    out.write(b"\\l");
    write_size_line(shown.found.graph, out, procedure);
    write_count_lines(shown, out, procedure);
}

// What is marked of a procedure.
fn marks_of(shown: &CallProgram<'_>, procedure: u32) -> ProcedureMarks
    requires shown { IsCallProgram shown.now }
    requires procedure { procedure < length shown.now.found.graph.now.procedures }
    ensures { result ≡ marks_of shown.now.found.graph.now (knowledge_of shown.now.found) (recursion_of shown.now) procedure }
{
    let points = shown_points(shown.found.graph, Some(procedure));
    ProcedureMarks {
        reached: shown.found.is_reached(points.first),
        recursive: shown.calls.recursive[procedure as usize],
    }
}

// Writes a procedure as a node.
fn write_node<K: Sink>(shown: &CallProgram<'_>, out: &mut Pieces<'_, K>, procedure: u32)
    requires ready { CanWrite K.Sink out.old }
    requires shown { IsCallProgram shown.now }
    requires procedure { procedure < length shown.now.found.graph.now.procedures }
    ensures { Writes K.Sink out.old out.new (node shown.now.found.graph.now (knowledge_of shown.now.found) (recursion_of shown.now) procedure) }
{
    let marks = marks_of(shown, procedure);
    write_node_names(out, procedure, marks);
    write_label(shown, out, procedure);
    out.write(b"\"");
    write_look(out, marks);
    out.write(b"];\n");
}

// Writes procedures from one on and before another as nodes.
fn write_nodes<K: Sink>(shown: &CallProgram<'_>, out: &mut Pieces<'_, K>, first: u32, end: u32)
    requires ready { CanWrite K.Sink out.old }
    requires shown { IsCallProgram shown.now }
    requires ordered { first ≤ end }
    requires end { end ≤ length shown.now.found.graph.now.procedures }
    ensures { Writes K.Sink out.old out.new (flat_map
        (node shown.now.found.graph.now (knowledge_of shown.now.found) (recursion_of shown.now)) (range_with_len first (end - first))) }
{
    for procedure in first..end {
        write_node(shown, out, procedure);
    }
}

// The number of the procedure `main`.
fn main_of(graph: &Graph<'_>) -> u32
    ensures number { result ≡ main_procedure graph.now }
    ensures there { result < length graph.now.procedures }
{
    // Its contract tells that the program is sound.
    let _ = graph.points();
    let names = graph.program().procedure_names();
    names.find(b"main").unwrap_or(0)
}

// How many procedures there are.
fn count_of(graph: &Graph<'_>) -> u32
    ensures { result ≡ length graph.now.procedures }
{
    graph.program().procs().len() as u32
}

// Writes all procedures as nodes, `main` first.
fn write_all_nodes<K: Sink>(shown: &CallProgram<'_>, out: &mut Pieces<'_, K>)
    requires ready { CanWrite K.Sink out.old }
    requires shown { IsCallProgram shown.now }
    ensures { Writes K.Sink out.old out.new (all_nodes shown.now.found.graph.now (knowledge_of shown.now.found) (recursion_of shown.now)) }
{
    let main = main_of(shown.found.graph);
    let end = count_of(shown.found.graph);
    write_node(shown, out, main);
    write_nodes(shown, out, 0, main);
    write_nodes(shown, out, main + 1, end);
}

// Writes the line of the one statement that calls, or how many do.
fn write_call_words<K: Sink>(graph: &Graph<'_>, out: &mut Pieces<'_, K>, edge: CallEdge)
    requires ready { CanWrite K.Sink out.old }
    requires site { edge.call.site < point_count graph.now }
    ensures { Writes K.Sink out.old out.new (call_words graph.now edge) }
{
    if edge.count == 1 {
        out.write(b"line ");
        write_number(out, line(graph, edge.call.site));
        return;
    }
    write_count(out, edge.count);
    out.write(b" calls");
}

// Whether a call leads back to its caller.
fn leads_back(shown: &CallProgram<'_>, caller: u32, callee: u32) -> bool
    requires shown { IsCallProgram shown.now }
    requires caller { caller < length shown.now.found.graph.now.procedures }
    requires callee { callee < length shown.now.found.graph.now.procedures }
    ensures { result ≡ (recursion_of shown.now).calls caller callee }
{
    shown.calls.numbers[caller as usize] == shown.calls.numbers[callee as usize]
}

// Writes an edge.
fn write_edge<K: Sink>(shown: &CallProgram<'_>, out: &mut Pieces<'_, K>, edge: CallEdge)
    requires ready { CanWrite K.Sink out.old }
    requires shown { IsCallProgram shown.now }
    requires edge { IsEdgeIn shown.now.found.graph.now edge }
    ensures { Writes K.Sink out.old out.new (edge_line shown.now.found.graph.now (recursion_of shown.now) edge) }
{
    let call = edge.call;
    out.write(b"  ");
    write_number(out, call.caller);
    out.write(b" -> ");
    write_number(out, call.callee);
    out.write(b" [label=\"");
    write_call_words(shown.found.graph, out, edge);
    out.write(b"\"");
    write_back_look(out, leads_back(shown, call.caller, call.callee));
    out.write(b"];\n");
}

// Writes some of the edges.
fn write_edges<K: Sink>(shown: &CallProgram<'_>, out: &mut Pieces<'_, K>, edges: &[CallEdge])
    requires ready { CanWrite K.Sink out.old }
    requires shown { IsCallProgram shown.now }
    requires edges { All (IsEdgeIn shown.now.found.graph.now) edges.now }
    ensures { Writes K.Sink out.old out.new (flat_map (edge_line shown.now.found.graph.now (recursion_of shown.now)) edges.now) }
{
    for edge in edges {
        write_edge(shown, out, *edge);
    }
}

// Writes the picture.
fn write_picture<K: Sink>(shown: &CallProgram<'_>, out: &mut Pieces<'_, K>)
    requires ready { CanWrite K.Sink out.old }
    requires shown { IsCallProgram shown.now }
    ensures { Writes K.Sink out.old out.new
        (call_dot_of shown.now.found.graph.now (knowledge_of shown.now.found) (recursion_of shown.now) shown.now.legend) }
{
    write_head(out);
    write_all_nodes(shown, out);
    write_edges(shown, out, shown.calls.edges.as_slice());
    write_legend(out, shown.legend);
    out.write(b"}\n");
}

/// The call graph of a program, as a picture for Graphviz: each procedure is a node, named by its number, that of `main` first. Its label has a
/// line each for
///
/// - its name;
/// - the line of its first statement, where it has one, and how many points it has;
/// - each kind of remark that a report makes on its statements, with how many there are: `never reached: COUNT`, `may be used before it is set:
///   COUNT`, `is already computed: COUNT`, `is very busy: COUNT`, `assignment is dead: COUNT`.
///
/// A procedure that calls itself, through others or not, has two borders; one to whose entry no valid path leads is grey. Its class has the same
/// in words, `recursive` and `unreached`, and its identity its number.
///
/// For each procedure and each that its statements call there is one edge. Its label is the line of the statement, where it is one, and else how
/// many they are. A call whose callee leads back to its caller is dashed and grey, and its class has the word `recursive`. A legend tells what all
/// this means, where it is asked for.
///
/// The work is linear in the program, the report's remarks and the text.
#[derive(Drop)]
pub struct CallDotText<'a> {
    shown: CallProgram<'a>,
}

impl<'a> Model for CallDotText<'a> {
    ghost use Rattle.std.specs.Prelude.{List, ℕ};
    ghost use Rattle.flow_reports.specs.code.Findings.{knowledge_of};
    ghost use Rattle.call_dots.specs.CallDots.{call_dot_of};
    ghost use Rattle.call_dots.specs.code.Tables.{IsCallProgram, recursion_of};

    ghost Value = { List ℕ };

    ghost view = { λ text. call_dot_of text.shown.found.graph.now (knowledge_of text.shown.found) (recursion_of text.shown) text.shown.legend };

    ghost invariant = { λ text. IsCallProgram text.shown };
}

impl<'a> CallDotText<'a> {
    /// The picture, with a legend or without, ready to be written.
    ///
    /// The condition: the answers are those to what a report on this graph's program asks. Fails only where memory runs out.
    pub fn of(
        alloc: Global,
        graph: &'a Graph<'a>,
        answers: &'a ReportAnswers,
        legend: bool,
    ) -> Result<CallDotText<'a>, OutOfMemory>
        requires { TellReport graph.now answers.now }
        ensures { IfOk result (IsCallDot graph.now legend) }
    {
        let shown = call_program(alloc, graph, answers, legend)?;
        Ok(CallDotText { shown })
    }
}

impl<'a> Text for CallDotText<'a> {
    ghost bytes = { λ text. text };

    fn write<K: Sink>(&self, out: &mut Pieces<'_, K>) {
        write_picture(&self.shown, out);
    }
}
