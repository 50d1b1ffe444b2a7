// Each call on a graph that takes memory, as `test_support` has it.

ghost use Rattle.std.specs.Prelude.{◌≡◌, length};
ghost use Rattle.flow_graph.specs.Points.{point_count};

use crate::answers::{
    Question, marks, odd_problem, write_answer, write_edges, write_flags, write_frame,
};
use flow_graph::{Analysis, Graph, OutOfMemory};
use gen_kill::Problem;
use std::alloc::Global;
use std::process::Abort;
use std::test::Fail;
use tac_reader::{Program, read};
use test_support::again;
use test_support::refusal_probes::{Refused, named};
use test_support::worked_programs::recursion;

/// The calls.
#[derive(Clone, Copy)]
enum Call {
    Build,
    Succ,
    LeadsTo,
    ProblemOf,
}

/// A point with three edges, which is more than are kept in place.
const THREE_CALLEES: &str =
    "proc main\ncall p | q | r\nend\nproc p\nend\nproc q\nend\nproc r\nend\n";

/// The edges out of the first point.
fn lines_of_edges(
    text: &mut String,
    alloc: Global,
    graph: &Graph<'_>,
    refused: &mut Refused,
) -> Result<(), OutOfMemory> {
    if graph.points() == 0 {
        return Ok(());
    }
    let edges = again!(*refused, "Graph::succ", graph.succ(alloc, 0));
    write_edges(text, edges.as_slice())
}

/// The points that lead to those that are marked.
fn lines_of_leads(
    text: &mut String,
    alloc: Global,
    graph: &Graph<'_>,
    marked: &[bool],
    refused: &mut Refused,
) -> Result<(), OutOfMemory>
    requires { length marked.now ≡ point_count graph.now }
{
    let leads = again!(*refused, "Graph::leads_to", graph.leads_to(alloc, marked));
    write_flags(text, leads.as_slice())
}

fn lines_of_problem<'g, 'p>(
    text: &mut String,
    alloc: Global,
    graph: &'g Graph<'p>,
    refused: &mut Refused,
) -> Result<(), OutOfMemory> {
    let problem = again!(
        *refused,
        "Problem::of",
        Problem::of(alloc, graph, Analysis::Reach)
    );
    let chosen = again!(
        *refused,
        "Problem::of_chosen",
        odd_problem(alloc, graph, Analysis::Reach)
    );
    let copied = again!(*refused, "Problem::copied", chosen.copied(alloc));
    let edges = again!(*refused, "Problem::edges", problem.edges(alloc));
    write_frame(text, &copied, edges.as_slice())
}

fn lines_of_graph(
    text: &mut String,
    alloc: Global,
    graph: &Graph<'_>,
    call: Call,
    refused: &mut Refused,
) -> Result<(), OutOfMemory> {
    match call {
        Call::Build => write_answer(text, alloc, graph, Question::Edges),
        Call::Succ => lines_of_edges(text, alloc, graph, refused),
        Call::LeadsTo => {
            let marked = marks(alloc, graph, &[2])?;
            lines_of_leads(text, alloc, graph, marked.as_slice(), refused)
        }
        Call::ProblemOf => lines_of_problem(text, alloc, graph, refused),
    }
}

/// Writes what a call on the program's graph answers, the second time where it was refused.
fn lines_of_program<'p>(
    text: &mut String,
    alloc: Global,
    program: &'p Program,
    call: Call,
    refused: &mut Refused,
) -> Result<(), Fail> {
    let graph = again!(*refused, "Graph::build", Graph::build(alloc, program));
    Ok(lines_of_graph(text, alloc, &graph, call, refused)?)
}

/// The answer to a text is this; where a call was refused, the test fails by its name.
fn check<R: Abort + AllocGlobal>(rt: &R, source: &str, call: Call, want: &str) -> Result<(), Fail> {
    let mut refused = None;
    let mut got = String::new(rt.alloc());
    let program = read(rt.alloc(), source.as_bytes())?;
    lines_of_program(&mut got, rt.alloc(), &program, call, &mut refused)?;
    assert_eq!(rt; got.as_str(), want);
    named(refused)
}

#[test]
fn build_is_refused(rt: HostRuntime) -> Result<(), Fail> {
    check(&rt, recursion::TEXT, Call::Build, recursion::EDGES)
}

#[test]
fn succ_is_refused(rt: HostRuntime) -> Result<(), Fail> {
    let edges = " call 0-2 at 0 call 0-3 at 0 call 0-4 at 0";
    check(&rt, THREE_CALLEES, Call::Succ, edges)
}

#[test]
fn leads_to_is_refused(rt: HostRuntime) -> Result<(), Fail> {
    check(&rt, recursion::TEXT, Call::LeadsTo, " 0 1 2 4 5 6 7")
}

#[test]
fn problem_is_refused(rt: HostRuntime) -> Result<(), Fail> {
    let frame = "Forward, complements false\nroot 0\n0: 0 to 3\n1: 4 to 7\n 0 0 0 0 1 1 1 1\n \
        0-1 call 1-4 at 1 2-3 4-5 4-7 call 5-4 at 5 6-7 return 7-2 at 1 return 7-6 at 5";
    check(&rt, recursion::TEXT, Call::ProblemOf, frame)
}
