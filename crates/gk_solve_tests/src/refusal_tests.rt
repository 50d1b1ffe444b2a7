// Each call of links and of the solver that takes memory, as `test_support` has it.

ghost use Rattle.std.specs.Prelude.{◌≡◌, ◌≤◌, IfOk};
ghost use Rattle.gen_kill.specs.Selections.{column_count};
ghost use Rattle.gk_solve.specs.Solved.{IsSliceOf, direction_of};

use bit_rows::Rows;
use flow_graph::{Analysis, Graph, OutOfMemory};
use flow_links::Links;
use flow_rows::{solve, solve_counted, solve_slice};
use gen_kill::Problem;
use gk_solve::{Routes, SliceWords, Solver};
use std::alloc::Global;
use std::process::Abort;
use std::test::Fail;
use tac_reader::{Program, read};
use test_support::again;
use test_support::refusal_probes::{Refused, named};
use test_support::worked_programs::recursion;

/// The calls.
#[derive(Clone, Copy)]
enum Call {
    Links,
    Routes,
    Flags,
    Rows,
    Words,
    Solve,
    SolveCounted,
}

/// The points to which steps lead from each point.
fn write_steps(text: &mut String, links: &Links) -> Result<(), OutOfMemory> {
    for point in 0..links.points() {
        write!(text, "{point}:")?;
        let steps = links.steps_from(point);
        for next in 0..links.points() {
            if steps.iter().any(|step| u32::from(*step) == next) {
                write!(text, " {next}")?;
            }
        }
        text.push('\n')?;
    }
    Ok(())
}

/// The points whose flags are true.
fn write_flags(text: &mut String, flags: &[bool]) -> Result<(), OutOfMemory> {
    for (point, flag) in flags.iter().enumerate() {
        if *flag {
            write!(text, " {point}")?;
        }
    }
    Ok(())
}

/// The first word and the flag of each point.
fn write_rows(text: &mut String, rows: &Rows) -> Result<(), OutOfMemory> {
    for point in 0..rows.points() {
        write!(text, " {}", rows.row(point).word(0))?;
        if !rows.flag(point) {
            text.push_str(" without a path")?;
        }
    }
    Ok(())
}

fn routes_of<'g, 'p>(
    alloc: Global,
    problem: &Problem<'g, 'p>,
    refused: &mut Refused,
) -> Result<Routes, OutOfMemory>
    ensures { IfOk result (λ routes. routes ≡ direction_of problem.now) }
{
    Ok(again!(*refused, "Routes::of", Routes::of(alloc, problem)))
}

/// The points to which valid paths lead.
fn lines_of_routes(
    text: &mut String,
    alloc: Global,
    problem: &Problem<'_, '_>,
    refused: &mut Refused,
) -> Result<(), OutOfMemory> {
    let routes = routes_of(alloc, problem, refused)?;
    for point in 0..problem.points() {
        if routes.has_path(point) {
            write!(text, " {point}")?;
        }
    }
    Ok(())
}

fn lines_of_links<'g, 'p>(
    text: &mut String,
    alloc: Global,
    problem: &Problem<'g, 'p>,
    refused: &mut Refused,
) -> Result<(), OutOfMemory> {
    let links = again!(*refused, "Links::of", Links::of(alloc, problem));
    write_steps(text, &links)
}

fn lines_of_problem(
    text: &mut String,
    alloc: Global,
    problem: &Problem<'_, '_>,
    call: Call,
    refused: &mut Refused,
) -> Result<(), OutOfMemory> {
    let bits = problem.bits();
    match call {
        Call::Links => lines_of_links(text, alloc, problem, refused),
        Call::Routes => lines_of_routes(text, alloc, problem, refused),
        Call::Solve => {
            let rows = again!(*refused, "solve", solve(alloc, problem, 0, bits));
            write_rows(text, &rows)
        }
        _ => {
            let (rows, _) = again!(
                *refused,
                "solve_counted",
                solve_counted(alloc, problem, 0, bits)
            );
            write_rows(text, &rows)
        }
    }
}

fn slice_of<'g, 'p>(
    alloc: Global,
    solver: &Solver<'g, 'p>,
    routes: &Routes,
    bits: u32,
    refused: &mut Refused,
) -> Result<SliceWords, OutOfMemory>
    requires routes { routes.now ≡ direction_of solver.now }
    requires bits { bits ≤ column_count solver.now }
    ensures slice { IfOk result (IsSliceOf solver.now) }
    ensures end { IfOk result (λ slice. slice.hi ≡ bits) }
{
    Ok(again!(
        *refused,
        "Solver::slice",
        solver.slice(alloc, routes, 0, bits)
    ))
}

/// The first word of each point, as it is solved in a slice of all bits.
fn lines_of_words<'a, 'g, 'p>(
    text: &mut String,
    alloc: Global,
    solver: &'a Solver<'g, 'p>,
    routes: &'a Routes,
    refused: &mut Refused,
) -> Result<(), OutOfMemory>
    requires { routes.now ≡ direction_of solver.now }
{
    let bits = solver.problem().bits();
    let mut slice = slice_of(alloc, solver, routes, bits, refused)?;
    if bits > 0 {
        let _ = solver.solve_from(routes, &mut slice, 0);
        for point in 0..slice.points() {
            write!(text, " {}", slice.word(point, 0))?;
        }
    }
    Ok(())
}

fn lines_of_solver<'g, 'p>(
    text: &mut String,
    alloc: Global,
    solver: &Solver<'g, 'p>,
    routes: &Routes,
    call: Call,
    refused: &mut Refused,
) -> Result<(), OutOfMemory>
    requires { routes.now ≡ direction_of solver.now }
{
    let bits = solver.problem().bits();
    match call {
        Call::Flags => {
            let flags = again!(*refused, "Solver::flags", solver.flags(alloc, routes));
            write_flags(text, flags.as_slice())
        }
        Call::Words => lines_of_words(text, alloc, solver, routes, refused),
        _ => {
            let rows = again!(
                *refused,
                "solve_slice",
                solve_slice(alloc, solver, routes, 0, bits)
            );
            write_rows(text, &rows)
        }
    }
}

fn reaching_solver<'g, 'p>(
    alloc: Global,
    graph: &'g Graph<'p>,
    refused: &mut Refused,
) -> Result<Solver<'g, 'p>, OutOfMemory> {
    Ok(again!(
        *refused,
        "Solver::of",
        Solver::of(alloc, Problem::of(alloc, graph, Analysis::Reach)?)
    ))
}

fn lines_of_its_solver(
    text: &mut String,
    alloc: Global,
    graph: &Graph<'_>,
    call: Call,
    refused: &mut Refused,
) -> Result<(), OutOfMemory> {
    let solver = reaching_solver(alloc, graph, refused)?;
    let routes = Routes::of(alloc, solver.problem())?;
    lines_of_solver(text, alloc, &solver, &routes, call, refused)
}

/// Writes what a call answers for the program, the second time where it was refused.
fn lines_of_program(
    text: &mut String,
    alloc: Global,
    program: &Program,
    call: Call,
    refused: &mut Refused,
) -> Result<(), Fail> {
    let graph = Graph::build(alloc, program)?;
    match call {
        Call::Flags | Call::Rows | Call::Words => {
            lines_of_its_solver(text, alloc, &graph, call, refused)?;
        }
        _ => {
            let problem = Problem::of(alloc, &graph, Analysis::Reach)?;
            lines_of_problem(text, alloc, &problem, call, refused)?;
        }
    }
    Ok(())
}

/// The answer for the recursive program is this; where a call was refused, the test fails by its name.
fn check<R: Abort + AllocGlobal>(rt: &R, call: Call, want: &str) -> Result<(), Fail> {
    let mut refused = None;
    let mut got = String::new(rt.alloc());
    let program = read(rt.alloc(), recursion::TEXT.as_bytes())?;
    lines_of_program(&mut got, rt.alloc(), &program, call, &mut refused)?;
    assert_eq!(rt; got.as_str(), want);
    named(refused)
}

#[test]
fn links_are_refused(rt: HostRuntime) -> Result<(), Fail> {
    let steps = "0: 1\n1:\n2: 3\n3:\n4: 5 7\n5:\n6: 7\n7:\n";
    check(&rt, Call::Links, steps)
}

#[test]
fn routes_are_refused(rt: HostRuntime) -> Result<(), Fail> {
    check(&rt, Call::Routes, " 0 1 2 3 4 5 6 7")
}

/// The definitions that reach each point, as words: that of the beginning is bit 0, those of the lines 2 and 9 bits 1 and 2.
const REACHING: &str = " 1 2 6 6 2 2 6 6";

#[test]
fn flags_are_refused(rt: HostRuntime) -> Result<(), Fail> {
    check(&rt, Call::Flags, " 0 1 2 3 4 5 6 7")
}

#[test]
fn solver_and_its_rows_are_refused(rt: HostRuntime) -> Result<(), Fail> {
    check(&rt, Call::Rows, REACHING)
}

#[test]
fn slice_is_refused(rt: HostRuntime) -> Result<(), Fail> {
    check(&rt, Call::Words, REACHING)
}

#[test]
fn solve_is_refused(rt: HostRuntime) -> Result<(), Fail> {
    check(&rt, Call::Solve, REACHING)
}

#[test]
fn solve_counted_is_refused(rt: HostRuntime) -> Result<(), Fail> {
    check(&rt, Call::SolveCounted, REACHING)
}
