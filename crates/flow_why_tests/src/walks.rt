// Witnesses walked hop by hop, over the list of all edges: a check that knows nothing of how they were found.

ghost use Rattle.std.specs.Prelude.{◌≡◌, ◌<◌, ◌^◌};
ghost use Rattle.flow_graph.specs.Points.{point_count};
ghost use Rattle.flow_why.specs.Directed.{direction_of};
ghost use Rattle.gen_kill.specs.Selections.{column_count};

use flow_graph::{Analysis, Direction, Edge, Graph, OutOfMemory};
use flow_why::{Effect, Hop, Ways};
use flow_witnesses::{Why, witness_at};
use gen_kill::Problem;
use std::alloc::Global;
use std::process::Abort;
use std::test::Fail;
use tac_reader::{Program, read};

/// Where a walk is, and whether it has the bit.
#[derive(Debug, Clone, Copy, PartialEq, Eq)]
struct Place {
    point: u32,
    has: bool,
}

// Behind a step: generated, or there before and not killed.
fn behind_step(problem: &Problem<'_, '_>, bit: u32, from: u32, to: u32, has: bool) -> bool
    requires { bit < column_count problem.now }
{
    let point = match problem.direction() {
        Direction::Forward => from,
        Direction::Backward => to,
    };
    if point >= problem.points() {
        return false;
    }
    problem.gens(point, bit) || (has && !problem.kills(point, bit))
}

// Whether a call and its return are edges.
fn is_call(
    problem: &Problem<'_, '_>,
    edges: &[Edge],
    site: u32,
    from: u32,
    callee: u32,
    to: u32,
) -> bool {
    if callee >= problem.procedures() {
        return false;
    }
    let entry = problem.entry(callee);
    let exit = problem.exit(callee);
    edges.contains(&Edge::Call {
        site,
        from,
        to: entry,
    }) && edges.contains(&Edge::Ret {
        site,
        from: exit,
        to,
    })
}

// The place behind a hop, or none where it is no hop of the graph from this place.
fn behind(
    problem: &Problem<'_, '_>,
    edges: &[Edge],
    bit: u32,
    place: Place,
    hop: Hop,
) -> Option<Place>
    requires { bit < column_count problem.now }
{
    let Place { point, has } = place;
    match hop {
        Hop::Step { from, to } => {
            if from != point || !edges.contains(&Edge::Step { from, to }) {
                return None;
            }
            let has = behind_step(problem, bit, from, to, has);
            Some(Place { point: to, has })
        }
        Hop::Enter { site, from, to } => {
            if from != point || !edges.contains(&Edge::Call { site, from, to }) {
                return None;
            }
            Some(Place { point: to, has })
        }
        Hop::Pass {
            site,
            from,
            callee,
            to,
            effect,
        } => {
            if from != point || !is_call(problem, edges, site, from, callee, to) {
                return None;
            }
            let has = match effect {
                Effect::Reaches => false,
                Effect::Generates => true,
                Effect::Preserves => has,
            };
            Some(Place { point: to, has })
        }
    }
}

// Where the hops lead, or none where they do not hang together.
fn walked(
    problem: &Problem<'_, '_>,
    edges: &[Edge],
    bit: u32,
    start: Place,
    hops: &[Hop],
) -> Option<Place>
    requires { bit < column_count problem.now }
{
    let mut place = start;
    for hop in hops {
        match behind(problem, edges, bit, place, *hop) {
            None => return None,
            Some(next) => place = next,
        }
    }
    Some(place)
}

// What a witness has to come to.
fn is_right(problem: &Problem<'_, '_>, edges: &[Edge], bit: u32, point: u32, hops: &[Hop]) -> bool
    requires { bit < column_count problem.now }
{
    let start = Place {
        point: problem.entry(problem.root()),
        has: problem.in_boundary(bit),
    };
    walked(problem, edges, bit, start, hops) == Some(Place { point, has: true })
}

// Whether a search for all points and one for this point alone find the same: a right witness each, or none.
fn is_found_alike(
    problem: &Problem<'_, '_>,
    edges: &[Edge],
    bit: u32,
    point: u32,
    by_all: Option<Vec<Hop>>,
    alone: Option<Vec<Hop>>,
) -> bool
    requires { bit < column_count problem.now }
{
    match (by_all, alone) {
        (Some(first), Some(second)) => {
            is_right(problem, edges, bit, point, first.as_slice())
                && is_right(problem, edges, bit, point, second.as_slice())
        }
        (None, None) => true,
        _ => false,
    }
}

// At how many points a bit was asked for, and at how many of them the witnesses are right.
fn count_bit(
    alloc: Global,
    problem: &Problem<'_, '_>,
    edges: &[Edge],
    ways: &Ways,
    bit: u32,
) -> Result<(u64, u64), OutOfMemory>
    requires ways { ways.now.linked ≡ direction_of problem.now }
    requires bit { bit < column_count problem.now }
{
    let why = Why::of(alloc, ways, problem, bit)?;
    let mut asked: u64 = 0;
    let mut right: u64 = 0;
    for point in 0..problem.points() {
        let by_all = why.witness(alloc, point)?;
        let alone = witness_at(alloc, ways, problem, bit, point)?;
        asked = asked.saturating_add(1);
        if is_found_alike(problem, edges, bit, point, by_all, alone) {
            right = right.saturating_add(1);
        }
    }
    Ok((asked, right))
}

// The same of all bits of an analysis.
fn count_problem(alloc: Global, problem: &Problem<'_, '_>) -> Result<(u64, u64), OutOfMemory> {
    let edges = problem.edges(alloc)?;
    let ways = Ways::of(alloc, problem)?;
    let mut found: u64 = 0;
    let mut right: u64 = 0;
    for bit in 0..problem.bits() {
        let (more, more_right) = count_bit(alloc, problem, edges.as_slice(), &ways, bit)?;
        found = found.saturating_add(more);
        right = right.saturating_add(more_right);
    }
    Ok((found, right))
}

fn count_graph(
    alloc: Global,
    graph: &Graph<'_>,
    analysis: Analysis,
) -> Result<(u64, u64), OutOfMemory> {
    let problem = Problem::of(alloc, graph, analysis)?;
    count_problem(alloc, &problem)
}

fn check_program<R: Abort + AllocGlobal>(rt: &R, program: &Program) -> Result<(), Fail> {
    let graph = Graph::build(rt.alloc(), program)?;
    for analysis in Analysis::ALL {
        let (found, right) = count_graph(rt.alloc(), &graph, analysis)?;
        assert_eq!(rt; found, right);
    }
    Ok(())
}

/// Each witness of each text's program is walked, found by a search for all points, and by one for its point alone.
pub fn check_all<R: Abort + AllocGlobal>(rt: &R, texts: &[&str]) -> Result<(), Fail> {
    for text in texts {
        let program = read(rt.alloc(), text.as_bytes())?;
        check_program(rt, &program)?;
    }
    Ok(())
}
