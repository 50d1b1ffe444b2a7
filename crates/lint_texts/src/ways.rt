// The ways by which variables are not set where they are used.

ghost use Rattle.std.specs.Prelude.{◌≡◌, ◌<◌, ◌++◌, ◌∷◌, [], ℕ, List, IfOk, OnOk, length, nat_lt, true, if◌then◌else◌};
ghost use Rattle.flow_graph.specs.Points.{point_count};
ghost use Rattle.flow_graph.specs.declared.analysis.Analysis.TheVariants.{Reach};
ghost use Rattle.flow_lints.specs.Lints.{IsLinted};
ghost use Rattle.flow_why.specs.Directed.{direction_of};
ghost use Rattle.flow_graph.specs.Paths.{SomePathHas};
ghost use Rattle.flow_graph.specs.Problems.{may_shape};
ghost use Rattle.gen_kill.specs.Selections.{all_bits, column_count, column_transfer};
ghost use Rattle.lint_texts.specs.LintTexts.{AreWays, has_test, is_turn as is_turn_of, turns_told, uses_told};
ghost use Rattle.lint_texts.specs.code.Uses.{AreAllTurns, AreUnset, IsTold, IsWayOf, TellUses, no_turns, turns_of, ways_in};

use crate::OutOfMemory;
use crate::telling::Telling;
use crate::uses::Uses;
use flow_graph::{Analysis, Graph};
use flow_lints::Linted;
use flow_why::{Hop, Ways};
use flow_witnesses::witness_at;
use gen_kill::Problem;
use report_answers::is_test;
use std::alloc::Global;

// How many turns of a way are told.
const MOST_TURNS: usize = 20;

/// A way to the first use of a variable: its first turns, which are the hops that enter a call, pass one, or lead on from a test.
#[derive(Drop)]
pub struct Way {
    pub turns: Vec<Hop>,
    /// How many turns more it has.
    pub left_out: usize,
}

// Whether a test stands at a point.
fn is_test_at(graph: &Graph<'_>, point: u32) -> bool
    requires { point < point_count graph.now }
    ensures { result ≡ has_test graph.now point }
{
    match graph.stmt(point) {
        Some(statement) => is_test(&statement.kind),
        None => false,
    }
}

// Whether a hop is a turn.
fn is_turn(graph: &Graph<'_>, hop: Hop) -> bool
    ensures { result ≡ is_turn_of graph.now hop }
{
    let points = graph.points();
    match hop {
        Hop::Step { from, to } => from < points && to < points && is_test_at(graph, from),
        Hop::Enter { site: _, from, to } => from < points && to < points,
        Hop::Pass {
            site: _,
            from,
            callee: _,
            to: _,
            effect: _,
        } => from < points,
    }
}

// Puts a turn last, where there is room.
fn put_turn(turns: &mut Vec<Hop>, turn: Hop) -> Result<(), OutOfMemory>
    ensures { OnOk result (turns.new.items ≡ (if nat_lt (length turns.old.items) 20 then turns.old.items ++ turn ∷ [] else turns.old.items)) }
{
    if turns.len() < MOST_TURNS {
        turns.push(turn)?;
    }
    Ok(())
}

impl Way {
    // No turn.
    fn none(alloc: Global) -> Way
        ensures { turns_of result ≡ no_turns }
    {
        Way {
            turns: Vec::new(alloc),
            left_out: 0,
        }
    }

    // The turns of hops.
    fn of(alloc: Global, graph: &Graph<'_>, hops: &[Hop]) -> Result<Way, OutOfMemory>
        ensures { IfOk result (λ way. turns_of way ≡ turns_told graph.now hops.now) }
    {
        let mut turns = Vec::new(alloc);
        let mut count = 0;
        for hop in hops {
            if is_turn(graph, *hop) {
                put_turn(&mut turns, *hop)?;
                count += 1;
            }
        }
        Ok(Way {
            left_out: count - turns.len(),
            turns,
        })
    }
}

// What ways are found by: reaching definitions, and where valid paths lead.
#[derive(Clone, Copy)]
struct Reaching<'a, 'g, 'p> {
    problem: &'a Problem<'g, 'p>,
    ways: &'a Ways,
}

// A way to a point on which a variable is not set.
fn way_to(
    alloc: Global,
    graph: &Graph<'_>,
    reaching: Reaching<'_, '_, '_>,
    variable: u32,
    point: u32,
) -> Result<Way, OutOfMemory>
    requires ways { reaching.ways.now.linked ≡ direction_of reaching.problem.now }
    requires column { variable < column_count reaching.problem.now }
    requires point { point < point_count reaching.problem.now.program }
    requires reaches { SomePathHas (may_shape reaching.problem.now.program reaching.problem.now.analysis) (column_transfer reaching.problem.now variable) point }
    ensures { IfOk result (λ way. IsTold graph.now (may_shape reaching.entry.problem.now.program reaching.entry.problem.now.analysis)
        (column_transfer reaching.entry.problem.now variable) point (turns_of way)) }
{
    match witness_at(alloc, reaching.ways, reaching.problem, variable, point)? {
        Some(hops) => Way::of(alloc, graph, &hops),
        None => unreachable!(),
    }
}

// The way to the first use of a variable, where it has one.
fn way_of(
    alloc: Global,
    graph: &Graph<'_>,
    reaching: Reaching<'_, '_, '_>,
    uses: &Uses,
    variable: u32,
) -> Result<Way, OutOfMemory>
    requires ways { reaching.ways.now.linked ≡ direction_of reaching.problem.now }
    requires form { reaching.problem.now ≡ all_bits graph.now Reach }
    requires unset { AreUnset graph.now uses.now }
    ensures { IfOk result (λ way. IsWayOf graph.now uses.now variable (turns_of way)) }
{
    match uses.first(variable) {
        Some(first) => way_to(alloc, graph, reaching, variable, first.point),
        None => Ok(Way::none(alloc)),
    }
}

// The ways to the first uses of all variables.
fn all_ways(alloc: Global, graph: &Graph<'_>, uses: &Uses) -> Result<Vec<Way>, OutOfMemory>
    requires { AreUnset graph.now uses.now }
    ensures count { IfOk result (λ all. length all.items ≡ length graph.now.variable_names) }
    ensures ways { IfOk result (λ all. (variable : ℕ) → variable < length graph.now.variable_names
        → IsWayOf graph.now uses.now variable (ways_in all.items variable)) }
{
    let problem = Problem::of(alloc, graph, Analysis::Reach)?;
    let ways = Ways::of(alloc, &problem)?;
    let reaching = Reaching {
        problem: &problem,
        ways: &ways,
    };
    let mut all = Vec::new(alloc);
    for variable in 0..graph.program().variables() {
        all.push(way_of(alloc, graph, reaching, uses, variable)?)?;
    }
    Ok(all)
}

/// The ways to the first uses of variables that are told, where that is asked for.
///
/// The conditions: the lints are the program's, and the uses those of them that are told. It takes one search for each such variable. Fails only
/// where memory runs out.
pub(crate) fn ways_of(
    alloc: Global,
    telling: Telling,
    graph: &Graph<'_>,
    _linted: &Linted,
    uses: &Uses,
) -> Result<Vec<Way>, OutOfMemory>
    requires linted { IsLinted graph.now _linted.now }
    requires uses { TellUses uses.now (uses_told telling graph.now _linted.now) }
    ensures ways { IfOk result (λ ways. AreWays telling graph.now _linted.now (ways_in ways.items)) }
    ensures turns { IfOk result (λ ways. (variable : ℕ) → AreAllTurns graph.now (ways_in ways.items variable)) }
{
    if telling.why {
        let all = all_ways(alloc, graph, uses)?;
        Ok(all)
    } else {
        Ok(Vec::new(alloc))
    }
}
