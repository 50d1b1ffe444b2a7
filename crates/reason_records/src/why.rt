// Why a bit is in the set of a point, as numbers.

ghost use Rattle.std.specs.Prelude.{◌≡◌, ◌<◌, Some, length, map, IfErr, IfOk, MatchOption, OnOk};
ghost use Rattle.flow_graph.specs.Paths.{SomePathHas};
ghost use Rattle.flow_graph.specs.Points.{point_count};
ghost use Rattle.flow_graph.specs.Problems.{may_shape, may_transfer};
ghost use Rattle.flow_why.specs.Witnesses.{IsWitness};
ghost use Rattle.gen_kill.specs.Selections.{column_count, column_transfer};
ghost use Rattle.flow_records.specs.Numbers.{analysis_of};
ghost use Rattle.flow_records.specs.Rooms.{HoldsList, IsListFault, IsListKept};
ghost use Rattle.reason_records.specs.Why.{HasNoPath, IsFactFault, IsThere, IsWhy, IsWhyFault, IsWhyKept, TellsWhy, effect_number, hop_part};

use flow_graph::{Analysis, Graph, OutOfMemory};
use flow_kept::Kept;
use flow_records::{Fault, find_analysis, put_list};
use flow_why::{Effect, Hop, Ways};
use flow_witnesses::witness_at;
use gen_kill::Problem;
use std::alloc::Global;

/// A bit of an analysis at a point: the number of the analysis, the point and the bit.
#[derive(Clone, Copy)]
pub struct NumberedFact {
    pub analysis: u32,
    pub point: u32,
    pub bit: u32,
}

/// A hop of a path, in the direction of the analysis, from one point to another. Its kind is 0 for a step inside a procedure; 1 for a call that
/// is left open, from the call to the callee's entry, or where the analysis goes backwards a return whose call does not lie on the way, from
/// the point behind the call to the callee's end; 2 for a call that is passed as a whole, by some path through the callee with an effect on the
/// bit. The effect is 0 where the path is there, 1 where it generates the bit, 2 where no step of it kills the bit. Calls have the point of
/// the call, and those that are passed the callee's number. 4294967295 stands for what a kind has not.
#[repr(C)]
#[derive(Clone, Copy)]
pub struct NumberedHop {
    pub kind: u32,
    pub from: u32,
    pub to: u32,
    pub site: u32,
    pub callee: u32,
    pub effect: u32,
}

const NONE: u32 = u32::MAX;

fn effect_of(effect: Effect) -> u32
    ensures { result ≡ effect_number effect }
{
    match effect {
        Effect::Reaches => 0,
        Effect::Generates => 1,
        Effect::Preserves => 2,
    }
}

/// A hop by its numbers.
pub(crate) fn hop_of(hop: Hop) -> NumberedHop
    ensures { result ≡ hop_part hop }
{
    match hop {
        Hop::Step { from, to } => NumberedHop {
            kind: 0,
            from,
            to,
            site: NONE,
            callee: NONE,
            effect: NONE,
        },
        Hop::Enter { site, from, to } => NumberedHop {
            kind: 1,
            from,
            to,
            site,
            callee: NONE,
            effect: NONE,
        },
        Hop::Pass {
            site,
            from,
            callee,
            to,
            effect,
        } => NumberedHop {
            kind: 2,
            from,
            to,
            site,
            callee,
            effect: effect_of(effect),
        },
    }
}

// Hops by their numbers, in their order.
fn numbered_hops(alloc: Global, hops: &[Hop]) -> Result<Vec<NumberedHop>, OutOfMemory>
    ensures { IfOk result (λ numbered. numbered.items ≡ map hop_part hops.now) }
{
    let mut numbered = Vec::with_capacity(alloc, hops.len())?;
    for hop in hops {
        numbered.push(hop_of(*hop))?;
    }
    Ok(numbered)
}

// The analysis of a number, where the program has the point and the analysis the bit.
fn analysis_asked(graph: &Graph<'_>, fact: NumberedFact) -> Result<Analysis, Fault>
    ensures analysis { IfOk result (λ analysis. analysis_of fact.analysis ≡ Some analysis) }
    ensures there { IfOk result (λ analysis. IsThere graph.now analysis fact) }
    ensures fault { IfErr result (IsFactFault graph.now fact) }
{
    let Some(analysis) = find_analysis(fact.analysis) else {
        return Err(Fault::BadAnalysis);
    };
    if graph.points() <= fact.point || graph.bits(analysis) <= fact.bit {
        return Err(Fault::BadRange);
    }
    Ok(analysis)
}

// A witness of a column's bit at a point.
fn witness_over(
    alloc: Global,
    problem: &Problem<'_, '_>,
    point: u32,
    column: u32,
) -> Result<Option<Vec<Hop>>, OutOfMemory>
    requires point { point < point_count problem.now.program }
    requires column { column < column_count problem.now }
    ensures { IfOk result (λ found. MatchOption found
        (SomePathHas (may_shape problem.now.program problem.now.analysis) (column_transfer problem.now column) point → ⊥)
        (λ hops. IsWitness (may_shape problem.now.program problem.now.analysis) (column_transfer problem.now column) point hops.items)) }
{
    let ways = Ways::of(alloc, problem)?;
    witness_at(alloc, &ways, problem, column, point)
}

// A witness of a bit of an analysis at a point.
fn witness_in(
    alloc: Global,
    graph: &Graph<'_>,
    analysis: Analysis,
    fact: NumberedFact,
) -> Result<Option<Vec<Hop>>, OutOfMemory>
    requires { IsThere graph.now analysis fact }
    ensures { IfOk result (λ found. MatchOption found
        (SomePathHas (may_shape graph.now analysis) (may_transfer graph.now analysis fact.bit) fact.point → ⊥)
        (λ hops. IsWitness (may_shape graph.now analysis) (may_transfer graph.now analysis fact.bit) fact.point hops.items)) }
{
    let problem = Problem::of(alloc, graph, analysis)?;
    witness_over(alloc, &problem, fact.point, fact.bit)
}

// A witness of what numbers ask for, of a kept program.
fn witness_of(alloc: Global, kept: &Kept, fact: NumberedFact) -> Result<Option<Vec<Hop>>, Fault>
    ensures witness { IfOk result (λ found. MatchOption found (HasNoPath kept.now.program fact) (λ hops. IsWhy kept.now.program fact hops.items)) }
    ensures fault { IfErr result (IsFactFault kept.now.program fact) }
{
    let graph = kept.graph(alloc)?;
    let analysis = analysis_asked(&graph, fact)?;
    let found = witness_in(alloc, &graph, analysis, fact)?;
    Ok(found)
}

// Puts hops by their numbers where there is room for them, and tells how many they are.
fn put_hops(
    alloc: Global,
    found: &[Hop],
    hops: &mut [NumberedHop],
    count: &mut usize,
) -> Result<(), Fault>
    ensures held { OnOk result (HoldsList (λ all. all ≡ map hop_part found.now) hops.old hops.new count.new) }
    ensures kept { IfErr result (IsListKept hops.old hops.new count.old count.new) }
    ensures fault { IfErr result (IsListFault (λ all. all ≡ map hop_part found.now) (length hops.old) count.new) }
{
    let all = numbered_hops(alloc, found)?;
    if put_list(all.as_slice(), hops, count) {
        Ok(())
    } else {
        Err(Fault::BadRoom)
    }
}

/// Why a bit of an analysis is in the set of a point of a kept program: `has` is 1 and there are the hops of a path that brings it there, or
/// `has` is 0, the count too, and no valid path brings it. Hops go in the direction of the analysis: the first begins at the beginning of
/// `main`, or for live variables and very busy expressions at its end, each where the one before ended, and the last ends at the point. Where
/// they are none though `has` is 1, the problem begins at the point and has the bit there.
///
/// The set is that of the may form. For available and very busy expressions that is the complement: a path shows why the expression is
/// **not** in the table, and `has` is 0 where it is.
///
/// `BadAnalysis` where there is no such analysis; else `BadRange` where the program has no such point or the analysis no such bit; `BadRoom`
/// where the path has more hops than there is room for, and how many they are is told; `OutOfMemory` only where memory was refused.
///
/// It is one search, linear in the program and its edges; there are at most twice as many hops as points.
pub fn why_of_kept(
    alloc: Global,
    kept: &Kept,
    fact: NumberedFact,
    hops: &mut [NumberedHop],
    count: &mut usize,
    has: &mut u32,
) -> Result<(), Fault>
    ensures told { OnOk result (TellsWhy kept.now.program fact hops.old hops.new count.new has.new) }
    ensures kept { IfErr result (IsWhyKept hops.old hops.new count.old count.new has.old has.new) }
    ensures fault { IfErr result (IsWhyFault fact (length hops.old) count.new kept.now.program) }
{
    match witness_of(alloc, kept, fact)? {
        None => {
            *count = 0;
            *has = 0;
            Ok(())
        }
        Some(found) => {
            put_hops(alloc, found.as_slice(), hops, count)?;
            *has = 1;
            Ok(())
        }
    }
}
