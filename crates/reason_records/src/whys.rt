// Why bits of an analysis are in the sets of points, many at once, as numbers.

ghost use Rattle.std.specs.Prelude.{◌≡◌, ◌<◌, ◌≤◌, ◌++◌, ◌∷◌, [], ℕ, Some, None, length, map, IfErr, IfOk, OnErr, OnOk};
ghost use Rattle.flow_why.specs.Directed.{direction_of};
ghost use Rattle.flow_records.specs.Numbers.{analysis_of};
ghost use Rattle.flow_records.specs.Rooms.{HoldsList, IsListKept};
ghost use Rattle.reason_records.specs.Why.{hop_part};
ghost use Rattle.reason_records.specs.Whys.{AreWhys, IsAskedFault, IsWhysFault};
ghost use Rattle.reason_records.specs.code.Whys.{AreAskedIn, AreToldTo, IsAskedIn, IsToldMore};
ghost use Rattle.gen_kill.specs.Selections.{all_bits};

use crate::why::{NumberedHop, hop_of};
use flow_graph::{Analysis, Graph, OutOfMemory};
use flow_kept::Kept;
use flow_records::{Fault, find_analysis, put_list};
use flow_why::{Hop, Ways};
use flow_witnesses::{Why, witness_at};
use gen_kill::Problem;
use std::alloc::Global;

/// A bit of an analysis at a point that is asked, and what is told of it: `has` is 1 where a valid path brings the bit there, and else 0. Its
/// hops are those behind the ones of the bit before it up to `end`, which is a number of hops.
#[repr(C)]
#[derive(Clone, Copy)]
pub struct NumberedWhy {
    pub point: u32,
    pub bit: u32,
    pub has: u32,
    pub end: usize,
}

// What is told so far: of each bit, and the hops of all.
#[derive(Drop)]
struct Told {
    whys: Vec<NumberedWhy>,
    hops: Vec<NumberedHop>,
}

// Puts hops by their numbers, in their order.
fn put_hops(hops: &mut Vec<NumberedHop>, found: &[Hop]) -> Result<(), OutOfMemory>
    ensures { OnOk result (hops.new.items ≡ hops.old.items ++ map hop_part found.now) }
{
    for hop in found {
        hops.push(hop_of(*hop))?;
    }
    Ok(())
}

// Puts what is told of a bit whose hops are there.
fn put_why(told: &mut Told, asked: NumberedWhy, has: u32) -> Result<(), OutOfMemory>
    ensures whys { OnOk result (told.new.whys.items ≡ told.old.whys.items
        ++ record { point = asked.point; bit = asked.bit; has = has; end = length told.old.hops.items } ∷ []) }
    ensures hops { told.new.hops.items ≡ told.old.hops.items }
{
    let NumberedWhy { point, bit, .. } = asked;
    let end = told.hops.len();
    told.whys.push(NumberedWhy {
        point,
        bit,
        has,
        end,
    })?;
    Ok(())
}

// Tells of the bit of a search at a point.
fn tell(
    alloc: Global,
    why: &Why<'_, '_, '_>,
    asked: NumberedWhy,
    told: &mut Told,
) -> Result<(), OutOfMemory>
    requires all { why.now.form.chosen ≡ None }
    requires bit { asked.bit ≡ why.now.column }
    requires there { IsAskedIn why.now.form asked }
    ensures { OnOk result (IsToldMore why.now.form asked told.old.whys.items told.new.whys.items told.old.hops.items told.new.hops.items) }
{
    match why.witness(alloc, asked.point)? {
        None => put_why(told, asked, 0),
        Some(found) => {
            put_hops(&mut told.hops, found.as_slice())?;
            put_why(told, asked, 1)
        }
    }
}

// Tells of a bit that is asked at this point alone, by a search for the point.
fn tell_alone(
    alloc: Global,
    ways: &Ways,
    problem: &Problem<'_, '_>,
    asked: NumberedWhy,
    told: &mut Told,
) -> Result<(), OutOfMemory>
    requires all { problem.now.chosen ≡ None }
    requires ways { ways.now.linked ≡ direction_of problem.now }
    requires there { IsAskedIn problem.now asked }
    ensures { OnOk result (IsToldMore problem.now asked told.old.whys.items told.new.whys.items told.old.hops.items told.new.hops.items) }
{
    match witness_at(alloc, ways, problem, asked.bit, asked.point)? {
        None => put_why(told, asked, 0),
        Some(found) => {
            put_hops(&mut told.hops, found.as_slice())?;
            put_why(told, asked, 1)
        }
    }
}

// Whether the next one asks for the same bit.
fn is_asked_again(asked: &[NumberedWhy], from: usize) -> bool
    requires { from < length asked.now }
{
    match asked.get(from + 1) {
        Some(next) => next.bit == asked[from].bit,
        None => false,
    }
}

// Tells of those that ask the same bit from one on, and returns behind them.
fn tell_same(
    alloc: Global,
    ways: &Ways,
    problem: &Problem<'_, '_>,
    asked: &[NumberedWhy],
    from: usize,
    told: &mut Told,
) -> Result<usize, OutOfMemory>
    requires all { problem.now.chosen ≡ None }
    requires ways { ways.now.linked ≡ direction_of problem.now }
    requires there { AreAskedIn problem.now asked.now }
    requires from { from < length asked.now }
    ensures more { IfOk result (λ until. from < until) }
    ensures within { IfOk result (λ until. until ≤ length asked.now) }
    ensures told { IfOk result (λ until. (number : ℕ) → AreToldTo problem.now number asked.now from told.old.whys.items told.old.hops.items
        → AreToldTo problem.now number asked.now until told.new.whys.items told.new.hops.items) }
{
    if !is_asked_again(asked, from) {
        tell_alone(alloc, ways, problem, asked[from], told)?;
        return Ok(from + 1);
    }
    let bit = asked[from].bit;
    let why = Why::of(alloc, ways, problem, bit)?;
    tell(alloc, &why, asked[from], &mut *told)?;
    let mut at = from + 1;
    while at < asked.len() && asked[at].bit == bit {
        tell(alloc, &why, asked[at], &mut *told)?;
        at += 1;
    }
    Ok(at)
}

// Tells of all that are asked.
fn whys_over(
    alloc: Global,
    problem: &Problem<'_, '_>,
    asked: &[NumberedWhy],
) -> Result<Told, OutOfMemory>
    requires all { problem.now.chosen ≡ None }
    requires there { AreAskedIn problem.now asked.now }
    ensures { IfOk result (λ told. (number : ℕ) → analysis_of number ≡ Some problem.now.analysis
        → AreWhys problem.now.program number asked.now told.whys.items told.hops.items) }
{
    let ways = Ways::of(alloc, problem)?;
    let mut told = Told {
        whys: Vec::with_capacity(alloc, asked.len())?,
        hops: Vec::new(alloc),
    };
    let mut from = 0usize;
    while from < asked.len() {
        from = tell_same(alloc, &ways, problem, asked, from, &mut told)?;
    }
    Ok(told)
}

// The analysis of a number, where the program has all points that are asked, and it all bits.
fn analysis_of_all(graph: &Graph<'_>, number: u32, asked: &[NumberedWhy]) -> Result<Analysis, Fault>
    ensures analysis { IfOk result (λ analysis. analysis_of number ≡ Some analysis) }
    ensures there { IfOk result (λ analysis. AreAskedIn (all_bits graph.now analysis) asked.now) }
    ensures fault { IfErr result (IsAskedFault graph.now number asked.now) }
{
    let Some(analysis) = find_analysis(number) else {
        return Err(Fault::BadAnalysis);
    };
    for why in asked {
        if graph.points() <= why.point || graph.bits(analysis) <= why.bit {
            return Err(Fault::BadRange);
        }
    }
    Ok(analysis)
}

// Tells of all that are asked of an analysis.
fn whys_in(
    alloc: Global,
    graph: &Graph<'_>,
    analysis: Analysis,
    asked: &[NumberedWhy],
) -> Result<Told, OutOfMemory>
    requires { AreAskedIn (all_bits graph.now analysis) asked.now }
    ensures { IfOk result (λ told. (number : ℕ) → analysis_of number ≡ Some analysis
        → AreWhys graph.now number asked.now told.whys.items told.hops.items) }
{
    let problem = Problem::of(alloc, graph, analysis)?;
    whys_over(alloc, &problem, asked)
}

// Tells of all that numbers ask of a kept program.
fn whys_of(alloc: Global, kept: &Kept, number: u32, asked: &[NumberedWhy]) -> Result<Told, Fault>
    ensures told { IfOk result (λ told. AreWhys kept.now.program number asked.now told.whys.items told.hops.items) }
    ensures fault { IfErr result (IsAskedFault kept.now.program number asked.now) }
{
    let graph = kept.graph(alloc)?;
    let analysis = analysis_of_all(&graph, number, asked)?;
    let told = whys_in(alloc, &graph, analysis, asked)?;
    Ok(told)
}

/// Why bits of an analysis are in the sets of points of a kept program, as [`why_of_kept`](crate::why_of_kept) tells it of one: of each that is
/// asked whether a valid path brings it, and the hops of one, all one after the other. Bits are asked in any order; what is asked of the same
/// bit one after the other takes one search.
///
/// `BadAnalysis` where there is no such analysis; else `BadRange` where the program lacks a point that is asked, or the analysis a bit;
/// `BadRoom` where there is too little room for all hops, and how many they are is told; `OutOfMemory` only where memory was refused. Nothing
/// else is told then.
///
/// Graph and edges are made once: each bit then takes one search, linear in the program and its edges.
pub fn whys_of_kept(
    alloc: Global,
    kept: &Kept,
    analysis: u32,
    asked: &mut [NumberedWhy],
    hops: &mut [NumberedHop],
    count: &mut usize,
) -> Result<(), Fault>
    ensures told { OnOk result (HoldsList (AreWhys kept.now.program analysis asked.old asked.new) hops.old hops.new count.new) }
    ensures asked { OnErr result (asked.new ≡ asked.old) }
    ensures kept { IfErr result (IsListKept hops.old hops.new count.old count.new) }
    ensures fault { IfErr result (IsWhysFault analysis asked.old (length hops.old) count.new kept.now.program) }
{
    let told = whys_of(alloc, kept, analysis, asked)?;
    if !put_list(told.hops.as_slice(), hops, count) {
        return Err(Fault::BadRoom);
    }
    asked.copy_from_slice(told.whys.as_slice());
    Ok(())
}
