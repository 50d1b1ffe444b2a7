// What a statement does with a set of expressions.
ghost use Rattle.std.specs.Prelude.{◌≡◌, ◌⊎◌, ℕ, ◌<◌, ◌≤◌, true, Some, length, IfOk, OnOk};
ghost use Rattle.flow_graph.specs.Points.{point_count};
ghost use Rattle.flow_graph.specs.Universes.{evaluated_at};
ghost use Rattle.flow_graph.specs.declared.analysis.Analysis.TheVariants.{Busy};
ghost use Rattle.gen_kill.specs.Selections.{all_bits, column_gens};
ghost use Rattle.busy_bounds.specs.code.Sets.{Grows, IsAmong, IsIn, IsThere};
ghost use Rattle.busy_bounds.specs.code.Kept.{IsStepped};
ghost use Rattle.busy_bounds.specs.declared.bound.Bound.TheVariants.{Among};

use crate::OutOfMemory;
use crate::bound::Bound;
use crate::sets::{is_among, put_once, set_from};
use flow_graph::Graph;
use gen_kill::Problem;

/// A graph, and its problem of very busy expressions.
#[derive(Clone, Copy)]
pub(crate) struct BusyProblem<'a, 'g, 'p> {
    pub(crate) graph: &'a Graph<'p>,
    pub(crate) problem: &'a Problem<'g, 'p>,
}

// Whether the statement at a point writes an operand of an expression, and does not evaluate it.
fn spoils(problem: &Problem<'_, '_>, point: u32, number: u32) -> bool
    requires { point < point_count problem.now.program }
    ensures { result ≡ true → column_gens problem.now point number ≡ true }
{
    number < problem.bits() && problem.gens(point, number)
}

// Whether the statement at a point spoils one of the numbers of some places.
fn spoils_some(problem: &Problem<'_, '_>, items: &[u32], from: u32, until: u32, point: u32) -> bool
    requires point { point < point_count problem.now.program }
    requires there { until ≤ length items.now }
{
    for place in from..until {
        if spoils(problem, point, items[place as usize]) {
            return true;
        }
    }
    false
}

// Puts the numbers of some places last that the statement at a point does not spoil.
fn put_unspoilt(
    problem: &Problem<'_, '_>,
    items: &mut Vec<u32>,
    from: u32,
    until: u32,
    point: u32,
) -> Result<(), OutOfMemory>
    requires point { point < point_count problem.now.program }
    requires there { until ≤ length items.old.items }
    ensures grows { OnOk result (Grows items.old.items items.new.items) }
    ensures has { OnOk result ((number : ℕ) → IsAmong items.old.items from until number
        → IsAmong items.new.items (length items.old.items) (length items.new.items) number ⊎ (column_gens problem.now point number ≡ true)) }
{
    let start = items.len();
    for place in from..until {
        let number = items[place as usize];
        if !spoils(problem, point, number) {
            put_once(&mut *items, start, number)?;
        }
    }
    Ok(())
}

// Whether the expression that the statement at a point evaluates stands at one of some places, or it evaluates none.
fn has_evaluated(graph: &Graph<'_>, items: &[u32], from: u32, until: u32, point: u32) -> bool
    requires point { point < point_count graph.now }
    requires there { until ≤ length items.now }
    ensures { (number : ℕ) → result ≡ true → evaluated_at graph.now point ≡ Some number → IsAmong items.now from until number }
{
    match graph.evaluated(point) {
        None => true,
        Some(number) => is_among(items, from as usize, until as usize, number),
    }
}

// Puts the expression last that the statement at a point evaluates, unless it stands from a place on already.
fn put_evaluated(
    graph: &Graph<'_>,
    items: &mut Vec<u32>,
    start: usize,
    point: u32,
) -> Result<(), OutOfMemory>
    requires point { point < point_count graph.now }
    requires start { start ≤ length items.old.items }
    ensures grows { OnOk result (Grows items.old.items items.new.items) }
    ensures has { OnOk result ((number : ℕ) → evaluated_at graph.now point ≡ Some number
        → IsAmong items.new.items start (length items.new.items) number) }
{
    match graph.evaluated(point) {
        None => Ok(()),
        Some(number) => put_once(items, start, number),
    }
}

// The set of the numbers of some places, as the statement at a point changes it.
fn stepped_places(
    busy: BusyProblem<'_, '_, '_>,
    items: &mut Vec<u32>,
    from: u32,
    until: u32,
    point: u32,
) -> Result<Bound, OutOfMemory>
    requires problem { busy.problem.now ≡ all_bits busy.graph.now Busy }
    requires point { point < point_count busy.graph.now }
    requires there { until ≤ length items.old.items }
    ensures grows { OnOk result (Grows items.old.items items.new.items) }
    ensures stepped { IfOk result (IsStepped busy.entry.problem.now point items.old.items items.new.items (Among from until)) }
{
    let BusyProblem { graph, problem } = busy;
    if has_evaluated(graph, items.as_slice(), from, until, point)
        && !spoils_some(problem, items.as_slice(), from, until, point)
    {
        return Ok(Bound::Among { from, until });
    }
    let start = items.len();
    put_unspoilt(problem, &mut *items, from, until, point)?;
    put_evaluated(graph, &mut *items, start, point)?;
    Ok(set_from(items.as_slice(), start))
}

/// A set, as the statement at a point changes it: less what the statement spoils, and what it evaluates. Fails only where memory runs out.
pub(crate) fn stepped(
    busy: BusyProblem<'_, '_, '_>,
    items: &mut Vec<u32>,
    bound: Bound,
    point: u32,
) -> Result<Bound, OutOfMemory>
    requires problem { busy.problem.now ≡ all_bits busy.graph.now Busy }
    requires point { point < point_count busy.graph.now }
    requires there { IsThere items.old.items bound }
    ensures grows { OnOk result (Grows items.old.items items.new.items) }
    ensures stepped { IfOk result (IsStepped busy.entry.problem.now point items.old.items items.new.items bound) }
{
    match bound {
        Bound::Unknown => Ok(Bound::Unknown),
        Bound::Among { from, until } => stepped_places(busy, items, from, until, point),
    }
}
