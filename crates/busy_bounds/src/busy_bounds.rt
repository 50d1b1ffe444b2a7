// Bounds of the very busy expressions at all points of a program.
ghost use Rattle.std.specs.Prelude.{◌≡◌, ◌≤◌, ◌<◌, ◌⊎◌, ℕ, IfOk, MatchOption};
ghost use Rattle.busy_bounds.specs.BusyBounds.{HasAllBusy, IsLastWord, NoneVeryBusy};
ghost use Rattle.busy_bounds.specs.code.Kept.{AreSets, reversed_program};
ghost use Rattle.busy_bounds.specs.code.Sets.{IsIn, IsThere};
ghost use Rattle.flow_graph.specs.Analyses.{IsInTable};
ghost use Rattle.flow_graph.specs.Points.{point_count};
ghost use Rattle.flow_graph.specs.Universes.{bits};
ghost use Rattle.flow_graph.specs.declared.analysis.Analysis.TheVariants.{Busy};
ghost use Rattle.gen_kill.specs.Selections.{all_bits};

use crate::OutOfMemory;
use crate::bound::Bound;
use crate::finding::{Paths, bound_at, point_sets, procedure_sets};
use crate::steps::BusyProblem;
use crate::words::{end_in, mask_in};
use flow_graph::Graph;
use flow_links::Links;
use flow_regions::all_ways;
use gen_kill::Problem;
use std::alloc::Global;
use std::marker::Model;
use std::snapshot::Snapshot;
use tac_program::Program;

/// For each point of a program some expressions among which all are that are very busy there: those that one path to the end of `main` evaluates
/// before it writes an operand, and some more. Where these would be many, all expressions.
///
/// An expression is very busy at a point where every valid path from there evaluates it before it writes an operand (Aho et al. 9.5). So one path
/// that does not says that it is not.
pub struct BusyBounds {
    program: Snapshot<Program>,
    items: Vec<u32>,
    points: Vec<Bound>,
    procedures: Vec<Bound>,
}

impl Model for BusyBounds {
    ghost use Rattle.busy_bounds.specs.code.Kept.{AreSets};
    ghost use Rattle.tac_program.specs.Programs.{Program};

    ghost Value = { Program };

    ghost view = { λ bounds. bounds.program.value };

    ghost invariant = { λ bounds. AreSets bounds.program.value bounds.items.items bounds.points.items bounds.procedures.items };
}

impl Drop for BusyBounds {
    // By hand: who gives them up then makes one call.
    fn drop(self) {
        let BusyBounds {
            program: _,
            items: _,
            points: _,
            procedures: _,
        } = self;
    }
}

// The sets of a point, and of its procedure.
fn sets_at(
    graph: &Graph<'_>,
    items: &[u32],
    points: &[Bound],
    procedures: &[Bound],
    point: u32,
) -> (Bound, Bound)
    requires sets { AreSets graph.now items.now points.now procedures.now }
    requires point { point < point_count graph.now }
    ensures here { IsThere items.now result.0 }
    ensures brought { IsThere items.now result.1 }
    ensures one { (bit : ℕ) → bit < bits graph.now Busy → IsInTable graph.now Busy point bit → IsIn items.now result.0 bit ⊎ IsIn items.now result.1 bit }
{
    let _ = items;
    let procedure = graph.place(point).procedure;
    (bound_at(points, point), bound_at(procedures, procedure))
}

// The later one of two words.
fn later(first: u32, second: u32) -> u32
    ensures one { first ≤ result }
    ensures two { second ≤ result }
    ensures is { (result ≡ first) ⊎ (result ≡ second) }
{
    if first < second { second } else { first }
}

impl BusyBounds {
    /// The bounds of a graph, by its problem of very busy expressions and its edges, reversed: time and memory go with these. Fails only where
    /// memory runs out.
    pub fn of(
        alloc: Global,
        graph: &Graph<'_>,
        problem: &Problem<'_, '_>,
        links: &Links,
    ) -> Result<BusyBounds, OutOfMemory>
        requires problem { problem.now ≡ all_bits graph.now Busy }
        requires links { links.now ≡ reversed_program graph.now }
        ensures { IfOk result (λ bounds. bounds ≡ graph.now) }
    {
        // Its contract tells that edges and procedures fit together.
        let _ = problem.root();
        let found = all_ways(alloc, links)?;
        let paths = Paths {
            links,
            ways: found.list.as_slice(),
            tree: found.tree.as_slice(),
        };
        let busy = BusyProblem { graph, problem };
        let mut items = Vec::new(alloc);
        let points = point_sets(alloc, busy, paths, &mut items)?;
        let procedures = procedure_sets(alloc, graph, paths, points.as_slice(), &mut items)?;
        Ok(BusyBounds {
            program: Snapshot::of(graph.program()),
            items,
            points,
            procedures,
        })
    }

    /// The last word before one, and not before the first one, in which some expression may be very busy at a point; None where none is in any of
    /// them. The conditions: the bounds are this graph's, and the point is there.
    pub fn last_word(&self, graph: &Graph<'_>, point: u32, first: u32, end: u32) -> Option<u32>
        requires graph { graph.now ≡ self.now }
        requires point { point < point_count graph.now }
        requires ordered { first ≤ end }
        ensures { MatchOption result (NoneVeryBusy graph.now point first end) (IsLastWord graph.now point first end) }
    {
        let items = self.items.as_slice();
        let (points, procedures) = (self.points.as_slice(), self.procedures.as_slice());
        let (here, brought) = sets_at(graph, items, points, procedures, point);
        let last = later(
            end_in(items, here, first, end),
            end_in(items, brought, first, end),
        );
        if last == first {
            return None;
        }
        Some(last - 1)
    }

    /// The expressions of a word that may be very busy at a point, as bits: all that are. The conditions: the bounds are this graph's, and the point
    /// is there.
    pub fn mask(&self, graph: &Graph<'_>, point: u32, word: u32) -> u64
        requires graph { graph.now ≡ self.now }
        requires point { point < point_count graph.now }
        ensures { HasAllBusy graph.now point word result }
    {
        let items = self.items.as_slice();
        let (points, procedures) = (self.points.as_slice(), self.procedures.as_slice());
        let (here, brought) = sets_at(graph, items, points, procedures, point);
        mask_in(items, here, word) | mask_in(items, brought, word)
    }
}
