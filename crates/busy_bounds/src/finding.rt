// The sets of all points and procedures, found along ways and branches.
ghost use Rattle.std.specs.Prelude.{◌≡◌, ◌≢◌, ◌<◌, ℕ, IfOk, OnOk, length, slice_index_or};
ghost use Rattle.flow_graph.specs.declared.analysis.Analysis.TheVariants.{Busy};
ghost use Rattle.gen_kill.specs.Selections.{all_bits};
ghost use Rattle.flow_regions.specs.code.Ways.{point_in, procedure_in};
ghost use Rattle.busy_bounds.specs.code.Kept.{ArePaths, ArePointSets, AreProcedureSets, IsPointSet, IsProcedureSet};
ghost use Rattle.busy_bounds.specs.code.Sets.{Grows};
ghost use Rattle.busy_bounds.specs.declared.bound.Bound.TheVariants.{Unknown};

use crate::OutOfMemory;
use crate::bound::Bound;
use crate::sets::{EMPTY, joined};
use crate::steps::{BusyProblem, stepped};
use flow_graph::Graph;
use flow_links::Links;
use flow_regions::{Branch, Hang, Hop, Way};
use std::alloc::Global;

/// The edges of a program, reversed, with ways to points and a tree of calls.
#[derive(Clone, Copy)]
pub(crate) struct Paths<'a> {
    pub(crate) links: &'a Links,
    pub(crate) ways: &'a [Way],
    pub(crate) tree: &'a [Branch],
}

/// The set of a number, if it is there.
pub(crate) fn bound_at(bounds: &[Bound], number: u32) -> Bound
    ensures { result ≡ slice_index_or bounds.now number Unknown }
{
    match bounds.get(number as usize) {
        Some(bound) => *bound,
        None => Bound::Unknown,
    }
}

// Puts a set at a number, if its place is there.
fn set_bound(bounds: &mut Vec<Bound>, number: u32, bound: Bound)
    ensures count { length bounds.new.items ≡ length bounds.old.items }
    ensures here { number < length bounds.old.items → slice_index_or bounds.new.items number Unknown ≡ bound }
    ensures others { (x : ℕ) → x ≢ number → slice_index_or bounds.new.items x Unknown ≡ slice_index_or bounds.old.items x Unknown }
{
    if (number as usize) < bounds.len() {
        bounds[number as usize] = bound;
    }
}

// The point of a way that is there.
fn point_at(ways: &[Way], number: u32) -> u32
    ensures { result ≡ point_in ways.now number }
{
    match ways.get(number as usize) {
        Some(way) => way.point,
        None => 0,
    }
}

// The set of the point of a way, by those of the points from which it comes.
fn point_set(
    busy: BusyProblem<'_, '_, '_>,
    paths: Paths<'_>,
    points: &[Bound],
    items: &mut Vec<u32>,
    number: usize,
) -> Result<Bound, OutOfMemory>
    requires problem { busy.problem.now ≡ all_bits busy.graph.now Busy }
    requires paths { ArePaths busy.graph.now paths }
    requires there { number < length paths.ways.now }
    requires before { ArePointSets busy.graph.now items.old.items points.now }
    ensures grows { OnOk result (Grows items.old.items items.new.items) }
    ensures set { IfOk result (IsPointSet busy.entry.graph.now items.new.items (point_in paths.entry.ways.now number)) }
{
    // Its contract tells that edges lead to points that are there.
    let _ = paths.links.points();
    let way = paths.ways[number];
    match way.hop {
        Hop::Begins => Ok(EMPTY),
        Hop::Steps { before } => {
            let bound = bound_at(points, point_at(paths.ways, before));
            stepped(busy, items, bound, way.point)
        }
        Hop::Passes { before, exit } => {
            let bound = bound_at(points, point_at(paths.ways, before));
            let through = bound_at(points, point_at(paths.ways, exit));
            joined(items, bound, through)
        }
    }
}

/// The sets of all points, over these numbers and more. Fails only where memory runs out.
pub(crate) fn point_sets(
    alloc: Global,
    busy: BusyProblem<'_, '_, '_>,
    paths: Paths<'_>,
    items: &mut Vec<u32>,
) -> Result<Vec<Bound>, OutOfMemory>
    requires problem { busy.problem.now ≡ all_bits busy.graph.now Busy }
    requires paths { ArePaths busy.graph.now paths }
    ensures { IfOk result (λ points. ArePointSets busy.entry.graph.now items.new.items points.items) }
{
    let mut points = vec![in alloc; Bound::Unknown; paths.links.points() as usize]?;
    for number in 0..paths.ways.len() {
        let set = point_set(busy, paths, points.as_slice(), &mut *items, number)?;
        set_bound(&mut points, paths.ways[number].point, set);
    }
    Ok(points)
}

// The procedure of a branch that is there.
fn procedure_of(tree: &[Branch], number: u32) -> u32
    ensures { result ≡ procedure_in tree.now number }
{
    match tree.get(number as usize) {
        Some(branch) => branch.procedure,
        None => 0,
    }
}

// The set of the procedure of a branch, by those of the procedure and the point from which it is called.
fn procedure_set(
    _graph: &Graph<'_>,
    paths: Paths<'_>,
    points: &[Bound],
    procedures: &[Bound],
    items: &mut Vec<u32>,
    number: usize,
) -> Result<Bound, OutOfMemory>
    requires paths { ArePaths _graph.now paths }
    requires there { number < length paths.tree.now }
    requires points { ArePointSets _graph.now items.old.items points.now }
    requires before { AreProcedureSets _graph.now items.old.items procedures.now }
    ensures set { IfOk result (IsProcedureSet _graph.now items.new.items (procedure_in paths.entry.tree.now number)) }
    ensures grows { OnOk result (Grows items.old.items items.new.items) }
{
    // Its contract tells that procedures and points fit together.
    let _ = paths.links.points();
    let branch = paths.tree[number];
    match branch.hang {
        Hang::Root => Ok(EMPTY),
        Hang::Call { caller, way } => {
            let brought = bound_at(procedures, procedure_of(paths.tree, caller));
            let bound = bound_at(points, point_at(paths.ways, way));
            joined(items, brought, bound)
        }
    }
}

/// The sets of all procedures, over the sets of all points. Fails only where memory runs out.
pub(crate) fn procedure_sets(
    alloc: Global,
    _graph: &Graph<'_>,
    paths: Paths<'_>,
    points: &[Bound],
    items: &mut Vec<u32>,
) -> Result<Vec<Bound>, OutOfMemory>
    requires paths { ArePaths _graph.now paths }
    requires points { ArePointSets _graph.now items.old.items points.now }
    ensures points { OnOk result (ArePointSets _graph.now items.new.items points.now) }
    ensures procedures { IfOk result (λ procedures. AreProcedureSets _graph.now items.new.items procedures.items) }
{
    let mut procedures = vec![in alloc; Bound::Unknown; paths.links.procedures() as usize]?;
    for number in 0..paths.tree.len() {
        let set = procedure_set(
            _graph,
            paths,
            points,
            procedures.as_slice(),
            &mut *items,
            number,
        )?;
        set_bound(&mut procedures, paths.tree[number].procedure, set);
    }
    Ok(procedures)
}
