// What stands around remarks, each found by its point.

ghost use Rattle.std.specs.Prelude.{◌≡◌, ◌<◌, ◌++◌, ◌∷◌, [], All, IfOk, OnOk, length, map};
ghost use Rattle.flow_graph.specs.Points.{point_count};
ghost use Rattle.worklist.specs.Groups.{AreGroups};
ghost use Rattle.flow_paths.specs.code.Arounds.{AreAroundsOf, AreByPoint, IsAround, IsAskable, around_at, read_of, remarks_in, same_remark};

use crate::OutOfMemory;
use crate::around::{Around, around_of};
use crate::facts::{Facts, facts_of, nothing};
use flow_graph::Graph;
use flow_reasons::Reasons;
use flow_reports::{PlacedRemark, Remark};
use std::alloc::Global;
use std::marker::Model;
use worklist::{Groups, group};

// Puts what stands around a remark last.
fn put_around(
    arounds: &mut Vec<Around>,
    alloc: Global,
    reasons: &Reasons<'_, '_>,
    graph: &Graph<'_>,
    placed: PlacedRemark,
) -> Result<(), OutOfMemory>
    requires graph { graph.now ≡ reasons.now }
    requires asked { IsAskable reasons.now placed }
    ensures put { OnOk result (remarks_in arounds.new.items ≡ remarks_in arounds.old.items ++ placed ∷ []) }
    ensures exact { OnOk result (All (IsAround reasons.now) arounds.old.items → All (IsAround reasons.now) arounds.new.items) }
{
    let around = around_of(alloc, reasons, graph, placed)?;
    arounds.push(around)?;
    Ok(())
}

// What stands around each of some remarks.
fn arounds_of(
    alloc: Global,
    reasons: &Reasons<'_, '_>,
    graph: &Graph<'_>,
    remarks: &[PlacedRemark],
) -> Result<Vec<Around>, OutOfMemory>
    requires graph { graph.now ≡ reasons.now }
    requires asked { All (IsAskable reasons.now) remarks.now }
    ensures put { IfOk result (λ arounds. remarks_in arounds.items ≡ remarks.now) }
    ensures exact { IfOk result (λ arounds. All (IsAround reasons.now) arounds.items) }
{
    let mut arounds = Vec::with_capacity(alloc, remarks.len())?;
    for placed in remarks {
        put_around(&mut arounds, alloc, reasons, graph, *placed)?;
    }
    Ok(arounds)
}

// The points of remarks.
fn points_of(alloc: Global, arounds: &[Around]) -> Result<Vec<u32>, OutOfMemory>
    ensures { IfOk result (λ points. points.items ≡ map (λ placed. placed.point) (remarks_in arounds.now)) }
{
    let mut points = Vec::with_capacity(alloc, arounds.len())?;
    for around in arounds {
        points.push(around.placed.point)?;
    }
    Ok(points)
}

// The numbers of remarks by their points. More than can be numbered are told as memory that ran out.
fn arounds_by_point(
    alloc: Global,
    graph: &Graph<'_>,
    arounds: &[Around],
) -> Result<Groups, OutOfMemory>
    requires { All (λ placed. placed.point < point_count graph.now) (remarks_in arounds.now) }
    ensures { IfOk result (λ groups. AreGroups (map (λ placed. placed.point) (remarks_in arounds.now)) (point_count graph.now)
        groups.starts.items groups.places.items) }
{
    if arounds.len() > u32::MAX as usize {
        return Err(OutOfMemory);
    }
    let count = graph.points();
    let points = points_of(alloc, arounds)?;
    group(alloc, &points, count)
}

// Whether two remarks are the same.
fn is_same(one: Remark, other: Remark) -> bool
    ensures { result ≡ same_remark one other }
{
    one == other
}

// What stands around a remark on a point; nothing where there is no such remark.
fn find_around<'a>(
    arounds: &'a [Around],
    starts: &[u32],
    places: &[u32],
    point: u32,
    remark: Remark,
) -> Facts<'a>
    requires { AreByPoint (record { arounds = arounds.now; starts = starts.now; places = places.now }) }
    ensures { read_of result ≡ around_at (record { arounds = arounds.now; starts = starts.now; places = places.now }) point remark }
{
    let next = point as usize + 1;
    if starts.len() <= next {
        return nothing();
    }
    for place in starts[point as usize]..starts[next] {
        let around = &arounds[places[place as usize] as usize];
        if is_same(around.placed.remark, remark) {
            return facts_of(around);
        }
    }
    nothing()
}

/// What stands around remarks, each found by its point.
pub(crate) struct Arounds {
    arounds: Vec<Around>,
    by_point: Groups,
}

impl Model for Arounds {
    ghost use Rattle.flow_paths.specs.code.Arounds.{AreByPoint, AroundTable};

    ghost Value = { AroundTable };

    ghost view = { λ a. record { arounds = a.arounds.items; starts = a.by_point.starts.items; places = a.by_point.places.items } };

    ghost invariant = { λ a. AreByPoint (record { arounds = a.arounds.items; starts = a.by_point.starts.items; places = a.by_point.places.items }) };
}

impl Drop for Arounds {
    // By hand: who gives them up then makes one call.
    fn drop(self) {
        let Arounds {
            arounds: _,
            by_point: _,
        } = self;
    }
}

impl Arounds {
    /// What stands around remarks. Fails only where memory runs out.
    pub(crate) fn of(
        alloc: Global,
        reasons: &Reasons<'_, '_>,
        graph: &Graph<'_>,
        remarks: &[PlacedRemark],
    ) -> Result<Arounds, OutOfMemory>
        requires graph { graph.now ≡ reasons.now }
        requires asked { All (IsAskable reasons.now) remarks.now }
        ensures { IfOk result (AreAroundsOf reasons.now remarks.now) }
    {
        let arounds = arounds_of(alloc, reasons, graph, remarks)?;
        let by_point = arounds_by_point(alloc, graph, &arounds)?;
        Ok(Arounds { arounds, by_point })
    }

    /// What stands around a remark on a point; nothing where there is no such remark.
    pub(crate) fn facts(&self, point: u32, remark: Remark) -> Facts<'_>
        ensures { read_of result ≡ around_at self.now point remark }
    {
        find_around(
            &self.arounds,
            &self.by_point.starts,
            &self.by_point.places,
            point,
            remark,
        )
    }
}
