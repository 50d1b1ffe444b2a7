// The call sites of each procedure.

ghost use Rattle.std.specs.Prelude.{◌≡◌, ◌<◌, length, fold, All, IfOk, OnOk};
ghost use Rattle.flow_graph.specs.Edges.{callees_at, callees_named};
ghost use Rattle.flow_graph.specs.code.NumberLists.{contents, with_last};
ghost use Rattle.flow_graph.specs.Points.{point_count};
ghost use Rattle.flow_graph.specs.code.Sites.{AreSites};

use crate::OutOfMemory;
use crate::number_lists::{NumberList, empty_lists, put_last};
use crate::points::Points;
use std::alloc::Global;
use tac_program::StmtKind;

/// The procedures that a statement may call.
fn callees_named(kind: &StmtKind) -> &[u32]
    ensures { result.now ≡ callees_named kind.now }
{
    match kind {
        StmtKind::Copy { .. } => &[],
        StmtKind::Unary { .. } => &[],
        StmtKind::Binary { .. } => &[],
        StmtKind::Goto { .. } => &[],
        StmtKind::If { .. } => &[],
        StmtKind::IfFalse { .. } => &[],
        StmtKind::IfCompare { .. } => &[],
        StmtKind::Call { callees } => callees.as_slice(),
        StmtKind::Return => &[],
        StmtKind::Read { .. } => &[],
        StmtKind::Print { .. } => &[],
        StmtKind::Skip => &[],
    }
}

/// The procedures that the statement at a point may call.
fn callees<'p>(points: &Points<'p>, point: u32) -> &'p [u32]
    requires { point < point_count points.now }
    ensures { result.now ≡ callees_at points.now point }
{
    match points.stmt(point) {
        None => &[],
        Some(stmt) => callees_named(&stmt.kind),
    }
}

/// Puts a call site last in the list of each procedure that it may call.
fn put_site(lists: &mut Vec<NumberList>, callees: &[u32], site: u32) -> Result<(), OutOfMemory>
    requires { All (λ procedure. procedure < length (contents lists.old.items)) callees.now }
    ensures { OnOk result
        (contents lists.new.items ≡ fold (λ known procedure. with_last known procedure site) (contents lists.old.items) callees.now) }
{
    for callee in callees {
        put_last(lists, *callee, site)?;
    }
    Ok(())
}

/// The call sites of each procedure, in the order of points.
pub fn call_sites(alloc: Global, points: &Points<'_>) -> Result<Vec<NumberList>, OutOfMemory>
    ensures { IfOk result (λ sites. AreSites points.now (contents sites.items)) }
{
    let procs = points.program().procs();
    let mut sites = empty_lists(alloc, procs.len())?;
    for point in 0..points.count() {
        put_site(&mut sites, callees(points, point), point)?;
    }
    Ok(sites)
}
