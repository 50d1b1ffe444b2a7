// The points and the remarks that are shown.

ghost use Rattle.std.specs.Prelude.{◌≡◌, ◌+◌, ◌<◌, ◌≤◌, ◌++◌, ◌∷◌, [], IfOk, IfSome, OnOk, length, suc};
ghost use Rattle.std.specs.List.{filter};
ghost use Rattle.flow_graph.specs.Points.{end_place, entry_point, point_count};
ghost use Rattle.flow_reports.specs.Listed.{remarks_of};
ghost use Rattle.flow_reports.specs.code.Findings.{AreFindings, knowledge_of};
ghost use Rattle.flow_views.specs.Views.{end_shown, first_shown};
ghost use Rattle.flow_paths.specs.code.Doubted.{has_shown, is_shown};

use crate::OutOfMemory;
use flow_graph::Graph;
use flow_reports::{Findings, PlacedRemark};
use std::alloc::Global;

/// The points that are shown: from the first on and before the end.
#[derive(Clone, Copy)]
pub(crate) struct Shown {
    pub(crate) first: u32,
    pub(crate) end: u32,
}

// The points of a procedure.
fn points_in(graph: &Graph<'_>, procedure: u32) -> Shown
    requires { procedure < length graph.now.procedures }
    ensures first { result.first ≡ entry_point graph.now procedure }
    ensures end { result.end ≡ entry_point graph.now procedure + suc (end_place graph.now procedure) }
    ensures ordered { result.first ≤ result.end }
    ensures there { result.end ≤ point_count graph.now }
{
    // Its contract tells that there are few points.
    let _ = graph.points();
    let procs = graph.program().procs();
    let places = procs[procedure as usize].stmts().len() as u32;
    let first = graph.point(procedure, 0);
    let last = graph.point(procedure, places);
    Shown {
        first,
        end: last + 1,
    }
}

/// The points that are shown, of one procedure or of all.
pub(crate) fn points_shown(graph: &Graph<'_>, procedure: Option<u32>) -> Shown
    requires { IfSome procedure (λ number. number < length graph.now.procedures) }
    ensures first { result.first ≡ first_shown graph.now procedure }
    ensures end { result.end ≡ end_shown graph.now procedure }
    ensures ordered { result.first ≤ result.end }
    ensures there { result.end ≤ point_count graph.now }
{
    match procedure {
        Some(number) => points_in(graph, number),
        None => Shown {
            first: 0,
            end: graph.points(),
        },
    }
}

/// Whether a point is shown.
pub(crate) fn is_within(shown: Shown, point: u32) -> bool
    ensures { result ≡ is_shown shown point }
{
    shown.first <= point && point < shown.end
}

// Puts a remark last where it is shown.
fn put_shown(
    remarks: &mut Vec<PlacedRemark>,
    placed: PlacedRemark,
    shown: Shown,
) -> Result<(), OutOfMemory>
    ensures { OnOk result (remarks.new.items ≡ remarks.old.items ++ filter (has_shown shown) (placed ∷ [])) }
{
    if is_within(shown, placed.point) {
        remarks.push(placed)?;
    }
    Ok(())
}

// Those of some remarks that are shown.
fn keep_shown(
    alloc: Global,
    all: &[PlacedRemark],
    shown: Shown,
) -> Result<Vec<PlacedRemark>, OutOfMemory>
    ensures { IfOk result (λ remarks. remarks.items ≡ filter (has_shown shown) all.now) }
{
    let mut remarks = Vec::new(alloc);
    for placed in all {
        put_shown(&mut remarks, *placed, shown)?;
    }
    Ok(remarks)
}

/// The remarks that are shown. Fails only where memory runs out.
pub(crate) fn remarks_shown(
    alloc: Global,
    found: &Findings<'_>,
    shown: Shown,
) -> Result<Vec<PlacedRemark>, OutOfMemory>
    requires { AreFindings found.now }
    ensures { IfOk result (λ remarks. remarks.items ≡ filter (has_shown shown) (remarks_of found.now.graph.now (knowledge_of found.now))) }
{
    let all = found.remarks(alloc)?;
    keep_shown(alloc, &all, shown)
}
