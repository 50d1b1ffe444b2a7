// What bounds tell of a bit at a point.
ghost use Rattle.std.specs.Prelude.{◌≡◌, ◌<◌, true, length, slice_index};
ghost use Rattle.flow_graph.specs.Analyses.{is_backward};
ghost use Rattle.flow_graph.specs.Paths.{SomePathHas};
ghost use Rattle.flow_graph.specs.Points.{point_count};
ghost use Rattle.flow_graph.specs.Problems.{may_shape};
ghost use Rattle.gen_kill.specs.Selections.{column_transfer};
ghost use Rattle.flow_bounds.specs.Clauses.{IsPointInside};
ghost use Rattle.flow_bounds.specs.code.Bounded.{AreBounding};
ghost use Rattle.flow_bounds.specs.code.Groups.{AreAbove, AreBelow};

use crate::bounding::{Bounded, has};
use crate::frame::Frame;
use gen_kill::Problem;

/// Whether a column's bit is not in the may form's set at a point, by its bound from above.
pub(crate) fn is_lacked(
    problem: &Problem<'_, '_>,
    columns: &[u32],
    frame: &Frame<'_>,
    bounded: &Bounded,
    point: u32,
    place: u32,
) -> bool
    requires linked { frame.now.links.now ≡ record { program = problem.now.program; backward = is_backward problem.now.analysis } }
    requires above { AreAbove problem.now columns.now frame.now }
    requires bounded { AreBounding frame.now bounded.now }
    requires there { point < point_count problem.now.program }
    requires inside { IsPointInside frame.now point }
    requires few { place < 64 }
    requires place { place < length columns.now }
    ensures { result ≡ true
        → SomePathHas (may_shape problem.now.program problem.now.analysis) (column_transfer problem.now (slice_index columns.now place)) point → ⊥ }
{
    bounded.closed && !has(frame, bounded.words.as_slice(), point, place)
}

/// Whether a column's bit is in the may form's set at a point, by its bound from below.
pub(crate) fn is_had(
    problem: &Problem<'_, '_>,
    columns: &[u32],
    frame: &Frame<'_>,
    bounded: &Bounded,
    point: u32,
    place: u32,
) -> bool
    requires linked { frame.now.links.now ≡ record { program = problem.now.program; backward = is_backward problem.now.analysis } }
    requires below { AreBelow problem.now columns.now frame.now }
    requires bounded { AreBounding frame.now bounded.now }
    requires there { point < point_count problem.now.program }
    requires inside { IsPointInside frame.now point }
    requires few { place < 64 }
    requires place { place < length columns.now }
    ensures { result ≡ true
        → SomePathHas (may_shape problem.now.program problem.now.analysis) (column_transfer problem.now (slice_index columns.now place)) point }
{
    frame.taken[point as usize] && has(frame, bounded.words.as_slice(), point, place)
}
