// The nearest point before one to which a valid path leads.
ghost use Rattle.std.specs.Prelude.{◌≡◌, ◌<◌, false, MatchOption};
ghost use Rattle.flow_graph.specs.Points.{point_count};
ghost use Rattle.flow_reasons.specs.Reached.{IsLastReached, NoneReachedFrom};

use flow_graph::Graph;
use flow_why::Ways;

/// The nearest point before a point, in its procedure, to which a valid path leads.
pub(crate) fn last_reached(graph: &Graph<'_>, ways: &Ways, point: u32) -> Option<u32>
    requires ways { ways.now.linked ≡ record { program = graph.now; backward = false } }
    requires within { point < point_count graph.now }
    ensures { MatchOption result (NoneReachedFrom graph.now point 0) (λ found. IsLastReached graph.now point found) }
{
    // Its contract tells that the program is sound.
    let _ = graph.points();
    let place = graph.place(point);
    for back in 0..place.place {
        let at = graph.point(place.procedure, place.place - 1 - back);
        if ways.has_path(at) {
            return Some(at);
        }
    }
    None
}
