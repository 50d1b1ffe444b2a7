// Points from which the exit of their procedure is reached. Which they are bears on the time alone.
ghost use Rattle.std.specs.Prelude.{◌≡◌, ◌<◌};
ghost use Rattle.flow_graph.specs.Points.{point_count};

use crate::OutOfMemory;
use crate::links::Links;
use std::alloc::Global;

// How often the points are gone over: loops that lie deeper in one another are taken to lead on.
const MOST_ROUNDS: u32 = 8;

// Whether a point is known to lead on.
fn is_known(leading: &[bool], point: u32) -> bool {
    leading.get(point as usize).copied() == Some(true)
}

// Whether a point is an exit, or one of its steps or its calls goes to a point that leads on.
fn leads_on(links: &Links, leading: &[bool], point: u32) -> bool
    requires { point < point_count links.now.program }
{
    // Its contract tells that the procedure is there.
    let _ = links.points();
    if links.exit(links.procedure_of(point)) == point {
        return true;
    }
    // All calls of a point lead to the same one behind it.
    if let Some(call) = links.calls_from(point).first() {
        if is_known(leading, call.after) {
            return true;
        }
    }
    for target in links.steps_from(point) {
        if is_known(leading, *target) {
            return true;
        }
    }
    false
}

// Goes over these points from the last to the first, and tells whether one more leads on.
fn find_more(links: &Links, points: &[u32], leading: &mut [bool]) -> bool {
    let mut more = false;
    for point in points.iter().rev() {
        let point = *point;
        if point < links.points() && !is_known(leading, point) {
            let leads = leads_on(links, leading, point);
            if let Some(place) = leading.get_mut(point as usize) {
                *place = leads;
            }
            more = more || leads;
        }
    }
    more
}

/// For each point whether it leads on to its procedure's exit, every call being left. The points are given in an order of their steps.
pub(crate) fn leading_points(
    alloc: Global,
    links: &Links,
    points: &[u32],
) -> Result<Vec<bool>, OutOfMemory> {
    let mut leading = vec![in alloc; false; links.points() as usize]?;
    for _ in 0..MOST_ROUNDS {
        if !find_more(links, points, leading.as_mut_slice()) {
            return Ok(leading);
        }
    }
    leading.fill(true);
    Ok(leading)
}
