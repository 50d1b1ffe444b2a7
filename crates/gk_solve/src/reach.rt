// The flags of points, by visits of the points that are changed.
ghost use Rattle.std.specs.Prelude.{◌≡◌, ◌<◌, ℕ, length};
ghost use Rattle.flow_graph.specs.declared.edge.Edge.TheVariants.{Step, Call};
ghost use Rattle.flow_graph.specs.Paths.{IsEdge, source_of};
ghost use Rattle.flow_graph.specs.Points.{point_count};
ghost use Rattle.summary_equations.specs.Equations.{Reached};
ghost use Rattle.flow_links.specs.Shapes.{directed_shape};
ghost use Rattle.flow_links.specs.LinkLists.{IsCallLink};
ghost use Rattle.worklist.specs.Worklist.{AreClear};
ghost use Rattle.gk_solve.specs.Tables.Flags.{IsFlagged, AreSound, AreExactly, IsCallSettled, IsReachClosedAt, ReachSpreads};
ghost use Rattle.gk_solve.specs.Tables.Visits.{IsSettled};

use flow_graph::Edge;
use flow_links::{CallLink, Links};
use worklist::Worklist;

// Sets the flag of a point that is reached, and where it was clear, marks the point and those that wait for it.
fn reach_point(links: &Links, flags: &mut [bool], dirty: &mut Worklist, at: u32)
    requires count { length flags.now ≡ point_count links.now.program }
    requires dirty_count { length dirty.now ≡ point_count links.now.program }
    requires within { at < point_count links.now.program }
    requires reached { Reached (directed_shape links.now) at }
    ensures spreads { ReachSpreads (directed_shape links.now) links.now.backward flags.old dirty.old flags.new dirty.new }
    ensures flagged { IsFlagged flags.new at }
{
    if flags[at as usize] {
        return;
    }
    flags[at as usize] = true;
    dirty.mark(at as usize);
    let callers = links.callers_of(at);
    for caller in callers {
        dirty.mark(*caller as usize);
    }
}

// Goes over the steps from a reached point.
fn visit_steps(links: &Links, flags: &mut [bool], dirty: &mut Worklist, at: u32)
    requires count { length flags.now ≡ point_count links.now.program }
    requires dirty_count { length dirty.now ≡ point_count links.now.program }
    requires within { at < point_count links.now.program }
    requires reached { Reached (directed_shape links.now) at }
    ensures spreads { ReachSpreads (directed_shape links.now) links.now.backward flags.old dirty.old flags.new dirty.new }
    ensures flagged { (y : ℕ) → IsEdge (directed_shape links.now) (Step at y) → IsFlagged flags.new y }
{
    let steps = links.steps_from(at);
    for to in steps {
        reach_point(links, flags, dirty, *to);
    }
}

// Goes over one call from a reached point.
fn visit_call(links: &Links, flags: &mut [bool], dirty: &mut Worklist, at: u32, call: CallLink)
    requires count { length flags.now ≡ point_count links.now.program }
    requires dirty_count { length dirty.now ≡ point_count links.now.program }
    requires reached { Reached (directed_shape links.now) at }
    requires sound { AreSound (Reached (directed_shape links.now)) flags.now }
    requires there { IsCallLink (directed_shape links.now) links.now.backward at call }
    requires within { (call.exit < point_count links.now.program) × (call.after < point_count links.now.program) }
    ensures spreads { ReachSpreads (directed_shape links.now) links.now.backward flags.old dirty.old flags.new dirty.new }
    ensures settled { IsCallSettled (directed_shape links.now) links.now.backward at flags.new dirty.new call }
{
    // Its contract tells what a shape's edges are.
    let _ = links.points();
    if flags[call.exit as usize] {
        reach_point(links, flags, dirty, call.after);
    }
}

// Goes over the calls from a reached point.
fn visit_calls(links: &Links, flags: &mut [bool], dirty: &mut Worklist, at: u32)
    requires count { length flags.now ≡ point_count links.now.program }
    requires dirty_count { length dirty.now ≡ point_count links.now.program }
    requires within { at < point_count links.now.program }
    requires reached { Reached (directed_shape links.now) at }
    requires sound { AreSound (Reached (directed_shape links.now)) flags.now }
    ensures spreads { ReachSpreads (directed_shape links.now) links.now.backward flags.old dirty.old flags.new dirty.new }
    ensures settled { (site y : ℕ) → IsEdge (directed_shape links.now) (Call site at y)
        → IsSettled (IsReachClosedAt (directed_shape links.now) links.now.backward) source_of flags.new dirty.new (Call site at y) }
{
    let calls = links.calls_from(at);
    for call in calls {
        visit_call(links, flags, dirty, at, *call);
    }
}

// Goes over the edges from a point.
fn visit_point(links: &Links, flags: &mut [bool], dirty: &mut Worklist, at: u32)
    requires count { length flags.now ≡ point_count links.now.program }
    requires dirty_count { length dirty.now ≡ point_count links.now.program }
    requires within { at < point_count links.now.program }
    requires sound { AreSound (Reached (directed_shape links.now)) flags.now }
    ensures spreads { ReachSpreads (directed_shape links.now) links.now.backward flags.old dirty.old flags.new dirty.new }
    ensures settled { (edge : Edge) → IsEdge (directed_shape links.now) edge → source_of edge ≡ at
        → IsSettled (IsReachClosedAt (directed_shape links.now) links.now.backward) source_of flags.new dirty.new edge }
{
    if flags[at as usize] {
        visit_steps(links, flags, dirty, at);
        visit_calls(links, flags, dirty, at);
    }
}

// Sets the flags of the entries.
fn grow_entries(links: &Links, flags: &mut [bool], dirty: &mut Worklist)
    requires count { length flags.now ≡ point_count links.now.program }
    requires dirty_count { length dirty.now ≡ point_count links.now.program }
    ensures spreads { ReachSpreads (directed_shape links.now) links.now.backward flags.old dirty.old flags.new dirty.new }
    ensures entries { (procedure : ℕ) → procedure < (directed_shape links.now).procedures
        → IsFlagged flags.new ((directed_shape links.now).entry procedure) }
{
    // Its contract tells where entries lie.
    let _ = links.points();
    for procedure in 0..links.procedures() {
        reach_point(links, flags, dirty, links.entry(procedure));
    }
}

/// Sets the flag of each point that is reached inside its procedure. No flag is set before.
pub(crate) fn reached(links: &Links, flags: &mut [bool], dirty: &mut Worklist)
    requires count { length flags.now ≡ point_count links.now.program }
    requires dirty_count { length dirty.now ≡ point_count links.now.program }
    requires none { (x : ℕ) → IsFlagged flags.now x → ⊥ }
    requires clear { AreClear dirty.now }
    ensures { AreExactly (Reached (directed_shape links.now)) flags.new }
{
    // Its contract tells what a shape's edges are.
    let _ = links.points();
    grow_entries(links, flags, dirty);
    'visits: while let Some(at) = dirty.take() {
        visit_point(links, flags, dirty, at as u32);
    }
}
