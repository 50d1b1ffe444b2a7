// What is preserved and generated, for a group of words, by visits of the points that are changed.
ghost use Rattle.std.specs.Prelude.{◌≡◌, ◌<◌, ◌||◌, ℕ, false, true, length, slice_index};
ghost use Rattle.bit_rows.specs.Words.{has_bit};
ghost use Rattle.flow_graph.specs.declared.edge.Edge.{Edge};
ghost use Rattle.flow_graph.specs.declared.edge.Edge.TheVariants.{Step, Call};
ghost use Rattle.flow_graph.specs.Directions.{goes_backward};
ghost use Rattle.flow_graph.specs.Paths.{IsEdge, source_of};
ghost use Rattle.flow_graph.specs.Points.{point_count};
ghost use Rattle.flow_links.specs.Shapes.{directed_shape};
ghost use Rattle.worklist.specs.Worklist.{IsMarked};
ghost use Rattle.gk_solve.specs.Tables.Flags.{IsFlagged};
ghost use Rattle.gk_solve.specs.Tables.Groups.{AreCompleteSummaries, AreJoined, AreOf, AreOfSomeCallee, AreSameBut, AreSoundSummaries, IsGroupFrame};
ghost use Rattle.gk_solve.specs.Tables.Groups.{IsSummarySettled, IsWoken, SummarySpreads};
ghost use Rattle.gk_solve.specs.Tables.Groups.{group_of, preserved_word, generated_word};
ghost use Rattle.gk_solve.specs.Tables.Groups.{room_of_summary};
ghost use Rattle.gk_solve.specs.Tables.Words.{HasBit, IsPreserved, IsGenerated, step_statement};

use crate::effects::across_step;
use crate::group_frame::GroupFrame;
use crate::lanes::{added_words, common_words, new_or_preserved};
use crate::summary::Summary;
use flow_graph::Direction;
use flow_links::Links;
use worklist::Worklist;

// A summary with bits added, and whether some of those were missing.
#[inline(always)]
fn joined_summary<const W: usize>(before: Summary<W>, more: Summary<W>) -> (Summary<W>, bool)
    ensures preserved { AreJoined W before.entry.preserved more.entry.preserved result.0.preserved }
    ensures generated { AreJoined W before.entry.generated more.entry.generated result.0.generated }
    ensures same { result.1 ≡ false → (result.0.preserved ≡ before.entry.preserved) × (result.0.generated ≡ before.entry.generated) }
    ensures less { result.1 ≡ true → room_of_summary result.0 < room_of_summary before.entry }
{
    let (preserved, more_preserved) = added_words(before.preserved, more.preserved);
    let (generated, more_generated) = added_words(before.generated, more.generated);
    (
        Summary {
            preserved,
            generated,
        },
        more_preserved || more_generated,
    )
}

// Marks a point whose summary changed, and where it is an exit, the points of the calls that are left there.
#[inline(always)]
fn wake(links: &Links, dirty: &mut Worklist, at: u32)
    requires count { length dirty.now ≡ point_count links.now.program }
    requires within { at < point_count links.now.program }
    ensures count { length dirty.new ≡ length dirty.old }
    ensures keeps { (x : ℕ) → IsMarked dirty.old x → IsMarked dirty.new x }
    ensures woken { IsWoken (directed_shape links.now) dirty.new at }
{
    dirty.mark(at as usize);
    let callers = links.callers_of(at);
    for caller in callers {
        dirty.mark(*caller as usize);
    }
}

// Adds to the summary of a point, and where that is anything, has what rests on it visited.
#[inline(always)]
fn put_summary<const W: usize>(
    frame: &GroupFrame,
    table: &mut [Summary<W>],
    dirty: &mut Worklist,
    at: u32,
    more: Summary<W>,
)
    requires count { length table.now ≡ point_count frame.now.links.now.program }
    requires dirty_count { length dirty.now ≡ point_count frame.now.links.now.program }
    requires within { at < point_count frame.now.links.now.program }
    requires keeps { AreOf (group_of frame.now W) (IsPreserved (directed_shape frame.now.links.now)) more.preserved at }
    requires makes { AreOf (group_of frame.now W) (IsGenerated (directed_shape frame.now.links.now)) more.generated at }
    ensures spreads { SummarySpreads (group_of frame.now W) frame.now.paths.now table.old dirty.old table.new dirty.new }
    ensures same { AreSameBut (directed_shape frame.now.links.now) at table.old table.new dirty.new }
    ensures preserved_added { (w k : ℕ) → w < W → has_bit (slice_index more.entry.preserved w) k ≡ true → HasBit (preserved_word table.new w) at k }
    ensures generated_added { (w k : ℕ) → w < W → has_bit (slice_index more.entry.generated w) k ≡ true → HasBit (generated_word table.new w) at k }
{
    let before = table[at as usize];
    let (after, changed) = joined_summary(before, more);
    if !changed {
        return;
    }
    table[at as usize] = after;
    let links = frame.links;
    wake(links, dirty, at);
}

// The point of a step's statement.
fn statement_point(direction: Direction, from: u32, to: u32) -> u32
    ensures { result ≡ step_statement (goes_backward direction) from to }
{
    match direction {
        Direction::Forward => from,
        Direction::Backward => to,
    }
}

// Goes over one step from a point with a path.
#[inline(always)]
fn visit_step<const W: usize>(
    frame: &GroupFrame,
    table: &mut [Summary<W>],
    dirty: &mut Worklist,
    at: u32,
    to: u32,
)
    requires frame { IsGroupFrame W frame.now }
    requires count { length table.now ≡ point_count frame.now.links.now.program }
    requires dirty_count { length dirty.now ≡ point_count frame.now.links.now.program }
    requires path { IsFlagged frame.now.paths.now at }
    requires there { IsEdge (directed_shape frame.now.links.now) (Step at to) }
    requires sound { AreSoundSummaries (group_of frame.now W) table.now }
    ensures spreads { SummarySpreads (group_of frame.now W) frame.now.paths.now table.old dirty.old table.new dirty.new }
    ensures settled { IsSummarySettled (group_of frame.now W) frame.now.paths.now table.new dirty.new (Step at to) }
{
    let links = frame.links;
    let point = statement_point(links.direction(), at, to);
    let more = across_step(frame, point, table[at as usize]);
    put_summary(frame, table, dirty, to, more);
}

// Goes over the steps from a point with a path.
#[inline(always)]
fn visit_steps<const W: usize>(
    frame: &GroupFrame,
    table: &mut [Summary<W>],
    dirty: &mut Worklist,
    at: u32,
)
    requires frame { IsGroupFrame W frame.now }
    requires count { length table.now ≡ point_count frame.now.links.now.program }
    requires dirty_count { length dirty.now ≡ point_count frame.now.links.now.program }
    requires within { at < point_count frame.now.links.now.program }
    requires path { IsFlagged frame.now.paths.now at }
    requires sound { AreSoundSummaries (group_of frame.now W) table.now }
    ensures spreads { SummarySpreads (group_of frame.now W) frame.now.paths.now table.old dirty.old table.new dirty.new }
    ensures settled { (y : ℕ) → IsEdge (directed_shape frame.now.links.now) (Step at y)
        → IsSummarySettled (group_of frame.now W) frame.now.paths.now table.new dirty.new (Step at y) }
{
    let links = frame.links;
    let steps = links.steps_from(at);
    for to in steps {
        visit_step(frame, table, dirty, at, *to);
    }
}

// What is preserved and generated by some callee of a point's calls whose exit has a path.
#[inline(always)]
fn called<const W: usize>(frame: &GroupFrame, table: &[Summary<W>], at: u32) -> Summary<W>
    requires frame { IsGroupFrame W frame.now }
    requires count { length table.now ≡ point_count frame.now.links.now.program }
    requires within { at < point_count frame.now.links.now.program }
    ensures preserved { AreOfSomeCallee (group_of frame.now W) frame.now.paths.now (preserved_word table.now) at result.preserved }
    ensures generated { AreOfSomeCallee (group_of frame.now W) frame.now.paths.now (generated_word table.now) at result.generated }
{
    let mut all = Summary {
        preserved: [0; W],
        generated: [0; W],
    };
    let links = frame.links;
    let calls = links.calls_from(at);
    for call in calls {
        if frame.paths[call.exit as usize] {
            let (more, _) = joined_summary(all, table[call.exit as usize]);
            all = more;
        }
    }
    all
}

// Goes over the calls from a point with a path: of one point all return to one.
fn visit_calls<const W: usize>(
    frame: &GroupFrame,
    table: &mut [Summary<W>],
    dirty: &mut Worklist,
    at: u32,
)
    requires frame { IsGroupFrame W frame.now }
    requires count { length table.now ≡ point_count frame.now.links.now.program }
    requires dirty_count { length dirty.now ≡ point_count frame.now.links.now.program }
    requires within { at < point_count frame.now.links.now.program }
    requires path { IsFlagged frame.now.paths.now at }
    requires sound { AreSoundSummaries (group_of frame.now W) table.now }
    ensures spreads { SummarySpreads (group_of frame.now W) frame.now.paths.now table.old dirty.old table.new dirty.new }
    ensures settled { (site y : ℕ) → IsEdge (directed_shape frame.now.links.now) (Call site at y)
        → IsSummarySettled (group_of frame.now W) frame.now.paths.now table.new dirty.new (Call site at y) }
{
    let links = frame.links;
    let calls = links.calls_from(at);
    let Some(call) = calls.first() else {
        return;
    };
    let before = table[at as usize];
    let through = called(frame, table, at);
    let more = Summary {
        preserved: common_words(before.preserved, through.preserved),
        generated: new_or_preserved(through.generated, before.generated, through.preserved),
    };
    put_summary(frame, table, dirty, call.after, more);
}

// Goes over the edges from a point.
#[inline(always)]
fn visit_point<const W: usize>(
    frame: &GroupFrame,
    table: &mut [Summary<W>],
    dirty: &mut Worklist,
    at: u32,
)
    requires frame { IsGroupFrame W frame.now }
    requires count { length table.now ≡ point_count frame.now.links.now.program }
    requires dirty_count { length dirty.now ≡ point_count frame.now.links.now.program }
    requires within { at < point_count frame.now.links.now.program }
    requires sound { AreSoundSummaries (group_of frame.now W) table.now }
    ensures spreads { SummarySpreads (group_of frame.now W) frame.now.paths.now table.old dirty.old table.new dirty.new }
    ensures settled { (edge : Edge) → IsEdge (directed_shape frame.now.links.now) edge → source_of edge ≡ at
        → IsSummarySettled (group_of frame.now W) frame.now.paths.now table.new dirty.new edge }
{
    if frame.paths[at as usize] {
        visit_steps(frame, table, dirty, at);
        visit_calls(frame, table, dirty, at);
    }
}

// Begins a table: nothing is generated, and an entry preserves everything.
fn begin_summaries<const W: usize>(frame: &GroupFrame, table: &mut [Summary<W>])
    requires frame { IsGroupFrame W frame.now }
    requires count { length table.now ≡ point_count frame.now.links.now.program }
    ensures entries { (p w k : ℕ) → p < (directed_shape frame.now.links.now).procedures → w < W → k < 64
        → HasBit (preserved_word table.new w) ((directed_shape frame.now.links.now).entry p) k }
    ensures sound { AreSoundSummaries (group_of frame.now W) table.new }
{
    for point in 0..table.len() {
        table[point] = Summary {
            preserved: [0; W],
            generated: [0; W],
        };
    }
    let links = frame.links;
    for procedure in 0..links.procedures() {
        table[links.entry(procedure) as usize] = Summary {
            preserved: [u64::MAX; W],
            generated: [0; W],
        };
    }
}

/// Finds what is preserved up to each point and generated before it, at the points with a path.
pub(crate) fn preserved_and_generated<const W: usize>(
    frame: &GroupFrame,
    table: &mut [Summary<W>],
    dirty: &mut Worklist,
)
    requires frame { IsGroupFrame W frame.now }
    requires count { length table.now ≡ point_count frame.now.links.now.program }
    requires dirty_count { length dirty.now ≡ point_count frame.now.links.now.program }
    ensures sound { AreSoundSummaries (group_of frame.now W) table.new }
    ensures complete { AreCompleteSummaries (group_of frame.now W) table.new }
    ensures dirty_count { length dirty.new ≡ length dirty.old }
{
    // Its contract tells that there are few points.
    let _ = frame.links.points();
    begin_summaries(frame, table);
    dirty.mark_all();
    'visits: while let Some(at) = dirty.take() {
        visit_point(frame, table, dirty, at as u32);
    }
}
