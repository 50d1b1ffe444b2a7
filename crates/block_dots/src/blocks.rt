// Basic blocks, as ranges of points.

ghost use Rattle.std.specs.Prelude.{◌≡◌, ◌<◌, ◌-◌, ◌&&◌, not};
ghost use Rattle.flow_graph.specs.Points.{point_count};
ghost use Rattle.flow_views.specs.Views.{labels_at};
ghost use Rattle.flow_views.specs.code.ViewProgram.{AreShown, IsShownPoint};
ghost use Rattle.point_sets.specs.Sets.{has_behind};
ghost use Rattle.text_pieces.specs.code.Lists.{some_stand};
ghost use Rattle.block_dots.specs.Blocks.{block_end, goes_on, goes_on_block, is_leader, is_plain};
ghost use Rattle.block_dots.specs.code.Blocks.{IsShownBlock};

use flow_graph::Graph;
use flow_views::{ViewProgram, labels_of};
use point_sets::has_behind;
use tac_program::StmtKind;

/// The points of a block: from its first one on, and before the end.
#[derive(Clone, Copy)]
pub struct Block {
    /// The first point.
    pub leader: u32,
    /// The point behind the last.
    pub end: u32,
}

// Whether control goes from a statement to the next one, whatever it does.
fn is_plain(kind: &StmtKind) -> bool
    ensures { result ≡ is_plain kind.now }
{
    match kind {
        StmtKind::Copy { .. } => true,
        StmtKind::Unary { .. } => true,
        StmtKind::Binary { .. } => true,
        StmtKind::Goto { .. } => false,
        StmtKind::If { .. } => false,
        StmtKind::IfFalse { .. } => false,
        StmtKind::IfCompare { .. } => false,
        StmtKind::Call { .. } => false,
        StmtKind::Return => false,
        StmtKind::Read { .. } => true,
        StmtKind::Print { .. } => true,
        StmtKind::Skip => true,
    }
}

// Whether it does from the statement at a point.
fn goes_on(graph: &Graph<'_>, point: u32) -> bool
    requires { point < point_count graph.now }
    ensures { result ≡ goes_on graph.now point }
{
    match graph.stmt(point) {
        Some(stmt) => is_plain(&stmt.kind),
        None => false,
    }
}

// Whether a point that is not the first of its procedure goes on the block of the point before it.
fn goes_on_behind(graph: &Graph<'_>, point: u32) -> bool
    requires { point < point_count graph.now }
    ensures { result ≡ (goes_on graph.now (point - 1) && (not (some_stand (labels_at graph.now point)) && has_behind graph.now point)) }
{
    goes_on(graph, point.saturating_sub(1))
        && labels_of(&*graph, point).is_empty()
        && has_behind(graph, point)
}

// Whether a point goes on the block of the point before it in its procedure.
fn goes_on_block(graph: &Graph<'_>, point: u32) -> bool
    requires { point < point_count graph.now }
    ensures { result ≡ goes_on_block graph.now point }
{
    graph.place(point).place != 0 && goes_on_behind(graph, point)
}

/// Whether a block begins at a point.
///
/// The condition: the point is one of the program's.
pub(crate) fn is_leader(graph: &Graph<'_>, point: u32) -> bool
    requires { point < point_count graph.now }
    ensures { result ≡ is_leader graph.now point }
{
    !goes_on_block(graph, point)
}

// The point behind the block that begins at a leader.
fn block_end(shown: &ViewProgram<'_>, leader: u32) -> u32
    requires shown { AreShown shown.now }
    requires leader { leader < point_count shown.now.found.graph.now }
    ensures { result ≡ block_end shown.now.found.graph.now leader }
{
    let points = shown.points_of(shown.scope(leader).procedure);
    for point in leader + 1..points.end {
        if is_leader(shown.found.graph, point) {
            return point;
        }
    }
    points.end
}

/// The block that begins at a leader that is shown.
pub(crate) fn block_of(shown: &ViewProgram<'_>, leader: u32) -> Block
    requires shown { AreShown shown.now }
    requires leader { leader < point_count shown.now.found.graph.now }
    requires shows { IsShownPoint shown.now leader }
    ensures leader { result.leader ≡ leader }
    ensures block { IsShownBlock shown.now result }
{
    let end = block_end(shown, leader);
    Block { leader, end }
}
