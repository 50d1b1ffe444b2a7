// The sides of a statement.

ghost use Rattle.std.specs.Prelude.{◌≡◌, ◌<◌};
ghost use Rattle.flow_graph.specs.Points.{point_count};
ghost use Rattle.point_sets.specs.Sets.{calls_at, has_behind, is_call, side_text};

use flow_graph::Graph;
use tac_program::StmtKind;

/// On which side of a statement a set stands.
#[derive(Debug, Clone, Copy, PartialEq, Eq)]
pub enum Side {
    /// Before it.
    Before,
    /// Behind it.
    Behind,
}

/// What stands between an analysis's name and its set.
pub fn side_text(side: Side) -> &'static [u8]
    ensures { result.now ≡ side_text side }
{
    match side {
        Side::Before => b": ",
        Side::Behind => b" behind: ",
    }
}

// Whether a statement is a call.
fn is_call(kind: &StmtKind) -> bool
    ensures { result ≡ is_call kind.now }
{
    match kind {
        StmtKind::Copy { .. } => false,
        StmtKind::Unary { .. } => false,
        StmtKind::Binary { .. } => false,
        StmtKind::Goto { .. } => false,
        StmtKind::If { .. } => false,
        StmtKind::IfFalse { .. } => false,
        StmtKind::IfCompare { .. } => false,
        StmtKind::Call { .. } => true,
        StmtKind::Return => false,
        StmtKind::Read { .. } => false,
        StmtKind::Print { .. } => false,
        StmtKind::Skip => false,
    }
}

/// Whether the statement at a point is a call.
pub fn calls_at(graph: &Graph<'_>, point: u32) -> bool
    requires { point < point_count graph.now }
    ensures { result ≡ calls_at graph.now point }
{
    match graph.stmt(point) {
        Some(stmt) => is_call(&stmt.kind),
        None => false,
    }
}

/// Whether a set of its own stands behind the statement at a point.
pub fn has_behind(graph: &Graph<'_>, point: u32) -> bool
    requires { point < point_count graph.now }
    ensures { result ≡ has_behind graph.now point }
{
    match graph.stmt(point) {
        Some(stmt) => !is_call(&stmt.kind),
        None => false,
    }
}
