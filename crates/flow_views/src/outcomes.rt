// How tests come out.

ghost use Rattle.std.specs.Prelude.{◌≡◌, ◌<◌};
ghost use Rattle.flow_graph.specs.Edges.{edges_from};
ghost use Rattle.flow_graph.specs.Points.{point_count};
ghost use Rattle.flow_views.specs.Views.{outcome, outcome_of};

use flow_graph::{Edge, Graph};
use tac_program::StmtKind;

// What a test says where its jump is taken, or where it is not.
fn outcome_of(kind: &StmtKind, jumps: bool) -> Option<bool>
    ensures { result ≡ outcome_of kind.now jumps }
{
    match kind {
        StmtKind::Copy { .. } => None,
        StmtKind::Unary { .. } => None,
        StmtKind::Binary { .. } => None,
        StmtKind::Goto { .. } => None,
        StmtKind::If { .. } => Some(jumps),
        StmtKind::IfFalse { .. } => Some(!jumps),
        StmtKind::IfCompare { .. } => Some(jumps),
        StmtKind::Call { .. } => None,
        StmtKind::Return => None,
        StmtKind::Read { .. } => None,
        StmtKind::Print { .. } => None,
        StmtKind::Skip => None,
    }
}

/// The outcome of a test by which control goes from a point with these edges to another.
pub fn outcome_by(graph: &Graph<'_>, edges: &[Edge], source: u32, target: u32) -> Option<bool>
    requires source { source < point_count graph.now }
    requires edges { edges.now ≡ edges_from graph.now source }
    ensures { result ≡ outcome graph.now source target }
{
    // Its contract tells that there are few points.
    let _ = graph.points();
    if edges.len() != 2 {
        return None;
    }
    match graph.stmt(source) {
        Some(stmt) => outcome_of(&stmt.kind, target != source + 1),
        None => None,
    }
}
