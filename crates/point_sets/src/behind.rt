// What holds behind a statement, bit by bit.

ghost use Rattle.std.specs.Prelude.{◌≡◌, ◌<◌, ◌&&◌, ◌||◌, not, All, length};
ghost use Rattle.std.specs.List.{list_all, list_any};
ghost use Rattle.flow_graph.specs.Paths.{target_of};
ghost use Rattle.flow_graph.specs.Points.{point_count};
ghost use Rattle.flow_graph.specs.Transfers.{changes, has_operand, is_made_at, names_variable, writes};
ghost use Rattle.flow_graph.specs.Universes.{bits, target_at};
ghost use Rattle.flow_team.specs.Tables.{facts_of};
ghost use Rattle.gen_kill.specs.code.Effects.{marks};
ghost use Rattle.point_sets.specs.Sets.{passed, passes};

use flow_graph::{Analysis, Edge, Expr, Graph, target};
use flow_team::Table;
use tac_program::Operand;

/// Whether a number is the one that is told, if any is.
pub fn is_number(told: Option<u32>, number: u32) -> bool
    ensures { result ≡ marks told number }
{
    match told {
        Some(one) => number == one,
        None => false,
    }
}

// The variable that the statement at a point writes.
fn written(graph: &Graph<'_>, point: u32) -> Option<u32>
    requires { point < point_count graph.now }
    ensures { result ≡ target_at graph.now point }
{
    match graph.stmt(point) {
        Some(stmt) => target(&stmt.kind),
        None => None,
    }
}

/// Whether the statement at a point writes a variable.
pub fn writes(graph: &Graph<'_>, point: u32, variable: u32) -> bool
    requires { point < point_count graph.now }
    ensures { result ≡ writes graph.now point variable }
{
    is_number(written(graph, point), variable)
}

/// Whether a definition is the one of the statement at a point.
pub fn is_made_at(point: u32, definition: (u32, Option<u32>)) -> bool
    ensures { result ≡ is_made_at point definition }
{
    is_number(definition.1, point)
}

// Whether a definition reaches behind a statement that is reached, before which it does or does not.
fn passes_reach(graph: &Graph<'_>, point: u32, bit: u32, before: bool) -> bool
    requires point { point < point_count graph.now }
    requires bit { bit < bits graph.now Analysis.Reach }
    ensures { result ≡ passes graph.now Analysis.Reach point bit before }
{
    let definition = graph.definition(bit);
    is_made_at(point, definition) || (before && !writes(graph, point, definition.0))
}

/// Whether an operand is a variable.
pub fn names_variable(variable: u32, operand: Operand) -> bool
    ensures { result ≡ names_variable variable operand }
{
    match operand {
        Operand::Variable(one) => variable == one,
        Operand::Number(_) => false,
    }
}

// Whether a variable is an operand of an expression.
fn has_operand(expression: Expr, variable: u32) -> bool
    ensures { result ≡ has_operand expression variable }
{
    match expression {
        Expr::Unary(_, operand) => names_variable(variable, operand),
        Expr::Binary(left, _, right) => {
            names_variable(variable, left) || names_variable(variable, right)
        },
    }
}

/// Whether the statement at a point writes an operand of an expression.
pub fn changes(graph: &Graph<'_>, point: u32, expression: Expr) -> bool
    requires { point < point_count graph.now }
    ensures { result ≡ changes graph.now point expression }
{
    match written(graph, point) {
        Some(variable) => has_operand(expression, variable),
        None => false,
    }
}

// Whether an expression is available behind a statement that changes it or not, and evaluates it or not.
fn stays(changes: bool, evaluates: bool, before: bool) -> bool
    ensures { result ≡ (not changes && (evaluates || before)) }
{
    !changes && (evaluates || before)
}

// Whether an expression is available behind a statement that is reached, before which it is or is not.
fn passes_avail(graph: &Graph<'_>, point: u32, bit: u32, before: bool) -> bool
    requires point { point < point_count graph.now }
    requires bit { bit < bits graph.now Analysis.Avail }
    ensures { result ≡ passes graph.now Analysis.Avail point bit before }
{
    let evaluates = is_number(graph.evaluated(point), bit);
    let changes = changes(graph, point, graph.expression(bit));
    stays(changes, evaluates, before)
}

/// Whether a definition reaches behind a statement.
pub(crate) fn reaches_behind(graph: &Graph<'_>, table: &Table, point: u32, bit: u32) -> bool
    requires point { point < point_count graph.now }
    requires there { point < length table.now.paths }
    requires bits { table.now.bits ≡ bits graph.now Analysis.Reach }
    requires bit { bit < table.now.bits }
    ensures { result ≡ passed graph.now Analysis.Reach (facts_of table.now) point bit }
{
    let before = table.contains(point, bit);
    if !table.has_path(point) {
        return before;
    }
    passes_reach(graph, point, bit, before)
}

/// Whether an expression is available behind a statement.
pub(crate) fn is_available_behind(graph: &Graph<'_>, table: &Table, point: u32, bit: u32) -> bool
    requires point { point < point_count graph.now }
    requires there { point < length table.now.paths }
    requires bits { table.now.bits ≡ bits graph.now Analysis.Avail }
    requires bit { bit < table.now.bits }
    ensures { result ≡ passed graph.now Analysis.Avail (facts_of table.now) point bit }
{
    let before = table.contains(point, bit);
    if !table.has_path(point) {
        return before;
    }
    passes_avail(graph, point, bit, before)
}

/// The point to which an edge leads.
pub fn target_of(edge: Edge) -> u32
    ensures { result ≡ target_of edge }
{
    match edge {
        Edge::Step { to, .. } => to,
        Edge::Call { to, .. } => to,
        Edge::Ret { to, .. } => to,
    }
}

/// Whether a bit is in the set of some point to which edges lead.
pub(crate) fn is_in_some(table: &Table, edges: &[Edge], bit: u32) -> bool
    requires there { All (λ edge. target_of edge < length table.now.paths) edges.now }
    requires bit { bit < table.now.bits }
    ensures { result ≡ list_any (λ edge. (facts_of table.now).contains (target_of edge) bit) edges.now }
{
    for edge in edges {
        if table.contains(target_of(*edge), bit) {
            return true;
        }
    }
    false
}

/// Whether a bit is in the set of each point to which edges lead.
pub(crate) fn is_in_each(table: &Table, edges: &[Edge], bit: u32) -> bool
    requires there { All (λ edge. target_of edge < length table.now.paths) edges.now }
    requires bit { bit < table.now.bits }
    ensures { result ≡ list_all (λ edge. (facts_of table.now).contains (target_of edge) bit) edges.now }
{
    for edge in edges {
        if !table.contains(target_of(*edge), bit) {
            return false;
        }
    }
    true
}
