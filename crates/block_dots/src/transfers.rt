// What a statement generates and kills, bit by bit.

ghost use Rattle.std.specs.Prelude.{◌≡◌, ◌<◌, ◌&&◌, ◌||◌, length, not};
ghost use Rattle.std.specs.List.{list_any};
ghost use Rattle.flow_graph.specs.Points.{point_count};
ghost use Rattle.flow_graph.specs.Transfers.{gens, kills, names_variable, operands_of, reads};
ghost use Rattle.flow_graph.specs.Universes.{bits, evaluated_at, expressions};
ghost use Rattle.gen_kill.specs.code.Effects.{marks};

use flow_graph::{Analysis, Graph};
use point_sets::{changes, is_made_at, is_number, names_variable, writes};
use tac_program::{Operand, StmtKind};

// Whether one of two operands is a variable.
fn names_either(variable: u32, left: Operand, right: Operand) -> bool
    ensures { result ≡ (names_variable variable left || names_variable variable right) }
{
    names_variable(variable, left) || names_variable(variable, right)
}

// Whether a statement reads a variable.
fn is_read(kind: &StmtKind, variable: u32) -> bool
    ensures { result ≡ list_any (names_variable variable) (operands_of kind.now) }
{
    match kind {
        StmtKind::Copy { value, .. } => names_variable(variable, *value),
        StmtKind::Unary { operand, .. } => names_variable(variable, *operand),
        StmtKind::Binary { left, right, .. } => names_either(variable, *left, *right),
        StmtKind::Goto { .. } => false,
        StmtKind::If { condition, .. } => names_variable(variable, *condition),
        StmtKind::IfFalse { condition, .. } => names_variable(variable, *condition),
        StmtKind::IfCompare { left, right, .. } => names_either(variable, *left, *right),
        StmtKind::Call { .. } => false,
        StmtKind::Return => false,
        StmtKind::Read { .. } => false,
        StmtKind::Print { value } => names_variable(variable, *value),
        StmtKind::Skip => false,
    }
}

// Whether the statement at a point reads a variable.
fn reads(graph: &Graph<'_>, point: u32, variable: u32) -> bool
    requires { point < point_count graph.now }
    ensures { result ≡ reads graph.now point variable }
{
    match graph.stmt(point) {
        Some(stmt) => is_read(&stmt.kind, variable),
        None => false,
    }
}

// Whether the statement at a point evaluates the expression of a number, and whether it writes an operand of it.
fn evaluates(graph: &Graph<'_>, point: u32, bit: u32) -> bool
    requires { point < point_count graph.now }
    ensures { result ≡ marks (evaluated_at graph.now point) bit }
{
    is_number(graph.evaluated(point), bit)
}

fn changes_bit(graph: &Graph<'_>, point: u32, bit: u32) -> bool
    requires point { point < point_count graph.now }
    requires bit { bit < length (expressions graph.now) }
    ensures { result ≡ kills graph.now Analysis.Avail point bit }
{
    changes(graph, point, graph.expression(bit))
}

// Whether the statement at a point makes the definition of a number, and whether it makes another one of the same variable.
fn makes(graph: &Graph<'_>, point: u32, bit: u32) -> bool
    requires point { point < point_count graph.now }
    requires bit { bit < bits graph.now Analysis.Reach }
    ensures { result ≡ gens graph.now Analysis.Reach point bit }
{
    is_made_at(point, graph.definition(bit))
}

fn makes_other(graph: &Graph<'_>, point: u32, bit: u32) -> bool
    requires point { point < point_count graph.now }
    requires bit { bit < bits graph.now Analysis.Reach }
    ensures { result ≡ kills graph.now Analysis.Reach point bit }
{
    let definition = graph.definition(bit);
    writes(graph, point, definition.0) && !is_made_at(point, definition)
}

// Whether one holds, and another does not.
fn without(one: bool, other: bool) -> bool
    ensures { result ≡ (one && not other) }
{
    one && !other
}

// Whether an expression is evaluated and no operand of it is written, or the other way round.
fn computes(graph: &Graph<'_>, point: u32, bit: u32) -> bool
    requires point { point < point_count graph.now }
    requires bit { bit < bits graph.now Analysis.Avail }
    ensures { result ≡ gens graph.now Analysis.Avail point bit }
{
    without(evaluates(graph, point, bit), changes_bit(graph, point, bit))
}

fn spoils(graph: &Graph<'_>, point: u32, bit: u32) -> bool
    requires point { point < point_count graph.now }
    requires bit { bit < bits graph.now Analysis.Busy }
    ensures { result ≡ kills graph.now Analysis.Busy point bit }
{
    without(changes_bit(graph, point, bit), evaluates(graph, point, bit))
}

/// Whether the statement at a point generates a bit.
pub(crate) fn gens(graph: &Graph<'_>, analysis: Analysis, point: u32, bit: u32) -> bool
    requires point { point < point_count graph.now }
    requires bit { bit < bits graph.now analysis }
    ensures { result ≡ gens graph.now analysis point bit }
{
    match analysis {
        Analysis::Reach => makes(graph, point, bit),
        Analysis::Live => reads(graph, point, bit),
        Analysis::Avail => computes(graph, point, bit),
        Analysis::Busy => evaluates(graph, point, bit),
    }
}

/// Whether it kills the bit.
pub(crate) fn kills(graph: &Graph<'_>, analysis: Analysis, point: u32, bit: u32) -> bool
    requires point { point < point_count graph.now }
    requires bit { bit < bits graph.now analysis }
    ensures { result ≡ kills graph.now analysis point bit }
{
    match analysis {
        Analysis::Reach => makes_other(graph, point, bit),
        Analysis::Live => writes(graph, point, bit),
        Analysis::Avail => changes_bit(graph, point, bit),
        Analysis::Busy => spoils(graph, point, bit),
    }
}
