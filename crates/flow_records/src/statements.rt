// What the statements of a program are, as numbers.

ghost use Rattle.std.specs.Prelude.{◌≡◌, ◌<◌, Some, length, unwrap_or, IfErr, OnErr, OnOk};
ghost use Rattle.flow_graph.specs.Edges.{label_point};
ghost use Rattle.flow_graph.specs.Points.{kind_at, point_count, procedure_at};
ghost use Rattle.flow_graph.specs.Universes.{evaluated_at};
ghost use Rattle.flow_graph.specs.code.Labels.{labels_at};
ghost use Rattle.flow_records.specs.Parts.{AreParts, operator_number as number_of_operator};
ghost use Rattle.flow_records.specs.Statements.{goes_to as goes_to_in, label_named, no_number, statement_alone, statement_part, statement_with};
ghost use Rattle.flow_records.specs.Faults.{IsBadRoom};

use crate::fault::Fault;
use crate::parts::{Part, operator_number, part_of};
use flow_graph::Graph;
use tac_program::{Op, StmtKind};

/// What stands at a point. Its kind is 0 where there is no statement, at a procedure's end, and else counts the forms of the language from 1:
/// copy, unary and binary assignment, goto, if, ifFalse, comparison, call, return, read, print, skip. 4294967295 stands for none: no variable
/// that is set, no operator, no label, no point to which it may jump, no expression that it evaluates. One operand stands on the right.
#[repr(C)]
#[derive(Clone, Copy)]
pub struct NumberedStatement {
    pub kind: u32,
    pub target: u32,
    pub operator: u32,
    pub label: u32,
    pub goes_to: u32,
    pub expression: u32,
    pub left: Part,
    pub right: Part,
}

const NONE: u32 = u32::MAX;

const NO_PART: Part = Part {
    kind: 0,
    variable: 0,
    number: 0,
};

// A statement of this kind with its target, operator, label and operands.
fn statement(
    kind: u32,
    target: u32,
    operator: u32,
    label: u32,
    left: Part,
    right: Part,
) -> NumberedStatement
    ensures { result ≡ statement_with kind target operator label left right }
{
    NumberedStatement {
        kind,
        target,
        operator,
        label,
        goes_to: NONE,
        expression: NONE,
        left,
        right,
    }
}

// The same of a form with an operator.
fn operated(
    kind: u32,
    target: u32,
    op: Op,
    label: u32,
    left: Part,
    right: Part,
) -> NumberedStatement
    ensures { result ≡ statement_with kind target (number_of_operator op) label left right }
{
    statement(kind, target, operator_number(op), label, left, right)
}

// A statement by itself, without the point to which it may jump and the expression that it evaluates.
fn statement_alone_of(kind: &StmtKind) -> NumberedStatement
    ensures { result ≡ statement_alone kind.now }
{
    match kind {
        StmtKind::Copy { target, value } => {
            statement(1, *target, NONE, NONE, NO_PART, part_of(*value))
        }
        StmtKind::Unary {
            target,
            op,
            operand,
        } => operated(2, *target, *op, NONE, NO_PART, part_of(*operand)),
        StmtKind::Binary {
            op,
            target,
            left,
            right,
        } => operated(3, *target, *op, NONE, part_of(*left), part_of(*right)),
        StmtKind::Goto { label } => statement(4, NONE, NONE, *label, NO_PART, NO_PART),
        StmtKind::If { condition, label } => {
            statement(5, NONE, NONE, *label, NO_PART, part_of(*condition))
        }
        StmtKind::IfFalse { condition, label } => {
            statement(6, NONE, NONE, *label, NO_PART, part_of(*condition))
        }
        StmtKind::IfCompare {
            op,
            label,
            left,
            right,
        } => operated(7, NONE, *op, *label, part_of(*left), part_of(*right)),
        StmtKind::Call { .. } => statement(8, NONE, NONE, NONE, NO_PART, NO_PART),
        StmtKind::Return => statement(9, NONE, NONE, NONE, NO_PART, NO_PART),
        StmtKind::Read { target } => statement(10, *target, NONE, NONE, NO_PART, NO_PART),
        StmtKind::Print { value } => statement(11, NONE, NONE, NONE, NO_PART, part_of(*value)),
        StmtKind::Skip => statement(12, NONE, NONE, NONE, NO_PART, NO_PART),
    }
}

// The label that a statement names.
fn label_of(kind: &StmtKind) -> Option<u32>
    ensures { result ≡ label_named kind.now }
{
    match kind {
        StmtKind::Goto { label } => Some(*label),
        StmtKind::If { label, .. } => Some(*label),
        StmtKind::IfFalse { label, .. } => Some(*label),
        StmtKind::IfCompare { label, .. } => Some(*label),
        StmtKind::Copy { .. } => None,
        StmtKind::Unary { .. } => None,
        StmtKind::Binary { .. } => None,
        StmtKind::Call { .. } => None,
        StmtKind::Return => None,
        StmtKind::Read { .. } => None,
        StmtKind::Print { .. } => None,
        StmtKind::Skip => None,
    }
}

// The point that a label of a point's procedure stands for.
fn label_target(graph: &Graph<'_>, point: u32, label: u32) -> u32
    requires point { point < point_count graph.now }
    requires label { label < length (labels_at graph.now point) }
    ensures { result ≡ label_point graph.now (procedure_at graph.now point) label }
{
    let procedure = graph.place(point).procedure;
    let procedures = graph.program().procs();
    let labels = procedures[procedure as usize].labels();
    graph.point(procedure, labels[label as usize].place)
}

// The point to which the statement at a point may jump.
fn goes_to(graph: &Graph<'_>, point: u32, kind: &StmtKind) -> u32
    requires point { point < point_count graph.now }
    requires kind { kind_at graph.now point ≡ Some kind.now }
    ensures { result ≡ goes_to_in graph.now point kind.now }
{
    // Its contract tells that the program is sound.
    let _ = graph.program().procs();
    match label_of(kind) {
        None => NONE,
        Some(label) => label_target(graph, point, label),
    }
}

// The number of the expression that the statement at a point evaluates.
fn expression_at(graph: &Graph<'_>, point: u32) -> u32
    requires { point < point_count graph.now }
    ensures { result ≡ unwrap_or (evaluated_at graph.now point) no_number }
{
    match graph.evaluated(point) {
        Some(bit) => bit,
        None => NONE,
    }
}

// What stands at a point.
fn statement_at(graph: &Graph<'_>, point: u32) -> NumberedStatement
    requires { point < point_count graph.now }
    ensures { result ≡ statement_part graph.now point }
{
    match graph.stmt(point) {
        None => statement(0, NONE, NONE, NONE, NO_PART, NO_PART),
        Some(stmt) => NumberedStatement {
            goes_to: goes_to(graph, point, &stmt.kind),
            expression: expression_at(graph, point),
            ..statement_alone_of(&stmt.kind)
        },
    }
}

// Puts what stands at the points of a graph.
fn put_statements(graph: &Graph<'_>, statements: &mut [NumberedStatement])
    requires { length statements.old ≡ point_count graph.now }
    ensures { AreParts (statement_part graph.now) (point_count graph.now) statements.new }
{
    for point in 0..graph.points() {
        statements[point as usize] = statement_at(graph, point);
    }
}

/// Puts what stands at the points of a graph into room for as many as it has.
pub(crate) fn fill_statements(
    graph: &Graph<'_>,
    statements: &mut [NumberedStatement],
) -> Result<(), Fault>
    ensures statements { OnOk result (AreParts (statement_part graph.now) (point_count graph.now) statements.new) }
    ensures kept { OnErr result (statements.new ≡ statements.old) }
    ensures fault { IfErr result (IsBadRoom (length statements.old) (point_count graph.now)) }
{
    if statements.len() != graph.points() as usize {
        return Err(Fault::BadRoom);
    }
    put_statements(graph, statements);
    Ok(())
}
