// What a program's points and bits are, as numbers.

ghost use Rattle.std.specs.Prelude.{◌≡◌, ◌<◌, Some, length, IfErr, OnErr, OnOk};
ghost use Rattle.flow_graph.specs.Points.{point_count};
ghost use Rattle.flow_graph.specs.Universes.{definitions as definitions_in, expressions as expressions_in};
ghost use Rattle.flow_records.specs.Parts.{AreParts, ArePartsOf, definition_part, expression_part, operand_part, operator_number};
ghost use Rattle.flow_records.specs.Parts.{point_part, sizes_of};
ghost use Rattle.flow_records.specs.Faults.{IsBadRoom};

use crate::fault::Fault;
use flow_graph::{Analysis, Expr, Graph};
use tac_program::{Op, Operand};

/// How large a program is: its procedures, points, variables, definitions (one for each variable's value at the beginning, and one for
/// each statement that sets a variable) and expressions.
#[repr(C)]
#[derive(Clone, Copy)]
pub struct Sizes {
    pub procedures: u32,
    pub points: u32,
    pub variables: u32,
    pub definitions: u32,
    pub expressions: u32,
}

/// A point: its procedure and its place there, and the line, from 1, and the bytes `start..end` of the text that its statement has.
/// At a procedure's end, where no statement is, these three are 0.
#[repr(C)]
#[derive(Clone, Copy)]
pub struct Point {
    pub procedure: u32,
    pub place: u32,
    pub line: u32,
    pub start: u32,
    pub end: u32,
}

/// A definition: its variable and the point of its statement, or 4294967295 for the value at the beginning.
#[repr(C)]
#[derive(Clone, Copy)]
pub struct Definition {
    pub variable: u32,
    pub point: u32,
}

/// An operand. Its kind is 0 where there is none, 1 for a variable and 2 for a number.
#[repr(C)]
#[derive(Clone, Copy)]
pub struct Part {
    pub kind: u32,
    pub variable: u32,
    pub number: u64,
}

/// An expression: the number of its operator, and what stands left and right of it. A unary one has nothing on its left.
#[repr(C)]
#[derive(Clone, Copy)]
pub struct Expression {
    pub operator: u32,
    pub left: Part,
    pub right: Part,
}

/// How large the program of a graph is.
pub(crate) fn find_sizes(graph: &Graph<'_>) -> Sizes
    ensures { result ≡ sizes_of graph.now }
{
    Sizes {
        procedures: graph.program().procs().len() as u32,
        points: graph.points(),
        variables: graph.bits(Analysis::Live),
        definitions: graph.bits(Analysis::Reach),
        expressions: graph.bits(Analysis::Avail),
    }
}

fn point_of(graph: &Graph<'_>, point: u32) -> Point
    requires { point < point_count graph.now }
    ensures { result ≡ point_part graph.now point }
{
    let place = graph.place(point);
    let (line, start, end) = match graph.stmt(point) {
        Some(stmt) => (stmt.span.line, stmt.span.start, stmt.span.end),
        None => (0, 0, 0),
    };
    Point {
        procedure: place.procedure,
        place: place.place,
        line,
        start,
        end,
    }
}

// Puts the points of a graph.
fn put_points(graph: &Graph<'_>, points: &mut [Point])
    requires { length points.old ≡ point_count graph.now }
    ensures { AreParts (point_part graph.now) (point_count graph.now) points.new }
{
    for point in 0..graph.points() {
        points[point as usize] = point_of(graph, point);
    }
}

fn definition_of(made: (u32, Option<u32>)) -> Definition
    ensures { result ≡ definition_part made }
{
    Definition {
        variable: made.0,
        point: match made.1 {
            Some(point) => point,
            None => u32::MAX,
        },
    }
}

// Puts the definitions of a graph's program.
fn put_definitions(graph: &Graph<'_>, definitions: &mut [Definition])
    requires { length definitions.old ≡ length (definitions_in graph.now) }
    ensures { ArePartsOf definition_part (definitions_in graph.now) definitions.new }
{
    for bit in 0..graph.bits(Analysis::Reach) {
        definitions[bit as usize] = definition_of(graph.definition(bit));
    }
}

/// The number of an operator.
pub(crate) fn operator_number(op: Op) -> u32
    ensures { result ≡ operator_number op }
{
    match op {
        Op::Plus => 0,
        Op::Minus => 1,
        Op::Star => 2,
        Op::Slash => 3,
        Op::Percent => 4,
        Op::And => 5,
        Op::Or => 6,
        Op::Caret => 7,
        Op::ShiftLeft => 8,
        Op::ShiftRight => 9,
        Op::Less => 10,
        Op::LessEqual => 11,
        Op::Greater => 12,
        Op::GreaterEqual => 13,
        Op::Equal => 14,
        Op::NotEqual => 15,
        Op::Tilde => 16,
        Op::Bang => 17,
    }
}

/// An operand by its numbers.
pub(crate) fn part_of(operand: Operand) -> Part
    ensures { result ≡ operand_part operand }
{
    match operand {
        Operand::Variable(variable) => Part {
            kind: 1,
            variable,
            number: 0,
        },
        Operand::Number(number) => Part {
            kind: 2,
            variable: 0,
            number,
        },
    }
}

fn expression_of(expr: Expr) -> Expression
    ensures { result ≡ expression_part expr }
{
    match expr {
        Expr::Unary(op, right) => Expression {
            operator: operator_number(op),
            left: Part {
                kind: 0,
                variable: 0,
                number: 0,
            },
            right: part_of(right),
        },
        Expr::Binary(left, op, right) => Expression {
            operator: operator_number(op),
            left: part_of(left),
            right: part_of(right),
        },
    }
}

// Puts the expressions of a graph's program.
fn put_expressions(graph: &Graph<'_>, expressions: &mut [Expression])
    requires { length expressions.old ≡ length (expressions_in graph.now) }
    ensures { ArePartsOf expression_part (expressions_in graph.now) expressions.new }
{
    for bit in 0..graph.bits(Analysis::Avail) {
        expressions[bit as usize] = expression_of(graph.expression(bit));
    }
}

/// Puts the points of a graph into room for as many as it has.
pub(crate) fn fill_points(graph: &Graph<'_>, points: &mut [Point]) -> Result<(), Fault>
    ensures points { OnOk result (AreParts (point_part graph.now) (point_count graph.now) points.new) }
    ensures kept { OnErr result (points.new ≡ points.old) }
    ensures fault { IfErr result (IsBadRoom (length points.old) (point_count graph.now)) }
{
    if points.len() != graph.points() as usize {
        return Err(Fault::BadRoom);
    }
    put_points(graph, points);
    Ok(())
}

/// Puts the definitions of a graph into room for as many as it has.
pub(crate) fn fill_definitions(
    graph: &Graph<'_>,
    definitions: &mut [Definition],
) -> Result<(), Fault>
    ensures definitions { OnOk result (ArePartsOf definition_part (definitions_in graph.now) definitions.new) }
    ensures kept { OnErr result (definitions.new ≡ definitions.old) }
    ensures fault { IfErr result (IsBadRoom (length definitions.old) (length (definitions_in graph.now))) }
{
    if definitions.len() != graph.bits(Analysis::Reach) as usize {
        return Err(Fault::BadRoom);
    }
    put_definitions(graph, definitions);
    Ok(())
}

/// Puts the expressions of a graph into room for as many as it has.
pub(crate) fn fill_expressions(
    graph: &Graph<'_>,
    expressions: &mut [Expression],
) -> Result<(), Fault>
    ensures expressions { OnOk result (ArePartsOf expression_part (expressions_in graph.now) expressions.new) }
    ensures kept { OnErr result (expressions.new ≡ expressions.old) }
    ensures fault { IfErr result (IsBadRoom (length expressions.old) (length (expressions_in graph.now))) }
{
    if expressions.len() != graph.bits(Analysis::Avail) as usize {
        return Err(Fault::BadRoom);
    }
    put_expressions(graph, expressions);
    Ok(())
}
