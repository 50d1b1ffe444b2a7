// The parts of definitions and of expressions.

ghost use Rattle.std.specs.Prelude.{◌<◌, ◌++◌, codes, length, map};
ghost use Rattle.flow_graph.specs.Universes.{definitions, expressions};
ghost use Rattle.flow_views.specs.Json.{array};
ghost use Rattle.json_statements.specs.Parts.{definition_object, expression_object, expression_parts, point_or_null};
ghost use Rattle.text_pieces.specs.Pieces.{CanWrite, Writes};

use crate::operands::{write_decimal, write_operands};
use flow_graph::{Analysis, Expr, Graph};
use tac_program::{Op, Operand};
use text_pieces::{Pieces, Sink, write_if};

// Writes a point; null where there is none.
fn write_point_or_null<K: Sink>(out: &mut Pieces<'_, K>, point: Option<u32>)
    requires { CanWrite K.Sink out.old }
    ensures { Writes K.Sink out.old out.new (point_or_null point) }
{
    match point {
        Some(point) => write_decimal(out, point as u64),
        None => out.write(b"null"),
    }
}

// Writes a definition by its variable and its point.
fn write_definition<K: Sink>(out: &mut Pieces<'_, K>, definition: (u32, Option<u32>))
    requires { CanWrite K.Sink out.old }
    ensures { Writes K.Sink out.old out.new (definition_object definition) }
{
    let (variable, point) = definition;
    out.write(b"{\"variable\":");
    write_decimal(out, variable as u64);
    out.write(b",\"point\":");
    write_point_or_null(out, point);
    out.write(b"}");
}

/// Writes the definitions of a graph as an array, in the order of their numbers: of each the variable, and the point that assigns it, or null
/// where it stands for the value at the program's beginning.
pub fn write_definitions<K: Sink>(out: &mut Pieces<'_, K>, graph: &Graph<'_>)
    requires { CanWrite K.Sink out.old }
    ensures { Writes K.Sink out.old out.new (array (map definition_object (definitions graph.now))) }
{
    out.write(b"[");
    for bit in 0..graph.bits(Analysis::Reach) {
        write_if(out, 0 < bit, b",");
        write_definition(out, graph.definition(bit));
    }
    out.write(b"]");
}

// Writes an expression by its operator and its operands.
fn write_expression_of<K: Sink>(out: &mut Pieces<'_, K>, operator: Op, operands: &[Operand])
    requires { CanWrite K.Sink out.old }
    ensures { Writes K.Sink out.old out.new (expression_parts operator operands.now) }
{
    out.write(b"{\"operator\":\"");
    out.write(operator.sign());
    out.write(b"\"");
    write_operands(out, operands);
    out.write(b"}");
}

// Writes an expression.
fn write_expression<K: Sink>(out: &mut Pieces<'_, K>, expression: Expr)
    requires { CanWrite K.Sink out.old }
    ensures { Writes K.Sink out.old out.new (expression_object expression) }
{
    match expression {
        Expr::Unary(operator, operand) => write_expression_of(out, operator, &[operand]),
        Expr::Binary(left, operator, right) => {
            write_expression_of(out, operator, &[left, right]);
        },
    }
}

/// Writes the expressions of a graph as an array, in the order of their numbers: of each the operator and the operands.
pub fn write_expressions<K: Sink>(out: &mut Pieces<'_, K>, graph: &Graph<'_>)
    requires { CanWrite K.Sink out.old }
    ensures { Writes K.Sink out.old out.new (array (map expression_object (expressions graph.now))) }
{
    out.write(b"[");
    for bit in 0..graph.bits(Analysis::Avail) {
        write_if(out, 0 < bit, b",");
        write_expression(out, graph.expression(bit));
    }
    out.write(b"]");
}
