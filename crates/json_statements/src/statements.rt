// The parts of a statement.

ghost use Rattle.std.specs.Prelude.{◌<◌, ◌++◌, [], ◌∷◌, codes, decimal, map};
ghost use Rattle.flow_graph.specs.Points.{point_count};
ghost use Rattle.flow_views.specs.Json.{array};
ghost use Rattle.json_statements.specs.Parts.{bytes_at, callees_field, kind_field, operands_field};
ghost use Rattle.json_statements.specs.Parts.{operator_field, parts_at, parts_fields, statement_parts, target_field};
ghost use Rattle.text_pieces.specs.Pieces.{CanWrite, Writes};

use crate::operands::{write_decimal, write_operands, write_operator, write_target};
use flow_graph::Graph;
use tac_program::{Op, Operand, Span, StmtKind};
use text_pieces::{Pieces, Sink, write_if};

// Writes the first field, which says what kind of statement it is.
fn write_kind<K: Sink>(out: &mut Pieces<'_, K>, kind: &[u8])
    requires { CanWrite K.Sink out.old }
    ensures { Writes K.Sink out.old out.new (kind_field kind.now) }
{
    out.write(b"{\"kind\":\"");
    out.write(kind);
    out.write(b"\"");
}

// Writes a statement that has no parts.
fn write_bare<K: Sink>(out: &mut Pieces<'_, K>, kind: &[u8])
    requires { CanWrite K.Sink out.old }
    ensures { Writes K.Sink out.old out.new (kind_field kind.now ++ codes "}") }
{
    write_kind(out, kind);
    out.write(b"}");
}

// Writes a copy.
fn write_copy<K: Sink>(out: &mut Pieces<'_, K>, target: u32, value: Operand)
    requires { CanWrite K.Sink out.old }
    ensures { Writes K.Sink out.old out.new
        (kind_field (codes "copy") ++ target_field target ++ operands_field (value ∷ []) ++ codes "}") }
{
    write_kind(out, b"copy");
    write_target(out, target);
    write_operands(out, &[value]);
    out.write(b"}");
}

// Writes an assignment with an operator.
fn write_assignment<K: Sink>(
    out: &mut Pieces<'_, K>,
    kind: &[u8],
    target: u32,
    operator: Op,
    operands: &[Operand],
)
    requires { CanWrite K.Sink out.old }
    ensures { Writes K.Sink out.old out.new
        (kind_field kind.now ++ target_field target ++ operator_field operator ++ operands_field operands.now ++ codes "}") }
{
    write_kind(out, kind);
    write_target(out, target);
    write_operator(out, operator);
    write_operands(out, operands);
    out.write(b"}");
}

// Writes a statement with one operand that assigns nothing.
fn write_use<K: Sink>(out: &mut Pieces<'_, K>, kind: &[u8], operand: Operand)
    requires { CanWrite K.Sink out.old }
    ensures { Writes K.Sink out.old out.new (kind_field kind.now ++ operands_field (operand ∷ []) ++ codes "}") }
{
    write_kind(out, kind);
    write_operands(out, &[operand]);
    out.write(b"}");
}

// Writes a test that compares.
fn write_comparison<K: Sink>(out: &mut Pieces<'_, K>, left: Operand, operator: Op, right: Operand)
    requires { CanWrite K.Sink out.old }
    ensures { Writes K.Sink out.old out.new
        (kind_field (codes "if_compare") ++ operator_field operator ++ operands_field (left ∷ right ∷ []) ++ codes "}") }
{
    write_kind(out, b"if_compare");
    write_operator(out, operator);
    write_operands(out, &[left, right]);
    out.write(b"}");
}

// Writes the numbers of procedures as an array.
fn write_numbers<K: Sink>(out: &mut Pieces<'_, K>, numbers: &[u32])
    requires { CanWrite K.Sink out.old }
    ensures { Writes K.Sink out.old out.new (array (map decimal numbers.now)) }
{
    out.write(b"[");
    for (place, number) in numbers.iter().enumerate() {
        write_if(out, 0 < place, b",");
        write_decimal(out, *number as u64);
    }
    out.write(b"]");
}

// Writes a field with the procedures that may be called.
fn write_callees<K: Sink>(out: &mut Pieces<'_, K>, callees: &[u32])
    requires { CanWrite K.Sink out.old }
    ensures { Writes K.Sink out.old out.new (callees_field callees.now) }
{
    out.write(b",\"callees\":");
    write_numbers(out, callees);
}

// Writes a call.
fn write_call<K: Sink>(out: &mut Pieces<'_, K>, callees: &[u32])
    requires { CanWrite K.Sink out.old }
    ensures { Writes K.Sink out.old out.new (kind_field (codes "call") ++ callees_field callees.now ++ codes "}") }
{
    write_kind(out, b"call");
    write_callees(out, callees);
    out.write(b"}");
}

// Writes a statement that reads a value from outside.
fn write_read<K: Sink>(out: &mut Pieces<'_, K>, target: u32)
    requires { CanWrite K.Sink out.old }
    ensures { Writes K.Sink out.old out.new (kind_field (codes "read") ++ target_field target ++ codes "}") }
{
    write_kind(out, b"read");
    write_target(out, target);
    out.write(b"}");
}

// Writes the parts of a statement as an object.
fn write_statement_parts<K: Sink>(out: &mut Pieces<'_, K>, kind: &StmtKind)
    requires { CanWrite K.Sink out.old }
    ensures { Writes K.Sink out.old out.new (statement_parts kind.now) }
{
    match kind {
        StmtKind::Copy { target, value } => write_copy(out, *target, *value),
        StmtKind::Unary {
            target,
            op,
            operand,
        } => write_assignment(out, b"unary", *target, *op, &[*operand]),
        StmtKind::Binary {
            target,
            left,
            op,
            right,
        } => write_assignment(out, b"binary", *target, *op, &[*left, *right]),
        StmtKind::Goto { .. } => write_bare(out, b"goto"),
        StmtKind::If { condition, .. } => write_use(out, b"if", *condition),
        StmtKind::IfFalse { condition, .. } => write_use(out, b"if_false", *condition),
        StmtKind::IfCompare {
            left,
            op,
            right,
            ..
        } => write_comparison(out, *left, *op, *right),
        StmtKind::Call { callees } => write_call(out, callees.as_slice()),
        StmtKind::Return => write_bare(out, b"return"),
        StmtKind::Read { target } => write_read(out, *target),
        StmtKind::Print { value } => write_use(out, b"print", *value),
        StmtKind::Skip => write_bare(out, b"skip"),
    }
}

// Writes the parts of the statement at a point; null at a procedure's end.
fn write_parts<K: Sink>(out: &mut Pieces<'_, K>, graph: &Graph<'_>, point: u32)
    requires ready { CanWrite K.Sink out.old }
    requires point { point < point_count graph.now }
    ensures { Writes K.Sink out.old out.new (parts_at graph.now point) }
{
    match graph.stmt(point) {
        Some(stmt) => write_statement_parts(out, &stmt.kind),
        None => out.write(b"null"),
    }
}

// Writes the bytes of a statement.
fn write_span<K: Sink>(out: &mut Pieces<'_, K>, span: Span)
    requires { CanWrite K.Sink out.old }
    ensures { Writes K.Sink out.old out.new (codes ",\"start\":" ++ decimal span.start ++ codes ",\"end\":" ++ decimal span.end) }
{
    out.write(b",\"start\":");
    write_decimal(out, span.start as u64);
    out.write(b",\"end\":");
    write_decimal(out, span.end as u64);
}

// Writes the bytes of the statement at a point; nulls at a procedure's end.
fn write_bytes<K: Sink>(out: &mut Pieces<'_, K>, graph: &Graph<'_>, point: u32)
    requires ready { CanWrite K.Sink out.old }
    requires point { point < point_count graph.now }
    ensures { Writes K.Sink out.old out.new (bytes_at graph.now point) }
{
    match graph.stmt(point) {
        Some(stmt) => write_span(out, stmt.span),
        None => out.write(b",\"start\":null,\"end\":null"),
    }
}

/// Writes fields with what the statement at a point is made of: its parts as an object, which has its kind, and by number the variable that
/// it assigns, its operator by its sign, its operands and the procedures that it may call; and its bytes in the text, from 0, the first and
/// the one behind the last. All are null at a procedure's end. Where a jump leads its edges tell.
///
/// The condition: it is a point of the graph.
pub fn write_parts_fields<K: Sink>(out: &mut Pieces<'_, K>, graph: &Graph<'_>, point: u32)
    requires ready { CanWrite K.Sink out.old }
    requires point { point < point_count graph.now }
    ensures { Writes K.Sink out.old out.new (parts_fields graph.now point) }
{
    out.write(b",\"parts\":");
    write_parts(out, graph, point);
    write_bytes(out, graph, point);
}
