// Numbers, operands and operators.

ghost use Rattle.std.specs.Prelude.{◌++◌, codes, decimal, map};
ghost use Rattle.flow_views.specs.Json.{array};
ghost use Rattle.json_statements.specs.Parts.{operand_object, operands_field, operator_field, target_field};
ghost use Rattle.text_pieces.specs.Pieces.{CanWrite, Writes};

use itoa::Buffer;
use tac_program::{Op, Operand};
use text_pieces::{Pieces, Sink, write_if};

/// Writes a number.
pub(crate) fn write_decimal<K: Sink>(out: &mut Pieces<'_, K>, number: u64)
    requires { CanWrite K.Sink out.old }
    ensures { Writes K.Sink out.old out.new (decimal number) }
{
    out.write(Buffer::new().format(number).as_bytes());
}

// Writes an object whose one field is a number, given all that stands before that.
fn write_one<K: Sink>(out: &mut Pieces<'_, K>, field: &[u8], number: u64)
    requires { CanWrite K.Sink out.old }
    ensures { Writes K.Sink out.old out.new (field.now ++ decimal number ++ codes "}") }
{
    out.write(field);
    write_decimal(out, number);
    out.write(b"}");
}

// Writes an operand as an object.
fn write_operand<K: Sink>(out: &mut Pieces<'_, K>, operand: Operand)
    requires { CanWrite K.Sink out.old }
    ensures { Writes K.Sink out.old out.new (operand_object operand) }
{
    match operand {
        Operand::Variable(variable) => write_one(out, b"{\"variable\":", variable as u64),
        Operand::Number(number) => write_one(out, b"{\"number\":", number),
    }
}

// Writes operands as an array.
fn write_array<K: Sink>(out: &mut Pieces<'_, K>, operands: &[Operand])
    requires { CanWrite K.Sink out.old }
    ensures { Writes K.Sink out.old out.new (array (map operand_object operands.now)) }
{
    out.write(b"[");
    for (place, operand) in operands.iter().enumerate() {
        write_if(out, 0 < place, b",");
        write_operand(out, *operand);
    }
    out.write(b"]");
}

/// Writes a field with operands.
pub(crate) fn write_operands<K: Sink>(out: &mut Pieces<'_, K>, operands: &[Operand])
    requires { CanWrite K.Sink out.old }
    ensures { Writes K.Sink out.old out.new (operands_field operands.now) }
{
    out.write(b",\"operands\":");
    write_array(out, operands);
}

/// Writes a field with an operator.
pub(crate) fn write_operator<K: Sink>(out: &mut Pieces<'_, K>, operator: Op)
    requires { CanWrite K.Sink out.old }
    ensures { Writes K.Sink out.old out.new (operator_field operator) }
{
    out.write(b",\"operator\":\"");
    out.write(operator.sign());
    out.write(b"\"");
}

/// Writes a field with the variable that is assigned.
pub(crate) fn write_target<K: Sink>(out: &mut Pieces<'_, K>, target: u32)
    requires { CanWrite K.Sink out.old }
    ensures { Writes K.Sink out.old out.new (target_field target) }
{
    out.write(b",\"target\":");
    write_decimal(out, target as u64);
}
