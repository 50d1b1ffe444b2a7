// The text of a statement, as it stands between quotes.

ghost use Rattle.std.specs.Prelude.{◌++◌, ◌<◌, All, codes, decimal, length};
ghost use Rattle.text_pieces.specs.Pieces.{CanWrite, Writes};
ghost use Rattle.tac_listing.specs.Listings.{binary_text, callees_text, goto_text, operand_text, statement_text, unary_text, names_in};
ghost use Rattle.tac_program.specs.Names.{name_at};
ghost use Rattle.tac_program.specs.Sound.{IsSoundOperand, IsSoundStatement};
ghost use Rattle.tac_program.specs.declared.program.StmtKind.TheVariants as kind_of;
ghost use Rattle.text_pieces.specs.Strings.{escaped};

use itoa::Buffer;
use tac_program::{Op, Operand, Program, StmtKind};
use text_pieces::{Pieces, Sink, write_escaped, write_if};

/// Writes a number as it stands between quotes.
pub fn write_escaped_number<K: Sink>(out: &mut Pieces<'_, K>, number: u64)
    requires { CanWrite K.Sink out.old }
    ensures { Writes K.Sink out.old out.new (escaped (decimal number)) }
{
    write_escaped(out, Buffer::new().format(number).as_bytes());
}

/// A procedure of a program, whose names the numbers in a statement stand for.
#[derive(Clone, Copy)]
pub struct Scope<'a> {
    /// The program.
    pub program: &'a Program,
    /// The procedure, by number.
    pub procedure: u32,
}

impl Scope<'_> {
    fn write_variable<K: Sink>(&self, out: &mut Pieces<'_, K>, variable: u32)
        requires ready { CanWrite K.Sink out.old }
        requires variable { variable < length self.now.program.now.variable_names }
        ensures { Writes K.Sink out.old out.new (escaped (name_at self.now.program.now.variable_names variable)) }
    {
        write_escaped(out, self.program.variable(variable));
    }

    fn write_operand<K: Sink>(&self, out: &mut Pieces<'_, K>, operand: Operand)
        requires ready { CanWrite K.Sink out.old }
        requires operand { IsSoundOperand (length self.now.program.now.variable_names) operand }
        ensures { Writes K.Sink out.old out.new (escaped (operand_text (names_in self.now.program.now self.now.procedure) operand)) }
    {
        match operand {
            Operand::Variable(variable) => self.write_variable(out, variable),
            Operand::Number(number) => write_escaped_number(out, number),
        }
    }

    fn write_unary<K: Sink>(&self, out: &mut Pieces<'_, K>, op: Op, operand: Operand)
        requires ready { CanWrite K.Sink out.old }
        requires operand { IsSoundOperand (length self.now.program.now.variable_names) operand }
        ensures { Writes K.Sink out.old out.new (escaped (unary_text (names_in self.now.program.now self.now.procedure) op operand)) }
    {
        write_escaped(out, op.sign());
        self.write_operand(out, operand);
    }

    fn write_binary<K: Sink>(&self, out: &mut Pieces<'_, K>, left: Operand, op: Op, right: Operand)
        requires ready { CanWrite K.Sink out.old }
        requires left { IsSoundOperand (length self.now.program.now.variable_names) left }
        requires right { IsSoundOperand (length self.now.program.now.variable_names) right }
        ensures { Writes K.Sink out.old out.new (escaped (binary_text (names_in self.now.program.now self.now.procedure) left op right)) }
    {
        self.write_operand(out, left);
        out.write(b" ");
        write_escaped(out, op.sign());
        out.write(b" ");
        self.write_operand(out, right);
    }

    // Writes what an assignment begins with.
    fn write_target<K: Sink>(&self, out: &mut Pieces<'_, K>, target: u32)
        requires ready { CanWrite K.Sink out.old }
        requires target { target < length self.now.program.now.variable_names }
        ensures { Writes K.Sink out.old out.new (escaped (name_at self.now.program.now.variable_names target ++ codes " = ")) }
    {
        self.write_variable(out, target);
        out.write(b" = ");
    }

    fn write_goto<K: Sink>(&self, out: &mut Pieces<'_, K>, label: u32)
        requires ready { CanWrite K.Sink out.old }
        requires label { label < length (names_in self.now.program.now self.now.procedure).labels }
        requires procedure { self.now.procedure < length self.now.program.now.procedures }
        ensures { Writes K.Sink out.old out.new (escaped (goto_text (names_in self.now.program.now self.now.procedure) label)) }
    {
        out.write(b"goto ");
        write_escaped(out, self.program.label(self.procedure, label));
    }

    fn write_copy<K: Sink>(&self, out: &mut Pieces<'_, K>, target: u32, value: Operand)
        requires ready { CanWrite K.Sink out.old }
        requires target { target < length self.now.program.now.variable_names }
        requires value { IsSoundOperand (length self.now.program.now.variable_names) value }
        ensures { Writes K.Sink out.old out.new
            (escaped (statement_text (names_in self.now.program.now self.now.procedure) (kind_of.Copy target value))) }
    {
        self.write_target(out, target);
        self.write_operand(out, value);
    }

    fn write_unary_assignment<K: Sink>(
        &self,
        out: &mut Pieces<'_, K>,
        target: u32,
        op: Op,
        operand: Operand,
    )
        requires ready { CanWrite K.Sink out.old }
        requires target { target < length self.now.program.now.variable_names }
        requires operand { IsSoundOperand (length self.now.program.now.variable_names) operand }
        ensures { Writes K.Sink out.old out.new
            (escaped (statement_text (names_in self.now.program.now self.now.procedure) (kind_of.Unary target op operand))) }
    {
        self.write_target(out, target);
        self.write_unary(out, op, operand);
    }

    fn write_binary_assignment<K: Sink>(
        &self,
        out: &mut Pieces<'_, K>,
        target: u32,
        left: Operand,
        op: Op,
        right: Operand,
    )
        requires ready { CanWrite K.Sink out.old }
        requires target { target < length self.now.program.now.variable_names }
        requires left { IsSoundOperand (length self.now.program.now.variable_names) left }
        requires right { IsSoundOperand (length self.now.program.now.variable_names) right }
        ensures { Writes K.Sink out.old out.new
            (escaped (statement_text (names_in self.now.program.now self.now.procedure) (kind_of.Binary op target left right))) }
    {
        self.write_target(out, target);
        self.write_binary(out, left, op, right);
    }

    fn write_if<K: Sink>(&self, out: &mut Pieces<'_, K>, condition: Operand, label: u32)
        requires ready { CanWrite K.Sink out.old }
        requires condition { IsSoundOperand (length self.now.program.now.variable_names) condition }
        requires label { label < length (names_in self.now.program.now self.now.procedure).labels }
        requires procedure { self.now.procedure < length self.now.program.now.procedures }
        ensures { Writes K.Sink out.old out.new
            (escaped (statement_text (names_in self.now.program.now self.now.procedure) (kind_of.If condition label))) }
    {
        out.write(b"if ");
        self.write_operand(out, condition);
        out.write(b" ");
        self.write_goto(out, label);
    }

    fn write_if_false<K: Sink>(&self, out: &mut Pieces<'_, K>, condition: Operand, label: u32)
        requires ready { CanWrite K.Sink out.old }
        requires condition { IsSoundOperand (length self.now.program.now.variable_names) condition }
        requires label { label < length (names_in self.now.program.now self.now.procedure).labels }
        requires procedure { self.now.procedure < length self.now.program.now.procedures }
        ensures { Writes K.Sink out.old out.new
            (escaped (statement_text (names_in self.now.program.now self.now.procedure) (kind_of.IfFalse condition label))) }
    {
        out.write(b"ifFalse ");
        self.write_operand(out, condition);
        out.write(b" ");
        self.write_goto(out, label);
    }

    fn write_comparison<K: Sink>(
        &self,
        out: &mut Pieces<'_, K>,
        left: Operand,
        op: Op,
        right: Operand,
        label: u32,
    )
        requires ready { CanWrite K.Sink out.old }
        requires left { IsSoundOperand (length self.now.program.now.variable_names) left }
        requires right { IsSoundOperand (length self.now.program.now.variable_names) right }
        requires label { label < length (names_in self.now.program.now self.now.procedure).labels }
        requires procedure { self.now.procedure < length self.now.program.now.procedures }
        ensures { Writes K.Sink out.old out.new
            (escaped (statement_text (names_in self.now.program.now self.now.procedure) (kind_of.IfCompare op label left right))) }
    {
        out.write(b"if ");
        self.write_binary(out, left, op, right);
        out.write(b" ");
        self.write_goto(out, label);
    }

    fn write_callees<K: Sink>(&self, out: &mut Pieces<'_, K>, callees: &[u32])
        requires ready { CanWrite K.Sink out.old }
        requires callees { All (λ callee. callee < length self.now.program.now.procedure_names) callees.now }
        ensures { Writes K.Sink out.old out.new (escaped (callees_text (names_in self.now.program.now self.now.procedure) callees.now)) }
    {
        for (place, callee) in callees.iter().enumerate() {
            write_if(out, 0 < place, b" | ");
            write_escaped(out, self.program.procedure(*callee));
        }
    }

    fn write_call<K: Sink>(&self, out: &mut Pieces<'_, K>, callees: &[u32])
        requires ready { CanWrite K.Sink out.old }
        requires callees { All (λ callee. callee < length self.now.program.now.procedure_names) callees.now }
        ensures { Writes K.Sink out.old out.new
            (escaped (codes "call " ++ callees_text (names_in self.now.program.now self.now.procedure) callees.now)) }
    {
        out.write(b"call ");
        self.write_callees(out, callees);
    }

    fn write_read<K: Sink>(&self, out: &mut Pieces<'_, K>, target: u32)
        requires ready { CanWrite K.Sink out.old }
        requires target { target < length self.now.program.now.variable_names }
        ensures { Writes K.Sink out.old out.new (escaped (statement_text (names_in self.now.program.now self.now.procedure) (kind_of.Read target))) }
    {
        out.write(b"read ");
        self.write_variable(out, target);
    }

    fn write_print<K: Sink>(&self, out: &mut Pieces<'_, K>, value: Operand)
        requires ready { CanWrite K.Sink out.old }
        requires value { IsSoundOperand (length self.now.program.now.variable_names) value }
        ensures { Writes K.Sink out.old out.new (escaped (statement_text (names_in self.now.program.now self.now.procedure) (kind_of.Print value))) }
    {
        out.write(b"print ");
        self.write_operand(out, value);
    }

    /// Writes a statement as a listing has it.
    ///
    /// The conditions: the procedure is there, and so is what the statement names.
    pub fn write_statement<K: Sink>(&self, out: &mut Pieces<'_, K>, kind: &StmtKind)
        requires ready { CanWrite K.Sink out.old }
        requires procedure { self.now.procedure < length self.now.program.now.procedures }
        requires sound { IsSoundStatement (length self.now.program.now.variable_names)
            (length (names_in self.now.program.now self.now.procedure).labels) (length self.now.program.now.procedure_names) kind.now }
        ensures { Writes K.Sink out.old out.new (escaped (statement_text (names_in self.now.program.now self.now.procedure) kind.now)) }
    {
        match kind {
            StmtKind::Copy { target, value } => self.write_copy(out, *target, *value),
            StmtKind::Unary {
                target,
                op,
                operand,
            } => self.write_unary_assignment(out, *target, *op, *operand),
            StmtKind::Binary {
                target,
                left,
                op,
                right,
            } => self.write_binary_assignment(out, *target, *left, *op, *right),
            StmtKind::Goto { label } => self.write_goto(out, *label),
            StmtKind::If { condition, label } => self.write_if(out, *condition, *label),
            StmtKind::IfFalse { condition, label } => self.write_if_false(out, *condition, *label),
            StmtKind::IfCompare {
                left,
                op,
                right,
                label,
            } => self.write_comparison(out, *left, *op, *right, *label),
            StmtKind::Call { callees } => self.write_call(out, callees.as_slice()),
            StmtKind::Return => out.write(b"return"),
            StmtKind::Read { target } => self.write_read(out, *target),
            StmtKind::Print { value } => self.write_print(out, *value),
            StmtKind::Skip => out.write(b"skip"),
        }
    }
}
