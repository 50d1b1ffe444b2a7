// The listing of a program: its text in one fixed layout.

ghost use Rattle.std.specs.Prelude.{◌≡◌, ◌++◌, ◌≤◌, codes, filter, nat_lt, All, IfOk, OnOk};
ghost use Rattle.tac_program.specs.Names.{name_at};
ghost use Rattle.tac_listing.specs.Listings.{names_of, operand_text, binary_text, unary_text, goto_text, callees_text, statement_text};
ghost use Rattle.tac_listing.specs.Listings.{labels_text, places_text, procedure_text, listing_of};
ghost use Rattle.tac_program.specs.Programs.{LabelsRise};

use crate::OutOfMemory;
use itoa::Buffer;
use std::alloc::Global;
use std::marker::Model;
use tac_program::{Label, NameTable, Op, Operand, Proc, Program, Stmt, StmtKind};

// The names that the numbers in a procedure stand for.
#[derive(Drop)]
struct Names<'a> {
    procedures: &'a NameTable,
    variables: &'a NameTable,
    labels: &'a NameTable,
}

impl<'a> Model for Names<'a> {
    ghost use Rattle.tac_program.specs.Names.{Names};

    ghost Value = { Names };

    ghost view = { λ names. record {
      procedures = names.procedures.now;
      variables = names.variables.now;
      labels = names.labels.now;
    } };
}

impl Names<'_> {
    fn procedure(&self, procedure: u32) -> &[u8]
        ensures { result.now ≡ name_at self.now.procedures procedure }
    {
        self.procedures.name_or_empty(procedure)
    }

    fn variable(&self, variable: u32) -> &[u8]
        ensures { result.now ≡ name_at self.now.variables variable }
    {
        self.variables.name_or_empty(variable)
    }

    fn label(&self, label: u32) -> &[u8]
        ensures { result.now ≡ name_at self.now.labels label }
    {
        self.labels.name_or_empty(label)
    }
}

/// The listing of a program: its text in one layout. Each procedure is a line `proc NAME`, its
/// statements each on a line of its own behind two blanks, and a line `end`; a label is a line
/// `NAME:` before the statement that it stands for, or before `end`. One blank stands between two
/// tokens of a statement, and none behind a unary operator; numbers are in decimal without leading
/// zeros. Each line ends with a line feed.
///
/// The work is linear in the program and its listing. Fails only where memory runs out.
pub fn listing(alloc: Global, program: &Program) -> Result<Vec<u8>, OutOfMemory>
    ensures { IfOk result (λ text. text.items ≡ listing_of program.now) }
{
    let mut text = Vec::new(alloc);
    for proc in program.procs() {
        write_procedure(&mut text, program, proc)?;
    }
    Ok(text)
}

/// Writes a unary expression of a program last, as its listing has it: the operator directly before its operand. Fails only
/// where memory runs out.
pub fn write_unary_expression(
    text: &mut Vec<u8>,
    program: &Program,
    op: Op,
    operand: Operand,
) -> Result<(), OutOfMemory>
    ensures { OnOk result (text.new.items ≡ text.old.items ++ unary_text (names_of program.now) op operand) }
{
    write_sign(text, &names_outside(program), op, operand)
}

/// Writes a binary expression of a program last, as its listing has it: one blank on each side of the operator. Fails only
/// where memory runs out.
pub fn write_binary_expression(
    text: &mut Vec<u8>,
    program: &Program,
    left: Operand,
    op: Op,
    right: Operand,
) -> Result<(), OutOfMemory>
    ensures { OnOk result (text.new.items ≡ text.old.items ++ binary_text (names_of program.now) left op right) }
{
    write_operation(text, &names_outside(program), left, op, right)
}

// The names of a program; an expression has no label, so that any table serves for them.
fn names_outside<'a>(program: &'a Program) -> Names<'a>
    ensures procedures { result.procedures ≡ program.now.procedure_names }
    ensures variables { result.variables ≡ program.now.variable_names }
{
    Names {
        procedures: program.procedure_names(),
        variables: program.variable_names(),
        labels: program.variable_names(),
    }
}

fn write_procedure(text: &mut Vec<u8>, program: &Program, proc: &Proc) -> Result<(), OutOfMemory>
    ensures { OnOk result
        (text.new.items ≡ text.old.items
        ++ procedure_text program.now.procedure_names program.now.variable_names proc.now) }
{
    let names = Names {
        procedures: program.procedure_names(),
        variables: program.variable_names(),
        labels: proc.label_names(),
    };
    text.extend_from_slice(b"proc ")?;
    text.extend_from_slice(names.procedure(proc.name()))?;
    text.extend_from_slice(b"\n")?;
    write_places(text, &names, proc.labels(), proc.stmts())?;
    text.extend_from_slice(b"end\n")
}

// Each statement behind its labels, and the labels of the end.
fn write_places(
    text: &mut Vec<u8>,
    names: &Names<'_>,
    labels: &[Label],
    stmts: &[Stmt],
) -> Result<(), OutOfMemory>
    requires { LabelsRise labels.now }
    ensures { OnOk result
        (text.new.items ≡ text.old.items ++ places_text names.now 0 labels.now stmts.now) }
{
    let mut ahead = labels;
    for (place, stmt) in stmts.iter().enumerate() {
        ahead = write_labels(text, names, place, ahead)?;
        text.extend_from_slice(b"  ")?;
        write_statement(text, names, &stmt.kind)?;
        text.extend_from_slice(b"\n")?;
    }
    write_labels(text, names, stmts.len(), ahead)?;
    Ok(())
}

// The labels of a place, which come first among those from there on; answers the labels behind it.
fn write_labels<'a>(
    text: &mut Vec<u8>,
    names: &Names<'_>,
    place: usize,
    ahead: &'a [Label],
) -> Result<&'a [Label], OutOfMemory>
    requires rise { LabelsRise ahead.now }
    requires ahead { All (λ l. place ≤ l.place) ahead.now }
    ensures written { OnOk result
        (text.new.items ≡ text.old.items ++ labels_text names.now place ahead.now) }
    ensures behind { IfOk result
        (λ behind. behind.now ≡ filter (λ l. nat_lt place l.place) ahead.now) }
{
    for (passed, label) in ahead.iter().enumerate() {
        if label.place as usize != place {
            return Ok(&ahead[passed..]);
        }
        text.extend_from_slice(names.label(label.name))?;
        text.extend_from_slice(b":\n")?;
    }
    Ok(&[])
}

fn write_statement(
    text: &mut Vec<u8>,
    names: &Names<'_>,
    kind: &StmtKind,
) -> Result<(), OutOfMemory>
    ensures { OnOk result (text.new.items ≡ text.old.items ++ statement_text names.now kind.now) }
{
    match kind {
        StmtKind::Copy { target, value } => write_copy(text, names, *target, *value),
        StmtKind::Unary {
            target,
            op,
            operand,
        } => write_unary(text, names, *target, *op, *operand),
        StmtKind::Binary {
            op,
            target,
            left,
            right,
        } => write_binary(text, names, *target, *left, *op, *right),
        StmtKind::Goto { label } => write_goto(text, names, *label),
        StmtKind::If { condition, label } => write_test(text, names, b"if ", *condition, *label),
        StmtKind::IfFalse { condition, label } => write_test(
            text,
            names,
            b"ifFalse ",
            *condition,
            *label,
        ),
        StmtKind::IfCompare {
            op,
            label,
            left,
            right,
        } => write_comparison(text, names, *left, *op, *right, *label),
        StmtKind::Call { callees } => write_call(text, names, callees.as_slice()),
        StmtKind::Return => text.extend_from_slice(b"return"),
        StmtKind::Read { target } => write_read(text, names, *target),
        StmtKind::Print { value } => write_print(text, names, *value),
        StmtKind::Skip => text.extend_from_slice(b"skip"),
    }
}

fn write_copy(
    text: &mut Vec<u8>,
    names: &Names<'_>,
    target: u32,
    value: Operand,
) -> Result<(), OutOfMemory>
    ensures { OnOk result
        (text.new.items ≡ text.old.items ++ statement_text names.now (StmtKind.Copy target value)) }
{
    write_target(text, names, target)?;
    write_operand(text, names, value)
}

fn write_unary(
    text: &mut Vec<u8>,
    names: &Names<'_>,
    target: u32,
    op: Op,
    operand: Operand,
) -> Result<(), OutOfMemory>
    ensures { OnOk result
        (text.new.items ≡ text.old.items
        ++ statement_text names.now (StmtKind.Unary target op operand)) }
{
    write_target(text, names, target)?;
    write_sign(text, names, op, operand)
}

fn write_binary(
    text: &mut Vec<u8>,
    names: &Names<'_>,
    target: u32,
    left: Operand,
    op: Op,
    right: Operand,
) -> Result<(), OutOfMemory>
    ensures { OnOk result
        (text.new.items ≡ text.old.items
        ++ statement_text names.now (StmtKind.Binary op target left right)) }
{
    write_target(text, names, target)?;
    write_operation(text, names, left, op, right)
}

fn write_comparison(
    text: &mut Vec<u8>,
    names: &Names<'_>,
    left: Operand,
    op: Op,
    right: Operand,
    label: u32,
) -> Result<(), OutOfMemory>
    ensures { OnOk result
        (text.new.items ≡ text.old.items
        ++ statement_text names.now (StmtKind.IfCompare op label left right)) }
{
    text.extend_from_slice(b"if ")?;
    write_operation(text, names, left, op, right)?;
    text.extend_from_slice(b" ")?;
    write_goto(text, names, label)
}

// A jump on an operand behind its keyword, which ends with a blank.
fn write_test(
    text: &mut Vec<u8>,
    names: &Names<'_>,
    keyword: &[u8],
    condition: Operand,
    label: u32,
) -> Result<(), OutOfMemory>
    ensures { OnOk result
        (text.new.items ≡ text.old.items
        ++ keyword.now ++ operand_text names.now condition
        ++ codes " " ++ goto_text names.now label) }
{
    text.extend_from_slice(keyword)?;
    write_operand(text, names, condition)?;
    text.extend_from_slice(b" ")?;
    write_goto(text, names, label)
}

fn write_call(text: &mut Vec<u8>, names: &Names<'_>, callees: &[u32]) -> Result<(), OutOfMemory>
    ensures { OnOk result
        (text.new.items ≡ text.old.items ++ codes "call " ++ callees_text names.now callees.now) }
{
    text.extend_from_slice(b"call ")?;
    write_callees(text, names, callees)
}

fn write_read(text: &mut Vec<u8>, names: &Names<'_>, target: u32) -> Result<(), OutOfMemory>
    ensures { OnOk result
        (text.new.items ≡ text.old.items ++ statement_text names.now (StmtKind.Read target)) }
{
    text.extend_from_slice(b"read ")?;
    text.extend_from_slice(names.variable(target))
}

fn write_print(text: &mut Vec<u8>, names: &Names<'_>, value: Operand) -> Result<(), OutOfMemory>
    ensures { OnOk result
        (text.new.items ≡ text.old.items ++ statement_text names.now (StmtKind.Print value)) }
{
    text.extend_from_slice(b"print ")?;
    write_operand(text, names, value)
}

fn write_target(text: &mut Vec<u8>, names: &Names<'_>, target: u32) -> Result<(), OutOfMemory>
    ensures { OnOk result
        (text.new.items ≡ text.old.items ++ name_at names.now.variables target ++ codes " = ") }
{
    text.extend_from_slice(names.variable(target))?;
    text.extend_from_slice(b" = ")
}

// An operator before its operand.
fn write_sign(
    text: &mut Vec<u8>,
    names: &Names<'_>,
    op: Op,
    operand: Operand,
) -> Result<(), OutOfMemory>
    ensures { OnOk result (text.new.items ≡ text.old.items ++ unary_text names.now op operand) }
{
    text.extend_from_slice(op.sign())?;
    write_operand(text, names, operand)
}

// An operator between its operands.
fn write_operation(
    text: &mut Vec<u8>,
    names: &Names<'_>,
    left: Operand,
    op: Op,
    right: Operand,
) -> Result<(), OutOfMemory>
    ensures { OnOk result (text.new.items ≡ text.old.items ++ binary_text names.now left op right) }
{
    write_operand(text, names, left)?;
    text.extend_from_slice(b" ")?;
    text.extend_from_slice(op.sign())?;
    text.extend_from_slice(b" ")?;
    write_operand(text, names, right)
}

fn write_operand(text: &mut Vec<u8>, names: &Names<'_>, operand: Operand) -> Result<(), OutOfMemory>
    ensures { OnOk result (text.new.items ≡ text.old.items ++ operand_text names.now operand) }
{
    match operand {
        Operand::Variable(variable) => text.extend_from_slice(names.variable(variable)),
        Operand::Number(number) => text.extend_from_slice(Buffer::new().format(number).as_bytes()),
    }
}

fn write_goto(text: &mut Vec<u8>, names: &Names<'_>, label: u32) -> Result<(), OutOfMemory>
    ensures { OnOk result (text.new.items ≡ text.old.items ++ goto_text names.now label) }
{
    text.extend_from_slice(b"goto ")?;
    text.extend_from_slice(names.label(label))
}

fn write_callees(text: &mut Vec<u8>, names: &Names<'_>, callees: &[u32]) -> Result<(), OutOfMemory>
    ensures { OnOk result (text.new.items ≡ text.old.items ++ callees_text names.now callees.now) }
{
    if let [first, others @ ..] = callees {
        text.extend_from_slice(names.procedure(*first))?;
        for callee in others {
            text.extend_from_slice(b" | ")?;
            text.extend_from_slice(names.procedure(*callee))?;
        }
    }
    Ok(())
}
