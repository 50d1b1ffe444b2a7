// Whether a statement leads to what is there.

ghost use Rattle.std.specs.Prelude.{◌≡◌, ℕ, ◌<◌, ◌↔◌, true, false, All, IsTrue, length, slice_index};
ghost use Rattle.tac_program.specs.Sound.{AllDiffer, IsBinary, IsComparison, IsSoundCall, IsSoundOperand, IsSoundStatement, IsUnary};

use tac_program::{Op, Operand, StmtKind};

/// The largest number that an operand may be.
const LARGEST: u64 = 9_223_372_036_854_775_807;

/// How many there are of what a statement names by number.
#[derive(Clone, Copy)]
pub(crate) struct Counts {
    pub(crate) variables: u32,
    pub(crate) labels: u32,
    pub(crate) procedures: u32,
}

fn is_operand(operand: Operand, variables: u32) -> bool
    ensures { IsTrue result ↔ IsSoundOperand variables operand }
{
    match operand {
        Operand::Variable(variable) => variable < variables,
        Operand::Number(number) => number <= LARGEST,
    }
}

fn are_operands(left: Operand, right: Operand, variables: u32) -> bool
    ensures { IsTrue result ↔ (IsSoundOperand variables left × IsSoundOperand variables right) }
{
    is_operand(left, variables) && is_operand(right, variables)
}

fn is_unary(op: Op) -> bool
    ensures { IsTrue result ↔ IsUnary op }
{
    match op {
        Op::Minus | Op::Tilde | Op::Bang => true,
        Op::Plus | Op::Star | Op::Slash | Op::Percent => false,
        Op::And | Op::Or | Op::Caret | Op::ShiftLeft | Op::ShiftRight => false,
        Op::Less | Op::LessEqual | Op::Greater | Op::GreaterEqual => false,
        Op::Equal | Op::NotEqual => false,
    }
}

fn is_comparison(op: Op) -> bool
    ensures { IsTrue result ↔ IsComparison op }
{
    match op {
        Op::Less | Op::LessEqual | Op::Greater | Op::GreaterEqual => true,
        Op::Equal | Op::NotEqual => true,
        Op::Plus | Op::Minus | Op::Star | Op::Slash | Op::Percent => false,
        Op::And | Op::Or | Op::Caret | Op::ShiftLeft | Op::ShiftRight => false,
        Op::Tilde | Op::Bang => false,
    }
}

fn is_binary(op: Op) -> bool
    ensures { IsTrue result ↔ IsBinary op }
{
    match op {
        Op::Plus | Op::Minus | Op::Star | Op::Slash | Op::Percent => true,
        Op::And | Op::Or | Op::Caret | Op::ShiftLeft | Op::ShiftRight => true,
        Op::Less | Op::LessEqual | Op::Greater | Op::GreaterEqual => true,
        Op::Equal | Op::NotEqual => true,
        Op::Tilde | Op::Bang => false,
    }
}

// Whether one of those before is the same.
fn stands_before(callees: &[u32], at: usize) -> bool
    requires { at < length callees.now }
    ensures found { result ≡ true → (i : ℕ) × (i < at) × (slice_index callees.now i ≡ slice_index callees.now at) }
    ensures none { result ≡ false → (i : ℕ) → i < at → ¬ (slice_index callees.now i ≡ slice_index callees.now at) }
{
    for i in 0..at {
        if callees[i] == callees[at] {
            return true;
        }
    }
    false
}

// Whether no two are the same.
fn differ(callees: &[u32]) -> bool
    ensures all { result ≡ true → AllDiffer callees.now }
    ensures some { result ≡ false → ¬ (AllDiffer callees.now) }
{
    for at in 0..callees.len() {
        if stands_before(callees, at) {
            return false;
        }
    }
    true
}

// Whether each is a procedure.
fn are_there(callees: &[u32], procedures: u32) -> bool
    ensures { IsTrue result ↔ All (λ callee. callee < procedures) callees.now }
{
    callees.iter().all(|callee| *callee < procedures)
}

// Whether one to eight procedures are called, each once.
fn is_call(callees: &[u32], procedures: u32) -> bool
    ensures { IsTrue result ↔ IsSoundCall procedures callees.now }
{
    if callees.is_empty() || callees.len() > 8 {
        return false;
    }
    are_there(callees, procedures) && differ(callees)
}

/// Whether what a statement names by number is there, and its operator is one of its form.
pub(crate) fn is_sound(kind: &StmtKind, counts: Counts) -> bool
    ensures { IsTrue result ↔ IsSoundStatement counts.variables counts.labels counts.procedures kind.now }
{
    let variables = counts.variables;
    match kind {
        StmtKind::Copy { target, value } => *target < variables && is_operand(*value, variables),
        StmtKind::Unary {
            target,
            op,
            operand,
        } => *target < variables && is_unary(*op) && is_operand(*operand, variables),
        StmtKind::Binary {
            op,
            target,
            left,
            right,
        } => *target < variables && is_binary(*op) && are_operands(*left, *right, variables),
        StmtKind::Goto { label } => *label < counts.labels,
        StmtKind::If { condition, label } => {
            is_operand(*condition, variables) && *label < counts.labels
        }
        StmtKind::IfFalse { condition, label } => {
            is_operand(*condition, variables) && *label < counts.labels
        }
        StmtKind::IfCompare {
            op,
            label,
            left,
            right,
        } => is_comparison(*op) && are_operands(*left, *right, variables) && *label < counts.labels,
        StmtKind::Call { callees } => is_call(callees.as_slice(), counts.procedures),
        StmtKind::Return => true,
        StmtKind::Read { target } => *target < variables,
        StmtKind::Print { value } => is_operand(*value, variables),
        StmtKind::Skip => true,
    }
}
