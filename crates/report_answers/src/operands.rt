// What a statement does with variables.

ghost use Rattle.std.specs.Prelude.{◌≡◌, ℕ, [], ◌∷◌, nat_eq};
ghost use Rattle.std.specs.List.{list_any};
ghost use Rattle.std.specs.List.Sorted.{IsStrictlyIncreasing};
ghost use Rattle.flow_graph.specs.Transfers.{names_variable, operands_of};
ghost use Rattle.report_answers.specs.code.Operands.{numbers_of};
ghost use Rattle.report_answers.specs.Statements.{assigned as assigned_by, is_test as is_test_of};

use tac_program::{Operand, StmtKind};

/// The variables that a statement reads, each once, in the order of their numbers.
#[derive(Clone, Copy)]
pub enum VariablesRead {
    None,
    One(u32),
    Two(u32, u32),
}

fn read_of_two(left: u32, right: u32) -> VariablesRead
    ensures rising { IsStrictlyIncreasing (numbers_of result) }
    ensures read { (variable : ℕ) → list_any (nat_eq variable) (numbers_of result) ≡ list_any (nat_eq variable) (left ∷ right ∷ []) }
{
    if left < right {
        VariablesRead::Two(left, right)
    } else if right < left {
        VariablesRead::Two(right, left)
    } else {
        VariablesRead::One(left)
    }
}

fn read_by_operand(operand: Operand) -> VariablesRead
    ensures rising { IsStrictlyIncreasing (numbers_of result) }
    ensures read { (variable : ℕ) → list_any (nat_eq variable) (numbers_of result) ≡ list_any (names_variable variable) (operand ∷ []) }
{
    match operand {
        Operand::Variable(variable) => VariablesRead::One(variable),
        Operand::Number(_) => VariablesRead::None,
    }
}

fn read_by_operands(left: Operand, right: Operand) -> VariablesRead
    ensures rising { IsStrictlyIncreasing (numbers_of result) }
    ensures read { (variable : ℕ) → list_any (nat_eq variable) (numbers_of result) ≡ list_any (names_variable variable) (left ∷ right ∷ []) }
{
    match left {
        Operand::Number(_) => read_by_operand(right),
        Operand::Variable(first) => match right {
            Operand::Number(_) => VariablesRead::One(first),
            Operand::Variable(second) => read_of_two(first, second),
        },
    }
}

/// The variables that a statement reads.
pub fn variables_read(kind: &StmtKind) -> VariablesRead
    ensures rising { IsStrictlyIncreasing (numbers_of result) }
    ensures read { (variable : ℕ) → list_any (nat_eq variable) (numbers_of result) ≡ list_any (names_variable variable) (operands_of kind.now) }
{
    match kind {
        StmtKind::Copy { value, .. } => read_by_operand(*value),
        StmtKind::Unary { operand, .. } => read_by_operand(*operand),
        StmtKind::Binary { left, right, .. } => read_by_operands(*left, *right),
        StmtKind::Goto { .. } => VariablesRead::None,
        StmtKind::If { condition, .. } => read_by_operand(*condition),
        StmtKind::IfFalse { condition, .. } => read_by_operand(*condition),
        StmtKind::IfCompare { left, right, .. } => read_by_operands(*left, *right),
        StmtKind::Call { .. } => VariablesRead::None,
        StmtKind::Return => VariablesRead::None,
        StmtKind::Read { .. } => VariablesRead::None,
        StmtKind::Print { value } => read_by_operand(*value),
        StmtKind::Skip => VariablesRead::None,
    }
}

/// The variable that an assignment sets; a value that is read from outside is not assigned.
pub fn assigned_variable(kind: &StmtKind) -> Option<u32>
    ensures { result ≡ assigned_by kind.now }
{
    match kind {
        StmtKind::Copy { target, .. } => Some(*target),
        StmtKind::Unary { target, .. } => Some(*target),
        StmtKind::Binary { target, .. } => Some(*target),
        StmtKind::Goto { .. } => None,
        StmtKind::If { .. } => None,
        StmtKind::IfFalse { .. } => None,
        StmtKind::IfCompare { .. } => None,
        StmtKind::Call { .. } => None,
        StmtKind::Return => None,
        StmtKind::Read { .. } => None,
        StmtKind::Print { .. } => None,
        StmtKind::Skip => None,
    }
}

/// Whether a statement is a test, a negated test or a comparison.
pub fn is_test(kind: &StmtKind) -> bool
    ensures { result ≡ is_test_of kind.now }
{
    match kind {
        StmtKind::Copy { .. } => false,
        StmtKind::Unary { .. } => false,
        StmtKind::Binary { .. } => false,
        StmtKind::Goto { .. } => false,
        StmtKind::If { .. } => true,
        StmtKind::IfFalse { .. } => true,
        StmtKind::IfCompare { .. } => true,
        StmtKind::Call { .. } => false,
        StmtKind::Return => false,
        StmtKind::Read { .. } => false,
        StmtKind::Print { .. } => false,
        StmtKind::Skip => false,
    }
}
