use tac_program::{Op, Operand};

/// The right side of a unary or binary assignment. Two are the same expression where operator and operands are, in their
/// order; numbers are compared by value.
#[derive(Debug, Clone, Copy, PartialEq, Eq, Hash)]
pub enum Expr {
    /// `op operand`
    Unary(Op, Operand),
    /// `left op right`
    Binary(Operand, Op, Operand),
}
