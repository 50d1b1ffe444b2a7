// Operators and operands by their numbers.

ghost use Rattle.std.specs.Prelude.{◌≡◌};
ghost use Rattle.flow_builder.specs.Built.{operand_at, operator_at};

use crate::arrays::BuiltOperand;
use tac_program::{Op, Operand};

/// The operator of a number.
pub(crate) fn operator(number: u32) -> Option<Op>
    ensures { result ≡ operator_at number }
{
    match number {
        0 => Some(Op::Plus),
        1 => Some(Op::Minus),
        2 => Some(Op::Star),
        3 => Some(Op::Slash),
        4 => Some(Op::Percent),
        5 => Some(Op::And),
        6 => Some(Op::Or),
        7 => Some(Op::Caret),
        8 => Some(Op::ShiftLeft),
        9 => Some(Op::ShiftRight),
        10 => Some(Op::Less),
        11 => Some(Op::LessEqual),
        12 => Some(Op::Greater),
        13 => Some(Op::GreaterEqual),
        14 => Some(Op::Equal),
        15 => Some(Op::NotEqual),
        16 => Some(Op::Tilde),
        17 => Some(Op::Bang),
        _ => None,
    }
}

/// The operand of numbers.
pub(crate) fn operand(built: BuiltOperand) -> Option<Operand>
    ensures { result ≡ operand_at built }
{
    match built.kind {
        1 => Some(Operand::Variable(built.variable)),
        2 => Some(Operand::Number(built.number)),
        _ => None,
    }
}
