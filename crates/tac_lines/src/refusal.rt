// Why a text is no program, and where.

ghost use Rattle.std.specs.Prelude.{◌≡◌};
ghost use Rattle.tac_lines.specs.LineFaults.{number_of_kind};

use std::fmt;
use thiserror::Error;

/// Why a text is refused. `docs/LANGUAGE.md` has the place of each.
#[derive(Clone, Copy, Debug, PartialEq, Eq)]
pub enum RefusalKind {
    /// 1: a byte outside a comment that is no blank and begins no token.
    BadByte,
    /// 2: a number above 9223372036854775807.
    NumberTooLarge,
    /// 3: a name of more than 64 bytes.
    NameTooLong,
    /// 4: the line is no line form.
    Syntax,
    /// 5: the text ends inside a procedure.
    Unclosed,
    /// 6: there is no procedure `main`.
    NoMain,
    /// 7: a name that an earlier procedure has.
    DuplicateProcedure,
    /// 8: a label that the procedure has already.
    DuplicateLabel,
    /// 9: a jump to a label that the procedure lacks.
    UnknownLabel,
    /// 10: a call of a name that no procedure has.
    UnknownProcedure,
    /// 11: more bytes than the limits allow, the standard ones 1,048,576.
    TextTooLong,
    /// 12: more procedures than the limits allow, the standard ones 256.
    TooManyProcedures,
    /// 13: a name that stands earlier in the same call.
    DuplicateCallee,
}

impl RefusalKind {
    /// Its number.
    pub fn number(self) -> u8
        ensures { result ≡ number_of_kind self }
    {
        match self {
            RefusalKind::BadByte => 1,
            RefusalKind::NumberTooLarge => 2,
            RefusalKind::NameTooLong => 3,
            RefusalKind::Syntax => 4,
            RefusalKind::Unclosed => 5,
            RefusalKind::NoMain => 6,
            RefusalKind::DuplicateProcedure => 7,
            RefusalKind::DuplicateLabel => 8,
            RefusalKind::UnknownLabel => 9,
            RefusalKind::UnknownProcedure => 10,
            RefusalKind::TextTooLong => 11,
            RefusalKind::TooManyProcedures => 12,
            RefusalKind::DuplicateCallee => 13,
        }
    }
}

/// Why a text is no program, and where its first fault stands: the line and the column from 1, the
/// column in bytes.
#[derive(Clone, Copy, Debug, PartialEq, Eq)]
pub struct Refusal {
    pub kind: RefusalKind,
    pub line: u32,
    pub column: u32,
}

impl fmt::Display for RefusalKind {
    /// Its name.
    fn fmt<W: fmt::Write>(&self, f: &mut fmt::Formatter<W>) -> fmt::Result {
        write!(f, "{self:?}")
    }
}

impl fmt::Display for Refusal {
    fn fmt<W: fmt::Write>(&self, f: &mut fmt::Formatter<W>) -> fmt::Result {
        write!(
            f,
            "{}:{}: refusal {}: {}",
            self.line,
            self.column,
            self.kind.number(),
            self.kind
        )
    }
}

/// Why a text was not read.
#[derive(Debug, Drop, Error)]
pub enum ReadFault {
    /// The text is no program.
    #[error("{0}")]
    Refused(Refusal),
    /// Memory was refused.
    #[error("out of memory")]
    OutOfMemory,
}
