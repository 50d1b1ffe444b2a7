// Why a text is not kept.

use tac_lines::Refusal;

/// Why a text is not kept.
#[derive(Clone, Copy, Debug, PartialEq, Eq)]
pub enum KeepFault {
    /// The text is no program.
    Refused(Refusal),
    /// 21: the program has more points than the limits allow.
    TooManyPoints,
    /// 22: some analysis has more bits than the limits allow.
    TooManyBits,
    /// Memory was refused.
    OutOfMemory,
}
