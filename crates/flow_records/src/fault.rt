// Why there is no answer.

use flow_graph::OutOfMemory;
use tac_lines::Refusal;

/// Why there is no answer.
#[derive(Clone, Copy)]
pub enum Fault {
    /// The text is no program.
    Refused(Refusal),
    /// It has more points than a graph may have.
    TooManyPoints,
    /// It has more bits in some analysis than a graph may have.
    TooManyBits,
    /// Memory was refused.
    OutOfMemory,
    /// There are no limits of this number.
    BadLimits,
    /// There is no analysis of this number.
    BadAnalysis,
    /// The points are none of the program, the bits none of the analysis, or the part none of a report.
    BadRange,
    /// The room does not fit the answer.
    BadRoom,
    /// The handle is closed where it has to be open, or open where it has to be closed.
    BadHandle,
}

impl From<OutOfMemory> for Fault {
    ghost use Rattle.std.specs.Prelude.{◌≡◌};
    ghost use Rattle.flow_records.specs.declared.fault.Fault.TheVariants as fault;

    ghost from_gives = { λ _ e. e ≡ fault.OutOfMemory };

    fn from(_no_memory: OutOfMemory) -> Fault {
        Fault::OutOfMemory
    }
}
