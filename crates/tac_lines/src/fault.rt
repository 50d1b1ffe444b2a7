// A fault of a text, by its place.

use crate::OutOfMemory;
use crate::refusal::RefusalKind;

/// A fault, and the number of bytes before it.
#[derive(Clone, Copy)]
pub struct Fault {
    pub kind: RefusalKind,
    pub place: u32,
}

/// Why a check did not go on: a fault of the text, or want of memory.
#[derive(Clone, Copy)]
pub enum Stop {
    Fault(Fault),
    OutOfMemory,
}

impl From<OutOfMemory> for Stop {
    ghost use Rattle.std.specs.Prelude.{◌≡◌};
    ghost use Rattle.tac_lines.specs.declared.fault.Stop.TheVariants.{OutOfMemory};

    ghost from_gives = { λ _ stop. stop ≡ OutOfMemory };

    fn from(_: OutOfMemory) -> Self {
        Stop::OutOfMemory
    }
}
