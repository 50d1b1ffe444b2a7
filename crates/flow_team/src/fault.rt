use crate::OutOfMemory;
use thiserror::Error;

/// Why a program was not analysed.
#[derive(Clone, Copy, Debug, Drop, PartialEq, Eq, Error)]
pub enum TeamFault {
    /// 33: the number of workers is not one of 1 to 64.
    #[error("33: the number of workers is not one of 1 to 64")]
    BadWorkers,
    /// Memory was refused, or a worker could not be started.
    #[error("out of memory")]
    OutOfMemory,
}

impl From<OutOfMemory> for TeamFault {
    ghost use Rattle.std.specs.Prelude.{◌≡◌};
    ghost use Rattle.flow_team.specs.declared.fault.TeamFault.TheVariants as fault;

    ghost from_gives = { λ _ e. e ≡ fault.OutOfMemory };

    fn from(_no_memory: OutOfMemory) -> TeamFault {
        TeamFault::OutOfMemory
    }
}
