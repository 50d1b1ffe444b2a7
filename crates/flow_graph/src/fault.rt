use crate::OutOfMemory;
use thiserror::Error;

/// Why a program has no graph.
#[derive(Clone, Copy, Debug, Drop, PartialEq, Eq, Error)]
pub enum GraphFault {
    /// 21: the program has more points than the limits allow.
    #[error("refusal 21: TooManyPoints")]
    TooManyPoints,
    /// 22: some analysis has more bits than the limits allow.
    #[error("refusal 22: TooManyBits")]
    TooManyBits,
    /// Memory was refused.
    #[error("out of memory")]
    OutOfMemory,
}

impl From<OutOfMemory> for GraphFault {
    ghost use Rattle.std.specs.Prelude.{◌≡◌};
    ghost use Rattle.flow_graph.specs.declared.fault.GraphFault.TheVariants as fault;

    ghost from_gives = { λ _ e. e ≡ fault.OutOfMemory };

    fn from(_no_memory: OutOfMemory) -> GraphFault {
        GraphFault::OutOfMemory
    }
}
