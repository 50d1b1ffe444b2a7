// What a statement does with the bits of an analysis, and how it is kept.
ghost use Rattle.std.specs.Prelude.{◌≡◌};
ghost use Rattle.gen_kill.specs.code.KeptEffects.{number_if};

use std::marker::Model;

/// What the statement at a point does with the bits of an analysis.
#[derive(Debug, Clone, Copy, PartialEq, Eq)]
pub struct Effect {
    /// The columns of its own, two at most.
    pub first: Option<u32>,
    pub second: Option<u32>,
    /// The variable that it writes.
    pub written: Option<u32>,
}

/// An effect in 16 bytes, where an [`Effect`] takes 24: there is one for each point and analysis.
#[derive(Drop)]
pub(crate) struct KeptEffect {
    first: u32,
    second: u32,
    written: u32,
    has_first: bool,
    has_second: bool,
    has_written: bool,
}

impl Model for KeptEffect {
    ghost use Rattle.gen_kill.specs.code.KeptEffects.{number_if};
    ghost use Rattle.gen_kill.specs.declared.effect.Effect.{Effect};

    ghost Value = { Effect };

    ghost view = { λ kept. record {
      first = number_if kept.has_first kept.first;
      second = number_if kept.has_second kept.second;
      written = number_if kept.has_written kept.written;
    } };
}

// A number, where there is one.
fn number_if(there: bool, number: u32) -> Option<u32>
    ensures { result ≡ number_if there number }
{
    if there { Some(number) } else { None }
}

impl KeptEffect {
    /// The effect, as it is kept.
    pub(crate) fn of(effect: Effect) -> KeptEffect
        ensures { result ≡ effect }
    {
        KeptEffect {
            first: effect.first.unwrap_or(0),
            second: effect.second.unwrap_or(0),
            written: effect.written.unwrap_or(0),
            has_first: effect.first.is_some(),
            has_second: effect.second.is_some(),
            has_written: effect.written.is_some(),
        }
    }

    /// The effect.
    pub(crate) fn effect(&self) -> Effect
        ensures { result ≡ self.now }
    {
        Effect {
            first: number_if(self.has_first, self.first),
            second: number_if(self.has_second, self.second),
            written: number_if(self.has_written, self.written),
        }
    }
}
