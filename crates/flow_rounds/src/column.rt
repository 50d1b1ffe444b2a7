// A bit at the points of a procedure.

ghost use Rattle.std.specs.Prelude.{◌≡◌};

use std::marker::Model;

/// Of a bit whether the set of each point has it.
#[derive(Drop)]
pub(crate) struct Column {
    pub(crate) bits: Vec<bool>,
}

impl Model for Column {
    ghost use Rattle.std.specs.Prelude.{Bool, List};

    ghost Value = { List Bool };

    ghost view = { λ column. column.bits.items };
}

impl Column {
    /// The truth values, point by point.
    pub(crate) fn as_slice(&self) -> &[bool]
        ensures { result.now ≡ self.now }
    {
        self.bits.as_slice()
    }
}
