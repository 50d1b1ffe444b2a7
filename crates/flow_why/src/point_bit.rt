// Bits of one's own.
ghost use Rattle.std.specs.Prelude.{◌≡◌, false, slice_index_or};

use std::marker::Model;

/// A bit of one's own, which some statements generate and some kill. A statement that does both generates it: what it generates is there
/// behind it.
#[derive(Drop)]
pub struct PointBit<'b> {
    gens: &'b [u32],
    kills: &'b [bool],
    boundary: bool,
}

impl<'b> Model for PointBit<'b> {
    ghost use Rattle.flow_why.specs.PointBits.{StatementBit};

    ghost Value = { StatementBit };

    ghost view = { λ bit. record { gens = bit.gens.now; kills = bit.kills.now; boundary = bit.boundary } };
}

impl<'b> PointBit<'b> {
    /// The bit that the statements at some points generate, in any order, and that the statements kill whose points are marked. Points
    /// that are not there, or have no mark, stand for nothing. The boundary has the bit, or has it not: where a search forwards begins,
    /// the beginning of `main`, and where one backwards does, its end.
    pub fn new(gens: &'b [u32], kills: &'b [bool], boundary: bool) -> Self
        ensures { result ≡ record { gens = gens.now; kills = kills.now; boundary = boundary } }
    {
        PointBit {
            gens,
            kills,
            boundary,
        }
    }

    /// The points whose statements generate the bit.
    pub fn gens(&self) -> &'b [u32]
        ensures { result.now ≡ self.now.gens }
    {
        self.gens
    }

    /// Whether the statement at a point kills the bit.
    pub fn is_killed_at(&self, point: u32) -> bool
        ensures { result ≡ slice_index_or self.now.kills point false }
    {
        match self.kills.get(point as usize) {
            Some(kills) => *kills,
            None => false,
        }
    }

    /// Whether the boundary has the bit.
    pub fn in_boundary(&self) -> bool
        ensures { result ≡ self.now.boundary }
    {
        self.boundary
    }
}
