ghost use Rattle.std.specs.Prelude.{◌≡◌};

use crate::rule::{Key, Law, Wanted};
use crate::view::View;
use atomic_table::Table;
use bit_rows::Cut;
use std::alloc::Global;
use std::marker::Model;

mod closing;
mod opening;
mod steps;

pub use closing::Unfinished;

/// A board that many threads share through a `&`: which slices are claimed and which are finished, and
/// for each point a set of bits, in words that only grow. It closes into these very words.
///
/// Between any two steps of any threads it is lawful (`Lawful`): no slice is claimed twice, no posted
/// bit is lost, nothing is there that is not wanted, and where a slice is finished, all is there that is
/// wanted of it.
#[derive(Drop)]
pub struct WordBoard<T: Wanted> {
    table: Table<(), View<T>, Key<T>, Law<T>, Global>,
    cut: Cut,
    flags: Vec<bool>,
}

impl<T: Wanted> Model for WordBoard<T> {
    ghost use Rattle.bit_rows.specs.RowTable.{blank_table};
    ghost use Rattle.slice_board.specs.Boards.{BoardState};
    ghost use Rattle.slice_board.specs.code.Fields.{IsLaid};

    ghost Value = { BoardState T };

    ghost view = { λ b. record {
      table = b.table.shared.table_id;
      wanted = b.table.shared.key.wanted.value;
      cut = b.cut;
      blank = blank_table b.flags.items 0 b.cut.bits;
    } };

    ghost invariant = { λ b. IsLaid T.wants b.table.shared.table_id b.table.shared.key b.cut
        (blank_table b.flags.items 0 b.cut.bits) };
}

impl<T: Wanted> WordBoard<T> {
    /// How the bits are cut into slices.
    pub fn cut(&self) -> &Cut
        ensures { result.now ≡ self.now.cut }
    {
        &self.cut
    }
}
