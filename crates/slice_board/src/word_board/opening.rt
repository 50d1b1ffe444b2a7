// How a board begins.
ghost use Rattle.std.specs.Prelude.{◌≡◌, ℕ, ◌+◌, ◌*◌, ◌^◌, ◌<◌, length, vec_len, IfOk};
ghost use Rattle.bit_rows.specs.RowTable.{blank_table};
ghost use Rattle.slice_board.specs.Boards.{fresh_pass, words_for};

use super::WordBoard;
use crate::OutOfMemory;
use crate::pass::Pass;
use crate::rule::{Key, Wanted};
use atomic_table::Table;
use bit_rows::{Cut, words_for};
use std::alloc::Global;
use std::snapshot::Snapshot;

impl<T: Wanted> WordBoard<T> {
    /// A board without claims and marks, with a point for each flag, and a pass of it with empty lists.
    ///
    /// `close` hands out the flags, unchanged.
    pub fn open(
        alloc: Global,
        wanted: &T,
        flags: Vec<bool>,
        cut: Cut,
    ) -> Result<(WordBoard<T>, Pass<T>), OutOfMemory>
        requires points { vec_len flags < 2 ^ 32 }
        requires within { (point bit : ℕ) → T.wants wanted.now point bit
            → (point < length flags.items) × (bit < cut.bits) }
        ensures wanted { IfOk result (λ r. r.0.wanted ≡ wanted.now) }
        ensures cut { IfOk result (λ r. r.0.cut ≡ cut) }
        ensures blank { IfOk result (λ r. r.0.blank ≡ blank_table flags.items 0 cut.bits) }
        ensures pass { IfOk result (λ r. r.1 ≡ fresh_pass r.0) }
    {
        let key = Key {
            wanted: Snapshot::of(wanted),
            points: flags.len() as u32,
            cut: Snapshot::of(&cut),
        };
        let tallies = 2 * words_for(cut.slices()) as usize;
        let rows = flags.len() * words_for(cut.bits()) as usize;
        let words = Vec::from_elem(alloc, 0, tallies + rows + 1)?;
        let (table, seat) = Table::of_words(alloc, words.as_slice(), &key)?;
        let board = WordBoard { table, cut, flags };
        let pass = Pass {
            seat,
            next: 0,
            held: None,
        };
        Ok((board, pass))
    }
}
