ghost use Rattle.std.specs.Prelude.{◌≡◌, ℕ, ◌<◌, ◌↔◌, length, true};
ghost use Rattle.std.specs.Mem.Slots.{slots_items, slots_len, IsFull};
ghost use Rattle.bit_rows.specs.RowSet.{IsWordOf, contains};
ghost use Rattle.bit_rows.specs.RowTable.{flag_at, set_at, blank_table};
ghost use Rattle.slice_board.specs.code.Worded.{ArePosted, word_of, worded_table};

use crate::filling::put_rows;
use atomic_table::Closed;
use bit_rows::{Rows, words_for};
use std::alloc::Global;
use std::marker::Model;

/// What a board closed into: a flag for each point, and the very words that were posted, over `0..bits`.
pub struct PostedWords {
    closed: Closed<(), Global>,
    flags: Vec<bool>,
    bits: u32,
    // Where the points' words begin: those before them say which slices were claimed and finished.
    first: usize,
}

impl Model for PostedWords {
    ghost use Rattle.std.specs.Prelude.{◌≡◌, length};
    ghost use Rattle.std.specs.Mem.Slots.{slots_items, slots_len, IsFull};
    ghost use Rattle.bit_rows.specs.RowTable.{RowTable};
    ghost use Rattle.slice_board.specs.code.Worded.{ArePosted, word_of, worded_table};

    ghost Value = { RowTable };

    ghost view = { λ p. worded_table p.bits p.flags.items
        (word_of (slots_items p.closed.words) p.first (length p.flags.items)) };

    ghost invariant = { λ p. IsFull p.closed.words × (slots_len p.closed.slots ≡ 0)
        × ArePosted (slots_items p.closed.words) (slots_len p.closed.words) p.first (length p.flags.items) p.bits };
}

impl PostedWords {
    // The words of a closed table from `first` on.
    pub(crate) fn of(
        closed: Closed<(), Global>,
        flags: Vec<bool>,
        bits: u32,
        first: usize,
    ) -> PostedWords
        requires full { IsFull closed.words }
        requires no_slots { slots_len closed.slots ≡ 0 }
        requires posted { ArePosted (slots_items closed.words) (slots_len closed.words) first (length flags.items) bits }
        ensures { result ≡ worded_table bits flags.items (word_of (slots_items closed.words) first (length flags.items)) }
    {
        PostedWords {
            closed,
            flags,
            bits,
            first,
        }
    }

    /// How many points there are.
    pub fn points(&self) -> u32
        ensures { result ≡ length self.now.flags }
    {
        self.flags.len() as u32
    }

    /// How many bits the sets are over: none has another.
    pub fn bits(&self) -> u32
        ensures value { result ≡ self.now.hi }
        ensures within { (point bit : ℕ) → contains (set_at self.now point) bit ≡ true → bit < self.now.hi }
    {
        self.bits
    }

    /// The point's flag.
    pub fn flag(&self, point: u32) -> bool
        requires { point < length self.now.flags }
        ensures { result ≡ flag_at self.now point }
    {
        self.flags[point as usize]
    }

    /// A word of the point's set, 0 at all places past the last bit.
    pub fn word(&self, point: u32, word: u32) -> u64
        requires { point < length self.now.flags }
        ensures { IsWordOf (set_at self.now point) word result }
    {
        if word >= words_for(self.bits) {
            return 0;
        }
        let row = self.first + point as usize;
        self.closed.word(row + word as usize * self.flags.len())
    }

    /// Puts the bits of all points into blank rows.
    pub fn put_into(&self, rows: &mut Rows)
        requires { rows.old ≡ blank_table self.now.flags 0 self.now.hi }
        ensures flags { rows.new.flags ≡ self.now.flags }
        ensures range { (rows.new.lo ≡ 0) × (rows.new.hi ≡ self.now.hi) }
        ensures bits { (point bit : ℕ) → (contains (set_at rows.new point) bit ≡ true) ↔ (contains (set_at self.now point) bit ≡ true) }
    {
        put_rows(&self.closed, rows, self.first);
    }
}

impl Drop for PostedWords {
    fn drop(self) {
        let PostedWords {
            closed,
            flags: _,
            bits: _,
            first: _,
        } = self;
        closed.free();
    }
}
