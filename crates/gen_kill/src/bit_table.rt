// Rows of bits, in one block of words.

ghost use Rattle.std.specs.Prelude.{◌≡◌, ◌+◌, ◌*◌, ◌/◌, ◌<◌, ◌≤◌, ◌||◌, ◌&&◌, ℕ, length, IfOk, nat_eq, false};
ghost use Rattle.bit_rows.specs.Words.{has_bit};
ghost use Rattle.gen_kill.specs.code.BitTables.{HasRow, IsBlank, table_has};
ghost use Rattle.tac_program.specs.Limits.{most_variables};
ghost use Rattle.tac_program.specs.declared.limits.Limits.TheVariants.{Large};

use crate::OutOfMemory;
use bit_rows::words_for;
use std::alloc::Global;

/// A block of rows of bits. Bit `b` of a row stands in its word `b / 64`, at place `b % 64`.
#[derive(Drop)]
pub struct BitTable {
    /// The number that the first word of each row stands for.
    pub first: u32,
    /// How many words a row has.
    pub width: usize,
    /// The words, row after row.
    pub words: Vec<u64>,
}

impl BitTable {
    /// So many rows, each of so many bits, and none set.
    pub(crate) fn blank(alloc: Global, rows: u32, bits: u32) -> Result<BitTable, OutOfMemory>
        requires rows { rows ≤ most_variables Large }
        requires bits { bits ≤ 512 }
        ensures { IfOk result (λ t. IsBlank rows bits t.words.items t.width) }
    {
        let width = words_for(bits) as usize;
        let mut words = Vec::new(alloc);
        words.resize(rows as usize * width, 0)?;
        Ok(BitTable {
            first: 0,
            width,
            words,
        })
    }

    /// Clears all bits.
    pub(crate) fn clear(&mut self)
        ensures width { self.new.width ≡ self.old.width }
        ensures count { length self.new.words.items ≡ length self.old.words.items }
        ensures bits { (r b : ℕ) → table_has self.new.words.items self.new.width r b ≡ false }
    {
        self.words.fill(0);
    }

    /// Sets a bit of a row.
    pub(crate) fn set(&mut self, row: u32, bit: u32)
        requires row { HasRow self.old.words.items self.old.width row }
        requires bit { bit / 64 < self.old.width }
        ensures width { self.new.width ≡ self.old.width }
        ensures count { length self.new.words.items ≡ length self.old.words.items }
        ensures bits { (r b : ℕ) → b / 64 < self.old.width → table_has self.new.words.items self.new.width r b
            ≡ (table_has self.old.words.items self.old.width r b || (nat_eq r row && nat_eq b bit)) }
    {
        let at = row as usize * self.width + (bit / 64) as usize;
        self.words[at] |= 1 << (bit % 64);
    }

    /// A word of a row.
    pub(crate) fn word(&self, row: u32, word: u32) -> u64
        requires { HasRow self.now.words.items self.now.width row }
        ensures { (k : ℕ) → k < 64 → word < self.now.width → has_bit result k ≡ table_has self.now.words.items self.now.width row (64 * word + k) }
    {
        if (word as usize) < self.width {
            self.words[row as usize * self.width + word as usize]
        } else {
            0
        }
    }
}
