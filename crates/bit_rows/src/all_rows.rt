ghost use Rattle.std.specs.Prelude.{◌≡◌, ◌≢◌, ℕ, ◌+◌, ◌^◌, ◌<◌, ◌≤◌, length, slice_index, vec_len, IfOk, MatchBool};
ghost use Rattle.bit_rows.specs.RowSet.{HasRange, union, complement, with_word, with_words};
ghost use Rattle.bit_rows.specs.RowTable.{IsUniform, flag_at, set_at, blank_table, with_set};
ghost use Rattle.bit_rows.specs.Words.{MaskLiesWithin};

use crate::{OutOfMemory, Row};
use std::alloc::Global;
use std::marker::Model;

/// A row and a path flag for each of many points, all rows over the same range `lo..hi`.
///
/// Flags and ranges never change.
#[derive(Debug, Drop)]
pub struct Rows {
    lo: u32,
    hi: u32,
    flags: Vec<bool>,
    rows: Vec<Row>,
}

impl Model for Rows {
    ghost use Rattle.std.specs.Prelude.{◌^◌, ◌<◌, length};
    ghost use Rattle.bit_rows.specs.RowTable.{RowTable, IsUniform, table};

    ghost Value = { RowTable };

    ghost view = { λ t. table t.lo t.hi t.flags.items t.rows.items };

    ghost invariant = { λ t. IsUniform (table t.lo t.hi t.flags.items t.rows.items)
        × (length t.flags.items < 2 ^ 32) };
}

impl Rows {
    /// An empty row over `lo..hi` for each flag.
    pub fn blank(alloc: Global, flags: Vec<bool>, lo: u32, hi: u32) -> Result<Rows, OutOfMemory>
        requires ordered { lo ≤ hi }
        requires points { vec_len flags < 2 ^ 32 }
        ensures { IfOk result (λ rows. rows ≡ blank_table flags.items lo hi) }
    {
        let mut rows = Vec::with_capacity(alloc, flags.len())?;
        for _ in 0..flags.len() {
            rows.push(Row::empty(alloc, lo, hi)?)?;
        }
        Ok(Rows {
            lo,
            hi,
            flags,
            rows,
        })
    }

    /// How many points there are.
    pub fn points(&self) -> u32
        ensures count { result ≡ length self.now.flags }
        ensures uniform { IsUniform self.now }
    {
        self.flags.len() as u32
    }

    /// The first bit of every row's range.
    pub fn lo(&self) -> u32
        ensures { result ≡ self.now.lo }
    {
        self.lo
    }

    /// The end of every row's range: one more than its last bit.
    pub fn hi(&self) -> u32
        ensures { result ≡ self.now.hi }
    {
        self.hi
    }

    /// The point's path flag.
    pub fn flag(&self, point: u32) -> bool
        requires { point < length self.now.flags }
        ensures { result ≡ flag_at self.now point }
    {
        self.flags[point as usize]
    }

    /// The point's row.
    pub fn row(&self, point: u32) -> &Row
        requires { point < length self.now.flags }
        ensures value { result.now ≡ set_at self.now point }
        ensures range { HasRange result.now self.now.lo self.now.hi }
    {
        &self.rows[point as usize]
    }

    /// Puts the bits of `other` into the point's row. True exactly where that changed the row.
    pub fn or_row(&mut self, point: u32, other: &Row) -> bool
        requires point { point < length self.old.flags }
        requires range { HasRange other.now self.old.lo self.old.hi }
        ensures value { self.new ≡ with_set self.old point (union (set_at self.old point) other.now) }
        ensures changed { MatchBool result (self.new ≢ self.old) (self.new ≡ self.old) }
    {
        let row = &mut self.rows[point as usize];
        row.or_into(other)
    }

    /// Puts the bits of word `word` that are 1 in `mask` into the point's row. True exactly where
    /// that changed the row.
    pub fn or_word(&mut self, point: u32, word: u32, mask: u64) -> bool
        requires point { point < length self.old.flags }
        requires mask { MaskLiesWithin self.old.lo self.old.hi word mask }
        ensures value { self.new
            ≡ with_set self.old point (with_word (set_at self.old point) word mask) }
        ensures changed { MatchBool result (self.new ≢ self.old) (self.new ≡ self.old) }
    {
        let row = &mut self.rows[point as usize];
        row.or_word(word, mask)
    }

    /// Puts the bits of the words `first..first + masks.len()` that are 1 in `masks` into the point's
    /// row.
    pub fn or_words(&mut self, point: u32, first: u32, masks: &[u64])
        requires point { point < length self.old.flags }
        requires masks { (k : ℕ) → k < length masks.now
            → MaskLiesWithin self.old.lo self.old.hi (first + k) (slice_index masks.now k) }
        ensures { self.new
            ≡ with_set self.old point (with_words (set_at self.old point) first masks.now) }
    {
        let row = &mut self.rows[point as usize];
        row.or_words(first, masks);
    }

    /// Takes out of the point's row the bits that are in it, and puts in the others of its range.
    pub fn flip_row(&mut self, point: u32)
        requires { point < length self.old.flags }
        ensures { self.new ≡ with_set self.old point (complement (set_at self.old point)) }
    {
        let row = &mut self.rows[point as usize];
        row.flip();
    }
}
