ghost use Rattle.std.specs.Prelude.{◌≡◌, ◌≢◌, ℕ, ◌+◌, ◌*◌, ◌<◌, ◌≤◌, length, slice_index, IsOk, IfOk, MatchBool};
ghost use Rattle.bit_rows.specs.RowSet.{HasRange, IsWordOf, hi_of, contains, with_bit, with_word, with_words, empty_set, full_set, part_of, union};
ghost use Rattle.bit_rows.specs.RowSet.{intersection, difference, complement};
ghost use Rattle.bit_rows.specs.Words.{word_count, MaskLiesWithin};

use crate::OutOfMemory;
use crate::kernels::{
    and_words, flip_words, minus_words, or_words, or_words_from, trim, words_needed,
};
use smallvec::SmallVec;
use std::alloc::Global;
use std::marker::Model;

/// A set of bits within a range `lo..hi` of a universe of bits.
///
/// Bit `b` stands in word `b / 64` at place `b % 64`, counted from bit 0 of the universe, so two
/// rows whose ranges meet inside a word share that word's number.
#[derive(Debug, Drop)]
pub struct Row {
    lo: u32,
    hi: u32,
    words: SmallVec<u64, 2, Global>,
}

impl Model for Row {
    ghost use Rattle.std.specs.Prelude.{◌/◌};
    ghost use Rattle.bit_rows.specs.RowSet.{RowSet, set_of};
    ghost use Rattle.bit_rows.specs.Words.{AreRowWords, words_have};

    ghost Value = { RowSet };

    ghost view = { λ r. set_of r.lo r.hi (words_have r.words.items (r.lo / 64)) };

    ghost invariant = { λ r. AreRowWords r.lo r.hi r.words.items };
}

impl Row {
    /// The empty set within `lo..hi`.
    pub fn empty(alloc: Global, lo: u32, hi: u32) -> Result<Row, OutOfMemory>
        requires { lo ≤ hi }
        ensures value { IfOk result (λ row. row ≡ empty_set lo hi) }
        ensures small { word_count lo hi ≤ 2 → IsOk result }
    {
        let words = SmallVec::from_elem(alloc, 0, words_needed(lo, hi))?;
        Ok(Row { lo, hi, words })
    }

    /// The set of all bits of `lo..hi`.
    pub fn full(alloc: Global, lo: u32, hi: u32) -> Result<Row, OutOfMemory>
        requires { lo ≤ hi }
        ensures value { IfOk result (λ row. row ≡ full_set lo hi) }
        ensures small { word_count lo hi ≤ 2 → IsOk result }
    {
        let mut words = SmallVec::from_elem(alloc, u64::MAX, words_needed(lo, hi))?;
        trim(words.as_mut_slice(), lo, hi);
        Ok(Row { lo, hi, words })
    }

    /// The first bit of the range.
    pub fn lo(&self) -> u32
        ensures { result ≡ self.now.lo }
    {
        self.lo
    }

    /// The end of the range: one more than its last bit.
    pub fn hi(&self) -> u32
        ensures { result ≡ hi_of self.now }
    {
        self.hi
    }

    /// Whether bit `b` is in the set.
    pub fn get(&self, b: u32) -> bool
        requires low { self.now.lo ≤ b }
        requires high { b < hi_of self.now }
        ensures { result ≡ contains self.now b }
    {
        let word = self.words.as_slice()[(b / 64 - self.lo / 64) as usize];
        (word >> (b % 64)) & 1 == 1
    }

    /// Puts bit `b` into the set.
    pub fn set(&mut self, b: u32)
        requires low { self.old.lo ≤ b }
        requires high { b < hi_of self.old }
        ensures { self.new ≡ with_bit self.old b }
    {
        let at = (b / 64 - self.lo / 64) as usize;
        self.words.as_mut_slice()[at] |= 1 << (b % 64);
    }

    /// Word `w` of the universe: the bits `64 * w` to `64 * w + 63`, lowest first. Bits outside the
    /// range are 0.
    pub fn word(&self, w: u32) -> u64
        ensures { IsWordOf self.now w result }
    {
        let first = self.lo / 64;
        if w < first {
            return 0;
        }
        let at = (w - first) as usize;
        let words = self.words.as_slice();
        if at < words.len() { words[at] } else { 0 }
    }

    /// The part of the set within `lo..hi`. Each bit keeps its number, and its word's.
    pub fn cut(&self, alloc: Global, lo: u32, hi: u32) -> Result<Row, OutOfMemory>
        requires ordered { lo ≤ hi }
        requires low { self.now.lo ≤ lo }
        requires high { hi ≤ hi_of self.now }
        ensures value { IfOk result (λ row. row ≡ part_of self.now lo hi) }
        ensures small { word_count lo hi ≤ 2 → IsOk result }
    {
        let first = (lo / 64 - self.lo / 64) as usize;
        let end = first + words_needed(lo, hi);
        let mut words = SmallVec::from_slice(alloc, &self.words.as_slice()[first..end])?;
        trim(words.as_mut_slice(), lo, hi);
        Ok(Row { lo, hi, words })
    }

    /// The same set, in memory of its own.
    pub fn copy(&self, alloc: Global) -> Result<Row, OutOfMemory>
        ensures value { IfOk result (λ row. row ≡ self.now) }
        ensures small { word_count self.now.lo (hi_of self.now) ≤ 2 → IsOk result }
    {
        let words = SmallVec::from_slice(alloc, self.words.as_slice())?;
        Ok(Row {
            lo: self.lo,
            hi: self.hi,
            words,
        })
    }

    /// Puts in the bits of `other`. True exactly where that changed the set.
    pub fn or_into(&mut self, other: &Row) -> bool
        requires { HasRange other.now self.old.lo (hi_of self.old) }
        ensures value { self.new ≡ union self.old other.now }
        ensures changed { MatchBool result (self.new ≢ self.old) (self.new ≡ self.old) }
    {
        let ours = self.words.as_mut_slice();
        let theirs = other.words.as_slice();
        or_words(ours, theirs)
    }

    /// Puts in the bits of word `w` that are 1 in `mask`. True exactly where that changed the set.
    pub fn or_word(&mut self, w: u32, mask: u64) -> bool
        requires { MaskLiesWithin self.old.lo (hi_of self.old) w mask }
        ensures value { self.new ≡ with_word self.old w mask }
        ensures changed { MatchBool result (self.new ≢ self.old) (self.new ≡ self.old) }
    {
        if mask == 0 {
            return false;
        }
        let at = (w - self.lo / 64) as usize;
        let words = self.words.as_mut_slice();
        let before = words[at];
        words[at] = before | mask;
        before | mask != before
    }

    /// Puts in the bits of the words `first..first + masks.len()` that are 1 in `masks`.
    pub fn or_words(&mut self, first: u32, masks: &[u64])
        requires { (k : ℕ) → k < length masks.now
            → MaskLiesWithin self.old.lo (hi_of self.old) (first + k) (slice_index masks.now k) }
        ensures { self.new ≡ with_words self.old first masks.now }
    {
        let words = self.words.as_mut_slice();
        or_words_from(words, self.lo / 64, masks, first);
    }

    /// Takes out the bits of `other`.
    pub fn minus(&mut self, other: &Row)
        requires { HasRange other.now self.old.lo (hi_of self.old) }
        ensures { self.new ≡ difference self.old other.now }
    {
        let ours = self.words.as_mut_slice();
        let theirs = other.words.as_slice();
        minus_words(ours, theirs);
    }

    /// Takes out the bits that are not in `other`.
    pub fn and(&mut self, other: &Row)
        requires { HasRange other.now self.old.lo (hi_of self.old) }
        ensures { self.new ≡ intersection self.old other.now }
    {
        let ours = self.words.as_mut_slice();
        let theirs = other.words.as_slice();
        and_words(ours, theirs);
    }

    /// Takes out the bits that are in the set, and puts in the others of its range.
    pub fn flip(&mut self)
        ensures { self.new ≡ complement self.old }
    {
        let words = self.words.as_mut_slice();
        flip_words(words);
        trim(words, self.lo, self.hi);
    }
}
