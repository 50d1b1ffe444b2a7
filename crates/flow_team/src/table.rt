ghost use Rattle.std.specs.Prelude.{◌≡◌, ℕ, ◌+◌, ◌*◌, ◌≤◌, ◌<◌, false, length};
ghost use Rattle.bit_rows.specs.Words.{has_bit};
ghost use Rattle.flow_team.specs.Tables.{facts_of};
ghost use Rattle.flow_team.specs.code.Complements.{table_facts};

use crate::complemented_words::ComplementedWords;
use flow_graph::Analysis;
use std::marker::Model;

/// The table of an analysis: for each point of a program whether it has a valid path, and the set of the bits that hold
/// there (Aho, Lam, Sethi, Ullman, 2nd edition, 9.2 and 9.5; over valid paths as in Reps, Horwitz, Sagiv 1995). A table of some
/// points (`table_at`) says of those before them that there is no path and no bit.
#[derive(Drop)]
pub struct Table {
    analysis: Analysis,
    words: ComplementedWords,
    first: u32,
}

impl Model for Table {
    ghost use Rattle.flow_team.specs.Tables.{TableFacts};
    ghost use Rattle.flow_team.specs.code.Complements.{table_facts};

    ghost Value = { TableFacts };

    ghost view = { λ table. table_facts table.first table.analysis table.words };
}

impl Table {
    /// The table of these sets, which are those of the points from the first on.
    pub(crate) fn of(analysis: Analysis, words: ComplementedWords, first: u32) -> Table
        ensures { result ≡ table_facts first analysis words }
    {
        Table {
            analysis,
            words,
            first,
        }
    }

    /// The analysis.
    pub fn analysis(&self) -> Analysis
        ensures { result ≡ self.now.analysis }
    {
        self.analysis
    }

    /// Whether some valid path leads to the point, or for a backward analysis from it to the end of `main`.
    pub fn has_path(&self, point: u32) -> bool
        requires { point < length self.now.paths }
        ensures { result ≡ (facts_of self.now).has_path point }
    {
        if point < self.first {
            return false;
        }
        self.words.flag(point - self.first)
    }

    /// Whether the bit is in the set of the point.
    pub fn contains(&self, point: u32, bit: u32) -> bool
        requires point { point < length self.now.paths }
        requires bit { bit < self.now.bits }
        ensures { result ≡ (facts_of self.now).contains point bit }
    {
        (self.word(point, bit / 64) >> (bit % 64)) & 1 == 1
    }

    /// A word of the point's set: bit `64 * word + k` at place `k`; 0 at all places past the last bit.
    pub fn word(&self, point: u32, word: u32) -> u64
        requires { point < length self.now.paths }
        ensures set { (k : ℕ) → k < 64 → has_bit result k ≡ (facts_of self.now).contains point (64 * word + k) }
        ensures past { (k : ℕ) → k < 64 → self.now.bits ≤ 64 * word + k → has_bit result k ≡ false }
    {
        if point < self.first {
            return 0;
        }
        self.words.word(point - self.first, word)
    }
}
