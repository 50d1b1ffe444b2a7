// The words of a closed board, as a table's sets.
ghost use Rattle.std.specs.Prelude.{◌≡◌, ℕ, ◌+◌, ◌*◌, ◌<◌, ◌≤◌, ◌&&◌, false, nat_lt, [], length, slice_index_or};
ghost use Rattle.bit_rows.specs.RowTable.{flag_at};
ghost use Rattle.bit_rows.specs.Words.{has_bit};
ghost use Rattle.flow_graph.specs.Directions.{is_intersection};
ghost use Rattle.flow_team.specs.code.Complements.{members_of, complemented_table};

use bit_rows::word_below;
use flow_graph::Join;
use slice_board::PostedWords;
use std::marker::Model;

/// The posted words themselves. Where the join is the intersection, the sets are the complements of what was posted: each word is
/// complemented as it is read.
#[derive(Drop)]
pub(crate) struct ComplementedWords {
    posted: PostedWords,
    join: Join,
}

impl Model for ComplementedWords {
    ghost use Rattle.bit_rows.specs.RowTable.{RowTable};
    ghost use Rattle.flow_graph.specs.Directions.{is_intersection};
    ghost use Rattle.flow_team.specs.code.Complements.{complemented_table};

    ghost Value = { RowTable };

    ghost view = { λ t. complemented_table (is_intersection t.join) t.posted };
}

/// By what a word's places are complemented: where the join is the intersection, those of its bits.
pub fn complement_mask(bits: u32, join: Join, word: u32) -> u64
    ensures { (k : ℕ) → k < 64 → has_bit result k ≡ (is_intersection join && nat_lt (64 * word + k) bits) }
{
    match join {
        Join::Union => 0,
        Join::Intersection => word_below(bits, word),
    }
}

impl ComplementedWords {
    /// The posted sets, or where the join is the intersection their complements.
    pub(crate) fn of(posted: PostedWords, join: Join) -> ComplementedWords
        ensures { result ≡ complemented_table (is_intersection join) posted }
    {
        ComplementedWords { posted, join }
    }

    /// The point's path flag.
    pub(crate) fn flag(&self, point: u32) -> bool
        requires { point < length self.now.flags }
        ensures { result ≡ flag_at self.now point }
    {
        self.posted.flag(point)
    }

    /// A word of the point's set, 0 at all places past the last bit.
    pub(crate) fn word(&self, point: u32, word: u32) -> u64
        requires { point < length self.now.flags }
        ensures set { (k : ℕ) → k < 64 → has_bit result k ≡ slice_index_or (slice_index_or (members_of self.now) point []) (64 * word + k) false }
        ensures past { (k : ℕ) → k < 64 → self.now.hi ≤ 64 * word + k → has_bit result k ≡ false }
    {
        self.posted.word(point, word) ^ complement_mask(self.posted.bits(), self.join, word)
    }
}
