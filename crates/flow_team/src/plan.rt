// How queries are cut into slices.
ghost use Rattle.std.specs.Prelude.{◌≡◌, ◌+◌, ◌/◌, ◌<◌, ◌≤◌};
ghost use Rattle.gk_solve.specs.Solved.{words_at_once as at_once_of};

use bit_rows::words_for;
use gk_solve::words_at_once;

/// How queries are cut into slices, at so many points: a slice has queries of one analysis, in as many words as were asked for, rounded up to
/// whole groups of the words that are solved at once. A slice that cut such a group would solve the same words again.
#[derive(Clone, Copy, Debug)]
pub struct SlicePlan {
    /// How many points there are.
    pub points: u32,
    /// How many words a slice has at most, before they are rounded up.
    pub words: u32,
}

impl SlicePlan {
    /// The plan of slices of so many bits, at so many points.
    pub fn of(points: u32, cut: u32) -> SlicePlan {
        SlicePlan {
            points,
            words: words_for(cut),
        }
    }

    /// How many words of an analysis of so many bits are solved at once.
    pub fn words_at_once(&self, bits: u32) -> u32
        ensures number { result ≡ at_once_of self.now.points ((bits + 63) / 64) }
        ensures range { (4 ≤ result) × (result ≤ 8) }
    {
        words_at_once(self.points, words_for(bits))
    }

    /// How many words of an analysis of so many bits a slice has at most: whole groups, and one at least.
    pub fn slice_words(&self, bits: u32) -> u32
        ensures { 0 < result }
    {
        let at_once = self.words_at_once(bits);
        at_once.saturating_mul(self.words.div_ceil(at_once).max(1))
    }

    /// How many slices hold the words from one up to another of an analysis of so many bits.
    pub fn slices(&self, bits: u32, from: u32, until: u32) -> u32 {
        let width = self.slice_words(bits);
        until.div_ceil(width).saturating_sub(from / width)
    }
}
