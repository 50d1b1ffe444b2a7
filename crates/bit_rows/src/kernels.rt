// Loops over words, and the masks that keep a row's bits within its range.
ghost use Rattle.std.specs.Prelude.{◌≡◌, ◌-◌, ◌≤◌, ◌&&◌, ◌||◌, not, length, MatchBool};
ghost use Rattle.bit_rows.specs.Words.{word_count, IsTrimmed, CombinesPlaces, MapsPlaces, SamePlaces, AddsPlaces};

use crate::masks::{word_within, words_for};
use std::simd::prelude::*;

/// How many words hold the bits `lo..hi`.
pub(crate) fn words_needed(lo: u32, hi: u32) -> usize
    requires { lo ≤ hi }
    ensures { result ≡ word_count lo hi }
{
    (words_for(hi) - lo / 64) as usize
}

/// Clears what stands outside `lo..hi` in the words of a row over that range.
pub(crate) fn trim(words: &mut [u64], lo: u32, hi: u32)
    requires ordered { lo ≤ hi }
    requires count { length words.old ≡ word_count lo hi }
    ensures { IsTrimmed lo hi words.old words.new }
{
    let first = lo / 64;
    let Some(last) = words.len().checked_sub(1) else {
        return;
    };
    words[0] &= word_within(lo, hi, first);
    if last > 0 {
        words[last] &= word_within(lo, hi, first + last as u32);
    }
}

// How many words a vector holds.
const LANES: usize = 8;

/// Sets in `target` what is set in `source`. True where `target` changed.
pub(crate) fn or_words(target: &mut [u64], source: &[u64]) -> bool
    requires { length target.old ≡ length source.now }
    ensures places { CombinesPlaces ◌||◌ target.old source.now target.new }
    ensures changed { MatchBool result (¬ SamePlaces target.old target.new) (target.new ≡ target.old) }
{
    let mut at = 0;
    let mut gained_lanes = u64x8::splat(0);
    'lanes: while target.len() - at >= LANES {
        let ours = u64x8::from_slice(&target[at..]);
        let theirs = u64x8::from_slice(&source[at..]);
        gained_lanes |= theirs & !ours;
        (ours | theirs).copy_to_slice(&mut target[at..]);
        at += LANES;
    }
    let mut gained = gained_lanes.reduce_or();
    'rest: for k in at..target.len() {
        gained |= source[k] & !target[k];
        target[k] |= source[k];
    }
    gained != 0
}

/// Sets in `target`, whose first word is number `base`, what is set in `masks`, whose first is number
/// `first`. Words that `target` lacks are passed over.
pub(crate) fn or_words_from(target: &mut [u64], base: u32, masks: &[u64], first: u32)
    ensures { AddsPlaces base target.old first masks.now target.new }
{
    let base = base as usize;
    let first = first as usize;
    let start = first.max(base);
    let end = (first + masks.len()).min(base + target.len());
    'words: for w in start..end {
        target[w - base] |= masks[w - first];
    }
}

/// Clears in `target` what is clear in `source`.
pub(crate) fn and_words(target: &mut [u64], source: &[u64])
    requires { length target.old ≡ length source.now }
    ensures { CombinesPlaces ◌&&◌ target.old source.now target.new }
{
    let mut at = 0;
    'lanes: while target.len() - at >= LANES {
        let ours = u64x8::from_slice(&target[at..]);
        let theirs = u64x8::from_slice(&source[at..]);
        (ours & theirs).copy_to_slice(&mut target[at..]);
        at += LANES;
    }
    'rest: for k in at..target.len() {
        target[k] &= source[k];
    }
}

/// Clears in `target` what is set in `source`.
pub(crate) fn minus_words(target: &mut [u64], source: &[u64])
    requires { length target.old ≡ length source.now }
    ensures { CombinesPlaces (λ ours theirs. ours && not theirs) target.old source.now target.new }
{
    let mut at = 0;
    'lanes: while target.len() - at >= LANES {
        let ours = u64x8::from_slice(&target[at..]);
        let theirs = u64x8::from_slice(&source[at..]);
        (ours & !theirs).copy_to_slice(&mut target[at..]);
        at += LANES;
    }
    'rest: for k in at..target.len() {
        target[k] &= !source[k];
    }
}

/// Sets in `words` what is clear, and clears what is set.
pub(crate) fn flip_words(words: &mut [u64])
    ensures { MapsPlaces not words.old words.new }
{
    let mut at = 0;
    'lanes: while words.len() - at >= LANES {
        let lanes = u64x8::from_slice(&words[at..]);
        (!lanes).copy_to_slice(&mut words[at..]);
        at += LANES;
    }
    'rest: for k in at..words.len() {
        words[k] = !words[k];
    }
}
