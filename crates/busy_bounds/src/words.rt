// In which words a set has numbers, and which.
ghost use Rattle.std.specs.Prelude.{◌≡◌, ℕ, ◌+◌, ◌*◌, ◌/◌, ◌%◌, ◌<◌, ◌≤◌, ◌||◌, nat_eq, true, length};
ghost use Rattle.bit_rows.specs.Words.{has_bit};
ghost use Rattle.busy_bounds.specs.code.Sets.{IsAmong, IsIn, IsThere};

use crate::bound::Bound;

// The end of the last word so far, or of a number's word, if that is later and before the end of all.
fn end_with(last: u32, number: u32, end: u32) -> u32
    requires { last ≤ end }
    ensures past { last ≤ result }
    ensures before { result ≤ end }
    ensures none { number < 64 * end → number < 64 * result }
{
    let word = number / 64;
    if word < end && last <= word {
        return word + 1;
    }
    last
}

// The end of the last word before one in which some places have a number, or the first word.
fn end_among(items: &[u32], places: (u32, u32), first: u32, end: u32) -> u32
    requires there { places.1 ≤ length items.now }
    requires ordered { first ≤ end }
    ensures past { first ≤ result }
    ensures before { result ≤ end }
    ensures none { (number : ℕ) → IsAmong items.now places.0 places.1 number → 64 * result ≤ number → number < 64 * end → ⊥ }
{
    let mut last = first;
    for place in places.0..places.1 {
        let number = items[place as usize];
        last = end_with(last, number, end);
    }
    last
}

/// The end of the last word before one in which a set has a number, or the first word. Of a set that is unknown each word may have one.
pub(crate) fn end_in(items: &[u32], bound: Bound, first: u32, end: u32) -> u32
    requires there { IsThere items.now bound }
    requires ordered { first ≤ end }
    ensures past { first ≤ result }
    ensures before { result ≤ end }
    ensures none { (number : ℕ) → IsIn items.now bound number → 64 * result ≤ number → number < 64 * end → ⊥ }
{
    match bound {
        Bound::Unknown => end,
        Bound::Among { from, until } => end_among(items, (from, until), first, end),
    }
}

// A word with one bit more.
fn with_bit(word: u64, place: u32) -> u64
    requires { place < 64 }
    ensures { (k : ℕ) → has_bit result k ≡ (has_bit word k || nat_eq k place) }
{
    word | (1 << place)
}

// The numbers of a word that stand at some places, as bits.
fn mask_among(items: &[u32], places: (u32, u32), word: u32) -> u64
    requires { places.1 ≤ length items.now }
    ensures { (k : ℕ) → k < 64 → IsAmong items.now places.0 places.1 (64 * word + k) → has_bit result k ≡ true }
{
    let mut mask = 0u64;
    for place in places.0..places.1 {
        let number = items[place as usize];
        if number / 64 == word {
            mask = with_bit(mask, number % 64);
        }
    }
    mask
}

/// The numbers of a word that a set has, as bits: all where it is unknown.
pub(crate) fn mask_in(items: &[u32], bound: Bound, word: u32) -> u64
    requires { IsThere items.now bound }
    ensures { (k : ℕ) → k < 64 → IsIn items.now bound (64 * word + k) → has_bit result k ≡ true }
{
    match bound {
        Bound::Unknown => u64::MAX,
        Bound::Among { from, until } => mask_among(items, (from, until), word),
    }
}
