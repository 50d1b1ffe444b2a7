// Words of sets of bits.

ghost use Rattle.std.specs.Prelude.{◌≡◌, ◌+◌, ◌*◌, ◌<◌, ℕ, ◌||◌, ◌/◌, ◌%◌, true};
ghost use Rattle.bit_rows.specs.Words.{has_bit};
ghost use Rattle.gen_kill.specs.code.Effects.{effect_owns, gen_from, kill_from, marks};

use crate::effect::Effect;
use flow_graph::Analysis;

/// The word of a single bit, or of none.
pub(crate) fn mark_word(mark: Option<u32>, word: u32) -> u64
    ensures { (k : ℕ) → k < 64 → has_bit result k ≡ marks mark (64 * word + k) }
{
    match mark {
        None => 0,
        Some(bit) => { if bit / 64 == word { 1 << (bit % 64) } else { 0 } },
    }
}

/// The word of a statement's own bits.
pub(crate) fn own_word(effect: Effect, word: u32) -> u64
    ensures { (k : ℕ) → k < 64 → has_bit result k ≡ effect_owns effect (64 * word + k) }
{
    mark_word(effect.first, word) | mark_word(effect.second, word)
}

/// The word that a single bit lies in, word `w` at place `w % 64`, or none.
pub(crate) fn word_mark(mark: Option<u32>) -> u64
    ensures { (bit : ℕ) → marks mark bit ≡ true → has_bit result (bit / 64 % 64) ≡ true }
{
    match mark {
        None => 0,
        Some(bit) => mark_word(Some(bit / 64 % 64), 0),
    }
}

// Whether a number is this one, if there is one.
fn is_marked(mark: Option<u32>, number: u32) -> bool
    ensures { result ≡ marks mark number }
{
    match mark {
        None => false,
        Some(marked) => number == marked,
    }
}

/// Whether one of two numbers is this one.
pub(crate) fn is_either(first: Option<u32>, second: Option<u32>, number: u32) -> bool
    ensures { result ≡ (marks first number || marks second number) }
{
    is_marked(first, number) || is_marked(second, number)
}

/// Whether a bit is generated, of whether it is the statement's own and whether it is touched.
pub(crate) fn generates(analysis: Analysis, own: bool, touched: bool) -> bool
    ensures { result ≡ gen_from analysis own touched }
{
    match analysis {
        Analysis::Reach => own,
        Analysis::Live => own,
        Analysis::Avail => touched,
        Analysis::Busy => touched && !own,
    }
}

/// Whether a bit is killed, of whether it is the statement's own and whether it is touched.
pub(crate) fn kills(analysis: Analysis, own: bool, touched: bool) -> bool
    ensures { result ≡ kill_from analysis own touched }
{
    match analysis {
        Analysis::Reach => touched && !own,
        Analysis::Live => touched,
        Analysis::Avail => own && !touched,
        Analysis::Busy => own,
    }
}

/// What is generated, of what is the statement's own and what it touches.
pub(crate) fn generated(analysis: Analysis, own: u64, touched: u64) -> u64
    ensures { (k : ℕ) → k < 64 → has_bit result k ≡ gen_from analysis (has_bit own k) (has_bit touched k) }
{
    match analysis {
        Analysis::Reach => own,
        Analysis::Live => own,
        Analysis::Avail => touched,
        Analysis::Busy => touched & !own,
    }
}

/// What is killed, of what is the statement's own and what it touches.
pub(crate) fn killed(analysis: Analysis, own: u64, touched: u64) -> u64
    ensures { (k : ℕ) → k < 64 → has_bit result k ≡ kill_from analysis (has_bit own k) (has_bit touched k) }
{
    match analysis {
        Analysis::Reach => touched & !own,
        Analysis::Live => touched,
        Analysis::Avail => own & !touched,
        Analysis::Busy => own,
    }
}
