// The words of cells, to which rules add bits.
ghost use Rattle.std.specs.Prelude.{◌≡◌, ◌<◌, ◌^◌, ◌&&◌, ◌||◌, ℕ, List, false, length, nat_eq, slice_index};
ghost use Rattle.bit_rows.specs.Words.{has_bit};
ghost use Rattle.flow_bounds.specs.Rules.{IsClosedUnder, IsRuleAt};
ghost use Rattle.flow_bounds.specs.code.Rounds.{AreWithin, Grow};
ghost use Rattle.flow_bounds.specs.declared.rule.Rule.{Rule as RuleValue};

use crate::rule::Rule;

/// The bits of either word.
pub(crate) fn either_word(first: u64, second: u64) -> u64
    ensures fits { result < 2 ^ 64 }
    ensures bits { (k : ℕ) → has_bit result k ≡ (has_bit first k || has_bit second k) }
{
    first | second
}

/// The bits of both words.
pub(crate) fn both_word(first: u64, second: u64) -> u64
    ensures { (k : ℕ) → has_bit result k ≡ (has_bit first k && has_bit second k) }
{
    first & second
}

// Adds bits to the word of a cell. Whether some of them were missing.
fn add_word(words: &mut [u64], at: u32, more: u64) -> bool
    requires { at < length words.old }
    ensures count { length words.new ≡ length words.old }
    ensures bits { (x k : ℕ) → has_bit (slice_index words.new x) k
        ≡ (has_bit (slice_index words.old x) k || (nat_eq x at && has_bit more k)) }
    ensures same { result ≡ false → words.new ≡ words.old }
{
    let before = words[at as usize];
    let after = either_word(before, more);
    if after == before {
        return false;
    }
    words[at as usize] = after;
    true
}

/// Adds what a rule gives. Whether some of it was missing.
pub(crate) fn spread(rule: Rule, words: &mut [u64]) -> bool
    requires to { rule.to < length words.old }
    requires first { rule.first < length words.old }
    requires second { rule.second < length words.old }
    ensures grow { Grow words.old words.new }
    ensures within { (rules : List RuleValue) (i : ℕ) (given : List ℕ) → IsRuleAt rules i rule → AreWithin rules given words.old
        → AreWithin rules given words.new }
    ensures same { result ≡ false → words.new ≡ words.old }
    ensures closed { result ≡ false → IsClosedUnder words.new rule }
{
    let both = both_word(words[rule.first as usize], words[rule.second as usize]);
    let more = both_word(both, rule.mask);
    add_word(words, rule.to, more)
}
