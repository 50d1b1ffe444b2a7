// Rounds over rules.
ghost use Rattle.std.specs.Prelude.{◌≡◌, ◌<◌, ℕ, List, true, false, length};
ghost use Rattle.flow_bounds.specs.Rules.{AreClosed, AreRulesOf, Follows, HasBit};
ghost use Rattle.flow_bounds.specs.code.Rounds.{AreClosedTo, AreWithin, Grow};

use crate::rule::Rule;
use crate::words::spread;

// So many rounds there are at most. What takes more is given up.
const MOST: u32 = 256;

// Goes over all rules once. Whether that added any bit.
fn round(rules: &[Rule], words: &mut [u64]) -> bool
    requires { AreRulesOf (length words.old) rules.now }
    ensures grow { Grow words.old words.new }
    ensures within { (given : List ℕ) → AreWithin rules.now given words.old → AreWithin rules.now given words.new }
    ensures closed { result ≡ false → AreClosedTo words.new rules.now (length rules.now) }
{
    let mut changed = false;
    for rule in rules {
        changed = spread(*rule, words) | changed;
    }
    changed
}

/// Adds to words what follows from them by rules, in rounds over these, in their order, until a round adds nothing. Whether it came so far:
/// it gives up after 256 rounds, or where no work is left. Each rule that is gone over is one less of that.
pub fn solve(rules: &[Rule], words: &mut [u64], left: &mut u64) -> bool
    requires { AreRulesOf (length words.old) rules.now }
    ensures grow { Grow words.old words.new }
    ensures follows { (cell bit : ℕ) → HasBit words.new cell bit → Follows rules.now words.old cell bit }
    ensures closed { result ≡ true → AreClosed rules.now words.new }
{
    for _ in 0..MOST {
        *left = left.saturating_sub(rules.len() as u64);
        if *left == 0 {
            return false;
        }
        if !round(rules, words) {
            return true;
        }
    }
    false
}
