// Words side by side.
ghost use Rattle.std.specs.Prelude.{◌≡◌, ◌<◌, ◌^◌, ◌⊎◌, ◌&&◌, ◌||◌, not, ℕ, true, false, length, slice_index};
ghost use Rattle.bit_rows.specs.Words.{has_bit};
ghost use Rattle.gk_solve.specs.Tables.Groups.{room_of_words};

// The bits of either word.
fn either_word(first: u64, second: u64) -> u64
    ensures fits { result < 2 ^ 64 }
    ensures bits { (k : ℕ) → has_bit result k ≡ (has_bit first k || has_bit second k) }
    ensures grows { result ≡ first ⊎ first < result }
{
    first | second
}

/// The bits that are new, and those before that are preserved.
pub(crate) fn new_or_preserved_word(new: u64, before: u64, preserved: u64) -> u64
    ensures { (k : ℕ) → has_bit result k ≡ (has_bit new k || (has_bit before k && has_bit preserved k)) }
{
    new | (before & preserved)
}

// The bits of both words.
fn both_word(first: u64, second: u64) -> u64
    ensures { (k : ℕ) → has_bit result k ≡ (has_bit first k && has_bit second k) }
{
    first & second
}

/// The bits before a step that it does not kill.
pub(crate) fn unkilled_word(before: u64, kill: u64) -> u64
    ensures { (k : ℕ) → k < 64 → has_bit result k ≡ (has_bit before k && not (has_bit kill k)) }
{
    before & !kill
}

/// The bits after a step: those that it makes, and those before it that it does not kill.
pub(crate) fn across_word(added: u64, before: u64, kill: u64) -> u64
    ensures { (k : ℕ) → k < 64 → has_bit result k ≡ (has_bit added k || (has_bit before k && not (has_bit kill k))) }
{
    added | unkilled_word(before, kill)
}

/// Words with bits added, and whether some of those were missing.
#[inline(always)]
pub(crate) fn added_words<const W: usize>(words: [u64; W], more: [u64; W]) -> ([u64; W], bool)
    ensures count { length result.0 ≡ W }
    ensures bits { (w k : ℕ) → w < W
        → has_bit (slice_index result.0 w) k ≡ (has_bit (slice_index words.entry w) k || has_bit (slice_index more.entry w) k) }
    ensures same { result.1 ≡ false → result.0 ≡ words.entry }
    ensures less { result.1 ≡ true → room_of_words result.0 < room_of_words words.entry }
{
    let mut all = words;
    let mut changed = false;
    for w in 0..W {
        let before = all[w];
        let after = either_word(before, more[w]);
        all[w] = after;
        if after != before {
            changed = true;
        }
    }
    (all, changed)
}

/// The bits of both.
#[inline(always)]
pub(crate) fn common_words<const W: usize>(first: [u64; W], second: [u64; W]) -> [u64; W]
    ensures { (w k : ℕ) → w < W
        → has_bit (slice_index result w) k ≡ (has_bit (slice_index first.entry w) k && has_bit (slice_index second.entry w) k) }
{
    let mut all = first;
    for w in 0..W {
        all[w] = both_word(all[w], second[w]);
    }
    all
}

/// The bits that are new, and those before that are preserved.
#[inline(always)]
pub(crate) fn new_or_preserved<const W: usize>(
    new: [u64; W],
    before: [u64; W],
    preserved: [u64; W],
) -> [u64; W]
    ensures { (w k : ℕ) → w < W → has_bit (slice_index result w) k
        ≡ (has_bit (slice_index new.entry w) k || (has_bit (slice_index before.entry w) k && has_bit (slice_index preserved.entry w) k)) }
{
    let mut all = new;
    for w in 0..W {
        all[w] = new_or_preserved_word(all[w], before[w], preserved[w]);
    }
    all
}
