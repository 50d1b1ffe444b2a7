// Words of 64 bits, as sets: bit `b` of a universe stands in word `b / 64`, at place `b % 64`.
ghost use Rattle.std.specs.Prelude.{◌≡◌, ℕ, ◌+◌, ◌-◌, ◌*◌, ◌/◌, ◌^◌, ◌<◌, ◌≤◌, ◌&&◌, not, nat_le, nat_lt};
ghost use Rattle.bit_rows.specs.Words.{has_bit, range_mask};

/// How many words hold so many bits.
pub fn words_for(bits: u32) -> u32
    ensures { result ≡ (bits + 63) / 64 }
{
    bits.div_ceil(64)
}

/// The word whose lowest `count` places are 1.
pub fn low_ones(count: u32) -> u64
    requires { count ≤ 64 }
    ensures value { result ≡ 2 ^ count - 1 }
    ensures places { (k : ℕ) → k < 64 → has_bit result k ≡ nat_lt k count }
{
    if count == 64 {
        u64::MAX
    } else {
        (1 << count) - 1
    }
}

/// Word `word` of the set of all bits below `limit`.
pub fn word_below(limit: u32, word: u32) -> u64
    ensures { (k : ℕ) → k < 64 → has_bit result k ≡ nat_lt (64 * word + k) limit }
{
    let below = u64::from(limit).saturating_sub(64 * u64::from(word));
    low_ones(below.min(64) as u32)
}

/// Word `word` of the set of all bits in `lo..hi`.
pub fn word_within(lo: u32, hi: u32, word: u32) -> u64
    ensures value { result ≡ range_mask lo hi word }
    ensures places { (k : ℕ) → k < 64
        → has_bit result k ≡ (nat_le lo (64 * word + k) && nat_lt (64 * word + k) hi) }
{
    word_below(hi, word) & !word_below(lo, word)
}

/// Word `word` of the bits in `lo..hi` that a set lacks, whose own word of that number is `set`.
pub fn complement_within(set: u64, lo: u32, hi: u32, word: u32) -> u64
    ensures { (k : ℕ) → k < 64 → has_bit result k
        ≡ (not (has_bit set k) && (nat_le lo (64 * word + k) && nat_lt (64 * word + k) hi)) }
{
    !set & word_within(lo, hi, word)
}
