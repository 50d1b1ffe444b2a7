// What a pass knows. No value of these types is made: they are there for contracts alone.
use bit_rows::Cut;

/// What a pass knows of its board: the value whose sets are wanted, how many points it has, and how
/// its bits are cut. Contracts alone see it.
pub struct About<T> {
    pub wanted: T,
    pub points: u32,
    pub cut: Cut,
}

/// Bits of a word of a point's row: a mask that was posted there, or a value that was seen. Contracts
/// alone see it.
pub struct LoggedWord {
    pub point: u32,
    /// The bits `64 * word` to `64 * word + 63` of the universe.
    pub word: u32,
    pub bits: u64,
}

/// A done word's number, and a value that it had. Contracts alone see it.
pub struct Count {
    pub word: u32,
    pub bits: u64,
}

// A clause reads an array as a list, of any length. A spent view knows nothing of a board.
pub struct View<T> {
    pub about: Option<About<T>>,
    pub claimed: [u32; 0],
    pub finished: [u32; 0],
    pub posted: [LoggedWord; 0],
    pub seen: [LoggedWord; 0],
    pub found: [u32; 0],
    pub counted: [Count; 0],
    // The pass has `share / 2 ^ halvings` of the board.
    pub share: u32,
    pub halvings: u32,
}
