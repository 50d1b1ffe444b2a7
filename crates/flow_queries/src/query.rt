use flow_graph::Analysis;

/// Bits of a word of an analysis's set at a point: bit `64 * word + k` of the analysis at place `k`.
#[derive(Clone, Copy, Debug, PartialEq, Eq)]
pub struct Query {
    /// The analysis.
    pub analysis: Analysis,
    /// The point, by its number in the program.
    pub point: u32,
    /// The number of the word: its first bit is `64 * word`.
    pub word: u32,
    /// The bits that are asked, by their places in the word; all of them where it is [`u64::MAX`].
    pub bits: u64,
}
