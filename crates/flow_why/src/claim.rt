/// What a search finds of points, for one bit.
#[derive(Debug, Clone, Copy, PartialEq, Eq)]
pub enum Claim {
    /// Some valid path to the point has the bit.
    Holds,
    /// Some path from the entry of the point's procedure has the bit whether it was there at the entry or not.
    Generated,
    /// Some such path keeps the bit that was there at the entry.
    Preserved,
}
