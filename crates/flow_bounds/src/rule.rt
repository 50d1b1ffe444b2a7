/// Bits that a cell has because two others have them.
#[derive(Clone, Copy)]
pub struct Rule {
    /// The cell that has them then.
    pub to: u32,
    /// One that has them.
    pub first: u32,
    /// The other one.
    pub second: u32,
    /// The bits of which this holds.
    pub mask: u64,
}
