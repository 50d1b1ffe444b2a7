/// A set of expressions: unknown, or those whose numbers stand at these places of a list.
#[derive(Clone, Copy, Debug, PartialEq, Eq)]
pub(crate) enum Bound {
    Unknown,
    Among { from: u32, until: u32 },
}
