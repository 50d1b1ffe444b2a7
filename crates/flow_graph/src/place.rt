/// Where a point stands: its procedure, by number, and its place there, which is how many of the procedure's statements
/// stand before it. The place of a procedure's end is the number of its statements.
#[derive(Debug, Clone, Copy, PartialEq, Eq)]
pub struct Place {
    pub procedure: u32,
    pub place: u32,
}
