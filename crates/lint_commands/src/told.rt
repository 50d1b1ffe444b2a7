/// What was told of a file.
#[derive(Clone, Copy, Debug, PartialEq, Eq)]
pub enum Told {
    /// A program, and no remark.
    Nothing,
    /// A program, and a remark or more.
    Remarks,
    /// A text that is no program.
    Errors,
}
