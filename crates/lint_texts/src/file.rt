// The file of which lints are told.

/// A file: its name and its text.
#[derive(Clone, Copy)]
pub struct File<'a> {
    /// What it is called.
    pub name: &'a [u8],
    /// Its text, from which the program was read.
    pub text: &'a [u8],
}
