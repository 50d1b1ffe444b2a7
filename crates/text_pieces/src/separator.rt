// What stands between two texts.

ghost use Rattle.std.specs.Prelude.{◌≡◌, length, if◌then◌else◌};
ghost use Rattle.text_pieces.specs.code.Blocks.{separator_text};

/// What stands between two texts.
#[derive(Clone, Copy)]
pub enum Separator {
    /// A comma.
    Comma,
    /// A comma and a blank.
    CommaAndBlank,
}

impl Separator {
    /// Its bytes.
    pub(crate) fn bytes(self) -> &'static [u8]
        ensures { result.now ≡ separator_text self }
    {
        match self {
            Separator::Comma => b",",
            Separator::CommaAndBlank => b", ",
        }
    }

    /// How many of its bytes are passed over: all before the first text, none where others stand already.
    pub(crate) fn skipped(self, others: bool) -> usize
        ensures { result ≡ (if others then 0 else length (separator_text self)) }
    {
        if others { 0 } else { self.bytes().len() }
    }
}
