// A text cut in two.

ghost use Rattle.std.specs.Prelude.{◌≡◌, ◌==◌, MatchOption};
ghost use Rattle.part_texts.specs.code.ReadParts.{IsCut, IsWhole};

/// What stands before the first of some bytes, and what stands behind it.
pub(crate) fn cut(text: &[u8], byte: u8) -> Option<(&[u8], &[u8])>
    ensures { MatchOption result (IsWhole (λ b. b == byte) text.now) (λ r. IsCut (λ b. b == byte) text.now r.0.now r.1.now) }
{
    for (i, b) in text.iter().enumerate() {
        if *b == byte {
            return Some((&text[..i], &text[i + 1..]));
        }
    }
    None
}
