// Numbers in the text of a part.

ghost use Rattle.std.specs.Prelude.{◌≡◌};
ghost use Rattle.part_texts.specs.Lines.{read_number};

/// The number that decimal digits write, where it is at most so large.
pub(crate) fn read_number(digits: &[u8], most: u32) -> Option<u32>
    ensures { result ≡ read_number most digits.now }
{
    let mut value: u64 = 0;
    for digit in digits {
        if !digit.is_ascii_digit() {
            return None;
        }
        value = 10 * value + u64::from(*digit - b'0');
        if value > u64::from(most) {
            return None;
        }
    }
    if digits.is_empty() {
        return None;
    }
    Some(value as u32)
}
