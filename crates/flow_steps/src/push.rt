// A text that grows.

ghost use Rattle.std.specs.Prelude.{◌≡◌, ◌++◌, [], OnOk, codes, decimal, map, if◌then◌else◌};
ghost use Rattle.flow_views.specs.Json.{array};

use crate::OutOfMemory;
use itoa::Buffer;

/// Puts bytes behind a text.
pub(crate) fn push_bytes(text: &mut Vec<u8>, bytes: &[u8]) -> Result<(), OutOfMemory>
    ensures { OnOk result (text.new.items ≡ text.old.items ++ bytes.now) }
{
    text.extend_from_slice(bytes)
}

/// Puts a number behind a text.
pub(crate) fn push_number(text: &mut Vec<u8>, number: u32) -> Result<(), OutOfMemory>
    ensures { OnOk result (text.new.items ≡ text.old.items ++ decimal number) }
{
    text.extend_from_slice(Buffer::new().format(number).as_bytes())
}

/// Puts a comma behind a text where it is wanted.
pub(crate) fn push_comma_if(text: &mut Vec<u8>, wanted: bool) -> Result<(), OutOfMemory>
    ensures { OnOk result (text.new.items ≡ text.old.items ++ (if wanted then codes "," else [])) }
{
    if !wanted {
        return Ok(());
    }
    push_bytes(text, b",")
}

/// Puts numbers behind a text as an array.
pub(crate) fn push_numbers(text: &mut Vec<u8>, numbers: &[u32]) -> Result<(), OutOfMemory>
    ensures { OnOk result (text.new.items ≡ text.old.items ++ array (map decimal numbers.now)) }
{
    push_bytes(text, b"[")?;
    for (place, number) in numbers.iter().enumerate() {
        push_comma_if(text, 0 < place)?;
        push_number(text, *number)?;
    }
    push_bytes(text, b"]")?;
    Ok(())
}
