// What names a program.

ghost use Rattle.std.specs.Prelude.{◌≡◌, ◌<◌, ◌++◌, ◌∷◌, [], IfOk, OnOk};
ghost use Rattle.flow_parts.specs.Parts.{digest_of, hexadecimal, hexadecimal_digit};

use crate::OutOfMemory;
use sha1::Sha1;
use std::alloc::Global;

// The digit of a value below 16.
fn hexadecimal_digit(value: u8) -> u8
    requires { value < 16 }
    ensures { result ≡ hexadecimal_digit value }
{
    if value < 10 { 48 + value } else { 87 + value }
}

// Puts the two digits of a byte last.
fn put_byte(digits: &mut Vec<u8>, byte: u8) -> Result<(), OutOfMemory>
    ensures { OnOk result (digits.new.items ≡ digits.old.items ++ hexadecimal (byte ∷ [])) }
{
    digits.push(hexadecimal_digit(byte / 16))?;
    digits.push(hexadecimal_digit(byte % 16))?;
    Ok(())
}

// The digits of bytes.
fn hexadecimal(alloc: Global, bytes: &[u8]) -> Result<Vec<u8>, OutOfMemory>
    ensures { IfOk result (λ digits. digits.items ≡ hexadecimal bytes.now) }
{
    let mut digits = Vec::new(alloc);
    for byte in bytes {
        put_byte(&mut digits, *byte)?;
    }
    Ok(digits)
}

/// What names the program that a text was read as: the hexadecimal SHA-1 of the text. Fails only where memory runs out.
pub fn digest(alloc: Global, text: &[u8]) -> Result<Vec<u8>, OutOfMemory>
    ensures { IfOk result (λ digits. digits.items ≡ digest_of text.now) }
{
    let bytes = Sha1::digest(text);
    hexadecimal(alloc, &bytes)
}
