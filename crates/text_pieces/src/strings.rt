// Texts as they stand between quotes.

ghost use Rattle.std.specs.Prelude.{◌≡◌, ◌++◌, ◌==◌, ◌||◌, true, OnOk};
ghost use Rattle.text_pieces.specs.Pieces.{CanWrite, Writes};
ghost use Rattle.text_pieces.specs.Strings.{escaped, escaped_byte, quoted};

use crate::OutOfMemory;
use crate::device::Sink;
use crate::pieces::Pieces;

// Whether a byte has a backslash before it.
fn is_special(byte: u8) -> bool
    ensures { result ≡ (byte == 34 || byte == 92) }
{
    byte == b'"' || byte == b'\\'
}

// Whether no byte has a backslash before it, as is so of all names and operators.
fn is_plain(bytes: &[u8]) -> bool
    ensures { result ≡ true → escaped bytes.now ≡ bytes.now }
{
    for byte in bytes {
        if is_special(*byte) {
            return false;
        }
    }
    true
}

// Writes a byte, behind a backslash where it needs one.
fn write_byte<K: Sink>(out: &mut Pieces<'_, K>, byte: u8)
    requires { CanWrite K.Sink out.old }
    ensures { Writes K.Sink out.old out.new (escaped_byte byte) }
{
    if is_special(byte) {
        out.write(&[b'\\', byte]);
    } else {
        out.write(&[byte]);
    }
}

/// Writes a text as it stands between quotes.
pub fn write_escaped<K: Sink>(out: &mut Pieces<'_, K>, bytes: &[u8])
    requires { CanWrite K.Sink out.old }
    ensures { Writes K.Sink out.old out.new (escaped bytes.now) }
{
    if is_plain(bytes) {
        out.write(bytes);
        return;
    }
    for byte in bytes {
        write_byte(out, *byte);
    }
}

/// Writes a text between quotes.
pub fn write_quoted<K: Sink>(out: &mut Pieces<'_, K>, bytes: &[u8])
    requires { CanWrite K.Sink out.old }
    ensures { Writes K.Sink out.old out.new (quoted bytes.now) }
{
    out.write(b"\"");
    write_escaped(out, bytes);
    out.write(b"\"");
}

// Puts a byte behind a text, behind a backslash where it needs one.
fn push_byte(text: &mut Vec<u8>, byte: u8) -> Result<(), OutOfMemory>
    ensures { OnOk result (text.new.items ≡ text.old.items ++ escaped_byte byte) }
{
    if is_special(byte) {
        text.extend_from_slice(&[b'\\', byte])
    } else {
        text.extend_from_slice(&[byte])
    }
}

/// Puts bytes behind a text as they stand between quotes.
pub fn push_escaped(text: &mut Vec<u8>, bytes: &[u8]) -> Result<(), OutOfMemory>
    ensures { OnOk result (text.new.items ≡ text.old.items ++ escaped bytes.now) }
{
    for byte in bytes {
        push_byte(text, *byte)?;
    }
    Ok(())
}

/// Puts bytes behind a text, between quotes.
pub fn push_quoted(text: &mut Vec<u8>, bytes: &[u8]) -> Result<(), OutOfMemory>
    ensures { OnOk result (text.new.items ≡ text.old.items ++ quoted bytes.now) }
{
    text.extend_from_slice(b"\"")?;
    push_escaped(text, bytes)?;
    text.extend_from_slice(b"\"")
}
