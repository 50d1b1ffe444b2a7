// Lines as they stand in the page's element.

ghost use Rattle.std.specs.Prelude.{◌≡◌, ◌==◌, true};
ghost use Rattle.page_texts.specs.Pages.{safe, safe_byte};
ghost use Rattle.text_pieces.specs.Pieces.{CanWrite, Writes};

use text_pieces::{Pieces, Sink};

// Whether something else stands for a byte.
fn is_special(byte: u8) -> bool
    ensures { result ≡ (byte == 60) }
{
    byte == b'<'
}

// Whether all bytes stand for themselves.
fn is_safe(bytes: &[u8]) -> bool
    ensures { result ≡ true → safe bytes.now ≡ bytes.now }
{
    for byte in bytes {
        if is_special(*byte) {
            return false;
        }
    }
    true
}

// Writes a byte, or what stands for it.
fn write_safe_byte<K: Sink>(out: &mut Pieces<'_, K>, byte: u8)
    requires { CanWrite K.Sink out.old }
    ensures { Writes K.Sink out.old out.new (safe_byte byte) }
{
    if is_special(byte) {
        out.write(b"\\u003c");
    } else {
        out.write(&[byte]);
    }
}

/// Writes lines as they stand in the page's element.
pub(crate) fn write_safe<K: Sink>(out: &mut Pieces<'_, K>, bytes: &[u8])
    requires { CanWrite K.Sink out.old }
    ensures { Writes K.Sink out.old out.new (safe bytes.now) }
{
    if is_safe(bytes) {
        out.write(bytes);
        return;
    }
    for byte in bytes {
        write_safe_byte(out, *byte);
    }
}
