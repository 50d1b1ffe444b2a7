// Bytes of a text, as they are shown.

ghost use Rattle.std.specs.Prelude.{◌≡◌, ◌<◌, decimal, flat_map, IfOk};
ghost use Rattle.lint_styles.specs.Styles.{below_byte, hex_digit as digit_of, is_printed as printed, shown, shown_byte, source_byte};
ghost use Rattle.text_pieces.specs.Pieces.{CanWrite, Writes};

use crate::OutOfMemory;
use itoa::Buffer;
use std::alloc::Global;
use text_pieces::{Pieces, Sink, Text, whole_text};

/// The byte of a tab.
const TAB: u8 = b'\t';

fn is_printed(byte: u8) -> bool
    ensures { result ≡ printed byte }
{
    byte > 31 && byte < 127
}

fn hex_digit(n: u8) -> u8
    requires { n < 16 }
    ensures { result ≡ digit_of n }
{
    if n < 10 { b'0' + n } else { b'a' - 10 + n }
}

// Writes a byte, or what stands for it.
fn write_byte<K: Sink>(out: &mut Pieces<'_, K>, byte: u8)
    requires { CanWrite K.Sink out.old }
    ensures { Writes K.Sink out.old out.new (shown_byte byte) }
{
    if is_printed(byte) {
        out.write(&[byte]);
    } else {
        out.write(&[b'\\', b'x', hex_digit(byte / 16), hex_digit(byte % 16)]);
    }
}

/// Writes bytes, or what stands for them.
pub fn write_shown<K: Sink>(out: &mut Pieces<'_, K>, bytes: &[u8])
    requires { CanWrite K.Sink out.old }
    ensures { Writes K.Sink out.old out.new (shown bytes.now) }
{
    for byte in bytes {
        write_byte(out, *byte);
    }
}

// Bytes, or what stands for them.
#[derive(Clone, Copy)]
struct ShownText<'a>(&'a [u8]);

impl<'a> Text for ShownText<'a> {
    ghost use Rattle.lint_styles.specs.Styles.{shown};

    ghost bytes = { λ text. shown text.0.now };

    fn write<K: Sink>(&self, out: &mut Pieces<'_, K>) {
        write_shown(out, self.0);
    }
}

/// Bytes, or what stands for them, made whole. Fails only where memory runs out.
pub fn shown_bytes(alloc: Global, bytes: &[u8]) -> Result<Vec<u8>, OutOfMemory>
    ensures { IfOk result (λ whole. whole.items ≡ shown bytes.now) }
{
    whole_text(alloc, &ShownText(bytes))
}

// Writes a byte of a line of the source, or what stands for it.
fn write_source_byte<K: Sink>(out: &mut Pieces<'_, K>, byte: u8)
    requires { CanWrite K.Sink out.old }
    ensures { Writes K.Sink out.old out.new (source_byte byte) }
{
    if byte == TAB {
        out.write(b"\t");
    } else {
        write_byte(out, byte);
    }
}

/// Writes bytes of a line of the source, or what stands for them.
pub(crate) fn write_source_bytes<K: Sink>(out: &mut Pieces<'_, K>, bytes: &[u8])
    requires { CanWrite K.Sink out.old }
    ensures { Writes K.Sink out.old out.new (flat_map source_byte bytes.now) }
{
    for byte in bytes {
        write_source_byte(out, *byte);
    }
}

// Writes what stands below a byte of a line of the source.
fn write_below_byte<K: Sink>(out: &mut Pieces<'_, K>, byte: u8)
    requires { CanWrite K.Sink out.old }
    ensures { Writes K.Sink out.old out.new (below_byte byte) }
{
    if byte == TAB {
        out.write(b"\t");
    } else if is_printed(byte) {
        out.write(b" ");
    } else {
        out.write(b"    ");
    }
}

/// Writes what stands below bytes of a line of the source.
pub(crate) fn write_below<K: Sink>(out: &mut Pieces<'_, K>, bytes: &[u8])
    requires { CanWrite K.Sink out.old }
    ensures { Writes K.Sink out.old out.new (flat_map below_byte bytes.now) }
{
    for byte in bytes {
        write_below_byte(out, *byte);
    }
}

/// Writes a number in decimal.
pub fn write_size<K: Sink>(out: &mut Pieces<'_, K>, number: usize)
    requires { CanWrite K.Sink out.old }
    ensures { Writes K.Sink out.old out.new (decimal number) }
{
    out.write(Buffer::new().format(number).as_bytes());
}
