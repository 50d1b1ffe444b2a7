// The lines of a text, each as a line of JSON.

ghost use Rattle.std.specs.Prelude.{◌≡◌, ◌+◌, ◌&&◌, ◌<◌, ◌^◌, decimal, flat_map, nat_lt, reverse, true};
ghost use Rattle.text_pieces.specs.Pieces.{CanWrite, Writes};
ghost use Rattle.text_pieces.specs.Strings.{escaped};
ghost use Rattle.source_lines.specs.SourceLines.{byte_text, content, hex_digit, is_sign, source_line, source_lines, without_return, without_line_end};

use itoa::Buffer;
use tac_lines::lex::line_stop;
use text_pieces::{Pieces, Sink, write_escaped};

// Whether a byte is a printed sign of ASCII, or a space.
fn is_sign(byte: u8) -> bool
    ensures { result ≡ is_sign byte }
{
    31 < byte && byte < 127
}

// A digit of sixteen.
fn hex_digit(value: u8) -> u8
    requires { value < 16 }
    ensures { result ≡ hex_digit value }
{
    if value < 10 { 48 + value } else { 87 + value }
}

// Writes a byte as it stands between quotes.
fn write_byte<K: Sink>(out: &mut Pieces<'_, K>, byte: u8)
    requires { CanWrite K.Sink out.old }
    ensures { Writes K.Sink out.old out.new (byte_text byte) }
{
    if is_sign(byte) {
        write_escaped(out, &[byte]);
    } else {
        out.write(b"\\u00");
        out.write(&[hex_digit(byte / 16), hex_digit(byte % 16)]);
    }
}

// Whether all bytes are such signs.
fn are_signs(bytes: &[u8]) -> bool
    ensures { result ≡ true → flat_map byte_text bytes.now ≡ escaped bytes.now }
{
    for byte in bytes {
        if !is_sign(*byte) {
            return false;
        }
    }
    true
}

// Writes bytes as they stand between quotes.
fn write_bytes<K: Sink>(out: &mut Pieces<'_, K>, bytes: &[u8])
    requires { CanWrite K.Sink out.old }
    ensures { Writes K.Sink out.old out.new (flat_map byte_text bytes.now) }
{
    if are_signs(bytes) {
        write_escaped(out, bytes);
        return;
    }
    for byte in bytes {
        write_byte(out, *byte);
    }
}

// The bytes without a carriage return at their end.
fn before_return(bytes: &[u8]) -> &[u8]
    ensures { reverse result.now ≡ without_return (reverse bytes.now) }
{
    match bytes.split_last() {
        Some((last, rest)) => { if *last == b'\r' { rest } else { bytes } },
        None => bytes,
    }
}

// What stands in a line before its end.
fn content_of(line: &[u8]) -> &[u8]
    ensures { result.now ≡ content line.now }
{
    match line.split_last() {
        Some((last, rest)) => {
            if *last == b'\n' {
                before_return(rest)
            } else {
                line
            }
        },
        None => line,
    }
}

// Writes a number.
fn write_number<K: Sink>(out: &mut Pieces<'_, K>, number: usize)
    requires { CanWrite K.Sink out.old }
    ensures { Writes K.Sink out.old out.new (decimal number) }
{
    out.write(Buffer::new().format(number as u64).as_bytes());
}

// Writes a line with its number and where it begins.
fn write_line<K: Sink>(out: &mut Pieces<'_, K>, number: usize, start: usize, line: &[u8])
    requires { CanWrite K.Sink out.old }
    ensures { Writes K.Sink out.old out.new (source_line number start line.now) }
{
    out.write(b"{\"type\":\"source\",\"line\":");
    write_number(out, number);
    out.write(b",\"start\":");
    write_number(out, start);
    out.write(b",\"text\":\"");
    write_bytes(out, content_of(line));
    out.write(b"\"}\n");
}

/// Writes the lines of a text, each as a line of JSON with its number from 1, the byte from 0 at which it begins, and its bytes without the
/// line feed at its end and a carriage return before that:
///
///     {"type":"source","line":1,"start":0,"text":"proc main"}
///
/// Each sign of `text` stands for one byte and has its number. So any bytes are told: what is not a printed sign of ASCII, or a space, is
/// written as `\u00` and its two hexadecimal digits.
pub fn write_source<K: Sink>(out: &mut Pieces<'_, K>, text: &[u8])
    requires { CanWrite K.Sink out.old }
    ensures { Writes K.Sink out.old out.new (source_lines text.now) }
{
    let mut number = 1;
    let mut start = 0;
    while start < text.len() {
        let stop = line_stop(text, start);
        write_line(out, number, start, &text[start..stop]);
        number += 1;
        start = stop;
    }
}
