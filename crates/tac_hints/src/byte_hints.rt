// What is told of a byte that begins no token.

ghost use Rattle.std.specs.Prelude.{◌≡◌, ◌+◌, ◌<◌, ◌^◌, length};
ghost use Rattle.tac_hints.specs.Bytes.{begun_hint as of_begun, byte_hint as of_byte, float_hint as of_float, fraction_hint as of_fraction};
ghost use Rattle.tac_hints.specs.Bytes.{called_hint as of_called, comma_hint as of_comma, lone_hint as of_lone, mark_hint as of_mark};
ghost use Rattle.tac_hints.specs.Bytes.{parameters_hint as of_parameters};
ghost use Rattle.tac_lines.specs.code.Views.{tokens_view};

use tac_faults::places::{
    byte_at, bytes_at, digit_stop, is_digit, is_name_byte, is_not_ascii, name_stop, not_ascii_stop,
    stands,
};
use tac_faults::slips::{Bytes, Hint, Slip, or_hint_of};
use tac_lines::{Keyword, Slot, Token};

/// The byte order mark at the text's start.
fn mark_hint(text: &[u8], place: usize) -> Hint
    ensures { result ≡ of_mark text.now place }
{
    if place == 0 && byte_at(text, 0) == 239 && byte_at(text, 1) == 187 && byte_at(text, 2) == 191 {
        Hint::ByteOrderMark
    } else {
        Hint::None
    }
}

/// Behind a name `(` or `[`; a procedure's own name is called nowhere.
fn called_hint(text: &[u8], before: &[Token], place: usize) -> Hint
    ensures { result ≡ of_called text.now (tokens_view text.now before.now) place }
{
    let last = before.len().saturating_sub(1);
    if !stands(Slot::Variable, before, last) || stands(Slot::Keyword(Keyword::Proc), before, 0) {
        return Hint::None;
    }
    let byte = byte_at(text, place);
    if byte == b'(' {
        Hint::Call(bytes_at(before, last))
    } else if byte == b'[' {
        Hint::Index(bytes_at(before, last))
    } else {
        Hint::None
    }
}

/// A parenthesis in a line that begins with `proc`.
fn parameters_hint(text: &[u8], before: &[Token], place: usize) -> Hint
    ensures { result ≡ of_parameters text.now (tokens_view text.now before.now) place }
{
    if byte_at(text, place) == b'(' && stands(Slot::Keyword(Keyword::Proc), before, 0) {
        Hint::Slip(
            Slip::Parameters,
            bytes_at(before, before.len().saturating_sub(1)),
        )
    } else {
        Hint::None
    }
}

fn comma_hint(text: &[u8], place: usize) -> Hint
    requires within { place < length text.now }
    requires small { length text.now < 2 ^ 32 }
    ensures { result ≡ of_comma text.now place }
{
    if byte_at(text, place) == b',' {
        Hint::Slip(
            Slip::Comma,
            Bytes {
                start: place as u32,
                stop: (place + 1) as u32,
            },
        )
    } else {
        Hint::None
    }
}

/// A point directly behind a number.
fn float_hint(text: &[u8], before: &[Token], place: usize) -> Hint
    requires within { place < length text.now }
    requires small { length text.now < 2 ^ 32 }
    ensures { result ≡ of_float text.now (tokens_view text.now before.now) place }
{
    let last = before.len().saturating_sub(1);
    let number = bytes_at(before, last);
    if byte_at(text, place) == b'.'
        && stands(Slot::Operand, before, last)
        && number.stop as usize == place
        && is_digit(byte_at(text, number.start as usize))
    {
        Hint::Float(Bytes {
            start: number.start,
            stop: digit_stop(text, place + 1) as u32,
        })
    } else {
        Hint::None
    }
}

/// A point before digits alone.
fn fraction_hint(text: &[u8], place: usize) -> Hint
    requires within { place < length text.now }
    requires small { length text.now < 2 ^ 32 }
    ensures { result ≡ of_fraction text.now place }
{
    if byte_at(text, place) == b'.' && is_digit(byte_at(text, place + 1)) {
        Hint::Float(Bytes {
            start: place as u32,
            stop: digit_stop(text, place + 1) as u32,
        })
    } else {
        Hint::None
    }
}

/// A byte that is enough.
fn lone_hint(byte: u8) -> Hint
    ensures { result ≡ of_lone byte }
{
    match byte {
        b'\r' => Hint::CarriageReturn,
        b';' => Hint::Semicolon,
        b'{' => Hint::Brace,
        b'}' => Hint::Brace,
        b'"' => Hint::Quote,
        b'\'' => Hint::Quote,
        b'(' => Hint::Parenthesis,
        b')' => Hint::Parenthesis,
        _ => Hint::None,
    }
}

/// Any other byte: with those like it, with the name behind it, or alone.
fn begun_hint(text: &[u8], place: usize) -> Hint
    requires within { place < length text.now }
    requires small { length text.now < 2 ^ 32 }
    ensures { result ≡ of_begun text.now place }
{
    if is_not_ascii(byte_at(text, place)) {
        return Hint::NotAscii(Bytes {
            start: place as u32,
            stop: not_ascii_stop(text, place) as u32,
        });
    }
    if is_name_byte(byte_at(text, place + 1)) {
        return Hint::NoName(Bytes {
            start: place as u32,
            stop: name_stop(text, place + 1) as u32,
        });
    }
    Hint::Byte(Bytes {
        start: place as u32,
        stop: (place + 1) as u32,
    })
}

/// What is told of a bad byte at a place, by the tokens of its line before it.
pub fn byte_hint(text: &[u8], before: &[Token], place: usize) -> Hint
    requires within { place < length text.now }
    requires small { length text.now < 2 ^ 32 }
    ensures { result ≡ of_byte text.now (tokens_view text.now before.now) place }
{
    let hint = or_hint_of(mark_hint(text, place), parameters_hint(text, before, place));
    let hint = or_hint_of(hint, called_hint(text, before, place));
    let hint = or_hint_of(hint, float_hint(text, before, place));
    let hint = or_hint_of(hint, fraction_hint(text, place));
    let hint = or_hint_of(hint, comma_hint(text, place));
    let hint = or_hint_of(hint, lone_hint(byte_at(text, place)));
    or_hint_of(hint, begun_hint(text, place))
}
