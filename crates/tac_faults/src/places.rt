// What stands at a place of a line.

ghost use Rattle.std.specs.Prelude.{◌≡◌, ◌+◌, ◌<◌, ◌≤◌, ◌^◌, ℕ, List, length, slice_index, nat_lt};
ghost use Rattle.std.specs.List.{prefix_len};
ghost use Rattle.tac_faults.specs.Hints.Places.{bytes_at as token_bytes, count_before as tokens_before, is_not_ascii as beyond_ascii};
ghost use Rattle.tac_faults.specs.Hints.Places.{name_at as token_name, run_stop, stands as stands_in};
ghost use Rattle.tac_lines.specs.code.Views.{slot_view, tokens_view};
ghost use Rattle.tac_program.specs.Spelling.{is_digit as digit, is_name_byte as name_byte};

use crate::slips::Bytes;
use tac_lines::{Slot, Token, TokenKind, fits_at};

/// The byte at a place, or 0 where there is none.
pub fn byte_at(text: &[u8], place: usize) -> u8
    ensures { result ≡ slice_index text.now place }
{
    if place < text.len() { text[place] } else { 0 }
}

/// Whether the byte may stand in a name.
pub fn is_name_byte(byte: u8) -> bool
    ensures { result ≡ name_byte byte }
{
    byte.is_ascii_uppercase() || byte.is_ascii_lowercase() || byte == b'_' || byte.is_ascii_digit()
}

/// Whether the byte is a digit.
pub fn is_digit(byte: u8) -> bool
    ensures { result ≡ digit byte }
{
    byte.is_ascii_digit()
}

/// Whether the byte is beyond ASCII.
pub fn is_not_ascii(byte: u8) -> bool
    ensures { result ≡ beyond_ascii byte }
{
    byte >= 128
}

/// Where the name bytes end that begin at the place.
pub fn name_stop(text: &[u8], place: usize) -> usize
    requires { place ≤ length text.now }
    ensures stop { result ≡ run_stop name_byte text.now place }
    ensures within { result ≤ length text.now }
{
    for at in place..text.len() {
        if !is_name_byte(text[at]) {
            return at;
        }
    }
    text.len()
}

/// Where the digits end that begin at the place.
pub fn digit_stop(text: &[u8], place: usize) -> usize
    requires { place ≤ length text.now }
    ensures stop { result ≡ run_stop digit text.now place }
    ensures within { result ≤ length text.now }
{
    for at in place..text.len() {
        if !is_digit(text[at]) {
            return at;
        }
    }
    text.len()
}

/// Where the bytes beyond ASCII end that begin at the place.
pub fn not_ascii_stop(text: &[u8], place: usize) -> usize
    requires { place ≤ length text.now }
    ensures stop { result ≡ run_stop beyond_ascii text.now place }
    ensures within { result ≤ length text.now }
{
    for at in place..text.len() {
        if !is_not_ascii(text[at]) {
            return at;
        }
    }
    text.len()
}

/// Whether the token there may stand in such a place of a form.
pub fn stands(slot: Slot, tokens: &[Token], at: usize) -> bool
    ensures { (text : List ℕ) → stands_in (slot_view slot) (tokens_view text tokens.now) at ≡ result }
{
    fits_at(slot, tokens, at)
}

/// Where the token there stands, or 0 and 0 where there is none.
pub fn bytes_at(tokens: &[Token], at: usize) -> Bytes
    ensures { (text : List ℕ) → token_bytes (tokens_view text tokens.now) at ≡ result }
{
    match tokens.get(at) {
        None => Bytes { start: 0, stop: 0 },
        Some(token) => Bytes {
            start: token.start,
            stop: token.stop,
        },
    }
}

/// The token there, where it is a name; else no bytes.
pub fn name_at<'a>(text: &'a [u8], tokens: &[Token], at: usize) -> &'a [u8]
    ensures { result.now ≡ token_name (tokens_view text.now tokens.now) at }
{
    match tokens.get(at) {
        None => &[],
        Some(token) => match token.kind {
            TokenKind::Name => token.bytes(text),
            _ => &[],
        },
    }
}

/// How many tokens start before a place.
pub fn count_before(tokens: &[Token], place: usize) -> usize
    ensures count { (text : List ℕ) → tokens_before (tokens_view text tokens.now) place ≡ result }
    ensures within { result ≤ length tokens.now }
{
    for at in 0..tokens.len() {
        if tokens[at].start as usize >= place {
            return at;
        }
    }
    tokens.len()
}
