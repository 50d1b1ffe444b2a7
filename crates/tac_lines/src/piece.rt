// The longest token, blank or comment at the front of some bytes.

ghost use Rattle.std.specs.Prelude.{◌≡◌, ℕ, List, ◌+◌, ◌<◌, ◌≤◌, [], ◌∷◌, length, true, false, slice_index, take, IsTrue, IfSome, Some, None};
ghost use Rattle.std.specs.Prelude.{option_map};
ghost use Rattle.std.specs.List.{prefix_len};
ghost use Rattle.tac_lines.specs.Text.{no_line_end};
ghost use Rattle.tac_lines.specs.Tokens.{longest, signs, is_blank, picked, name_or_keyword, number_piece, value_of, word, gap};
ghost use Rattle.tac_program.specs.Spelling.{is_letter, is_digit, is_name_byte, keywords};
ghost use Rattle.tac_program.specs.Names.{is_one_of};
ghost use Rattle.tac_lines.specs.code.Views.{piece_at, front_view, word_at};

use crate::token::{Keyword, TokenKind};
use tac_program::Op;

fn starts_name(b: u8) -> bool
    ensures { result ≡ is_letter b }
{
    b.is_ascii_uppercase() || b.is_ascii_lowercase() || b == b'_'
}

fn continues_name(b: u8) -> bool
    ensures { result ≡ is_name_byte b }
{
    starts_name(b) || b.is_ascii_digit()
}

/// How many bytes at the front may stand in a name.
fn name_run(bytes: &[u8]) -> usize
    ensures run { result ≡ prefix_len is_name_byte bytes.now }
    ensures within { result ≤ length bytes.now }
{
    for (i, b) in bytes.iter().enumerate() {
        if !continues_name(*b) {
            return i;
        }
    }
    bytes.len()
}

/// How many digits there are at the front.
fn digit_run(bytes: &[u8]) -> usize
    ensures run { result ≡ prefix_len is_digit bytes.now }
    ensures within { result ≤ length bytes.now }
{
    for (i, b) in bytes.iter().enumerate() {
        if !b.is_ascii_digit() {
            return i;
        }
    }
    bytes.len()
}

/// How many bytes there are before the first line feed.
pub fn line_run(bytes: &[u8]) -> usize
    ensures run { result ≡ prefix_len no_line_end bytes.now }
    ensures within { result ≤ length bytes.now }
{
    for (i, b) in bytes.iter().enumerate() {
        if *b == b'\n' {
            return i;
        }
    }
    bytes.len()
}

/// How long the name at the front is.
fn name_len(rest: &[u8]) -> usize
    requires some { 0 < length rest.now }
    requires letter { IsTrue (is_letter (slice_index rest.now 0)) }
    ensures longest { longest rest.now ≡ Some (result, name_or_keyword (take result rest.now)) }
    ensures within { result ≤ length rest.now }
    ensures some { 0 < result }
{
    1 + name_run(&rest[1..])
}

/// How long the number at the front is.
fn number_len(rest: &[u8]) -> usize
    requires some { 0 < length rest.now }
    requires digit { IsTrue (is_digit (slice_index rest.now 0)) }
    ensures longest { longest rest.now ≡ Some (result, number_piece (take result rest.now)) }
    ensures within { result ≤ length rest.now }
    ensures some { 0 < result }
{
    1 + digit_run(&rest[1..])
}

/// How long the comment at the front is.
fn comment_len(rest: &[u8]) -> usize
    requires some { 0 < length rest.now }
    requires hash { slice_index rest.now 0 ≡ 35 }
    ensures longest { longest rest.now ≡ Some (result, gap) }
    ensures within { result ≤ length rest.now }
    ensures some { 0 < result }
{
    1 + line_run(&rest[1..])
}

/// The sign or the blank of these two bytes.
fn pair(first: u8, second: u8) -> Option<Option<TokenKind>>
    ensures { option_map (piece_at (first ∷ second ∷ [])) result
        ≡ picked false false (is_one_of (first ∷ second ∷ []) signs) (is_blank (first ∷ second ∷ [])) (first ∷ second ∷ []) }
{
    match (first, second) {
        (b'<', b'<') => Some(Some(TokenKind::Operator(Op::ShiftLeft))),
        (b'>', b'>') => Some(Some(TokenKind::Operator(Op::ShiftRight))),
        (b'<', b'=') => Some(Some(TokenKind::Operator(Op::LessEqual))),
        (b'>', b'=') => Some(Some(TokenKind::Operator(Op::GreaterEqual))),
        (b'=', b'=') => Some(Some(TokenKind::Operator(Op::Equal))),
        (b'!', b'=') => Some(Some(TokenKind::Operator(Op::NotEqual))),
        (b'\r', b'\n') => Some(None),
        _ => None,
    }
}

/// The sign or the blank of this byte.
fn single(byte: u8) -> Option<Option<TokenKind>>
    ensures { option_map (piece_at (byte ∷ [])) result ≡ picked false false (is_one_of (byte ∷ []) signs) (is_blank (byte ∷ [])) (byte ∷ []) }
{
    let op = match byte {
        b' ' => return Some(None),
        b'\t' => return Some(None),
        b'\n' => return Some(None),
        b':' => return Some(Some(TokenKind::Colon)),
        b'=' => return Some(Some(TokenKind::Equals)),
        b'+' => Op::Plus,
        b'-' => Op::Minus,
        b'*' => Op::Star,
        b'/' => Op::Slash,
        b'%' => Op::Percent,
        b'&' => Op::And,
        b'|' => Op::Or,
        b'^' => Op::Caret,
        b'<' => Op::Less,
        b'>' => Op::Greater,
        b'~' => Op::Tilde,
        b'!' => Op::Bang,
        _ => return None,
    };
    Some(Some(TokenKind::Operator(op)))
}

/// Whether no keyword begins as this name does.
fn begins_no_keyword(name: &[u8]) -> bool
    ensures { result ≡ true → is_one_of name.now keywords ≡ false }
{
    match name.first() {
        None => false,
        Some(first) => match *first {
            b'c' => false,
            b'e' => false,
            b'g' => false,
            b'i' => false,
            b'p' => false,
            b'r' => false,
            b's' => false,
            _ => true,
        },
    }
}

/// The keyword that is spelled so, or a name.
fn name_kind(name: &[u8]) -> TokenKind
    ensures { word (word_at name.now result) ≡ name_or_keyword name.now }
{
    if begins_no_keyword(name) {
        return TokenKind::Name;
    }
    if name == b"proc".as_slice() {
        TokenKind::Keyword(Keyword::Proc)
    } else if name == b"end".as_slice() {
        TokenKind::Keyword(Keyword::End)
    } else if name == b"goto".as_slice() {
        TokenKind::Keyword(Keyword::Goto)
    } else if name == b"if".as_slice() {
        TokenKind::Keyword(Keyword::If)
    } else if name == b"ifFalse".as_slice() {
        TokenKind::Keyword(Keyword::IfFalse)
    } else if name == b"call".as_slice() {
        TokenKind::Keyword(Keyword::Call)
    } else if name == b"return".as_slice() {
        TokenKind::Keyword(Keyword::Return)
    } else if name == b"read".as_slice() {
        TokenKind::Keyword(Keyword::Read)
    } else if name == b"print".as_slice() {
        TokenKind::Keyword(Keyword::Print)
    } else if name == b"skip".as_slice() {
        TokenKind::Keyword(Keyword::Skip)
    } else {
        TokenKind::Name
    }
}

/// Whether the byte is a blank whatever stands behind it.
fn is_plain_blank(byte: u8) -> bool
    ensures { result ≡ true → (rest : List ℕ) → longest (byte ∷ rest) ≡ Some (1, gap) }
{
    byte == b' ' || byte == b'\n'
}

/// The longest piece at the front: its length, and what it is where it is no gap.
pub fn front(rest: &[u8]) -> Option<(usize, Option<TokenKind>)>
    ensures piece { longest rest.now ≡ option_map (front_view rest.now) result }
    ensures within { IfSome result (λ r. r.0 ≤ length rest.now) }
    ensures some { IfSome result (λ r. 0 < r.0) }
{
    let first = match rest.first() {
        None => return None,
        Some(first) => *first,
    };
    if is_plain_blank(first) {
        return Some((1, None));
    }
    if starts_name(first) {
        let len = name_len(rest);
        return Some((len, Some(name_kind(&rest[..len]))));
    }
    if first.is_ascii_digit() {
        return Some((number_len(rest), Some(TokenKind::Number)));
    }
    if first == b'#' {
        return Some((comment_len(rest), None));
    }
    if rest.len() > 1 {
        if let Some(kind) = pair(first, rest[1]) {
            return Some((2, kind));
        }
    }
    match single(first) {
        None => None,
        Some(kind) => Some((1, kind)),
    }
}

/// One more than the largest number, at which values stop to grow.
const TOO_LARGE: u64 = 9_223_372_036_854_775_808;

/// The value of the digits, or `TOO_LARGE` where it is at least that.
pub fn number_value(digits: &[u8]) -> u64
    ensures { result ≡ value_of digits.now }
{
    let mut value: u64 = 0;
    for digit in digits {
        // A run of leading zeros may be as long as the text.
        if value == 0 && *digit == b'0' {
            continue;
        }
        let next = value
            .saturating_mul(10)
            .saturating_add(u64::from(digit.saturating_sub(b'0')));
        value = next.min(TOO_LARGE);
    }
    value
}
