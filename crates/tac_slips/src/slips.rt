// What is told of words and signs that other languages have.

ghost use Rattle.std.specs.Prelude.{◌≡◌, ◌≤◌, ℕ, List, length};
ghost use Rattle.tac_slips.specs.Slips.{assignment_hint as of_assignment, bytes_between as between, colon_hint as of_colon, connective_at as at_connective};
ghost use Rattle.tac_slips.specs.Slips.{connective_hint as of_connective, control_hint as of_control, controls as is_control};
ghost use Rattle.tac_slips.specs.Slips.{declaration_hint as of_declaration, declares as is_declaration, different_hint as of_different};
ghost use Rattle.tac_slips.specs.Slips.{first_number_hint as of_first_number, first_slip as of_first, goes_on as on_goes, is_address as address_in};
ghost use Rattle.tac_slips.specs.Slips.{is_connective as connective_in, is_joined as joined_in, is_number_at as number_in, is_over as over_in};
ghost use Rattle.tac_slips.specs.Slips.{is_sign as sign_in, joined_hint as of_joined, later_slip as of_later, negation_hint as of_negation};
ghost use Rattle.tac_slips.specs.Slips.{number_hint as of_number, opening_hint as of_opening, opens as is_opening, own_line_hint as of_own_line};
ghost use Rattle.tac_slips.specs.Slips.{pointer_hint as of_pointer, second_slip as of_second, second_statement_hint as of_second_statement};
ghost use Rattle.tac_slips.specs.Slips.{spelled as spelled_in, turned_hint as of_turned, wants_no_number as no_number_wanted};
ghost use Rattle.tac_lines.specs.code.Views.{tokens_view};

use tac_faults::places::{bytes_at, name_at, stands};
use tac_faults::slips::{Bytes, Hint, Slip, or_hint_of};
use tac_lines::{Keyword, Slot, Token, stop_of};

/// How the token there is spelled; a number, and a token that is not there, has no bytes.
fn spelled<'a>(text: &'a [u8], tokens: &[Token], at: usize) -> &'a [u8]
    ensures { result.now ≡ spelled_in (tokens_view text.now tokens.now) at }
{
    match tokens.get(at) {
        None => &[],
        Some(token) => token.spelling(text),
    }
}

fn is_sign(sign: &[u8], text: &[u8], tokens: &[Token], at: usize) -> bool
    ensures { result ≡ sign_in sign.now (tokens_view text.now tokens.now) at }
{
    spelled(text, tokens, at) == sign
}

/// Whether the token there is a number.
fn is_number_at(tokens: &[Token], at: usize) -> bool
    ensures { (text : List ℕ) → number_in (tokens_view text tokens.now) at ≡ result }
{
    stands(Slot::Operand, tokens, at) && !stands(Slot::Variable, tokens, at)
}

/// The bytes from one token to another.
fn bytes_between(tokens: &[Token], first: usize, last: usize) -> Bytes
    ensures { (text : List ℕ) → between (tokens_view text tokens.now) first last ≡ result }
{
    Bytes {
        start: bytes_at(tokens, first).start,
        stop: bytes_at(tokens, last).stop,
    }
}

/// Whether the sign behind the first name goes on in the next token.
fn goes_on(text: &[u8], tokens: &[Token]) -> bool
    ensures { result ≡ on_goes (tokens_view text.now tokens.now) }
{
    is_sign(b"=", text, tokens, 2)
        || is_sign(b"+", text, tokens, 2)
        || is_sign(b"-", text, tokens, 2)
}

/// A sign behind the first name that sets no variable.
fn assignment_hint(text: &[u8], tokens: &[Token]) -> Hint
    ensures { result ≡ of_assignment (tokens_view text.now tokens.now) }
{
    if stands(Slot::Variable, tokens, 0) && stands(Slot::Binary, tokens, 1) {
        let last = if goes_on(text, tokens) { 2 } else { 1 };
        Hint::Slip(Slip::Assignment, bytes_between(tokens, 1, last))
    } else {
        Hint::None
    }
}

/// Whether other languages declare a variable with the word.
fn declares(word: &[u8]) -> bool
    ensures { result ≡ is_declaration word.now }
{
    word == b"int".as_slice()
        || word == b"var".as_slice()
        || word == b"let".as_slice()
        || word == b"long".as_slice()
        || word == b"char".as_slice()
        || word == b"bool".as_slice()
        || word == b"float".as_slice()
        || word == b"double".as_slice()
        || word == b"const".as_slice()
        || word == b"global".as_slice()
        || word == b"local".as_slice()
}

/// Whether they open a procedure with it.
fn opens(word: &[u8]) -> bool
    ensures { result ≡ is_opening word.now }
{
    word == b"procedure".as_slice()
        || word == b"function".as_slice()
        || word == b"func".as_slice()
        || word == b"fn".as_slice()
        || word == b"def".as_slice()
        || word == b"sub".as_slice()
        || word == b"void".as_slice()
        || word == b"int".as_slice()
}

/// Whether they write loops and branches with it.
fn controls(word: &[u8]) -> bool
    ensures { result ≡ is_control word.now }
{
    word == b"while".as_slice()
        || word == b"for".as_slice()
        || word == b"do".as_slice()
        || word == b"else".as_slice()
        || word == b"elif".as_slice()
        || word == b"switch".as_slice()
        || word == b"case".as_slice()
        || word == b"break".as_slice()
        || word == b"continue".as_slice()
        || word == b"loop".as_slice()
        || word == b"until".as_slice()
        || word == b"repeat".as_slice()
        || word == b"endif".as_slice()
}

/// A word that declares a variable.
fn declaration_hint(text: &[u8], tokens: &[Token]) -> Hint
    ensures { result ≡ of_declaration (tokens_view text.now tokens.now) }
{
    if declares(name_at(text, tokens, 0)) {
        Hint::Slip(Slip::Declaration, bytes_at(tokens, 0))
    } else {
        Hint::None
    }
}

/// A word that opens a procedure.
fn opening_hint(text: &[u8], tokens: &[Token]) -> Hint
    ensures { result ≡ of_opening (tokens_view text.now tokens.now) }
{
    if opens(name_at(text, tokens, 0)) {
        Hint::Slip(Slip::Opening, bytes_at(tokens, 0))
    } else {
        Hint::None
    }
}

/// A word of loops and branches.
fn control_hint(text: &[u8], tokens: &[Token], at: usize) -> Hint
    ensures { result ≡ of_control (tokens_view text.now tokens.now) at }
{
    if controls(name_at(text, tokens, at)) {
        Hint::Slip(Slip::Control, bytes_at(tokens, at))
    } else {
        Hint::None
    }
}

/// Whether `*` or `&` stands there.
fn is_address(text: &[u8], tokens: &[Token], at: usize) -> bool
    ensures { result ≡ address_in (tokens_view text.now tokens.now) at }
{
    is_sign(b"*", text, tokens, at) || is_sign(b"&", text, tokens, at)
}

/// `*` or `&` before a name.
fn pointer_hint(text: &[u8], tokens: &[Token], at: usize) -> Hint
    requires { at ≤ length tokens.now }
    ensures { result ≡ of_pointer (tokens_view text.now tokens.now) at }
{
    if is_address(text, tokens, at)
        && stands(Slot::Variable, tokens, at + 1)
        && (at == 0 || !is_address(text, tokens, at - 1))
    {
        Hint::Slip(Slip::Pointer, bytes_between(tokens, at, at + 1))
    } else {
        Hint::None
    }
}

/// Whether `&&` or `||` begins there.
fn is_connective(text: &[u8], tokens: &[Token], at: usize) -> bool
    requires { at ≤ length tokens.now }
    ensures { result ≡ connective_in (tokens_view text.now tokens.now) at }
{
    is_sign(b"&", text, tokens, at) && is_sign(b"&", text, tokens, at + 1)
        || is_sign(b"|", text, tokens, at) && is_sign(b"|", text, tokens, at + 1)
}

/// `&&` or `||` that begins there.
fn connective_at(text: &[u8], tokens: &[Token], at: usize) -> Hint
    requires { at ≤ length tokens.now }
    ensures { result ≡ at_connective (tokens_view text.now tokens.now) at }
{
    if is_connective(text, tokens, at) {
        Hint::Slip(Slip::Connective, bytes_between(tokens, at, at + 1))
    } else {
        Hint::None
    }
}

/// `&&` or `||`, of which one sign stands there.
fn connective_hint(text: &[u8], tokens: &[Token], at: usize) -> Hint
    requires { at ≤ length tokens.now }
    ensures { result ≡ of_connective (tokens_view text.now tokens.now) at }
{
    or_hint_of(
        connective_at(text, tokens, at),
        connective_at(text, tokens, at.saturating_sub(1)),
    )
}

/// Whether a number stands there, and a name follows it with nothing between them.
fn is_joined(tokens: &[Token], at: usize) -> bool
    requires { at ≤ length tokens.now }
    ensures { (text : List ℕ) → joined_in (tokens_view text tokens.now) at ≡ result }
{
    is_number_at(tokens, at)
        && stands(Slot::Variable, tokens, at + 1)
        && bytes_at(tokens, at).stop == bytes_at(tokens, at + 1).start
}

/// A number that a name follows with nothing between them.
fn joined_hint(tokens: &[Token], at: usize) -> Hint
    requires { at ≤ length tokens.now }
    ensures { (text : List ℕ) → of_joined (tokens_view text tokens.now) at ≡ result }
{
    if is_joined(tokens, at) {
        Hint::Slip(Slip::NumberAndName, bytes_between(tokens, at, at + 1))
    } else {
        Hint::None
    }
}

/// Whether behind the word there a name is wanted, and no number.
fn wants_no_number(tokens: &[Token], at: usize) -> bool
    ensures { (text : List ℕ) → no_number_wanted (tokens_view text tokens.now) at ≡ result }
{
    stands(Slot::Keyword(Keyword::Goto), tokens, at)
        || stands(Slot::Keyword(Keyword::Call), tokens, at)
        || stands(Slot::Keyword(Keyword::Read), tokens, at)
        || stands(Slot::Keyword(Keyword::Proc), tokens, at)
}

/// A number where a name is wanted.
fn number_hint(tokens: &[Token], at: usize) -> Hint
    ensures { (text : List ℕ) → of_number (tokens_view text tokens.now) at ≡ result }
{
    if is_number_at(tokens, at) && wants_no_number(tokens, at.saturating_sub(1)) {
        Hint::Slip(Slip::NumberForName, bytes_at(tokens, at))
    } else {
        Hint::None
    }
}

/// A number as the first token.
fn first_number_hint(tokens: &[Token]) -> Hint
    ensures { (text : List ℕ) → of_first_number (tokens_view text tokens.now) ≡ result }
{
    let number = if is_number_at(tokens, 0) {
        Hint::Slip(Slip::NumberForName, bytes_at(tokens, 0))
    } else {
        Hint::None
    };
    or_hint_of(joined_hint(tokens, 0), number)
}

/// Whether `end`, or `proc NAME`, is over there.
fn is_over(tokens: &[Token], at: usize) -> bool
    ensures { (text : List ℕ) → over_in (tokens_view text tokens.now) at ≡ result }
{
    at == 1 && stands(Slot::Keyword(Keyword::End), tokens, 0)
        || at == 2 && stands(Slot::Keyword(Keyword::Proc), tokens, 0)
}

/// What stands behind `end`, or behind `proc NAME`.
fn own_line_hint(tokens: &[Token], at: usize) -> Hint
    ensures { (text : List ℕ) → of_own_line (tokens_view text tokens.now) at ≡ result }
{
    if is_over(tokens, at) && at < tokens.len() {
        Hint::Slip(
            Slip::OwnLine,
            Bytes {
                start: bytes_at(tokens, at).start,
                stop: stop_of(tokens),
            },
        )
    } else {
        Hint::None
    }
}

/// `=<` or `=>`.
fn turned_hint(text: &[u8], tokens: &[Token], at: usize) -> Hint
    requires { at ≤ length tokens.now }
    ensures { result ≡ of_turned (tokens_view text.now tokens.now) at }
{
    if is_sign(b"=", text, tokens, at)
        && (is_sign(b"<", text, tokens, at + 1) || is_sign(b">", text, tokens, at + 1))
    {
        Hint::Slip(Slip::Turned, bytes_between(tokens, at, at + 1))
    } else {
        Hint::None
    }
}

/// `<>`.
fn different_hint(text: &[u8], tokens: &[Token], at: usize) -> Hint
    ensures { result ≡ of_different (tokens_view text.now tokens.now) at }
{
    let before = at.saturating_sub(1);
    if is_sign(b"<", text, tokens, before) && is_sign(b">", text, tokens, at) {
        Hint::Slip(Slip::Different, bytes_between(tokens, before, at))
    } else {
        Hint::None
    }
}

/// `!` at the beginning of a test.
fn negation_hint(text: &[u8], tokens: &[Token], at: usize) -> Hint
    ensures { result ≡ of_negation (tokens_view text.now tokens.now) at }
{
    if at == 1 && stands(Slot::Keyword(Keyword::If), tokens, 0) && is_sign(b"!", text, tokens, 1) {
        Hint::Slip(Slip::Negation, bytes_at(tokens, 1))
    } else {
        Hint::None
    }
}

/// `:` behind the label of a jump.
fn colon_hint(tokens: &[Token], at: usize) -> Hint
    ensures { (text : List ℕ) → of_colon (tokens_view text tokens.now) at ≡ result }
{
    if at >= 2
        && stands(Slot::Colon, tokens, at)
        && stands(Slot::Keyword(Keyword::Goto), tokens, at - 2)
    {
        Hint::Slip(Slip::ColonInJump, bytes_at(tokens, at))
    } else {
        Hint::None
    }
}

/// A name that `=` follows, where a statement may have ended.
fn second_statement_hint(tokens: &[Token], at: usize) -> Hint
    requires { at ≤ length tokens.now }
    ensures { (text : List ℕ) → of_second_statement (tokens_view text tokens.now) at ≡ result }
{
    if at >= 2
        && stands(Slot::Operand, tokens, at - 1)
        && stands(Slot::Variable, tokens, at)
        && stands(Slot::Equals, tokens, at + 1)
    {
        Hint::Slip(Slip::SecondStatement, bytes_at(tokens, at))
    } else {
        Hint::None
    }
}

/// A slip at the first token of a line.
pub fn first_slip(text: &[u8], tokens: &[Token]) -> Hint
    ensures { result ≡ of_first (tokens_view text.now tokens.now) }
{
    let hint = or_hint_of(opening_hint(text, tokens), first_number_hint(tokens));
    or_hint_of(hint, pointer_hint(text, tokens, 0))
}

/// A slip at the second one.
pub fn second_slip(text: &[u8], tokens: &[Token]) -> Hint
    ensures { result ≡ of_second (tokens_view text.now tokens.now) }
{
    let hint = or_hint_of(
        declaration_hint(text, tokens),
        control_hint(text, tokens, 0),
    );
    or_hint_of(hint, assignment_hint(text, tokens))
}

/// A slip at a later one.
pub fn later_slip(text: &[u8], tokens: &[Token], at: usize) -> Hint
    requires { at ≤ length tokens.now }
    ensures { result ≡ of_later (tokens_view text.now tokens.now) at }
{
    let hint = or_hint_of(own_line_hint(tokens, at), control_hint(text, tokens, at));
    let hint = or_hint_of(hint, connective_hint(text, tokens, at));
    let hint = or_hint_of(hint, turned_hint(text, tokens, at));
    let hint = or_hint_of(hint, different_hint(text, tokens, at));
    let hint = or_hint_of(hint, joined_hint(tokens, at.saturating_sub(1)));
    let hint = or_hint_of(hint, number_hint(tokens, at));
    let hint = or_hint_of(hint, negation_hint(text, tokens, at));
    let hint = or_hint_of(hint, pointer_hint(text, tokens, at));
    or_hint_of(
        hint,
        or_hint_of(colon_hint(tokens, at), second_statement_hint(tokens, at)),
    )
}
