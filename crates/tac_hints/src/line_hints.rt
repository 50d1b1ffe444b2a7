// What is told of a line that is no line form.

ghost use Rattle.std.specs.Prelude.{◌≡◌, ◌+◌, ◌<◌, ◌≤◌, ◌^◌, ◌-◌, ℕ, List, find, length, count_by, codes};
ghost use Rattle.tac_hints.specs.Lines.{begun_by as of_begun, callees_hint as of_callees, comment_hint as of_comment};
ghost use Rattle.tac_hints.specs.Lines.{equals_hint as of_equals, first_hint as of_first, goto_hint as of_goto, is_foreign as foreign};
ghost use Rattle.tac_hints.specs.Lines.{is_keyword as keyword_in, is_test as test_in, keyword_hint as of_keyword};
ghost use Rattle.tac_hints.specs.Lines.{labelled_hint as of_labelled};
ghost use Rattle.tac_hints.specs.Lines.{later_hint as of_later, negative_hint as of_negative, operator_hint as of_operator};
ghost use Rattle.tac_hints.specs.Lines.{reserved_hint as of_reserved, returned_hint as of_returned, second_hint as of_second};
ghost use Rattle.tac_hints.specs.Lines.{statement_hint as of_statement, taken_hint as of_taken, then_hint as of_then};
ghost use Rattle.tac_hints.specs.Lines.{unfinished_hint as of_unfinished};
ghost use Rattle.tac_hints.specs.Lines.{wants_name as name_wanted, wants_operand as operand_wanted};
ghost use Rattle.tac_faults.specs.Hints.Places.{stands as stands_in};
ghost use Rattle.tac_faults.specs.Hints.Near.{is_near as near, is_same_but_for_capitals as same_letters};
ghost use Rattle.tac_lines.specs.Forms.{fills, key};
ghost use Rattle.tac_lines.specs.code.Views.{keyword_text, tokens_view};

use tac_faults::near::{is_near, is_same_but_for_capitals};
use tac_faults::places::{byte_at, bytes_at, name_at, stands};
use tac_faults::slips::{Bytes, Hint, or_hint_of};
use tac_lines::{Keyword, Slot, Token, TokenKind, stop_of};
use tac_slips::{first_slip, later_slip, second_slip};

static KEYWORDS: [Keyword; 10] = [
    Keyword::Proc,
    Keyword::End,
    Keyword::Goto,
    Keyword::If,
    Keyword::IfFalse,
    Keyword::Call,
    Keyword::Return,
    Keyword::Read,
    Keyword::Print,
    Keyword::Skip,
];

static PROC: [Keyword; 1] = [Keyword::Proc];

static GOTO: [Keyword; 1] = [Keyword::Goto];

/// Whether the token there is a keyword.
fn is_keyword(tokens: &[Token], at: usize) -> bool
    ensures { (text : List ℕ) → keyword_in (tokens_view text tokens.now) at ≡ result }
{
    match tokens.get(at) {
        None => false,
        Some(token) => match token.kind {
            TokenKind::Keyword(_) => true,
            _ => false,
        },
    }
}

fn is_key(keyword: Keyword, tokens: &[Token], at: usize) -> bool
    ensures { (text : List ℕ) → stands_in (key (keyword_text keyword)) (tokens_view text tokens.now) at ≡ result }
{
    stands(Slot::Keyword(keyword), tokens, at)
}

/// Whether the statement is a test.
fn is_test(tokens: &[Token]) -> bool
    ensures { (text : List ℕ) → test_in (tokens_view text tokens.now) ≡ result }
{
    is_key(Keyword::If, tokens, 0) || is_key(Keyword::IfFalse, tokens, 0)
}

/// Whether `//` or `/*` stands there.
fn is_foreign(text: &[u8], place: usize) -> bool
    requires { place < 2 ^ 33 }
    ensures { foreign text.now place ≡ result }
{
    byte_at(text, place) == b'/'
        && (byte_at(text, place + 1) == b'/' || byte_at(text, place + 1) == b'*')
}

/// A comment as other languages have it.
pub fn comment_hint(text: &[u8], place: usize) -> Hint
    requires { place + 2 < 2 ^ 32 }
    ensures { result ≡ of_comment text.now place }
{
    if is_foreign(text, place) {
        Hint::Comment(Bytes {
            start: place as u32,
            stop: (place + 2) as u32,
        })
    } else if place > 0 && is_foreign(text, place - 1) {
        Hint::Comment(Bytes {
            start: (place - 1) as u32,
            stop: (place + 1) as u32,
        })
    } else {
        Hint::None
    }
}

/// The first keyword that has the name's letters, but for capitals.
fn find_letters(keywords: &[Keyword], name: &[u8]) -> Option<Keyword>
    ensures { result ≡ find (λ k. same_letters name.now (keyword_text k)) keywords.now }
{
    for keyword in keywords {
        if is_same_but_for_capitals(name, keyword.text()) {
            return Some(*keyword);
        }
    }
    None
}

/// The first keyword that is one slip away from the name.
fn find_near(keywords: &[Keyword], name: &[u8]) -> Option<Keyword>
    ensures { result ≡ find (λ k. near name.now (keyword_text k)) keywords.now }
{
    for keyword in keywords {
        if is_near(name, keyword.text()) {
            return Some(*keyword);
        }
    }
    None
}

/// The keyword that is meant by a name.
fn keyword_hint(keywords: &[Keyword], name: &[u8], bytes: Bytes) -> Hint
    ensures { result ≡ of_keyword keywords.now name.now bytes }
{
    if let Some(keyword) = find_letters(keywords, name) {
        return Hint::Capitals(keyword, bytes);
    }
    if name.len() <= 1 {
        return Hint::None;
    }
    match find_near(keywords, name) {
        None => Hint::None,
        Some(keyword) => Hint::Misspelt(keyword, bytes),
    }
}

/// The line's first token is wrong.
pub fn first_hint(text: &[u8], tokens: &[Token]) -> Hint
    ensures { result ≡ of_first (tokens_view text.now tokens.now) }
{
    let bytes = bytes_at(tokens, 0);
    let outside = if stands(Slot::Variable, tokens, 0) || is_keyword(tokens, 0) {
        Hint::Outside(bytes)
    } else {
        Hint::None
    };
    let proc = keyword_hint(&PROC, name_at(text, tokens, 0), bytes);
    or_hint_of(or_hint_of(proc, first_slip(text, tokens)), outside)
}

/// Behind labels the first token is wrong.
fn labelled_hint(tokens: &[Token]) -> Hint
    ensures { (text : List ℕ) → of_labelled (tokens_view text tokens.now) ≡ result }
{
    if is_key(Keyword::End, tokens, 0) || is_key(Keyword::Proc, tokens, 0) {
        Hint::LabelBefore(bytes_at(tokens, 0))
    } else if stands(Slot::Equals, tokens, 0) {
        Hint::ColonEquals(bytes_at(tokens, 0))
    } else {
        Hint::None
    }
}

/// A keyword that is used as a name.
fn taken_hint(tokens: &[Token]) -> Hint
    ensures { (text : List ℕ) → of_taken (tokens_view text tokens.now) ≡ result }
{
    if is_keyword(tokens, 0)
        && (stands(Slot::Equals, tokens, 1) || stands(Slot::Colon, tokens, 1))
    {
        Hint::Reserved(bytes_at(tokens, 0))
    } else {
        Hint::None
    }
}

/// What stands behind `return`.
fn returned_hint(tokens: &[Token]) -> Hint
    ensures { (text : List ℕ) → of_returned (tokens_view text tokens.now) ≡ result }
{
    if is_key(Keyword::Return, tokens, 0) && tokens.len() > 1 {
        Hint::Returned(Bytes {
            start: bytes_at(tokens, 1).start,
            stop: stop_of(tokens),
        })
    } else {
        Hint::None
    }
}

/// A misspelt keyword as the first word.
fn begun_hint(text: &[u8], tokens: &[Token]) -> Hint
    ensures { result ≡ of_begun (tokens_view text.now tokens.now) }
{
    if stands(Slot::Variable, tokens, 0)
        && (stands(Slot::Operand, tokens, 1) || is_keyword(tokens, 1) || tokens.len() <= 1)
    {
        keyword_hint(&KEYWORDS, name_at(text, tokens, 0), bytes_at(tokens, 0))
    } else {
        Hint::None
    }
}

/// The second token is wrong.
fn second_hint(text: &[u8], tokens: &[Token]) -> Hint
    ensures { result ≡ of_second (tokens_view text.now tokens.now) }
{
    let hint = or_hint_of(taken_hint(tokens), returned_hint(tokens));
    let hint = or_hint_of(hint, second_slip(text, tokens));
    or_hint_of(hint, begun_hint(text, tokens))
}

/// There is no further token.
fn unfinished_hint(tokens: &[Token], at: usize) -> Hint
    ensures { (text : List ℕ) → of_unfinished (tokens_view text tokens.now) at ≡ result }
{
    if tokens.len() <= at {
        Hint::Unfinished(bytes_at(tokens, at.saturating_sub(1)))
    } else {
        Hint::None
    }
}

/// `=` in a test.
fn equals_hint(tokens: &[Token], at: usize) -> Hint
    ensures { (text : List ℕ) → of_equals (tokens_view text tokens.now) at ≡ result }
{
    if at == 2 && is_test(tokens) && stands(Slot::Equals, tokens, at) {
        Hint::EqualsInTest(bytes_at(tokens, at))
    } else {
        Hint::None
    }
}

/// `then` in a test.
fn then_hint(text: &[u8], tokens: &[Token], at: usize) -> Hint
    ensures { result ≡ of_then (tokens_view text.now tokens.now) at }
{
    if is_test(tokens) && name_at(text, tokens, at) == b"then".as_slice() {
        Hint::Then(bytes_at(tokens, at))
    } else {
        Hint::None
    }
}

/// `goto` is misspelt in a test.
fn goto_hint(text: &[u8], tokens: &[Token], at: usize) -> Hint
    ensures { result ≡ of_goto (tokens_view text.now tokens.now) at }
{
    if is_test(tokens) {
        keyword_hint(&GOTO, name_at(text, tokens, at), bytes_at(tokens, at))
    } else {
        Hint::None
    }
}

/// Whether an operand is wanted behind the token there.
fn wants_operand(tokens: &[Token], at: usize) -> bool
    ensures { (text : List ℕ) → operand_wanted (tokens_view text tokens.now) at ≡ result }
{
    stands(Slot::Binary, tokens, at)
        || is_key(Keyword::If, tokens, at)
        || is_key(Keyword::IfFalse, tokens, at)
        || is_key(Keyword::Print, tokens, at)
}

/// Whether a name is wanted behind the token there.
fn wants_name(tokens: &[Token], at: usize) -> bool
    ensures { (text : List ℕ) → name_wanted (tokens_view text tokens.now) at ≡ result }
{
    wants_operand(tokens, at)
        || stands(Slot::Equals, tokens, at)
        || stands(Slot::Unary, tokens, at)
        || is_key(Keyword::Goto, tokens, at)
        || is_key(Keyword::Call, tokens, at)
        || is_key(Keyword::Read, tokens, at)
        || is_key(Keyword::Proc, tokens, at)
}

/// A reserved word where a name is wanted.
fn reserved_hint(tokens: &[Token], at: usize) -> Hint
    ensures { (text : List ℕ) → of_reserved (tokens_view text tokens.now) at ≡ result }
{
    if is_keyword(tokens, at) && wants_name(tokens, at.saturating_sub(1)) {
        Hint::Reserved(bytes_at(tokens, at))
    } else {
        Hint::None
    }
}

/// A unary operator where an operand is wanted.
fn negative_hint(tokens: &[Token], at: usize) -> Hint
    requires { at ≤ length tokens.now }
    ensures { (text : List ℕ) → of_negative (tokens_view text tokens.now) at ≡ result }
{
    if stands(Slot::Unary, tokens, at)
        && stands(Slot::Operand, tokens, at + 1)
        && wants_operand(tokens, at.saturating_sub(1))
    {
        Hint::Negative(Bytes {
            start: bytes_at(tokens, at).start,
            stop: bytes_at(tokens, at + 1).stop,
        })
    } else {
        Hint::None
    }
}

/// A second operator in a statement.
fn operator_hint(tokens: &[Token], at: usize) -> Hint
    ensures { (text : List ℕ) → of_operator (tokens_view text tokens.now) at ≡ result }
{
    if at >= 2
        && stands(Slot::Binary, tokens, at)
        && stands(Slot::Operand, tokens, at - 1)
        && (stands(Slot::Equals, tokens, 1)
            || is_test(tokens)
            || is_key(Keyword::Print, tokens, 0))
    {
        Hint::SecondOperator(bytes_at(tokens, at))
    } else {
        Hint::None
    }
}

/// How many bars there are.
fn count_bars(tokens: &[Token]) -> usize
    ensures { (text : List ℕ) → count_by (λ t. fills (key (codes "|")) t.word) (tokens_view text tokens.now) ≡ result }
{
    let mut count: usize = 0;
    for at in 0..tokens.len() {
        if stands(Slot::Bar, tokens, at) {
            count += 1;
        }
    }
    count
}

/// A call lists more than eight procedures.
fn callees_hint(tokens: &[Token], at: usize) -> Hint
    ensures { (text : List ℕ) → of_callees (tokens_view text tokens.now) at ≡ result }
{
    if at == 16 && is_key(Keyword::Call, tokens, 0) && stands(Slot::Bar, tokens, at) {
        Hint::ManyCallees(count_bars(tokens).saturating_sub(7))
    } else {
        Hint::None
    }
}

/// A later token is wrong, or lacks.
fn later_hint(text: &[u8], tokens: &[Token], at: usize) -> Hint
    requires { at ≤ length tokens.now }
    ensures { result ≡ of_later (tokens_view text.now tokens.now) at }
{
    let hint = or_hint_of(unfinished_hint(tokens, at), later_slip(text, tokens, at));
    let hint = or_hint_of(hint, equals_hint(tokens, at));
    let hint = or_hint_of(hint, then_hint(text, tokens, at));
    let hint = or_hint_of(hint, goto_hint(text, tokens, at));
    let hint = or_hint_of(hint, reserved_hint(tokens, at));
    let hint = or_hint_of(hint, negative_hint(tokens, at));
    let hint = or_hint_of(hint, operator_hint(tokens, at));
    or_hint_of(hint, callees_hint(tokens, at))
}

/// What is told of a statement whose token there is the first that is wrong.
pub fn statement_hint(text: &[u8], tokens: &[Token], at: usize) -> Hint
    requires { at ≤ length tokens.now }
    ensures { result ≡ of_statement (tokens_view text.now tokens.now) at }
{
    if at == 0 {
        return or_hint_of(labelled_hint(tokens), first_slip(text, tokens));
    }
    let second = if at == 1 {
        second_hint(text, tokens)
    } else {
        Hint::None
    };
    or_hint_of(second, later_hint(text, tokens, at))
}
