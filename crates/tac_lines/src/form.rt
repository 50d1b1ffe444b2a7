// The forms of lines: what stands in each place of them.

ghost use Rattle.std.specs.Prelude.{◌≡◌, ℕ, List, [], ◌∷◌, option_map, slice_get, length};
ghost use Rattle.tac_lines.specs.Forms.{fills, first_wrong, has_form, comparison, unary, statement_forms};
ghost use Rattle.tac_lines.specs.code.Views.{GoesAsFar, tokens_view, word_at, slot_view, slots_view, form_slots, fills_at, of_key};
ghost use Rattle.tac_lines.specs.code.Views.{wrong_of, is_whole};

use crate::token::{Keyword, Token, TokenKind};
use tac_program::Op;

/// The form of a statement: one for each row of the table of statements.
#[derive(Clone, Copy, PartialEq, Eq)]
pub enum Form {
    Copy,
    Unary,
    Binary,
    Jump,
    Test,
    NegatedTest,
    Comparison,
    Call,
    Return,
    Read,
    Print,
    Skip,
}

/// What may stand in a place of a form.
#[derive(Clone, Copy)]
pub enum Slot {
    Keyword(Keyword),
    Colon,
    Equals,
    Bar,
    Procedure,
    Variable,
    Operand,
    Label,
    Callee,
    Binary,
    Unary,
    Comparison,
}

/// What a walk along a form found: the place of the first token that does not fit, or all of them
/// fit, and are a part of the form or the whole of it.
#[derive(Clone, Copy)]
pub enum Walk {
    Wrong(u32),
    Unfinished,
    Whole,
}

/// The line that opens a procedure.
pub static PROC: [Slot; 2] = [Slot::Keyword(Keyword::Proc), Slot::Procedure];
/// The line that closes it.
pub static END: [Slot; 1] = [Slot::Keyword(Keyword::End)];

static COPY: [Slot; 3] = [Slot::Variable, Slot::Equals, Slot::Operand];

static UNARY: [Slot; 4] = [Slot::Variable, Slot::Equals, Slot::Unary, Slot::Operand];

static BINARY: [Slot; 5] = [
    Slot::Variable,
    Slot::Equals,
    Slot::Operand,
    Slot::Binary,
    Slot::Operand,
];

static JUMP: [Slot; 2] = [Slot::Keyword(Keyword::Goto), Slot::Label];

static TEST: [Slot; 4] = [
    Slot::Keyword(Keyword::If),
    Slot::Operand,
    Slot::Keyword(Keyword::Goto),
    Slot::Label,
];

static NEGATED_TEST: [Slot; 4] = [
    Slot::Keyword(Keyword::IfFalse),
    Slot::Operand,
    Slot::Keyword(Keyword::Goto),
    Slot::Label,
];

static COMPARISON: [Slot; 6] = [
    Slot::Keyword(Keyword::If),
    Slot::Operand,
    Slot::Comparison,
    Slot::Operand,
    Slot::Keyword(Keyword::Goto),
    Slot::Label,
];

static RETURN: [Slot; 1] = [Slot::Keyword(Keyword::Return)];

static READ: [Slot; 2] = [Slot::Keyword(Keyword::Read), Slot::Variable];

static PRINT: [Slot; 2] = [Slot::Keyword(Keyword::Print), Slot::Operand];

static SKIP: [Slot; 1] = [Slot::Keyword(Keyword::Skip)];

/// A call of as many procedures as it may list.
static CALL: [Slot; 16] = [
    Slot::Keyword(Keyword::Call),
    Slot::Callee,
    Slot::Bar,
    Slot::Callee,
    Slot::Bar,
    Slot::Callee,
    Slot::Bar,
    Slot::Callee,
    Slot::Bar,
    Slot::Callee,
    Slot::Bar,
    Slot::Callee,
    Slot::Bar,
    Slot::Callee,
    Slot::Bar,
    Slot::Callee,
];

/// The places of a form; of a call those that this many tokens can fill, to the next callee.
pub fn slots_of(form: Form, tokens: usize) -> &'static [Slot]
    ensures { slots_view result.now ≡ form_slots form tokens }
{
    match form {
        Form::Copy => &COPY,
        Form::Unary => &UNARY,
        Form::Binary => &BINARY,
        Form::Jump => &JUMP,
        Form::Test => &TEST,
        Form::NegatedTest => &NEGATED_TEST,
        Form::Comparison => &COMPARISON,
        Form::Call => call_slots(tokens),
        Form::Return => &RETURN,
        Form::Read => &READ,
        Form::Print => &PRINT,
        Form::Skip => &SKIP,
    }
}

/// The places of a call that this many tokens can fill, to the next callee.
fn call_slots(tokens: usize) -> &'static [Slot]
    ensures { slots_view result.now ≡ form_slots (Form.Call) tokens }
{
    let more = tokens.saturating_sub(2).min(14);
    &CALL[..2 + more + more % 2]
}

fn is_unary(op: Op) -> bool
    ensures { result ≡ fills unary (word_at [] (TokenKind.Operator op)) }
{
    match op {
        Op::Minus => true,
        Op::Tilde => true,
        Op::Bang => true,
        _ => false,
    }
}

fn is_comparison(op: Op) -> bool
    ensures { result ≡ fills comparison (word_at [] (TokenKind.Operator op)) }
{
    match op {
        Op::Less => true,
        Op::LessEqual => true,
        Op::Greater => true,
        Op::GreaterEqual => true,
        Op::Equal => true,
        Op::NotEqual => true,
        _ => false,
    }
}

fn is_keyword(kind: TokenKind, wanted: Keyword) -> bool
    ensures { (s : List ℕ) → fills (slot_view (Slot.Keyword wanted)) (word_at s kind) ≡ result }
{
    match kind {
        TokenKind::Keyword(keyword) => keyword == wanted,
        _ => false,
    }
}

/// Whether such a token may stand in such a place.
pub fn fits(slot: Slot, kind: TokenKind) -> bool
    ensures { (s : List ℕ) → fills (slot_view slot) (word_at s kind) ≡ result }
{
    match (slot, kind) {
        (Slot::Keyword(keyword), _) => is_keyword(kind, keyword),
        (Slot::Colon, TokenKind::Colon) => true,
        (Slot::Equals, TokenKind::Equals) => true,
        (Slot::Bar, TokenKind::Operator(op)) => op == Op::Or,
        (Slot::Procedure, TokenKind::Name) => true,
        (Slot::Variable, TokenKind::Name) => true,
        (Slot::Operand, TokenKind::Name) => true,
        (Slot::Operand, TokenKind::Number) => true,
        (Slot::Label, TokenKind::Name) => true,
        (Slot::Callee, TokenKind::Name) => true,
        (Slot::Binary, TokenKind::Operator(op)) => op != Op::Tilde && op != Op::Bang,
        (Slot::Unary, TokenKind::Operator(op)) => is_unary(op),
        (Slot::Comparison, TokenKind::Operator(op)) => is_comparison(op),
        _ => false,
    }
}

/// Whether there is a token there that may stand in such a place.
pub fn fits_at(slot: Slot, tokens: &[Token], at: usize) -> bool
    ensures { (text : List ℕ) → fills_at text (slot_view slot) (slice_get tokens.now at) ≡ result }
{
    match tokens.get(at) {
        None => false,
        Some(token) => fits(slot, token.kind),
    }
}

/// The one form that begins with a keyword, but for `if` and `call`. No statement begins with `proc` or `end`.
fn keyword_form(keyword: Keyword) -> Form
    ensures { result ≡ of_key keyword }
{
    match keyword {
        Keyword::Proc => Form::Skip,
        Keyword::End => Form::Skip,
        Keyword::Goto => Form::Jump,
        Keyword::If => Form::Skip,
        Keyword::IfFalse => Form::NegatedTest,
        Keyword::Call => Form::Skip,
        Keyword::Return => Form::Return,
        Keyword::Read => Form::Read,
        Keyword::Print => Form::Print,
        Keyword::Skip => Form::Skip,
    }
}

/// The one form of a statement that goes as far with these tokens as any.
pub fn form_of(tokens: &[Token]) -> Form
    ensures { (text : List ℕ) → GoesAsFar statement_forms (form_slots result (length tokens.now) ∷ []) (tokens_view text tokens.now) }
{
    match tokens.first() {
        None => Form::Skip,
        Some(token) => match token.kind {
            TokenKind::Keyword(keyword) => match keyword {
                Keyword::If => {
                    if fits_at(Slot::Comparison, tokens, 2) {
                        Form::Comparison
                    } else {
                        Form::Test
                    }
                }
                Keyword::Call => Form::Call,
                _ => keyword_form(keyword),
            },
            TokenKind::Name => {
                if fits_at(Slot::Unary, tokens, 2) {
                    Form::Unary
                } else if tokens.len() > 3 {
                    Form::Binary
                } else {
                    Form::Copy
                }
            }
            _ => Form::Skip,
        },
    }
}

/// How far the tokens go along the form.
pub fn follow(slots: &[Slot], tokens: &[Token]) -> Walk
    ensures wrong { (text : List ℕ)
        → option_map (λ t. t.start) (first_wrong (slots_view slots.now ∷ []) [] (tokens_view text tokens.now)) ≡ wrong_of result }
    ensures whole { (text : List ℕ) → has_form (slots_view slots.now) (tokens_view text tokens.now) ≡ is_whole result }
{
    let mut at = 0;
    while at < slots.len() && at < tokens.len() {
        if !fits(slots[at], tokens[at].kind) {
            return Walk::Wrong(tokens[at].start);
        }
        at += 1;
    }
    if at < tokens.len() {
        Walk::Wrong(tokens[at].start)
    } else if at < slots.len() {
        Walk::Unfinished
    } else {
        Walk::Whole
    }
}
