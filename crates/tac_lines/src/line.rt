// The faults of a line: which stands first.

ghost use Rattle.std.specs.Prelude.{◌≡◌, ℕ, ◌+◌, ◌*◌, ◌<◌, ◌≤◌, List, [], ◌∷◌, Option, length, is_some, drop, flat_map, nat_lt, false, true};
ghost use Rattle.tac_lines.specs.LineFaults.{first_by_place, form_fault as form_faults, row_faults, word_fault as word_faults};
ghost use Rattle.tac_lines.specs.Forms.{behind_labels as without_labels, forms_for, labels_of};
ghost use Rattle.tac_lines.specs.Tokens.{stop_of as end_of};
ghost use Rattle.tac_lines.specs.code.Views.{GoesAsFar, fault_list, line_forms, merged, others_of, prefix_of, verdict, slots_view, starts_label};
ghost use Rattle.tac_lines.specs.code.Views.{token_view, tokens_view};

use crate::fault::Fault;
use crate::form::{END, PROC, Slot, Walk, fits_at, follow, form_of, slots_of};
use crate::formed::Line;
use crate::piece::number_value;
use crate::refusal::RefusalKind;
use crate::token::{Keyword, Token, TokenKind};

/// The largest number of the language.
const LARGEST_NUMBER: u64 = 9_223_372_036_854_775_807;

/// The longest name, in bytes.
const LONGEST_NAME: usize = 64;

/// Whether a label stands there.
pub fn label_at(tokens: &[Token], at: usize) -> bool
    requires { at ≤ length tokens.now }
    ensures { (text : List ℕ) → starts_label text (drop at tokens.now) ≡ result }
{
    fits_at(Slot::Label, tokens, at) && fits_at(Slot::Colon, tokens, at + 1)
}

/// The tokens behind the labels of a line.
pub fn behind_labels(tokens: &[Token]) -> &[Token]
    ensures behind { (text : List ℕ) → tokens_view text result.now ≡ without_labels (tokens_view text tokens.now) }
    ensures count { (text : List ℕ) → length tokens.now ≡ length result.now + 2 * length (labels_of (tokens_view text tokens.now)) }
    ensures forms { (text : List ℕ)
        → forms_for true (labels_of (tokens_view text tokens.now)) ≡ line_forms true (nat_lt (length result.now) (length tokens.now)) }
{
    let mut at = 0;
    while label_at(tokens, at) {
        at += 2;
    }
    &tokens[at..]
}

/// The one form that goes as far with these tokens as any that may stand there.
fn line_slots(inside: bool, labelled: bool, tokens: &[Token]) -> &'static [Slot]
    requires { 0 < length tokens.now }
    ensures { (text : List ℕ) → GoesAsFar (line_forms inside labelled) (slots_view result.now ∷ []) (tokens_view text tokens.now) }
{
    if !inside {
        &PROC
    } else if !labelled && fits_at(Slot::Keyword(Keyword::End), tokens, 0) {
        &END
    } else {
        slots_of(form_of(tokens), tokens.len())
    }
}

/// What is left of a line to be a statement, or the line's end: inside a procedure labels may stand
/// before it.
fn without_prefix(inside: bool, tokens: &[Token]) -> &[Token]
    ensures others { (text : List ℕ) → tokens_view text result.now ≡ others_of inside (tokens_view text tokens.now) }
    ensures forms { (text : List ℕ)
        → forms_for inside (prefix_of inside (tokens_view text tokens.now)) ≡ line_forms inside (nat_lt (length result.now) (length tokens.now)) }
{
    if inside {
        behind_labels(tokens)
    } else {
        tokens
    }
}

/// How far a line goes along the line forms.
fn judged_line(inside: bool, tokens: &[Token]) -> Walk
    ensures { (text : List ℕ) (bad : Option ℕ) → form_faults inside (record { tokens = tokens_view text tokens.now; bad = bad })
        ≡ verdict result (is_some bad) (end_of (tokens_view text tokens.now)) }
{
    let others = without_prefix(inside, tokens);
    if others.is_empty() {
        Walk::Whole
    } else {
        follow(
            line_slots(inside, others.len() < tokens.len(), others),
            others,
        )
    }
}

/// Where the last token stops.
pub fn stop_of(tokens: &[Token]) -> u32
    ensures { (text : List ℕ) → end_of (tokens_view text tokens.now) ≡ result }
{
    match tokens.last() {
        None => 0,
        Some(token) => token.stop,
    }
}

/// Where the line is no line form; a line that a bad byte cuts off need not be whole.
fn form_fault(inside: bool, tokens: &[Token], is_cut: bool) -> Option<Fault>
    ensures { (text : List ℕ) (bad : Option ℕ) → is_some bad ≡ is_cut
        → form_faults inside (record { tokens = tokens_view text tokens.now; bad = bad }) ≡ fault_list result }
{
    let place = match judged_line(inside, tokens) {
        Walk::Whole => return None,
        Walk::Wrong(place) => place,
        Walk::Unfinished => {
            if is_cut {
                return None;
            }
            stop_of(tokens)
        }
    };
    Some(Fault {
        kind: RefusalKind::Syntax,
        place,
    })
}

/// Whether the token is a number too large or a name too long.
fn word_fault(text: &[u8], token: Token) -> Option<Fault>
    ensures { word_faults (token_view text.now token) ≡ fault_list result }
{
    let kind = match token.kind {
        TokenKind::Name if token.bytes(text).len() > LONGEST_NAME => RefusalKind::NameTooLong,
        TokenKind::Number if number_value(token.bytes(text)) > LARGEST_NUMBER =>
            RefusalKind::NumberTooLarge,
        _ => return None,
    };
    Some(Fault {
        kind,
        place: token.start,
    })
}

/// The fault at the first place, and at one place the one of the smaller number.
fn earlier_fault(a: Option<Fault>, b: Option<Fault>) -> Option<Fault>
    ensures { result ≡ merged a b }
{
    match (a, b) {
        (None, _) => b,
        (Some(_), None) => a,
        (Some(f), Some(g)) => {
            if f.place < g.place || (f.place == g.place && f.kind.number() <= g.kind.number()) {
                a
            } else {
                b
            }
        }
    }
}

/// Whether some token is a number too large or a name too long.
fn has_word_fault(text: &[u8], tokens: &[Token]) -> bool
    ensures { result ≡ false → flat_map word_faults (tokens_view text.now tokens.now) ≡ [] }
{
    for token in tokens {
        if word_fault(text, *token).is_some() {
            return true;
        }
    }
    false
}

/// The first fault of a line whose form is known: most lines are whole statements, and have none.
pub fn line_fault(inside: bool, text: &[u8], line: Line<'_>, bad: Option<u32>) -> Option<Fault>
    ensures { result ≡ first_by_place (row_faults inside (record { tokens = tokens_view text.now line.entry.tokens.now; bad = bad })) }
{
    if inside && bad.is_none() && line.is_statement() && !has_word_fault(text, line.tokens) {
        return None;
    }
    row_fault(inside, text, line.tokens, bad)
}

/// The first fault of a line.
pub fn row_fault(inside: bool, text: &[u8], tokens: &[Token], bad: Option<u32>) -> Option<Fault>
    ensures { result ≡ first_by_place (row_faults inside (record { tokens = tokens_view text.now tokens.now; bad = bad })) }
{
    let mut first = form_fault(inside, tokens, bad.is_some());
    let mut at = tokens.len();
    while at > 0 {
        at -= 1;
        first = earlier_fault(word_fault(text, tokens[at]), first);
    }
    match bad {
        None => first,
        Some(place) => earlier_fault(
            Some(Fault {
                kind: RefusalKind::BadByte,
                place,
            }),
            first,
        ),
    }
}
