// Lines and statements with the form that they have, so that it is looked for once.

ghost use Rattle.std.specs.Prelude.{◌≡◌, ◌-◌, ◌*◌, ◌<◌, ◌≤◌, ℕ, List, [], All, false, IsTrue, IfOk, is_some, length, option_map, slice_range};
ghost use Rattle.std.specs.Prelude.{slice_index_or};
ghost use Rattle.tac_lines.specs.code.Formed.{IsCountedIn, IsFormedIn, is_formed};
ghost use Rattle.tac_lines.specs.Forms.{behind_labels as without_labels, cells_of, in_slot, labels_of, statement_row};
ghost use Rattle.tac_lines.specs.code.Ranges.{range_view};
ghost use Rattle.tac_lines.specs.code.Roles.{role_test};
ghost use Rattle.tac_lines.specs.code.Views.{form_slots, tokens_view};
ghost use Rattle.tac_lines.specs.declared.lexed.LineRange.{LineRange};

use crate::OutOfMemory;
use crate::form::Form;
use crate::lexed::{Lexed, LineRange};
use crate::line::behind_labels;
use crate::statement::{Role, has_role, statement_form};
use crate::token::Token;

/// The tokens of a statement, and the form that they have; no tokens have none.
#[derive(Clone, Copy)]
pub struct Statement<'a> {
    pub tokens: &'a [Token],
    form: Option<Form>,
    ghost formed: { (text : List ℕ) → IsTrue (is_formed form (length tokens.now) (tokens_view text tokens.now)) },
}

impl<'a> Statement<'a> {
    /// The form that the tokens have, where they are the whole of one.
    pub fn form(&self) -> Option<Form>
        ensures { (text : List ℕ) → statement_row (tokens_view text self.now.tokens.now)
            ≡ option_map (λ form. (form, form_slots form (length self.now.tokens.now))) result }
    {
        self.form
    }
}

/// The tokens of a line, how many labels stand before its statement, and the form of that.
#[derive(Clone, Copy)]
pub struct Line<'a> {
    pub tokens: &'a [Token],
    labels: u32,
    form: Option<Form>,
    ghost counted: { (text : List ℕ) → labels ≡ length (labels_of (tokens_view text tokens.now)) },
    ghost formed: { (text : List ℕ) → IsTrue (is_formed form (length tokens.now - 2 * labels) (without_labels (tokens_view text tokens.now))) },
}

impl<'a> Line<'a> {
    /// The line of these tokens. Fails where it has more labels than a program counts.
    pub fn of(tokens: &'a [Token]) -> Result<Self, OutOfMemory>
        ensures { IfOk result (λ line. line.tokens.now ≡ tokens.now) }
    {
        let behind = behind_labels(tokens);
        let labels = counted((tokens.len() - behind.len()) / 2)?;
        let form = statement_form(behind);
        Ok(Line {
            tokens,
            labels,
            form,
        })
    }

    /// Whether a whole statement stands behind the labels.
    pub fn is_statement(&self) -> bool
        ensures { (text : List ℕ) → is_some (statement_row (without_labels (tokens_view text self.now.tokens.now))) ≡ result }
    {
        self.form.is_some()
    }

    /// The line as a range of all tokens, from the one at the place `first` on.
    pub fn range(&self, first: u32, end: u32) -> LineRange
        ensures { result ≡ record { first = first; end = end; labels = self.now.labels; form = self.now.form } }
    {
        LineRange {
            first,
            end,
            labels: self.labels,
            form: self.form,
        }
    }

    /// How many labels stand before the statement.
    pub fn labels(&self) -> usize
        ensures { (text : List ℕ) → result ≡ length (labels_of (tokens_view text self.now.tokens.now)) }
    {
        self.labels as usize
    }

    /// What stands behind the labels.
    pub fn statement(&self) -> Statement<'a>
        ensures { (text : List ℕ) → tokens_view text result.tokens.now ≡ without_labels (tokens_view text self.now.tokens.now) }
    {
        Statement {
            tokens: &self.tokens[2 * self.labels as usize..],
            form: self.form,
        }
    }
}

/// The tokens of a line; of a range that goes past the tokens, those that there are.
fn line_tokens<'a>(tokens: &'a [Token], line: LineRange) -> &'a [Token]
    ensures { result.now ≡ slice_range tokens.now line.first line.end }
{
    let end = tokens.len().min(line.end as usize);
    let first = end.min(line.first as usize);
    &tokens[first..end]
}

/// Lines of a text, one after another.
#[derive(Clone, Copy)]
pub struct Lines<'a> {
    tokens: &'a [Token],
    ranges: &'a [LineRange],
    ghost counted: { All (IsCountedIn tokens.now) ranges.now },
    ghost formed: { All (IsFormedIn tokens.now) ranges.now },
}

impl<'a> Lines<'a> {
    /// All lines that have tokens.
    pub fn of(lexed: &'a Lexed) -> Self
        ensures tokens { result.tokens.now ≡ lexed.now.tokens.items }
        ensures lines { result.ranges.now ≡ lexed.now.lines.items }
    {
        Lines {
            tokens: &lexed.tokens,
            ranges: &lexed.lines,
        }
    }

    /// How many they are.
    pub fn len(&self) -> usize
        ensures { result ≡ length self.now.ranges.now }
    {
        self.ranges.len()
    }

    /// The line at a place among them.
    pub fn line(&self, at: usize) -> Line<'a>
        requires { at < length self.now.ranges.now }
        ensures { (r : LineRange) → result.tokens.now
            ≡ slice_range self.now.tokens.now (slice_index_or self.now.ranges.now at r).first (slice_index_or self.now.ranges.now at r).end }
    {
        let range = self.ranges[at];
        Line {
            tokens: line_tokens(self.tokens, range),
            labels: range.labels,
            form: range.form,
        }
    }

    /// How many of the lines have a statement that is the whole of a form.
    pub fn statements(&self) -> usize {
        let mut count: usize = 0;
        for range in self.ranges {
            if range.form.is_some() {
                count = count.saturating_add(1);
            }
        }
        count
    }

    /// Whether the statement of the line there may have tokens in a place of that role.
    pub fn plays(&self, at: usize, role: Role) -> bool
        requires { at < length self.now.ranges.now }
        ensures { (text : List ℕ) (r : LineRange) → result ≡ false → in_slot (role_test role)
            (cells_of (without_labels (range_view text self.now.tokens.now (slice_index_or self.now.ranges.now at r)))) ≡ [] }
    {
        match self.ranges[at].form {
            None => false,
            Some(form) => has_role(form, role),
        }
    }

    /// The lines at the places from `first` up to `end`.
    pub fn part(&self, first: usize, end: usize) -> Self
        requires order { first ≤ end }
        requires within { end ≤ length self.now.ranges.now }
        ensures tokens { result.tokens.now ≡ self.now.tokens.now }
        ensures lines { result.ranges.now ≡ slice_range self.now.ranges.now first end }
    {
        Lines {
            tokens: self.tokens,
            ranges: &self.ranges[first..end],
        }
    }
}

/// A count, in the width that programs count in.
pub fn counted(count: usize) -> Result<u32, OutOfMemory>
    ensures { IfOk result (λ n. n ≡ count) }
{
    u32::try_from(count).map_err(|_| OutOfMemory)
}
