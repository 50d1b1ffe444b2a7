// The tokens of a text.

ghost use Rattle.std.specs.Prelude.{All, length};
ghost use Rattle.tac_lines.specs.code.Formed.{IsCountedIn, IsFormedIn};
ghost use Rattle.tac_lines.specs.code.Ranges.{EndsWithin};

use crate::form::Form;
use crate::token::Token;

/// A line's tokens, by their places among all: `first..end`. How many labels stand before its
/// statement, and the form of that.
#[derive(Clone, Copy)]
pub struct LineRange {
    pub first: u32,
    pub end: u32,
    pub labels: u32,
    pub form: Option<Form>,
}

/// The tokens of a text in one list, and the lines that have some.
#[derive(Drop)]
pub struct Lexed {
    pub tokens: Vec<Token>,
    pub lines: Vec<LineRange>,
    ghost in_range: { EndsWithin (length tokens.items) lines.items },
    ghost counted: { All (IsCountedIn tokens.items) lines.items },
    ghost formed: { All (IsFormedIn tokens.items) lines.items },
}
