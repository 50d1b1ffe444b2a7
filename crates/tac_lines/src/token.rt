// Tokens: what they are, and where they stand.

ghost use Rattle.std.specs.Prelude.{◌≡◌, slice_range};
ghost use Rattle.tac_lines.specs.Tokens.{spelling_of};
ghost use Rattle.tac_lines.specs.code.Views.{keyword_text, token_view};

use tac_program::Op;

/// The reserved names.
#[derive(Clone, Copy, PartialEq, Eq)]
pub enum Keyword {
    Proc,
    End,
    Goto,
    If,
    IfFalse,
    Call,
    Return,
    Read,
    Print,
    Skip,
}

impl Keyword {
    /// How it is spelled.
    pub fn text(self) -> &'static [u8]
        ensures { result.now ≡ keyword_text self }
    {
        match self {
            Keyword::Proc => b"proc",
            Keyword::End => b"end",
            Keyword::Goto => b"goto",
            Keyword::If => b"if",
            Keyword::IfFalse => b"ifFalse",
            Keyword::Call => b"call",
            Keyword::Return => b"return",
            Keyword::Read => b"read",
            Keyword::Print => b"print",
            Keyword::Skip => b"skip",
        }
    }
}

/// What a token is. The sign `=` is no operator, and `:` neither.
#[derive(Clone, Copy, PartialEq, Eq)]
pub enum TokenKind {
    Name,
    Number,
    Keyword(Keyword),
    Colon,
    Equals,
    Operator(Op),
}

/// A token of a text: the bytes `start..stop` of it.
#[derive(Clone, Copy)]
pub struct Token {
    pub kind: TokenKind,
    pub start: u32,
    pub stop: u32,
}

impl Token {
    /// The token's bytes, where it is a name of this text.
    pub fn bytes<'a>(&self, text: &'a [u8]) -> &'a [u8]
        ensures { result.now ≡ slice_range text.now self.now.start self.now.stop }
    {
        let stop = text.len().min(self.stop as usize);
        let start = stop.min(self.start as usize);
        &text[start..stop]
    }

    /// The bytes of a name, a keyword or a sign; none of a number.
    pub fn spelling<'a>(&self, text: &'a [u8]) -> &'a [u8]
        ensures { result.now ≡ spelling_of (token_view text.now self.now) }
    {
        match self.kind {
            TokenKind::Name => self.bytes(text),
            TokenKind::Number => &[],
            TokenKind::Keyword(keyword) => keyword.text(),
            TokenKind::Colon => b":",
            TokenKind::Equals => b"=",
            TokenKind::Operator(op) => op.sign(),
        }
    }
}
