// What is told on the mend of a fault, as data.

ghost use Rattle.std.specs.Prelude.{◌≡◌};
ghost use Rattle.tac_faults.specs.Hints.Choices.{or_hint};

use tac_lines::Keyword;

/// A part of a text: the bytes `start..stop`, from 0.
#[derive(Clone, Copy, Debug, PartialEq, Eq)]
pub struct Bytes {
    pub start: u32,
    pub stop: u32,
}

/// A slip of which its bytes are all that is told.
#[derive(Clone, Copy, Debug, PartialEq, Eq)]
pub enum Slip {
    /// A sign behind the first name that sets no variable, as `+=`, `++`, `<-` or `==`.
    Assignment,
    /// A word with which other languages declare a variable.
    Declaration,
    /// A word with which they open a procedure.
    Opening,
    /// A word of their loops and branches.
    Control,
    /// `*` or `&` before a name.
    Pointer,
    /// `&&` or `||`.
    Connective,
    /// A number and a name with nothing between them.
    NumberAndName,
    /// A number where a name has to stand.
    NumberForName,
    /// What stands behind `end`, or behind `proc NAME`.
    OwnLine,
    /// A procedure's own name, before a parenthesis.
    Parameters,
    /// `=<` or `=>`.
    Turned,
    /// `<>`.
    Different,
    /// `!` at the beginning of a test.
    Negation,
    /// A comma.
    Comma,
    /// `:` behind the label of a jump.
    ColonInJump,
    /// The first word of a second statement in a line.
    SecondStatement,
}

/// What stands at a fault, where it is one of the usual slips.
#[derive(Clone, Copy, PartialEq, Eq)]
pub enum Hint {
    /// None of these.
    None,
    /// One of those of which its bytes are all that is told.
    Slip(Slip, Bytes),
    /// A byte order mark at the text's start.
    ByteOrderMark,
    /// A carriage return that does not stand before a line feed.
    CarriageReturn,
    /// A semicolon.
    Semicolon,
    /// A brace.
    Brace,
    /// A quotation mark.
    Quote,
    /// A parenthesis, but for a call's.
    Parenthesis,
    /// `f(`: the name before it.
    Call(Bytes),
    /// `a[`: the name before it.
    Index(Bytes),
    /// A number with a point, or a point and digits: all of it.
    Float(Bytes),
    /// Bytes that are not ASCII: as many as stand together.
    NotAscii(Bytes),
    /// A name with a byte before it that begins none, as `$t1`: all of it.
    NoName(Bytes),
    /// Another byte that begins nothing.
    Byte(Bytes),
    /// A number that is too large: all of it.
    LargeNumber(Bytes),
    /// A name that is too long, and by how many bytes.
    LongName(Bytes, u32),
    /// A comment as other languages have it, from its first byte to the line's end.
    Comment(Bytes),
    /// A name that is a keyword but for capitals, and that keyword.
    Capitals(Keyword, Bytes),
    /// A name that is a keyword but for one slip, and that keyword: one byte more, fewer or other, or two
    /// neighbours swapped.
    Misspelt(Keyword, Bytes),
    /// A second operator in a statement.
    SecondOperator(Bytes),
    /// The line goes on no further than this token, and is not whole.
    Unfinished(Bytes),
    /// `=` in a test, where `==` is meant.
    EqualsInTest(Bytes),
    /// `then` in a test.
    Then(Bytes),
    /// What stands behind `return`.
    Returned(Bytes),
    /// `end` or `proc` behind a label.
    LabelBefore(Bytes),
    /// `=` behind a label, as in `x := 1`.
    ColonEquals(Bytes),
    /// A statement outside a procedure: its first token.
    Outside(Bytes),
    /// A unary operator where an operand is wanted, and the operand.
    Negative(Bytes),
    /// A reserved word where a name is wanted.
    Reserved(Bytes),
    /// More callees in a call than eight: how many more.
    ManyCallees(usize),
    /// `end` lacks: the line of the procedure that is open, from 1, and its words.
    EndLacks(u32, Bytes),
    /// The nearest name that there is: where it stands first.
    Nearest(Bytes),
    /// The first of that name: its line, from 1, and where it stands.
    First(u32, Bytes),
    /// More bytes than the limits allow: how many more.
    LongText(usize),
    /// More procedures than the limits allow: how many more.
    ManyProcedures(usize),
}

/// The first hint, or where it is none the second.
pub fn or_hint_of(first: Hint, second: Hint) -> Hint
    ensures { result ≡ or_hint first second }
{
    match first {
        Hint::None => second,
        _ => first,
    }
}
