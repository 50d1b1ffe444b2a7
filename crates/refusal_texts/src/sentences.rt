// What is told of a fault, in sentences.

ghost use Rattle.std.specs.Prelude.{◌≡◌, IfOk};
ghost use Rattle.refusal_texts.specs.RefusalTexts.{hint_words, kind_words as words_of_kind, quoted_bytes, quoted_if, sentence_end};
ghost use Rattle.refusal_texts.specs.RefusalTexts.{sentence_words, slip_words as words_of_slip};
ghost use Rattle.refusal_texts.specs.code.Endings.{ending_text};
ghost use Rattle.text_pieces.specs.Pieces.{CanWrite, Writes};

use crate::OutOfMemory;
use crate::quotes::{write_part, write_quoted};
use lint_styles::write_size;
use std::alloc::Global;
use tac_faults::{Bytes, Hint, Slip};
use tac_lines::{Keyword, RefusalKind};
use text_pieces::{Pieces, Sink, Text, whole_text};

/// What is wrong.
pub fn kind_words(kind: RefusalKind) -> &'static [u8]
    ensures { result.now ≡ words_of_kind kind }
{
    match kind {
        RefusalKind::BadByte => b"no word, number or sign begins with this byte",
        RefusalKind::NumberTooLarge => b"the number is too large",
        RefusalKind::NameTooLong => b"the name is too long",
        RefusalKind::Syntax => b"no line goes on like this from here",
        RefusalKind::Unclosed => b"the text ends inside a procedure",
        RefusalKind::NoMain => b"no procedure is called `main`",
        RefusalKind::DuplicateProcedure => b"there is a procedure of this name already",
        RefusalKind::DuplicateLabel => b"this procedure has a label of this name already",
        RefusalKind::UnknownLabel => b"this procedure has no label of this name",
        RefusalKind::UnknownProcedure => b"there is no procedure of this name",
        RefusalKind::TextTooLong => b"the text is too long",
        RefusalKind::TooManyProcedures => b"there are too many procedures",
        RefusalKind::DuplicateCallee => b"this call lists the procedure already",
    }
}

const MARK: &[u8] = b"a byte order mark stands before the text: save it as UTF-8 without one";

const RETURN: &[u8] =
    b"a carriage return stands inside the line: end a line with a line feed, alone or behind a carriage return";

const SEMICOLON: &[u8] = b"a statement ends with its line: leave the semicolon out";

const BRACE: &[u8] = b"a procedure stands between `proc NAME` and `end`: leave the brace out";

const QUOTE: &[u8] =
    b"there are numbers alone, and no texts in quotation marks: notes for readers stand behind `#`";

const PARENTHESIS: &[u8] =
    b"there are no parentheses: a statement has one operator, and a test is written `if a < b goto L`";

const CALL: &[u8] =
    b" has no parameters: set variables, as in `a = x`, and then write `call NAME` on a line of its own";

const INDEX: &[u8] = b" is one number, and there are no arrays: use a variable for each element";

const FLOAT: &[u8] = b" is no whole number, and there are no others";

const NOT_ASCII: &[u8] =
    b" is not ASCII: names have the letters a to z and A to Z, digits and `_`, and other letters may stand behind `#`";

const NO_NAME: &[u8] = b" is no name: a name has letters, digits and `_`, and begins with no digit";

const BYTE: &[u8] = b" means nothing here: notes for readers stand behind `#`";

const LARGE_NUMBER: &[u8] = b" is above 9223372036854775807, the largest number";

const LONG_NAME: &[u8] = b" has more than 64 bytes, too many by ";

const COMMENT: &[u8] = b" begins no comment: a comment begins with `#`";

const CAPITALS: &[u8] = b" is written with other letters: ";

const MISSPELT: &[u8] = b" is no word of the language, and this is the nearest one: ";

const SECOND_OPERATOR: &[u8] =
    b" is a second operator, and a statement has one: set a variable to the first result, and use it in the next line";

const UNFINISHED: &[u8] = b" cannot be the end of the line: something has to stand behind it";

const EQUALS: &[u8] = b" sets a variable: a test compares with `==`";

const THEN: &[u8] = b" is left out: a test is written `if a < b goto L`";

const RETURNED: &[u8] =
    b" cannot stand behind `return`: set a variable, as in `result = x`, and then write `return` alone";

const LABEL_BEFORE: &[u8] =
    b" cannot stand behind a label: put the label on a line of its own before it";

const COLON_EQUALS: &[u8] = b" stands alone to set a variable: leave the colon out";

const OUTSIDE: &[u8] = b" stands outside of procedures: put the line between `proc main` and `end`";

const NEGATIVE: &[u8] = b" cannot be an operand: set a variable to it, and use that";

const RESERVED: &[u8] = b" is a word of the language, and cannot be a name: take another one";

const CALLEES: &[u8] = b"a call lists 8 procedures at most, too many by ";

const END_LACKS: &[u8] = b" is not closed by `end`; it stands in line ";

const NEAREST: &[u8] = b" is the nearest name that there is";

const FIRST: &[u8] = b" stands first in line ";

const LONG_TEXT: &[u8] = b"the text has more bytes than the limits allow";

const PROCEDURES: &[u8] = b"there are more procedures than the limits allow, too many by ";

const ASSIGNMENT: &[u8] = b" sets no variable: a statement is written `x = y + z`";

const DECLARATION: &[u8] = b" declares nothing here: a variable is there where it is used";

const OPENING: &[u8] = b" opens no procedure: write `proc NAME`, and `end` behind its last line";

const CONTROL: &[u8] =
    b" is no word of the language: loops and branches are labels and jumps, as in `if a < b goto L`";

const POINTER: &[u8] =
    b" goes through no pointer, and there are none: a variable is used by its name alone";

const CONNECTIVE: &[u8] = b" joins no tests: write two of them, one in each line";

const NUMBER_AND_NAME: &[u8] =
    b" is neither a number nor a name: a number has the digits 0 to 9 alone, and a name begins with no digit";

const NUMBER_FOR_NAME: &[u8] = b" is a number where a name has to stand";

const OWN_LINE: &[u8] = b" cannot stand here: `proc NAME` and `end` have lines of their own";

const PARAMETERS: &[u8] =
    b" has no parameters, since all variables are global: `proc NAME` is the whole line";

const TURNED: &[u8] = b" compares nothing: at most is written `<=`, at least is written `>=`";

const DIFFERENT: &[u8] = b" compares nothing: different is written `!=`";

const NEGATION: &[u8] =
    b" begins no test: one that jumps where there is nothing begins with `ifFalse`";

const COMMA: &[u8] = b" separates nothing: write a statement for each";

const COLON_IN_JUMP: &[u8] =
    b" stands behind a label where it is set, and not where it is jumped to";

const SECOND_STATEMENT: &[u8] = b" begins a second statement, and a line has one";

// The words of a slip.
fn slip_words(slip: Slip) -> &'static [u8]
    ensures { result.now ≡ words_of_slip slip }
{
    match slip {
        Slip::Assignment => ASSIGNMENT,
        Slip::Declaration => DECLARATION,
        Slip::Opening => OPENING,
        Slip::Control => CONTROL,
        Slip::Pointer => POINTER,
        Slip::Connective => CONNECTIVE,
        Slip::NumberAndName => NUMBER_AND_NAME,
        Slip::NumberForName => NUMBER_FOR_NAME,
        Slip::OwnLine => OWN_LINE,
        Slip::Parameters => PARAMETERS,
        Slip::Turned => TURNED,
        Slip::Different => DIFFERENT,
        Slip::Negation => NEGATION,
        Slip::Comma => COMMA,
        Slip::ColonInJump => COLON_IN_JUMP,
        Slip::SecondStatement => SECOND_STATEMENT,
    }
}

/// How a sentence ends.
#[derive(Clone, Copy)]
pub enum Ending {
    /// With its words.
    Nothing,
    /// With a word of the language behind them.
    Word(Keyword),
    /// With a number behind them.
    Number(usize),
}

// The bytes of the text with which the sentence begins, where it begins with some.
fn bytes_of(hint: Hint) -> Option<Bytes>
    ensures { result ≡ quoted_bytes hint }
{
    match hint {
        Hint::None => None,
        Hint::Slip(_, bytes) => Some(bytes),
        Hint::ByteOrderMark => None,
        Hint::CarriageReturn => None,
        Hint::Semicolon => None,
        Hint::Brace => None,
        Hint::Quote => None,
        Hint::Parenthesis => None,
        Hint::Call(bytes) => Some(bytes),
        Hint::Index(bytes) => Some(bytes),
        Hint::Float(bytes) => Some(bytes),
        Hint::NotAscii(bytes) => Some(bytes),
        Hint::NoName(bytes) => Some(bytes),
        Hint::Byte(bytes) => Some(bytes),
        Hint::LargeNumber(bytes) => Some(bytes),
        Hint::LongName(bytes, _) => Some(bytes),
        Hint::Comment(bytes) => Some(bytes),
        Hint::Capitals(_, bytes) => Some(bytes),
        Hint::Misspelt(_, bytes) => Some(bytes),
        Hint::SecondOperator(bytes) => Some(bytes),
        Hint::Unfinished(bytes) => Some(bytes),
        Hint::EqualsInTest(bytes) => Some(bytes),
        Hint::Then(bytes) => Some(bytes),
        Hint::Returned(bytes) => Some(bytes),
        Hint::LabelBefore(bytes) => Some(bytes),
        Hint::ColonEquals(bytes) => Some(bytes),
        Hint::Outside(bytes) => Some(bytes),
        Hint::Negative(bytes) => Some(bytes),
        Hint::Reserved(bytes) => Some(bytes),
        Hint::ManyCallees(_) => None,
        Hint::EndLacks(_, bytes) => Some(bytes),
        Hint::Nearest(bytes) => Some(bytes),
        Hint::First(_, bytes) => Some(bytes),
        Hint::LongText(_) => None,
        Hint::ManyProcedures(_) => None,
    }
}

// The words of the sentence.
fn words_of(hint: Hint) -> &'static [u8]
    ensures { result.now ≡ sentence_words hint }
{
    match hint {
        Hint::None => b"",
        Hint::Slip(slip, _) => slip_words(slip),
        Hint::ByteOrderMark => MARK,
        Hint::CarriageReturn => RETURN,
        Hint::Semicolon => SEMICOLON,
        Hint::Brace => BRACE,
        Hint::Quote => QUOTE,
        Hint::Parenthesis => PARENTHESIS,
        Hint::Call(_) => CALL,
        Hint::Index(_) => INDEX,
        Hint::Float(_) => FLOAT,
        Hint::NotAscii(_) => NOT_ASCII,
        Hint::NoName(_) => NO_NAME,
        Hint::Byte(_) => BYTE,
        Hint::LargeNumber(_) => LARGE_NUMBER,
        Hint::LongName(_, _) => LONG_NAME,
        Hint::Comment(_) => COMMENT,
        Hint::Capitals(_, _) => CAPITALS,
        Hint::Misspelt(_, _) => MISSPELT,
        Hint::SecondOperator(_) => SECOND_OPERATOR,
        Hint::Unfinished(_) => UNFINISHED,
        Hint::EqualsInTest(_) => EQUALS,
        Hint::Then(_) => THEN,
        Hint::Returned(_) => RETURNED,
        Hint::LabelBefore(_) => LABEL_BEFORE,
        Hint::ColonEquals(_) => COLON_EQUALS,
        Hint::Outside(_) => OUTSIDE,
        Hint::Negative(_) => NEGATIVE,
        Hint::Reserved(_) => RESERVED,
        Hint::ManyCallees(_) => CALLEES,
        Hint::EndLacks(_, _) => END_LACKS,
        Hint::Nearest(_) => NEAREST,
        Hint::First(_, _) => FIRST,
        Hint::LongText(_) => LONG_TEXT,
        Hint::ManyProcedures(_) => PROCEDURES,
    }
}

// How the sentence ends.
fn ending_of(hint: Hint) -> Ending
    ensures { ending_text result ≡ sentence_end hint }
{
    match hint {
        Hint::None => Ending::Nothing,
        Hint::Slip(_, _) => Ending::Nothing,
        Hint::ByteOrderMark => Ending::Nothing,
        Hint::CarriageReturn => Ending::Nothing,
        Hint::Semicolon => Ending::Nothing,
        Hint::Brace => Ending::Nothing,
        Hint::Quote => Ending::Nothing,
        Hint::Parenthesis => Ending::Nothing,
        Hint::Call(_) => Ending::Nothing,
        Hint::Index(_) => Ending::Nothing,
        Hint::Float(_) => Ending::Nothing,
        Hint::NotAscii(_) => Ending::Nothing,
        Hint::NoName(_) => Ending::Nothing,
        Hint::Byte(_) => Ending::Nothing,
        Hint::LargeNumber(_) => Ending::Nothing,
        Hint::LongName(_, count) => Ending::Number(count as usize),
        Hint::Comment(_) => Ending::Nothing,
        Hint::Capitals(word, _) => Ending::Word(word),
        Hint::Misspelt(word, _) => Ending::Word(word),
        Hint::SecondOperator(_) => Ending::Nothing,
        Hint::Unfinished(_) => Ending::Nothing,
        Hint::EqualsInTest(_) => Ending::Nothing,
        Hint::Then(_) => Ending::Nothing,
        Hint::Returned(_) => Ending::Nothing,
        Hint::LabelBefore(_) => Ending::Nothing,
        Hint::ColonEquals(_) => Ending::Nothing,
        Hint::Outside(_) => Ending::Nothing,
        Hint::Negative(_) => Ending::Nothing,
        Hint::Reserved(_) => Ending::Nothing,
        Hint::ManyCallees(number) => Ending::Number(number),
        Hint::EndLacks(line, _) => Ending::Number(line as usize),
        Hint::Nearest(_) => Ending::Nothing,
        Hint::First(line, _) => Ending::Number(line as usize),
        // Who reads a file stops behind its limit, so how many more there are is not known.
        Hint::LongText(_) => Ending::Nothing,
        Hint::ManyProcedures(number) => Ending::Number(number),
    }
}

// Writes bytes of the text, where there are some.
fn write_bytes<K: Sink>(out: &mut Pieces<'_, K>, text: &[u8], bytes: Option<Bytes>)
    requires { CanWrite K.Sink out.old }
    ensures { Writes K.Sink out.old out.new (quoted_if text.now bytes) }
{
    if let Some(bytes) = bytes {
        write_quoted(out, text, bytes);
    }
}

// Writes the end of a sentence.
fn write_ending<K: Sink>(out: &mut Pieces<'_, K>, ending: Ending)
    requires { CanWrite K.Sink out.old }
    ensures { Writes K.Sink out.old out.new (ending_text ending) }
{
    match ending {
        Ending::Nothing => {}
        Ending::Word(word) => write_part(out, word.text()),
        Ending::Number(number) => write_size(out, number),
    }
}

/// Writes what stands there, and how it is mended: one sentence, or nothing.
pub fn write_hint<K: Sink>(out: &mut Pieces<'_, K>, text: &[u8], hint: Hint)
    requires { CanWrite K.Sink out.old }
    ensures { Writes K.Sink out.old out.new (hint_words text.now hint) }
{
    write_bytes(out, text, bytes_of(hint));
    out.write(words_of(hint));
    write_ending(out, ending_of(hint));
}

// What stands there, and how it is mended.
#[derive(Clone, Copy)]
struct HintText<'a> {
    text: &'a [u8],
    hint: Hint,
}

impl<'a> Text for HintText<'a> {
    ghost use Rattle.refusal_texts.specs.RefusalTexts.{hint_words};

    ghost bytes = { λ told. hint_words told.text.now told.hint };

    fn write<K: Sink>(&self, out: &mut Pieces<'_, K>) {
        write_hint(out, self.text, self.hint);
    }
}

/// What stands there, and how it is mended, made whole. Fails only where memory runs out.
pub fn hint_text(alloc: Global, text: &[u8], hint: Hint) -> Result<Vec<u8>, OutOfMemory>
    ensures { IfOk result (λ words. words.items ≡ hint_words text.now hint) }
{
    whole_text(alloc, &HintText { text, hint })
}
