// Lines of a part.

ghost use Rattle.std.specs.Prelude.{◌≡◌};
ghost use Rattle.part_texts.specs.Lines.{kind_of, mark_of, read_line, report_mark};
ghost use Rattle.part_texts.specs.code.ReadParts.{some_line};

use crate::cuts::cut;
use crate::form::PartForm;
use crate::json_line::json_mark;
use crate::mark::Mark;
use crate::number::read_number;

/// A line of a part, without its line feed.
#[derive(Clone, Copy)]
pub(crate) struct PartLine<'a> {
    /// Where it stands.
    pub(crate) mark: Mark,
    /// The part in which it stands.
    pub(crate) part: u32,
    /// Its bytes.
    pub(crate) text: &'a [u8],
}

// The place of a remark's kind among those on a line, told by its words.
fn kind(words: &[u8]) -> Option<u32>
    ensures { result ≡ kind_of words.now }
{
    if words == b"never reached".as_slice() {
        return Some(0);
    }
    if words.ends_with(b" may be used before it is set") {
        return Some(1);
    }
    if words.ends_with(b" is already computed") {
        return Some(2);
    }
    if words.ends_with(b" is very busy") {
        return Some(3);
    }
    if words.starts_with(b"assignment to ") && words.ends_with(b" is dead") {
        return Some(4);
    }
    None
}

// Where a line of a report stands.
fn report_mark(text: &[u8]) -> Option<Mark>
    ensures { result ≡ report_mark text.now }
{
    let (digits, behind) = cut(text, b':')?;
    let number = read_number(digits, u32::MAX)?;
    let words = behind.strip_prefix(b" ")?;
    let kind = kind(words)?;
    Some(Mark {
        section: 0,
        number,
        kind,
    })
}

// Where a line of a part in this form stands.
fn mark_of(form: PartForm, text: &[u8]) -> Option<Mark>
    ensures { result ≡ mark_of form text.now }
{
    match form {
        PartForm::Report => report_mark(text),
        PartForm::Json => json_mark(text),
    }
}

/// The line of a part in this form that a text is, where it is one.
pub(crate) fn read_line(form: PartForm, text: &[u8], part: u32) -> Option<PartLine<'_>>
    ensures { some_line result ≡ read_line form part text.now }
{
    let mark = mark_of(form, text)?;
    Some(PartLine { mark, part, text })
}
