// What is read of the text of a part.

ghost use Rattle.std.specs.Prelude.{◌≡◌, ◌&&◌, ◌==◌, IfOk, bytes_eq, length, map};
ghost use Rattle.std.specs.List.{slice_split};
ghost use Rattle.part_texts.specs.Lines.{is_line_feed};
ghost use Rattle.part_texts.specs.Parts.{end_words, read_lines, read_part};
ghost use Rattle.part_texts.specs.code.ReadParts.{line_of, part_in, told_as};

use crate::OutOfMemory;
use crate::cuts::cut;
use crate::fault::PartFault;
use crate::form::PartForm;
use crate::heading::{ReadHeading, read_heading};
use crate::line::{PartLine, read_line};
use itoa::Buffer;
use std::alloc::Global;

/// A part that was read.
#[derive(Drop)]
pub(crate) struct ReadPart<'a> {
    /// Its first line.
    pub(crate) heading: ReadHeading<'a>,
    /// The first line of what is in parts.
    pub(crate) counts: &'a [u8],
    /// Its lines behind that.
    pub(crate) lines: Vec<PartLine<'a>>,
}

// The last line of a part in this form, without its line feed.
fn last_line(alloc: Global, form: PartForm, part: u32) -> Result<Vec<u8>, OutOfMemory>
    ensures { IfOk result (λ words. words.items ≡ end_words form part) }
{
    let mut digits = Buffer::new();
    let number = digits.format(part).as_bytes();
    let mut words = Vec::new(alloc);
    match form {
        PartForm::Report => {
            words.extend_from_slice(b"end ")?;
            words.extend_from_slice(number)?;
        },
        PartForm::Json => {
            words.extend_from_slice(b"{\"type\":\"end-part\",\"part\":")?;
            words.extend_from_slice(number)?;
            words.extend_from_slice(b"}")?;
        },
    }
    Ok(words)
}

// Whether a line, and what stands behind it, end a part with this last line.
fn ends_part(line: &[u8], behind: &[u8], last: &[u8]) -> bool
    ensures { result ≡ (bytes_eq line.now last.now && (length behind.now == 0)) }
{
    line == last && behind.is_empty()
}

// The lines of a part behind its first two.
fn read_lines<'a>(
    alloc: Global,
    text: &'a [u8],
    form: PartForm,
    part: u32,
) -> Result<Result<Vec<PartLine<'a>>, PartFault>, OutOfMemory>
    ensures { IfOk result (λ r. told_as (λ lines. map line_of lines.items) r ≡ read_lines form part (slice_split is_line_feed text.now)) }
{
    let last = last_line(alloc, form, part)?;
    let mut lines = Vec::new(alloc);
    let mut rest = text;
    while let Some((line, behind)) = cut(rest, b'\n') {
        if ends_part(line, behind, &last) {
            return Ok(Ok(lines));
        }
        match read_line(form, line, part) {
            Some(found) => lines.push(found)?,
            None => return Ok(Err(PartFault::NoPart)),
        }
        rest = behind;
    }
    Ok(Err(PartFault::CutShort))
}

/// A part out of its text. Fails only where memory runs out.
pub(crate) fn read_part(
    alloc: Global,
    text: &[u8],
) -> Result<Result<ReadPart<'_>, PartFault>, OutOfMemory>
    ensures { IfOk result (λ r. told_as part_in r ≡ read_part text.now) }
{
    let Some((first, behind)) = cut(text, b'\n') else {
        return Ok(Err(PartFault::NoPart));
    };
    let Some(heading) = read_heading(first) else {
        return Ok(Err(PartFault::NoPart));
    };
    let Some((counts, rest)) = cut(behind, b'\n') else {
        return Ok(Err(PartFault::CutShort));
    };
    match read_lines(alloc, rest, heading.form, heading.part)? {
        Ok(lines) => Ok(Ok(ReadPart {
            heading,
            counts,
            lines,
        })),
        Err(fault) => Ok(Err(fault)),
    }
}
