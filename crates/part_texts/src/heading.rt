// The first line of a part.

ghost use Rattle.std.specs.Prelude.{◌≡◌, ◌∷◌, []};
ghost use Rattle.std.specs.List.{slice_split};
ghost use Rattle.part_texts.specs.Parts.{heading_of, numbered, read_heading};
ghost use Rattle.part_texts.specs.Lines.{is_space};
ghost use Rattle.part_texts.specs.code.ReadParts.{some_heading};

use crate::cuts::cut;
use crate::form::PartForm;
use crate::json_heading::json_heading;
use crate::number::read_number;

/// How many parts a report may have.
pub const MOST_PARTS: u32 = 4_096;

/// The first line of a part.
#[derive(Clone, Copy)]
pub(crate) struct ReadHeading<'a> {
    /// In which form it is.
    pub(crate) form: PartForm,
    /// Which part it is, from 1 on.
    pub(crate) part: u32,
    /// Of how many.
    pub(crate) count: u32,
    /// The digest of the program's text.
    pub(crate) digest: &'a [u8],
}

/// What a form, a number of a part, how many there are, and a digest tell.
pub(crate) fn numbered(
    form: PartForm,
    part: u32,
    count: u32,
    digest: &[u8],
) -> Option<ReadHeading<'_>>
    ensures { some_heading result ≡ numbered form part count digest.now }
{
    if part < 1 || count < part || count > MOST_PARTS {
        return None;
    }
    Some(ReadHeading {
        form,
        part,
        count,
        digest,
    })
}

// What six words tell.
fn worded<'a>(
    first: &[u8],
    part: &[u8],
    second: &[u8],
    count: &[u8],
    third: &[u8],
    digest: &'a [u8],
) -> Option<ReadHeading<'a>>
    ensures { some_heading result ≡ heading_of (first.now ∷ part.now ∷ second.now ∷ count.now ∷ third.now ∷ digest.now ∷ []) }
{
    if first != b"part".as_slice() || second != b"of".as_slice() || third != b"of".as_slice() {
        return None;
    }
    let part = read_number(part, MOST_PARTS)?;
    let count = read_number(count, MOST_PARTS)?;
    numbered(PartForm::Report, part, count, digest)
}

// What the first line of a part of a report tells, where it is one.
fn report_heading(line: &[u8]) -> Option<ReadHeading<'_>>
    ensures { some_heading result ≡ heading_of (slice_split is_space line.now) }
{
    let (first, rest) = cut(line, b' ')?;
    let (part, rest) = cut(rest, b' ')?;
    let (second, rest) = cut(rest, b' ')?;
    let (count, rest) = cut(rest, b' ')?;
    let (third, digest) = cut(rest, b' ')?;
    match cut(digest, b' ') {
        Some(_) => None,
        None => worded(first, part, second, count, third, digest),
    }
}

/// What the first line of a part tells, where it is one.
pub(crate) fn read_heading(line: &[u8]) -> Option<ReadHeading<'_>>
    ensures { some_heading result ≡ read_heading line.now }
{
    match report_heading(line) {
        Some(heading) => Some(heading),
        None => json_heading(line),
    }
}
