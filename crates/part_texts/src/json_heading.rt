// The first line of a part of JSON.

ghost use Rattle.std.specs.Prelude.{◌≡◌, ◌∷◌, [], option_map};
ghost use Rattle.std.specs.List.{slice_split};
ghost use Rattle.part_texts.specs.Lines.{is_comma};
ghost use Rattle.part_texts.specs.Parts.{digest_in, json_heading_of, number_in};
ghost use Rattle.part_texts.specs.code.ReadParts.{some_heading};

use crate::cuts::cut;
use crate::form::PartForm;
use crate::heading::{MOST_PARTS, ReadHeading, numbered};
use crate::number::read_number;

// The number in a field, behind its name.
fn number_in(name: &[u8], field: &[u8]) -> Option<u32>
    ensures { result ≡ number_in name.now field.now }
{
    let digits = field.strip_prefix(name)?;
    read_number(digits, MOST_PARTS)
}

// The digest in its field.
fn digest_in(field: &[u8]) -> Option<&[u8]>
    ensures { option_map (λ digest. digest.now) result ≡ digest_in field.now }
{
    let behind = field.strip_prefix(b"\"digest\":\"")?;
    behind.strip_suffix(b"\"}")
}

// What five fields tell.
fn fielded<'a>(
    type_field: &[u8],
    version: &[u8],
    part: &[u8],
    count: &[u8],
    digest: &'a [u8],
) -> Option<ReadHeading<'a>>
    ensures { some_heading result ≡ json_heading_of (type_field.now ∷ version.now ∷ part.now ∷ count.now ∷ digest.now ∷ []) }
{
    if type_field != b"{\"type\":\"part\"".as_slice() || version != b"\"version\":1".as_slice() {
        return None;
    }
    let digest = digest_in(digest)?;
    let part = number_in(b"\"part\":", part)?;
    let count = number_in(b"\"parts\":", count)?;
    numbered(PartForm::Json, part, count, digest)
}

/// What the first line of a part of JSON tells, where it is one.
pub(crate) fn json_heading(line: &[u8]) -> Option<ReadHeading<'_>>
    ensures { some_heading result ≡ json_heading_of (slice_split is_comma line.now) }
{
    let (type_field, rest) = cut(line, b',')?;
    let (version, rest) = cut(rest, b',')?;
    let (part, rest) = cut(rest, b',')?;
    let (count, digest) = cut(rest, b',')?;
    match cut(digest, b',') {
        Some(_) => None,
        None => fielded(type_field, version, part, count, digest),
    }
}
