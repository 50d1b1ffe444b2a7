// Where lines of JSON stand.

ghost use Rattle.std.specs.Prelude.{◌≡◌};
ghost use Rattle.std.specs.List.{after_first, before_first};
ghost use Rattle.part_texts.specs.Lines.{behind_place, is_comma, json_kind, json_mark, mark_by, point_in, point_mark, remark_mark};

use crate::cuts::cut;
use crate::mark::Mark;
use crate::number::read_number;

// The first field of some, and those behind it.
fn split_field(fields: &[u8]) -> (&[u8], &[u8])
    ensures first { result.0.now ≡ before_first is_comma fields.now }
    ensures rest { result.1.now ≡ after_first is_comma fields.now }
{
    match cut(fields, b',') {
        Some(parts) => parts,
        None => (fields, b""),
    }
}

// The number of a point, as its field tells it.
fn point_in(field: &[u8]) -> Option<u32>
    ensures { result ≡ point_in field.now }
{
    let digits = field.strip_prefix(b"\"point\":")?;
    read_number(digits, u32::MAX)
}

// The place of a remark's kind, as its field tells it.
fn kind_in(field: &[u8]) -> Option<u32>
    ensures { result ≡ json_kind field.now }
{
    if field == b"\"kind\":\"never_reached\"}".as_slice() {
        return Some(0);
    }
    if field == b"\"kind\":\"unset\"".as_slice() {
        return Some(1);
    }
    if field == b"\"kind\":\"computed\"".as_slice() {
        return Some(2);
    }
    if field == b"\"kind\":\"busy\"".as_slice() {
        return Some(3);
    }
    if field == b"\"kind\":\"dead\"".as_slice() {
        return Some(4);
    }
    None
}

// What stands behind the fields of the point, the line, and the first and the last byte.
fn behind_place(fields: &[u8]) -> &[u8]
    ensures { result.now ≡ behind_place fields.now }
{
    let (_, fields) = split_field(fields);
    let (_, fields) = split_field(fields);
    let (_, fields) = split_field(fields);
    let (_, fields) = split_field(fields);
    fields
}

// Where the line of a point stands.
fn point_mark(fields: &[u8]) -> Option<Mark>
    ensures { result ≡ point_mark fields.now }
{
    let (field, _) = split_field(fields);
    let number = point_in(field)?;
    Some(Mark {
        section: 0,
        number,
        kind: 0,
    })
}

// Where the line of a remark stands.
fn remark_mark(fields: &[u8]) -> Option<Mark>
    ensures { result ≡ remark_mark fields.now }
{
    let (field, _) = split_field(fields);
    let number = point_in(field)?;
    let (field, _) = split_field(behind_place(fields));
    let kind = kind_in(field)?;
    Some(Mark {
        section: 1,
        number,
        kind,
    })
}

// Where a line of this type stands.
fn mark_by(type_field: &[u8], fields: &[u8]) -> Option<Mark>
    ensures { result ≡ mark_by type_field.now fields.now }
{
    if type_field == b"{\"type\":\"point\"".as_slice() {
        return point_mark(fields);
    }
    if type_field == b"{\"type\":\"remark\"".as_slice() {
        return remark_mark(fields);
    }
    if type_field == b"{\"type\":\"end\"".as_slice() {
        return Some(Mark {
            section: 2,
            number: 0,
            kind: 0,
        });
    }
    None
}

/// Where a line of JSON stands.
pub(crate) fn json_mark(text: &[u8]) -> Option<Mark>
    ensures { result ≡ json_mark text.now }
{
    let (type_field, fields) = split_field(text);
    mark_by(type_field, fields)
}
