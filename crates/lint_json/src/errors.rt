// The lines of errors.

ghost use Rattle.std.specs.Prelude.{◌≡◌, ◌++◌, [], codes, flat_map, OnOk, if◌then◌else◌};
ghost use Rattle.lint_json.specs.RefusalJson.{error_line, note_field, refusal_fields};
ghost use Rattle.text_pieces.specs.Pieces.{CanWrite, Writes};

use crate::OutOfMemory;
use crate::ends::write_begin;
use lint_styles::write_size;
use refusal_texts::{ToldRefusal, hint_text, is_some_hint, kind_words};
use std::alloc::Global;
use tac_faults::Hint;
use tac_lines::Refusal;
use text_pieces::{Pieces, Sink, Text, whole_text, write_quoted};

// Writes where a refusal is told, its number, and what is wrong.
fn write_refusal<K: Sink>(out: &mut Pieces<'_, K>, refusal: Refusal)
    requires { CanWrite K.Sink out.old }
    ensures { Writes K.Sink out.old out.new (refusal_fields refusal) }
{
    out.write(b",\"line\":");
    write_size(out, refusal.line as usize);
    out.write(b",\"column\":");
    write_size(out, refusal.column as usize);
    out.write(b",\"refusal\":");
    write_size(out, refusal.kind.number() as usize);
    out.write(b",\"words\":");
    write_quoted(out, kind_words(refusal.kind));
}

// Writes what stands there, and how it is mended, where that is told.
fn write_note<K: Sink>(out: &mut Pieces<'_, K>, hint: Hint, words: &[u8])
    requires { CanWrite K.Sink out.old }
    ensures { Writes K.Sink out.old out.new (note_field hint words.now) }
{
    if is_some_hint(hint) {
        out.write(b",\"note\":");
        write_quoted(out, words);
    }
}

// The line of an error of which this is told.
#[derive(Clone, Copy)]
struct ErrorText<'a> {
    name: &'a [u8],
    told: ToldRefusal,
    words: &'a [u8],
}

impl<'a> Text for ErrorText<'a> {
    ghost use Rattle.lint_json.specs.RefusalJson.{error_line_of};

    ghost bytes = { λ text. error_line_of text.name.now text.told text.words.now };

    fn write<K: Sink>(&self, out: &mut Pieces<'_, K>) {
        write_begin(out, b"error", self.name);
        write_refusal(out, self.told.refusal);
        write_note(out, self.told.hint, self.words);
        out.write(b"}\n");
    }
}

// Puts the line of an error behind a text.
fn push_error(
    alloc: Global,
    out: &mut Vec<u8>,
    name: &[u8],
    text: &[u8],
    told: ToldRefusal,
) -> Result<(), OutOfMemory>
    ensures { OnOk result (out.new.items ≡ out.old.items ++ error_line name.now text.now told) }
{
    let words = hint_text(alloc, text, told.hint)?;
    let line = whole_text(
        alloc,
        &ErrorText {
            name,
            told,
            words: words.as_slice(),
        },
    )?;
    out.extend_from_slice(line.as_slice())?;
    Ok(())
}

/// Puts the lines of all errors behind a text.
pub(crate) fn push_errors(
    alloc: Global,
    out: &mut Vec<u8>,
    name: &[u8],
    text: &[u8],
    told: &[ToldRefusal],
) -> Result<(), OutOfMemory>
    ensures { OnOk result (out.new.items ≡ out.old.items ++ flat_map (error_line name.now text.now) told.now) }
{
    for one in told {
        push_error(alloc, out, name, text, *one)?;
    }
    Ok(())
}
