// The text of a file that is refused.

ghost use Rattle.std.specs.Prelude.{◌≡◌, IfOk, flat_map, length, take};
ghost use Rattle.lint_styles.specs.Styles.{source_of};
ghost use Rattle.refusal_texts.specs.RefusalTexts.{count_line, error_count, error_line, is_some_hint as some_hint, most_told, note_line, place_words};
ghost use Rattle.refusal_texts.specs.RefusalTexts.{refusal_lines, refusal_text_of, told_within, wanted_note};
ghost use Rattle.text_pieces.specs.Pieces.{CanWrite, Writes};

use crate::OutOfMemory;
use crate::sentences::{kind_words, write_hint};
use crate::told::{ToldRefusal, first_told, has_more, told_refusals};
use lint_styles::{Hue, Style, write_painted, write_shown, write_size, write_source_of};
use std::alloc::Global;
use tac_faults::Hint;
use tac_lines::Refusal;
use tac_program::Limits;
use text_pieces::{Pieces, Sink, Text, whole_text};

/// What is told of the text of a file that is refused: for each refusal a line `FILE:LINE:COLUMN: error: WORDS (refusal NUMBER)`; behind
/// it, where the style says so, the line of the source; where something is known of its mend, a line `FILE:LINE:COLUMN: note: WORDS` with
/// what stands there; and a last line `FILE: N errors`.
#[derive(Clone, Copy)]
pub struct RefusalText<'a> {
    /// How it is shown.
    pub style: Style,
    /// The file's name.
    pub file: &'a [u8],
    /// Its text.
    pub text: &'a [u8],
    /// What was found to be wrong with it, of which the first 20 are told.
    pub found: &'a [ToldRefusal],
}

// Writes where a refusal stands.
fn write_place<K: Sink>(out: &mut Pieces<'_, K>, file: &[u8], refusal: Refusal)
    requires { CanWrite K.Sink out.old }
    ensures { Writes K.Sink out.old out.new (place_words file.now refusal) }
{
    write_shown(out, file);
    out.write(b":");
    write_size(out, refusal.line as usize);
    out.write(b":");
    write_size(out, refusal.column as usize);
    out.write(b": ");
}

// Writes the line of a refusal.
fn write_error<K: Sink>(out: &mut Pieces<'_, K>, style: Style, file: &[u8], refusal: Refusal)
    requires { CanWrite K.Sink out.old }
    ensures { Writes K.Sink out.old out.new (error_line style file.now refusal) }
{
    write_place(out, file, refusal);
    write_painted(out, style, Hue::Error, b"error");
    out.write(b": ");
    out.write(kind_words(refusal.kind));
    out.write(b" (refusal ");
    write_size(out, refusal.kind.number() as usize);
    out.write(b")\n");
}

/// Whether something is told on the mend.
pub fn is_some_hint(hint: Hint) -> bool
    ensures { result ≡ some_hint hint }
{
    match hint {
        Hint::None => false,
        _ => true,
    }
}

// Writes how many errors are told, of so many that were found.
fn write_error_count<K: Sink>(out: &mut Pieces<'_, K>, count: usize)
    requires { CanWrite K.Sink out.old }
    ensures { Writes K.Sink out.old out.new (error_count count) }
{
    if has_more(count) {
        out.write(b"the first 20 errors");
    } else if count == 1 {
        out.write(b"1 error");
    } else {
        write_size(out, count);
        out.write(b" errors");
    }
}

impl RefusalText<'_> {
    // Writes the line on the mend of a refusal.
    fn write_note<K: Sink>(&self, out: &mut Pieces<'_, K>, told: ToldRefusal)
        requires { CanWrite K.Sink out.old }
        ensures { Writes K.Sink out.old out.new (note_line self.now.style self.now.file.now self.now.text.now told) }
    {
        write_place(out, self.file, told.refusal);
        write_painted(out, self.style, Hue::Note, b"note");
        out.write(b": ");
        write_hint(out, self.text, told.hint);
        out.write(b"\n");
    }

    // Writes that line, where something is told on the mend.
    fn write_wanted_note<K: Sink>(&self, out: &mut Pieces<'_, K>, told: ToldRefusal)
        requires { CanWrite K.Sink out.old }
        ensures { Writes K.Sink out.old out.new (wanted_note self.now.style self.now.file.now self.now.text.now told) }
    {
        if is_some_hint(told.hint) {
            self.write_note(out, told);
        }
    }

    // Writes the line of the source in which a refusal stands.
    fn write_source<K: Sink>(&self, out: &mut Pieces<'_, K>, refusal: Refusal)
        requires { CanWrite K.Sink out.old }
        ensures { Writes K.Sink out.old out.new (source_of self.now.style self.now.text.now refusal.line refusal.column) }
    {
        write_source_of(out, self.style, self.text, refusal.line, refusal.column);
    }

    // Writes the lines of a refusal.
    fn write_lines<K: Sink>(&self, out: &mut Pieces<'_, K>, told: ToldRefusal)
        requires { CanWrite K.Sink out.old }
        ensures { Writes K.Sink out.old out.new (refusal_lines self.now.style self.now.file.now self.now.text.now told) }
    {
        write_error(out, self.style, self.file, told.refusal);
        self.write_source(out, told.refusal);
        self.write_wanted_note(out, told);
    }

    // Writes the lines of all refusals that are told.
    fn write_all<K: Sink>(&self, out: &mut Pieces<'_, K>)
        requires { CanWrite K.Sink out.old }
        ensures { Writes K.Sink out.old out.new (flat_map (refusal_lines self.now.style self.now.file.now self.now.text.now)
            (take most_told self.now.found.now)) }
    {
        let all = first_told(self.found);
        for told in all {
            self.write_lines(out, *told);
        }
    }

    // Writes how many errors the file has.
    fn write_count<K: Sink>(&self, out: &mut Pieces<'_, K>)
        requires { CanWrite K.Sink out.old }
        ensures { Writes K.Sink out.old out.new (count_line self.now.file.now (length self.now.found.now)) }
    {
        write_shown(out, self.file);
        out.write(b": ");
        write_error_count(out, self.found.len());
        out.write(b"\n");
    }
}

impl<'a> Text for RefusalText<'a> {
    ghost bytes = { λ text. refusal_text_of text.style text.file.now text.text.now text.found.now };

    fn write<K: Sink>(&self, out: &mut Pieces<'_, K>) {
        self.write_all(out);
        self.write_count(out);
    }
}

/// What is told of the text of a file of this name that is refused, made whole. Fails only where memory runs out.
pub fn refusal_text(
    alloc: Global,
    limits: Limits,
    style: Style,
    file: &[u8],
    text: &[u8],
) -> Result<Vec<u8>, OutOfMemory>
    ensures { IfOk result (λ out. out.items ≡ refusal_text_of style file.now text.now (told_within limits text.now)) }
{
    let found = told_refusals(alloc, limits, text)?;
    let found = found.as_slice();
    whole_text(
        alloc,
        &RefusalText {
            style,
            file,
            text,
            found,
        },
    )
}
