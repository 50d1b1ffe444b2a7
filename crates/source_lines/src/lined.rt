// Texts of lines of which the first can be written by itself.

ghost use Rattle.std.specs.Prelude.{◌≡◌, ◌++◌, ℕ, List};
ghost use Rattle.text_pieces.specs.Pieces.{CanWrite, Writes};
ghost use Rattle.source_lines.specs.SourceLines.{source_lines};

use crate::source::write_source;
use text_pieces::{Pieces, Sink, Text};

/// A text of lines, of which the first can be written by itself, with no need of memory.
pub trait LinedText {
    // The first line.
    ghost first: { Self → List ℕ };

    // All behind it.
    ghost others: { Self → List ℕ };

    /// Writes the first line.
    fn write_first<K: Sink>(&self, out: &mut Pieces<'_, K>)
        requires { CanWrite K.Sink out.old }
        ensures { Writes K.Sink out.old out.new (first self.now) };

    /// Writes all behind it.
    fn write_others<K: Sink>(&self, out: &mut Pieces<'_, K>)
        requires { CanWrite K.Sink out.old }
        ensures { Writes K.Sink out.old out.new (others self.now) };
}

/// Such a text with the lines of a source behind its first line. A source of no bytes has none.
#[derive(Clone, Copy)]
pub struct SourcedText<'a, T> {
    /// The source.
    pub source: &'a [u8],
    /// The text.
    pub lines: &'a T,
}

impl<T: LinedText> Text for SourcedText<'_, T> {
    ghost bytes = { λ text. T.first text.lines.now ++ source_lines text.source.now ++ T.others text.lines.now };

    fn write<K: Sink>(&self, out: &mut Pieces<'_, K>) {
        self.lines.write_first(out);
        write_source(out, self.source);
        self.lines.write_others(out);
    }
}
