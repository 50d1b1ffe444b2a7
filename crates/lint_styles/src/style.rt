// Whether lines of the source are shown, and colours.

ghost use Rattle.std.specs.Prelude.{◌≡◌};
ghost use Rattle.lint_styles.specs.Styles.{code_of, paint_begin, paint_end, painted};
ghost use Rattle.text_pieces.specs.Pieces.{CanWrite, Writes};

use text_pieces::{Pieces, Sink};

/// How what is told is shown.
#[derive(Debug, Clone, Copy, PartialEq, Eq)]
pub struct Style {
    /// Whether the line of the source stands behind it.
    pub source: bool,
    /// Whether there are colours.
    pub color: bool,
}

/// What has a colour.
#[derive(Debug, Clone, Copy, PartialEq, Eq)]
pub enum Hue {
    /// The kind of a remark.
    Remark,
    /// The word of an error.
    Error,
    /// The word of a note.
    Note,
    /// The sign below a line of the source.
    Caret,
}

impl Hue {
    // What a terminal calls the colour.
    fn code(self) -> &'static [u8]
        ensures { result.now ≡ code_of self }
    {
        match self {
            Hue::Remark => b"1;35",
            Hue::Error => b"1;31",
            Hue::Note => b"1;36",
            Hue::Caret => b"1;32",
        }
    }
}

impl Style {
    // Writes what begins a colour.
    fn write_begin<K: Sink>(self, out: &mut Pieces<'_, K>, hue: Hue)
        requires { CanWrite K.Sink out.old }
        ensures { Writes K.Sink out.old out.new (paint_begin self hue) }
    {
        if self.color {
            out.write(b"\x1b[");
            out.write(hue.code());
            out.write(b"m");
        }
    }

    // Writes what ends it.
    fn write_end<K: Sink>(self, out: &mut Pieces<'_, K>)
        requires { CanWrite K.Sink out.old }
        ensures { Writes K.Sink out.old out.new (paint_end self) }
    {
        if self.color {
            out.write(b"\x1b[0m");
        }
    }
}

/// Writes a text, in its colour where there are colours.
pub fn write_painted<K: Sink>(out: &mut Pieces<'_, K>, style: Style, hue: Hue, text: &[u8])
    requires { CanWrite K.Sink out.old }
    ensures { Writes K.Sink out.old out.new (painted style hue text.now) }
{
    style.write_begin(out, hue);
    out.write(text);
    style.write_end(out);
}
