// Parts of a text, as they are shown between two signs of their own.

ghost use Rattle.std.specs.Prelude.{◌≡◌, slice_range, take};
ghost use Rattle.refusal_texts.specs.RefusalTexts.{cut_sign, most_shown, quoted, quoted_part};
ghost use Rattle.text_pieces.specs.Pieces.{CanWrite, Writes};

use lint_styles::write_shown;
use tac_faults::Bytes;
use text_pieces::{Pieces, Sink};

/// How many bytes of a part are shown.
const MOST_SHOWN: usize = 64;

// Writes that there are more bytes than are shown.
fn write_cut<K: Sink>(out: &mut Pieces<'_, K>, count: usize)
    requires { CanWrite K.Sink out.old }
    ensures { Writes K.Sink out.old out.new (cut_sign count) }
{
    if count > MOST_SHOWN {
        out.write(b"..");
    }
}

// The bytes of a part that are shown.
fn shown(part: &[u8]) -> &[u8]
    ensures { result.now ≡ take most_shown part.now }
{
    if part.len() > MOST_SHOWN {
        &part[..MOST_SHOWN]
    } else {
        part
    }
}

/// Writes a part of a text between two signs of its own.
pub fn write_part<K: Sink>(out: &mut Pieces<'_, K>, part: &[u8])
    requires { CanWrite K.Sink out.old }
    ensures { Writes K.Sink out.old out.new (quoted_part part.now) }
{
    out.write(b"`");
    write_shown(out, shown(part));
    write_cut(out, part.len());
    out.write(b"`");
}

// The bytes of a part of a text.
fn part_of(text: &[u8], bytes: Bytes) -> &[u8]
    ensures { result.now ≡ slice_range text.now bytes.start bytes.stop }
{
    let stop = text.len().min(bytes.stop as usize);
    let start = stop.min(bytes.start as usize);
    &text[start..stop]
}

/// Writes these bytes of a text between two signs of their own.
pub fn write_quoted<K: Sink>(out: &mut Pieces<'_, K>, text: &[u8], bytes: Bytes)
    requires { CanWrite K.Sink out.old }
    ensures { Writes K.Sink out.old out.new (quoted text.now bytes) }
{
    write_part(out, part_of(text, bytes));
}
