// A text that is written or not.

ghost use Rattle.std.specs.Prelude.{[], if◌then◌else◌};
ghost use Rattle.text_pieces.specs.Pieces.{CanWrite, Writes};

use crate::device::Sink;
use crate::pieces::Pieces;

/// Writes a text where it is wanted.
pub fn write_if<K: Sink>(out: &mut Pieces<'_, K>, wanted: bool, text: &[u8])
    requires { CanWrite K.Sink out.old }
    ensures { Writes K.Sink out.old out.new (if wanted then text.now else []) }
{
    if !wanted {
        return;
    }
    out.write(text);
}
