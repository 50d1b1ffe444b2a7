// Texts that can be written in pieces.

ghost use Rattle.std.specs.Prelude.{ℕ, List};
ghost use Rattle.text_pieces.specs.Pieces.{CanWrite, Writes};

use crate::device::Sink;
use crate::pieces::Pieces;

/// A text that can be written in pieces, with no need of memory.
pub trait Text {
    ghost bytes: { Self → List ℕ };

    /// Writes the text.
    fn write<K: Sink>(&self, out: &mut Pieces<'_, K>)
        requires { CanWrite K.Sink out.old }
        ensures { Writes K.Sink out.old out.new (bytes self.now) };
}

/// A text that stands in memory as it is.
#[derive(Clone, Copy)]
pub struct Bytes<'a>(pub &'a [u8]);

impl<'a> Text for Bytes<'a> {
    ghost bytes = { λ text. text.0.now };

    fn write<K: Sink>(&self, out: &mut Pieces<'_, K>) {
        out.write(self.0);
    }
}
