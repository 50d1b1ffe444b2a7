// The line that tells that a procedure is not there.

ghost use Rattle.std.specs.Prelude.{◌≡◌, IfOk};
ghost use Rattle.lint_commands.specs.Missing.{missing_line};

use crate::OutOfMemory;
use lint_styles::write_shown;
use std::alloc::Global;
use text_pieces::{Pieces, Sink, Text, whole_text};

// That a file's program has no procedure of a name.
#[derive(Clone, Copy)]
struct MissingText<'a> {
    file: &'a [u8],
    name: &'a [u8],
}

impl<'a> Text for MissingText<'a> {
    ghost use Rattle.lint_commands.specs.Missing.{missing_line};

    ghost bytes = { λ text. missing_line text.file.now text.name.now };

    fn write<K: Sink>(&self, out: &mut Pieces<'_, K>) {
        write_shown(out, self.file);
        out.write(b": the program has no procedure ");
        write_shown(out, self.name);
        out.write(b"\n");
    }
}

/// The line on standard error that tells that a file's program has no procedure of a name; in both names each byte that is no printed sign of
/// ASCII is told as `\x` and two hexadecimal digits. Fails only where memory runs out.
pub fn missing_line(alloc: Global, file: &[u8], name: &[u8]) -> Result<Vec<u8>, OutOfMemory>
    ensures { IfOk result (λ line. line.items ≡ missing_line file.now name.now) }
{
    whole_text(alloc, &MissingText { file, name })
}
