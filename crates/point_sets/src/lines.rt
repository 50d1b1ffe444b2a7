// The lines of a set, as they are written.

ghost use Rattle.std.specs.Prelude.{◌≡◌, ◌<◌, false, true};
ghost use Rattle.point_sets.specs.SetLines.{columns, fits};
ghost use Rattle.point_sets.specs.code.Lines.{name_on, with_name};
ghost use Rattle.text_pieces.specs.Pieces.{CanWrite, Writes};

use text_pieces::{Pieces, Sink};

/// A line that is being written: how many signs it has, and whether a name stands on it.
#[derive(Clone, Copy)]
pub struct Line {
    /// How many signs it has.
    pub column: usize,
    /// Whether a name stands on it.
    pub others: bool,
}

// Whether a name of so many signs fits behind a column: 60 are the most, and `, ` stands before it and `,` behind it.
fn fits(column: usize, signs: usize) -> bool
    ensures { result ≡ fits column signs }
{
    column < 58 && signs < 58 - column
}

impl Line {
    // Writes a name behind another one, and answers on which line it stands.
    fn write_behind<K: Sink>(self, out: &mut Pieces<'_, K>, name: &[u8]) -> Line
        requires ready { CanWrite K.Sink out.old }
        requires others { self.others ≡ true }
        ensures writes { Writes K.Sink out.old out.new (name_on self name.now) }
        ensures line { result ≡ with_name self name.now }
    {
        if fits(self.column, name.len()) {
            out.write(b", ");
            out.write(name);
            return Line {
                column: self.column + 2 + name.len(),
                others: true,
            };
        }
        out.write(b",\\l  ");
        out.write(name);
        Line {
            column: 2 + name.len(),
            others: true,
        }
    }

    /// Writes a name, and answers on which line it stands.
    ///
    /// The condition: the first name's line has less than 60 signs before it.
    pub fn write_name<K: Sink>(self, out: &mut Pieces<'_, K>, name: &[u8]) -> Line
        requires ready { CanWrite K.Sink out.old }
        requires column { self.others ≡ false → self.column < columns }
        ensures writes { Writes K.Sink out.old out.new (name_on self name.now) }
        ensures line { result ≡ with_name self name.now }
    {
        if self.others {
            return self.write_behind(out, name);
        }
        out.write(name);
        Line {
            column: self.column + name.len(),
            others: true,
        }
    }
}
