// What came and what went from one set to another, as arrays.

ghost use Rattle.std.specs.Prelude.{◌≡◌, ◌<◌, ◌≤◌, codes, false, filter, length, map};
ghost use Rattle.std.specs.List.{range_with_len};
ghost use Rattle.flow_texts.specs.code.Members.{Wrote, chosen};
ghost use Rattle.flow_views.specs.Json.{array};
ghost use Rattle.point_sets.specs.code.Changes.{IsChange, changed};
ghost use Rattle.text_pieces.specs.Pieces.{CanWrite, Writes, outlet};
ghost use Rattle.text_pieces.specs.code.Lists.{text_at};

use point_sets::Change;
use text_pieces::{Pieces, Sink, TextBlock};

// Writes the text of a bit that came, or went, and answers whether any text stands now.
fn write_bit<K: Sink>(
    out: &mut Pieces<'_, K>,
    texts: &TextBlock,
    change: &Change<'_>,
    came: bool,
    bit: u32,
    others: bool,
) -> bool
    requires ready { CanWrite K.Sink out.old }
    requires change { IsChange change.now }
    requires bit { bit < change.now.new.table.now.bits }
    requires texts { change.now.new.table.now.bits ≤ length texts.now.texts }
    ensures { Wrote texts.now.between (chosen texts.now.texts (changed change.now came)) others bit 1
        (outlet K.Sink out.old) (outlet K.Sink out.new) result }
{
    if !change.has_changed(came, bit) {
        return others;
    }
    out.write(texts.range(bit as usize, bit as usize + 1, others));
    true
}

// Writes the texts of the bits that came, or went.
fn write_bits<K: Sink>(
    out: &mut Pieces<'_, K>,
    texts: &TextBlock,
    change: &Change<'_>,
    came: bool,
    bits: u32,
) -> bool
    requires ready { CanWrite K.Sink out.old }
    requires change { IsChange change.now }
    requires bits { bits ≡ change.now.new.table.now.bits }
    requires texts { bits ≤ length texts.now.texts }
    ensures { Wrote texts.now.between (chosen texts.now.texts (changed change.now came)) false 0 bits
        (outlet K.Sink out.old) (outlet K.Sink out.new) result }
{
    let mut others = false;
    for bit in 0..bits {
        others = write_bit(out, texts, change, came, bit, others);
    }
    others
}

/// Writes the texts of the bits that came, or went, as an array.
pub(crate) fn write_changed<K: Sink>(
    out: &mut Pieces<'_, K>,
    texts: &TextBlock,
    change: &Change<'_>,
    came: bool,
    bits: u32,
)
    requires ready { CanWrite K.Sink out.old }
    requires commas { texts.now.between ≡ codes "," }
    requires change { IsChange change.now }
    requires bits { bits ≡ change.now.new.table.now.bits }
    requires texts { bits ≤ length texts.now.texts }
    ensures { Writes K.Sink out.old out.new
        (array (map (text_at texts.now.texts) (filter (changed change.now came) (range_with_len 0 bits)))) }
{
    out.write(b"[");
    write_bits(out, texts, change, came, bits);
    out.write(b"]");
}
