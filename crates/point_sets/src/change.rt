// What changes from one set to another, and how it is written.

ghost use Rattle.std.specs.Prelude.{◌≡◌, ◌<◌, ◌≤◌, false, filter, length};
ghost use Rattle.std.specs.List.{range_with_len};
ghost use Rattle.point_sets.specs.Changes.{came_text};
ghost use Rattle.point_sets.specs.Sets.{is_bit_shown};
ghost use Rattle.point_sets.specs.SetLines.{columns};
ghost use Rattle.point_sets.specs.code.Changes.{IsChange, changed, changed_among, old_set, shows_changed};
ghost use Rattle.point_sets.specs.code.Lines.{Lays, blank_line, names_on};
ghost use Rattle.text_pieces.specs.Pieces.{CanWrite, Writes, outlet};
ghost use Rattle.text_pieces.specs.code.Lists.{some_stand};

use crate::lines::Line;
use crate::point_set::PointSet;
use text_pieces::{Pieces, Sink, TextBlock};

/// What stands between an analysis's name and the side, before what came or what went.
pub fn came_text(came: bool) -> &'static [u8]
    ensures { result.now ≡ came_text came }
{
    if came { b" came" } else { b" went" }
}

/// A change from a set, or from the empty one, to another.
#[derive(Clone, Copy)]
pub struct Change<'a> {
    /// The set from which it goes.
    pub old: PointSet<'a>,
    /// Whether it goes from the empty set instead.
    pub from_none: bool,
    /// The set to which it goes.
    pub new: PointSet<'a>,
}

impl Change<'_> {
    // Whether a bit is in the set from which it goes.
    fn had(&self, bit: u32) -> bool
        requires change { IsChange self.now }
        requires bit { bit < self.now.new.table.now.bits }
        ensures { result ≡ old_set self.now bit }
    {
        !self.from_none && self.old.contains(bit)
    }

    /// Whether a bit came, or went.
    ///
    /// The conditions: both sets are of one table's bits, and the bit is one of them.
    pub fn has_changed(&self, came: bool, bit: u32) -> bool
        requires change { IsChange self.now }
        requires bit { bit < self.now.new.table.now.bits }
        ensures { result ≡ changed self.now came bit }
    {
        let had = self.had(bit);
        let has = self.new.contains(bit);
        if came { has && !had } else { had && !has }
    }

    // Whether a bit came, or went, and is shown.
    fn shows(&self, came: bool, bit: u32) -> bool
        requires change { IsChange self.now }
        requires bit { bit < self.now.new.table.now.bits }
        ensures { result ≡ shows_changed self.now came bit }
    {
        self.has_changed(came, bit) && self.new.is_bit_shown(bit)
    }

    /// Whether any bit that is shown came, or went, of the bits before one.
    ///
    /// The conditions: both sets are of one table's bits, which has so many.
    pub fn has_any(&self, came: bool, bits: u32) -> bool
        requires change { IsChange self.now }
        requires bits { bits ≤ self.now.new.table.now.bits }
        ensures { result ≡ some_stand (filter (shows_changed self.now came) (range_with_len 0 bits)) }
    {
        for bit in 0..bits {
            if self.shows(came, bit) {
                return true;
            }
        }
        false
    }

    // Writes the text of a bit that came, or went, where it is shown.
    fn write_bit<K: Sink>(
        &self,
        out: &mut Pieces<'_, K>,
        texts: &TextBlock,
        came: bool,
        bit: u32,
        line: Line,
    ) -> Line
        requires ready { CanWrite K.Sink out.old }
        requires change { IsChange self.now }
        requires bit { bit < self.now.new.table.now.bits }
        requires texts { self.now.new.table.now.bits ≤ length texts.now.texts }
        requires column { line.others ≡ false → line.column < columns }
        ensures { Lays (changed_among self.now came texts.now.texts bit 1) line (outlet K.Sink out.old) (outlet K.Sink out.new) result }
    {
        if !self.shows(came, bit) {
            return line;
        }
        line.write_name(out, texts.text(bit))
    }

    // Writes the texts of the bits before one that came, or went, where they are shown.
    fn write_bits<K: Sink>(
        &self,
        out: &mut Pieces<'_, K>,
        texts: &TextBlock,
        came: bool,
        bits: u32,
        line: Line,
    ) -> Line
        requires ready { CanWrite K.Sink out.old }
        requires change { IsChange self.now }
        requires bits { bits ≤ self.now.new.table.now.bits }
        requires texts { self.now.new.table.now.bits ≤ length texts.now.texts }
        requires column { line.others ≡ false → line.column < columns }
        ensures { Lays (changed_among self.now came texts.now.texts 0 bits) line (outlet K.Sink out.old) (outlet K.Sink out.new) result }
    {
        let mut last = line;
        for bit in 0..bits {
            last = self.write_bit(out, texts, came, bit, last);
        }
        last
    }

    /// Writes the texts of those of the bits before one that came, or went, and are shown, in their order and in lines (`SetLines.antt`), behind a
    /// first line that has so many signs already.
    ///
    /// The conditions: both sets are of one table's bits, which has so many; each bit has its text, and the first line has less than 60 signs.
    pub fn write_names<K: Sink>(
        &self,
        out: &mut Pieces<'_, K>,
        texts: &TextBlock,
        came: bool,
        bits: u32,
        column: usize,
    )
        requires ready { CanWrite K.Sink out.old }
        requires change { IsChange self.now }
        requires bits { bits ≤ self.now.new.table.now.bits }
        requires texts { self.now.new.table.now.bits ≤ length texts.now.texts }
        requires column { column < columns }
        ensures { Writes K.Sink out.old out.new (names_on (blank_line column) (changed_among self.now came texts.now.texts 0 bits)) }
    {
        let line = Line {
            column,
            others: false,
        };
        self.write_bits(out, texts, came, bits, line);
    }
}
