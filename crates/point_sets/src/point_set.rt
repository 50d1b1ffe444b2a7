// A set at a point, and how it is written.

ghost use Rattle.std.specs.Prelude.{◌≡◌, ℕ, ◌<◌, ◌≤◌, ◌+◌, ◌-◌, ◌*◌, false, length, min, true};
ghost use Rattle.flow_graph.specs.Transfers.{is_in_boundary};
ghost use Rattle.flow_graph.specs.Universes.{bits};
ghost use Rattle.flow_team.specs.Tables.{facts_of};
ghost use Rattle.point_sets.specs.Sets.{behind, is_bit_shown, passed, set_on};
ghost use Rattle.point_sets.specs.SetLines.{columns};
ghost use Rattle.point_sets.specs.code.Lines.{Lays, names_among, set_from};
ghost use Rattle.point_sets.specs.code.PointSets.{IsPointSet, shows};
ghost use Rattle.text_pieces.specs.Pieces.{CanWrite, Writes, outlet};

use crate::behind::{is_available_behind, is_in_each, is_in_some, reaches_behind};
use crate::lines::Line;
use crate::side::Side;
use bit_rows::words_for;
use flow_graph::{Analysis, Edge, Graph};
use flow_team::Table;
use text_pieces::{Pieces, Sink, TextBlock};

// Whether a bit is one of the boundary's.
fn is_entry(graph: &Graph<'_>, analysis: Analysis, bit: u32) -> bool
    requires { bit < bits graph.now analysis }
    ensures { result ≡ is_in_boundary graph.now analysis bit }
{
    match analysis {
        Analysis::Reach => graph.definition(bit).1.is_none(),
        Analysis::Live => false,
        Analysis::Avail => false,
        Analysis::Busy => false,
    }
}

/// Whether a bit of an analysis is shown where it holds.
pub fn is_bit_shown(graph: &Graph<'_>, analysis: Analysis, hides_entry: bool, bit: u32) -> bool
    requires { bit < bits graph.now analysis }
    ensures { result ≡ is_bit_shown graph.now analysis hides_entry bit }
{
    !(hides_entry && is_entry(graph, analysis, bit))
}

/// The set of a table at a point: before its statement, or behind it.
#[derive(Clone, Copy)]
pub struct PointSet<'a> {
    /// The program.
    pub graph: &'a Graph<'a>,
    /// The table of an analysis.
    pub table: &'a Table,
    /// The edges out of the point.
    pub edges: &'a [Edge],
    /// The point.
    pub point: u32,
    /// On which side of its statement.
    pub side: Side,
    /// Whether the dummy definitions are left out.
    pub hides_entry: bool,
}

impl PointSet<'_> {
    // Whether a bit holds behind the statement.
    fn is_behind(&self, bit: u32) -> bool
        requires set { IsPointSet self.now }
        requires side { self.now.side ≡ Side.Behind }
        requires bit { bit < self.now.table.now.bits }
        ensures { result ≡ behind self.now.graph.now self.now.table.now.analysis (facts_of self.now.table.now) self.now.point bit }
    {
        match self.table.analysis() {
            Analysis::Reach => reaches_behind(self.graph, self.table, self.point, bit),
            Analysis::Live => is_in_some(self.table, self.edges, bit),
            Analysis::Avail => is_available_behind(self.graph, self.table, self.point, bit),
            Analysis::Busy => is_in_each(self.table, self.edges, bit),
        }
    }

    /// Whether a bit holds there.
    ///
    /// The conditions: it is a set of a table of the graph's program, as [`write_point_set`] has it, and the bit is one of the table's.
    pub fn contains(&self, bit: u32) -> bool
        requires set { IsPointSet self.now }
        requires bit { bit < self.now.table.now.bits }
        ensures { result ≡ set_on self.now.side self.now.graph.now self.now.table.now.analysis (facts_of self.now.table.now) self.now.point bit }
    {
        match self.side {
            Side::Before => self.table.contains(self.point, bit),
            Side::Behind => self.is_behind(bit),
        }
    }

    // Whether a bit is shown where it holds.
    pub(crate) fn is_bit_shown(&self, bit: u32) -> bool
        requires bits { self.now.table.now.bits ≡ bits self.now.graph.now self.now.table.now.analysis }
        requires bit { bit < self.now.table.now.bits }
        ensures { result ≡ is_bit_shown self.now.graph.now self.now.table.now.analysis self.now.hides_entry bit }
    {
        is_bit_shown(self.graph, self.table.analysis(), self.hides_entry, bit)
    }

    // Whether a bit is shown.
    fn shows(&self, bit: u32) -> bool
        requires set { IsPointSet self.now }
        requires bit { bit < self.now.table.now.bits }
        ensures { result ≡ shows self.now bit }
    {
        self.contains(bit) && self.is_bit_shown(bit)
    }

    // Whether none of a word's bits is shown: it tells of sets before a statement alone.
    fn is_blank(&self, at: u32) -> bool
        requires { IsPointSet self.now }
        ensures { result ≡ true → (k : ℕ) → k < 64 → shows self.now (64 * at + k) ≡ false }
    {
        match self.side {
            Side::Before => self.table.word(self.point, at) == 0,
            Side::Behind => false,
        }
    }

    // Writes the text of a bit that is shown.
    fn write_bit<K: Sink>(
        &self,
        out: &mut Pieces<'_, K>,
        texts: &TextBlock,
        bit: u32,
        line: Line,
    ) -> Line
        requires ready { CanWrite K.Sink out.old }
        requires set { IsPointSet self.now }
        requires bit { bit < self.now.table.now.bits }
        requires texts { self.now.table.now.bits ≤ length texts.now.texts }
        requires column { line.others ≡ false → line.column < columns }
        ensures { Lays (names_among self.now texts.now.texts bit 1) line (outlet K.Sink out.old) (outlet K.Sink out.new) result }
    {
        if !self.shows(bit) {
            return line;
        }
        line.write_name(out, texts.text(bit))
    }

    // Writes the texts of those bits that are shown, among those from one on and before another.
    fn write_bits<K: Sink>(
        &self,
        out: &mut Pieces<'_, K>,
        texts: &TextBlock,
        first: u32,
        end: u32,
        line: Line,
    ) -> Line
        requires ready { CanWrite K.Sink out.old }
        requires set { IsPointSet self.now }
        requires ordered { first ≤ end }
        requires end { end ≤ self.now.table.now.bits }
        requires texts { self.now.table.now.bits ≤ length texts.now.texts }
        requires column { line.others ≡ false → line.column < columns }
        ensures { Lays (names_among self.now texts.now.texts first (end - first)) line (outlet K.Sink out.old) (outlet K.Sink out.new) result }
    {
        let mut last = line;
        for bit in first..end {
            last = self.write_bit(out, texts, bit, last);
        }
        last
    }

    // Writes those of a word.
    fn write_word<K: Sink>(
        &self,
        out: &mut Pieces<'_, K>,
        texts: &TextBlock,
        at: u32,
        bits: u32,
        line: Line,
    ) -> Line
        requires ready { CanWrite K.Sink out.old }
        requires set { IsPointSet self.now }
        requires bits { bits ≡ self.now.table.now.bits }
        requires at { 64 * at < bits }
        requires texts { bits ≤ length texts.now.texts }
        requires column { line.others ≡ false → line.column < columns }
        ensures { Lays (names_among self.now texts.now.texts (64 * at) (min (bits - 64 * at) 64)) line
            (outlet K.Sink out.old) (outlet K.Sink out.new) result }
    {
        if self.is_blank(at) {
            return line;
        }
        let first = 64 * at;
        self.write_bits(out, texts, first, first + (bits - first).min(64), line)
    }

    // Writes those of all words.
    fn write_words<K: Sink>(
        &self,
        out: &mut Pieces<'_, K>,
        texts: &TextBlock,
        bits: u32,
        line: Line,
    ) -> Line
        requires ready { CanWrite K.Sink out.old }
        requires set { IsPointSet self.now }
        requires bits { bits ≡ self.now.table.now.bits }
        requires texts { bits ≤ length texts.now.texts }
        requires column { line.others ≡ false → line.column < columns }
        ensures { Lays (names_among self.now texts.now.texts 0 bits) line (outlet K.Sink out.old) (outlet K.Sink out.new) result }
    {
        let mut last = line;
        for at in 0..words_for(bits) {
            last = self.write_word(out, texts, at, bits, last);
        }
        last
    }
}

/// Writes the texts of those of a set's bits that are shown, in their order and in lines (`SetLines.antt`), behind a first line that has so
/// many signs already; `-` where there are none.
///
/// The conditions: the table is one of the graph's program and has the point, the edges are those out of it, and where the set behind is
/// wanted the table has the points to which they lead; each bit has its text, and the first line has less than 60 signs.
pub fn write_point_set<K: Sink>(
    out: &mut Pieces<'_, K>,
    texts: &TextBlock,
    set: &PointSet<'_>,
    column: usize,
)
    requires ready { CanWrite K.Sink out.old }
    requires set { IsPointSet set.now }
    requires texts { set.now.table.now.bits ≤ length texts.now.texts }
    requires column { column < columns }
    ensures { Writes K.Sink out.old out.new (set_from column (names_among set.now texts.now.texts 0 set.now.table.now.bits)) }
{
    let bits = set.graph.bits(set.table.analysis());
    let line = Line {
        column,
        others: false,
    };
    let last = set.write_words(out, texts, bits, line);
    if !last.others {
        out.write(b"-");
    }
}
