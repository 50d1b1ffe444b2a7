// Gen and kill of a block, and how they are written.

ghost use Rattle.std.specs.Prelude.{◌≡◌, ◌<◌, ◌≤◌, false, length};
ghost use Rattle.flow_graph.specs.Universes.{bits};
ghost use Rattle.point_sets.specs.SetLines.{columns};
ghost use Rattle.point_sets.specs.code.Lines.{Lays, set_from};
ghost use Rattle.text_pieces.specs.Pieces.{CanWrite, Writes, outlet};
ghost use Rattle.block_dots.specs.code.BlockBits.{AreBlockBits, block_has, block_shows, shown_among};

use crate::blocks::Block;
use crate::exposed::{exposed, kills_some};
use flow_graph::{Analysis, Graph};
use point_sets::{Line, is_bit_shown};
use text_pieces::{Pieces, Sink, TextBlock};

/// What a block generates, or kills, in an analysis.
#[derive(Clone, Copy)]
pub struct BlockBits<'a> {
    /// The program.
    pub graph: &'a Graph<'a>,
    /// The analysis.
    pub analysis: Analysis,
    /// The block.
    pub block: Block,
    /// Whether it is what it kills.
    pub kill: bool,
    /// Whether the dummy definitions are left out.
    pub hides_entry: bool,
}

impl BlockBits<'_> {
    // Whether a bit is one of them.
    fn contains(&self, bit: u32) -> bool
        requires block { AreBlockBits self.now }
        requires bit { bit < bits self.now.graph.now self.now.analysis }
        ensures { result ≡ block_has self.now bit }
    {
        let (first, end) = (self.block.leader, self.block.end);
        if self.kill {
            kills_some(self.graph, self.analysis, first, end, bit)
        } else {
            exposed(self.graph, self.analysis, first, end, bit)
        }
    }

    // Whether a bit is one of them, and shown.
    fn shows(&self, bit: u32) -> bool
        requires block { AreBlockBits self.now }
        requires bit { bit < bits self.now.graph.now self.now.analysis }
        ensures { result ≡ block_shows self.now bit }
    {
        self.contains(bit) && is_bit_shown(self.graph, self.analysis, self.hides_entry, bit)
    }

    // Writes the text of a bit that is shown.
    fn write_bit<K: Sink>(
        &self,
        out: &mut Pieces<'_, K>,
        texts: &TextBlock,
        bit: u32,
        line: Line,
    ) -> Line
        requires ready { CanWrite K.Sink out.old }
        requires block { AreBlockBits self.now }
        requires bit { bit < bits self.now.graph.now self.now.analysis }
        requires texts { bits self.now.graph.now self.now.analysis ≤ length texts.now.texts }
        requires column { line.others ≡ false → line.column < columns }
        ensures { Lays (shown_among self.now texts.now.texts bit 1) line (outlet K.Sink out.old) (outlet K.Sink out.new) result }
    {
        if !self.shows(bit) {
            return line;
        }
        line.write_name(out, texts.text(bit))
    }

    // Writes the texts of the bits before one that are shown.
    fn write_bits<K: Sink>(
        &self,
        out: &mut Pieces<'_, K>,
        texts: &TextBlock,
        end: u32,
        line: Line,
    ) -> Line
        requires ready { CanWrite K.Sink out.old }
        requires block { AreBlockBits self.now }
        requires bits { end ≤ bits self.now.graph.now self.now.analysis }
        requires texts { bits self.now.graph.now self.now.analysis ≤ length texts.now.texts }
        requires column { line.others ≡ false → line.column < columns }
        ensures { Lays (shown_among self.now texts.now.texts 0 end) line (outlet K.Sink out.old) (outlet K.Sink out.new) result }
    {
        let mut last = line;
        for bit in 0..end {
            last = self.write_bit(out, texts, bit, last);
        }
        last
    }
}

/// Writes the texts of what a block generates, or kills, in the order of their numbers and in lines (`SetLines.antt`), behind a first line that
/// has so many signs already; `-` where there is nothing.
///
/// The conditions: the block's points are points of the program; each bit has its text, and the first line has less than 60 signs.
pub(crate) fn write_block_bits<K: Sink>(
    out: &mut Pieces<'_, K>,
    texts: &TextBlock,
    set: &BlockBits<'_>,
    column: usize,
)
    requires ready { CanWrite K.Sink out.old }
    requires block { AreBlockBits set.now }
    requires texts { bits set.now.graph.now set.now.analysis ≤ length texts.now.texts }
    requires column { column < columns }
    ensures { Writes K.Sink out.old out.new
        (set_from column (shown_among set.now texts.now.texts 0 (bits set.now.graph.now set.now.analysis))) }
{
    let end = set.graph.bits(set.analysis);
    let line = Line {
        column,
        others: false,
    };
    let last = set.write_bits(out, texts, end, line);
    if !last.others {
        out.write(b"-");
    }
}
