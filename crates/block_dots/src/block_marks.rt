// What is marked of a block.

ghost use Rattle.std.specs.Prelude.{◌≡◌, ◌<◌, ◌||◌};
ghost use Rattle.flow_views.specs.code.ViewProgram.{AreShown, known_of};
ghost use Rattle.text_pieces.specs.Pieces.{CanWrite, Writes};
ghost use Rattle.block_dots.specs.BlockDots.{block_class, block_marks, block_names};
ghost use Rattle.block_dots.specs.code.Blocks.{IsShownBlock};

use crate::blocks::Block;
use flow_texts::write_number;
use flow_views::{PointMarks, ViewProgram};
use text_pieces::{Pieces, Sink, write_if};

// The marks of a block with those of one more of its points.
fn with_marks(marks: PointMarks, more: PointMarks) -> PointMarks
    ensures { result ≡ record {
      reached = marks.reached;
      unset = marks.unset || more.unset;
      dead = marks.dead || more.dead;
      doubtful = marks.doubtful || more.doubtful;
    } }
{
    PointMarks {
        reached: marks.reached,
        unset: marks.unset || more.unset,
        dead: marks.dead || more.dead,
        doubtful: marks.doubtful || more.doubtful,
    }
}

/// What is marked of a block: that its first point is reached, and what is marked of any of its points.
pub(crate) fn marks_of(shown: &ViewProgram<'_>, block: Block) -> PointMarks
    requires shown { AreShown shown.now }
    requires block { IsShownBlock shown.now block }
    ensures { result ≡ block_marks shown.now.found.graph.now (known_of shown.now) block.leader }
{
    let mut marks = shown.marks(block.leader);
    for point in block.leader + 1..block.end {
        marks = with_marks(marks, shown.marks(point));
    }
    marks
}

// Writes the words of marks.
fn write_class<K: Sink>(out: &mut Pieces<'_, K>, marks: PointMarks)
    requires { CanWrite K.Sink out.old }
    ensures { Writes K.Sink out.old out.new (block_class marks) }
{
    out.write(b"block");
    write_if(out, !marks.reached, b" unreached");
    write_if(out, marks.unset, b" unset");
    write_if(out, marks.dead, b" dead");
    write_if(out, marks.doubtful, b" doubtful");
}

/// Writes what a node is called, and what its label begins with.
pub(crate) fn write_block_names<K: Sink>(out: &mut Pieces<'_, K>, leader: u32, marks: PointMarks)
    requires { CanWrite K.Sink out.old }
    ensures { Writes K.Sink out.old out.new (block_names leader marks) }
{
    out.write(b" [id=\"block");
    write_number(out, leader);
    out.write(b"\", class=\"");
    write_class(out, marks);
    out.write(b"\", label=\"");
}
