// What is marked of a node.

ghost use Rattle.text_pieces.specs.Pieces.{CanWrite, Writes};
ghost use Rattle.flow_views.specs.Dots.{class_of, look_of, node_names};

use flow_texts::write_number;
use flow_views::PointMarks;
use text_pieces::{Pieces, Sink, write_if};

/// Writes what marks look like.
pub fn write_look<K: Sink>(out: &mut Pieces<'_, K>, marks: PointMarks)
    requires { CanWrite K.Sink out.old }
    ensures { Writes K.Sink out.old out.new (look_of marks) }
{
    write_if(out, !marks.reached, b", style=filled, fillcolor=grey80");
    write_if(out, marks.unset, b", color=red, fontcolor=red");
    write_if(out, marks.dead, b", style=filled, fillcolor=khaki");
    write_if(out, marks.doubtful, b", peripheries=2");
}

// Writes the words of marks.
fn write_class<K: Sink>(out: &mut Pieces<'_, K>, marks: PointMarks)
    requires { CanWrite K.Sink out.old }
    ensures { Writes K.Sink out.old out.new (class_of marks) }
{
    out.write(b"point");
    write_if(out, !marks.reached, b" unreached");
    write_if(out, marks.unset, b" unset");
    write_if(out, marks.dead, b" dead");
    write_if(out, marks.doubtful, b" doubtful");
}

/// Writes what a node is called, and what its label begins with.
pub(crate) fn write_node_names<K: Sink>(out: &mut Pieces<'_, K>, point: u32, marks: PointMarks)
    requires { CanWrite K.Sink out.old }
    ensures { Writes K.Sink out.old out.new (node_names point marks) }
{
    out.write(b" [id=\"point");
    write_number(out, point);
    out.write(b"\", class=\"");
    write_class(out, marks);
    out.write(b"\", label=\"");
}
