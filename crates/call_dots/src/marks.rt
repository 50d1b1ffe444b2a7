// What is marked of a procedure.

ghost use Rattle.text_pieces.specs.Pieces.{CanWrite, Writes};
ghost use Rattle.call_dots.specs.CallDots.{class_of, look_of, node_names};

use flow_texts::write_number;
use text_pieces::{Pieces, Sink, write_if};

/// What is marked of a procedure.
#[derive(Debug, Clone, Copy, PartialEq, Eq)]
pub struct ProcedureMarks {
    /// Whether a valid path leads to its entry.
    pub reached: bool,
    /// Whether it calls itself, through one call or more.
    pub recursive: bool,
}

/// Writes what marks look like.
pub(crate) fn write_look<K: Sink>(out: &mut Pieces<'_, K>, marks: ProcedureMarks)
    requires { CanWrite K.Sink out.old }
    ensures { Writes K.Sink out.old out.new (look_of marks) }
{
    write_if(out, marks.recursive, b", peripheries=2");
    write_if(out, !marks.reached, b", style=filled, fillcolor=grey80");
}

// Writes the words of marks.
fn write_class<K: Sink>(out: &mut Pieces<'_, K>, marks: ProcedureMarks)
    requires { CanWrite K.Sink out.old }
    ensures { Writes K.Sink out.old out.new (class_of marks) }
{
    out.write(b"procedure");
    write_if(out, marks.recursive, b" recursive");
    write_if(out, !marks.reached, b" unreached");
}

/// Writes what a node is called, and what its label begins with.
pub(crate) fn write_node_names<K: Sink>(
    out: &mut Pieces<'_, K>,
    procedure: u32,
    marks: ProcedureMarks,
)
    requires { CanWrite K.Sink out.old }
    ensures { Writes K.Sink out.old out.new (node_names procedure marks) }
{
    out.write(b"  ");
    write_number(out, procedure);
    out.write(b" [id=\"procedure");
    write_number(out, procedure);
    out.write(b"\", class=\"");
    write_class(out, marks);
    out.write(b"\", label=\"");
}
