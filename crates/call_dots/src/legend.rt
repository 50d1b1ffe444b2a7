// What the picture begins with, and its legend.

ghost use Rattle.text_pieces.specs.Pieces.{CanWrite, Writes};
ghost use Rattle.call_dots.specs.CallDots.{head, legend};
ghost use Rattle.flow_views.specs.Dots.{text_if};

use text_pieces::{Pieces, Sink};

/// Writes what the text begins with.
pub(crate) fn write_head<K: Sink>(out: &mut Pieces<'_, K>)
    requires { CanWrite K.Sink out.old }
    ensures { Writes K.Sink out.old out.new head }
{
    out.write(
        b"digraph \"tacflow\" {\n  graph [fontname=\"monospace\", labeljust=l];\n  \
        node [shape=box, fontname=\"monospace\", fontsize=11];\n  \
        edge [class=\"call\", fontname=\"monospace\", fontsize=10];\n",
    );
}

/// Writes the legend where it is asked for.
pub(crate) fn write_legend<K: Sink>(out: &mut Pieces<'_, K>, is_asked: bool)
    requires { CanWrite K.Sink out.old }
    ensures { Writes K.Sink out.old out.new (text_if is_asked legend) }
{
    if !is_asked {
        return;
    }
    out.write(
        b"  subgraph \"cluster_legend\" {\n    id=\"legend\";\n    class=\"legend\";\n    label=\"Legend\";\n    \
        node [class=\"legend\"];\n    edge [class=\"legend\"];\n    \
        legend0 [label=\"PROCEDURE\\lline of its first statement, points\\lremarks of each kind\\l\"];\n    \
        legend1 [label=\"calls itself, through others or not\", peripheries=2];\n    \
        legend2 [label=\"never reached\", style=filled, fillcolor=grey80];\n    \
        node [shape=plaintext];\n    legend3 [label=\"calls, with the line where it is one\"];\n    \
        legend4 [label=\"calls that lead back to the caller\"];\n    \
        legend0 -> legend1 -> legend2 [style=invis];\n    legend2 -> legend3;\n    \
        legend3 -> legend4 [style=dashed, color=grey40];\n  }\n",
    );
}
