// The legend of a picture.

ghost use Rattle.text_pieces.specs.Pieces.{CanWrite, Writes};
ghost use Rattle.flow_views.specs.Dots.{legend, legend_begin, legend_edges, legend_facts, legend_marks, legend_nodes, text_if};

use text_pieces::{Pieces, Sink};

// Writes what the facts of a node mean: sets, or what changes.
fn write_legend_facts<K: Sink>(out: &mut Pieces<'_, K>, changes: bool)
    requires { CanWrite K.Sink out.old }
    ensures { Writes K.Sink out.old out.new (legend_facts changes) }
{
    if changes {
        out.write(
            b"ANALYSIS came: what holds here and not at the point before\\lANALYSIS went: what holds there and not here\\l\
            ANALYSIS came behind: what holds behind it and not before it\\lANALYSIS went behind: what holds before it and not behind it\\l",
        );
    } else {
        out.write(b"ANALYSIS: what holds before it\\lANALYSIS behind: what holds behind it\\l");
    }
}

/// Writes what a legend begins with, up to what a node's lines of facts tell.
pub fn write_legend_begin<K: Sink>(out: &mut Pieces<'_, K>)
    requires { CanWrite K.Sink out.old }
    ensures { Writes K.Sink out.old out.new legend_begin }
{
    out.write(
        b"  subgraph \"cluster_legend\" {\n    id=\"legend\";\n    class=\"legend\";\n    label=\"Legend\";\n    \
        node [class=\"legend\"];\n    edge [class=\"legend\"];\n    \
        legend0 [label=\"LABEL:\\lLINE: STATEMENT\\lremarks\\l",
    );
}

/// Writes its marks, behind what a node's lines of facts tell.
pub fn write_legend_marks<K: Sink>(out: &mut Pieces<'_, K>)
    requires { CanWrite K.Sink out.old }
    ensures { Writes K.Sink out.old out.new legend_marks }
{
    out.write(
        b"\"];\n    legend1 [label=\"never reached\", style=filled, fillcolor=grey80];\n    \
        legend2 [label=\"a variable may be used before it is set\", color=red, fontcolor=red];\n    \
        legend3 [label=\"the assignment is dead\", style=filled, fillcolor=khaki];\n    \
        legend4 [label=\"what follows may never end\", peripheries=2];\n    \
        node [shape=plaintext];\n    legend5 [label=\"a step; T: the test holds, F: it does not\"];\n    \
        legend6 [label=\"from a call to the point behind it\"];\n    \
        legend7 [label=\"a call or a return, with the line of the call\"];\n",
    );
}

// Writes the legend's nodes.
fn write_legend_nodes<K: Sink>(out: &mut Pieces<'_, K>, changes: bool)
    requires { CanWrite K.Sink out.old }
    ensures { Writes K.Sink out.old out.new (legend_nodes changes) }
{
    write_legend_begin(out);
    write_legend_facts(out, changes);
    write_legend_marks(out);
}

/// Writes the legend's edges, and its end.
pub fn write_legend_edges<K: Sink>(out: &mut Pieces<'_, K>)
    requires { CanWrite K.Sink out.old }
    ensures { Writes K.Sink out.old out.new legend_edges }
{
    out.write(
        b"    legend0 -> legend1 -> legend2 -> legend3 -> legend4 [style=invis];\n    legend4 -> legend5;\n    \
        legend5 -> legend6 [style=dotted, arrowhead=none];\n    \
        legend6 -> legend7 [style=dashed, color=grey60];\n  }\n",
    );
}

// Writes the legend.
fn write_both<K: Sink>(out: &mut Pieces<'_, K>, changes: bool)
    requires { CanWrite K.Sink out.old }
    ensures { Writes K.Sink out.old out.new (legend changes) }
{
    write_legend_nodes(out, changes);
    write_legend_edges(out);
}

/// Writes the legend where it is asked for: of sets, or of what changes.
pub(crate) fn write_legend<K: Sink>(out: &mut Pieces<'_, K>, is_asked: bool, changes: bool)
    requires { CanWrite K.Sink out.old }
    ensures { Writes K.Sink out.old out.new (text_if is_asked (legend changes)) }
{
    if !is_asked {
        return;
    }
    write_both(out, changes);
}
