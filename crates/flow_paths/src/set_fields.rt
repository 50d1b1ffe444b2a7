// What stands around remarks as lines of JSON have it.

ghost use Rattle.std.specs.Prelude.{◌≡◌, ◌++◌, codes, decimal, map};
ghost use Rattle.flow_texts.specs.Tables.{variable_text};
ghost use Rattle.flow_views.specs.Json.{array, boolean, edge_object};
ghost use Rattle.text_pieces.specs.Pieces.{CanWrite, Writes};
ghost use Rattle.text_pieces.specs.Strings.{quoted};
ghost use Rattle.flow_paths.specs.Sets.{number_or_null, numbers};

use flow_graph::Edge;
use flow_texts::write_number;
use tac_program::Program;
use text_pieces::{Pieces, Sink, write_if, write_quoted};

/// Writes numbers as an array.
pub(crate) fn write_numbers<K: Sink>(out: &mut Pieces<'_, K>, list: &[u32])
    requires { CanWrite K.Sink out.old }
    ensures { Writes K.Sink out.old out.new (numbers list.now) }
{
    out.write(b"[");
    for (place, number) in list.iter().enumerate() {
        write_if(out, 0 < place, b",");
        write_number(out, *number);
    }
    out.write(b"]");
}

/// Writes the name of a variable between quotes: an empty one where it is none of the program.
pub(crate) fn write_variable<K: Sink>(out: &mut Pieces<'_, K>, program: &Program, variable: u32)
    requires { CanWrite K.Sink out.old }
    ensures { Writes K.Sink out.old out.new (quoted (variable_text program.now variable)) }
{
    if variable < program.variables() {
        write_quoted(out, program.variable(variable));
    } else {
        write_quoted(out, b"");
    }
}

/// Writes names of variables as an array.
pub(crate) fn write_variables<K: Sink>(out: &mut Pieces<'_, K>, program: &Program, list: &[u32])
    requires { CanWrite K.Sink out.old }
    ensures { Writes K.Sink out.old out.new (array (map (λ v. quoted (variable_text program.now v)) list.now)) }
{
    out.write(b"[");
    for (place, variable) in list.iter().enumerate() {
        write_if(out, 0 < place, b",");
        write_variable(out, program, *variable);
    }
    out.write(b"]");
}

/// Writes a truth value.
pub(crate) fn write_boolean<K: Sink>(out: &mut Pieces<'_, K>, value: bool)
    requires { CanWrite K.Sink out.old }
    ensures { Writes K.Sink out.old out.new (boolean value) }
{
    if value {
        out.write(b"true");
    } else {
        out.write(b"false");
    }
}

/// Writes a number, or null where there is none.
pub(crate) fn write_number_or_null<K: Sink>(out: &mut Pieces<'_, K>, number: Option<u32>)
    requires { CanWrite K.Sink out.old }
    ensures { Writes K.Sink out.old out.new (number_or_null number) }
{
    match number {
        Some(number) => write_number(out, number),
        None => out.write(b"null"),
    }
}

// Writes an edge that goes from call to callee or back, by the call's point and where it leads.
fn write_site<K: Sink>(out: &mut Pieces<'_, K>, kind: &[u8], site: u32, target: u32)
    requires { CanWrite K.Sink out.old }
    ensures { Writes K.Sink out.old out.new (kind.now ++ decimal site ++ codes ",\"to\":" ++ decimal target ++ codes "}") }
{
    out.write(kind);
    write_number(out, site);
    out.write(b",\"to\":");
    write_number(out, target);
    out.write(b"}");
}

// Writes a step.
fn write_step<K: Sink>(out: &mut Pieces<'_, K>, target: u32)
    requires { CanWrite K.Sink out.old }
    ensures { Writes K.Sink out.old out.new (codes "{\"kind\":\"step\",\"to\":" ++ decimal target ++ codes "}") }
{
    out.write(b"{\"kind\":\"step\",\"to\":");
    write_number(out, target);
    out.write(b"}");
}

// Writes an edge.
fn write_edge<K: Sink>(out: &mut Pieces<'_, K>, edge: Edge)
    requires { CanWrite K.Sink out.old }
    ensures { Writes K.Sink out.old out.new (edge_object edge) }
{
    match edge {
        Edge::Step { to, .. } => write_step(out, to),
        Edge::Call { site, to, .. } => write_site(out, b"{\"kind\":\"call\",\"site\":", site, to),
        Edge::Ret { site, to, .. } => write_site(out, b"{\"kind\":\"return\",\"site\":", site, to),
    }
}

/// Writes edges as an array.
pub(crate) fn write_edges<K: Sink>(out: &mut Pieces<'_, K>, edges: &[Edge])
    requires { CanWrite K.Sink out.old }
    ensures { Writes K.Sink out.old out.new (array (map edge_object edges.now)) }
{
    out.write(b"[");
    for (place, edge) in edges.iter().enumerate() {
        write_if(out, 0 < place, b",");
        write_edge(out, *edge);
    }
    out.write(b"]");
}
