// Lines of JSON of a program and of its points, but for facts.

ghost use Rattle.std.specs.Prelude.{◌≡◌, ◌+◌, ◌++◌, ◌<◌, All, Some, codes, decimal, map};
ghost use Rattle.flow_graph.specs.Edges.{edges_from};
ghost use Rattle.flow_graph.specs.Paths.{source_of};
ghost use Rattle.flow_graph.specs.Points.{place_of, point_count, procedure_at, statement_at};
ghost use Rattle.flow_views.specs.Json.{array, boolean, point_edge, program_line, span_fields, statement_field, when_field};
ghost use Rattle.flow_views.specs.Views.{label_name, names_at, outcome, procedure_name};
ghost use Rattle.json_texts.specs.Changes.{program_head};
ghost use Rattle.json_texts.specs.code.Outlines.{IsOutline, bare_point_line, point_fields, point_front};
ghost use Rattle.tac_listing.specs.Listings.{statement_text};
ghost use Rattle.text_pieces.specs.Pieces.{CanWrite, Writes};
ghost use Rattle.text_pieces.specs.Strings.{quoted};

use flow_graph::{Analysis, Edge, Graph};
use flow_texts::write_number;
use flow_views::{labels_of, name_of_label, name_of_procedure, outcome_by, write_statement_of};
use itoa::Buffer;
use tac_program::{Label, Span, Stmt};
use text_pieces::{Pieces, Sink, write_if, write_quoted};

/// A point of a graph: the edges out of it, and whether it is doubtful.
#[derive(Clone, Copy)]
pub struct PointOutline<'a> {
    /// The graph.
    pub graph: &'a Graph<'a>,
    /// The point.
    pub point: u32,
    /// The edges out of it.
    pub edges: &'a [Edge],
    /// Whether it is doubtful.
    pub doubtful: bool,
}

// Writes a place in the text.
fn write_position<K: Sink>(out: &mut Pieces<'_, K>, position: u64)
    requires { CanWrite K.Sink out.old }
    ensures { Writes K.Sink out.old out.new (decimal position) }
{
    out.write(Buffer::new().format(position).as_bytes());
}

// Writes where a statement stands.
fn write_span<K: Sink>(out: &mut Pieces<'_, K>, span: Span)
    requires { CanWrite K.Sink out.old }
    ensures { Writes K.Sink out.old out.new
        (codes ",\"line\":" ++ decimal span.line ++ codes ",\"first\":" ++ decimal (span.start + 1) ++ codes ",\"last\":" ++ decimal span.end) }
{
    out.write(b",\"line\":");
    write_number(out, span.line);
    out.write(b",\"first\":");
    write_position(out, span.start as u64 + 1);
    out.write(b",\"last\":");
    write_number(out, span.end);
}

/// Writes where the statement at a point stands; nulls at a procedure's end.
pub(crate) fn write_place<K: Sink>(out: &mut Pieces<'_, K>, graph: &Graph<'_>, point: u32)
    requires ready { CanWrite K.Sink out.old }
    requires point { point < point_count graph.now }
    ensures { Writes K.Sink out.old out.new (span_fields graph.now point) }
{
    match graph.stmt(point) {
        Some(stmt) => write_span(out, stmt.span),
        None => out.write(b",\"line\":null,\"first\":null,\"last\":null"),
    }
}

/// Writes a truth value.
pub(crate) fn write_boolean<K: Sink>(out: &mut Pieces<'_, K>, value: bool)
    requires { CanWrite K.Sink out.old }
    ensures { Writes K.Sink out.old out.new (boolean value) }
{
    if value {
        out.write(b"true");
    } else {
        out.write(b"false");
    }
}

// Writes an edge that goes from call to callee or back, by the call's point and where it leads.
fn write_site<K: Sink>(out: &mut Pieces<'_, K>, kind: &[u8], site: u32, target: u32)
    requires { CanWrite K.Sink out.old }
    ensures { Writes K.Sink out.old out.new (kind.now ++ decimal site ++ codes ",\"to\":" ++ decimal target ++ codes "}") }
{
    out.write(kind);
    write_number(out, site);
    out.write(b",\"to\":");
    write_number(out, target);
    out.write(b"}");
}

// Writes the outcome by which a step is taken.
fn write_when<K: Sink>(out: &mut Pieces<'_, K>, when: Option<bool>)
    requires { CanWrite K.Sink out.old }
    ensures { Writes K.Sink out.old out.new (when_field when) }
{
    match when {
        Some(holds) => {
            out.write(b",\"when\":");
            write_boolean(out, holds);
        },
        None => {},
    }
}

// Writes the names of the procedures as an array.
fn write_procedures<K: Sink>(out: &mut Pieces<'_, K>, graph: &Graph<'_>)
    requires ready { CanWrite K.Sink out.old }
    ensures { Writes K.Sink out.old out.new (array (map quoted graph.now.procedure_names)) }
{
    // Its contract tells that each procedure has a name.
    let _ = graph.points();
    let count = graph.program().procs().len();
    out.write(b"[");
    for procedure in 0..count as u32 {
        write_if(out, 0 < procedure, b",");
        write_quoted(out, name_of_procedure(&*graph, procedure));
    }
    out.write(b"]");
}

// Writes the names of the variables as an array.
fn write_variables<K: Sink>(out: &mut Pieces<'_, K>, graph: &Graph<'_>)
    requires ready { CanWrite K.Sink out.old }
    ensures { Writes K.Sink out.old out.new (array (map quoted graph.now.variable_names)) }
{
    let program = graph.program();
    out.write(b"[");
    for variable in 0..program.variables() {
        write_if(out, 0 < variable, b",");
        write_quoted(out, program.variable(variable));
    }
    out.write(b"]");
}

/// Writes the line of the program but for its end, a brace and a line feed.
pub(crate) fn write_program_head<K: Sink>(out: &mut Pieces<'_, K>, graph: &Graph<'_>)
    requires ready { CanWrite K.Sink out.old }
    ensures { Writes K.Sink out.old out.new (program_head graph.now) }
{
    out.write(b"{\"type\":\"program\",\"version\":1,\"points\":");
    write_number(out, graph.points());
    out.write(b",\"procedures\":");
    write_procedures(out, graph);
    out.write(b",\"variables\":");
    write_variables(out, graph);
    out.write(b",\"definitions\":");
    write_number(out, graph.bits(Analysis::Reach));
    out.write(b",\"expressions\":");
    write_number(out, graph.bits(Analysis::Avail));
}

/// Writes the line of the program.
pub fn write_program<K: Sink>(out: &mut Pieces<'_, K>, graph: &Graph<'_>)
    requires ready { CanWrite K.Sink out.old }
    ensures { Writes K.Sink out.old out.new (program_line graph.now) }
{
    write_program_head(out, graph);
    out.write(b"}\n");
}

// Writes a statement between quotes.
fn write_statement_field<K: Sink>(
    out: &mut Pieces<'_, K>,
    graph: &Graph<'_>,
    point: u32,
    stmt: &Stmt,
)
    requires ready { CanWrite K.Sink out.old }
    requires point { point < point_count graph.now }
    requires statement { statement_at graph.now point ≡ Some stmt.now }
    ensures { Writes K.Sink out.old out.new (quoted (statement_text (names_at graph.now point) stmt.now.kind)) }
{
    out.write(b"\"");
    write_statement_of(graph, out, point, stmt);
    out.write(b"\"");
}

// Writes the statement at a point; null at a procedure's end.
fn write_statement_or_null<K: Sink>(out: &mut Pieces<'_, K>, graph: &Graph<'_>, point: u32)
    requires ready { CanWrite K.Sink out.old }
    requires point { point < point_count graph.now }
    ensures { Writes K.Sink out.old out.new (statement_field graph.now point) }
{
    match graph.stmt(point) {
        Some(stmt) => write_statement_field(out, graph, point, stmt),
        None => out.write(b"null"),
    }
}

// Writes the names of labels of a point as an array.
fn write_labels<K: Sink>(out: &mut Pieces<'_, K>, graph: &Graph<'_>, point: u32, labels: &[Label])
    requires ready { CanWrite K.Sink out.old }
    requires point { point < point_count graph.now }
    ensures { Writes K.Sink out.old out.new (array (map (λ label. quoted (label_name graph.now point label)) labels.now)) }
{
    out.write(b"[");
    for (place, label) in labels.iter().enumerate() {
        write_if(out, 0 < place, b",");
        write_quoted(out, name_of_label(&*graph, point, *label));
    }
    out.write(b"]");
}

// Writes a step from a point.
fn write_step_object<K: Sink>(out: &mut Pieces<'_, K>, outline: &PointOutline<'_>, target: u32)
    requires ready { CanWrite K.Sink out.old }
    requires outline { IsOutline outline.now }
    ensures { Writes K.Sink out.old out.new (codes "{\"kind\":\"step\",\"to\":" ++ decimal target
        ++ when_field (outcome outline.now.graph.now outline.now.point target) ++ codes "}") }
{
    out.write(b"{\"kind\":\"step\",\"to\":");
    write_number(out, target);
    let outcome = outcome_by(outline.graph, outline.edges, outline.point, target);
    write_when(out, outcome);
    out.write(b"}");
}

// Writes an edge from a point.
fn write_edge_object<K: Sink>(out: &mut Pieces<'_, K>, outline: &PointOutline<'_>, edge: Edge)
    requires ready { CanWrite K.Sink out.old }
    requires outline { IsOutline outline.now }
    requires edge { source_of edge ≡ outline.now.point }
    ensures { Writes K.Sink out.old out.new (point_edge outline.now.graph.now edge) }
{
    match edge {
        Edge::Step { to, .. } => write_step_object(out, outline, to),
        Edge::Call { site, to, .. } => write_site(out, b"{\"kind\":\"call\",\"site\":", site, to),
        Edge::Ret { site, to, .. } => write_site(out, b"{\"kind\":\"return\",\"site\":", site, to),
    }
}

// Writes edges from a point as an array.
fn write_edge_objects<K: Sink>(out: &mut Pieces<'_, K>, outline: &PointOutline<'_>, edges: &[Edge])
    requires ready { CanWrite K.Sink out.old }
    requires outline { IsOutline outline.now }
    requires edges { All (λ edge. source_of edge ≡ outline.now.point) edges.now }
    ensures { Writes K.Sink out.old out.new (array (map (point_edge outline.now.graph.now) edges.now)) }
{
    out.write(b"[");
    for (place, edge) in edges.iter().enumerate() {
        write_if(out, 0 < place, b",");
        write_edge_object(out, outline, *edge);
    }
    out.write(b"]");
}

/// Writes which point it is.
pub(crate) fn write_point_place<K: Sink>(out: &mut Pieces<'_, K>, graph: &Graph<'_>, point: u32)
    requires ready { CanWrite K.Sink out.old }
    requires point { point < point_count graph.now }
    ensures { Writes K.Sink out.old out.new
        (codes "{\"type\":\"point\",\"point\":" ++ decimal point ++ codes ",\"procedure\":"
        ++ quoted (procedure_name graph.now (procedure_at graph.now point)) ++ codes ",\"place\":"
        ++ decimal (place_of graph.now point).place) }
{
    let place = graph.place(point);
    out.write(b"{\"type\":\"point\",\"point\":");
    write_number(out, point);
    out.write(b",\"procedure\":");
    write_quoted(out, name_of_procedure(graph, place.procedure));
    out.write(b",\"place\":");
    write_number(out, place.place);
}

/// Writes the labels of a point, its statement, and whether it is doubtful.
pub(crate) fn write_point_front<K: Sink>(out: &mut Pieces<'_, K>, outline: &PointOutline<'_>)
    requires ready { CanWrite K.Sink out.old }
    requires outline { IsOutline outline.now }
    ensures { Writes K.Sink out.old out.new (point_front outline.now.graph.now outline.now.doubtful outline.now.point) }
{
    let graph = outline.graph;
    let point = outline.point;
    out.write(b",\"labels\":");
    write_labels(out, graph, point, labels_of(graph, point));
    out.write(b",\"statement\":");
    write_statement_or_null(out, graph, point);
    out.write(b",\"doubtful\":");
    write_boolean(out, outline.doubtful);
}

/// Writes the edges out of a point as an array.
pub(crate) fn write_edges_out<K: Sink>(out: &mut Pieces<'_, K>, outline: &PointOutline<'_>)
    requires ready { CanWrite K.Sink out.old }
    requires outline { IsOutline outline.now }
    ensures { Writes K.Sink out.old out.new
        (array (map (point_edge outline.now.graph.now) (edges_from outline.now.graph.now outline.now.point))) }
{
    // Its contract tells that the program is sound.
    let _ = outline.graph.points();
    write_edge_objects(out, outline, outline.edges);
}

/// Writes the labels of a point, its statement, whether it is doubtful, and its edges.
pub(crate) fn write_point_fields<K: Sink>(out: &mut Pieces<'_, K>, outline: &PointOutline<'_>)
    requires ready { CanWrite K.Sink out.old }
    requires outline { IsOutline outline.now }
    ensures { Writes K.Sink out.old out.new (point_fields outline.now.graph.now outline.now.doubtful outline.now.point) }
{
    write_point_front(out, outline);
    out.write(b",\"edges\":");
    write_edges_out(out, outline);
}

/// Writes the line of a point without facts.
///
/// The condition: the edges are those out of the point, which is one of the graph's.
pub fn write_bare_point<K: Sink>(out: &mut Pieces<'_, K>, outline: &PointOutline<'_>)
    requires ready { CanWrite K.Sink out.old }
    requires outline { IsOutline outline.now }
    ensures { Writes K.Sink out.old out.new (bare_point_line outline.now.graph.now outline.now.doubtful outline.now.point) }
{
    write_point_place(out, outline.graph, outline.point);
    write_place(out, outline.graph, outline.point);
    write_point_fields(out, outline);
    out.write(b"}\n");
}
