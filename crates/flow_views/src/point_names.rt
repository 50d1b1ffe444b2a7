// What stands at a point, by its graph alone.

ghost use Rattle.std.specs.Prelude.{◌≡◌, ◌<◌, Some, length};
ghost use Rattle.flow_graph.specs.Points.{point_count, procedure_at, statement_at};
ghost use Rattle.flow_views.specs.Views.{label_name, labels_at, names_at, procedure_name};
ghost use Rattle.tac_listing.specs.Listings.{statement_text};
ghost use Rattle.text_pieces.specs.Pieces.{CanWrite, Writes};
ghost use Rattle.text_pieces.specs.Strings.{escaped};

use crate::labels::labels_of_place;
use flow_graph::Graph;
use tac_listing::Scope;
use tac_program::{Label, Stmt};
use text_pieces::{Pieces, Sink};

/// The labels of a point.
pub fn labels_of<'a>(graph: &'a Graph<'a>, point: u32) -> &'a [Label]
    requires { point < point_count graph.now }
    ensures { result.now ≡ labels_at graph.now point }
{
    let place = graph.place(point);
    let procs = graph.program().procs();
    labels_of_place(procs[place.procedure as usize].labels(), place.place)
}

/// The name of a label of a point.
pub fn name_of_label<'a>(graph: &'a Graph<'a>, point: u32, label: Label) -> &'a [u8]
    requires { point < point_count graph.now }
    ensures { result.now ≡ label_name graph.now point label }
{
    let place = graph.place(point);
    let procs = graph.program().procs();
    procs[place.procedure as usize]
        .label_names()
        .name_or_empty(label.name)
}

/// The name of a procedure.
pub fn name_of_procedure<'a>(graph: &'a Graph<'a>, procedure: u32) -> &'a [u8]
    requires { procedure < length graph.now.procedures }
    ensures { result.now ≡ procedure_name graph.now procedure }
{
    let program = graph.program();
    // Its contract tells that each procedure has a name.
    let _ = program.procs();
    program.procedure(procedure)
}

/// The procedure of a point.
pub fn scope_of<'a>(graph: &'a Graph<'a>, point: u32) -> Scope<'a>
    requires { point < point_count graph.now }
    ensures program { result.program.now ≡ graph.now }
    ensures procedure { result.procedure ≡ procedure_at graph.now point }
    ensures there { result.procedure < length graph.now.procedures }
{
    Scope {
        program: graph.program(),
        procedure: graph.place(point).procedure,
    }
}

/// Writes the statement at a point as it stands between quotes.
pub fn write_statement_of<K: Sink>(
    graph: &Graph<'_>,
    out: &mut Pieces<'_, K>,
    point: u32,
    stmt: &Stmt,
)
    requires ready { CanWrite K.Sink out.old }
    requires point { point < point_count graph.now }
    requires statement { statement_at graph.now point ≡ Some stmt.now }
    ensures { Writes K.Sink out.old out.new (escaped (statement_text (names_at graph.now point) stmt.now.kind)) }
{
    // Its contract tells that the program is sound.
    let _ = graph.points();
    scope_of(graph, point).write_statement(out, &stmt.kind);
}
