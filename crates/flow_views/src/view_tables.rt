// The tables of what is shown.

ghost use Rattle.std.specs.Prelude.{◌≡◌, ◌<◌, ◌≤◌, None, Some, length, IfOk, IfSome, MatchOption};
ghost use Rattle.flow_graph.specs.Points.{point_count};
ghost use Rattle.flow_views.specs.ViewTables.{AreViewTables, IsTableShown, shown_table};
ghost use Rattle.flow_views.specs.Views.{end_shown, first_shown, is_chosen};

use crate::OutOfMemory;
use crate::view::View;
use crate::view_program::{Numbers, points_of};
use flow_graph::{Analysis, Graph};
use flow_team::{Gate, Table, Team, table_at};
use std::alloc::Global;
use std::marker::Model;
use std::thread::Threads;

/// The tables of the analyses whose facts are shown, at the points that are shown; of the others none is made.
pub struct ViewTables {
    // In the order of the analyses' numbers.
    tables: Vec<Option<Table>>,
}

impl Model for ViewTables {
    ghost use Rattle.std.specs.Prelude.{◌≡◌, List, Option, length};
    ghost use Rattle.flow_team.specs.Tables.{TableFacts};

    ghost Value = { List (Option TableFacts) };

    ghost view = { λ t. t.tables.items };

    ghost invariant = { λ t. length t.tables.items ≡ 4 };
}

impl Drop for ViewTables {
    // By hand: who gives the tables up then makes one call.
    fn drop(self) {
        let ViewTables { tables: _ } = self;
    }
}

/// The points that are shown: of one procedure, or of all.
///
/// The condition: the procedure is there.
pub fn shown_points(graph: &Graph<'_>, procedure: Option<u32>) -> Numbers
    requires { IfSome procedure (λ number. number < length graph.now.procedures) }
    ensures first { result.first ≡ first_shown graph.now procedure }
    ensures end { result.end ≡ end_shown graph.now procedure }
    ensures ordered { result.first ≤ result.end }
    ensures there { result.end ≤ point_count graph.now }
{
    match procedure {
        Some(number) => points_of(graph, number),
        None => Numbers {
            first: 0,
            end: graph.points(),
        },
    }
}

// The table of an analysis at the points that are shown, where its facts are chosen.
fn table_if<R: Threads + Sync, G: Gate>(
    team: &Team<'_, R, G>,
    alloc: Global,
    graph: &Graph<'_>,
    view: View,
    analysis: Analysis,
) -> Result<Option<Table>, OutOfMemory>
    requires { IfSome view.procedure (λ procedure. procedure < length graph.now.procedure_names) }
    ensures { IfOk result (IsTableShown graph.now analysis view.procedure (is_chosen view.facts analysis)) }
{
    if !view.facts.has(analysis) {
        return Ok(None);
    }
    // Its contract tells that each procedure has a name.
    let _ = graph.points();
    let points = shown_points(graph, view.procedure);
    let (from, until) = (points.first, points.end);
    let table = table_at(team, alloc, graph, analysis, from, until)?;
    Ok(Some(table))
}

impl ViewTables {
    /// The tables of what is shown of a graph, by a team, in slices of its width. They take memory for the words of the points that are shown
    /// alone.
    ///
    /// The condition: the procedure that is shown is there. Fails only where memory runs out.
    pub fn of<R: Threads + Sync, G: Gate>(
        team: &Team<'_, R, G>,
        alloc: Global,
        graph: &Graph<'_>,
        view: View,
    ) -> Result<ViewTables, OutOfMemory>
        requires { IfSome view.procedure (λ procedure. procedure < length graph.now.procedure_names) }
        ensures { IfOk result (AreViewTables graph.now view) }
    {
        let mut tables = Vec::new(alloc);
        for analysis in Analysis::ALL {
            tables.push(table_if(team, alloc, graph, view, analysis)?)?;
        }
        Ok(ViewTables { tables })
    }

    /// The table of an analysis, where its facts are shown.
    pub(crate) fn table(&self, analysis: Analysis) -> Option<&Table>
        ensures { MatchOption result (shown_table self.now analysis ≡ None) (λ table. shown_table self.now analysis ≡ Some table.now) }
    {
        self.tables[analysis.number()].as_ref()
    }
}
