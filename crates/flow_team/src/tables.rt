ghost use Rattle.std.specs.Prelude.{◌≡◌, ◌<◌, Some, slice_get, IfOk};
ghost use Rattle.flow_graph.specs.AnalysisNumbers.{analysis_number};
ghost use Rattle.flow_team.specs.Tables.{IsTableOf};
ghost use Rattle.flow_team.specs.AllTables.{AreTablesOf};

use crate::OutOfMemory;
use crate::table::Table;
use crate::team::worked_table;
use bit_rows::{Cut, CutFault};
use flow_graph::{Analysis, Graph};
use slice_board::{Gate, Team};
use std::alloc::Global;
use std::marker::Model;
use std::thread::Threads;

/// So many bits in slices of one width. The condition: a slice has a bit. Fails only where memory runs out.
pub(crate) fn even_cut(alloc: Global, bits: u32, cut: u32) -> Result<Cut, OutOfMemory>
    requires { 0 < cut }
    ensures { IfOk result (λ slices. slices.bits ≡ bits) }
{
    match Cut::even(alloc, bits, cut) {
        Ok(slices) => Ok(slices),
        Err(CutFault::OutOfMemory) => Err(OutOfMemory),
        Err(CutFault::ZeroWidth | CutFault::BadPlaces) => unreachable!(),
    }
}

/// The table of an analysis, by a team, in slices of its width. Fails only where memory runs out.
pub fn table_of<R: Threads + Sync, G: Gate>(
    team: &Team<'_, R, G>,
    alloc: Global,
    graph: &Graph<'_>,
    analysis: Analysis,
) -> Result<Table, OutOfMemory>
    ensures analysis { IfOk result (λ table. table.analysis ≡ analysis) }
    ensures table { IfOk result (IsTableOf graph.now) }
{
    let slices = even_cut(alloc, graph.bits(analysis), team.cut)?;
    worked_table(team, alloc, graph, analysis, slices)
}

/// The tables of all analyses of a graph.
pub struct Tables {
    // In the order of the analyses' numbers.
    tables: Vec<Table>,
}

impl Model for Tables {
    ghost use Rattle.std.specs.Prelude.{◌≡◌, List, length};
    ghost use Rattle.flow_team.specs.Tables.{TableFacts};

    ghost Value = { List TableFacts };

    ghost view = { λ t. t.tables.items };

    ghost invariant = { λ t. length t.tables.items ≡ 4 };
}

impl Tables {
    /// The tables of a graph, by a team, in slices of its width. Fails only where memory runs out.
    pub fn of<R: Threads + Sync, G: Gate>(
        team: &Team<'_, R, G>,
        alloc: Global,
        graph: &Graph<'_>,
    ) -> Result<Tables, OutOfMemory>
        ensures { IfOk result (AreTablesOf graph.now) }
    {
        let mut tables = Vec::new(alloc);
        for analysis in Analysis::ALL {
            tables.push(table_of(team, alloc, graph, analysis)?)?;
        }
        Ok(Tables { tables })
    }

    /// The table of an analysis.
    pub fn table(&self, analysis: Analysis) -> &Table
        ensures { slice_get self.now (analysis_number analysis) ≡ Some result.now }
    {
        &self.tables[analysis.number()]
    }
}

impl Drop for Tables {
    // By hand: who gives the tables up then makes one call.
    fn drop(self) {
        let Tables { tables: _ } = self;
    }
}
