// Tables by teams of workers.

ghost use Rattle.std.specs.Prelude.{◌≡◌, IfOk};
ghost use Rattle.flow_graph.specs.Universes.{bits as bits_of};
ghost use Rattle.flow_team.specs.Tables.{IsTableOf};

use crate::texts::{slices, slices_at};
use bit_rows::Cut;
use flow_graph::{Analysis, Graph};
use flow_team::{Gate, Table, analyse};
use std::alloc::Global;
use std::test::Fail;
use std::thread::Threads;

/// Numbers of workers.
pub const WORKERS: &[u32] = &[1, 2, 3, 64];

/// Two groups of words, the second of which has two, the last of them with 10 bits.
pub const BITS_OF_TWO_GROUPS: u32 = 330;

/// How the bits are cut.
#[derive(Clone, Copy)]
pub enum Cutting {
    Even(u32),
    At(&'static [u32]),
}

fn cut(alloc: Global, graph: &Graph<'_>, analysis: Analysis, cutting: Cutting) -> Result<Cut, Fail>
    ensures { IfOk result (λ cut. cut.bits ≡ bits_of graph.now analysis) }
{
    match cutting {
        Cutting::Even(width) => slices(alloc, graph, analysis, width),
        Cutting::At(places) => slices_at(alloc, graph, analysis, places),
    }
}

/// A graph's table, by so many workers.
pub fn table_by<R: Threads + Sync, G: Gate>(
    rt: &R,
    alloc: Global,
    graph: &Graph<'_>,
    how: (Analysis, Cutting, u32),
    gate: &G,
) -> Result<Table, Fail>
    ensures analysis { IfOk result (λ table. table.analysis ≡ how.0) }
    ensures table { IfOk result (IsTableOf graph.now) }
{
    let (analysis, cutting, workers) = how;
    let cut = cut(alloc, graph, analysis, cutting)?;
    Ok(analyse(rt, alloc, graph, analysis, cut, workers, gate)?)
}
