// What is written of a program.

ghost use Rattle.std.specs.Prelude.{◌≡◌, ◌+◌, ◌-◌, ◌^◌, ◌<◌, [], IfErr, OnOk, true};
ghost use Rattle.std.specs.Thread.{IsSync};
ghost use Rattle.flow_graph.specs.Limits.{HasFewBits, HasFewPoints};
ghost use Rattle.tac_program.specs.declared.limits.Limits.TheVariants.{Standard};
ghost use Rattle.flow_team.specs.Tables.{IsTableOf};
ghost use Rattle.flow_reports.specs.Reports.{IsReport, ListsSafely};
ghost use Rattle.flow_texts.specs.Tables.{IsTableText};
ghost use Rattle.flow_runs.specs.Faults.{Delivers, OfProgram, write_faults_in};
ghost use Rattle.flow_runs.specs.Runs.{IsOverLimit};
ghost use Rattle.flow_commands.specs.Runs.{IsShown, needs_graph as kind_needs_graph};

use crate::options::{Options, Show};
use flow_graph::{Analysis, Graph};
use flow_runs::{Fault, OutOfMemory, Output, graph_of, push_report, push_text};
use flow_team::{OpenGate, Table, Team, table_of};
use flow_texts::TableText;
use std::alloc::Global;
use std::thread::Threads;
use tac_listing::listing;
use tac_program::{Limits, Program};
use text_pieces::{Bytes, Sink};

// Who works: the options' team, of which nobody is told.
fn team_of<R>(rt: &R, options: Options) -> Team<'_, R, OpenGate> {
    Team {
        rt,
        gate: &OpenGate,
        workers: options.workers,
        cut: options.cut,
    }
}

// Writes a table of a graph. It is not owned here, so that no way out drops it.
fn push_table<K: Sink>(
    alloc: Global,
    graph: &Graph<'_>,
    table: &Table,
    sink: &mut K,
) -> Result<(), Fault>
    requires table { IsTableOf graph.now table.now }
    requires below { K.faults sink.old < 2 ^ 32 - 1 }
    ensures delivers { Delivers (IsTableText graph.now table.now.analysis) (K.contents sink.old) (K.contents sink.new) result }
    ensures flushed { OnOk result (K.flushed sink.new ≡ true) }
    ensures fault { IfErr result (OfProgram (λ _. ⊥) ⊥ ⊥) }
    ensures faults { K.faults sink.new ≡ K.faults sink.old + write_faults_in result }
{
    let text = TableText::of(alloc, graph, table)?;
    push_text(alloc, &text, sink)
}

// Writes the table of an analysis of a graph. The graph is not owned here, and the table where it is made.
fn table_of_graph<R: Threads + Sync, K: Sink>(
    rt: &R,
    alloc: Global,
    graph: &Graph<'_>,
    analysis: Analysis,
    options: Options,
    sink: &mut K,
) -> Result<(), Fault>
    requires threads { IsSync R.row }
    requires below { K.faults sink.old < 2 ^ 32 - 1 }
    ensures delivers { Delivers (IsTableText graph.now analysis) (K.contents sink.old) (K.contents sink.new) result }
    ensures flushed { OnOk result (K.flushed sink.new ≡ true) }
    ensures fault { IfErr result (OfProgram (λ _. ⊥) ⊥ ⊥) }
    ensures faults { K.faults sink.new ≡ K.faults sink.old + write_faults_in result }
{
    let team = team_of(rt, options);
    let table = table_of(&team, alloc, graph, analysis)?;
    push_table(alloc, graph, &table, sink)
}

// Writes the table of an analysis.
fn write_table_of<R: Threads + Sync, K: Sink>(
    rt: &R,
    alloc: Global,
    program: &Program,
    analysis: Analysis,
    options: Options,
    sink: &mut K,
) -> Result<(), Fault>
    requires threads { IsSync R.row }
    requires below { K.faults sink.old < 2 ^ 32 - 1 }
    ensures delivers { Delivers (λ out. HasFewPoints Standard program.now × HasFewBits Standard program.now × IsTableText program.now analysis out)
        (K.contents sink.old) (K.contents sink.new) result }
    ensures flushed { OnOk result (K.flushed sink.new ≡ true) }
    ensures fault { IfErr result (OfProgram (IsOverLimit Standard program.now) ⊥ ⊥) }
    ensures faults { K.faults sink.new ≡ K.faults sink.old + write_faults_in result }
{
    let graph = graph_of(alloc, program, Limits::Standard)?;
    table_of_graph(rt, alloc, &graph, analysis, options, sink)
}

// Writes the report.
fn write_report<R: Threads + Sync, K: Sink>(
    rt: &R,
    alloc: Global,
    program: &Program,
    options: Options,
    sink: &mut K,
) -> Result<(), Fault>
    requires threads { IsSync R.row }
    requires below { K.faults sink.old < 2 ^ 32 - 1 }
    ensures delivers { Delivers (λ out. HasFewPoints Standard program.now × HasFewBits Standard program.now × IsReport program.now out
        × ListsSafely program.now out) (K.contents sink.old) (K.contents sink.new) result }
    ensures flushed { OnOk result (K.flushed sink.new ≡ true) }
    ensures fault { IfErr result (OfProgram (IsOverLimit Standard program.now) ⊥ ⊥) }
    ensures faults { K.faults sink.new ≡ K.faults sink.old + write_faults_in result }
{
    let graph = graph_of(alloc, program, Limits::Standard)?;
    push_report(&team_of(rt, options), alloc, &graph, sink)
}

impl Output for Options {
    ghost limits = { λ _. Standard };

    ghost needs_graph = { λ options. kind_needs_graph options.show };

    ghost kept = { λ _ _. [] };

    ghost is_output = { λ options _. IsShown options.show };

    ghost lacks = { λ _ _. ⊥ };

    ghost exceeds = { λ _ _. ⊥ };

    ghost lacks_remark = { λ _ _. ⊥ };

    fn limits(&self) -> Limits {
        Limits::Standard
    }

    // What is written goes by the program alone.
    fn keep(&self, alloc: Global, _text: &[u8]) -> Result<Vec<u8>, OutOfMemory> {
        Ok(Vec::new(alloc))
    }

    fn write<R: Threads + Sync, K: Sink>(
        &self,
        rt: &R,
        alloc: Global,
        _mark: &[u8],
        program: &Program,
        sink: &mut K,
    ) -> Result<(), Fault> {
        let options = *self;
        match options.show {
            Show::List => {
                let text = listing(alloc, program)?;
                push_text(alloc, &Bytes(&text), sink)
            }
            Show::Report => write_report(rt, alloc, program, options, sink),
            Show::Reach => write_table_of(rt, alloc, program, Analysis::Reach, options, sink),
            Show::Live => write_table_of(rt, alloc, program, Analysis::Live, options, sink),
            Show::Avail => write_table_of(rt, alloc, program, Analysis::Avail, options, sink),
            Show::Busy => write_table_of(rt, alloc, program, Analysis::Busy, options, sink),
        }
    }
}
