// The parts of which runs are made: the text, the graph, what is pushed.

ghost use Rattle.std.specs.Prelude.{◌≡◌, ◌<◌, ◌+◌, ◌-◌, ◌^◌, ◌⊎◌, true, false, IfOk, IfErr, OnOk};
ghost use Rattle.flow_graph.specs.Limits.{HasFewBits, HasFewPoints};
ghost use Rattle.text_pieces.specs.Pulls.{PullsUpTo};
ghost use Rattle.flow_runs.specs.Faults.{Delivers, OfProgram, read_faults_in, write_faults_in};
ghost use Rattle.flow_runs.specs.Runs.{IsOverLimit};

use crate::fault::Fault;
use flow_graph::{Graph, GraphFault};
use std::alloc::Global;
use tac_program::{Limits, Program};
use text_pieces::{Sink, Source, Text, TransferFault, deliver, pull_all};

/// Pulls up to the source's end, or this many bytes.
pub fn pull_text<S: Source>(alloc: Global, source: &mut S, most: usize) -> Result<Vec<u8>, Fault>
    requires below { S.faults source.old < 2 ^ 32 - 1 }
    requires running { S.ended source.old ≡ false }
    ensures pulled { IfOk result (λ text. PullsUpTo most (S.remaining source.old) (S.remaining source.new) (S.ended source.new) text.items) }
    ensures kinds { IfErr result (λ e. (e ≡ Fault.OutOfMemory) ⊎ (e ≡ Fault.Read)) }
    ensures faults { S.faults source.new ≡ S.faults source.old + read_faults_in result }
{
    match pull_all(alloc, source, most) {
        Ok(text) => Ok(text),
        Err(TransferFault::OutOfMemory) => Err(Fault::OutOfMemory),
        Err(TransferFault::Device) => Err(Fault::Read),
    }
}

/// The graph of a program within limits.
///
/// - `Graph`: the program has too many points (21) or bits (22).
/// - `OutOfMemory`: memory was refused.
pub fn graph_of<'p>(alloc: Global, program: &'p Program, limits: Limits) -> Result<Graph<'p>, Fault>
    ensures graph { IfOk result (λ graph. graph ≡ program.now) }
    ensures few_points { OnOk result (HasFewPoints limits program.now) }
    ensures few_bits { OnOk result (HasFewBits limits program.now) }
    ensures fault { IfErr result (OfProgram (IsOverLimit limits program.now) ⊥ ⊥) }
    ensures no_write { write_faults_in result ≡ 0 }
{
    match Graph::build_within(alloc, program, limits) {
        Ok(graph) => Ok(graph),
        Err(GraphFault::OutOfMemory) => Err(Fault::OutOfMemory),
        Err(GraphFault::TooManyPoints) => Err(Fault::Graph(GraphFault::TooManyPoints)),
        Err(GraphFault::TooManyBits) => Err(Fault::Graph(GraphFault::TooManyBits)),
    }
}

/// Pushes a text and nothing else, and flushes.
///
/// The condition: the sink's count of faults is below `u32::MAX`.
///
/// - `OutOfMemory`: memory was refused. Nothing was pushed.
/// - `Write`: a push or the flush was answered by a fault. A beginning of the text was pushed.
pub fn push_text<T: Text, K: Sink>(alloc: Global, text: &T, sink: &mut K) -> Result<(), Fault>
    requires { K.faults sink.old < 2 ^ 32 - 1 }
    ensures delivers { Delivers (λ out. out ≡ T.bytes text.now) (K.contents sink.old) (K.contents sink.new) result }
    ensures flushed { OnOk result (K.flushed sink.new ≡ true) }
    ensures fault { IfErr result (OfProgram (λ _. ⊥) ⊥ ⊥) }
    ensures faults { K.faults sink.new ≡ K.faults sink.old + write_faults_in result }
{
    match deliver(alloc, text, sink) {
        Ok(()) => Ok(()),
        Err(TransferFault::OutOfMemory) => Err(Fault::OutOfMemory),
        Err(TransferFault::Device) => Err(Fault::Write),
    }
}
