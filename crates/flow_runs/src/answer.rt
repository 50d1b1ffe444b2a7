// What is written for a text.

ghost use Rattle.std.specs.Prelude.{◌≡◌, ◌<◌, ◌+◌, ◌-◌, ◌^◌, IfErr, IfOk, None, OnOk, Some, true};
ghost use Rattle.tac_reader.specs.Faults.{refusal_within};
ghost use Rattle.tac_reader.specs.Parses.{program_of};
ghost use Rattle.tac_reader.specs.code.ReadFaults.{IfRefused};
ghost use Rattle.flow_runs.specs.Faults.{Delivers, WhereLargeProcedure, WhereNoGraph, WhereNoProcedure, WhereNoRemark, WhereRefused};
ghost use Rattle.flow_runs.specs.Faults.{read_faults_in, write_faults_in};
ghost use Rattle.flow_runs.specs.Runs.{HasNoGraph, Lacking, Outputs};

use crate::fault::Fault;
use crate::output::Output;
use std::alloc::Global;
use std::thread::Threads;
use tac_lines::ReadFault;
use tac_program::Program;
use tac_reader::read_within;
use text_pieces::Sink;

// A program, and what is kept of its text.
#[derive(Drop)]
struct KeptProgram {
    program: Program,
    mark: Vec<u8>,
}

// What an output keeps of a text.
fn mark_of<W: Output>(alloc: Global, text: &[u8], output: &W) -> Result<Vec<u8>, ReadFault>
    ensures mark { IfOk result (λ bytes. bytes.items ≡ W.kept output.now text.now) }
    ensures memory { IfErr result (λ fault. fault ≡ ReadFault.OutOfMemory) }
{
    match output.keep(alloc, text) {
        Ok(mark) => Ok(mark),
        Err(_) => Err(ReadFault::OutOfMemory),
    }
}

// The program of a text, and what is kept of the text, which is given up: what is found of the program has its memory.
fn program_of_text<W: Output>(
    alloc: Global,
    text: Vec<u8>,
    output: &W,
) -> Result<KeptProgram, ReadFault>
    ensures accepted { OnOk result (refusal_within (W.limits output.now) text.items ≡ None) }
    ensures program { IfOk result (λ made. made.program ≡ program_of text.items) }
    ensures mark { IfOk result (λ made. made.mark.items ≡ W.kept output.now text.items) }
    ensures refused { IfErr result (IfRefused (λ r. refusal_within (W.limits output.now) text.items ≡ Some r)) }
{
    let program = read_within(alloc, &text, output.limits())?;
    let mark = mark_of(alloc, &text, output)?;
    Ok(KeptProgram { program, mark })
}

/// Writes what is to be shown of a text. All that it needs memory for is made before the first push.
pub(crate) fn answer<R: Threads + Sync, K: Sink, W: Output>(
    rt: &R,
    alloc: Global,
    text: Vec<u8>,
    output: &W,
    sink: &mut K,
) -> Result<(), Fault>
    requires { K.faults sink.old < 2 ^ 32 - 1 }
    ensures delivers { Delivers (Outputs (W.limits output.now) (W.needs_graph output.now) (W.is_output output.now (W.kept output.now text.items)) text.items)
        (K.contents sink.old) (K.contents sink.new) result }
    ensures flushed { OnOk result (K.flushed sink.new ≡ true) }
    ensures refused { IfErr result (WhereRefused (λ r. refusal_within (W.limits output.now) text.items ≡ Some r)) }
    ensures no_graph { IfErr result (WhereNoGraph (HasNoGraph (W.limits output.now) (W.needs_graph output.now) text.items)) }
    ensures no_procedure { IfErr result (WhereNoProcedure (Lacking (W.limits output.now) (W.lacks output.now) text.items)) }
    ensures large { IfErr result (WhereLargeProcedure (Lacking (W.limits output.now) (W.exceeds output.now) text.items)) }
    ensures no_remark { IfErr result (WhereNoRemark (Lacking (W.limits output.now) (W.lacks_remark output.now) text.items)) }
    ensures no_read { read_faults_in result ≡ 0 }
    ensures faults { K.faults sink.new ≡ K.faults sink.old + write_faults_in result }
{
    match program_of_text(alloc, text, output) {
        Ok(made) => output.write(rt, alloc, &made.mark, &made.program, sink),
        Err(ReadFault::Refused(refusal)) => Err(Fault::Refused(refusal)),
        Err(ReadFault::OutOfMemory) => Err(Fault::OutOfMemory),
    }
}
