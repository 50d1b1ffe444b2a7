// From the bytes of a source to the bytes of a sink.

ghost use Rattle.std.specs.Prelude.{◌≡◌, ◌<◌, ◌+◌, ◌-◌, ◌^◌, true, false, IfErr, OnOk};
ghost use Rattle.std.specs.Io.KnownBytes.{Keeps};
ghost use Rattle.flow_runs.specs.Faults.{UnlessWrite, WhereLargeProcedure, WhereNoGraph, WhereNoProcedure, WhereNoRemark};
ghost use Rattle.flow_runs.specs.Faults.{WhereRefused, WhereWrite, read_faults_in, write_faults_in};
ghost use Rattle.flow_runs.specs.Runs.{PullsOverLimit, PullsRefused, WritesAnswer, WritesBeginning};
ghost use Rattle.tac_program.specs.declared.limits.Limits.TheVariants.{Standard};
ghost use Rattle.flow_commands.specs.Runs.{IsShown, needs_graph};

use crate::options::Options;
use flow_runs::Fault;
use std::alloc::Global;
use std::thread::Threads;
use text_pieces::{Sink, Source};

/// Pulls the text until the source has ended or 1,048,577 bytes are in hand, finds what is to be shown of it, pushes that and
/// nothing else, in pieces of 65,536 bytes, and flushes. All that it needs memory for it has before the first push. Tables are
/// found by the options' workers, in slices of their width; what is written is the same for all of these.
///
/// The condition: the source has not ended, and both counts of faults are below `u32::MAX`.
///
/// - `Refused`: the text is no program. `Graph`: it is one, but has too many points (21) or bits (22) for all but a listing.
/// - `OutOfMemory`: memory was refused.
/// - `Read`: a pull was answered by a fault. `Write`: a push or the flush was; a beginning of what
///   is to be shown was pushed. After every other fault nothing was.
pub fn run<R: Threads + Sync, S: Source, K: Sink>(
    rt: &R,
    alloc: Global,
    source: &mut S,
    sink: &mut K,
    options: Options,
) -> Result<(), Fault>
    requires running { S.ended source.old ≡ false }
    requires source_below { S.faults source.old < 2 ^ 32 - 1 }
    requires sink_below { K.faults sink.old < 2 ^ 32 - 1 }
    ensures written { OnOk result (WritesAnswer Standard (needs_graph options.show) (IsShown options.show)
        (S.remaining source.old) (S.remaining source.new) (S.ended source.new) (K.contents sink.old) (K.contents sink.new)) }
    ensures flushed { OnOk result (K.flushed sink.new ≡ true) }
    ensures refused { IfErr result (WhereRefused (PullsRefused Standard (S.remaining source.old) (S.remaining source.new) (S.ended source.new))) }
    ensures no_graph { IfErr result (WhereNoGraph (PullsOverLimit Standard (needs_graph options.show)
        (S.remaining source.old) (S.remaining source.new) (S.ended source.new))) }
    ensures all_procedures { IfErr result (WhereNoProcedure ⊥) }
    ensures all_sizes { IfErr result (WhereLargeProcedure ⊥) }
    ensures all_remarks { IfErr result (WhereNoRemark ⊥) }
    ensures beginning { IfErr result (WhereWrite (WritesBeginning Standard (needs_graph options.show) (IsShown options.show)
        (S.remaining source.old) (S.remaining source.new) (S.ended source.new) (K.contents sink.old) (K.contents sink.new))) }
    ensures unwritten { IfErr result (UnlessWrite (Keeps (K.contents sink.old) (K.contents sink.new))) }
    ensures source_faults { S.faults source.new ≡ S.faults source.old + read_faults_in result }
    ensures sink_faults { K.faults sink.new ≡ K.faults sink.old + write_faults_in result }
{
    flow_runs::run(rt, alloc, source, sink, &options)
}
