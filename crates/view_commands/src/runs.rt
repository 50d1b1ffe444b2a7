// From the bytes of a source to the bytes of a sink.

ghost use Rattle.std.specs.Prelude.{◌≡◌, ◌<◌, ◌+◌, ◌-◌, ◌^◌, true, false, IfErr, OnOk};
ghost use Rattle.std.specs.Io.KnownBytes.{Keeps};
ghost use Rattle.flow_runs.specs.Faults.{UnlessWrite, WhereLargeProcedure, WhereNoGraph, WhereNoProcedure, WhereNoRemark};
ghost use Rattle.flow_runs.specs.Faults.{WhereRefused, WhereWrite, read_faults_in, write_faults_in};
ghost use Rattle.flow_runs.specs.Runs.{PullsLacking, PullsOverLimit, PullsRefused, WritesAnswerOf, WritesBeginningOf};
ghost use Rattle.view_commands.specs.Steps.{tells_rounds};
ghost use Rattle.view_commands.specs.Views.{HasLargeProcedure, IsShown, LacksProcedure, LacksRemark, request_of};
ghost use Rattle.view_words.specs.Commands.{name_queried};

use crate::views::GatedOptions;
use flow_runs::Fault;
use run_progress::Progress;
use std::alloc::Global;
use std::thread::Threads;
use text_pieces::{Sink, Source};
use view_words::Options;

/// Pulls the text until the source has ended or one byte more is in hand than the options' limits allow, makes the text of the
/// options' format of it, with the facts and of the procedures that they name, or the part of a report that they do, pushes that and nothing else, in pieces of 65,536
/// bytes, and flushes. All that it needs memory for it has before the first push. The facts are found by the options' workers, in
/// slices of their width, which the gate is told of; what is written is the same for all of these.
///
/// The condition: the source has not ended, and both counts of faults are below `u32::MAX`.
///
/// - `Refused`: the text is no program within the limits. `Graph`: it is one, but has too many points (21) or bits (22) for them.
///   `NoProcedure`: it is one, but no procedure of it has the name that the options ask for, or they ask for rounds and name none.
///   `LargeProcedure`: the options ask for rounds, and the procedure of that name has more than 200 points. `NoRemark`: at the place whose
///   path they ask for no variable that is shown may be used before it is set.
/// - `OutOfMemory`: memory was refused.
/// - `Read`: a pull was answered by a fault. `Write`: a push or the flush was; a beginning of what
///   is to be shown was pushed. After every other fault nothing was.
pub fn run<R: Threads + Sync, S: Source, K: Sink>(
    rt: &R,
    alloc: Global,
    source: &mut S,
    sink: &mut K,
    options: &Options,
    gate: &Progress,
) -> Result<(), Fault>
    requires running { S.ended source.old ≡ false }
    requires source_below { S.faults source.old < 2 ^ 32 - 1 }
    requires sink_below { K.faults sink.old < 2 ^ 32 - 1 }
    ensures written { OnOk result (WritesAnswerOf options.now.limits true (IsShown (request_of options.now))
        (S.remaining source.old) (S.remaining source.new) (S.ended source.new) (K.contents sink.old) (K.contents sink.new)) }
    ensures flushed { OnOk result (K.flushed sink.new ≡ true) }
    ensures refused { IfErr result (WhereRefused (PullsRefused options.now.limits
        (S.remaining source.old) (S.remaining source.new) (S.ended source.new))) }
    ensures no_graph { IfErr result (WhereNoGraph (PullsOverLimit options.now.limits true
        (S.remaining source.old) (S.remaining source.new) (S.ended source.new))) }
    ensures no_procedure { IfErr result (WhereNoProcedure (PullsLacking options.now.limits
        (LacksProcedure (tells_rounds options.now.format) (name_queried options.now))
        (S.remaining source.old) (S.remaining source.new) (S.ended source.new))) }
    ensures large { IfErr result (WhereLargeProcedure (PullsLacking options.now.limits (HasLargeProcedure (request_of options.now))
        (S.remaining source.old) (S.remaining source.new) (S.ended source.new))) }
    ensures no_remark { IfErr result (WhereNoRemark (PullsLacking options.now.limits (LacksRemark (request_of options.now))
        (S.remaining source.old) (S.remaining source.new) (S.ended source.new))) }
    ensures beginning { IfErr result (WhereWrite (WritesBeginningOf options.now.limits true
        (IsShown (request_of options.now))
        (S.remaining source.old) (S.remaining source.new) (S.ended source.new) (K.contents sink.old) (K.contents sink.new))) }
    ensures unwritten { IfErr result (UnlessWrite (Keeps (K.contents sink.old) (K.contents sink.new))) }
    ensures source_faults { S.faults source.new ≡ S.faults source.old + read_faults_in result }
    ensures sink_faults { K.faults sink.new ≡ K.faults sink.old + write_faults_in result }
{
    flow_runs::run(rt, alloc, source, sink, &GatedOptions { options, gate })
}
