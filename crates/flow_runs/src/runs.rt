// From the bytes of a source to the bytes of a sink.

ghost use Rattle.std.specs.Prelude.{◌≡◌, ◌<◌, ◌+◌, ◌-◌, ◌^◌, true, false, IfErr, OnOk};
ghost use Rattle.std.specs.Io.KnownBytes.{Keeps};
ghost use Rattle.flow_runs.specs.Faults.{UnlessWrite, WhereLargeProcedure, WhereNoGraph, WhereNoProcedure, WhereNoRemark};
ghost use Rattle.flow_runs.specs.Faults.{WhereRefused, WhereWrite, read_faults_in, write_faults_in};
ghost use Rattle.flow_runs.specs.Runs.{PullsLacking, PullsOverLimit, PullsRefused, WritesAnswerOf, WritesBeginningOf};

use crate::answer::answer;
use crate::fault::Fault;
use crate::output::Output;
use crate::parts::pull_text;
use std::alloc::Global;
use std::thread::Threads;
use text_pieces::{Sink, Source};

/// Pulls the text until the source has ended or one byte more is in hand than the limits allow, finds what is to be shown of it,
/// pushes that and nothing else, in pieces of 65,536 bytes, and flushes. All that it needs memory for it has before the first push.
///
/// The condition: the source has not ended, and both counts of faults are below `u32::MAX`.
///
/// - `Refused`: the text is no program. `Graph`: it is one, but has too many points (21) or bits (22) for what is to be shown.
///   `NoProcedure`: it is one, but has not the procedure that is asked for. `LargeProcedure`: that has too many points for what is to be
///   shown of it. `NoRemark`: it has not the remark that is asked for.
/// - `OutOfMemory`: memory was refused.
/// - `Read`: a pull was answered by a fault. `Write`: a push or the flush was; a beginning of what
///   is to be shown was pushed. After every other fault nothing was.
pub fn run<R: Threads + Sync, S: Source, K: Sink, W: Output>(
    rt: &R,
    alloc: Global,
    source: &mut S,
    sink: &mut K,
    output: &W,
) -> Result<(), Fault>
    requires running { S.ended source.old ≡ false }
    requires source_below { S.faults source.old < 2 ^ 32 - 1 }
    requires sink_below { K.faults sink.old < 2 ^ 32 - 1 }
    ensures written { OnOk result (WritesAnswerOf (W.limits output.now) (W.needs_graph output.now)
        (λ text. W.is_output output.now (W.kept output.now text))
        (S.remaining source.old) (S.remaining source.new) (S.ended source.new) (K.contents sink.old) (K.contents sink.new)) }
    ensures flushed { OnOk result (K.flushed sink.new ≡ true) }
    ensures refused { IfErr result
        (WhereRefused (PullsRefused (W.limits output.now) (S.remaining source.old) (S.remaining source.new) (S.ended source.new))) }
    ensures no_graph { IfErr result (WhereNoGraph (PullsOverLimit (W.limits output.now) (W.needs_graph output.now)
        (S.remaining source.old) (S.remaining source.new) (S.ended source.new))) }
    ensures no_procedure { IfErr result (WhereNoProcedure (PullsLacking (W.limits output.now) (W.lacks output.now)
        (S.remaining source.old) (S.remaining source.new) (S.ended source.new))) }
    ensures large { IfErr result (WhereLargeProcedure (PullsLacking (W.limits output.now) (W.exceeds output.now)
        (S.remaining source.old) (S.remaining source.new) (S.ended source.new))) }
    ensures no_remark { IfErr result (WhereNoRemark (PullsLacking (W.limits output.now) (W.lacks_remark output.now)
        (S.remaining source.old) (S.remaining source.new) (S.ended source.new))) }
    ensures beginning { IfErr result (WhereWrite (WritesBeginningOf (W.limits output.now) (W.needs_graph output.now)
        (λ text. W.is_output output.now (W.kept output.now text))
        (S.remaining source.old) (S.remaining source.new) (S.ended source.new) (K.contents sink.old) (K.contents sink.new))) }
    ensures unwritten { IfErr result (UnlessWrite (Keeps (K.contents sink.old) (K.contents sink.new))) }
    ensures source_faults { S.faults source.new ≡ S.faults source.old + read_faults_in result }
    ensures sink_faults { K.faults sink.new ≡ K.faults sink.old + write_faults_in result }
{
    let most = output.limits().text() as usize + 1;
    let text = pull_text(alloc, source, most)?;
    answer(rt, alloc, text, output, sink)
}
