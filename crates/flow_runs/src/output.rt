// What a run shows of a program.

ghost use Rattle.std.specs.Prelude.{◌≡◌, ◌<◌, ◌+◌, ◌-◌, ◌^◌, ℕ, Bool, true, List, IfErr, IfOk, OnOk};
ghost use Rattle.std.specs.Thread.{IsSync};
ghost use Rattle.tac_program.specs.Programs.{Program as SourceProgram};
ghost use Rattle.tac_program.specs.declared.limits.Limits.{Limits as LimitsValue};
ghost use Rattle.flow_runs.specs.Faults.{Delivers, OfProcedure, WhereNoGraph, write_faults_in};
ghost use Rattle.flow_runs.specs.Runs.{HasItsGraph, IsOverLimit};

use crate::OutOfMemory;
use crate::fault::Fault;
use std::alloc::Global;
use std::thread::Threads;
use tac_program::{Limits, Program};
use text_pieces::Sink;

/// What a run shows of a program, and how.
pub trait Output {
    // How large a text and its program may be.
    ghost limits: { Self → LimitsValue };

    // Whether the program's graph is needed.
    ghost needs_graph: { Self → Bool };

    // What is kept of a text for what is written of its program.
    ghost kept: { Self → List ℕ → List ℕ };

    // What is written of a program, where this is kept of its text.
    ghost is_output: { Self → List ℕ → SourceProgram → List ℕ → Type 0 };

    // The program has not the procedure that is asked for.
    ghost lacks: { Self → SourceProgram → Type 0 };

    // The procedure that is asked for has too many points for what is to be shown of it.
    ghost exceeds: { Self → SourceProgram → Type 0 };

    // The program has not the remark that is asked for.
    ghost lacks_remark: { Self → SourceProgram → Type 0 };

    /// How large a text and its program may be.
    fn limits(&self) -> Limits
        ensures { result ≡ limits self.now };

    /// What is kept of a text, which is given up before anything is found. Fails only where memory runs out.
    fn keep(&self, alloc: Global, text: &[u8]) -> Result<Vec<u8>, OutOfMemory>
        ensures { IfOk result (λ bytes. bytes.items ≡ kept self.now text.now) };

    /// Writes what is shown of a program, by what was kept of its text, and flushes. All that it needs memory for it has before the
    /// first push.
    ///
    /// The condition: the sink's count of faults is below `u32::MAX`.
    ///
    /// - `Graph`: a graph is needed, and the program has too many points or bits.
    /// - `NoProcedure`: the program has not the procedure that is asked for. `LargeProcedure`: that has too many points for what is to be shown
    ///   of it. `NoRemark`: the program has not the remark that is asked for.
    /// - `OutOfMemory`: memory was refused.
    /// - `Write`: a push or the flush was answered by a fault; a beginning of what is to be shown was pushed. After every other
    ///   fault nothing was.
    fn write<R: Threads + Sync, K: Sink>(
        &self,
        rt: &R,
        alloc: Global,
        mark: &[u8],
        program: &Program,
        sink: &mut K,
    ) -> Result<(), Fault>
        requires threads { IsSync R.row }
        requires below { K.faults sink.old < 2 ^ 32 - 1 }
        ensures delivers { Delivers (λ out. HasItsGraph (limits self.now) (needs_graph self.now) program.now × is_output self.now mark.now program.now out)
            (K.contents sink.old) (K.contents sink.new) result }
        ensures flushed { OnOk result (K.flushed sink.new ≡ true) }
        ensures fault { IfErr result (OfProcedure (IsOverLimit (limits self.now) program.now) (lacks self.now program.now)
            (lacks_remark self.now program.now) (exceeds self.now program.now)) }
        ensures needed { IfErr result (WhereNoGraph (λ _. needs_graph self.now ≡ true)) }
        ensures faults { K.faults sink.new ≡ K.faults sink.old + write_faults_in result };
}
