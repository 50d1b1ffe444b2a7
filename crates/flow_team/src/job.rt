// The job of an analysis of a graph.
ghost use Rattle.std.specs.Prelude.{◌≡◌, ℕ, ◌+◌, ◌*◌, ◌<◌, ◌≤◌, ◌↔◌, [], ◌∷◌, ◌++◌, true, IfOk, IfErr, IfSome, IfNone, IsOk, IsErr, IsSome};
ghost use Rattle.bit_rows.specs.Words.{has_bit};
ghost use Rattle.flow_graph.specs.Universes.{bits as bits_of};
ghost use Rattle.slice_board.specs.Boards.{IsOf, IsPlace, CountsOnce, fresh_pass, split_pass, slice_count};
ghost use Rattle.slice_board.specs.Passes.{IsLogged, IsWhole, halved, joined, logged_word, times};
ghost use Rattle.flow_team.specs.Sets.{IsInMaySet};
ghost use Rattle.flow_team.specs.Tables.{IsTableOf};
ghost use Rattle.slice_board.specs.Teams.{Works, Idles, Holds, IsDrained};

use crate::OutOfMemory;
use crate::sets::GraphSets;
use crate::table::Table;
use bit_rows::Cut;
use flow_graph::{Analysis, Graph};
use slice_board::{Gate, Pass, SliceJob, Team, Unfinished, WordBoard, run_workers};
use std::alloc::Global;
use std::marker::Model;
use std::thread::Threads;

/// The table of an analysis of a graph, which several workers make, each with a pass of its own: slices of the analysis's bits are drawn,
/// solved, and published in shared words, in the analysis's may form.
#[derive(Drop)]
pub struct Job<'g, 'p> {
    slices: SliceJob<GraphSets<'g, 'p>, GraphSets<'g, 'p>>,
}

impl<'g, 'p> Model for Job<'g, 'p> {
    ghost use Rattle.flow_graph.specs.Problems.{MayForm};
    ghost use Rattle.slice_board.specs.Boards.{BoardState};

    ghost Value = { BoardState MayForm };

    ghost view = { λ job. job.slices };
}

impl<'g, 'p> Job<'g, 'p> {
    /// The job of an analysis of a graph, its bits cut into these slices, and a pass of it with empty lists. The path flags are
    /// found here; no slice is drawn yet.
    ///
    /// The condition: the cut is of as many bits as the analysis has. Fails only where memory runs out.
    pub fn open(
        alloc: Global,
        graph: &'g Graph<'p>,
        analysis: Analysis,
        cut: Cut,
    ) -> Result<(Self, Pass<GraphSets<'g, 'p>>), OutOfMemory>
        requires { cut.bits ≡ bits_of graph.now analysis }
        ensures wanted { IfOk result (λ r. r.0.wanted ≡ record { program = graph.now; analysis = analysis }) }
        ensures cut { IfOk result (λ r. r.0.cut ≡ cut) }
        ensures pass { IfOk result (λ r. r.1 ≡ fresh_pass r.0) }
    {
        let sets = GraphSets::of(alloc, graph, analysis)?;
        Job::of_sets(alloc, sets, cut)
    }

    // The job of these sets.
    fn of_sets(
        alloc: Global,
        sets: GraphSets<'g, 'p>,
        cut: Cut,
    ) -> Result<(Self, Pass<GraphSets<'g, 'p>>), OutOfMemory>
        requires { cut.bits ≡ bits_of sets.program sets.analysis }
        ensures wanted { IfOk result (λ r. r.0.wanted ≡ sets.entry) }
        ensures cut { IfOk result (λ r. r.0.cut ≡ cut) }
        ensures pass { IfOk result (λ r. r.1 ≡ fresh_pass r.0) }
    {
        let flags = sets.flags(alloc)?;
        let (board, pass) = WordBoard::open(alloc, &sets, flags, cut)?;
        let slices = SliceJob::on_board(board, sets);
        Ok((Job { slices }, pass))
    }

    /// A new pass of the job, with empty lists. It has half of the old one's share, and the old one keeps the other half and all else.
    pub fn split(&self, pass: &mut Pass<GraphSets<'g, 'p>>) -> Pass<GraphSets<'g, 'p>>
        requires { IsOf self.now pass.old }
        ensures new { result ≡ split_pass self.now pass.old }
        ensures old { pass.new ≡ halved pass.old }
    {
        self.slices.split(pass)
    }

    /// Two passes as one: the lists of the first, followed by those of the second, both shares, and what either holds. Refused
    /// only where both hold a slice.
    pub fn join(
        &self,
        first: Pass<GraphSets<'g, 'p>>,
        second: Pass<GraphSets<'g, 'p>>,
    ) -> Result<Pass<GraphSets<'g, 'p>>, (Pass<GraphSets<'g, 'p>>, Pass<GraphSets<'g, 'p>>)>
        requires first { IsOf self.now first }
        requires second { IsOf self.now second }
        ensures joined { IfOk result (λ pass. pass ≡ joined first.entry second.entry) }
        ensures apart { IfOk result (λ _. (s : ℕ) → times s first.entry.claimed + times s second.entry.claimed ≤ 1) }
        ensures refused { IsErr result ↔ (IsSome first.entry.held × IsSome second.entry.held) }
        ensures unchanged { IfErr result (λ r. (r.0 ≡ first.entry) × (r.1 ≡ second.entry)) }
    {
        self.slices.join(first, second)
    }

    /// A word of a point's row as it is now, in the analysis's may form: at least all that this pass posted or saw there, and nothing that
    /// is not in the point's set. For available and very busy expressions a bit says that the expression is not in the table.
    ///
    /// Takes no memory and waits for nobody.
    pub fn look(&self, pass: &mut Pass<GraphSets<'g, 'p>>, point: u32, word: u32) -> u64
        requires of { IsOf self.now pass.old }
        requires place { IsPlace self.now point word }
        ensures seen { pass.new ≡ record pass.old { seen = pass.old.seen ++ logged_word point word result ∷ [] } }
        ensures own { (i : ℕ) → i < 64 → IsLogged pass.old.posted point (64 * word + i) → has_bit result i ≡ true }
        ensures again { (i : ℕ) → i < 64 → IsLogged pass.old.seen point (64 * word + i) → has_bit result i ≡ true }
        ensures wanted { (i : ℕ) → i < 64 → has_bit result i ≡ true → IsInMaySet self.now.wanted point (64 * word + i) }
    {
        self.slices.look(pass, point, word)
    }

    /// How many slices there are.
    pub fn slices(&self) -> u32
        ensures { result ≡ slice_count self.now.cut }
    {
        self.slices.slices()
    }

    /// One slice: the one that the pass holds, or one that is drawn, which is told to the gate. It is solved, each of its words
    /// that has a bit is posted, and it is finished, which is told to the gate.
    ///
    /// None where the pass held no slice and all had been claimed. After `OutOfMemory` nothing was posted and the pass holds the
    /// slice; the next call takes it up again, without a draw, and without telling the gate that it was claimed.
    pub fn work<G: Gate>(
        &self,
        alloc: Global,
        pass: &mut Pass<GraphSets<'g, 'p>>,
        worker: u32,
        gate: &G,
    ) -> Result<Option<u32>, OutOfMemory>
        requires { IsOf self.now pass.old }
        ensures of { IsOf self.now pass.new }
        ensures some { IfOk result (λ r. IfSome r (Works IsInMaySet self.now pass.old pass.new)) }
        ensures none { IfOk result (λ r. IfNone r (Idles self.now pass.old pass.new)) }
        ensures refused { IfErr result (λ _. Holds pass.old pass.new) }
    {
        self.slices.work(alloc, pass, worker, gate)
    }

    /// Has a team work, each worker on a thread and with a pass of its own, until no slice is left, and answers the pass of all: each slice
    /// that was drawn is finished. Fails only where a worker was refused memory.
    pub(crate) fn run<R: Threads + Sync, G: Gate>(
        &self,
        team: &Team<'_, R, G>,
        alloc: Global,
        pass: Pass<GraphSets<'g, 'p>>,
    ) -> Result<Pass<GraphSets<'g, 'p>>, OutOfMemory>
        requires { IsOf self.now pass }
        ensures drained { IfOk result (IsDrained self.now) }
        ensures whole { IfOk result (λ worked. IsWhole pass.entry → IsWhole worked) }
    {
        run_workers(team, alloc, &self.slices, pass)
    }

    /// The table of the analysis, where every slice is finished. Else all is handed back, with how many slices are finished.
    ///
    /// Takes no memory. A slice that a dropped pass held is never finished.
    pub fn close(
        self,
        pass: Pass<GraphSets<'g, 'p>>,
    ) -> Result<Table, (Unfinished, Self, Pass<GraphSets<'g, 'p>>)>
        requires { IsOf self pass }
        ensures analysis { IfOk result (λ table. table.analysis ≡ self.entry.wanted.analysis) }
        ensures table { IfOk result (IsTableOf self.entry.wanted.program) }
        ensures all_finished { ((s : ℕ) → s < slice_count self.entry.cut → 0 < times s pass.entry.finished) → IsOk result }
        // No other pass can have left a slice unfinished.
        ensures drained { IsDrained self.entry pass.entry → IsWhole pass.entry → IsOk result }
        ensures holding { IsSome pass.entry.held → IsErr result }
        ensures unfinished { IfErr result (λ r. (r.0.done < r.0.of) × (r.0.of ≡ slice_count self.entry.cut)) }
        ensures counted { IfErr result (λ r. CountsOnce (slice_count self.entry.cut) pass.entry.counted r.2.counted r.0.done) }
        ensures job { IfErr result (λ r. r.1 ≡ self.entry) }
        ensures pass { IfErr result (λ r. r.2 ≡ record pass.entry { counted = r.2.counted }) }
    {
        let Job { slices } = self;
        match slices.close(pass) {
            Ok((sets, posted)) => Ok(sets.table(posted)),
            Err((unfinished, slices, pass)) => Err((unfinished, Job { slices }, pass)),
        }
    }
}
