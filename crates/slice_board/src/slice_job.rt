// What a board wants, from which workers draw.
ghost use Rattle.std.specs.Prelude.{◌≡◌, ℕ, ◌+◌, ◌*◌, ◌<◌, ◌≤◌, ◌↔◌, [], ◌∷◌, ◌++◌, true, IfOk, IfErr, IfSome, IfNone, IsOk, IsErr, IsSome};
ghost use Rattle.bit_rows.specs.RowSet.{contains};
ghost use Rattle.bit_rows.specs.RowTable.{set_at};
ghost use Rattle.bit_rows.specs.Words.{has_bit};
ghost use Rattle.slice_board.specs.Boards.{IsOf, IsPlace, CountsOnce, split_pass, slice_count};
ghost use Rattle.slice_board.specs.Passes.{IsLogged, IsWhole, halved, joined, logged_word, times};
ghost use Rattle.slice_board.specs.Teams.{Keeps, Takes, Works, Idles, Holds, IsDrained};

use crate::OutOfMemory;
use crate::gate::Gate;
use crate::pass::Pass;
use crate::posted_words::PostedWords;
use crate::rule::Wanted;
use crate::solve::Solve;
use crate::word_board::{Unfinished, WordBoard};
use std::alloc::Global;
use std::marker::Model;

/// What several workers solve, each with a pass of its own: slices are drawn from a board, solved, and posted on it.
#[derive(Drop)]
pub struct SliceJob<W: Wanted + Sync + Send, S: Solve<W>> {
    board: WordBoard<W>,
    sets: S,
}

impl<W: Wanted + Sync + Send, S: Solve<W>> Model for SliceJob<W, S> {
    ghost use Rattle.slice_board.specs.Boards.{BoardState};

    ghost Value = { BoardState W };

    ghost view = { λ job. job.board };

    ghost invariant = { λ job. S.is_on job.sets job.board };
}

impl<W: Wanted + Sync + Send, S: Solve<W>> SliceJob<W, S> {
    /// The job of what stands on a board.
    pub fn on_board(board: WordBoard<W>, sets: S) -> Self
        requires { S.is_on sets board }
        ensures { result ≡ board }
    {
        SliceJob { board, sets }
    }

    /// A new pass of the job, with empty lists. It has half of the old one's share, and the old one keeps the other half and all else.
    pub fn split(&self, pass: &mut Pass<W>) -> Pass<W>
        requires { IsOf self.now pass.old }
        ensures new { result ≡ split_pass self.now pass.old }
        ensures old { pass.new ≡ halved pass.old }
    {
        self.board.split(pass)
    }

    /// Two passes as one: the lists of the first, followed by those of the second, both shares, and what either holds. Refused
    /// only where both hold a slice.
    pub fn join(&self, first: Pass<W>, second: Pass<W>) -> Result<Pass<W>, (Pass<W>, Pass<W>)>
        requires first { IsOf self.now first }
        requires second { IsOf self.now second }
        ensures joined { IfOk result (λ pass. pass ≡ joined first second) }
        ensures apart { IfOk result (λ _. (s : ℕ) → times s first.claimed + times s second.claimed ≤ 1) }
        ensures refused { IsErr result ↔ (IsSome first.held × IsSome second.held) }
        ensures unchanged { IfErr result (λ r. (r.0 ≡ first) × (r.1 ≡ second)) }
    {
        self.board.join(first, second)
    }

    /// A word of a point's row as it is now: at least all that this pass posted or saw there, and nothing that is not wanted.
    pub fn look(&self, pass: &mut Pass<W>, point: u32, word: u32) -> u64
        requires of { IsOf self.now pass.old }
        requires place { IsPlace self.now point word }
        ensures seen { pass.new ≡ record pass.old { seen = pass.old.seen ++ logged_word point word result ∷ [] } }
        ensures own { (i : ℕ) → i < 64 → IsLogged pass.old.posted point (64 * word + i) → has_bit result i ≡ true }
        ensures again { (i : ℕ) → i < 64 → IsLogged pass.old.seen point (64 * word + i) → has_bit result i ≡ true }
        ensures wanted { (i : ℕ) → i < 64 → has_bit result i ≡ true → W.wants self.now.wanted point (64 * word + i) }
    {
        self.board.look(pass, point, word)
    }

    /// How many slices there are.
    pub fn slices(&self) -> u32
        ensures { result ≡ slice_count self.now.cut }
    {
        self.board.cut().slices()
    }

    // The slice to solve next: the one that is held, or one that is drawn.
    fn take_up<G: Gate>(&self, pass: &mut Pass<W>, worker: u32, gate: &G) -> Option<u32>
        requires { IsOf self.now pass.old }
        ensures of { IsOf self.now pass.new }
        ensures keeps { Keeps pass.old pass.new }
        ensures held { pass.new.held ≡ result }
        ensures some { IfSome result (λ slice. (slice < slice_count self.now.cut) × Takes pass.old pass.new slice) }
        ensures none { IfNone result (Idles self.now pass.old pass.new) }
    {
        if let Some(slice) = pass.held() {
            return Some(slice);
        }
        let slice = self.board.claim(pass)?;
        gate.claimed(worker, slice);
        Some(slice)
    }

    /// One slice: the one that the pass holds, or one that is drawn, which is told to the gate. It is solved, what is wanted of it
    /// is posted, and it is finished, which is told to the gate.
    ///
    /// None where the pass held no slice and all had been claimed. After `OutOfMemory` nothing was posted and the pass holds the
    /// slice; the next call takes it up again, without a draw, and without telling the gate that it was claimed.
    pub fn work<G: Gate>(
        &self,
        alloc: Global,
        pass: &mut Pass<W>,
        worker: u32,
        gate: &G,
    ) -> Result<Option<u32>, OutOfMemory>
        requires { IsOf self.now pass.old }
        ensures of { IsOf self.now pass.new }
        ensures some { IfOk result (λ r. IfSome r (Works W.wants self.now pass.old pass.new)) }
        ensures none { IfOk result (λ r. IfNone r (Idles self.now pass.old pass.new)) }
        ensures refused { IfErr result (λ _. Holds pass.old pass.new) }
    {
        let Some(slice) = self.take_up(pass, worker, gate) else {
            return Ok(None);
        };
        self.sets.post_slice(alloc, &self.board, pass, slice)?;
        self.board.finish(pass, slice);
        gate.finished(worker, slice, &*pass);
        Ok(Some(slice))
    }

    /// What solved it, and the words, which hold exactly what is wanted, where every slice is finished. Else all is handed back.
    pub fn close(self, pass: Pass<W>) -> Result<(S, PostedWords), (Unfinished, Self, Pass<W>)>
        requires { IsOf self pass }
        ensures on { IfOk result (λ r. S.is_on r.0 self) }
        ensures range { IfOk result (λ r. (r.1.lo ≡ 0) × (r.1.hi ≡ self.cut.bits)) }
        ensures flags { IfOk result (λ r. r.1.flags ≡ self.blank.flags) }
        ensures rows { IfOk result (λ r. (point bit : ℕ) → (contains (set_at r.1 point) bit ≡ true) ↔ W.wants self.wanted point bit) }
        ensures all_finished { ((s : ℕ) → s < slice_count self.cut → 0 < times s pass.finished) → IsOk result }
        ensures drained { IsDrained self pass → IsWhole pass → IsOk result }
        ensures holding { IsSome pass.held → IsErr result }
        ensures unfinished { IfErr result (λ r. (r.0.done < r.0.of) × (r.0.of ≡ slice_count self.cut)) }
        ensures counted { IfErr result (λ r. CountsOnce (slice_count self.cut) pass.counted r.2.counted r.0.done) }
        ensures job { IfErr result (λ r. r.1 ≡ self) }
        ensures pass { IfErr result (λ r. r.2 ≡ record pass { counted = r.2.counted }) }
    {
        let SliceJob { board, sets } = self;
        match board.close(pass) {
            Ok(words) => Ok((sets, words)),
            Err((unfinished, board, pass)) => Err((unfinished, SliceJob { board, sets }, pass)),
        }
    }
}
