// The solver: a problem, and what is found of it once.
ghost use Rattle.std.specs.Prelude.{◌≡◌, ◌+◌, ◌*◌, ◌/◌, ◌<◌, ◌≤◌, IfOk};
ghost use Rattle.gen_kill.specs.Selections.{Selection, column_count, may_form};
ghost use Rattle.gk_solve.specs.Solved.{AreMeetWords, AreSolved, HasPathFlags, IsSliceOf, direction_of, words_at_once, words_between};
ghost use Rattle.gk_solve.specs.Tables.Groups.{AreEffectWords};

use crate::OutOfMemory;
use crate::effects::effect_words;
use crate::routes::Routes;
use crate::slice_words::{SliceWords, slice_words};
use crate::take_words::{TakeWords, solve_each};
use gen_kill::Problem;
use std::alloc::Global;
use std::marker::Model;

/// A problem, and which words each statement does something in: what all slices of its bits share. Its edges and paths are lent to
/// each call, since two analyses of one direction have the same.
pub struct Solver<'g, 'p> {
    problem: Problem<'g, 'p>,
    effects: Vec<u64>,
}

impl<'g, 'p> Model for Solver<'g, 'p> {
    ghost use Rattle.gen_kill.specs.Selections.{Selection};
    ghost use Rattle.gk_solve.specs.Tables.Groups.{AreEffectWords};

    ghost Value = { Selection };

    ghost view = { λ solver. solver.problem };

    ghost invariant = { λ solver. AreEffectWords solver.problem solver.effects.items };
}

impl Drop for Solver<'_, '_> {
    // By hand: a caller that gives a solver up then makes one call.
    fn drop(self) {
        let Solver {
            problem: _,
            effects: _,
        } = self;
    }
}

// The flags of all points once more.
fn copied_flags(alloc: Global, paths: &[bool]) -> Result<Vec<bool>, OutOfMemory>
    ensures { IfOk result (λ copy. copy.items ≡ paths.now) }
{
    paths.to_vec(alloc)
}

impl<'g, 'p> Solver<'g, 'p> {
    /// The solver of a problem.
    pub fn of(alloc: Global, problem: Problem<'g, 'p>) -> Result<Self, OutOfMemory>
        ensures { IfOk result (λ solver. solver ≡ problem.entry) }
    {
        let effects = effect_words(alloc, &problem)?;
        Ok(Solver { problem, effects })
    }

    /// The problem.
    pub fn problem(&self) -> &Problem<'g, 'p>
        ensures { result.now ≡ self.now }
    {
        &self.problem
    }

    /// The path flag of each point: whether some valid path leads to it.
    pub fn flags(&self, alloc: Global, routes: &Routes) -> Result<Vec<bool>, OutOfMemory>
        requires { routes.now ≡ direction_of self.now }
        ensures { IfOk result (λ flags. HasPathFlags (may_form self.now) flags.items) }
    {
        // Its contract tells that the problem is well formed.
        let _ = self.problem.root();
        let flags = routes.paths();
        copied_flags(alloc, flags)
    }

    /// All working memory of a slice of the problem's bits: no more is taken while its words are solved.
    pub fn slice(
        &self,
        alloc: Global,
        routes: &Routes,
        lo: u32,
        hi: u32,
    ) -> Result<SliceWords, OutOfMemory>
        requires routes { routes.now ≡ direction_of self.now }
        requires ordered { lo ≤ hi }
        requires within { hi ≤ column_count self.now }
        ensures slice { IfOk result (λ slice. IsSliceOf self.now slice) }
        ensures range { IfOk result (λ slice. (slice.lo ≡ lo) × (slice.hi ≡ hi)) }
    {
        slice_words(alloc, &self.problem, routes, lo, hi)
    }

    /// Solves the words of a slice from one on, four or eight ([`words_at_once`](crate::words_at_once)), or to its end. Answers the word
    /// after the last one solved. It takes no memory.
    pub fn solve_from<'a>(&'a self, routes: &'a Routes, slice: &mut SliceWords, word: u32) -> u32
        requires routes { routes.now ≡ direction_of self.now }
        requires slice { IsSliceOf self.now slice.old }
        requires word { 64 * word < slice.old.hi }
        ensures slice { IsSliceOf self.now slice.new }
        ensures range { (slice.new.lo ≡ slice.old.lo) × (slice.new.hi ≡ slice.old.hi) }
        ensures from { slice.new.from ≡ word }
        ensures until { slice.new.until ≡ result }
        ensures more { word < result }
        ensures last { 64 * result < slice.old.hi + 64 }
        ensures most { result ≤ word + words_at_once slice.old.points (words_between slice.old.lo slice.old.hi) }
        ensures whole { slice.old.lo / 64 ≤ word → 64 * result < slice.old.hi
            → result ≡ word + words_at_once slice.old.points (words_between slice.old.lo slice.old.hi) }
        ensures equations { AreSolved self.now slice.new }
        ensures paths { AreMeetWords self.now slice.new }
    {
        // Its contract tells that the problem is well formed.
        let _ = self.problem.root();
        let effects = self.effects.as_slice();
        slice.solve_from(&self.problem, routes, effects, word)
    }

    /// Solves the words of a slice, and has them taken, some at a time.
    pub fn solve_each<'a, T: TakeWords>(
        &'a self,
        routes: &'a Routes,
        slice: &mut SliceWords,
        taker: &mut T,
    )
        requires routes { routes.now ≡ direction_of self.now }
        requires slice { IsSliceOf self.now slice.old }
        requires ready { T.is_ready taker.old self.now slice.old.lo slice.old.hi }
        requires begun { T.has taker.old taker.old self.now slice.old.lo slice.old.hi (slice.old.lo / 64) }
        ensures { T.has taker.old taker.new self.now slice.old.lo slice.old.hi ((slice.old.hi + 63) / 64) }
    {
        let effects = self.effects.as_slice();
        solve_each(&self.problem, routes, effects, slice, taker);
    }
}
