// What takes solved words, and the one loop that solves the words of a slice.
ghost use Rattle.std.specs.Prelude.{◌≡◌, ℕ, ◌+◌, ◌*◌, ◌/◌, ◌<◌, ◌≤◌};
ghost use Rattle.gen_kill.specs.Selections.{Selection};
ghost use Rattle.gk_solve.specs.Solved.{AreMeetWords, AreSolved, IsSliceOf, direction_of};
ghost use Rattle.gk_solve.specs.Tables.Groups.{AreEffectWords};

use crate::routes::Routes;
use crate::slice_words::SliceWords;
use bit_rows::words_for;
use gen_kill::Problem;

/// What takes the words of a slice as they are solved: rows, a board that workers share, a caller's memory.
pub trait TakeWords {
    // It can take words of the problem's bits from one up to another.
    ghost is_ready: { Self → Selection → ℕ → ℕ → Type 0 };

    // What began as the first and is now the second has the words of these bits that are before one.
    ghost has: { Self → Self → Selection → ℕ → ℕ → ℕ → Type 0 };

    /// Takes the words that were solved last, at all points.
    fn take_words(&mut self, problem: &Problem<'_, '_>, slice: &SliceWords)
        requires ready { is_ready self.old problem.now slice.now.lo slice.now.hi }
        requires slice { IsSliceOf problem.now slice.now }
        requires first { slice.now.lo / 64 ≤ slice.now.from }
        requires more { slice.now.from < slice.now.until }
        requires last { 64 * slice.now.until < slice.now.hi + 64 }
        requires equations { AreSolved problem.now slice.now }
        requires paths { AreMeetWords problem.now slice.now }
        ensures ready { is_ready self.new problem.now slice.now.lo slice.now.hi }
        ensures has { (start : Self) → has start self.old problem.now slice.now.lo slice.now.hi slice.now.from
            → has start self.new problem.now slice.now.lo slice.now.hi slice.now.until };
}

/// Solves the words of a slice, and has them taken.
pub(crate) fn solve_each<'a, 'g, 'p, T: TakeWords>(
    problem: &'a Problem<'g, 'p>,
    routes: &'a Routes,
    effects: &'a [u64],
    slice: &mut SliceWords,
    taker: &mut T,
)
    requires routes { routes.now ≡ direction_of problem.now }
    requires effects { AreEffectWords problem.now effects.now }
    requires slice { IsSliceOf problem.now slice.old }
    requires ready { T.is_ready taker.old problem.now slice.old.lo slice.old.hi }
    requires begun { T.has taker.old taker.old problem.now slice.old.lo slice.old.hi (slice.old.lo / 64) }
    ensures { T.has taker.old taker.new problem.now slice.old.lo slice.old.hi ((slice.old.hi + 63) / 64) }
{
    // Its contract tells that the problem is well formed.
    let _ = problem.root();
    let (lo, hi) = slice.range();
    let mut word = lo / 64;
    'words: while word < words_for(hi) {
        word = slice.solve_from(problem, routes, effects, word);
        taker.take_words(problem, &*slice);
    }
}
