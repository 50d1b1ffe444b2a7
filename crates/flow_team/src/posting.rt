// Solved words, posted at the points of a board.
ghost use Rattle.std.specs.Prelude.{◌≡◌, ℕ, ◌+◌, ◌*◌, ◌/◌, ◌<◌, ◌≤◌};
ghost use Rattle.gk_solve.specs.Solved.{IsSliceOf, direction_of};
ghost use Rattle.slice_board.specs.Boards.{IsOf, IsPlace, board_points};
ghost use Rattle.flow_team.specs.code.Posting.{CanPost, HasPosted, IsPosted, TellPoint};
ghost use Rattle.slice_board.specs.Teams.{PostsMore};

use gen_kill::Problem;
use gk_solve::{Routes, SliceWords, Solver, TakeWords};
use slice_board::{Pass, Wanted, WordBoard};

/// A board on which solved words are posted, for so many points from the first on, and the pass of who posts them.
#[derive(Drop)]
struct Posting<'a, W: Wanted> {
    board: &'a WordBoard<W>,
    pass: &'a mut Pass<W>,
    first: u32,
    count: u32,
}

// Posts a word that was solved at a point, unless it has no bit.
fn post_word<W: Wanted>(
    board: &WordBoard<W>,
    pass: &mut Pass<W>,
    slice: &SliceWords,
    point: u32,
    at: u32,
    word: u32,
)
    requires of { IsOf board.now pass.old }
    requires words { TellPoint (W.wants board.now.wanted) slice.now point at }
    requires at { at < slice.now.points }
    requires place { IsPlace board.now point word }
    requires from { slice.now.from ≤ word }
    requires until { word < slice.now.until }
    ensures more { PostsMore pass.old pass.new }
    ensures posted { IsPosted (W.wants board.now.wanted) slice.now.lo slice.now.hi (λ p w. (p ≡ point) × (w ≡ word)) pass.new.posted }
{
    let mask = slice.word(at, word);
    if mask == 0 {
        return;
    }
    board.post(pass, point, word, mask);
}

// Posts the words that were solved at a point.
fn post_point<W: Wanted>(
    board: &WordBoard<W>,
    pass: &mut Pass<W>,
    slice: &SliceWords,
    point: u32,
    at: u32,
)
    requires of { IsOf board.now pass.old }
    requires words { TellPoint (W.wants board.now.wanted) slice.now point at }
    requires point { point < board_points board.now }
    requires at { at < slice.now.points }
    requires within { 64 * slice.now.until < board.now.cut.bits + 64 }
    ensures more { PostsMore pass.old pass.new }
    ensures posted { IsPosted (W.wants board.now.wanted) slice.now.lo slice.now.hi
        (λ p word. (p ≡ point) × (slice.now.from ≤ word) × (word < slice.now.until)) pass.new.posted }
{
    let (from, until) = slice.solved();
    for word in from..until {
        post_word(board, pass, slice, point, at, word);
    }
}

// Posts the solved words of all points of a board.
fn post_words<W: Wanted>(
    board: &WordBoard<W>,
    pass: &mut Pass<W>,
    slice: &SliceWords,
    first: u32,
    count: u32,
)
    requires of { IsOf board.now pass.old }
    requires words { (point : ℕ) → point < count → TellPoint (W.wants board.now.wanted) slice.now point (first + point) }
    requires points { board_points board.now ≡ count }
    requires there { first + count ≤ slice.now.points }
    requires within { 64 * slice.now.until < board.now.cut.bits + 64 }
    ensures more { PostsMore pass.old pass.new }
    ensures posted { IsPosted (W.wants board.now.wanted) slice.now.lo slice.now.hi
        (λ p word. (p < count) × (slice.now.from ≤ word) × (word < slice.now.until)) pass.new.posted }
{
    // Its contract tells that the points have numbers.
    let _ = slice.points();
    for point in 0..count {
        post_point(board, pass, slice, point, first + point);
    }
}

impl<W: Wanted> TakeWords for Posting<'_, W> {
    ghost is_ready = { λ posting selection _ hi.
        CanPost (W.wants posting.board.now.wanted) selection posting.first posting.count hi posting.board.now posting.pass.now };

    ghost has = { λ start posting _ lo hi word. (posting.board.now ≡ start.board.now)
        × ((posting.pass.ghost_name ≡ start.pass.ghost_name)
        × HasPosted (W.wants start.board.now.wanted) lo hi word start.pass.now posting.pass.now) };

    fn take_words(&mut self, _problem: &Problem<'_, '_>, slice: &SliceWords) {
        let (first, count) = (self.first, self.count);
        post_words(self.board, self.pass, slice, first, count);
    }
}

/// Solves the words of a slice, and posts them on a board for so many points, from the first on.
pub(crate) fn post_slice_words<'a, 'g, 'p, W: Wanted>(
    solver: &'a Solver<'g, 'p>,
    routes: &'a Routes,
    slice: &mut SliceWords,
    board: &WordBoard<W>,
    pass: &mut Pass<W>,
    first: u32,
    count: u32,
)
    requires routes { routes.now ≡ direction_of solver.now }
    requires slice { IsSliceOf solver.now slice.old }
    requires ready { CanPost (W.wants board.now.wanted) solver.now first count slice.old.hi board.now pass.old }
    ensures { HasPosted (W.wants board.now.wanted) slice.old.lo slice.old.hi ((slice.old.hi + 63) / 64) pass.old pass.new }
{
    let mut posting = Posting {
        board: &*board,
        pass: &mut *pass,
        first,
        count,
    };
    solver.solve_each(routes, slice, &mut posting);
}
