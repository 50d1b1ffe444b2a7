// What can be solved slice by slice.
ghost use Rattle.std.specs.Prelude.{◌≡◌, ℕ, ◌<◌, IfOk, IfErr};
ghost use Rattle.slice_board.specs.Boards.{BoardState, IsOf, InSlice, slice_count};
ghost use Rattle.slice_board.specs.Passes.{IsLogged};
ghost use Rattle.slice_board.specs.Teams.{PostsMore};

use crate::OutOfMemory;
use crate::pass::Pass;
use crate::rule::Wanted;
use crate::word_board::WordBoard;
use std::alloc::Global;

/// What solves what a board wants, slice by slice, by several threads.
pub trait Solve<W: Wanted + Sync + Send>: Sync + Send + Drop {
    // The board wants what this solves.
    ghost is_on: { Self → BoardState W → Type 0 };

    /// Solves what is wanted of a slice, and posts it. All memory is taken before the first post.
    fn post_slice(
        &self,
        alloc: Global,
        board: &WordBoard<W>,
        pass: &mut Pass<W>,
        slice: u32,
    ) -> Result<(), OutOfMemory>
        requires on { is_on self.now board.now }
        requires of { IsOf board.now pass.old }
        requires there { slice < slice_count board.now.cut }
        ensures more { PostsMore pass.old pass.new }
        ensures whole { IfOk result (λ _. (point bit : ℕ) → W.wants board.now.wanted point bit
            → InSlice board.now.cut slice bit → IsLogged pass.new.posted point bit) }
        ensures refused { IfErr result (λ _. pass.new ≡ pass.old) };
}
