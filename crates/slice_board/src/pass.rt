ghost use Rattle.std.specs.Prelude.{◌≡◌, ◌<◌, Some, IfSome};
ghost use Rattle.slice_board.specs.Boards.{slice_count};
ghost use Rattle.slice_board.specs.Passes.{HoldsUnfinished};
ghost use Rattle.slice_board.specs.declared.view.About.{About};

use crate::view::View;
use atomic_table::Seat;
use std::marker::Model;

/// What a worker draws, publishes and finishes with.
///
/// It keeps lists of what was done with it, which contracts alone see (`PassState`). A pass that is
/// dropped keeps its claims for good: a slice that it held is never finished.
#[derive(Drop)]
pub struct Pass<T> {
    pub(crate) seat: Seat<(), View<T>>,
    // Each smaller slice is among the pass's claims, or was found taken.
    pub(crate) next: u32,
    pub(crate) held: Option<u32>,
}

impl<T> Model for Pass<T> {
    ghost use Rattle.std.specs.Prelude.{◌≡◌, []};
    ghost use Rattle.slice_board.specs.Passes.{PassState};
    ghost use Rattle.slice_board.specs.code.Fields.{pass_state, IsKept};

    ghost Value = { PassState T };

    ghost view = { λ p. pass_state p.seat.table_id p.seat.me.0 p.held p.next };

    ghost invariant = { λ p. IsKept (pass_state p.seat.table_id p.seat.me.0 p.held p.next)
        × (p.seat.me.1 ≡ []) };
}

impl<T> Pass<T> {
    /// The slice that was claimed with the pass and is not finished, if there is one.
    pub fn held(&self) -> Option<u32>
        ensures value { result ≡ self.now.held }
        ensures unfinished { HoldsUnfinished self.now }
        // It is one of the board's slices.
        ensures there { IfSome result (λ s. (about : About T) → self.now.about ≡ Some about
            → s < slice_count about.cut) }
    {
        self.held
    }
}
