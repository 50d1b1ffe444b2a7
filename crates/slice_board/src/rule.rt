// The rule of the board's table.
ghost use Rattle.std.specs.Prelude.{ℕ};

use crate::view::View;
use atomic_table::TableRule;
use bit_rows::Cut;
use std::marker::PhantomData;
use std::snapshot::Snapshot;

/// A value that says which bits are wanted at each point. No running call sees it; contracts do.
pub trait Wanted {
    // of a point and a bit
    ghost wants: { Self → ℕ → ℕ → Type 0 };
}

/// What the table is told once.
#[derive(Drop)]
pub struct Key<T> {
    pub wanted: Snapshot<T>,
    pub points: u32,
    pub cut: Snapshot<Cut>,
}

/// The board is lawful between any two steps.
pub struct Law<T> {
    marker: PhantomData<T>,
}

impl<T: Wanted> TableRule<(), View<T>, Key<T>> for Law<T> {
    ghost use Rattle.slice_board.specs.Steps.{first_view};
    ghost use Rattle.slice_board.specs.code.Words.{about_key, LawfulTable};

    ghost holds = { λ key. LawfulTable T.wants (about_key key) };

    ghost first = { λ key. first_view (about_key key) };
}
