// What each step on the table tells the pass that makes it.
use crate::rule::Wanted;
use crate::view::View;
use atomic_table::{Join, Play, Split};
use std::marker::PhantomData;

pub(crate) struct Draw;

impl<T> Play<(), View<T>> for Draw {
    ghost use Rattle.slice_board.specs.code.Plays.{DrawTells};

    ghost then = { DrawTells };
}

pub(crate) struct Finish;

impl<T> Play<(), View<T>> for Finish {
    ghost use Rattle.slice_board.specs.code.Plays.{FinishTells};

    ghost then = { FinishTells };
}

pub(crate) struct Post;

impl<T> Play<(), View<T>> for Post {
    ghost use Rattle.slice_board.specs.code.Plays.{PostTells};

    ghost then = { PostTells };
}

pub(crate) struct Look<T> {
    marker: PhantomData<T>,
}

impl<T: Wanted> Play<(), View<T>> for Look<T> {
    ghost use Rattle.slice_board.specs.code.Plays.{LookTells};

    ghost then = { LookTells T.wants };
}

pub(crate) struct Tally;

impl<T> Play<(), View<T>> for Tally {
    ghost use Rattle.slice_board.specs.code.Plays.{CountTells};

    ghost then = { CountTells };
}

pub(crate) struct Check;

impl<T> Play<(), View<T>> for Check {
    ghost use Rattle.slice_board.specs.code.Plays.{CheckTells};

    ghost then = { CheckTells };
}

pub(crate) struct Fork;

impl<T> Split<View<T>> for Fork {
    ghost use Rattle.slice_board.specs.Steps.{halved_view, split_view};

    ghost left = { halved_view };

    ghost right = { split_view };
}

pub(crate) struct Glue;

impl<T> Join<View<T>> for Glue {
    ghost use Rattle.slice_board.specs.Steps.{joined_view, spent_view};

    ghost both = { joined_view };

    ghost spent = { spent_view };
}
