//! Laws of bounds: each is the clause of a function without a body.
//!
//! A bit at a point is settled by an upper and a lower bound that agree there (`bounds_settle_points`). Upper bounds are
//! `quotients_are_above`; lower ones are `ways_carry`, `trees_bring`, `turns_bring` and `justified_values_are_below`. What is left is packed
//! and solved (`selections_are_solved`).

ghost use Rattle.solution_bounds.specs.Laws.{ClosedValuesAreAbove, PointsAreBounded, AgreeingBoundsAreExact, QuotientsAreClosed, QuotientsAreAbove};
ghost use Rattle.solution_bounds.specs.Laws.{QuotientsBoundPoints, PiecesBoundPoints, WaysCarry, WaysPreserve, WaysReverse, TreesBring};
ghost use Rattle.solution_bounds.specs.Laws.{TreesReachPoints, ReturnTreesCarry, TurnsBring, JustifiedValuesAreBelow, SelectionsAreSolved};
ghost use Rattle.solution_bounds.specs.Laws.{SelectedBitsAreSolved, QuotientsHavePieces};

/// Values that are closed under the clauses lie above the least solution, so that a point where such values and values below agree is
/// settled (Kildall 1973).
pub fn bounds_settle_points()
    ensures above { ClosedValuesAreAbove }
    ensures points { PointsAreBounded }
    ensures agreeing { AgreeingBoundsAreExact }
{}

/// The values of a quotient, in which all procedures where no statement generates the bit are one, are closed under the clauses of the
/// equations at all points and procedures; and so are those of a summary whose procedures have pieces that fit, of which each quotient has
/// some (summaries of procedures: Reps, Horwitz, Sagiv 1995).
pub fn quotients_are_above()
    ensures closed { QuotientsAreClosed }
    ensures above { QuotientsAreAbove }
    ensures points { QuotientsBoundPoints }
    ensures pieces { PiecesBoundPoints }
    ensures have_pieces { QuotientsHavePieces }
{}

/// What holds at a point holds behind each way that begins there, procedures with ways through them preserve the bit, and ways of the
/// reversed problem are ways (matched paths inside procedures: Reps, Horwitz, Sagiv 1995).
pub fn ways_carry()
    ensures carry { WaysCarry }
    ensures through { WaysPreserve }
    ensures reversed { WaysReverse }
{}

/// A tree of calls, each reached by a way that preserves the bit, brings it to its procedures, and to each point there to which a way leads
/// from the entry (valid paths with open calls: Reps, Horwitz, Sagiv 1995).
pub fn trees_bring()
    ensures procedures { TreesBring }
    ensures points { TreesReachPoints }
{}

/// What is generated deep below one call is brought to what is deep below a later one: up a tree of returns, and down a tree of calls (valid
/// paths: Reps, Horwitz, Sagiv 1995).
pub fn turns_bring()
    ensures returns { ReturnTreesCarry }
    ensures turns { TurnsBring }
{}

/// Values that follow one from another by the clauses, in the order of a rank, are in the least solution (Kildall 1973; Reps, Horwitz,
/// Sagiv 1995).
pub fn justified_values_are_below()
    ensures { JustifiedValuesAreBelow }
{}

/// Bits of any analyses over one shape, solved side by side, have each its own solution (locally separable problems: Reps, Horwitz, Sagiv
/// 1995).
pub fn selections_are_solved()
    ensures transfers { SelectionsAreSolved }
    ensures analyses { SelectedBitsAreSolved }
{}
