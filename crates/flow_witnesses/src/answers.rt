// What a search that is done says of points and of callees.
ghost use Rattle.std.specs.Prelude.{◌≡◌, ◌<◌, ◌≤◌, ◌*◌, ◌↔◌, true, false, IfOk, IfSome, MatchOption, length};
ghost use Rattle.flow_graph.specs.Paths.{SomePathHas};
ghost use Rattle.flow_why.specs.Witnesses.{IsNeverPassed, IsThroughWitness, IsWitness};
ghost use Rattle.flow_why.specs.declared.hop.Effect.TheVariants as effects;
ghost use Rattle.flow_why.specs.code.Closed.{whole_scope};
ghost use Rattle.flow_why.specs.code.Frames.{question_of};
ghost use Rattle.flow_why.specs.code.Marked.{is_inner};
ghost use Rattle.flow_why.specs.code.Trails.{claim_effect};
ghost use Rattle.flow_why.specs.code.Ways.{IsAnsweredIn};

use crate::OutOfMemory;
use flow_why::claim::Claim;
use flow_why::frame::Frame;
use flow_why::hop::{Effect, Hop};
use flow_why::search::Search;
use flow_why::trail::{hops_of, inner_hops_of};
use std::alloc::Global;

/// Whether some valid path to a point has the bit.
pub(crate) fn has_bit(frame: &Frame<'_, '_, '_>, search: &Search, point: u32) -> bool
    requires answered { IsAnsweredIn frame.now search.now }
    requires within { point < (question_of frame.now).points }
    requires scope { (question_of frame.now).scope.skipped ((question_of frame.now).shape.procedure_of point) ≡ false }
    ensures { (result ≡ true) ↔ SomePathHas (question_of frame.now).shape (question_of frame.now).transfer point }
{
    search.has(Claim::Holds, point)
}

/// A witness of the bit at a point.
pub(crate) fn witness_of(
    alloc: Global,
    frame: &Frame<'_, '_, '_>,
    search: &Search,
    point: u32,
) -> Result<Option<Vec<Hop>>, OutOfMemory>
    requires answered { IsAnsweredIn frame.now search.now }
    requires within { point < (question_of frame.now).points }
    requires scope { (question_of frame.now).scope.skipped ((question_of frame.now).shape.procedure_of point) ≡ false }
    ensures witness { IfOk result (λ found. MatchOption found
        (SomePathHas (question_of frame.now).shape (question_of frame.now).transfer point → ⊥)
        (λ hops. IsWitness (question_of frame.now).shape (question_of frame.now).transfer point hops.items)) }
    ensures short { IfOk result (λ found. IfSome found (λ hops. length hops.items ≤ 2 * (question_of frame.now).points)) }
{
    match search.marks(Claim::Holds).place(point) {
        None => Ok(None),
        Some(place) => {
            let hops = hops_of(alloc, frame, search, Claim::Holds, place)?;
            Ok(Some(hops))
        },
    }
}

/// One way through a callee that has an effect.
pub(crate) fn through_of(
    alloc: Global,
    frame: &Frame<'_, '_, '_>,
    search: &Search,
    callee: u32,
    effect: Effect,
) -> Result<Option<Vec<Hop>>, OutOfMemory>
    requires answered { IsAnsweredIn frame.now search.now }
    requires whole { (question_of frame.now).scope ≡ whole_scope }
    requires there { callee < (question_of frame.now).shape.procedures }
    ensures { IfOk result (λ found. MatchOption found
        (IsNeverPassed (question_of frame.now).shape (question_of frame.now).transfer callee effect)
        (λ hops. IsThroughWitness (question_of frame.now).shape (question_of frame.now).transfer callee effect hops.items)) }
{
    match effect {
        Effect::Reaches => reached_through(alloc, frame, search, callee),
        Effect::Generates => found_through(alloc, frame, search, callee, Claim::Generated),
        Effect::Preserves => found_through(alloc, frame, search, callee, Claim::Preserved),
    }
}

// The same for a path of which nothing is said.
fn reached_through(
    alloc: Global,
    frame: &Frame<'_, '_, '_>,
    _search: &Search,
    callee: u32,
) -> Result<Option<Vec<Hop>>, OutOfMemory>
    requires answered { IsAnsweredIn frame.now _search.now }
    requires whole { (question_of frame.now).scope ≡ whole_scope }
    requires there { callee < (question_of frame.now).shape.procedures }
    ensures { IfOk result (λ found. MatchOption found
        (IsNeverPassed (question_of frame.now).shape (question_of frame.now).transfer callee effects.Reaches)
        (λ hops. IsThroughWitness (question_of frame.now).shape (question_of frame.now).transfer callee effects.Reaches hops.items)) }
{
    let exit = frame.links.exit(callee);
    if !frame.base.has(Claim::Preserved, exit) {
        return Ok(None);
    }
    let hops = inner_hops_of(alloc, frame, exit)?;
    Ok(Some(hops))
}

// The same for the effect of a claim that was searched for.
fn found_through(
    alloc: Global,
    frame: &Frame<'_, '_, '_>,
    search: &Search,
    callee: u32,
    claim: Claim,
) -> Result<Option<Vec<Hop>>, OutOfMemory>
    requires answered { IsAnsweredIn frame.now search.now }
    requires whole { (question_of frame.now).scope ≡ whole_scope }
    requires there { callee < (question_of frame.now).shape.procedures }
    requires inner { is_inner claim ≡ true }
    ensures { IfOk result (λ found. MatchOption found
        (IsNeverPassed (question_of frame.now).shape (question_of frame.now).transfer callee (claim_effect claim))
        (λ hops. IsThroughWitness (question_of frame.now).shape (question_of frame.now).transfer callee (claim_effect claim) hops.items)) }
{
    let exit = frame.links.exit(callee);
    match search.marks(claim).place(exit) {
        None => Ok(None),
        Some(place) => {
            let hops = hops_of(alloc, frame, search, claim, place)?;
            Ok(Some(hops))
        },
    }
}
