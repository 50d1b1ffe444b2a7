// Marks followed back to where a search begins.
ghost use Rattle.std.specs.Prelude.{◌≡◌, ◌<◌, true, IfOk, OnOk, length};
ghost use Rattle.flow_why.specs.declared.claim.Claim.TheVariants as claims;
ghost use Rattle.flow_why.specs.code.Found.{Has, IsPlaceOf, IsThere, marks_of, point_at};
ghost use Rattle.flow_why.specs.code.Frames.{question_of};
ghost use Rattle.flow_why.specs.code.Marked.{AreMarks, BaseHas};
ghost use Rattle.flow_why.specs.code.Trails.{AreBaseHops, AreCollected, AreHops, AreInnerHops, IsAskedFrame};
ghost use Rattle.flow_why.specs.code.Trails.{IsFollowed, IsTrail, IsTurn, claim_below};
ghost use Rattle.flow_why.specs.code.Trails.{hop_source, trail_of};

use crate::OutOfMemory;
use crate::claim::Claim;
use crate::frame::Frame;
use crate::hop::Hop;
use crate::mark::Reason;
use crate::marks::Marks;
use crate::search::Search;
use std::alloc::Global;

/// Where following ends: at the beginning of a search, or at a point to which paths lead.
#[derive(Clone, Copy)]
pub enum Origin {
    Beginning(u32),
    Base(u32),
}

/// What comes of following one mark: the end, or the place of a mark before.
#[derive(Clone, Copy)]
pub enum Turn {
    Ends(Origin),
    On(u32),
}

// The point from which a hop leads.
fn source(hop: Hop) -> u32
    ensures { result ≡ hop_source hop }
{
    match hop {
        Hop::Step { from, .. } => from,
        Hop::Enter { from, .. } => from,
        Hop::Pass { from, .. } => from,
    }
}

// The place of a point that is marked.
fn place_of(marks: &Marks, point: u32) -> u32
    requires within { point < marks.now.points }
    requires there { IsThere marks.now point }
    ensures { IsPlaceOf marks.now point result }
{
    match marks.place(point) {
        Some(place) => place,
        None => unreachable!(),
    }
}

// Follows the mark at a place.
fn turn_back(
    _frame: &Frame<'_, '_, '_>,
    _based: bool,
    _claim: Claim,
    marks: &Marks,
    place: u32,
    hops: &mut Vec<Hop>,
) -> Result<Turn, OutOfMemory>
    requires trail { IsTrail (trail_of _frame.now _based _claim) marks.now }
    requires within { place < length marks.now.found }
    ensures { IfOk result (λ turn. IsTurn (trail_of _frame.now _based _claim) marks.now place hops.old.items hops.new.items turn) }
{
    let mark = marks.mark(place);
    match mark.reason {
        Reason::Beginning => Ok(Turn::Ends(Origin::Beginning(mark.point))),
        Reason::Own(hop) => {
            hops.push(hop)?;
            Ok(Turn::On(place_of(marks, source(hop))))
        }
        Reason::Base(hop) => {
            hops.push(hop)?;
            Ok(Turn::Ends(Origin::Base(source(hop))))
        }
    }
}

// Follows marks back from a place, the last hop first.
fn follow(
    frame: &Frame<'_, '_, '_>,
    based: bool,
    claim: Claim,
    marks: &Marks,
    place: u32,
    hops: &mut Vec<Hop>,
) -> Result<Origin, OutOfMemory>
    requires trail { IsTrail (trail_of frame.now based claim) marks.now }
    requires within { place < length marks.now.found }
    ensures { IfOk result (λ end. IsFollowed (trail_of frame.now based claim) marks.now place hops.old.items end hops.new.items) }
{
    let mut at = place;
    'back: loop {
        match turn_back(frame, based, claim, marks, at, hops)? {
            Turn::On(before) => at = before,
            Turn::Ends(end) => return Ok(end),
        }
    }
}

// The claim of the base on which a claim hangs.
fn base_claim(claim: Claim) -> Claim
    ensures { result ≡ claim_below claim }
{
    match claim {
        Claim::Holds => Claim::Holds,
        Claim::Generated => Claim::Preserved,
        Claim::Preserved => Claim::Preserved,
    }
}

// Follows the marks by which paths lead to a point.
fn follow_base(
    frame: &Frame<'_, '_, '_>,
    claim: Claim,
    point: u32,
    hops: &mut Vec<Hop>,
) -> Result<(), OutOfMemory>
    requires frame { IsAskedFrame frame.now }
    requires there { BaseHas frame.now.base.now claim point }
    ensures { OnOk result (AreBaseHops frame.now claim point hops.old.items hops.new.items) }
{
    let below = base_claim(claim);
    let marks = frame.base.marks(below);
    // Its contract tells how long the list is, and that its points are there.
    let _ = marks.count();
    let place = place_of(marks, point);
    follow(frame, true, below, marks, place, hops)?;
    Ok(())
}

// Follows the mark at a place to where the search begins, the last hop first.
fn collect(
    frame: &Frame<'_, '_, '_>,
    search: &Search,
    claim: Claim,
    place: u32,
    hops: &mut Vec<Hop>,
) -> Result<(), OutOfMemory>
    requires frame { IsAskedFrame frame.now }
    requires marks { AreMarks (question_of frame.now) search.now }
    requires within { place < length (marks_of search.now claim).found }
    ensures { OnOk result (AreCollected (question_of frame.now) claim (point_at
        (marks_of search.now claim).found place) hops.old.items hops.new.items) }
{
    let marks = search.marks(claim);
    // Its contract tells how long the list is.
    let _ = marks.count();
    match follow(frame, false, claim, marks, place, hops)? {
        Origin::Beginning(_) => Ok(()),
        Origin::Base(point) => follow_base(frame, claim, point, hops),
    }
}

/// The hops by which a point is marked, from where the search begins.
pub fn hops_of(
    alloc: Global,
    frame: &Frame<'_, '_, '_>,
    search: &Search,
    claim: Claim,
    place: u32,
) -> Result<Vec<Hop>, OutOfMemory>
    requires frame { IsAskedFrame frame.now }
    requires marks { AreMarks (question_of frame.now) search.now }
    requires within { place < length (marks_of search.now claim).found }
    ensures { IfOk result (λ hops. AreHops (question_of frame.now) claim (point_at (marks_of search.now claim).found place) hops.items) }
{
    let mut hops = Vec::new(alloc);
    collect(frame, search, claim, place, &mut hops)?;
    hops.reverse();
    Ok(hops)
}

/// The hops by which paths inside a procedure lead to a point, from its entry.
pub fn inner_hops_of(
    alloc: Global,
    frame: &Frame<'_, '_, '_>,
    point: u32,
) -> Result<Vec<Hop>, OutOfMemory>
    requires frame { IsAskedFrame frame.now }
    requires there { Has frame.now.base.now claims.Preserved point }
    ensures { IfOk result (λ hops. AreInnerHops (question_of frame.now) point hops.items) }
{
    let mut hops = Vec::new(alloc);
    follow_base(frame, Claim::Generated, point, &mut hops)?;
    hops.reverse();
    Ok(hops)
}
