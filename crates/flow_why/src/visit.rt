// What a visit of a point adds to a search.
ghost use Rattle.std.specs.Prelude.{◌≡◌, ◌<◌, ℕ, false, true, OnOk};
ghost use Rattle.flow_graph.specs.declared.edge.Edge.TheVariants.{Step};
ghost use Rattle.flow_graph.specs.Paths.{IsEdge};
ghost use Rattle.flow_graph.specs.Points.{point_count};
ghost use Rattle.flow_links.specs.Shapes.{directed_shape};
ghost use Rattle.summary_equations.specs.Equations.{CallsAt, Generated, Preserved};
ghost use Rattle.flow_why.specs.declared.claim.Claim.TheVariants as claims;
ghost use Rattle.flow_why.specs.code.Found.{Has};
ghost use Rattle.flow_why.specs.code.Frames.{IsFrame, call_after, question_of, scope_of, transfer_for};
ghost use Rattle.flow_why.specs.code.Marked.{AreMarks, BaseHas, MayMark, Spreads};
ghost use Rattle.flow_why.specs.code.Visits.{AreStepsVisited, IsCallVisited, IsCallerVisited, IsVisited};

use crate::OutOfMemory;
use crate::claim::Claim;
use crate::frame::{Frame, based, effect, ends_of_call, goes_into, is_kept, kills};
use crate::hop::{Effect, Hop};
use crate::mark::{Mark, Reason};
use crate::search::Search;

/// Marks a point, unless it is marked.
pub fn add(
    _frame: &Frame<'_, '_, '_>,
    search: &mut Search,
    claim: Claim,
    mark: Mark,
) -> Result<(), OutOfMemory>
    requires marks { AreMarks (question_of _frame.now) search.old }
    requires may { MayMark (question_of _frame.now) claim search.old mark.point mark.reason }
    ensures spreads { OnOk result (Spreads (question_of _frame.now) search.old search.new) }
    ensures has { OnOk result (Has search.new claim mark.point) }
{
    search.put(claim, mark)
}

// Goes over one step.
fn visit_step(
    frame: &Frame<'_, '_, '_>,
    search: &mut Search,
    claim: Claim,
    at: u32,
    to: u32,
) -> Result<(), OutOfMemory>
    requires frame { IsFrame frame.now }
    requires marks { AreMarks (question_of frame.now) search.old }
    requires here { Has search.old claim at }
    requires there { IsEdge (directed_shape frame.now.links.now) (Step at to) }
    ensures spreads { OnOk result (Spreads (question_of frame.now) search.old search.new) }
    ensures visited { OnOk result ((transfer_for frame.now).kill at to ≡ false → Has search.new claim to) }
{
    if kills(frame, at, to) {
        return Ok(());
    }
    let reason = Reason::Own(Hop::Step { from: at, to });
    add(frame, search, claim, Mark { point: to, reason })
}

// Goes over the steps from a point.
fn visit_steps(
    frame: &Frame<'_, '_, '_>,
    search: &mut Search,
    claim: Claim,
    at: u32,
) -> Result<(), OutOfMemory>
    requires frame { IsFrame frame.now }
    requires marks { AreMarks (question_of frame.now) search.old }
    requires within { at < point_count frame.now.links.now.program }
    requires here { Has search.old claim at }
    ensures spreads { OnOk result (Spreads (question_of frame.now) search.old search.new) }
    ensures visited { OnOk result (AreStepsVisited (question_of frame.now) claim at search.new) }
{
    let steps = frame.links.steps_from(at);
    for to in steps {
        visit_step(frame, search, claim, at, *to)?;
    }
    Ok(())
}

// Begins a search in a procedure.
fn begin(frame: &Frame<'_, '_, '_>, search: &mut Search, procedure: u32) -> Result<(), OutOfMemory>
    requires frame { IsFrame frame.now }
    requires marks { AreMarks (question_of frame.now) search.old }
    requires within { procedure < (directed_shape frame.now.links.now).procedures }
    ensures spreads { OnOk result (Spreads (question_of frame.now) search.old search.new) }
    ensures has { OnOk result (Has search.new claims.Preserved ((directed_shape frame.now.links.now).entry procedure)) }
{
    let mark = Mark {
        point: frame.links.entry(procedure),
        reason: Reason::Beginning,
    };
    add(frame, search, Claim::Preserved, mark)
}

// Goes into a callee by a call to which valid paths bring the bit.
fn enter(
    frame: &Frame<'_, '_, '_>,
    search: &mut Search,
    claim: Claim,
    at: u32,
    callee: u32,
) -> Result<(), OutOfMemory>
    requires frame { IsFrame frame.now }
    requires marks { AreMarks (question_of frame.now) search.old }
    requires call { (site : ℕ) × CallsAt (directed_shape frame.now.links.now) site at callee }
    requires here { Has search.old claim at }
    ensures spreads { OnOk result (Spreads (question_of frame.now) search.old search.new) }
    ensures has { OnOk result (claim ≡ claims.Holds → (scope_of frame.now).skipped callee ≡ false
        → Has search.new claims.Holds ((directed_shape frame.now.links.now).entry callee)) }
{
    if !goes_into(frame, callee) {
        return Ok(());
    }
    let (site, _) = ends_of_call(frame, at);
    let to = frame.links.entry(callee);
    let reason = Reason::Own(Hop::Enter { site, from: at, to });
    match claim {
        Claim::Holds => add(frame, search, Claim::Holds, Mark { point: to, reason }),
        Claim::Generated => Ok(()),
        Claim::Preserved => Ok(()),
    }
}

// Carries a claim over a call whose callee has the effect that is wanted.
fn pass(
    frame: &Frame<'_, '_, '_>,
    search: &mut Search,
    claim: Claim,
    at: u32,
    callee: u32,
) -> Result<(), OutOfMemory>
    requires frame { IsFrame frame.now }
    requires marks { AreMarks (question_of frame.now) search.old }
    requires call { (site : ℕ) × CallsAt (directed_shape frame.now.links.now) site at callee }
    requires here { Has search.old claim at }
    requires through { Preserved (directed_shape frame.now.links.now) (transfer_for frame.now).kill
        ((directed_shape frame.now.links.now).exit callee) }
    ensures spreads { OnOk result (Spreads (question_of frame.now) search.old search.new) }
    ensures has { OnOk result (Has search.new claim (call_after frame.now.links.now.backward at)) }
{
    let (site, to) = ends_of_call(frame, at);
    let reason = Reason::Own(Hop::Pass {
        site,
        from: at,
        callee,
        to,
        effect: effect(frame),
    });
    add(frame, search, claim, Mark { point: to, reason })
}

// Goes over a call of a procedure that is not known to keep the bit.
fn visit_open_call(
    frame: &Frame<'_, '_, '_>,
    search: &mut Search,
    claim: Claim,
    at: u32,
    callee: u32,
) -> Result<(), OutOfMemory>
    requires frame { IsFrame frame.now }
    requires marks { AreMarks (question_of frame.now) search.old }
    requires call { (site : ℕ) × CallsAt (directed_shape frame.now.links.now) site at callee }
    requires here { Has search.old claim at }
    ensures spreads { OnOk result (Spreads (question_of frame.now) search.old search.new) }
    ensures begin { OnOk result (Has search.new claims.Preserved ((directed_shape frame.now.links.now).entry callee)) }
    ensures pass { OnOk result (Has search.old claims.Preserved ((directed_shape frame.now.links.now).exit callee)
        → Has search.new claim (call_after frame.now.links.now.backward at)) }
{
    begin(frame, search, callee)?;
    if !search.has(Claim::Preserved, frame.links.exit(callee)) {
        return Ok(());
    }
    pass(frame, search, claim, at, callee)
}

// Goes over one call, but for what it brings to the callee.
fn visit_passing(
    frame: &Frame<'_, '_, '_>,
    search: &mut Search,
    claim: Claim,
    at: u32,
    callee: u32,
) -> Result<(), OutOfMemory>
    requires frame { IsFrame frame.now }
    requires marks { AreMarks (question_of frame.now) search.old }
    requires call { (site : ℕ) × CallsAt (directed_shape frame.now.links.now) site at callee }
    requires here { Has search.old claim at }
    ensures spreads { OnOk result (Spreads (question_of frame.now) search.old search.new) }
    ensures begin { OnOk result ((scope_of frame.now).kept callee ≡ false
        → Has search.new claims.Preserved ((directed_shape frame.now.links.now).entry callee)) }
    ensures pass { OnOk result (Has search.old claims.Preserved ((directed_shape frame.now.links.now).exit callee)
        → Has search.new claim (call_after frame.now.links.now.backward at)) }
    ensures keep { OnOk result ((scope_of frame.now).kept callee ≡ true → Has search.new claim (call_after frame.now.links.now.backward at)) }
{
    if is_kept(frame, callee) {
        return pass(frame, search, claim, at, callee);
    }
    visit_open_call(frame, search, claim, at, callee)
}

// Goes over one call.
fn visit_call(
    frame: &Frame<'_, '_, '_>,
    search: &mut Search,
    claim: Claim,
    at: u32,
    callee: u32,
) -> Result<(), OutOfMemory>
    requires frame { IsFrame frame.now }
    requires marks { AreMarks (question_of frame.now) search.old }
    requires call { (site : ℕ) × CallsAt (directed_shape frame.now.links.now) site at callee }
    requires here { Has search.old claim at }
    ensures spreads { OnOk result (Spreads (question_of frame.now) search.old search.new) }
    ensures visited { OnOk result (IsCallVisited (question_of frame.now) claim at callee search.old search.new) }
{
    enter(frame, search, claim, at, callee)?;
    visit_passing(frame, search, claim, at, callee)
}

// Goes over the calls from a point.
fn visit_calls(
    frame: &Frame<'_, '_, '_>,
    search: &mut Search,
    claim: Claim,
    at: u32,
) -> Result<(), OutOfMemory>
    requires frame { IsFrame frame.now }
    requires marks { AreMarks (question_of frame.now) search.old }
    requires within { at < point_count frame.now.links.now.program }
    requires here { Has search.old claim at }
    ensures spreads { OnOk result (Spreads (question_of frame.now) search.old search.new) }
    ensures visited { OnOk result ((site p : ℕ) → CallsAt (directed_shape frame.now.links.now) site at p
        → IsCallVisited (question_of frame.now) claim at p search.old search.new) }
{
    let calls = frame.links.calls_from(at);
    for call in calls {
        visit_call(
            frame,
            search,
            claim,
            at,
            frame.links.procedure_of(call.exit),
        )?;
    }
    Ok(())
}

// Carries a claim over a call whose callee has the effect, if it was found of the call's point.
fn pass_known(
    frame: &Frame<'_, '_, '_>,
    search: &mut Search,
    claim: Claim,
    at: u32,
    callee: u32,
) -> Result<(), OutOfMemory>
    requires frame { IsFrame frame.now }
    requires marks { AreMarks (question_of frame.now) search.old }
    requires call { (site : ℕ) × CallsAt (directed_shape frame.now.links.now) site at callee }
    requires through { Preserved (directed_shape frame.now.links.now) (transfer_for frame.now).kill
        ((directed_shape frame.now.links.now).exit callee) }
    ensures spreads { OnOk result (Spreads (question_of frame.now) search.old search.new) }
    ensures has { OnOk result (Has search.old claim at → Has search.new claim (call_after frame.now.links.now.backward at)) }
{
    if !search.has(claim, at) {
        return Ok(());
    }
    pass(frame, search, claim, at, callee)
}

// Carries what is known at a call over it: its callee has the effect.
fn pass_all(
    frame: &Frame<'_, '_, '_>,
    search: &mut Search,
    at: u32,
    callee: u32,
) -> Result<(), OutOfMemory>
    requires frame { IsFrame frame.now }
    requires marks { AreMarks (question_of frame.now) search.old }
    requires call { (site : ℕ) × CallsAt (directed_shape frame.now.links.now) site at callee }
    requires through { Preserved (directed_shape frame.now.links.now) (transfer_for frame.now).kill
        ((directed_shape frame.now.links.now).exit callee) }
    ensures spreads { OnOk result (Spreads (question_of frame.now) search.old search.new) }
    ensures visited { OnOk result (IsCallerVisited (question_of frame.now) claims.Preserved at search.old search.new) }
{
    pass_known(frame, search, Claim::Preserved, at, callee)?;
    pass_known(frame, search, Claim::Generated, at, callee)?;
    pass_known(frame, search, Claim::Holds, at, callee)
}

// Marks the point behind a call whose callee generates the bit, if paths lead to the call.
fn generate_known(
    frame: &Frame<'_, '_, '_>,
    search: &mut Search,
    claim: Claim,
    at: u32,
    callee: u32,
) -> Result<(), OutOfMemory>
    requires frame { IsFrame frame.now }
    requires marks { AreMarks (question_of frame.now) search.old }
    requires call { (site : ℕ) × CallsAt (directed_shape frame.now.links.now) site at callee }
    requires through { Generated (directed_shape frame.now.links.now) (transfer_for frame.now) ((directed_shape frame.now.links.now).exit callee) }
    ensures spreads { OnOk result (Spreads (question_of frame.now) search.old search.new) }
    ensures has { OnOk result (BaseHas frame.now.base.now claim at → Has search.new claim (call_after frame.now.links.now.backward at)) }
{
    if !based(frame, claim, at) {
        return Ok(());
    }
    let (site, to) = ends_of_call(frame, at);
    let reason = Reason::Base(Hop::Pass {
        site,
        from: at,
        callee,
        to,
        effect: Effect::Generates,
    });
    add(frame, search, claim, Mark { point: to, reason })
}

// Marks the point behind a call whose callee generates the bit.
fn generate_all(
    frame: &Frame<'_, '_, '_>,
    search: &mut Search,
    at: u32,
    callee: u32,
) -> Result<(), OutOfMemory>
    requires frame { IsFrame frame.now }
    requires marks { AreMarks (question_of frame.now) search.old }
    requires call { (site : ℕ) × CallsAt (directed_shape frame.now.links.now) site at callee }
    requires through { Generated (directed_shape frame.now.links.now) (transfer_for frame.now) ((directed_shape frame.now.links.now).exit callee) }
    ensures spreads { OnOk result (Spreads (question_of frame.now) search.old search.new) }
    ensures visited { OnOk result (IsCallerVisited (question_of frame.now) claims.Generated at search.old search.new) }
{
    generate_known(frame, search, Claim::Generated, at, callee)?;
    generate_known(frame, search, Claim::Holds, at, callee)
}

// Goes over one call of a callee at whose exit a claim was found.
fn visit_caller(
    frame: &Frame<'_, '_, '_>,
    search: &mut Search,
    claim: Claim,
    at: u32,
    callee: u32,
) -> Result<(), OutOfMemory>
    requires frame { IsFrame frame.now }
    requires marks { AreMarks (question_of frame.now) search.old }
    requires call { (site : ℕ) × CallsAt (directed_shape frame.now.links.now) site at callee }
    requires here { Has search.old claim ((directed_shape frame.now.links.now).exit callee) }
    ensures spreads { OnOk result (Spreads (question_of frame.now) search.old search.new) }
    ensures visited { OnOk result (IsCallerVisited (question_of frame.now) claim at search.old search.new) }
{
    match claim {
        Claim::Holds => Ok(()),
        Claim::Generated => generate_all(frame, search, at, callee),
        Claim::Preserved => pass_all(frame, search, at, callee),
    }
}

// Goes over the calls that are left at a point.
fn visit_callers(
    frame: &Frame<'_, '_, '_>,
    search: &mut Search,
    claim: Claim,
    at: u32,
) -> Result<(), OutOfMemory>
    requires frame { IsFrame frame.now }
    requires marks { AreMarks (question_of frame.now) search.old }
    requires within { at < point_count frame.now.links.now.program }
    requires here { Has search.old claim at }
    ensures spreads { OnOk result (Spreads (question_of frame.now) search.old search.new) }
    ensures visited { OnOk result ((site y p : ℕ) → CallsAt (directed_shape frame.now.links.now) site y p
        → at ≡ (directed_shape frame.now.links.now).exit p → IsCallerVisited (question_of frame.now) claim y search.old search.new) }
{
    let callee = frame.links.procedure_of(at);
    let callers = frame.links.callers_of(at);
    for caller in callers {
        visit_caller(frame, search, claim, *caller, callee)?;
    }
    Ok(())
}

/// Goes over all that waits for a claim of a point.
pub fn visit(
    frame: &Frame<'_, '_, '_>,
    search: &mut Search,
    claim: Claim,
    at: u32,
) -> Result<(), OutOfMemory>
    requires frame { IsFrame frame.now }
    requires marks { AreMarks (question_of frame.now) search.old }
    requires within { at < point_count frame.now.links.now.program }
    requires here { Has search.old claim at }
    ensures spreads { OnOk result (Spreads (question_of frame.now) search.old search.new) }
    ensures visited { OnOk result (IsVisited (question_of frame.now) claim at search.old search.new) }
{
    visit_steps(frame, search, claim, at)?;
    visit_calls(frame, search, claim, at)?;
    visit_callers(frame, search, claim, at)
}
