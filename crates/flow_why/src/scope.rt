// What a search for a bit at one point leaves out: procedures that do not lead there, and those that cannot kill the bit.
ghost use Rattle.std.specs.Prelude.{◌≡◌, ◌<◌, ◌&&◌, ◌++◌, ◌∷◌, [], ℕ, true, false, not, IfOk, OnOk, length, slice_index_or};
ghost use Rattle.flow_graph.specs.declared.edge.Edge.TheVariants.{Step};
ghost use Rattle.flow_graph.specs.Paths.{IsEdge};
ghost use Rattle.flow_graph.specs.Points.{point_count};
ghost use Rattle.flow_links.specs.Shapes.{directed_shape};
ghost use Rattle.summary_equations.specs.Equations.{CallsAt, Preserved};
ghost use Rattle.flow_why.specs.code.Frames.{IsFrame, transfer_for};
ghost use Rattle.flow_why.specs.code.Scopes.{AreClosedUp, AreKept, IsLeftFor, MarkKills, Stays};

use crate::OutOfMemory;
use crate::claim::Claim;
use crate::frame::{Frame, Scope, kills};
use flow_links::Links;
use flow_regions::called;
use std::alloc::Global;

/// What a search leaves out, by procedure.
#[derive(Drop)]
pub struct LeftOut {
    /// Whether the bit is not brought to the procedure by its calls.
    pub skipped: Vec<bool>,
    /// Whether it is known that the procedure's calls keep the bit.
    pub kept: Vec<bool>,
}

impl LeftOut {
    /// The scope of a search that leaves this out.
    pub fn scope(&self) -> Scope<'_>
        ensures skipped { result.skipped.now ≡ self.now.skipped.items }
        ensures kept { result.kept.now ≡ self.now.kept.items }
    {
        Scope {
            skipped: self.skipped.as_slice(),
            kept: self.kept.as_slice(),
        }
    }
}

// Marks a procedure, if it is there. Whether it was not marked.
fn mark(marks: &mut [bool], procedure: u32) -> bool
    ensures count { length marks.new ≡ length marks.old }
    ensures stays { Stays marks.old marks.new }
    ensures here { procedure < length marks.old → slice_index_or marks.new procedure false ≡ true }
{
    let procedure = procedure as usize;
    if procedure >= marks.len() || marks[procedure] {
        return false;
    }
    marks[procedure] = true;
    true
}

// Marks the callers of a procedure. Whether one of them was not marked.
fn mark_callers(links: &Links, marks: &mut [bool], procedure: u32) -> bool
    requires there { procedure < (directed_shape links.now).procedures }
    ensures count { length marks.new ≡ length marks.old }
    ensures stays { Stays marks.old marks.new }
{
    // Their contracts tell that exits are points.
    let _ = links.points();
    let mut more = false;
    let callers = links.callers_of(links.exit(procedure));
    for caller in callers {
        if mark(&mut *marks, links.procedure_of(*caller)) {
            more = true;
        }
    }
    more
}

// Marks the callers of all marked procedures. Whether one of them was not marked.
fn mark_all_callers(links: &Links, marks: &mut [bool]) -> bool
    requires count { length marks.old ≡ (directed_shape links.now).procedures }
    ensures count { length marks.new ≡ length marks.old }
    ensures stays { Stays marks.old marks.new }
{
    let mut more = false;
    for procedure in 0..links.procedures() {
        if marks[procedure as usize] && mark_callers(links, &mut *marks, procedure) {
            more = true;
        }
    }
    more
}

// Marks callers as long as one was not marked.
fn spread(links: &Links, marks: &mut [bool])
    requires count { length marks.old ≡ (directed_shape links.now).procedures }
    ensures count { length marks.new ≡ length marks.old }
    ensures stays { Stays marks.old marks.new }
{
    for _ in 0..links.procedures() {
        if !mark_all_callers(links, &mut *marks) {
            return;
        }
    }
}

// Whether some mark is there.
fn is_some_marked(marks: &[bool]) -> bool
    ensures { result ≡ false → (p : ℕ) → slice_index_or marks.now p false ≡ false }
{
    for mark in marks {
        if *mark {
            return true;
        }
    }
    false
}

// Whether all callers of marked procedures are marked.
fn are_closed_up(alloc: Global, links: &Links, marks: &[bool]) -> Result<bool, OutOfMemory>
    requires count { length marks.now ≡ (directed_shape links.now).procedures }
    ensures { IfOk result (λ closed. closed ≡ true → AreClosedUp (directed_shape links.now) marks.now) }
{
    let called = called(alloc, links, marks)?;
    Ok(!is_some_marked(called.as_slice()))
}

// So many marks.
fn full_marks(alloc: Global, count: usize) -> Result<Vec<bool>, OutOfMemory>
    ensures count { IfOk result (λ marks. length marks.items ≡ count) }
    ensures each { IfOk result (λ marks. (p : ℕ) → p < count → slice_index_or marks.items p false ≡ true) }
{
    let marks = vec![in alloc; true; count]?;
    Ok(marks)
}

// Marks, and those of all callers of what is marked.
fn with_callers(alloc: Global, links: &Links, marks: Vec<bool>) -> Result<Vec<bool>, OutOfMemory>
    requires count { length marks.items ≡ (directed_shape links.now).procedures }
    ensures count { IfOk result (λ all. length all.items ≡ (directed_shape links.now).procedures) }
    ensures stays { IfOk result (λ all. (p : ℕ) → p < (directed_shape links.now).procedures → slice_index_or marks.items p false ≡ true
        → slice_index_or all.items p false ≡ true) }
    ensures closed { IfOk result (λ all. AreClosedUp (directed_shape links.now) all.items) }
{
    // Its contract tells that a point's procedure is there.
    let _ = links.points();
    let mut marks = marks;
    spread(links, marks.as_mut_slice());
    if are_closed_up(alloc, links, marks.as_slice())? {
        return Ok(marks);
    }
    full_marks(alloc, marks.len())
}

// Marks the procedure of a step that kills the bit.
fn mark_killing_step(frame: &Frame<'_, '_, '_>, marks: &mut [bool], at: u32, to: u32)
    requires frame { IsFrame frame.now }
    requires there { IsEdge (directed_shape frame.now.links.now) (Step at to) }
    requires count { length marks.old ≡ (directed_shape frame.now.links.now).procedures }
    ensures count { length marks.new ≡ length marks.old }
    ensures stays { Stays marks.old marks.new }
    ensures kills { (transfer_for frame.now).kill at to ≡ true
        → slice_index_or marks.new ((directed_shape frame.now.links.now).procedure_of at) false ≡ true }
{
    if kills(frame, at, to) {
        mark(marks, frame.links.procedure_of(at));
    }
}

// Marks the procedure of a point from which a step kills the bit.
fn mark_killing_point(frame: &Frame<'_, '_, '_>, marks: &mut [bool], at: u32)
    requires frame { IsFrame frame.now }
    requires within { at < point_count frame.now.links.now.program }
    requires count { length marks.old ≡ (directed_shape frame.now.links.now).procedures }
    ensures count { length marks.new ≡ length marks.old }
    ensures stays { Stays marks.old marks.new }
    ensures kills { (y : ℕ) → IsEdge (directed_shape frame.now.links.now) (Step at y) → (transfer_for frame.now).kill at y ≡ true
        → slice_index_or marks.new ((directed_shape frame.now.links.now).procedure_of at) false ≡ true }
{
    let steps = frame.links.steps_from(at);
    for to in steps {
        mark_killing_step(frame, &mut *marks, at, *to);
    }
}

// By procedure whether a step in it kills the bit.
fn killing(alloc: Global, frame: &Frame<'_, '_, '_>) -> Result<Vec<bool>, OutOfMemory>
    requires frame { IsFrame frame.now }
    ensures count { IfOk result (λ marks. length marks.items ≡ (directed_shape frame.now.links.now).procedures) }
    ensures kills { IfOk result (λ marks. MarkKills (directed_shape frame.now.links.now) (transfer_for frame.now) marks.items
        (point_count frame.now.links.now.program)) }
{
    let mut marks = vec![in alloc; false; frame.links.procedures() as usize]?;
    for at in 0..frame.links.points() {
        mark_killing_point(frame, marks.as_mut_slice(), at);
    }
    Ok(marks)
}

// Whether a procedure can't kill the bit, and has a path through it.
fn keeps(frame: &Frame<'_, '_, '_>, touched: &[bool], procedure: u32) -> bool
    requires frame { IsFrame frame.now }
    requires there { procedure < (directed_shape frame.now.links.now).procedures }
    requires count { length touched.now ≡ (directed_shape frame.now.links.now).procedures }
    requires kills { MarkKills (directed_shape frame.now.links.now) (transfer_for frame.now) touched.now
        (point_count frame.now.links.now.program) }
    requires closed { AreClosedUp (directed_shape frame.now.links.now) touched.now }
    ensures { result ≡ true → Preserved (directed_shape frame.now.links.now) (transfer_for frame.now).kill
        ((directed_shape frame.now.links.now).exit procedure) }
{
    !touched[procedure as usize]
        && frame
            .base
            .has(Claim::Preserved, frame.links.exit(procedure))
}

// Puts a mark behind others.
fn put_mark(marks: &mut Vec<bool>, mark: bool) -> Result<(), OutOfMemory>
    ensures { OnOk result (marks.new.items ≡ marks.old.items ++ mark ∷ []) }
{
    marks.push(mark)?;
    Ok(())
}

// By procedure whether its calls are known to keep the bit.
fn kept_of(alloc: Global, frame: &Frame<'_, '_, '_>) -> Result<Vec<bool>, OutOfMemory>
    requires frame { IsFrame frame.now }
    ensures { IfOk result (λ kept. AreKept (directed_shape frame.now.links.now) (transfer_for frame.now) kept.items) }
{
    let touched = killing(alloc, frame)?;
    let touched = with_callers(alloc, frame.links, touched)?;
    let mut kept = Vec::with_capacity(alloc, touched.len())?;
    for procedure in 0..frame.links.procedures() {
        put_mark(&mut kept, keeps(frame, touched.as_slice(), procedure))?;
    }
    Ok(kept)
}

// By procedure whether it does not lead to that of a point.
fn skipped_for(alloc: Global, links: &Links, at: u32) -> Result<Vec<bool>, OutOfMemory>
    requires { at < point_count links.now.program }
    ensures scope { IfOk result (λ skipped. (site x p : ℕ) → CallsAt (directed_shape links.now) site x p → slice_index_or skipped.items p false ≡ false
        → slice_index_or skipped.items ((directed_shape links.now).procedure_of x) false ≡ false) }
    ensures into { IfOk result (λ skipped. slice_index_or skipped.items ((directed_shape links.now).procedure_of at) false ≡ false) }
{
    // Its contract tells that a point's procedure is there.
    let _ = links.points();
    let mut leads = vec![in alloc; false; links.procedures() as usize]?;
    mark(leads.as_mut_slice(), links.procedure_of(at));
    let leads = with_callers(alloc, links, leads)?;
    let mut skipped = Vec::with_capacity(alloc, leads.len())?;
    for number in 0..leads.len() {
        put_mark(&mut skipped, !leads[number])?;
    }
    Ok(skipped)
}

/// What a search for a frame's bit at a point leaves out. Fails only where memory runs out.
pub fn left_for(alloc: Global, frame: &Frame<'_, '_, '_>, at: u32) -> Result<LeftOut, OutOfMemory>
    requires frame { IsFrame frame.now }
    requires at { at < point_count frame.now.links.now.program }
    ensures { IfOk result (IsLeftFor (directed_shape frame.now.links.now) (transfer_for frame.now) at) }
{
    let skipped = skipped_for(alloc, frame.links, at)?;
    let kept = kept_of(alloc, frame)?;
    Ok(LeftOut { skipped, kept })
}
