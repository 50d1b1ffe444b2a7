// What is known of the procedures outside a region.
ghost use Rattle.std.specs.Prelude.{◌≡◌, ◌<◌, ◌≤◌, ◌++◌, ◌∷◌, [], ℕ, true, false, IfOk, OnOk, length, slice_index, slice_index_or};
ghost use Rattle.flow_links.specs.Shapes.{directed_shape};
ghost use Rattle.summary_equations.specs.Equations.{CallsAt};
ghost use Rattle.flow_regions.specs.code.Outside.{AreCalled, AreLeading, IsCalledOnlyInside};
ghost use Rattle.flow_regions.specs.code.Ranks.{AreRanked};

use crate::OutOfMemory;
use flow_links::Links;
use std::alloc::Global;

// The lowest rank of those inside.
fn lowest_inside(ranks: &[u32], inside: &[bool]) -> u32
    requires { length ranks.now ≡ length inside.now }
    ensures { (p : ℕ) → p < length inside.now → slice_index_or inside.now p false ≡ true → result ≤ slice_index ranks.now p }
{
    let mut lowest = u32::MAX;
    for procedure in 0..inside.len() {
        if inside[procedure] {
            lowest = lowest.min(ranks[procedure]);
        }
    }
    lowest
}

/// By procedure whether a call of it may lead to one inside: its rank is no lower than the lowest there. Fails only where memory runs out.
pub fn leading(
    alloc: Global,
    links: &Links,
    ranks: &[u32],
    inside: &[bool],
) -> Result<Vec<bool>, OutOfMemory>
    requires ranked { AreRanked (directed_shape links.now) ranks.now }
    requires count { length ranks.now ≡ (directed_shape links.now).procedures }
    requires inside { length inside.now ≡ (directed_shape links.now).procedures }
    ensures count { IfOk result (λ leads. length leads.items ≡ (directed_shape links.now).procedures) }
    ensures leads { IfOk result (λ leads. AreLeading (directed_shape links.now) inside.now leads.items) }
{
    // Its contract tells that a point's procedure is there.
    let _ = links.points();
    let lowest = lowest_inside(ranks, inside);
    let mut leads = Vec::with_capacity(alloc, ranks.len())?;
    for rank in ranks {
        leads.push(lowest <= *rank)?;
    }
    Ok(leads)
}

// Whether a procedure is called from outside.
fn is_called(links: &Links, inside: &[bool], procedure: u32) -> bool
    requires there { procedure < (directed_shape links.now).procedures }
    requires inside { length inside.now ≡ (directed_shape links.now).procedures }
    ensures { result ≡ false → IsCalledOnlyInside (directed_shape links.now) inside.now procedure }
{
    // Their contracts tell that exits are points, and points' procedures are there.
    let _ = links.points();
    let callers = links.callers_of(links.exit(procedure));
    for caller in callers {
        if !inside[links.procedure_of(*caller) as usize] {
            return true;
        }
    }
    false
}

// Whether a procedure is inside and called from outside.
fn is_marked(links: &Links, inside: &[bool], procedure: u32) -> bool
    requires there { procedure < (directed_shape links.now).procedures }
    requires inside { length inside.now ≡ (directed_shape links.now).procedures }
    ensures { (site x : ℕ) → CallsAt (directed_shape links.now) site x procedure
        → slice_index_or inside.now ((directed_shape links.now).procedure_of x) false ≡ false → slice_index_or inside.now procedure false ≡ true
        → result ≡ true }
{
    if !inside[procedure as usize] {
        return false;
    }
    is_called(links, inside, procedure)
}

// Puts a mark behind others.
fn put_mark(marks: &mut Vec<bool>, mark: bool) -> Result<(), OutOfMemory>
    ensures { OnOk result (marks.new.items ≡ marks.old.items ++ mark ∷ []) }
{
    marks.push(mark)?;
    Ok(())
}

/// By procedure whether it is called from outside. Fails only where memory runs out.
pub fn called(alloc: Global, links: &Links, inside: &[bool]) -> Result<Vec<bool>, OutOfMemory>
    requires { length inside.now ≡ (directed_shape links.now).procedures }
    ensures count { IfOk result (λ called. length called.items ≡ (directed_shape links.now).procedures) }
    ensures called { IfOk result (λ called. AreCalled (directed_shape links.now) inside.now called.items (directed_shape links.now).procedures) }
{
    let mut called = Vec::with_capacity(alloc, inside.len())?;
    for procedure in 0..links.procedures() {
        put_mark(&mut called, is_marked(links, inside, procedure))?;
    }
    Ok(called)
}
