// Ranks of procedures: what a procedure calls has no higher one.
ghost use Rattle.std.specs.Prelude.{◌≡◌, ◌<◌, ◌≤◌, ℕ, true, false, IfOk, length, slice_index};
ghost use Rattle.flow_links.specs.Shapes.{directed_shape};
ghost use Rattle.flow_regions.specs.code.Ranks.{AreRanked, AreRankedTo, IsRanked};

use crate::OutOfMemory;
use flow_links::Links;
use std::alloc::Global;
use worklist::Worklist;

// So many rounds there are at most. What takes more is given up.
const MOST: u32 = 256;

// Raises the rank of a procedure to those of its callees. Whether it was lower than one of them.
fn raise(links: &Links, ranks: &mut [u32], procedure: u32) -> bool
    requires there { procedure < (directed_shape links.now).procedures }
    requires count { length ranks.old ≡ (directed_shape links.now).procedures }
    ensures count { length ranks.new ≡ length ranks.old }
    ensures same { result ≡ false → ranks.new ≡ ranks.old }
    ensures ranked { result ≡ false → IsRanked (directed_shape links.now) ranks.new procedure }
{
    // Its contract tells that procedures, points and edges fit together.
    let _ = links.points();
    let before = ranks[procedure as usize];
    let mut highest = before;
    let sites = links.sites_in(procedure);
    for site in sites {
        highest = highest.max(ranks[site.callee as usize]);
    }
    if highest == before {
        return false;
    }
    ranks[procedure as usize] = highest;
    true
}

// Raises all ranks once. Whether one of them was lower.
fn raise_all(links: &Links, ranks: &mut [u32]) -> bool
    requires { length ranks.old ≡ (directed_shape links.now).procedures }
    ensures count { length ranks.new ≡ length ranks.old }
    ensures ranked { result ≡ false → AreRanked (directed_shape links.now) ranks.new }
{
    // Its contract tells that a point's procedure is there.
    let _ = links.points();
    let mut raised = false;
    for procedure in 0..links.procedures() {
        raised = raise(links, ranks, procedure) | raised;
    }
    raised
}

// Raises ranks until none is lower than that of a callee. Whether it came so far.
fn settle(links: &Links, ranks: &mut [u32]) -> bool
    requires { length ranks.old ≡ (directed_shape links.now).procedures }
    ensures count { length ranks.new ≡ length ranks.old }
    ensures ranked { result ≡ true → AreRanked (directed_shape links.now) ranks.new }
{
    for _ in 0..MOST {
        if !raise_all(links, ranks) {
            return true;
        }
    }
    false
}

// Numbers of the procedures, callees first where it can be.
fn numbers(alloc: Global, links: &Links) -> Result<Vec<u32>, OutOfMemory>
    ensures { IfOk result (λ ranks. length ranks.items ≡ (directed_shape links.now).procedures) }
{
    let count = links.procedures();
    let mut ranks = vec![in alloc; 0u32; count as usize]?;
    let mut left = Worklist::none(alloc, links.call_order())?;
    left.mark_all();
    for place in 0..count {
        if let Some(procedure) = left.take() {
            if procedure < ranks.len() {
                ranks[procedure] = count - place;
            }
        }
    }
    Ok(ranks)
}

// So many numbers, all zero.
fn zeros(alloc: Global, count: u32) -> Result<Vec<u32>, OutOfMemory>
    ensures count { IfOk result (λ ranks. length ranks.items ≡ count) }
    ensures zero { IfOk result (λ ranks. (k : ℕ) → slice_index ranks.items k ≡ 0) }
{
    let ranks = vec![in alloc; 0u32; count as usize]?;
    Ok(ranks)
}

// One rank for all procedures.
fn no_ranks(alloc: Global, links: &Links) -> Result<Vec<u32>, OutOfMemory>
    ensures count { IfOk result (λ ranks. length ranks.items ≡ (directed_shape links.now).procedures) }
    ensures ranked { IfOk result (λ ranks. AreRanked (directed_shape links.now) ranks.items) }
{
    let ranks = zeros(alloc, links.procedures())?;
    Ok(ranks)
}

/// A rank of each procedure, none higher than those of its callers. Fails only where memory runs out.
pub fn ranks_of(alloc: Global, links: &Links) -> Result<Vec<u32>, OutOfMemory>
    ensures count { IfOk result (λ ranks. length ranks.items ≡ (directed_shape links.now).procedures) }
    ensures ranked { IfOk result (λ ranks. AreRanked (directed_shape links.now) ranks.items) }
{
    let mut ranks = numbers(alloc, links)?;
    if settle(links, ranks.as_mut_slice()) {
        return Ok(ranks);
    }
    no_ranks(alloc, links)
}
