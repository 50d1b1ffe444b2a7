// Numbers that do not rise along arcs, by which the search for components is cut.

ghost use Rattle.std.specs.Prelude.{◌≡◌, ◌<◌, ◌≤◌, All, IfOk, length, slice_index, true};
ghost use Rattle.graph_components.specs.code.Levels.{AreLevels};
ghost use Rattle.graph_components.specs.code.Targets.{AreWithin};

use crate::OutOfMemory;
use crate::arc::Arc;
use crate::lists::{NodeList, reversed_arcs, target_lists};
use crate::walk::Walk;
use std::alloc::Global;

// All nodes, each behind those from which arcs lead to it, as far as they do not lead to one another.
fn sources_first(
    alloc: Global,
    behind: &[NodeList],
    count: u32,
    most: usize,
) -> Result<Walk, OutOfMemory> {
    let mut walk = Walk::new(alloc, count)?;
    for node in 0..count {
        walk.walk_from(behind, node, most)?;
    }
    Ok(walk)
}

// Gives these nodes a number.
fn put_numbers(numbers: &mut Vec<u32>, nodes: &[u32], number: u32)
    ensures { length numbers.new.items ≡ length numbers.old.items }
{
    for node in nodes {
        if let Some(room) = numbers.get_mut(*node as usize) {
            *room = number;
        }
    }
}

// Numbers of components (Sharir 1981): nodes are taken in the reverse of the order in which a walk against the arcs leaves them, and what a walk
// along the arcs then leaves from one of them on is a component.
fn guessed_levels(
    alloc: Global,
    ahead: &[NodeList],
    behind: &[NodeList],
    count: u32,
    most: usize,
) -> Result<Vec<u32>, OutOfMemory>
    ensures { IfOk result (λ levels. length levels.items ≡ count) }
{
    let firsts = sources_first(alloc, behind, count, most)?;
    let mut walk = Walk::new(alloc, count)?;
    let mut levels = vec![in alloc; 0u32; count as usize]?;
    let mut number: u32 = 0;
    for first in firsts.left().iter().rev() {
        let before = walk.left().len();
        walk.walk_from(ahead, *first, most)?;
        let left = walk.left();
        put_numbers(&mut levels, &left[before.min(left.len())..], number);
        number = number.saturating_add(1);
    }
    Ok(levels)
}

// Whether no arc leads to a higher number.
fn are_levels(arcs: &[Arc], levels: &[u32], count: u32) -> bool
    requires within { AreWithin count arcs.now }
    requires count { length levels.now ≡ count }
    ensures { result ≡ true → All (λ arc. slice_index levels.now arc.to ≤ slice_index levels.now arc.from) arcs.now }
{
    for arc in arcs {
        if levels[arc.from as usize] < levels[arc.to as usize] {
            return false;
        }
    }
    true
}

/// A number for each of so many nodes that does not rise along any arc. Those of components do not; should others have been found, all are 0.
pub(crate) fn levels_of(alloc: Global, arcs: &[Arc], count: u32) -> Result<Vec<u32>, OutOfMemory>
    requires { AreWithin count arcs.now }
    ensures { IfOk result (λ levels. AreLevels arcs.now count levels.items) }
{
    let reversed = reversed_arcs(alloc, arcs)?;
    let ahead = target_lists(alloc, arcs, count)?;
    let behind = target_lists(alloc, reversed.as_slice(), count)?;
    let most = arcs.len().saturating_add(count as usize);
    let levels = guessed_levels(alloc, ahead.as_slice(), behind.as_slice(), count, most)?;
    if are_levels(arcs, levels.as_slice(), count) {
        return Ok(levels);
    }
    vec![in alloc; 0u32; count as usize]
}
