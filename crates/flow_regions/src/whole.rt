// Paths to all points, and the whole tree of calls.
ghost use Rattle.std.specs.Prelude.{IfOk};
ghost use Rattle.flow_regions.specs.code.Ways.{AreWays, IsTree};

use crate::OutOfMemory;
use crate::search::{NONE, find};
use crate::ways::{Ways, list_of, tree_of};
use flow_links::Links;
use std::alloc::Global;

/// Ways to all points that are reached from their procedures' entries, and the tree of calls of all procedures that are entered. Fails only where
/// memory runs out.
pub fn all_ways(alloc: Global, links: &Links) -> Result<Ways, OutOfMemory>
    ensures ways { IfOk result (λ ways. AreWays links.now ways.list.items) }
    ensures tree { IfOk result (λ ways. IsTree links.now ways.list.items ways.tree.items) }
{
    let found = find(alloc, links)?;
    let mut numbers = vec![in alloc; NONE; links.points() as usize]?;
    let list = list_of(
        alloc,
        links,
        &found,
        found.order.as_slice(),
        numbers.as_mut_slice(),
    )?;
    let wanted = vec![in alloc; true; links.procedures() as usize]?;
    let tree = tree_of(
        alloc,
        links,
        list.as_slice(),
        numbers.as_slice(),
        wanted.as_slice(),
        &found,
    )?;
    Ok(Ways { list, tree })
}
