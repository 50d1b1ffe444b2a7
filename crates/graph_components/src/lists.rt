// The nodes to which arcs lead, by the node that they leave.

ghost use Rattle.std.specs.Prelude.{◌≡◌, ◌<◌, [], All, IfOk, OnOk, length, map};
ghost use Rattle.flow_graph.specs.code.NumberLists.{AreLists, contents, with_last};
ghost use Rattle.graph_components.specs.code.Targets.{AreWithin, reversed_arc, targets_of};

use crate::OutOfMemory;
use crate::arc::Arc;
use smallvec::SmallVec;
use std::alloc::Global;

/// A list of nodes; a short one takes no block of its own.
pub(crate) type NodeList = SmallVec<u32, 4, Global>;

// So many empty lists.
fn empty_lists(alloc: Global, count: usize) -> Result<Vec<NodeList>, OutOfMemory>
    ensures { IfOk result (λ lists. AreLists (contents lists.items) count (λ _. [])) }
{
    let mut lists = Vec::with_capacity(alloc, count)?;
    for _ in 0..count {
        lists.push(NodeList::new(alloc))?;
    }
    Ok(lists)
}

// Puts a node last in the list of another.
fn put_last(lists: &mut Vec<NodeList>, index: u32, node: u32) -> Result<(), OutOfMemory>
    requires { index < length (contents lists.old.items) }
    ensures { OnOk result (contents lists.new.items ≡ with_last (contents lists.old.items) index node) }
{
    let list = &mut lists[index as usize];
    list.push(node)?;
    Ok(())
}

/// For each of so many nodes those to which arcs lead from it.
pub(crate) fn target_lists(
    alloc: Global,
    arcs: &[Arc],
    count: u32,
) -> Result<Vec<NodeList>, OutOfMemory>
    requires { AreWithin count arcs.now }
    ensures { IfOk result (λ lists. AreLists (contents lists.items) count (targets_of arcs.now)) }
{
    let mut lists = empty_lists(alloc, count as usize)?;
    for arc in arcs {
        put_last(&mut lists, arc.from, arc.to)?;
    }
    Ok(lists)
}

/// The arcs the other way round.
pub(crate) fn reversed_arcs(alloc: Global, arcs: &[Arc]) -> Result<Vec<Arc>, OutOfMemory>
    ensures { IfOk result (λ reversed. reversed.items ≡ map reversed_arc arcs.now) }
{
    let mut reversed = Vec::with_capacity(alloc, arcs.len())?;
    for arc in arcs {
        let turned = Arc {
            from: arc.to,
            to: arc.from,
        };
        reversed.push(turned)?;
    }
    Ok(reversed)
}
