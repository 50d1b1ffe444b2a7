// The search for all nodes to which one leads.

ghost use Rattle.std.specs.Prelude.{◌≡◌, ◌↔◌, ℕ, ◌<◌, ◌≤◌, All, Contains, IfOk, OnOk, fold, length, slice_index};
ghost use Rattle.flow_graph.specs.code.NumberLists.{AreLists, contents};
ghost use Rattle.flow_graph.specs.code.Searching.{search_of, with_known};
ghost use Rattle.graph_components.specs.Components.{Leads};
ghost use Rattle.graph_components.specs.code.Marks.{AreUpTo, marked_by};
ghost use Rattle.graph_components.specs.code.Targets.{AreWithin, targets_of};

use crate::OutOfMemory;
use crate::arc::Arc;
use crate::lists::NodeList;
use std::alloc::Global;

// Marks a node; where it was not marked, it is put to the work.
fn mark_node(
    marks: &mut Vec<u32>,
    work: &mut Vec<u32>,
    stamp: u32,
    node: u32,
) -> Result<(), OutOfMemory>
    requires { node < length marks.old.items }
    ensures marked { OnOk result (search_of (marked_by stamp marks.new.items) work.new.items
        ≡ with_known (search_of (marked_by stamp marks.old.items) work.old.items) node) }
    ensures up_to { OnOk result (AreUpTo stamp marks.old.items → AreUpTo stamp marks.new.items) }
{
    let was_marked = marks[node as usize] == stamp;
    marks[node as usize] = stamp;
    if !was_marked {
        work.push(node)?;
    }
    Ok(())
}

// Marks each of some nodes.
fn mark_nodes(
    marks: &mut Vec<u32>,
    work: &mut Vec<u32>,
    stamp: u32,
    nodes: &[u32],
) -> Result<(), OutOfMemory>
    requires { All (λ node. node < length marks.old.items) nodes.now }
    ensures marked { OnOk result (search_of (marked_by stamp marks.new.items) work.new.items
        ≡ fold with_known (search_of (marked_by stamp marks.old.items) work.old.items) nodes.now) }
    ensures up_to { OnOk result (AreUpTo stamp marks.old.items → AreUpTo stamp marks.new.items) }
{
    for node in nodes {
        mark_node(marks, work, stamp, *node)?;
    }
    Ok(())
}

/// All nodes to which one leads, each once; they are marked. The marks of former searches are lower.
///
/// It goes once over the arcs between these nodes.
pub(crate) fn reached_from(
    alloc: Global,
    arcs: &[Arc],
    lists: &[NodeList],
    marks: &mut Vec<u32>,
    stamp: u32,
    start: u32,
) -> Result<Vec<u32>, OutOfMemory>
    requires within { AreWithin (length marks.old.items) arcs.now }
    requires lists { AreLists (contents lists.now) (length marks.old.items) (targets_of arcs.now) }
    requires start { start < length marks.old.items }
    requires fresh { All (λ mark. mark < stamp) marks.old.items }
    requires some { 0 < stamp }
    ensures count { OnOk result (length marks.new.items ≡ length marks.old.items) }
    ensures up_to { OnOk result (AreUpTo stamp marks.new.items) }
    ensures marked { OnOk result ((node : ℕ) → (slice_index marks.new.items node ≡ stamp) ↔ Leads arcs.now start node) }
    ensures reached { IfOk result (λ reached. (node : ℕ) → Contains reached.items node ↔ Leads arcs.now start node) }
{
    // They say what the lists are.
    let _ = arcs;
    let mut reached = Vec::new(alloc);
    let mut work = Vec::new(alloc);
    mark_node(marks, &mut work, stamp, start)?;
    while let Some(node) = work.pop() {
        reached.push(node)?;
        mark_nodes(marks, &mut work, stamp, lists[node as usize].as_slice())?;
    }
    Ok(reached)
}
