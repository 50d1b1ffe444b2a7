// The components of a graph.

ghost use Rattle.std.specs.Prelude.{◌≡◌, ℕ, ◌+◌, ◌<◌, ◌≤◌, ◌^◌, All, IfOk, OnOk, length, slice_index, if◌then◌else◌};
ghost use Rattle.graph_components.specs.Components.{AreComponents};
ghost use Rattle.graph_components.specs.code.Found.{AddsComponent, AreFound, AreNumbered, AreWays};
ghost use Rattle.graph_components.specs.code.Levels.{AreLevels, is_level};
ghost use Rattle.graph_components.specs.code.Marks.{AreUpTo, in_both};
ghost use Rattle.graph_components.specs.code.Targets.{AreWithin};

use crate::OutOfMemory;
use crate::arc::Arc;
use crate::inner::inner_arcs;
use crate::levels::levels_of;
use crate::lists::{NodeList, reversed_arcs, target_lists};
use crate::reach::reached_from;
use std::alloc::Global;

// Arcs both ways round, with where they lead from each node.
#[derive(Drop)]
struct Ways<'a> {
    arcs: &'a [Arc],
    reversed: &'a [Arc],
    ahead: &'a [NodeList],
    behind: &'a [NodeList],
}

// The marks of searches both ways, and the numbers of the components that were found.
#[derive(Drop)]
struct Found {
    ahead: Vec<u32>,
    behind: Vec<u32>,
    numbers: Vec<u32>,
}

// Numbers those of some nodes that have the mark of a search.
fn number_marked(numbers: &mut Vec<u32>, nodes: &[u32], marks: &[u32], stamp: u32)
    requires inside { All (λ node. node < length numbers.old.items) nodes.now }
    requires marks { length marks.now ≡ length numbers.old.items }
    ensures count { length numbers.new.items ≡ length numbers.old.items }
    ensures each { (node : ℕ) → node < length numbers.old.items → slice_index numbers.new.items node
        ≡ (if in_both nodes.now marks.now stamp node then stamp else slice_index numbers.old.items node) }
{
    for node in nodes {
        if marks[*node as usize] == stamp {
            numbers[*node as usize] = stamp;
        }
    }
}

// Numbers the component of a node.
fn number_component(
    alloc: Global,
    ways: &Ways<'_>,
    found: &mut Found,
    start: u32,
) -> Result<(), OutOfMemory>
    requires few { length found.old.numbers.items ≤ 2 ^ 31 }
    requires ways { AreWays (length found.old.numbers.items) ways.now }
    requires start { start < length found.old.numbers.items }
    requires ahead_count { length found.old.ahead.items ≡ length found.old.numbers.items }
    requires ahead { AreUpTo start found.old.ahead.items }
    requires behind_count { length found.old.behind.items ≡ length found.old.numbers.items }
    requires behind { AreUpTo start found.old.behind.items }
    ensures adds { OnOk result (AddsComponent ways.now.arcs.now (length found.old.numbers.items) start found.old.numbers.items
        found.new.numbers.items) }
    ensures ahead_count { OnOk result (length found.new.ahead.items ≡ length found.old.numbers.items) }
    ensures ahead { OnOk result (AreUpTo (start + 1) found.new.ahead.items) }
    ensures behind_count { OnOk result (length found.new.behind.items ≡ length found.old.numbers.items) }
    ensures behind { OnOk result (AreUpTo (start + 1) found.new.behind.items) }
{
    let stamp = start + 1;
    let ahead = reached_from(alloc, ways.arcs, ways.ahead, &mut found.ahead, stamp, start)?;
    let _ = reached_from(
        alloc,
        ways.reversed,
        ways.behind,
        &mut found.behind,
        stamp,
        start,
    )?;
    number_marked(
        &mut found.numbers,
        ahead.as_slice(),
        found.behind.as_slice(),
        stamp,
    );
    Ok(())
}

// Numbers the component of a node that has no number.
fn number_if_new(
    alloc: Global,
    ways: &Ways<'_>,
    found: &mut Found,
    nodes: u32,
    start: u32,
) -> Result<(), OutOfMemory>
    requires few { nodes ≤ 2 ^ 31 }
    requires ways { AreWays nodes ways.now }
    requires start { start < nodes }
    requires found { AreFound ways.now.arcs.now nodes start found.old }
    ensures { OnOk result (AreFound ways.now.arcs.now nodes (start + 1) found.new) }
{
    let _ = nodes;
    if found.numbers[start as usize] != 0 {
        return Ok(());
    }
    number_component(alloc, ways, found, start)?;
    Ok(())
}

// Numbers all components.
fn number_all(alloc: Global, ways: &Ways<'_>, nodes: u32) -> Result<Vec<u32>, OutOfMemory>
    requires few { nodes ≤ 2 ^ 31 }
    requires ways { AreWays nodes ways.now }
    ensures { IfOk result (λ numbers. AreComponents ways.now.arcs.now nodes numbers.items) }
{
    let mut found = Found {
        ahead: vec![in alloc; 0u32; nodes as usize]?,
        behind: vec![in alloc; 0u32; nodes as usize]?,
        numbers: vec![in alloc; 0u32; nodes as usize]?,
    };
    for start in 0..nodes {
        number_if_new(alloc, ways, &mut found, nodes, start)?;
    }
    let Found {
        ahead: _,
        behind: _,
        numbers,
    } = found;
    Ok(numbers)
}

// The components of the graph that has these arcs alone, which lie within components of the whole.
fn components_of_inner(alloc: Global, inner: &[Arc], nodes: u32) -> Result<Vec<u32>, OutOfMemory>
    requires few { nodes ≤ 2 ^ 31 }
    requires within { AreWithin nodes inner.now }
    ensures { IfOk result (λ numbers. AreComponents inner.now nodes numbers.items) }
{
    let reversed = reversed_arcs(alloc, inner)?;
    let ahead = target_lists(alloc, inner, nodes)?;
    let behind = target_lists(alloc, reversed.as_slice(), nodes)?;
    let ways = Ways {
        arcs: inner,
        reversed: reversed.as_slice(),
        ahead: ahead.as_slice(),
        behind: behind.as_slice(),
    };
    number_all(alloc, &ways, nodes)
}

/// The components of a graph with so many nodes and these arcs: a number for each node, which two have in common exactly where they lead to each
/// other.
///
/// The work is linear in the nodes and the arcs. Numbers of components are found first, and looked at arc by arc: they do not rise along any arc,
/// and so nodes that lead to each other have the same. Two searches from a node, along the arcs between nodes of its number and against them, then
/// find its component. Should numbers have been wrong, which the contract does not rest on, the searches go further.
///
/// Fails only where memory runs out.
pub fn components_of(alloc: Global, arcs: &[Arc], nodes: u32) -> Result<Vec<u32>, OutOfMemory>
    requires few { nodes ≤ 2 ^ 31 }
    requires within { All (λ arc. (arc.from < nodes) × (arc.to < nodes)) arcs.now }
    ensures { IfOk result (λ numbers. AreComponents arcs.now nodes numbers.items) }
{
    let levels = levels_of(alloc, arcs, nodes)?;
    let inner = inner_arcs(alloc, arcs, levels.as_slice(), nodes)?;
    let numbers = components_of_inner(alloc, inner.as_slice(), nodes)?;
    Ok(numbers)
}
