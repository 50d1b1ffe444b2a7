// Which points lead to marked ones through some points alone.

ghost use Rattle.std.specs.Prelude.{◌≡◌, ◌∷◌, ℕ, ◌<◌, [], false, true, length, fold, get_or, All, IfOk, OnOk};
ghost use Rattle.std.specs.List.{filter, range_with_len};
ghost use Rattle.flow_graph.specs.code.NumberLists.{AreLists, contents, with_last};
ghost use Rattle.flow_graph.specs.code.Searching.{AreSources, search_of, with_known};
ghost use Rattle.flow_graph.specs.Paths.{target_of};
ghost use Rattle.flow_graph.specs.Points.{point_count};
ghost use Rattle.flow_lints.specs.code.Leading.{TellLeadingAmong};

use crate::OutOfMemory;
use flow_graph::{Edge, Graph};
use smallvec::SmallVec;
use std::alloc::Global;

// A list of numbers; a short one takes no block of its own.
type NumberList = SmallVec<u32, 4, Global>;

// So many empty lists.
fn empty_lists(alloc: Global, count: usize) -> Result<Vec<NumberList>, OutOfMemory>
    ensures { IfOk result (λ lists. AreLists (contents lists.items) count (λ _. [])) }
{
    let mut lists = Vec::with_capacity(alloc, count)?;
    for _ in 0..count {
        lists.push(NumberList::new(alloc))?;
    }
    Ok(lists)
}

// Puts a number last in the list of an index.
fn put_last(lists: &mut Vec<NumberList>, index: u32, number: u32) -> Result<(), OutOfMemory>
    requires { index < length (contents lists.old.items) }
    ensures { OnOk result (contents lists.new.items ≡ with_last (contents lists.old.items) index number) }
{
    let list = &mut lists[index as usize];
    list.push(number)?;
    Ok(())
}

// The point to which an edge leads.
fn end_of(edge: Edge) -> u32
    ensures { result ≡ target_of edge }
{
    match edge {
        Edge::Step { to, .. } => to,
        Edge::Call { to, .. } => to,
        Edge::Ret { to, .. } => to,
    }
}

// Puts the point that some edges leave last in the list of each point to which one leads.
fn put_source(lists: &mut Vec<NumberList>, edges: &[Edge], source: u32) -> Result<(), OutOfMemory>
    requires { All (λ edge. target_of edge < length (contents lists.old.items)) edges.now }
    ensures { OnOk result
        (contents lists.new.items ≡ fold (λ known edge. with_last known (target_of edge) source) (contents lists.old.items) edges.now) }
{
    for edge in edges {
        put_last(lists, end_of(*edge), source)?;
    }
    Ok(())
}

// For each point the points from which an edge leads to it.
fn sources(alloc: Global, graph: &Graph<'_>) -> Result<Vec<NumberList>, OutOfMemory>
    ensures { IfOk result (λ lists. AreSources graph.now (contents lists.items)) }
{
    let count = graph.points();
    let mut lists = empty_lists(alloc, count as usize)?;
    for point in 0..count {
        let edges = graph.succ(alloc, point)?;
        put_source(&mut lists, edges.as_slice(), point)?;
    }
    Ok(lists)
}

// The marked ones of so many points.
fn marked_points(alloc: Global, marked: &[bool], count: u32) -> Result<Vec<u32>, OutOfMemory>
    requires { length marked.now ≡ count }
    ensures { IfOk result (λ points. points.items ≡ filter (λ point. get_or marked.now point false) (range_with_len 0 (length marked.now))) }
{
    let mut points = Vec::new(alloc);
    for point in 0..count {
        if marked[point as usize] {
            points.push(point)?;
        }
    }
    Ok(points)
}

// Makes a point known; where it was not, it is put to the work.
fn know_point(known: &mut Vec<bool>, work: &mut Vec<u32>, point: u32) -> Result<(), OutOfMemory>
    requires { point < length known.old.items }
    ensures { OnOk result (search_of known.new.items work.new.items ≡ with_known (search_of known.old.items work.old.items) point) }
{
    let was_known = known[point as usize];
    known[point as usize] = true;
    if !was_known {
        work.push(point)?;
    }
    Ok(())
}

// Makes a point known that is among these, and no other.
fn know_if(
    known: &mut Vec<bool>,
    work: &mut Vec<u32>,
    among: &[bool],
    point: u32,
) -> Result<(), OutOfMemory>
    requires known { point < length known.old.items }
    requires among { point < length among.now }
    ensures { OnOk result (search_of known.new.items work.new.items
        ≡ fold with_known (search_of known.old.items work.old.items) (filter (λ x. get_or among.now x false) (point ∷ []))) }
{
    if among[point as usize] {
        know_point(known, work, point)?;
    }
    Ok(())
}

// Makes each of some points known that is among these.
fn know_all(
    known: &mut Vec<bool>,
    work: &mut Vec<u32>,
    among: &[bool],
    points: &[u32],
) -> Result<(), OutOfMemory>
    requires known { All (λ point. point < length known.old.items) points.now }
    requires among { All (λ point. point < length among.now) points.now }
    ensures { OnOk result (search_of known.new.items work.new.items
        ≡ fold with_known (search_of known.old.items work.old.items) (filter (λ x. get_or among.now x false) points.now)) }
{
    for point in points {
        know_if(known, work, among, *point)?;
    }
    Ok(())
}

/// For each point, whether some path through these points alone, from it on, ends at a marked one; the empty path leads from a point to
/// itself.
///
/// The marked points are among these. It takes one truth value for each point, and goes once over the edges, backwards from the marked points.
pub fn leads_among(
    alloc: Global,
    graph: &Graph<'_>,
    among: &[bool],
    marked: &[bool],
) -> Result<Vec<bool>, OutOfMemory>
    requires among { length among.now ≡ point_count graph.now }
    requires marked { length marked.now ≡ point_count graph.now }
    requires within { (point : ℕ) → get_or marked.now point false ≡ true → get_or among.now point false ≡ true }
    ensures { IfOk result (λ answers. TellLeadingAmong graph.now among.now marked.now answers.items) }
{
    let lists = sources(alloc, graph)?;
    let mut known = Vec::from_slice(alloc, marked)?;
    let mut work = marked_points(alloc, marked, graph.points())?;
    while let Some(point) = work.pop() {
        know_all(
            &mut known,
            &mut work,
            among,
            lists[point as usize].as_slice(),
        )?;
    }
    Ok(known)
}
