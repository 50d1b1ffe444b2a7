// A path to points from their procedures' entries, and a tree of calls.
ghost use Rattle.std.specs.Prelude.{◌≡◌, [], List, IfOk, IfSome, OnOk, length};
ghost use Rattle.flow_links.specs.Shapes.{directed_shape};
ghost use Rattle.flow_regions.specs.code.Ways.{AreWays, IsHang, IsHop, IsTree};
ghost use Rattle.flow_regions.specs.declared.way.Way.{Way as WayValue};

use crate::OutOfMemory;
use crate::search::{Found, Hung, NONE, is_marked, number_at, set_number};
use crate::wanted::Wanted;
use crate::way::{Branch, Hang, Hop, Way};
use flow_links::{CallLink, Links, SiteLink, has_call, has_site, has_step};
use std::alloc::Global;

/// Paths to some points from their procedures' entries, and a tree of calls.
#[derive(Drop)]
pub struct Ways {
    pub list: Vec<Way>,
    pub tree: Vec<Branch>,
}

// The entry as the beginning of a way.
fn beginning(links: &Links, point: u32) -> Option<Hop>
    ensures { IfSome result (λ hop. (ways : List WayValue) → IsHop links.now ways (length ways) point hop) }
{
    if point >= links.points() {
        return None;
    }
    let procedure = links.procedure_of(point);
    if links.entry(procedure) != point {
        return None;
    }
    Some(Hop::Begins)
}

// The step by which a point is reached from the point of a way.
fn step_hop(links: &Links, ways: &[Way], before: u32, point: u32) -> Option<Hop>
    requires { AreWays links.now ways.now }
    ensures { IfSome result (λ hop. IsHop links.now ways.now (length ways.now) point hop) }
{
    if before as usize >= ways.len() {
        return None;
    }
    let from = ways[before as usize].point;
    if from < links.points() && has_step(links, from, point) {
        return Some(Hop::Steps { before });
    }
    None
}

// The call that is passed to reach a point from the point of a way.
fn pass_hop(links: &Links, ways: &[Way], before: u32, exit: u32, point: u32) -> Option<Hop>
    requires { AreWays links.now ways.now }
    ensures { IfSome result (λ hop. IsHop links.now ways.now (length ways.now) point hop) }
{
    if before as usize >= ways.len() || exit as usize >= ways.len() {
        return None;
    }
    let from = ways[before as usize].point;
    let call = CallLink {
        exit: ways[exit as usize].point,
        after: point,
    };
    if from < links.points() && has_call(links, from, call) {
        return Some(Hop::Passes { before, exit });
    }
    None
}

// The hop by which a point is reached, as it was found, with the numbers of ways by points.
fn hop_of(links: &Links, ways: &[Way], found: &Found, numbers: &[u32], point: u32) -> Option<Hop>
    requires { AreWays links.now ways.now }
    ensures { IfSome result (λ hop. IsHop links.now ways.now (length ways.now) point hop) }
{
    let before = number_at(found.before.as_slice(), point);
    let exit = number_at(found.exits.as_slice(), point);
    if before == NONE {
        return beginning(links, point);
    }
    let before = number_at(numbers, before);
    if exit == NONE {
        return step_hop(links, ways, before, point);
    }
    pass_hop(links, ways, before, number_at(numbers, exit), point)
}

// Puts a way to a point last, if it is one.
fn put_way(
    links: &Links,
    ways: &mut Vec<Way>,
    found: &Found,
    numbers: &mut [u32],
    point: u32,
) -> Result<(), OutOfMemory>
    requires { AreWays links.now ways.old.items }
    ensures { OnOk result (AreWays links.now ways.new.items) }
{
    let Some(hop) = hop_of(links, ways.as_slice(), found, &*numbers, point) else {
        return Ok(());
    };
    set_number(numbers, point, ways.len().min(NONE as usize) as u32);
    ways.push(Way { point, hop })?;
    Ok(())
}

/// Ways to the points that are wanted.
pub(crate) fn list_of(
    alloc: Global,
    links: &Links,
    found: &Found,
    order: &[u32],
    numbers: &mut [u32],
) -> Result<Vec<Way>, OutOfMemory>
    ensures { IfOk result (λ ways. AreWays links.now ways.items) }
{
    let mut ways = Vec::new(alloc);
    for point in order {
        put_way(links, &mut ways, found, &mut *numbers, *point)?;
    }
    Ok(ways)
}

// The call by which a procedure is entered, as it was found, with the numbers of ways by points, and of branches by procedures.
fn hang_of(
    links: &Links,
    ways: &[Way],
    tree: &[Branch],
    numbers: &[u32],
    places: &[u32],
    hung: Hung,
) -> Option<Hang>
    ensures { IfSome result (λ hang. IsHang links.now ways.now tree.now (length tree.now) hung.procedure hang) }
{
    if hung.point == NONE {
        return if hung.procedure == links.root() {
            Some(Hang::Root)
        } else {
            None
        };
    }
    let caller = number_at(places, hung.caller);
    let way = number_at(numbers, hung.point);
    if caller as usize >= tree.len() || way as usize >= ways.len() {
        return None;
    }
    let procedure = tree[caller as usize].procedure;
    let site = SiteLink {
        point: ways[way as usize].point,
        callee: hung.procedure,
    };
    if procedure < links.procedures() && has_site(links, procedure, site) {
        return Some(Hang::Call { caller, way });
    }
    None
}

// Puts a branch last, if it is one.
fn put_branch(
    links: &Links,
    ways: &[Way],
    numbers: &[u32],
    tree: &mut Vec<Branch>,
    places: &mut [u32],
    hung: Hung,
) -> Result<(), OutOfMemory>
    requires { IsTree links.now ways.now tree.old.items }
    ensures { OnOk result (IsTree links.now ways.now tree.new.items) }
{
    let Some(hang) = hang_of(links, ways, tree.as_slice(), numbers, &*places, hung) else {
        return Ok(());
    };
    let procedure = hung.procedure;
    set_number(places, procedure, tree.len().min(NONE as usize) as u32);
    tree.push(Branch { procedure, hang })?;
    Ok(())
}

/// The tree of the calls of procedures that are wanted, over these ways.
pub(crate) fn tree_of(
    alloc: Global,
    links: &Links,
    ways: &[Way],
    numbers: &[u32],
    wanted: &[bool],
    found: &Found,
) -> Result<Vec<Branch>, OutOfMemory>
    ensures { IfOk result (λ tree. IsTree links.now ways.now tree.items) }
{
    let mut tree = Vec::new(alloc);
    let mut places = vec![in alloc; NONE; links.procedures() as usize]?;
    for hung in &found.tree {
        if is_marked(wanted, hung.procedure) {
            put_branch(
                links,
                ways,
                numbers,
                &mut tree,
                places.as_mut_slice(),
                *hung,
            )?;
        }
    }
    Ok(tree)
}

impl Ways {
    /// Ways and a tree of calls for a region: to the exits of procedures outside that are called inside, and by which procedures inside are
    /// entered. Fails only where memory runs out.
    pub fn of(
        alloc: Global,
        links: &Links,
        found: &Found,
        inside: &[bool],
        wanted: &mut Wanted,
    ) -> Result<Ways, OutOfMemory>
        ensures ways { IfOk result (λ ways. AreWays links.now ways.list.items) }
        ensures tree { IfOk result (λ ways. IsTree links.now ways.list.items ways.tree.items) }
    {
        wanted.want_all(links, found, inside)?;
        let list = list_of(
            alloc,
            links,
            found,
            wanted.order.as_slice(),
            wanted.numbers.as_mut_slice(),
        )?;
        let tree = tree_of(
            alloc,
            links,
            list.as_slice(),
            wanted.numbers.as_slice(),
            wanted.callers.as_slice(),
            found,
        )?;
        Ok(Ways { list, tree })
    }
}
