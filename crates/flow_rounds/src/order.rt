// The order in which rounds take the points of a procedure: in reverse post-order of the steps, a call and the point behind it taken as a step.
// Which order it is bears on how many rounds there are.

ghost use Rattle.std.specs.Prelude.{◌≡◌, ◌-◌, IfOk, length, OnOk};
ghost use Rattle.flow_rounds.specs.code.Orders.{ArePut, with_point};

use crate::OutOfMemory;
use crate::point_range::PointRange;
use flow_graph::{Direction, Edge};
use std::alloc::Global;

// What is still to be done on a walk.
#[derive(Clone, Copy)]
enum Visit {
    Enter(u32),
    Leave(u32),
}

// A walk through a procedure: which of its points were entered, and those that were left, each behind those to which it led.
#[derive(Drop)]
struct Walk {
    points: PointRange,
    open: Vec<Visit>,
    entered: Vec<bool>,
    left: Vec<u32>,
}

// The point to which an edge leads from a point inside the procedure. A call leads to where it returns.
fn next_point(edge: Edge, direction: Direction, point: u32) -> Option<u32> {
    match edge {
        Edge::Step { from, to } if from == point => Some(to),
        Edge::Call { site, from, .. } if from == point => match direction {
            Direction::Forward => Some(site.saturating_add(1)),
            Direction::Backward => Some(site),
        },
        _ => None,
    }
}

impl Walk {
    // A walk that did not begin.
    fn new(alloc: Global, points: PointRange) -> Result<Walk, OutOfMemory> {
        let count = points.end.saturating_sub(points.first) as usize;
        let entered = vec![in alloc; false; count]?;
        Ok(Walk {
            points,
            open: Vec::new(alloc),
            entered,
            left: Vec::with_capacity(alloc, count)?,
        })
    }

    // Whether a point is entered now for the first time.
    fn enters(&mut self, point: u32) -> bool {
        if point < self.points.first {
            return false;
        }
        match self.entered.get_mut((point - self.points.first) as usize) {
            Some(entered) if !*entered => {
                *entered = true;
                true
            },
            _ => false,
        }
    }

    // Enters a point: it is left when those to which edges lead are.
    fn enter_point(
        &mut self,
        edges: &[Edge],
        direction: Direction,
        point: u32,
    ) -> Result<(), OutOfMemory> {
        if !self.enters(point) {
            return Ok(());
        }
        self.open.push(Visit::Leave(point))?;
        for edge in edges {
            if let Some(next) = next_point(*edge, direction, point) {
                self.open.push(Visit::Enter(next))?;
            }
        }
        Ok(())
    }

    // Walks from a point on.
    fn walk_from(
        &mut self,
        edges: &[Edge],
        direction: Direction,
        point: u32,
    ) -> Result<(), OutOfMemory> {
        self.open.push(Visit::Enter(point))?;
        // Each edge puts a point here at most once, and each point is left once: no walk does as much.
        let most = edges.len().saturating_mul(2).saturating_add(2);
        for _ in 0..most {
            match self.open.pop() {
                Some(Visit::Enter(point)) => self.enter_point(edges, direction, point)?,
                Some(Visit::Leave(point)) => self.left.push(point)?,
                None => return Ok(()),
            }
        }
        Ok(())
    }
}

// The points of a procedure in the order in which they are left: from its entry on, and then from those that were not entered.
fn left_points(
    alloc: Global,
    edges: &[Edge],
    direction: Direction,
    points: PointRange,
    entry: u32,
) -> Result<Vec<u32>, OutOfMemory> {
    let mut walk = Walk::new(alloc, points)?;
    walk.walk_from(edges, direction, entry)?;
    for point in points.first..points.end {
        walk.walk_from(edges, direction, point)?;
    }
    Ok(walk.left)
}

// Puts a point last where it is computed and does not stand in the order.
fn put_point(
    order: &mut Vec<u32>,
    points: PointRange,
    computed: &[bool],
    point: u32,
) -> Result<(), OutOfMemory>
    requires { length computed.now ≡ points.end - points.first }
    ensures { OnOk result (order.new.items ≡ with_point points computed.now order.old.items point) }
{
    if point < points.first || points.end <= point {
        return Ok(());
    }
    if computed[(point - points.first) as usize] && !order.contains(&point) {
        order.push(point)?;
    }
    Ok(())
}

/// The points that are computed, each once.
pub(crate) fn order(
    alloc: Global,
    edges: &[Edge],
    direction: Direction,
    points: PointRange,
    entry: u32,
    computed: &[bool],
) -> Result<Vec<u32>, OutOfMemory>
    requires { length computed.now ≡ points.end - points.first }
    ensures { IfOk result (λ order. ArePut points computed.now points.end order.items) }
{
    let mut left = left_points(alloc, edges, direction, points, entry)?;
    left.reverse();
    let mut order = Vec::new(alloc);
    for point in left.iter() {
        put_point(&mut order, points, computed, *point)?;
    }
    for point in points.first..points.end {
        put_point(&mut order, points, computed, point)?;
    }
    Ok(order)
}
