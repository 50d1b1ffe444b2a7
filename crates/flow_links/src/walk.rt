// Walks along the steps of procedures, for the points of each in reverse post-order. Which order it is bears on the time alone.
ghost use Rattle.std.specs.Prelude.{◌<◌};
ghost use Rattle.flow_graph.specs.Points.{point_count};

use crate::OutOfMemory;
use crate::links::Links;
use std::alloc::Global;

// What is still to be done on a walk.
#[derive(Clone, Copy)]
enum Visit {
    Enter(u32),
    Leave(u32),
}

/// A walk along steps: which points were entered, and those that were left, each behind those to which it led.
#[derive(Drop)]
pub(crate) struct StepWalk {
    open: Vec<Visit>,
    entered: Vec<bool>,
    left: Vec<u32>,
}

impl StepWalk {
    /// A walk that did not begin.
    pub(crate) fn new(alloc: Global, links: &Links) -> Result<StepWalk, OutOfMemory> {
        let points = links.points() as usize;
        let entered = vec![in alloc; false; points]?;
        Ok(StepWalk {
            open: Vec::new(alloc),
            entered,
            left: Vec::with_capacity(alloc, points)?,
        })
    }

    // Whether a point was not entered.
    #[inline(always)]
    fn is_new(&self, point: u32) -> bool {
        match self.entered.get(point as usize) {
            Some(entered) => !*entered,
            None => false,
        }
    }

    // Puts a point that was not entered on what is to be done.
    #[inline(always)]
    fn put_point(&mut self, point: u32) -> Result<(), OutOfMemory> {
        if self.is_new(point) {
            self.open.push(Visit::Enter(point))?;
        }
        Ok(())
    }

    // Enters a point: it is left when those behind its steps and its calls are.
    fn enter_point(&mut self, links: &Links, point: u32) -> Result<(), OutOfMemory>
        requires { point < point_count links.now.program }
    {
        match self.entered.get_mut(point as usize) {
            Some(entered) if !*entered => *entered = true,
            _ => return Ok(()),
        }
        self.open.push(Visit::Leave(point))?;
        // All calls of a point lead to the same one behind it.
        if let Some(call) = links.calls_from(point).first() {
            self.put_point(call.after)?;
        }
        for target in links.steps_from(point) {
            self.put_point(*target)?;
        }
        Ok(())
    }

    // Walks from a point on.
    fn walk_from(&mut self, links: &Links, point: u32) -> Result<(), OutOfMemory> {
        self.put_point(point)?;
        // Each point is left once, and is put here by its steps and its calls: no walk does as much.
        let most = 8 * u64::from(links.points());
        for _ in 0..most {
            match self.open.pop() {
                Some(Visit::Enter(point)) if point < links.points() => {
                    self.enter_point(links, point)?;
                }
                Some(Visit::Leave(point)) => self.left.push(point)?,
                _ => return Ok(()),
            }
        }
        Ok(())
    }

    /// Walks over the points of a procedure, which stand in a row: from its entry on, and then from those that were not entered.
    pub(crate) fn walk_row(
        &mut self,
        links: &Links,
        entry: u32,
        first: u32,
        last: u32,
    ) -> Result<(), OutOfMemory>
        requires entry { entry < point_count links.now.program }
        requires last { last < point_count links.now.program }
    {
        // Its contract tells that there are few points.
        let _ = links.points();
        self.walk_from(links, entry)?;
        for point in first..last + 1 {
            if self.is_new(point) {
                self.walk_from(links, point)?;
            }
        }
        Ok(())
    }

    /// The points that were left.
    pub(crate) fn into_left(self) -> Vec<u32> {
        self.left
    }
}
