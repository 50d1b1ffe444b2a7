// Points one after the other, in parts and wholes. How they are laid out bears on the time alone.

use crate::OutOfMemory;
use crate::links::Links;
use std::alloc::Global;

/// Points in an order, and where its parts and its wholes end.
#[derive(Drop)]
pub(crate) struct Layout {
    pub points: Vec<u32>,
    pub part_ends: Vec<u32>,
    pub whole_ends: Vec<u32>,
}

// Puts an end last, where it is behind the last one.
fn put_end(ends: &mut Vec<u32>, end: u32) -> Result<(), OutOfMemory> {
    if ends.last().copied().unwrap_or(0) < end {
        ends.push(end)?;
    }
    Ok(())
}

impl Layout {
    /// No points, with room for so many.
    pub(crate) fn new(alloc: Global, points: usize) -> Result<Layout, OutOfMemory> {
        Ok(Layout {
            points: Vec::with_capacity(alloc, points)?,
            part_ends: Vec::new(alloc),
            whole_ends: Vec::new(alloc),
        })
    }

    // How many points there are.
    fn end(&self) -> u32 {
        u32::try_from(self.points.len()).unwrap_or(u32::MAX)
    }

    /// Puts those of the points last that lead on, or those that do not, as a whole; those of a procedure, which stand in a row, as a part.
    pub(crate) fn put_points(
        &mut self,
        links: &Links,
        points: &[u32],
        leading: &[bool],
        leads: bool,
    ) -> Result<(), OutOfMemory> {
        let mut latest = u32::MAX;
        for point in points {
            if leading.get(*point as usize).copied() != Some(leads) || *point >= links.points() {
                continue;
            }
            let procedure = links.procedure_of(*point);
            if procedure != latest {
                let end = self.end();
                put_end(&mut self.part_ends, end)?;
                latest = procedure;
            }
            self.points.push(*point)?;
        }
        let end = self.end();
        put_end(&mut self.part_ends, end)?;
        put_end(&mut self.whole_ends, end)
    }
}
