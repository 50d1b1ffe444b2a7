// Which points are wanted on paths: those by which procedures outside a region are left that are called inside, and those by which procedures
// inside are entered. Nothing rests on what is found here: `ways` looks at each edge once more.
ghost use Rattle.std.specs.Prelude.{◌≡◌, ◌<◌};
ghost use Rattle.flow_links.specs.Shapes.{directed_shape};

use crate::OutOfMemory;
use crate::search::{Found, NONE, clear_mark, is_marked, number_at, set_mark};
use flow_links::Links;
use std::alloc::Global;

/// Memory that regions use one after the other for their paths.
pub struct Wanted {
    /// The points that are wanted, each behind those from which it is found.
    pub order: Vec<u32>,
    /// By point the number of its way, if it has one.
    pub numbers: Vec<u32>,
    /// By procedure whether it is wanted in the tree of calls.
    pub callers: Vec<bool>,
    // By point whether it is wanted, and points that wait for others.
    marks: Vec<bool>,
    waiting: Vec<u32>,
}

impl Drop for Wanted {
    // By hand: who gives it up then makes one call.
    fn drop(self) {
        let Wanted {
            order: _,
            numbers: _,
            callers: _,
            marks: _,
            waiting: _,
        } = self;
    }
}

impl Wanted {
    /// Memory for the paths of a program, in which nothing is wanted. Fails only where memory runs out.
    pub fn none(alloc: Global, links: &Links) -> Result<Wanted, OutOfMemory> {
        let numbers = vec![in alloc; NONE; links.points() as usize]?;
        let callers = vec![in alloc; false; links.procedures() as usize]?;
        let marks = vec![in alloc; false; links.points() as usize]?;
        Ok(Wanted {
            order: Vec::new(alloc),
            numbers,
            callers,
            marks,
            waiting: Vec::new(alloc),
        })
    }

    // Wants nothing.
    fn clear(&mut self) {
        for point in &self.order {
            clear_mark(self.marks.as_mut_slice(), *point);
        }
        self.order.clear();
        self.callers.as_mut_slice().fill(false);
    }

    // Whether a point is one that is not wanted yet.
    fn is_new(&self, point: u32) -> bool {
        point != NONE && !is_marked(self.marks.as_slice(), point)
    }

    // Takes up a point again, behind another one.
    fn wait(&mut self, point: u32, before: u32) -> Result<(), OutOfMemory> {
        self.waiting.push(point)?;
        self.waiting.push(before)?;
        Ok(())
    }

    // Wants a point, or first one from which it is found.
    fn take(&mut self, found: &Found, point: u32) -> Result<(), OutOfMemory> {
        if !self.is_new(point) {
            return Ok(());
        }
        let before = number_at(found.before.as_slice(), point);
        if self.is_new(before) {
            return self.wait(point, before);
        }
        let exit = number_at(found.exits.as_slice(), point);
        if self.is_new(exit) {
            return self.wait(point, exit);
        }
        set_mark(self.marks.as_mut_slice(), point);
        self.order.push(point)?;
        Ok(())
    }

    // Wants a point, and all from which it is found.
    fn want(&mut self, found: &Found, point: u32) -> Result<(), OutOfMemory> {
        self.waiting.clear();
        self.waiting.push(point)?;
        for _ in 0..u32::MAX {
            let Some(next) = self.waiting.pop() else {
                return Ok(());
            };
            self.take(found, next)?;
        }
        Ok(())
    }

    // Wants the exits of the procedures outside that a procedure calls.
    fn want_callees(
        &mut self,
        links: &Links,
        found: &Found,
        inside: &[bool],
        procedure: u32,
    ) -> Result<(), OutOfMemory>
        requires { procedure < (directed_shape links.now).procedures }
    {
        let sites = links.sites_in(procedure);
        for site in sites {
            if site.callee < links.procedures() && !is_marked(inside, site.callee) {
                self.want_exit(found, links.exit(site.callee))?;
            }
        }
        Ok(())
    }

    // Wants an exit, if it is found.
    fn want_exit(&mut self, found: &Found, exit: u32) -> Result<(), OutOfMemory> {
        if found.is_seen(exit) {
            return self.want(found, exit);
        }
        Ok(())
    }

    // Wants the exits of the procedures outside that are called inside.
    fn want_exits(
        &mut self,
        links: &Links,
        found: &Found,
        inside: &[bool],
    ) -> Result<(), OutOfMemory> {
        for procedure in 0..links.procedures() {
            if is_marked(inside, procedure) {
                self.want_callees(links, found, inside, procedure)?;
            }
        }
        Ok(())
    }

    // Wants the point at which a procedure is called, and its caller.
    fn want_caller(&mut self, found: &Found, caller: u32, point: u32) -> Result<(), OutOfMemory> {
        if caller == NONE {
            return Ok(());
        }
        set_mark(self.callers.as_mut_slice(), caller);
        self.want(found, point)
    }

    // Wants the points by which procedures inside are entered.
    fn want_entries(&mut self, found: &Found, inside: &[bool]) -> Result<(), OutOfMemory> {
        let count = found.tree.len();
        for back in 0..count {
            let hung = found.tree[count - 1 - back];
            let wanted = is_marked(inside, hung.procedure)
                || is_marked(self.callers.as_slice(), hung.procedure);
            if wanted {
                set_mark(self.callers.as_mut_slice(), hung.procedure);
                self.want_caller(found, hung.caller, hung.point)?;
            }
        }
        Ok(())
    }

    /// Wants what there is to know of a region, and no more. Fails only where memory runs out.
    pub fn want_all(
        &mut self,
        links: &Links,
        found: &Found,
        inside: &[bool],
    ) -> Result<(), OutOfMemory> {
        self.clear();
        self.want_exits(links, found, inside)?;
        self.want_entries(found, inside)
    }
}
