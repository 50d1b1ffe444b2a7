// Which points are reached from their procedures' entries, and which procedures are entered. Nothing rests on what is found here: `ways`
// looks at each edge once more.
ghost use Rattle.std.specs.Prelude.{◌≡◌, ◌<◌, false, IfOk, length, slice_index_or};
ghost use Rattle.flow_links.specs.Shapes.{directed_shape};

use crate::OutOfMemory;
use flow_links::Links;
use std::alloc::Global;

/// What stands where there is no point.
pub const NONE: u32 = u32::MAX;

/// A procedure that is entered: by a call at a point, or as the first.
#[derive(Clone, Copy)]
pub struct Hung {
    pub procedure: u32,
    pub caller: u32,
    pub point: u32,
}

/// How points and procedures are found, each behind those from which it is.
pub struct Found {
    pub order: Vec<u32>,
    /// By point the one from which it is found, and the exit of the callee, where a call is passed.
    pub before: Vec<u32>,
    pub exits: Vec<u32>,
    pub tree: Vec<Hung>,
    // By point whether it is found.
    seen: Vec<bool>,
}

impl Drop for Found {
    // By hand: who gives it up then makes one call.
    fn drop(self) {
        let Found {
            order: _,
            before: _,
            exits: _,
            tree: _,
            seen: _,
        } = self;
    }
}

impl Found {
    // Nothing is found yet.
    fn none(alloc: Global, links: &Links) -> Result<Found, OutOfMemory> {
        let count = links.points() as usize;
        let before = vec![in alloc; NONE; count]?;
        let exits = vec![in alloc; NONE; count]?;
        let seen = vec![in alloc; false; count]?;
        Ok(Found {
            order: Vec::new(alloc),
            before,
            exits,
            tree: Vec::new(alloc),
            seen,
        })
    }

    /// Whether a point is found.
    pub fn is_seen(&self, point: u32) -> bool {
        match self.seen.get(point as usize) {
            Some(seen) => *seen,
            None => true,
        }
    }

    // Finds a point, if it is new.
    fn add(&mut self, point: u32, before: u32, exit: u32) -> Result<(), OutOfMemory> {
        if self.is_seen(point) {
            return Ok(());
        }
        set_mark(self.seen.as_mut_slice(), point);
        set_number(self.before.as_mut_slice(), point, before);
        set_number(self.exits.as_mut_slice(), point, exit);
        self.order.push(point)?;
        Ok(())
    }

    // Finds what is behind the calls at a point of a callee that is left at an exit.
    fn add_behind(&mut self, links: &Links, point: u32, exit: u32) -> Result<(), OutOfMemory> {
        if point >= links.points() {
            return Ok(());
        }
        let calls = links.calls_from(point);
        if calls.is_empty() {
            return Ok(());
        }
        // All calls from a point return to one: to look for this one among many would be quadratic in them.
        self.add(calls[0].after, point, exit)
    }

    // Finds what is behind the calls at a point whose callees' exits are found.
    fn add_calls(&mut self, links: &Links, point: u32) -> Result<(), OutOfMemory> {
        if point >= links.points() {
            return Ok(());
        }
        let calls = links.calls_from(point);
        for call in calls {
            if self.is_seen(call.exit) {
                self.add(call.after, point, call.exit)?;
            }
        }
        Ok(())
    }

    // Finds what is behind the calls that a point is the exit of.
    fn add_returns(&mut self, links: &Links, point: u32) -> Result<(), OutOfMemory> {
        if point >= links.points() {
            return Ok(());
        }
        let callers = links.callers_of(point);
        for caller in callers {
            if self.is_seen(*caller) {
                self.add_behind(links, *caller, point)?;
            }
        }
        Ok(())
    }

    // Finds what is next to a point.
    fn visit(&mut self, links: &Links, point: u32) -> Result<(), OutOfMemory> {
        if point >= links.points() {
            return Ok(());
        }
        let steps = links.steps_from(point);
        for to in steps {
            self.add(*to, point, NONE)?;
        }
        self.add_calls(links, point)?;
        self.add_returns(links, point)
    }

    // Finds all points, from the entries on.
    fn reach(&mut self, links: &Links) -> Result<(), OutOfMemory> {
        for procedure in 0..links.procedures() {
            self.add(links.entry(procedure), NONE, NONE)?;
        }
        for at in 0..links.points() as usize {
            let Some(point) = self.order.get(at) else {
                return Ok(());
            };
            let point = *point;
            self.visit(links, point)?;
        }
        Ok(())
    }

    // Hangs the procedures that a procedure calls, if they are new.
    fn hang(
        &mut self,
        links: &Links,
        entered: &mut [bool],
        caller: u32,
    ) -> Result<(), OutOfMemory> {
        if caller >= links.procedures() {
            return Ok(());
        }
        let sites = links.sites_in(caller);
        for site in sites {
            if self.is_seen(site.point) && !is_marked(&*entered, site.callee) {
                set_mark(entered, site.callee);
                self.tree.push(Hung {
                    procedure: site.callee,
                    caller,
                    point: site.point,
                })?;
            }
        }
        Ok(())
    }

    // Finds the procedures that are entered, callers first.
    fn enter(&mut self, alloc: Global, links: &Links) -> Result<(), OutOfMemory> {
        let mut entered = vec![in alloc; false; links.procedures() as usize]?;
        let root = links.root();
        set_mark(entered.as_mut_slice(), root);
        self.tree.push(Hung {
            procedure: root,
            caller: NONE,
            point: NONE,
        })?;
        for at in 0..links.procedures() as usize {
            let Some(hung) = self.tree.get(at) else {
                return Ok(());
            };
            let caller = hung.procedure;
            self.hang(links, entered.as_mut_slice(), caller)?;
        }
        Ok(())
    }
}

/// Marks a number, if it is there.
pub fn set_mark(marks: &mut [bool], number: u32) {
    let number = number as usize;
    if number < marks.len() {
        marks[number] = true;
    }
}

/// Takes a mark back, if it is there.
pub fn clear_mark(marks: &mut [bool], number: u32) {
    let number = number as usize;
    if number < marks.len() {
        marks[number] = false;
    }
}

/// Whether a number is marked: not, if it is not there.
pub fn is_marked(marks: &[bool], number: u32) -> bool
    ensures { result ≡ slice_index_or marks.now number false }
{
    match marks.get(number as usize) {
        Some(mark) => *mark,
        None => false,
    }
}

/// Puts a number, if there is its place.
pub fn set_number(numbers: &mut [u32], place: u32, number: u32) {
    let place = place as usize;
    if place < numbers.len() {
        numbers[place] = number;
    }
}

/// The number of a place; NONE where there is none.
pub fn number_at(numbers: &[u32], place: u32) -> u32 {
    match numbers.get(place as usize) {
        Some(number) => *number,
        None => NONE,
    }
}

/// Finds points from the entries of their procedures, breadth first, and the procedures that are entered. Fails only where memory runs out.
pub fn find(alloc: Global, links: &Links) -> Result<Found, OutOfMemory> {
    let mut found = Found::none(alloc, links)?;
    found.reach(links)?;
    found.enter(alloc, links)?;
    Ok(found)
}
