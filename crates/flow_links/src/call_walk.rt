// Walks along the calls of procedures. What they find bears on the time alone.
ghost use Rattle.std.specs.Prelude.{◌<◌};
ghost use Rattle.flow_links.specs.Shapes.{directed_shape};

use crate::OutOfMemory;
use crate::links::Links;
use std::alloc::Global;

/// Along which calls a walk goes.
#[derive(Clone, Copy)]
pub(crate) enum Way<'r> {
    /// From a procedure to those that it calls.
    ToCallees,
    /// From a procedure to those that it calls and whose exits are reached in a round before its own, of these rounds.
    ToEarlierCallees(&'r [u32]),
    /// From a procedure to those that call it.
    ToCallers,
}

// A procedure that a walk has entered and not left.
#[derive(Clone, Copy)]
struct OpenProcedure {
    procedure: u32,
    // How many of its calls were gone over.
    calls: usize,
}

/// A walk along calls: which procedures were entered, and those that were left, each behind those to which it led.
#[derive(Drop)]
pub(crate) struct CallWalk {
    open: Vec<OpenProcedure>,
    entered: Vec<bool>,
    left: Vec<u32>,
}

// The procedure at the other end of a call, if there are so many.
fn other_end(links: &Links, way: Way<'_>, procedure: u32, call: usize) -> Option<u32>
    requires { procedure < (directed_shape links.now).procedures }
{
    // Its contract tells where exits lie.
    let _ = links.points();
    match way {
        Way::ToCallees | Way::ToEarlierCallees(_) => match links.sites_in(procedure).get(call) {
            Some(site) => Some(site.callee),
            None => None,
        },
        Way::ToCallers => match links.callers_of(links.exit(procedure)).get(call) {
            Some(point) if *point < links.points() => { Some(links.procedure_of(*point)) }
            _ => None,
        },
    }
}

// Whether a walk goes on from a procedure to this other one.
fn goes_on(way: Way<'_>, procedure: u32, other: u32) -> bool {
    match way {
        Way::ToEarlierCallees(rounds) => {
            rounds.get(other as usize).copied() < rounds.get(procedure as usize).copied()
        }
        Way::ToCallees | Way::ToCallers => true,
    }
}

impl CallWalk {
    /// A walk that did not begin.
    pub(crate) fn new(alloc: Global, links: &Links) -> Result<CallWalk, OutOfMemory> {
        let entered = vec![in alloc; false; links.procedures() as usize]?;
        Ok(CallWalk {
            open: Vec::new(alloc),
            entered,
            left: Vec::new(alloc),
        })
    }

    // Enters a procedure that was not entered.
    fn enter_procedure(&mut self, procedure: u32) -> Result<(), OutOfMemory> {
        match self.entered.get_mut(procedure as usize) {
            Some(entered) if !*entered => *entered = true,
            _ => return Ok(()),
        }
        self.open.push(OpenProcedure {
            procedure,
            calls: 0,
        })?;
        Ok(())
    }

    // Goes over the next call of a procedure that was entered, or leaves it.
    fn visit_procedure(
        &mut self,
        links: &Links,
        way: Way<'_>,
        latest: OpenProcedure,
    ) -> Result<(), OutOfMemory>
        requires { latest.procedure < (directed_shape links.now).procedures }
    {
        // Its contract tells that there are few procedures.
        let _ = links.procedures();
        match other_end(links, way, latest.procedure, latest.calls) {
            Some(other) => {
                self.open.push(OpenProcedure {
                    procedure: latest.procedure,
                    calls: latest.calls.saturating_add(1),
                })?;
                if goes_on(way, latest.procedure, other) {
                    self.enter_procedure(other)?;
                }
                Ok(())
            }
            None => {
                self.left.push(latest.procedure)?;
                Ok(())
            }
        }
    }

    /// Walks from a procedure on, where it was not entered, and tells how many were left by then.
    pub(crate) fn walk_from(
        &mut self,
        links: &Links,
        way: Way<'_>,
        procedure: u32,
    ) -> Result<usize, OutOfMemory> {
        self.enter_procedure(procedure)?;
        // A step for each call, of which a point has eight at most, and one for each procedure that is left.
        let most = 16 * u64::from(links.points());
        'steps: for _ in 0..most {
            match self.open.pop() {
                Some(latest) if latest.procedure < links.procedures() => {
                    self.visit_procedure(links, way, latest)?;
                }
                _ => break,
            }
        }
        Ok(self.left.len())
    }

    /// The procedures that were left.
    pub(crate) fn into_left(self) -> Vec<u32> {
        self.left
    }
}
