// When the exits of procedures are reached. It bears on the time alone.
ghost use Rattle.std.specs.Prelude.{◌<◌};
ghost use Rattle.flow_graph.specs.Points.{point_count};
ghost use Rattle.flow_links.specs.Shapes.{directed_shape};

use crate::OutOfMemory;
use crate::link::CallLink;
use crate::links::Links;
use std::alloc::Global;

/// The round of an exit that is not reached.
const NEVER: u32 = u32::MAX;

// A walk in rounds: in each, calls lead on whose callees were left in a round before.
#[derive(Drop)]
struct ExitWalk {
    // The points that were reached.
    reached: Vec<bool>,
    // Those from which the walk did not go on yet.
    waiting: Vec<u32>,
    // The round of each procedure's exit.
    rounds: Vec<u32>,
    // The procedures whose exits were reached in this round.
    left: Vec<u32>,
}

impl ExitWalk {
    fn new(alloc: Global, links: &Links) -> Result<ExitWalk, OutOfMemory> {
        let points = links.points() as usize;
        let procedures = links.procedures() as usize;
        let reached = vec![in alloc; false; points]?;
        let rounds = vec![in alloc; NEVER; procedures]?;
        Ok(ExitWalk {
            reached,
            waiting: Vec::new(alloc),
            rounds,
            left: Vec::new(alloc),
        })
    }

    // Reaches a point.
    fn reach_point(&mut self, point: u32) -> Result<(), OutOfMemory> {
        match self.reached.get_mut(point as usize) {
            Some(reached) if !*reached => *reached = true,
            _ => return Ok(()),
        }
        self.waiting.push(point)?;
        Ok(())
    }

    // Whether the callee of a call was left in a round before.
    fn leads_on(&self, links: &Links, call: CallLink) -> bool {
        let exit = call.exit;
        exit < links.points() && self.round_of(links.procedure_of(exit)) != NEVER
    }

    // The round of a procedure's exit.
    fn round_of(&self, procedure: u32) -> u32 {
        match self.rounds.get(procedure as usize) {
            Some(round) => *round,
            None => NEVER,
        }
    }

    // Goes on from a point that was reached.
    fn visit_point(&mut self, links: &Links, point: u32) -> Result<(), OutOfMemory>
        requires { point < point_count links.now.program }
    {
        for target in links.steps_from(point) {
            self.reach_point(*target)?;
        }
        for call in links.calls_from(point) {
            if self.leads_on(links, *call) {
                self.reach_point(call.after)?;
            }
        }
        // Their contracts tell that the procedure is there, and that there are few.
        let _ = links.points();
        let _ = links.procedures();
        let procedure = links.procedure_of(point);
        if links.exit(procedure) == point && self.round_of(procedure) == NEVER {
            self.left.push(procedure)?;
        }
        Ok(())
    }

    // Goes on from all points that wait.
    fn visit_waiting(&mut self, links: &Links) -> Result<(), OutOfMemory> {
        // Each point waits once.
        for _ in 0..links.points() {
            match self.waiting.pop() {
                Some(point) if point < links.points() => {
                    self.visit_point(links, point)?;
                }
                _ => return Ok(()),
            }
        }
        Ok(())
    }

    // Reaches what is behind the calls of a procedure that was left.
    fn reach_behind(&mut self, links: &Links, procedure: u32) -> Result<(), OutOfMemory>
        requires { procedure < (directed_shape links.now).procedures }
    {
        // Its contract tells where exits lie.
        let _ = links.points();
        for caller in links.callers_of(links.exit(procedure)) {
            let is_reached = match self.reached.get(*caller as usize) {
                Some(reached) => *reached,
                None => false,
            };
            if is_reached && *caller < links.points() {
                // All calls of a point lead to the same one behind it.
                if let Some(call) = links.calls_from(*caller).first() {
                    self.reach_point(call.after)?;
                }
            }
        }
        Ok(())
    }

    // Ends a round: the calls of the procedures that were left lead on.
    fn end_round(&mut self, links: &Links, round: u32, left: &[u32]) -> Result<(), OutOfMemory> {
        for procedure in left {
            if let Some(place) = self.rounds.get_mut(*procedure as usize) {
                *place = round;
            }
        }
        for procedure in left {
            if *procedure < links.procedures() {
                self.reach_behind(links, *procedure)?;
            }
        }
        Ok(())
    }
}

// Walks from the entries on, round by round.
fn walk_in_rounds(alloc: Global, links: &Links, walk: &mut ExitWalk) -> Result<(), OutOfMemory> {
    // Its contract tells where entries lie.
    let _ = links.points();
    for procedure in 0..links.procedures() {
        walk.reach_point(links.entry(procedure))?;
    }
    for round in 0..links.procedures() {
        walk.visit_waiting(links)?;
        let left = std::mem::replace(&mut walk.left, Vec::new(alloc));
        if left.is_empty() {
            break;
        }
        walk.end_round(links, round, left.as_slice())?;
    }
    Ok(())
}

/// For each procedure the round in which its exit is reached, where a call leads on from the round on that is behind its callee's.
pub(crate) fn exit_rounds(alloc: Global, links: &Links) -> Result<Vec<u32>, OutOfMemory> {
    let mut found = ExitWalk::new(alloc, links)?;
    walk_in_rounds(alloc, links, &mut found)?;
    Ok(found.rounds)
}
