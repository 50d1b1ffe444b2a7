// How far columns are spread over a program. It bears on the time alone.
ghost use Rattle.std.specs.Prelude.{◌≡◌, ◌<◌, true};
ghost use Rattle.flow_graph.specs.Points.{point_count};
ghost use Rattle.flow_regions.specs.code.Regions.{ArePointsOf};
ghost use Rattle.flow_regions.specs.code.Touches.{AreMarked};

use crate::OutOfMemory;
use crate::lists::Lists;
use crate::search::{NONE, is_marked};
use flow_links::Links;
use gen_kill::Problem;
use std::alloc::Global;

// With so few points all is done at once.
const SMALL: u32 = 4096;
// To look at procedures takes as long as to solve so many bits.
const FEWEST: u32 = 2048;
// The procedures that touch a column have this part of all points at most, on the average.
const PART: u64 = 24;

/// How many points a procedure has; none where there is no such procedure.
pub fn size_of(links: &Links, listed: &Lists, procedure: u32) -> u64
    requires { ArePointsOf links.now listed.now }
{
    if procedure >= links.procedures() {
        return 0;
    }
    listed.of(procedure).len() as u64
}

/// How many columns are marked.
pub fn marked_count(marked: &[bool]) -> u32 {
    let mut count = 0u32;
    for mark in marked {
        if *mark {
            count = count.saturating_add(1);
        }
    }
    count
}

/// Whether a problem is small, or so many columns are marked that solving them takes longer than looking at procedures.
pub fn are_many(problem: &Problem<'_, '_>, marked: &[bool]) -> bool {
    problem.points() <= SMALL || marked_count(marked) >= FEWEST
}

// Whether a place has another number, which it has from now on.
fn is_changed(numbers: &mut [u32], place: u32, number: u32) -> bool {
    let place = place as usize;
    if place >= numbers.len() {
        return false;
    }
    let changed = numbers[place] != number;
    numbers[place] = number;
    changed
}

// Counts one more at a place, if there is one.
fn add_one(counts: &mut [u32], place: Option<u32>) {
    let Some(place) = place else {
        return;
    };
    let place = place as usize;
    if place < counts.len() {
        counts[place] = counts[place].saturating_add(1);
    }
}

// By variable how many marked columns depend on it.
fn dependent_counts(
    alloc: Global,
    problem: &Problem<'_, '_>,
    marked: &[bool],
) -> Result<Vec<u32>, OutOfMemory> {
    let mut counts = vec![in alloc; 0u32; problem.variables() as usize]?;
    for column in 0..problem.bits() {
        if is_marked(marked, column) {
            let (first, second) = problem.variables_of(column);
            add_one(counts.as_mut_slice(), first);
            add_one(counts.as_mut_slice(), second);
        }
    }
    Ok(counts)
}

// What is counted point by point, procedure by procedure.
#[derive(Drop)]
struct Spread {
    // By variable how many marked columns depend on it.
    counts: Vec<u32>,
    // By variable and by column the last procedure that was seen to touch it.
    variables: Vec<u32>,
    columns: Vec<u32>,
    // The procedure, how many points of it were seen, and how many columns they touch.
    procedure: u32,
    size: u64,
    touched: u64,
    // For each procedure its points, as often as it touches columns.
    around: u64,
}

impl Spread {
    // Nothing is seen yet.
    fn none(
        alloc: Global,
        problem: &Problem<'_, '_>,
        marked: &[bool],
    ) -> Result<Spread, OutOfMemory> {
        let counts = dependent_counts(alloc, problem, marked)?;
        let variables = vec![in alloc; NONE; problem.variables() as usize]?;
        let columns = vec![in alloc; NONE; problem.bits() as usize]?;
        Ok(Spread {
            counts,
            variables,
            columns,
            procedure: NONE,
            size: 0,
            touched: 0,
            around: 0,
        })
    }

    // How many of a statement's own columns its procedure was not seen to touch.
    fn own(&mut self, marked: &[bool], column: Option<u32>) -> u64 {
        let Some(column) = column else {
            return 0;
        };
        if is_marked(marked, column)
            && is_changed(self.columns.as_mut_slice(), column, self.procedure)
        {
            1
        } else {
            0
        }
    }

    // How many columns depend on a variable that its procedure was not seen to write.
    fn dependent(&mut self, written: Option<u32>) -> u64 {
        let Some(variable) = written else {
            return 0;
        };
        if !is_changed(self.variables.as_mut_slice(), variable, self.procedure) {
            return 0;
        }
        match self.counts.get(variable as usize) {
            Some(count) => u64::from(*count),
            None => 0,
        }
    }

    // Goes on to a point.
    fn add(&mut self, problem: &Problem<'_, '_>, marked: &[bool], point: u32)
        requires { point < point_count problem.now.program }
    {
        let procedure = problem.procedure(point);
        if procedure != self.procedure {
            self.procedure = procedure;
            self.size = 0;
            self.touched = 0;
        }
        let effect = problem.touched(point);
        let first = self.own(marked, effect.first);
        let second = self.own(marked, effect.second);
        let dependent = self.dependent(effect.written);
        let more = dependent.saturating_add(first).saturating_add(second);
        self.around = self.around.saturating_add(self.touched);
        self.size = self.size.saturating_add(1);
        self.touched = self.touched.saturating_add(more);
        self.around = self.around.saturating_add(more.saturating_mul(self.size));
    }
}

/// Whether a problem is small, or the procedures that touch a marked column have few of its points, on the average. It is looked at the points
/// one after the other, and no further once there are more. Fails only where memory runs out.
pub fn are_local(
    alloc: Global,
    problem: &Problem<'_, '_>,
    marked: &[bool],
) -> Result<bool, OutOfMemory> {
    if problem.points() <= SMALL {
        return Ok(true);
    }
    let columns = u64::from(marked_count(marked));
    let most = u64::from(problem.points()).saturating_mul(columns) / PART;
    let mut spread = Spread::none(alloc, problem, marked)?;
    for point in 0..problem.points() {
        spread.add(problem, marked, point);
        if spread.around > most {
            return Ok(false);
        }
    }
    Ok(true)
}

/// Whether all columns are marked.
pub fn are_marked(marked: &[bool], columns: &[u32]) -> bool
    ensures { result ≡ true → AreMarked marked.now columns.now }
{
    for column in columns {
        if !is_marked(marked, *column) {
            return false;
        }
    }
    true
}
