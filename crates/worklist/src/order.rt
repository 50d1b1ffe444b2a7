// An order of points.
ghost use Rattle.std.specs.Prelude.{◌≡◌, ℕ, ◌<◌, ◌≤◌, ◌^◌, IfOk, length, slice_index};
ghost use Rattle.std.specs.Bool.{OnTrue};
ghost use Rattle.worklist.specs.Orders.{IsOrder};
ghost use Rattle.worklist.specs.Tables.RankLists.{LeadsBack};

use crate::OutOfMemory;
use std::alloc::Global;
use std::marker::Model;

/// Ranks in a row.
#[derive(Clone, Copy)]
pub(crate) struct Ranks {
    /// The first.
    pub start: usize,
    /// The one behind the last.
    pub end: usize,
}

impl Ranks {
    /// No rank.
    pub(crate) fn none() -> Ranks {
        Ranks { start: 0, end: 0 }
    }

    /// Whether a rank is one of these.
    #[inline(always)]
    pub(crate) fn has(&self, rank: usize) -> bool {
        self.start <= rank && rank < self.end
    }
}

/// An order of points: any list of their numbers in which each stands once. It is seen as the rank of each point.
///
/// Points whose ranks stand in a row can be a part, to be gone over again until nothing is left to do in it, and parts in a row a
/// whole. Order, parts and wholes are free: they bear on the time alone.
#[derive(Drop)]
pub struct Order {
    ranks: Vec<u32>,
    points: Vec<u32>,
    part_ends: Vec<u32>,
    whole_ends: Vec<u32>,
}

impl Model for Order {
    ghost use Rattle.std.specs.Prelude.{List, ℕ};
    ghost use Rattle.worklist.specs.Tables.RankLists.{AreInverse};

    ghost Value = { List ℕ };

    ghost view = { λ order. order.ranks.items };

    ghost invariant = { λ order. AreInverse order.ranks.items order.points.items };
}

// Whether each number leads, by the one list and then the other, back to itself.
fn leads_back(there: &[u32], back: &[u32]) -> bool
    ensures { OnTrue result (LeadsBack there.now back.now) }
{
    for (from, to) in there.iter().enumerate() {
        match back.get(*to as usize) {
            Some(again) if *again as usize == from => {}
            _ => return false,
        }
    }
    true
}

// Writes to each place its number.
fn write_numbers(places: &mut [u32])
    requires { length places.old ≤ 2 ^ 31 }
    ensures { (k : ℕ) → k < length places.new → slice_index places.new k ≡ k }
{
    for number in 0..places.len() {
        places[number] = number as u32;
    }
}

// The numbers below a count.
fn numbers_below(alloc: Global, count: u32) -> Result<Vec<u32>, OutOfMemory>
    requires { count ≤ 2 ^ 31 }
    ensures { IfOk result (λ numbers. (length numbers.items ≡ count)
        × ((k : ℕ) → k < count → slice_index numbers.items k ≡ k)) }
{
    let mut numbers = vec![in alloc; 0u32; count as usize]?;
    write_numbers(numbers.as_mut_slice());
    Ok(numbers)
}

// The rank of each of the points that are listed; 0 for one that is not.
fn ranks_of(alloc: Global, points: &[u32]) -> Result<Vec<u32>, OutOfMemory>
    requires { length points.now ≤ 2 ^ 31 }
    ensures { IfOk result (λ ranks. length ranks.items ≡ length points.now) }
{
    let mut ranks = vec![in alloc; 0u32; points.len()]?;
    for (rank, point) in points.iter().enumerate() {
        if let Some(place) = ranks.get_mut(*point as usize) {
            *place = rank as u32;
        }
    }
    Ok(ranks)
}

// The ranks between two ends that have a rank among them; the ends rise.
fn ranks_around(ends: &[u32], rank: usize, points: usize) -> Ranks {
    let place = ends.partition_point(|end| *end as usize <= rank);
    let start = match place.checked_sub(1) {
        Some(before) => ends.get(before).map_or(0, |end| *end as usize),
        None => 0,
    };
    let end = ends.get(place).map_or(points, |end| *end as usize);
    Ranks { start, end }
}

impl Order {
    /// The order of the numbers below a count, each of which is its own rank.
    pub fn numbers(alloc: Global, count: u32) -> Result<Order, OutOfMemory>
        requires { count ≤ 2 ^ 31 }
        ensures { IfOk result (λ order. (length order ≡ count) × ((k : ℕ) → k < count → slice_index order k ≡ k)) }
    {
        let numbers = numbers_below(alloc, count)?;
        Ok(Order {
            ranks: numbers.as_slice().to_vec(alloc)?,
            points: numbers,
            part_ends: Vec::new(alloc),
            whole_ends: Vec::new(alloc),
        })
    }

    /// The order in which the points are listed, if each number below their count is; else that of the numbers.
    pub fn of(alloc: Global, points: Vec<u32>) -> Result<Order, OutOfMemory>
        requires { length points.items ≤ 2 ^ 31 }
        ensures { IfOk result (λ order. length order ≡ length points.items) }
    {
        let ranks = ranks_of(alloc, points.as_slice())?;
        if leads_back(ranks.as_slice(), points.as_slice())
            && leads_back(points.as_slice(), ranks.as_slice())
        {
            return Ok(Order {
                ranks,
                points,
                part_ends: Vec::new(alloc),
                whole_ends: Vec::new(alloc),
            });
        }
        Order::numbers(alloc, points.len() as u32)
    }

    /// The same order in parts, and these in wholes: the rank behind the last of each. They rise.
    pub fn in_parts(self, part_ends: Vec<u32>, whole_ends: Vec<u32>) -> Order
        ensures { result ≡ self }
    {
        Order {
            part_ends,
            whole_ends,
            ..self
        }
    }

    /// How many points it has.
    pub fn points(&self) -> u32
        ensures count { result ≡ length self.now }
        ensures order { IsOrder self.now }
    {
        self.ranks.len() as u32
    }

    /// The rank of a point.
    pub(crate) fn rank(&self, point: usize) -> usize
        requires { point < length self.now }
        ensures rank { result ≡ slice_index self.now point }
        ensures order { IsOrder self.now }
    {
        self.ranks[point] as usize
    }

    /// The point that has a rank.
    pub(crate) fn point_at(&self, rank: usize) -> usize
        requires { rank < length self.now }
        ensures there { result < length self.now }
        ensures rank { slice_index self.now result ≡ rank }
        ensures order { IsOrder self.now }
    {
        self.points[rank] as usize
    }

    /// The part in which a rank stands.
    pub(crate) fn part_around(&self, rank: usize) -> Ranks {
        ranks_around(self.part_ends.as_slice(), rank, self.ranks.len())
    }

    /// The whole in which a rank stands.
    pub(crate) fn whole_around(&self, rank: usize) -> Ranks {
        ranks_around(self.whole_ends.as_slice(), rank, self.ranks.len())
    }

    /// The same order once more.
    pub(crate) fn copy(&self, alloc: Global) -> Result<Order, OutOfMemory>
        ensures { IfOk result (λ copy. copy ≡ self.now) }
    {
        Ok(Order {
            ranks: self.ranks.as_slice().to_vec(alloc)?,
            points: self.points.as_slice().to_vec(alloc)?,
            part_ends: self.part_ends.as_slice().to_vec(alloc)?,
            whole_ends: self.whole_ends.as_slice().to_vec(alloc)?,
        })
    }
}
