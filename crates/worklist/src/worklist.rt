// A set of points, kept in words of 64 bits by their ranks, from which one is taken at a time.
ghost use Rattle.std.specs.Prelude.{◌≡◌, ℕ, ◌+◌, ◌*◌, ◌/◌, ◌<◌, ◌≤◌, ◌^◌, IfOk, MatchOption, IfSome, false, true, length, replicate, slice_index};
ghost use Rattle.std.specs.Prelude.{slice_index_or, slice_set};
ghost use Rattle.worklist.specs.Worklist.{IsMarked, AreClear};
ghost use Rattle.worklist.specs.Tables.MarkWords.{AreFull, is_marked_in};

use crate::OutOfMemory;
use crate::order::{Order, Ranks};
use bit_rows::{low_ones, words_for};
use std::alloc::Global;
use std::marker::Model;

// Where the next point is looked for.
#[derive(Clone, Copy)]
struct Position {
    // The rank from which on.
    next: usize,
    // The part in which the last one stood, and the whole.
    part: Ranks,
    whole: Ranks,
    // Whether the whole's parts are gone over from below.
    rises: bool,
}

/// A set of points, from which one is taken at a time. It is seen as a list that tells for each point whether it is marked.
///
/// It has a copy of the order by which they are taken. The parts of the order are taken up again, one by one, until none of their
/// points is left.
pub struct Worklist {
    order: Order,
    words: Vec<u64>,
    position: Position,
    taken: u64,
}

impl Model for Worklist {
    ghost use Rattle.std.specs.Prelude.{List, Bool, length};
    ghost use Rattle.worklist.specs.Tables.MarkWords.{marks_of, AreMarkWords};

    ghost Value = { List Bool };

    ghost view = { λ worklist. marks_of worklist.words.items worklist.order };

    ghost invariant = { λ worklist. AreMarkWords (length worklist.order) worklist.words.items };
}

impl Drop for Worklist {
    // By hand: who gives marks up then makes one call.
    fn drop(self) {
        let Worklist {
            order: _,
            words: _,
            position: _,
            taken: _,
        } = self;
    }
}

// The first marked rank from one on, in its word and the words behind it, if it is below a limit.
#[inline(always)]
fn first_marked(words: &[u64], from: usize, to: usize) -> Option<usize>
    requires few { length words.now ≤ 2 ^ 25 }
    ensures { IfSome result (λ rank. is_marked_in words.now rank ≡ true) }
{
    let mut mask = u64::MAX << (from % 64);
    for at in from / 64..words.len().min(to / 64 + 1) {
        let word = words[at] & mask;
        if word != 0 {
            let rank = 64 * at + word.trailing_zeros() as usize;
            return if rank < to { Some(rank) } else { None };
        }
        mask = u64::MAX;
    }
    None
}

// The lowest marked rank of all.
fn lowest_marked(words: &[u64]) -> Option<usize>
    requires few { length words.now ≤ 2 ^ 25 }
    ensures { MatchOption result
        ((k : ℕ) → k < length words.now → slice_index words.now k ≡ 0)
        (λ rank. is_marked_in words.now rank ≡ true) }
{
    for at in 0..words.len() {
        let word = words[at];
        if word != 0 {
            return Some(64 * at + word.trailing_zeros() as usize);
        }
    }
    None
}

// Whether a rank is marked.
fn is_marked(words: &[u64], rank: usize) -> bool
    requires { rank / 64 < length words.now }
    ensures { result ≡ is_marked_in words.now rank }
{
    let word = words[rank / 64];
    (word >> (rank % 64)) & 1 == 1
}

// The last marked rank before one, if it is not below a limit.
fn last_marked(words: &[u64], from: usize, to: usize) -> Option<usize>
    requires few { length words.now ≤ 2 ^ 25 }
    ensures { IfSome result (λ rank. is_marked_in words.now rank ≡ true) }
{
    let end = words.len().min(to.div_ceil(64));
    for back in 0..end.saturating_sub(from / 64) {
        let at = end - 1 - back;
        let word = words[at] & low_ones(to.saturating_sub(64 * at).min(64) as u32);
        if word != 0 {
            let rank = 64 * at + 63usize.saturating_sub(word.leading_zeros() as usize);
            let found = rank >= from && is_marked(words, rank);
            return if found { Some(rank) } else { None };
        }
    }
    None
}

// A marked rank of the whole outside the part: the next above where ranks rise, the next below where they fall, else on the other side.
fn marked_beside(words: &[u64], position: Position) -> Option<usize>
    requires few { length words.now ≤ 2 ^ 25 }
    ensures { IfSome result (λ rank. is_marked_in words.now rank ≡ true) }
{
    let Position {
        next: _,
        part,
        whole,
        rises,
    } = position;
    if rises {
        match first_marked(words, part.end, whole.end) {
            Some(rank) => Some(rank),
            None => last_marked(words, whole.start, part.start),
        }
    } else {
        match last_marked(words, whole.start, part.start) {
            Some(rank) => Some(rank),
            None => first_marked(words, part.end, whole.end),
        }
    }
}

// A marked rank outside the part: of its whole, else behind that, else the lowest of all.
fn marked_elsewhere(words: &[u64], position: Position) -> Option<usize>
    requires few { length words.now ≤ 2 ^ 25 }
    ensures { MatchOption result
        ((k : ℕ) → k < length words.now → slice_index words.now k ≡ 0)
        (λ rank. is_marked_in words.now rank ≡ true) }
{
    if let Some(rank) = marked_beside(words, position) {
        return Some(rank);
    }
    match first_marked(words, position.whole.end, usize::MAX) {
        Some(rank) => Some(rank),
        None => lowest_marked(words),
    }
}

// The lowest marked rank of a part in which one stands.
fn lowest_in(words: &[u64], part: Ranks, rank: usize) -> usize
    requires few { length words.now ≤ 2 ^ 25 }
    requires marked { is_marked_in words.now rank ≡ true }
    ensures { is_marked_in words.now result ≡ true }
{
    match first_marked(words, part.start, part.end) {
        Some(lowest) => lowest,
        None => rank,
    }
}

// The lowest marked rank of the next part that has one.
fn first_elsewhere(words: &[u64], order: &Order, position: Position) -> Option<usize>
    requires few { length words.now ≤ 2 ^ 25 }
    ensures { MatchOption result
        ((k : ℕ) → k < length words.now → slice_index words.now k ≡ 0)
        (λ rank. is_marked_in words.now rank ≡ true) }
{
    match marked_elsewhere(words, position) {
        Some(rank) => Some(lowest_in(words, order.part_around(rank), rank)),
        None => None,
    }
}

// The next marked rank: from one on in its part, else before it there, else in another part.
#[inline(always)]
fn next_marked(words: &[u64], order: &Order, position: Position) -> Option<usize>
    requires few { length words.now ≤ 2 ^ 25 }
    ensures { MatchOption result
        ((k : ℕ) → k < length words.now → slice_index words.now k ≡ 0)
        (λ rank. is_marked_in words.now rank ≡ true) }
{
    let Position {
        next,
        part,
        whole: _,
        rises: _,
    } = position;
    if let Some(rank) = first_marked(words, next, part.end) {
        return Some(rank);
    }
    match first_marked(words, part.start, next) {
        Some(rank) => Some(rank),
        None => first_elsewhere(words, order, position),
    }
}

// Fills the words of so many bits.
fn fill_words(words: &mut [u64], bits: usize)
    requires { (bits ≤ 64 * length words.old) × (64 * length words.old < bits + 64) }
    ensures { AreFull bits words.new }
{
    words.fill(u64::MAX);
    if bits % 64 != 0 {
        words[bits / 64] = low_ones((bits % 64) as u32);
    }
}

impl Worklist {
    /// No point of an order's.
    pub fn none(alloc: Global, order: &Order) -> Result<Worklist, OutOfMemory>
        ensures { IfOk result (λ worklist. worklist ≡ replicate (length order.now) false) }
    {
        let points = order.points();
        Ok(Worklist {
            order: order.copy(alloc)?,
            words: vec![in alloc; 0u64; words_for(points) as usize]?,
            position: Position {
                next: 0,
                part: Ranks::none(),
                whole: Ranks::none(),
                rises: true,
            },
            taken: 0,
        })
    }

    /// How many points there are, marked or not.
    pub fn points(&self) -> u32
        ensures { result ≡ length self.now }
    {
        self.order.points()
    }

    /// How often a point was taken so far: what a solver's work is told by. No contract speaks of it.
    pub fn taken(&self) -> u64 {
        self.taken
    }

    /// Puts a point into the set.
    pub fn mark(&mut self, point: usize)
        requires { point < length self.old }
        ensures { self.new ≡ slice_set self.old point true }
    {
        let rank = self.order.rank(point);
        let at = rank / 64;
        self.words[at] |= 1 << (rank % 64);
    }

    // Goes into the part and the whole around a rank, and notes whether ranks rise.
    fn go_around(&mut self, rank: usize)
        ensures { self.new ≡ self.old }
    {
        let Position {
            next: _,
            part,
            whole,
            rises: _,
        } = self.position;
        self.position = Position {
            next: rank.saturating_add(1),
            part: self.order.part_around(rank),
            whole: self.order.whole_around(rank),
            rises: rank >= part.end || !whole.has(rank),
        };
    }

    // Goes behind a rank, and where it leads out of the part, into the part around it.
    #[inline(always)]
    fn go_behind(&mut self, rank: usize)
        ensures { self.new ≡ self.old }
    {
        if self.position.part.has(rank) {
            self.position.next = rank.saturating_add(1);
        } else {
            self.go_around(rank);
        }
    }

    /// Puts all points into the set.
    pub fn mark_all(&mut self)
        ensures { self.new ≡ replicate (length self.old) true }
    {
        let points = self.order.points() as usize;
        fill_words(self.words.as_mut_slice(), points);
        self.position.next = 0;
    }

    /// Takes out a point: one of the part in which the last one stood, as long as there is one, and else of the whole around it. In a
    /// part ranks rise, and from its end on it is gone over again. A whole is gone over part by part, up and down by turns.
    #[inline(always)]
    pub fn take(&mut self) -> Option<usize>
        ensures { MatchOption result
            (AreClear self.old × (self.new ≡ self.old))
            (λ point. IsMarked self.old point × (self.new ≡ slice_set self.old point false)) }
    {
        let words = self.words.as_slice();
        let rank = match next_marked(words, &self.order, self.position) {
            Some(rank) => rank,
            None => return None,
        };
        let point = self.order.point_at(rank);
        self.words[rank / 64] &= !(1 << (rank % 64));
        self.taken = self.taken.saturating_add(1);
        self.go_behind(rank);
        Some(point)
    }
}
