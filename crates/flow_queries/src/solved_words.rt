// The words of a problem that were solved last.
ghost use Rattle.std.specs.Prelude.{◌≡◌, ◌↔◌, ℕ, ◌+◌, ◌*◌, ◌<◌, ◌≤◌, ◌||◌, ◌&&◌, true, nat_eq, IfOk};
ghost use Rattle.bit_rows.specs.Words.{has_bit};
ghost use Rattle.flow_graph.specs.Points.{point_count};
ghost use Rattle.flow_graph.specs.Universes.{bits as bits_of};
ghost use Rattle.flow_queries.specs.code.Packing.{HasColumns};
ghost use Rattle.flow_queries.specs.code.Solving.{AreWordsOf, IsAskedWord};
ghost use Rattle.flow_team.specs.Sets.{IsInColumns};
ghost use Rattle.gen_kill.specs.Selections.{all_bits, column_count};
ghost use Rattle.gk_solve.specs.Solved.{direction_of};

use crate::OutOfMemory;
use crate::query::Query;
use gk_solve::{Routes, SliceWords, Solver};
use std::alloc::Global;
use std::marker::Model;

/// The words of a problem that were solved last, with what solves others when they are wanted.
pub(crate) struct SolvedWords<'a, 'g, 'p> {
    solver: &'a Solver<'g, 'p>,
    routes: &'a Routes,
    words: SliceWords,
    // Those from one up to another.
    from: u32,
    until: u32,
}

impl<'a, 'g, 'p> Model for SolvedWords<'a, 'g, 'p> {
    ghost use Rattle.std.specs.Prelude.{◌≡◌};
    ghost use Rattle.flow_queries.specs.code.Solving.{AreWordsOf};
    ghost use Rattle.gen_kill.specs.Selections.{Selection};
    ghost use Rattle.gk_solve.specs.Solved.{direction_of};

    ghost Value = { Selection };

    ghost view = { λ s. s.solver.now };

    ghost invariant = { λ s. (s.routes.now ≡ direction_of s.solver.now) × AreWordsOf s.solver.now s.from s.until s.words };
}

impl Drop for SolvedWords<'_, '_, '_> {
    // By hand: who gives them up then makes one call.
    fn drop(self) {
        let SolvedWords {
            solver: _,
            routes: _,
            words: _,
            from: _,
            until: _,
        } = self;
    }
}

/// Whether a word has the bit of a place.
pub(crate) fn is_one(word: u64, place: u32) -> bool
    requires { place < 64 }
    ensures { result ≡ has_bit word place }
{
    (word >> place) & 1 == 1
}

/// A word with one bit more, if there is one.
pub(crate) fn with_bit_if(word: u64, place: u32, there: bool) -> u64
    requires { place < 64 }
    ensures { (k : ℕ) → k < 64 → has_bit result k ≡ (has_bit word k || (nat_eq k place && there)) }
{
    if there { word | (1 << place) } else { word }
}

// Sees to it that a word is among those that were solved last: of the words from one up to another this is known.
fn solve_to<'a, 'g, 'p>(
    solver: &'a Solver<'g, 'p>,
    routes: &'a Routes,
    words: &mut SliceWords,
    solved: (u32, u32),
    word: u32,
) -> (u32, u32)
    requires routes { routes.now ≡ direction_of solver.now }
    requires solved { AreWordsOf solver.now solved.0 solved.1 words.old }
    requires word { 64 * word < column_count solver.now }
    ensures solved { AreWordsOf solver.now result.0 result.1 words.new }
    ensures here { (result.0 ≤ word) × (word < result.1) }
{
    if solved.0 <= word && word < solved.1 {
        return solved;
    }
    let until = solver.solve_from(routes, words, word);
    (word, until)
}

impl<'a, 'g, 'p> SolvedWords<'a, 'g, 'p> {
    /// All memory in which a problem is solved; none of its words is. Fails only where memory runs out.
    pub(crate) fn of(
        alloc: Global,
        solver: &'a Solver<'g, 'p>,
        routes: &'a Routes,
    ) -> Result<Self, OutOfMemory>
        requires { routes.now ≡ direction_of solver.now }
        ensures { IfOk result (λ words. words ≡ solver.now) }
    {
        let words = solver.slice(alloc, routes, 0, solver.problem().bits())?;
        Ok(SolvedWords {
            solver,
            routes,
            words,
            from: 0,
            until: 0,
        })
    }

    // The word of a number at a point, which is solved first where it was not solved last.
    fn word(&mut self, point: u32, word: u32) -> u64
        requires point { point < point_count self.old.program }
        requires word { 64 * word < column_count self.old }
        ensures same { self.new ≡ self.old }
        ensures tells { (k : ℕ) → k < 64 → (has_bit result k ≡ true) ↔ IsInColumns self.old point (64 * word + k) }
    {
        let solved = (self.from, self.until);
        let (from, until) = solve_to(self.solver, self.routes, &mut self.words, solved, word);
        self.from = from;
        self.until = until;
        self.words.word(point, word)
    }

    // Whether a column's bit is in the may form's set at a point.
    fn has_column(&mut self, point: u32, column: u32) -> bool
        requires point { point < point_count self.old.program }
        requires column { column < column_count self.old }
        ensures same { self.new ≡ self.old }
        ensures tells { (result ≡ true) ↔ IsInColumns self.old point column }
    {
        let word = self.word(point, column / 64);
        is_one(word, column % 64)
    }

    // Whether a query asks for the bit of a place, and it is in the may form's set at the query's point.
    fn has(&mut self, query: Query, place: u32) -> bool
        requires place { place < 64 }
        requires point { query.point < point_count self.old.program }
        requires word { 64 * query.word < bits_of self.old.program query.analysis }
        requires columns { HasColumns self.old query }
        ensures same { self.new ≡ self.old }
        ensures tells { (result ≡ true) ↔ ((has_bit query.bits place ≡ true)
            × IsInColumns (all_bits self.old.program query.analysis) query.point (64 * query.word + place)) }
    {
        if !is_one(query.bits, place) {
            return false;
        }
        let bits = self.solver.problem().graph().bits(query.analysis);
        let bit = 64 * query.word + place;
        if bit >= bits {
            return false;
        }
        let Some(column) = self.solver.problem().column(bit) else {
            unreachable!();
        };
        self.has_column(query.point, column)
    }

    // The bits that a query asks for and that are in the may form's set at its point, one after the other.
    fn gathered(&mut self, query: Query) -> u64
        requires point { query.point < point_count self.old.program }
        requires word { 64 * query.word < bits_of self.old.program query.analysis }
        requires columns { HasColumns self.old query }
        ensures same { self.new ≡ self.old }
        ensures tells { IsAskedWord self.old.program query result }
    {
        let mut word = 0;
        for place in 0..64 {
            let there = self.has(query, place);
            word = with_bit_if(word, place, there);
        }
        word
    }

    /// The bits that a query asks for and that are in the may form's set at its point.
    pub(crate) fn asked(&mut self, query: Query) -> u64
        requires point { query.point < point_count self.old.program }
        requires word { 64 * query.word < bits_of self.old.program query.analysis }
        requires columns { HasColumns self.old query }
        ensures same { self.new ≡ self.old }
        ensures tells { IsAskedWord self.old.program query result }
    {
        if query.bits == 0 {
            return 0;
        }
        if self.solver.problem().is_whole() {
            return self.word(query.point, query.word) & query.bits;
        }
        self.gathered(query)
    }
}
