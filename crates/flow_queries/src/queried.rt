// What is asked of a graph, and what solves it.
ghost use Rattle.std.specs.Prelude.{◌≡◌, ℕ, ◌*◌, ◌^◌, ◌<◌, ◌≤◌, ◌↔◌, true, false, Some, length, slice_get, slice_index, IfOk, IfErr};
ghost use Rattle.bit_rows.specs.RowSet.{contains};
ghost use Rattle.bit_rows.specs.RowTable.{set_at};
ghost use Rattle.gen_kill.specs.Selections.{may_form};
ghost use Rattle.gk_solve.specs.Solved.{HasPathFlags};
ghost use Rattle.slice_board.specs.Boards.{IsOf};
ghost use Rattle.flow_queries.specs.Queries.{AreQueriesOf, IsAnswerTo, IsQueryOf};
ghost use Rattle.slice_board.specs.Teams.{PostsMore};
ghost use Rattle.flow_queries.specs.code.Boards.{AreDone, Arranges, IsQueryBoard, IsWanted, ordered};
ghost use Rattle.flow_queries.specs.code.Cuts.{AreAlike};
ghost use Rattle.flow_queries.specs.code.Directions.{selection_of};
ghost use Rattle.flow_queries.specs.code.Packing.{ArePacked, HasAsked, HasColumns};
ghost use Rattle.flow_queries.specs.code.Solving.{IsAskedWord};
ghost use Rattle.flow_queries.specs.code.Splits.{AreSplit, IsSplit};
ghost use Rattle.flow_queries.specs.declared.query.Query.{Query as QueryValue};
ghost use Rattle.tac_program.specs.Programs.{Program};

use crate::OutOfMemory;
use crate::packing::solver_among;
use crate::query::Query;
use crate::solved_words::SolvedWords;
use crate::solvers::GraphSolvers;
use crate::splitting::Split;
use bit_rows::words_for;
use flow_graph::Analysis;
use flow_team::{SlicePlan, complement_mask};
use gen_kill::Problem;
use gk_solve::Solver;
use slice_board::{Pass, PostedWords, Solve, Wanted, WordBoard};
use std::alloc::Global;
use std::marker::Model;

/// What is asked of a graph, and the solvers of its analyses.
pub(crate) struct QueriedWords<'g, 'p> {
    solvers: GraphSolvers<'g, 'p>,
    // By the analyses' numbers: of the bits that are left alone, where these are solved side by side.
    packed: Vec<Option<Solver<'g, 'p>>>,
    queries: Vec<Query>,
    // Of each query the bits that are left to be solved, and the word of the others.
    split: Split,
    places: Vec<u32>,
}

impl<'g, 'p> Model for QueriedWords<'g, 'p> {
    ghost use Rattle.flow_queries.specs.code.Boards.{Queried, IsArranged, left_in};
    ghost use Rattle.flow_queries.specs.code.Packing.{ArePacked};
    ghost use Rattle.flow_queries.specs.code.Splits.{AreSplit};

    ghost Value = { Queried };

    ghost view = { λ s. left_in s.solvers s.queries.items s.split.left.items s.places.items };

    ghost invariant = { λ s. IsArranged (left_in s.solvers s.queries.items s.split.left.items s.places.items)
        × ArePacked s.solvers s.split.left.items s.packed.items
        × AreSplit s.solvers s.queries.items s.split.left.items s.split.found.items };
}

impl Drop for QueriedWords<'_, '_> {
    // By hand: who gives it up then makes one call.
    fn drop(self) {
        let QueriedWords {
            solvers: _,
            packed: _,
            queries: _,
            split: _,
            places: _,
        } = self;
    }
}

impl<'g, 'p> Wanted for QueriedWords<'g, 'p> {
    ghost wants = { IsWanted };
}

/// The word of a problem in which the first bit stands that a query asks for. It bears on the order in which queries are solved alone.
pub(crate) fn first_word(problem: &Problem<'_, '_>, query: Query) -> u32 {
    let bit = query
        .word
        .saturating_mul(64)
        .saturating_add(query.bits.trailing_zeros());
    problem.column(bit).unwrap_or(0) / 64
}

// What was found of a query, and what was solved of the rest of it.
fn joined(found: u64, solved: u64) -> u64
    ensures { (program : Program) (query rest : QueryValue) → IsSplit program query rest found → IsAskedWord program rest solved
        → IsAskedWord program query result }
{
    found | solved
}

impl<'g, 'p> QueriedWords<'g, 'p> {
    /// What is asked of a graph, with the solvers of the bits that are asked alone, and the order in which the queries are solved.
    pub(crate) fn of(
        solvers: GraphSolvers<'g, 'p>,
        packed: Vec<Option<Solver<'g, 'p>>>,
        queries: Vec<Query>,
        split: Split,
        places: Vec<u32>,
    ) -> Self
        requires queries { AreQueriesOf solvers queries.items }
        requires few { 64 * length queries.items < 2 ^ 32 }
        requires packed { ArePacked solvers split.left.items packed.items }
        requires split { AreSplit solvers queries.items split.left.items split.found.items }
        requires arranged { Arranges queries.items (ordered queries.items places.items) places.items }
        ensures program { result.program ≡ solvers.entry }
        ensures queries { result.queries ≡ queries.items }
        ensures order { result.order ≡ ordered queries.items places.items }
    {
        QueriedWords {
            solvers,
            packed,
            queries,
            split,
            places,
        }
    }

    /// The query of a number in the order in which they are solved.
    pub(crate) fn query(&self, j: u32) -> Query
        requires { j < length self.now.order }
        ensures query { slice_get self.now.order j ≡ Some result }
        ensures queries { AreQueriesOf self.now.program self.now.order }
    {
        let place = self.places[j as usize];
        self.queries[place as usize]
    }

    /// How many queries there are.
    pub(crate) fn count(&self) -> u32
        ensures count { result ≡ length self.now.order }
        ensures few { 64 * result < 2 ^ 32 }
    {
        self.places.len() as u32
    }

    // The solver of the bits of an analysis that are left.
    fn solver(&self, analysis: Analysis) -> &Solver<'g, 'p>
        ensures program { result.now.program ≡ self.now.program }
        ensures asked { HasAsked self.now.left analysis result.now }
    {
        solver_among(&self.solvers, self.packed.as_slice(), analysis)
    }

    /// Whether a slice of this plan ends between two queries that follow one another: where the analysis or the slice's words change.
    pub(crate) fn ends_between(&self, plan: SlicePlan, before: Query, here: Query) -> bool
        ensures { result ≡ false → before.analysis ≡ here.analysis }
    {
        if before.analysis != here.analysis {
            return true;
        }
        let problem = self.solver(here.analysis).problem();
        let width = plan.slice_words(problem.bits());
        first_word(problem, before) / width != first_word(problem, here) / width
    }

    // The answer to the query of a number in that order, of what was posted of it: where the analysis is over every path, of the bits that are
    // asked those that were not posted.
    fn answer(&self, posted: &PostedWords, j: u32) -> u64
        requires there { j < length self.now.order }
        requires one { length posted.now.flags ≡ 1 }
        requires rows { (point bit : ℕ) → (contains (set_at posted.now point) bit ≡ true) ↔ IsWanted self.now point bit }
        ensures { (query : QueryValue) → slice_get self.now.order j ≡ Some query → IsAnswerTo self.now.program query result }
    {
        let query = self.query(j);
        let bits = self.solvers.solver(query.analysis).problem().bits();
        posted.word(0, j) ^ (complement_mask(bits, query.analysis.join(), query.word) & query.bits)
    }

    /// Puts the answers to their queries' numbers, of what was posted.
    pub(crate) fn put_answers(&self, posted: &PostedWords, words: &mut [u64])
        requires one { length posted.now.flags ≡ 1 }
        requires rows { (point bit : ℕ) → (contains (set_at posted.now point) bit ≡ true) ↔ IsWanted self.now point bit }
        requires count { length words.old ≡ length self.now.queries }
        ensures count { length words.new ≡ length self.now.queries }
        ensures answered { (q : ℕ) (query : QueryValue) → slice_get self.now.queries q ≡ Some query
            → IsAnswerTo self.now.program query (slice_index words.new q) }
    {
        for j in 0..self.places.len() {
            let word = self.answer(posted, j as u32);
            words[self.places[j] as usize] = word;
        }
    }

    /// The queries as they were given.
    pub(crate) fn queries(&self) -> &[Query]
        ensures { result.now ≡ self.now.queries }
    {
        self.queries.as_slice()
    }

    /// The path flags by which an analysis is solved. Fails only where memory runs out.
    pub(crate) fn flags(&self, alloc: Global, analysis: Analysis) -> Result<Vec<bool>, OutOfMemory>
        ensures { IfOk result (λ flags. HasPathFlags (may_form (selection_of self.now.program analysis)) flags.items) }
    {
        self.solvers.flags(alloc, analysis)
    }

    /// The queries, and the solvers.
    pub(crate) fn into_parts(self) -> (Vec<Query>, GraphSolvers<'g, 'p>)
        ensures queries { result.0.items ≡ self.entry.queries }
        ensures solvers { result.1 ≡ self.entry.program }
    {
        let QueriedWords {
            solvers,
            packed: _,
            queries,
            split: _,
            places: _,
        } = self;
        (queries, solvers)
    }

    // Posts what is wanted of a query, unless it is nothing.
    fn post_word(
        &self,
        board: &WordBoard<QueriedWords<'g, 'p>>,
        pass: &mut Pass<QueriedWords<'g, 'p>>,
        j: u32,
        _query: Query,
        word: u64,
    )
        requires on { IsQueryBoard self.now board.now }
        requires of { IsOf board.now pass.old }
        requires there { slice_get self.now.order j ≡ Some _query }
        requires tells { IsAskedWord self.now.program _query word }
        ensures more { PostsMore pass.old pass.new }
        ensures done { AreDone self.now (λ w. w ≡ j) pass.new.posted }
    {
        if word == 0 {
            return;
        }
        board.post(pass, 0, j, word);
    }

    // What is left of the query of a number in the order, and the word that was found.
    fn left(&self, j: u32) -> (Query, u64)
        requires { j < length self.now.order }
        ensures left { slice_get self.now.left (slice_index self.now.places j) ≡ Some result.0 }
        ensures of { IsQueryOf self.now.program result.0 }
        ensures split { (query : QueryValue) → slice_get self.now.order j ≡ Some query → IsSplit self.now.program query result.0 result.1 }
    {
        let place = self.places[j as usize] as usize;
        let rest = self.split.left[place];
        let found = self.split.found[place];
        (rest, found)
    }

    // The word of what is wanted of the query of a number in the order: of what is left, and of what was found.
    fn wanted_word(&self, words: &mut SolvedWords<'_, 'g, 'p>, j: u32) -> u64
        requires there { j < length self.now.order }
        requires program { words.old.program ≡ self.now.program }
        requires asked { (rest : QueryValue) → slice_get self.now.left (slice_index self.now.places j) ≡ Some rest → HasColumns words.old rest }
        ensures same { words.new ≡ words.old }
        ensures tells { (query : QueryValue) → slice_get self.now.order j ≡ Some query → IsAskedWord self.now.program query result }
    {
        let (rest, found) = self.left(j);
        let solved = words.asked(rest);
        joined(found, solved)
    }

    // Posts what is wanted of the query of a number in the order, of whose analysis the words are.
    fn post_query(
        &self,
        board: &WordBoard<QueriedWords<'g, 'p>>,
        pass: &mut Pass<QueriedWords<'g, 'p>>,
        words: &mut SolvedWords<'_, 'g, 'p>,
        j: u32,
    )
        requires on { IsQueryBoard self.now board.now }
        requires of { IsOf board.now pass.old }
        requires there { j < length self.now.order }
        requires program { words.old.program ≡ self.now.program }
        requires asked { (rest : QueryValue) → slice_get self.now.left (slice_index self.now.places j) ≡ Some rest → HasColumns words.old rest }
        ensures same { words.new ≡ words.old }
        ensures more { PostsMore pass.old pass.new }
        ensures done { AreDone self.now (λ q. q ≡ j) pass.new.posted }
    {
        let query = self.query(j);
        let word = self.wanted_word(words, j);
        self.post_word(board, pass, j, query, word);
    }

    // Solves what is asked from one query up to another, all of one analysis, and posts it. All memory is taken first.
    fn post_range(
        &self,
        alloc: Global,
        board: &WordBoard<QueriedWords<'g, 'p>>,
        pass: &mut Pass<QueriedWords<'g, 'p>>,
        from: u32,
        until: u32,
    ) -> Result<(), OutOfMemory>
        requires on { IsQueryBoard self.now board.now }
        requires of { IsOf board.now pass.old }
        requires some { from < until }
        requires until { until ≤ length self.now.order }
        requires one { (j : ℕ) → from ≤ j → j < until → AreAlike self.now.order from j }
        ensures more { PostsMore pass.old pass.new }
        ensures done { IfOk result (λ _. AreDone self.now (λ j. (from ≤ j) × (j < until)) pass.new.posted) }
        ensures refused { IfErr result (λ _. pass.new ≡ pass.old) }
    {
        let first = self.query(from);
        let solver = self.solver(first.analysis);
        let routes = self.solvers.routes(first.analysis);
        let mut words = SolvedWords::of(alloc, solver, routes)?;
        'queries: for j in from..until {
            self.post_query(board, pass, &mut words, j);
        }
        Ok(())
    }
}

impl<'g, 'p> Solve<QueriedWords<'g, 'p>> for QueriedWords<'g, 'p> {
    ghost is_on = { IsQueryBoard };

    fn post_slice(
        &self,
        alloc: Global,
        board: &WordBoard<QueriedWords<'g, 'p>>,
        pass: &mut Pass<QueriedWords<'g, 'p>>,
        slice: u32,
    ) -> Result<(), OutOfMemory> {
        let cut = board.cut();
        // Its contract tells that the slices lie within the bits.
        let _ = cut.slices();
        let (lo, hi) = cut.range(slice);
        self.post_range(alloc, board, pass, lo / 64, words_for(hi))
    }
}
