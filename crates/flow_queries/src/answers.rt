// What was asked, with its answers.
ghost use Rattle.std.specs.List.{range_with_len};
ghost use Rattle.std.specs.Prelude.{◌≡◌, ◌↔◌, ℕ, ◌<◌, ◌≤◌, false, true, Some, length, map, slice_get, slice_index, slice_index_or, take, IfOk};
ghost use Rattle.bit_rows.specs.RowSet.{contains};
ghost use Rattle.bit_rows.specs.RowTable.{set_at};
ghost use Rattle.flow_graph.specs.Points.{point_count};
ghost use Rattle.flow_graph.specs.declared.analysis.Analysis.TheVariants.{Reach, Live, Avail, Busy};
ghost use Rattle.flow_queries.specs.Queries.{AreAnswers, AreQueriesOf, IsAnswerTo, IsQueryOf, flags_of};
ghost use Rattle.flow_team.specs.Tables.{IsTableOf, facts_of};
ghost use Rattle.flow_queries.specs.declared.query.Query.{Query as QueryValue};
ghost use Rattle.flow_queries.specs.code.Boards.{IsWanted};
ghost use Rattle.tac_program.specs.Programs.{Program};

use crate::OutOfMemory;
use crate::queried::QueriedWords;
use crate::query::Query;
use crate::solvers::GraphSolvers;
use flow_graph::{Analysis, Graph};
use flow_team::Table;
use slice_board::PostedWords;
use std::alloc::Global;
use std::marker::Model;

/// Queries of a program, the word that answers each, and for each point whether a valid path leads to it, and from it to the end of `main`.
pub struct Answers {
    queries: Vec<Query>,
    words: Vec<u64>,
    forward: Vec<bool>,
    backward: Vec<bool>,
}

impl Model for Answers {
    ghost use Rattle.flow_queries.specs.Queries.{Replies};

    ghost Value = { Replies };

    ghost view = { λ a. record { queries = a.queries.items; words = a.words.items; forward = a.forward.items; backward = a.backward.items } };
}

impl Drop for Answers {
    // By hand: who gives it up then makes one call.
    fn drop(self) {
        let Answers {
            queries: _,
            words: _,
            forward: _,
            backward: _,
        } = self;
    }
}

/// The query of a number.
pub(crate) fn query_at(queries: &[Query], q: usize) -> Query
    requires { q < length queries.now }
    ensures { slice_get queries.now q ≡ Some result }
{
    queries[q]
}

impl Answers {
    /// The answers, of what was posted, and the solvers.
    pub(crate) fn of<'g, 'p>(
        alloc: Global,
        queried: QueriedWords<'g, 'p>,
        posted: &PostedWords,
    ) -> Result<(Answers, GraphSolvers<'g, 'p>), OutOfMemory>
        requires one { length posted.now.flags ≡ 1 }
        requires rows { (point bit : ℕ) → (contains (set_at posted.now point) bit ≡ true) ↔ IsWanted queried point bit }
        ensures queries { IfOk result (λ r. r.0.queries ≡ queried.entry.queries) }
        ensures answers { IfOk result (λ r. AreAnswers queried.entry.program r.0) }
        ensures solvers { IfOk result (λ r. r.1 ≡ queried.entry.program) }
    {
        let mut words = vec![in alloc; 0u64; queried.queries().len()]?;
        queried.put_answers(posted, words.as_mut_slice());
        let forward = queried.flags(alloc, Analysis::Reach)?;
        let backward = queried.flags(alloc, Analysis::Live)?;
        let (queries, solvers) = queried.into_parts();
        let answers = Answers::of_words(queries, words, forward, backward);
        Ok((answers, solvers))
    }

    /// Queries with a word each, and with the path flags of all points forward and backward.
    pub fn of_words(
        queries: Vec<Query>,
        words: Vec<u64>,
        forward: Vec<bool>,
        backward: Vec<bool>,
    ) -> Answers
        ensures { result ≡ record { queries = queries.items; words = words.items; forward = forward.items; backward = backward.items } }
    {
        Answers {
            queries,
            words,
            forward,
            backward,
        }
    }

    /// Gives up all queries but so many, the first ones, and their memory. The condition: there are as many, each with its answer. Fails only
    /// where memory runs out.
    pub fn truncate(&mut self, alloc: Global, count: usize) -> Result<(), OutOfMemory>
        requires most { count ≤ length self.old.queries }
        requires answered { length self.old.words ≡ length self.old.queries }
        ensures queries { IfOk result (λ _. self.new.queries ≡ take count self.old.queries) }
        ensures answers { IfOk result (λ _. (program : Program) → AreAnswers program self.old → AreAnswers program self.new) }
    {
        let mut queries = Vec::with_capacity(alloc, count)?;
        let mut words = Vec::with_capacity(alloc, count)?;
        for number in 0..count {
            queries.push(self.queries[number])?;
            words.push(self.words[number])?;
        }
        self.queries = queries;
        self.words = words;
        Ok(())
    }

    /// How many queries there are.
    pub fn count(&self) -> usize
        ensures { result ≡ length self.now.queries }
    {
        self.queries.len()
    }

    /// The query of a number.
    pub fn query(&self, number: usize) -> Query
        requires { number < length self.now.queries }
        ensures { slice_get self.now.queries number ≡ Some result }
    {
        query_at(self.queries.as_slice(), number)
    }

    /// The answer to the query of a number: of its word of the set the bits that are asked, with 0 at all other places.
    pub fn word(&self, number: usize) -> u64
        requires { number < length self.now.words }
        ensures { result ≡ slice_index self.now.words number }
    {
        self.words[number]
    }

    /// Whether the analysis has a valid path at the point: one that leads to it, or for a backward analysis from it to the end of `main`.
    pub fn has_path(&self, analysis: Analysis, point: u32) -> bool
        requires { point < length (flags_of self.now analysis) }
        ensures { result ≡ slice_index_or (flags_of self.now analysis) point false }
    {
        match analysis {
            Analysis::Reach | Analysis::Avail => self.forward[point as usize],
            Analysis::Live | Analysis::Busy => self.backward[point as usize],
        }
    }
}
