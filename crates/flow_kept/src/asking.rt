// Words of the analyses' sets that are asked of a kept program.

ghost use Rattle.std.specs.Prelude.{◌≡◌, ◌↔◌, ℕ, ◌+◌, ◌*◌, ◌^◌, ◌<◌, ◌≤◌, length, slice_index, IfOk};
ghost use Rattle.flow_graph.specs.Analyses.{is_backward};
ghost use Rattle.flow_graph.specs.Points.{point_count};
ghost use Rattle.flow_kept.specs.code.Asked.{AreInRun, AreWordsOf, IsAsked};
ghost use Rattle.flow_queries.specs.Queries.{AreQueriesOf, IsAnswerTo, IsQueryOf};
ghost use Rattle.flow_queries.specs.code.Boards.{AreAnswered, Arranges, ordered, queried_in};
ghost use Rattle.gen_kill.specs.Selections.{all_bits};
ghost use Rattle.gk_solve.specs.Solved.{direction_of};

use crate::OutOfMemory;
use crate::table::table_word;
use flow_graph::{Analysis, Graph};
use flow_queries::Query;
use gen_kill::Problem;
use gk_solve::{Routes, SliceWords, Solver};
use std::alloc::Global;

/// Queries of one analysis that follow one another in their order: up to a number, with words from the first to the last one.
#[derive(Clone, Copy)]
pub(crate) struct Run {
    pub(crate) analysis: Analysis,
    pub(crate) until: u32,
    pub(crate) first: u32,
    pub(crate) last: u32,
}

/// The run of queries that begins at a number in their order.
pub(crate) fn run_at(queries: &[Query], places: &[u32], from: u32) -> Run
    requires places { (j : ℕ) → j < length places.now → slice_index places.now j < length queries.now }
    requires few { length places.now < 2 ^ 32 }
    requires there { from < length places.now }
    ensures { AreInRun queries.now places.now from result }
{
    let first = queries[places[from as usize] as usize];
    let mut run = Run {
        analysis: first.analysis,
        until: from + 1,
        first: first.word,
        last: first.word,
    };
    for j in from as usize + 1..places.len() {
        let query = queries[places[j] as usize];
        if query.analysis != run.analysis {
            return run;
        }
        run = Run {
            analysis: run.analysis,
            until: j as u32 + 1,
            first: run.first.min(query.word),
            last: run.last.max(query.word),
        };
    }
    run
}

// The bits of a run's words, of so many bits: from one up to another.
fn bits_of_run(run: Run, bits: u32) -> (u32, u32)
    requires first { run.first ≤ run.last }
    requires last { 64 * run.last < bits }
    requires few { bits < 2 ^ 31 }
    ensures low { result.0 ≡ 64 * run.first }
    ensures ordered { result.0 ≤ result.1 }
    ensures within { result.1 ≤ bits }
    ensures all { (word k : ℕ) → word ≤ run.last → k < 64 → (64 * word + k < result.1) ↔ (64 * word + k < bits) }
{
    (64 * run.first, (64 * run.last + 64).min(bits))
}

// Sees to it that a word is among those that were solved last: of the words from one up to another this is known.
fn solve_to<'a, 'g, 'p>(
    solver: &'a Solver<'g, 'p>,
    routes: &'a Routes,
    slice: &mut SliceWords,
    solved: (u32, u32),
    word: u32,
) -> (u32, u32)
    requires routes { routes.now ≡ direction_of solver.now }
    requires solved { AreWordsOf solver.now slice.old.lo slice.old.hi solved.0 solved.1 slice.old }
    requires word { 64 * word < slice.old.hi }
    ensures solved { AreWordsOf solver.now slice.old.lo slice.old.hi result.0 result.1 slice.new }
    ensures here { (result.0 ≤ word) × (word < result.1) }
{
    if solved.0 <= word && word < solved.1 {
        return solved;
    }
    let until = solver.solve_from(routes, slice, word);
    (word, until)
}

// The bits that are asked, of a slice that has their word.
fn asked_word(
    problem: &Problem<'_, '_>,
    slice: &SliceWords,
    range: (u32, u32),
    solved: (u32, u32),
    query: Query,
) -> u64
    requires solved { AreWordsOf problem.now range.0 range.1 solved.0 solved.1 slice.now }
    requires here { (solved.0 ≤ query.word) × (query.word < solved.1) }
    requires asked { IsAsked problem.now range.0 range.1 query }
    ensures { IsAnswerTo problem.now.program query result }
{
    let bits = slice.word(query.point, query.word);
    table_word(bits, range.0, range.1, query.word, query.analysis.join()) & query.bits
}

/// Queries, and their numbers in the order in which they are solved.
#[derive(Clone, Copy)]
pub(crate) struct InOrder<'a> {
    pub(crate) queries: &'a [Query],
    pub(crate) places: &'a [u32],
}

/// Puts the answers to a run of queries, from a number in their order on, at their places. Fails only where memory runs out.
pub(crate) fn ask_run(
    alloc: Global,
    graph: &Graph<'_>,
    routes: &Routes,
    asked: InOrder<'_>,
    from: u32,
    run: Run,
    answers: &mut [u64],
) -> Result<(), OutOfMemory>
    requires routes { routes.now ≡ record { program = graph.now; backward = is_backward run.analysis } }
    requires queries { AreQueriesOf graph.now asked.queries.now }
    requires arranged { Arranges asked.queries.now (ordered asked.queries.now asked.places.now) asked.places.now }
    requires run { AreInRun asked.queries.now asked.places.now from run }
    requires room { length answers.old ≡ length asked.queries.now }
    requires before { AreAnswered (queried_in graph.now asked.queries.now asked.places.now) from answers.old }
    ensures answered { IfOk result (λ _. AreAnswered (queried_in graph.now asked.entry.queries.now asked.entry.places.now) run.until answers.new) }
{
    let InOrder { queries, places } = asked;
    let problem = Problem::of(alloc, graph, run.analysis)?;
    let range = bits_of_run(run, problem.bits());
    let solver = Solver::of(alloc, problem)?;
    let mut slice = solver.slice(alloc, routes, range.0, range.1)?;
    let mut solved = (0, 0);
    'queries: for j in from..run.until {
        let place = places[j as usize];
        let query = queries[place as usize];
        solved = solve_to(&solver, routes, &mut slice, solved, query.word);
        answers[place as usize] = asked_word(solver.problem(), &slice, range, solved, query);
    }
    Ok(())
}
