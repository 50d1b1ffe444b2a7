// Problems of the bits that are asked.
ghost use Rattle.std.specs.Prelude.{◌≡◌, ◌⊎◌, ℕ, ◌+◌, ◌/◌, ◌<◌, ◌||◌, true, Some, length, slice_get, slice_index, IfOk};
ghost use Rattle.bit_rows.specs.Words.{has_bit};
ghost use Rattle.flow_graph.specs.AnalysisNumbers.{analysis_number};
ghost use Rattle.flow_queries.specs.Queries.{AreQueriesOf};
ghost use Rattle.flow_queries.specs.code.Directions.{selection_of};
ghost use Rattle.flow_queries.specs.code.Packing.{AreAskedWords, AreMarksOf, ArePacked, IsPackedFor};

use crate::OutOfMemory;
use crate::query::Query;
use crate::solved_words::is_one;
use crate::solvers::GraphSolvers;
use bit_rows::words_for;
use flow_graph::{Analysis, Graph};
use gen_kill::{Problem, marked_numbers};
use gk_solve::Solver;
use std::alloc::Global;

// The bits of either word.
fn either(first: u64, second: u64) -> u64
    ensures { (k : ℕ) → has_bit result k ≡ (has_bit first k || has_bit second k) }
{
    first | second
}

// Adds the bits that a query asks for, if it is of this analysis.
fn add_asked(words: &mut [u64], analysis: Analysis, query: Query)
    ensures kept { (w k : ℕ) → has_bit (slice_index words.old w) k ≡ true → has_bit (slice_index words.new w) k ≡ true }
    ensures asked { query.analysis ≡ analysis → query.word < length words.old → (k : ℕ) → has_bit query.bits k ≡ true
        → has_bit (slice_index words.new query.word) k ≡ true }
{
    let word = query.word as usize;
    if query.analysis == analysis && word < words.len() {
        words[word] = either(words[word], query.bits);
    }
}

// The bits of an analysis that are asked, in so many words.
fn asked_words(
    alloc: Global,
    queries: &[Query],
    analysis: Analysis,
    count: u32,
) -> Result<Vec<u64>, OutOfMemory>
    ensures count { IfOk result (λ words. length words.items ≡ count) }
    ensures asked { IfOk result (λ words. AreAskedWords queries.now analysis (length queries.now) words.items) }
{
    let mut words = vec![in alloc; 0u64; count as usize]?;
    for query in queries {
        add_asked(words.as_mut_slice(), analysis, *query);
    }
    Ok(words)
}

// The bits of words as marks, so many.
fn marks_of(alloc: Global, words: &[u64], bits: u32) -> Result<Vec<bool>, OutOfMemory>
    requires { length words.now ≡ (bits + 63) / 64 }
    ensures count { IfOk result (λ marks. length marks.items ≡ bits) }
    ensures each { IfOk result (λ marks. AreMarksOf words.now marks.items) }
{
    let mut marks = Vec::with_capacity(alloc, bits as usize)?;
    for bit in 0..bits {
        marks.push(is_one(words[(bit / 64) as usize], bit % 64))?;
    }
    Ok(marks)
}

// How many words have a bit.
fn filled(words: &[u64]) -> usize {
    let mut count = 0usize;
    for word in words {
        if *word != 0 {
            count = count.saturating_add(1);
        }
    }
    count
}

// The solver of the bits of an analysis that are asked, side by side; None where that makes more than half as many words as have such a bit.
fn packed_solver<'g, 'p>(
    alloc: Global,
    graph: &'g Graph<'p>,
    analysis: Analysis,
    queries: &[Query],
) -> Result<Option<Solver<'g, 'p>>, OutOfMemory>
    requires { AreQueriesOf graph.now queries.now }
    ensures { IfOk result (IsPackedFor graph.now queries.now analysis) }
{
    let bits = graph.bits(analysis);
    let words = asked_words(alloc, queries, analysis, words_for(bits))?;
    let marks = marks_of(alloc, words.as_slice(), bits)?;
    let chosen = marked_numbers(alloc, marks.as_slice())?;
    if chosen.len().div_ceil(64) > filled(words.as_slice()) / 2 {
        return Ok(None);
    }
    let problem = Problem::of_chosen(alloc, graph, analysis, chosen)?;
    Ok(Some(Solver::of(alloc, problem)?))
}

/// The solvers of the bits of each analysis that are asked of a graph, in the order of the analyses' numbers: None where all bits are solved.
/// The condition: the queries are of the graph. Fails only where memory runs out.
pub(crate) fn packed_solvers<'g, 'p>(
    alloc: Global,
    graph: &'g Graph<'p>,
    queries: &[Query],
) -> Result<Vec<Option<Solver<'g, 'p>>>, OutOfMemory>
    requires { AreQueriesOf graph.now queries.now }
    ensures { IfOk result (λ packed. ArePacked graph.now queries.now packed.items) }
{
    let mut packed = Vec::new(alloc);
    for analysis in Analysis::ALL {
        packed.push(packed_solver(alloc, graph, analysis, queries)?)?;
    }
    Ok(packed)
}

/// What solves the bits of an analysis that are asked.
pub(crate) fn solver_among<'a, 'g, 'p>(
    solvers: &'a GraphSolvers<'g, 'p>,
    packed: &'a [Option<Solver<'g, 'p>>],
    analysis: Analysis,
) -> &'a Solver<'g, 'p>
    requires { length packed.now ≡ 4 }
    ensures { (slice_get packed.now (analysis_number analysis) ≡ Some (Some result.now)) ⊎ (result.now ≡ selection_of solvers.now analysis) }
{
    match &packed[analysis.number()] {
        Some(solver) => solver,
        None => solvers.solver(analysis),
    }
}
