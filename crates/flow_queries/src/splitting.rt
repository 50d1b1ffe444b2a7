// Which of the bits that queries ask bounds settle.
ghost use Rattle.std.specs.Prelude.{◌≡◌, ◌+◌, ◌*◌, ◌%◌, ◌<◌, ◌≤◌, ◌&&◌, not, nat_eq, true, ℕ, Some, IfOk, OnOk, length, slice_get, slice_index, slice_index_or};
ghost use Rattle.bit_rows.specs.Words.{has_bit};
ghost use Rattle.flow_bounds.specs.Asked.{AreAsksOf, AreToldOf, IsAskOf, IsTrueOf};
ghost use Rattle.flow_bounds.specs.declared.asked.Told.TheVariants.{Nothing};
ghost use Rattle.flow_graph.specs.Points.{point_count};
ghost use Rattle.flow_queries.specs.Queries.{AreQueriesOf};
ghost use Rattle.flow_queries.specs.code.Directions.{selection_of};
ghost use Rattle.flow_queries.specs.code.Splits.{AreSplit, AsksFor, IsKnownBit};
ghost use Rattle.flow_queries.specs.declared.query.Query.{Query as QueryValue};

use crate::OutOfMemory;
use crate::answers::query_at;
use crate::query::Query;
use crate::solved_words::{is_one, with_bit_if};
use crate::solvers::GraphSolvers;
use flow_bounds::{Ask, Told, settle};
use flow_graph::Analysis;
use gen_kill::Problem;
use std::alloc::Global;

// Bits of queries that ask more than this are not looked at one by one.
const MOST: u32 = 8;

/// Queries of which some bits are settled: those that are left to be solved, and of the others the words that were found.
#[derive(Drop)]
pub(crate) struct Split {
    pub(crate) left: Vec<Query>,
    pub(crate) found: Vec<u64>,
}

// The bits that are asked of an analysis, and the number of the query of each.
#[derive(Drop)]
struct Asked {
    asks: Vec<Ask>,
    numbers: Vec<u32>,
}

// Puts the bit of a place of a query's word, if the problem has it.
fn put_bit(
    problem: &Problem<'_, '_>,
    asked: &mut Asked,
    query: Query,
    number: u32,
    place: u32,
) -> Result<(), OutOfMemory>
    requires place { place < 64 }
    requires point { query.point < point_count problem.now.program }
    requires before { AreAsksOf problem.now asked.old.asks.items }
    ensures { OnOk result (AreAsksOf problem.now asked.new.asks.items) }
{
    let column = query.word.saturating_mul(64).saturating_add(place);
    if column >= problem.bits() {
        return Ok(());
    }
    asked.asks.push(Ask {
        column,
        point: query.point,
    })?;
    asked.numbers.push(number)?;
    Ok(())
}

// Puts the bits that a query asks, at most so many.
fn put_bits(
    problem: &Problem<'_, '_>,
    asked: &mut Asked,
    query: Query,
    number: u32,
) -> Result<(), OutOfMemory>
    requires point { query.point < point_count problem.now.program }
    requires before { AreAsksOf problem.now asked.old.asks.items }
    ensures { OnOk result (AreAsksOf problem.now asked.new.asks.items) }
{
    let mut rest = query.bits;
    for _ in 0..MOST {
        let place = rest.trailing_zeros();
        if place >= 64 {
            return Ok(());
        }
        put_bit(problem, &mut *asked, query, number, place)?;
        rest = without_bit(rest, place);
    }
    Ok(())
}

// Puts the bits that a query asks, if it is of a problem's analysis and asks few.
fn put_query(
    problem: &Problem<'_, '_>,
    asked: &mut Asked,
    query: Query,
    number: u32,
) -> Result<(), OutOfMemory>
    requires point { query.point < point_count problem.now.program }
    requires before { AreAsksOf problem.now asked.old.asks.items }
    ensures { OnOk result (AreAsksOf problem.now asked.new.asks.items) }
{
    if query.analysis != problem.analysis() || query.bits.count_ones() > MOST {
        return Ok(());
    }
    put_bits(problem, asked, query, number)
}

// The bits that queries ask of a problem's analysis.
fn asked_of(
    alloc: Global,
    problem: &Problem<'_, '_>,
    queries: &[Query],
) -> Result<Asked, OutOfMemory>
    requires { AreQueriesOf problem.now.program queries.now }
    ensures { IfOk result (λ asked. AreAsksOf problem.now asked.asks.items) }
{
    let mut asked = Asked {
        asks: Vec::new(alloc),
        numbers: Vec::new(alloc),
    };
    let mut number = 0u32;
    for place in 0..queries.len() {
        let query = query_at(queries, place);
        put_query(problem, &mut asked, query, number)?;
        number = number.saturating_add(1);
    }
    Ok(asked)
}

// What is told of a bit that the query of a number asks.
#[derive(Clone, Copy)]
struct Settled {
    number: u32,
    ask: Ask,
    told: Told,
}

// A word with one bit less.
fn without_bit(word: u64, place: u32) -> u64
    requires { place < 64 }
    ensures { (k : ℕ) → k < 64 → has_bit result k ≡ (has_bit word k && not (nat_eq k place)) }
{
    word & !(1 << place)
}

// Whether a query of an analysis asks for a bit.
fn asks_for(query: Query, analysis: Analysis, ask: Ask) -> bool
    ensures { result ≡ true → AsksFor query analysis ask }
{
    query.analysis == analysis
        && query.point == ask.point
        && query.word == ask.column / 64
        && is_one(query.bits, ask.column % 64)
}

// Takes a bit that is settled out of what is left of the query of a number.
fn put_settled(
    solvers: &GraphSolvers<'_, '_>,
    queries: &[Query],
    split: &mut Split,
    number: usize,
    place: u32,
    has: bool,
)
    requires split { AreSplit solvers.now queries.now split.old.left.items split.old.found.items }
    requires left { number < length split.old.left.items }
    requires found { number < length split.old.found.items }
    requires place { place < 64 }
    requires known { (rest : QueryValue) → slice_get split.old.left.items number ≡ Some rest → IsKnownBit solvers.now rest place has }
    ensures { AreSplit solvers.now queries.now split.new.left.items split.new.found.items }
{
    let Query {
        analysis,
        point,
        word,
        bits,
    } = split.left[number];
    let bits = without_bit(bits, place);
    split.left[number] = Query {
        analysis,
        point,
        word,
        bits,
    };
    split.found[number] = with_bit_if(split.found[number], place, has);
}

// Takes a bit of which something is told out of what is left, if the query of its number asks for it.
fn put_told(
    solvers: &GraphSolvers<'_, '_>,
    queries: &[Query],
    split: &mut Split,
    analysis: Analysis,
    settled: Settled,
)
    requires split { AreSplit solvers.now queries.now split.old.left.items split.old.found.items }
    requires ask { IsAskOf (selection_of solvers.now analysis) settled.ask }
    requires told { IsTrueOf (selection_of solvers.now analysis) settled.ask settled.told }
    ensures { AreSplit solvers.now queries.now split.new.left.items split.new.found.items }
{
    let number = settled.number as usize;
    if number >= split.left.len() || number >= split.found.len() {
        return;
    }
    if !asks_for(split.left[number], analysis, settled.ask) {
        return;
    }
    let place = settled.ask.column % 64;
    match settled.told {
        Told::Nothing => {},
        Told::Has => put_settled(solvers, queries, split, number, place, true),
        Told::Lacks => put_settled(solvers, queries, split, number, place, false),
    }
}

// What is told of the bit of a number.
fn told_at(told: &[Told], i: usize) -> Told
    requires { i < length told.now }
    ensures { slice_index_or told.now i Nothing ≡ result }
{
    told[i]
}

// Of how many bits that are asked all is there.
fn shortest(asked: &Asked, told: &[Told]) -> usize
    ensures numbers { result ≤ length asked.now.numbers.items }
    ensures asks { result ≤ length asked.now.asks.items }
    ensures told { result ≤ length told.now }
{
    asked.asks.len().min(asked.numbers.len()).min(told.len())
}

// Takes all bits of which something is told out of what is left.
fn put_all_told(
    solvers: &GraphSolvers<'_, '_>,
    queries: &[Query],
    split: &mut Split,
    analysis: Analysis,
    asked: &Asked,
    told: &[Told],
)
    requires split { AreSplit solvers.now queries.now split.old.left.items split.old.found.items }
    requires asks { AreAsksOf (selection_of solvers.now analysis) asked.now.asks.items }
    requires told { AreToldOf (selection_of solvers.now analysis) asked.now.asks.items told.now }
    ensures { AreSplit solvers.now queries.now split.new.left.items split.new.found.items }
{
    for i in 0..shortest(asked, told) {
        let number = asked.numbers[i];
        let ask = asked.asks[i];
        let told = told_at(told, i);
        put_told(
            solvers,
            queries,
            &mut *split,
            analysis,
            Settled { number, ask, told },
        );
    }
}

// Settles what is asked of an analysis.
fn settle_analysis(
    alloc: Global,
    solvers: &GraphSolvers<'_, '_>,
    queries: &[Query],
    analysis: Analysis,
    split: &mut Split,
) -> Result<(), OutOfMemory>
    requires queries { AreQueriesOf solvers.now queries.now }
    requires split { AreSplit solvers.now queries.now split.old.left.items split.old.found.items }
    ensures { OnOk result (AreSplit solvers.now queries.now split.new.left.items split.new.found.items) }
{
    let problem = solvers.solver(analysis).problem();
    let asked = asked_of(alloc, problem, queries)?;
    if asked.asks.is_empty() || asked.asks.len() >= 1 << 32 {
        return Ok(());
    }
    let told = settle(
        alloc,
        problem,
        solvers.routes(analysis),
        asked.asks.as_slice(),
    )?;
    put_all_told(solvers, queries, split, analysis, &asked, told.as_slice());
    Ok(())
}

// Queries of which nothing is settled.
fn unsettled(alloc: Global, queries: &[Query]) -> Result<Split, OutOfMemory>
    ensures left { IfOk result (λ split. split.left.items ≡ queries.now) }
    ensures found_count { IfOk result (λ split. length split.found.items ≡ length queries.now) }
    ensures found { IfOk result (λ split. (q : ℕ) → slice_index split.found.items q ≡ 0) }
{
    let mut left = Vec::with_capacity(alloc, queries.len())?;
    left.extend_from_slice(queries)?;
    let found = vec![in alloc; 0u64; queries.len()]?;
    Ok(Split { left, found })
}

/// Queries, with the bits settled that bounds settle. The condition: they are of the solvers' graph. Fails only where memory runs out.
pub(crate) fn split_queries(
    alloc: Global,
    solvers: &GraphSolvers<'_, '_>,
    queries: &[Query],
) -> Result<Split, OutOfMemory>
    requires { AreQueriesOf solvers.now queries.now }
    ensures { IfOk result (λ split. AreSplit solvers.now queries.now split.left.items split.found.items) }
{
    let mut split = unsettled(alloc, queries)?;
    for analysis in Analysis::ALL {
        settle_analysis(alloc, solvers, queries, analysis, &mut split)?;
    }
    Ok(split)
}
