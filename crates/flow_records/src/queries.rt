// Words of the analyses' sets that C asks for, by numbers.

ghost use Rattle.std.specs.Prelude.{◌≡◌, ◌++◌, ◌∷◌, [], length, IfErr, IfOk, OnErr, OnOk};
ghost use Rattle.flow_records.specs.Queries.{AreAnswersTo, AreNumbered, IsQueryFault, IsQueriesFault, IsNumberedFault, IsNumberedQuery};

use crate::calls::find_analysis;
use crate::fault::Fault;
use bit_rows::words_for;
use flow_graph::Graph;
use flow_kept::Kept;
use flow_queries::Query;
use std::alloc::{AllocError as OutOfMemory, Global};

/// A word that is asked for: the number of its analysis, a point, and which word of the set there. The bits of word w are those from 64 w on.
#[repr(C)]
#[derive(Clone, Copy)]
pub struct NumberedQuery {
    pub analysis: u32,
    pub point: u32,
    pub word: u32,
}

// The query that numbers stand for.
fn query_of(graph: &Graph<'_>, ask: NumberedQuery) -> Result<Query, Fault>
    ensures query { IfOk result (IsNumberedQuery graph.now ask) }
    ensures fault { IfErr result (IsNumberedFault graph.now ask) }
{
    let Some(analysis) = find_analysis(ask.analysis) else {
        return Err(Fault::BadAnalysis);
    };
    if graph.points() <= ask.point || words_for(graph.bits(analysis)) <= ask.word {
        return Err(Fault::BadRange);
    }
    Ok(Query {
        analysis,
        point: ask.point,
        word: ask.word,
        bits: u64::MAX,
    })
}

fn put_query(queries: &mut Vec<Query>, query: Query) -> Result<(), OutOfMemory>
    ensures { OnOk result (queries.new.items ≡ queries.old.items ++ query ∷ []) }
{
    queries.push(query)?;
    Ok(())
}

// The queries that numbers stand for, in their order.
fn queries_of(alloc: Global, graph: &Graph<'_>, asks: &[NumberedQuery]) -> Result<Vec<Query>, Fault>
    ensures queries { IfOk result (λ queries. AreNumbered graph.now asks.now queries.items) }
    ensures fault { IfErr result (IsQueryFault asks.now graph.now) }
{
    let mut queries = Vec::with_capacity(alloc, asks.len())?;
    for ask in asks {
        put_query(&mut queries, query_of(graph, *ask)?)?;
    }
    Ok(queries)
}

/// The words that are asked of a kept program, in their order. There are fewer than 2^32, and room for as many.
pub fn ask_kept(
    alloc: Global,
    kept: &Kept,
    asks: &[NumberedQuery],
    words: &mut [u64],
) -> Result<(), Fault>
    ensures answers { OnOk result (AreAnswersTo kept.now.program asks.now words.new) }
    ensures kept { OnErr result (words.new ≡ words.old) }
    ensures fault { IfErr result (IsQueriesFault asks.now (length words.old) kept.now.program) }
{
    if words.len() != asks.len() || asks.len() > u32::MAX as usize {
        return Err(Fault::BadRoom);
    }
    let graph = kept.graph(alloc)?;
    let queries = queries_of(alloc, &graph, asks)?;
    kept.ask(alloc, &graph, queries.as_slice(), words)?;
    Ok(())
}
