// The answers to queries, read out of the tables of all analyses.
ghost use Rattle.std.specs.List.{range_with_len};
ghost use Rattle.std.specs.Prelude.{◌≡◌, ◌<◌, ℕ, Some, length, map, slice_get, slice_index, IfOk};
ghost use Rattle.flow_graph.specs.Points.{point_count};
ghost use Rattle.flow_queries.specs.Queries.{AreAnswers, AreQueriesOf, IsAnswerTo, IsQueryOf, IsWordAt};
ghost use Rattle.flow_queries.specs.declared.query.Query.{Query as QueryValue};
ghost use Rattle.flow_team.specs.AllTables.{AreTablesOf};
ghost use Rattle.flow_team.specs.Tables.{IsTableOf, facts_of};

use crate::OutOfMemory;
use flow_graph::{Analysis, Graph};
use flow_queries::{Answers, Query};
use flow_team::{Table, Tables};
use std::alloc::Global;

// The word that a query asks bits of, read out of the table of its analysis.
fn word_in(graph: &Graph<'_>, table: &Table, query: Query) -> u64
    requires analysis { table.now.analysis ≡ query.analysis }
    requires table { IsTableOf graph.now table.now }
    requires query { IsQueryOf graph.now query }
    ensures { IsWordAt graph.now query result }
{
    // Its contract tells how many points there are.
    let _ = graph.points();
    table.word(query.point, query.word)
}

// The answer to a query, read out of the tables.
fn answer_in(graph: &Graph<'_>, tables: &Tables, query: Query) -> u64
    requires query { IsQueryOf graph.now query }
    requires tables { AreTablesOf graph.now tables.now }
    ensures { IsAnswerTo graph.now query result }
{
    word_in(graph, tables.table(query.analysis), query) & query.bits
}

// The query of a number.
fn query_at(queries: &[Query], q: usize) -> Query
    requires { q < length queries.now }
    ensures { slice_get queries.now q ≡ Some result }
{
    queries[q]
}

// The answer to each query.
fn words_in(
    alloc: Global,
    graph: &Graph<'_>,
    tables: &Tables,
    queries: &[Query],
) -> Result<Vec<u64>, OutOfMemory>
    requires queries { AreQueriesOf graph.now queries.now }
    requires tables { AreTablesOf graph.now tables.now }
    ensures count { IfOk result (λ words. length words.items ≡ length queries.now) }
    ensures answered { IfOk result
        (λ words. (q : ℕ) (query : QueryValue) → slice_get queries.now q ≡ Some query → IsAnswerTo graph.now query (slice_index words.items q)) }
{
    let mut words = Vec::new(alloc);
    for q in 0..queries.len() {
        let query = query_at(queries, q);
        words.push(answer_in(graph, tables, query))?;
    }
    Ok(words)
}

// The path flag of each point of a table.
fn flags_in(alloc: Global, graph: &Graph<'_>, table: &Table) -> Result<Vec<bool>, OutOfMemory>
    requires { length table.now.paths ≡ point_count graph.now }
    ensures { IfOk result (λ flags. flags.items ≡ map (facts_of table.now).has_path (range_with_len 0 (point_count graph.now))) }
{
    let mut flags = Vec::new(alloc);
    for point in 0..graph.points() {
        flags.push(table.has_path(point))?;
    }
    Ok(flags)
}

/// The answers to queries of a graph, read out of its tables. The conditions: the queries and the tables are of this graph. Fails only where
/// memory runs out.
pub fn answers_of_tables(
    alloc: Global,
    graph: &Graph<'_>,
    tables: &Tables,
    queries: Vec<Query>,
) -> Result<Answers, OutOfMemory>
    requires queries { AreQueriesOf graph.now queries.items }
    requires tables { AreTablesOf graph.now tables.now }
    ensures queries { IfOk result (λ answers. answers.queries ≡ queries.items) }
    ensures answers { IfOk result (AreAnswers graph.now) }
{
    let forward = flags_in(alloc, graph, tables.table(Analysis::Reach))?;
    let backward = flags_in(alloc, graph, tables.table(Analysis::Live))?;
    let words = words_in(alloc, graph, tables, queries.as_slice())?;
    Ok(Answers::of_words(queries, words, forward, backward))
}
