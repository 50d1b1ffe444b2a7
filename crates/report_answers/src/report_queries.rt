// What a report asks of the four analyses.

ghost use Rattle.std.specs.Prelude.{◌≡◌, ◌⊎◌, true, None, ◌+◌, ◌/◌, ◌%◌, ◌^◌, ◌<◌, ◌≤◌, [], ◌∷◌, ◌++◌, Some, length, IfOk};
ghost use Rattle.flow_graph.specs.Points.{kind_at, point_count};
ghost use Rattle.tac_program.specs.Sound.{IsSound};
ghost use Rattle.tac_program.specs.declared.program.StmtKind.{StmtKind as KindValue};
ghost use Rattle.report_answers.specs.code.Querying.{Queries, QueriesAssigned, QueriesEvaluated, QueriesReads, IsAmongTests, PutsPoint};
ghost use Rattle.report_answers.specs.code.Chosen.{wanted_query};
ghost use Rattle.report_answers.specs.code.Reported.{AreQueriedAt, AreReportQueries};
ghost use Rattle.report_answers.specs.Statements.{assigned as assigned_by, is_test as is_test_of};

use crate::OutOfMemory;
use crate::chosen_bits::ChosenBits;
use crate::operands::{VariablesRead, assigned_variable, is_test, variables_read};
use flow_graph::{Analysis, Graph};
use flow_queries::Query;
use std::alloc::Global;
use tac_program::StmtKind;

/// Which query of a report is the first of each kind at a point.
#[derive(Clone, Copy)]
pub struct PointQueries {
    /// Of the variables that the statement reads, whose values at the beginning may reach it.
    pub reads: u32,
    /// Of the expression that it evaluates, which may be available.
    pub evaluated: u32,
    /// Of the variable that it assigns, which may be live behind it.
    pub assigned: u32,
    /// Which test it is, of all.
    pub test: u32,
}

// The query for a bit of the set of a point.
fn query_for(analysis: Analysis, point: u32, bit: u32) -> Query
    ensures { result ≡ record { analysis = analysis; point = point; word = bit / 64; bits = 2 ^ (bit % 64) } }
{
    Query {
        analysis,
        point,
        word: bit / 64,
        bits: 1 << (bit % 64),
    }
}

// The query for a bit of the set of a point, or for none where the bit is not wanted.
fn wanted_query(chosen: ChosenBits, analysis: Analysis, point: u32, bit: u32) -> Query
    ensures { result ≡ wanted_query chosen analysis point bit }
{
    if chosen.wants(analysis, bit / 64) {
        return query_for(analysis, point, bit);
    }
    Query {
        analysis,
        point,
        word: 0,
        bits: 0,
    }
}

// Puts a query behind the others.
fn put_query(queries: &mut Vec<Query>, query: Query) -> Result<(), OutOfMemory>
    ensures { IfOk result (λ _. queries.new.items ≡ queries.old.items ++ query ∷ []) }
{
    queries.push(query)?;
    Ok(())
}

// Asks for the variables that a statement reads: whether their values at the beginning reach it.
fn query_reads(
    _graph: &Graph<'_>,
    chosen: ChosenBits,
    queries: &mut Vec<Query>,
    point: u32,
    kind: &StmtKind,
) -> Result<(), OutOfMemory>
    requires sound { IsSound _graph.now }
    requires point { point < point_count _graph.now }
    requires kind { kind_at _graph.now point ≡ Some kind.now }
    ensures queries { IfOk result (λ _. Queries chosen _graph.now queries.old.items queries.new.items 2) }
    ensures queried { IfOk result (λ _. QueriesReads chosen queries.new.items (length queries.old.items) point kind.now) }
{
    match variables_read(kind) {
        VariablesRead::None => Ok(()),
        VariablesRead::One(variable) => put_query(
            queries,
            wanted_query(chosen, Analysis::Reach, point, variable),
        ),
        VariablesRead::Two(first, second) => {
            put_query(queries, wanted_query(chosen, Analysis::Reach, point, first))?;
            put_query(
                queries,
                wanted_query(chosen, Analysis::Reach, point, second),
            )
        }
    }
}

// Asks for the expression that the statement evaluates: whether it is available.
fn query_evaluated(
    graph: &Graph<'_>,
    chosen: ChosenBits,
    queries: &mut Vec<Query>,
    point: u32,
) -> Result<(), OutOfMemory>
    requires sound { IsSound graph.now }
    requires point { point < point_count graph.now }
    ensures queries { IfOk result (λ _. Queries chosen graph.now queries.old.items queries.new.items 1) }
    ensures queried { IfOk result (λ _. QueriesEvaluated chosen graph.now queries.new.items (length queries.old.items) point) }
{
    match graph.evaluated(point) {
        Some(bit) => put_query(queries, wanted_query(chosen, Analysis::Avail, point, bit)),
        None => Ok(()),
    }
}

// Asks for the variable that a statement assigns: whether it is live behind the statement.
fn query_assigned(
    graph: &Graph<'_>,
    chosen: ChosenBits,
    queries: &mut Vec<Query>,
    point: u32,
    kind: &StmtKind,
) -> Result<(), OutOfMemory>
    requires sound { IsSound graph.now }
    requires point { point < point_count graph.now }
    requires kind { kind_at graph.now point ≡ Some kind.now }
    ensures queries { IfOk result (λ _. Queries chosen graph.now queries.old.items queries.new.items 1) }
    ensures queried { IfOk result (λ _. QueriesAssigned chosen queries.new.items (length queries.old.items) point kind.now) }
    ensures none { assigned_by kind.now ≡ None → IfOk result (λ _. queries.new.items ≡ queries.old.items) }
{
    // Its contract tells that there are few points.
    let _ = graph.points();
    match assigned_variable(kind) {
        Some(variable) => put_query(
            queries,
            wanted_query(chosen, Analysis::Live, point + 1, variable),
        ),
        None => Ok(()),
    }
}

// Puts the point of a test behind the others, whose very busy expressions are asked for in rounds.
fn put_test(tests: &mut Vec<u32>, point: u32, kind: &StmtKind) -> Result<(), OutOfMemory>
    ensures queried { IfOk result (λ _. IsAmongTests tests.new.items (length tests.old.items) point kind.now) }
    ensures more { IfOk result (λ _. PutsPoint tests.old.items tests.new.items point) }
    ensures none { IfOk result (λ _. (is_test_of kind.now ≡ true) ⊎ (tests.new.items ≡ tests.old.items)) }
{
    if is_test(kind) {
        tests.push(point)?;
    }
    Ok(())
}

// Asks what a report tells of a statement.
fn query_kind(
    graph: &Graph<'_>,
    chosen: ChosenBits,
    queries: &mut Vec<Query>,
    tests: &mut Vec<u32>,
    point: u32,
    kind: &StmtKind,
) -> Result<PointQueries, OutOfMemory>
    requires sound { IsSound graph.now }
    requires point { point < point_count graph.now }
    requires kind { kind_at graph.now point ≡ Some kind.now }
    requires few { length queries.old.items < 2 ^ 31 }
    requires tests { length tests.old.items ≤ point }
    ensures queries { IfOk result (λ _. Queries chosen graph.now queries.old.items queries.new.items 4) }
    ensures tests { IfOk result (λ _. PutsPoint tests.old.items tests.new.items point) }
    ensures both { IfOk result (λ _. length queries.new.items + length tests.new.items ≤ length queries.old.items + length tests.old.items + 4) }
    ensures behind { IfOk result (λ _. point + 1 < point_count graph.now) }
    ensures queried { IfOk result (λ here. AreQueriedAt chosen graph.now queries.new.items tests.new.items here point kind.now) }
{
    let reads = queries.len() as u32;
    query_reads(graph, chosen, queries, point, kind)?;
    let evaluated = queries.len() as u32;
    query_evaluated(graph, chosen, queries, point)?;
    let assigned = queries.len() as u32;
    query_assigned(graph, chosen, queries, point, kind)?;
    let test = tests.len() as u32;
    put_test(tests, point, kind)?;
    Ok(PointQueries {
        reads,
        evaluated,
        assigned,
        test,
    })
}

// Asks what a report tells of the statement at a point; at a procedure's end there is none.
fn query_point(
    graph: &Graph<'_>,
    chosen: ChosenBits,
    queries: &mut Vec<Query>,
    tests: &mut Vec<u32>,
    point: u32,
) -> Result<PointQueries, OutOfMemory>
    requires point { point < point_count graph.now }
    requires few { length queries.old.items < 2 ^ 31 }
    requires tests { length tests.old.items ≤ point }
    ensures queries { IfOk result (λ _. Queries chosen graph.now queries.old.items queries.new.items 4) }
    ensures tests { IfOk result (λ _. PutsPoint tests.old.items tests.new.items point) }
    ensures both { IfOk result (λ _. length queries.new.items + length tests.new.items ≤ length queries.old.items + length tests.old.items + 4) }
    ensures last { IfOk result (λ _. (length queries.new.items + length tests.new.items ≤ length queries.old.items + length tests.old.items)
        ⊎ (point + 1 < point_count graph.now)) }
    ensures queried { IfOk result
        (λ here. (kind : KindValue) → kind_at graph.now point ≡ Some kind
        → AreQueriedAt chosen graph.now queries.new.items tests.new.items here point kind) }
{
    let Some(stmt) = graph.stmt(point) else {
        return Ok(PointQueries {
            reads: 0,
            evaluated: 0,
            assigned: 0,
            test: 0,
        });
    };
    query_kind(graph, chosen, queries, tests, point, &stmt.kind)
}

/// What a report asks of a graph's analyses, point by point.
#[derive(Drop)]
pub(crate) struct ReportQueries {
    /// All but very busy expressions.
    pub(crate) queries: Vec<Query>,
    /// Where the queries of each point stand.
    pub(crate) places: Vec<PointQueries>,
    /// The points of the tests, where very busy expressions are asked for.
    pub(crate) tests: Vec<u32>,
}

/// What a report asks of a graph, as far as it is wanted. Fails only where memory runs out.
pub(crate) fn report_queries(
    alloc: Global,
    graph: &Graph<'_>,
    chosen: ChosenBits,
) -> Result<ReportQueries, OutOfMemory>
    ensures { IfOk result (AreReportQueries chosen graph.now) }
{
    let mut queries = Vec::new(alloc);
    let mut places = Vec::new(alloc);
    let mut tests = Vec::new(alloc);
    for point in 0..graph.points() {
        let here = query_point(graph, chosen, &mut queries, &mut tests, point)?;
        places.push(here)?;
    }
    Ok(ReportQueries {
        queries,
        places,
        tests,
    })
}
