// The report on a program, of what its tables answer.
ghost use Rattle.std.specs.Prelude.{IfOk};
ghost use Rattle.flow_reports.specs.Reports.{IsReport, ListsSafely};
ghost use Rattle.report_answers.specs.code.Reported.{TellReport};
ghost use Rattle.flow_team.specs.AllTables.{AreTablesOf};

use crate::OutOfMemory;
use crate::table_answers::answers_of_tables;
use flow_graph::Graph;
use flow_reports::ReportText;
use flow_team::Tables;
use report_answers::{FirstRound, ReportAnswers};
use std::alloc::Global;
use text_pieces::whole_text;

/// What a report asks of a graph, read out of its tables. The condition: they are tables of this graph. Fails only where memory runs out.
pub fn report_answers_of_tables(
    alloc: Global,
    graph: &Graph<'_>,
    tables: &Tables,
) -> Result<ReportAnswers, OutOfMemory>
    requires { AreTablesOf graph.now tables.now }
    ensures { IfOk result (TellReport graph.now) }
{
    let (queries, first) = FirstRound::of(alloc, graph, 1)?;
    let answers = answers_of_tables(alloc, graph, tables, queries)?;
    let mut rounds = first.put(alloc, graph, answers)?;
    while let Some(queries) = rounds.next(alloc, graph)? {
        let answers = answers_of_tables(alloc, graph, tables, queries)?;
        rounds.put(graph, &answers)?;
    }
    Ok(rounds.done(graph))
}

/// The report on a program, made whole: that of [`ReportText`](flow_reports::ReportText), of what the tables answer.
///
/// The condition: they are tables of this graph. Its room grows by doubling; fails only where memory runs out.
pub fn report(alloc: Global, graph: &Graph<'_>, tables: &Tables) -> Result<Vec<u8>, OutOfMemory>
    requires { AreTablesOf graph.now tables.now }
    ensures report { IfOk result (λ text. IsReport graph.now text.items) }
    ensures safe { IfOk result (λ text. ListsSafely graph.now text.items) }
{
    let answers = report_answers_of_tables(alloc, graph, tables)?;
    let text = ReportText::of(alloc, graph, &answers)?;
    whole_text(alloc, &text)
}
