// Each call on tables, reports and their texts that takes memory, as `test_support` has it.

ghost use Rattle.std.specs.Prelude.{◌≡◌, IfOk};
ghost use Rattle.flow_team.specs.Tables.{IsTableOf};
ghost use Rattle.flow_team.specs.AllTables.{AreTablesOf};
ghost use Rattle.report_answers.specs.code.Reported.{TellReport};

use flow_graph::{Analysis, Graph};
use flow_reports::{ReportText, report_here};
use flow_rows::{report, report_answers_of_tables};
use flow_team::{Table, Tables, table_of};
use flow_texts::{TableText, table_text};
use report_answers::ReportAnswers;
use std::alloc::Global;
use std::process::Abort;
use std::test::Fail;
use std::thread::Threads;
use tac_reader::{Program, read};
use team_probes::alone;
use test_support::again;
use test_support::refusal_probes::{Refused, named};
use test_support::worked_programs::recursion;
use text_pieces::whole_text;

// What is written in the end.
#[derive(Clone, Copy)]
enum Written {
    TextOfTable,
    WholeTable,
    ReportOfTables,
    AnswersOfTables,
    Answers,
    AnswersHere,
    ReportHere,
}

fn reaching_table<R: Threads + Sync>(
    rt: &R,
    alloc: Global,
    graph: &Graph<'_>,
    refused: &mut Refused,
) -> Result<Table, Fail>
    ensures { IfOk result (IsTableOf graph.now) }
{
    Ok(again!(
        *refused,
        "table_of",
        table_of(&alone(rt), alloc, graph, Analysis::Reach)
    ))
}

fn lines_of_table(
    alloc: Global,
    graph: &Graph<'_>,
    table: &Table,
    written: Written,
    refused: &mut Refused,
) -> Result<Vec<u8>, Fail>
    requires { IsTableOf graph.now table.now }
{
    match written {
        Written::TextOfTable => {
            let text = again!(
                *refused,
                "TableText::of",
                TableText::of(alloc, graph, table)
            );
            Ok(whole_text(alloc, &text)?)
        }
        _ => Ok(again!(*refused, "table_text", table_text(alloc, graph, table))),
    }
}

fn four_tables<R: Threads + Sync>(
    rt: &R,
    alloc: Global,
    graph: &Graph<'_>,
    refused: &mut Refused,
) -> Result<Tables, Fail>
    ensures { IfOk result (AreTablesOf graph.now) }
{
    // As `again` has it, with a way out for each call.
    if let Ok(tables) = Tables::of(&alone(rt), alloc, graph) {
        return Ok(tables);
    }
    *refused = Some("Tables::of");
    Ok(Tables::of(&alone(rt), alloc, graph)?)
}

fn answers_of_tables(
    alloc: Global,
    graph: &Graph<'_>,
    tables: &Tables,
    refused: &mut Refused,
) -> Result<ReportAnswers, Fail>
    requires { AreTablesOf graph.now tables.now }
    ensures { IfOk result (TellReport graph.now) }
{
    Ok(again!(
        *refused,
        "report_answers_of_tables",
        report_answers_of_tables(alloc, graph, tables)
    ))
}

fn answers_of_graph<R: Threads + Sync>(
    rt: &R,
    alloc: Global,
    graph: &Graph<'_>,
    refused: &mut Refused,
) -> Result<ReportAnswers, Fail>
    ensures { IfOk result (TellReport graph.now) }
{
    Ok(again!(
        *refused,
        "ReportAnswers::of",
        ReportAnswers::of(&alone(rt), alloc, graph)
    ))
}

fn answers_here(
    alloc: Global,
    graph: &Graph<'_>,
    refused: &mut Refused,
) -> Result<ReportAnswers, Fail>
    ensures { IfOk result (TellReport graph.now) }
{
    Ok(again!(
        *refused,
        "ReportAnswers::answered_here",
        ReportAnswers::answered_here(alloc, graph)
    ))
}

fn lines_of_answers(
    alloc: Global,
    graph: &Graph<'_>,
    answers: &ReportAnswers,
    refused: &mut Refused,
) -> Result<Vec<u8>, Fail>
    requires { TellReport graph.now answers.now }
{
    let text = again!(
        *refused,
        "ReportText::of",
        ReportText::of(alloc, graph, answers)
    );
    Ok(whole_text(alloc, &text)?)
}

fn lines_of_tables(
    alloc: Global,
    graph: &Graph<'_>,
    tables: &Tables,
    written: Written,
    refused: &mut Refused,
) -> Result<Vec<u8>, Fail>
    requires { AreTablesOf graph.now tables.now }
{
    match written {
        Written::AnswersOfTables => {
            let answers = answers_of_tables(alloc, graph, tables, refused)?;
            lines_of_answers(alloc, graph, &answers, refused)
        }
        _ => Ok(again!(*refused, "report", report(alloc, graph, tables))),
    }
}

// What is written of a program, the second time where a call was refused.
fn lines_of_graph<R: Threads + Sync>(
    rt: &R,
    alloc: Global,
    graph: &Graph<'_>,
    written: Written,
    refused: &mut Refused,
) -> Result<Vec<u8>, Fail> {
    match written {
        Written::TextOfTable | Written::WholeTable => {
            let table = reaching_table(rt, alloc, graph, refused)?;
            lines_of_table(alloc, graph, &table, written, refused)
        }
        Written::ReportOfTables | Written::AnswersOfTables => {
            let tables = four_tables(rt, alloc, graph, refused)?;
            lines_of_tables(alloc, graph, &tables, written, refused)
        }
        Written::Answers => {
            let answers = answers_of_graph(rt, alloc, graph, refused)?;
            lines_of_answers(alloc, graph, &answers, refused)
        }
        Written::AnswersHere => {
            let answers = answers_here(alloc, graph, refused)?;
            lines_of_answers(alloc, graph, &answers, refused)
        }
        Written::ReportHere => Ok(again!(*refused, "report_here", report_here(alloc, graph))),
    }
}

fn lines_of_program<R: Threads + Sync>(
    rt: &R,
    alloc: Global,
    program: &Program,
    written: Written,
    refused: &mut Refused,
) -> Result<Vec<u8>, Fail> {
    let graph = Graph::build(alloc, program)?;
    lines_of_graph(rt, alloc, &graph, written, refused)
}

// This is written of the recursive program; where a call was refused, the test fails by its name.
fn check<R: Threads + Sync + Abort + AllocGlobal>(
    rt: &R,
    written: Written,
    want: &str,
) -> Result<(), Fail> {
    let mut refused = None;
    let program = read(rt.alloc(), recursion::TEXT.as_bytes())?;
    let got = lines_of_program(rt, rt.alloc(), &program, written, &mut refused)?;
    assert_eq!(rt; got.as_slice(), want.as_bytes());
    named(refused)
}

#[test]
fn text_of_a_table_is_refused(rt: HostRuntime) -> Result<(), Fail> {
    check(&rt, Written::TextOfTable, recursion::REACH)
}

#[test]
fn table_and_whole_text_are_refused(rt: HostRuntime) -> Result<(), Fail> {
    check(&rt, Written::WholeTable, recursion::REACH)
}

#[test]
fn tables_and_their_report_are_refused(rt: HostRuntime) -> Result<(), Fail> {
    check(&rt, Written::ReportOfTables, recursion::REPORT)
}

#[test]
fn answers_of_tables_are_refused(rt: HostRuntime) -> Result<(), Fail> {
    check(&rt, Written::AnswersOfTables, recursion::REPORT)
}

#[test]
fn answers_and_their_report_are_refused(rt: HostRuntime) -> Result<(), Fail> {
    check(&rt, Written::Answers, recursion::REPORT)
}

#[test]
fn answers_here_are_refused(rt: HostRuntime) -> Result<(), Fail> {
    check(&rt, Written::AnswersHere, recursion::REPORT)
}

#[test]
fn report_here_is_refused(rt: HostRuntime) -> Result<(), Fail> {
    check(&rt, Written::ReportHere, recursion::REPORT)
}
