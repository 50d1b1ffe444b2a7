// What is asked of a text's program, and the answers as text.

ghost use Rattle.std.specs.Prelude.{◌≡◌, ◌<◌, length};
ghost use Rattle.flow_graph.specs.Points.{point_count};
ghost use Rattle.flow_graph.specs.Universes.{expressions};

use flow_graph::{Analysis, Graph, OutOfMemory};
use flow_reasons::Reasons;
use std::alloc::Global;
use std::process::Abort;
use std::test::Fail;
use tac_reader::{Program, read};

/// What is asked: of a variable or an expression by its number, and of a point.
#[derive(Clone, Copy)]
pub enum Question {
    /// The writes of a variable that may come next behind a point, and whether `main` may end without one.
    NextWrites(u32, u32),
    /// The evaluations of an expression that may be the last before a point.
    LastEvaluations(u32, u32),
    /// Those that may be the next from a point on.
    NextEvaluations(u32, u32),
    /// The variables that hold the value of an expression at a point.
    Holders(u32, u32),
    /// The nearest point before one to which a path leads.
    LastReached(u32),
    /// Why a point is doubtful.
    DoubtOrigin(u32),
}

// What is asked of an expression.
#[derive(Clone, Copy)]
enum Which {
    Last,
    Next,
    Holders,
}

/// A text, what is asked, and the answer.
pub type Row = (&'static str, Question, &'static str);

fn write_numbers(text: &mut String, numbers: &[u32]) -> Result<(), OutOfMemory> {
    for number in numbers {
        write!(text, "{number};")?;
    }
    Ok(())
}

fn write_next_writes(
    text: &mut String,
    alloc: Global,
    graph: &Graph<'_>,
    reasons: &Reasons<'_, '_>,
    variable: u32,
    point: u32,
) -> Result<(), OutOfMemory>
    requires { reasons.now ≡ graph.now }
{
    if variable >= graph.bits(Analysis::Live) || point.saturating_add(1) >= graph.points() {
        return text.push_str("not there");
    }
    let points = reasons.next_writes(alloc, variable, point)?;
    write_numbers(text, points.as_slice())?;
    if reasons.may_end_unwritten(alloc, variable, point)? {
        return text.push_str("end");
    }
    Ok(())
}

fn write_last(
    text: &mut String,
    alloc: Global,
    reasons: &Reasons<'_, '_>,
    expression: u32,
    point: u32,
) -> Result<(), OutOfMemory>
    requires expression { expression < length (expressions reasons.now) }
    requires point { point < point_count reasons.now }
{
    let points = reasons.last_evaluations(alloc, expression, point)?;
    write_numbers(text, points.as_slice())
}

fn write_next(
    text: &mut String,
    alloc: Global,
    reasons: &Reasons<'_, '_>,
    expression: u32,
    point: u32,
) -> Result<(), OutOfMemory>
    requires expression { expression < length (expressions reasons.now) }
    requires point { point < point_count reasons.now }
{
    let points = reasons.next_evaluations(alloc, expression, point)?;
    write_numbers(text, points.as_slice())
}

fn write_holders(
    text: &mut String,
    alloc: Global,
    reasons: &Reasons<'_, '_>,
    expression: u32,
    point: u32,
) -> Result<(), OutOfMemory>
    requires expression { expression < length (expressions reasons.now) }
    requires point { point < point_count reasons.now }
{
    let variables = reasons.holders(alloc, expression, point)?;
    write_numbers(text, variables.as_slice())
}

fn write_evaluations(
    text: &mut String,
    alloc: Global,
    graph: &Graph<'_>,
    reasons: &Reasons<'_, '_>,
    at: (u32, u32),
    which: Which,
) -> Result<(), OutOfMemory>
    requires { reasons.now ≡ graph.now }
{
    let (expression, point) = at;
    if expression >= graph.bits(Analysis::Avail) || point >= graph.points() {
        return text.push_str("not there");
    }
    match which {
        Which::Last => write_last(text, alloc, reasons, expression, point),
        Which::Next => write_next(text, alloc, reasons, expression, point),
        Which::Holders => write_holders(text, alloc, reasons, expression, point),
    }
}

fn write_number(text: &mut String, number: Option<u32>) -> Result<(), OutOfMemory> {
    match number {
        Some(number) => write!(text, "{number}"),
        None => text.push_str("none"),
    }
}

fn write_last_reached(
    text: &mut String,
    graph: &Graph<'_>,
    reasons: &Reasons<'_, '_>,
    point: u32,
) -> Result<(), OutOfMemory>
    requires { reasons.now ≡ graph.now }
{
    if point >= graph.points() {
        return text.push_str("not there");
    }
    write_number(text, reasons.last_reached(point))
}

fn write_doubt_origin(
    text: &mut String,
    alloc: Global,
    graph: &Graph<'_>,
    reasons: &Reasons<'_, '_>,
    point: u32,
) -> Result<(), OutOfMemory>
    requires { reasons.now ≡ graph.now }
{
    if point >= graph.points() {
        return text.push_str("not there");
    }
    let origin = reasons.doubt_origin(alloc, point)?;
    write_number(text, origin)
}

fn write_answer(
    text: &mut String,
    alloc: Global,
    graph: &Graph<'_>,
    question: Question,
) -> Result<(), OutOfMemory> {
    let reasons = Reasons::of(alloc, graph)?;
    match question {
        Question::NextWrites(variable, point) => {
            write_next_writes(text, alloc, graph, &reasons, variable, point)
        },
        Question::LastEvaluations(expression, point) => {
            write_evaluations(
                text,
                alloc,
                graph,
                &reasons,
                (expression, point),
                Which::Last,
            )
        },
        Question::NextEvaluations(expression, point) => {
            write_evaluations(
                text,
                alloc,
                graph,
                &reasons,
                (expression, point),
                Which::Next,
            )
        },
        Question::Holders(expression, point) => {
            write_evaluations(
                text,
                alloc,
                graph,
                &reasons,
                (expression, point),
                Which::Holders,
            )
        },
        Question::LastReached(point) => write_last_reached(text, graph, &reasons, point),
        Question::DoubtOrigin(point) => write_doubt_origin(text, alloc, graph, &reasons, point),
    }
}

fn check_program<R: Abort + AllocGlobal>(rt: &R, program: &Program, row: &Row) -> Result<(), Fail> {
    let graph = Graph::build(rt.alloc(), program)?;
    let mut text = String::new(rt.alloc());
    write_answer(&mut text, rt.alloc(), &graph, row.1)?;
    assert_eq!(rt; text.as_str(), row.2);
    Ok(())
}

/// Each row's answer is what it says.
pub fn check_rows<R: Abort + AllocGlobal>(rt: &R, rows: &[Row]) -> Result<(), Fail> {
    for row in rows {
        let program = read(rt.alloc(), row.0.as_bytes())?;
        check_program(rt, &program, row)?;
    }
    Ok(())
}
