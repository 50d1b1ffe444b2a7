// The table of an analysis as text, put together from slices that are solved apart.

ghost use Rattle.std.specs.Prelude.{◌≡◌, ◌≤◌, ◌<◌, IfOk};
ghost use Rattle.flow_graph.specs.Points.{point_count};
ghost use Rattle.flow_graph.specs.Universes.{bits as bits_of};
ghost use Rattle.gen_kill.specs.Selections.{AreChosen, column_count};
ghost use Rattle.gk_solve.specs.Solved.{direction_of};

use bit_rows::{Cut, Rows, words_for};
use flow_graph::{Analysis, Expr, Graph, OutOfMemory};
use flow_rows::{solve, solve_slice};
use gen_kill::{Problem, marked_numbers};
use gk_solve::{Routes, Solver};
use std::alloc::Global;
use std::process::Abort;
use std::test::Fail;
use tac_program::Limits;
use tac_reader::{Program, read_within, write_binary_expression, write_unary_expression};

/// What is asked of a text's program.
#[derive(Clone, Copy)]
pub enum Question {
    /// The table of an analysis, solved in slices of this width.
    Table(Analysis, u32),
    /// The lines of these points in the table of an analysis, solved in slices of this width.
    TableAt(Analysis, u32, &'static [u32]),
    /// The table of every other bit of an analysis, chosen from the first or the second on, solved in slices of this width.
    EveryOther(Analysis, u32, Parity),
}

/// Which bits are chosen.
#[derive(Clone, Copy)]
pub enum Parity {
    Even,
    Odd,
}

fn answer_of_graph(
    alloc: Global,
    graph: &Graph<'_>,
    question: Question,
) -> Result<String, OutOfMemory> {
    let mut text = String::new(alloc);
    match question {
        Question::Table(analysis, width) => {
            let table = solved(alloc, graph, analysis, width)?;
            write_table(&mut text, alloc, graph, &table)?;
        }
        Question::EveryOther(analysis, width, parity) => {
            let table = solved_chosen(alloc, graph, analysis, width, parity)?;
            write_table(&mut text, alloc, graph, &table)?;
        }
        Question::TableAt(analysis, width, points) => {
            write_lines(&mut text, alloc, graph, analysis, width, points)?;
        }
    }
    Ok(text)
}

fn answer_of_program(alloc: Global, program: &Program, question: Question) -> Result<String, Fail> {
    let graph = Graph::build_within(alloc, program, Limits::Large)?;
    Ok(answer_of_graph(alloc, &graph, question)?)
}

/// The answer to a question of a text's program.
pub fn answer(alloc: Global, text: &str, question: Question) -> Result<String, Fail> {
    let program = read_within(alloc, text.as_bytes(), Limits::Large)?;
    answer_of_program(alloc, &program, question)
}

/// The question of a text's program, in slices of this width, has this answer.
pub fn check<R: Abort + AllocGlobal>(
    rt: &R,
    text: &str,
    question: Question,
    width: u32,
    want: &str,
) -> Result<(), Fail> {
    let got = answer(rt.alloc(), text, question)?;
    assert_eq!(rt; got.as_str(), want, "in slices of {width}");
    Ok(())
}

/// What is known of an analysis.
#[derive(Drop)]
struct Table {
    /// What the bits are called.
    names: Vec<String>,
    /// The path flags, solved without any bit.
    flags: Rows,
    /// The slices in order.
    slices: Vec<Rows>,
    /// Whether the words of each slice are its rows.
    agree: bool,
    /// Whether the table has the bits that the slices have not.
    complements: bool,
}

fn definition_name(alloc: Global, graph: &Graph<'_>, bit: u32) -> Result<String, OutOfMemory>
    requires { bit < bits_of graph.now Analysis.Reach }
{
    let (variable, point) = graph.definition(bit);
    let mut name = String::from_utf8_lossy(alloc, graph.program().variable(variable))?;
    match point {
        Some(point) => match graph.stmt(point) {
            Some(stmt) => write!(name, "@{}", stmt.span.line)?,
            None => name.push_str("@end")?,
        },
        None => name.push_str("@entry")?,
    }
    Ok(name)
}

fn expression_name(alloc: Global, graph: &Graph<'_>, expr: Expr) -> Result<String, OutOfMemory> {
    let mut name = Vec::new(alloc);
    let program = graph.program();
    match expr {
        Expr::Unary(op, operand) => write_unary_expression(&mut name, program, op, operand)?,
        Expr::Binary(left, op, right) => {
            write_binary_expression(&mut name, program, left, op, right)?;
        }
    }
    String::from_utf8_lossy(alloc, name.as_slice())
}

fn bit_name(
    alloc: Global,
    graph: &Graph<'_>,
    analysis: Analysis,
    bit: u32,
) -> Result<String, OutOfMemory>
    requires { bit < bits_of graph.now analysis }
{
    match analysis {
        Analysis::Reach => definition_name(alloc, graph, bit),
        Analysis::Live => String::from_utf8_lossy(alloc, graph.program().variable(bit)),
        Analysis::Avail => expression_name(alloc, graph, graph.expression(bit)),
        Analysis::Busy => expression_name(alloc, graph, graph.expression(bit)),
    }
}

fn bit_names(
    alloc: Global,
    graph: &Graph<'_>,
    analysis: Analysis,
) -> Result<Vec<String>, OutOfMemory> {
    let mut names = Vec::new(alloc);
    for bit in 0..graph.bits(analysis) {
        names.push(bit_name(alloc, graph, analysis, bit)?)?;
    }
    Ok(names)
}

/// Whether a slice's words are its rows.
fn words_agree<'a, 'g, 'p>(
    alloc: Global,
    solver: &'a Solver<'g, 'p>,
    routes: &'a Routes,
    rows: &Rows,
) -> Result<bool, OutOfMemory>
    requires routes { routes.now ≡ direction_of solver.now }
    requires ordered { rows.now.lo ≤ rows.now.hi }
    requires within { rows.now.hi ≤ column_count solver.now }
{
    let (lo, hi) = (rows.lo(), rows.hi());
    let mut slice = solver.slice(alloc, routes, lo, hi)?;
    let end = words_for(hi);
    let mut word = lo / 64;
    let mut agree = true;
    'groups: while word < end {
        let next = solver.solve_from(routes, &mut slice, word);
        for solved in word..next {
            for point in 0..slice.points().min(rows.points()) {
                agree &= rows.row(point).word(solved) == slice.word(point, solved);
            }
        }
        word = next;
    }
    Ok(agree)
}

/// Puts the solution of the bits from `lo` to `hi` behind the slices; whether its words are its rows.
fn add_slice<'g, 'p>(
    alloc: Global,
    solver: &Solver<'g, 'p>,
    routes: &Routes,
    slices: &mut Vec<Rows>,
    lo: u32,
    hi: u32,
) -> Result<bool, OutOfMemory>
    requires routes { routes.now ≡ direction_of solver.now }
    requires ordered { lo ≤ hi }
    requires within { hi ≤ column_count solver.now }
{
    let rows = solve_slice(alloc, solver, routes, lo, hi)?;
    let agree = words_agree(alloc, solver, routes, &rows)?;
    slices.push(rows)?;
    Ok(agree)
}

/// Solves the problem in slices of this width, of which the last one may be shorter; whether their words are their rows.
fn add_slices<'g, 'p>(
    alloc: Global,
    solver: &Solver<'g, 'p>,
    routes: &Routes,
    slices: &mut Vec<Rows>,
    width: u32,
) -> Result<bool, OutOfMemory>
    requires { routes.now ≡ direction_of solver.now }
{
    let mut agree = true;
    if let Ok(cut) = Cut::even(alloc, solver.problem().bits(), width) {
        for slice in 0..cut.slices() {
            let (lo, hi) = cut.range(slice);
            agree &= add_slice(alloc, solver, routes, slices, lo, hi)?;
        }
    }
    Ok(agree)
}

/// What is known of a problem, with what its bits are called.
fn solved_with<'g, 'p>(
    alloc: Global,
    names: Vec<String>,
    solver: &Solver<'g, 'p>,
    routes: &Routes,
    width: u32,
) -> Result<Table, OutOfMemory>
    requires { routes.now ≡ direction_of solver.now }
{
    let mut slices = Vec::new(alloc);
    let agree = add_slices(alloc, solver, routes, &mut slices, width)?;
    let flags = solve(alloc, solver.problem(), 0, 0)?;
    let complements = solver.problem().complements();
    Ok(Table {
        names,
        flags,
        slices,
        agree,
        complements,
    })
}

fn solved(
    alloc: Global,
    graph: &Graph<'_>,
    analysis: Analysis,
    width: u32,
) -> Result<Table, OutOfMemory> {
    let solver = Solver::of(alloc, Problem::of(alloc, graph, analysis)?)?;
    let routes = Routes::of(alloc, solver.problem())?;
    let names = bit_names(alloc, graph, analysis)?;
    solved_with(alloc, names, &solver, &routes, width)
}

// Marks every other bit.
fn mark_every_other(marks: &mut [bool], parity: Parity) {
    for bit in 0..marks.len() {
        marks[bit] = match parity {
            Parity::Even => bit % 2 == 0,
            Parity::Odd => bit % 2 == 1,
        };
    }
}

/// Every other bit of an analysis.
fn every_other(
    alloc: Global,
    graph: &Graph<'_>,
    analysis: Analysis,
    parity: Parity,
) -> Result<Vec<u32>, OutOfMemory>
    ensures { IfOk result (λ chosen. AreChosen graph.now analysis chosen.items) }
{
    let mut marks = vec![in alloc; false; graph.bits(analysis) as usize]?;
    mark_every_other(marks.as_mut_slice(), parity);
    marked_numbers(alloc, marks.as_slice())
}

fn solved_chosen(
    alloc: Global,
    graph: &Graph<'_>,
    analysis: Analysis,
    width: u32,
    parity: Parity,
) -> Result<Table, OutOfMemory> {
    let chosen = every_other(alloc, graph, analysis, parity)?;
    let problem = Problem::of_chosen(alloc, graph, analysis, chosen)?;
    let mut names = Vec::new(alloc);
    for column in 0..problem.bits() {
        names.push(bit_name(alloc, graph, analysis, problem.bit(column))?)?;
    }
    let solver = Solver::of(alloc, problem)?;
    let routes = Routes::of(alloc, solver.problem())?;
    solved_with(alloc, names, &solver, &routes, width)
}

/// Writes what the table has of a slice's bits at a point, behind a comma where something is there.
fn write_slice(
    text: &mut String,
    table: &Table,
    rows: &Rows,
    point: u32,
    mut any: bool,
) -> Result<bool, OutOfMemory> {
    if rows.points() <= point {
        text.push_str("no such point")?;
        return Ok(true);
    }
    let row = rows.row(point);
    for bit in rows.lo()..rows.hi() {
        if row.get(bit) != table.complements {
            if any {
                text.push_str(", ")?;
            }
            match table.names.get(bit as usize) {
                Some(name) => text.push_str(name.as_str())?,
                None => text.push_str("no such bit")?,
            }
            any = true;
        }
    }
    Ok(any)
}

/// Writes the path flag of a point, and how that of a slice differs.
fn write_flag(text: &mut String, table: &Table, point: u32) -> Result<(), OutOfMemory> {
    let flags = &table.flags;
    if !table.agree {
        text.push_str(" (other words than rows)")?;
    }
    if flags.points() <= point {
        return text.push_str(" no such point");
    }
    if !flags.flag(point) {
        text.push_str(" (no path)")?;
    }
    for rows in table.slices.iter() {
        if rows.points() <= point || rows.flag(point) != flags.flag(point) {
            text.push_str(" (another flag in a slice)")?;
        }
    }
    Ok(())
}

/// Writes the line of a point.
fn write_point(
    text: &mut String,
    alloc: Global,
    graph: &Graph<'_>,
    table: &Table,
    point: u32,
) -> Result<(), OutOfMemory>
    requires { point < point_count graph.now }
{
    write_place(text, alloc, graph, point)?;
    write_flag(text, table, point)?;
    text.push_str(": ")?;
    let mut any = false;
    for rows in table.slices.iter() {
        any = write_slice(text, table, rows, point, any)?;
    }
    if !any {
        text.push('-')?;
    }
    text.push('\n')
}

/// Writes a point's procedure and its place in it.
fn write_place(
    text: &mut String,
    alloc: Global,
    graph: &Graph<'_>,
    point: u32,
) -> Result<(), OutOfMemory>
    requires { point < point_count graph.now }
{
    let place = graph.place(point);
    let program = graph.program();
    // Its contract tells that each procedure has a name.
    let _ = program.procs();
    let name = String::from_utf8_lossy(alloc, program.procedure(place.procedure))?;
    write!(text, "{name} {}", place.place)
}

/// Writes the lines of all points.
fn write_table(
    text: &mut String,
    alloc: Global,
    graph: &Graph<'_>,
    table: &Table,
) -> Result<(), OutOfMemory> {
    for point in 0..graph.points() {
        write_point(text, alloc, graph, table, point)?;
    }
    Ok(())
}

/// Writes the lines of these points.
fn write_lines(
    text: &mut String,
    alloc: Global,
    graph: &Graph<'_>,
    analysis: Analysis,
    width: u32,
    points: &[u32],
) -> Result<(), OutOfMemory> {
    let table = solved(alloc, graph, analysis, width)?;
    for point in points {
        if *point < graph.points() {
            write_point(text, alloc, graph, &table, *point)?;
        }
    }
    Ok(())
}
