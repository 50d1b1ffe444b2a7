// What a program's graph and problems answer, as text: a table of tests is then rows of text, question and answer.

ghost use Rattle.std.specs.Prelude.{◌≡◌, ◌<◌, ◌^◌, length, IfOk};
ghost use Rattle.flow_graph.specs.Points.{point_count};

use flow_graph::{Analysis, Edge, Graph, GraphFault, OutOfMemory};
use gen_kill::{Problem, marked_numbers};
use std::alloc::Global;
use std::process::Abort;
use std::test::Fail;
use tac_reader::{Program, ReadFault, read};

/// What is asked of a text's program.
#[derive(Clone, Copy)]
pub enum Question {
    /// The edges out of each point.
    Edges,
    /// The place of each point and the line of its statement, and the first point of each procedure.
    Points,
    /// The bits by number, and the expression that is evaluated at each point.
    Numbers,
    /// The points that lead to these.
    LeadsTo(&'static [u32]),
    /// How the edges of an analysis' may form go, and where it begins and ends.
    Frame(Analysis),
    /// The boundary of an analysis' may form, and what it generates and kills at each point.
    Sets(Analysis),
    /// The same of every other bit, from the second on, by columns.
    SetsOfOdd(Analysis),
    /// What an analysis' may form generates and kills at this point.
    SetsAt(Analysis, u32),
}

/// A text, what is asked of its program, and the answer.
pub type Row = (&'static str, Question, &'static str);

/// The answer to a question, or the message of why there is none.
pub fn answer(alloc: Global, text: &[u8], question: Question) -> Result<String, OutOfMemory> {
    match read(alloc, text) {
        Ok(program) => answer_of_program(alloc, &program, question),
        Err(ReadFault::OutOfMemory) => Err(OutOfMemory),
        Err(fault) => fault.to_string(alloc),
    }
}

fn answer_of_program(
    alloc: Global,
    program: &Program,
    question: Question,
) -> Result<String, OutOfMemory> {
    match Graph::build(alloc, program) {
        Ok(graph) => answer_of(alloc, &graph, question),
        Err(GraphFault::OutOfMemory) => Err(OutOfMemory),
        Err(fault) => fault.to_string(alloc),
    }
}

fn answer_of(alloc: Global, graph: &Graph<'_>, question: Question) -> Result<String, OutOfMemory> {
    let mut text = String::new(alloc);
    write_answer(&mut text, alloc, graph, question)?;
    Ok(text)
}

/// The question of a text has this answer.
pub fn check<R: Abort + AllocGlobal>(
    rt: &R,
    text: &str,
    question: Question,
    want: &str,
) -> Result<(), Fail> {
    let got = answer(rt.alloc(), text.as_bytes(), question)?;
    assert_eq!(rt; got.as_str(), want);
    Ok(())
}

/// Each row has its answer.
pub fn check_rows<R: Abort + AllocGlobal>(rt: &R, rows: &[Row]) -> Result<(), Fail> {
    for (text, question, want) in rows {
        check(rt, text, *question, want)?;
    }
    Ok(())
}

/// Writes the answer to a question about a graph. All that is written here goes to a text that the caller owns, so that nothing is
/// given up where a write fails.
pub fn write_answer(
    text: &mut String,
    alloc: Global,
    graph: &Graph<'_>,
    question: Question,
) -> Result<(), OutOfMemory> {
    match question {
        Question::Edges => write_edges_out(text, alloc, graph),
        Question::Points => write_points(text, graph),
        Question::Numbers => write_numbers(text, graph),
        Question::LeadsTo(marked) => write_leading(text, alloc, graph, marked),
        Question::Frame(analysis) => {
            let problem = Problem::of(alloc, graph, analysis)?;
            let edges = problem.edges(alloc)?;
            write_frame(text, &problem, edges.as_slice())
        }
        Question::Sets(analysis) => {
            write_all_sets(text, alloc, &Problem::of(alloc, graph, analysis)?)
        }
        Question::SetsOfOdd(analysis) => {
            write_all_sets(text, alloc, &odd_problem(alloc, graph, analysis)?)
        }
        Question::SetsAt(analysis, point) => {
            write_sets(text, alloc, &Problem::of(alloc, graph, analysis)?, point)
        }
    }
}

// Marks every other bit, from the second on.
fn mark_odd(marks: &mut [bool]) {
    for bit in 0..marks.len() {
        marks[bit] = bit % 2 == 1;
    }
}

/// The problem of every other bit of an analysis, from the second on.
pub fn odd_problem<'g, 'p>(
    alloc: Global,
    graph: &'g Graph<'p>,
    analysis: Analysis,
) -> Result<Problem<'g, 'p>, OutOfMemory> {
    let mut marks = vec![in alloc; false; graph.bits(analysis) as usize]?;
    mark_odd(marks.as_mut_slice());
    let chosen = marked_numbers(alloc, marks.as_slice())?;
    Problem::of_chosen(alloc, graph, analysis, chosen)
}

/// Writes an edge behind a blank.
fn write_edge(text: &mut String, edge: Edge) -> Result<(), OutOfMemory> {
    match edge {
        Edge::Step { from, to } => write!(text, " {from}-{to}"),
        Edge::Call { site, from, to } => write!(text, " call {from}-{to} at {site}"),
        Edge::Ret { site, from, to } => write!(text, " return {from}-{to} at {site}"),
    }
}

/// Writes edges, each behind a blank.
pub fn write_edges(text: &mut String, edges: &[Edge]) -> Result<(), OutOfMemory> {
    for edge in edges {
        write_edge(text, *edge)?;
    }
    Ok(())
}

fn write_edges_out(text: &mut String, alloc: Global, graph: &Graph<'_>) -> Result<(), OutOfMemory> {
    for point in 0..graph.points() {
        write!(text, "{point}:")?;
        write_edges(text, graph.succ(alloc, point)?.as_slice())?;
        text.push('\n')?;
    }
    Ok(())
}

fn write_points(text: &mut String, graph: &Graph<'_>) -> Result<(), OutOfMemory> {
    for point in 0..graph.points() {
        let place = graph.place(point);
        write!(text, "{point}: {} of {}", place.place, place.procedure)?;
        if let Some(stmt) = graph.stmt(point) {
            write!(text, ", line {}", stmt.span.line)?;
        }
        text.push('\n')?;
    }
    let procs = graph.program().procs();
    for procedure in 0..procs.len() {
        let first = graph.point(procedure as u32, 0);
        write!(text, "{procedure} from {first}\n")?;
    }
    Ok(())
}

fn write_numbers(text: &mut String, graph: &Graph<'_>) -> Result<(), OutOfMemory> {
    write!(text, "{} variables\n", graph.bits(Analysis::Live))?;
    for bit in 0..graph.bits(Analysis::Reach) {
        let (variable, point) = graph.definition(bit);
        write!(text, "{bit}: {variable} {point:?}\n")?;
    }
    for bit in 0..graph.bits(Analysis::Avail) {
        write!(text, "{bit}: {:?}\n", graph.expression(bit))?;
    }
    write!(text, "{} very busy\n", graph.bits(Analysis::Busy))?;
    for point in 0..graph.points() {
        write!(text, "{point}: {:?}\n", graph.evaluated(point))?;
    }
    Ok(())
}

/// For each point whether it is listed.
pub fn marks(alloc: Global, graph: &Graph<'_>, listed: &[u32]) -> Result<Vec<bool>, OutOfMemory>
    ensures { IfOk result (λ marks. length marks.items ≡ point_count graph.now) }
{
    let mut marks = Vec::new(alloc);
    for point in 0..graph.points() {
        marks.push(listed.contains(&point))?;
    }
    Ok(marks)
}

/// Writes the numbers of the places that are true.
pub fn write_flags(text: &mut String, flags: &[bool]) -> Result<(), OutOfMemory> {
    for (place, flag) in flags.iter().enumerate() {
        if *flag {
            write!(text, " {place}")?;
        }
    }
    Ok(())
}

fn write_leading(
    text: &mut String,
    alloc: Global,
    graph: &Graph<'_>,
    marked: &[u32],
) -> Result<(), OutOfMemory> {
    let marks = marks(alloc, graph, marked)?;
    let leads = graph.leads_to(alloc, marks.as_slice())?;
    write_flags(text, leads.as_slice())
}

/// Writes how the edges of a problem go, and where it begins and ends.
pub fn write_frame(
    text: &mut String,
    problem: &Problem<'_, '_>,
    edges: &[Edge],
) -> Result<(), OutOfMemory> {
    write!(
        text,
        "{:?}, complements {}\n",
        problem.direction(),
        problem.complements()
    )?;
    write!(text, "root {}\n", problem.root())?;
    for procedure in 0..problem.procedures() {
        let (entry, exit) = (problem.entry(procedure), problem.exit(procedure));
        write!(text, "{procedure}: {entry} to {exit}\n")?;
    }
    for point in 0..problem.points() {
        write!(text, " {}", problem.procedure(point))?;
    }
    text.push('\n')?;
    write_edges(text, edges)
}

/// A word with its number, unless it is empty.
fn write_word(text: &mut String, word: u32, bits: u64) -> Result<(), OutOfMemory> {
    if bits != 0 {
        write!(text, " {word}={bits:x}")?;
    }
    Ok(())
}

/// What is generated at a point, of a word.
fn gen_word(
    alloc: Global,
    problem: &Problem<'_, '_>,
    point: u32,
    word: u32,
) -> Result<u64, OutOfMemory>
    requires point { point < point_count problem.now.program }
    requires word { word < 2 ^ 25 }
{
    let mut table = problem.no_dependence(alloc, 1)?;
    problem.put_dependence(word, &mut table);
    Ok(problem.gen_word(point, word, &table))
}

/// What is killed at a point, of a word.
fn kill_word(
    alloc: Global,
    problem: &Problem<'_, '_>,
    point: u32,
    word: u32,
) -> Result<u64, OutOfMemory>
    requires point { point < point_count problem.now.program }
    requires word { word < 2 ^ 25 }
{
    let mut table = problem.no_dependence(alloc, 1)?;
    problem.put_dependence(word, &mut table);
    Ok(problem.kill_word(point, word, &table))
}

/// What is generated and killed at a point, by bits and by words up to the first behind the last bit.
fn write_sets(
    text: &mut String,
    alloc: Global,
    problem: &Problem<'_, '_>,
    point: u32,
) -> Result<(), OutOfMemory> {
    if problem.points() <= point {
        return text.push_str("no such point");
    }
    write!(text, "{point}: gens")?;
    for bit in 0..problem.bits() {
        if problem.gens(point, bit) {
            write!(text, " {bit}")?;
        }
    }
    for word in 0..problem.bits() / 64 + 2 {
        write_word(text, word, gen_word(alloc, problem, point, word)?)?;
    }
    text.push_str(", kills")?;
    for bit in 0..problem.bits() {
        if problem.kills(point, bit) {
            write!(text, " {bit}")?;
        }
    }
    for word in 0..problem.bits() / 64 + 2 {
        write_word(text, word, kill_word(alloc, problem, point, word)?)?;
    }
    text.push('\n')
}

/// Writes the boundary of a problem, and what is generated and killed at each of its points.
fn write_all_sets(
    text: &mut String,
    alloc: Global,
    problem: &Problem<'_, '_>,
) -> Result<(), OutOfMemory> {
    text.push_str("begins")?;
    for bit in 0..problem.bits() {
        if problem.in_boundary(bit) {
            write!(text, " {bit}")?;
        }
    }
    for word in 0..problem.bits() / 64 + 2 {
        write_word(text, word, problem.boundary_word(word))?;
    }
    text.push('\n')?;
    for point in 0..problem.points() {
        write_sets(text, alloc, problem, point)?;
    }
    Ok(())
}
