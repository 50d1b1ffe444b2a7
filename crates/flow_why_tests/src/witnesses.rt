// Witnesses of a text's program, as text.

ghost use Rattle.std.specs.Prelude.{◌≡◌, ◌<◌};
ghost use Rattle.flow_graph.specs.Points.{point_count};
ghost use Rattle.flow_graph.specs.Problems.{may_shape};
ghost use Rattle.flow_why.specs.Directed.{direction_of};
ghost use Rattle.gen_kill.specs.Selections.{column_count};

use flow_graph::{Analysis, Graph, OutOfMemory};
use flow_why::{Effect, Hop, Ways};
use flow_witnesses::Why;
use gen_kill::Problem;
use std::alloc::Global;
use std::process::Abort;
use std::test::Fail;
use tac_reader::{Program, read};

/// What is asked of a bit of an analysis.
#[derive(Clone, Copy)]
pub enum Question {
    /// Its witness at a point.
    Witness(u32),
    /// A way through a callee that has an effect.
    Through(u32, Effect),
}

/// A text, the analysis, the bit, what is asked, and the answer.
pub type Row = (&'static str, Analysis, u32, Question, &'static str);

fn effect_name(effect: Effect) -> &'static str {
    match effect {
        Effect::Reaches => "reaches",
        Effect::Generates => "generates",
        Effect::Preserves => "preserves",
    }
}

fn write_hop(text: &mut String, hop: Hop) -> Result<(), OutOfMemory> {
    match hop {
        Hop::Step { from, to } => write!(text, "{from}-{to};"),
        Hop::Enter { site, from, to } => write!(text, "{from}>{to} at {site};"),
        Hop::Pass {
            site,
            from,
            callee,
            to,
            effect,
        } => {
            let name = effect_name(effect);
            write!(text, "{from}={to} at {site} by {callee} {name};")
        }
    }
}

fn write_hops(text: &mut String, hops: &[Hop]) -> Result<(), OutOfMemory> {
    for hop in hops {
        write_hop(text, *hop)?;
    }
    Ok(())
}

/// Hops, or that there are none.
pub fn write_found(text: &mut String, found: Option<Vec<Hop>>) -> Result<(), OutOfMemory> {
    match found {
        None => text.push_str("none"),
        Some(hops) => write_hops(text, hops.as_slice()),
    }
}

fn write_witness(
    text: &mut String,
    alloc: Global,
    why: &Why<'_, '_, '_>,
    point: u32,
) -> Result<(), OutOfMemory>
    requires { point < point_count why.now.form.program }
{
    let found = why.witness(alloc, point)?;
    write_found(text, found)
}

fn write_through(
    text: &mut String,
    alloc: Global,
    why: &Why<'_, '_, '_>,
    callee: u32,
    effect: Effect,
) -> Result<(), OutOfMemory>
    requires { callee < (may_shape why.now.form.program why.now.form.analysis).procedures }
{
    let found = why.through(alloc, callee, effect)?;
    write_found(text, found)
}

fn write_answer(
    text: &mut String,
    alloc: Global,
    problem: &Problem<'_, '_>,
    why: &Why<'_, '_, '_>,
    question: Question,
) -> Result<(), OutOfMemory>
    requires { why.now.form ≡ problem.now }
{
    match question {
        Question::Witness(point) => {
            if point >= problem.points() {
                return text.push_str("no such point");
            }
            write_witness(text, alloc, why, point)
        }
        Question::Through(callee, effect) => {
            if callee >= problem.procedures() {
                return text.push_str("no such procedure");
            }
            write_through(text, alloc, why, callee, effect)
        }
    }
}

fn write_bit(
    text: &mut String,
    alloc: Global,
    problem: &Problem<'_, '_>,
    ways: &Ways,
    bit: u32,
    question: Question,
) -> Result<(), OutOfMemory>
    requires ways { ways.now.linked ≡ direction_of problem.now }
{
    if bit >= problem.bits() {
        return text.push_str("no such bit");
    }
    let why = Why::of(alloc, ways, problem, bit)?;
    write_answer(text, alloc, problem, &why, question)
}

fn write_of_graph(
    text: &mut String,
    alloc: Global,
    graph: &Graph<'_>,
    analysis: Analysis,
    bit: u32,
    question: Question,
) -> Result<(), OutOfMemory> {
    let problem = Problem::of(alloc, graph, analysis)?;
    let ways = Ways::of(alloc, &problem)?;
    write_bit(text, alloc, &problem, &ways, bit, question)
}

fn answer_of_program(
    alloc: Global,
    program: &Program,
    analysis: Analysis,
    bit: u32,
    question: Question,
) -> Result<String, Fail> {
    let graph = Graph::build(alloc, program)?;
    let mut text = String::new(alloc);
    write_of_graph(&mut text, alloc, &graph, analysis, bit, question)?;
    Ok(text)
}

/// Each row has its answer.
pub fn check_rows<R: Abort + AllocGlobal>(rt: &R, rows: &[Row]) -> Result<(), Fail> {
    for (text, analysis, bit, question, want) in rows {
        let program = read(rt.alloc(), text.as_bytes())?;
        let got = answer_of_program(rt.alloc(), &program, *analysis, *bit, *question)?;
        assert_eq!(rt; got.as_str(), *want);
    }
    Ok(())
}
