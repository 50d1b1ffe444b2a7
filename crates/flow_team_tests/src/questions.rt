// What is put to the graph of a text, and its answer as text.

ghost use Rattle.std.specs.Thread.{IsSync};

use flow_graph::Graph;
use std::alloc::Global;
use std::process::Abort;
use std::test::Fail;
use std::thread::Threads;
use tac_reader::{Program, read};

/// What is asked of a graph.
pub trait Question {
    fn answer<R: Threads + Sync + Abort>(
        &self,
        rt: &R,
        alloc: Global,
        graph: &Graph<'_>,
    ) -> Result<String, Fail>
        requires { IsSync R.row };
}

// The answer of a program's graph.
fn answered_of_program<R: Threads + Sync + Abort, Q: Question>(
    rt: &R,
    alloc: Global,
    program: &Program,
    question: &Q,
) -> Result<String, Fail> {
    let graph = Graph::build(alloc, program)?;
    question.answer(rt, alloc, &graph)
}

/// The answer of the graph of a text's program.
pub fn answered<R: Threads + Sync + Abort, Q: Question>(
    rt: &R,
    alloc: Global,
    text: &str,
    question: &Q,
) -> Result<String, Fail> {
    let program = read(alloc, text.as_bytes())?;
    answered_of_program(rt, alloc, &program, question)
}

/// The text is what is wanted. A failure names the case and the number of workers.
pub fn check_text<R: Abort>(rt: &R, counts: &str, want: &str, case: (u32, u32)) {
    let (case, workers) = case;
    assert_eq!(rt; counts, want, "case {case}, {workers} workers");
}

/// The answer of the graph of a text's program is what is wanted. Of the case and the number of workers a failure tells.
pub fn check<R: Threads + Sync + Abort + AllocGlobal, Q: Question>(
    rt: &R,
    text: &str,
    question: &Q,
    want: &str,
    case: (u32, u32),
) -> Result<(), Fail> {
    let counts = answered(rt, rt.alloc(), text, question)?;
    check_text(rt, counts.as_str(), want, case);
    Ok(())
}
