// What is told of a text's program, as text.

use flow_graph::{Graph, OutOfMemory};
use flow_lints::{Lint, Linted, linted_here};
use flow_reports::Remark;
use std::alloc::Global;
use std::process::Abort;
use std::test::Fail;
use tac_reader::{Program, read};

/// A text, and what is told of it.
pub type Row = (&'static str, &'static str);

fn write_remark(text: &mut String, remark: Remark) -> Result<(), OutOfMemory> {
    match remark {
        Remark::NeverReached => text.push_str("unreached"),
        Remark::Unset { variable } => write!(text, "unset {variable}"),
        Remark::Computed { expression } => write!(text, "computed {expression}"),
        Remark::VeryBusy { expression } => write!(text, "busy {expression}"),
        Remark::Dead { variable } => write!(text, "dead {variable}"),
    }
}

fn write_lint(text: &mut String, point: u32, lint: Lint) -> Result<(), OutOfMemory> {
    write!(text, "{point}:")?;
    match lint {
        Lint::NeverCalled { procedure } => write!(text, "uncalled {procedure}")?,
        Lint::Told { remark } => write_remark(text, remark)?,
    }
    text.push_str(";")
}

fn write_lints(text: &mut String, linted: &Linted) -> Result<(), OutOfMemory> {
    for placed in &linted.lints {
        write_lint(text, placed.point, placed.lint)?;
    }
    write!(text, "left out {};", linted.left_out)?;
    match linted.endless {
        Some(point) => write!(text, "endless {point}"),
        None => text.push_str("endless none"),
    }
}

fn lints_of_graph(alloc: Global, graph: &Graph<'_>) -> Result<String, OutOfMemory> {
    let linted = linted_here(alloc, graph)?;
    let mut text = String::new(alloc);
    write_lints(&mut text, &linted)?;
    Ok(text)
}

fn lints_of_program(alloc: Global, program: &Program) -> Result<String, Fail> {
    let graph = Graph::build(alloc, program)?;
    Ok(lints_of_graph(alloc, &graph)?)
}

fn lints_of_text(alloc: Global, text: &str) -> Result<String, Fail> {
    let program = read(alloc, text.as_bytes())?;
    lints_of_program(alloc, &program)
}

/// Compares what is told of each text with what is told by hand.
pub fn check_rows<R: Abort + AllocGlobal>(rt: &R, rows: &[Row]) -> Result<(), Fail> {
    for (text, wanted) in rows {
        let lints = lints_of_text(rt.alloc(), text)?;
        assert_eq!(rt; lints.as_str(), *wanted, "{text}");
    }
    Ok(())
}
