// The text of a program's lints.

use flow_graph::{Graph, OutOfMemory};
use lint_styles::Style;
use lint_texts::{File, Kinds, Telling, lint_text_here};
use std::alloc::Global;
use std::process::Abort;
use std::test::Fail;
use tac_reader::{Program, read};

/// A text, and the lines that are written of it.
pub type Row = (&'static str, &'static [&'static str]);

/// Lines alone.
pub const PLAIN: Style = Style {
    source: false,
    color: false,
};

/// Lines with those of the source behind them.
pub const WITH_SOURCE: Style = Style {
    source: true,
    color: false,
};

/// The same in colours.
pub const COLORED: Style = Style {
    source: true,
    color: true,
};

/// All kinds.
pub fn all_kinds() -> Kinds {
    Kinds {
        never_called: true,
        never_reached: true,
        unset: true,
        computed: true,
        busy: true,
        dead: true,
    }
}

/// Those that are not usual.
pub fn other_kinds() -> Kinds {
    Kinds {
        never_called: false,
        never_reached: false,
        unset: false,
        computed: true,
        busy: true,
        dead: false,
    }
}

fn text_of_program(
    alloc: Global,
    telling: Telling,
    text: &str,
    program: &Program,
) -> Result<Vec<u8>, Fail> {
    let graph = Graph::build(alloc, program)?;
    let file = File {
        name: b"a.tac",
        text: text.as_bytes(),
    };
    Ok(lint_text_here(alloc, file, telling, &graph)?)
}

fn text_of(alloc: Global, telling: Telling, text: &str) -> Result<Vec<u8>, Fail> {
    let program = read(alloc, text.as_bytes())?;
    text_of_program(alloc, telling, text, &program)
}

fn joined(alloc: Global, lines: &[&'static str]) -> Result<Vec<u8>, OutOfMemory> {
    let mut text = Vec::new(alloc);
    for line in lines {
        text.extend_from_slice(line.as_bytes())?;
        text.extend_from_slice(b"\n")?;
    }
    Ok(text)
}

/// Compares what is written of each text with what is written by hand.
pub fn check_rows<R: Abort + AllocGlobal>(
    rt: &R,
    telling: Telling,
    rows: &[Row],
) -> Result<(), Fail> {
    for (text, lines) in rows {
        let written = text_of(rt.alloc(), telling, text)?;
        let wanted = joined(rt.alloc(), lines)?;
        assert_eq!(rt; written.as_slice(), wanted.as_slice(), "{text}");
    }
    Ok(())
}
