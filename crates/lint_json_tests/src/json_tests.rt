// What is written of worked texts, each followed by hand.

use flow_graph::{Graph, OutOfMemory};
use lint_json::{lint_json_here, refusal_json};
use lint_styles::Style;
use lint_texts::{File, Kinds, Telling};
use refusal_texts::told_refusals;
use std::alloc::Global;
use std::process::Abort;
use std::test::Fail;
use tac_program::Limits;
use tac_reader::{Program, read};

/// A text, and the lines that are written of it.
type Row = (&'static str, &'static [&'static str]);

// Colours and lines of the source do not reach JSON.
const STYLE: Style = Style {
    source: true,
    color: true,
};

const FILE: &str = "{\"type\":\"file\",\"file\":\"a\\\\x1b.tac\",\"version\":1}";

const ALL: Kinds = Kinds {
    never_called: true,
    never_reached: true,
    unset: true,
    computed: true,
    busy: true,
    dead: true,
};

// Remarks of each kind, in the order of points.
const PROGRAMS: &[Row] = &[
    (
        "proc main\nend\n",
        &[
            FILE,
            "{\"type\":\"end\",\"file\":\"a\\\\x1b.tac\",\"remarks\":0}",
        ],
    ),
    (
        "proc main\nread a\nread b\nx=a+b\ny=a+b\nif x<y goto L\nz=a*b\ngoto M\n L: z=a*b\nx=0\nM: print z\nprint n\nreturn\nprint y\n\nskip\nend\n\
        proc p\nend\n",
        &[
            FILE,
            "{\"type\":\"remark\",\"file\":\"a\\\\x1b.tac\",\"line\":5,\"column\":1,\"kind\":\"computed\",\
            \"words\":\"a + b is already computed\",\"expression\":\"a + b\",\"procedure\":\"main\"}",
            "{\"type\":\"remark\",\"file\":\"a\\\\x1b.tac\",\"line\":6,\"column\":1,\"kind\":\"busy\",\
            \"words\":\"a * b is very busy\",\"expression\":\"a * b\",\"procedure\":\"main\"}",
            "{\"type\":\"remark\",\"file\":\"a\\\\x1b.tac\",\"line\":10,\"column\":1,\"kind\":\"dead\",\
            \"words\":\"the value assigned to x is never used\",\"variable\":\"x\",\"procedure\":\"main\"}",
            "{\"type\":\"remark\",\"file\":\"a\\\\x1b.tac\",\"line\":12,\"column\":1,\"kind\":\"unset\",\
            \"words\":\"n may be used before it is set\",\"variable\":\"n\",\"procedure\":\"main\"}",
            "{\"type\":\"remark\",\"file\":\"a\\\\x1b.tac\",\"line\":14,\"column\":1,\"kind\":\"never-reached\",\
            \"words\":\"no statement from here to line 16 is ever reached\",\"last_line\":16,\"procedure\":\"main\"}",
            "{\"type\":\"remark\",\"file\":\"a\\\\x1b.tac\",\"line\":18,\"column\":1,\"kind\":\"never-called\",\
            \"words\":\"procedure p is never called\",\"procedure\":\"p\"}",
            "{\"type\":\"end\",\"file\":\"a\\\\x1b.tac\",\"remarks\":6}",
        ],
    ),
    // Dead assignments that are left out, from the first statement on that may never end.
    (
        "proc main\nx = 1\nif c goto L\nreturn\nL: print x\ngoto L\nend\n",
        &[
            FILE,
            "{\"type\":\"remark\",\"file\":\"a\\\\x1b.tac\",\"line\":3,\"column\":1,\"kind\":\"unset\",\
            \"words\":\"c may be used before it is set\",\"variable\":\"c\",\"procedure\":\"main\"}",
            "{\"type\":\"untold\",\"file\":\"a\\\\x1b.tac\",\"count\":1,\"from_line\":5}",
            "{\"type\":\"end\",\"file\":\"a\\\\x1b.tac\",\"remarks\":1}",
        ],
    ),
    // One statement that is never reached. The program may stay in its loop, which does not read `x`, and may leave it.
    (
        "proc main\nread a\nx = 1\nL: if a goto L\ngoto M\nskip\nM: return\nend\n",
        &[
            FILE,
            "{\"type\":\"remark\",\"file\":\"a\\\\x1b.tac\",\"line\":3,\"column\":1,\"kind\":\"dead\",\
            \"words\":\"the value assigned to x is never used\",\"variable\":\"x\",\"procedure\":\"main\"}",
            "{\"type\":\"remark\",\"file\":\"a\\\\x1b.tac\",\"line\":6,\"column\":1,\"kind\":\"never-reached\",\
            \"words\":\"this statement is never reached\",\"last_line\":6,\"procedure\":\"main\"}",
            "{\"type\":\"end\",\"file\":\"a\\\\x1b.tac\",\"remarks\":2}",
        ],
    ),
];

// Errors with notes and without, what stands in a text between quotes, and a line each for the first and the last.
const REFUSED: &[Row] = &[
    (
        "",
        &[
            FILE,
            "{\"type\":\"error\",\"file\":\"a\\\\x1b.tac\",\"line\":1,\"column\":1,\"refusal\":6,\"words\":\"no procedure is called `main`\"}",
            "{\"type\":\"end\",\"file\":\"a\\\\x1b.tac\",\"errors\":1,\"first\":false}",
        ],
    ),
    (
        "proc main\nx = y;\nx = y \\\nend\n",
        &[
            FILE,
            "{\"type\":\"error\",\"file\":\"a\\\\x1b.tac\",\"line\":2,\"column\":6,\"refusal\":1,\
            \"words\":\"no word, number or sign begins with this byte\",\"note\":\"a statement ends with its line: leave the semicolon out\"}",
            "{\"type\":\"error\",\"file\":\"a\\\\x1b.tac\",\"line\":3,\"column\":7,\"refusal\":1,\
            \"words\":\"no word, number or sign begins with this byte\",\"note\":\"`\\\\` means nothing here: notes for readers stand behind `#`\"}",
            "{\"type\":\"end\",\"file\":\"a\\\\x1b.tac\",\"errors\":2,\"first\":false}",
        ],
    ),
];

fn json_of_program(alloc: Global, text: &str, program: &Program) -> Result<Vec<u8>, Fail> {
    let graph = Graph::build(alloc, program)?;
    let file = File {
        name: b"a\x1b.tac",
        text: text.as_bytes(),
    };
    let telling = Telling {
        kinds: ALL,
        procedure: None,
        why: false,
        style: STYLE,
    };
    Ok(lint_json_here(alloc, file, telling, &graph)?)
}

fn json_of(alloc: Global, text: &str) -> Result<Vec<u8>, Fail> {
    let program = read(alloc, text.as_bytes())?;
    json_of_program(alloc, text, &program)
}

fn json_of_refused(alloc: Global, text: &str) -> Result<Vec<u8>, Fail> {
    let told = told_refusals(alloc, Limits::Standard, text.as_bytes())?;
    Ok(refusal_json(alloc, b"a\x1b.tac", text.as_bytes(), told.as_slice())?)
}

fn joined(alloc: Global, lines: &[&'static str]) -> Result<Vec<u8>, OutOfMemory> {
    let mut text = Vec::new(alloc);
    for line in lines {
        text.extend_from_slice(line.as_bytes())?;
        text.extend_from_slice(b"\n")?;
    }
    Ok(text)
}

// Compares what is written with what is written by hand.
fn check<R: Abort + AllocGlobal>(
    rt: &R,
    text: &'static str,
    written: &[u8],
    lines: &[&'static str],
) -> Result<(), Fail> {
    let wanted = joined(rt.alloc(), lines)?;
    assert_eq!(rt; written, wanted.as_slice(), "{text}");
    Ok(())
}

#[test]
fn programs(rt: HostRuntime) -> Result<(), Fail> {
    for (text, lines) in PROGRAMS {
        let written = json_of(rt.alloc(), text)?;
        check(&rt, text, written.as_slice(), lines)?;
    }
    Ok(())
}

#[test]
fn texts_that_are_refused(rt: HostRuntime) -> Result<(), Fail> {
    for (text, lines) in REFUSED {
        let written = json_of_refused(rt.alloc(), text)?;
        check(&rt, text, written.as_slice(), lines)?;
    }
    Ok(())
}
