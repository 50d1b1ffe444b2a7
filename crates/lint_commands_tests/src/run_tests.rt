// What is told of a file, from its reader to the page, worked by hand.

use flow_graph::GraphFault;
use flow_runs::Fault;
use flow_team::OpenGate;
use lint_commands::{Crew, Form, Request, Told, Wish, failed_line, missing_line, run};
use lint_styles::Style;
use lint_texts::Kinds;
use std::io::{ErrorKind, Read};
use std::process::Abort;
use std::test::Fail;
use std::thread::Threads;
use tac_program::Limits;
use test_support::failing_streams::{Page, Pieces, blank_page};
use text_pieces::{FromRead, ToWrite};

const WRONG: &str = "proc main\nx = y;\nend\n";

const WRONG_TOLD: &str =
    "a.tac:2:6: error: no word, number or sign begins with this byte (refusal 1)\n\
    a.tac:2:6: note: a statement ends with its line: leave the semicolon out\na.tac: 1 error\n";

const STYLED: &str =
    "a.tac:2:1: \x1b[1;35mdead\x1b[0m: the value assigned to x is never used\n    2 | x = 1\n      | \x1b[1;32m^\x1b[0m\na.tac: 1 remark\n\
    a.tac:2:6: \x1b[1;31merror\x1b[0m: no word, number or sign begins with this byte (refusal 1)\n    2 | x = y;\n      |      \x1b[1;32m^\x1b[0m\n\
    a.tac:2:6: \x1b[1;36mnote\x1b[0m: a statement ends with its line: leave the semicolon out\na.tac: 1 error\n";

const PLAIN: Style = Style {
    source: false,
    color: false,
};

const COLORED: Style = Style {
    source: true,
    color: true,
};

/// A text, what is told of it, and what is written.
type Row = (&'static str, Told, &'static str);

const TEXTS: &[Row] = &[
    ("proc main\nend\n", Told::Nothing, "a.tac: no remarks\n"),
    (
        "proc main\nx = 1\nend\n",
        Told::Remarks,
        "a.tac:2:1: dead: the value assigned to x is never used\na.tac: 1 remark\n",
    ),
    // An expression that is computed already is no usual kind.
    (
        "proc main\nread a\nx = a + a\ny = a + a\nprint x\nprint y\nend\n",
        Told::Nothing,
        "a.tac: no remarks\n",
    ),
    (WRONG, Told::Errors, WRONG_TOLD),
    (
        "",
        Told::Errors,
        "a.tac:1:1: error: no procedure is called `main` (refusal 6)\na.tac: 1 error\n",
    ),
];

fn request_of<'a>(style: Style) -> Request<'a> {
    Request {
        kinds: Kinds::usual(),
        procedure: None,
        why: false,
        form: Form::Text,
        style,
    }
}

fn run_to_page<R: AllocGlobal + Threads + Sync, D: Read + Drop>(
    rt: &R,
    request: Request<'_>,
    reader: D,
    page: &mut Page,
) -> Result<Told, Fault> {
    let mut source = FromRead::new(reader);
    let mut sink = ToWrite::new(page);
    let wish = Wish {
        limits: Limits::Standard,
        request,
        name: b"a.tac",
    };
    let crew = Crew {
        threads: rt,
        gate: &OpenGate,
        workers: 2,
    };
    run(&crew, rt.alloc(), wish, &mut source, &mut sink)
}

// The reader's text is told so, where a write takes so many bytes at most.
fn check_by<R: Abort + AllocGlobal + Threads + Sync, D: Read + Drop>(
    rt: &R,
    reader: D,
    piece: usize,
    told: Told,
    written: &str,
) -> Result<(), Fail> {
    let mut page = blank_page(rt.alloc());
    page.piece = piece;
    let found = run_to_page(rt, request_of(PLAIN), reader, &mut page)?;
    assert_eq!(rt; found, told, "{written}");
    assert_eq!(rt; page.taken.as_slice(), written.as_bytes(), "{written}");
    Ok(())
}

fn slow(text: &str) -> Pieces<'_> {
    Pieces {
        rest: text.as_bytes(),
        piece: 1,
        left: usize::MAX,
        fault: ErrorKind::Other,
    }
}

#[test]
fn texts_whole_and_byte_by_byte(rt: HostRuntime) -> Result<(), Fail> {
    for (text, told, written) in TEXTS {
        check_by(&rt, text.as_bytes(), usize::MAX, *told, written)?;
        check_by(&rt, slow(text), 1, *told, written)?;
    }
    Ok(())
}

// The style reaches what is told of programs and of other texts.
#[test]
fn styles(rt: HostRuntime) -> Result<(), Fail> {
    let mut page = blank_page(rt.alloc());
    let told = run_to_page(
        &rt,
        request_of(COLORED),
        b"proc main\nx = 1\nend\n".as_slice(),
        &mut page,
    )?;
    assert_eq!(rt; told, Told::Remarks);
    let told = run_to_page(&rt, request_of(COLORED), WRONG.as_bytes(), &mut page)?;
    assert_eq!(rt; told, Told::Errors);
    assert_eq!(rt; page.taken.as_slice(), STYLED.as_bytes());
    Ok(())
}

const DEAD_JSON: &str = "{\"type\":\"file\",\"file\":\"a.tac\",\"version\":1}\n\
    {\"type\":\"remark\",\"file\":\"a.tac\",\"line\":2,\"column\":1,\"kind\":\"dead\",\"words\":\"the value assigned to x is never used\",\
    \"variable\":\"x\",\"procedure\":\"main\"}\n\
    {\"type\":\"end\",\"file\":\"a.tac\",\"remarks\":1}\n";

const WRONG_JSON: &str = "{\"type\":\"file\",\"file\":\"a.tac\",\"version\":1}\n\
    {\"type\":\"error\",\"file\":\"a.tac\",\"line\":2,\"column\":6,\"refusal\":1,\"words\":\"no word, number or sign begins with this byte\",\
    \"note\":\"a statement ends with its line: leave the semicolon out\"}\n\
    {\"type\":\"end\",\"file\":\"a.tac\",\"errors\":1,\"first\":false}\n";

const JSON_TEXTS: &[Row] = &[
    ("proc main\nx = 1\nend\n", Told::Remarks, DEAD_JSON),
    (WRONG, Told::Errors, WRONG_JSON),
];

// The form reaches what is told of programs and of other texts, and the style does not reach JSON.
#[test]
fn forms(rt: HostRuntime) -> Result<(), Fail> {
    let mut request = request_of(COLORED);
    request.form = Form::Json;
    for (text, told, written) in JSON_TEXTS {
        let mut page = blank_page(rt.alloc());
        let found = run_to_page(&rt, request, text.as_bytes(), &mut page)?;
        assert_eq!(rt; found, *told, "{written}");
        assert_eq!(rt; page.taken.as_slice(), written.as_bytes(), "{written}");
    }
    Ok(())
}

const TWO: &[u8] = b"proc main\nx = 1\nend\nproc p\nskip\nend\n";

const OF_P: &[u8] =
    b"a.tac:5:1: never-called: procedure p is never called\na.tac: 1 remark\na.tac: no remarks\n";

// What lies in the procedure that is asked for; where there is none of the name, nothing is written.
#[test]
fn procedures(rt: HostRuntime) -> Result<(), Fail> {
    let mut page = blank_page(rt.alloc());
    let mut request = request_of(PLAIN);
    request.procedure = Some(b"p");
    let told = run_to_page(&rt, request, TWO, &mut page)?;
    assert_eq!(rt; told, Told::Remarks);
    request.kinds.never_called = false;
    let told = run_to_page(&rt, request, TWO, &mut page)?;
    assert_eq!(rt; told, Told::Nothing);
    request.procedure = Some(b"q");
    let found = run_to_page(&rt, request, TWO, &mut page);
    assert!(rt; matches!(found, Err(Fault::NoProcedure)));
    assert_eq!(rt; page.taken.as_slice(), OF_P);
    let line = missing_line(rt.alloc(), b"a\x1b.tac", b"q\n")?;
    assert_eq!(rt;
        line.as_slice(),
        b"a\\x1b.tac: the program has no procedure q\\x0a\n".as_slice()
    );
    Ok(())
}

// A reader that fails: nothing is written.
#[test]
fn faults_of_readers(rt: HostRuntime) -> Result<(), Fail> {
    for left in 0..WRONG.len() {
        let mut page = blank_page(rt.alloc());
        let mut reader = slow(WRONG);
        reader.left = left;
        let found = run_to_page(&rt, request_of(PLAIN), reader, &mut page);
        assert!(rt; matches!(found, Err(Fault::Read)) && page.taken.is_empty());
    }
    Ok(())
}

// A writer that fails: a beginning of what is told was written.
#[test]
fn faults_of_writers(rt: HostRuntime) -> Result<(), Fail> {
    for left in [0, 1, 77, WRONG_TOLD.len() - 1] {
        let mut page = blank_page(rt.alloc());
        page.left = left;
        page.fault = Some(ErrorKind::Other);
        let found = run_to_page(&rt, request_of(PLAIN), WRONG.as_bytes(), &mut page);
        assert!(rt; matches!(found, Err(Fault::Write)));
        assert_eq!(rt; page.taken.as_slice(), &WRONG_TOLD.as_bytes()[..left]);
    }
    Ok(())
}

/// Limits, a fault, and the line that tells it.
type Failed = (Limits, Fault, &'static str);

const FAILED: &[Failed] = &[
    (
        Limits::Standard,
        Fault::Graph(GraphFault::TooManyPoints),
        "a\\x1b.tac: the program has more than 16384 points: each statement has one, and each `end` (refusal 21); --limits large takes more\n",
    ),
    (
        Limits::Large,
        Fault::Graph(GraphFault::TooManyPoints),
        "a\\x1b.tac: the program has more than 16777216 points: each statement has one, and each `end` (refusal 21)\n",
    ),
    (
        Limits::Standard,
        Fault::Graph(GraphFault::TooManyBits),
        "a\\x1b.tac: the program has more than 4096 variables, 4096 expressions, or 4096 variables and assignments together (refusal 22); \
        --limits large takes more\n",
    ),
    (
        Limits::Large,
        Fault::Graph(GraphFault::TooManyBits),
        "a\\x1b.tac: the program has more than 4194304 variables, 4194304 expressions, or 20971520 variables and assignments together \
        (refusal 22)\n",
    ),
    (
        Limits::Large,
        Fault::Graph(GraphFault::OutOfMemory),
        "a\\x1b.tac: out of memory\n",
    ),
    (
        Limits::Standard,
        Fault::OutOfMemory,
        "a\\x1b.tac: out of memory\n",
    ),
    (Limits::Standard, Fault::Read, "a\\x1b.tac: read fault\n"),
    (Limits::Standard, Fault::Write, "a\\x1b.tac: write fault\n"),
];

#[test]
fn lines_of_faults(rt: HostRuntime) -> Result<(), Fail> {
    for (limits, fault, wanted) in FAILED {
        let line = failed_line(rt.alloc(), *limits, b"a\x1b.tac", fault)?;
        assert_eq!(rt; line.as_slice(), wanted.as_bytes());
    }
    Ok(())
}

// A program that is too large is no wrong text.
#[test]
fn programs_with_too_many_points(rt: HostRuntime) -> Result<(), Fail> {
    let mut text = Vec::new(rt.alloc());
    text.extend_from_slice(b"proc main\n")?;
    for _ in 0..16_384 {
        text.extend_from_slice(b"skip\n")?;
    }
    text.extend_from_slice(b"end\n")?;
    let mut page = blank_page(rt.alloc());
    let found = run_to_page(&rt, request_of(PLAIN), text.as_slice(), &mut page);
    assert!(rt; matches!(found, Err(Fault::Graph(GraphFault::TooManyPoints))));
    assert!(rt; page.taken.is_empty());
    Ok(())
}
