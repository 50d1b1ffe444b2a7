// Values by hand: texts and programs that are refused within the standard limits and shown within the large ones.

use crate::tacview_tests::{GRAPH, LINES, NONE, Queried, REPORT, check_by};
use flow_runs::OutOfMemory;
use std::alloc::Global;
use std::io::ErrorKind;
use std::process::Abort;
use std::test::Fail;
use std::thread::Threads;
use tac_program::Limits;
use test_support::failing_streams::Pieces;
use test_support::worked_programs::series::{numbered, repeated};
use test_support::worked_programs::{ALONE, smallest};
use view_words::Format;

const LARGE_REPORT: Queried<'static> = Queried {
    limits: Limits::Large,
    format: Format::Report,
    facts: NONE,
    procedure: None,
    because: None,
};

const LARGE_LINES: Queried<'static> = Queried {
    limits: Limits::Large,
    format: Format::Json,
    facts: NONE,
    procedure: None,
    because: None,
};

// Within the standard limits the text is refused in each format.
fn check_refused<R: Threads + Sync + Abort + AllocGlobal>(
    rt: &R,
    text: &str,
    refusal: &str,
) -> Result<(), Fail> {
    for queried in &[GRAPH, LINES, REPORT] {
        check_by(rt, text.as_bytes(), usize::MAX, *queried, ALONE, refusal)?;
    }
    Ok(())
}

// What stands around the number of each procedure but `main`.
const AROUND_NUMBERS: (&str, &str) = ("proc q", "\nend\n");

const LINE_BEFORE_NAMES: &str =
    "{\"type\":\"program\",\"version\":1,\"points\":257,\"procedures\":[\"main\"";

const LINES_BEHIND_NAMES: &str = "],\"variables\":[],\"definitions\":0,\"expressions\":0}\n\
    {\"type\":\"point\",\"point\":0,\"procedure\":\"main\",\"place\":0,\"line\":null,\"first\":null,\"last\":null,\"labels\":[],\"statement\":null,\"doubtful\":false,\"edges\":[]}\n";

// Nothing calls these procedures, so no path leads from them to the end of `main`.
const BEHIND_NAME: &str =
    "\",\"place\":0,\"line\":null,\"first\":null,\"last\":null,\"labels\":[],\"statement\":null,\"doubtful\":true,\"edges\":[]}\n";

// The lines of JSON of 257 procedures without statements.
fn lines_of_procedures(alloc: Global) -> Result<String, OutOfMemory> {
    let around = (",\"q", "\"");
    let mut text = numbered(alloc, LINE_BEFORE_NAMES, 1..257, around, LINES_BEHIND_NAMES)?;
    for number in 1..257 {
        text.push_str("{\"type\":\"point\",\"point\":")?;
        write!(text, "{number},\"procedure\":\"q{number}")?;
        text.push_str(BEHIND_NAME)?;
    }
    text.push_str("{\"type\":\"end\",\"points\":257}\n")?;
    Ok(text)
}

// A program of 257 procedures.
fn many_procedures(alloc: Global) -> Result<String, OutOfMemory> {
    numbered(alloc, smallest::TEXT, 1..257, AROUND_NUMBERS, "")
}

#[test]
fn too_many_procedures(rt: HostRuntime) -> Result<(), Fail> {
    let text = many_procedures(rt.alloc())?;
    check_refused(
        &rt,
        &text,
        "tacview: 513:6: refusal 12: TooManyProcedures\n",
    )
}

#[test]
fn report_of_many_procedures(rt: HostRuntime) -> Result<(), Fail> {
    let text = many_procedures(rt.alloc())?;
    let report = "points 257, variables 0, definitions 0, expressions 0\n";
    let team = (3, 64);
    check_by(&rt, text.as_bytes(), usize::MAX, LARGE_REPORT, team, report)
}

#[test]
fn lines_of_many_procedures(rt: HostRuntime) -> Result<(), Fail> {
    let text = many_procedures(rt.alloc())?;
    let lines = lines_of_procedures(rt.alloc())?;
    check_by(&rt, text.as_bytes(), usize::MAX, LARGE_LINES, ALONE, &lines)
}

#[test]
fn too_many_points(rt: HostRuntime) -> Result<(), Fail> {
    let text = repeated(rt.alloc(), "proc main\n", "skip\n", 16_384, "end\n")?;
    check_refused(&rt, &text, "tacview: refusal 21: TooManyPoints\n")
}

// One variable is set so often that it has, with the value at the beginning, one definition too many.
#[test]
fn too_many_definitions(rt: HostRuntime) -> Result<(), Fail> {
    let text = repeated(rt.alloc(), "proc main\n", "x = 1\n", 4_096, "end\n")?;
    check_refused(&rt, &text, "tacview: refusal 22: TooManyBits\n")
}

#[test]
fn too_many_bytes(rt: HostRuntime) -> Result<(), Fail> {
    let text = repeated(rt.alloc(), smallest::TEXT, "\n", 1_048_577 - 14, "")?;
    check_refused(&rt, &text, "tacview: 1:1: refusal 11: TextTooLong\n")
}

// A program with too many bytes, points and definitions within the standard limits.
#[test]
fn report_beyond_each_limit(rt: HostRuntime) -> Result<(), Fail> {
    let lines = repeated(rt.alloc(), "proc main\n", "\n", 1_048_576, "")?;
    let text = repeated(rt.alloc(), &lines, "x = 1\n", 16_384, "end\n")?;
    let counts = "points 16385, variables 1, definitions 16385, expressions 0\n";
    let dead = ("", ": assignment to x is dead\n");
    let first = 1_048_578;
    let report = numbered(rt.alloc(), counts, first..first + 16_384, dead, "")?;
    check_by(
        &rt,
        text.as_bytes(),
        usize::MAX,
        LARGE_REPORT,
        ALONE,
        &report,
    )
}

// Nothing is pulled behind what is one byte too long within the standard limits, and more within the large ones.
#[test]
fn faults_behind_the_longest_text(rt: HostRuntime) -> Result<(), Fail> {
    let text = repeated(rt.alloc(), smallest::TEXT, "\n", 1_200_000 - 14, "")?;
    let answers = [
        (REPORT, "tacview: 1:1: refusal 11: TextTooLong\n"),
        (LARGE_REPORT, "tacview: read fault\n"),
    ];
    for (queried, answer) in &answers {
        let reader = Pieces {
            rest: text.as_bytes(),
            piece: usize::MAX,
            left: 1_048_577,
            fault: ErrorKind::Other,
        };
        check_by(&rt, reader, usize::MAX, *queried, ALONE, answer)?;
    }
    Ok(())
}
