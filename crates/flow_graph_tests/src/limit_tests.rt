use crate::answers::{Question, check};
use flow_graph::{Analysis, OutOfMemory};
use std::process::Abort;
use std::test::Fail;

/// What each line of a long `main` is.
#[derive(Clone, Copy)]
enum Line {
    Skip,
    SetsX,
    SetsAnother,
}

/// Writes a `main` with so many lines.
fn write_lines(text: &mut String, line: Line, count: u32) -> Result<(), OutOfMemory> {
    text.push_str("proc main\n")?;
    for number in 0..count {
        match line {
            Line::Skip => text.push_str("skip\n")?,
            Line::SetsX => text.push_str("x = 1\n")?,
            Line::SetsAnother => write!(text, "v{number} = 1\n")?,
        }
    }
    text.push_str("end\n")
}

/// The question of such a `main` has this answer.
fn check_main<R: Abort + AllocGlobal>(
    rt: &R,
    line: Line,
    count: u32,
    question: Question,
    want: &str,
) -> Result<(), Fail> {
    let mut text = String::new(rt.alloc());
    write_lines(&mut text, line, count)?;
    check(rt, text.as_str(), question, want)
}

/// What each line is, how many there are, what is asked, and the answer.
const MAINS: &[(Line, u32, Question, &str)] = &[
    (
        Line::Skip,
        16_383,
        Question::SetsAt(Analysis::Live, 16_383),
        "16383: gens, kills\n",
    ),
    (
        Line::Skip,
        16_384,
        Question::Edges,
        "refusal 21: TooManyPoints",
    ),
    (
        Line::SetsAnother,
        2_048,
        Question::SetsAt(Analysis::Reach, 2_047),
        "2047: gens 4095 63=8000000000000000, kills 2047 31=8000000000000000\n",
    ),
    (
        Line::SetsAnother,
        2_049,
        Question::Edges,
        "refusal 22: TooManyBits",
    ),
    (
        Line::SetsX,
        66,
        Question::SetsAt(Analysis::Reach, 65),
        "65: gens 66 1=4, kills 0 1 2 3 4 5 6 7 8 9 10 11 12 13 14 15 16 17 18 19 20 21 22 23 24 25 26 27 28 29 30 31 32 33 34 35 36 37 38 39 40 41 \
        42 43 44 45 46 47 48 49 50 51 52 53 54 55 56 57 58 59 60 61 62 63 64 65 0=ffffffffffffffff 1=3\n",
    ),
];

#[test]
fn limits_and_second_words(rt: HostRuntime) -> Result<(), Fail> {
    for (line, count, question, want) in MAINS {
        check_main(&rt, *line, *count, *question, want)?;
    }
    Ok(())
}
