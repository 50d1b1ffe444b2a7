use crate::tables::{Question, check};
use flow_graph::{Analysis, OutOfMemory};
use gk_solve::words_at_once;
use std::alloc::Global;
use std::process::Abort;
use std::test::Fail;

/// A program that is written by rule.
#[derive(Clone, Copy)]
enum Large {
    /// Each of 255 procedures calls the next, and the last one sets `x`.
    Chain,
    /// The same, but the one in the middle loops before its call.
    BrokenChain,
    /// Each of 255 procedures may set `x` and call one of the next eight, in a circle.
    Circle,
    /// A loop of 4,000 statements that set `x`.
    Loop,
    /// 300 variables at more than 16,384 points, so that a slice of all solves eight words at once.
    Long,
}

fn chain(text: &mut String, broken: bool) -> Result<(), OutOfMemory> {
    text.push_str("proc main\nx = 1\ncall p0\nprint x\nend\n")?;
    for number in 0..254_u32 {
        write!(text, "proc p{number}\n")?;
        if broken && number == 127 {
            text.push_str("L: goto L\n")?;
        }
        write!(text, "call p{}\nend\n", number + 1)?;
    }
    text.push_str("proc p254\nx = 2\nend\n")
}

fn circle(text: &mut String) -> Result<(), OutOfMemory> {
    text.push_str("proc main\ncall p0\nend\n")?;
    for number in 0..255_u32 {
        write!(
            text,
            "proc p{number}\nif x goto L\nx = 1\ncall p{}",
            (number + 1) % 255
        )?;
        for next in 2..9_u32 {
            write!(text, " | p{}", (number + next) % 255)?;
        }
        text.push_str("\nL:\nend\n")?;
    }
    Ok(())
}

fn long_loop(text: &mut String) -> Result<(), OutOfMemory> {
    text.push_str("proc main\nL: if c goto M\n")?;
    for _ in 0..4_000 {
        text.push_str("x = 1\n")?;
    }
    text.push_str("goto L\nM: print x\nend\n")
}

fn long(text: &mut String) -> Result<(), OutOfMemory> {
    text.push_str("proc main\n")?;
    for number in 0..300_u32 {
        write!(text, "print v{number}\n")?;
    }
    for _ in 0..16_100 {
        text.push_str("skip\n")?;
    }
    text.push_str("v0 = 1\ncall f\nprint v299\nend\nproc f\nv299 = 1\nend\n")
}

fn program(alloc: Global, large: Large) -> Result<String, OutOfMemory> {
    let mut text = String::new(alloc);
    write_program(&mut text, large)?;
    Ok(text)
}

fn write_program(text: &mut String, large: Large) -> Result<(), OutOfMemory> {
    match large {
        Large::Chain => chain(text, false),
        Large::BrokenChain => chain(text, true),
        Large::Circle => circle(text),
        Large::Loop => long_loop(text),
        Large::Long => long(text),
    }
}

/// Large programs, some of their points, and what a table has there.
const CHOSEN_LINES: &[(Large, Analysis, &[u32], &str)] = &[
    (
        Large::Chain,
        Analysis::Reach,
        &[1, 2, 3, 4, 5, 512, 513],
        "main 1: x@2\nmain 2: x@769\nmain 3: x@769\np0 0: x@2\np0 1: x@769\np254 0: x@2\np254 1: x@769\n",
    ),
    (
        Large::Chain,
        Analysis::Live,
        &[0, 1, 2, 3, 4, 5, 512, 513],
        "main 0: -\nmain 1: -\nmain 2: x\nmain 3: -\np0 0: -\np0 1: x\np254 0: -\np254 1: x\n",
    ),
    (
        Large::BrokenChain,
        Analysis::Reach,
        &[1, 2, 256, 257, 258, 259, 260, 261, 514],
        "main 1: x@2\nmain 2 (no path): -\np126 0: x@2\np126 1 (no path): -\np127 0: x@2\n\
        p127 1 (no path): -\np127 2 (no path): -\np128 0 (no path): -\np254 1 (no path): -\n",
    ),
    (
        Large::BrokenChain,
        Analysis::Live,
        &[1, 2, 256, 257, 258, 259, 260, 261, 513, 514],
        "main 1 (no path): -\nmain 2: x\np126 0 (no path): -\np126 1: x\np127 0 (no path): -\n\
        p127 1: -\np127 2: x\np128 0: -\np254 0: -\np254 1: x\n",
    ),
    (
        Large::Circle,
        Analysis::Reach,
        &[0, 2, 42, 44],
        "main 0: x@entry\n\
        p0 0: x@entry, x@1488, x@1494, x@1500, x@1506, x@1512, x@1518, x@1524, x@1530\n\
        p10 0: x@18, x@24, x@30, x@36, x@42, x@48, x@54, x@60\np10 2: x@66\n",
    ),
    (
        Large::Loop,
        Analysis::Reach,
        &[0, 1, 2, 4_001, 4_002, 4_003],
        "main 0: c@entry, x@entry, x@4002\nmain 1: c@entry, x@entry, x@4002\nmain 2: c@entry, x@3\n\
        main 4001: c@entry, x@4002\nmain 4002: c@entry, x@entry, x@4002\nmain 4003: c@entry, x@entry, x@4002\n",
    ),
    (
        Large::Loop,
        Analysis::Live,
        &[0, 1, 2, 4_000, 4_001, 4_002, 4_003],
        "main 0: c, x\nmain 1: c\nmain 2: c\nmain 4000: c\nmain 4001: c, x\nmain 4002: x\nmain 4003: -\n",
    ),
    (
        Large::Long,
        Analysis::Live,
        &[
            298, 299, 300, 16_400, 16_401, 16_402, 16_403, 16_404, 16_405,
        ],
        "main 298: v298, v299\nmain 299: v299\nmain 300: -\nmain 16400: -\nmain 16401: -\nmain 16402: v299\nmain 16403: -\n\
        f 0: -\nf 1: v299\n",
    ),
];

/// A large program has these lines at these points, in slices of two widths.
fn check_lines<R: Abort + AllocGlobal>(
    rt: &R,
    text: &str,
    analysis: Analysis,
    points: &'static [u32],
    want: &str,
) -> Result<(), Fail> {
    for width in &[65, 4_096] {
        let question = Question::TableAt(analysis, *width, points);
        check(rt, text, question, *width, want)?;
    }
    Ok(())
}

#[test]
fn chosen_lines(rt: HostRuntime) -> Result<(), Fail> {
    for (large, analysis, points, want) in CHOSEN_LINES {
        let text = program(rt.alloc(), *large)?;
        check_lines(&rt, text.as_str(), *analysis, points, want)?;
    }
    Ok(())
}

/// Writes a line that lists the definitions of all 255 procedures of the circle behind its beginning.
fn write_all_of_the_circle(text: &mut String, beginning: &str) -> Result<(), OutOfMemory> {
    write!(text, "{beginning}x@6")?;
    for number in 1..255_u32 {
        write!(text, ", x@{}", 6 + 6 * number)?;
    }
    text.push('\n')
}

/// The circle has such a line at this point.
fn check_circle<R: Abort + AllocGlobal>(
    rt: &R,
    circle: &str,
    point: &'static [u32],
    beginning: &str,
) -> Result<(), Fail> {
    let mut want = String::new(rt.alloc());
    write_all_of_the_circle(&mut want, beginning)?;
    let question = Question::TableAt(Analysis::Reach, 4_096, point);
    check(rt, circle, question, 4_096, want.as_str())
}

#[test]
fn all_meet_behind_the_circle(rt: HostRuntime) -> Result<(), Fail> {
    let circle = program(rt.alloc(), Large::Circle)?;
    check_circle(&rt, circle.as_str(), &[1], "main 1: x@entry, ")?;
    check_circle(&rt, circle.as_str(), &[45], "p10 3: ")
}

#[test]
fn eight_words_at_once(rt: HostRuntime) -> Result<(), Fail> {
    assert_eq!(rt; words_at_once(16_384, 64), 4);
    assert_eq!(rt; words_at_once(16_384, 65), 8);
    assert_eq!(rt; words_at_once(16_385, 4), 4);
    assert_eq!(rt; words_at_once(16_385, 5), 8);
    assert_eq!(rt; words_at_once(0, 0), 4);
    Ok(())
}
