// Pictures in which a path is marked, by hand: each is the plain picture with marks before its end.

use crate::tacview_tests::{GRAPH, Queried, check, options, run_to_page};
use std::alloc::Global;
use std::process::Abort;
use std::test::Fail;
use std::thread::Threads;
use test_support::failing_streams::blank_page;
use test_support::worked_programs::TEAMS;

// A procedure that calls itself: it is passed as a whole, and it is entered.
const CALLS_ITSELF: &str =
    "proc main\ncall f\nprint x\nend\nproc f\nif y goto L\ncall f\nL:\nend\n";

// Of two variables each branch sets one.
const BRANCHES: &str =
    "proc main\nif c goto L\nx = 1\ngoto M\nL:\ny = 1\nM:\nz = x + y\nprint z\nend\n";

// Texts, the procedure that is shown, the place that is asked for, and the marks.
const MARKS: &[(&str, Option<&str>, &str, &str)] = &[
    (
        CALLS_ITSELF,
        None,
        "3",
        "  0 [color=blue, penwidth=3];\n  0 -> 1 [color=blue, penwidth=3, style=dashed, arrowhead=normal];\n  1 [color=blue, penwidth=3];\n",
    ),
    (
        CALLS_ITSELF,
        None,
        "6:y",
        "  0 [color=blue, penwidth=3];\n  0 -> 3 [color=blue, penwidth=3];\n  3 [color=blue, penwidth=3];\n",
    ),
    // The call of `f` is not shown.
    (
        CALLS_ITSELF,
        Some("f"),
        "6",
        "  3 [color=blue, penwidth=3];\n",
    ),
    // At the entry of `main` a path has no hop.
    (BRANCHES, None, "2:c", "  0 [color=blue, penwidth=3];\n"),
    // The first variable of a line, and another one.
    (
        BRANCHES,
        None,
        "8",
        "  0 [color=blue, penwidth=3];\n  0 -> 3 [color=blue, penwidth=3];\n  \
        3 [color=blue, penwidth=3];\n  3 -> 4 [color=blue, penwidth=3];\n  4 [color=blue, penwidth=3];\n",
    ),
    (
        BRANCHES,
        Some("main"),
        "8:y",
        "  0 [color=blue, penwidth=3];\n  0 -> 1 [color=blue, penwidth=3];\n  1 [color=blue, penwidth=3];\n  \
        1 -> 2 [color=blue, penwidth=3];\n  2 [color=blue, penwidth=3];\n  2 -> 4 [color=blue, penwidth=3];\n  \
        4 [color=blue, penwidth=3];\n",
    ),
];

// What is written, by a team.
fn written<R: Threads + Sync + Abort + AllocGlobal>(
    rt: &R,
    text: &str,
    queried: Queried<'_>,
    team: (u32, u32),
) -> Result<Vec<u8>, Fail> {
    let options = options(rt.alloc(), queried, team).ok_or("options")?;
    let mut page = blank_page(rt.alloc());
    run_to_page(rt, text.as_bytes(), &mut page, &options)?;
    Ok(page.taken)
}

// A plain picture with marks before the line that ends it.
fn marked(alloc: Global, plain: &[u8], marks: &str) -> Result<Vec<u8>, Fail> {
    let open = plain.strip_suffix(b"}\n").ok_or("an end")?;
    let mut picture = b"strict ".to_vec(alloc)?;
    picture.extend_from_slice(open)?;
    picture.extend_from_slice(marks.as_bytes())?;
    picture.extend_from_slice(b"}\n")?;
    Ok(picture)
}

// What is asked of a text: its picture, of one procedure or of all, with the path of a place or without.
fn picture<'a>(procedure: Option<&'a str>, because: Option<&'a str>) -> Queried<'a> {
    Queried {
        limits: GRAPH.limits,
        format: GRAPH.format,
        facts: GRAPH.facts,
        procedure,
        because,
    }
}

#[test]
fn paths_in_pictures(rt: HostRuntime) -> Result<(), Fail> {
    for (text, procedure, place, marks) in MARKS {
        for team in TEAMS {
            let plain = written(&rt, text, picture(*procedure, None), *team)?;
            let got = written(&rt, text, picture(*procedure, Some(place)), *team)?;
            let wanted = marked(rt.alloc(), plain.as_slice(), marks)?;
            assert_eq!(rt; got.as_slice(), wanted.as_slice());
        }
    }
    Ok(())
}

// Places at which nothing is told of what is shown, and the line that says so.
const NO_REMARKS: &[(Option<&str>, &str, &str)] = &[
    (
        None,
        "8:z",
        "tacview: no variable may be used before it is set at 8:z\n",
    ),
    (
        None,
        "3",
        "tacview: no variable may be used before it is set at 3\n",
    ),
    (
        None,
        "08",
        "tacview: no variable may be used before it is set at 08\n",
    ),
    (
        None,
        "8:",
        "tacview: no variable may be used before it is set at 8:\n",
    ),
    (
        Some("main"),
        "",
        "tacview: no variable may be used before it is set at \n",
    ),
];

#[test]
fn remarks_that_are_not_there(rt: HostRuntime) -> Result<(), Fail> {
    for (procedure, place, line) in NO_REMARKS {
        check(&rt, BRANCHES, picture(*procedure, Some(place)), line)?;
    }
    let of_main = "tacview: no variable may be used before it is set at 3\n";
    check(&rt, CALLS_ITSELF, picture(Some("f"), Some("3")), of_main)
}
