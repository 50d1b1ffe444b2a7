// Values by hand: tables and reports of small programs, and programs at the limits.

use crate::tacflow_tests::{check, check_all, check_by, check_refused, output_of};
use flow_commands::Show;
use std::process::Abort;
use std::test::Fail;
use std::thread::Threads;
use test_support::failing_streams::blank_page;
use test_support::worked_programs::series::{live_of_prints, numbered, prints};
use test_support::worked_programs::{
    ALONE, adds_to_itself, both_branches, call_between, call_each_other, called_twice,
    callee_loops, calls_main, counts, no_bits, no_end, not_called, prints_behind_itself,
    reads_behind_calls, recursion, refused, set_twice, smallest, two_callees,
};

const REACH_TABLES: &[(&str, &str)] = &[
    (set_twice::TEXT, set_twice::REACH),
    (not_called::TEXT, not_called::REACH),
    (counts::TEXT, counts::REACH),
    (call_each_other::TEXT, call_each_other::REACH),
    (prints_behind_itself::TEXT, prints_behind_itself::REACH),
    (two_callees::TEXT, two_callees::REACH),
    (smallest::TEXT, smallest::TABLE),
    (called_twice::TEXT, called_twice::REACH),
    (recursion::TEXT, recursion::REACH),
    (adds_to_itself::TEXT, adds_to_itself::REACH),
    (callee_loops::TEXT, callee_loops::REACH),
    (calls_main::TEXT, calls_main::REACH),
];

#[test]
fn tables_of_reaching_definitions(rt: HostRuntime) -> Result<(), Fail> {
    check_all(&rt, Show::Reach, REACH_TABLES)
}

const LIVE_TABLES: &[(&str, &str)] = &[
    (call_each_other::TEXT, call_each_other::LIVE),
    (two_callees::TEXT, two_callees::LIVE),
    (
        "proc main\nx = 1\ncall p | q\nend\nproc p\nskip\nend\nproc q\nL: print x\ngoto L\nend\n",
        "main 0: -\nmain 1: -\nmain 2: -\np 0: -\np 1: -\nq 0 (no path): -\nq 1 (no path): -\nq 2: -\n",
    ),
    (adds_to_itself::TEXT, adds_to_itself::LIVE),
    (no_end::TEXT, no_end::LIVE),
    (not_called::TEXT, not_called::LIVE),
    (reads_behind_calls::TEXT, reads_behind_calls::LIVE),
];

#[test]
fn tables_of_live_variables(rt: HostRuntime) -> Result<(), Fail> {
    check_all(&rt, Show::Live, LIVE_TABLES)
}

const AVAIL_TABLES: &[(&str, &str)] = &[
    (no_bits::TEXT, no_bits::TABLE),
    (adds_to_itself::TEXT, adds_to_itself::AVAIL),
    (callee_loops::TEXT, callee_loops::AVAIL),
];

#[test]
fn tables_of_available_expressions(rt: HostRuntime) -> Result<(), Fail> {
    check_all(&rt, Show::Avail, AVAIL_TABLES)
}

// Where there are no bits there are no slices, and 64 workers find nothing to draw.
#[test]
fn table_without_bits_by_64_workers(rt: HostRuntime) -> Result<(), Fail> {
    check_by(
        &rt,
        no_bits::TEXT.as_bytes(),
        usize::MAX,
        Show::Avail,
        (64, 64),
        no_bits::TABLE.as_bytes(),
    )
}

const BUSY_TABLES: &[(&str, &str)] = &[
    (adds_to_itself::TEXT, adds_to_itself::BUSY),
    (callee_loops::TEXT, callee_loops::BUSY),
    (both_branches::TEXT, both_branches::BUSY),
];

#[test]
fn tables_of_very_busy_expressions(rt: HostRuntime) -> Result<(), Fail> {
    check_all(&rt, Show::Busy, BUSY_TABLES)
}

const REPORTS: &[(&str, &str)] = &[
    (
        prints_behind_itself::TEXT,
        "points 5, variables 1, definitions 2, expressions 0\n2: a may be used before it is set\n",
    ),
    (
        two_callees::TEXT,
        "points 8, variables 1, definitions 3, expressions 0\n",
    ),
    (
        "proc main\ncall p | q\na = b + c\nend\nproc p\nskip\nend\nproc q\nL: goto L\nend\n",
        "points 7, variables 3, definitions 4, expressions 1\n3: b may be used before it is set\n\
        3: c may be used before it is set\n3: assignment to a is dead\n",
    ),
    (
        "proc main\ncall p\nx = 2\nprint x\nend\nproc p\nx = 1\nend\n",
        "points 6, variables 1, definitions 3, expressions 0\n7: assignment to x is dead\n",
    ),
    (
        "proc main\ncall p\nL: goto L\nend\nproc p\nx = 1\nend\n",
        "points 5, variables 1, definitions 2, expressions 0\n",
    ),
    (
        "proc main\nx = 1\ncall p | q\nend\nproc p\nskip\nend\nproc q\nL: print x\ngoto L\nend\n",
        "points 8, variables 1, definitions 2, expressions 0\n",
    ),
    (
        smallest::TEXT,
        "points 1, variables 0, definitions 0, expressions 0\n",
    ),
    (
        called_twice::TEXT,
        "points 9, variables 1, definitions 3, expressions 0\n",
    ),
    (
        adds_to_itself::TEXT,
        "points 2, variables 2, definitions 3, expressions 1\n2: x may be used before it is set\n\
        2: y may be used before it is set\n2: assignment to x is dead\n",
    ),
    (
        callee_loops::TEXT,
        "points 5, variables 3, definitions 4, expressions 1\n3: never reached\n",
    ),
    (
        no_end::TEXT,
        "points 6, variables 2, definitions 3, expressions 0\n3: c may be used before it is set\n",
    ),
    (
        calls_main::TEXT,
        "points 5, variables 1, definitions 2, expressions 0\n2: a may be used before it is set\n5: a may be used before it is set\n",
    ),
    (call_between::TEXT, call_between::REPORT),
    (
        "proc main\na = b + c\ncall p\nd = b + c\nend\nproc p\nskip\nend\n",
        "points 6, variables 4, definitions 6, expressions 1\n2: b may be used before it is set\n\
        2: c may be used before it is set\n2: assignment to a is dead\n\
        4: b may be used before it is set\n4: c may be used before it is set\n4: b + c is already computed\n4: assignment to d is dead\n",
    ),
    (
        "proc main\nx = 9223372036854775807\nend\n",
        "points 2, variables 1, definitions 2, expressions 0\n2: assignment to x is dead\n",
    ),
    (both_branches::TEXT, both_branches::REPORT),
    (
        not_called::TEXT,
        "points 4, variables 1, definitions 3, expressions 0\n2: assignment to x is dead\n5: never reached\n",
    ),
];

#[test]
fn reports(rt: HostRuntime) -> Result<(), Fail> {
    check_all(&rt, Show::Report, REPORTS)
}

#[test]
fn texts_without_a_report(rt: HostRuntime) -> Result<(), Fail> {
    check_refused(&rt, Show::Report, refused::LINES)?;
    check_refused(&rt, Show::Report, refused::NAMES)
}

// Variables of more than one word: each is live up to the line that prints it.
#[test]
fn table_of_seventy_variables(rt: HostRuntime) -> Result<(), Fail> {
    let text = prints(rt.alloc(), 70)?;
    let answer = live_of_prints(rt.alloc(), 70)?;
    check(&rt, text.as_bytes(), Show::Live, answer.as_bytes())
}

// The first line of what a text is answered, with its line feed.
fn check_first_line<R: Threads + Sync + Abort + AllocGlobal>(
    rt: &R,
    text: &str,
    show: Show,
    line: &str,
) -> Result<(), Fail> {
    let mut page = blank_page(rt.alloc());
    let got = output_of(rt, text.as_bytes(), &mut page, show, ALONE)?;
    assert!(rt; got.as_slice().starts_with(line.as_bytes()));
    Ok(())
}

// How many lines a `main` has, what stands before the number of each and behind it, and the first line of its report.
const LIMITS: &[(u32, (&str, &str), &str)] = &[
    (
        16_383,
        ("# ", "\nskip\n"),
        "points 16384, variables 0, definitions 0, expressions 0\n",
    ),
    (
        16_384,
        ("# ", "\nskip\n"),
        "tacflow: refusal 21: TooManyPoints\n",
    ),
    (
        2_048,
        ("v", " = 1\n"),
        "points 2049, variables 2048, definitions 4096, expressions 0\n",
    ),
    (2_049, ("v", " = 1\n"), "tacflow: refusal 22: TooManyBits\n"),
];

#[test]
fn programs_at_the_limits(rt: HostRuntime) -> Result<(), Fail> {
    for (count, around, line) in LIMITS {
        let text = numbered(rt.alloc(), "proc main\n", 0..*count, *around, "end\n")?;
        check_first_line(&rt, &text, Show::Report, line)?;
        check_first_line(&rt, &text, Show::List, "proc main\n")?;
    }
    Ok(())
}
