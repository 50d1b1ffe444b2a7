use crate::tables::{Parity, Question, check};
use flow_graph::Analysis;
use std::process::Abort;
use std::test::Fail;
use test_support::worked_programs::series::{live_of_prints, prints};
use test_support::worked_programs::{
    adds_to_itself, both_branches, call_each_other, called_twice, callee_loops, calls_main, counts,
    no_bits, no_end, not_called, prints_behind_itself, reads_behind_calls, recursion, set_twice,
    smallest, two_callees,
};

/// Widths of slices: within a word, to its end, across it, several words, and all bits at once.
const WIDTHS: &[u32] = &[1, 7, 63, 64, 65, 300, 4_096];

/// An operator with one operand.
const NEGATES: &str = "proc main\nx = -y\nend\n";

/// Programs, and their tables.
const TABLES: &[(&str, Analysis, &str)] = &[
    (smallest::TEXT, Analysis::Reach, smallest::TABLE),
    (no_bits::TEXT, Analysis::Avail, no_bits::TABLE),
    (called_twice::TEXT, Analysis::Reach, called_twice::REACH),
    (recursion::TEXT, Analysis::Reach, recursion::REACH),
    (adds_to_itself::TEXT, Analysis::Reach, adds_to_itself::REACH),
    (adds_to_itself::TEXT, Analysis::Live, adds_to_itself::LIVE),
    (adds_to_itself::TEXT, Analysis::Avail, adds_to_itself::AVAIL),
    (adds_to_itself::TEXT, Analysis::Busy, adds_to_itself::BUSY),
    (NEGATES, Analysis::Avail, "main 0: -\nmain 1: -y\n"),
    (callee_loops::TEXT, Analysis::Reach, callee_loops::REACH),
    (callee_loops::TEXT, Analysis::Avail, callee_loops::AVAIL),
    (callee_loops::TEXT, Analysis::Busy, callee_loops::BUSY),
    (no_end::TEXT, Analysis::Live, no_end::LIVE),
    (calls_main::TEXT, Analysis::Reach, calls_main::REACH),
    (both_branches::TEXT, Analysis::Busy, both_branches::BUSY),
    (not_called::TEXT, Analysis::Live, not_called::LIVE),
    (
        reads_behind_calls::TEXT,
        Analysis::Live,
        reads_behind_calls::LIVE,
    ),
    (set_twice::TEXT, Analysis::Reach, set_twice::REACH),
    (not_called::TEXT, Analysis::Reach, not_called::REACH),
    (counts::TEXT, Analysis::Reach, counts::REACH),
    (
        call_each_other::TEXT,
        Analysis::Reach,
        call_each_other::REACH,
    ),
    (call_each_other::TEXT, Analysis::Live, call_each_other::LIVE),
    (
        prints_behind_itself::TEXT,
        Analysis::Reach,
        prints_behind_itself::REACH,
    ),
    (two_callees::TEXT, Analysis::Reach, two_callees::REACH),
    (two_callees::TEXT, Analysis::Live, two_callees::LIVE),
];

/// A text's program has this table, in slices of each width.
fn check_table<R: Abort + AllocGlobal>(
    rt: &R,
    text: &str,
    analysis: Analysis,
    want: &str,
) -> Result<(), Fail> {
    for width in WIDTHS {
        check(rt, text, Question::Table(analysis, *width), *width, want)?;
    }
    Ok(())
}

/// Programs, and the tables of every other bit: of those above the bits of one parity alone.
const CHOSEN: &[(&str, Analysis, Parity, &str)] = &[
    (
        recursion::TEXT,
        Analysis::Reach,
        Parity::Even,
        "main 0: x@entry\nmain 1: -\nmain 2: x@9\nmain 3: x@9\nf 0: -\nf 1: -\nf 2: x@9\nf 3: x@9\n",
    ),
    (
        recursion::TEXT,
        Analysis::Reach,
        Parity::Odd,
        "main 0: -\nmain 1: x@2\nmain 2: x@2\nmain 3: x@2\nf 0: x@2\nf 1: x@2\nf 2: x@2\nf 3: x@2\n",
    ),
    (
        callee_loops::TEXT,
        Analysis::Reach,
        Parity::Odd,
        "main 0: b@entry\nmain 1 (no path): -\nmain 2 (no path): -\nf 0: b@entry\nf 1 (no path): -\n",
    ),
    (
        callee_loops::TEXT,
        Analysis::Avail,
        Parity::Even,
        callee_loops::AVAIL,
    ),
    (
        callee_loops::TEXT,
        Analysis::Busy,
        Parity::Odd,
        "main 0 (no path): -\nmain 1: -\nmain 2: -\nf 0 (no path): -\nf 1: -\n",
    ),
];

#[test]
fn tables_of_chosen_bits(rt: HostRuntime) -> Result<(), Fail> {
    for (text, analysis, parity, want) in CHOSEN {
        for width in WIDTHS {
            check(
                &rt,
                text,
                Question::EveryOther(*analysis, *width, *parity),
                *width,
                want,
            )?;
        }
    }
    Ok(())
}

#[test]
fn tables(rt: HostRuntime) -> Result<(), Fail> {
    for (text, analysis, want) in TABLES {
        check_table(&rt, text, *analysis, want)?;
    }
    Ok(())
}

#[test]
fn more_bits_than_a_word(rt: HostRuntime) -> Result<(), Fail> {
    let text = prints(rt.alloc(), 70)?;
    let want = live_of_prints(rt.alloc(), 70)?;
    check_table(&rt, text.as_str(), Analysis::Live, want.as_str())
}
