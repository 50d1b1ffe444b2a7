use crate::walks::check_all;
use crate::witnesses::{Question, Row, check_rows};
use flow_graph::Analysis;
use flow_why::Effect;
use std::test::Fail;
use test_support::worked_programs::{
    both_branches, call_between, call_each_other, called_twice, callee_loops, calls_main, counts,
    no_end, not_called, prints_behind_itself, reads_behind_calls, recursion, set_twice,
    two_callees,
};

/// By hand: the points are numbered as in `worked_programs`, a definition's bit is its place among the entries and the lines, and the
/// hops of a backward analysis begin at the end of `main`.
const ROWS: &[Row] = &[
    // What the boundary has is there at the beginning, and not behind the assignment.
    (
        recursion::TEXT,
        Analysis::Reach,
        0,
        Question::Witness(0),
        "",
    ),
    (
        recursion::TEXT,
        Analysis::Reach,
        0,
        Question::Witness(1),
        "none",
    ),
    // A call left open, and one that is passed: the callee may jump to its end.
    (
        recursion::TEXT,
        Analysis::Reach,
        1,
        Question::Witness(4),
        "0-1;1>4 at 1;",
    ),
    (
        recursion::TEXT,
        Analysis::Reach,
        1,
        Question::Witness(2),
        "0-1;1=2 at 1 by 1 preserves;",
    ),
    (
        recursion::TEXT,
        Analysis::Reach,
        1,
        Question::Through(1, Effect::Preserves),
        "4-7;",
    ),
    // What the callee sets is behind its call, but not at its entry, where the next inner call comes first.
    (
        recursion::TEXT,
        Analysis::Reach,
        2,
        Question::Witness(3),
        "0-1;1=2 at 1 by 1 generates;2-3;",
    ),
    (
        recursion::TEXT,
        Analysis::Reach,
        2,
        Question::Witness(4),
        "none",
    ),
    (
        recursion::TEXT,
        Analysis::Reach,
        2,
        Question::Through(1, Effect::Generates),
        "4-5;5=6 at 5 by 1 reaches;6-7;",
    ),
    (
        recursion::TEXT,
        Analysis::Reach,
        2,
        Question::Through(1, Effect::Reaches),
        "4-7;",
    ),
    // A call of either of two.
    (
        two_callees::TEXT,
        Analysis::Reach,
        1,
        Question::Witness(2),
        "0-1;1=2 at 1 by 2 preserves;",
    ),
    (
        two_callees::TEXT,
        Analysis::Reach,
        2,
        Question::Witness(2),
        "0-1;1=2 at 1 by 1 generates;",
    ),
    (
        two_callees::TEXT,
        Analysis::Reach,
        1,
        Question::Witness(5),
        "none",
    ),
    (
        two_callees::TEXT,
        Analysis::Reach,
        1,
        Question::Witness(7),
        "0-1;1>6 at 1;6-7;",
    ),
    (
        two_callees::TEXT,
        Analysis::Reach,
        1,
        Question::Through(1, Effect::Preserves),
        "none",
    ),
    // Round a loop, and into the next activation.
    (
        counts::TEXT,
        Analysis::Reach,
        2,
        Question::Witness(1),
        "0-1;1-2;2-3;3-1;",
    ),
    (
        calls_main::TEXT,
        Analysis::Reach,
        1,
        Question::Witness(0),
        "0-1;1-2;2>0 at 2;",
    ),
    // Backwards: a return that is left open leads to the callee's end.
    (
        reads_behind_calls::TEXT,
        Analysis::Live,
        0,
        Question::Witness(5),
        "4-3;3=2 at 2 by 1 reaches;2-1;1>6 at 0;6-5;",
    ),
    (
        reads_behind_calls::TEXT,
        Analysis::Live,
        0,
        Question::Witness(2),
        "none",
    ),
    // Where an expression is not available, and where it is not very busy.
    (
        call_between::TEXT,
        Analysis::Avail,
        0,
        Question::Witness(0),
        "",
    ),
    (
        call_between::TEXT,
        Analysis::Avail,
        0,
        Question::Witness(1),
        "none",
    ),
    (
        call_between::TEXT,
        Analysis::Avail,
        0,
        Question::Witness(2),
        "0-1;1=2 at 1 by 1 generates;",
    ),
    (
        call_between::TEXT,
        Analysis::Avail,
        0,
        Question::Through(1, Effect::Generates),
        "4-5;5-6;",
    ),
    (
        both_branches::TEXT,
        Analysis::Busy,
        0,
        Question::Witness(0),
        "8-7;7-6;6-2;2-1;1-0;",
    ),
    (
        both_branches::TEXT,
        Analysis::Busy,
        0,
        Question::Witness(2),
        "none",
    ),
    // Without a path there is nothing to show.
    (
        callee_loops::TEXT,
        Analysis::Avail,
        0,
        Question::Witness(1),
        "none",
    ),
    (
        not_called::TEXT,
        Analysis::Reach,
        0,
        Question::Witness(2),
        "none",
    ),
    (
        not_called::TEXT,
        Analysis::Reach,
        9,
        Question::Witness(2),
        "no such bit",
    ),
];

/// Programs that are gone through whole.
const TEXTS: &[&str] = &[
    both_branches::TEXT,
    call_between::TEXT,
    call_each_other::TEXT,
    called_twice::TEXT,
    callee_loops::TEXT,
    calls_main::TEXT,
    counts::TEXT,
    no_end::TEXT,
    not_called::TEXT,
    prints_behind_itself::TEXT,
    reads_behind_calls::TEXT,
    recursion::TEXT,
    set_twice::TEXT,
    two_callees::TEXT,
];

#[test]
fn witnesses_by_hand(rt: HostRuntime) -> Result<(), Fail> {
    check_rows(&rt, ROWS)
}

#[test]
fn witnesses_are_walked(rt: HostRuntime) -> Result<(), Fail> {
    check_all(&rt, TEXTS)
}
