// Tables by teams of workers: the same for all numbers of workers and all cuts.

use crate::questions::{Question, check};
use flow_graph::{Analysis, Graph};
use flow_team::OpenGate;
use std::alloc::Global;
use std::process::Abort;
use std::test::Fail;
use std::thread::Threads;
use team_probes::{
    BITS_OF_TWO_GROUPS, Cutting, RECURSIVE_REACH, WORKERS, lines, printed, summed, sums, table_by,
    words,
};
use test_support::worked_programs::series::prints;
use test_support::worked_programs::{
    adds_to_itself, both_branches, called_twice, callee_loops, calls_main, no_bits, no_end,
    not_called, reads_behind_calls, recursion, smallest,
};

const WIDTHS: &[u32] = &[1, 2, 64];

/// Three expressions on branches: `b + c` (bit 0) and `c - d` (2) on both, `d * 2` (1) on one and behind them.
const THREE_ON_BRANCHES: &str =
    "proc main\nread b\nread c\nread d\nif b goto L\nx = b + c\ny = d * 2\nz = c - d\ngoto M\n\
    L: z = c - d\nx = b + c\nM: print z\nb = x\ny = d * 2\nx = b + c\nprint y\nend\n";

/// The second branch does not evaluate `d * 2`, and what sets `b` at the point 11 takes `b + c` away.
const THREE_ON_BRANCHES_AVAIL: &str =
    "0:\n1:\n2:\n3:\n4:\n5: 0\n6: 0 1\n7: 0 1 2\n8:\n9: 2\n10: 0 2\n11: 0 2\n12: 2\n13: 1 2\n14: 0 1 2\n15: 0 1 2\n";

const THREE_ON_BRANCHES_BUSY: &str =
    "0:\n1:\n2: 0\n3: 0 1 2\n4: 0 1 2\n5: 1 2\n6: 1 2\n7: 1\n8: 0 1 2\n9: 0 1\n10: 1\n11: 1\n12: 0 1\n13: 0\n14:\n15:\n";

/// Three expressions across a call: `a + 1` (bit 0) around it, `a * 2` (1) on both branches of the callee, `a - 3` (2) on one.
const THREE_ACROSS_A_CALL: &str =
    "proc main\nread a\nx = a + 1\ncall p\ny = a + 1\nz = a * 2\nend\nproc p\nif a goto L\nz = a * 2\nreturn\nL: z = a * 2\ny = a - 3\nend\n";

const THREE_ACROSS_A_CALL_AVAIL: &str =
    "0:\n1:\n2: 0\n3: 0 1\n4: 0 1\n5: 0 1\n6: 0\n7: 0\n8: 0 1\n9: 0\n10: 0 1\n11: 0 1\n";

const THREE_ACROSS_A_CALL_BUSY: &str =
    "0:\n1: 0 1\n2: 0 1\n3: 0 1\n4: 1\n5:\n6: 0 1\n7: 0 1\n8: 0 1\n9: 0 1 2\n10: 0 1 2\n11: 0 1\n";

/// Programs, and their tables.
const TABLES: &[(&str, Analysis, &str)] = &[
    (smallest::TEXT, Analysis::Reach, "0:\n"),
    (no_bits::TEXT, Analysis::Avail, "0:\n1:\n"),
    (
        called_twice::TEXT,
        Analysis::Reach,
        "0: 0\n1: 1\n2: 1\n3: 1\n4: 2\n5: 2\n6: 2\n7: 1 2\n8: 1 2\n",
    ),
    (recursion::TEXT, Analysis::Reach, RECURSIVE_REACH),
    (adds_to_itself::TEXT, Analysis::Reach, "0: 0 1\n1: 1 2\n"),
    (adds_to_itself::TEXT, Analysis::Live, "0: 0 1\n1:\n"),
    (adds_to_itself::TEXT, Analysis::Avail, "0:\n1:\n"),
    (adds_to_itself::TEXT, Analysis::Busy, "0: 0\n1:\n"),
    (
        callee_loops::TEXT,
        Analysis::Reach,
        "0: 0 1 2\n1 (no path):\n2 (no path):\n3: 0 1 2\n4 (no path):\n",
    ),
    (
        callee_loops::TEXT,
        Analysis::Live,
        "0 (no path):\n1: 1 2\n2:\n3 (no path):\n4: 1 2\n",
    ),
    (
        callee_loops::TEXT,
        Analysis::Avail,
        "0:\n1 (no path): 0\n2 (no path): 0\n3:\n4 (no path): 0\n",
    ),
    (
        callee_loops::TEXT,
        Analysis::Busy,
        "0 (no path): 0\n1: 0\n2:\n3 (no path): 0\n4: 0\n",
    ),
    (
        no_end::TEXT,
        Analysis::Live,
        "0: 1\n1: 1\n2:\n3 (no path):\n4 (no path):\n5:\n",
    ),
    (
        calls_main::TEXT,
        Analysis::Reach,
        "0: 0 1\n1: 0 1\n2: 1\n3: 0 1\n4: 0 1\n",
    ),
    (
        both_branches::TEXT,
        Analysis::Busy,
        "0:\n1:\n2: 0\n3: 0\n4:\n5:\n6: 0\n7:\n8:\n",
    ),
    (
        not_called::TEXT,
        Analysis::Live,
        "0:\n1:\n2 (no path):\n3 (no path):\n",
    ),
    (
        reads_behind_calls::TEXT,
        Analysis::Live,
        "0: 0 1\n1: 0 1\n2: 1\n3: 1\n4:\n5: 0 1\n6: 0 1\n",
    ),
    (THREE_ON_BRANCHES, Analysis::Avail, THREE_ON_BRANCHES_AVAIL),
    (THREE_ON_BRANCHES, Analysis::Busy, THREE_ON_BRANCHES_BUSY),
    (
        THREE_ACROSS_A_CALL,
        Analysis::Avail,
        THREE_ACROSS_A_CALL_AVAIL,
    ),
    (
        THREE_ACROSS_A_CALL,
        Analysis::Busy,
        THREE_ACROSS_A_CALL_BUSY,
    ),
];

// Its lines.
#[derive(Clone, Copy)]
struct Lines {
    how: (Analysis, Cutting, u32),
}

impl Question for Lines {
    fn answer<R: Threads + Sync + Abort>(
        &self,
        rt: &R,
        alloc: Global,
        graph: &Graph<'_>,
    ) -> Result<String, Fail> {
        let table = table_by(rt, alloc, graph, self.how, &OpenGate)?;
        Ok(lines(alloc, graph, &table)?)
    }
}

#[test]
fn tables(rt: HostRuntime) -> Result<(), Fail> {
    for (text, analysis, want) in TABLES {
        for width in WIDTHS {
            for workers in WORKERS {
                let how = (*analysis, Cutting::Even(*width), *workers);
                check(&rt, text, &Lines { how }, want, (*width, *workers))?;
            }
        }
    }
    Ok(())
}

const CUTTINGS: &[Cutting] = &[
    Cutting::Even(1),
    Cutting::Even(2),
    Cutting::Even(7),
    Cutting::Even(63),
    Cutting::Even(64),
    Cutting::Even(65),
    Cutting::Even(70),
    Cutting::At(&[1, 64]),
];

// The lines of a text, however its bits are cut.
fn check_cuttings<R: Threads + Sync + Abort + AllocGlobal>(
    rt: &R,
    text: &str,
    analysis: Analysis,
    want: &str,
) -> Result<(), Fail> {
    let mut case = 0u32;
    for cutting in CUTTINGS {
        for workers in WORKERS {
            let how = (analysis, *cutting, *workers);
            check(rt, text, &Lines { how }, want, (case, *workers))?;
        }
        case = case.wrapping_add(1);
    }
    Ok(())
}

#[test]
fn more_bits_than_a_word(rt: HostRuntime) -> Result<(), Fail> {
    let text = prints(rt.alloc(), 70)?;
    let want = printed(rt.alloc(), 70)?;
    check_cuttings(&rt, text.as_str(), Analysis::Live, want.as_str())
}

#[test]
fn complements_of_more_bits_than_a_word(rt: HostRuntime) -> Result<(), Fail> {
    let text = sums(rt.alloc(), 70)?;
    let avail = summed(rt.alloc(), 70)?;
    check_cuttings(&rt, text.as_str(), Analysis::Avail, avail.as_str())?;
    let busy = printed(rt.alloc(), 70)?;
    check_cuttings(&rt, text.as_str(), Analysis::Busy, busy.as_str())
}

#[test]
fn more_words_than_a_group(rt: HostRuntime) -> Result<(), Fail> {
    let text = prints(rt.alloc(), BITS_OF_TWO_GROUPS)?;
    let want = printed(rt.alloc(), BITS_OF_TWO_GROUPS)?;
    let how = (Analysis::Live, Cutting::Even(64), 1);
    check(&rt, text.as_str(), &Lines { how }, want.as_str(), (64, 1))
}

#[test]
fn complements_of_more_words_than_a_group(rt: HostRuntime) -> Result<(), Fail> {
    let text = sums(rt.alloc(), BITS_OF_TWO_GROUPS)?;
    let want = summed(rt.alloc(), BITS_OF_TWO_GROUPS)?;
    let how = (Analysis::Avail, Cutting::Even(64), 1);
    check(&rt, text.as_str(), &Lines { how }, want.as_str(), (64, 1))
}

// The words of a point's set, and one more.
#[derive(Clone, Copy)]
struct WordsOf {
    workers: u32,
    point: u32,
}

impl Question for WordsOf {
    fn answer<R: Threads + Sync + Abort>(
        &self,
        rt: &R,
        alloc: Global,
        graph: &Graph<'_>,
    ) -> Result<String, Fail> {
        let how = (Analysis::Live, Cutting::Even(64), self.workers);
        let table = table_by(rt, alloc, graph, how, &OpenGate)?;
        Ok(words(alloc, graph, &table, self.point, 7)?)
    }
}

// Points, and the words of their sets.
const WORDS: &[(u32, &str)] = &[
    (
        0,
        " 18446744073709551615 18446744073709551615 18446744073709551615 18446744073709551615 18446744073709551615 1023 0",
    ),
    (325, " 0 0 0 0 0 992 0"),
];

fn check_words<R: Threads + Sync + Abort + AllocGlobal>(
    rt: &R,
    text: &str,
    workers: u32,
) -> Result<(), Fail> {
    for (point, want) in WORDS {
        let point = *point;
        check(
            rt,
            text,
            &WordsOf { workers, point },
            want,
            (point, workers),
        )?;
    }
    Ok(())
}

#[test]
fn words_of_a_set(rt: HostRuntime) -> Result<(), Fail> {
    let text = prints(rt.alloc(), BITS_OF_TWO_GROUPS)?;
    check_words(&rt, text.as_str(), 1)?;
    check_words(&rt, text.as_str(), 3)
}
