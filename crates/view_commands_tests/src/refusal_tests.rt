// Runs of `tacview` where memory is refused, as `test_support` has it.

use crate::change_tests::{LINES_OF_ONE, ONE, WHOLE};
use crate::part_tests::{FOUR_POINTS, JSON_PARTS, PARTS, options_of};
use crate::source_tests::{SETS, SOURCE, joined, sourced};
use crate::step_tests::{LOOP, LOOP_LINES, STEPS_OF_LOOP};
use crate::tacview_tests::{
    F_GRAPH, GRAPH, GRAPH_OF_F, LINES, Queried, REPORT, SMALL_GRAPH, SMALL_LINES, options,
    run_to_page,
};
use flow_runs::Fault;
use std::process::Abort;
use std::test::Fail;
use std::thread::Threads;
use test_support::all_or_nothing;
use test_support::failing_streams::blank_page;
use test_support::worked_programs::{ALONE, call_between, recursion, remarks, small};
use view_words::{Format, Options};

// One worker, and three with slices of a bit: each request more is one more run of all these tests.
const FEW_TEAMS: &[(u32, u32)] = &[ALONE, (3, 1)];

// The answer to a text.
fn check_view<R: Threads + Sync + Abort + AllocGlobal>(
    rt: &R,
    text: &[u8],
    options: &Options,
    answer: &[u8],
) -> Result<(), Fail> {
    let mut page = blank_page(rt.alloc());
    page.taken = Vec::with_capacity(rt.alloc(), 2048)?;
    let outcome = run_to_page(rt, text, &mut page, options);
    all_or_nothing!(
        rt,
        "run of tacview",
        outcome,
        Fault::OutOfMemory,
        page.taken.as_slice(),
        answer
    )
}

const VIEWS: &[(&str, Queried<'static>, &str)] = &[
    (small::TEXT, GRAPH, SMALL_GRAPH),
    (small::TEXT, LINES, SMALL_LINES),
    (ONE, WHOLE, LINES_OF_ONE),
    (recursion::TEXT, GRAPH_OF_F, F_GRAPH),
    (LOOP, STEPS_OF_LOOP, LOOP_LINES),
    (call_between::TEXT, REPORT, call_between::REPORT),
];

#[test]
fn run_is_refused(rt: HostRuntime) -> Result<(), Fail> {
    for (text, queried, answer) in VIEWS {
        for team in FEW_TEAMS {
            if let Some(options) = options(rt.alloc(), *queried, *team) {
                check_view(&rt, text.as_bytes(), &options, answer.as_bytes())?;
            }
        }
    }
    Ok(())
}

#[test]
fn part_is_refused(rt: HostRuntime) -> Result<(), Fail> {
    for (part, count, answer) in PARTS {
        for team in FEW_TEAMS {
            if let Some(options) = options_of(rt.alloc(), Format::Report, *part, *count, *team) {
                check_view(&rt, remarks::TEXT.as_bytes(), &options, answer.as_bytes())?;
            }
        }
    }
    Ok(())
}

#[test]
fn part_of_json_is_refused(rt: HostRuntime) -> Result<(), Fail> {
    for (part, count, answer) in JSON_PARTS {
        for team in FEW_TEAMS {
            if let Some(options) = options_of(rt.alloc(), Format::Json, *part, *count, *team) {
                check_view(&rt, FOUR_POINTS.as_bytes(), &options, answer.as_bytes())?;
            }
        }
    }
    Ok(())
}

#[test]
fn source_is_refused(rt: HostRuntime) -> Result<(), Fail> {
    let Some(wanted) = joined(rt.alloc(), SETS) else {
        return Ok(());
    };
    if let Some(options) = sourced(Format::Json, true, ALONE) {
        check_view(&rt, SOURCE, &options, wanted.as_slice())?;
    }
    Ok(())
}
