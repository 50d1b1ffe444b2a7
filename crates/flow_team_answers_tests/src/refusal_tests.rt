// What is left where memory is refused on the way to an answer, as `test_support` has it.

use crate::query_tests::{Way, check_way};
use std::process::Abort;
use std::test::Fail;
use std::thread::Threads;
use team_probes::Recorder;

// The answers by so many workers.
fn check_team<R: Threads + Sync + Abort + AllocGlobal>(rt: &R, workers: u32) -> Result<(), Fail> {
    let gate = Recorder::new();
    let way = Way::Team {
        cut: 64,
        workers,
        gate: &gate,
    };
    check_way(rt, way)
}

#[test]
fn answers_by_one_are_refused(rt: HostRuntime) -> Result<(), Fail> {
    check_team(&rt, 1)
}

#[test]
fn answers_by_two_are_refused(rt: HostRuntime) -> Result<(), Fail> {
    check_team(&rt, 2)
}

// The answers by so many workers, or which slice they left.
fn check_left<R: Threads + Sync + Abort + AllocGlobal>(rt: &R, workers: u32) -> Result<(), Fail> {
    let gate = Recorder::new();
    let way = Way::TeamOrLeft {
        workers,
        gate: &gate,
    };
    check_way(rt, way)
}

#[test]
fn one_leaves_a_slice(rt: HostRuntime) -> Result<(), Fail> {
    check_left(&rt, 1)
}

#[test]
fn two_leave_a_slice(rt: HostRuntime) -> Result<(), Fail> {
    check_left(&rt, 2)
}

#[test]
fn answers_here_are_refused(rt: HostRuntime) -> Result<(), Fail> {
    check_way(&rt, Way::Here)
}

#[test]
fn answers_of_tables_are_refused(rt: HostRuntime) -> Result<(), Fail> {
    check_way(&rt, Way::OfTables)
}
