// That all workers of a team run at the same time.

use crate::questions::{Question, check};
use flow_graph::{Analysis, Graph};
use std::alloc::Global;
use std::process::Abort;
use std::test::Fail;
use std::thread::Threads;
use team_probes::{Cutting, Meeting, RECURSIVE_REACH, lines, printed, table_by};
use test_support::worked_programs::recursion;
use test_support::worked_programs::series::prints;

// The lines of a table by workers who all have to meet.
#[derive(Clone, Copy)]
struct AllAtOnce<'a> {
    how: (Analysis, Cutting, u32),
    gate: &'a Meeting,
}

impl<'a> Question for AllAtOnce<'a> {
    fn answer<R: Threads + Sync + Abort>(
        &self,
        rt: &R,
        alloc: Global,
        graph: &Graph<'_>,
    ) -> Result<String, Fail> {
        let table = table_by(rt, alloc, graph, self.how, self.gate)?;
        Ok(lines(alloc, graph, &table)?)
    }
}

// All workers met, and their numbers are these bits.
fn check_meeting<R: Threads + Sync + Abort + AllocGlobal>(
    rt: &R,
    text: &str,
    want: &str,
    how: (Analysis, Cutting, u32),
    numbers: u64,
) -> Result<(), Fail> {
    let (_, _, workers) = how;
    let gate = Meeting::new(workers);
    let question = AllAtOnce { how, gate: &gate };
    check(rt, text, &question, want, (0, workers))?;
    assert_eq!(rt;
        (gate.met(), gate.met_by()),
        (1, numbers),
        "{workers} workers"
    );
    Ok(())
}

#[test]
fn two_workers_run_at_once(rt: HostRuntime) -> Result<(), Fail> {
    let how = (Analysis::Reach, Cutting::At(&[1]), 2);
    check_meeting(&rt, recursion::TEXT, RECURSIVE_REACH, how, 3)
}

#[test]
fn all_workers_run_at_once(rt: HostRuntime) -> Result<(), Fail> {
    let text = prints(rt.alloc(), 70)?;
    let want = printed(rt.alloc(), 70)?;
    let how = (Analysis::Live, Cutting::Even(1), 64);
    check_meeting(&rt, text.as_str(), want.as_str(), how, u64::MAX)
}
