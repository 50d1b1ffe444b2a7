// That all workers find at the same time what a report asks.

ghost use Rattle.slice_board.specs.Ranges.{AreInRange};

use flow_graph::Graph;
use flow_reports::ReportText;
use flow_team::Team;
use report_answers::ReportAnswers;
use std::alloc::Global;
use std::process::Abort;
use std::test::Fail;
use std::thread::Threads;
use tac_reader::read;
use team_probes::Meeting;
use test_support::worked_programs::both_branches;
use text_pieces::whole_text;

// The report of a graph, by so many workers who have to meet.
fn report_by<R: Threads + Sync>(
    rt: &R,
    alloc: Global,
    graph: &Graph<'_>,
    workers: u32,
    gate: &Meeting,
) -> Result<Vec<u8>, Fail>
    requires { AreInRange workers 64 }
{
    let team = Team {
        rt,
        gate,
        workers,
        cut: 64,
    };
    let answers = ReportAnswers::of(&team, alloc, graph)?;
    let text = ReportText::of(alloc, graph, &answers)?;
    Ok(whole_text(alloc, &text)?)
}

// The report of a program that asks something of each analysis, which are four slices: so many workers meet over them, and their numbers
// are these bits.
fn check_report<R: Threads + Sync + Abort + AllocGlobal>(
    rt: &R,
    workers: u32,
    numbers: u64,
) -> Result<(), Fail>
    requires { AreInRange workers 64 }
{
    let gate = Meeting::new(workers);
    let program = read(rt.alloc(), both_branches::TEXT.as_bytes())?;
    let graph = Graph::build(rt.alloc(), &program)?;
    let report = report_by(rt, rt.alloc(), &graph, workers, &gate)?;
    assert_eq!(rt; report.as_slice(), both_branches::REPORT.as_bytes());
    assert_eq!(rt;
        (gate.met(), gate.met_by()),
        (1, numbers),
        "{workers} workers"
    );
    Ok(())
}

#[test]
fn workers_meet_over_a_report(rt: HostRuntime) -> Result<(), Fail> {
    check_report(&rt, 2, 3)?;
    check_report(&rt, 3, 7)?;
    check_report(&rt, 4, 15)
}
