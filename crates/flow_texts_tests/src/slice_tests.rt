// How many slices what a report asks is cut into.

ghost use Rattle.slice_board.specs.Ranges.{AreInRange};

use flow_graph::Graph;
use flow_team::Team;
use report_answers::ReportAnswers;
use std::alloc::{AllocError as OutOfMemory, Global};
use std::test::Fail;
use std::thread::Threads;
use tac_program::Limits;
use tac_reader::read_within;
use team_probes::{BITS_OF_TWO_GROUPS, Recorder, sums};

// How many slices of 64 bits or more so many workers claim for the report of a text.
fn claims<R: Threads + Sync>(rt: &R, alloc: Global, text: &str, workers: u32) -> Result<u32, Fail>
    requires { AreInRange workers 64 }
{
    let program = read_within(alloc, text.as_bytes(), Limits::Large)?;
    let graph = Graph::build_within(alloc, &program, Limits::Large)?;
    let gate = Recorder::new();
    let team = Team {
        rt,
        gate: &gate,
        workers,
        cut: 64,
    };
    let _answers = ReportAnswers::of(&team, alloc, &graph)?;
    let (_, _, claims, _) = gate.counts();
    Ok(claims)
}

// Procedures of which `g0` sets one of two variables, `h0` prints both, and `f0` calls the one for the other. `g1` and its like do
// so with others.
fn branches(alloc: Global, count: u32) -> Result<String, OutOfMemory> {
    let mut text = String::new(alloc);
    text.push_str("proc main\n")?;
    for n in 0..count {
        write!(text, "call h{n}\n")?;
    }
    text.push_str("end\n")?;
    for n in 0..count {
        write!(
            text,
            "proc h{n}\ncall f{n}\nprint x{n}\nprint y{n}\nend\nproc f{n}\ncall g{n}\nend\n"
        )?;
        write!(
            text,
            "proc g{n}\nif c goto A\nx{n} = 1\ngoto B\nA:\ny{n} = 1\nB:\nend\n"
        )?;
    }
    Ok(text)
}

// One way through `g0` shows of one of its variables that it may be unset where `h0` prints it. The other is left: of all together five words,
// two groups, where the variables are eleven. That both are live behind their assignments the tree of calls shows: `h0` prints them on the way.
#[test]
fn one_worker_takes_groups_together(rt: HostRuntime) -> Result<(), Fail> {
    let text = branches(rt.alloc(), 320)?;
    assert_eq!(rt; claims(&rt, rt.alloc(), text.as_str(), 1)?, 2);
    assert_eq!(rt; claims(&rt, rt.alloc(), text.as_str(), 2)?, 3);
    Ok(())
}

// Where the bounds settle all that is asked, each analysis has one slice: the values at the beginning, what is live behind the last of the
// assignments, and of the sums those that are computed.
#[test]
fn settled_questions_are_one_slice(rt: HostRuntime) -> Result<(), Fail> {
    let text = sums(rt.alloc(), BITS_OF_TWO_GROUPS)?;
    assert_eq!(rt; claims(&rt, rt.alloc(), text.as_str(), 1)?, 3);
    assert_eq!(rt; claims(&rt, rt.alloc(), text.as_str(), 2)?, 3);
    Ok(())
}
