use crate::tables::{Question, answer, check};
use flow_graph::{Analysis, Graph, GraphFault, OutOfMemory};
use flow_rows::solve_counted;
use gen_kill::Problem;
use std::alloc::Global;
use std::process::Abort;
use std::test::Fail;
use tac_reader::{Program, ReadFault, read};

/// A program that is hard on a solver, of some 300 points.
#[derive(Clone, Copy)]
enum Hard {
    /// Blocks gone over to and fro, each a test that leaves and a jump to the next.
    Branches,
    /// Statements in reverse order, each followed by a jump to the one above.
    Reversed,
    /// Loops within one another.
    Nested,
    /// Two chains that jump into one another, one upwards in the text, one downwards.
    Irreducible,
    /// Each bit takes one jump back more than the one before it to a chain of tests.
    Feeders,
    /// Procedures, each of which may call the next and the one before.
    UpAndDown,
    /// Procedures in another order than that of their calls, in a circle.
    Ring,
    /// Procedures that call eight others, in a circle.
    Web,
}

const HARD: &[Hard] = &[
    Hard::Branches,
    Hard::Reversed,
    Hard::Nested,
    Hard::Irreducible,
    Hard::Feeders,
    Hard::UpAndDown,
    Hard::Ring,
    Hard::Web,
];

fn branches(text: &mut String) -> Result<(), OutOfMemory> {
    text.push_str("proc main\n")?;
    for number in 0..60_u32 {
        write!(text, "v{number} = v{} + {number}\n", (number + 1) % 60)?;
    }
    text.push_str("goto b0\n")?;
    for place in 0..110_u32 {
        let block = if place < 55 {
            2 * place
        } else {
            219 - 2 * place
        };
        write!(
            text,
            "b{block}: if v{} goto out\ngoto b{}\n",
            block % 60,
            block + 1
        )?;
    }
    text.push_str("b110: skip\nout: print v1\nend\n")
}

fn reversed(text: &mut String) -> Result<(), OutOfMemory> {
    text.push_str("proc main\ngoto s0\ns150: goto out\n")?;
    for above in 0..150_u32 {
        let number = 149 - above;
        write!(
            text,
            "s{number}: v{} = v{} + {number}\ngoto s{}\n",
            number % 70,
            (number + 1) % 70,
            number + 1
        )?;
    }
    text.push_str("out: print v1\nend\n")
}

fn nested(text: &mut String) -> Result<(), OutOfMemory> {
    text.push_str("proc main\n")?;
    for number in 0..75_u32 {
        write!(
            text,
            "l{number}: if v{} goto m{number}\nv{number} = -v{}\n",
            number % 7,
            (number + 1) % 75
        )?;
    }
    for inner in 0..75_u32 {
        let number = 74 - inner;
        write!(text, "goto l{number}\nm{number}: skip\n")?;
    }
    text.push_str("print v1\nend\n")
}

fn irreducible(text: &mut String) -> Result<(), OutOfMemory> {
    text.push_str("proc main\nif v0 goto a0\ngoto b0\n")?;
    for number in 0..75_u32 {
        write!(
            text,
            "a{number}: v{number} = v{} + 1\nif v{} goto b{number}\n",
            (number + 3) % 75,
            (number + 5) % 75
        )?;
    }
    text.push_str("goto out\na75: goto out\nb75: goto out\n")?;
    for above in 0..75_u32 {
        let number = 74 - above;
        write!(
            text,
            "b{number}: if v{number} goto a{}\ngoto b{}\n",
            number + 1,
            number + 1
        )?;
    }
    text.push_str("out: print v2\nend\n")
}

fn feeders(text: &mut String) -> Result<(), OutOfMemory> {
    text.push_str("proc main\ngoto f0\nchain: skip\n")?;
    for number in 0..100_u32 {
        write!(text, "if v{} goto out\n", number % 60)?;
    }
    text.push_str("out: print v1\nreturn\nf60: goto chain\n")?;
    for above in 0..60_u32 {
        let number = 59 - above;
        write!(
            text,
            "f{number}: v{number} = -v{}\nif v{number} goto chain\ngoto f{}\n",
            (number + 1) % 60,
            number + 1
        )?;
    }
    text.push_str("end\n")
}

fn up_and_down(text: &mut String) -> Result<(), OutOfMemory> {
    text.push_str("proc main\ncall p1\nend\nproc p0\nend\n")?;
    for number in 1..45_u32 {
        write!(
            text,
            "proc p{number}\nif v{number} goto a\nv{number} = v{} + 1\ncall p{}\na: if v0 goto b\ncall p{}\nb: skip\nend\n",
            number + 1,
            number + 1,
            number - 1
        )?;
    }
    text.push_str("proc p45\nv45 = v1 + 2\nend\n")
}

fn ring(text: &mut String) -> Result<(), OutOfMemory> {
    text.push_str("proc main\ncall p0\nprint v0\nend\n")?;
    for place in 0..60_u32 {
        let number = place * 7 % 60;
        write!(
            text,
            "proc p{number}\nif v{number} goto a\nv{number} = v{} + 1\ncall p{}\na: skip\nend\n",
            (number + 1) % 60,
            (number + 1) % 60
        )?;
    }
    Ok(())
}

fn web(text: &mut String) -> Result<(), OutOfMemory> {
    text.push_str("proc main\ncall p0\nprint v0\nend\n")?;
    for number in 0..60_u32 {
        write!(
            text,
            "proc p{number}\nif v{number} goto a\nv{number} = -v{}\ncall p{}",
            (number + 1) % 60,
            (number + 1) % 60
        )?;
        for next in 2..9_u32 {
            write!(text, " | p{}", (number + next) % 60)?;
        }
        text.push_str("\na: skip\nend\n")?;
    }
    Ok(())
}

fn write_program(text: &mut String, hard: Hard) -> Result<(), OutOfMemory> {
    match hard {
        Hard::Branches => branches(text),
        Hard::Reversed => reversed(text),
        Hard::Nested => nested(text),
        Hard::Irreducible => irreducible(text),
        Hard::Feeders => feeders(text),
        Hard::UpAndDown => up_and_down(text),
        Hard::Ring => ring(text),
        Hard::Web => web(text),
    }
}

/// A hard program's table is the same in one slice and bit by bit.
fn check_table<R: Abort + AllocGlobal>(rt: &R, text: &str, analysis: Analysis) -> Result<(), Fail> {
    let whole = answer(rt.alloc(), text, Question::Table(analysis, 4_096))?;
    assert!(rt; whole.as_str().starts_with("main 0"));
    check(rt, text, Question::Table(analysis, 1), 1, whole.as_str())
}

fn check_tables<R: Abort + AllocGlobal>(rt: &R, hard: Hard) -> Result<(), Fail> {
    let mut text = String::new(rt.alloc());
    write_program(&mut text, hard)?;
    for analysis in Analysis::ALL {
        check_table(rt, text.as_str(), analysis)?;
    }
    Ok(())
}

#[test]
fn hard_programs(rt: HostRuntime) -> Result<(), Fail> {
    for hard in HARD {
        check_tables(&rt, *hard)?;
    }
    Ok(())
}

/// How often a point is visited to solve a text's program for reaching definitions: for the flags alone, and with all its bits; none
/// is told of a text that has no graph.
fn visits(alloc: Global, text: &[u8]) -> Result<Option<(u64, u64)>, OutOfMemory> {
    match read(alloc, text) {
        Ok(program) => visits_of_program(alloc, &program),
        Err(ReadFault::OutOfMemory) => Err(OutOfMemory),
        Err(_) => Ok(None),
    }
}

fn visits_of_program(alloc: Global, program: &Program) -> Result<Option<(u64, u64)>, OutOfMemory> {
    match Graph::build(alloc, program) {
        Ok(graph) => {
            let problem = Problem::of(alloc, &graph, Analysis::Reach)?;
            let (_, for_flags) = solve_counted(alloc, &problem, 0, 0)?;
            let (_, for_all) = solve_counted(alloc, &problem, 0, problem.bits())?;
            Ok(Some((for_flags, for_all)))
        }
        Err(GraphFault::OutOfMemory) => Err(OutOfMemory),
        Err(_) => Ok(None),
    }
}

/// A program without loops and without recursion.
#[derive(Clone, Copy)]
enum Onward {
    /// A line of assignments.
    Line,
    /// Blocks of an assignment and a jump to the next one, so many numbers from one to the next in the text, round and round.
    Blocks(u32),
    /// Calls of four procedures, of which each calls the one before, and which lie against their steps.
    Relays,
}

/// Programs, and how many points they have: one for each statement, and one for each procedure's end.
const ONWARD: &[(Onward, u32)] = &[
    (Onward::Line, 101),
    (Onward::Blocks(1), 303),
    (Onward::Blocks(149), 303),
    (Onward::Blocks(7), 303),
    (Onward::Blocks(77), 303),
    (Onward::Relays, 98),
];

fn write_line(text: &mut String) -> Result<(), OutOfMemory> {
    text.push_str("proc main\n")?;
    for _ in 0..100 {
        text.push_str("x = 1\n")?;
    }
    text.push_str("end\n")
}

fn write_blocks(text: &mut String, stride: u32) -> Result<(), OutOfMemory> {
    text.push_str("proc main\ngoto b0\n")?;
    for place in 0..150_u32 {
        let number = place * (stride % 150) % 150;
        write!(
            text,
            "b{number}: v{} = v{} + {number}\ngoto b{}\n",
            number % 70,
            (number + 1) % 70,
            number + 1
        )?;
    }
    text.push_str("b150: print v0\nend\n")
}

fn write_relays(text: &mut String) -> Result<(), OutOfMemory> {
    text.push_str("proc main\n")?;
    for _ in 0..40 {
        text.push_str("call q3 | q1 | q0 | q2\nskip\n")?;
    }
    text.push_str("end\n")?;
    for number in 1..4_u32 {
        write!(
            text,
            "proc q{number}\ngoto below\nback: goto out\nbelow: call q{}\ngoto back\nout:\nend\n",
            number - 1
        )?;
    }
    text.push_str("proc q0\nx = 1\nend\n")
}

fn write_onward(text: &mut String, onward: Onward) -> Result<(), OutOfMemory> {
    match onward {
        Onward::Line => write_line(text),
        Onward::Blocks(stride) => write_blocks(text, stride),
        Onward::Relays => write_relays(text),
    }
}

fn check_visits<R: Abort + AllocGlobal>(rt: &R, onward: Onward, points: u32) -> Result<(), Fail> {
    let mut text = String::new(rt.alloc());
    write_onward(&mut text, onward)?;
    let visits = visits(rt.alloc(), text.as_bytes())?;
    let points = u64::from(points);
    assert_eq!(rt; visits, Some((points, 2 * points)));
    Ok(())
}

/// However a text is laid out: without loops and recursion each point is visited once for the flags, and once for a group of words.
#[test]
fn each_point_is_visited_once(rt: HostRuntime) -> Result<(), Fail> {
    for (onward, points) in ONWARD {
        check_visits(&rt, *onward, *points)?;
    }
    Ok(())
}

/// Loops within one another, so many, each with a test and an assignment.
fn write_loops(text: &mut String, depth: u32) -> Result<(), OutOfMemory> {
    text.push_str("proc main\n")?;
    for number in 0..depth {
        write!(text, "l{number}: if c goto m{number}\nv{number} = 1\n")?;
    }
    for inner in 0..depth {
        let number = depth - 1 - inner;
        write!(text, "goto l{number}\nm{number}: skip\n")?;
    }
    text.push_str("end\n")
}

/// Depths of loops, with how many points there are, since each loop has four statements, and how often one is visited at most: for the
/// flags each once, and for a group of words each at most twice more than there are loops around one another.
const LOOPS: &[(u32, u64, u64)] = &[
    (0, 1, 3),
    (1, 5, 20),
    (2, 9, 45),
    (10, 41, 533),
    (100, 401, 41_303),
];

fn check_loops<R: Abort + AllocGlobal>(
    rt: &R,
    depth: u32,
    points: u64,
    most: u64,
) -> Result<(), Fail> {
    let mut text = String::new(rt.alloc());
    write_loops(&mut text, depth)?;
    let visits = visits(rt.alloc(), text.as_bytes())?;
    let (for_flags, for_all) = visits.expect(rt, "a graph");
    assert_eq!(rt; for_flags, points);
    assert!(rt; for_all <= most);
    Ok(())
}

#[test]
fn loops_are_gone_over_as_deep_as_they_lie(rt: HostRuntime) -> Result<(), Fail> {
    for (depth, points, most) in LOOPS {
        check_loops(&rt, *depth, *points, *most)?;
    }
    Ok(())
}

/// How many procedures call one another, and how many statements stand behind the calls that wait for eight of them.
const WAITING: u32 = 16;

const BEHIND: u32 = 900;

/// Procedures of which each may call the one before, and may go to where no way leads to its end: there it calls eight of them, again and
/// again.
fn write_waiting(text: &mut String) -> Result<(), OutOfMemory> {
    text.push_str("proc main\ncall p0\nend\n")?;
    for number in 0..WAITING {
        let before = (number + 1) % WAITING;
        write!(
            text,
            "proc p{number}\nif c goto on\nif c goto out\ncall p{before}\ngoto out\n"
        )?;
        text.push_str("on: call p0 | p2 | p4 | p6 | p8 | p10 | p12 | p14\n")?;
        for _ in 0..BEHIND {
            text.push_str("skip\n")?;
        }
        write!(text, "goto on\nout: v{number} = 1\nend\n")?;
    }
    Ok(())
}

/// What leads to no exit is gone over when the exits are known: with its loop twice, however often they changed. The others, that a
/// chain of all procedures passes, are gone over as often as there are procedures at most.
#[test]
fn what_leads_to_no_exit_waits(rt: HostRuntime) -> Result<(), Fail> {
    let mut text = String::new(rt.alloc());
    write_waiting(&mut text)?;
    let visits = visits(rt.alloc(), text.as_bytes())?;
    let (for_flags, for_all) = visits.expect(&rt, "a graph");
    let procedures = u64::from(WAITING);
    let (main, waiting, others) = (2, u64::from(BEHIND) + 2, 6);
    let points = main + procedures * (waiting + others);
    // A call is visited once more for each exit that it waits for: of the chain one, of those that wait for eight all of them.
    let exits = 1 + procedures * (1 + 8);
    assert!(rt; points <= for_flags);
    assert!(rt; for_flags <= points + exits);
    let most = procedures * main + procedures * (2 * waiting + procedures * others);
    assert!(rt; for_all <= for_flags + most);
    Ok(())
}

/// How many procedures another one may call, one after the other.
const CALLED: u32 = 60;

/// A procedure that may go past each of its calls. Whom it calls has no way past a call of `r`, which may call the first one again.
fn write_called(text: &mut String) -> Result<(), OutOfMemory> {
    text.push_str("proc main\ncall p\nend\nproc r\nif c goto out\ncall p\nout:\nend\nproc p\n")?;
    for number in 0..CALLED {
        write!(
            text,
            "n{number}: if c goto n{}\ncall q{number}\n",
            number + 1
        )?;
    }
    write!(text, "n{CALLED}:\nend\n")?;
    for number in 0..CALLED {
        write!(text, "proc q{number}\ncall r\nv{number} = 1\nend\n")?;
    }
    Ok(())
}

/// They all call one another, and the caller's end is reached before those of its callees. It is gone over behind them all the same, so
/// that a point is visited twice: once more when what is made came round.
#[test]
fn callees_come_first_though_their_ends_come_late(rt: HostRuntime) -> Result<(), Fail> {
    let mut text = String::new(rt.alloc());
    write_called(&mut text)?;
    let visits = visits(rt.alloc(), text.as_bytes())?;
    let (for_flags, for_all) = visits.expect(&rt, "a graph");
    let called = u64::from(CALLED);
    let points = 2 + 3 + (2 * called + 1) + 3 * called;
    // A call is visited once more for the exit that it waits for.
    let calls = 2 + 2 * called;
    assert!(rt; points <= for_flags);
    assert!(rt; for_flags <= points + calls);
    assert!(rt; for_all <= for_flags + 2 * points);
    Ok(())
}

/// How many procedures may each call the next one and the one before.
const NEIGHBOURS: u32 = 60;

fn write_neighbours(text: &mut String) -> Result<(), OutOfMemory> {
    text.push_str("proc main\ncall p0\nend\n")?;
    for number in 0..NEIGHBOURS {
        let next = (number + 1).min(NEIGHBOURS - 1);
        let before = number.saturating_sub(1);
        write!(
            text,
            "proc p{number}\nif c goto a\ncall p{next}\na: if c goto b\ncall p{before}\nb: v{number} = 1\nend\n"
        )?;
    }
    Ok(())
}

/// What the last one makes comes to the first one, and the other way round, in a round up and a round down, and a third one finds nothing
/// new: the rounds' number does not go with the procedures'.
#[test]
fn rounds_go_up_and_down(rt: HostRuntime) -> Result<(), Fail> {
    let mut text = String::new(rt.alloc());
    write_neighbours(&mut text)?;
    let visits = visits(rt.alloc(), text.as_bytes())?;
    let (for_flags, for_all) = visits.expect(&rt, "a graph");
    let neighbours = u64::from(NEIGHBOURS);
    let points = 2 + 6 * neighbours;
    // A call is visited once more for the exit that it waits for.
    let calls = 1 + 2 * neighbours;
    assert!(rt; for_flags <= points + calls);
    assert!(rt; for_all <= for_flags + 4 * points);
    Ok(())
}
