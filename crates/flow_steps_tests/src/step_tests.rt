// Rounds of small programs, by hand.

use flow_graph::Graph;
use flow_steps::{MOST_POINTS, StepText, has_few_points};
use flow_team::{OpenGate, Team};
use flow_views::{Chosen, Look, View, ViewTables};
use report_answers::ReportAnswers;
use std::alloc::Global;
use std::process::Abort;
use std::test::Fail;
use std::thread::Threads;
use tac_reader::{Program, read};
use test_support::failing_streams::{Page, blank_page};
use text_pieces::{ToWrite, deliver};

// Writes the rounds in a procedure; the answer says whether all of the text was taken.
fn write_graph<R: Threads + Sync>(
    rt: &R,
    alloc: Global,
    graph: &Graph<'_>,
    procedure: u32,
    facts: Chosen,
    page: &mut Page,
) -> Result<bool, Fail> {
    let team = Team {
        rt,
        gate: &OpenGate,
        workers: 1,
        cut: 64,
    };
    if graph.program().procs().len() <= procedure as usize {
        return Ok(false);
    }
    // Its contract tells that each procedure has a name.
    let _ = graph.points();
    let view = View {
        facts,
        procedure: Some(procedure),
        look: PLAIN,
    };
    let answers = ReportAnswers::of(&team, alloc, graph)?;
    let tables = ViewTables::of(&team, alloc, graph, view)?;
    let text = StepText::of(alloc, graph, &tables, &answers, view, procedure)?;
    let mut sink = ToWrite::new(page);
    Ok(deliver(alloc, &text, &mut sink).is_ok())
}

fn write_program<R: Threads + Sync>(
    rt: &R,
    alloc: Global,
    program: &Program,
    procedure: u32,
    facts: Chosen,
    page: &mut Page,
) -> Result<bool, Fail> {
    let graph = Graph::build(alloc, program)?;
    write_graph(rt, alloc, &graph, procedure, facts, page)
}

// The rounds in a procedure of a program.
fn text_of<R: Threads + Sync + AllocGlobal>(
    rt: &R,
    text: &str,
    procedure: u32,
    facts: Chosen,
) -> Result<Vec<u8>, Fail> {
    let alloc = rt.alloc();
    let mut page = blank_page(alloc);
    let program = read(alloc, text.as_bytes())?;
    if write_program(rt, alloc, &program, procedure, facts, &mut page)? {
        Ok(page.taken)
    } else {
        Err(Fail::from("a fault of the page"))
    }
}

// What stands behind the first line of a text.
fn behind_first_line(text: &[u8]) -> &[u8] {
    for place in 0..text.len() {
        if text[place] == b'\n' {
            return &text[place + 1..];
        }
    }
    text
}

const PLAIN: Look = Look {
    hides_entry: false,
    behind: false,
    hovers: false,
    legend: false,
    changes: false,
};

const NOTHING: Chosen = Chosen {
    reach: false,
    live: false,
    avail: false,
    busy: false,
};

const REACH: Chosen = Chosen {
    reach: true,
    live: false,
    avail: false,
    busy: false,
};

const LIVE: Chosen = Chosen {
    reach: false,
    live: true,
    avail: false,
    busy: false,
};

const AVAIL: Chosen = Chosen {
    reach: false,
    live: false,
    avail: true,
    busy: false,
};

const BUSY: Chosen = Chosen {
    reach: false,
    live: false,
    avail: false,
    busy: true,
};

const REACH_AND_LIVE: Chosen = Chosen {
    reach: true,
    live: true,
    avail: false,
    busy: false,
};

// All lines of one statement: the names of its bits stand in the first one.
#[test]
fn all_lines(rt: HostRuntime) -> Result<(), Fail> {
    let got = text_of(&rt, "proc main\nx = 1\nend\n", 0, REACH)?;
    let wanted: &[u8] =
        b"{\"type\":\"program\",\"version\":1,\"points\":2,\"procedures\":[\"main\"],\"variables\":[\"x\"],\
        \"definitions\":2,\"expressions\":0,\"definition_names\":[\"x@entry\",\"x@2\"],\"expression_names\":[],\
        \"definition_parts\":[{\"variable\":0,\"point\":null},{\"variable\":0,\"point\":0}],\"expression_parts\":[]}\n\
        {\"type\":\"steps\",\"procedure\":\"main\",\"first\":0,\"points\":2,\"analyses\":[\"reach\"]}\n\
        {\"type\":\"start\",\"analysis\":\"reach\",\"begin\":\"nothing\",\"order\":[1],\"known\":[{\"point\":0,\"bits\":[0]}]}\n\
        {\"type\":\"round\",\"analysis\":\"reach\",\"round\":1,\"changed\":[{\"point\":1,\"came\":[1],\"went\":[]}]}\n\
        {\"type\":\"round\",\"analysis\":\"reach\",\"round\":2,\"changed\":[]}\n\
        {\"type\":\"end\",\"points\":2}\n";
    assert_eq!(rt; got.as_slice(), wanted);
    Ok(())
}

// Where no analysis is chosen there are no rounds.
#[test]
fn no_analysis(rt: HostRuntime) -> Result<(), Fail> {
    let got = text_of(&rt, "proc main\nx = 1\nend\n", 0, NOTHING)?;
    let wanted: &[u8] =
        b"{\"type\":\"steps\",\"procedure\":\"main\",\"first\":0,\"points\":2,\"analyses\":[]}\n{\"type\":\"end\",\"points\":2}\n";
    assert_eq!(rt; behind_first_line(got.as_slice()), wanted);
    Ok(())
}

// Figure 9.13 of Aho, Lam, Sethi, Ullman, Compilers, 2nd edition, with names of our own: d1 to d7 are the bits 3 to 9. The blocks begin at the
// points 0, 3, 6, 7 and 9, where the rounds are those of figure 9.15: B2 has 111 0000 and then 111 0111, B3 001 1100 and then 001 1110, B4 001 1110
// and the exit 001 0111.
const TEXTBOOK: &str =
    "proc main\nleft = 0\nright = 9\nkey = 1\nagain:\nleft = left + 1\nright = right - 1\nif left < right goto keep\n\
    key = 2\nkeep:\nleft = 3\nif key < right goto again\nend\n";

#[test]
fn textbook_definitions(rt: HostRuntime) -> Result<(), Fail> {
    let got = text_of(&rt, TEXTBOOK, 0, REACH)?;
    let wanted: &[u8] =
        b"{\"type\":\"steps\",\"procedure\":\"main\",\"first\":0,\"points\":10,\"analyses\":[\"reach\"]}\n\
        {\"type\":\"start\",\"analysis\":\"reach\",\"begin\":\"nothing\",\"order\":[1,2,3,4,5,6,7,8,9],\
        \"known\":[{\"point\":0,\"bits\":[0,1,2]}]}\n\
        {\"type\":\"round\",\"analysis\":\"reach\",\"round\":1,\"changed\":[{\"point\":1,\"came\":[1,2,3],\"went\":[]},\
        {\"point\":2,\"came\":[2,3,4],\"went\":[]},{\"point\":3,\"came\":[3,4,5],\"went\":[]},{\"point\":4,\"came\":[4,5,6],\"went\":[]},\
        {\"point\":5,\"came\":[5,6,7],\"went\":[]},{\"point\":6,\"came\":[5,6,7],\"went\":[]},{\"point\":7,\"came\":[5,6,7,8],\"went\":[]},\
        {\"point\":8,\"came\":[5,7,8,9],\"went\":[]},{\"point\":9,\"came\":[5,7,8,9],\"went\":[]}]}\n\
        {\"type\":\"round\",\"analysis\":\"reach\",\"round\":2,\"changed\":[{\"point\":3,\"came\":[7,8,9],\"went\":[]},\
        {\"point\":4,\"came\":[7,8],\"went\":[]},{\"point\":5,\"came\":[8],\"went\":[]},{\"point\":6,\"came\":[8],\"went\":[]}]}\n\
        {\"type\":\"round\",\"analysis\":\"reach\",\"round\":3,\"changed\":[]}\n\
        {\"type\":\"end\",\"points\":10}\n";
    assert_eq!(rt; behind_first_line(got.as_slice()), wanted);
    Ok(())
}

// A variable that only the loop's body reads is live before the test from the second round on: the order takes the body last.
#[test]
fn live_in_loop(rt: HostRuntime) -> Result<(), Fail> {
    let text =
        "proc main\nread n\nread x\nagain:\nif n < 1 goto done\nn = n - x\ngoto again\ndone:\nprint n\nend\n";
    let got = text_of(&rt, text, 0, LIVE)?;
    let wanted: &[u8] =
        b"{\"type\":\"steps\",\"procedure\":\"main\",\"first\":0,\"points\":7,\"analyses\":[\"live\"]}\n\
        {\"type\":\"start\",\"analysis\":\"live\",\"begin\":\"nothing\",\"order\":[5,2,1,0,4,3],\"known\":[{\"point\":6,\"bits\":[]}]}\n\
        {\"type\":\"round\",\"analysis\":\"live\",\"round\":1,\"changed\":[{\"point\":5,\"came\":[0],\"went\":[]},\
        {\"point\":2,\"came\":[0],\"went\":[]},{\"point\":1,\"came\":[0],\"went\":[]},{\"point\":4,\"came\":[0],\"went\":[]},\
        {\"point\":3,\"came\":[0,1],\"went\":[]}]}\n\
        {\"type\":\"round\",\"analysis\":\"live\",\"round\":2,\"changed\":[{\"point\":2,\"came\":[1],\"went\":[]},\
        {\"point\":4,\"came\":[1],\"went\":[]}]}\n\
        {\"type\":\"round\",\"analysis\":\"live\",\"round\":3,\"changed\":[]}\n\
        {\"type\":\"end\",\"points\":7}\n";
    assert_eq!(rt; behind_first_line(got.as_slice()), wanted);
    Ok(())
}

// An expression is available at the loop's head in the first round; the second takes it away, since the body writes an operand.
#[test]
fn available_no_more(rt: HostRuntime) -> Result<(), Fail> {
    let text =
        "proc main\nread a\nread b\nx = a + b\nagain:\ny = a + b\na = y\nif x < y goto again\nprint x\nend\n";
    let got = text_of(&rt, text, 0, AVAIL)?;
    let wanted: &[u8] =
        b"{\"type\":\"steps\",\"procedure\":\"main\",\"first\":0,\"points\":8,\"analyses\":[\"avail\"]}\n\
        {\"type\":\"start\",\"analysis\":\"avail\",\"begin\":\"everything\",\"order\":[1,2,3,4,5,6,7],\"known\":[{\"point\":0,\"bits\":[]}]}\n\
        {\"type\":\"round\",\"analysis\":\"avail\",\"round\":1,\"changed\":[{\"point\":1,\"came\":[],\"went\":[0]},\
        {\"point\":2,\"came\":[],\"went\":[0]},{\"point\":5,\"came\":[],\"went\":[0]},{\"point\":6,\"came\":[],\"went\":[0]},\
        {\"point\":7,\"came\":[],\"went\":[0]}]}\n\
        {\"type\":\"round\",\"analysis\":\"avail\",\"round\":2,\"changed\":[{\"point\":3,\"came\":[],\"went\":[0]}]}\n\
        {\"type\":\"round\",\"analysis\":\"avail\",\"round\":3,\"changed\":[]}\n\
        {\"type\":\"end\",\"points\":8}\n";
    assert_eq!(rt; behind_first_line(got.as_slice()), wanted);
    Ok(())
}

// Backwards over every path: a * b is very busy where both ways evaluate it, and not before a is read. What is never reached keeps everything.
#[test]
fn busy_on_both_ways(rt: HostRuntime) -> Result<(), Fail> {
    let text =
        "proc main\nread a\nif a < 1 goto other\nx = a * b\nreturn\nother:\ny = a * b\nend\nproc never\nagain:\ngoto again\nend\n";
    let got = text_of(&rt, text, 0, BUSY)?;
    let wanted: &[u8] =
        b"{\"type\":\"steps\",\"procedure\":\"main\",\"first\":0,\"points\":6,\"analyses\":[\"busy\"]}\n\
        {\"type\":\"start\",\"analysis\":\"busy\",\"begin\":\"everything\",\"order\":[3,2,4,1,0],\"known\":[{\"point\":5,\"bits\":[]}]}\n\
        {\"type\":\"round\",\"analysis\":\"busy\",\"round\":1,\"changed\":[{\"point\":3,\"came\":[],\"went\":[0]},\
        {\"point\":0,\"came\":[],\"went\":[0]}]}\n\
        {\"type\":\"round\",\"analysis\":\"busy\",\"round\":2,\"changed\":[]}\n\
        {\"type\":\"end\",\"points\":6}\n";
    assert_eq!(rt; behind_first_line(got.as_slice()), wanted);
    let never = text_of(&rt, text, 1, BUSY)?;
    let all_known: &[u8] =
        b"{\"type\":\"steps\",\"procedure\":\"never\",\"first\":6,\"points\":2,\"analyses\":[\"busy\"]}\n\
        {\"type\":\"start\",\"analysis\":\"busy\",\"begin\":\"everything\",\"order\":[],\
        \"known\":[{\"point\":6,\"bits\":[0]},{\"point\":7,\"bits\":[0]}]}\n\
        {\"type\":\"round\",\"analysis\":\"busy\",\"round\":1,\"changed\":[]}\n\
        {\"type\":\"end\",\"points\":2}\n";
    assert_eq!(rt; behind_first_line(never.as_slice()), all_known);
    Ok(())
}

// In a recursive procedure what callers bring and what the inner call leaves are known: forwards at its entry and behind the call, backwards at its
// end and at the call.
#[test]
fn recursive_procedure(rt: HostRuntime) -> Result<(), Fail> {
    let text =
        "proc main\nx = 1\ncall f\nprint x\nend\nproc f\nif x < 5 goto deep\nreturn\ndeep:\nx = x + 1\ncall f\nprint x\nend\n";
    let got = text_of(&rt, text, 1, REACH_AND_LIVE)?;
    let wanted: &[u8] =
        b"{\"type\":\"steps\",\"procedure\":\"f\",\"first\":4,\"points\":6,\"analyses\":[\"reach\",\"live\"]}\n\
        {\"type\":\"start\",\"analysis\":\"reach\",\"begin\":\"nothing\",\"order\":[5,6,7,9],\
        \"known\":[{\"point\":4,\"bits\":[1,2]},{\"point\":8,\"bits\":[2]}]}\n\
        {\"type\":\"round\",\"analysis\":\"reach\",\"round\":1,\"changed\":[{\"point\":5,\"came\":[1,2],\"went\":[]},\
        {\"point\":6,\"came\":[1,2],\"went\":[]},{\"point\":7,\"came\":[2],\"went\":[]},{\"point\":9,\"came\":[1,2],\"went\":[]}]}\n\
        {\"type\":\"round\",\"analysis\":\"reach\",\"round\":2,\"changed\":[]}\n\
        {\"type\":\"start\",\"analysis\":\"live\",\"begin\":\"nothing\",\"order\":[5,8,6,4],\
        \"known\":[{\"point\":7,\"bits\":[0]},{\"point\":9,\"bits\":[0]}]}\n\
        {\"type\":\"round\",\"analysis\":\"live\",\"round\":1,\"changed\":[{\"point\":5,\"came\":[0],\"went\":[]},\
        {\"point\":8,\"came\":[0],\"went\":[]},{\"point\":6,\"came\":[0],\"went\":[]},{\"point\":4,\"came\":[0],\"went\":[]}]}\n\
        {\"type\":\"round\",\"analysis\":\"live\",\"round\":2,\"changed\":[]}\n\
        {\"type\":\"end\",\"points\":6}\n";
    assert_eq!(rt; behind_first_line(got.as_slice()), wanted);
    Ok(())
}

// Whether `main` of so many statements has few enough points.
fn has_few<R: AllocGlobal>(rt: &R, statements: u32) -> Result<bool, Fail> {
    let alloc = rt.alloc();
    let mut text = Vec::new(alloc);
    text.extend_from_slice(b"proc main\n")?;
    for _ in 0..statements {
        text.extend_from_slice(b"skip\n")?;
    }
    text.extend_from_slice(b"end\n")?;
    let program = read(alloc, text.as_slice())?;
    let graph = Graph::build(alloc, &program)?;
    if program.procs().is_empty() {
        return Ok(false);
    }
    Ok(has_few_points(&graph, 0))
}

// The end of a procedure is a point too.
#[test]
fn points_at_the_limit(rt: HostRuntime) -> Result<(), Fail> {
    assert_eq!(rt; MOST_POINTS, 200);
    assert!(rt; has_few(&rt, 199)?);
    assert!(rt; !has_few(&rt, 200)?);
    Ok(())
}
