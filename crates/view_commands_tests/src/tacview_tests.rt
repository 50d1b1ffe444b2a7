// `tacview`'s values by hand: what small texts are told, and what faults of devices leave.

use flow_graph::GraphFault;
use flow_runs::Fault;
use flow_views::{Chosen, Look};
use run_progress::{Progress, Terminal};
use std::alloc::Global;
use std::io::{ErrorKind, Read};
use std::process::Abort;
use std::test::Fail;
use std::thread::Threads;
use tac_program::Limits;
use test_support::failing_streams::{Page, Pieces, blank_page};
use test_support::worked_programs::{ALONE, TEAMS, call_between, recursion, small};
use text_pieces::{FromRead, ToWrite};
use view_commands::{line_of, run};
use view_words::{Asked, Format, Options};

pub(crate) const NONE: Chosen = Chosen {
    reach: false,
    live: false,
    avail: false,
    busy: false,
};

pub(crate) const ALL: Chosen = Chosen {
    reach: true,
    live: true,
    avail: true,
    busy: true,
};

pub(crate) const REACH: Chosen = Chosen {
    reach: true,
    live: false,
    avail: false,
    busy: false,
};

// What is asked of a program.
#[derive(Clone, Copy)]
pub(crate) struct Queried<'a> {
    pub(crate) limits: Limits,
    pub(crate) format: Format,
    pub(crate) facts: Chosen,
    pub(crate) procedure: Option<&'a str>,
    pub(crate) because: Option<&'a str>,
}

pub(crate) const GRAPH: Queried<'static> = Queried {
    limits: Limits::Standard,
    format: Format::Dot,
    facts: NONE,
    procedure: None,
    because: None,
};

pub(crate) const LINES: Queried<'static> = Queried {
    limits: Limits::Standard,
    format: Format::Json,
    facts: ALL,
    procedure: None,
    because: None,
};

pub(crate) const REPORT: Queried<'static> = Queried {
    limits: Limits::Standard,
    format: Format::Report,
    facts: NONE,
    procedure: None,
    because: None,
};

// Facts before statements alone, in nodes, with the values at the beginning, and no legend.
pub(crate) const PLAIN: Look = Look {
    hides_entry: false,
    behind: false,
    hovers: false,
    legend: false,
    changes: false,
};

// A copy of a text, if there is one. None where memory is refused.
fn copied(alloc: Global, text: Option<&str>) -> Option<Option<String>> {
    match text {
        Some(text) => Some(Some(String::from_str(alloc, text).ok()?)),
        None => Some(None),
    }
}

// None where memory is refused.
pub(crate) fn asked(
    alloc: Global,
    procedure: Option<&str>,
    because: Option<&str>,
) -> Option<Asked> {
    Some(Asked {
        procedure: copied(alloc, procedure)?,
        because: copied(alloc, because)?,
        share: None,
        title: None,
        source: false,
        look: PLAIN,
    })
}

// None where memory is refused.
pub(crate) fn options(alloc: Global, queried: Queried<'_>, team: (u32, u32)) -> Option<Options> {
    let asked = asked(alloc, queried.procedure, queried.because)?;
    Options::new(
        team.0,
        team.1,
        queried.limits,
        queried.format,
        queried.facts,
        asked,
    )
}

// What comes of a run from the reader to the page.
pub(crate) fn run_to_page<R: Threads + Sync + AllocGlobal, D: Read + Drop>(
    rt: &R,
    reader: D,
    page: &mut Page,
    options: &Options,
) -> Result<(), Fault> {
    let mut source = FromRead::new(reader);
    let mut sink = ToWrite::new(page);
    let progress = Progress::new(rt.alloc(), "tacview", Terminal::none());
    run(rt, rt.alloc(), &mut source, &mut sink, options, &progress)
}

// The line of the fault, if there was one, and behind it what was written.
fn line_and_text(
    alloc: Global,
    options: &Options,
    answered: Result<(), Fault>,
    written: &[u8],
) -> Result<Vec<u8>, Fail> {
    let mut line = match answered {
        Ok(()) => Vec::new(alloc),
        Err(fault) => line_of(alloc, &options.asked, &fault)?,
    };
    line.extend_from_slice(written)?;
    Ok(line)
}

// Both, by so many workers in slices of this width.
fn output_of<R: Threads + Sync + AllocGlobal, D: Read + Drop>(
    rt: &R,
    reader: D,
    page: &mut Page,
    queried: Queried<'_>,
    team: (u32, u32),
) -> Result<Vec<u8>, Fail> {
    let options = options(rt.alloc(), queried, team).ok_or("options")?;
    let answered = run_to_page(rt, reader, &mut *page, &options);
    line_and_text(rt.alloc(), &options, answered, &page.taken)
}

// What this team answered.
fn check_team<R: Abort>(rt: &R, got: &[u8], wanted: &[u8], team: (u32, u32)) {
    assert_eq!(rt; got, wanted, "{team:?}");
}

// The reader's text is answered so by this team, where a write takes so many bytes at most.
pub(crate) fn check_by<R: Threads + Sync + Abort + AllocGlobal, D: Read + Drop>(
    rt: &R,
    reader: D,
    piece: usize,
    queried: Queried<'_>,
    team: (u32, u32),
    answer: &str,
) -> Result<(), Fail> {
    let mut page = blank_page(rt.alloc());
    page.piece = piece;
    let got = output_of(rt, reader, &mut page, queried, team)?;
    check_team(rt, &got, answer.as_bytes(), team);
    Ok(())
}

// The text is answered so, whole or byte by byte, and by each team.
pub(crate) fn check<R: Threads + Sync + Abort + AllocGlobal>(
    rt: &R,
    text: &str,
    queried: Queried<'_>,
    answer: &str,
) -> Result<(), Fail> {
    for team in TEAMS {
        check_by(rt, text.as_bytes(), usize::MAX, queried, *team, answer)?;
    }
    let slow = Pieces {
        rest: text.as_bytes(),
        piece: 1,
        left: usize::MAX,
        fault: ErrorKind::Other,
    };
    check_by(rt, slow, 1, queried, ALONE, answer)
}

pub(crate) const SMALL_GRAPH: &str =
    "digraph \"tacflow\" {\n  graph [fontname=\"monospace\", labeljust=l];\n  \
    node [shape=box, fontname=\"monospace\", fontsize=11];\n  \
    edge [class=\"step\", fontname=\"monospace\", fontsize=10];\n  subgraph \"cluster_0\" {\n    \
    id=\"procedure0\";\n    class=\"procedure\";\n    label=\"main\";\n    \
    0 [id=\"point0\", class=\"point dead\", label=\"L:\\l2: x = 1\\lassignment to x is dead\\l\", style=filled, fillcolor=khaki];\n    \
    1 [id=\"point1\", class=\"point\", label=\"end of main\\l\"];\n  }\n  0 -> 1;\n}\n";

pub(crate) const SMALL_LINES: &str =
    "{\"type\":\"program\",\"version\":1,\"points\":2,\"procedures\":[\"main\"],\"variables\":[\"x\"],\"definitions\":2,\"expressions\":0}\n\
    {\"type\":\"point\",\"point\":0,\"procedure\":\"main\",\"place\":0,\"line\":2,\"first\":14,\"last\":18,\"labels\":[\"L\"],\"statement\":\"x = 1\",\
    \"doubtful\":false,\"edges\":[{\"kind\":\"step\",\"to\":1}],\"reach\":{\"path\":true,\"bits\":[0],\"names\":[\"x@entry\"]},\"live\":{\"path\":true,\"bits\":[],\
    \"names\":[]},\"avail\":{\"path\":true,\"bits\":[],\"names\":[]},\"busy\":{\"path\":true,\"bits\":[],\"names\":[]}}\n\
    {\"type\":\"point\",\"point\":1,\"procedure\":\"main\",\"place\":1,\"line\":null,\"first\":null,\"last\":null,\"labels\":[],\"statement\":null,\"doubtful\":false,\"edges\":[],\
    \"reach\":{\"path\":true,\"bits\":[1],\"names\":[\"x@2\"]},\"live\":{\"path\":true,\"bits\":[],\"names\":[]},\"avail\":{\"path\":true,\
    \"bits\":[],\"names\":[]},\"busy\":{\"path\":true,\"bits\":[],\"names\":[]}}\n\
    {\"type\":\"remark\",\"point\":0,\"line\":2,\"first\":14,\"last\":18,\"kind\":\"dead\",\"variable\":\"x\"}\n\
    {\"type\":\"end\",\"points\":2}\n";

const SMALL_REPORT: &str =
    "points 2, variables 1, definitions 2, expressions 0\n2: assignment to x is dead\n";

const RECURSION_GRAPH: &str =
    "digraph \"tacflow\" {\n  graph [fontname=\"monospace\", labeljust=l];\n  \
    node [shape=box, fontname=\"monospace\", fontsize=11];\n  \
    edge [class=\"step\", fontname=\"monospace\", fontsize=10];\n  subgraph \"cluster_0\" {\n    \
    id=\"procedure0\";\n    class=\"procedure\";\n    label=\"main\";\n    0 [id=\"point0\", class=\"point\", label=\"2: x = 1\\l\"];\n    \
    1 [id=\"point1\", class=\"point\", label=\"3: call f\\l\"];\n    \
    2 [id=\"point2\", class=\"point\", label=\"4: print x\\l\"];\n    3 [id=\"point3\", class=\"point\", label=\"end of main\\l\"];\n  }\n  \
    subgraph \"cluster_1\" {\n    id=\"procedure1\";\n    class=\"procedure\";\n    label=\"f\";\n    \
    4 [id=\"point4\", class=\"point\", label=\"7: if x goto L\\l\"];\n    \
    5 [id=\"point5\", class=\"point\", label=\"8: call f\\l\"];\n    6 [id=\"point6\", class=\"point\", label=\"9: x = 2\\l\"];\n    \
    7 [id=\"point7\", class=\"point\", label=\"L:\\lend of f\\l\"];\n  \
    }\n  0 -> 1;\n  1 -> 4 [class=\"call\", style=dashed, color=grey60, fontcolor=grey40, constraint=false, xlabel=\"call 3\"];\n  \
    1 -> 2 [class=\"passed\", style=dotted, arrowhead=none];\n  2 -> 3;\n  4 -> 5 [label=\"F\"];\n  4 -> 7 [label=\"T\"];\n  \
    5 -> 4 [class=\"call\", style=dashed, color=grey60, fontcolor=grey40, constraint=false, xlabel=\"call 8\"];\n  \
    5 -> 6 [class=\"passed\", style=dotted, arrowhead=none];\n  6 -> 7;\n  \
    7 -> 2 [class=\"return\", style=dashed, color=grey60, fontcolor=grey40, constraint=false, xlabel=\"return 3\"];\n  \
    7 -> 6 [class=\"return\", style=dashed, color=grey60, fontcolor=grey40, constraint=false, xlabel=\"return 8\"];\n}\n";

pub(crate) const F_GRAPH: &str =
    "digraph \"tacflow\" {\n  graph [fontname=\"monospace\", labeljust=l];\n  \
    node [shape=box, fontname=\"monospace\", fontsize=11];\n  \
    edge [class=\"step\", fontname=\"monospace\", fontsize=10];\n  subgraph \"cluster_1\" {\n    id=\"procedure1\";\n    \
    class=\"procedure\";\n    label=\"f\";\n    \
    4 [id=\"point4\", class=\"point\", label=\"7: if x goto L\\lreach: x@2\\l\"];\n    \
    5 [id=\"point5\", class=\"point\", label=\"8: call f\\lreach: x@2\\l\"];\n    \
    6 [id=\"point6\", class=\"point\", label=\"9: x = 2\\lreach: x@2, x@9\\l\"];\n    \
    7 [id=\"point7\", class=\"point\", label=\"L:\\lend of f\\lreach: x@2, x@9\\l\"];\n  }\n  4 -> 5 [label=\"F\"];\n  4 -> 7 [label=\"T\"];\n  \
    5 -> 4 [class=\"call\", style=dashed, color=grey60, fontcolor=grey40, constraint=false, xlabel=\"call 8\"];\n  \
    5 -> 6 [class=\"passed\", style=dotted, arrowhead=none];\n  6 -> 7;\n  \
    7 -> 6 [class=\"return\", style=dashed, color=grey60, fontcolor=grey40, constraint=false, xlabel=\"return 8\"];\n}\n";

const F_LINES: &str =
    "{\"type\":\"program\",\"version\":1,\"points\":8,\"procedures\":[\"main\",\"f\"],\"variables\":[\"x\"],\"definitions\":3,\"expressions\":0}\n\
    {\"type\":\"point\",\"point\":4,\"procedure\":\"f\",\"place\":0,\"line\":7,\"first\":43,\"last\":53,\"labels\":[],\"statement\":\"if x goto L\",\
    \"doubtful\":false,\"edges\":[{\"kind\":\"step\",\"to\":5,\"when\":false},{\"kind\":\"step\",\"to\":7,\"when\":true}]}\n\
    {\"type\":\"point\",\"point\":5,\"procedure\":\"f\",\"place\":1,\"line\":8,\"first\":55,\"last\":60,\"labels\":[],\"statement\":\"call f\",\
    \"doubtful\":false,\"edges\":[{\"kind\":\"call\",\"site\":5,\"to\":4}]}\n\
    {\"type\":\"point\",\"point\":6,\"procedure\":\"f\",\"place\":2,\"line\":9,\"first\":62,\"last\":66,\"labels\":[],\"statement\":\"x = 2\",\
    \"doubtful\":false,\"edges\":[{\"kind\":\"step\",\"to\":7}]}\n\
    {\"type\":\"point\",\"point\":7,\"procedure\":\"f\",\"place\":3,\"line\":null,\"first\":null,\"last\":null,\"labels\":[\"L\"],\"statement\":null,\
    \"doubtful\":false,\"edges\":[{\"kind\":\"return\",\"site\":1,\"to\":2},{\"kind\":\"return\",\"site\":5,\"to\":6}]}\n\
    {\"type\":\"end\",\"points\":4}\n";

// Each text is answered so.
fn check_all<R: Threads + Sync + Abort + AllocGlobal>(
    rt: &R,
    cases: &[(&str, Queried<'_>, &str)],
) -> Result<(), Fail> {
    for (text, queried, answer) in cases {
        check(rt, text, *queried, answer)?;
    }
    Ok(())
}

const WHOLE_PROGRAMS: &[(&str, Queried<'static>, &str)] = &[
    (small::TEXT, GRAPH, SMALL_GRAPH),
    (small::TEXT, LINES, SMALL_LINES),
    (recursion::TEXT, GRAPH, RECURSION_GRAPH),
    (small::TEXT, REPORT, SMALL_REPORT),
    (recursion::TEXT, REPORT, recursion::REPORT),
    (call_between::TEXT, REPORT, call_between::REPORT),
];

#[test]
fn whole_programs(rt: HostRuntime) -> Result<(), Fail> {
    check_all(&rt, WHOLE_PROGRAMS)
}

// What is asked of `f` or of `main` alone.
pub(crate) const GRAPH_OF_F: Queried<'static> = Queried {
    limits: Limits::Standard,
    format: Format::Dot,
    facts: REACH,
    procedure: Some("f"),
    because: None,
};

const LINES_OF_F: Queried<'static> = Queried {
    limits: Limits::Standard,
    format: Format::Json,
    facts: NONE,
    procedure: Some("f"),
    because: None,
};

const GRAPH_OF_MAIN: Queried<'static> = Queried {
    limits: Limits::Standard,
    format: Format::Dot,
    facts: NONE,
    procedure: Some("main"),
    because: None,
};

// A report is of the whole program all the same.
const REPORT_OF_P: Queried<'static> = Queried {
    limits: Limits::Standard,
    format: Format::Report,
    facts: ALL,
    procedure: Some("p"),
    because: None,
};

const ONE_PROCEDURE: &[(&str, Queried<'static>, &str)] = &[
    (recursion::TEXT, GRAPH_OF_F, F_GRAPH),
    (recursion::TEXT, LINES_OF_F, F_LINES),
    (small::TEXT, GRAPH_OF_MAIN, SMALL_GRAPH),
    (call_between::TEXT, REPORT_OF_P, call_between::REPORT),
];

#[test]
fn one_procedure(rt: HostRuntime) -> Result<(), Fail> {
    check_all(&rt, ONE_PROCEDURE)
}

// Names that no procedure has, and the line that says so.
const NO_PROCEDURES: &[(&str, &str)] = &[
    ("g", "tacview: the program has no procedure g\n"),
    ("", "tacview: the program has no procedure \n"),
    ("F", "tacview: the program has no procedure F\n"),
    ("ff", "tacview: the program has no procedure ff\n"),
    (
        "f\n\\\u{e9}",
        "tacview: the program has no procedure f\\x0a\\x5c\\xc3\\xa9\n",
    ),
];

#[test]
fn procedures_that_are_not_there(rt: HostRuntime) -> Result<(), Fail> {
    for (name, line) in NO_PROCEDURES {
        for format in &[Format::Dot, Format::Json, Format::Report] {
            let queried = Queried {
                limits: Limits::Standard,
                format: *format,
                facts: NONE,
                procedure: Some(name),
                because: None,
            };
            check(&rt, recursion::TEXT, queried, line)?;
        }
    }
    Ok(())
}

const REFUSED_TEXTS: &[(&str, Queried<'static>, &str)] = &[
    ("", GRAPH, "tacview: 1:1: refusal 6: NoMain\n"),
    ("", LINES, "tacview: 1:1: refusal 6: NoMain\n"),
    ("", REPORT, "tacview: 1:1: refusal 6: NoMain\n"),
    (
        "proc main\nx =\nend\n",
        GRAPH,
        "tacview: 2:4: refusal 4: Syntax\n",
    ),
    (
        "proc main\nx =\nend\n",
        LINES,
        "tacview: 2:4: refusal 4: Syntax\n",
    ),
    (
        "proc main\ncall z\nend\n",
        GRAPH,
        "tacview: 2:6: refusal 10: UnknownProcedure\n",
    ),
    (
        "proc main\ncall z\nend\n",
        LINES,
        "tacview: 2:6: refusal 10: UnknownProcedure\n",
    ),
];

#[test]
fn refused_texts(rt: HostRuntime) -> Result<(), Fail> {
    check_all(&rt, REFUSED_TEXTS)
}

#[test]
fn faults_of_readers(rt: HostRuntime) -> Result<(), Fail> {
    for queried in &[GRAPH, LINES, REPORT] {
        for left in 0..small::TEXT.len() {
            let reader = Pieces {
                rest: small::TEXT.as_bytes(),
                piece: usize::MAX,
                left,
                fault: ErrorKind::Other,
            };
            check_by(
                &rt,
                reader,
                usize::MAX,
                *queried,
                ALONE,
                "tacview: read fault\n",
            )?;
        }
    }
    Ok(())
}

// The writer takes so many bytes of the answer to the small text, and then fails.
fn check_writer<R: Threads + Sync + Abort + AllocGlobal>(
    rt: &R,
    queried: Queried<'_>,
    answer: &str,
    left: usize,
) -> Result<(), Fail> {
    let beginning = answer.as_bytes().get(..left).ok_or("a beginning")?;
    let mut page = blank_page(rt.alloc());
    page.left = left;
    page.fault = Some(ErrorKind::Other);
    let got = output_of(rt, small::TEXT.as_bytes(), &mut page, queried, ALONE)?;
    assert_eq!(rt; page.taken.as_slice(), beginning);
    assert!(rt; got.as_slice().starts_with(b"tacview: write fault\n"));
    Ok(())
}

#[test]
fn faults_of_writers(rt: HostRuntime) -> Result<(), Fail> {
    for left in &[0, 1, 100, SMALL_GRAPH.len() - 1] {
        check_writer(&rt, GRAPH, SMALL_GRAPH, *left)?;
    }
    for left in &[0, 1, 100, SMALL_LINES.len() - 1] {
        check_writer(&rt, LINES, SMALL_LINES, *left)?;
    }
    for left in &[0, 1, 60, SMALL_REPORT.len() - 1] {
        check_writer(&rt, REPORT, SMALL_REPORT, *left)?;
    }
    Ok(())
}

const FAULTS: &[(Option<&str>, Option<&str>, Fault, &str)] = &[
    (
        None,
        None,
        Fault::Graph(GraphFault::TooManyBits),
        "tacview: refusal 22: TooManyBits\n",
    ),
    (
        Some("f"),
        Some("3"),
        Fault::OutOfMemory,
        "tacview: out of memory\n",
    ),
    (Some("f"), None, Fault::Read, "tacview: read fault\n"),
    (None, None, Fault::Write, "tacview: write fault\n"),
    (
        None,
        Some("3"),
        Fault::NoProcedure,
        "tacview: no such procedure\n",
    ),
    (
        Some("f\n"),
        None,
        Fault::LargeProcedure,
        "tacview: the procedure f\\x0a has more than 200 points: --steps shows at most 200\n",
    ),
    (
        None,
        None,
        Fault::LargeProcedure,
        "tacview: the procedure is too large\n",
    ),
    (
        Some("f"),
        None,
        Fault::NoRemark,
        "tacview: no such remark\n",
    ),
    (
        Some("f"),
        Some("3:\n"),
        Fault::NoRemark,
        "tacview: no variable may be used before it is set at 3:\\x0a\n",
    ),
    (
        Some(" ~\u{7f}\t"),
        None,
        Fault::NoProcedure,
        "tacview: the program has no procedure  ~\\x7f\\x09\n",
    ),
];

#[test]
fn lines_of_faults(rt: HostRuntime) -> Result<(), Fail> {
    for (procedure, because, fault, wanted) in FAULTS {
        let asked = asked(rt.alloc(), *procedure, *because).ok_or("memory")?;
        let line = line_of(rt.alloc(), &asked, fault)?;
        assert_eq!(rt; line.as_slice(), wanted.as_bytes());
    }
    Ok(())
}

// Numbers of workers and widths of slices that are taken, and others that are not.
const IN_RANGE: &[(u32, u32)] = &[(1, 1), (64, 4096), (1, 4096), (64, 1)];

const OUT_OF_RANGE: &[(u32, u32)] = &[(0, 64), (65, 64), (1, 0), (1, 4097), (u32::MAX, 64)];

#[test]
fn ranges_of_options(rt: HostRuntime) {
    for team in IN_RANGE {
        assert!(rt; options(rt.alloc(), GRAPH, *team).is_some());
    }
    for team in OUT_OF_RANGE {
        assert!(rt; options(rt.alloc(), GRAPH, *team).is_none());
    }
}
