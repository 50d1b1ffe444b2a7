// Both texts of small programs, by hand.

use dot_texts::DotText;
use flow_graph::Graph;
use flow_team::{OpenGate, Team};
use flow_views::{Chosen, Look, View, ViewTables};
use json_texts::JsonText;
use report_answers::ReportAnswers;
use source_lines::SourcedText;
use std::alloc::Global;
use std::process::Abort;
use std::test::Fail;
use std::thread::Threads;
use tac_reader::{Program, read};
use test_support::failing_streams::{Page, blank_page};
use test_support::worked_programs::{factorial, remarks};
use text_pieces::{ToWrite, deliver};

// Which text.
#[derive(Clone, Copy)]
enum Format {
    Dot,
    Json,
}

// Writes a text of a graph, of all procedures where there is none with that number; the answer says whether all of it was taken.
fn write_graph<R: Threads + Sync>(
    rt: &R,
    alloc: Global,
    graph: &Graph<'_>,
    format: Format,
    view: View,
    page: &mut Page,
) -> Result<bool, Fail> {
    let team = Team {
        rt,
        gate: &OpenGate,
        workers: 1,
        cut: 64,
    };
    let answers = ReportAnswers::of(&team, alloc, graph)?;
    let count = graph.program().procs().len();
    let view = View {
        facts: view.facts,
        procedure: match view.procedure {
            Some(procedure) if (procedure as usize) < count => Some(procedure),
            _ => None,
        },
        look: view.look,
    };
    let tables = ViewTables::of(&team, alloc, graph, view)?;
    let mut sink = ToWrite::new(page);
    match format {
        Format::Dot => {
            let text = DotText::of(alloc, graph, &tables, &answers, view)?;
            Ok(deliver(alloc, &text, &mut sink).is_ok())
        },
        Format::Json => {
            let lines = JsonText::of(alloc, graph, &tables, &answers, view)?;
            let text = SourcedText {
                source: b"",
                lines: &lines,
            };
            Ok(deliver(alloc, &text, &mut sink).is_ok())
        },
    }
}

fn write_program<R: Threads + Sync>(
    rt: &R,
    alloc: Global,
    program: &Program,
    format: Format,
    view: View,
    page: &mut Page,
) -> Result<bool, Fail> {
    let graph = Graph::build(alloc, program)?;
    write_graph(rt, alloc, &graph, format, view, page)
}

// The text of a program.
fn text_of<R: Threads + Sync + AllocGlobal>(
    rt: &R,
    text: &str,
    format: Format,
    view: View,
) -> Result<Vec<u8>, Fail> {
    let alloc = rt.alloc();
    let mut page = blank_page(alloc);
    let program = read(alloc, text.as_bytes())?;
    if write_program(rt, alloc, &program, format, view, &mut page)? {
        Ok(page.taken)
    } else {
        Err(Fail::from("a fault of the page"))
    }
}

// Whether a text has another one in it.
fn contains(text: &[u8], part: &[u8]) -> bool {
    for first in 0..text.len() {
        if text[first..].starts_with(part) {
            return true;
        }
    }
    false
}

const PLAIN: Look = Look {
    hides_entry: false,
    behind: false,
    hovers: false,
    legend: false,
    changes: false,
};

const NO_FACTS: View = View {
    facts: Chosen {
        reach: false,
        live: false,
        avail: false,
        busy: false,
    },
    procedure: None,
    look: PLAIN,
};

// A picture of a program with each kind of remark.
#[test]
fn picture_of_remarks(rt: HostRuntime) -> Result<(), Fail> {
    let got = text_of(&rt, remarks::TEXT, Format::Dot, NO_FACTS)?;
    let wanted: &[u8] = b"digraph \"tacflow\" {\n  graph [fontname=\"monospace\", labeljust=l];\n  \
        node [shape=box, fontname=\"monospace\", fontsize=11];\n  \
        edge [class=\"step\", fontname=\"monospace\", fontsize=10];\n  subgraph \"cluster_0\" {\n    \
        id=\"procedure0\";\n    class=\"procedure\";\n    label=\"main\";\n    \
        0 [id=\"point0\", class=\"point\", label=\"3: read a\\l\"];\n    1 [id=\"point1\", class=\"point\", label=\"4: read b\\l\"];\n    \
        2 [id=\"point2\", class=\"point\", label=\"5: x = a + b\\l\"];\n    \
        3 [id=\"point3\", class=\"point\", label=\"6: y = a + b\\la + b is already computed\\l\"];\n    \
        4 [id=\"point4\", class=\"point\", label=\"7: if x < y goto larger\\la * b is very busy\\l\"];\n    \
        5 [id=\"point5\", class=\"point\", label=\"8: z = a * b\\l\"];\n    6 [id=\"point6\", class=\"point\", label=\"9: goto shown\\l\"];\n    \
        7 [id=\"point7\", class=\"point\", label=\"larger:\\l11: z = a * b\\l\"];\n    \
        8 [id=\"point8\", class=\"point dead\", label=\"12: x = 0\\lassignment to x is dead\\l\", style=filled, fillcolor=khaki];\n    \
        9 [id=\"point9\", class=\"point\", label=\"shown:\\l14: print z\\l\"];\n    \
        10 [id=\"point10\", class=\"point unset\", label=\"15: print count\\lcount may be used before it is set\\l\", color=red, fontcolor=red];\n    \
        11 [id=\"point11\", class=\"point\", label=\"16: return\\l\"];\n    \
        12 [id=\"point12\", class=\"point unreached\", label=\"17: print y\\lnever reached\\l\", style=filled, fillcolor=grey80];\n    \
        13 [id=\"point13\", class=\"point\", label=\"end of main\\l\"];\n  }\n  0 -> 1;\n  1 -> 2;\n  2 -> 3;\n  3 -> 4;\n  4 -> 5 [label=\"F\"];\n  \
        4 -> 7 [label=\"T\"];\n  5 -> 6;\n  6 -> 9;\n  7 -> 8;\n  8 -> 9;\n  9 -> 10;\n  10 -> 11;\n  11 -> 13;\n  12 -> 13;\n}\n";
    assert_eq!(rt; got.as_slice(), wanted);
    Ok(())
}

// All facts on both sides of each statement, without the values at the beginning. Of the two ways to line 8 one sets `x` anew.
const BOTH_SIDES: &str =
    "proc main\nread x\nread y\nif x < y goto M\nz = x + y\nx = z\nM:\nprint x\nend\n";

#[test]
fn picture_of_both_sides(rt: HostRuntime) -> Result<(), Fail> {
    let view = View {
        facts: Chosen {
            reach: true,
            live: true,
            avail: true,
            busy: true,
        },
        procedure: None,
        look: Look {
            hides_entry: true,
            behind: true,
            hovers: false,
            legend: false,
            changes: false,
        },
    };
    let got = text_of(&rt, BOTH_SIDES, Format::Dot, view)?;
    let wanted: &[u8] = b"digraph \"tacflow\" {\n  graph [fontname=\"monospace\", labeljust=l];\n  \
        node [shape=box, fontname=\"monospace\", fontsize=11];\n  \
        edge [class=\"step\", fontname=\"monospace\", fontsize=10];\n  subgraph \"cluster_0\" {\n    \
        id=\"procedure0\";\n    class=\"procedure\";\n    label=\"main\";\n    \
        0 [id=\"point0\", class=\"point\", label=\"2: read x\\lreach: -\\lreach behind: x@2\\llive: -\\llive behind: x\\l\
        avail: -\\lavail behind: -\\lbusy: -\\lbusy behind: -\\l\"];\n    \
        1 [id=\"point1\", class=\"point\", label=\"3: read y\\lreach: x@2\\lreach behind: x@2, y@3\\llive: x\\llive behind: x, y\\l\
        avail: -\\lavail behind: -\\lbusy: -\\lbusy behind: -\\l\"];\n    \
        2 [id=\"point2\", class=\"point\", label=\"4: if x < y goto M\\lreach: x@2, y@3\\lreach behind: x@2, y@3\\llive: x, y\\llive behind: x, y\\l\
        avail: -\\lavail behind: -\\lbusy: -\\lbusy behind: -\\l\"];\n    \
        3 [id=\"point3\", class=\"point\", label=\"5: z = x + y\\lreach: x@2, y@3\\lreach behind: x@2, y@3, z@5\\llive: x, y\\llive behind: z\\l\
        avail: -\\lavail behind: x + y\\lbusy: x + y\\lbusy behind: -\\l\"];\n    \
        4 [id=\"point4\", class=\"point\", label=\"6: x = z\\lreach: x@2, y@3, z@5\\lreach behind: y@3, z@5, x@6\\llive: z\\llive behind: x\\l\
        avail: x + y\\lavail behind: -\\lbusy: -\\lbusy behind: -\\l\"];\n    \
        5 [id=\"point5\", class=\"point\", label=\"M:\\l8: print x\\lreach: x@2, y@3, z@5, x@6\\lreach behind: x@2, y@3, z@5, x@6\\llive: x\\llive behind: -\\l\
        avail: -\\lavail behind: -\\lbusy: -\\lbusy behind: -\\l\"];\n    \
        6 [id=\"point6\", class=\"point\", label=\"end of main\\lreach: x@2, y@3, z@5, x@6\\llive: -\\lavail: -\\lbusy: -\\l\"];\n  }\n  \
        0 -> 1;\n  1 -> 2;\n  2 -> 3 [label=\"F\"];\n  2 -> 5 [label=\"T\"];\n  3 -> 4;\n  4 -> 5;\n  5 -> 6;\n}\n";
    assert_eq!(rt; got.as_slice(), wanted);
    Ok(())
}

// Figure 9.13 of Aho, Lam, Sethi, Ullman, Compilers, 2nd edition, with names of our own.
const TEXTBOOK: &str =
    "proc main\nleft = 0\nright = 9\nkey = 1\nagain:\nleft = left + 1\nright = right - 1\nif left < right goto keep\n\
    key = 2\nkeep:\nleft = 3\nif key < right goto again\nend\n";

// What comes and what goes there, from point to point and through each statement, without the values at the beginning.
#[test]
fn picture_of_changes(rt: HostRuntime) -> Result<(), Fail> {
    let view = View {
        facts: Chosen {
            reach: true,
            live: false,
            avail: false,
            busy: false,
        },
        procedure: None,
        look: Look {
            hides_entry: true,
            behind: true,
            hovers: false,
            legend: false,
            changes: true,
        },
    };
    let got = text_of(&rt, TEXTBOOK, Format::Dot, view)?;
    let wanted: &[u8] = b"digraph \"tacflow\" {\n  graph [fontname=\"monospace\", labeljust=l];\n  \
        node [shape=box, fontname=\"monospace\", fontsize=11];\n  \
        edge [class=\"step\", fontname=\"monospace\", fontsize=10];\n  subgraph \"cluster_0\" {\n    \
        id=\"procedure0\";\n    class=\"procedure\";\n    label=\"main\";\n    \
        0 [id=\"point0\", class=\"point\", label=\"2: left = 0\\lreach came behind: left@2\\l\"];\n    \
        1 [id=\"point1\", class=\"point\", label=\"3: right = 9\\lreach came: left@2\\lreach came behind: right@3\\l\"];\n    \
        2 [id=\"point2\", class=\"point\", label=\"4: key = 1\\lreach came: right@3\\lreach came behind: key@4\\l\"];\n    \
        3 [id=\"point3\", class=\"point\", label=\"again:\\l6: left = left + 1\\lreach came: key@4, right@7, key@9, left@11\\l\
        reach came behind: left@6\\lreach went behind: left@2, left@11\\l\"];\n    \
        4 [id=\"point4\", class=\"point\", label=\"7: right = right - 1\\lreach came: left@6\\lreach went: left@2, left@11\\l\
        reach went behind: right@3\\l\"];\n    \
        5 [id=\"point5\", class=\"point\", label=\"8: if left < right goto keep\\lreach went: right@3\\l\"];\n    \
        6 [id=\"point6\", class=\"point\", label=\"9: key = 2\\lreach went behind: key@4\\l\"];\n    \
        7 [id=\"point7\", class=\"point\", label=\"keep:\\l11: left = 3\\lreach came behind: left@11\\lreach went behind: left@6\\l\"];\n    \
        8 [id=\"point8\", class=\"point\", label=\"12: if key < right goto again\\lreach came: left@11\\lreach went: left@6\\l\"];\n    \
        9 [id=\"point9\", class=\"point\", label=\"end of main\\l\"];\n  }\n  \
        0 -> 1;\n  1 -> 2;\n  2 -> 3;\n  3 -> 4;\n  4 -> 5;\n  5 -> 6 [label=\"F\"];\n  5 -> 7 [label=\"T\"];\n  \
        6 -> 7;\n  7 -> 8;\n  8 -> 9 [label=\"F\"];\n  8 -> 3 [label=\"T\"];\n}\n";
    assert_eq!(rt; got.as_slice(), wanted);
    Ok(())
}

// What comes at a procedure's first point is all that holds there, in lines; what goes; and a legend of changes.
#[test]
fn picture_of_long_changes(rt: HostRuntime) -> Result<(), Fail> {
    let view = View {
        facts: Chosen {
            reach: false,
            live: true,
            avail: false,
            busy: false,
        },
        procedure: Some(0),
        look: Look {
            hides_entry: false,
            behind: false,
            hovers: true,
            legend: true,
            changes: true,
        },
    };
    let got = text_of(&rt, LONG_SETS, Format::Dot, view)?;
    let nodes: &[u8] =
        b"    0 [id=\"point0\", class=\"point\", label=\"2: read aaaaaaaaaaaaaaaaaa\\l\", \
        tooltip=\"live came: bbbbbbbbbbbbbbbbbb, ccccccccccccc,\\l  dddddddddddddddddddddddddddddddddddddddddddddddddddddddddddddddd,\\l  e\\l\"];\n    \
        1 [id=\"point1\", class=\"point\", label=\"3: call f\\l\", tooltip=\"live came: aaaaaaaaaaaaaaaaaa\\l\"];\n    \
        2 [id=\"point2\", class=\"point\", label=\"end of main\\l\", tooltip=\"live went: aaaaaaaaaaaaaaaaaa, bbbbbbbbbbbbbbbbbb,\\l  \
        ccccccccccccc,\\l  dddddddddddddddddddddddddddddddddddddddddddddddddddddddddddddddd,\\l  e\\l\"];\n  }\n  \
        0 -> 1;\n  1 -> 2 [class=\"passed\", style=dotted, arrowhead=none];\n  subgraph \"cluster_legend\" {\n    \
        id=\"legend\";\n    class=\"legend\";\n    label=\"Legend\";\n    node [class=\"legend\"];\n    edge [class=\"legend\"];\n    \
        legend0 [label=\"LABEL:\\lLINE: STATEMENT\\lremarks\\lANALYSIS came: what holds here and not at the point before\\l\
        ANALYSIS went: what holds there and not here\\lANALYSIS came behind: what holds behind it and not before it\\l\
        ANALYSIS went behind: what holds before it and not behind it\\l\"];\n    legend1 [label=\"never reached\",";
    let legend: &[u8] =
        b"    legend5 -> legend6 [style=dotted, arrowhead=none];\n    legend6 -> legend7 [style=dashed, color=grey60];\n  }\n}\n";
    assert!(rt; contains(got.as_slice(), nodes));
    assert!(rt; got.ends_with(legend));
    Ok(())
}

// A name that ends where a line does, one that is longer than a line, and one more. The facts stand in tooltips, and a legend behind them.
const LONG_SETS: &str =
    "proc main\nread aaaaaaaaaaaaaaaaaa\ncall f\nend\nproc f\nprint aaaaaaaaaaaaaaaaaa\nprint bbbbbbbbbbbbbbbbbb\nprint ccccccccccccc\n\
    print dddddddddddddddddddddddddddddddddddddddddddddddddddddddddddddddd\nprint e\nend\n";

#[test]
fn picture_of_long_sets(rt: HostRuntime) -> Result<(), Fail> {
    let view = View {
        facts: Chosen {
            reach: false,
            live: true,
            avail: false,
            busy: false,
        },
        procedure: Some(0),
        look: Look {
            hides_entry: false,
            behind: false,
            hovers: true,
            legend: true,
            changes: false,
        },
    };
    let got = text_of(&rt, LONG_SETS, Format::Dot, view)?;
    let first: &[u8] = b"digraph \"tacflow\" {\n  graph [fontname=\"monospace\", labeljust=l];\n  \
        node [shape=box, fontname=\"monospace\", fontsize=11];\n  \
        edge [class=\"step\", fontname=\"monospace\", fontsize=10];\n  subgraph \"cluster_0\" {\n    \
        id=\"procedure0\";\n    class=\"procedure\";\n    label=\"main\";\n    \
        0 [id=\"point0\", class=\"point\", label=\"2: read aaaaaaaaaaaaaaaaaa\\l\", \
        tooltip=\"live: bbbbbbbbbbbbbbbbbb, ccccccccccccc,\\l  dddddddddddddddddddddddddddddddddddddddddddddddddddddddddddddddd,\\l  e\\l\"];\n    \
        1 [id=\"point1\", class=\"point\", label=\"3: call f\\l\", tooltip=\"live: aaaaaaaaaaaaaaaaaa, bbbbbbbbbbbbbbbbbb, ccccccccccccc,\\l  \
        dddddddddddddddddddddddddddddddddddddddddddddddddddddddddddddddd,\\l  e\\l\"];\n    \
        2 [id=\"point2\", class=\"point\", label=\"end of main\\l\", tooltip=\"live: -\\l\"];\n  }\n  \
        0 -> 1;\n  1 -> 2 [class=\"passed\", style=dotted, arrowhead=none];\n  subgraph \"cluster_legend\" {\n";
    let legend: &[u8] =
        b"    legend5 -> legend6 [style=dotted, arrowhead=none];\n    legend6 -> legend7 [style=dashed, color=grey60];\n  }\n}\n";
    assert!(rt; got.starts_with(first));
    assert!(rt; got.ends_with(legend));
    Ok(())
}

// The first line and the remarks of that program.
#[test]
fn lines_of_remarks(rt: HostRuntime) -> Result<(), Fail> {
    let got = text_of(&rt, remarks::TEXT, Format::Json, NO_FACTS)?;
    let first: &[u8] =
        b"{\"type\":\"program\",\"version\":1,\"points\":14,\"procedures\":[\"main\"],\"variables\":[\"a\",\"b\",\"x\",\"y\",\"z\",\"count\"],\"definitions\":13,\
        \"expressions\":2}\n";
    let last: &[u8] =
        b"{\"type\":\"remark\",\"point\":3,\"line\":6,\"first\":92,\"last\":100,\"kind\":\"computed\",\"expression\":\"a + b\"}\n\
        {\"type\":\"remark\",\"point\":4,\"line\":7,\"first\":140,\"last\":159,\"kind\":\"busy\",\"expression\":\"a * b\"}\n\
        {\"type\":\"remark\",\"point\":8,\"line\":12,\"first\":244,\"last\":248,\"kind\":\"dead\",\"variable\":\"x\"}\n\
        {\"type\":\"remark\",\"point\":10,\"line\":15,\"first\":318,\"last\":328,\"kind\":\"unset\",\"variable\":\"count\"}\n\
        {\"type\":\"remark\",\"point\":12,\"line\":17,\"first\":365,\"last\":371,\"kind\":\"never_reached\"}\n\
        {\"type\":\"end\",\"points\":14}\n";
    assert!(rt; got.starts_with(first));
    assert!(rt; got.ends_with(last));
    Ok(())
}

// A procedure that calls itself, alone, with two analyses.
#[test]
fn lines_of_recursion(rt: HostRuntime) -> Result<(), Fail> {
    let view = View {
        facts: Chosen {
            reach: true,
            live: true,
            avail: false,
            busy: false,
        },
        procedure: Some(1),
        look: PLAIN,
    };
    let got = text_of(&rt, factorial::TEXT, Format::Json, view)?;
    let wanted: &[u8] =
        b"{\"type\":\"program\",\"version\":1,\"points\":10,\"procedures\":[\"main\",\"factorial\"],\"variables\":[\"n\",\"result\"],\"definitions\":6,\
        \"expressions\":2}\n\
        {\"type\":\"point\",\"point\":5,\"procedure\":\"factorial\",\"place\":0,\"line\":10,\"first\":135,\"last\":153,\"labels\":[],\"statement\":\"if n <= 1 \
        goto base\",\"doubtful\":false,\"edges\":[{\"kind\":\"step\",\"to\":6,\"when\":false},{\"kind\":\"step\",\"to\":9,\"when\":true}],\"reach\":{\"path\":true,\"bits\":[2,3,4,5],\
        \"names\":[\"n@3\",\"result@4\",\"result@11\",\"n@12\"]},\"live\":{\"path\":true,\"bits\":[0,1],\"names\":[\"n\",\"result\"]}}\n\
        {\"type\":\"point\",\"point\":6,\"procedure\":\"factorial\",\"place\":1,\"line\":11,\"first\":157,\"last\":175,\"labels\":[],\"statement\":\"result = \
        result * n\",\"doubtful\":false,\"edges\":[{\"kind\":\"step\",\"to\":7}],\"reach\":{\"path\":true,\"bits\":[2,3,4,5],\"names\":[\"n@3\",\"result@4\",\
        \"result@11\",\"n@12\"]},\"live\":{\"path\":true,\"bits\":[0,1],\"names\":[\"n\",\"result\"]}}\n\
        {\"type\":\"point\",\"point\":7,\"procedure\":\"factorial\",\"place\":2,\"line\":12,\"first\":179,\"last\":187,\"labels\":[],\"statement\":\"n = n - 1\",\
        \"doubtful\":false,\"edges\":[{\"kind\":\"step\",\"to\":8}],\"reach\":{\"path\":true,\"bits\":[2,4,5],\"names\":[\"n@3\",\"result@11\",\"n@12\"]},\
        \"live\":{\"path\":true,\"bits\":[0,1],\"names\":[\"n\",\"result\"]}}\n\
        {\"type\":\"point\",\"point\":8,\"procedure\":\"factorial\",\"place\":3,\"line\":13,\"first\":191,\"last\":204,\"labels\":[],\"statement\":\"call \
        factorial\",\"doubtful\":false,\"edges\":[{\"kind\":\"call\",\"site\":8,\"to\":5}],\"reach\":{\"path\":true,\"bits\":[4,5],\"names\":[\"result@11\",\"n@12\"]},\
        \"live\":{\"path\":true,\"bits\":[0,1],\"names\":[\"n\",\"result\"]}}\n\
        {\"type\":\"point\",\"point\":9,\"procedure\":\"factorial\",\"place\":4,\"line\":null,\"first\":null,\"last\":null,\"labels\":[\"base\"],\"statement\":null,\
        \"doubtful\":false,\"edges\":[{\"kind\":\"return\",\"site\":2,\"to\":3},{\"kind\":\"return\",\"site\":8,\"to\":9}],\"reach\":{\"path\":true,\"bits\":[2,3,4,5],\
        \"names\":[\"n@3\",\"result@4\",\"result@11\",\"n@12\"]},\"live\":{\"path\":true,\"bits\":[1],\"names\":[\"result\"]}}\n\
        {\"type\":\"end\",\"points\":5}\n";
    assert_eq!(rt; got.as_slice(), wanted);
    Ok(())
}
