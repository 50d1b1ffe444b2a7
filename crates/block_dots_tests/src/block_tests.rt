// Pictures of the blocks of small programs, by hand.

use block_dots::BlockDotText;
use flow_graph::Graph;
use flow_team::{OpenGate, Team};
use flow_views::{Chosen, Look, View, ViewTables};
use report_answers::ReportAnswers;
use std::alloc::Global;
use std::process::Abort;
use std::test::Fail;
use std::thread::Threads;
use tac_reader::{Program, read};
use test_support::failing_streams::{Page, blank_page};
use text_pieces::{ToWrite, deliver};

// Writes the picture of a graph, of all procedures where there is none with that number; the answer says whether all of it was taken.
fn write_graph<R: Threads + Sync>(
    rt: &R,
    alloc: Global,
    graph: &Graph<'_>,
    view: View,
    page: &mut Page,
) -> Result<bool, Fail> {
    let team = Team {
        rt,
        gate: &OpenGate,
        workers: 1,
        cut: 64,
    };
    let answers = ReportAnswers::of(&team, alloc, graph)?;
    let count = graph.program().procs().len();
    let view = View {
        facts: view.facts,
        procedure: match view.procedure {
            Some(procedure) if (procedure as usize) < count => Some(procedure),
            _ => None,
        },
        look: view.look,
    };
    let tables = ViewTables::of(&team, alloc, graph, view)?;
    let mut sink = ToWrite::new(page);
    let text = BlockDotText::of(alloc, graph, &tables, &answers, view)?;
    Ok(deliver(alloc, &text, &mut sink).is_ok())
}

fn write_program<R: Threads + Sync>(
    rt: &R,
    alloc: Global,
    program: &Program,
    view: View,
    page: &mut Page,
) -> Result<bool, Fail> {
    let graph = Graph::build(alloc, program)?;
    write_graph(rt, alloc, &graph, view, page)
}

// The picture of a program.
fn picture_of<R: Threads + Sync + AllocGlobal>(
    rt: &R,
    text: &str,
    view: View,
) -> Result<Vec<u8>, Fail> {
    let alloc = rt.alloc();
    let mut page = blank_page(alloc);
    let program = read(alloc, text.as_bytes())?;
    if write_program(rt, alloc, &program, view, &mut page)? {
        Ok(page.taken)
    } else {
        Err(Fail::from("a fault of the page"))
    }
}

// Whether a text has another one in it.
fn contains(text: &[u8], part: &[u8]) -> bool {
    for first in 0..text.len() {
        if text[first..].starts_with(part) {
            return true;
        }
    }
    false
}

const NO_FACTS: Chosen = Chosen {
    reach: false,
    live: false,
    avail: false,
    busy: false,
};

const REACH: Chosen = Chosen {
    reach: true,
    live: false,
    avail: false,
    busy: false,
};

const ALL_FACTS: Chosen = Chosen {
    reach: true,
    live: true,
    avail: true,
    busy: true,
};

// Without the values at the beginning.
const WITHOUT_ENTRY: Look = Look {
    hides_entry: true,
    behind: false,
    hovers: false,
    legend: false,
    changes: false,
};

// Figure 9.13 of Aho, Lam, Sethi, Ullman, Compilers, 2nd edition, with names of our own: d1 to d7 stand in lines 2, 3, 4, 6, 7, 9 and 11.
const TEXTBOOK: &str =
    "proc main\nleft = 0\nright = 9\nkey = 1\nagain:\nleft = left + 1\nright = right - 1\nif left < right goto keep\n\
    key = 2\nkeep:\nleft = 3\nif key < right goto again\nend\n";

// The book's gen and kill (figure 9.13), IN and OUT (figure 9.15).
#[test]
fn blocks_of_the_textbook(rt: HostRuntime) -> Result<(), Fail> {
    let view = View {
        facts: REACH,
        procedure: None,
        look: WITHOUT_ENTRY,
    };
    let got = picture_of(&rt, TEXTBOOK, view)?;
    let wanted: &[u8] = b"digraph \"tacflow\" {\n  graph [fontname=\"monospace\", labeljust=l];\n  \
        node [shape=box, fontname=\"monospace\", fontsize=11];\n  \
        edge [class=\"step\", fontname=\"monospace\", fontsize=10];\n  subgraph \"cluster_0\" {\n    \
        id=\"procedure0\";\n    class=\"procedure\";\n    label=\"main\";\n    \
        0 [id=\"block0\", class=\"block\", label=\"2: left = 0\\l3: right = 9\\l4: key = 1\\l\
        reach gen: left@2, right@3, key@4\\lreach kill: left@6, right@7, key@9, left@11\\lreach IN: -\\l\
        reach OUT: left@2, right@3, key@4\\l\"];\n    \
        3 [id=\"block3\", class=\"block\", label=\"again:\\l6: left = left + 1\\l7: right = right - 1\\l8: if left < right goto keep\\l\
        reach gen: left@6, right@7\\lreach kill: left@2, right@3, left@11\\l\
        reach IN: left@2, right@3, key@4, right@7, key@9, left@11\\lreach OUT: key@4, left@6, right@7, key@9\\l\"];\n    \
        6 [id=\"block6\", class=\"block\", label=\"9: key = 2\\lreach gen: key@9\\lreach kill: key@4\\l\
        reach IN: key@4, left@6, right@7, key@9\\lreach OUT: left@6, right@7, key@9\\l\"];\n    \
        7 [id=\"block7\", class=\"block\", label=\"keep:\\l11: left = 3\\l12: if key < right goto again\\l\
        reach gen: left@11\\lreach kill: left@2, left@6\\l\
        reach IN: key@4, left@6, right@7, key@9\\lreach OUT: key@4, right@7, key@9, left@11\\l\"];\n    \
        9 [id=\"block9\", class=\"block\", label=\"end of main\\lreach IN: key@4, right@7, key@9, left@11\\l\"];\n  }\n  \
        0 -> 3;\n  3 -> 6 [label=\"F\"];\n  3 -> 7 [label=\"T\"];\n  6 -> 7;\n  7 -> 9 [label=\"F\"];\n  7 -> 3 [label=\"T\"];\n}\n";
    assert_eq!(rt; got.as_slice(), wanted);
    Ok(())
}

// A block with two definitions of `y`, in all analyses, behind a call: the first definition is not in gen, and both are in kill.
const CALLS: &str =
    "proc main\nread a\ncall f\ny = a + 1\nz = y + 1\ny = 2\nprint z\nprint b\nend\nproc f\nend\n";

#[test]
fn blocks_around_a_call(rt: HostRuntime) -> Result<(), Fail> {
    let view = View {
        facts: ALL_FACTS,
        procedure: None,
        look: WITHOUT_ENTRY,
    };
    let got = picture_of(&rt, CALLS, view)?;
    let wanted: &[u8] = b"digraph \"tacflow\" {\n  graph [fontname=\"monospace\", labeljust=l];\n  \
        node [shape=box, fontname=\"monospace\", fontsize=11];\n  \
        edge [class=\"step\", fontname=\"monospace\", fontsize=10];\n  subgraph \"cluster_0\" {\n    \
        id=\"procedure0\";\n    class=\"procedure\";\n    label=\"main\";\n    \
        0 [id=\"block0\", class=\"block\", label=\"2: read a\\l\
        reach gen: a@2\\lreach kill: -\\lreach IN: -\\lreach OUT: a@2\\l\
        live gen: -\\llive kill: a\\llive IN: b\\llive OUT: a, b\\l\
        avail gen: -\\lavail kill: a + 1\\lavail IN: -\\lavail OUT: -\\l\
        busy gen: -\\lbusy kill: a + 1\\lbusy IN: -\\lbusy OUT: a + 1\\l\"];\n    \
        1 [id=\"block1\", class=\"block\", label=\"3: call f\\lreach IN: a@2\\llive IN: a, b\\lavail IN: -\\lbusy IN: a + 1\\l\"];\n    \
        2 [id=\"block2\", class=\"block unset dead\", label=\"4: y = a + 1\\l5: z = y + 1\\l6: y = 2\\lassignment to y is dead\\l\
        7: print z\\l8: print b\\lb may be used before it is set\\l\
        reach gen: z@5, y@6\\lreach kill: y@4, y@6\\lreach IN: a@2\\lreach OUT: a@2, z@5, y@6\\l\
        live gen: a, b\\llive kill: y, z\\llive IN: a, b\\llive OUT: -\\l\
        avail gen: a + 1\\lavail kill: y + 1\\lavail IN: -\\lavail OUT: a + 1\\l\
        busy gen: a + 1\\lbusy kill: y + 1\\lbusy IN: a + 1\\lbusy OUT: -\\l\
        \", color=red, fontcolor=red, style=filled, fillcolor=khaki];\n    \
        7 [id=\"block7\", class=\"block\", label=\"end of main\\lreach IN: a@2, z@5, y@6\\llive IN: -\\lavail IN: a + 1\\lbusy IN: -\\l\"];\n  }\n  \
        subgraph \"cluster_1\" {\n    id=\"procedure1\";\n    class=\"procedure\";\n    label=\"f\";\n    \
        8 [id=\"block8\", class=\"block\", label=\"end of f\\lreach IN: a@2\\llive IN: a, b\\lavail IN: -\\lbusy IN: a + 1\\l\"];\n  }\n  \
        0 -> 1;\n  \
        1 -> 8 [class=\"call\", style=dashed, color=grey60, fontcolor=grey40, constraint=false, xlabel=\"call 3\"];\n  \
        1 -> 2 [class=\"passed\", style=dotted, arrowhead=none];\n  2 -> 7;\n  \
        8 -> 2 [class=\"return\", style=dashed, color=grey60, fontcolor=grey40, constraint=false, xlabel=\"return 3\"];\n}\n";
    assert_eq!(rt; got.as_slice(), wanted);
    Ok(())
}

// Two labels at one point, a test whose two targets are one, and an end with a label. A test ends its block even so.
const LABELS: &str =
    "proc main\nread x\nif x goto L\nL:\nM:\nprint x\nif x goto E\nskip\nE:\nend\n";

#[test]
fn blocks_between_labels(rt: HostRuntime) -> Result<(), Fail> {
    let view = View {
        facts: NO_FACTS,
        procedure: None,
        look: WITHOUT_ENTRY,
    };
    let got = picture_of(&rt, LABELS, view)?;
    let nodes: &[u8] =
        b"    0 [id=\"block0\", class=\"block\", label=\"2: read x\\l3: if x goto L\\l\"];\n    \
        2 [id=\"block2\", class=\"block\", label=\"L:\\lM:\\l6: print x\\l7: if x goto E\\l\"];\n    \
        4 [id=\"block4\", class=\"block\", label=\"8: skip\\l\"];\n    \
        5 [id=\"block5\", class=\"block\", label=\"E:\\lend of main\\l\"];\n  }\n  \
        0 -> 2;\n  2 -> 4 [label=\"F\"];\n  2 -> 5 [label=\"T\"];\n  4 -> 5;\n}\n";
    assert!(rt; got.ends_with(nodes));
    Ok(())
}

// Statements that control does not reach: what they generate reaches nothing. Of one procedure, with the sets in tooltips, and a legend.
const UNREACHED: &str = "proc main\ngoto E\nx = 1\nprint x\nE:\nend\n";

#[test]
fn blocks_that_are_not_reached(rt: HostRuntime) -> Result<(), Fail> {
    let view = View {
        facts: REACH,
        procedure: Some(0),
        look: Look {
            hides_entry: true,
            behind: false,
            hovers: true,
            legend: true,
            changes: false,
        },
    };
    let got = picture_of(&rt, UNREACHED, view)?;
    let nodes: &[u8] = b"    0 [id=\"block0\", class=\"block\", label=\"2: goto E\\l\", \
        tooltip=\"reach gen: -\\lreach kill: -\\lreach IN: -\\lreach OUT: -\\l\"];\n    \
        1 [id=\"block1\", class=\"block unreached\", label=\"3: x = 1\\lnever reached\\l4: print x\\lnever reached\\l\", \
        tooltip=\"reach gen: x@3\\lreach kill: -\\lreach IN: -\\lreach OUT: -\\l\", style=filled, fillcolor=grey80];\n    \
        3 [id=\"block3\", class=\"block\", label=\"E:\\lend of main\\l\", tooltip=\"reach IN: -\\l\"];\n  }\n  0 -> 3;\n  1 -> 3;\n  \
        subgraph \"cluster_legend\" {\n    id=\"legend\";\n    class=\"legend\";\n    label=\"Legend\";\n    node [class=\"legend\"];\n    \
        edge [class=\"legend\"];\n    legend0 [label=\"LABEL:\\lLINE: STATEMENT\\lremarks\\l\
        ANALYSIS gen: what it generates and does not kill beyond\\lANALYSIS kill: what its statements kill\\l\
        ANALYSIS IN: what holds before it\\lANALYSIS OUT: what holds behind it\\l\"];\n    legend1 [label=\"never reached\",";
    let legend: &[u8] =
        b"    legend5 -> legend6 [style=dotted, arrowhead=none];\n    legend6 -> legend7 [style=dashed, color=grey60];\n  }\n}\n";
    assert!(rt; contains(got.as_slice(), nodes));
    assert!(rt; got.ends_with(legend));
    Ok(())
}
