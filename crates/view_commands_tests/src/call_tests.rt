// Call graphs, by hand.

use crate::tacview_tests::{NONE, Queried, check, options, run_to_page};
use std::process::Abort;
use std::test::Fail;
use std::thread::Threads;
use tac_program::Limits;
use test_support::failing_streams::blank_page;
use test_support::worked_programs::ALONE;
use view_words::Format;

const CALLS: Queried<'static> = Queried {
    limits: Limits::Standard,
    format: Format::Calls,
    facts: NONE,
    procedure: None,
    because: None,
};

const HEAD: &str = "digraph \"tacflow\" {\n  graph [fontname=\"monospace\", labeljust=l];\n  \
    node [shape=box, fontname=\"monospace\", fontsize=11];\n  \
    edge [class=\"call\", fontname=\"monospace\", fontsize=10];\n";

const LEGEND: &str =
    "  subgraph \"cluster_legend\" {\n    id=\"legend\";\n    class=\"legend\";\n    label=\"Legend\";\n    \
    node [class=\"legend\"];\n    edge [class=\"legend\"];\n    \
    legend0 [label=\"PROCEDURE\\lline of its first statement, points\\lremarks of each kind\\l\"];\n    \
    legend1 [label=\"calls itself, through others or not\", peripheries=2];\n    \
    legend2 [label=\"never reached\", style=filled, fillcolor=grey80];\n    \
    node [shape=plaintext];\n    legend3 [label=\"calls, with the line where it is one\"];\n    \
    legend4 [label=\"calls that lead back to the caller\"];\n    \
    legend0 -> legend1 -> legend2 [style=invis];\n    legend2 -> legend3;\n    \
    legend3 -> legend4 [style=dashed, color=grey40];\n  }\n";

// One callee is named twice, one call has two callees, one procedure calls itself, and of two that no path leads to each calls the other, and
// one of them a third.
const MANY: &str =
    "proc main\ncall f\ncall f | g\ncall loop\nprint x\nend\nproc f\nx = 1\ncall g\nend\nproc g\nskip\nend\n\
    proc loop\nif x goto L\ncall loop\nL:\nend\nproc ping\ncall pong\nend\nproc pong\ncall ping\ncall f\nend\n";

// Texts, and what stands behind the head of their pictures.
const PICTURES: &[(&str, &str)] = &[
    (
        MANY,
        "  0 [id=\"procedure0\", class=\"procedure\", label=\"main\\lline 2, 5 points\\l\"];\n  \
        1 [id=\"procedure1\", class=\"procedure\", label=\"f\\lline 8, 3 points\\l\"];\n  \
        2 [id=\"procedure2\", class=\"procedure\", label=\"g\\lline 12, 2 points\\l\"];\n  \
        3 [id=\"procedure3\", class=\"procedure recursive\", label=\"loop\\lline 15, 3 points\\l\", peripheries=2];\n  \
        4 [id=\"procedure4\", class=\"procedure recursive unreached\", label=\"ping\\lline 20, 2 points\\lnever reached: 1\\l\", peripheries=2, \
        style=filled, fillcolor=grey80];\n  \
        5 [id=\"procedure5\", class=\"procedure recursive unreached\", label=\"pong\\lline 23, 3 points\\lnever reached: 2\\l\", peripheries=2, \
        style=filled, fillcolor=grey80];\n  \
        0 -> 1 [label=\"2 calls\"];\n  0 -> 2 [label=\"line 3\"];\n  0 -> 3 [label=\"line 4\"];\n  1 -> 2 [label=\"line 9\"];\n  \
        3 -> 3 [label=\"line 16\", class=\"call recursive\", style=dashed, color=grey40, fontcolor=grey40];\n  \
        4 -> 5 [label=\"line 20\", class=\"call recursive\", style=dashed, color=grey40, fontcolor=grey40];\n  \
        5 -> 4 [label=\"line 23\", class=\"call recursive\", style=dashed, color=grey40, fontcolor=grey40];\n  \
        5 -> 1 [label=\"line 24\"];\n}\n",
    ),
    // `main` comes first, and a procedure without statements has one point.
    (
        "proc f\nend\nproc main\ncall f\nend\n",
        "  1 [id=\"procedure1\", class=\"procedure\", label=\"main\\lline 4, 2 points\\l\"];\n  \
        0 [id=\"procedure0\", class=\"procedure\", label=\"f\\l1 point\\l\"];\n  1 -> 0 [label=\"line 4\"];\n}\n",
    ),
    // Each kind of remark: `a + b` is very busy at the test and computed at the end, and the second procedure is never reached.
    (
        "proc main\nread a\nread b\nif c goto L\nx = a + b\nL:\ny = a + b\nz = a + b\nprint y\nend\nproc g\nskip\nskip\nend\n",
        "  0 [id=\"procedure0\", class=\"procedure\", label=\"main\\lline 2, 8 points\\lmay be used before it is set: 1\\lis already computed: 1\\l\
        is very busy: 1\\lassignment is dead: 2\\l\"];\n  \
        1 [id=\"procedure1\", class=\"procedure unreached\", label=\"g\\lline 12, 3 points\\lnever reached: 2\\l\", style=filled, fillcolor=grey80];\n}\n",
    ),
    // A ring of three, whose calls are not all in one order, with a tail before it and one behind.
    (
        "proc main\ncall a\nend\nproc c\ncall a | d\nend\nproc b\ncall c\nend\nproc a\ncall b\nend\nproc d\nskip\nend\n",
        "  0 [id=\"procedure0\", class=\"procedure\", label=\"main\\lline 2, 2 points\\l\"];\n  \
        1 [id=\"procedure1\", class=\"procedure recursive\", label=\"c\\lline 5, 2 points\\l\", peripheries=2];\n  \
        2 [id=\"procedure2\", class=\"procedure recursive\", label=\"b\\lline 8, 2 points\\l\", peripheries=2];\n  \
        3 [id=\"procedure3\", class=\"procedure recursive\", label=\"a\\lline 11, 2 points\\l\", peripheries=2];\n  \
        4 [id=\"procedure4\", class=\"procedure\", label=\"d\\lline 14, 2 points\\l\"];\n  \
        0 -> 3 [label=\"line 2\"];\n  \
        1 -> 3 [label=\"line 5\", class=\"call recursive\", style=dashed, color=grey40, fontcolor=grey40];\n  1 -> 4 [label=\"line 5\"];\n  \
        2 -> 1 [label=\"line 8\", class=\"call recursive\", style=dashed, color=grey40, fontcolor=grey40];\n  \
        3 -> 2 [label=\"line 11\", class=\"call recursive\", style=dashed, color=grey40, fontcolor=grey40];\n}\n",
    ),
];

// The picture of a text is the head and this.
fn check_picture<R: Threads + Sync + Abort + AllocGlobal>(
    rt: &R,
    text: &str,
    rest: &str,
) -> Result<(), Fail> {
    let wanted = format!(in rt.alloc(); "{HEAD}{rest}")?;
    check(rt, text, CALLS, wanted.as_str())
}

#[test]
fn call_graphs(rt: HostRuntime) -> Result<(), Fail> {
    for (text, rest) in PICTURES {
        check_picture(&rt, text, rest)?;
    }
    Ok(())
}

#[test]
fn a_legend_of_calls(rt: HostRuntime) -> Result<(), Fail> {
    let mut options = options(rt.alloc(), CALLS, ALONE).ok_or("options")?;
    options.asked.look.legend = true;
    let mut page = blank_page(rt.alloc());
    run_to_page(&rt, b"proc main\nend\n".as_slice(), &mut page, &options)?;
    let node = "  0 [id=\"procedure0\", class=\"procedure\", label=\"main\\l1 point\\l\"];\n";
    let wanted = format!(in rt.alloc(); "{HEAD}{node}{LEGEND}}}\n")?;
    assert!(rt; page.taken.as_slice() == wanted.as_bytes());
    Ok(())
}
