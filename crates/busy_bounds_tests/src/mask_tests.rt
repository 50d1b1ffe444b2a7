//! Which expressions are left open, by hand.
ghost use Rattle.std.specs.Prelude.{◌≡◌, IfOk};

use busy_bounds::BusyBounds;
use flow_graph::{Analysis, Graph, OutOfMemory};
use gen_kill::Problem;
use gk_solve::Routes;
use std::alloc::Global;
use std::process::Abort;
use std::test::Fail;
use tac_reader::{Program, read};

/// A text, and for each point which of the first eight expressions are left open, by number, or all.
type Row = (&'static str, &'static str);

/// The example of the page on bounds: `a + b`, `a - b`, `a * b` are 0, 1, 2.
const JUMPS: &str = "proc main\nif c goto L\ncall f\nL:\ns = a + b\nend\n\
    proc f\nif c goto M\nt = a - b\nM:\nu = a * b\nend\n";

/// The loop's body evaluates `a * b` (0) behind its test, and writes `a` before `a + b` (1).
const LOOP: &str =
    "proc main\nL:\nif c goto M\nt = a * b\na = 1\nu = a + b\ngoto L\nM:\nprint c\nend\n";

/// A procedure that may call itself: a way goes round the call.
const RECURSION: &str = "proc main\ncall f\ns = a + b\nend\n\
    proc f\nif c goto L\ncall f\nL:\nt = a * b\nend\n";

/// Nothing behind the call is reached.
const ENDLESS: &str = "proc main\ncall f\ns = a + b\nend\nproc f\nL:\ngoto L\nend\n";

/// By hand: a way is the first that is found backwards, breadth first.
const ROWS: &[Row] = &[
    (JUMPS, " 0 02 0 - 02 012 02 0"),
    (LOOP, " - 0 - 1 - - -"),
    (RECURSION, " 01 0 - 01 01 01 0"),
    (ENDLESS, " all 0 - all 0"),
];

const NUMBERS: [&str; 8] = ["0", "1", "2", "3", "4", "5", "6", "7"];

fn bounds_of(alloc: Global, graph: &Graph<'_>) -> Result<BusyBounds, OutOfMemory>
    ensures { IfOk result (λ bounds. bounds ≡ graph.now) }
{
    let problem = Problem::of(alloc, graph, Analysis::Busy)?;
    let routes = Routes::of(alloc, &problem)?;
    BusyBounds::of(alloc, graph, &problem, routes.links())
}

fn write_mask(text: &mut String, mask: u64) -> Result<(), OutOfMemory> {
    if mask == 0 {
        return text.push_str(" -");
    }
    if mask == u64::MAX {
        return text.push_str(" all");
    }
    text.push_str(" ")?;
    for number in 0..8u32 {
        if mask >> number & 1 == 1 {
            text.push_str(NUMBERS[number as usize])?;
        }
    }
    Ok(())
}

fn write_masks(text: &mut String, alloc: Global, graph: &Graph<'_>) -> Result<(), OutOfMemory> {
    let bounds = bounds_of(alloc, graph)?;
    for point in 0..graph.points() {
        let mask = bounds.mask(graph, point, 0);
        write_mask(&mut *text, mask)?;
    }
    Ok(())
}

fn check_row<R: Abort + AllocGlobal>(rt: &R, program: &Program, row: &Row) -> Result<(), Fail> {
    let graph = Graph::build(rt.alloc(), program)?;
    let mut text = String::new(rt.alloc());
    write_masks(&mut text, rt.alloc(), &graph)?;
    assert_eq!(rt; text.as_str(), row.1);
    Ok(())
}

#[test]
fn left_open_by_hand(rt: HostRuntime) -> Result<(), Fail> {
    for row in ROWS {
        let program = read(rt.alloc(), row.0.as_bytes())?;
        check_row(&rt, &program, row)?;
    }
    Ok(())
}

/// A point, the words to look at, the last one that is left open, and what is left open of it.
type Last = (u32, u32, u32, Option<u32>, u64);

/// A hundred sums in one line of statements: at point `p` those from `p` on, unless they are more than 32.
const LASTS: &[Last] = &[
    (99, 0, 2, Some(1), 1 << 35),
    (99, 0, 1, None, 0),
    (68, 0, 2, Some(1), 0xf_ffff_fff0),
    (67, 0, 2, Some(1), u64::MAX),
    (67, 0, 1, Some(0), u64::MAX),
    (67, 1, 1, None, 0),
    (100, 0, 2, None, 0),
];

fn check_last<R: Abort>(rt: &R, graph: &Graph<'_>, bounds: &BusyBounds, last: &Last)
    requires { bounds.now ≡ graph.now }
{
    let (point, first, end, word, mask) = *last;
    if point >= graph.points() || first > end {
        return;
    }
    let found = bounds.last_word(graph, point, first, end);
    assert!(rt; found == word);
    if let Some(word) = found {
        assert!(rt; bounds.mask(graph, point, word) == mask);
    }
}

#[test]
fn last_words_by_hand(rt: HostRuntime) -> Result<(), Fail> {
    let mut text = String::new(rt.alloc());
    text.push_str("proc main\n")?;
    for number in 0..100u32 {
        text.push_str("t = a + ")?;
        text.push_str(number.to_string(rt.alloc())?.as_str())?;
        text.push_str("\n")?;
    }
    text.push_str("end\n")?;
    let program = read(rt.alloc(), text.as_bytes())?;
    let graph = Graph::build(rt.alloc(), &program)?;
    let bounds = bounds_of(rt.alloc(), &graph)?;
    for last in LASTS {
        check_last(&rt, &graph, &bounds, last);
    }
    Ok(())
}
