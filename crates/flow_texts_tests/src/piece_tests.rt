// A table of many pieces.

ghost use Rattle.flow_team.specs.Tables.{IsTableOf};

use flow_graph::{Analysis, Graph};
use flow_team::{Table, table_of};
use flow_texts::{TableText, table_text};
use std::alloc::Global;
use std::process::Abort;
use std::test::Fail;
use std::thread::Threads;
use tac_reader::{Program, read};
use team_probes::alone;
use test_support::failing_streams::{Page, page_of};
use test_support::worked_programs::series::numbered;
use text_pieces::{ToWrite, deliver};

// The line of a point of a program of so many assignments in a row, each of another variable: what is not
// assigned before it has its value of the beginning, and what is, that of its line.
fn push_line(alloc: Global, text: &mut Vec<u8>, point: u32, count: u32) -> Result<(), Fail> {
    text.extend_from_slice(format!(in alloc; "main {point}: ")?.as_bytes())?;
    let mut between = "";
    for variable in point..count {
        text.extend_from_slice(format!(in alloc; "{between}x{variable}@entry")?.as_bytes())?;
        between = ", ";
    }
    for variable in 0..point {
        let line = u64::from(variable) + 2;
        text.extend_from_slice(format!(in alloc; "{between}x{variable}@{line}")?.as_bytes())?;
        between = ", ";
    }
    text.extend_from_slice(b"\n")?;
    Ok(())
}

// The whole table of that program's reaching definitions.
fn table_of_row(alloc: Global, count: u32) -> Result<Vec<u8>, Fail> {
    let mut text = Vec::new(alloc);
    for point in 0..count {
        push_line(alloc, &mut text, point, count)?;
    }
    push_line(alloc, &mut text, count, count)?;
    Ok(text)
}

// The text of a table made whole; in pieces it goes to the page, and the answer says whether all of it did.
fn texts_of_table(
    alloc: Global,
    graph: &Graph<'_>,
    table: &Table,
    page: &mut Page,
) -> Result<(bool, Vec<u8>), Fail>
    requires { IsTableOf graph.now table.now }
{
    let text = TableText::of(alloc, graph, table)?;
    let whole = deliver(alloc, &text, &mut ToWrite::new(page)).is_ok();
    Ok((whole, table_text(alloc, graph, table)?))
}

fn texts_of_graph<R: Threads + Sync>(
    rt: &R,
    alloc: Global,
    graph: &Graph<'_>,
    page: &mut Page,
) -> Result<(bool, Vec<u8>), Fail> {
    let table = table_of(&alone(rt), alloc, graph, Analysis::Reach)?;
    texts_of_table(alloc, graph, &table, page)
}

fn texts_of_program<R: Threads + Sync>(
    rt: &R,
    alloc: Global,
    program: &Program,
    page: &mut Page,
) -> Result<(bool, Vec<u8>), Fail> {
    let graph = Graph::build(alloc, program)?;
    texts_of_graph(rt, alloc, &graph, page)
}

fn texts_of_row<R: Threads + Sync>(
    rt: &R,
    alloc: Global,
    count: u32,
    page: &mut Page,
) -> Result<(bool, Vec<u8>), Fail> {
    let text = numbered(alloc, "proc main\n", 0..count, ("x", " = 1\n"), "end\n")?;
    let program = read(alloc, text.as_bytes())?;
    texts_of_program(rt, alloc, &program, page)
}

// A table of some 400,000 bytes, whole and in pieces, and before sinks that fail around the pieces' ends.
#[test]
fn table_of_many_pieces(rt: HostRuntime) -> Result<(), Fail> {
    let wanted = table_of_row(rt.alloc(), 200)?;
    assert!(rt; wanted.len() > 6 * 65_536);
    for piece in [usize::MAX, 1000, 1] {
        let mut page = page_of(rt.alloc(), piece, usize::MAX);
        let (whole, text) = texts_of_row(&rt, rt.alloc(), 200, &mut page)?;
        assert!(rt; whole);
        assert_eq!(rt; text.as_slice(), wanted.as_slice());
        assert_eq!(rt; page.taken.as_slice(), wanted.as_slice());
    }
    for left in [
        0,
        1,
        65_535,
        65_536,
        65_537,
        131_071,
        131_072,
        131_073,
        wanted.len() - 1,
    ] {
        let mut page = page_of(rt.alloc(), usize::MAX, left);
        let (whole, _) = texts_of_row(&rt, rt.alloc(), 200, &mut page)?;
        assert!(rt; !whole && !page.called_late);
        let beginning = wanted.get(..left).ok_or("a beginning")?;
        assert_eq!(rt; page.taken.as_slice(), beginning);
    }
    Ok(())
}
