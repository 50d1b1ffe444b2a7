//! What bounds tell of bits, by hand.
ghost use Rattle.std.specs.Prelude.{◌≡◌, ◌<◌, ◌^◌, true, length};
ghost use Rattle.flow_bounds.specs.Asked.{AreAsksOf, IsAskOf};

use flow_bounds::{Ask, Told, settle};
use flow_graph::{Analysis, Graph, OutOfMemory};
use gen_kill::Problem;
use gk_solve::Routes;
use std::alloc::Global;
use std::process::Abort;
use std::test::Fail;
use tac_reader::{Program, read};
use test_support::worked_programs::{
    called_twice, callee_loops, calls_main, not_called, reads_behind_calls, recursion, two_callees,
};

/// A text, an analysis, columns and points that are asked (none: all, column by column), and what is told: `+` that the bit is in the may
/// form's set, `-` that it is not, `?` nothing, with a blank before each first point.
type Row = (&'static str, Analysis, &'static [(u32, u32)], &'static str);

/// By hand, by the sets of `worked_programs`; the may form of an available expression is that it is not available.
const ROWS: &[Row] = &[
    (
        recursion::TEXT,
        Analysis::Reach,
        &[],
        " +------- -+++++++ --++--++",
    ),
    (recursion::TEXT, Analysis::Live, &[], " -++-++-+"),
    (
        two_callees::TEXT,
        Analysis::Reach,
        &[],
        " +------- -++++-++ --++-+--",
    ),
    (two_callees::TEXT, Analysis::Live, &[], " -++--+++"),
    (calls_main::TEXT, Analysis::Reach, &[], " ++-++ +++++"),
    (callee_loops::TEXT, Analysis::Avail, &[], " +--+-"),
    (not_called::TEXT, Analysis::Live, &[], " ----"),
    // By the way through a callee that is not asked and does nothing with the bit, and by the tree of calls.
    (
        called_twice::TEXT,
        Analysis::Reach,
        &[(1, 2), (1, 5), (2, 5), (0, 6)],
        "+-+-",
    ),
    (
        reads_behind_calls::TEXT,
        Analysis::Live,
        &[(0, 2), (1, 1)],
        "-+",
    ),
    // A callee that never returns and does nothing with the bit: from above its calls come back, from below none is known to.
    (callee_loops::TEXT, Analysis::Avail, &[(0, 1)], "?"),
];

fn listed(alloc: Global, pairs: &[(u32, u32)]) -> Result<Vec<Ask>, OutOfMemory> {
    let mut asks = Vec::new(alloc);
    for pair in pairs {
        asks.push(Ask {
            column: pair.0,
            point: pair.1,
        })?;
    }
    Ok(asks)
}

fn all_asks(alloc: Global, problem: &Problem<'_, '_>) -> Result<Vec<Ask>, OutOfMemory> {
    let mut asks = Vec::new(alloc);
    for column in 0..problem.bits() {
        for point in 0..problem.points() {
            asks.push(Ask { column, point })?;
        }
    }
    Ok(asks)
}

// Whether the column and the point are there.
fn is_ask(problem: &Problem<'_, '_>, ask: Ask) -> bool
    ensures { result ≡ true → IsAskOf problem.now ask }
{
    ask.column < problem.bits() && ask.point < problem.points()
}

// Whether all columns and points are there, and few bits are asked.
fn are_asks(problem: &Problem<'_, '_>, asks: &[Ask]) -> bool
    ensures asks { result ≡ true → AreAsksOf problem.now asks.now }
    ensures few { result ≡ true → length asks.now < 2 ^ 32 }
{
    for number in 0..asks.len() {
        if !is_ask(problem, asks[number]) {
            return false;
        }
    }
    asks.len() < 1 << 20
}

fn word(told: Told) -> &'static str {
    match told {
        Told::Has => "+",
        Told::Lacks => "-",
        Told::Nothing => "?",
    }
}

fn write_told(
    text: &mut String,
    alloc: Global,
    graph: &Graph<'_>,
    row: &Row,
) -> Result<(), OutOfMemory> {
    let problem = Problem::of(alloc, graph, row.1)?;
    let routes = Routes::of(alloc, &problem)?;
    let asks = if row.2.is_empty() {
        all_asks(alloc, &problem)?
    } else {
        listed(alloc, row.2)?
    };
    let asks = asks.as_slice();
    if !are_asks(&problem, asks) {
        return Ok(());
    }
    let told = settle(alloc, &problem, &routes, asks)?;
    for number in 0..asks.len() {
        if asks[number].point == 0 {
            text.push_str(" ")?;
        }
        text.push_str(word(told[number]))?;
    }
    Ok(())
}

fn check_row<R: Abort + AllocGlobal>(rt: &R, program: &Program, row: &Row) -> Result<(), Fail> {
    let graph = Graph::build(rt.alloc(), program)?;
    let mut text = String::new(rt.alloc());
    write_told(&mut text, rt.alloc(), &graph, row)?;
    assert_eq!(rt; text.as_str(), row.3);
    Ok(())
}

#[test]
fn told_by_hand(rt: HostRuntime) -> Result<(), Fail> {
    for row in ROWS {
        let program = read(rt.alloc(), row.0.as_bytes())?;
        check_row(&rt, &program, row)?;
    }
    Ok(())
}
