// Words that are asked of the four analyses: the same answers for all orders, cuts and numbers of workers, and from tables.

ghost use Rattle.std.specs.Prelude.{◌≡◌, ◌*◌, ◌^◌, ◌<◌, true, length, IfOk};
ghost use Rattle.flow_graph.specs.declared.analysis.Analysis.TheVariants.{Reach, Live, Avail, Busy};
ghost use Rattle.flow_queries.specs.Queries.{AreAnswers, AreQueriesOf, IsQueryOf};
ghost use Rattle.flow_team.specs.Tables.{IsTableOf};

use flow_graph::{Analysis, Graph, OutOfMemory};
use flow_queries::{Answers, GraphSolvers, Query, answer, answer_here};
use flow_rows::answers_of_tables;
use flow_team::{Gate, JoinedGate, OpenGate, Tables, Team};
use std::alloc::Global;
use std::process::Abort;
use std::test::Fail;
use std::thread::Threads;
use tac_reader::{Program, read};
use team_probes::{
    BITS_OF_TWO_GROUPS, Cutting, Meeting, Recorder, WORKERS, answered_again, left_by, sums,
    table_by,
};
use test_support::worked_programs::callee_loops;
use test_support::worked_programs::series::prints;

// An analysis, a point, a word of its set, and what the word is.
type Queried = (Analysis, u32, u32, u64);

// What is asked, which bits of each word, and at which points each analysis has no path.
#[derive(Clone, Copy)]
struct Querying {
    rows: &'static [Queried],
    bits: u64,
    pathless: &'static str,
}

const ALL_PATHS: &str = "reach without:\nlive without:\navail without:\nbusy without:\n";

const CALLEE_LOOPS_PATHLESS: &str =
    "reach without: 1 2 4\nlive without: 0 3\navail without: 1 2 4\nbusy without: 0 3\n";

// All words of the program whose callee loops.
const CALLEE_LOOPS_QUERIES: &[Queried] = &[
    (Analysis::Reach, 0, 0, 7),
    (Analysis::Reach, 1, 0, 0),
    (Analysis::Reach, 2, 0, 0),
    (Analysis::Reach, 3, 0, 7),
    (Analysis::Reach, 4, 0, 0),
    (Analysis::Live, 0, 0, 0),
    (Analysis::Live, 1, 0, 6),
    (Analysis::Live, 2, 0, 0),
    (Analysis::Live, 3, 0, 0),
    (Analysis::Live, 4, 0, 6),
    (Analysis::Avail, 0, 0, 0),
    (Analysis::Avail, 1, 0, 1),
    (Analysis::Avail, 2, 0, 1),
    (Analysis::Avail, 3, 0, 0),
    (Analysis::Avail, 4, 0, 1),
    (Analysis::Busy, 0, 0, 1),
    (Analysis::Busy, 1, 0, 1),
    (Analysis::Busy, 2, 0, 0),
    (Analysis::Busy, 3, 0, 1),
    (Analysis::Busy, 4, 0, 1),
];

// The same, and its paths.
const CALLEE_LOOPS_ASKING: Querying = Querying {
    rows: CALLEE_LOOPS_QUERIES,
    bits: u64::MAX,
    pathless: CALLEE_LOOPS_PATHLESS,
};

const NOTHING: Querying = Querying {
    rows: &[],
    bits: u64::MAX,
    pathless: CALLEE_LOOPS_PATHLESS,
};

// Of 65 sums: 65 expressions, 66 variables (`x` is the first), and 131 definitions (66 dummies, then those of `x`). One word twice.
const SUMS_65: Querying = Querying {
    rows: &[
        (Analysis::Avail, 0, 0, 0),
        (Analysis::Avail, 0, 1, 0),
        (Analysis::Avail, 63, 0, 9_223_372_036_854_775_807),
        (Analysis::Avail, 64, 0, u64::MAX),
        (Analysis::Avail, 64, 1, 0),
        (Analysis::Avail, 65, 1, 1),
        (Analysis::Busy, 0, 0, u64::MAX),
        (Analysis::Busy, 0, 1, 1),
        (Analysis::Busy, 0, 1, 1),
        (Analysis::Busy, 63, 0, 9_223_372_036_854_775_808),
        (Analysis::Busy, 64, 0, 0),
        (Analysis::Busy, 64, 1, 1),
        (Analysis::Busy, 65, 1, 0),
        (Analysis::Live, 0, 0, 18_446_744_073_709_551_614),
        (Analysis::Live, 0, 1, 3),
        (Analysis::Live, 63, 0, 0),
        (Analysis::Live, 63, 1, 3),
        (Analysis::Live, 64, 1, 2),
        (Analysis::Live, 65, 1, 0),
        (Analysis::Reach, 0, 0, u64::MAX),
        (Analysis::Reach, 0, 1, 3),
        (Analysis::Reach, 0, 2, 0),
        (Analysis::Reach, 1, 0, 18_446_744_073_709_551_614),
        (Analysis::Reach, 1, 1, 7),
        (Analysis::Reach, 62, 1, 9_223_372_036_854_775_811),
        (Analysis::Reach, 62, 2, 0),
        (Analysis::Reach, 63, 1, 3),
        (Analysis::Reach, 63, 2, 1),
        (Analysis::Reach, 64, 2, 2),
        (Analysis::Reach, 65, 2, 4),
    ],
    bits: u64::MAX,
    pathless: ALL_PATHS,
};

// Of 64 sums: 64 expressions, 65 variables and 129 definitions.
const SUMS_64: Querying = Querying {
    rows: &[
        (Analysis::Avail, 0, 0, 0),
        (Analysis::Avail, 1, 0, 1),
        (Analysis::Avail, 63, 0, 9_223_372_036_854_775_807),
        (Analysis::Avail, 64, 0, u64::MAX),
        (Analysis::Busy, 0, 0, u64::MAX),
        (Analysis::Busy, 62, 0, 13_835_058_055_282_163_712),
        (Analysis::Busy, 63, 0, 9_223_372_036_854_775_808),
        (Analysis::Busy, 64, 0, 0),
        (Analysis::Live, 0, 0, 18_446_744_073_709_551_614),
        (Analysis::Live, 0, 1, 1),
        (Analysis::Live, 63, 1, 1),
        (Analysis::Live, 64, 1, 0),
        (Analysis::Reach, 63, 1, 9_223_372_036_854_775_809),
        (Analysis::Reach, 63, 2, 0),
        (Analysis::Reach, 64, 2, 1),
    ],
    bits: u64::MAX,
    pathless: ALL_PATHS,
};

// Of 65 prints: 65 variables, and as many dummies, which reach every point.
const PRINTS_65: Querying = Querying {
    rows: &[
        (Analysis::Live, 0, 0, u64::MAX),
        (Analysis::Live, 0, 1, 1),
        (Analysis::Live, 63, 0, 9_223_372_036_854_775_808),
        (Analysis::Live, 64, 0, 0),
        (Analysis::Live, 64, 1, 1),
        (Analysis::Live, 65, 1, 0),
        (Analysis::Reach, 0, 1, 1),
        (Analysis::Reach, 65, 0, u64::MAX),
        (Analysis::Reach, 65, 1, 1),
    ],
    bits: u64::MAX,
    pathless: ALL_PATHS,
};

// Of 64 prints: one word each.
const PRINTS_64: Querying = Querying {
    rows: &[
        (Analysis::Live, 0, 0, u64::MAX),
        (Analysis::Live, 62, 0, 13_835_058_055_282_163_712),
        (Analysis::Live, 63, 0, 9_223_372_036_854_775_808),
        (Analysis::Live, 64, 0, 0),
        (Analysis::Reach, 64, 0, u64::MAX),
    ],
    bits: u64::MAX,
    pathless: ALL_PATHS,
};

// Of 330 sums: words of expressions on both sides of a group's border.
const SUMS_OF_TWO_GROUPS: Querying = Querying {
    rows: &[
        (Analysis::Avail, 200, 3, 255),
        (Analysis::Avail, 200, 4, 0),
        (Analysis::Avail, 256, 3, u64::MAX),
        (Analysis::Avail, 257, 4, 1),
        (Analysis::Avail, 330, 3, u64::MAX),
        (Analysis::Avail, 330, 5, 1_023),
        (Analysis::Busy, 255, 3, 9_223_372_036_854_775_808),
        (Analysis::Busy, 255, 4, u64::MAX),
        (Analysis::Busy, 325, 4, 0),
        (Analysis::Busy, 325, 5, 992),
        (Analysis::Busy, 330, 0, 0),
    ],
    bits: u64::MAX,
    pathless: ALL_PATHS,
};

// Of the same words the first eight bits and the last one: few bits of many words are solved side by side.
const SUMS_SIDE_BY_SIDE: Querying = Querying {
    bits: 1 << 63 | 255,
    ..SUMS_OF_TWO_GROUPS
};

// Of the same words the first bit and the last one: so few are asked for one by one, and bounds may settle them.
const SUMS_ONE_BY_ONE: Querying = Querying {
    bits: 1 << 63 | 1,
    ..SUMS_OF_TWO_GROUPS
};

// So it is of all bits of a program with few.
const CALLEE_LOOPS_ONE_BY_ONE: Querying = Querying {
    bits: 7,
    ..CALLEE_LOOPS_ASKING
};

// The order in which the rows are asked.
#[derive(Clone, Copy)]
enum Order {
    AsWritten,
    Backwards,
    Shuffled,
}

const ORDERS: &[Order] = &[Order::AsWritten, Order::Backwards, Order::Shuffled];

// Which row comes at a place. By steps of seven each row comes once, where there is no multiple of seven of them.
fn row_at(order: Order, place: usize, count: usize) -> usize
    requires { place < count }
    ensures { result < count }
{
    match order {
        Order::AsWritten => place,
        Order::Backwards => count - 1 - place,
        Order::Shuffled => place.wrapping_mul(7) % count,
    }
}

// Whether a query is of the graph's program.
fn is_query(graph: &Graph<'_>, query: Query) -> bool
    ensures { result ≡ true → IsQueryOf graph.now query }
{
    query.point < graph.points()
        && 64 * u64::from(query.word) < u64::from(graph.bits(query.analysis))
}

// Whether all are.
fn are_queries(graph: &Graph<'_>, queries: &[Query]) -> bool
    ensures { result ≡ true → AreQueriesOf graph.now queries.now }
{
    for q in 0..queries.len() {
        if !is_query(graph, queries[q]) {
            return false;
        }
    }
    true
}

// The queries of the rows.
fn queries_in_order(
    alloc: Global,
    querying: Querying,
    order: Order,
) -> Result<Vec<Query>, OutOfMemory> {
    let rows = querying.rows;
    let mut queries = Vec::new(alloc);
    for place in 0..rows.len() {
        let (analysis, point, word, _) = rows[row_at(order, place, rows.len())];
        queries.push(Query {
            analysis,
            point,
            word,
            bits: querying.bits,
        })?;
    }
    Ok(queries)
}

// The queries of the rows, where they are of the graph's program.
fn queries_of(
    alloc: Global,
    graph: &Graph<'_>,
    querying: Querying,
    order: Order,
) -> Result<Vec<Query>, Fail>
    ensures queries { IfOk result (λ queries. AreQueriesOf graph.now queries.items) }
    ensures few { IfOk result (λ queries. 64 * length queries.items < 2 ^ 32) }
{
    let queries = queries_in_order(alloc, querying, order)?;
    if are_queries(graph, queries.as_slice()) && queries.len() < 1_000 {
        Ok(queries)
    } else {
        Err(Fail::new("no asks of the program"))
    }
}

fn name_of(analysis: Analysis) -> &'static str {
    match analysis {
        Analysis::Reach => "reach",
        Analysis::Live => "live",
        Analysis::Avail => "avail",
        Analysis::Busy => "busy",
    }
}

const ANALYSES: &[Analysis] = &[
    Analysis::Reach,
    Analysis::Live,
    Analysis::Avail,
    Analysis::Busy,
];

// Writes at which points each analysis has no path.
fn write_pathless(
    text: &mut String,
    graph: &Graph<'_>,
    answers: &Answers,
) -> Result<(), OutOfMemory>
    requires { AreAnswers graph.now answers.now }
{
    for analysis in ANALYSES {
        write!(text, "{} without:", name_of(*analysis))?;
        for point in 0..graph.points() {
            if !answers.has_path(*analysis, point) {
                write!(text, " {point}")?;
            }
        }
        text.push('\n')?;
    }
    Ok(())
}

// Writes each query with its answer.
fn write_words(text: &mut String, answers: &Answers) -> Result<(), OutOfMemory>
    requires { length answers.now.words ≡ length answers.now.queries }
{
    for number in 0..answers.count() {
        let query = answers.query(number);
        let word = answers.word(number);
        let name = name_of(query.analysis);
        write!(text, "{name} {} {}: {word}\n", query.point, query.word)?;
    }
    Ok(())
}

// The points without a path, and a line for each answer.
fn answer_lines(alloc: Global, graph: &Graph<'_>, answers: &Answers) -> Result<String, OutOfMemory>
    requires { AreAnswers graph.now answers.now }
{
    let mut text = String::new(alloc);
    write_pathless(&mut text, graph, answers)?;
    write_words(&mut text, answers)?;
    Ok(text)
}

// What they are by hand.
fn wanted_lines(alloc: Global, querying: Querying, order: Order) -> Result<String, OutOfMemory> {
    let rows = querying.rows;
    let mut text = String::new(alloc);
    text.push_str(querying.pathless)?;
    for place in 0..rows.len() {
        let (analysis, point, word, want) = rows[row_at(order, place, rows.len())];
        let want = want & querying.bits;
        write!(text, "{} {point} {word}: {want}\n", name_of(analysis))?;
    }
    Ok(text)
}

// The lines of answers by so many workers; none where the call was refused.
fn lines_of_team<R: Threads + Sync, G: Gate>(
    rt: &R,
    alloc: Global,
    graph: &Graph<'_>,
    queried: (Querying, Order),
    how: (u32, u32),
    gate: &G,
) -> Result<Option<String>, Fail> {
    let (querying, order) = queried;
    let (cut, workers) = how;
    let queries = queries_of(alloc, graph, querying, order)?;
    match answer(rt, alloc, graph, queries, cut, workers, gate) {
        Ok(answers) => Ok(Some(answer_lines(alloc, graph, &answers)?)),
        Err(_) => Ok(None),
    }
}

// The same. Where the call was refused, the failure tells which slice it left.
fn lines_or_left<R: Threads + Sync>(
    rt: &R,
    alloc: Global,
    graph: &Graph<'_>,
    queried: (Querying, Order),
    workers: u32,
    gate: &Recorder,
) -> Result<String, Fail> {
    match lines_of_team(rt, alloc, graph, queried, (64, workers), gate)? {
        Some(lines) => Ok(lines),
        None => Err(left_by("answer", gate)),
    }
}

// The lines of answers that are found on the calling thread; none where the call was refused.
fn lines_here(
    alloc: Global,
    graph: &Graph<'_>,
    queried: (Querying, Order),
) -> Result<Option<String>, Fail> {
    let (querying, order) = queried;
    let queries = queries_of(alloc, graph, querying, order)?;
    match answer_here(alloc, graph, queries) {
        Ok(answers) => Ok(Some(answer_lines(alloc, graph, &answers)?)),
        Err(_) => Ok(None),
    }
}

// The lines of answers out of tables by two workers; none where the call was refused that takes the tables.
fn lines_of_tables<R: Threads + Sync>(
    rt: &R,
    alloc: Global,
    graph: &Graph<'_>,
    queried: (Querying, Order),
) -> Result<Option<String>, Fail> {
    let (querying, order) = queried;
    let team = Team {
        rt,
        gate: &OpenGate,
        workers: 2,
        cut: 64,
    };
    let tables = Tables::of(&team, alloc, graph)?;
    let queries = queries_of(alloc, graph, querying, order)?;
    match answers_of_tables(alloc, graph, &tables, queries) {
        Ok(answers) => Ok(Some(answer_lines(alloc, graph, &answers)?)),
        Err(_) => Ok(None),
    }
}

// The lines of the second answers of solvers that were asked before, of which so many are kept, by so many workers. The gate is told of four
// slices and of four behind them.
fn lines_again<R: Threads + Sync, G: Gate>(
    rt: &R,
    alloc: Global,
    graph: &Graph<'_>,
    queried: (Querying, Order),
    how: (usize, u32),
    gate: &G,
) -> Result<String, Fail> {
    let (querying, order) = queried;
    let (kept, workers) = how;
    let first = queries_of(alloc, graph, querying, order)?;
    let again = queries_of(alloc, graph, querying, order)?;
    let gate = JoinedGate::new(gate, 4);
    let team = Team {
        rt,
        gate: &gate,
        workers: workers.clamp(1, 64),
        cut: 64,
    };
    let solvers = GraphSolvers::of(&team, alloc, graph)?;
    let (_answers, solvers) = solvers.answer(&team, alloc, first)?;
    let (mut answers, _solvers) = solvers.answer(&team, alloc, again)?;
    gate.end();
    if answers.count() < kept {
        return Err(Fail::new("too few answers"));
    }
    answers.truncate(alloc, kept)?;
    Ok(answer_lines(alloc, graph, &answers)?)
}

/// How the answers to queries are found.
#[derive(Clone, Copy)]
pub enum Way<'a> {
    /// In slices of so many bits, by so many workers.
    Team {
        cut: u32,
        workers: u32,
        gate: &'a Recorder,
    },
    /// By so many workers. Where they are refused memory, the failure tells which slice they left.
    TeamOrLeft {
        workers: u32,
        gate: &'a Recorder,
    },
    /// By so many workers who have to meet.
    Meeting {
        workers: u32,
        gate: &'a Meeting,
    },
    /// On the calling thread.
    Here,
    /// By solvers that were asked before, of whose answers so many are kept.
    Again {
        kept: usize,
        gate: &'a Recorder,
    },
    /// By solvers that were asked before, by so many workers who have to meet each time.
    MeetingAgain {
        workers: u32,
        gate: &'a Meeting,
    },
    /// Out of tables.
    OfTables,
}

// The call that is made.
fn call_of(way: Way<'_>) -> &'static str {
    match way {
        Way::Team { .. } | Way::TeamOrLeft { .. } | Way::Meeting { .. } => "answer",
        Way::Here => "answer_here",
        Way::Again { .. } | Way::MeetingAgain { .. } => "GraphSolvers::answer",
        Way::OfTables => "answers_of_tables",
    }
}

// The lines of answers that are found in a way; none where the call was refused.
fn lines_by<R: Threads + Sync>(
    rt: &R,
    alloc: Global,
    graph: &Graph<'_>,
    queried: (Querying, Order),
    way: Way<'_>,
) -> Result<Option<String>, Fail> {
    match way {
        Way::Team { cut, workers, gate } => {
            lines_of_team(rt, alloc, graph, queried, (cut, workers), gate)
        }
        Way::TeamOrLeft { workers, gate } => {
            Ok(Some(lines_or_left(rt, alloc, graph, queried, workers, gate)?))
        }
        Way::Meeting { workers, gate } => {
            lines_of_team(rt, alloc, graph, queried, (64, workers), gate)
        }
        Way::Here => lines_here(alloc, graph, queried),
        Way::Again { kept, gate } => {
            Ok(Some(lines_again(rt, alloc, graph, queried, (kept, 2), gate)?))
        }
        Way::MeetingAgain { workers, gate } => {
            let how = (queried.0.rows.len(), workers);
            Ok(Some(lines_again(rt, alloc, graph, queried, how, gate)?))
        }
        Way::OfTables => lines_of_tables(rt, alloc, graph, queried),
    }
}

// The same. A call that is refused is made once more, and then it fails by its name.
fn lines_of_graph<R: Threads + Sync>(
    rt: &R,
    alloc: Global,
    graph: &Graph<'_>,
    queried: (Querying, Order),
    way: Way<'_>,
    want: &str,
) -> Result<String, Fail> {
    match lines_by(rt, alloc, graph, queried, way)? {
        Some(lines) => Ok(lines),
        None => answered_again(
            lines_by(rt, alloc, graph, queried, way)?,
            want,
            call_of(way),
        ),
    }
}

// The same of a program's graph.
fn lines_of_program<R: Threads + Sync>(
    rt: &R,
    alloc: Global,
    program: &Program,
    queried: (Querying, Order),
    way: Way<'_>,
    want: &str,
) -> Result<String, Fail> {
    let graph = Graph::build(alloc, program)?;
    lines_of_graph(rt, alloc, &graph, queried, way, want)
}

// The answers to what is asked of a text's program are what is wanted, found in this way.
fn check<R: Threads + Sync + Abort + AllocGlobal>(
    rt: &R,
    text: &str,
    queried: (Querying, Order),
    way: Way<'_>,
    want: &str,
) -> Result<(), Fail> {
    let program = read(rt.alloc(), text.as_bytes())?;
    let got = lines_of_program(rt, rt.alloc(), &program, queried, way, want)?;
    assert_eq!(rt; got.as_str(), want, "{}", call_of(way));
    Ok(())
}

/// The answers that are found in a way to what is asked of the program whose callee loops.
pub fn check_way<R: Threads + Sync + Abort + AllocGlobal>(
    rt: &R,
    way: Way<'_>,
) -> Result<(), Fail> {
    let want = wanted_lines(rt.alloc(), CALLEE_LOOPS_ASKING, Order::AsWritten)?;
    let queried = (CALLEE_LOOPS_ASKING, Order::AsWritten);
    check(rt, callee_loops::TEXT, queried, way, want.as_str())
}

// Cuts, and how many slices the queries are in.
type Slices = (u32, u32);

// The answers by a number of workers; the gate is told of each slice once.
fn check_team<R: Threads + Sync + Abort + AllocGlobal>(
    rt: &R,
    text: &str,
    want: &str,
    queried: (Querying, Order),
    slices: Slices,
    workers: u32,
) -> Result<(), Fail> {
    let (cut, count) = slices;
    let gate = Recorder::new();
    let way = Way::Team {
        cut,
        workers,
        gate: &gate,
    };
    check(rt, text, queried, way, want)?;
    let all = (1u64 << (count % 64)).wrapping_sub(1);
    assert_eq!(rt;
        gate.counts(),
        (all, all, count, count),
        "cut {cut}, {workers} workers"
    );
    Ok(())
}

// The answers in an order, for each cut and number of workers.
fn check_teams<R: Threads + Sync + Abort + AllocGlobal>(
    rt: &R,
    text: &str,
    querying: Querying,
    order: Order,
    cuts: &[Slices],
) -> Result<(), Fail> {
    let want = wanted_lines(rt.alloc(), querying, order)?;
    for slices in cuts {
        for workers in WORKERS {
            let queried = (querying, order);
            check_team(rt, text, want.as_str(), queried, *slices, *workers)?;
        }
    }
    Ok(())
}

// The answers without a team.
fn check_without_team<R: Threads + Sync + Abort + AllocGlobal>(
    rt: &R,
    text: &str,
    querying: Querying,
    order: Order,
) -> Result<(), Fail> {
    let want = wanted_lines(rt.alloc(), querying, order)?;
    let queried = (querying, order);
    check(rt, text, queried, Way::Here, want.as_str())?;
    check(rt, text, queried, Way::OfTables, want.as_str())
}

// The answers in every order, by teams and without one.
fn check_answers<R: Threads + Sync + Abort + AllocGlobal>(
    rt: &R,
    text: &str,
    querying: Querying,
    cuts: &[Slices],
) -> Result<(), Fail> {
    for order in ORDERS {
        check_teams(rt, text, querying, *order, cuts)?;
        check_without_team(rt, text, querying, *order)?;
    }
    Ok(())
}

// Where no word is past the fourth, the queries of an analysis are in one slice.
const FOUR_SLICES: &[Slices] = &[(1, 4), (64, 4), (512, 4), (4_096, 4)];

const TWO_SLICES: &[Slices] = &[(1, 2), (64, 2), (512, 2), (4_096, 2)];

#[test]
fn answers_of_all_analyses(rt: HostRuntime) -> Result<(), Fail> {
    check_answers(&rt, callee_loops::TEXT, CALLEE_LOOPS_ASKING, FOUR_SLICES)
}

#[test]
fn answers_of_solvers_that_were_queried_before(rt: HostRuntime) -> Result<(), Fail> {
    let queried = (CALLEE_LOOPS_ASKING, Order::AsWritten);
    for kept in [0, 5, CALLEE_LOOPS_QUERIES.len()] {
        let querying = Querying {
            rows: &CALLEE_LOOPS_QUERIES[..kept],
            bits: u64::MAX,
            pathless: CALLEE_LOOPS_PATHLESS,
        };
        let want = wanted_lines(rt.alloc(), querying, Order::AsWritten)?;
        let gate = Recorder::new();
        let way = Way::Again { kept, gate: &gate };
        check(&rt, callee_loops::TEXT, queried, way, want.as_str())?;
        assert_eq!(rt; gate.around(), (8, 8), "{kept} answers kept");
    }
    Ok(())
}

#[test]
fn answers_to_nothing(rt: HostRuntime) -> Result<(), Fail> {
    let cuts = &[(1, 0), (64, 0), (512, 0), (4_096, 0)];
    check_answers(&rt, callee_loops::TEXT, NOTHING, cuts)
}

#[test]
fn answers_of_sums(rt: HostRuntime) -> Result<(), Fail> {
    let text = sums(rt.alloc(), 65)?;
    check_answers(&rt, text.as_str(), SUMS_65, FOUR_SLICES)?;
    let text = sums(rt.alloc(), 64)?;
    check_answers(&rt, text.as_str(), SUMS_64, FOUR_SLICES)
}

#[test]
fn answers_of_prints(rt: HostRuntime) -> Result<(), Fail> {
    let text = prints(rt.alloc(), 65)?;
    check_answers(&rt, text.as_str(), PRINTS_65, TWO_SLICES)?;
    let text = prints(rt.alloc(), 64)?;
    check_answers(&rt, text.as_str(), PRINTS_64, TWO_SLICES)
}

#[test]
fn answers_of_two_groups(rt: HostRuntime) -> Result<(), Fail> {
    // By slices of at most four words there are two of each analysis, by eight words one.
    let cuts = &[(1, 4), (64, 4), (512, 2), (4_096, 2)];
    let text = sums(rt.alloc(), BITS_OF_TWO_GROUPS)?;
    check_answers(&rt, text.as_str(), SUMS_OF_TWO_GROUPS, cuts)
}

#[test]
fn answers_of_few_bits(rt: HostRuntime) -> Result<(), Fail> {
    // The bits of each analysis stand in one word, so its queries are in one slice.
    let text = sums(rt.alloc(), BITS_OF_TWO_GROUPS)?;
    check_answers(&rt, text.as_str(), SUMS_SIDE_BY_SIDE, TWO_SLICES)
}

#[test]
fn answers_of_bits_one_by_one(rt: HostRuntime) -> Result<(), Fail> {
    check_answers(
        &rt,
        callee_loops::TEXT,
        CALLEE_LOOPS_ONE_BY_ONE,
        FOUR_SLICES,
    )
}

#[test]
fn answers_of_few_bits_one_by_one(rt: HostRuntime) -> Result<(), Fail> {
    let text = sums(rt.alloc(), BITS_OF_TWO_GROUPS)?;
    let queried = (SUMS_ONE_BY_ONE, Order::Shuffled);
    let want = wanted_lines(rt.alloc(), SUMS_ONE_BY_ONE, Order::Shuffled)?;
    check(&rt, text.as_str(), queried, Way::Here, want.as_str())
}
