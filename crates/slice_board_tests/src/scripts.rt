// What two workers do with a board, step by step, written down as text.

ghost use Rattle.std.specs.Prelude.{◌≡◌, IfSome, IfOk};
ghost use Rattle.slice_board.specs.Boards.{IsOf};
ghost use Rattle.slice_board_tests.specs.Benches.{IsFor, AreNoted};

use crate::bench::{Sets, Worker, open, wanted_sets};
use bit_rows::{Cut, Row, Rows};
use flow_rows::Board;
use slice_board::{OutOfMemory, Pass, Unfinished};
use std::alloc::Global;

/// What a worker does.
#[derive(Drop)]
pub(crate) enum Step {
    Claim,
    /// A mask on a word of a point's row: the point, the word, the mask.
    Post(u32, u32, u64),
    /// At a word of a point's row.
    Look(u32, u32),
    Finish,
}

#[derive(Drop)]
pub(crate) enum Who {
    First,
    Second,
}

/// A board, and what is done with it.
#[derive(Drop)]
pub(crate) struct Case {
    pub(crate) points: u32,
    pub(crate) bits: u32,
    pub(crate) places: &'static [u32],
    /// Points and bits.
    pub(crate) wanted: &'static [(u32, u32)],
    pub(crate) steps: &'static [(Who, Step)],
    /// Whether the second worker's pass is joined to the first's then, or dropped.
    pub(crate) joins: bool,
    /// What the first worker does then.
    pub(crate) alone: &'static [Step],
    /// What it does between the first `close` and the second.
    pub(crate) last: &'static [Step],
}

fn tell_slice(log: &mut String, what: &str, slice: Option<u32>) -> Result<(), OutOfMemory> {
    match slice {
        Some(slice) => writeln!(log, "{what} {slice}"),
        None => writeln!(log, "{what} none"),
    }
}

fn tell_word(log: &mut String, word: Option<u64>) -> Result<(), OutOfMemory> {
    match word {
        Some(word) => writeln!(log, "sees {word}"),
        None => log.push_str("sees nothing\n"),
    }
}

fn tell_post(log: &mut String, posted: bool) -> Result<(), OutOfMemory> {
    if posted {
        return Ok(());
    }
    log.push_str("may not post\n")
}

fn tell_unfinished(log: &mut String, unfinished: &Unfinished) -> Result<(), OutOfMemory> {
    writeln!(log, "{} of {} finished", unfinished.done, unfinished.of)
}

fn take(
    log: &mut String,
    board: &Board<Sets>,
    sets: &Sets,
    worker: &mut Worker,
    step: &Step,
) -> Result<(), OutOfMemory>
    requires of { IsOf board.now worker.old.pass }
    requires noted { AreNoted worker.old.mine worker.old.pass.posted }
    requires wanted { board.now.wanted ≡ sets.now }
    requires board { IsFor board.now sets.now.rows }
    ensures of { IsOf board.now worker.new.pass }
    ensures noted { AreNoted worker.new.mine worker.new.pass.posted }
{
    match step {
        Step::Claim => tell_slice(log, "claims", worker.claim(board)),
        Step::Post(point, word, mask) => {
            tell_post(log, worker.post(board, sets, *point, *word, *mask))
        }
        Step::Look(point, word) => tell_word(log, worker.look(board, sets, *point, *word)),
        Step::Finish => tell_slice(log, "finishes", worker.finish(board, sets)),
    }
}

// The steps of a worker who is alone.
fn take_alone(
    log: &mut String,
    board: &Board<Sets>,
    sets: &Sets,
    worker: &mut Worker,
    steps: &[Step],
) -> Result<(), OutOfMemory>
    requires of { IsOf board.now worker.old.pass }
    requires noted { AreNoted worker.old.mine worker.old.pass.posted }
    requires wanted { board.now.wanted ≡ sets.now }
    requires board { IsFor board.now sets.now.rows }
    ensures of { IsOf board.now worker.new.pass }
    ensures noted { AreNoted worker.new.mine worker.new.pass.posted }
{
    for step in steps {
        take(log, board, sets, worker, step)?;
    }
    Ok(())
}

fn write_row(log: &mut String, row: &Row) -> Result<(), OutOfMemory> {
    for bit in row.lo()..row.hi() {
        if row.get(bit) {
            write!(log, " {bit}")?;
        }
    }
    Ok(())
}

fn write_rows(log: &mut String, rows: &Rows) -> Result<(), OutOfMemory> {
    for point in 0..rows.points() {
        write!(log, "{point} {}:", rows.flag(point))?;
        write_row(log, rows.row(point))?;
        log.push_str("\n")?;
    }
    Ok(())
}

// The steps of both workers, and what they leave.
fn take_both(
    log: &mut String,
    board: &Board<Sets>,
    sets: &Sets,
    first: &mut Worker,
    second: &mut Worker,
    steps: &[(Who, Step)],
) -> Result<(), OutOfMemory>
    requires first { IsOf board.now first.old.pass }
    requires first_noted { AreNoted first.old.mine first.old.pass.posted }
    requires second { IsOf board.now second.old.pass }
    requires second_noted { AreNoted second.old.mine second.old.pass.posted }
    requires wanted { board.now.wanted ≡ sets.now }
    requires board { IsFor board.now sets.now.rows }
    ensures first { IsOf board.now first.new.pass }
    ensures first_noted { AreNoted first.new.mine first.new.pass.posted }
    ensures second { IsOf board.now second.new.pass }
{
    for (who, step) in steps {
        match who {
            Who::First => take(log, board, sets, first, step)?,
            Who::Second => take(log, board, sets, second, step)?,
        }
    }
    Ok(())
}

// The second worker is joined to the first, or dropped.
fn meet(board: &Board<Sets>, first: Worker, second: Worker, joins: bool) -> Option<Worker>
    requires first { IsOf board.now first.pass }
    requires first_noted { AreNoted first.mine first.pass.posted }
    requires second { IsOf board.now second.pass }
    ensures of { IfSome result (λ worker. IsOf board.now worker.pass) }
    ensures noted { IfSome result (λ worker. AreNoted worker.mine worker.pass.posted) }
{
    if joins {
        first.join(board, second)
    } else {
        Some(first)
    }
}

// Two workers, of whom neither has posted.
fn workers(
    alloc: Global,
    sets: &Sets,
    first: Pass<Sets>,
    second: Pass<Sets>,
) -> Result<(Worker, Worker), OutOfMemory>
    ensures first { IfOk result (λ r. r.0.pass ≡ first) }
    ensures first_noted { IfOk result (λ r. AreNoted r.0.mine r.0.pass.posted) }
    ensures second { IfOk result (λ r. r.1.pass ≡ second) }
    ensures second_noted { IfOk result (λ r. AreNoted r.1.mine r.1.pass.posted) }
{
    let first = Worker::new(alloc, sets, first)?;
    let second = Worker::new(alloc, sets, second)?;
    Ok((first, second))
}

// The steps of two workers, and those of the one that is left. None where both hold a slice.
fn work(
    alloc: Global,
    log: &mut String,
    case: &Case,
    sets: &Sets,
    board: &Board<Sets>,
    mut pass: Pass<Sets>,
) -> Result<Option<Worker>, OutOfMemory>
    requires pass { IsOf board.now pass }
    requires wanted { board.now.wanted ≡ sets.now }
    requires board { IsFor board.now sets.now.rows }
    ensures of { IfOk result (λ r. IfSome r (λ worker. IsOf board.now worker.pass)) }
    ensures noted { IfOk result (λ r. IfSome r (λ worker. AreNoted worker.mine worker.pass.posted)) }
{
    let other = board.split(&mut pass);
    let (mut first, mut second) = workers(alloc, sets, pass, other)?;
    take_both(log, board, sets, &mut first, &mut second, case.steps)?;
    match meet(board, first, second, case.joins) {
        Some(mut left) => {
            take_alone(log, board, sets, &mut left, case.alone)?;
            Ok(Some(left))
        }
        None => Ok(None),
    }
}

// Closes the board a second time.
fn close_again(log: &mut String, board: Board<Sets>, pass: Pass<Sets>) -> Result<(), OutOfMemory>
    requires { IsOf board pass }
{
    match board.close(pass) {
        Ok(rows) => write_rows(log, &rows),
        Err((unfinished, _board, _pass)) => tell_unfinished(log, &unfinished),
    }
}

// The last steps, where the first `close` gave the board back.
fn work_on(
    log: &mut String,
    case: &Case,
    sets: &Sets,
    unfinished: &Unfinished,
    board: Board<Sets>,
    mut worker: Worker,
) -> Result<(), OutOfMemory>
    requires of { IsOf board worker.pass }
    requires noted { AreNoted worker.mine worker.pass.posted }
    requires wanted { board.wanted ≡ sets.now }
    requires board { IsFor board sets.now.rows }
{
    tell_unfinished(log, unfinished)?;
    take_alone(log, &board, sets, &mut worker, case.last)?;
    close_again(log, board, worker.pass)
}

// Closes the board, and where it is given back, once more behind the last steps.
fn close_at_last(
    log: &mut String,
    case: &Case,
    sets: &Sets,
    board: Board<Sets>,
    worker: Worker,
) -> Result<(), OutOfMemory>
    requires of { IsOf board worker.pass }
    requires noted { AreNoted worker.mine worker.pass.posted }
    requires wanted { board.wanted ≡ sets.now }
    requires board { IsFor board sets.now.rows }
{
    let Worker { pass, mine } = worker;
    match board.close(pass) {
        Ok(rows) => write_rows(log, &rows),
        Err((unfinished, board, pass)) => {
            work_on(log, case, sets, &unfinished, board, Worker { pass, mine })
        }
    }
}

// What is done with a board of these sets.
fn run_with(
    alloc: Global,
    log: &mut String,
    case: &Case,
    sets: &Sets,
    cut: Cut,
) -> Result<(), OutOfMemory>
    requires low { sets.now.rows.lo ≡ 0 }
    requires bits { sets.now.rows.hi ≡ cut.bits }
{
    let (board, pass) = open(alloc, sets, cut)?;
    match work(alloc, log, case, sets, &board, pass)? {
        Some(worker) => close_at_last(log, case, sets, board, worker),
        None => log.push_str("both hold a slice\n"),
    }
}

// What is done with a board of this cut.
fn run_on(alloc: Global, log: &mut String, case: &Case, cut: Cut) -> Result<(), OutOfMemory>
    requires { cut.bits ≡ case.now.bits }
{
    let sets = wanted_sets(alloc, case.points, case.bits, case.wanted)?;
    run_with(alloc, log, case, &sets, cut)
}

/// What the workers of a case are told, line by line.
pub(crate) fn run(alloc: Global, case: &Case) -> Result<String, OutOfMemory> {
    let mut log = String::new(alloc);
    match Cut::at(alloc, case.bits, case.places) {
        Ok(cut) => run_on(alloc, &mut log, case, cut)?,
        Err(_) => log.push_str("no cut\n")?,
    }
    Ok(log)
}
