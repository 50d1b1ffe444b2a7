ghost use Rattle.std.specs.Prelude.{◌^◌, ◌<◌, IfOk, IfSome, All};
ghost use Rattle.slice_board.specs.Boards.{IsOf};

use bit_rows::{Cut, CutFault, Rows};
use flow_rows::Board;
use slice_board::{OutOfMemory, Pass, PostedWords, Wanted, WordBoard};
use std::alloc::Global;
use std::process::Abort;
use std::thread::{Threads, join};

/// No bit at all, so that each slice is finished as soon as it is drawn.
#[derive(Drop)]
pub(crate) struct Nothing;

impl Wanted for Nothing {
    ghost wants = { λ _ _ _. ⊥ };
}

fn open_cut(
    alloc: Global,
    points: usize,
    cut: Cut,
) -> Result<(Board<Nothing>, Pass<Nothing>), OutOfMemory>
    requires { points < 2 ^ 32 }
    ensures { IfOk result (λ r. IsOf r.0 r.1) }
{
    let blank = Rows::blank(alloc, vec![in alloc; true; points]?, 0, cut.bits())?;
    Board::open(alloc, &Nothing, blank, cut)
}

// A board of so many bits in slices of a width, and its first pass.
pub(crate) fn open(
    alloc: Global,
    points: usize,
    bits: u32,
    width: u32,
) -> Result<(Board<Nothing>, Pass<Nothing>), CutFault>
    requires { points < 2 ^ 32 }
    ensures { IfOk result (λ r. IsOf r.0 r.1) }
{
    let cut = Cut::even(alloc, bits, width)?;
    Ok(open_cut(alloc, points, cut)?)
}

// Finishes what the pass holds, and draws the next slice.
fn turn(board: &Board<Nothing>, pass: &mut Pass<Nothing>) -> Option<u32>
    requires { IsOf board.now pass.old }
    ensures { IsOf board.now pass.new }
{
    if let Some(slice) = pass.held() {
        board.finish(pass, slice);
    }
    board.claim(pass)
}

// Draws slices until there is none, and finishes each.
pub(crate) fn drain(board: &Board<Nothing>, mut pass: Pass<Nothing>) -> Pass<Nothing>
    requires { IsOf board.now pass }
    ensures { IsOf board.now result }
{
    for _ in 0..=board.cut().slices() {
        turn(board, &mut pass);
    }
    pass
}

// The points and the range of the rows that a board closes into.
fn closed(board: Board<Nothing>, pass: Pass<Nothing>) -> Option<(u32, u32, u32)>
    requires { IsOf board pass }
{
    match board.close(pass) {
        Ok(rows) => Some((rows.points(), rows.lo(), rows.hi())),
        Err(_) => None,
    }
}

pub(crate) fn closes(board: Board<Nothing>, pass: Pass<Nothing>) -> bool
    requires { IsOf board pass }
{
    closed(board, pass).is_some()
}

#[test]
fn no_slices_close_at_once(rt: HostRuntime) -> Result<(), CutFault> {
    let (board, pass) = open(rt.alloc(), 3, 0, 1)?;
    assert_eq!(rt; closed(board, pass), Some((3, 0, 0)));
    Ok(())
}

fn open_words(alloc: Global, cut: Cut) -> Result<(WordBoard<Nothing>, Pass<Nothing>), OutOfMemory>
    ensures { IfOk result (λ r. IsOf r.0 r.1) }
{
    let flags = vec![in alloc; true; 3]?;
    WordBoard::open(alloc, &Nothing, flags, cut)
}

fn check_words(rt: &impl Abort, words: &PostedWords) {
    assert_eq!(rt; (words.points(), words.bits()), (3, 0));
    assert!(rt; words.points() == 3 && words.flag(2) && words.word(2, 0) == 0);
}

#[test]
fn no_slices_close_into_words(rt: HostRuntime) -> Result<(), CutFault> {
    let (board, pass) = open_words(rt.alloc(), Cut::even(rt.alloc(), 0, 1)?)?;
    match board.close(pass) {
        Ok(words) => check_words(&rt, &words),
        Err(_) => panic!(rt; "not closed"),
    }
    Ok(())
}

// One turn of a pass draws this.
fn draws(rt: &impl Abort, board: &Board<Nothing>, pass: &mut Pass<Nothing>, want: Option<u32>)
    requires { IsOf board.now pass.old }
    ensures { IsOf board.now pass.new }
{
    assert_eq!(rt; turn(board, pass), want);
}

// Two passes, each with a slice.
fn two_that_hold(
    rt: &impl Abort,
    board: &Board<Nothing>,
    mut first: Pass<Nothing>,
) -> (Pass<Nothing>, Pass<Nothing>)
    requires { IsOf board.now first }
    ensures first { IsOf board.now result.0 }
    ensures second { IsOf board.now result.1 }
{
    let mut second = board.split(&mut first);
    draws(rt, board, &mut first, Some(0));
    draws(rt, board, &mut second, Some(1));
    (first, second)
}

// They are refused, and come back as they were.
fn not_joined(
    rt: &impl Abort,
    board: &Board<Nothing>,
    first: Pass<Nothing>,
    second: Pass<Nothing>,
) -> (Pass<Nothing>, Pass<Nothing>)
    requires first { IsOf board.now first }
    requires second { IsOf board.now second }
    ensures first { IsOf board.now result.0 }
    ensures second { IsOf board.now result.1 }
{
    match board.join(first, second) {
        Ok(_) => panic!(rt; "joined"),
        Err((first, second)) => {
            assert_eq!(rt; (first.held(), second.held()), (Some(0), Some(1)));
            (first, second)
        }
    }
}

// The first draws the last slice, and the second none, so they are joined.
fn joined_at_last(
    rt: &impl Abort,
    board: &Board<Nothing>,
    mut first: Pass<Nothing>,
    mut second: Pass<Nothing>,
) -> Pass<Nothing>
    requires first { IsOf board.now first }
    requires second { IsOf board.now second }
    ensures { IsOf board.now result }
{
    draws(rt, board, &mut first, Some(2));
    draws(rt, board, &mut second, None);
    match board.join(first, second) {
        Ok(both) => both,
        Err(_) => panic!(rt; "not joined"),
    }
}

// The board is given back while the pass holds a slice.
fn not_closed(
    rt: &impl Abort,
    board: Board<Nothing>,
    both: Pass<Nothing>,
) -> (Board<Nothing>, Pass<Nothing>)
    requires { IsOf board both }
    ensures { IsOf result.0 result.1 }
{
    match board.close(both) {
        Ok(_) => panic!(rt; "closed too early"),
        Err((unfinished, board, both)) => {
            assert_eq!(rt; (unfinished.done, unfinished.of), (2, 3));
            (board, both)
        }
    }
}

#[test]
fn passes_that_both_hold_are_not_joined(rt: HostRuntime) -> Result<(), CutFault> {
    let (board, pass) = open(rt.alloc(), 1, 3, 1)?;
    let (first, second) = two_that_hold(&rt, &board, pass);
    let (first, second) = not_joined(&rt, &board, first, second);
    let both = joined_at_last(&rt, &board, first, second);
    assert_eq!(rt; both.held(), Some(2));
    let (board, mut both) = not_closed(&rt, board, both);
    draws(&rt, &board, &mut both, None);
    assert!(rt; closes(board, both));
    Ok(())
}

// One turn of each pass: every one draws, in order, the slice behind the last one's.
fn round(rt: &impl Abort, board: &Board<Nothing>, passes: &mut Vec<Pass<Nothing>>, from: u32)
    requires { All (IsOf board.now) passes.old.items }
    ensures { All (IsOf board.now) passes.new.items }
{
    let mut next = from;
    for k in 0..passes.len() {
        let drawn = turn(board, &mut passes[k]);
        assert!(rt; drawn == Some(next));
        next = next.wrapping_add(1);
    }
}

// As many rounds as 64 passes need for 4,096 slices.
fn rounds(rt: &impl Abort, board: &Board<Nothing>, passes: &mut Vec<Pass<Nothing>>)
    requires { All (IsOf board.now) passes.old.items }
    ensures { All (IsOf board.now) passes.new.items }
{
    for from in 0..64 {
        round(rt, board, passes, 64 * from);
    }
}

// So many passes beside one.
fn split_off(
    alloc: Global,
    board: &Board<Nothing>,
    pass: &mut Pass<Nothing>,
    count: usize,
) -> Result<Vec<Pass<Nothing>>, OutOfMemory>
    requires { IsOf board.now pass.old }
    ensures old { IsOf board.now pass.new }
    ensures new { IfOk result (λ passes. All (IsOf board.now) passes.items) }
{
    let mut passes = Vec::with_capacity(alloc, count)?;
    for _ in 0..count {
        passes.push(board.split(pass))?;
    }
    Ok(passes)
}

// The last turn of each pass, and all of them as one.
fn joined(
    rt: &impl Abort,
    board: &Board<Nothing>,
    pass: Pass<Nothing>,
    mut passes: Vec<Pass<Nothing>>,
) -> Pass<Nothing>
    requires first { IsOf board.now pass }
    requires others { All (IsOf board.now) passes.items }
    ensures { IsOf board.now result }
{
    let mut all = pass;
    while let Some(mut other) = passes.pop() {
        draws(rt, board, &mut other, None);
        all = match board.join(all, other) {
            Ok(both) => both,
            Err(_) => panic!(rt; "both hold a slice"),
        };
    }
    all
}

// 64 passes by turns, and all of them as one.
fn by_turns(
    rt: &impl Abort,
    alloc: Global,
    board: &Board<Nothing>,
    mut pass: Pass<Nothing>,
) -> Result<Pass<Nothing>, OutOfMemory>
    requires { IsOf board.now pass }
    ensures { IfOk result (IsOf board.now) }
{
    let mut passes = split_off(alloc, board, &mut pass, 64)?;
    rounds(rt, board, &mut passes);
    Ok(joined(rt, board, pass, passes))
}

#[test]
fn passes_by_turns(rt: HostRuntime) -> Result<(), CutFault> {
    let (board, pass) = open(rt.alloc(), 1, 4_096, 1)?;
    let all = by_turns(&rt, rt.alloc(), &board, pass)?;
    assert!(rt; closes(board, all));
    Ok(())
}

// Two threads, each with a pass of its own, draw until there is nothing left.
fn drain_both<R: Threads>(
    rt: &R,
    board: &Board<Nothing>,
    mut pass: Pass<Nothing>,
) -> Option<Pass<Nothing>>
    requires { IsOf board.now pass }
    ensures { IfSome result (IsOf board.now) }
{
    let other = board.split(&mut pass);
    let (first, second) = join(
        rt,
        move || -> Pass<Nothing>
            requires { IsOf board.now pass }
            ensures { IsOf board.entry.now result }
        { drain(board, pass) },
        move || -> Pass<Nothing>
            requires { IsOf board.now other }
            ensures { IsOf board.entry.now result }
        { drain(board, other) },
    );
    board.join(first, second).ok()
}

// Whether a board of so many slices closes behind two threads. None where both hold a slice.
fn closes_behind_two<R: Threads>(
    rt: &R,
    alloc: Global,
    slices: u32,
) -> Result<Option<bool>, CutFault> {
    let (board, pass) = open(alloc, 1, slices, 1)?;
    match drain_both(rt, &board, pass) {
        Some(both) => Ok(Some(closes(board, both))),
        None => Ok(None),
    }
}

const NUMBERS_OF_SLICES: &[u32] = &[0, 1, 70, 4_096];

#[test]
fn two_threads(rt: HostRuntime) -> Result<(), CutFault> {
    for slices in NUMBERS_OF_SLICES {
        assert_eq!(rt;
            closes_behind_two(&rt, rt.alloc(), *slices)?,
            Some(true),
            "{slices} slices"
        );
    }
    Ok(())
}
