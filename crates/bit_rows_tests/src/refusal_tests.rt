// Each call on rows and cuts that takes memory, as `test_support` has it.

use bit_rows::{Cut, CutFault, OutOfMemory, Row, Rows};
use std::alloc::Global;
use std::process::Abort;
use std::test::Fail;
use test_support::again;
use test_support::refusal_probes::{Refused, named};

// Rows of three words.
fn empty_row(alloc: Global, refused: &mut Refused) -> Result<Row, OutOfMemory> {
    Ok(again!(*refused, "Row::empty", Row::empty(alloc, 0, 130)))
}

fn full_row(alloc: Global, refused: &mut Refused) -> Result<Row, OutOfMemory> {
    Ok(again!(*refused, "Row::full", Row::full(alloc, 0, 130)))
}

// The part of a row behind its first 63 bits, where it has so many.
fn part_of(alloc: Global, row: &Row) -> Result<Row, OutOfMemory> {
    if row.lo() <= 63 && 130 <= row.hi() {
        row.cut(alloc, 63, 130)
    } else {
        Row::empty(alloc, 0, 0)
    }
}

fn row_part(alloc: Global, row: &Row, refused: &mut Refused) -> Result<Row, OutOfMemory> {
    Ok(again!(*refused, "Row::cut", part_of(alloc, row)))
}

fn row_copy(alloc: Global, row: &Row, refused: &mut Refused) -> Result<Row, OutOfMemory> {
    Ok(again!(*refused, "Row::copy", row.copy(alloc)))
}

// The row has these words.
fn check_row<R: Abort>(rt: &R, row: &Row, want: [u64; 3]) {
    assert_eq!(rt; [row.word(0), row.word(1), row.word(2)], want);
}

#[test]
fn rows_are_made_again(rt: HostRuntime) -> Result<(), Fail> {
    let all = u64::MAX;
    let mut refused = None;
    check_row(&rt, &empty_row(rt.alloc(), &mut refused)?, [0, 0, 0]);
    let full = full_row(rt.alloc(), &mut refused)?;
    check_row(&rt, &full, [all, all, 3]);
    let part = row_part(rt.alloc(), &full, &mut refused)?;
    check_row(&rt, &part, [1 << 63, all, 3]);
    let copy = row_copy(rt.alloc(), &full, &mut refused)?;
    check_row(&rt, &copy, [all, all, 3]);
    named(refused)
}

// Empty rows of three words for two points.
fn blank_rows(alloc: Global) -> Result<Rows, OutOfMemory> {
    let flags = [true, false].to_vec(alloc)?;
    Rows::blank(alloc, flags, 0, 130)
}

#[test]
fn blank_rows_are_made_again(rt: HostRuntime) -> Result<(), Fail> {
    let mut refused = None;
    let rows = again!(refused, "Rows::blank, or its flags", blank_rows(rt.alloc()));
    assert_eq!(rt; (rows.points(), rows.lo(), rows.hi()), (2, 0, 130));
    named(refused)
}

// The slices of ten bits, by width and by places.
fn even_cut(alloc: Global, refused: &mut Refused) -> Result<Cut, CutFault> {
    Ok(again!(*refused, "Cut::even", Cut::even(alloc, 10, 4)))
}

fn cut_at(alloc: Global, refused: &mut Refused) -> Result<Cut, CutFault> {
    Ok(again!(*refused, "Cut::at", Cut::at(alloc, 10, &[3, 7])))
}

// The slices begin and end here.
fn check_slices<R: Abort + AllocGlobal>(
    rt: &R,
    cut: &Cut,
    want: &[(u32, u32)],
) -> Result<(), Fail> {
    let mut slices = Vec::new(rt.alloc());
    for slice in 0..cut.slices() {
        slices.push(cut.range(slice))?;
    }
    assert_eq!(rt; slices.as_slice(), want);
    Ok(())
}

#[test]
fn cuts_are_made_again(rt: HostRuntime) -> Result<(), Fail> {
    let mut refused = None;
    let even = even_cut(rt.alloc(), &mut refused)?;
    check_slices(&rt, &even, &[(0, 4), (4, 8), (8, 10)])?;
    let at = cut_at(rt.alloc(), &mut refused)?;
    check_slices(&rt, &at, &[(0, 3), (3, 7), (7, 10)])?;
    named(refused)
}
