// Each text has the faults and the hints that are worked beside it.

use crate::slips::{BYTES, LINES, NAMES, Told};
use std::alloc::Global;
use std::process::Abort;
use tac_faults::refusals;
use tac_hints::hint;
use tac_lines::OutOfMemory;
use tac_program::Limits;

/// The one comparison, since each that is written out is proved again.
fn check(rt: &impl Abort, row: usize, place: usize, is_same: bool) {
    assert!(rt; is_same, "row {row}, fault {place}");
}

/// The faults of one text, and their hints.
fn check_text(
    rt: &impl Abort,
    alloc: Global,
    row: usize,
    text: &[u8],
    want: &[Told],
) -> Result<(), OutOfMemory> {
    let found = refusals(alloc, Limits::Standard, text)?;
    check(rt, row, found.len(), found.len() == want.len());
    for (place, refusal) in found.iter().enumerate() {
        let hint = hint(alloc, Limits::Standard, text, *refusal)?;
        let is_same = match want.get(place) {
            Some((line, column, kind, wanted)) => {
                refusal.line == *line
                    && refusal.column == *column
                    && refusal.kind == *kind
                    && hint == *wanted
            }
            None => false,
        };
        check(rt, row, place, is_same);
    }
    Ok(())
}

fn check_texts(
    rt: &impl Abort,
    alloc: Global,
    rows: &[(&[u8], &[Told])],
) -> Result<(), OutOfMemory> {
    for (row, (text, want)) in rows.iter().enumerate() {
        check_text(rt, alloc, row, text, want)?;
    }
    Ok(())
}

#[test]
fn slips_of_bytes(rt: HostRuntime) -> Result<(), OutOfMemory> {
    check_texts(&rt, rt.alloc(), &BYTES)
}

#[test]
fn slips_of_lines(rt: HostRuntime) -> Result<(), OutOfMemory> {
    check_texts(&rt, rt.alloc(), &LINES)
}

#[test]
fn slips_of_names(rt: HostRuntime) -> Result<(), OutOfMemory> {
    check_texts(&rt, rt.alloc(), &NAMES)
}
