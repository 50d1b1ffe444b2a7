// Each call that takes memory, as `test_support` has it.

use std::alloc::Global;
use std::process::Abort;
use std::test::Fail;
use tac_faults::{Bytes, Hint, refusals};
use tac_hints::hint;
use tac_lines::{OutOfMemory, Refusal};
use tac_program::Limits;
use test_support::again;
use test_support::refusal_probes::{Refused, named};

fn told(alloc: Global, text: &[u8], refused: &mut Refused) -> Result<Vec<Refusal>, OutOfMemory> {
    Ok(again!(
        *refused,
        "refusals",
        refusals(alloc, Limits::Standard, text)
    ))
}

fn told_hint(
    alloc: Global,
    text: &[u8],
    refusal: Refusal,
    refused: &mut Refused,
) -> Result<Hint, OutOfMemory> {
    Ok(again!(
        *refused,
        "hint",
        hint(alloc, Limits::Standard, text, refusal)
    ))
}

/// The one comparison, since each that is written out is proved again.
fn check(rt: &impl Abort, is_same: bool) {
    assert!(rt; is_same);
}

/// The hints of all faults of a text.
fn check_hints(rt: &impl Abort, alloc: Global, text: &[u8], want: &[Hint]) -> Result<(), Fail> {
    let mut refused = None;
    let found = told(alloc, text, &mut refused)?;
    check(rt, found.len() == want.len());
    for (place, refusal) in found.iter().enumerate() {
        let hint = told_hint(alloc, text, *refusal, &mut refused)?;
        check(rt, want.get(place) == Some(&hint));
    }
    named(refused)
}

#[test]
fn faults_of_lines_are_refused(rt: HostRuntime) -> Result<(), Fail> {
    let words = Bytes { start: 0, stop: 9 };
    check_hints(
        &rt,
        rt.alloc(),
        b"proc main\nproc p\nx = ;\nend\n",
        &[Hint::EndLacks(1, words), Hint::Semicolon],
    )
}

#[test]
fn faults_of_names_are_refused(rt: HostRuntime) -> Result<(), Fail> {
    let top = Bytes {
        start: 10,
        stop: 13,
    };
    let callee = Bytes {
        start: 29,
        stop: 30,
    };
    check_hints(
        &rt,
        rt.alloc(),
        b"proc main\ntop: goto tpo\ncall p | main | p\nend\nproc p\nend\n",
        &[Hint::Nearest(top), Hint::First(3, callee)],
    )
}
