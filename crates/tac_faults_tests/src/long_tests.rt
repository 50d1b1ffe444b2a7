// Texts that are too long to be written out.

use std::alloc::Global;
use std::process::Abort;
use std::test::Fail;
use tac_faults::{Hint, MOST_FOUND, refusals};
use tac_hints::hint;
use tac_lines::{OutOfMemory, Refusal, RefusalKind};
use tac_program::Limits;

/// The first and the last fault, how many are told, and the hint of the first.
#[derive(Clone, Copy)]
struct Summary {
    count: usize,
    first: Refusal,
    last: Refusal,
    hint: Hint,
}

fn summed_up(alloc: Global, text: &[u8]) -> Result<Option<Summary>, OutOfMemory> {
    let found = refusals(alloc, Limits::Standard, text)?;
    match (found.first(), found.last()) {
        (Some(first), Some(last)) => Ok(Some(Summary {
            count: found.len(),
            first: *first,
            last: *last,
            hint: hint(alloc, Limits::Standard, text, *first)?,
        })),
        _ => Ok(None),
    }
}

fn at(kind: RefusalKind, line: u32, column: u32) -> Refusal {
    Refusal { kind, line, column }
}

/// The one comparison, since each that is written out is proved again.
fn check(
    rt: &impl Abort,
    got: Option<Summary>,
    count: usize,
    first: Refusal,
    last: Refusal,
    hint: Hint,
) {
    let is_same = match got {
        None => false,
        Some(got) => {
            got.count == count && got.first == first && got.last == last && got.hint == hint
        }
    };
    assert!(rt; is_same);
}

/// This line so many times, between `before` and `behind`.
fn repeated(
    alloc: Global,
    before: &[u8],
    line: &[u8],
    times: u32,
    behind: &[u8],
) -> Result<Vec<u8>, OutOfMemory> {
    let mut text = before.to_vec(alloc)?;
    for _ in 0..times {
        text.extend_from_slice(line)?;
    }
    text.extend_from_slice(behind)?;
    Ok(text)
}

/// Of 25 lines that are wrong 21 are found, in order.
#[test]
fn twenty_one_are_found(rt: HostRuntime) -> Result<(), Fail> {
    let text = repeated(rt.alloc(), b"proc main\n", b"x = ;\n", 25, b"end\n")?;
    let got = summed_up(rt.alloc(), &text)?;
    let first = at(RefusalKind::BadByte, 2, 5);
    let last = at(RefusalKind::BadByte, 22, 5);
    check(&rt, got, MOST_FOUND, first, last, Hint::Semicolon);
    Ok(())
}

/// 1,048,579 bytes are three too many.
#[test]
fn long_text(rt: HostRuntime) -> Result<(), Fail> {
    let text = repeated(
        rt.alloc(),
        b"# \n",
        b"\n\n\n\n\n\n\n\n\n\n\n\n\n\n\n\n",
        65536,
        b"",
    )?;
    let got = summed_up(rt.alloc(), &text)?;
    let fault = at(RefusalKind::TextTooLong, 1, 1);
    check(&rt, got, 1, fault, fault, Hint::LongText(3));
    Ok(())
}

/// Of a name that is there 25 times the first 21 that repeat it are found, in their line.
#[test]
fn many_labels(rt: HostRuntime) -> Result<(), Fail> {
    let text = repeated(rt.alloc(), b"proc main\n", b"L:", 25, b"\nend\n")?;
    let got = summed_up(rt.alloc(), &text)?;
    let first = at(RefusalKind::DuplicateLabel, 2, 3);
    let last = at(RefusalKind::DuplicateLabel, 2, 43);
    let hint = Hint::First(
        2,
        tac_faults::Bytes {
            start: 10,
            stop: 11,
        },
    );
    check(&rt, got, MOST_FOUND, first, last, hint);
    Ok(())
}
