// Texts that are cut short, and single bytes that are no text.

use crate::tacflow_tests::{check, check_by, output_of};
use flow_commands::Show;
use std::alloc::Global;
use std::process::Abort;
use std::test::Fail;
use std::thread::Threads;
use test_support::failing_streams::blank_page;
use test_support::worked_programs::{ALONE, recursion, spacing};

// Whether one line that tells a refusal at a place was written.
fn is_refusal(output_of: &[u8]) -> bool {
    output_of.starts_with(b"tacflow: ")
        && matches!(output_of.get(9), Some(b'0'..=b'9'))
        && match output_of.split_last() {
            Some((last, line)) => *last == b'\n' && !line.contains(&b'\n'),
            None => false,
        }
}

// The text is refused by one line and nothing else.
fn check_refused<R: Threads + Sync + Abort + AllocGlobal>(rt: &R, text: &[u8]) -> Result<(), Fail> {
    let got = output_of(rt, text, &mut blank_page(rt.alloc()), Show::List, ALONE)?;
    assert!(rt;
        is_refusal(got.as_slice()),
        "the first {} bytes",
        text.len()
    );
    Ok(())
}

// Each beginning of a text is refused by one line and nothing else, but for the last two, which are programs with this listing; and
// a listing is its own listing.
fn check_beginnings<R: Threads + Sync + Abort + AllocGlobal>(
    rt: &R,
    bytes: &[u8],
    listing: &str,
) -> Result<(), Fail> {
    let listing = listing.as_bytes();
    for length in 0..=bytes.len() {
        let beginning = bytes.get(..length).ok_or("a beginning")?;
        if length + 1 < bytes.len() {
            check_refused(rt, beginning)?;
        } else {
            check_by(rt, beginning, usize::MAX, Show::List, ALONE, listing)?;
        }
    }
    check(rt, listing, Show::List, listing)
}

#[test]
fn beginnings_of_a_recursive_program(rt: HostRuntime) -> Result<(), Fail> {
    check_beginnings(&rt, recursion::TEXT.as_bytes(), recursion::LISTING)
}

#[test]
fn beginnings_of_a_text_with_comments_and_labels(rt: HostRuntime) -> Result<(), Fail> {
    check_beginnings(&rt, spacing::TEXT, spacing::LISTING)
}

// What stands before a byte and behind it, and the answer, which is the same for each of the bytes 0, 13 and 255.
const AROUND_A_BYTE: &[(&[u8], &[u8], &[u8])] = &[
    (b"", b"", b"tacflow: 1:1: refusal 1: BadByte\n"),
    (
        b"proc main\nx = ",
        b" 1\nend\n",
        b"tacflow: 2:5: refusal 1: BadByte\n",
    ),
    (
        b"proc main\nend",
        b" \n",
        b"tacflow: 2:4: refusal 1: BadByte\n",
    ),
    (b"proc main #", b"\nend\n", b"proc main\nend\n"),
    (b"proc main\nend\n#", b"", b"proc main\nend\n"),
];

fn with_byte(alloc: Global, before: &[u8], byte: u8, after: &[u8]) -> Result<Vec<u8>, Fail> {
    let mut text = before.to_vec(alloc)?;
    text.push(byte)?;
    text.extend_from_slice(after)?;
    Ok(text)
}

#[test]
fn bytes_in_and_out_of_comments(rt: HostRuntime) -> Result<(), Fail> {
    for byte in b"\0\r\xff" {
        for (before, after, answer) in AROUND_A_BYTE {
            let text = with_byte(rt.alloc(), before, *byte, after)?;
            check(&rt, &text, Show::List, answer)?;
        }
    }
    Ok(())
}
