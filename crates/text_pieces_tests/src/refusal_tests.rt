// Each call on bytes that takes memory, as `test_support` has it.

use std::io::ErrorKind;
use std::process::Abort;
use std::test::Fail;
use test_support::all_or_nothing;
use test_support::failing_streams::{Pieces, blank_page};
use test_support::refusal_probes::named;
use test_support::worked_programs::recursion;
use text_pieces::{Bytes, FromRead, Source, ToWrite, TransferFault, deliver, pull_all};

const BYTES: &[u8] = b"abcdefghijk";

// All bytes, or none where the buffer is refused.
#[test]
fn buffer_is_refused(rt: HostRuntime) -> Result<(), Fail> {
    let mut page = blank_page(rt.alloc());
    page.taken = Vec::with_capacity(rt.alloc(), 16)?;
    let outcome = deliver(rt.alloc(), &Bytes(BYTES), &mut ToWrite::new(&mut page));
    all_or_nothing!(
        rt,
        "deliver",
        outcome,
        TransferFault::OutOfMemory,
        page.taken.as_slice(),
        BYTES
    )
}

// All bytes of a source, the second time where the block was refused: nothing was pulled before.
#[test]
fn pull_is_refused(rt: HostRuntime) -> Result<(), Fail> {
    let text = recursion::TEXT.as_bytes();
    let mut refused = None;
    let mut source = FromRead::new(text);
    let pulled = match pull_all(rt.alloc(), &mut source, 4_096) {
        Ok(pulled) => pulled,
        Err(TransferFault::OutOfMemory) => {
            if source.ended() || source.faults() != 0 {
                return Err(Fail::from("something was pulled"));
            }
            refused = Some("pull_all");
            pull_all(rt.alloc(), &mut source, 4_096)?
        }
        Err(TransferFault::Device) => return Err(Fail::from("a fault of the source")),
    };
    assert_eq!(rt; pulled.as_slice(), text);
    named(refused)
}

// All bytes of a text longer than the first block. Where that block was refused, nothing was pulled; where a longer one was, the first
// was full, and a new source gives all.
#[test]
fn longer_pull_is_refused(rt: HostRuntime) -> Result<(), Fail> {
    let text = vec![in rt.alloc(); b'x'; 1_048_578]?;
    let mut refused = None;
    let mut reader = Pieces {
        rest: &text,
        piece: usize::MAX,
        left: usize::MAX,
        fault: ErrorKind::Other,
    };
    let pulled = match pull_all(rt.alloc(), &mut FromRead::new(&mut reader), 2_000_000) {
        Ok(pulled) => pulled,
        Err(TransferFault::OutOfMemory) => {
            refused = match reader.rest.len() {
                1_048_578 => Some("pull_all"),
                1 => Some("pull_all, a longer block"),
                _ => return Err(Fail::from("a part of a block was pulled")),
            };
            pull_all(rt.alloc(), &mut FromRead::new(text.as_slice()), 2_000_000)?
        }
        Err(TransferFault::Device) => return Err(Fail::from("a fault of the source")),
    };
    assert!(rt; pulled.as_slice() == text.as_slice());
    named(refused)
}
