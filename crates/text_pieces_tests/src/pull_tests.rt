// Texts that are pulled into a block that grows.

use std::alloc::Global;
use std::io::ErrorKind;
use std::process::Abort;
use std::test::Fail;
use test_support::failing_streams::Pieces;
use text_pieces::{FromRead, OutOfMemory, Source, pull_all};

// A text whose bytes tell which block they came into.
fn long_text(alloc: Global) -> Result<Vec<u8>, OutOfMemory> {
    let mut text = vec![in alloc; b'a'; 1_048_577]?;
    text.resize(2_097_154, b'b')?;
    text.resize(3_000_000, b'c')?;
    Ok(text)
}

// How long a text is, how much of it is pulled at most, what a read gives at most, and whether the end is shown.
const PULLS: &[(usize, usize, usize, bool)] = &[
    (3_000_000, 4_000_000, usize::MAX, true),
    (3_000_000, 2_500_000, 999_999, false),
    (2_097_154, 3_000_000, usize::MAX, true),
    (1_048_577, 2_000_000, 999_999, true),
    (1_048_577, 1_048_577, usize::MAX, false),
];

// All bytes in order, or as many as are pulled at most.
#[test]
fn texts_longer_than_a_block(rt: HostRuntime) -> Result<(), Fail> {
    let all = long_text(rt.alloc())?;
    for (length, most, piece, ended) in PULLS {
        let text = all.get(..*length).ok_or("a text")?;
        let mut source = FromRead::new(Pieces {
            rest: text,
            piece: *piece,
            left: usize::MAX,
            fault: ErrorKind::Other,
        });
        let pulled = pull_all(rt.alloc(), &mut source, *most)?;
        let wanted = text.get(..(*length).min(*most)).ok_or("a beginning")?;
        assert!(rt; pulled.as_slice() == wanted, "{length} {most}");
        assert_eq!(rt; source.ended(), *ended);
    }
    Ok(())
}

// Behind a fault in the second block nothing is pulled.
#[test]
fn fault_in_a_later_block(rt: HostRuntime) -> Result<(), Fail> {
    let text = long_text(rt.alloc())?;
    let mut source = FromRead::new(Pieces {
        rest: &text,
        piece: usize::MAX,
        left: 1_500_000,
        fault: ErrorKind::Other,
    });
    let outcome = pull_all(rt.alloc(), &mut source, 3_000_000);
    assert!(rt; outcome.is_err());
    assert_eq!(rt; source.faults(), 1);
    Ok(())
}
