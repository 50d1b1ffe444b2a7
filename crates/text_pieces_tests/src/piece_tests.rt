// Bytes that go to a sink in pieces, by hand.

ghost use Rattle.std.specs.Prelude.{◌<◌};

use std::alloc::Global;
use std::io;
use std::io::Write;
use std::process::Abort;
use std::test::Fail;
use test_support::failing_streams::{blank_page, page_of};
use text_pieces::{Bytes, Pieces, ToWrite, deliver};

// Notes how many bytes each call brings, and takes them all.
#[derive(Drop)]
struct Diary {
    taken: Vec<u8>,
    calls: Vec<usize>,
}

impl Write for Diary {
    fn write(&mut self, bytes: &[u8]) -> io::Result<usize> {
        self.calls.push(bytes.len())?;
        self.taken.extend_from_slice(bytes)?;
        Ok(bytes.len())
    }

    fn flush(&mut self) -> io::Result<()> {
        Ok(())
    }
}

fn blank_diary(alloc: Global) -> Diary {
    Diary {
        taken: Vec::new(alloc),
        calls: Vec::new(alloc),
    }
}

// What is written, in parts; the answer says whether all of it was taken.
const ALL: &[u8] = b"abcdefghijk";

fn write_all<W: Write + Drop>(alloc: Global, size: usize, writer: W) -> Result<bool, Fail>
    requires { 0 < size }
{
    let mut buffer = vec![in alloc; 0u8; size]?;
    let mut sink = ToWrite::new(writer);
    let mut out = Pieces::new(&mut buffer, &mut sink);
    out.write(b"ab");
    out.write(b"");
    out.write(b"cdefghij");
    out.write(b"k");
    Ok(out.end().is_ok())
}

// For buffers of one byte to more than all, and sinks that take all, three bytes or one a call: all bytes in order, or
// as many as the sink takes before its fault, and no call behind it.
#[test]
fn pieces_of_each_size(rt: HostRuntime) -> Result<(), Fail> {
    for size in 1..13 {
        for piece in [usize::MAX, 3, 1] {
            for left in 0..12 {
                let mut page = page_of(rt.alloc(), piece, left);
                let whole = write_all(rt.alloc(), size, &mut page)?;
                assert_eq!(rt; whole, left == 11, "{size} {piece} {left}");
                let beginning = ALL.get(..left).ok_or("a beginning")?;
                assert_eq!(rt; page.taken.as_slice(), beginning);
                assert!(rt; !page.called_late);
            }
        }
    }
    Ok(())
}

// A buffer of four bytes is pushed when it is full and at the end, and a long one once.
#[test]
fn bytes_of_each_push(rt: HostRuntime) -> Result<(), Fail> {
    let mut diary = blank_diary(rt.alloc());
    assert!(rt; write_all(rt.alloc(), 4, &mut diary)?);
    assert_eq!(rt; diary.calls.as_slice(), [4, 4, 3].as_slice());
    let mut diary = blank_diary(rt.alloc());
    assert!(rt; write_all(rt.alloc(), 64, &mut diary)?);
    assert_eq!(rt; diary.calls.as_slice(), [11].as_slice());
    Ok(())
}

// Where the flush fails, all was written and the answer is a fault.
#[test]
fn flush_that_fails(rt: HostRuntime) -> Result<(), Fail> {
    let mut page = blank_page(rt.alloc());
    page.flushes = false;
    assert!(rt; !write_all(rt.alloc(), 4, &mut page)?);
    assert_eq!(rt; page.taken.as_slice(), ALL);
    Ok(())
}

// Bytes as they are: one push of a short text, three of 131,073 bytes.
#[test]
fn bytes_delivered(rt: HostRuntime) -> Result<(), Fail> {
    for (length, calls) in [
        (0, [].as_slice()),
        (5, [5].as_slice()),
        (65_536, [65_536].as_slice()),
        (131_073, [65_536, 65_536, 1].as_slice()),
    ] {
        let text = vec![in rt.alloc(); b'x'; length]?;
        let mut diary = blank_diary(rt.alloc());
        deliver(rt.alloc(), &Bytes(&text), &mut ToWrite::new(&mut diary))?;
        assert_eq!(rt; diary.taken.as_slice(), text.as_slice());
        assert_eq!(rt; diary.calls.as_slice(), calls);
    }
    Ok(())
}
