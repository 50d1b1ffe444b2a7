// A text on its way to a sink, in pieces.

ghost use Rattle.std.specs.Prelude.{◌≡◌, ◌+◌, ◌-◌, ◌^◌, ◌<◌, ◌≤◌, ◌++◌, [], true, false, length, take, is_err, OnOk, OnErr};
ghost use Rattle.std.specs.Io.KnownBytes.{Appends};
ghost use Rattle.text_pieces.specs.Devices.{AppendsBeginning, faults_in};

use crate::device::{DeviceFault, Sink};

/// A writer that gathers bytes in a buffer, and pushes them to a sink whenever the buffer is full. After the sink's first fault
/// it takes bytes as before and pushes none, so that those who write have no answer to look at: `end` tells the fault.
#[derive(Drop)]
pub struct Pieces<'s, K> {
    sink: &'s mut K,
    buffer: &'s mut [u8],
    filled: usize,
    failed: bool,
    ghost within: { filled ≤ length buffer.now },
    ghost room: { 0 < length buffer.now },
}

// Pushes all of these bytes.
fn push_all<K: Sink>(sink: &mut K, bytes: &[u8]) -> Result<(), DeviceFault>
    requires below { K.faults sink.old < 2 ^ 32 - 1 }
    ensures written { OnOk result (Appends (K.contents sink.old) (K.contents sink.new) bytes.now) }
    ensures beginning { OnErr result (AppendsBeginning (K.contents sink.old) (K.contents sink.new) bytes.now) }
    ensures faults { K.faults sink.new ≡ K.faults sink.old + faults_in result }
{
    let mut pushed = 0;
    while pushed < bytes.len() {
        pushed += sink.push(&bytes[pushed..])?;
    }
    Ok(())
}

impl<'s, K: Sink> Pieces<'s, K> {
    ghost use Rattle.text_pieces.specs.Pieces.{CanWrite, Writes, fresh, outlet};

    /// A writer over a sink that has taken nothing yet. It pushes as many bytes at a time as the buffer has; what stands in the
    /// buffer is overwritten.
    ///
    /// The condition: the buffer has room.
    pub fn new(buffer: &'s mut [u8], sink: &'s mut K) -> Pieces<'s, K>
        requires { 0 < length buffer.old }
        ensures { outlet K.Sink result ≡ fresh K.Sink sink.entry }
    {
        Pieces {
            sink,
            buffer,
            filled: 0,
            failed: false,
        }
    }

    /// Whether the sink had a fault. Then what is written is dropped, so that a long text can be left off.
    pub fn has_failed(&self) -> bool
        ensures { result ≡ self.now.failed }
    {
        self.failed
    }

    // Puts bytes behind those that wait, where there is room for them.
    #[inline]
    fn keep_bytes(&mut self, bytes: &[u8])
        requires { self.old.filled + length bytes.now ≤ length self.old.buffer.now }
        ensures same_reference { self.new.sink.ghost_name ≡ self.old.sink.ghost_name }
        ensures same_sink { self.new.sink.now ≡ self.old.sink.now }
        ensures failed { self.new.failed ≡ self.old.failed }
        ensures waiting { take self.new.filled self.new.buffer.now ≡ take self.old.filled self.old.buffer.now ++ bytes.now }
    {
        let end = self.filled + bytes.len();
        self.buffer[self.filled..end].copy_from_slice(bytes);
        self.filled = end;
    }

    // Pushes what waits.
    fn push(&mut self)
        requires { CanWrite K.Sink self.old }
        ensures writes { Writes K.Sink self.old self.new [] }
        ensures empty { self.new.filled ≡ 0 }
    {
        if !self.failed && push_all(self.sink, &self.buffer[..self.filled]).is_err() {
            self.failed = true;
        }
        self.filled = 0;
    }

    // Pushes what waits where the buffer is full.
    fn make_room(&mut self)
        requires { CanWrite K.Sink self.old }
        ensures writes { Writes K.Sink self.old self.new [] }
        ensures room { self.new.filled < length self.new.buffer.now }
    {
        if self.filled == self.buffer.len() {
            self.push();
        }
    }

    // Takes bytes for which there is no room at once.
    #[inline(never)]
    fn write_long(&mut self, bytes: &[u8])
        requires { CanWrite K.Sink self.old }
        ensures { Writes K.Sink self.old self.new bytes.now }
    {
        let mut taken = 0;
        while taken < bytes.len() {
            self.make_room();
            let count = (self.buffer.len() - self.filled).min(bytes.len() - taken);
            self.keep_bytes(&bytes[taken..taken + count]);
            taken += count;
        }
    }

    /// Takes these bytes: they stand behind those that were taken before, and go out when the buffer is full or at the end.
    #[inline]
    pub fn write(&mut self, bytes: &[u8])
        requires { CanWrite K.Sink self.old }
        ensures { Writes K.Sink self.old self.new bytes.now }
    {
        if bytes.len() <= self.buffer.len() - self.filled {
            self.keep_bytes(bytes);
        } else {
            self.write_long(bytes);
        }
    }

    // Flushes the sink.
    fn flush(&mut self)
        requires ready { CanWrite K.Sink self.old }
        requires empty { self.old.filled ≡ 0 }
        ensures writes { Writes K.Sink self.old self.new [] }
        ensures empty { self.new.filled ≡ 0 }
        ensures flushed { self.new.failed ≡ false → K.flushed self.new.sink.now ≡ true }
    {
        if !self.failed && self.sink.flush().is_err() {
            self.failed = true;
        }
    }

    /// Pushes what waits, and flushes. The answer is a fault where any push was answered by one, or the flush is.
    pub fn end(&mut self) -> Result<(), DeviceFault>
        requires { CanWrite K.Sink self.old }
        ensures writes { Writes K.Sink self.old self.new [] }
        ensures empty { self.new.filled ≡ 0 }
        ensures answer { self.new.failed ≡ is_err result }
        ensures flushed { OnOk result (K.flushed self.new.sink.now ≡ true) }
    {
        self.push();
        self.flush();
        if self.failed {
            Err(DeviceFault)
        } else {
            Ok(())
        }
    }
}
