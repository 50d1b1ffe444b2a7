// Where a run takes its text from, and where it writes: what it needs of them.

ghost use Rattle.std.specs.Prelude.{◌≡◌, ◌+◌, ◌-◌, ◌^◌, ◌<◌, ℕ, Bool, true, List, Option, None, length, ◌||◌, IfOk, OnOk};
ghost use Rattle.std.specs.Io.{ReadsAtMost, WritesAtMost};
ghost use Rattle.std.specs.Io.KnownBytes.{Keeps, ReadConsumes, WriteAppends};
ghost use Rattle.text_pieces.specs.Devices.{faults_in, shows_end};

/// A source or a sink had a fault.
#[derive(Clone, Copy, Debug, PartialEq, Eq)]
pub struct DeviceFault;

/// What a run takes its text from.
pub trait Source {
    // The bytes that pulls will give from here on, where they are known.
    ghost remaining: { Self → Option (List ℕ) } = { λ _. None };

    ghost faults: { Self → ℕ };

    ghost ended: { Self → Bool };

    /// Fills a beginning of the buffer with the next bytes, and answers how many. None come into a
    /// buffer with room only where the source has ended.
    fn pull(&mut self, buf: &mut [u8]) -> Result<usize, DeviceFault>
        requires { faults self.old < 2 ^ 32 - 1 }
        ensures bound { ReadsAtMost result buf.new }
        ensures bytes { ReadConsumes (remaining self.old) (remaining self.new) result buf.new }
        ensures faults { faults self.new ≡ faults self.old + faults_in result }
        ensures ended { ended self.new ≡ (ended self.old || shows_end result (length buf.new)) };

    /// How many pulls were answered by a fault.
    fn faults(&self) -> u32
        ensures { result ≡ faults self.now };

    /// Whether a pull has shown the end.
    fn ended(&self) -> bool
        ensures { result ≡ ended self.now };
}

/// What a run writes to.
pub trait Sink {
    // The bytes that the sink holds, where they are known.
    ghost contents: { Self → Option (List ℕ) } = { λ _. None };

    ghost faults: { Self → ℕ };

    // Nothing was pushed after the last flush.
    ghost flushed: { Self → Bool };

    /// Takes a beginning of the bytes, and answers how many. Of bytes that there are it takes one
    /// at least.
    fn push(&mut self, bytes: &[u8]) -> Result<usize, DeviceFault>
        requires { faults self.old < 2 ^ 32 - 1 }
        ensures bound { WritesAtMost result bytes.now }
        ensures some { IfOk result (λ n. 0 < length bytes.now → 0 < n) }
        ensures bytes { WriteAppends (contents self.old) (contents self.new) result bytes.now }
        ensures faults { faults self.new ≡ faults self.old + faults_in result };

    /// Brings all that was pushed to where it goes.
    fn flush(&mut self) -> Result<(), DeviceFault>
        requires { faults self.old < 2 ^ 32 - 1 }
        ensures flushed { OnOk result (flushed self.new ≡ true) }
        ensures bytes { Keeps (contents self.old) (contents self.new) }
        ensures faults { faults self.new ≡ faults self.old + faults_in result };

    /// How many pushes and flushes were answered by a fault.
    fn faults(&self) -> u32
        ensures { result ≡ faults self.now };
}
