// A sink that counts bytes.

ghost use Rattle.std.specs.Prelude.{◌≡◌};

use text_pieces::{DeviceFault, Sink};

/// A sink that counts the bytes that another one takes.
#[derive(Drop)]
pub struct Counted<K> {
    sink: K,
    bytes: u64,
}

impl<K: Sink> Counted<K> {
    /// A sink over another one, which has taken nothing through it yet.
    pub fn new(sink: K) -> Counted<K>
        ensures contents { ⟦<Counted<K> as Sink>⟧.contents result ≡ K.contents sink }
        ensures faults { ⟦<Counted<K> as Sink>⟧.faults result ≡ K.faults sink }
    {
        Counted { sink, bytes: 0 }
    }

    /// How many bytes were taken.
    pub fn bytes(&self) -> u64 {
        self.bytes
    }
}

impl<K: Sink> Sink for Counted<K> {
    ghost contents = { λ counted. K.contents counted.sink };

    ghost faults = { λ counted. K.faults counted.sink };

    ghost flushed = { λ counted. K.flushed counted.sink };

    fn push(&mut self, bytes: &[u8]) -> Result<usize, DeviceFault> {
        let count = self.sink.push(bytes)?;
        self.bytes = self.bytes.saturating_add(count as u64);
        Ok(count)
    }

    fn flush(&mut self) -> Result<(), DeviceFault> {
        self.sink.flush()
    }

    fn faults(&self) -> u32 {
        self.sink.faults()
    }
}
