// A sink over any writer.

ghost use Rattle.std.specs.Prelude.{◌≡◌, ◌+◌, ◌-◌, ◌^◌, ◌<◌};

use crate::device::{DeviceFault, Sink};
use std::io::Write;

/// A sink over any writer. An interrupted write, and one that takes nothing, is a fault.
#[derive(Drop)]
pub struct ToWrite<W> {
    writer: W,
    faults: u32,
    // Read by contracts alone.
    flushed: bool,
}

impl<W: Write> ToWrite<W> {
    /// A sink that had no fault.
    pub fn new(writer: W) -> ToWrite<W>
        ensures bytes { ⟦<ToWrite<W> as Sink>⟧.contents result ≡ W.contents writer }
        ensures faults { ⟦<ToWrite<W> as Sink>⟧.faults result ≡ 0 }
    {
        ToWrite {
            writer,
            faults: 0,
            flushed: false,
        }
    }

    fn note_fault(&mut self) -> DeviceFault
        requires { self.old.faults < 2 ^ 32 - 1 }
        ensures { self.new ≡ record self.old { faults = self.old.faults + 1 } }
    {
        self.faults += 1;
        DeviceFault
    }
}

impl<W: Write> Sink for ToWrite<W> {
    ghost contents = { λ sink. W.contents sink.writer };

    ghost faults = { λ sink. sink.faults };

    ghost flushed = { λ sink. sink.flushed };

    fn push(&mut self, bytes: &[u8]) -> Result<usize, DeviceFault> {
        self.flushed = false;
        match self.writer.write(bytes) {
            Ok(count) if count > 0 || bytes.is_empty() => Ok(count),
            _ => Err(self.note_fault()),
        }
    }

    fn flush(&mut self) -> Result<(), DeviceFault> {
        match self.writer.flush() {
            Ok(()) => {
                self.flushed = true;
                Ok(())
            }
            Err(_) => Err(self.note_fault()),
        }
    }

    fn faults(&self) -> u32 {
        self.faults
    }
}
