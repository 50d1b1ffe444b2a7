// A text made whole in memory.

ghost use Rattle.std.specs.Prelude.{◌≡◌, Some, IfOk, true};

use crate::OutOfMemory;
use crate::delivery::deliver;
use crate::device::{DeviceFault, Sink};
use crate::text::Text;
use crate::transfer::TransferFault;
use std::alloc::Global;

// A sink that keeps what is pushed. A push for which memory is refused is its fault.
#[derive(Drop)]
struct TextSink {
    text: Vec<u8>,
    faults: u32,
}

impl Sink for TextSink {
    ghost contents = { λ sink. Some sink.text.items };

    ghost faults = { λ sink. sink.faults };

    ghost flushed = { λ _. true };

    fn push(&mut self, bytes: &[u8]) -> Result<usize, DeviceFault> {
        match self.text.extend_from_slice(bytes) {
            Ok(()) => Ok(bytes.len()),
            Err(_) => {
                self.faults += 1;
                Err(DeviceFault)
            }
        }
    }

    fn flush(&mut self) -> Result<(), DeviceFault> {
        Ok(())
    }

    fn faults(&self) -> u32 {
        self.faults
    }
}

/// A text made whole. Its room grows by doubling. Fails only where memory runs out.
pub fn whole_text<T: Text>(alloc: Global, text: &T) -> Result<Vec<u8>, OutOfMemory>
    ensures { IfOk result (λ whole. whole.items ≡ T.bytes text.now) }
{
    let mut sink = TextSink {
        text: Vec::new(alloc),
        faults: 0,
    };
    match deliver(alloc, text, &mut sink) {
        Ok(()) => Ok(sink.text),
        // This sink has no other fault than want of memory.
        Err(TransferFault::OutOfMemory | TransferFault::Device) => Err(OutOfMemory),
    }
}
