// A source over any reader.

ghost use Rattle.std.specs.Prelude.{◌≡◌, false};

use crate::device::{DeviceFault, Source};
use std::io::Read;

/// A source over any reader. An interrupted read is a fault.
#[derive(Drop)]
pub struct FromRead<R> {
    reader: R,
    faults: u32,
    ended: bool,
}

impl<R: Read> FromRead<R> {
    /// A source that has not ended and had no fault.
    pub fn new(reader: R) -> FromRead<R>
        ensures bytes { ⟦<FromRead<R> as Source>⟧.remaining result ≡ R.remaining reader }
        ensures faults { ⟦<FromRead<R> as Source>⟧.faults result ≡ 0 }
        ensures ended { ⟦<FromRead<R> as Source>⟧.ended result ≡ false }
    {
        FromRead {
            reader,
            faults: 0,
            ended: false,
        }
    }
}

impl<R: Read> Source for FromRead<R> {
    ghost remaining = { λ source. R.remaining source.reader };

    ghost faults = { λ source. source.faults };

    ghost ended = { λ source. source.ended };

    fn pull(&mut self, buf: &mut [u8]) -> Result<usize, DeviceFault> {
        match self.reader.read(buf) {
            Ok(count) => {
                if count == 0 && !buf.is_empty() {
                    self.ended = true;
                }
                Ok(count)
            }
            Err(_) => {
                self.faults += 1;
                Err(DeviceFault)
            }
        }
    }

    fn faults(&self) -> u32 {
        self.faults
    }

    fn ended(&self) -> bool {
        self.ended
    }
}
