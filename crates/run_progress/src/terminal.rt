// Standard error, where it is a terminal.

use std::io::{IsTerminal, Write};
use std::time::Clock;

/// Standard error, where it is a terminal, with the system's clock; or none.
#[derive(Drop)]
pub struct Terminal {
    system: Option<HostRuntime>,
}

impl Terminal {
    /// The system's standard error, where it is a terminal.
    pub fn of(system: HostRuntime) -> Self {
        if system.stderr().is_terminal() {
            Terminal {
                system: Some(system),
            }
        } else {
            Terminal::none()
        }
    }

    /// No terminal.
    pub fn none() -> Self {
        Terminal { system: None }
    }

    /// The milliseconds since some beginning. None where there is no terminal.
    pub fn time(&self) -> Option<u64> {
        let time = self.system?.monotonic().ok()?;
        u64::try_from(time.as_millis()).ok()
    }

    /// Writes all at once. A fault is ignored, since no answer hangs on it.
    pub fn tell(&self, bytes: &[u8]) {
        if let Some(system) = self.system {
            let _ = system.stderr().write(bytes);
        }
    }
}
