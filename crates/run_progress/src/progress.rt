// How far the work is, told in one line that is written over itself.

ghost use Rattle.std.specs.Prelude.{◌≡◌, ◌++◌, IfOk, codes, decimal};

use crate::OutOfMemory;
use crate::terminal::Terminal;
use slice_board::{Gate, Pass, Wanted};
use std::alloc::Global;
use std::sync::atomic::{AtomicBool, AtomicU32, AtomicU64, Ordering};

/// For so many milliseconds nothing is told.
const SILENT: u64 = 2000;

/// So many milliseconds lie between two lines at least.
const BETWEEN: u64 = 100;

/// What takes the rest of a line on a terminal away.
const CLEAR: &[u8] = b"\x1b[K";

/// How many slices are finished, of how many, in words behind the program's name. Fails only where memory runs out.
pub fn progress_words(
    alloc: Global,
    program: &str,
    finished: u32,
    slices: u32,
) -> Result<Vec<u8>, OutOfMemory>
    ensures { IfOk result (λ text. text.items
        ≡ program.now ++ (codes ": " ++ (decimal finished ++ (codes " of " ++ (decimal slices ++ codes " slices"))))) }
{
    let text = format!(in alloc; "{program}: {finished} of {slices} slices")?;
    Ok(text.into_bytes())
}

/// Counts slices, and says when a line is due: from two seconds after the work began on, ten times a second at most. The slices of each
/// table, and of what a report asks, are counted by themselves. Times are milliseconds of one clock.
#[derive(Drop)]
pub struct Count {
    // The program's name, with which a line begins.
    program: &'static str,
    slices: AtomicU32,
    finished: AtomicU32,
    // When the next line may be told; 0 before any work.
    due: AtomicU64,
    is_written: AtomicBool,
}

impl Count {
    /// No work of the program of this name has begun.
    pub fn new(program: &'static str) -> Self {
        Count {
            program,
            slices: AtomicU32::new(0),
            finished: AtomicU32::new(0),
            due: AtomicU64::new(0),
            is_written: AtomicBool::new(false),
        }
    }

    /// Work on so many slices begins.
    pub fn begin(&self, slices: u32, time: u64) {
        self.finished.store(0, Ordering::SeqCst);
        self.slices.store(slices, Ordering::SeqCst);
        let first = time.saturating_add(SILENT);
        let _ = self
            .due
            .compare_exchange(0, first, Ordering::SeqCst, Ordering::SeqCst);
    }

    // Whether a line is due and no other worker tells it.
    fn takes_turn(&self, time: u64) -> bool {
        let due = self.due.load(Ordering::SeqCst);
        if time < due {
            return false;
        }
        let next = time.saturating_add(BETWEEN);
        self.due
            .compare_exchange(due, next, Ordering::SeqCst, Ordering::SeqCst)
            .is_ok()
    }

    fn line(&self, alloc: Global) -> Result<Vec<u8>, OutOfMemory> {
        let finished = self.finished.load(Ordering::SeqCst);
        let slices = self.slices.load(Ordering::SeqCst);
        let words = progress_words(alloc, self.program, finished, slices)?;
        let mut line = b"\r".to_vec(alloc)?;
        line.extend_from_slice(&words)?;
        line.extend_from_slice(CLEAR)?;
        Ok(line)
    }

    /// A slice is finished. The line to be told over the one that stands there, where one is due and there is memory for it.
    pub fn finish(&self, alloc: Global, time: u64) -> Option<Vec<u8>> {
        self.finished.fetch_add(1, Ordering::SeqCst);
        if !self.takes_turn(time) {
            return None;
        }
        let line = self.line(alloc).ok()?;
        self.is_written.store(true, Ordering::SeqCst);
        Some(line)
    }

    /// The work has ended. Whether a line stands there.
    pub fn end(&self) -> bool {
        self.is_written.swap(false, Ordering::SeqCst)
    }
}

/// A gate that tells on a terminal how many slices are finished, as a [`Count`] has it. Elsewhere it tells nothing.
#[derive(Drop)]
pub struct Progress {
    alloc: Global,
    terminal: Terminal,
    count: Count,
}

impl Progress {
    /// A gate that tells on this terminal how far the program of this name is.
    pub fn new(alloc: Global, program: &'static str, terminal: Terminal) -> Self {
        Progress {
            alloc,
            terminal,
            count: Count::new(program),
        }
    }

    /// Tells a line on the terminal, where there is one. A fault is ignored, since no answer hangs on it.
    pub fn tell(&self, line: &[u8]) {
        self.terminal.tell(line);
    }
}

impl Gate for Progress {
    fn begun(&self, slices: u32) {
        if let Some(time) = self.terminal.time() {
            self.count.begin(slices, time);
        }
    }

    // No worker is left that could tell a line behind this.
    fn ended(&self) {
        if self.count.end() {
            self.terminal.tell(b"\r\x1b[K");
        }
    }

    fn claimed(&self, _worker: u32, _slice: u32) {}

    fn finished<W: Wanted>(&self, _worker: u32, _slice: u32, _pass: &Pass<W>) {
        if let Some(time) = self.terminal.time() {
            if let Some(line) = self.count.finish(self.alloc, time) {
                self.terminal.tell(&line);
            }
        }
    }
}
