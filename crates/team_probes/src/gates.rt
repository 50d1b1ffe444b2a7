// Gates that note what is called.

ghost use Rattle.std.specs.Prelude.{◌<◌};

use flow_team::{Gate, OpenGate, OutOfMemory, Team};
use slice_board::{Pass, Wanted};
use std::alloc::Global;
use std::sync::atomic::{AtomicBool, AtomicU32, AtomicU64, Ordering};
use std::thread::yield_now;

/// One worker, who takes a bit at a time and tells nobody.
pub fn alone<R>(rt: &R) -> Team<'_, R, OpenGate> {
    Team {
        rt,
        gate: &OpenGate,
        workers: 1,
        cut: 1,
    }
}

/// Notes of the slices below 64 which were claimed and finished, how often each was called, and what was told before and after.
#[derive(Drop)]
pub struct Recorder {
    pub begun: AtomicU32,
    pub ended: AtomicU32,
    pub claimed: AtomicU64,
    pub finished: AtomicU64,
    pub claims: AtomicU32,
    pub finishes: AtomicU32,
}

impl Recorder {
    /// A gate that noted nothing yet.
    pub fn new() -> Recorder {
        Recorder {
            begun: AtomicU32::new(u32::MAX),
            ended: AtomicU32::new(u32::MAX),
            claimed: AtomicU64::new(0),
            finished: AtomicU64::new(0),
            claims: AtomicU32::new(0),
            finishes: AtomicU32::new(0),
        }
    }

    /// The slices that were claimed and finished, as bits, and how often each was told.
    pub fn counts(&self) -> (u64, u64, u32, u32) {
        (
            self.claimed.load(Ordering::SeqCst),
            self.finished.load(Ordering::SeqCst),
            self.claims.load(Ordering::SeqCst),
            self.finishes.load(Ordering::SeqCst),
        )
    }

    /// How many slices the work began with, and those claimed before; and how many were finished when it ended.
    pub fn around(&self) -> (u32, u32) {
        (
            self.begun.load(Ordering::SeqCst),
            self.ended.load(Ordering::SeqCst),
        )
    }
}

impl Gate for Recorder {
    fn begun(&self, slices: u32) {
        let claims = self.claims.load(Ordering::SeqCst);
        self.begun
            .store(slices.saturating_add(claims), Ordering::SeqCst);
    }

    fn ended(&self) {
        let finishes = self.finishes.load(Ordering::SeqCst);
        self.ended.store(finishes, Ordering::SeqCst);
    }

    fn claimed(&self, _worker: u32, slice: u32) {
        self.claimed.fetch_or(1 << (slice % 64), Ordering::SeqCst);
        self.claims.fetch_add(1, Ordering::SeqCst);
    }

    fn finished<W: Wanted>(&self, _worker: u32, slice: u32, _pass: &Pass<W>) {
        self.finished.fetch_or(1 << (slice % 64), Ordering::SeqCst);
        self.finishes.fetch_add(1, Ordering::SeqCst);
    }
}

/// How often who waits looks for the others, where none of them comes.
const TURNS: u32 = 40_000_000;

/// Whether what is waited for came while it was looked for: many seconds long, since on a busy machine an activity may stand still for
/// some. The condition: it can be looked for at any time.
pub fn comes<F: Fn() -> bool>(is_there: &F) -> bool
    requires { F.IsAlwaysCallable is_there.now }
{
    for _ in 0..TURNS {
        if is_there() {
            return true;
        }
        yield_now();
    }
    false
}

/// A team all of whose workers have to meet, in each job that they are given: the first slices of a job, as many as there are workers, are
/// held once they are claimed, until all of them are.
#[derive(Drop)]
pub struct Meeting {
    workers: u32,
    claims: AtomicU32,
    missed: AtomicBool,
    claimed_by: AtomicU64,
    ghost some: { 0 < workers },
}

impl Meeting {
    /// A gate to which none of so many workers came yet.
    pub fn new(workers: u32) -> Meeting {
        Meeting {
            workers: workers.max(1),
            claims: AtomicU32::new(0),
            missed: AtomicBool::new(false),
            claimed_by: AtomicU64::new(0),
        }
    }

    /// In how many jobs all workers met: in none, where one gave up waiting for the others.
    pub fn met(&self) -> u32 {
        if self.missed.load(Ordering::SeqCst) {
            0
        } else {
            self.claims.load(Ordering::SeqCst) / self.workers
        }
    }

    /// The numbers of the workers who met, as bits.
    pub fn met_by(&self) -> u64 {
        self.claimed_by.load(Ordering::SeqCst)
    }
}

impl Gate for Meeting {
    fn claimed(&self, worker: u32, slice: u32) {
        if slice >= self.workers {
            return;
        }
        self.claimed_by
            .fetch_or(1 << (worker % 64), Ordering::SeqCst);
        let job = self.claims.fetch_add(1, Ordering::SeqCst) / self.workers;
        let all = job.saturating_add(1).saturating_mul(self.workers);
        if !comes(&|| self.claims.load(Ordering::SeqCst) >= all) {
            self.missed.store(true, Ordering::SeqCst);
        }
    }

    fn finished<W: Wanted>(&self, _worker: u32, _slice: u32, _pass: &Pass<W>) {}
}

/// Notes of so many slices: a claim counts 1 and the worker's number in the upper half, a finish counts 65,536 and takes the worker's
/// number away.
#[derive(Drop)]
pub struct Ledger {
    notes: Vec<AtomicU64>,
    strays: AtomicU32,
}

// What is noted of a slice that was claimed once and finished once, by the same worker.
const ONCE_BY_ONE: u64 = 65_537;

impl Ledger {
    /// A gate that noted nothing yet.
    pub fn new(alloc: Global, slices: u32) -> Result<Ledger, OutOfMemory> {
        let mut notes = Vec::new(alloc);
        for _ in 0..slices {
            notes.push(AtomicU64::new(0))?;
        }
        Ok(Ledger {
            notes,
            strays: AtomicU32::new(0),
        })
    }

    /// How many slices were not claimed once and finished once by the same worker, and how often one was told that is none.
    pub fn faults(&self) -> u32 {
        let mut faults = self.strays.load(Ordering::SeqCst);
        for note in self.notes.iter() {
            if note.load(Ordering::SeqCst) != ONCE_BY_ONE {
                faults = faults.saturating_add(1);
            }
        }
        faults
    }

    fn note(&self, slice: u32, change: u64) {
        match self.notes.get(slice as usize) {
            Some(note) => {
                note.fetch_add(change, Ordering::SeqCst);
            }
            None => {
                self.strays.fetch_add(1, Ordering::SeqCst);
            }
        }
    }
}

impl Gate for Ledger {
    fn claimed(&self, worker: u32, slice: u32) {
        self.note(slice, u64::from(worker) << 32 | 1);
    }

    fn finished<W: Wanted>(&self, worker: u32, slice: u32, _pass: &Pass<W>) {
        self.note(slice, 65_536u64.wrapping_sub(u64::from(worker) << 32));
    }
}
