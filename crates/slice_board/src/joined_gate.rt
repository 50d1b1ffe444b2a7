// Several jobs as one.

use crate::gate::Gate;
use crate::pass::Pass;
use crate::rule::Wanted;
use std::sync::atomic::{AtomicBool, Ordering};

/// Tells a gate of the slices of several jobs, one after the other, as of one job's.
#[derive(Drop)]
pub struct JoinedGate<'a, G> {
    gate: &'a G,
    // So many slices come behind those of the first job.
    behind: u32,
    has_begun: AtomicBool,
}

impl<'a, G: Gate> JoinedGate<'a, G> {
    /// Tells this gate. So many slices come behind those of the first job.
    pub fn new(gate: &'a G, behind: u32) -> Self {
        JoinedGate {
            gate,
            behind,
            has_begun: AtomicBool::new(false),
        }
    }

    /// No job is left, or memory was refused.
    pub fn end(&self) {
        if self.has_begun.load(Ordering::SeqCst) {
            self.gate.ended();
        }
    }
}

impl<G: Gate> Gate for JoinedGate<'_, G> {
    fn begun(&self, slices: u32) {
        if !self.has_begun.swap(true, Ordering::SeqCst) {
            self.gate.begun(slices.saturating_add(self.behind));
        }
    }

    fn claimed(&self, worker: u32, slice: u32) {
        self.gate.claimed(worker, slice);
    }

    fn finished<W: Wanted>(&self, worker: u32, slice: u32, pass: &Pass<W>) {
        self.gate.finished(worker, slice, pass);
    }
}
