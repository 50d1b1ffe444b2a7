// What is called around the work and between the steps of a worker.
ghost use Rattle.slice_board.specs.Teams.{HasFinished};

use crate::pass::Pass;
use crate::rule::Wanted;

/// What a caller does when a slice is claimed and when it is finished, on the thread of the worker that does so, and before and after all
/// of that.
///
/// It may hold the worker up, for instance until another one is there. The analysis answers where its gate returns.
pub trait Gate: Sync {
    /// So many slices are to be solved; no worker has begun.
    fn begun(&self, _slices: u32) {}

    /// All workers have ended. Where one was refused memory, not all slices are finished.
    fn ended(&self) {}

    /// A worker drew the slice, and has not yet begun to solve it.
    fn claimed(&self, worker: u32, slice: u32);

    /// The worker finished the slice, one of the board of this pass, with this pass.
    fn finished<W: Wanted>(&self, worker: u32, slice: u32, pass: &Pass<W>)
        requires { HasFinished pass.now slice };
}

/// The gate that holds nobody.
#[derive(Clone, Copy, Debug, Default, Drop)]
pub struct OpenGate;

impl Gate for OpenGate {
    fn claimed(&self, _worker: u32, _slice: u32) {}

    fn finished<W: Wanted>(&self, _worker: u32, _slice: u32, _pass: &Pass<W>) {}
}
