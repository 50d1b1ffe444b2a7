// Two halves of a work side by side.
ghost use Rattle.std.specs.Prelude.{IfOk};
ghost use Rattle.std.specs.Thread.{IsSync};

use crate::OutOfMemory;
use std::alloc::Global;
use std::thread::{Threads, join};

/// A half of a work: a closure that goes to a thread cannot name the two lifetimes of a graph.
pub trait Half<T>: Drop {
    // what it finds
    ghost gives: { Self → T → Type 0 };

    /// Finds it. Fails only where memory runs out.
    fn find(self, alloc: Global) -> Result<T, OutOfMemory>
        ensures { IfOk result (gives self) };
}

// A half on a new thread, for which this one waits.
fn find_on_thread<R: Threads + Sync, T: Send, F: Half<T> + Send>(
    rt: &R,
    alloc: Global,
    half: F,
) -> Result<T, OutOfMemory>
    ensures { IfOk result (F.gives half) }
{
    let (found, ()) = join(
        rt,
        move || -> Result<T, OutOfMemory>
            ensures { IfOk result (F.gives half) }
        { half.find(alloc) },
        || {},
    );
    found
}

/// Both halves, each on a new thread. This one waits: where it went on with a half, the thread that it started could be kept waiting, on
/// the same processor, for as long as the system lets one run.
pub fn side_by_side<R: Threads + Sync, T: Send, F: Half<T> + Send, S: Half<T> + Send>(
    rt: &R,
    alloc: Global,
    first: F,
    second: S,
) -> (Result<T, OutOfMemory>, Result<T, OutOfMemory>)
    ensures first { IfOk result.0 (F.gives first) }
    ensures second { IfOk result.1 (S.gives second) }
{
    join(
        rt,
        move || -> Result<T, OutOfMemory>
            ensures { IfOk result (F.gives first) }
        { first.find(alloc) },
        move || -> Result<T, OutOfMemory>
            requires { IsSync R.row }
            ensures { IfOk result (S.gives second) }
        { find_on_thread(rt, alloc, second) },
    )
}
