// Which of some things are marked.
ghost use Rattle.std.specs.Prelude.{◌^◌, ◌<◌, length, IfOk};
ghost use Rattle.gen_kill.specs.Selections.{AreMarked};

use crate::OutOfMemory;
use std::alloc::Global;

/// The numbers of what is marked, which rise: of marked bits those that [`of_chosen`](crate::Problem::of_chosen) takes. Fails only where
/// memory runs out.
pub fn marked_numbers(alloc: Global, marks: &[bool]) -> Result<Vec<u32>, OutOfMemory>
    requires { length marks.now < 2 ^ 32 }
    ensures { IfOk result (λ numbers. AreMarked marks.now (length marks.now) numbers.items) }
{
    let mut numbers = Vec::new(alloc);
    for number in 0..marks.len() {
        if marks[number] {
            numbers.push(number as u32)?;
        }
    }
    Ok(numbers)
}
