// Truth values of all points.

ghost use Rattle.std.specs.Prelude.{◌≡◌, false, length, map, not, slice_index_or, IfOk};
ghost use Rattle.std.specs.List.{range_with_len};

use crate::OutOfMemory;
use std::alloc::Global;

/// Of each truth value the other one.
pub(crate) fn complement(alloc: Global, values: &[bool]) -> Result<Vec<bool>, OutOfMemory>
    ensures { IfOk result
        (λ others. others.items ≡ map (λ point. not (slice_index_or values.now point false)) (range_with_len 0 (length values.now))) }
{
    let mut others = Vec::with_capacity(alloc, values.len())?;
    for point in 0..values.len() {
        others.push(!values[point])?;
    }
    Ok(others)
}
