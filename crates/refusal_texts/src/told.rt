// What is told of a text that is refused.

ghost use Rattle.std.specs.Prelude.{◌≡◌, nat_lt, take, IfOk};
ghost use Rattle.refusal_texts.specs.RefusalTexts.{most_told, told_within};

use crate::OutOfMemory;
use std::alloc::Global;
use tac_faults::{Hint, refusals};
use tac_hints::hint;
use tac_lines::Refusal;
use tac_program::Limits;

/// How many refusals of a text are told.
pub const MOST_TOLD: usize = 20;

/// A refusal, and what is told on its mend.
#[derive(Clone, Copy, PartialEq, Eq)]
pub struct ToldRefusal {
    pub refusal: Refusal,
    pub hint: Hint,
}

/// All that is found to be wrong with a text within these limits: nothing where it is a program, and no more than 21 refusals, one more than are
/// told. Fails only where memory runs out.
pub fn told_refusals(
    alloc: Global,
    limits: Limits,
    text: &[u8],
) -> Result<Vec<ToldRefusal>, OutOfMemory>
    ensures { IfOk result (λ told. told.items ≡ told_within limits text.now) }
{
    let found = refusals(alloc, limits, text)?;
    let all = found.as_slice();
    let mut told = Vec::new(alloc);
    for refusal in all {
        let hint = hint(alloc, limits, text, *refusal)?;
        told.push(ToldRefusal {
            refusal: *refusal,
            hint,
        })?;
    }
    Ok(told)
}

/// Those that are told, of the refusals that were found in a text.
pub fn first_told(found: &[ToldRefusal]) -> &[ToldRefusal]
    ensures { result.now ≡ take most_told found.now }
{
    &found[..found.len().min(MOST_TOLD)]
}

/// Whether more were found than are told.
pub fn has_more(found: usize) -> bool
    ensures { result ≡ nat_lt most_told found }
{
    found > MOST_TOLD
}
