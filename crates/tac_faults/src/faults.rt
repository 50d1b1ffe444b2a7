// A text to all that is wrong with it.

ghost use Rattle.std.specs.Prelude.{◌≡◌, ◌<◌, ◌≤◌, ◌^◌, map, take, length, IfOk};
ghost use Rattle.tac_faults.specs.Listed.{faults_within, most_found, refusals_within};
ghost use Rattle.tac_program.specs.Limits.{longest_text};
ghost use Rattle.tac_reader.specs.Faults.{refusal_at};

use crate::lines::line_faults;
use crate::names::name_faults;
use crate::told::MOST_FOUND;
use std::alloc::Global;
use tac_lines::lex::lex;
use tac_lines::{Fault, Lines, OutOfMemory, Refusal, RefusalKind, Stop};
use tac_program::Limits;
use tac_reader::located_refusal;
use tac_reader::section::sections;

/// The first of these faults, by line and column.
fn located(alloc: Global, text: &[u8], faults: &[Fault]) -> Result<Vec<Refusal>, OutOfMemory>
    requires { length text.now < 2 ^ 31 }
    ensures { IfOk result (λ found. found.items ≡ map (refusal_at text.now) (take most_found faults.now)) }
{
    let mut found = Vec::with_capacity(alloc, MOST_FOUND)?;
    for fault in &faults[..faults.len().min(MOST_FOUND)] {
        found.push(located_refusal(text, *fault))?;
    }
    Ok(found)
}

/// The faults of a text no longer than the limits allow, at least as many as are looked for.
fn faults(alloc: Global, limits: Limits, text: &[u8]) -> Result<Vec<Fault>, OutOfMemory>
    requires { length text.now ≤ longest_text limits }
    ensures { IfOk result (λ found. take most_found found.items ≡ take most_found (faults_within limits text.now)) }
{
    match lex(alloc, text) {
        Ok(lexed) => {
            let sections = sections(alloc, Lines::of(&lexed))?;
            name_faults(alloc, text, &sections, limits)
        }
        Err(Stop::Fault(_)) => line_faults(alloc, text),
        Err(Stop::OutOfMemory) => Err(OutOfMemory),
    }
}

/// All that is wrong with a text within these limits, as far as it is looked for: no more than `MOST_FOUND` faults.
///
/// There are none exactly where `tac_reader::read_within` accepts the text, and else the first is the one for
/// which it refuses it. Of each line that has faults its first one is told, and the faults of names where no
/// line has one. `OutOfMemory` is answered only where memory was refused.
pub fn refusals(alloc: Global, limits: Limits, text: &[u8]) -> Result<Vec<Refusal>, OutOfMemory>
    ensures { IfOk result (λ found. found.items ≡ refusals_within limits text.now) }
{
    if text.len() > limits.text() as usize {
        let mut found = Vec::new(alloc);
        found.push(Refusal {
            kind: RefusalKind::TextTooLong,
            line: 1,
            column: 1,
        })?;
        return Ok(found);
    }
    let faults = faults(alloc, limits, text)?;
    located(alloc, text, &faults)
}
