// A text to its program, or to its refusal.

ghost use Rattle.std.specs.Prelude.{◌≡◌, ◌+◌, ◌<◌, ◌≤◌, ◌^◌, Some, None, length, map, IfOk, IfErr, OnOk};
ghost use Rattle.tac_reader.specs.Faults.{fault_within, head_of, name_faults, refusal_of, refusal_at, refusal_within};
ghost use Rattle.tac_program.specs.Limits.{longest_text};
ghost use Rattle.tac_lines.specs.code.Lexed.{IfFault};
ghost use Rattle.tac_reader.specs.Parses.{names_in, program_of};
ghost use Rattle.tac_reader.specs.code.ReadFaults.{IfRefused};
ghost use Rattle.tac_reader.specs.Sections.{labels_in, titles};
ghost use Rattle.tac_reader.specs.code.SectionViews.{sections_view};
ghost use Rattle.tac_lines.specs.Text.{line_after, column_after};

use crate::checks::{
    check_callees, check_count, check_jumps, check_labels, check_main, check_procedures,
    check_repeated_callees,
};
use crate::procedure::{program, variables};
use crate::section::{Section, sections};
use std::alloc::Global;
use tac_lines::lex::lex;
use tac_lines::{Fault, Lines, ReadFault, Refusal, RefusalKind, Stop};
use tac_program::{Limits, NameSeeds, NameTable, Program};

/// The line of the place behind these bytes.
fn line_of(before: &[u8]) -> u32
    requires { length before.now < 2 ^ 31 }
    ensures { result ≡ line_after before.now }
{
    1 + before.iter().filter(|byte| **byte == b'\n').count() as u32
}

/// Its column, in bytes.
fn column_of(before: &[u8]) -> u32
    requires { length before.now < 2 ^ 31 }
    ensures { result ≡ column_after before.now }
{
    let mut column = 1;
    for byte in before {
        column = if *byte == b'\n' { 1 } else { column + 1 };
    }
    column
}

/// The refusal of a fault: its place as line and column.
pub fn located_refusal(text: &[u8], fault: Fault) -> Refusal
    requires { length text.now < 2 ^ 31 }
    ensures { result ≡ refusal_at text.now fault }
{
    let place = text.len().min(fault.place as usize);
    let before = &text[..place];
    Refusal {
        kind: fault.kind,
        line: line_of(before),
        column: column_of(before),
    }
}

/// Stops at a fault.
fn refuse_fault(found: Option<Fault>) -> Result<(), Stop>
    ensures ok { OnOk result (found ≡ None) }
    ensures fault { IfErr result (IfFault (λ f. found ≡ Some f)) }
{
    match found {
        None => Ok(()),
        Some(fault) => Err(Stop::Fault(fault)),
    }
}

/// The names of the procedures, and those of each procedure's labels; or the first fault of names.
fn check_names(
    alloc: Global,
    seeds: &mut NameSeeds<'_>,
    text: &[u8],
    sections: &[Section<'_>],
    limits: Limits,
) -> Result<(NameTable, Vec<NameTable>), Stop>
    ensures faultless { OnOk result (head_of (name_faults limits (sections_view text.now sections.now)) ≡ None) }
    ensures procedures { IfOk result (λ names. names.0 ≡ names_in (titles (sections_view text.now sections.now))) }
    ensures labels { IfOk result (λ names. (names.1).items ≡ map (λ s. names_in (labels_in s)) (sections_view text.now sections.now)) }
    ensures fault { IfErr result (IfFault (λ f. head_of (name_faults limits (sections_view text.now sections.now)) ≡ Some f)) }
{
    let procedures = check_procedures(alloc, seeds, text, sections)?;
    let labels = check_labels(alloc, seeds, text, sections)?;
    check_jumps(alloc, text, sections, &labels)?;
    check_callees(alloc, text, sections, &procedures)?;
    check_repeated_callees(alloc, text, sections)?;
    refuse_fault(check_main(&procedures))?;
    refuse_fault(check_count(sections, limits))?;
    Ok((procedures, labels))
}

/// The program of a text no longer than the limits allow, or its first fault.
fn read_checked(alloc: Global, text: &[u8], limits: Limits) -> Result<Program, Stop>
    requires { length text.now ≤ longest_text limits }
    ensures accepted { OnOk result (fault_within limits text.now ≡ None) }
    ensures program { IfOk result (λ p. p ≡ program_of text.now) }
    ensures fault { IfErr result (IfFault (λ f. fault_within limits text.now ≡ Some f)) }
{
    let lexed = lex(alloc, text)?;
    let mut seeds = NameSeeds::of(text);
    let sections = sections(alloc, Lines::of(&lexed))?;
    let (procedures, labels) = check_names(alloc, &mut seeds, text, &sections, limits)?;
    let variables = variables(alloc, &mut seeds, text, &sections)?;
    Ok(program(alloc, text, &sections, procedures, labels, variables)?)
}

/// Reads a program: three-address code with procedures, in the language of `docs/LANGUAGE.md`.
///
/// A text that is no program is refused with the kind of its first fault and its place, in the order
/// of checks that the language has. `OutOfMemory` is answered only where memory was refused; nothing
/// is kept of a text that was not read.
pub fn read(alloc: Global, text: &[u8]) -> Result<Program, ReadFault>
    ensures accepted { OnOk result (refusal_of text.now ≡ None) }
    ensures program { IfOk result (λ p. p ≡ program_of text.now) }
    ensures refused { IfErr result (IfRefused (λ r. refusal_of text.now ≡ Some r)) }
{
    read_within(alloc, text, Limits::Standard)
}

/// Reads a program as `read` does, within these limits.
///
/// The limits say how long the text may be and how many procedures it may have. A text that two of
/// them accept has the same program within both.
pub fn read_within(alloc: Global, text: &[u8], limits: Limits) -> Result<Program, ReadFault>
    ensures accepted { OnOk result (refusal_within limits text.now ≡ None) }
    ensures program { IfOk result (λ p. p ≡ program_of text.now) }
    ensures refused { IfErr result (IfRefused (λ r. refusal_within limits text.now ≡ Some r)) }
{
    if text.len() > limits.text() as usize {
        return Err(ReadFault::Refused(Refusal {
            kind: RefusalKind::TextTooLong,
            line: 1,
            column: 1,
        }));
    }
    match read_checked(alloc, text, limits) {
        Ok(program) => Ok(program),
        Err(Stop::Fault(fault)) => Err(ReadFault::Refused(located_refusal(text, fault))),
        Err(Stop::OutOfMemory) => Err(ReadFault::OutOfMemory),
    }
}
