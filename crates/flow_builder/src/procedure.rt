// Procedures of statements and labels by numbers.

ghost use Rattle.std.specs.Prelude.{◌≡◌, ◌+◌, ◌^◌, ◌<◌, ◌≤◌, All, IfErr, IfOk, OnOk, length};
ghost use Rattle.flow_builder.specs.Built.{procedure_of};
ghost use Rattle.flow_builder.specs.Checks.{IsKnown, IsProcedureFault};
ghost use Rattle.tac_program.specs.Sound.{AllDiffer, IsLawfulName, IsSoundProcedure};

use crate::arrays::BuiltStatement;
use crate::fault::BuildFault;
use crate::labels::labels;
use crate::names::first_names;
use crate::sound::Counts;
use crate::statements::statements;
use std::alloc::Global;
use tac_program::{NameTable, Proc};

/// What all procedures share: the names of labels with their bytes, all callees, and how many variables and procedures there are.
#[derive(Clone, Copy)]
pub(crate) struct Shared<'a> {
    pub(crate) label_names: &'a NameTable,
    pub(crate) label_bytes: &'a [u8],
    pub(crate) callees: &'a [u32],
    pub(crate) variables: u32,
    pub(crate) procedures: u32,
}

/// What is a procedure's own: its statements and the places of its labels, and the numbers at which these begin among all.
#[derive(Clone, Copy)]
pub(crate) struct Own<'a> {
    pub(crate) statements: &'a [BuiltStatement],
    pub(crate) first_statement: u32,
    pub(crate) places: &'a [u32],
    pub(crate) first_label: u32,
}

/// A procedure of its number.
pub(crate) fn procedure(
    alloc: Global,
    shared: Shared<'_>,
    own: Own<'_>,
    number: u32,
) -> Result<Proc, BuildFault>
    requires lawful { All IsLawfulName shared.label_names.now }
    requires differ { AllDiffer shared.label_names.now }
    requires statements { own.first_statement + length own.statements.now < 2 ^ 32 }
    requires labels { own.first_label + length own.places.now < 2 ^ 32 }
    ensures procedure { IfOk result
        (λ p. p ≡ procedure_of shared.entry.label_names.now shared.entry.callees.now number own.entry.statements.now own.entry.places.now) }
    ensures sound { IfOk result (λ p. IsSoundProcedure shared.entry.variables shared.entry.procedures p) }
    ensures known { OnOk result (All (IsKnown shared.entry.callees.now) own.entry.statements.now) }
    ensures named { OnOk result (length own.entry.places.now ≤ length shared.entry.label_names.now) }
    ensures fault { IfErr result (IsProcedureFault shared.entry.variables shared.entry.procedures (length shared.entry.label_names.now)
        shared.entry.callees.now own.entry.statements.now own.entry.places.now own.entry.first_statement own.entry.first_label) }
{
    if (shared.label_names.len() as usize) < own.places.len() {
        return Err(BuildFault::BadCounts);
    }
    let counts = Counts {
        variables: shared.variables,
        labels: own.places.len() as u32,
        procedures: shared.procedures,
    };
    let statements = statements(
        alloc,
        shared.callees,
        own.statements,
        own.first_statement,
        counts,
    )?;
    let labels = labels(
        alloc,
        own.places,
        own.first_label,
        own.statements.len() as u32,
    )?;
    let count = own.places.len() as u32;
    let names = first_names(alloc, shared.label_bytes, shared.label_names, count)?;
    Ok(Proc::new(number, labels, names, statements))
}
