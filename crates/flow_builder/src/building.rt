// The program of arrays.

ghost use Rattle.std.specs.Prelude.{◌≡◌, ◌++◌, ◌∷◌, [], ◌^◌, ◌<◌, ◌≤◌, All, IfErr, IfOk, OnOk, length, sum_by};
ghost use Rattle.flow_builder.specs.Built.{names_of, procedures_from, program_of};
ghost use Rattle.flow_builder.specs.Checks.{AreFew, Fit, IsBuildFault, IsKnown, IsProceduresFault, IsTableFault, bad_name_of, names_chosen};
ghost use Rattle.tac_program.specs.Sound.{AllDiffer, IsLawfulName, IsSoundProcedure};
ghost use Rattle.tac_program.specs.declared.limits.Limits.TheVariants.{Large};

use crate::OutOfMemory;
use crate::arrays::{Arrays, BuiltNames};
use crate::fault::BuildFault;
use crate::names::{NamesFault, names};
use crate::procedure::{Own, Shared, procedure};
use std::alloc::Global;
use tac_program::{Limits, NameTable, Proc, Program};

// Whether arrays are within limits, and each procedure has a name.
fn check(arrays: Arrays<'_>, limits: Limits) -> Result<(), BuildFault>
    ensures few { OnOk result (AreFew limits arrays.entry) }
    ensures named { OnOk result (length arrays.entry.procedure_names.ends.now ≡ length arrays.entry.procedures.now) }
    ensures fault { IfErr result (IsBuildFault limits arrays.entry) }
{
    if arrays.procedures.len() > limits.procedures() as usize {
        return Err(BuildFault::TooManyProcedures);
    }
    let most = limits.text() as usize;
    if arrays.statements.len() > most || arrays.labels.len() > most {
        return Err(BuildFault::TooLong);
    }
    if arrays.variable_names.ends.len() > most || arrays.label_names.ends.len() > most {
        return Err(BuildFault::TooLong);
    }
    if arrays.procedure_names.ends.len() != arrays.procedures.len() {
        return Err(BuildFault::BadCounts);
    }
    Ok(())
}

/// Which names.
#[derive(Clone, Copy)]
enum Names {
    Procedures,
    Variables,
    Labels,
}

fn chosen<'a>(arrays: Arrays<'a>, which: Names) -> BuiltNames<'a>
    ensures { result ≡ names_chosen which arrays.entry }
{
    match which {
        Names::Procedures => arrays.procedure_names,
        Names::Variables => arrays.variable_names,
        Names::Labels => arrays.label_names,
    }
}

fn bad_name(which: Names, number: u32) -> BuildFault
    ensures { result ≡ bad_name_of which number }
{
    match which {
        Names::Procedures => BuildFault::BadProcedureName(number),
        Names::Variables => BuildFault::BadVariableName(number),
        Names::Labels => BuildFault::BadLabelName(number),
    }
}

// A table of names.
fn table(alloc: Global, arrays: Arrays<'_>, which: Names) -> Result<NameTable, BuildFault>
    requires { length (names_chosen which arrays).ends.now < 2 ^ 32 }
    ensures names { IfOk result (λ table. table ≡ names_of (names_chosen which arrays.entry)) }
    ensures lawful { IfOk result (λ table. All IsLawfulName table) }
    ensures differ { IfOk result (λ table. AllDiffer table) }
    ensures fault { IfErr result (IsTableFault arrays.entry) }
{
    match names(alloc, chosen(arrays, which)) {
        Ok(table) => Ok(table),
        Err(NamesFault::Bad(number)) => Err(bad_name(which, number)),
        Err(NamesFault::OutOfMemory) => Err(BuildFault::OutOfMemory),
    }
}

// Puts a procedure last.
fn put(procedures: &mut Vec<Proc>, procedure: Proc) -> Result<(), OutOfMemory>
    ensures { OnOk result (procedures.new.items ≡ procedures.old.items ++ procedure ∷ []) }
{
    procedures.push(procedure)?;
    Ok(())
}

// All procedures.
fn procedures(
    alloc: Global,
    arrays: Arrays<'_>,
    shared: Shared<'_>,
) -> Result<Vec<Proc>, BuildFault>
    requires few { AreFew Large arrays }
    requires callees { shared.callees.now ≡ arrays.callees.now }
    requires label_names { length shared.label_names.now ≡ length arrays.label_names.ends.now }
    requires lawful { All IsLawfulName shared.label_names.now }
    requires differ { AllDiffer shared.label_names.now }
    ensures procedures { IfOk result (λ procedures. procedures.items ≡ procedures_from shared.entry.label_names.now arrays.entry.callees.now 0
        arrays.entry.procedures.now arrays.entry.statements.now arrays.entry.labels.now) }
    ensures sound { IfOk result (λ procedures. All (IsSoundProcedure shared.entry.variables shared.entry.procedures) procedures.items) }
    ensures statements { OnOk result (sum_by (λ p. p.statements) arrays.entry.procedures.now ≡ length arrays.entry.statements.now) }
    ensures labels { OnOk result (sum_by (λ p. p.labels) arrays.entry.procedures.now ≡ length arrays.entry.labels.now) }
    ensures label_names { OnOk result (All (λ p. p.labels ≤ length arrays.entry.label_names.ends.now) arrays.entry.procedures.now) }
    ensures known { OnOk result (All (IsKnown arrays.entry.callees.now) arrays.entry.statements.now) }
    ensures fault { IfErr result (IsProceduresFault shared.entry.variables shared.entry.procedures arrays.entry) }
{
    let built = arrays.procedures;
    let statements = arrays.statements;
    let places = arrays.labels;
    let mut procedures = Vec::with_capacity(alloc, built.len())?;
    let mut statement = 0;
    let mut label = 0;
    for number in 0..built.len() {
        let next_statement = statement + built[number].statements as usize;
        let next_label = label + built[number].labels as usize;
        if next_statement > statements.len() || next_label > places.len() {
            return Err(BuildFault::BadCounts);
        }
        let own = Own {
            statements: &statements[statement..next_statement],
            first_statement: statement as u32,
            places: &places[label..next_label],
            first_label: label as u32,
        };
        let made = procedure(alloc, shared, own, number as u32)?;
        put(&mut procedures, made)?;
        statement = next_statement;
        label = next_label;
    }
    if statement != statements.len() || label != places.len() {
        return Err(BuildFault::BadCounts);
    }
    Ok(procedures)
}

/// The program that arrays stand for, within limits: at most so many procedures, and no more statements, labels and variables than a text within
/// them can have.
///
/// The fault tells what is wrong first, names before statements: a statement, a label or a name by its number, or that numbers do not fit
/// one another. `OutOfMemory` only where memory was refused.
pub fn build(alloc: Global, arrays: Arrays<'_>, limits: Limits) -> Result<Program, BuildFault>
    ensures program { IfOk result (λ program. program ≡ program_of arrays.entry) }
    ensures few { OnOk result (AreFew limits arrays.entry) }
    ensures fit { OnOk result (Fit arrays.entry) }
    ensures known { OnOk result (All (IsKnown arrays.entry.callees.now) arrays.entry.statements.now) }
    ensures fault { IfErr result (IsBuildFault limits arrays.entry) }
{
    check(arrays, limits)?;
    let procedure_names = table(alloc, arrays, Names::Procedures)?;
    if procedure_names.find(b"main").is_none() {
        return Err(BuildFault::NoMain);
    }
    let variables = table(alloc, arrays, Names::Variables)?;
    let labels = table(alloc, arrays, Names::Labels)?;
    let shared = Shared {
        label_names: &labels,
        label_bytes: arrays.label_names.bytes,
        callees: arrays.callees,
        variables: variables.len(),
        procedures: procedure_names.len(),
    };
    let procedures = procedures(alloc, arrays, shared)?;
    Ok(Program::new(procedures, procedure_names, variables))
}
