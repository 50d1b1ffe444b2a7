// Handles that are opened with arrays.

ghost use Rattle.std.specs.Prelude.{◌≡◌, All, IfErr, IfOk, None, OnErr, OnOk, Some};
ghost use Rattle.flow_builder.specs.Built.{program_of};
ghost use Rattle.flow_builder.specs.Checks.{AreFew, Fit, IsKnown};
ghost use Rattle.flow_graph.specs.Limits.{HasFewBits, HasFewPoints};
ghost use Rattle.tacflow_c.specs.Builds.{AnswersBuild, IsBuildable, IsUnbuilt, build_place, build_status, place_of, unbuilt_in};
ghost use Rattle.flow_records.specs.Faults.{IsOverLimit};

use crate::handle::{Handle, put_shared};
use crate::statuses::asked_status;
use flow_builder::{Arrays, BuildFault, BuiltNames, BuiltProcedure, BuiltStatement, build};
use flow_graph::GraphFault;
use flow_kept::{Kept, Shared};
use flow_records::{Fault, find_limits};
use std::alloc::Global;
use tac_program::{Limits, Program};

/// What is wrong with arrays: 1 a statement, 2 a label, the name 3 of a procedure, 4 of a variable or 5 of a label, each by its number; 6 numbers
/// that do not fit one another; 7 no procedure is called `main`; 8 too many procedures; 9 too many statements, labels or variables.
#[repr(C)]
#[derive(Clone, Copy)]
pub struct BuildPlace {
    pub fault: u32,
    pub number: u32,
}

/// Why a handle is not opened with arrays.
#[derive(Clone, Copy)]
pub(crate) enum Unbuilt {
    /// They make no program.
    NotBuilt(BuildFault),
    /// It is not kept, or there are no such limits, or the handle is open.
    NotOpened(Fault),
}

fn place(fault: BuildFault) -> BuildPlace
    ensures { result ≡ place_of fault }
{
    let (fault, number) = match fault {
        BuildFault::BadStatement(number) => (1, number),
        BuildFault::BadLabel(number) => (2, number),
        BuildFault::BadProcedureName(number) => (3, number),
        BuildFault::BadVariableName(number) => (4, number),
        BuildFault::BadLabelName(number) => (5, number),
        BuildFault::BadCounts => (6, 0),
        BuildFault::NoMain => (7, 0),
        BuildFault::TooManyProcedures => (8, 0),
        BuildFault::TooLong => (9, 0),
        BuildFault::OutOfMemory => (0, 0),
    };
    BuildPlace { fault, number }
}

// A built program, kept.
fn keep_program(alloc: Global, program: Program, limits: Limits) -> Result<Shared, Fault>
    ensures kept { IfOk result (λ shared. shared ≡ record { program = program; limits = limits }) }
    ensures few_points { OnOk result (HasFewPoints limits program) }
    ensures few_bits { OnOk result (HasFewBits limits program) }
    ensures fault { IfErr result (IsOverLimit limits program) }
{
    match Kept::of(alloc, program, limits) {
        Ok(kept) => Ok(Shared::of(alloc, kept)?),
        Err(GraphFault::OutOfMemory) => Err(Fault::OutOfMemory),
        Err(GraphFault::TooManyPoints) => Err(Fault::TooManyPoints),
        Err(GraphFault::TooManyBits) => Err(Fault::TooManyBits),
    }
}

// The program of arrays.
fn program(alloc: Global, arrays: Arrays<'_>, limits: Limits) -> Result<Program, Unbuilt>
    ensures program { IfOk result (λ program. program ≡ program_of arrays.entry) }
    ensures few { OnOk result (AreFew limits arrays.entry) }
    ensures fit { OnOk result (Fit arrays.entry) }
    ensures known { OnOk result (All (IsKnown arrays.entry.callees.now) arrays.entry.statements.now) }
    ensures fault { IfErr result (IsUnbuilt limits arrays.entry None) }
{
    match build(alloc, arrays, limits) {
        Ok(program) => Ok(program),
        Err(BuildFault::OutOfMemory) => Err(Unbuilt::NotOpened(Fault::OutOfMemory)),
        Err(fault) => Err(Unbuilt::NotBuilt(fault)),
    }
}

// The program of arrays, kept.
fn keep(alloc: Global, arrays: Arrays<'_>, limits: Limits) -> Result<Shared, Unbuilt>
    ensures kept { IfOk result (λ shared. shared ≡ record { program = program_of arrays.entry; limits = limits }) }
    ensures buildable { OnOk result (IsBuildable limits arrays.entry) }
    ensures fault { IfErr result (IsUnbuilt limits arrays.entry None) }
{
    let program = program(alloc, arrays, limits)?;
    match keep_program(alloc, program, limits) {
        Ok(shared) => Ok(shared),
        Err(fault) => Err(Unbuilt::NotOpened(fault)),
    }
}

// Opens a closed handle with the program of arrays within limits.
fn open_built(
    alloc: Global,
    arrays: Arrays<'_>,
    limits: Limits,
    handle: &mut Handle,
) -> Result<(), Unbuilt>
    ensures was_closed { OnOk result (handle.old.held.value ≡ None) }
    ensures opened { OnOk result (handle.new.held.value ≡ Some (record { program = program_of arrays.entry; limits = limits })) }
    ensures buildable { OnOk result (IsBuildable limits arrays.entry) }
    ensures kept { OnErr result (handle.new.held.value ≡ handle.old.held.value) }
    ensures fault { IfErr result (IsUnbuilt limits arrays.entry handle.old.held.value) }
{
    if handle.is_open {
        return Err(Unbuilt::NotOpened(Fault::BadHandle));
    }
    let shared = keep(alloc, arrays, limits)?;
    match put_shared(alloc, shared, handle) {
        Ok(()) => Ok(()),
        Err(fault) => Err(Unbuilt::NotOpened(fault)),
    }
}

// The status of an answer. What is wrong with arrays is told too.
fn built_status(answer: Result<(), Unbuilt>, told: &mut BuildPlace) -> u32
    ensures status { result ≡ build_status (unbuilt_in answer) }
    ensures place { told.new ≡ build_place (unbuilt_in answer) told.old }
{
    match answer {
        Ok(()) => 0,
        Err(Unbuilt::NotBuilt(fault)) => {
            *told = place(fault);
            9
        }
        Err(Unbuilt::NotOpened(fault)) => asked_status(Err(fault)),
    }
}

/// Opens a closed handle with the program that arrays of numbers and names stand for, within limits. No text is read: the handle keeps exactly
/// the arrays' program, whose spans have the lines that the statements tell, and no bytes.
#[unsafe(no_mangle)]
pub extern "C" fn tacflow_c_build(
    alloc: Global,
    procedures: &[BuiltProcedure],
    statements: &[BuiltStatement],
    labels: &[u32],
    callees: &[u32],
    procedure_ends: &[usize],
    procedure_names: &[u8],
    variable_ends: &[usize],
    variable_names: &[u8],
    label_ends: &[usize],
    label_names: &[u8],
    limits: u32,
    handle: &mut Handle,
    told: &mut BuildPlace,
) -> u32
    ensures { AnswersBuild result limits
        (record {
          procedures = procedures.entry;
          statements = statements.entry;
          labels = labels.entry;
          callees = callees.entry;
          procedure_names = record { ends = procedure_ends.entry; bytes = procedure_names.entry };
          variable_names = record { ends = variable_ends.entry; bytes = variable_names.entry };
          label_names = record { ends = label_ends.entry; bytes = label_names.entry };
        })
        handle.old.held.value handle.new.held.value told.old told.new }
{
    let arrays = Arrays {
        procedures,
        statements,
        labels,
        callees,
        procedure_names: BuiltNames {
            ends: procedure_ends,
            bytes: procedure_names,
        },
        variable_names: BuiltNames {
            ends: variable_ends,
            bytes: variable_names,
        },
        label_names: BuiltNames {
            ends: label_ends,
            bytes: label_names,
        },
    };
    let answer = match find_limits(limits) {
        Ok(within) => open_built(alloc, arrays, within, handle),
        Err(fault) => Err(Unbuilt::NotOpened(fault)),
    };
    built_status(answer, told)
}
