// The program and the graph of a text.

ghost use Rattle.std.specs.Prelude.{◌≡◌, IfOk, IfErr, OnOk, None, Some};
ghost use Rattle.flow_graph.specs.Limits.{HasFewBits, HasFewPoints};
ghost use Rattle.tac_reader.specs.Faults.{refusal_within};
ghost use Rattle.tac_reader.specs.Parses.{program_of as program_in};
ghost use Rattle.flow_records.specs.Faults.{IsOverLimit, IsUnread};
ghost use Rattle.flow_records.specs.Numbers.{limits_of};
ghost use Rattle.flow_records.specs.declared.fault.Fault.TheVariants.{BadLimits};

use crate::fault::Fault;
use flow_graph::{Graph, GraphFault};
use std::alloc::Global;
use tac_lines::ReadFault;
use tac_program::{Limits, Program};
use tac_reader::read_within;

/// The limits of a number: 0 for the standard and 1 for the large ones. `BadLimits` for any other.
pub fn find_limits(number: u32) -> Result<Limits, Fault>
    ensures limits { IfOk result (λ limits. limits_of number ≡ Some limits) }
    ensures fault { IfErr result (λ fault. (fault ≡ BadLimits) × (limits_of number ≡ None)) }
{
    match number {
        0 => Ok(Limits::Standard),
        1 => Ok(Limits::Large),
        _ => Err(Fault::BadLimits),
    }
}

/// The program of a text within limits.
pub(crate) fn program_of(alloc: Global, text: &[u8], limits: Limits) -> Result<Program, Fault>
    ensures program { IfOk result (λ program. program ≡ program_in text.now) }
    ensures accepted { OnOk result (refusal_within limits text.now ≡ None) }
    ensures fault { IfErr result (IsUnread limits text.now) }
{
    match read_within(alloc, text, limits) {
        Ok(program) => Ok(program),
        Err(ReadFault::Refused(refusal)) => Err(Fault::Refused(refusal)),
        Err(ReadFault::OutOfMemory) => Err(Fault::OutOfMemory),
    }
}

/// The graph of a program within limits.
pub(crate) fn graph_of<'p>(
    alloc: Global,
    program: &'p Program,
    limits: Limits,
) -> Result<Graph<'p>, Fault>
    ensures graph { IfOk result (λ graph. graph ≡ program.now) }
    ensures few_points { OnOk result (HasFewPoints limits program.now) }
    ensures few_bits { OnOk result (HasFewBits limits program.now) }
    ensures fault { IfErr result (IsOverLimit limits program.now) }
{
    match Graph::build_within(alloc, program, limits) {
        Ok(graph) => Ok(graph),
        Err(GraphFault::OutOfMemory) => Err(Fault::OutOfMemory),
        Err(GraphFault::TooManyPoints) => Err(Fault::TooManyPoints),
        Err(GraphFault::TooManyBits) => Err(Fault::TooManyBits),
    }
}
