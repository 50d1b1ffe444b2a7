// What a call answers for a text.

ghost use Rattle.std.specs.Prelude.{◌≡◌, ◌≤◌, None, length, IfErr, OnOk, OnErr};
ghost use Rattle.flow_graph.specs.Points.{point_count};
ghost use Rattle.flow_graph.specs.Universes.{definitions as definitions_in, expressions as expressions_in};
ghost use Rattle.tac_reader.specs.Parses.{program_of as program_in};
ghost use Rattle.flow_records.specs.Facts.{AreFactsOfText, IsTableFault};
ghost use Rattle.tac_reader.specs.Faults.{refusal_within};
ghost use Rattle.flow_records.specs.Names.{AreNames, IsNamesFault, names_of as names_in};
ghost use Rattle.flow_records.specs.Parts.{AreParts, ArePartsOf, definition_part, expression_part, point_part, sizes_of};
ghost use Rattle.flow_kept.specs.Facts.{AreFactsOf, AreInRange, HasRoom};
ghost use Rattle.flow_records.specs.Faults.{HasGraph, IsBadTable, IsFaultOf, IsRoomFault};
ghost use Rattle.flow_records.specs.Numbers.{analysis_of, end_of};

use crate::fault::Fault;
use crate::names::{Named, fill_names};
use crate::parts::{
    Definition, Expression, Point, Sizes, fill_definitions, fill_expressions, fill_points,
    find_sizes,
};
use crate::text::{graph_of, program_of};
use bit_rows::words_for;
use flow_graph::{Analysis, Graph, OutOfMemory};
use flow_kept::{Ranges, put_facts};
use gen_kill::Problem;
use gk_solve::Routes;
use std::alloc::Global;
use tac_program::Limits;

/// How large a text's program within limits is.
pub fn sizes_of_text(
    alloc: Global,
    text: &[u8],
    limits: Limits,
    sizes: &mut Sizes,
) -> Result<(), Fault>
    ensures graph { OnOk result (HasGraph limits text.now) }
    ensures sizes { OnOk result (sizes.new ≡ sizes_of (program_in text.now)) }
    ensures kept { OnErr result (sizes.new ≡ sizes.old) }
    ensures fault { IfErr result (IsFaultOf limits text.now) }
{
    let program = program_of(alloc, text, limits)?;
    let graph = graph_of(alloc, &program, limits)?;
    *sizes = find_sizes(&graph);
    Ok(())
}

/// What the points of a text's program within limits are, in room for as many as it has.
pub fn points_of_text(
    alloc: Global,
    text: &[u8],
    limits: Limits,
    points: &mut [Point],
) -> Result<(), Fault>
    ensures graph { OnOk result (HasGraph limits text.now) }
    ensures points { OnOk result (AreParts (point_part (program_in text.now)) (point_count (program_in text.now)) points.new) }
    ensures kept { OnErr result (points.new ≡ points.old) }
    ensures fault { IfErr result (IsRoomFault limits text.now (length points.old) (point_count (program_in text.now))) }
{
    let program = program_of(alloc, text, limits)?;
    let graph = graph_of(alloc, &program, limits)?;
    fill_points(&graph, points)
}

/// What the definitions of a text's program within limits are, in room for as many as it has.
pub fn definitions_of_text(
    alloc: Global,
    text: &[u8],
    limits: Limits,
    definitions: &mut [Definition],
) -> Result<(), Fault>
    ensures graph { OnOk result (HasGraph limits text.now) }
    ensures definitions { OnOk result (ArePartsOf definition_part (definitions_in (program_in text.now)) definitions.new) }
    ensures kept { OnErr result (definitions.new ≡ definitions.old) }
    ensures fault { IfErr result (IsRoomFault limits text.now (length definitions.old) (length (definitions_in (program_in text.now)))) }
{
    let program = program_of(alloc, text, limits)?;
    let graph = graph_of(alloc, &program, limits)?;
    fill_definitions(&graph, definitions)
}

/// What the expressions of a text's program within limits are, in room for as many as it has.
pub fn expressions_of_text(
    alloc: Global,
    text: &[u8],
    limits: Limits,
    expressions: &mut [Expression],
) -> Result<(), Fault>
    ensures graph { OnOk result (HasGraph limits text.now) }
    ensures expressions { OnOk result (ArePartsOf expression_part (expressions_in (program_in text.now)) expressions.new) }
    ensures kept { OnErr result (expressions.new ≡ expressions.old) }
    ensures fault { IfErr result (IsRoomFault limits text.now (length expressions.old) (length (expressions_in (program_in text.now)))) }
{
    let program = program_of(alloc, text, limits)?;
    let graph = graph_of(alloc, &program, limits)?;
    fill_expressions(&graph, expressions)
}

/// Facts that are asked for: the number of an analysis, and ranges of points and of its bits, of which the first is in it and the second not.
#[derive(Clone, Copy)]
pub struct NumberedFacts {
    pub analysis: u32,
    pub points: (u32, u32),
    pub bits: (u32, u32),
}

/// The analysis of a number, where there is one: 0 to 3 in the order of [`Analysis`].
pub fn find_analysis(number: u32) -> Option<Analysis>
    ensures { result ≡ analysis_of number }
{
    match number {
        0 => Some(Analysis::Reach),
        1 => Some(Analysis::Live),
        2 => Some(Analysis::Avail),
        3 => Some(Analysis::Busy),
        _ => None,
    }
}

/// Where a range of points ends: the largest number stands for the end of all points.
pub(crate) fn find_end(graph: &Graph<'_>, until: u32) -> u32
    ensures { result ≡ end_of graph.now until }
{
    if until == u32::MAX {
        graph.points()
    } else {
        until
    }
}

/// Whether points are none of the program, bits none of the analysis, or room is not what their facts need.
pub(crate) fn check_table(
    graph: &Graph<'_>,
    analysis: Analysis,
    ranges: Ranges,
    flags: usize,
    words: usize,
) -> Result<(), Fault>
    ensures in_range { OnOk result (AreInRange graph.now analysis ranges.points.0 ranges.points.1 ranges.bits.0 ranges.bits.1) }
    ensures room { OnOk result (HasRoom ranges.points.0 ranges.points.1 ranges.bits.0 ranges.bits.1 flags words) }
    ensures fault { IfErr result (IsBadTable graph.now analysis ranges.points.0 ranges.points.1 ranges.bits.0 ranges.bits.1 flags words) }
{
    let (from, until) = ranges.points;
    let (lo, hi) = ranges.bits;
    if until < from || graph.points() < until || hi < lo || graph.bits(analysis) < hi {
        return Err(Fault::BadRange);
    }
    let rows = (until - from) as usize;
    let count = (words_for(hi) - lo / 64) as usize;
    if flags != rows || words != rows * count {
        return Err(Fault::BadRoom);
    }
    Ok(())
}

// Puts the facts of an analysis of a graph, by routes that are made for it.
fn put_facts_of(
    alloc: Global,
    graph: &Graph<'_>,
    analysis: Analysis,
    ranges: Ranges,
    flags: &mut [u8],
    words: &mut [u64],
) -> Result<(), OutOfMemory>
    requires in_range { AreInRange graph.now analysis ranges.points.0 ranges.points.1 ranges.bits.0 ranges.bits.1 }
    requires room { HasRoom ranges.points.0 ranges.points.1 ranges.bits.0 ranges.bits.1 (length flags.old) (length words.old) }
    ensures facts { OnOk result (AreFactsOf graph.now analysis ranges.points.0 ranges.points.1 ranges.bits.0 ranges.bits.1 flags.new words.new) }
    ensures kept { OnErr result ((flags.new ≡ flags.old) × (words.new ≡ words.old)) }
{
    let problem = Problem::of(alloc, graph, analysis)?;
    let routes = Routes::of(alloc, &problem)?;
    put_facts(alloc, problem, &routes, ranges, flags, words)
}

/// The facts of an analysis of a text's program within limits, at a range of its points and on a range of the analysis's bits: for each point a
/// flag, 1 where it has a valid path, and the words `lo / 64` to `(hi + 63) / 64` of its set. There is room for exactly these.
pub fn facts_of_text(
    alloc: Global,
    text: &[u8],
    limits: Limits,
    asked: NumberedFacts,
    flags: &mut [u8],
    words: &mut [u64],
) -> Result<(), Fault>
    ensures facts { OnOk result (AreFactsOfText limits text.now
        asked.analysis asked.points.0 asked.points.1 asked.bits.0 asked.bits.1 flags.new words.new) }
    ensures kept { OnErr result ((flags.new ≡ flags.old) × (words.new ≡ words.old)) }
    ensures fault { IfErr result (IsTableFault limits text.now
        asked.analysis asked.points.0 asked.points.1 asked.bits.0 asked.bits.1 (length flags.old) (length words.old)) }
{
    let Some(analysis) = find_analysis(asked.analysis) else {
        return Err(Fault::BadAnalysis);
    };
    let program = program_of(alloc, text, limits)?;
    let graph = graph_of(alloc, &program, limits)?;
    let ranges = Ranges {
        points: (asked.points.0, find_end(&graph, asked.points.1)),
        bits: asked.bits,
    };
    check_table(&graph, analysis, ranges, flags.len(), words.len())?;
    put_facts_of(alloc, &graph, analysis, ranges, flags, words)?;
    Ok(())
}

/// The names of a text's procedures or variables within limits, end to end, and where each ends. There is an end for each, and bytes for all.
pub fn names_of_text(
    alloc: Global,
    text: &[u8],
    limits: Limits,
    named: Named,
    ends: &mut [usize],
    bytes: &mut [u8],
) -> Result<(), Fault>
    ensures accepted { OnOk result (refusal_within limits text.now ≡ None) }
    ensures names { OnOk result (AreNames (names_in named (program_in text.now)) ends.new bytes.old bytes.new) }
    ensures kept { OnErr result ((ends.new ≡ ends.old) × (bytes.new ≡ bytes.old)) }
    ensures fault { IfErr result (IsNamesFault limits text.now named (length ends.old) (length bytes.old)) }
{
    let program = program_of(alloc, text, limits)?;
    fill_names(&program, named, ends, bytes)
}
