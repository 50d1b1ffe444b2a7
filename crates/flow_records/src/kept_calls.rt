// What a call answers for a kept program.

ghost use Rattle.std.specs.Prelude.{◌≡◌, length, IfErr, OnOk, OnErr};
ghost use Rattle.flow_graph.specs.Points.{point_count};
ghost use Rattle.flow_graph.specs.Universes.{definitions as definitions_in, expressions as expressions_in};
ghost use Rattle.flow_reports.specs.Reports.{ListsSafely};
ghost use Rattle.flow_records.specs.Facts.{AreFactsOfNumber, IsNumberFault};
ghost use Rattle.flow_records.specs.Faults.{IsMemoryFault, IsPartsFault};
ghost use Rattle.flow_records.specs.Rooms.{IsListFault, HoldsList, IsListKept};
ghost use Rattle.flow_records.specs.Parts.{AreParts, ArePartsOf, definition_part, expression_part, point_part, sizes_of};
ghost use Rattle.flow_records.specs.Statements.{statement_part};

use crate::calls::{NumberedFacts, check_table, find_analysis, find_end};
use crate::fault::Fault;
use crate::parts::{
    Definition, Expression, Point, Sizes, fill_definitions, fill_expressions, fill_points,
    find_sizes,
};
use crate::statements::{NumberedStatement, fill_statements};
use crate::texts::put_report;
use flow_kept::{Kept, Ranges, put_facts};
use gen_kill::Problem;
use std::alloc::Global;

/// How large a kept program is.
pub fn sizes_of_kept(alloc: Global, kept: &Kept, sizes: &mut Sizes) -> Result<(), Fault>
    ensures sizes { OnOk result (sizes.new ≡ sizes_of kept.now.program) }
    ensures kept { OnErr result (sizes.new ≡ sizes.old) }
    ensures fault { IfErr result IsMemoryFault }
{
    let graph = kept.graph(alloc)?;
    *sizes = find_sizes(&graph);
    Ok(())
}

/// What the points of a kept program are, in room for as many as it has.
pub fn points_of_kept(alloc: Global, kept: &Kept, points: &mut [Point]) -> Result<(), Fault>
    ensures points { OnOk result (AreParts (point_part kept.now.program) (point_count kept.now.program) points.new) }
    ensures kept { OnErr result (points.new ≡ points.old) }
    ensures fault { IfErr result (IsPartsFault (length points.old) (point_count kept.now.program)) }
{
    let graph = kept.graph(alloc)?;
    fill_points(&graph, points)
}

/// What the definitions of a kept program are, in room for as many as it has.
pub fn definitions_of_kept(
    alloc: Global,
    kept: &Kept,
    definitions: &mut [Definition],
) -> Result<(), Fault>
    ensures definitions { OnOk result (ArePartsOf definition_part (definitions_in kept.now.program) definitions.new) }
    ensures kept { OnErr result (definitions.new ≡ definitions.old) }
    ensures fault { IfErr result (IsPartsFault (length definitions.old) (length (definitions_in kept.now.program))) }
{
    let graph = kept.graph(alloc)?;
    fill_definitions(&graph, definitions)
}

/// What the expressions of a kept program are, in room for as many as it has.
pub fn expressions_of_kept(
    alloc: Global,
    kept: &Kept,
    expressions: &mut [Expression],
) -> Result<(), Fault>
    ensures expressions { OnOk result (ArePartsOf expression_part (expressions_in kept.now.program) expressions.new) }
    ensures kept { OnErr result (expressions.new ≡ expressions.old) }
    ensures fault { IfErr result (IsPartsFault (length expressions.old) (length (expressions_in kept.now.program))) }
{
    let graph = kept.graph(alloc)?;
    fill_expressions(&graph, expressions)
}

/// What stands at the points of a kept program, in room for as many as it has.
pub fn statements_of_kept(
    alloc: Global,
    kept: &Kept,
    statements: &mut [NumberedStatement],
) -> Result<(), Fault>
    ensures statements { OnOk result (AreParts (statement_part kept.now.program) (point_count kept.now.program) statements.new) }
    ensures kept { OnErr result (statements.new ≡ statements.old) }
    ensures fault { IfErr result (IsPartsFault (length statements.old) (point_count kept.now.program)) }
{
    let graph = kept.graph(alloc)?;
    fill_statements(&graph, statements)
}

/// The facts of an analysis of a kept program, as [`facts_of_text`](crate::facts_of_text) has those of a text's.
pub fn facts_of_kept(
    alloc: Global,
    kept: &Kept,
    asked: NumberedFacts,
    flags: &mut [u8],
    words: &mut [u64],
) -> Result<(), Fault>
    ensures facts { OnOk result (AreFactsOfNumber kept.now.program
        asked.analysis asked.points.0 asked.points.1 asked.bits.0 asked.bits.1 flags.new words.new) }
    ensures kept { OnErr result ((flags.new ≡ flags.old) × (words.new ≡ words.old)) }
    ensures fault { IfErr result
        (IsNumberFault asked.analysis asked.points.0 asked.points.1 asked.bits.0 asked.bits.1
        (length flags.old) (length words.old) kept.now.program) }
{
    let Some(analysis) = find_analysis(asked.analysis) else {
        return Err(Fault::BadAnalysis);
    };
    let graph = kept.graph(alloc)?;
    let ranges = Ranges {
        points: (asked.points.0, find_end(&graph, asked.points.1)),
        bits: asked.bits,
    };
    check_table(&graph, analysis, ranges, flags.len(), words.len())?;
    let problem = Problem::of(alloc, &graph, analysis)?;
    put_facts(alloc, problem, kept.routes(analysis), ranges, flags, words)?;
    Ok(())
}

/// The report on a kept program, and how long it is. It makes edges and paths of its own.
pub fn report_of_kept(
    alloc: Global,
    kept: &Kept,
    bytes: &mut [u8],
    size: &mut usize,
) -> Result<(), Fault>
    ensures held { OnOk result (HoldsList (ListsSafely kept.now.program) bytes.old bytes.new size.new) }
    ensures kept { IfErr result (IsListKept bytes.old bytes.new size.old size.new) }
    ensures fault { IfErr result (IsListFault (ListsSafely kept.now.program) (length bytes.old) size.new) }
{
    let graph = kept.graph(alloc)?;
    put_report(alloc, &graph, bytes, size)
}
