// What stands around a remark, as numbers, and why a point is doubtful.

ghost use Rattle.std.specs.Prelude.{◌≡◌, ◌<◌, ◌++◌, ◌↔◌, length, map, IfErr, IfOk, IsTrue, MatchOption, OnErr, OnOk};
ghost use Rattle.flow_graph.specs.Analyses.{shape_of};
ghost use Rattle.flow_graph.specs.Points.{point_count};
ghost use Rattle.flow_graph.specs.Runs.{IsDoubtful};
ghost use Rattle.flow_graph.specs.Universes.{expressions};
ghost use Rattle.flow_reasons.specs.Doubts.{IsDoubtOrigin};
ghost use Rattle.flow_reports.specs.declared.remark.Remark.TheVariants.{Dead};
ghost use Rattle.reason_records.specs.Around.{AreAround, AreAroundRemark, AreLastEvaluations, AreNextEvaluations, AreNextWrites, HasRemarked};
ghost use Rattle.reason_records.specs.Around.{IsAroundFault, IsNearestReached, IsPointFault, IsRemarkFault, IsRemarkIn, TellsDoubt};
ghost use Rattle.reason_records.specs.Around.{point_nearby, remark_named, variable_nearby};
ghost use Rattle.flow_records.specs.Rooms.{HoldsList, IsListKept};

use flow_graph::{Analysis, Graph, OutOfMemory};
use flow_kept::Kept;
use flow_reasons::Reasons;
use flow_records::{Fault, NumberedRemark, put_list};
use flow_reports::Remark;
use std::alloc::Global;

/// What stands around a remark: a statement, by its point, or a variable. Its kind is, around a dead assignment, 0 for a statement that may
/// write the variable next and 1 where `main` may end without one; around an expression that is already computed, 2 for a statement that may
/// have evaluated it last and 3 for a variable that holds its value; around a very busy one, 4 for a statement that may evaluate it next; before
/// a statement that is never reached, 5 for the nearest one to which a valid path leads. 4294967295 stands for what a kind has not.
#[repr(C)]
#[derive(Clone, Copy)]
pub struct NumberedNearby {
    pub kind: u32,
    pub point: u32,
    pub variable: u32,
}

const NONE: u32 = u32::MAX;

fn point_nearby(kind: u32, point: u32) -> NumberedNearby
    ensures { result ≡ point_nearby kind point }
{
    NumberedNearby {
        kind,
        point,
        variable: NONE,
    }
}

fn variable_nearby(kind: u32, variable: u32) -> NumberedNearby
    ensures { result ≡ variable_nearby kind variable }
{
    NumberedNearby {
        kind,
        point: NONE,
        variable,
    }
}

// The remark of a kind that names a variable or an expression.
fn remark_named(kind: u32, name: u32) -> Option<Remark>
    ensures { result ≡ remark_named kind name }
{
    match kind {
        0 => Some(Remark::NeverReached),
        1 => Some(Remark::Unset { variable: name }),
        2 => Some(Remark::Computed { expression: name }),
        3 => Some(Remark::VeryBusy { expression: name }),
        4 => Some(Remark::Dead { variable: name }),
        _ => None,
    }
}

// Whether a program has what a remark names.
fn has_remarked(graph: &Graph<'_>, point: u32, remark: Remark) -> bool
    ensures { IsTrue result ↔ HasRemarked graph.now point remark }
{
    let points = graph.points();
    let variables = graph.bits(Analysis::Live);
    let expressions = graph.bits(Analysis::Avail);
    match remark {
        Remark::NeverReached => point < points,
        Remark::Unset { variable } => point < points && variable < variables,
        Remark::Computed { expression } => point < points && expression < expressions,
        Remark::VeryBusy { expression } => point < points && expression < expressions,
        Remark::Dead { variable } => points.saturating_sub(point) > 1 && variable < variables,
    }
}

// The remark of numbers, where the program has what it names.
fn remark_in(graph: &Graph<'_>, numbered: NumberedRemark) -> Result<Remark, Fault>
    ensures remark { IfOk result (IsRemarkIn graph.now numbered) }
    ensures fault { IfErr result (IsRemarkFault numbered graph.now) }
{
    let Some(remark) = remark_named(numbered.kind, numbered.name) else {
        return Err(Fault::BadRange);
    };
    if !has_remarked(graph, numbered.point, remark) {
        return Err(Fault::BadRange);
    }
    Ok(remark)
}

// Puts statements last, each as one of a kind.
fn put_points(
    nearby: &mut Vec<NumberedNearby>,
    kind: u32,
    points: &[u32],
) -> Result<(), OutOfMemory>
    ensures { OnOk result (nearby.new.items ≡ nearby.old.items ++ map (point_nearby kind) points.now) }
{
    for point in points {
        nearby.push(point_nearby(kind, *point))?;
    }
    Ok(())
}

// Puts variables last, each as one of a kind.
fn put_variables(
    nearby: &mut Vec<NumberedNearby>,
    kind: u32,
    variables: &[u32],
) -> Result<(), OutOfMemory>
    ensures { OnOk result (nearby.new.items ≡ nearby.old.items ++ map (variable_nearby kind) variables.now) }
{
    for variable in variables {
        nearby.push(variable_nearby(kind, *variable))?;
    }
    Ok(())
}

// What stands around a dead assignment.
fn next_writes(
    alloc: Global,
    reasons: &Reasons<'_, '_>,
    variable: u32,
    point: u32,
) -> Result<Vec<NumberedNearby>, OutOfMemory>
    requires { HasRemarked reasons.now point (Dead variable) }
    ensures { IfOk result (λ nearby. AreNextWrites reasons.now variable point nearby.items) }
{
    let writes = reasons.next_writes(alloc, variable, point)?;
    let may_end = reasons.may_end_unwritten(alloc, variable, point)?;
    let mut nearby = Vec::new(alloc);
    put_points(&mut nearby, 0, writes.as_slice())?;
    if may_end {
        nearby.push(point_nearby(1, NONE))?;
    }
    Ok(nearby)
}

// What stands around an expression that is already computed.
fn last_evaluations(
    alloc: Global,
    reasons: &Reasons<'_, '_>,
    expression: u32,
    point: u32,
) -> Result<Vec<NumberedNearby>, OutOfMemory>
    requires expression { expression < length (expressions reasons.now) }
    requires point { point < point_count reasons.now }
    ensures { IfOk result (λ nearby. AreLastEvaluations reasons.now expression point nearby.items) }
{
    let evaluations = reasons.last_evaluations(alloc, expression, point)?;
    let holders = reasons.holders(alloc, expression, point)?;
    let mut nearby = Vec::new(alloc);
    put_points(&mut nearby, 2, evaluations.as_slice())?;
    put_variables(&mut nearby, 3, holders.as_slice())?;
    Ok(nearby)
}

// What stands around a very busy expression.
fn next_evaluations(
    alloc: Global,
    reasons: &Reasons<'_, '_>,
    expression: u32,
    point: u32,
) -> Result<Vec<NumberedNearby>, OutOfMemory>
    requires expression { expression < length (expressions reasons.now) }
    requires point { point < point_count reasons.now }
    ensures { IfOk result (λ nearby. AreNextEvaluations reasons.now expression point nearby.items) }
{
    let evaluations = reasons.next_evaluations(alloc, expression, point)?;
    let mut nearby = Vec::new(alloc);
    put_points(&mut nearby, 4, evaluations.as_slice())?;
    Ok(nearby)
}

// What stands before a statement that is never reached.
fn nearest_reached(
    alloc: Global,
    reasons: &Reasons<'_, '_>,
    point: u32,
) -> Result<Vec<NumberedNearby>, OutOfMemory>
    requires { point < point_count reasons.now }
    ensures { IfOk result (λ nearby. IsNearestReached reasons.now point nearby.items) }
{
    let mut nearby = Vec::new(alloc);
    if let Some(found) = reasons.last_reached(point) {
        nearby.push(point_nearby(5, found))?;
    }
    Ok(nearby)
}

// What stands around a remark.
fn around_remark(
    alloc: Global,
    reasons: &Reasons<'_, '_>,
    point: u32,
    remark: Remark,
) -> Result<Vec<NumberedNearby>, OutOfMemory>
    requires { HasRemarked reasons.now point remark }
    ensures { IfOk result (λ nearby. AreAroundRemark reasons.now point remark nearby.items) }
{
    match remark {
        Remark::NeverReached => nearest_reached(alloc, reasons, point),
        Remark::Unset { .. } => Ok(Vec::new(alloc)),
        Remark::Computed { expression } => last_evaluations(alloc, reasons, expression, point),
        Remark::VeryBusy { expression } => next_evaluations(alloc, reasons, expression, point),
        Remark::Dead { variable } => next_writes(alloc, reasons, variable, point),
    }
}

// What stands around the remark of numbers, in a kept program.
fn around_in(
    alloc: Global,
    kept: &Kept,
    numbered: NumberedRemark,
) -> Result<Vec<NumberedNearby>, Fault>
    ensures around { IfOk result (λ nearby. AreAround kept.now.program numbered nearby.items) }
    ensures fault { IfErr result (IsRemarkFault numbered kept.now.program) }
{
    let graph = kept.graph(alloc)?;
    let remark = remark_in(&graph, numbered)?;
    let reasons = Reasons::of(alloc, &graph)?;
    let nearby = around_remark(alloc, &reasons, numbered.point, remark)?;
    Ok(nearby)
}

/// What stands around a remark of a kept program, and how much that is, kind by kind, statements and variables of a kind rising:
///
/// - of a dead assignment the statements that may write the variable next, on the ways from behind it to the end of `main`, and whether some way
///   ends there without one;
/// - of an expression that is already computed the statements that may have evaluated it last, and the variables that hold its value on every
///   valid path;
/// - of a very busy expression the statements that may evaluate it next, on the ways to the end of `main`;
/// - of a statement that is never reached the nearest point before it, in its procedure, to which a valid path leads; nothing where there is
///   none.
///
/// Around a variable that may be used before it is set nothing is told: [`why_of_kept`](crate::why_of_kept) tells a path. Each is told at any
/// point, whether or not the remark is among [`remarks_of_kept`](flow_records::remarks_of_kept).
///
/// `BadRange` where the numbers are of no remark, or the program has not the point, the variable or the expression, or for a dead assignment
/// no point behind it; `BadRoom` where there is more than there is room for, and how much is told; `OutOfMemory` only where memory was refused.
///
/// It is one search for each statement that writes the variable or evaluates the expression, and one for each variable that it is assigned to.
pub fn around_of_kept(
    alloc: Global,
    kept: &Kept,
    remark: NumberedRemark,
    nearby: &mut [NumberedNearby],
    count: &mut usize,
) -> Result<(), Fault>
    ensures held { OnOk result (HoldsList (AreAround kept.now.program remark) nearby.old nearby.new count.new) }
    ensures kept { IfErr result (IsListKept nearby.old nearby.new count.old count.new) }
    ensures fault { IfErr result (IsAroundFault remark (length nearby.old) count.new kept.now.program) }
{
    let all = around_in(alloc, kept, remark)?;
    if put_list(all.as_slice(), nearby, count) {
        Ok(())
    } else {
        Err(Fault::BadRoom)
    }
}

// A point that makes one doubtful, if it is.
fn origin_in(alloc: Global, graph: &Graph<'_>, point: u32) -> Result<Option<u32>, OutOfMemory>
    requires { point < point_count graph.now }
    ensures { IfOk result (λ found. MatchOption found (¬ (IsDoubtful (shape_of graph.now) point)) (IsDoubtOrigin graph.now point)) }
{
    let reasons = Reasons::of(alloc, graph)?;
    reasons.doubt_origin(alloc, point)
}

/// Why a point of a kept program is doubtful: a point to which some path from it leads, whichever calls its returns belong to, and from which
/// no valid path leads to the end of `main`; 4294967295 exactly where the point is not doubtful. It may be the point itself.
///
/// `BadRange` where the program has no such point; `OutOfMemory` only where memory was refused.
pub fn doubt_origin_of_kept(
    alloc: Global,
    kept: &Kept,
    point: u32,
    origin: &mut u32,
) -> Result<(), Fault>
    ensures told { OnOk result (TellsDoubt kept.now.program point origin.new) }
    ensures kept { OnErr result (origin.new ≡ origin.old) }
    ensures fault { IfErr result (IsPointFault point kept.now.program) }
{
    let graph = kept.graph(alloc)?;
    if graph.points() <= point {
        return Err(Fault::BadRange);
    }
    let found = origin_in(alloc, &graph, point)?;
    *origin = found.unwrap_or(NONE);
    Ok(())
}
