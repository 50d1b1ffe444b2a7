// The assignments that are not called dead because of doubt, and where the doubt comes from.

ghost use Rattle.std.specs.Prelude.{◌≡◌, ◌+◌, ◌-◌, ◌<◌, ◌≤◌, ◌&&◌, ◌++◌, ◌∷◌, [], All, IfOk, IfSome, OnOk, Some, false, get_or, length, map, true};
ghost use Rattle.flow_graph.specs.Analyses.{shape_of};
ghost use Rattle.flow_graph.specs.Limits.{HasFewPoints};
ghost use Rattle.flow_graph.specs.Points.{kind_at, point_count};
ghost use Rattle.flow_graph.specs.Runs.{IsDoubtful};
ghost use Rattle.flow_reports.specs.Reports.{dead_at};
ghost use Rattle.flow_reports.specs.code.Findings.{AreFindings, TellDoubtful, knowledge_of};
ghost use Rattle.tac_program.specs.declared.limits.Limits.TheVariants.{Large};
ghost use Rattle.text_pieces.specs.code.Lists.{some_stand};
ghost use Rattle.flow_paths.specs.Doubts.{HasOrigin, assignment_of, assignments_at, assignments_from, doubted_at};
ghost use Rattle.flow_paths.specs.code.Doubted.{HasNoDoubt, listed, with_doubt};

use crate::OutOfMemory;
use crate::shown::Shown;
use flow_graph::target;
use flow_reasons::Reasons;
use flow_reports::Findings;
use std::alloc::Global;
use tac_program::StmtKind;

/// An assignment that no path reads, which is not called dead since what follows may never end.
#[derive(Debug, Clone, Copy, PartialEq, Eq)]
pub struct Doubt {
    /// The point of the assignment.
    pub point: u32,
    /// The variable.
    pub variable: u32,
    /// A point ahead from which no valid path leads to the end of `main`.
    pub origin: u32,
}

/// Takes from what was found which points are doubtful: then it tells of each assignment that no path reads that it is dead.
pub(crate) fn take_doubt(alloc: Global, found: &mut Findings<'_>) -> Result<Vec<bool>, OutOfMemory>
    requires { AreFindings found.old }
    ensures found { OnOk result (AreFindings found.new) }
    ensures program { OnOk result (found.new.graph.now ≡ found.old.graph.now) }
    ensures known { OnOk result (found.new.answers.now ≡ found.old.answers.now) }
    ensures sure { OnOk result (HasNoDoubt found.new) }
    ensures taken { IfOk result (λ doubtful. doubtful.items ≡ found.old.doubtful.items) }
{
    let mut doubtful = vec![in alloc; false; found.doubtful.len()]?;
    std::mem::swap(&mut doubtful, &mut found.doubtful);
    Ok(doubtful)
}

// Whether an assignment is one that no path reads, at a point that is reached and behind which doubt begins.
fn is_doubted(sure: &Findings<'_>, doubtful: &[bool], point: u32, kind: &StmtKind) -> bool
    requires found { AreFindings sure.now }
    requires doubtful { length doubtful.now ≡ point_count sure.now.graph.now }
    requires next { point + 1 < point_count sure.now.graph.now }
    requires kind { kind_at sure.now.graph.now point ≡ Some kind.now }
    ensures { result ≡ ((knowledge_of sure.now).reach.has_path point
        && (get_or doubtful.now (point + 1) false && some_stand (dead_at sure.now.graph.now (knowledge_of sure.now) point))) }
{
    if !sure.is_reached(point) {
        return false;
    }
    if !doubtful[point as usize + 1] {
        return false;
    }
    sure.sets_dead(point, kind)
}

// The variable of such an assignment at a point.
fn doubted_variable(sure: &Findings<'_>, doubtful: &[bool], point: u32) -> Option<u32>
    requires found { AreFindings sure.now }
    requires sure { HasNoDoubt sure.now }
    requires doubtful { length doubtful.now ≡ point_count sure.now.graph.now }
    requires point { point < point_count sure.now.graph.now }
    ensures variable { listed result ≡ doubted_at sure.now.graph.now (with_doubt (knowledge_of sure.now) doubtful.now) point }
    ensures next { IfSome result (λ variable. point + 1 < point_count sure.now.graph.now) }
    ensures doubt { IfSome result (λ variable. get_or doubtful.now (point + 1) false ≡ true) }
{
    let Some(stmt) = sure.graph.stmt(point) else {
        return None;
    };
    if is_doubted(sure, doubtful, point, &stmt.kind) {
        return target(&stmt.kind);
    }
    None
}

// Puts the doubt of an assignment last.
fn put_doubt(
    doubts: &mut Vec<Doubt>,
    alloc: Global,
    reasons: &Reasons<'_, '_>,
    point: u32,
    variable: u32,
) -> Result<(), OutOfMemory>
    requires next { point + 1 < point_count reasons.now }
    requires doubt { IsDoubtful (shape_of reasons.now) (point + 1) }
    requires few { HasFewPoints Large reasons.now }
    ensures put { OnOk result (map assignment_of doubts.new.items ≡ map assignment_of doubts.old.items ++ (point, variable) ∷ []) }
    ensures origins { OnOk result (All (HasOrigin reasons.now) doubts.old.items → All (HasOrigin reasons.now) doubts.new.items) }
    ensures points { OnOk result (All (λ doubt. doubt.point < point_count reasons.now) doubts.old.items
        → All (λ doubt. doubt.point < point_count reasons.now) doubts.new.items) }
{
    let found = reasons.doubt_origin(alloc, point + 1)?;
    match found {
        Some(origin) => {
            doubts.push(Doubt {
                point,
                variable,
                origin,
            })?;
            Ok(())
        }
        None => unreachable!(),
    }
}

// Puts the doubt of the assignment at a point last, where there is one.
fn put_doubt_at(
    doubts: &mut Vec<Doubt>,
    alloc: Global,
    reasons: &Reasons<'_, '_>,
    sure: &Findings<'_>,
    doubtful: &[bool],
    point: u32,
) -> Result<(), OutOfMemory>
    requires program { sure.now.graph.now ≡ reasons.now }
    requires found { AreFindings sure.now }
    requires sure { HasNoDoubt sure.now }
    requires doubtful { TellDoubtful reasons.now doubtful.now }
    requires point { point < point_count reasons.now }
    ensures put { OnOk result (map assignment_of doubts.new.items ≡ map assignment_of doubts.old.items
        ++ assignments_at reasons.now (with_doubt (knowledge_of sure.now) doubtful.now) point) }
    ensures origins { OnOk result (All (HasOrigin reasons.now) doubts.old.items → All (HasOrigin reasons.now) doubts.new.items) }
    ensures points { OnOk result (All (λ doubt. doubt.point < point_count reasons.now) doubts.old.items
        → All (λ doubt. doubt.point < point_count reasons.now) doubts.new.items) }
{
    match doubted_variable(sure, doubtful, point) {
        Some(variable) => put_doubt(doubts, alloc, reasons, point, variable),
        None => Ok(()),
    }
}

/// The doubts of the assignments that are shown, in their order. Fails only where memory runs out.
pub(crate) fn doubts_of(
    alloc: Global,
    reasons: &Reasons<'_, '_>,
    sure: &Findings<'_>,
    doubtful: &[bool],
    shown: Shown,
) -> Result<Vec<Doubt>, OutOfMemory>
    requires program { sure.now.graph.now ≡ reasons.now }
    requires found { AreFindings sure.now }
    requires sure { HasNoDoubt sure.now }
    requires doubtful { TellDoubtful reasons.now doubtful.now }
    requires ordered { shown.first ≤ shown.end }
    requires there { shown.end ≤ point_count reasons.now }
    ensures all { IfOk result (λ doubts. map assignment_of doubts.items
        ≡ assignments_from reasons.now (with_doubt (knowledge_of sure.now) doubtful.now) shown.first (shown.end - shown.first)) }
    ensures origins { IfOk result (λ doubts. All (HasOrigin reasons.now) doubts.items) }
    ensures points { IfOk result (λ doubts. All (λ doubt. doubt.point < point_count reasons.now) doubts.items) }
{
    let mut doubts = Vec::new(alloc);
    for point in shown.first..shown.end {
        put_doubt_at(&mut doubts, alloc, reasons, sure, doubtful, point)?;
    }
    Ok(doubts)
}
