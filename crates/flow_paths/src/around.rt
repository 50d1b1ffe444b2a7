// What stands around a remark.

ghost use Rattle.std.specs.Prelude.{◌≡◌, ◌+◌, ◌<◌, IfOk, IfSome, length};
ghost use Rattle.flow_graph.specs.Points.{point_count};
ghost use Rattle.flow_graph.specs.Universes.{expressions};
ghost use Rattle.flow_paths.specs.code.Arounds.{IsAround, IsAskable, edges_if};
ghost use Rattle.flow_reports.specs.declared.remark.Remark.TheVariants.{NeverReached, Unset, Computed, VeryBusy, Dead};

use crate::OutOfMemory;
use flow_graph::{Edge, Graph};
use flow_reasons::Reasons;
use flow_reports::{PlacedRemark, Remark};
use smallvec::SmallVec;
use std::alloc::Global;

/// A remark and what stands around it: of each kind of remark some of this, and nothing in the others.
pub(crate) struct Around {
    /// The remark.
    pub(crate) placed: PlacedRemark,
    /// The points of the statements that are met first, or were met last: writes, or evaluations.
    pub(crate) met: Vec<u32>,
    /// The variables that hold the value.
    pub(crate) holders: Vec<u32>,
    /// Whether some way ends without a write.
    pub(crate) may_end: bool,
    /// The nearest point before it that is reached.
    pub(crate) last: Option<u32>,
    /// The edges out of that point.
    pub(crate) edges: SmallVec<Edge, 2, Global>,
}

impl Drop for Around {
    // By hand: who gives it up then makes one call.
    fn drop(self) {
        let Around {
            placed: _,
            met: _,
            holders: _,
            may_end: _,
            last: _,
            edges: _,
        } = self;
    }
}

// The edges out of a point, where there is one.
fn edges_behind(
    alloc: Global,
    graph: &Graph<'_>,
    point: Option<u32>,
) -> Result<SmallVec<Edge, 2, Global>, OutOfMemory>
    requires { IfSome point (λ p. p < point_count graph.now) }
    ensures { IfOk result (λ edges. edges.items ≡ edges_if graph.now point) }
{
    match point {
        Some(point) => graph.succ(alloc, point),
        None => Ok(SmallVec::new(alloc)),
    }
}

// What stands around a line that is never reached.
fn around_unreached(
    alloc: Global,
    reasons: &Reasons<'_, '_>,
    graph: &Graph<'_>,
    point: u32,
) -> Result<Around, OutOfMemory>
    requires graph { graph.now ≡ reasons.now }
    requires point { point < point_count reasons.now }
    ensures of { IfOk result (λ around. around.placed ≡ record { point = point; remark = NeverReached }) }
    ensures exact { IfOk result (IsAround reasons.now) }
{
    let last = reasons.last_reached(point);
    let edges = edges_behind(alloc, graph, last)?;
    Ok(Around {
        placed: PlacedRemark {
            point,
            remark: Remark::NeverReached,
        },
        met: Vec::new(alloc),
        holders: Vec::new(alloc),
        may_end: false,
        last,
        edges,
    })
}

// What stands around a use of a variable that may not be set: nothing but its path, which is found elsewhere.
fn around_unset(alloc: Global, reasons: &Reasons<'_, '_>, point: u32, variable: u32) -> Around
    ensures of { result.placed ≡ record { point = point; remark = Unset variable } }
    ensures exact { IsAround reasons.now result }
{
    let _ = reasons;
    Around {
        placed: PlacedRemark {
            point,
            remark: Remark::Unset { variable },
        },
        met: Vec::new(alloc),
        holders: Vec::new(alloc),
        may_end: false,
        last: None,
        edges: SmallVec::new(alloc),
    }
}

// What stands around an expression that is computed already.
fn around_computed(
    alloc: Global,
    reasons: &Reasons<'_, '_>,
    point: u32,
    expression: u32,
) -> Result<Around, OutOfMemory>
    requires point { point < point_count reasons.now }
    requires expression { expression < length (expressions reasons.now) }
    ensures of { IfOk result (λ around. around.placed ≡ record { point = point; remark = Computed expression }) }
    ensures exact { IfOk result (IsAround reasons.now) }
{
    let met = reasons.last_evaluations(alloc, expression, point)?;
    let holders = reasons.holders(alloc, expression, point)?;
    Ok(Around {
        placed: PlacedRemark {
            point,
            remark: Remark::Computed { expression },
        },
        met,
        holders,
        may_end: false,
        last: None,
        edges: SmallVec::new(alloc),
    })
}

// What stands around a very busy expression.
fn around_busy(
    alloc: Global,
    reasons: &Reasons<'_, '_>,
    point: u32,
    expression: u32,
) -> Result<Around, OutOfMemory>
    requires point { point < point_count reasons.now }
    requires expression { expression < length (expressions reasons.now) }
    ensures of { IfOk result (λ around. around.placed ≡ record { point = point; remark = VeryBusy expression }) }
    ensures exact { IfOk result (IsAround reasons.now) }
{
    let met = reasons.next_evaluations(alloc, expression, point)?;
    Ok(Around {
        placed: PlacedRemark {
            point,
            remark: Remark::VeryBusy { expression },
        },
        met,
        holders: Vec::new(alloc),
        may_end: false,
        last: None,
        edges: SmallVec::new(alloc),
    })
}

// What stands around a dead assignment.
fn around_dead(
    alloc: Global,
    reasons: &Reasons<'_, '_>,
    point: u32,
    variable: u32,
) -> Result<Around, OutOfMemory>
    requires next { point + 1 < point_count reasons.now }
    requires variable { variable < length reasons.now.variable_names }
    ensures of { IfOk result (λ around. around.placed ≡ record { point = point; remark = Dead variable }) }
    ensures exact { IfOk result (IsAround reasons.now) }
{
    let met = reasons.next_writes(alloc, variable, point)?;
    let may_end = reasons.may_end_unwritten(alloc, variable, point)?;
    Ok(Around {
        placed: PlacedRemark {
            point,
            remark: Remark::Dead { variable },
        },
        met,
        holders: Vec::new(alloc),
        may_end,
        last: None,
        edges: SmallVec::new(alloc),
    })
}

/// What stands around a remark. Fails only where memory runs out.
pub(crate) fn around_of(
    alloc: Global,
    reasons: &Reasons<'_, '_>,
    graph: &Graph<'_>,
    placed: PlacedRemark,
) -> Result<Around, OutOfMemory>
    requires graph { graph.now ≡ reasons.now }
    requires asked { IsAskable reasons.now placed }
    ensures of { IfOk result (λ around. around.placed ≡ placed) }
    ensures exact { IfOk result (IsAround reasons.now) }
{
    let PlacedRemark { point, remark } = placed;
    match remark {
        Remark::NeverReached => around_unreached(alloc, reasons, graph, point),
        Remark::Unset { variable } => Ok(around_unset(alloc, reasons, point, variable)),
        Remark::Computed { expression } => around_computed(alloc, reasons, point, expression),
        Remark::VeryBusy { expression } => around_busy(alloc, reasons, point, expression),
        Remark::Dead { variable } => around_dead(alloc, reasons, point, variable),
    }
}
