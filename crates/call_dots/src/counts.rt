// How many remarks of each kind a procedure has.

ghost use Rattle.std.specs.Prelude.{◌≡◌, ℕ, ◌<◌, ◌≤◌, ◌+◌, ◌^◌, ◌&&◌, All, IfOk, length, nat_eq, slice_index, if◌then◌else◌};
ghost use Rattle.flow_graph.specs.Points.{point_count};
ghost use Rattle.flow_reports.specs.Listed.{remarks_of};
ghost use Rattle.flow_reports.specs.code.Findings.{AreFindings, knowledge_of};
ghost use Rattle.call_dots.specs.CallDots.{kind_of};
ghost use Rattle.call_dots.specs.code.Tables.{AreCounts, AreRemarkCounts};

use crate::OutOfMemory;
use flow_graph::Graph;
use flow_reports::{Findings, PlacedRemark, Remark};
use std::alloc::Global;

/// For each procedure how many remarks of each kind there are on its statements.
#[derive(Drop)]
pub(crate) struct RemarkCounts {
    pub never_reached: Vec<u64>,
    pub unset: Vec<u64>,
    pub computed: Vec<u64>,
    pub busy: Vec<u64>,
    pub dead: Vec<u64>,
}

// The kind of a remark, by number.
fn kind_of(remark: Remark) -> u32
    ensures { result ≡ kind_of remark }
{
    match remark {
        Remark::NeverReached => 0,
        Remark::Unset { .. } => 1,
        Remark::Computed { .. } => 2,
        Remark::VeryBusy { .. } => 3,
        Remark::Dead { .. } => 4,
    }
}

/// Counts one more at a place, where it is wanted.
pub(crate) fn count_if(counts: &mut Vec<u64>, place: u32, is: bool)
    requires place { place < length counts.old.items }
    requires small { slice_index counts.old.items place + 1 < 2 ^ 64 }
    ensures count { length counts.new.items ≡ length counts.old.items }
    ensures each { (k : ℕ) → k < length counts.old.items → slice_index counts.new.items k
        ≡ slice_index counts.old.items k + (if nat_eq place k && is then 1 else 0) }
{
    if is {
        counts[place as usize] += 1;
    }
}

// How many remarks of a kind each procedure has.
fn counts_of(
    alloc: Global,
    graph: &Graph<'_>,
    remarks: &[PlacedRemark],
    kind: u32,
) -> Result<Vec<u64>, OutOfMemory>
    requires { All (λ placed. placed.point < point_count graph.now) remarks.now }
    ensures { IfOk result (λ counts. AreCounts graph.now remarks.now kind counts.items) }
{
    // Its contract tells that there are few procedures.
    let procs = graph.program().procs();
    let mut counts = vec![in alloc; 0u64; procs.len()]?;
    for placed in remarks {
        let is_counted = kind_of(placed.remark) == kind;
        count_if(&mut counts, graph.place(placed.point).procedure, is_counted);
    }
    Ok(counts)
}

// How many remarks of each kind each procedure has.
fn all_counts(
    alloc: Global,
    graph: &Graph<'_>,
    remarks: &[PlacedRemark],
) -> Result<RemarkCounts, OutOfMemory>
    requires { All (λ placed. placed.point < point_count graph.now) remarks.now }
    ensures { IfOk result (AreRemarkCounts graph.now remarks.now) }
{
    let never_reached = counts_of(alloc, graph, remarks, 0)?;
    let unset = counts_of(alloc, graph, remarks, 1)?;
    let computed = counts_of(alloc, graph, remarks, 2)?;
    let busy = counts_of(alloc, graph, remarks, 3)?;
    let dead = counts_of(alloc, graph, remarks, 4)?;
    Ok(RemarkCounts {
        never_reached,
        unset,
        computed,
        busy,
        dead,
    })
}

/// The counts of the remarks that a report on a program has. Fails only where memory runs out.
pub(crate) fn remark_counts(
    alloc: Global,
    found: &Findings<'_>,
) -> Result<RemarkCounts, OutOfMemory>
    requires { AreFindings found.now }
    ensures { IfOk result (AreRemarkCounts found.now.graph.now (remarks_of found.now.graph.now (knowledge_of found.now))) }
{
    let remarks = found.remarks(alloc)?;
    let counts = all_counts(alloc, found.graph, remarks.as_slice())?;
    Ok(counts)
}
