// What is told of each point of a range.

ghost use Rattle.std.specs.Prelude.{◌≡◌, ◌-◌, length, IfErr, IfOk, OnErr, OnOk};
ghost use Rattle.flow_kept.specs.Facts.{ArePointsOf};
ghost use Rattle.flow_records.specs.Flags.{AreDoubts, ArePathsOfNumber, IsFlagsFault, IsPathsFault};
ghost use Rattle.flow_records.specs.Numbers.{end_of};

use crate::calls::{find_analysis, find_end};
use crate::fault::Fault;
use flow_graph::Graph;
use flow_kept::Kept;
use std::alloc::Global;

// Where a range of points ends, where they are points of the graph and there is room for a flag of each.
fn find_points(graph: &Graph<'_>, points: (u32, u32), flags: usize) -> Result<u32, Fault>
    ensures until { IfOk result (λ until. until ≡ end_of graph.now points.1) }
    ensures points { IfOk result (λ until. ArePointsOf graph.now points.0 until) }
    ensures room { IfOk result (λ until. flags ≡ until - points.0) }
    ensures fault { IfErr result (IsFlagsFault points.0 points.1 flags graph.now) }
{
    let until = find_end(graph, points.1);
    if until < points.0 || graph.points() < until {
        return Err(Fault::BadRange);
    }
    if flags != (until - points.0) as usize {
        return Err(Fault::BadRoom);
    }
    Ok(until)
}

/// Which of some points of a kept program have a valid path in the direction of an analysis: a flag for each, 1 or 0.
pub fn paths_of_kept(
    alloc: Global,
    kept: &Kept,
    number: u32,
    points: (u32, u32),
    flags: &mut [u8],
) -> Result<(), Fault>
    ensures paths { OnOk result (ArePathsOfNumber kept.now.program number points.0 points.1 flags.new) }
    ensures kept { OnErr result (flags.new ≡ flags.old) }
    ensures fault { IfErr result (IsPathsFault number points.0 points.1 (length flags.old) kept.now.program) }
{
    let Some(analysis) = find_analysis(number) else {
        return Err(Fault::BadAnalysis);
    };
    let graph = kept.graph(alloc)?;
    let until = find_points(&graph, points, flags.len())?;
    kept.put_paths(analysis, (points.0, until), flags);
    Ok(())
}

/// Which of some points of a kept program are doubtful: a flag for each, 1 or 0.
pub fn doubtful_of_kept(
    alloc: Global,
    kept: &Kept,
    points: (u32, u32),
    flags: &mut [u8],
) -> Result<(), Fault>
    ensures doubtful { OnOk result (AreDoubts kept.now.program points.0 points.1 flags.new) }
    ensures kept { OnErr result (flags.new ≡ flags.old) }
    ensures fault { IfErr result (IsFlagsFault points.0 points.1 (length flags.old) kept.now.program) }
{
    let graph = kept.graph(alloc)?;
    let until = find_points(&graph, points, flags.len())?;
    kept.put_doubtful(alloc, &graph, (points.0, until), flags)?;
    Ok(())
}
