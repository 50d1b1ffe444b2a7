// Marks by point: what the statements do with one column of a problem.
ghost use Rattle.std.specs.Prelude.{◌≡◌, ◌<◌, IfOk};
ghost use Rattle.flow_graph.specs.Points.{point_count};
ghost use Rattle.gen_kill.specs.Selections.{column_count, column_gens, column_kills};
ghost use Rattle.flow_reasons.specs.code.Marks.{AreMarks, touches};

use crate::OutOfMemory;
use gen_kill::Problem;
use std::alloc::Global;

/// Which statements kill a column.
pub(crate) fn kill_marks(
    alloc: Global,
    problem: &Problem<'_, '_>,
    column: u32,
) -> Result<Vec<bool>, OutOfMemory>
    requires { column < column_count problem.now }
    ensures { IfOk result (λ marks. AreMarks (point_count problem.now.program) (λ x. column_kills problem.now x column) marks.items) }
{
    let points = problem.points();
    let mut marks = Vec::with_capacity(alloc, points as usize)?;
    for point in 0..points {
        marks.push(problem.kills(point, column))?;
    }
    Ok(marks)
}

// Whether a statement generates or kills a column.
fn is_touched(problem: &Problem<'_, '_>, point: u32, column: u32) -> bool
    requires point { point < point_count problem.now.program }
    requires column { column < column_count problem.now }
    ensures { result ≡ touches problem.now column point }
{
    let gens = problem.gens(point, column);
    let kills = problem.kills(point, column);
    gens | kills
}

/// Which statements generate or kill a column.
pub(crate) fn touch_marks(
    alloc: Global,
    problem: &Problem<'_, '_>,
    column: u32,
) -> Result<Vec<bool>, OutOfMemory>
    requires { column < column_count problem.now }
    ensures { IfOk result (λ marks. AreMarks (point_count problem.now.program) (touches problem.now column) marks.items) }
{
    let points = problem.points();
    let mut marks = Vec::with_capacity(alloc, points as usize)?;
    for point in 0..points {
        marks.push(is_touched(problem, point, column))?;
    }
    Ok(marks)
}
