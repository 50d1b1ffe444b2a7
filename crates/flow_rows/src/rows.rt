// The solution of a slice as rows.
ghost use Rattle.std.specs.Prelude.{◌≡◌, ◌*◌, ◌/◌, ◌<◌, ◌≤◌, IfOk};
ghost use Rattle.gen_kill.specs.Selections.{column_count};
ghost use Rattle.gk_solve.specs.Solved.{direction_of};
ghost use Rattle.flow_rows.specs.Solutions.{IsLeastSolution, IsMeetOverPaths};
ghost use Rattle.flow_rows.specs.code.Rows.{TellsBelow};

use crate::OutOfMemory;
use crate::filling::Filling;
use bit_rows::Rows;
use gen_kill::Problem;
use gk_solve::{Routes, Solver};
use std::alloc::Global;

// The flags of all points once more.
fn copied_flags(alloc: Global, paths: &[bool]) -> Result<Vec<bool>, OutOfMemory>
    ensures { IfOk result (λ copy. copy.items ≡ paths.now) }
{
    paths.to_vec(alloc)
}

// The rows of a slice before any word is solved: all flags, and no bit.
fn blank_rows(
    alloc: Global,
    problem: &Problem<'_, '_>,
    routes: &Routes,
    lo: u32,
    hi: u32,
) -> Result<Rows, OutOfMemory>
    requires routes { routes.now ≡ direction_of problem.now }
    requires ordered { lo ≤ hi }
    ensures { IfOk result (λ rows. TellsBelow problem.now (64 * (lo / 64)) lo hi rows) }
{
    // Its contract tells that there are few points.
    let _ = problem.points();
    let paths = copied_flags(alloc, routes.paths())?;
    Rows::blank(alloc, paths, lo, hi)
}

// Solves the words of a slice, and puts them into its rows. Answers also how often a point was visited.
fn solve_words<'a, 'g, 'p>(
    alloc: Global,
    solver: &'a Solver<'g, 'p>,
    routes: &'a Routes,
    rows: Rows,
    lo: u32,
    hi: u32,
) -> Result<(Rows, u64), OutOfMemory>
    requires routes { routes.now ≡ direction_of solver.now }
    requires ordered { lo < hi }
    requires within { hi ≤ column_count solver.now }
    requires tells { TellsBelow solver.now (64 * (lo / 64)) lo hi rows }
    ensures { IfOk result (λ solved. IsLeastSolution solver.now lo hi solved.0) }
{
    let mut slice = solver.slice(alloc, routes, lo, hi)?;
    let mut filling = Filling { rows };
    solver.solve_each(routes, &mut slice, &mut filling);
    Ok((filling.rows, slice.visits()))
}

// The solution of a slice, and how often a point was visited to find what is preserved and generated.
fn solved_slice<'a, 'g, 'p>(
    alloc: Global,
    solver: &'a Solver<'g, 'p>,
    routes: &'a Routes,
    lo: u32,
    hi: u32,
) -> Result<(Rows, u64), OutOfMemory>
    requires routes { routes.now ≡ direction_of solver.now }
    requires ordered { lo ≤ hi }
    requires within { hi ≤ column_count solver.now }
    ensures { IfOk result (λ solved. IsLeastSolution solver.now lo hi solved.0) }
{
    let rows = blank_rows(alloc, solver.problem(), routes, lo, hi)?;
    if lo == hi {
        return Ok((rows, 0));
    }
    solve_words(alloc, solver, routes, rows, lo, hi)
}

/// The solution of a solver's problem on the bits `lo..hi`, as [`solve`] has it.
pub fn solve_slice(
    alloc: Global,
    solver: &Solver<'_, '_>,
    routes: &Routes,
    lo: u32,
    hi: u32,
) -> Result<Rows, OutOfMemory>
    requires routes { routes.now ≡ direction_of solver.now }
    requires ordered { lo ≤ hi }
    requires within { hi ≤ column_count solver.now }
    ensures equations { IfOk result (λ rows. IsLeastSolution solver.now lo hi rows) }
    ensures paths { IfOk result (λ rows. IsMeetOverPaths solver.now lo hi rows) }
{
    // Its contract tells that the problem is well formed.
    let _ = solver.problem().root();
    let (rows, _) = solved_slice(alloc, solver, routes, lo, hi)?;
    Ok(rows)
}

// A solver of the same problem.
fn solver_of<'g, 'p>(
    alloc: Global,
    problem: &Problem<'g, 'p>,
) -> Result<Solver<'g, 'p>, OutOfMemory>
    ensures { IfOk result (λ solver. solver ≡ problem.now) }
{
    let same = problem.copied(alloc)?;
    Solver::of(alloc, same)
}

/// The solution of a problem on its bits `lo..hi`, and how often a point was visited to find what is reached, preserved and generated.
///
/// The number tells how much work it was. It stops at the largest number that there is.
pub fn solve_counted(
    alloc: Global,
    problem: &Problem<'_, '_>,
    lo: u32,
    hi: u32,
) -> Result<(Rows, u64), OutOfMemory>
    requires ordered { lo ≤ hi }
    requires within { hi ≤ column_count problem.now }
    ensures equations { IfOk result (λ solved. IsLeastSolution problem.now lo hi solved.0) }
    ensures paths { IfOk result (λ solved. IsMeetOverPaths problem.now lo hi solved.0) }
{
    // Its contract tells that the problem is well formed.
    let _ = problem.root();
    let solver = solver_of(alloc, problem)?;
    let routes = Routes::of(alloc, problem)?;
    let (rows, visits) = solved_slice(alloc, &solver, &routes, lo, hi)?;
    Ok((rows, routes.visits().saturating_add(visits)))
}

/// The solution of a problem on its bits `lo..hi`: for each point a path flag, and the set of those bits that hold there.
///
/// A flag is true where some valid path leads from the problem's beginning to the point, and a bit is in the set where it is in
/// the value of some such path. The sets are those of the may form, so the caller complements them where the problem does
/// (`Problem::complements`). With `lo` equal to `hi` the answer has the flags alone, and no word is solved.
///
/// It is the least solution of the summary equations, one set of equations for each bit (Kildall 1973; summaries of procedures:
/// Reps, Horwitz, Sagiv 1995).
///
/// A caller who solves a problem slice by slice makes a [`Solver`] once, and asks [`solve_slice`].
pub fn solve(
    alloc: Global,
    problem: &Problem<'_, '_>,
    lo: u32,
    hi: u32,
) -> Result<Rows, OutOfMemory>
    requires ordered { lo ≤ hi }
    requires within { hi ≤ column_count problem.now }
    ensures equations { IfOk result (λ rows. IsLeastSolution problem.now lo hi rows) }
    ensures paths { IfOk result (λ rows. IsMeetOverPaths problem.now lo hi rows) }
{
    let (rows, _) = solve_counted(alloc, problem, lo, hi)?;
    Ok(rows)
}
