// The paths of uses, by one search for each variable.

ghost use Rattle.std.specs.Prelude.{◌≡◌, ℕ, ◌+◌, ◌*◌, ◌-◌, ◌<◌, ◌≤◌, ◌++◌, All, Contains, IfOk, OnOk, length, map, slice_index};
ghost use Rattle.flow_graph.specs.Points.{point_count};
ghost use Rattle.flow_graph.specs.declared.analysis.Analysis.TheVariants.{Reach};
ghost use Rattle.flow_why.specs.Directed.{direction_of};
ghost use Rattle.gen_kill.specs.Selections.{all_bits};
ghost use Rattle.worklist.specs.Groups.{AreGroups};
ghost use Rattle.flow_paths.specs.code.UnsetPaths.{ArePathsOf, IsByPoint, IsUnsetUse, IsWitnessed, between, hops_at, numbers_of, use_at, uses_in};

use crate::OutOfMemory;
use crate::unset_path::{UnsetPath, path_of};
use flow_graph::{Analysis, Graph};
use flow_reports::UnsetUse;
use flow_why::{Hop, Ways};
use flow_witnesses::Why;
use gen_kill::Problem;
use std::alloc::Global;
use std::marker::Model;
use worklist::{Groups, group};

// Reaching definitions of a program, and where its valid paths lead.
#[derive(Clone, Copy)]
struct Reaching<'a, 'g, 'p> {
    problem: &'a Problem<'g, 'p>,
    ways: &'a Ways,
}

// Puts the paths of a variable's uses last.
fn put_paths(
    paths: &mut Vec<UnsetPath>,
    alloc: Global,
    why: &Why<'_, '_, '_>,
    uses: &[UnsetUse],
    by_variable: &Groups,
    variable: u32,
) -> Result<(), OutOfMemory>
    requires uses { All (IsUnsetUse why.now.form.program) uses.now }
    requires groups { AreGroups (map (λ one. one.variable) uses.now) (length why.now.form.program.variable_names)
        by_variable.now.starts.items by_variable.now.places.items }
    requires form { why.now.form ≡ all_bits why.now.form.program Reach }
    requires column { why.now.column ≡ variable }
    requires variable { variable < length why.now.form.program.variable_names }
    ensures put { OnOk result (uses_in paths.new.items
        ≡ uses_in paths.old.items ++ map (use_at uses.now) (numbers_of by_variable.now.starts.items by_variable.now.places.items variable)) }
    ensures witnessed { OnOk result
        (All (IsWitnessed why.now.form.program) paths.old.items → All (IsWitnessed why.now.form.program) paths.new.items) }
{
    let first = by_variable.starts[variable as usize];
    let end = by_variable.starts[variable as usize + 1];
    for place in first..end {
        let number = by_variable.places[place as usize];
        let path = path_of(alloc, why, uses[number as usize])?;
        paths.push(path)?;
    }
    Ok(())
}

// Searches for a variable's value at the beginning, where some use is of it, and puts the paths of its uses last.
fn put_variable(
    paths: &mut Vec<UnsetPath>,
    alloc: Global,
    reaching: Reaching<'_, '_, '_>,
    uses: &[UnsetUse],
    by_variable: &Groups,
    variable: u32,
) -> Result<(), OutOfMemory>
    requires ways { reaching.ways.now.linked ≡ direction_of reaching.problem.now }
    requires uses { All (IsUnsetUse reaching.problem.now.program) uses.now }
    requires groups { AreGroups (map (λ one. one.variable) uses.now) (length reaching.problem.now.program.variable_names)
        by_variable.now.starts.items by_variable.now.places.items }
    requires form { reaching.problem.now ≡ all_bits reaching.problem.now.program Reach }
    requires variable { variable < length reaching.problem.now.program.variable_names }
    ensures put { OnOk result (uses_in paths.new.items
        ≡ uses_in paths.old.items ++ map (use_at uses.now) (numbers_of by_variable.now.starts.items by_variable.now.places.items variable)) }
    ensures witnessed { OnOk result (All (IsWitnessed reaching.entry.problem.now.program) paths.old.items
        → All (IsWitnessed reaching.entry.problem.now.program) paths.new.items) }
{
    if by_variable.starts[variable as usize] == by_variable.starts[variable as usize + 1] {
        return Ok(());
    }
    let why = Why::of(alloc, reaching.ways, reaching.problem, variable)?;
    put_paths(paths, alloc, &why, uses, by_variable, variable)
}

// The paths of all uses, variable by variable.
fn paths_by_variable(
    alloc: Global,
    reaching: Reaching<'_, '_, '_>,
    uses: &[UnsetUse],
    by_variable: &Groups,
) -> Result<Vec<UnsetPath>, OutOfMemory>
    requires ways { reaching.ways.now.linked ≡ direction_of reaching.problem.now }
    requires uses { All (IsUnsetUse reaching.problem.now.program) uses.now }
    requires groups { AreGroups (map (λ one. one.variable) uses.now) (length reaching.problem.now.program.variable_names)
        by_variable.now.starts.items by_variable.now.places.items }
    requires form { reaching.problem.now ≡ all_bits reaching.problem.now.program Reach }
    ensures put { IfOk result (λ paths. uses_in paths.items ≡ map (use_at uses.now) (between by_variable.now.places.items
        (slice_index by_variable.now.starts.items 0)
        (slice_index by_variable.now.starts.items (length reaching.entry.problem.now.program.variable_names)))) }
    ensures witnessed { IfOk result (λ paths. All (IsWitnessed reaching.entry.problem.now.program) paths.items) }
{
    let mut paths = Vec::with_capacity(alloc, uses.len())?;
    for variable in 0..reaching.problem.variables() {
        put_variable(&mut paths, alloc, reaching, uses, by_variable, variable)?;
    }
    Ok(paths)
}

// The numbers of uses by their variables.
fn uses_by_variable(
    alloc: Global,
    graph: &Graph<'_>,
    uses: &[UnsetUse],
) -> Result<Groups, OutOfMemory>
    requires uses { All (IsUnsetUse graph.now) uses.now }
    requires few { length uses.now ≤ 2 * point_count graph.now }
    ensures { IfOk result (λ groups. AreGroups (map (λ one. one.variable) uses.now) (length graph.now.variable_names)
        groups.starts.items groups.places.items) }
{
    // Its contract tells that there are few points.
    let _ = graph.points();
    let variables: Vec<u32> = uses.iter().map(|one| one.variable).collect(alloc)?;
    group(alloc, &variables, graph.program().variables())
}

// The paths of uses.
fn paths_of(
    alloc: Global,
    graph: &Graph<'_>,
    uses: &[UnsetUse],
) -> Result<Vec<UnsetPath>, OutOfMemory>
    requires uses { All (IsUnsetUse graph.now) uses.now }
    requires few { length uses.now ≤ 2 * point_count graph.now }
    ensures witnessed { IfOk result (λ paths. All (IsWitnessed graph.now) paths.items) }
    ensures complete { IfOk result (λ paths. All (Contains (uses_in paths.items)) uses.now) }
    ensures count { IfOk result (λ paths. length paths.items ≤ length uses.now) }
    ensures points { IfOk result (λ paths. All (λ one. one.point < point_count graph.now) (uses_in paths.items)) }
{
    let by_variable = uses_by_variable(alloc, graph, uses)?;
    let problem = Problem::of(alloc, graph, Analysis::Reach)?;
    let ways = Ways::of(alloc, &problem)?;
    let reaching = Reaching {
        problem: &problem,
        ways: &ways,
    };
    paths_by_variable(alloc, reaching, uses, &by_variable)
}

// The points of paths.
fn points_of(alloc: Global, paths: &[UnsetPath]) -> Result<Vec<u32>, OutOfMemory>
    ensures { IfOk result (λ points. points.items ≡ map (λ one. one.point) (uses_in paths.now)) }
{
    let mut points = Vec::with_capacity(alloc, paths.len())?;
    for path in paths {
        points.push(path.point)?;
    }
    Ok(points)
}

// The numbers of paths by their points.
fn paths_by_point(
    alloc: Global,
    graph: &Graph<'_>,
    paths: &[UnsetPath],
) -> Result<Groups, OutOfMemory>
    requires few { length paths.now ≤ 2 * point_count graph.now }
    requires points { All (λ one. one.point < point_count graph.now) (uses_in paths.now) }
    ensures { IfOk result (λ groups. AreGroups (map (λ one. one.point) (uses_in paths.now)) (point_count graph.now)
        groups.starts.items groups.places.items) }
{
    let count = graph.points();
    let points = points_of(alloc, paths)?;
    group(alloc, &points, count)
}

// The hops of the path for a variable at a point; none where there is no such path.
fn find_hops<'a>(
    paths: &'a [UnsetPath],
    starts: &[u32],
    places: &[u32],
    point: u32,
    variable: u32,
) -> &'a [Hop]
    requires { IsByPoint (record { paths = paths.now; starts = starts.now; places = places.now }) }
    ensures { result.now ≡ hops_at (record { paths = paths.now; starts = starts.now; places = places.now }) point variable }
{
    let next = point as usize + 1;
    if starts.len() <= next {
        return &[];
    }
    for place in starts[point as usize]..starts[next] {
        let path = &paths[places[place as usize] as usize];
        if path.variable == variable {
            return path.hops.as_slice();
        }
    }
    &[]
}

/// The paths of uses, each found by its point.
pub(crate) struct UnsetPaths {
    paths: Vec<UnsetPath>,
    by_point: Groups,
}

impl Model for UnsetPaths {
    ghost use Rattle.flow_paths.specs.code.UnsetPaths.{IsByPoint, PathTable};

    ghost Value = { PathTable };

    ghost view = { λ p. record { paths = p.paths.items; starts = p.by_point.starts.items; places = p.by_point.places.items } };

    ghost invariant = { λ p. IsByPoint (record { paths = p.paths.items; starts = p.by_point.starts.items; places = p.by_point.places.items }) };
}

impl Drop for UnsetPaths {
    // By hand: who gives the paths up then makes one call.
    fn drop(self) {
        let UnsetPaths {
            paths: _,
            by_point: _,
        } = self;
    }
}

impl UnsetPaths {
    /// The paths of uses of variables that may not be set there. Fails only where memory runs out.
    pub(crate) fn of(
        alloc: Global,
        graph: &Graph<'_>,
        uses: &[UnsetUse],
    ) -> Result<UnsetPaths, OutOfMemory>
        requires uses { All (IsUnsetUse graph.now) uses.now }
        requires few { length uses.now ≤ 2 * point_count graph.now }
        ensures { IfOk result (ArePathsOf graph.now uses.now) }
    {
        let paths = paths_of(alloc, graph, uses)?;
        let by_point = paths_by_point(alloc, graph, &paths)?;
        Ok(UnsetPaths { paths, by_point })
    }

    /// The hops of the path for a variable at a point; none where there is no such path.
    pub(crate) fn hops(&self, point: u32, variable: u32) -> &[Hop]
        ensures { result.now ≡ hops_at self.now point variable }
    {
        find_hops(
            &self.paths,
            &self.by_point.starts,
            &self.by_point.places,
            point,
            variable,
        )
    }
}
