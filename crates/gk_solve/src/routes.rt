// The edges of a problem's direction, and where its valid paths lead.
ghost use Rattle.std.specs.Prelude.{◌≡◌, ◌<◌, ◌↔◌, true, IfOk, length};
ghost use Rattle.flow_graph.specs.Analyses.{is_backward};
ghost use Rattle.flow_graph.specs.Points.{point_count};
ghost use Rattle.flow_links.specs.Shapes.{directed_shape};
ghost use Rattle.summary_equations.specs.Equations.{Entered, Reached, HasFlag};
ghost use Rattle.gk_solve.specs.Tables.Flags.{AreExactly, ArePathFlags};

use crate::OutOfMemory;
use crate::enter::entered;
use crate::reach::reached;
use flow_links::Links;
use gen_kill::Problem;
use std::alloc::Global;
use std::marker::Model;
use worklist::Worklist;

/// The edges of a problem by point, and for each point whether some valid path leads to it.
///
/// It rests on the program and the direction alone, so that two analyses of one direction can share it.
pub struct Routes {
    links: Links,
    paths: Vec<bool>,
    visits: u64,
}

impl Model for Routes {
    ghost use Rattle.flow_graph.specs.Points.{point_count};
    ghost use Rattle.flow_links.specs.Shapes.{LinkedProgram, directed_shape};
    ghost use Rattle.gk_solve.specs.Tables.Flags.{ArePathFlags};

    ghost Value = { LinkedProgram };

    ghost view = { λ routes. routes.links };

    ghost invariant = { λ routes. ArePathFlags (directed_shape routes.links) (point_count routes.links.program) routes.paths.items };
}

impl Drop for Routes {
    // By hand: a caller that gives routes up then makes one call.
    fn drop(self) {
        let Routes {
            links: _,
            paths: _,
            visits: _,
        } = self;
    }
}

// The points that are reached, and how often one was visited to find them.
fn reached_points(alloc: Global, links: &Links) -> Result<(Vec<bool>, u64), OutOfMemory>
    ensures { IfOk result
        (λ found. (length found.0.items ≡ point_count links.now.program) × AreExactly (Reached (directed_shape links.now)) found.0.items) }
{
    let mut flags = vec![in alloc; false; links.points() as usize]?;
    let mut dirty = Worklist::none(alloc, links.order())?;
    reached(links, flags.as_mut_slice(), &mut dirty);
    Ok((flags, dirty.taken()))
}

// The procedures that are entered.
fn entered_procedures(
    alloc: Global,
    links: &Links,
    reached: &[bool],
) -> Result<Vec<bool>, OutOfMemory>
    requires count { length reached.now ≡ point_count links.now.program }
    requires reached { AreExactly (Reached (directed_shape links.now)) reached.now }
    ensures { IfOk result
        (λ flags. (length flags.items ≡ (directed_shape links.now).procedures) × AreExactly (Entered (directed_shape links.now)) flags.items) }
{
    let mut flags = vec![in alloc; false; links.procedures() as usize]?;
    let mut dirty = Worklist::none(alloc, links.call_order())?;
    entered(links, reached, flags.as_mut_slice(), &mut dirty);
    Ok(flags)
}

// The flag of each point: that its procedure is entered, and it is reached there.
fn path_flags(
    alloc: Global,
    links: &Links,
    reached: &[bool],
    entered: &[bool],
) -> Result<Vec<bool>, OutOfMemory>
    requires count { length reached.now ≡ point_count links.now.program }
    requires procedures { length entered.now ≡ (directed_shape links.now).procedures }
    requires reached { AreExactly (Reached (directed_shape links.now)) reached.now }
    requires entered { AreExactly (Entered (directed_shape links.now)) entered.now }
    ensures { IfOk result (λ flags. ArePathFlags (directed_shape links.now) (point_count links.now.program) flags.items) }
{
    let points = links.points();
    let mut flags = Vec::with_capacity(alloc, points as usize)?;
    for point in 0..points {
        flags.push(entered[links.procedure_of(point) as usize] && reached[point as usize])?;
    }
    Ok(flags)
}

// The flag of each point, by the points that are reached.
fn paths_by_reached(
    alloc: Global,
    links: &Links,
    reached: &[bool],
) -> Result<Vec<bool>, OutOfMemory>
    requires count { length reached.now ≡ point_count links.now.program }
    requires reached { AreExactly (Reached (directed_shape links.now)) reached.now }
    ensures { IfOk result (λ flags. ArePathFlags (directed_shape links.now) (point_count links.now.program) flags.items) }
{
    let entered = entered_procedures(alloc, links, reached)?;
    path_flags(alloc, links, reached, entered.as_slice())
}

// The flag of each point, and how often one was visited to find those that are reached.
fn paths_of(alloc: Global, links: &Links) -> Result<(Vec<bool>, u64), OutOfMemory>
    ensures { IfOk result (λ found. ArePathFlags (directed_shape links.now) (point_count links.now.program) found.0.items) }
{
    let (reached, visits) = reached_points(alloc, links)?;
    let paths = paths_by_reached(alloc, links, reached.as_slice())?;
    Ok((paths, visits))
}

impl Routes {
    /// The edges and paths of a problem.
    pub fn of(alloc: Global, problem: &Problem<'_, '_>) -> Result<Self, OutOfMemory>
        ensures { IfOk result (λ routes. routes ≡ record { program = problem.now.program; backward = is_backward problem.now.analysis }) }
    {
        let links = Links::of(alloc, problem)?;
        let (paths, visits) = paths_of(alloc, &links)?;
        Ok(Routes {
            links,
            paths,
            visits,
        })
    }

    /// How often a point was visited to find the paths. No contract speaks of it.
    pub fn visits(&self) -> u64 {
        self.visits
    }

    /// Whether some valid path leads to a point.
    pub fn has_path(&self, point: u32) -> bool
        requires { point < point_count self.now.program }
        ensures { (result ≡ true) ↔ HasFlag (directed_shape self.now) point }
    {
        self.paths[point as usize]
    }

    /// The edges in the direction.
    pub fn links(&self) -> &Links
        ensures { result.now ≡ self.now }
    {
        &self.links
    }

    /// For each point whether some valid path leads to it.
    pub fn paths(&self) -> &[bool]
        ensures { ArePathFlags (directed_shape self.now) (point_count self.now.program) result.now }
    {
        self.paths.as_slice()
    }
}
