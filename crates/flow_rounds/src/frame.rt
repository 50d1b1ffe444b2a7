// An analysis in a procedure, and what its rounds go by.

ghost use Rattle.std.specs.Prelude.{◌≡◌, ◌&&◌, ◌||◌, ◌<◌, ◌≤◌, not, All, IfOk, length, nat_eq, slice_index, if◌then◌else◌};
ghost use Rattle.std.specs.List.{list_any};
ghost use Rattle.flow_graph.specs.Analyses.{is_must};
ghost use Rattle.flow_graph.specs.Paths.{value_across};
ghost use Rattle.flow_graph.specs.declared.edge.Edge.TheVariants.{Step};
ghost use Rattle.flow_graph.specs.Points.{point_count};
ghost use Rattle.flow_graph.specs.Problems.{directed_transfer, may_shape};
ghost use Rattle.flow_graph.specs.Universes.{bits};
ghost use Rattle.flow_rounds.specs.Rounds.{is_return_to};
ghost use Rattle.flow_rounds.specs.Steps.{computes};
ghost use Rattle.flow_rounds.specs.code.Frames.{AreSources, IsOrdered, IsWithin, TellsColumn, has_path_within, iteration_of, sources_to};
ghost use Rattle.flow_team.specs.Tables.{facts_of};

use crate::OutOfMemory;
use crate::order::order;
use crate::point_range::PointRange;
use crate::sources::Sources;
use crate::steps::{has_path, has_return_to, sources};
use flow_graph::{Analysis, Direction, Edge, Graph};
use flow_team::Table;
use gen_kill::Problem;
use std::alloc::Global;
use std::marker::Model;

/// What the rounds of an analysis in a procedure go by.
pub struct Frame<'a> {
    // In its may form.
    problem: Problem<'a, 'a>,
    table: &'a Table,
    procedure: u32,
    points: PointRange,
    // For each of the points.
    computed: Vec<bool>,
    order: Vec<u32>,
    // For each point of the order.
    sources: Vec<Sources>,
}

impl<'a> Model for Frame<'a> {
    ghost use Rattle.std.specs.Prelude.{◌≡◌};
    ghost use Rattle.flow_rounds.specs.code.Frames.{Framed, IsFramed};
    ghost use Rattle.gen_kill.specs.Selections.{all_bits};

    ghost Value = { Framed };

    ghost view = { λ frame. record {
      program = frame.problem.program;
      analysis = frame.problem.analysis;
      procedure = frame.procedure;
      points = frame.points;
      table = frame.table.now;
      order = frame.order.items;
    } };

    ghost invariant = { λ frame. IsFramed (record {
      program = frame.problem.program;
      analysis = frame.problem.analysis;
      procedure = frame.procedure;
      points = frame.points;
      table = frame.table.now;
      order = frame.order.items;
    }) frame.computed.items frame.sources.items × (frame.problem ≡ all_bits frame.problem.program frame.problem.analysis) };
}

impl Drop for Frame<'_> {
    // By hand: who gives it up then makes one call.
    fn drop(self) {
        let Frame {
            problem: _,
            table: _,
            procedure: _,
            points: _,
            computed: _,
            order: _,
            sources: _,
        } = self;
    }
}

// Whether a point is computed.
fn is_computed(table: &Table, points: PointRange, edges: &[Edge], entry: u32, point: u32) -> bool
    requires { length table.now.paths ≡ points.end }
    ensures { result ≡ (has_path_within points table.now point && not (nat_eq point entry) && not (list_any (is_return_to point) edges.now)) }
{
    has_path(table, points, point) && point != entry && !has_return_to(edges, point)
}

// Whether each point is computed.
fn computed_points(
    alloc: Global,
    table: &Table,
    points: PointRange,
    edges: &[Edge],
    entry: u32,
) -> Result<Vec<bool>, OutOfMemory>
    requires paths { length table.now.paths ≡ points.end }
    requires ordered { points.first ≤ points.end }
    ensures { IfOk result (λ computed. TellsColumn points (λ point.
        has_path_within points table.now point && not (nat_eq point entry) && not (list_any (is_return_to point) edges.now)) computed.items) }
{
    let mut computed = Vec::new(alloc);
    for point in points.first..points.end {
        computed.push(is_computed(table, points, edges, entry, point))?;
    }
    Ok(computed)
}

// For each point of an order the points from which steps lead to it.
fn sources_of(
    alloc: Global,
    table: &Table,
    points: PointRange,
    edges: &[Edge],
    order: &[u32],
) -> Result<Vec<Sources>, OutOfMemory>
    requires { length table.now.paths ≡ points.end }
    ensures { IfOk result (λ lists. AreSources edges.now (has_path_within points table.now) order.now lists.items) }
{
    let mut lists = Vec::new(alloc);
    for point in order {
        let points = sources(alloc, table, points, edges, *point)?;
        lists.push(Sources { points })?;
    }
    Ok(lists)
}

// A bit behind a statement that makes it or kills it; where sets are complemented it makes or kills the complement.
fn passes(complements: bool, gens: bool, kills: bool, before: bool) -> bool
    ensures { result ≡ (if complements then kills || (before && not gens) else gens || (before && not kills)) }
{
    if complements {
        kills || (before && !gens)
    } else {
        gens || (before && !kills)
    }
}

impl<'a> Frame<'a> {
    /// What the rounds of an analysis in a procedure go by, with the table of that analysis.
    ///
    /// The conditions: the table has as many points as stand before the end of these, and the bits of its analysis, and the procedure is there.
    /// Fails only where memory runs out.
    pub fn of(
        alloc: Global,
        graph: &'a Graph<'a>,
        table: &'a Table,
        procedure: u32,
        points: PointRange,
    ) -> Result<Frame<'a>, OutOfMemory>
        requires procedure { procedure < length graph.now.procedures }
        requires ordered { points.first ≤ points.end }
        requires there { points.end ≤ point_count graph.now }
        requires paths { length table.now.paths ≡ points.end }
        requires bits { table.now.bits ≡ bits graph.now table.now.analysis }
        ensures program { IfOk result (λ frame. frame.program ≡ graph.now) }
        ensures table { IfOk result (λ frame. frame.table ≡ table.now) }
        ensures analysis { IfOk result (λ frame. frame.analysis ≡ table.now.analysis) }
        ensures procedure { IfOk result (λ frame. frame.procedure ≡ procedure) }
        ensures points { IfOk result (λ frame. frame.points ≡ points) }
    {
        let problem = Problem::of(alloc, graph, table.analysis())?;
        let edges = problem.edges(alloc)?;
        let entry = problem.entry(procedure);
        let computed = computed_points(alloc, table, points, edges.as_slice(), entry)?;
        let order = order(
            alloc,
            edges.as_slice(),
            problem.direction(),
            points,
            entry,
            computed.as_slice(),
        )?;
        let sources = sources_of(alloc, table, points, edges.as_slice(), order.as_slice())?;
        Ok(Frame {
            problem,
            table,
            procedure,
            points,
            computed,
            order,
            sources,
        })
    }

    /// The analysis.
    pub fn analysis(&self) -> Analysis
        ensures { result ≡ self.now.analysis }
    {
        self.problem.analysis()
    }

    /// Whether its sets are joined by intersection.
    pub fn is_must(&self) -> bool
        ensures { result ≡ is_must self.now.analysis }
    {
        self.problem.complements()
    }

    /// How many bits it has.
    pub fn bits(&self) -> u32
        ensures { result ≡ bits self.now.program self.now.analysis }
    {
        self.problem.bits()
    }

    /// The points of the procedure.
    pub fn points(&self) -> PointRange
        ensures points { result ≡ self.now.points }
        ensures ordered { result.first ≤ result.end }
        ensures there { result.end ≤ point_count self.now.program }
    {
        self.points
    }

    /// The points that are computed, in the order in which rounds take them.
    pub fn order(&self) -> &[u32]
        ensures order { result.now ≡ self.now.order }
        ensures ordered { IsOrdered self.now }
        ensures within { All (IsWithin self.now.points) result.now }
    {
        self.order.as_slice()
    }

    /// Whether a point is computed.
    pub fn computes(&self, point: u32) -> bool
        requires { IsWithin self.now.points point }
        ensures { result ≡ computes (iteration_of self.now) point }
    {
        self.computed[(point - self.points.first) as usize]
    }

    /// The points from which steps lead to the point at a place of the order.
    pub(crate) fn sources(&self, place: usize) -> &[u32]
        requires { place < length self.now.order }
        ensures { result.now ≡ sources_to (may_shape self.now.program self.now.analysis).edges
            (has_path_within self.now.points self.now.table) (slice_index self.now.order place) }
    {
        self.sources[place].points.as_slice()
    }

    /// Whether the table has a bit at a point.
    pub(crate) fn in_table(&self, point: u32, bit: u32) -> bool
        requires point { IsWithin self.now.points point }
        requires bit { bit < bits self.now.program self.now.analysis }
        ensures { result ≡ (facts_of self.now.table).contains point bit }
    {
        self.table.contains(point, bit)
    }

    /// What a step brings of a bit that stands where it begins, or does not.
    pub(crate) fn bit_behind(&self, source: u32, point: u32, bit: u32, before: bool) -> bool
        requires source { IsWithin self.now.points source }
        requires point { IsWithin self.now.points point }
        requires bit { bit < bits self.now.program self.now.analysis }
        ensures { result ≡ value_across (directed_transfer self.now.program self.now.analysis bit) (Step source point) before }
    {
        let statement = match self.problem.direction() {
            Direction::Forward => source,
            Direction::Backward => point,
        };
        let gens = self.problem.gens(statement, bit);
        let kills = self.problem.kills(statement, bit);
        passes(self.problem.complements(), gens, kills, before)
    }
}
