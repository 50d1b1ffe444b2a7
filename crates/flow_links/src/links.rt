ghost use Rattle.std.specs.Prelude.{◌≡◌, ◌<◌, ◌≤◌, IfOk, length};
ghost use Rattle.flow_graph.specs.Analyses.{is_backward};
ghost use Rattle.flow_graph.specs.Directions.{goes_backward};
ghost use Rattle.flow_graph.specs.Problems.{may_shape};
ghost use Rattle.flow_graph.specs.Limits.{HasFewPoints};
ghost use Rattle.tac_program.specs.declared.limits.Limits.TheVariants.{Large};
ghost use Rattle.flow_graph.specs.Points.{point_count};
ghost use Rattle.flow_links.specs.LinkLists.{AreStepsFrom, AreCallsFrom, AreCallersOf, AreSitesIn};
ghost use Rattle.flow_links.specs.Shapes.{directed_shape, IsNumbered};
ghost use Rattle.flow_links.specs.Tables.LinkTables.{AreEach};
ghost use Rattle.tac_program.specs.Limits.{most_procedures};

use crate::OutOfMemory;
use crate::link::{CallLink, SiteLink};
use crate::lists::{CallLists, PointLists, SiteLists, edge_lists};
use crate::orders::{Orders, number_orders, orders_of};
use flow_graph::{Analysis, Direction};
use gen_kill::Problem;
use std::alloc::Global;
use std::marker::Model;
use std::snapshot::Snapshot;
use tac_program::Program;
use worklist::Order;

/// The edges of a problem by point, in the direction in which it is solved, and an order in which to take its points and
/// one in which to take its procedures. It stands for the program and the direction: two analyses of one direction have
/// the same links.
///
/// The lists lie side by side in a handful of blocks, made in time that goes with the number of edges.
pub struct Links {
    program: Snapshot<Program>,
    analysis: Analysis,
    direction: Direction,
    root: u32,
    entries: Vec<u32>,
    exits: Vec<u32>,
    procedures: Vec<u32>,
    steps: PointLists,
    calls: CallLists,
    callers: PointLists,
    sites: SiteLists,
    order: Order,
    call_order: Order,
}

impl Model for Links {
    ghost use Rattle.flow_graph.specs.Directions.{goes_backward};
    ghost use Rattle.flow_links.specs.Shapes.{LinkedProgram};
    ghost use Rattle.flow_links.specs.Tables.LinkTables.{AreTables};

    ghost Value = { LinkedProgram };

    ghost view = { λ links. record { program = links.program.value; backward = goes_backward links.direction } };

    ghost invariant = { λ links. AreTables (record { program = links.program.value; analysis = links.analysis }) (goes_backward links.direction)
        links.root links.entries.items links.exits.items links.procedures.items links.steps.starts.items links.steps.items.items
        links.calls.starts.items links.calls.items.items links.callers.starts.items links.callers.items.items
        links.sites.starts.items links.sites.items.items links.order links.call_order };
}

impl Drop for Links {
    // By hand: a caller that gives links up then makes one call, and not one for each list.
    fn drop(self) {
        let Links {
            program: _,
            analysis: _,
            direction: _,
            root: _,
            entries: _,
            exits: _,
            procedures: _,
            steps: _,
            calls: _,
            callers: _,
            sites: _,
            order: _,
            call_order: _,
        } = self;
    }
}

// The entry of each procedure.
fn entries(alloc: Global, problem: &Problem<'_, '_>) -> Result<Vec<u32>, OutOfMemory>
    ensures { IfOk result (λ entries. AreEach entries.items (may_shape problem.now.program problem.now.analysis).procedures
        (may_shape problem.now.program problem.now.analysis).entry) }
{
    let count = problem.procedures();
    let _ = problem.points();
    let mut entries = Vec::with_capacity(alloc, count as usize)?;
    for procedure in 0..count {
        entries.push(problem.entry(procedure))?;
    }
    Ok(entries)
}

// The exit of each procedure.
fn exits(alloc: Global, problem: &Problem<'_, '_>) -> Result<Vec<u32>, OutOfMemory>
    ensures { IfOk result (λ exits. AreEach exits.items (may_shape problem.now.program problem.now.analysis).procedures
        (may_shape problem.now.program problem.now.analysis).exit) }
{
    let count = problem.procedures();
    let _ = problem.points();
    let mut exits = Vec::with_capacity(alloc, count as usize)?;
    for procedure in 0..count {
        exits.push(problem.exit(procedure))?;
    }
    Ok(exits)
}

// The procedure of each point.
fn procedures_of(alloc: Global, problem: &Problem<'_, '_>) -> Result<Vec<u32>, OutOfMemory>
    ensures { IfOk result
        (λ procedures. AreEach procedures.items (point_count problem.now.program) (may_shape problem.now.program problem.now.analysis).procedure_of) }
{
    let _ = problem.procedures();
    let points = problem.points();
    let mut procedures = Vec::with_capacity(alloc, points as usize)?;
    for point in 0..points {
        procedures.push(problem.procedure(point))?;
    }
    Ok(procedures)
}

// The procedures' entries and exits, and the procedure of each point.
#[derive(Drop)]
struct PlaceTables {
    entries: Vec<u32>,
    exits: Vec<u32>,
    procedures: Vec<u32>,
}

// The tables of a problem's procedures and points.
fn place_tables(alloc: Global, problem: &Problem<'_, '_>) -> Result<PlaceTables, OutOfMemory>
    ensures entries { IfOk result (λ tables. AreEach tables.entries.items (may_shape problem.now.program problem.now.analysis).procedures
        (may_shape problem.now.program problem.now.analysis).entry) }
    ensures exits { IfOk result (λ tables. AreEach tables.exits.items (may_shape problem.now.program problem.now.analysis).procedures
        (may_shape problem.now.program problem.now.analysis).exit) }
    ensures procedures { IfOk result (λ tables.
        AreEach tables.procedures.items (point_count problem.now.program) (may_shape problem.now.program problem.now.analysis).procedure_of) }
{
    let entries = entries(alloc, problem)?;
    let exits = exits(alloc, problem)?;
    let procedures = procedures_of(alloc, problem)?;
    Ok(PlaceTables {
        entries,
        exits,
        procedures,
    })
}

impl Links {
    // The links of a problem, in the order of the numbers.
    fn unordered(alloc: Global, problem: &Problem<'_, '_>) -> Result<Self, OutOfMemory>
        ensures { IfOk result (λ links. links ≡ record { program = problem.now.program; backward = is_backward problem.now.analysis }) }
    {
        let tables = place_tables(alloc, problem)?;
        let orders = number_orders(alloc, problem.points(), problem.procedures())?;
        let lists = edge_lists(alloc, problem)?;
        Ok(Links {
            program: Snapshot::of(problem.program()),
            analysis: problem.analysis(),
            direction: problem.direction(),
            root: problem.root(),
            entries: tables.entries,
            exits: tables.exits,
            procedures: tables.procedures,
            steps: lists.steps,
            calls: lists.calls,
            callers: lists.callers,
            sites: lists.sites,
            order: orders.points,
            call_order: orders.procedures,
        })
    }

    // The same links in other orders.
    fn with_orders(self, order: Order, call_order: Order) -> Self
        requires points { length order ≡ point_count self.program }
        requires procedures { length call_order ≡ (directed_shape self).procedures }
        ensures { result ≡ self }
    {
        let mut links = self;
        links.order = order;
        links.call_order = call_order;
        links
    }

    /// The links of a problem.
    pub fn of(alloc: Global, problem: &Problem<'_, '_>) -> Result<Self, OutOfMemory>
        ensures { IfOk result (λ links. links ≡ record { program = problem.now.program; backward = is_backward problem.now.analysis }) }
    {
        let links = Links::unordered(alloc, problem)?;
        let Orders { points, procedures } = orders_of(alloc, &links)?;
        Ok(links.with_orders(points, procedures))
    }

    /// How many points there are: at most 16,777,216.
    pub fn points(&self) -> u32
        ensures count { result ≡ point_count self.now.program }
        ensures few { HasFewPoints Large self.now.program }
        ensures numbered { IsNumbered (directed_shape self.now) self.now.backward (point_count self.now.program) }
    {
        self.procedures.len() as u32
    }

    /// How many procedures there are: at most 262,144.
    pub fn procedures(&self) -> u32
        ensures count { result ≡ (directed_shape self.now).procedures }
        ensures few { (directed_shape self.now).procedures ≤ most_procedures Large }
    {
        self.entries.len() as u32
    }

    /// The procedure that begins the problem.
    pub fn root(&self) -> u32
        ensures { result ≡ (directed_shape self.now).root_procedure }
    {
        self.root
    }

    /// The point at which a procedure is entered: its last, where the edges are reversed.
    pub fn entry(&self, procedure: u32) -> u32
        requires { procedure < (directed_shape self.now).procedures }
        ensures { result ≡ (directed_shape self.now).entry procedure }
    {
        self.entries[procedure as usize]
    }

    /// The point at which a procedure is left: its first, where the edges are reversed.
    pub fn exit(&self, procedure: u32) -> u32
        requires { procedure < (directed_shape self.now).procedures }
        ensures { result ≡ (directed_shape self.now).exit procedure }
    {
        self.exits[procedure as usize]
    }

    /// The procedure of a point.
    pub fn procedure_of(&self, point: u32) -> u32
        requires { point < point_count self.now.program }
        ensures { result ≡ (directed_shape self.now).procedure_of point }
    {
        self.procedures[point as usize]
    }

    /// The direction of the problem's analysis: the edges are reversed where it goes backwards.
    pub fn direction(&self) -> Direction
        ensures { goes_backward result ≡ self.now.backward }
    {
        self.direction
    }

    /// The points to which steps lead from a point.
    pub fn steps_from(&self, point: u32) -> &[u32]
        requires { point < point_count self.now.program }
        ensures { AreStepsFrom (directed_shape self.now) (point_count self.now.program) point result.now }
    {
        let from = self.steps.starts[point as usize];
        let to = self.steps.starts[point as usize + 1];
        &self.steps.items[from as usize..to as usize]
    }

    /// The calls from a point: the exit of each callee, and the point after the call.
    pub fn calls_from(&self, point: u32) -> &[CallLink]
        requires { point < point_count self.now.program }
        ensures { AreCallsFrom (directed_shape self.now) self.now.backward (point_count self.now.program) point result.now }
    {
        let from = self.calls.starts[point as usize];
        let to = self.calls.starts[point as usize + 1];
        &self.calls.items[from as usize..to as usize]
    }

    /// The points of the calls whose callee is left at a point: none unless it is an exit.
    pub fn callers_of(&self, point: u32) -> &[u32]
        requires { point < point_count self.now.program }
        ensures { AreCallersOf (directed_shape self.now) (point_count self.now.program) point result.now }
    {
        let from = self.callers.starts[point as usize];
        let to = self.callers.starts[point as usize + 1];
        &self.callers.items[from as usize..to as usize]
    }

    /// The calls in a procedure.
    pub fn sites_in(&self, procedure: u32) -> &[SiteLink]
        requires { procedure < (directed_shape self.now).procedures }
        ensures { AreSitesIn (directed_shape self.now) (point_count self.now.program) procedure result.now }
    {
        let from = self.sites.starts[procedure as usize];
        let to = self.sites.starts[procedure as usize + 1];
        &self.sites.items[from as usize..to as usize]
    }

    /// An order of the points, in which few of them are taken up again. It bears on the time alone.
    pub fn order(&self) -> &Order
        ensures { length result.now ≡ point_count self.now.program }
    {
        &self.order
    }

    /// An order of the procedures, callers first where it can be. It bears on the time alone.
    pub fn call_order(&self) -> &Order
        ensures { length result.now ≡ (directed_shape self.now).procedures }
    {
        &self.call_order
    }
}
