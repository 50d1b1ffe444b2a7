// The calls of a program.

ghost use Rattle.std.specs.Prelude.{◌≡◌, ℕ, ◌+◌, ◌<◌, ◌≤◌, ◌++◌, ◌∷◌, [], false};
ghost use Rattle.std.specs.Prelude.{All, IfOk, OnOk, flat_map, get_or, length, map, nat_eq, slice_index, if◌then◌else◌};
ghost use Rattle.std.specs.List.{list_any};
ghost use Rattle.flow_graph.specs.Edges.{callees_at, callees_named};
ghost use Rattle.flow_graph.specs.Points.{point_count, procedure_at};
ghost use Rattle.graph_components.specs.Components.{AreComponents};
ghost use Rattle.call_dots.specs.Calls.{arc_of, arcs_of, calls_at as calls_named_at, calls_in, count_of, edge_of, edges_in, edges_of, first_calls};
ghost use Rattle.call_dots.specs.code.Calls.{AreCalleesWithin, AreEdgesBefore, AreZero};
ghost use Rattle.call_dots.specs.code.Tables.{AreCallTables, leaves_back};

use crate::OutOfMemory;
use crate::counts::count_if;
use flow_graph::Graph;
use flow_views::shown_points;
use graph_components::{Arc, components_of};
use std::alloc::Global;
use tac_program::StmtKind;

/// A call that a statement names.
#[derive(Debug, Clone, Copy, PartialEq, Eq)]
pub struct NamedCall {
    /// The procedure of the statement.
    pub caller: u32,
    /// The procedure that it may call.
    pub callee: u32,
    /// The point of the statement.
    pub site: u32,
}

/// All calls from one procedure to another.
#[derive(Debug, Clone, Copy, PartialEq, Eq)]
pub struct CallEdge {
    /// The first of them.
    pub call: NamedCall,
    /// How many statements call.
    pub count: u64,
}

/// The edges of a call graph, the numbers of its components, and which procedures are recursive.
#[derive(Drop)]
pub(crate) struct CallGraph {
    pub edges: Vec<CallEdge>,
    pub numbers: Vec<u32>,
    pub recursive: Vec<bool>,
}

// The procedures that a statement may call.
fn callees_named(kind: &StmtKind) -> &[u32]
    ensures { result.now ≡ callees_named kind.now }
{
    match kind {
        StmtKind::Copy { .. } => &[],
        StmtKind::Unary { .. } => &[],
        StmtKind::Binary { .. } => &[],
        StmtKind::Goto { .. } => &[],
        StmtKind::If { .. } => &[],
        StmtKind::IfFalse { .. } => &[],
        StmtKind::IfCompare { .. } => &[],
        StmtKind::Call { callees } => callees.as_slice(),
        StmtKind::Return => &[],
        StmtKind::Read { .. } => &[],
        StmtKind::Print { .. } => &[],
        StmtKind::Skip => &[],
    }
}

// The procedures that the statement at a point may call.
fn callees<'p>(graph: &Graph<'p>, point: u32) -> &'p [u32]
    requires { point < point_count graph.now }
    ensures { result.now ≡ callees_at graph.now point }
{
    match graph.stmt(point) {
        None => &[],
        Some(stmt) => callees_named(&stmt.kind),
    }
}

// Puts the calls that the statement at a point names.
fn put_calls_at(calls: &mut Vec<NamedCall>, graph: &Graph<'_>, site: u32) -> Result<(), OutOfMemory>
    requires { site < point_count graph.now }
    ensures { OnOk result (calls.new.items ≡ calls.old.items ++ calls_named_at graph.now site) }
{
    let caller = graph.place(site).procedure;
    for callee in callees(graph, site) {
        let callee = *callee;
        calls.push(NamedCall {
            caller,
            callee,
            site,
        })?;
    }
    Ok(())
}

// The calls in a procedure.
fn calls_of(alloc: Global, graph: &Graph<'_>, procedure: u32) -> Result<Vec<NamedCall>, OutOfMemory>
    requires { procedure < length graph.now.procedures }
    ensures { IfOk result (λ calls. calls.items ≡ calls_in graph.now procedure) }
{
    let points = shown_points(graph, Some(procedure));
    let mut calls = Vec::new(alloc);
    for site in points.first..points.end {
        put_calls_at(&mut calls, graph, site)?;
    }
    Ok(calls)
}

// Puts calls as arcs.
fn put_arcs(arcs: &mut Vec<Arc>, calls: &[NamedCall]) -> Result<(), OutOfMemory>
    ensures { OnOk result (arcs.new.items ≡ arcs.old.items ++ map arc_of calls.now) }
{
    for call in calls {
        let arc = Arc {
            from: call.caller,
            to: call.callee,
        };
        arcs.push(arc)?;
    }
    Ok(())
}

// Counts the calls of each callee.
fn count_calls(counts: &mut Vec<u64>, calls: &[NamedCall])
    requires callees { AreCalleesWithin (length counts.old.items) calls.now }
    requires zero { AreZero counts.old.items }
    ensures count { length counts.new.items ≡ length counts.old.items }
    ensures each { (callee : ℕ) → callee < length counts.old.items → slice_index counts.new.items callee ≡ count_of calls.now callee }
{
    for call in calls {
        count_if(counts, call.callee, true);
    }
}

// Puts the edge of a call, if it was counted.
fn put_edge_if(edges: &mut Vec<CallEdge>, call: NamedCall, count: u64) -> Result<(), OutOfMemory>
    ensures { OnOk result (edges.new.items
        ≡ edges.old.items ++ (if nat_eq count 0 then [] else record { call = call; count = count } ∷ [])) }
{
    if count > 0 {
        edges.push(CallEdge { call, count })?;
    }
    Ok(())
}

// Puts an edge for each callee that was counted, at its first call, and takes its count away.
fn put_edges(
    edges: &mut Vec<CallEdge>,
    counts: &mut Vec<u64>,
    calls: &[NamedCall],
) -> Result<(), OutOfMemory>
    requires callees { AreCalleesWithin (length counts.old.items) calls.now }
    requires counts { (callee : ℕ) → callee < length counts.old.items → slice_index counts.old.items callee ≡ count_of calls.now callee }
    ensures edges { OnOk result (edges.new.items ≡ edges.old.items ++ map (edge_of calls.now) (first_calls calls.now)) }
    ensures count { OnOk result (length counts.new.items ≡ length counts.old.items) }
    ensures zero { OnOk result (AreZero counts.new.items) }
{
    for call in calls {
        let count = counts[call.callee as usize];
        counts[call.callee as usize] = 0;
        put_edge_if(edges, *call, count)?;
    }
    Ok(())
}

// The edges and the arcs of all procedures.
#[derive(Drop)]
struct Edges {
    edges: Vec<CallEdge>,
    arcs: Vec<Arc>,
    counts: Vec<u64>,
}

// Puts the edges and the arcs of a procedure.
fn put_procedure(
    alloc: Global,
    graph: &Graph<'_>,
    all: &mut Edges,
    procedure: u32,
) -> Result<(), OutOfMemory>
    requires procedure { procedure < length graph.now.procedures }
    requires before { AreEdgesBefore graph.now procedure all.old }
    ensures { OnOk result (AreEdgesBefore graph.now (procedure + 1) all.new) }
{
    // Its contract tells that the program is sound.
    let _ = graph.points();
    let calls = calls_of(alloc, graph, procedure)?;
    put_arcs(&mut all.arcs, calls.as_slice())?;
    count_calls(&mut all.counts, calls.as_slice());
    put_edges(&mut all.edges, &mut all.counts, calls.as_slice())?;
    Ok(())
}

// All edges and arcs.
fn all_edges(alloc: Global, graph: &Graph<'_>, count: u32) -> Result<Edges, OutOfMemory>
    requires { count ≡ length graph.now.procedures }
    ensures { IfOk result (AreEdgesBefore graph.now count) }
{
    let mut all = Edges {
        edges: Vec::new(alloc),
        arcs: Vec::new(alloc),
        counts: vec![in alloc; 0u64; count as usize]?,
    };
    for procedure in 0..count {
        put_procedure(alloc, graph, &mut all, procedure)?;
    }
    Ok(all)
}

// Which nodes arcs leave that lead back.
fn recursive_nodes(
    alloc: Global,
    arcs: &[Arc],
    numbers: &[u32],
    count: u32,
) -> Result<Vec<bool>, OutOfMemory>
    requires within { All (λ arc. (arc.from < count) × (arc.to < count)) arcs.now }
    requires numbers { length numbers.now ≡ count }
    ensures count { IfOk result (λ nodes. length nodes.items ≡ count) }
    ensures each { IfOk result (λ nodes. (p : ℕ) → p < count → get_or nodes.items p false ≡ list_any (leaves_back numbers.now p) arcs.now) }
{
    let mut nodes = vec![in alloc; false; count as usize]?;
    for arc in arcs {
        if numbers[arc.from as usize] == numbers[arc.to as usize] {
            nodes[arc.from as usize] = true;
        }
    }
    Ok(nodes)
}

/// The call graph of a program. Fails only where memory runs out.
pub(crate) fn call_graph(alloc: Global, graph: &Graph<'_>) -> Result<CallGraph, OutOfMemory>
    ensures { IfOk result (AreCallTables graph.now) }
{
    // Their contracts tell that the program is sound and has few procedures.
    let _ = graph.points();
    let count = graph.program().procs().len() as u32;
    let all = all_edges(alloc, graph, count)?;
    let numbers = components_of(alloc, all.arcs.as_slice(), count)?;
    let recursive = recursive_nodes(alloc, all.arcs.as_slice(), numbers.as_slice(), count)?;
    let Edges {
        edges,
        arcs: _,
        counts: _,
    } = all;
    Ok(CallGraph {
        edges,
        numbers,
        recursive,
    })
}
