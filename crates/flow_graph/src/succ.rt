// The edges out of a point.

ghost use Rattle.std.specs.Prelude.{◌≡◌, ◌<◌, suc, [], ◌∷◌, ◌++◌, length, map, All, Some, IfOk, OnOk, option_copied};
ghost use Rattle.flow_graph.specs.Edges.{edges_from, edges_of, label_point, two_steps};
ghost use Rattle.flow_graph.specs.code.Labels.{labels_at};
ghost use Rattle.flow_graph.specs.Limits.{HasFewPoints};
ghost use Rattle.tac_program.specs.Limits.{most_points};
ghost use Rattle.tac_program.specs.declared.limits.Limits.TheVariants.{Large};
ghost use Rattle.flow_graph.specs.Points.{end_point, entry_point, kind_at, point_count, procedure_at, statement_at};
ghost use Rattle.flow_graph.specs.declared.edge.Edge.TheVariants.{Step, Call, Ret};
ghost use Rattle.tac_program.specs.Sound.{IsSound};

use crate::OutOfMemory;
use crate::edge::Edge;
use crate::edge_list::EdgeList;
use crate::graph::Graph;
use crate::points::Points;
use smallvec::SmallVec;
use std::alloc::Global;
use tac_program::{Stmt, StmtKind};

/// The point that a label of a point's procedure stands for.
fn label_target(points: &Points<'_>, point: u32, label: u32) -> u32
    requires point { point < point_count points.now }
    requires label { label < length (labels_at points.now point) }
    ensures { result ≡ label_point points.now (procedure_at points.now point) label }
{
    let procedure = points.place(point).procedure;
    let procs = points.program().procs();
    let labels = procs[procedure as usize].labels();
    points.point(procedure, labels[label as usize].place)
}

/// The end of a point's procedure.
fn end_target(points: &Points<'_>, point: u32) -> u32
    requires point { point < point_count points.now }
    requires few { HasFewPoints Large points.now }
    ensures { result ≡ end_point points.now (procedure_at points.now point) }
{
    let procedure = points.place(point).procedure;
    let procs = points.program().procs();
    let stmts = procs[procedure as usize].stmts();
    points.point(procedure, stmts.len() as u32)
}

/// Puts the step to the next point last, and the one that a test takes, unless the two are one.
fn put_test<E: EdgeList>(edges: &mut E, point: u32, target: u32) -> Result<(), OutOfMemory>
    requires { point < most_points Large }
    ensures { OnOk result (E.listed edges.new ≡ E.listed edges.old ++ two_steps point target) }
{
    let next = point + 1;
    edges.put_edge(Edge::Step {
        from: point,
        to: next,
    })?;
    if target != next {
        edges.put_edge(Edge::Step {
            from: point,
            to: target,
        })?;
    }
    Ok(())
}

/// Puts a call of each callee last.
fn put_calls<E: EdgeList>(
    edges: &mut E,
    points: &Points<'_>,
    point: u32,
    callees: &[u32],
) -> Result<(), OutOfMemory>
    requires { All (λ callee. callee < length points.now.procedures) callees.now }
    ensures { OnOk result (E.listed edges.new ≡ E.listed edges.old ++ map (λ callee. Call point point (entry_point points.now callee)) callees.now) }
{
    for callee in callees {
        edges.put_edge(Edge::Call {
            site: point,
            from: point,
            to: points.point(*callee, 0),
        })?;
    }
    Ok(())
}

/// Puts a return to each call site last.
fn put_returns<E: EdgeList>(edges: &mut E, point: u32, sites: &[u32]) -> Result<(), OutOfMemory>
    requires { All (λ site. site < most_points Large) sites.now }
    ensures { OnOk result (E.listed edges.new ≡ E.listed edges.old ++ map (λ site. Ret site point (suc site)) sites.now) }
{
    for site in sites {
        edges.put_edge(Edge::Ret {
            site: *site,
            from: point,
            to: *site + 1,
        })?;
    }
    Ok(())
}

/// Puts the edges out of a statement last.
fn put_statement<E: EdgeList>(
    edges: &mut E,
    points: &Points<'_>,
    point: u32,
    kind: &StmtKind,
) -> Result<(), OutOfMemory>
    requires point { point < point_count points.now }
    requires kind { kind_at points.now point ≡ Some kind.now }
    requires sound { IsSound points.now }
    requires few { HasFewPoints Large points.now }
    ensures { OnOk result (E.listed edges.new ≡ E.listed edges.old ++ edges_of points.now point kind.now) }
{
    match kind {
        StmtKind::Goto { label } => edges.put_edge(Edge::Step {
            from: point,
            to: label_target(points, point, *label),
        }),
        StmtKind::If { label, .. } => put_test(edges, point, label_target(points, point, *label)),
        StmtKind::IfFalse { label, .. } => {
            put_test(edges, point, label_target(points, point, *label))
        },
        StmtKind::IfCompare { label, .. } => {
            put_test(edges, point, label_target(points, point, *label))
        },
        StmtKind::Call { callees } => put_calls(edges, points, point, callees.as_slice()),
        StmtKind::Return => edges.put_edge(Edge::Step {
            from: point,
            to: end_target(points, point),
        }),
        StmtKind::Copy { .. }
        | StmtKind::Unary { .. }
        | StmtKind::Binary { .. }
        | StmtKind::Read { .. }
        | StmtKind::Print { .. }
        | StmtKind::Skip => edges.put_edge(Edge::Step {
            from: point,
            to: point + 1,
        }),
    }
}

impl<'p> Graph<'p> {
    /// Puts the edges out of a point last. It is passed the statement before which the point stands.
    pub(crate) fn put_succ<E: EdgeList>(
        &self,
        edges: &mut E,
        point: u32,
        stmt: Option<&Stmt>,
    ) -> Result<(), OutOfMemory>
        requires point { point < point_count self.now }
        requires stmt { option_copied stmt ≡ statement_at self.now point }
        ensures { OnOk result (E.listed edges.new ≡ E.listed edges.old ++ edges_from self.now point) }
    {
        // Its contract tells that the program is sound and has few points.
        let _ = self.points.count();
        match stmt {
            Some(stmt) => put_statement(edges, &self.points, point, &stmt.kind),
            None => {
                let procedure = self.points.place(point).procedure;
                put_returns(edges, point, self.sites[procedure as usize].as_slice())
            },
        }
    }

    /// The edges out of a point: those of its statement, or at a procedure's end one return for each call site, in the
    /// order of points.
    pub fn succ(&self, alloc: Global, point: u32) -> Result<SmallVec<Edge, 2, Global>, OutOfMemory>
        requires { point < point_count self.now }
        ensures { IfOk result (λ edges. edges.items ≡ edges_from self.now point) }
    {
        // Two edges have room in place: only a call of more callees and more returns take memory.
        let mut edges = SmallVec::new(alloc);
        self.put_succ(&mut edges, point, self.points.stmt(point))?;
        Ok(edges)
    }
}
