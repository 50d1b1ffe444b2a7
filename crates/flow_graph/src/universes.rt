// The definitions and expressions of a program, by number.

ghost use Rattle.std.specs.List.{range_with_len};
ghost use Rattle.std.specs.Prelude.{◌≡◌, ◌<◌, ◌^◌, None, IfOk, OnOk, fold, length, map};
ghost use Rattle.flow_graph.specs.code.Evaluated.{AreEvaluated, IsNumberOf};
ghost use Rattle.flow_graph.specs.Points.{point_count};
ghost use Rattle.flow_graph.specs.Universes.{definitions as definitions_of, expression_at, expression_of, expressions as expressions_of, noted};
ghost use Rattle.flow_graph.specs.Universes.{some_expression, target_at, defined_variable};

use crate::OutOfMemory;
use crate::expression::Expr;
use crate::points::Points;
use indexmap::IndexSet;
use std::alloc::Global;
use tac_program::StmtKind;

/// The variable that a statement defines.
pub fn target(kind: &StmtKind) -> Option<u32>
    ensures { result ≡ defined_variable kind.now }
{
    match kind {
        StmtKind::Copy { target, .. } => Some(*target),
        StmtKind::Unary { target, .. } => Some(*target),
        StmtKind::Binary { target, .. } => Some(*target),
        StmtKind::Goto { .. } => None,
        StmtKind::If { .. } => None,
        StmtKind::IfFalse { .. } => None,
        StmtKind::IfCompare { .. } => None,
        StmtKind::Call { .. } => None,
        StmtKind::Return => None,
        StmtKind::Read { target } => Some(*target),
        StmtKind::Print { .. } => None,
        StmtKind::Skip => None,
    }
}

/// The expression that a statement evaluates.
pub fn expression(kind: &StmtKind) -> Option<Expr>
    ensures { result ≡ expression_of kind.now }
{
    match kind {
        StmtKind::Copy { .. } => None,
        StmtKind::Unary { op, operand, .. } => Some(Expr::Unary(*op, *operand)),
        StmtKind::Binary {
            left,
            op,
            right,
            ..
        } => Some(Expr::Binary(*left, *op, *right)),
        StmtKind::Goto { .. } => None,
        StmtKind::If { .. } => None,
        StmtKind::IfFalse { .. } => None,
        StmtKind::IfCompare { .. } => None,
        StmtKind::Call { .. } => None,
        StmtKind::Return => None,
        StmtKind::Read { .. } => None,
        StmtKind::Print { .. } => None,
        StmtKind::Skip => None,
    }
}

/// What the statement at a point defines.
fn target_of_point(points: &Points<'_>, point: u32) -> Option<u32>
    requires { point < point_count points.now }
    ensures { result ≡ target_at points.now point }
{
    match points.stmt(point) {
        None => None,
        Some(stmt) => target(&stmt.kind),
    }
}

/// The expression that the statement at a point evaluates.
fn expression_of_point(points: &Points<'_>, point: u32) -> Option<Expr>
    requires { point < point_count points.now }
    ensures { result ≡ expression_at points.now point }
{
    match points.stmt(point) {
        None => None,
        Some(stmt) => expression(&stmt.kind),
    }
}

/// The dummy definitions.
fn dummies(alloc: Global, variables: u32) -> Result<Vec<(u32, Option<u32>)>, OutOfMemory>
    ensures { IfOk result (λ v. v.items ≡ map (λ x. (x, None)) (range_with_len 0 variables)) }
{
    let mut definitions = Vec::with_capacity(alloc, variables as usize)?;
    for variable in 0..variables {
        definitions.push((variable, None))?;
    }
    Ok(definitions)
}

/// The definitions by number: the dummies, and then those of the statements in text order.
pub fn definitions(
    alloc: Global,
    points: &Points<'_>,
) -> Result<Vec<(u32, Option<u32>)>, OutOfMemory>
    ensures { IfOk result (λ v. v.items ≡ definitions_of points.now) }
{
    let mut definitions = dummies(alloc, points.program().variables())?;
    for point in 0..points.count() {
        match target_of_point(points, point) {
            Some(variable) => definitions.push((variable, Some(point)))?,
            None => {},
        }
    }
    Ok(definitions)
}

/// The number of an expression, which is put last unless it is there.
fn note_expression(
    expressions: &mut IndexSet<Expr>,
    expression: Option<Expr>,
) -> Result<Option<u32>, OutOfMemory>
    requires { length expressions.old.keys < 2 ^ 31 }
    ensures noted { OnOk result (expressions.new.keys ≡ fold noted expressions.old.keys (some_expression expression)) }
    ensures number { IfOk result (λ number. IsNumberOf expressions.new.keys expression number) }
{
    match expression {
        None => Ok(None),
        Some(expression) => {
            let (number, _) = expressions.insert_full(expression)?;
            Ok(Some(number as u32))
        },
    }
}

/// The expressions by number, and for each point the number of the one that its statement evaluates.
pub fn expressions(
    alloc: Global,
    points: &Points<'_>,
) -> Result<(IndexSet<Expr>, Vec<Option<u32>>), OutOfMemory>
    ensures expressions { IfOk result (λ r. (r.0).keys ≡ expressions_of points.now) }
    ensures evaluated { IfOk result (λ r. AreEvaluated points.now (r.1).items) }
{
    let mut expressions = IndexSet::new(alloc);
    let mut evaluated = Vec::with_capacity(alloc, points.count() as usize)?;
    for point in 0..points.count() {
        evaluated.push(note_expression(&mut expressions, expression_of_point(points, point))?)?;
    }
    Ok((expressions, evaluated))
}
