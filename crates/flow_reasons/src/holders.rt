// Which variables hold the value of an expression.
ghost use Rattle.std.specs.Prelude.{◌≡◌, ◌<◌, ◌↔◌, ℕ, false, true, IfOk, length, slice_index_or};
ghost use Rattle.flow_graph.specs.Analyses.{shape_of};
ghost use Rattle.flow_graph.specs.Paths.{EveryPathHas, HasPath};
ghost use Rattle.flow_graph.specs.Points.{point_count};
ghost use Rattle.flow_graph.specs.Universes.{target_at};
ghost use Rattle.flow_reasons.specs.Holders.{HoldsValue, holding};
ghost use Rattle.flow_reasons.specs.Lists.{AreAll};
ghost use Rattle.flow_reasons.specs.code.Asked.{IsAskedOf};
ghost use Rattle.flow_reasons.specs.code.Holding.{AreTargetsUntil, is_lost, is_made};
ghost use Rattle.flow_reasons.specs.code.Marks.{AreAllBelow, AreMarks};

use crate::OutOfMemory;
use crate::met::{path_has, put_if};
use flow_graph::{Graph, target};
use flow_why::{PointBit, Ways};
use gen_kill::Problem;
use std::alloc::Global;

/// What is asked of an expression at a point.
#[derive(Drop)]
pub(crate) struct Asked<'a, 'g, 'p> {
    /// The graph.
    pub graph: &'a Graph<'p>,
    /// Live variables: which statements write a variable.
    pub live: &'a Problem<'g, 'p>,
    /// Available expressions.
    pub available: &'a Problem<'g, 'p>,
    /// The ways forwards.
    pub ways: &'a Ways,
    /// The expression.
    pub expression: u32,
    /// The point.
    pub at: u32,
}

// The variable that the statement at a point writes.
fn written(graph: &Graph<'_>, point: u32) -> Option<u32>
    requires { point < point_count graph.now }
    ensures { result ≡ target_at graph.now point }
{
    match graph.stmt(point) {
        Some(stmt) => target(&stmt.kind),
        None => None,
    }
}

// Whether a statement makes a variable hold the expression's value.
fn makes(asked: &Asked<'_, '_, '_>, variable: u32, point: u32) -> bool
    requires asked { IsAskedOf asked.now.graph.now asked.now }
    requires variable { variable < length asked.now.graph.now.variable_names }
    requires point { point < point_count asked.now.graph.now }
    ensures { result ≡ is_made asked.now.graph.now asked.now.expression variable point }
{
    let writes = asked.live.kills(point, variable);
    let evaluates = asked.available.kills(point, asked.expression);
    writes & evaluates
}

// Whether one loses it.
fn loses(asked: &Asked<'_, '_, '_>, variable: u32, point: u32) -> bool
    requires asked { IsAskedOf asked.now.graph.now asked.now }
    requires variable { variable < length asked.now.graph.now.variable_names }
    requires point { point < point_count asked.now.graph.now }
    ensures { result ≡ is_lost asked.now.graph.now asked.now.expression variable point }
{
    let made = makes(asked, variable, point);
    let writes = asked.live.kills(point, variable);
    let changes = asked.available.gens(point, asked.expression);
    (writes | changes) & !made
}

// By point, which statements make a variable hold the value.
fn made_marks(
    alloc: Global,
    asked: &Asked<'_, '_, '_>,
    variable: u32,
) -> Result<Vec<bool>, OutOfMemory>
    requires asked { IsAskedOf asked.now.graph.now asked.now }
    requires variable { variable < length asked.now.graph.now.variable_names }
    ensures { IfOk result (λ marks. AreMarks (point_count asked.now.graph.now)
        (is_made asked.now.graph.now asked.now.expression variable) marks.items) }
{
    let points = asked.graph.points();
    let mut marks = Vec::with_capacity(alloc, points as usize)?;
    for point in 0..points {
        marks.push(makes(asked, variable, point))?;
    }
    Ok(marks)
}

// The statements that lose it.
fn losing_points(
    alloc: Global,
    asked: &Asked<'_, '_, '_>,
    variable: u32,
) -> Result<Vec<u32>, OutOfMemory>
    requires asked { IsAskedOf asked.now.graph.now asked.now }
    requires variable { variable < length asked.now.graph.now.variable_names }
    ensures { IfOk result (λ points. AreAllBelow (λ x. is_lost asked.now.graph.now asked.now.expression variable x ≡ true)
        (point_count asked.now.graph.now) points.items) }
{
    let mut points = Vec::new(alloc);
    for point in 0..asked.graph.points() {
        put_if(&mut points, point, loses(asked, variable, point))?;
    }
    Ok(points)
}

// Whether a variable holds the value on every valid path to the point.
fn always_holds(
    alloc: Global,
    asked: &Asked<'_, '_, '_>,
    variable: u32,
) -> Result<bool, OutOfMemory>
    requires asked { IsAskedOf asked.now.graph.now asked.now }
    requires variable { variable < length asked.now.graph.now.variable_names }
    ensures { IfOk result (λ always. (always ≡ true)
        ↔ EveryPathHas (shape_of asked.now.graph.now) (holding asked.now.graph.now asked.now.expression variable) asked.now.at) }
{
    let made = made_marks(alloc, asked, variable)?;
    let lost = losing_points(alloc, asked, variable)?;
    let bit = PointBit::new(lost.as_slice(), made.as_slice(), true);
    let lacks = path_has(alloc, asked.ways, asked.graph, &bit, asked.at)?;
    Ok(!lacks)
}

// Marks a number, if it is one of those.
fn mark(marks: &mut Vec<bool>, number: u32)
    ensures count { length marks.new.items ≡ length marks.old.items }
    ensures kept { (x : ℕ) → slice_index_or marks.old.items x false ≡ true → slice_index_or marks.new.items x false ≡ true }
    ensures made { number < length marks.old.items → slice_index_or marks.new.items number false ≡ true }
{
    if (number as usize) < marks.len() {
        marks[number as usize] = true;
    }
}

// Marks the variable to which the statement at a point assigns the expression, if it does.
fn mark_target(asked: &Asked<'_, '_, '_>, point: u32, marks: &mut Vec<bool>)
    requires asked { IsAskedOf asked.now.graph.now asked.now }
    requires point { point < point_count asked.now.graph.now }
    ensures count { length marks.new.items ≡ length marks.old.items }
    ensures kept { (x : ℕ) → slice_index_or marks.old.items x false ≡ true → slice_index_or marks.new.items x false ≡ true }
    ensures made { (x : ℕ) → x < length marks.old.items → is_made asked.now.graph.now asked.now.expression x point ≡ true
        → slice_index_or marks.new.items x false ≡ true }
{
    if !asked.available.kills(point, asked.expression) {
        return;
    }
    match written(asked.graph, point) {
        Some(variable) => mark(marks, variable),
        None => {},
    }
}

// The variables to which some statement assigns the expression are marked.
fn targets(alloc: Global, asked: &Asked<'_, '_, '_>) -> Result<Vec<bool>, OutOfMemory>
    requires asked { IsAskedOf asked.now.graph.now asked.now }
    ensures { IfOk result (λ marks. AreTargetsUntil asked.now.graph.now asked.now.expression (point_count asked.now.graph.now) marks.items) }
{
    let mut marks = vec![in alloc; false; asked.live.variables() as usize]?;
    for point in 0..asked.graph.points() {
        mark_target(asked, point, &mut marks);
    }
    Ok(marks)
}

// Whether a variable holds the value, at a point to which a valid path leads.
fn holds(
    alloc: Global,
    asked: &Asked<'_, '_, '_>,
    targets: &[bool],
    variable: u32,
) -> Result<bool, OutOfMemory>
    requires asked { IsAskedOf asked.now.graph.now asked.now }
    requires reached { HasPath (shape_of asked.now.graph.now) asked.now.at }
    requires targets { AreTargetsUntil asked.now.graph.now asked.now.expression (point_count asked.now.graph.now) targets.now }
    requires variable { variable < length targets.now }
    ensures { IfOk result (λ holds. (holds ≡ true) ↔ HoldsValue asked.now.graph.now asked.now.expression asked.now.at variable) }
{
    if !targets[variable as usize] {
        return Ok(false);
    }
    always_holds(alloc, asked, variable)
}

// The variables that hold the value, at a point to which a valid path leads.
fn list_holders(
    alloc: Global,
    asked: &Asked<'_, '_, '_>,
    targets: &[bool],
) -> Result<Vec<u32>, OutOfMemory>
    requires asked { IsAskedOf asked.now.graph.now asked.now }
    requires reached { HasPath (shape_of asked.now.graph.now) asked.now.at }
    requires targets { AreTargetsUntil asked.now.graph.now asked.now.expression (point_count asked.now.graph.now) targets.now }
    ensures { IfOk result (λ list. AreAll (HoldsValue asked.now.graph.now asked.now.expression asked.now.at) list.items) }
{
    let mut list = Vec::new(alloc);
    for variable in 0..asked.live.variables() {
        let has = holds(alloc, asked, targets, variable)?;
        put_if(&mut list, variable, has)?;
    }
    Ok(list)
}

/// The variables that hold the expression's value at the point: none where no valid path leads there.
pub(crate) fn holders_of(alloc: Global, asked: &Asked<'_, '_, '_>) -> Result<Vec<u32>, OutOfMemory>
    requires { IsAskedOf asked.now.graph.now asked.now }
    ensures { IfOk result (λ list. AreAll (HoldsValue asked.now.graph.now asked.now.expression asked.now.at) list.items) }
{
    if !asked.ways.has_path(asked.at) {
        return Ok(Vec::new(alloc));
    }
    let targets = targets(alloc, asked)?;
    list_holders(alloc, asked, targets.as_slice())
}
