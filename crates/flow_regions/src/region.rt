// The procedures that touch a group of columns.
ghost use Rattle.std.specs.Prelude.{◌≡◌, ◌*◌, ◌≢◌, ◌+◌, ◌^◌, ◌<◌, ◌≤◌, ◌++◌, ◌∷◌, [], ℕ, true, false, IfOk, OnOk, length, slice_index, slice_index_or};
ghost use Rattle.flow_graph.specs.Points.{point_count};
ghost use Rattle.flow_links.specs.Shapes.{directed_shape};
ghost use Rattle.gen_kill.specs.Selections.{column_count};
ghost use Rattle.flow_regions.specs.code.Lists.{AreLists, AreLow, Has};
ghost use Rattle.flow_regions.specs.code.Regions.{AreAllBelow, ArePlaced, ArePointsOf, HoldsTouched, IsIn, IsPlaced, StaysIn};
ghost use Rattle.flow_regions.specs.code.Touches.{AreMarked, AreTouches};
ghost use Rattle.tac_program.specs.Limits.{most_points};
ghost use Rattle.tac_program.specs.declared.limits.Limits.TheVariants.{Large};

use crate::OutOfMemory;
use crate::lists::{Lists, lists_of};
use flow_graph::Direction;
use flow_links::Links;
use gen_kill::Problem;
use std::alloc::Global;

// Puts the procedures of points inside.
fn put_inside(links: &Links, points: &[u32], inside: &mut [bool])
    requires low { AreLow (point_count links.now.program) points.now }
    requires count { length inside.old ≡ (directed_shape links.now).procedures }
    ensures count { length inside.new ≡ length inside.old }
    ensures kept { StaysIn inside.old inside.new }
    ensures here { (j : ℕ) → j < length points.now → IsIn (directed_shape links.now) inside.new (slice_index points.now j) }
{
    // Its contract tells that a point's procedure is there.
    let _ = links.points();
    for point in points {
        inside[links.procedure_of(*point) as usize] = true;
    }
}

/// Puts the procedures inside that touch one of these columns.
pub fn put_touched(
    problem: &Problem<'_, '_>,
    links: &Links,
    marked: &[bool],
    touches: &Lists,
    columns: &[u32],
    inside: &mut [bool],
)
    requires marked { AreMarked marked.now columns.now }
    requires program { problem.now.program ≡ links.now.program }
    requires touches { AreTouches problem.now marked.now touches.now }
    requires low { AreLow (column_count problem.now) columns.now }
    requires count { length inside.old ≡ (directed_shape links.now).procedures }
    ensures count { length inside.new ≡ length inside.old }
    ensures kept { StaysIn inside.old inside.new }
    ensures touched { HoldsTouched problem.now (directed_shape links.now) columns.now inside.new (point_count links.now.program) }
{
    let _ = marked;
    for column in columns {
        put_inside(links, touches.of(*column), inside);
    }
}

// Gives a point its place, behind those that have one.
fn put_place(points: &mut Vec<u32>, places: &mut [u32], point: u32) -> Result<(), OutOfMemory>
    requires there { point < length places.old }
    requires few { length points.old.items < 2 ^ 32 }
    ensures points { OnOk result (points.new.items ≡ points.old.items ++ point ∷ []) }
    ensures count { OnOk result (length places.new ≡ length places.old) }
    ensures here { OnOk result (slice_index places.new point ≡ length points.old.items) }
    ensures others { OnOk result ((x : ℕ) → x ≢ point → slice_index places.new x ≡ slice_index places.old x) }
{
    places[point as usize] = points.len() as u32;
    points.push(point)?;
    Ok(())
}

// Gives a point its place, if it is one of a procedure inside.
fn put_point(
    links: &Links,
    procedure: u32,
    inside: &[bool],
    points: &mut Vec<u32>,
    places: &mut [u32],
    point: u32,
) -> Result<(), OutOfMemory>
    requires there { point < point_count links.now.program }
    requires inside { slice_index_or inside.now procedure false ≡ true }
    requires few { length points.old.items < 2 ^ 32 }
    requires before { ArePlaced (directed_shape links.now) inside.now (point_count links.now.program) procedure points.old.items places.old }
    ensures placed { OnOk result (ArePlaced (directed_shape links.now) inside.now (point_count links.now.program) procedure points.new.items places.new) }
    ensures here { OnOk result ((directed_shape links.now).procedure_of point ≡ procedure → IsPlaced points.new.items places.new point) }
    ensures kept { OnOk result ((x : ℕ) → IsPlaced points.old.items places.old x → IsPlaced points.new.items places.new x) }
    ensures many { OnOk result (length points.new.items ≤ length points.old.items + 1) }
{
    if links.procedure_of(point) != procedure {
        return Ok(());
    }
    put_place(points, places, point)
}

// Gives the points of a procedure inside their places.
fn put_procedure(
    links: &Links,
    listed: &[u32],
    procedure: u32,
    inside: &[bool],
    points: &mut Vec<u32>,
    places: &mut [u32],
) -> Result<(), OutOfMemory>
    requires low { AreLow (point_count links.now.program) listed.now }
    requires inside { slice_index_or inside.now procedure false ≡ true }
    requires many { length points.old.items + length listed.now ≤ 2 * most_points Large }
    requires before { ArePlaced (directed_shape links.now) inside.now (point_count links.now.program) procedure points.old.items places.old }
    requires all { (x : ℕ) → x < point_count links.now.program → (directed_shape links.now).procedure_of x ≡ procedure
        → (j : ℕ) × (j < length listed.now) × (slice_index listed.now j ≡ x) }
    ensures placed { OnOk result (ArePlaced (directed_shape links.now) inside.now (point_count links.now.program) (procedure + 1) points.new.items places.new) }
    ensures many { OnOk result (length points.new.items ≤ length points.old.items + length listed.now) }
{
    for point in listed {
        put_point(links, procedure, inside, points, places, *point)?;
    }
    Ok(())
}

// The procedures of points.
fn procedures_of(alloc: Global, links: &Links, points: &[u32]) -> Result<Vec<u32>, OutOfMemory>
    requires { AreLow (point_count links.now.program) points.now }
    ensures count { IfOk result (λ keys. length keys.items ≡ length points.now) }
    ensures low { IfOk result (λ keys. AreLow (directed_shape links.now).procedures keys.items) }
    ensures each { IfOk result (λ keys. (j : ℕ) → j < length points.now
        → slice_index keys.items j ≡ (directed_shape links.now).procedure_of (slice_index points.now j)) }
{
    // Its contract tells that a point's procedure is there.
    let _ = links.points();
    let mut keys = Vec::with_capacity(alloc, points.len())?;
    for point in points {
        keys.push(links.procedure_of(*point))?;
    }
    Ok(keys)
}

/// The numbers below a count. Fails only where memory runs out.
pub fn numbers_below(alloc: Global, count: u32) -> Result<Vec<u32>, OutOfMemory>
    ensures count { IfOk result (λ numbers. length numbers.items ≡ count) }
    ensures each { IfOk result (λ numbers. (x : ℕ) → x < count → slice_index numbers.items x ≡ x) }
{
    let mut numbers = Vec::with_capacity(alloc, count as usize)?;
    for number in 0..count {
        numbers.push(number)?;
    }
    Ok(numbers)
}

// The numbers below a count, falling.
fn numbers_falling(alloc: Global, count: u32) -> Result<Vec<u32>, OutOfMemory>
    ensures count { IfOk result (λ numbers. length numbers.items ≡ count) }
    ensures each { IfOk result (λ numbers. (j : ℕ) → j < count → slice_index numbers.items j + j + 1 ≡ count) }
{
    let mut numbers = Vec::with_capacity(alloc, count as usize)?;
    for number in 0..count {
        numbers.push(count - 1 - number)?;
    }
    Ok(numbers)
}

// The points, rising.
fn points_rising(alloc: Global, links: &Links) -> Result<Vec<u32>, OutOfMemory>
    ensures { IfOk result (λ points. AreAllBelow (point_count links.now.program) points.items) }
{
    let numbers = numbers_below(alloc, links.points())?;
    Ok(numbers)
}

// The points, falling.
fn points_falling(alloc: Global, links: &Links) -> Result<Vec<u32>, OutOfMemory>
    ensures { IfOk result (λ points. AreAllBelow (point_count links.now.program) points.items) }
{
    let numbers = numbers_falling(alloc, links.points())?;
    Ok(numbers)
}

// The points against the direction of the edges, in which most of these lead from a point to one behind it: lists by key turn them round.
fn points_against_edges(alloc: Global, links: &Links) -> Result<Vec<u32>, OutOfMemory>
    ensures { IfOk result (λ points. AreAllBelow (point_count links.now.program) points.items) }
{
    match links.direction() {
        Direction::Forward => points_falling(alloc, links),
        Direction::Backward => points_rising(alloc, links),
    }
}

/// The points of each procedure, in the direction of the edges. Fails only where memory runs out.
pub fn points_by_procedure(alloc: Global, links: &Links) -> Result<Lists, OutOfMemory>
    ensures { IfOk result (ArePointsOf links.now) }
{
    // Its contract tells that there are few points.
    let _ = links.points();
    let points = points_against_edges(alloc, links)?;
    let keys = procedures_of(alloc, links, points.as_slice())?;
    let lists = lists_of(
        alloc,
        keys.as_slice(),
        points.as_slice(),
        links.procedures(),
    )?;
    Ok(lists)
}

/// Gives the points of all procedures inside their places. Fails only where memory runs out.
pub fn put_points(
    links: &Links,
    listed: &Lists,
    inside: &[bool],
    points: &mut Vec<u32>,
    places: &mut [u32],
) -> Result<(), OutOfMemory>
    requires listed { ArePointsOf links.now listed.now }
    requires inside { length inside.now ≡ (directed_shape links.now).procedures }
    requires none { points.old.items ≡ [] }
    requires places { length places.old ≡ point_count links.now.program }
    ensures placed { OnOk result (ArePlaced (directed_shape links.now) inside.now (point_count links.now.program) (directed_shape links.now).procedures
        points.new.items places.new) }
    ensures few { OnOk result (length points.new.items ≤ most_points Large) }
{
    // Its contract tells that there are few points.
    let _ = links.points();
    for procedure in 0..links.procedures() {
        if inside[procedure as usize] {
            put_procedure(
                links,
                listed.of(procedure),
                procedure,
                inside,
                points,
                places,
            )?;
        }
    }
    Ok(())
}
