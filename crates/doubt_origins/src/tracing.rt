// The search backwards from the points that have no valid path to the end of `main`.

ghost use Rattle.std.specs.Prelude.{◌≡◌, ℕ, ◌<◌, ◌^◌, [], ◌∷◌, All, IfOk, IsSome, OnOk, Some, None, false, fold, length, map, true};
ghost use Rattle.std.specs.Prelude.{get_or, if◌then◌else◌};
ghost use Rattle.std.specs.List.{filter, range_with_len};
ghost use Rattle.flow_graph.specs.code.NumberLists.{contents};
ghost use Rattle.flow_graph.specs.code.Searching.{AreSources, search_of, with_known};
ghost use Rattle.flow_graph.specs.Points.{point_count};
ghost use Rattle.tac_program.specs.Sound.{IsSound};
ghost use Rattle.doubt_origins.specs.Origins.{origins_in, AreOrigins};
ghost use Rattle.doubt_origins.specs.code.Tracing.{AddsOrigin, TellEndless, known_in, own_origin};

use crate::OutOfMemory;
use crate::sources::{PointList, sources};
use flow_graph::Graph;
use std::alloc::Global;

// The point itself, where it is endless.
fn own_origin(is_endless: bool, point: u32) -> Option<u32>
    ensures { result ≡ own_origin is_endless point }
{
    if is_endless { Some(point) } else { None }
}

// Endless points are where their own doubt comes from.
fn own_origins(alloc: Global, endless: &[bool]) -> Result<Vec<Option<u32>>, OutOfMemory>
    requires { length endless.now < 2 ^ 32 }
    ensures { IfOk result (λ origins. origins.items
        ≡ map (λ point. own_origin (get_or endless.now point false) point) (range_with_len 0 (length endless.now))) }
{
    let mut origins = Vec::with_capacity(alloc, endless.len())?;
    for point in 0..endless.len() {
        origins.push(own_origin(endless[point], point as u32))?;
    }
    Ok(origins)
}

// The endless points.
fn endless_numbers(alloc: Global, endless: &[bool]) -> Result<Vec<u32>, OutOfMemory>
    requires { length endless.now < 2 ^ 32 }
    ensures { IfOk result (λ points. points.items ≡ filter (λ point. get_or endless.now point false) (range_with_len 0 (length endless.now))) }
{
    let mut points = Vec::new(alloc);
    for point in 0..endless.len() {
        if endless[point] {
            points.push(point as u32)?;
        }
    }
    Ok(points)
}

// Tells where the doubt of a point comes from; where that was not told before, the point is put to the work.
fn know_origin(
    origins: &mut Vec<Option<u32>>,
    work: &mut Vec<u32>,
    point: u32,
    origin: u32,
) -> Result<(), OutOfMemory>
    requires { point < length origins.old.items }
    ensures known { OnOk result (search_of (known_in origins.new.items) work.new.items
        ≡ with_known (search_of (known_in origins.old.items) work.old.items) point) }
    ensures adds { OnOk result (AddsOrigin (point ∷ []) origin origins.old.items origins.new.items) }
{
    let told = origins[point as usize];
    origins[point as usize] = Some(told.unwrap_or(origin));
    if told.is_none() {
        work.push(point)?;
    }
    Ok(())
}

// Tells it of each of some points.
fn know_origins(
    origins: &mut Vec<Option<u32>>,
    work: &mut Vec<u32>,
    points: &[u32],
    origin: u32,
) -> Result<(), OutOfMemory>
    requires { All (λ point. point < length origins.old.items) points.now }
    ensures known { OnOk result (search_of (known_in origins.new.items) work.new.items
        ≡ fold with_known (search_of (known_in origins.old.items) work.old.items) points.now) }
    ensures adds { OnOk result (AddsOrigin points.now origin origins.old.items origins.new.items) }
{
    for point in points {
        know_origin(origins, work, *point, origin)?;
    }
    Ok(())
}

/// For each point where its doubt comes from, by the points that are endless: the nearest of these, by edges.
pub(crate) fn traced_origins(
    alloc: Global,
    graph: &Graph<'_>,
    endless: &[bool],
) -> Result<Vec<Option<u32>>, OutOfMemory>
    requires { TellEndless graph.now endless.now }
    ensures { IfOk result (λ origins. AreOrigins graph.now (origins_in origins.items)) }
{
    let _ = graph.points();
    let lists = sources(alloc, graph)?;
    let mut origins = own_origins(alloc, endless)?;
    let mut work = endless_numbers(alloc, endless)?;
    let mut next = 0;
    while next < work.len() {
        let point = work[next];
        let origin = origins[point as usize].unwrap_or(point);
        know_origins(
            &mut origins,
            &mut work,
            lists[point as usize].as_slice(),
            origin,
        )?;
        next += 1;
    }
    Ok(origins)
}
