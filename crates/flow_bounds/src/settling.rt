// What bounds tell of the bits that are asked of some columns.
ghost use Rattle.std.specs.Prelude.{◌≡◌, ◌<◌, ◌≤◌, ℕ, IfOk, OnOk, length, slice_index};
ghost use Rattle.flow_graph.specs.Points.{point_count};
ghost use Rattle.flow_links.specs.Shapes.{directed_shape};
ghost use Rattle.gen_kill.specs.Selections.{column_count};
ghost use Rattle.flow_bounds.specs.Asked.{AreToldOf};
ghost use Rattle.flow_bounds.specs.Clauses.{shape_in};
ghost use Rattle.flow_regions.specs.code.Effects.{AreTold};
ghost use Rattle.flow_bounds.specs.code.Exact.{IsHungWord, IsThroughWord};
ghost use Rattle.flow_bounds.specs.code.Frames.{IsFrame};
ghost use Rattle.flow_bounds.specs.code.Groups.{IsGroup};
ghost use Rattle.flow_regions.specs.code.Lists.{AreLow};
ghost use Rattle.flow_regions.specs.code.Regions.{ArePlaced, HoldsTouched, StaysIn};
ghost use Rattle.flow_bounds.specs.code.Shared.{IsAsking, IsShared};
ghost use Rattle.flow_regions.specs.code.Touches.{AreMarked};
ghost use Rattle.flow_regions.specs.code.Ways.{AreWays, IsTree};
ghost use Rattle.tac_program.specs.Limits.{most_points};
ghost use Rattle.tac_program.specs.declared.limits.Limits.TheVariants.{Large};

use crate::OutOfMemory;
use crate::answers::{Asking, Bounds, put_told};
use crate::asked::Told;
use crate::bounding::bound_words;
use crate::frame::Frame;
use crate::group::{Group, Known, above, below};
use crate::rule::Rule;
use crate::shared::Shared;
use crate::tables::{blank_marks, blank_words};
use crate::way_words::{hung_words, through_words, way_words};
use flow_regions::{
    Branch, Does, Wanted, Way, Ways, boundary_of, called, is_too_much, leading, making, put_points,
    put_touched, put_words,
};
use std::alloc::Global;

// By procedure the bits that its calls preserve, and those that are brought to it, by paths that are known.
#[derive(Drop)]
struct Witnessed {
    through: Vec<u64>,
    hung: Vec<u64>,
}

// What is known by paths of the bits of a frame.
fn witness(
    alloc: Global,
    frame: &Frame<'_>,
    ways: &[Way],
    numbers: &[u32],
    tree: &[Branch],
) -> Result<Witnessed, OutOfMemory>
    requires frame { IsFrame frame.now }
    requires ways { AreWays frame.now.links.now ways.now }
    requires tree { IsTree frame.now.links.now ways.now tree.now }
    ensures through_count { IfOk result (λ w. length w.through.items ≡ (shape_in frame.now).procedures) }
    ensures through { IfOk result (λ w. (p : ℕ) → p < (shape_in frame.now).procedures → IsThroughWord frame.now p (slice_index w.through.items p)) }
    ensures hung_count { IfOk result (λ w. length w.hung.items ≡ (shape_in frame.now).procedures) }
    ensures hung { IfOk result (λ w. (p : ℕ) → IsHungWord frame.now p (slice_index w.hung.items p)) }
{
    let words = way_words(alloc, frame, ways)?;
    let through = through_words(alloc, frame, ways, numbers, &words)?;
    let hung = hung_words(alloc, frame, ways, tree, &words)?;
    Ok(Witnessed { through, hung })
}

// Puts the procedure of the point of a bit inside.
fn put_asked_one(asking: Asking<'_, '_, '_>, inside: &mut [bool], number: u32)
    requires asking { IsAsking asking }
    ensures count { length inside.new ≡ length inside.old }
    ensures kept { StaysIn inside.old inside.new }
{
    let number = number as usize;
    if number >= asking.asks.len() {
        return;
    }
    let point = asking.asks[number].point;
    if point >= asking.shared.links.points() {
        return;
    }
    let procedure = asking.shared.links.procedure_of(point) as usize;
    if procedure < inside.len() {
        inside[procedure] = true;
    }
}

// Puts the procedures inside where a column is asked.
fn put_asked(asking: Asking<'_, '_, '_>, column: u32, inside: &mut [bool])
    requires asking { IsAsking asking }
    requires low { column < column_count asking.shared.problem.now }
    ensures count { length inside.new ≡ length inside.old }
    ensures kept { StaysIn inside.old inside.new }
{
    let numbers = asking.by_column.of(column);
    for number in numbers {
        put_asked_one(asking, &mut *inside, *number);
    }
}

// Puts the procedures inside where some columns are asked.
fn put_all_asked(asking: Asking<'_, '_, '_>, columns: &[u32], inside: &mut [bool])
    requires asking { IsAsking asking }
    requires low { AreLow (column_count asking.shared.problem.now) columns.now }
    ensures count { length inside.new ≡ length inside.old }
    ensures kept { StaysIn inside.old inside.new }
{
    for column in columns {
        put_asked(asking, *column, &mut *inside);
    }
}

// Puts the procedures inside that touch some columns, and those where these are asked.
fn put_all_inside(asking: Asking<'_, '_, '_>, columns: &[u32], inside: &mut [bool])
    requires asking { IsAsking asking }
    requires low { AreLow (column_count asking.shared.problem.now) columns.now }
    requires marked { AreMarked asking.shared.base.now.marked.items columns.now }
    requires count { length inside.old ≡ (directed_shape asking.shared.links.now).procedures }
    ensures count { length inside.new ≡ length inside.old }
    ensures touched { HoldsTouched asking.entry.shared.problem.now (directed_shape asking.entry.shared.links.now) columns.now inside.new
        (point_count asking.entry.shared.links.now.program) }
{
    let Shared {
        problem,
        links,
        paths: _,
        base,
    } = asking.shared;
    put_all_asked(asking, columns, &mut *inside);
    put_touched(
        problem,
        links,
        base.marked.as_slice(),
        &base.touches,
        columns,
        inside,
    );
}

// By procedure whether it touches some columns, or these are asked there.
fn inside_of(
    alloc: Global,
    asking: Asking<'_, '_, '_>,
    columns: &[u32],
) -> Result<Vec<bool>, OutOfMemory>
    requires asking { IsAsking asking }
    requires low { AreLow (column_count asking.shared.problem.now) columns.now }
    requires marked { AreMarked asking.shared.base.now.marked.items columns.now }
    ensures count { IfOk result (λ inside. length inside.items ≡ (directed_shape asking.entry.shared.links.now).procedures) }
    ensures touched { IfOk result (λ inside. HoldsTouched asking.entry.shared.problem.now (directed_shape asking.entry.shared.links.now) columns.now
        inside.items (point_count asking.entry.shared.links.now.program)) }
{
    let mut inside = blank_marks(alloc, asking.shared.links.procedures())?;
    put_all_inside(asking, columns, inside.as_mut_slice());
    Ok(inside)
}

// The points of the procedures inside, which get their places.
fn points_of(
    alloc: Global,
    shared: Shared<'_, '_, '_>,
    inside: &[bool],
    places: &mut [u32],
) -> Result<Vec<u32>, OutOfMemory>
    requires shared { IsShared shared }
    requires inside { length inside.now ≡ (directed_shape shared.links.now).procedures }
    requires places { length places.old ≡ point_count shared.links.now.program }
    ensures placed { IfOk result (λ points. ArePlaced (directed_shape shared.entry.links.now) inside.now (point_count shared.entry.links.now.program)
        (directed_shape shared.entry.links.now).procedures points.items places.new) }
    ensures few { IfOk result (λ points. length points.items ≤ most_points Large) }
{
    let mut points = Vec::new(alloc);
    put_points(
        shared.links,
        &shared.base.listed,
        inside,
        &mut points,
        places,
    )?;
    Ok(points)
}

// By place the columns with which the statement there does something.
fn told_words(
    alloc: Global,
    shared: Shared<'_, '_, '_>,
    does: Does,
    columns: &[u32],
    places: &[u32],
    count: u32,
) -> Result<Vec<u64>, OutOfMemory>
    requires shared { IsShared shared }
    requires low { AreLow (column_count shared.problem.now) columns.now }
    requires marked { AreMarked shared.base.now.marked.items columns.now }
    requires few { length columns.now ≤ 64 }
    requires places { length places.now ≡ point_count shared.problem.now.program }
    ensures count { IfOk result (λ words. length words.items ≡ count) }
    ensures told { IfOk result (λ words. AreTold shared.entry.problem.now does columns.now (length columns.now) places.now count words.items) }
{
    let mut words = blank_words(alloc, count)?;
    put_words(
        shared.problem,
        does,
        &shared.base.touches,
        columns,
        places,
        words.as_mut_slice(),
    );
    Ok(words)
}

/// Rules, and what paths want, of one group after the other. And how much work is left.
pub(crate) struct Work {
    pub rules: Vec<Rule>,
    pub wanted: Wanted,
    pub left: u64,
}

impl Drop for Work {
    // By hand: who gives it up then makes one call.
    fn drop(self) {
        let Work {
            rules: _,
            wanted: _,
            left: _,
        } = self;
    }
}

// Puts what the bounds of a group tell.
fn tell<'x>(
    alloc: Global,
    asking: Asking<'x, '_, '_>,
    group: &Group<'x>,
    work: &mut Work,
    told: &mut [Told],
) -> Result<(), OutOfMemory>
    requires asking { IsAsking asking }
    requires low { AreLow (column_count asking.shared.problem.now) group.now.columns.now }
    requires group { IsGroup asking.shared.problem.now asking.shared.links.now group.now }
    requires before { AreToldOf asking.shared.problem.now asking.asks.now told.old }
    ensures { OnOk result (AreToldOf asking.entry.shared.problem.now asking.entry.asks.now told.new) }
{
    let Shared {
        problem,
        links,
        paths,
        base,
    } = asking.shared;
    let above = above(problem, links, group, &base.tables);
    let Ways { list, tree } = Ways::of(alloc, links, &base.found, group.inside, &mut work.wanted)?;
    let Witnessed { through, hung } = witness(
        alloc,
        &above,
        list.as_slice(),
        work.wanted.numbers.as_slice(),
        tree.as_slice(),
    )?;
    let known = Known {
        paths,
        through: through.as_slice(),
        hung: hung.as_slice(),
    };
    let below = below(problem, links, group, &base.tables, known);
    let upper = bound_words(alloc, &above, &mut work.rules, &mut work.left)?;
    let lower = bound_words(alloc, &below, &mut work.rules, &mut work.left)?;
    let bounds = Bounds {
        above,
        upper,
        below,
        lower,
    };
    put_told(asking, group.columns, &bounds, told);
    Ok(())
}

/// Memory that groups use one after the other: by point a place, and what bounds are worked out in.
#[derive(Drop)]
pub(crate) struct Room {
    pub places: Vec<u32>,
    pub work: Work,
}

/// A region: its columns, which procedures are inside, and their points.
#[derive(Clone, Copy)]
struct Region<'x> {
    columns: &'x [u32],
    inside: &'x [bool],
    points: &'x [u32],
}

// Puts what is told of the bits that are asked of some columns, 64 at most, by the procedures inside and their points.
fn tell_inside(
    alloc: Global,
    asking: Asking<'_, '_, '_>,
    region: Region<'_>,
    room: &mut Room,
    told: &mut [Told],
) -> Result<(), OutOfMemory>
    requires asking { IsAsking asking }
    requires few { length region.columns.now ≤ 64 }
    requires low { AreLow (column_count asking.shared.problem.now) region.columns.now }
    requires marked { AreMarked asking.shared.base.now.marked.items region.columns.now }
    requires inside { length region.inside.now ≡ (directed_shape asking.shared.links.now).procedures }
    requires touched { HoldsTouched asking.shared.problem.now (directed_shape asking.shared.links.now) region.columns.now region.inside.now
        (point_count asking.shared.links.now.program) }
    requires placed { ArePlaced (directed_shape asking.shared.links.now) region.inside.now (point_count asking.shared.links.now.program)
        (directed_shape asking.shared.links.now).procedures region.points.now room.old.places.items }
    requires few_points { length region.points.now ≤ most_points Large }
    requires before { AreToldOf asking.shared.problem.now asking.asks.now told.old }
    ensures places { OnOk result (length room.new.places.items ≡ point_count asking.entry.shared.links.now.program) }
    ensures told { OnOk result (AreToldOf asking.entry.shared.problem.now asking.entry.asks.now told.new) }
{
    let Region {
        columns,
        inside,
        points,
    } = region;
    let places = room.places.as_slice();
    let shared = asking.shared;
    let count = points.len() as u32;
    let gens = told_words(alloc, shared, Does::Generates, columns, places, count)?;
    let kills = told_words(alloc, shared, Does::Kills, columns, places, count)?;
    let leads = leading(alloc, shared.links, shared.base.ranks.as_slice(), inside)?;
    let called = called(alloc, shared.links, inside)?;
    let group = Group {
        columns,
        inside,
        points,
        places,
        gens: gens.as_slice(),
        kills: kills.as_slice(),
        boundary: boundary_of(shared.problem, columns),
        leads: leads.as_slice(),
        called: called.as_slice(),
    };
    room.work.left = room.work.left.saturating_sub(making(points.len()));
    tell(alloc, asking, &group, &mut room.work, told)
}

/// Puts what is told of the bits that are asked of some columns, 64 at most. Fails only where memory runs out.
pub(crate) fn tell_columns(
    alloc: Global,
    asking: Asking<'_, '_, '_>,
    columns: &[u32],
    room: &mut Room,
    told: &mut [Told],
) -> Result<(), OutOfMemory>
    requires asking { IsAsking asking }
    requires few { length columns.now ≤ 64 }
    requires low { AreLow (column_count asking.shared.problem.now) columns.now }
    requires marked { AreMarked asking.shared.base.now.marked.items columns.now }
    requires places { length room.old.places.items ≡ point_count asking.shared.links.now.program }
    requires before { AreToldOf asking.shared.problem.now asking.asks.now told.old }
    ensures places { OnOk result (length room.new.places.items ≡ point_count asking.entry.shared.links.now.program) }
    ensures told { OnOk result (AreToldOf asking.entry.shared.problem.now asking.entry.asks.now told.new) }
{
    let shared = asking.shared;
    let inside = inside_of(alloc, asking, columns)?;
    let points = points_of(alloc, shared, inside.as_slice(), room.places.as_mut_slice())?;
    if is_too_much(shared.links.points(), points.len()) {
        return Ok(());
    }
    let region = Region {
        columns,
        inside: inside.as_slice(),
        points: points.as_slice(),
    };
    tell_inside(alloc, asking, region, room, told)
}
