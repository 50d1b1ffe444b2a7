// What the bounds of a group tell of bits that are asked.
ghost use Rattle.std.specs.Prelude.{◌≡◌, ◌≢◌, ◌<◌, ◌≤◌, ℕ, true, length, slice_index, slice_index_or};
ghost use Rattle.flow_graph.specs.Points.{point_count};
ghost use Rattle.gen_kill.specs.Selections.{column_count};
ghost use Rattle.flow_bounds.specs.Asked.{AreToldOf, IsTrueOf};
ghost use Rattle.flow_bounds.specs.declared.asked.Told.TheVariants.{Nothing};
ghost use Rattle.flow_regions.specs.code.Lists.{AreLow};
ghost use Rattle.flow_bounds.specs.code.Frames.{IsFrame};
ghost use Rattle.flow_bounds.specs.code.Shared.{AreBounds, IsAsking};
ghost use Rattle.flow_bounds.specs.Clauses.{IsPointInside};

use crate::asked::{Ask, Told};
use crate::bounding::Bounded;
use crate::frame::Frame;
use crate::settled::{is_had, is_lacked};
use crate::shared::Shared;
use flow_regions::Lists;
use gen_kill::Problem;

/// The frames of a group, and what follows by their clauses.
#[derive(Drop)]
pub(crate) struct Bounds<'a> {
    pub above: Frame<'a>,
    pub upper: Bounded,
    pub below: Frame<'a>,
    pub lower: Bounded,
}

// Whether a point is inside.
fn is_inside(frame: &Frame<'_>, point: u32) -> bool
    requires frame { IsFrame frame.now }
    requires there { point < point_count frame.now.links.now.program }
    ensures { result ≡ true → IsPointInside frame.now point }
{
    // Its contract tells that a point's procedure is there.
    let _ = frame.links.points();
    frame.inside[frame.links.procedure_of(point) as usize]
}

// What is told of a bit, which stands at a place of the group's columns.
fn tell_ask(
    problem: &Problem<'_, '_>,
    columns: &[u32],
    bounds: &Bounds<'_>,
    ask: Ask,
    place: u32,
) -> Told
    requires bounds { AreBounds problem.now columns.now bounds.now }
    requires there { ask.point < point_count problem.now.program }
    requires few { place < 64 }
    requires place { place < length columns.now }
    requires column { slice_index columns.now place ≡ ask.column }
    ensures { IsTrueOf problem.now ask result }
{
    let Bounds {
        above,
        upper,
        below,
        lower,
    } = bounds;
    if !is_inside(above, ask.point) || !is_inside(below, ask.point) {
        return Told::Nothing;
    }
    if is_lacked(problem, columns, above, upper, ask.point, place) {
        return Told::Lacks;
    }
    if is_had(problem, columns, below, lower, ask.point, place) {
        return Told::Has;
    }
    Told::Nothing
}

/// Bits that are asked, by number and by column.
#[derive(Clone, Copy)]
pub(crate) struct Asking<'a, 'g, 'p> {
    pub shared: Shared<'a, 'g, 'p>,
    pub asks: &'a [Ask],
    pub by_column: &'a Lists,
}

// Puts what is told of the bit of a number.
fn put_value(told: &mut [Told], number: usize, value: Told)
    requires { number < length told.old }
    ensures count { length told.new ≡ length told.old }
    ensures here { slice_index_or told.new number Nothing ≡ value }
    ensures others { (i : ℕ) → i ≢ number → slice_index_or told.new i Nothing ≡ slice_index_or told.old i Nothing }
{
    told[number] = value;
}

// Puts what is told of the bit of a number, if it is of the column at a place.
fn put_one(
    asking: Asking<'_, '_, '_>,
    columns: &[u32],
    bounds: &Bounds<'_>,
    told: &mut [Told],
    number: u32,
    place: u32,
)
    requires asking { IsAsking asking }
    requires bounds { AreBounds asking.shared.problem.now columns.now bounds.now }
    requires few { place < 64 }
    requires place { place < length columns.now }
    requires before { AreToldOf asking.shared.problem.now asking.asks.now told.old }
    ensures { AreToldOf asking.entry.shared.problem.now asking.entry.asks.now told.new }
{
    let number = number as usize;
    if number >= asking.asks.len() {
        return;
    }
    let ask = asking.asks[number];
    if ask.column == columns[place as usize] {
        let value = tell_ask(asking.shared.problem, columns, bounds, ask, place);
        put_value(told, number, value);
    }
}

// Puts what is told of the bits of the column at a place.
fn put_column(
    asking: Asking<'_, '_, '_>,
    columns: &[u32],
    bounds: &Bounds<'_>,
    told: &mut [Told],
    place: u32,
)
    requires asking { IsAsking asking }
    requires low { AreLow (column_count asking.shared.problem.now) columns.now }
    requires bounds { AreBounds asking.shared.problem.now columns.now bounds.now }
    requires few { place < 64 }
    requires place { place < length columns.now }
    requires before { AreToldOf asking.shared.problem.now asking.asks.now told.old }
    ensures { AreToldOf asking.entry.shared.problem.now asking.entry.asks.now told.new }
{
    let numbers = asking.by_column.of(columns[place as usize]);
    for number in numbers {
        put_one(asking, columns, bounds, &mut *told, *number, place);
    }
}

/// Puts what bounds tell of all bits that are asked of some columns.
pub(crate) fn put_told(
    asking: Asking<'_, '_, '_>,
    columns: &[u32],
    bounds: &Bounds<'_>,
    told: &mut [Told],
)
    requires asking { IsAsking asking }
    requires few { length columns.now ≤ 64 }
    requires low { AreLow (column_count asking.shared.problem.now) columns.now }
    requires bounds { AreBounds asking.shared.problem.now columns.now bounds.now }
    requires before { AreToldOf asking.shared.problem.now asking.asks.now told.old }
    ensures { AreToldOf asking.entry.shared.problem.now asking.entry.asks.now told.new }
{
    for place in 0..columns.len() {
        put_column(asking, columns, bounds, &mut *told, place as u32);
    }
}
