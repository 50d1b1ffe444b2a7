// The sets of a procedure's points, bit by bit.

ghost use Rattle.std.specs.Prelude.{◌≡◌, ◌+◌, ◌-◌, ◌<◌, ℕ, Bool, All, IfOk, length, slice_index};
ghost use Rattle.std.specs.List.{list_all, list_any};
ghost use Rattle.flow_graph.specs.Universes.{bits};
ghost use Rattle.flow_rounds.specs.Rounds.{after_round, at_first, joined, with_point};
ghost use Rattle.flow_rounds.specs.Steps.{problem_at};
ghost use Rattle.flow_rounds.specs.code.Frames.{AreColumns, AreSized, IsWithin, TellsColumn, bit_in, brings_bit, iteration_of};

use crate::OutOfMemory;
use crate::column::Column;
use crate::frame::Frame;
use std::alloc::Global;
use std::marker::Model;

/// Of each bit a column: whether the set of each point has it.
#[derive(Drop)]
pub struct Columns {
    columns: Vec<Column>,
}

impl Model for Columns {
    ghost use Rattle.std.specs.Prelude.{Bool, List};

    ghost Value = { List (List Bool) };

    ghost view = { λ columns. columns.columns.items };
}

// Whether some step to a point brings a bit.
fn some_bring(frame: &Frame<'_>, sources: &[u32], point: u32, bit: u32, column: &[bool]) -> bool
    requires sources { All (IsWithin frame.now.points) sources.now }
    requires point { IsWithin frame.now.points point }
    requires bit { bit < bits frame.now.program frame.now.analysis }
    requires sized { length column.now ≡ frame.now.points.end - frame.now.points.first }
    ensures { result ≡ list_any (brings_bit frame.now column.now bit point) sources.now }
{
    let first = frame.points().first;
    for source in sources {
        let before = column[(*source - first) as usize];
        if frame.bit_behind(*source, point, bit, before) {
            return true;
        }
    }
    false
}

// Whether each step to a point brings a bit.
fn all_bring(frame: &Frame<'_>, sources: &[u32], point: u32, bit: u32, column: &[bool]) -> bool
    requires sources { All (IsWithin frame.now.points) sources.now }
    requires point { IsWithin frame.now.points point }
    requires bit { bit < bits frame.now.program frame.now.analysis }
    requires sized { length column.now ≡ frame.now.points.end - frame.now.points.first }
    ensures { result ≡ list_all (brings_bit frame.now column.now bit point) sources.now }
{
    let first = frame.points().first;
    for source in sources {
        let before = column[(*source - first) as usize];
        if !frame.bit_behind(*source, point, bit, before) {
            return false;
        }
    }
    true
}

// A bit at the point at a place of the order, from the points before it.
fn joined(frame: &Frame<'_>, place: usize, bit: u32, column: &[bool]) -> bool
    requires place { place < length frame.now.order }
    requires bit { bit < bits frame.now.program frame.now.analysis }
    requires sized { length column.now ≡ frame.now.points.end - frame.now.points.first }
    ensures { (set : ℕ → Bool) → TellsColumn frame.now.points set column.now
        → result ≡ joined (problem_at (iteration_of frame.now) bit) set (slice_index frame.now.order place) }
{
    let point = frame.order()[place];
    let sources = frame.sources(place);
    if frame.is_must() {
        all_bring(frame, sources, point, bit, column)
    } else {
        some_bring(frame, sources, point, bit, column)
    }
}

// Computes a bit anew at the point at a place of the order.
fn compute_bit(frame: &Frame<'_>, place: usize, bit: u32, column: &mut Vec<bool>)
    requires place { place < length frame.now.order }
    requires bit { bit < bits frame.now.program frame.now.analysis }
    requires sized { length column.old.items ≡ frame.now.points.end - frame.now.points.first }
    ensures sized { length column.new.items ≡ length column.old.items }
    ensures computed { (set : ℕ → Bool) → TellsColumn frame.now.points set column.old.items → TellsColumn frame.now.points
        (with_point (problem_at (iteration_of frame.now) bit) set (slice_index frame.now.order place)) column.new.items }
{
    let first = frame.points().first;
    let point = frame.order()[place];
    let has = joined(frame, place, bit, column.as_slice());
    column[(point - first) as usize] = has;
}

// The column of a bit after one more round.
fn next_column(
    alloc: Global,
    frame: &Frame<'_>,
    bit: u32,
    column: &[bool],
) -> Result<Column, OutOfMemory>
    requires bit { bit < bits frame.now.program frame.now.analysis }
    requires sized { length column.now ≡ frame.now.points.end - frame.now.points.first }
    ensures { IfOk result (λ next. (set : ℕ → Bool) → TellsColumn frame.now.points set column.now
        → TellsColumn frame.now.points (after_round (problem_at (iteration_of frame.now) bit) frame.now.order set) next) }
{
    let mut bits = Vec::from_slice(alloc, column)?;
    for place in 0..frame.order().len() {
        compute_bit(frame, place, bit, &mut bits);
    }
    Ok(Column { bits })
}

// The column of a bit before the first round.
fn first_column(alloc: Global, frame: &Frame<'_>, bit: u32) -> Result<Column, OutOfMemory>
    requires { bit < bits frame.now.program frame.now.analysis }
    ensures { IfOk result (TellsColumn frame.now.points (at_first (problem_at (iteration_of frame.now) bit) frame.now.procedure)) }
{
    let points = frame.points();
    let mut bits = Vec::new(alloc);
    for point in points.first..points.end {
        bits.push(begins(frame, point, bit))?;
    }
    Ok(Column { bits })
}

// Whether the set of a point has a bit before the first round.
fn begins(frame: &Frame<'_>, point: u32, bit: u32) -> bool
    requires point { IsWithin frame.now.points point }
    requires bit { bit < bits frame.now.program frame.now.analysis }
    ensures { result ≡ at_first (problem_at (iteration_of frame.now) bit) frame.now.procedure point }
{
    if frame.computes(point) {
        frame.is_must()
    } else {
        frame.in_table(point, bit)
    }
}

impl Columns {
    /// The sets before the first round. Fails only where memory runs out.
    pub fn first(alloc: Global, frame: &Frame<'_>) -> Result<Columns, OutOfMemory>
        ensures { IfOk result (AreColumns frame.now 0) }
    {
        let mut columns = Vec::new(alloc);
        for bit in 0..frame.bits() {
            columns.push(first_column(alloc, frame, bit)?)?;
        }
        Ok(Columns { columns })
    }

    /// The sets after one more round.
    pub fn round_later(&self, alloc: Global, frame: &Frame<'_>) -> Result<Columns, OutOfMemory>
        requires { AreSized frame.now.points (bits frame.now.program frame.now.analysis) self.now }
        ensures { IfOk result (λ columns. (rounds : ℕ) → AreColumns frame.now rounds self.now → AreColumns frame.now (rounds + 1) columns) }
    {
        let mut columns = Vec::with_capacity(alloc, self.columns.len())?;
        for bit in 0..frame.bits() {
            let column = &self.columns[bit as usize];
            columns.push(next_column(alloc, frame, bit, column.as_slice())?)?;
        }
        Ok(Columns { columns })
    }

    /// Whether the set of a point has a bit.
    ///
    /// The conditions: there is a column of each bit with a place for each point, and the point and the bit are there.
    pub fn has(&self, frame: &Frame<'_>, point: u32, bit: u32) -> bool
        requires sized { AreSized frame.now.points (bits frame.now.program frame.now.analysis) self.now }
        requires point { IsWithin frame.now.points point }
        requires bit { bit < bits frame.now.program frame.now.analysis }
        ensures { result ≡ bit_in frame.now.points self.now point bit }
    {
        let first = frame.points().first;
        let column = &self.columns[bit as usize];
        column.as_slice()[(point - first) as usize]
    }
}
