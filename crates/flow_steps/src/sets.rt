// The sets of points, by number.

ghost use Rattle.std.specs.Prelude.{◌≡◌, ◌<◌, ◌∷◌, ◌++◌, [], not, All, IfOk, OnOk, if◌then◌else◌};
ghost use Rattle.std.specs.List.{filter, range_with_len};
ghost use Rattle.flow_graph.specs.Universes.{bits};
ghost use Rattle.flow_rounds.specs.Steps.{computes};
ghost use Rattle.flow_rounds.specs.code.Frames.{AreSized, IsWithin, bit_in, iteration_of};
ghost use Rattle.point_sets.specs.Changes.{beyond};
ghost use Rattle.flow_steps.specs.code.Told.{differs, differs_at, points_of};

use crate::OutOfMemory;
use flow_rounds::{Columns, Frame};
use std::alloc::Global;

// Puts a number last where it is wanted.
fn push_if(list: &mut Vec<u32>, wanted: bool, number: u32) -> Result<(), OutOfMemory>
    ensures { OnOk result (list.new.items ≡ list.old.items ++ (if wanted then number ∷ [] else [])) }
{
    if wanted {
        list.push(number)?;
    }
    Ok(())
}

/// The numbers of the bits that a point's set has.
pub(crate) fn bits_at(
    alloc: Global,
    frame: &Frame<'_>,
    columns: &Columns,
    point: u32,
) -> Result<Vec<u32>, OutOfMemory>
    requires sized { AreSized frame.now.points (bits frame.now.program frame.now.analysis) columns.now }
    requires point { IsWithin frame.now.points point }
    ensures { IfOk result (λ list. list.items
        ≡ filter (bit_in frame.now.points columns.now point) (range_with_len 0 (bits frame.now.program frame.now.analysis))) }
{
    let mut bits = Vec::new(alloc);
    for bit in 0..frame.bits() {
        push_if(&mut bits, columns.has(frame, point, bit), bit)?;
    }
    Ok(bits)
}

// Whether a bit is in a point's set in some columns and not in others.
fn is_beyond(frame: &Frame<'_>, these: &Columns, those: &Columns, point: u32, bit: u32) -> bool
    requires these { AreSized frame.now.points (bits frame.now.program frame.now.analysis) these.now }
    requires those { AreSized frame.now.points (bits frame.now.program frame.now.analysis) those.now }
    requires point { IsWithin frame.now.points point }
    requires bit { bit < bits frame.now.program frame.now.analysis }
    ensures { result ≡ beyond (bit_in frame.now.points these.now point) (bit_in frame.now.points those.now point) bit }
{
    these.has(frame, point, bit) && !those.has(frame, point, bit)
}

/// The numbers of the bits that are in a point's set in some columns and not in others.
pub(crate) fn bits_beyond(
    alloc: Global,
    frame: &Frame<'_>,
    these: &Columns,
    those: &Columns,
    point: u32,
) -> Result<Vec<u32>, OutOfMemory>
    requires these { AreSized frame.now.points (bits frame.now.program frame.now.analysis) these.now }
    requires those { AreSized frame.now.points (bits frame.now.program frame.now.analysis) those.now }
    requires point { IsWithin frame.now.points point }
    ensures { IfOk result (λ list. list.items ≡ filter (beyond (bit_in frame.now.points these.now point) (bit_in frame.now.points those.now point))
        (range_with_len 0 (bits frame.now.program frame.now.analysis))) }
{
    let mut bits = Vec::new(alloc);
    for bit in 0..frame.bits() {
        push_if(&mut bits, is_beyond(frame, these, those, point, bit), bit)?;
    }
    Ok(bits)
}

// Whether a bit came to a point's set or went.
fn is_changed(frame: &Frame<'_>, old: &Columns, new: &Columns, point: u32, bit: u32) -> bool
    requires old { AreSized frame.now.points (bits frame.now.program frame.now.analysis) old.now }
    requires new { AreSized frame.now.points (bits frame.now.program frame.now.analysis) new.now }
    requires point { IsWithin frame.now.points point }
    requires bit { bit < bits frame.now.program frame.now.analysis }
    ensures { result ≡ differs_at frame.now old.now new.now point bit }
{
    is_beyond(frame, new, old, point, bit) || is_beyond(frame, old, new, point, bit)
}

// Whether a point's set differs in two columns.
fn differs(frame: &Frame<'_>, old: &Columns, new: &Columns, point: u32) -> bool
    requires old { AreSized frame.now.points (bits frame.now.program frame.now.analysis) old.now }
    requires new { AreSized frame.now.points (bits frame.now.program frame.now.analysis) new.now }
    requires point { IsWithin frame.now.points point }
    ensures { result ≡ differs frame.now old.now new.now point }
{
    for bit in 0..frame.bits() {
        if is_changed(frame, old, new, point, bit) {
            return true;
        }
    }
    false
}

/// The points whose sets differ in two columns, in the order in which they are computed.
pub(crate) fn changed_points(
    alloc: Global,
    frame: &Frame<'_>,
    old: &Columns,
    new: &Columns,
) -> Result<Vec<u32>, OutOfMemory>
    requires old { AreSized frame.now.points (bits frame.now.program frame.now.analysis) old.now }
    requires new { AreSized frame.now.points (bits frame.now.program frame.now.analysis) new.now }
    ensures points { IfOk result (λ points. points.items ≡ filter (differs frame.now old.now new.now) frame.now.order) }
    ensures within { IfOk result (λ points. All (IsWithin frame.now.points) points.items) }
{
    let mut points = Vec::new(alloc);
    for point in frame.order() {
        push_if(&mut points, differs(frame, old, new, *point), *point)?;
    }
    Ok(points)
}

/// The points that are not computed.
pub(crate) fn known_points(alloc: Global, frame: &Frame<'_>) -> Result<Vec<u32>, OutOfMemory>
    ensures points { IfOk result (λ points.
        points.items ≡ filter (λ point. not (computes (iteration_of frame.now) point)) (points_of frame.now.points)) }
    ensures within { IfOk result (λ points. All (IsWithin frame.now.points) points.items) }
{
    let range = frame.points();
    let mut points = Vec::new(alloc);
    for point in range.first..range.end {
        push_if(&mut points, !frame.computes(point), point)?;
    }
    Ok(points)
}
