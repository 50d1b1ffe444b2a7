// The lines of an analysis.

ghost use Rattle.std.specs.Prelude.{◌≡◌, ◌-◌, ◌^◌, ◌<◌, ◌++◌, not, All, IfOk, OnOk, codes, decimal, map};
ghost use Rattle.std.specs.List.{filter};
ghost use Rattle.flow_graph.specs.Analyses.{is_must};
ghost use Rattle.flow_graph.specs.Universes.{bits};
ghost use Rattle.flow_rounds.specs.Steps.{computes};
ghost use Rattle.flow_rounds.specs.code.Frames.{AreColumns, AreSized, IsWithin, iteration_of};
ghost use Rattle.flow_views.specs.Json.{array};
ghost use Rattle.flow_views.specs.Views.{analysis_name};
ghost use Rattle.text_pieces.specs.Strings.{quoted};
ghost use Rattle.text_pieces.specs.code.Lists.{some_stand};
ghost use Rattle.flow_steps.specs.StepTexts.{beginning_name};
ghost use Rattle.flow_steps.specs.code.Told.{HasIteration, HasPoints, HasRounds, change_told, differs, known_told, points_of, round_told};
ghost use Rattle.flow_steps.specs.code.Told.{start_told};

use crate::OutOfMemory;
use crate::push::{push_bytes, push_comma_if, push_number, push_numbers};
use crate::sets::{bits_at, bits_beyond, changed_points, known_points};
use flow_rounds::{Columns, Frame};
use flow_views::analysis_name;
use std::alloc::Global;
use text_pieces::push_quoted;

// Puts what came and what went behind a text.
fn push_change_fields(text: &mut Vec<u8>, came: &[u32], went: &[u32]) -> Result<(), OutOfMemory>
    ensures { OnOk result (text.new.items ≡ text.old.items
        ++ (codes "\"came\":" ++ array (map decimal came.now) ++ codes ",\"went\":" ++ array (map decimal went.now))) }
{
    push_bytes(text, b"\"came\":")?;
    push_numbers(text, came)?;
    push_bytes(text, b",\"went\":")?;
    push_numbers(text, went)?;
    Ok(())
}

// Puts which point it is behind a text.
fn push_point(text: &mut Vec<u8>, point: u32) -> Result<(), OutOfMemory>
    ensures { OnOk result (text.new.items ≡ text.old.items ++ (codes "{\"point\":" ++ decimal point)) }
{
    push_bytes(text, b"{\"point\":")?;
    push_number(text, point)?;
    Ok(())
}

// Puts what changed at a point behind a text.
fn push_change(
    alloc: Global,
    text: &mut Vec<u8>,
    frame: &Frame<'_>,
    old: &Columns,
    new: &Columns,
    point: u32,
) -> Result<(), OutOfMemory>
    requires old { AreSized frame.now.points (bits frame.now.program frame.now.analysis) old.now }
    requires new { AreSized frame.now.points (bits frame.now.program frame.now.analysis) new.now }
    requires point { IsWithin frame.now.points point }
    ensures { OnOk result (text.new.items ≡ text.old.items ++ change_told frame.now old.now new.now point) }
{
    let came = bits_beyond(alloc, frame, new, old, point)?;
    let went = bits_beyond(alloc, frame, old, new, point)?;
    push_point(text, point)?;
    push_bytes(text, b",")?;
    push_change_fields(text, came.as_slice(), went.as_slice())?;
    push_bytes(text, b"}")?;
    Ok(())
}

// Puts what changed at some points behind a text, as an array.
fn push_changes(
    alloc: Global,
    text: &mut Vec<u8>,
    frame: &Frame<'_>,
    old: &Columns,
    new: &Columns,
    points: &[u32],
) -> Result<(), OutOfMemory>
    requires old { AreSized frame.now.points (bits frame.now.program frame.now.analysis) old.now }
    requires new { AreSized frame.now.points (bits frame.now.program frame.now.analysis) new.now }
    requires points { All (IsWithin frame.now.points) points.now }
    ensures { OnOk result (text.new.items ≡ text.old.items ++ array (map (change_told frame.now old.now new.now) points.now)) }
{
    push_bytes(text, b"[")?;
    for (place, point) in points.iter().enumerate() {
        push_comma_if(text, 0 < place)?;
        push_change(alloc, text, frame, old, new, *point)?;
    }
    push_bytes(text, b"]")?;
    Ok(())
}

// Puts the beginning of a line, with the analysis, behind a text.
fn push_head(text: &mut Vec<u8>, kind: &[u8], frame: &Frame<'_>) -> Result<(), OutOfMemory>
    ensures { OnOk result (text.new.items ≡ text.old.items ++ (kind.now ++ quoted (analysis_name frame.now.analysis))) }
{
    push_bytes(text, kind)?;
    push_quoted(text, analysis_name(frame.analysis()))?;
    Ok(())
}

// Puts the line of the round behind so many rounds behind a text, with the points that it changes.
fn push_round(
    alloc: Global,
    text: &mut Vec<u8>,
    frame: &Frame<'_>,
    old: &Columns,
    new: &Columns,
    rounds: u32,
) -> Result<bool, OutOfMemory>
    requires old { AreSized frame.now.points (bits frame.now.program frame.now.analysis) old.now }
    requires new { AreSized frame.now.points (bits frame.now.program frame.now.analysis) new.now }
    requires rounds { rounds < 2 ^ 32 - 1 }
    ensures text { OnOk result (text.new.items ≡ text.old.items ++ round_told frame.now old.now new.now rounds) }
    ensures changed { IfOk result (λ changed. changed ≡ some_stand (filter (differs frame.now old.now new.now) frame.now.order)) }
{
    let points = changed_points(alloc, frame, old, new)?;
    push_head(text, b"{\"type\":\"round\",\"analysis\":", frame)?;
    push_bytes(text, b",\"round\":")?;
    push_number(text, rounds + 1)?;
    push_bytes(text, b",\"changed\":")?;
    push_changes(alloc, text, frame, old, new, points.as_slice())?;
    push_bytes(text, b"}\n")?;
    Ok(!points.is_empty())
}

// Puts the lines of rounds behind a text, up to the first that changes nothing.
//
// So many rounds that they cannot be counted here are want of memory; no procedure has as many.
fn push_rounds(
    alloc: Global,
    text: &mut Vec<u8>,
    frame: &Frame<'_>,
    first: Columns,
) -> Result<(), OutOfMemory>
    requires { AreColumns frame.now 0 first }
    ensures { OnOk result (HasRounds (iteration_of frame.now) text.old.items text.new.items) }
{
    // Its contract tells that the order has each point that is computed once.
    let _ = frame.order();
    let mut columns = first;
    for rounds in 0..u32::MAX {
        let next = columns.round_later(alloc, frame)?;
        if !push_round(alloc, text, frame, &columns, &next, rounds)? {
            return Ok(());
        }
        columns = next;
    }
    Err(OutOfMemory)
}

// Puts a point with its set behind a text.
fn push_known(
    alloc: Global,
    text: &mut Vec<u8>,
    frame: &Frame<'_>,
    columns: &Columns,
    point: u32,
) -> Result<(), OutOfMemory>
    requires sized { AreSized frame.now.points (bits frame.now.program frame.now.analysis) columns.now }
    requires point { IsWithin frame.now.points point }
    ensures { OnOk result (text.new.items ≡ text.old.items ++ known_told frame.now columns.now point) }
{
    let bits = bits_at(alloc, frame, columns, point)?;
    push_point(text, point)?;
    push_bytes(text, b",\"bits\":")?;
    push_numbers(text, bits.as_slice())?;
    push_bytes(text, b"}")?;
    Ok(())
}

// Puts some points with their sets behind a text, as an array.
fn push_all_known(
    alloc: Global,
    text: &mut Vec<u8>,
    frame: &Frame<'_>,
    columns: &Columns,
    points: &[u32],
) -> Result<(), OutOfMemory>
    requires sized { AreSized frame.now.points (bits frame.now.program frame.now.analysis) columns.now }
    requires points { All (IsWithin frame.now.points) points.now }
    ensures { OnOk result (text.new.items ≡ text.old.items ++ array (map (known_told frame.now columns.now) points.now)) }
{
    push_bytes(text, b"[")?;
    for (place, point) in points.iter().enumerate() {
        push_comma_if(text, 0 < place)?;
        push_known(alloc, text, frame, columns, *point)?;
    }
    push_bytes(text, b"]")?;
    Ok(())
}

// What the points that are computed have before the first round.
fn beginning(is_must: bool) -> &'static [u8]
    ensures { result.now ≡ beginning_name is_must }
{
    if is_must { b"everything" } else { b"nothing" }
}

// Puts the analysis and what its points have before the first round behind a text.
fn push_beginning(text: &mut Vec<u8>, frame: &Frame<'_>) -> Result<(), OutOfMemory>
    ensures { OnOk result (text.new.items ≡ text.old.items ++ (codes "{\"type\":\"start\",\"analysis\":" ++ quoted (analysis_name frame.now.analysis)
        ++ codes ",\"begin\":" ++ quoted (beginning_name (is_must frame.now.analysis)))) }
{
    push_head(text, b"{\"type\":\"start\",\"analysis\":", frame)?;
    push_bytes(text, b",\"begin\":")?;
    push_quoted(text, beginning(frame.is_must()))?;
    Ok(())
}

// Puts the line of what stands before the first round behind a text.
fn push_start(
    alloc: Global,
    text: &mut Vec<u8>,
    frame: &Frame<'_>,
    columns: &Columns,
) -> Result<(), OutOfMemory>
    requires { AreSized frame.now.points (bits frame.now.program frame.now.analysis) columns.now }
    ensures { OnOk result (text.new.items ≡ text.old.items ++ start_told frame.now columns.now
        (filter (λ point. not (computes (iteration_of frame.now) point)) (points_of frame.now.points))) }
{
    let known = known_points(alloc, frame)?;
    push_beginning(text, frame)?;
    push_bytes(text, b",\"order\":")?;
    push_numbers(text, frame.order())?;
    push_bytes(text, b",\"known\":")?;
    push_all_known(alloc, text, frame, columns, known.as_slice())?;
    push_bytes(text, b"}\n")?;
    Ok(())
}

/// Puts the lines of an analysis in a procedure behind a text.
pub(crate) fn push_analysis(
    alloc: Global,
    text: &mut Vec<u8>,
    frame: &Frame<'_>,
) -> Result<(), OutOfMemory>
    requires { HasPoints frame.now }
    ensures { OnOk result (HasIteration (iteration_of frame.now) text.old.items text.new.items) }
{
    let columns = Columns::first(alloc, frame)?;
    push_start(alloc, text, frame, &columns)?;
    push_rounds(alloc, text, frame, columns)?;
    Ok(())
}
