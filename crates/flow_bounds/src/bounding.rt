// Words of a frame's cells, by its rules.
ghost use Rattle.std.specs.Prelude.{◌≡◌, ◌≢◌, ◌-◌, ◌^◌, ◌<◌, ◌&&◌, ◌||◌, ℕ, IfOk, length, slice_index};
ghost use Rattle.bit_rows.specs.Words.{has_bit};
ghost use Rattle.flow_graph.specs.Points.{point_count};
ghost use Rattle.flow_bounds.specs.Bounds.{is_in_words};
ghost use Rattle.flow_bounds.specs.Clauses.{IsPointInside, always_cell, cell_count};
ghost use Rattle.flow_bounds.specs.code.Bounded.{AreBounding};
ghost use Rattle.flow_bounds.specs.code.Frames.{IsFrame};

use crate::OutOfMemory;
use crate::clauses::put_clauses;
use crate::frame::Frame;
use crate::rounds::solve;
use crate::rule::Rule;
use std::alloc::Global;

// Words in which the cell that always has each bit is alone in having one.
fn begun(alloc: Global, frame: &Frame<'_>) -> Result<Vec<u64>, OutOfMemory>
    requires { IsFrame frame.now }
    ensures count { IfOk result (λ words. length words.items ≡ cell_count frame.now) }
    ensures all { IfOk result (λ words. slice_index words.items (always_cell frame.now) ≡ 2 ^ 64 - 1) }
    ensures others { IfOk result (λ words. (cell : ℕ) → cell ≢ always_cell frame.now → slice_index words.items cell ≡ 0) }
{
    let mut words = vec![in alloc; 0u64; frame.cells() as usize]?;
    words[frame.always() as usize] = u64::MAX;
    Ok(words)
}

/// What follows by a frame's clauses, and whether that is all.
#[derive(Drop)]
pub(crate) struct Bounded {
    pub words: Vec<u64>,
    pub closed: bool,
}

/// What follows by the clauses of a frame. Fails only where memory runs out.
pub(crate) fn bound_words(
    alloc: Global,
    frame: &Frame<'_>,
    rules: &mut Vec<Rule>,
    left: &mut u64,
) -> Result<Bounded, OutOfMemory>
    requires { IsFrame frame.now }
    ensures { IfOk result (AreBounding frame.now) }
{
    rules.clear();
    put_clauses(frame, rules)?;
    let mut words = begun(alloc, frame)?;
    let closed = solve(rules.as_slice(), words.as_mut_slice(), left);
    Ok(Bounded { words, closed })
}

// Whether a word has the bit of a place.
fn is_one(word: u64, place: u32) -> bool
    requires { place < 64 }
    ensures { result ≡ has_bit word place }
{
    (word >> place) & 1 == 1
}

// What is generated, or brought and preserved.
fn in_set(generated: u64, brought: u64, preserved: u64) -> u64
    ensures { (k : ℕ) → has_bit result k ≡ (has_bit generated k || (has_bit brought k && has_bit preserved k)) }
{
    generated | (brought & preserved)
}

/// Whether words have a bit at a point inside.
pub(crate) fn has(frame: &Frame<'_>, words: &[u64], point: u32, bit: u32) -> bool
    requires frame { IsFrame frame.now }
    requires there { point < point_count frame.now.links.now.program }
    requires inside { IsPointInside frame.now point }
    requires words { length words.now ≡ cell_count frame.now }
    requires bit { bit < 64 }
    ensures { result ≡ is_in_words frame.now words.now point bit }
{
    let generated = words[frame.generated(point) as usize];
    let brought = words[frame.brought(frame.links.procedure_of(point)) as usize];
    let preserved = words[frame.preserved(point) as usize];
    is_one(in_set(generated, brought, preserved), bit)
}
