// The facts of an analysis in a caller's memory, by routes that the caller has.

ghost use Rattle.std.specs.Prelude.{◌≡◌, ℕ, ◌+◌, ◌-◌, ◌*◌, ◌/◌, ◌<◌, ◌≤◌, ◌&&◌, nat_le, nat_lt, not, length, OnOk, OnErr, if◌then◌else◌};
ghost use Rattle.bit_rows.specs.Words.{has_bit};
ghost use Rattle.flow_graph.specs.Analyses.{is_must};
ghost use Rattle.flow_graph.specs.Directions.{is_intersection};
ghost use Rattle.gen_kill.specs.Selections.{all_bits};
ghost use Rattle.gk_solve.specs.Solved.{AreMeetWords, IsSliceOf, direction_of};
ghost use Rattle.flow_kept.specs.Facts.{AreFactsOf, AreInRange, HasRoom, IsRowWord};
ghost use Rattle.flow_kept.specs.code.Filled.{AreFilled, CanFill, IsRowFilled};
ghost use Rattle.flow_kept.specs.code.Flags.{AreNumbers};

use crate::OutOfMemory;
use bit_rows::{complement_within, words_for};
use flow_graph::Join;
use gen_kill::Problem;
use gk_solve::{Routes, SliceWords, Solver, TakeWords};
use std::alloc::Global;

// What a word of the may form tells: itself, or where the join is the intersection which bits of `lo..hi` are not in it.
pub(crate) fn table_word(bits: u64, lo: u32, hi: u32, word: u32, join: Join) -> u64
    ensures { (k : ℕ) → k < 64 → has_bit result k
        ≡ (if is_intersection join then not (has_bit bits k) && (nat_le lo (64 * word + k) && nat_lt (64 * word + k) hi) else has_bit bits k) }
{
    match join {
        Join::Union => bits,
        Join::Intersection => complement_within(bits, lo, hi, word),
    }
}

// How a caller's words stand: of which points and bits, how many each point has, the number of the first, and whether they are a
// complement: where the join is the intersection.
#[derive(Clone, Copy)]
struct Layout {
    from: u32,
    until: u32,
    lo: u32,
    hi: u32,
    count: u32,
    first: u32,
    join: Join,
}

// Puts the words that were solved last into those of a point, by its row: from one up to another.
fn put_row(
    problem: &Problem<'_, '_>,
    slice: &SliceWords,
    layout: Layout,
    solved: (u32, u32),
    row: u32,
    words: &mut [u64],
)
    requires slice { IsSliceOf problem.now slice.now }
    requires meets { AreMeetWords problem.now slice.now }
    requires whole { problem.now ≡ all_bits problem.now.program problem.now.analysis }
    requires lo { layout.lo ≡ slice.now.lo }
    requires hi { layout.hi ≡ slice.now.hi }
    requires join { is_intersection layout.join ≡ is_must problem.now.analysis }
    requires start { solved.0 ≡ slice.now.from }
    requires end { solved.1 ≡ slice.now.until }
    requires ordered { solved.0 ≤ solved.1 }
    requires first { layout.first ≤ solved.0 }
    requires last { solved.1 ≤ layout.first + layout.count }
    requires until { layout.until ≤ slice.now.points }
    requires row { layout.from + row < layout.until }
    requires room { row * layout.count + layout.count ≤ length words.old }
    ensures { IsRowFilled (IsRowWord problem.now.program problem.now.analysis layout.from slice.now.lo slice.now.hi row) (row * layout.count)
        layout.first solved.0 solved.1 words.old words.new }
{
    let point = layout.from + row;
    let at = row as usize * layout.count as usize;
    for word in solved.0..solved.1 {
        let bits = slice.word(point, word);
        words[at + (word - layout.first) as usize] = table_word(
            bits,
            layout.lo,
            layout.hi,
            word,
            layout.join,
        );
    }
}

// Puts the words that were solved last into those of the layout's points: from one up to another.
fn put_words(
    problem: &Problem<'_, '_>,
    slice: &SliceWords,
    layout: Layout,
    solved: (u32, u32),
    words: &mut [u64],
)
    requires slice { IsSliceOf problem.now slice.now }
    requires meets { AreMeetWords problem.now slice.now }
    requires whole { problem.now ≡ all_bits problem.now.program problem.now.analysis }
    requires lo { layout.lo ≡ slice.now.lo }
    requires hi { layout.hi ≡ slice.now.hi }
    requires join { is_intersection layout.join ≡ is_must problem.now.analysis }
    requires start { solved.0 ≡ slice.now.from }
    requires end { solved.1 ≡ slice.now.until }
    requires ordered { solved.0 ≤ solved.1 }
    requires first { layout.first ≤ solved.0 }
    requires last { solved.1 ≤ layout.first + layout.count }
    requires from { layout.from ≤ layout.until }
    requires until { layout.until ≤ slice.now.points }
    requires room { length words.old ≡ (layout.until - layout.from) * layout.count }
    ensures { AreFilled (IsRowWord problem.now.program problem.now.analysis layout.from slice.now.lo slice.now.hi) (layout.until - layout.from)
        layout.count layout.first solved.0 solved.1 words.old words.new }
{
    for row in 0..layout.until - layout.from {
        put_row(problem, slice, layout, solved, row, words);
    }
}

// A caller's words, as what takes solved words.
#[derive(Drop)]
struct Filling<'w> {
    layout: Layout,
    words: &'w mut [u64],
}

impl TakeWords for Filling<'_> {
    ghost is_ready = { λ filling form lo hi. CanFill form lo hi filling.layout (length filling.words.now) };

    ghost has = { λ start filling form lo hi word. (filling.words.ghost_name ≡ start.words.ghost_name) × ((filling.layout ≡ start.layout)
        × AreFilled (IsRowWord form.program form.analysis start.layout.from lo hi) (start.layout.until - start.layout.from) start.layout.count
        (lo / 64) (lo / 64) word start.words.now filling.words.now) };

    fn take_words(&mut self, problem: &Problem<'_, '_>, slice: &SliceWords) {
        let solved = slice.solved();
        put_words(problem, slice, self.layout, solved, self.words);
    }
}

// Solves a slice's words, and puts them into those of the layout's points.
fn put_slice<'a, 'g, 'p>(
    solver: &'a Solver<'g, 'p>,
    routes: &'a Routes,
    slice: &mut SliceWords,
    layout: Layout,
    words: &mut [u64],
)
    requires routes { routes.now ≡ direction_of solver.now }
    requires slice { IsSliceOf solver.now slice.old }
    requires ready { CanFill solver.now slice.old.lo slice.old.hi layout (length words.old) }
    ensures { AreFilled (IsRowWord solver.now.program solver.now.analysis layout.from slice.old.lo slice.old.hi) (layout.until - layout.from)
        layout.count (slice.old.lo / 64) (slice.old.lo / 64) ((slice.old.hi + 63) / 64) words.old words.new }
{
    let mut filling = Filling {
        layout,
        words: &mut *words,
    };
    solver.solve_each(routes, slice, &mut filling);
}

/// Puts truth values of the points from one on, 1 or 0 each.
pub(crate) fn put_flags(values: &[bool], from: u32, flags: &mut [u8])
    requires { from + length flags.old ≤ length values.now }
    ensures { AreNumbers values.now from flags.old flags.new }
{
    for row in 0..flags.len() {
        flags[row] = values[from as usize + row] as u8;
    }
}

/// Which facts are asked for: at the points `points.0..points.1`, on the bits `bits.0..bits.1`.
#[derive(Clone, Copy)]
pub struct Ranges {
    pub points: (u32, u32),
    pub bits: (u32, u32),
}

// Puts the facts of a solver's problem. The solver and its routes are not owned here, so that no way out drops them.
fn put_solved<'a, 'g, 'p>(
    alloc: Global,
    solver: &'a Solver<'g, 'p>,
    routes: &'a Routes,
    ranges: Ranges,
    flags: &mut [u8],
    words: &mut [u64],
) -> Result<(), OutOfMemory>
    requires routes { routes.now ≡ direction_of solver.now }
    requires whole { solver.now ≡ all_bits solver.now.program solver.now.analysis }
    requires in_range { AreInRange solver.now.program solver.now.analysis ranges.points.0 ranges.points.1 ranges.bits.0 ranges.bits.1 }
    requires room { HasRoom ranges.points.0 ranges.points.1 ranges.bits.0 ranges.bits.1 (length flags.old) (length words.old) }
    ensures facts { OnOk result (AreFactsOf solver.now.program solver.now.analysis
        ranges.points.0 ranges.points.1 ranges.bits.0 ranges.bits.1 flags.new words.new) }
    ensures kept { OnErr result ((flags.new ≡ flags.old) × (words.new ≡ words.old)) }
{
    let (from, until) = ranges.points;
    let (lo, hi) = ranges.bits;
    let paths = solver.flags(alloc, routes)?;
    let mut slice = solver.slice(alloc, routes, lo, hi)?;
    put_flags(&paths, from, flags);
    let first = lo / 64;
    let end = words_for(hi);
    let layout = Layout {
        from,
        until,
        lo,
        hi,
        count: end - first,
        first,
        join: solver.problem().analysis().join(),
    };
    put_slice(solver, routes, &mut slice, layout, words);
    Ok(())
}

/// Puts the facts of a problem's analysis at some points and on some bits into flags and words, by the routes of its direction: for each of
/// these points a flag, 1 where it has a valid path, and the words `bits.0 / 64` to `(bits.1 + 63) / 64` of its set. The condition: the problem
/// has all bits of the analysis. Fails only where memory runs out, and has written nothing then.
pub fn put_facts(
    alloc: Global,
    problem: Problem<'_, '_>,
    routes: &Routes,
    ranges: Ranges,
    flags: &mut [u8],
    words: &mut [u64],
) -> Result<(), OutOfMemory>
    requires routes { routes.now ≡ direction_of problem }
    requires whole { problem ≡ all_bits problem.program problem.analysis }
    requires in_range { AreInRange problem.program problem.analysis ranges.points.0 ranges.points.1 ranges.bits.0 ranges.bits.1 }
    requires room { HasRoom ranges.points.0 ranges.points.1 ranges.bits.0 ranges.bits.1 (length flags.old) (length words.old) }
    ensures facts { OnOk result (AreFactsOf problem.entry.program problem.entry.analysis
        ranges.points.0 ranges.points.1 ranges.bits.0 ranges.bits.1 flags.new words.new) }
    ensures kept { OnErr result ((flags.new ≡ flags.old) × (words.new ≡ words.old)) }
{
    let solver = Solver::of(alloc, problem)?;
    put_solved(alloc, &solver, routes, ranges, flags, words)
}
