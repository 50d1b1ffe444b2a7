// What statements do with the bits of words.
ghost use Rattle.std.specs.Prelude.{◌≡◌, ◌+◌, ◌*◌, ◌<◌, ◌/◌, ◌%◌, ◌&&◌, ◌||◌, not, ℕ, false, true, IfOk, slice_index, if◌then◌else◌};
ghost use Rattle.bit_rows.specs.Words.{has_bit};
ghost use Rattle.flow_graph.specs.Points.{point_count};
ghost use Rattle.gk_solve.specs.Tables.Groups.{AreEffectWords, IsGroupFrame, IsIdle};
ghost use Rattle.gk_solve.specs.Tables.Words.{place_gens, place_kills};

use crate::OutOfMemory;
use crate::group_frame::GroupFrame;
use crate::lanes::{across_word, unkilled_word};
use crate::summary::Summary;
use gen_kill::Problem;
use std::alloc::Global;

/// The word with one more bit.
pub(crate) fn with_bit(words: u64, word: u32) -> u64
    requires { word < 64 }
    ensures here { has_bit result word ≡ true }
    ensures others { (k : ℕ) → has_bit words k ≡ true → has_bit result k ≡ true }
{
    words | 1 << word
}

// Whether a place of a word is 1.
fn has_word(words: u64, word: u32) -> bool
    requires { word < 64 }
    ensures { result ≡ has_bit words word }
{
    (words >> word) & 1 == 1
}

// The words in which the statement at a point does something.
fn words_of_effect(problem: &Problem<'_, '_>, point: u32) -> u64
    requires { point < point_count problem.now.program }
    ensures { (word : ℕ) → has_bit result (word % 64) ≡ false → IsIdle problem.now point word }
{
    problem.effect_words(point)
}

/// For each point the words in which its statement does something: word `w` at place `w % 64`.
pub(crate) fn effect_words(
    alloc: Global,
    problem: &Problem<'_, '_>,
) -> Result<Vec<u64>, OutOfMemory>
    ensures { IfOk result (λ words. AreEffectWords problem.now words.items) }
{
    let points = problem.points();
    let mut words = Vec::with_capacity(alloc, points as usize)?;
    for point in 0..points {
        words.push(words_of_effect(problem, point))?;
    }
    Ok(words)
}

// Whether the statement at a point may do something in one word of the group.
#[inline(always)]
fn touches<const W: usize>(frame: &GroupFrame, point: u32, w: usize) -> bool
    requires frame { IsGroupFrame W frame.now }
    requires within { point < point_count frame.now.problem.now.program }
    requires word { w < W }
    ensures { result ≡ false → IsIdle frame.now.problem.now point (frame.now.first + w) }
{
    let word = frame.first + w as u32;
    has_word(frame.effects[point as usize], word % 64)
}

// The bits of one word of the group that the statement at a point generates.
#[inline(always)]
fn gen_of<const W: usize>(frame: &GroupFrame, point: u32, w: usize) -> u64
    requires frame { IsGroupFrame W frame.now }
    requires within { point < point_count frame.now.problem.now.program }
    requires word { w < W }
    ensures { (k : ℕ) → k < 64 → has_bit result k ≡ place_gens frame.now.problem.now point (64 * (frame.now.first + w) + k) }
{
    if touches::<W>(frame, point, w) {
        let problem = frame.problem;
        return problem.gen_word(point, frame.first + w as u32, frame.dependence);
    }
    0
}

// The bits of one word of the group that the statement at a point kills.
#[inline(always)]
fn kill_of<const W: usize>(frame: &GroupFrame, point: u32, w: usize) -> u64
    requires frame { IsGroupFrame W frame.now }
    requires within { point < point_count frame.now.problem.now.program }
    requires word { w < W }
    ensures { (k : ℕ) → k < 64 → has_bit result k ≡ place_kills frame.now.problem.now point (64 * (frame.now.first + w) + k) }
{
    if touches::<W>(frame, point, w) {
        let problem = frame.problem;
        return problem.kill_word(point, frame.first + w as u32, frame.dependence);
    }
    0
}

// The bits after the step of a statement, where it does something in the group.
fn across_words<const W: usize>(frame: &GroupFrame, point: u32, before: Summary<W>) -> Summary<W>
    requires frame { IsGroupFrame W frame.now }
    requires within { point < point_count frame.now.problem.now.program }
    ensures preserved { (w k : ℕ) → w < W → k < 64 → has_bit (slice_index result.preserved w) k
        ≡ (has_bit (slice_index before.entry.preserved w) k && not (place_kills frame.now.problem.now point (64 * (frame.now.first + w) + k))) }
    ensures generated { (w k : ℕ) → w < W → k < 64 → has_bit (slice_index result.generated w) k
        ≡ (place_gens frame.now.problem.now point (64 * (frame.now.first + w) + k)
        || (has_bit (slice_index before.entry.generated w) k && not (place_kills frame.now.problem.now point (64 * (frame.now.first + w) + k)))) }
{
    let mut preserved = before.preserved;
    let mut generated = before.generated;
    for w in 0..W {
        let gens = gen_of::<W>(frame, point, w);
        let kill = kill_of::<W>(frame, point, w);
        preserved[w] = unkilled_word(preserved[w], kill);
        generated[w] = across_word(gens, generated[w], kill);
    }
    Summary {
        preserved,
        generated,
    }
}

/// The bits after the step of the statement at a point.
#[inline(always)]
pub(crate) fn across_step<const W: usize>(
    frame: &GroupFrame,
    point: u32,
    before: Summary<W>,
) -> Summary<W>
    requires frame { IsGroupFrame W frame.now }
    requires within { point < point_count frame.now.problem.now.program }
    ensures preserved { (w k : ℕ) → w < W → k < 64 → has_bit (slice_index result.preserved w) k
        ≡ (has_bit (slice_index before.entry.preserved w) k && not (place_kills frame.now.problem.now point (64 * (frame.now.first + w) + k))) }
    ensures generated { (w k : ℕ) → w < W → k < 64 → has_bit (slice_index result.generated w) k
        ≡ (place_gens frame.now.problem.now point (64 * (frame.now.first + w) + k)
        || (has_bit (slice_index before.entry.generated w) k && not (place_kills frame.now.problem.now point (64 * (frame.now.first + w) + k)))) }
{
    if frame.effects[point as usize] & frame.mask == 0 {
        return before;
    }
    across_words(frame, point, before)
}
