// The words of a slice.
ghost use Rattle.std.specs.Prelude.{◌≡◌, ◌+◌, ◌-◌, ◌*◌, ◌/◌, ◌%◌, ◌^◌, ◌<◌, ◌≤◌, ℕ, true, IfOk, length, slice_index};
ghost use Rattle.bit_rows.specs.Words.{has_bit};
ghost use Rattle.flow_graph.specs.Points.{point_count};
ghost use Rattle.gen_kill.specs.Selections.{column_count};
ghost use Rattle.gen_kill.specs.code.Effects.{IsDependence};
ghost use Rattle.flow_links.specs.Shapes.{directed_shape};
ghost use Rattle.gk_solve.specs.Solved.{AreSolved, IsSliceOf, direction_of, word_at, words_at_once, words_between};
ghost use Rattle.gk_solve.specs.Tables.Groups.{AreEffectWords, IsGroupFrame};

use crate::OutOfMemory;
use crate::effects::with_bit;
use crate::group_frame::GroupFrame;
use crate::routes::Routes;
use crate::word_tables::Tables;
use bit_rows::words_for;
use flow_links::Links;
use gen_kill::{BitTable, Problem};
use std::alloc::Global;
use std::marker::Model;
use worklist::Worklist;

/// All working memory in which the words of a slice are solved, and the words that were solved last.
pub struct SliceWords {
    lo: u32,
    hi: u32,
    from: u32,
    until: u32,
    tables: Tables,
    dirty: Worklist,
    callers: Worklist,
    variables: u32,
    dependence: BitTable,
}

impl Model for SliceWords {
    ghost use Rattle.gk_solve.specs.Solved.{SliceTable};
    ghost use Rattle.gk_solve.specs.Tables.SliceTables.{view_of, IsSliceWords};

    ghost Value = { SliceTable };

    ghost view = { view_of };

    ghost invariant = { IsSliceWords };
}

impl Drop for SliceWords {
    // By hand: who gives the words of a slice up then makes one call.
    fn drop(self) {
        let SliceWords {
            lo: _,
            hi: _,
            from: _,
            until: _,
            tables: _,
            dirty: _,
            callers: _,
            variables: _,
            dependence: _,
        } = self;
    }
}

// The words of a group, a bit each: word `w` at place `w % 64`.
fn group_mask(first: u32, width: u32) -> u64
    requires narrow { width ≤ 8 }
    requires first { first < 2 ^ 31 }
    ensures { (w : ℕ) → w < width → has_bit result ((first + w) % 64) ≡ true }
{
    let mut mask = 0;
    for w in 0..width {
        mask = with_bit(mask, (first + w) % 64);
    }
    mask
}

// What a group of so many words from one on is solved by.
fn group_frame<'a, 'g, 'p>(
    problem: &'a Problem<'g, 'p>,
    routes: &'a Routes,
    effects: &'a [u64],
    dependence: &'a BitTable,
    word: u32,
    width: u32,
) -> GroupFrame<'a, 'g, 'p>
    requires narrow { width ≤ 8 }
    requires routes { routes.now ≡ direction_of problem.now }
    requires effects { AreEffectWords problem.now effects.now }
    requires dependence { IsDependence problem.now word dependence.now.words.items dependence.now.width }
    requires row_first { dependence.now.first ≡ word }
    requires row_words { dependence.now.width ≡ width }
    requires word { 64 * word < column_count problem.now }
    ensures frame { IsGroupFrame width result }
    ensures problem { result.problem.now ≡ problem.now }
    ensures links { result.links.now ≡ routes.now }
    ensures first { result.first ≡ word }
{
    // Their contracts tell that there are few bits, and what a shape's edges are.
    let _ = problem.bits();
    let links = routes.links();
    let _ = links.points();
    GroupFrame {
        problem,
        links,
        paths: routes.paths(),
        effects,
        first: word,
        mask: group_mask(word, width),
        dependence,
    }
}

// The marks of points, and those of procedures.
fn worklist(alloc: Global, links: &Links) -> Result<(Worklist, Worklist), OutOfMemory>
    ensures { IfOk result (λ worklist. (length worklist.0 ≡ point_count links.now.program)
        × (length worklist.1 ≡ (directed_shape links.now).procedures)) }
{
    let points = Worklist::none(alloc, links.order())?;
    let procedures = Worklist::none(alloc, links.call_order())?;
    Ok((points, procedures))
}

// All working memory of a slice.
pub(crate) fn slice_words(
    alloc: Global,
    problem: &Problem<'_, '_>,
    routes: &Routes,
    lo: u32,
    hi: u32,
) -> Result<SliceWords, OutOfMemory>
    requires { lo ≤ hi }
    ensures { IfOk result (λ slice. (slice.points ≡ point_count routes.now.program) × (slice.procedures ≡ (directed_shape routes.now).procedures)
        × (slice.variables ≡ length problem.now.program.variable_names) × (slice.lo ≡ lo) × (slice.hi ≡ hi)) }
{
    let links = routes.links();
    let tables = Tables::of(alloc, links.points(), links.procedures(), lo, hi)?;
    let (dirty, callers) = worklist(alloc, links)?;
    let variables = problem.variables();
    let dependence = problem.no_dependence(alloc, tables.width())?;
    Ok(SliceWords {
        lo,
        hi,
        from: lo / 64,
        until: lo / 64,
        tables,
        dirty,
        callers,
        variables,
        dependence,
    })
}

// The word behind those that a slice of this width solves at once, from one on.
fn group_end(width: u32, hi: u32, word: u32) -> u32
    requires some { 0 < width }
    requires narrow { width ≤ 8 }
    requires word { 64 * word < hi }
    ensures more { word < result }
    ensures last { 64 * result < hi + 64 }
    ensures fits { result ≤ word + width }
    ensures whole { 64 * result < hi → result ≡ word + width }
{
    let left = words_for(hi) - word;
    word + left.min(width)
}

impl SliceWords {
    /// How many points there are.
    pub fn points(&self) -> u32
        ensures { result ≡ self.now.points }
    {
        self.dirty.points()
    }

    /// How often a point was visited so far to find what is preserved and generated. No contract speaks of it.
    pub fn visits(&self) -> u64 {
        self.dirty.taken()
    }

    /// The bits of the slice: from one up to another.
    pub(crate) fn range(&self) -> (u32, u32)
        ensures { (result.0 ≡ self.now.lo) × (result.1 ≡ self.now.hi) }
    {
        (self.lo, self.hi)
    }

    /// The words that were solved last: from one up to another.
    pub fn solved(&self) -> (u32, u32)
        ensures { (result.0 ≡ self.now.from) × (result.1 ≡ self.now.until) }
    {
        (self.from, self.until)
    }

    /// The word of a number that was solved last, at a point.
    pub fn word(&self, point: u32, word: u32) -> u64
        requires point { point < self.now.points }
        requires from { self.now.from ≤ word }
        requires until { word < self.now.until }
        ensures { result ≡ word_at self.now point word }
    {
        let w = (word - self.from) as usize;
        match &self.tables {
            Tables::One(tables) => tables.points[point as usize].generated[w],
            Tables::Four(tables) => tables.points[point as usize].generated[w],
            Tables::Eight(tables) => tables.points[point as usize].generated[w],
        }
    }

    /// The words that were solved last, at a point, and the number of the first.
    pub fn words_at(&self, point: u32) -> (u32, &[u64])
        requires { point < self.now.points }
        ensures first { result.0 ≡ self.now.from }
        ensures count { result.0 + length result.1.now ≡ self.now.until }
        ensures words { (w : ℕ) → w < length result.1.now → slice_index result.1.now w ≡ word_at self.now point (result.0 + w) }
    {
        let count = (self.until - self.from) as usize;
        match &self.tables {
            Tables::One(tables) => (self.from, &tables.points[point as usize].generated[..count]),
            Tables::Four(tables) => (self.from, &tables.points[point as usize].generated[..count]),
            Tables::Eight(tables) => (self.from, &tables.points[point as usize].generated[..count]),
        }
    }

    // Solves the words from one on, as many as a slice solves at once, or to its end.
    fn solve_group_from<'a, 'g, 'p>(
        &mut self,
        problem: &'a Problem<'g, 'p>,
        routes: &'a Routes,
        effects: &'a [u64],
        word: u32,
    )
        requires slice { IsSliceOf problem.now self.old }
        requires routes { routes.now ≡ direction_of problem.now }
        requires effects { AreEffectWords problem.now effects.now }
        requires word { 64 * word < self.old.hi }
        ensures slice { IsSliceOf problem.now self.new }
        ensures range { (self.new.lo ≡ self.old.lo) × (self.new.hi ≡ self.old.hi) }
        ensures from { self.new.from ≡ word }
        ensures more { word < self.new.until }
        ensures last { 64 * self.new.until < self.old.hi + 64 }
        ensures most { self.new.until ≤ word + words_at_once self.old.points (words_between self.old.lo self.old.hi) }
        ensures whole { self.old.lo / 64 ≤ word → 64 * self.new.until < self.old.hi
            → self.new.until ≡ word + words_at_once self.old.points (words_between self.old.lo self.old.hi) }
        ensures solved { AreSolved problem.now self.new }
    {
        // Its contract tells that there are few bits.
        let _ = problem.bits();
        problem.put_dependence(word, &mut self.dependence);
        let width = self.tables.width();
        let frame = group_frame(problem, routes, effects, &self.dependence, word, width);
        let range = (self.lo, self.hi);
        let until = group_end(width, self.hi, word);
        self.from = word;
        self.until = until;
        match &mut self.tables {
            Tables::One(tables) => {
                tables.solve(&frame, &mut self.dirty, &mut self.callers, range);
            }
            Tables::Four(tables) => {
                tables.solve(&frame, &mut self.dirty, &mut self.callers, range);
            }
            Tables::Eight(tables) => {
                tables.solve(&frame, &mut self.dirty, &mut self.callers, range);
            }
        }
    }

    /// Solves the words from one on, as many as a slice solves at once, or to its end, and answers the word after the last.
    pub(crate) fn solve_from<'a, 'g, 'p>(
        &mut self,
        problem: &'a Problem<'g, 'p>,
        routes: &'a Routes,
        effects: &'a [u64],
        word: u32,
    ) -> u32
        requires slice { IsSliceOf problem.now self.old }
        requires routes { routes.now ≡ direction_of problem.now }
        requires effects { AreEffectWords problem.now effects.now }
        requires word { 64 * word < self.old.hi }
        ensures slice { IsSliceOf problem.now self.new }
        ensures range { (self.new.lo ≡ self.old.lo) × (self.new.hi ≡ self.old.hi) }
        ensures from { self.new.from ≡ word }
        ensures until { self.new.until ≡ result }
        ensures more { word < result }
        ensures last { 64 * result < self.old.hi + 64 }
        ensures most { result ≤ word + words_at_once self.old.points (words_between self.old.lo self.old.hi) }
        ensures whole { self.old.lo / 64 ≤ word → 64 * result < self.old.hi
            → result ≡ word + words_at_once self.old.points (words_between self.old.lo self.old.hi) }
        ensures solved { AreSolved problem.now self.new }
    {
        self.solve_group_from(problem, routes, effects, word);
        self.until
    }
}
