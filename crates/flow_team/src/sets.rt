// The sets of a graph's analysis, slice by slice.
ghost use Rattle.std.specs.Prelude.{◌≡◌, ℕ, ◌+◌, ◌/◌, ◌<◌, ◌↔◌, true, length, IfErr, IfOk};
ghost use Rattle.bit_rows.specs.RowSet.{contains};
ghost use Rattle.bit_rows.specs.RowTable.{set_at};
ghost use Rattle.flow_graph.specs.Universes.{bits as bits_of};
ghost use Rattle.gk_solve.specs.Solved.{HasPathFlags};
ghost use Rattle.slice_board.specs.Boards.{InSlice, slice_count};
ghost use Rattle.slice_board.specs.Passes.{IsLogged};
ghost use Rattle.flow_team.specs.Sets.{IsInMaySet, whole};
ghost use Rattle.flow_team.specs.Excerpts.{IsTableAt};
ghost use Rattle.flow_team.specs.Tables.{IsTableOf};
ghost use Rattle.flow_team.specs.code.Boards.{IsTableBoard};
ghost use Rattle.flow_team.specs.code.Excerpts.{HasFlagsFrom};
ghost use Rattle.flow_team.specs.code.Posting.{CanPost};
ghost use Rattle.slice_board.specs.Teams.{PostsMore};

use crate::OutOfMemory;
use crate::complemented_words::ComplementedWords;
use crate::posting::post_slice_words;
use crate::table::Table;
use flow_graph::{Analysis, Graph};
use gen_kill::Problem;
use gk_solve::{Routes, Solver};
use slice_board::{Pass, PostedWords, Solve, Wanted, WordBoard};
use std::alloc::Global;
use std::marker::Model;

/// The sets of an analysis of a graph, in its may form, at all points, and the solver that finds them.
pub struct GraphSets<'g, 'p> {
    solver: Solver<'g, 'p>,
    routes: Routes,
}

impl<'g, 'p> Model for GraphSets<'g, 'p> {
    ghost use Rattle.std.specs.Prelude.{◌≡◌};
    ghost use Rattle.flow_graph.specs.Problems.{MayForm};
    ghost use Rattle.flow_team.specs.Sets.{whole};
    ghost use Rattle.gen_kill.specs.Selections.{may_form};
    ghost use Rattle.gk_solve.specs.Solved.{direction_of};

    ghost Value = { MayForm };

    ghost view = { λ sets. may_form sets.solver };

    ghost invariant = { λ sets. (whole (may_form sets.solver) ≡ sets.solver) × (sets.routes ≡ direction_of sets.solver) };
}

impl Drop for GraphSets<'_, '_> {
    // By hand: who gives the sets up then makes one call.
    fn drop(self) {
        let GraphSets {
            solver: _,
            routes: _,
        } = self;
    }
}

impl<'g, 'p> Wanted for GraphSets<'g, 'p> {
    ghost wants = { IsInMaySet };
}

impl<'g, 'p> GraphSets<'g, 'p> {
    /// The sets of an analysis of a graph.
    pub(crate) fn of(
        alloc: Global,
        graph: &'g Graph<'p>,
        analysis: Analysis,
    ) -> Result<Self, OutOfMemory>
        ensures { IfOk result (λ sets. sets ≡ record { program = graph.now; analysis = analysis }) }
    {
        let problem = Problem::of(alloc, graph, analysis)?;
        let routes = Routes::of(alloc, &problem)?;
        let solver = Solver::of(alloc, problem)?;
        Ok(GraphSets { solver, routes })
    }

    /// The path flag of each point.
    pub(crate) fn flags(&self, alloc: Global) -> Result<Vec<bool>, OutOfMemory>
        ensures { IfOk result (λ flags. HasPathFlags self.now flags.items) }
    {
        self.solver.flags(alloc, &self.routes)
    }

    /// Solves a slice of the sets, and posts it on a board for so many points, from the first on.
    pub(crate) fn post_slice_from<W: Wanted>(
        &self,
        alloc: Global,
        board: &WordBoard<W>,
        pass: &mut Pass<W>,
        slice: u32,
        first: u32,
        count: u32,
    ) -> Result<(), OutOfMemory>
        requires ready { CanPost (W.wants board.now.wanted) (whole self.now) first count board.now.cut.bits board.now pass.old }
        requires bits { board.now.cut.bits ≡ bits_of self.now.program self.now.analysis }
        requires there { slice < slice_count board.now.cut }
        ensures more { PostsMore pass.old pass.new }
        ensures whole { IfOk result (λ _. (point bit : ℕ) → W.wants board.now.wanted point bit
            → InSlice board.now.cut slice bit → IsLogged pass.new.posted point bit) }
        ensures refused { IfErr result (λ _. pass.new ≡ pass.old) }
    {
        let cut = board.cut();
        // Its contract tells that the slices lie within the bits.
        let _ = cut.slices();
        let (lo, hi) = cut.range(slice);
        let mut words = self.solver.slice(alloc, &self.routes, lo, hi)?;
        post_slice_words(
            &self.solver,
            &self.routes,
            &mut words,
            board,
            pass,
            first,
            count,
        );
        Ok(())
    }

    /// The analysis's table at the points from the first on, of the words of its may form there: complemented where the analysis is over
    /// every path.
    pub(crate) fn table_from(&self, posted: PostedWords, first: u32) -> Table
        requires range { (posted.lo ≡ 0) × (posted.hi ≡ bits_of self.now.program self.now.analysis) }
        requires flags { HasFlagsFrom self.now first posted.flags }
        requires rows { (point bit : ℕ) → (contains (set_at posted point) bit ≡ true)
            ↔ ((point < length posted.flags) × IsInMaySet self.now (first + point) bit) }
        ensures analysis { result.analysis ≡ self.now.analysis }
        ensures table { IsTableAt self.now.program first (first + length posted.flags) result }
    {
        let analysis = self.solver.problem().analysis();
        let words = ComplementedWords::of(posted, analysis.join());
        Table::of(analysis, words, first)
    }

    /// The analysis's table, of the words of its may form.
    pub(crate) fn table(&self, posted: PostedWords) -> Table
        requires range { (posted.lo ≡ 0) × (posted.hi ≡ bits_of self.now.program self.now.analysis) }
        requires flags { HasPathFlags self.now posted.flags }
        requires rows { (point bit : ℕ) → (contains (set_at posted point) bit ≡ true) ↔ IsInMaySet self.now point bit }
        ensures analysis { result.analysis ≡ self.now.analysis }
        ensures table { IsTableOf self.now.program result }
    {
        self.table_from(posted, 0)
    }
}

impl<'g, 'p> Solve<GraphSets<'g, 'p>> for GraphSets<'g, 'p> {
    ghost is_on = { IsTableBoard };

    fn post_slice(
        &self,
        alloc: Global,
        board: &WordBoard<GraphSets<'g, 'p>>,
        pass: &mut Pass<GraphSets<'g, 'p>>,
        slice: u32,
    ) -> Result<(), OutOfMemory> {
        let points = self.solver.problem().points();
        self.post_slice_from(alloc, board, pass, slice, 0, points)
    }
}
