// The table of an analysis at some points of a graph.
ghost use Rattle.std.specs.Prelude.{◌≡◌, ◌↔◌, ℕ, ◌+◌, ◌-◌, ◌<◌, ◌≤◌, true, length, IfOk};
ghost use Rattle.bit_rows.specs.RowSet.{contains};
ghost use Rattle.bit_rows.specs.RowTable.{set_at};
ghost use Rattle.flow_graph.specs.Points.{point_count};
ghost use Rattle.flow_graph.specs.Universes.{bits as bits_of};
ghost use Rattle.slice_board.specs.Boards.{fresh_pass};
ghost use Rattle.slice_board.specs.Passes.{IsWhole};
ghost use Rattle.slice_board.specs.Teams.{IsDrained};
ghost use Rattle.flow_team.specs.Excerpts.{IsTableAt};
ghost use Rattle.flow_team.specs.code.Excerpts.{HasFlagsFrom, IsInExcerpt, IsExcerptBoard};

use crate::OutOfMemory;
use crate::sets::GraphSets;
use crate::table::Table;
use crate::tables::even_cut;
use bit_rows::Cut;
use flow_graph::{Analysis, Graph};
use slice_board::{Gate, Pass, PostedWords, SliceJob, Solve, Team, Wanted, WordBoard, run_workers};
use std::alloc::Global;
use std::marker::Model;
use std::thread::Threads;

/// The sets of an analysis of a graph, in its may form, at so many points, from the first on.
#[derive(Drop)]
pub(crate) struct ExcerptSets<'g, 'p> {
    sets: GraphSets<'g, 'p>,
    first: u32,
    count: u32,
}

impl<'g, 'p> Model for ExcerptSets<'g, 'p> {
    ghost use Rattle.std.specs.Prelude.{◌+◌, ◌≤◌};
    ghost use Rattle.flow_graph.specs.Points.{point_count};
    ghost use Rattle.flow_team.specs.code.Excerpts.{Excerpt};

    ghost Value = { Excerpt };

    ghost view = { λ excerpt. record { form = excerpt.sets; first = excerpt.first; count = excerpt.count } };

    ghost invariant = { λ excerpt. excerpt.first + excerpt.count ≤ point_count excerpt.sets.program };
}

impl<'g, 'p> Wanted for ExcerptSets<'g, 'p> {
    ghost wants = { IsInExcerpt };
}

// A job of the sets at some points.
type ExcerptJob<'g, 'p> = SliceJob<ExcerptSets<'g, 'p>, ExcerptSets<'g, 'p>>;

impl<'g, 'p> ExcerptSets<'g, 'p> {
    // The sets of an analysis of a graph at the points from one on and before another.
    fn of(
        alloc: Global,
        graph: &'g Graph<'p>,
        analysis: Analysis,
        from: u32,
        until: u32,
    ) -> Result<Self, OutOfMemory>
        requires ordered { from ≤ until }
        requires there { until ≤ point_count graph.now }
        ensures { IfOk result
            (λ excerpt. excerpt ≡ record { form = record { program = graph.now; analysis = analysis }; first = from; count = until - from }) }
    {
        let sets = GraphSets::of(alloc, graph, analysis)?;
        Ok(ExcerptSets {
            sets,
            first: from,
            count: until - from,
        })
    }

    // The path flag of each point.
    fn flags(&self, alloc: Global) -> Result<Vec<bool>, OutOfMemory>
        ensures count { IfOk result (λ flags. length flags.items ≡ self.now.count) }
        ensures flags { IfOk result (λ flags. HasFlagsFrom self.now.form self.now.first flags.items) }
    {
        let all = self.sets.flags(alloc)?;
        let first = self.first as usize;
        let until = first + self.count as usize;
        all[first..until].to_vec(alloc)
    }

    // The table, of the words of the may form.
    fn table(&self, posted: PostedWords) -> Table
        requires range { (posted.lo ≡ 0) × (posted.hi ≡ bits_of self.now.form.program self.now.form.analysis) }
        requires count { length posted.flags ≡ self.now.count }
        requires flags { HasFlagsFrom self.now.form self.now.first posted.flags }
        requires rows { (point bit : ℕ) → (contains (set_at posted point) bit ≡ true) ↔ IsInExcerpt self.now point bit }
        ensures analysis { result.analysis ≡ self.now.form.analysis }
        ensures table { IsTableAt self.now.form.program self.now.first (self.now.first + self.now.count) result }
    {
        self.sets.table_from(posted, self.first)
    }
}

impl<'g, 'p> Solve<ExcerptSets<'g, 'p>> for ExcerptSets<'g, 'p> {
    ghost is_on = { IsExcerptBoard };

    fn post_slice(
        &self,
        alloc: Global,
        board: &WordBoard<ExcerptSets<'g, 'p>>,
        pass: &mut Pass<ExcerptSets<'g, 'p>>,
        slice: u32,
    ) -> Result<(), OutOfMemory> {
        self.sets
            .post_slice_from(alloc, board, pass, slice, self.first, self.count)
    }
}

// The job of these sets, on a board with a row for each of their points.
fn on_board<'g, 'p>(
    alloc: Global,
    excerpt: ExcerptSets<'g, 'p>,
    cut: Cut,
) -> Result<(ExcerptJob<'g, 'p>, Pass<ExcerptSets<'g, 'p>>), OutOfMemory>
    requires { cut.bits ≡ bits_of excerpt.form.program excerpt.form.analysis }
    ensures wanted { IfOk result (λ r. r.0.wanted ≡ excerpt.entry) }
    ensures pass { IfOk result (λ r. r.1 ≡ fresh_pass r.0) }
{
    let flags = excerpt.flags(alloc)?;
    let (board, pass) = WordBoard::open(alloc, &excerpt, flags, cut)?;
    Ok((SliceJob::on_board(board, excerpt), pass))
}

// The table, once the workers have finished every slice.
fn closed_table<'g, 'p>(job: ExcerptJob<'g, 'p>, pass: Pass<ExcerptSets<'g, 'p>>) -> Table
    requires drained { IsDrained job pass }
    requires whole { IsWhole pass }
    ensures analysis { result.analysis ≡ job.entry.wanted.form.analysis }
    ensures table { IsTableAt job.entry.wanted.form.program job.entry.wanted.first
        (job.entry.wanted.first + job.entry.wanted.count) result }
{
    match job.close(pass) {
        Ok((excerpt, posted)) => excerpt.table(posted),
        // No other pass has a share of the board.
        Err(_) => unreachable!(),
    }
}

/// What [`table_of`](crate::table_of) tells, at the points from one on and before another alone: it takes memory for these points' words and
/// no others. Of the points before them the table says that there is no path and no bit.
///
/// The condition: the points are of the graph. Fails only where memory runs out.
pub fn table_at<'g, 'p, R: Threads + Sync, G: Gate>(
    team: &Team<'_, R, G>,
    alloc: Global,
    graph: &'g Graph<'p>,
    analysis: Analysis,
    from: u32,
    until: u32,
) -> Result<Table, OutOfMemory>
    requires ordered { from ≤ until }
    requires there { until ≤ point_count graph.now }
    ensures analysis { IfOk result (λ table. table.analysis ≡ analysis) }
    ensures table { IfOk result (IsTableAt graph.now from until) }
{
    let excerpt = ExcerptSets::of(alloc, graph, analysis, from, until)?;
    let slices = even_cut(alloc, graph.bits(analysis), team.cut)?;
    let (job, pass) = on_board(alloc, excerpt, slices)?;
    let pass = run_workers(team, alloc, &job, pass)?;
    Ok(closed_table(job, pass))
}
