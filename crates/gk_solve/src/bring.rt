// What is brought to procedures, for a group of words, by visits of the procedures that are changed.
ghost use Rattle.std.specs.Prelude.{◌≡◌, ◌<◌, ◌||◌, ◌&&◌, ◌↔◌, ◌⊎◌, ℕ, true, length, slice_index};
ghost use Rattle.bit_rows.specs.Words.{has_bit};
ghost use Rattle.flow_graph.specs.declared.edge.Edge.{Edge};
ghost use Rattle.flow_graph.specs.Paths.{IsEdge};
ghost use Rattle.flow_graph.specs.Points.{point_count};
ghost use Rattle.flow_links.specs.Shapes.{directed_shape};
ghost use Rattle.flow_links.specs.LinkLists.{IsSiteLink};
ghost use Rattle.worklist.specs.Worklist.{IsMarked};
ghost use Rattle.gk_solve.specs.Tables.Brought.{AreBroughtOf, AreExactBrought, AreSoundBrought, BroughtSpreads, IsBringSettled, IsBroughtClosedAt};
ghost use Rattle.gk_solve.specs.Tables.Brought.{brought_word};
ghost use Rattle.gk_solve.specs.Tables.Flags.{source_procedure};
ghost use Rattle.gk_solve.specs.Tables.Groups.{AreCompleteSummaries, AreSoundSummaries, IsGroupFrame, group_of};
ghost use Rattle.gk_solve.specs.Tables.Visits.{IsSettled};
ghost use Rattle.gk_solve.specs.Tables.Words.{HasBit};

use crate::group_frame::GroupFrame;
use crate::lanes::{added_words, new_or_preserved};
use crate::summary::Summary;
use flow_links::SiteLink;
use worklist::Worklist;

// Adds to what is brought to a procedure, and where that is anything, marks it.
fn put_brought<const W: usize>(
    frame: &GroupFrame,
    table: &[Summary<W>],
    brought: &mut [[u64; W]],
    dirty: &mut Worklist,
    procedure: u32,
    more: [u64; W],
)
    requires count { length brought.now ≡ (directed_shape frame.now.links.now).procedures }
    requires dirty_count { length dirty.now ≡ (directed_shape frame.now.links.now).procedures }
    requires within { procedure < (directed_shape frame.now.links.now).procedures }
    requires brings { AreBroughtOf (group_of frame.now W) more procedure }
    ensures spreads { BroughtSpreads (group_of frame.now W) frame.now.paths.now table.now brought.old dirty.old brought.new dirty.new }
    ensures same { ((w : ℕ) (x : ℕ) → (x ≡ procedure → ⊥) → brought_word brought.new w x ≡ brought_word brought.old w x) }
    ensures still { (brought.new ≡ brought.old) ⊎ IsMarked dirty.new procedure }
    ensures added { (w k : ℕ) → w < W → has_bit (slice_index more.entry w) k ≡ true → HasBit (brought_word brought.new w) procedure k }
{
    let before = brought[procedure as usize];
    let (after, changed) = added_words(before, more);
    if !changed {
        return;
    }
    brought[procedure as usize] = after;
    dirty.mark(procedure as usize);
}

// Goes over one call of a procedure.
fn visit_site<const W: usize>(
    frame: &GroupFrame,
    table: &[Summary<W>],
    brought: &mut [[u64; W]],
    dirty: &mut Worklist,
    procedure: u32,
    site: SiteLink,
)
    requires frame { IsGroupFrame W frame.now }
    requires points { length table.now ≡ point_count frame.now.links.now.program }
    requires summaries { AreSoundSummaries (group_of frame.now W) table.now }
    requires count { length brought.now ≡ (directed_shape frame.now.links.now).procedures }
    requires dirty_count { length dirty.now ≡ (directed_shape frame.now.links.now).procedures }
    requires inside { procedure < (directed_shape frame.now.links.now).procedures }
    requires there { IsSiteLink (directed_shape frame.now.links.now) procedure site }
    requires within { (site.point < point_count frame.now.links.now.program) × (site.callee < (directed_shape frame.now.links.now).procedures) }
    requires sound { AreSoundBrought (group_of frame.now W) brought.now }
    ensures spreads { BroughtSpreads (group_of frame.now W) frame.now.paths.now table.now brought.old dirty.old brought.new dirty.new }
    ensures settled { IsBringSettled (group_of frame.now W) frame.now.paths.now table.now brought.new dirty.new site }
{
    if !frame.paths[site.point as usize] {
        return;
    }
    let here = table[site.point as usize];
    let more = new_or_preserved(here.generated, brought[procedure as usize], here.preserved);
    put_brought(frame, table, brought, dirty, site.callee, more);
}

// Goes over the calls of a procedure.
fn visit_procedure<const W: usize>(
    frame: &GroupFrame,
    table: &[Summary<W>],
    brought: &mut [[u64; W]],
    dirty: &mut Worklist,
    procedure: u32,
)
    requires frame { IsGroupFrame W frame.now }
    requires points { length table.now ≡ point_count frame.now.links.now.program }
    requires summaries { AreSoundSummaries (group_of frame.now W) table.now }
    requires count { length brought.now ≡ (directed_shape frame.now.links.now).procedures }
    requires dirty_count { length dirty.now ≡ (directed_shape frame.now.links.now).procedures }
    requires within { procedure < (directed_shape frame.now.links.now).procedures }
    requires sound { AreSoundBrought (group_of frame.now W) brought.now }
    ensures spreads { BroughtSpreads (group_of frame.now W) frame.now.paths.now table.now brought.old dirty.old brought.new dirty.new }
    ensures settled { (edge : Edge) → IsEdge (directed_shape frame.now.links.now) edge
        → source_procedure (directed_shape frame.now.links.now) edge ≡ procedure
        → IsSettled (IsBroughtClosedAt (group_of frame.now W) frame.now.paths.now table.now) (source_procedure (directed_shape frame.now.links.now))
        brought.new dirty.new edge }
{
    let links = frame.links;
    let sites = links.sites_in(procedure);
    for site in sites {
        visit_site(frame, table, brought, dirty, procedure, *site);
    }
}

// What the boundary has, of a group's words.
fn boundary<const W: usize>(frame: &GroupFrame) -> [u64; W]
    requires { IsGroupFrame W frame.now }
    ensures { (w k : ℕ) → w < W → k < 64 → has_bit (slice_index result w) k ≡ ((group_of frame.now W).transfer w k).boundary }
{
    let problem = frame.problem;
    let mut words = [0; W];
    for w in 0..W {
        words[w] = problem.boundary_word(frame.first + w as u32);
    }
    words
}

// Begins what is brought: the boundary to the root, and nothing else.
fn begin_brought<const W: usize>(frame: &GroupFrame, brought: &mut [[u64; W]])
    requires frame { IsGroupFrame W frame.now }
    requires count { length brought.now ≡ (directed_shape frame.now.links.now).procedures }
    ensures root { (w k : ℕ) → w < W → k < 64 → ((group_of frame.now W).transfer w k).boundary ≡ true
        → HasBit (brought_word brought.new w) (directed_shape frame.now.links.now).root_procedure k }
    ensures sound { AreSoundBrought (group_of frame.now W) brought.new }
{
    for procedure in 0..brought.len() {
        brought[procedure] = [0; W];
    }
    let links = frame.links;
    let root = links.root();
    brought[root as usize] = boundary(frame);
}

/// Finds what is brought to each procedure, given what is preserved and generated at the points with a path.
pub(crate) fn brought<const W: usize>(
    frame: &GroupFrame,
    table: &[Summary<W>],
    brought: &mut [[u64; W]],
    dirty: &mut Worklist,
)
    requires frame { IsGroupFrame W frame.now }
    requires points { length table.now ≡ point_count frame.now.links.now.program }
    requires summaries { AreSoundSummaries (group_of frame.now W) table.now }
    requires complete { AreCompleteSummaries (group_of frame.now W) table.now }
    requires count { length brought.now ≡ (directed_shape frame.now.links.now).procedures }
    requires dirty_count { length dirty.now ≡ (directed_shape frame.now.links.now).procedures }
    ensures exact { AreExactBrought (group_of frame.now W) brought.new }
    ensures dirty_count { length dirty.new ≡ length dirty.old }
{
    let links = frame.links;
    // Its contract tells that there are few procedures.
    let _ = links.procedures();
    begin_brought(frame, brought);
    dirty.mark_all();
    'visits: while let Some(procedure) = dirty.take() {
        visit_procedure(frame, table, brought, dirty, procedure as u32);
    }
}
