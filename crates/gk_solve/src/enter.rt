// The flags of procedures, by visits of the procedures that are changed.
ghost use Rattle.std.specs.Prelude.{◌≡◌, ◌<◌, ◌^◌, ℕ, length};
ghost use Rattle.flow_graph.specs.declared.edge.Edge.{Edge};
ghost use Rattle.flow_graph.specs.Paths.{IsEdge};
ghost use Rattle.flow_graph.specs.Points.{point_count};
ghost use Rattle.summary_equations.specs.Equations.{Reached, Entered};
ghost use Rattle.flow_links.specs.Shapes.{directed_shape};
ghost use Rattle.flow_links.specs.LinkLists.{IsSiteLink};
ghost use Rattle.worklist.specs.Worklist.{AreClear};
ghost use Rattle.gk_solve.specs.Tables.Flags.{IsFlagged, AreExactly, IsEntryClosedAt, IsSiteSettled, EntrySpreads, source_procedure};
ghost use Rattle.gk_solve.specs.Tables.Visits.{IsSettled};

use flow_links::{Links, SiteLink};
use worklist::Worklist;

// Sets the flag of a procedure that is entered, and where it was clear, marks it.
fn enter_procedure(
    links: &Links,
    _reached: &[bool],
    flags: &mut [bool],
    dirty: &mut Worklist,
    procedure: u32,
)
    requires count { length flags.now ≡ (directed_shape links.now).procedures }
    requires dirty_count { length dirty.now ≡ (directed_shape links.now).procedures }
    requires within { procedure < (directed_shape links.now).procedures }
    requires entered { Entered (directed_shape links.now) procedure }
    ensures spreads { EntrySpreads (directed_shape links.now) _reached.now flags.old dirty.old flags.new dirty.new }
    ensures flagged { IsFlagged flags.new procedure }
{
    if flags[procedure as usize] {
        return;
    }
    flags[procedure as usize] = true;
    dirty.mark(procedure as usize);
}

// Goes over one call of an entered procedure.
fn visit_site(
    links: &Links,
    reached: &[bool],
    flags: &mut [bool],
    dirty: &mut Worklist,
    procedure: u32,
    site: SiteLink,
)
    requires points { length reached.now ≡ point_count links.now.program }
    requires count { length flags.now ≡ (directed_shape links.now).procedures }
    requires dirty_count { length dirty.now ≡ (directed_shape links.now).procedures }
    requires reached { AreExactly (Reached (directed_shape links.now)) reached.now }
    requires entered { Entered (directed_shape links.now) procedure }
    requires there { IsSiteLink (directed_shape links.now) procedure site }
    requires within { (site.point < point_count links.now.program) × (site.callee < (directed_shape links.now).procedures) }
    ensures spreads { EntrySpreads (directed_shape links.now) reached.now flags.old dirty.old flags.new dirty.new }
    ensures settled { IsSiteSettled (directed_shape links.now) reached.now flags.new dirty.new site }
{
    // Its contract tells what a shape's edges are.
    let _ = links.points();
    if reached[site.point as usize] {
        enter_procedure(links, reached, flags, dirty, site.callee);
    }
}

// Goes over the calls of a procedure.
fn visit_procedure(
    links: &Links,
    reached: &[bool],
    flags: &mut [bool],
    dirty: &mut Worklist,
    procedure: u32,
)
    requires points { length reached.now ≡ point_count links.now.program }
    requires count { length flags.now ≡ (directed_shape links.now).procedures }
    requires dirty_count { length dirty.now ≡ (directed_shape links.now).procedures }
    requires reached { AreExactly (Reached (directed_shape links.now)) reached.now }
    requires entered { Entered (directed_shape links.now) procedure }
    requires within { procedure < (directed_shape links.now).procedures }
    ensures spreads { EntrySpreads (directed_shape links.now) reached.now flags.old dirty.old flags.new dirty.new }
    ensures settled { (edge : Edge) → IsEdge (directed_shape links.now) edge → source_procedure (directed_shape links.now) edge ≡ procedure
        → IsSettled (IsEntryClosedAt (directed_shape links.now) reached.now) (source_procedure (directed_shape links.now)) flags.new dirty.new edge }
{
    let sites = links.sites_in(procedure);
    for site in sites {
        visit_site(links, reached, flags, dirty, procedure, *site);
    }
}

/// Sets the flag of each procedure that is entered, given the points that are reached. No flag is set before.
pub(crate) fn entered(links: &Links, reached: &[bool], flags: &mut [bool], dirty: &mut Worklist)
    requires points { length reached.now ≡ point_count links.now.program }
    requires count { length flags.now ≡ (directed_shape links.now).procedures }
    requires dirty_count { length dirty.now ≡ (directed_shape links.now).procedures }
    requires reached { AreExactly (Reached (directed_shape links.now)) reached.now }
    requires none { (x : ℕ) → IsFlagged flags.now x → ⊥ }
    requires clear { AreClear dirty.now }
    ensures { AreExactly (Entered (directed_shape links.now)) flags.new }
{
    // Their contracts tell what a shape's edges are, and that there are few procedures.
    let _ = links.points();
    let _ = links.procedures();
    enter_procedure(links, reached, flags, dirty, links.root());
    'visits: while let Some(procedure) = dirty.take() {
        if flags[procedure] {
            visit_procedure(links, reached, flags, dirty, procedure as u32);
        }
    }
}
