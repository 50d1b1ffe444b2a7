// The frames of a group of columns.
ghost use Rattle.std.specs.Prelude.{◌≡◌, ◌||◌, ◌<◌, ◌≤◌, ◌^◌, ℕ, true, false, length, slice_index, slice_index_or};
ghost use Rattle.bit_rows.specs.Words.{has_bit};
ghost use Rattle.flow_graph.specs.Analyses.{is_backward};
ghost use Rattle.flow_graph.specs.Points.{point_count};
ghost use Rattle.flow_graph.specs.declared.edge.Edge.TheVariants.{Call};
ghost use Rattle.flow_graph.specs.Paths.{IsEdge};
ghost use Rattle.flow_links.specs.Shapes.{directed_shape};
ghost use Rattle.gen_kill.specs.Selections.{Selection};
ghost use Rattle.flow_bounds.specs.code.Groups.{AreAbove, AreBelow, AreExact, AreTables, IsGroup, IsKnown};

use crate::frame::Frame;
use flow_links::Links;
use gen_kill::Problem;

/// Tables that all groups of a problem share.
pub(crate) struct Tables {
    /// By procedure all bits, and none.
    pub all: Vec<u64>,
    pub none: Vec<u64>,
    /// By procedure false, and by point true.
    pub never: Vec<bool>,
    pub everywhere: Vec<bool>,
}

impl Drop for Tables {
    // By hand: who gives it up then makes one call.
    fn drop(self) {
        let Tables {
            all: _,
            none: _,
            never: _,
            everywhere: _,
        } = self;
    }
}

/// A group of columns, and the procedures that are inside.
#[derive(Drop)]
pub(crate) struct Group<'a> {
    /// The columns, 64 at most.
    pub columns: &'a [u32],
    pub inside: &'a [bool],
    pub points: &'a [u32],
    pub places: &'a [u32],
    pub gens: &'a [u64],
    pub kills: &'a [u64],
    pub boundary: u64,
    pub leads: &'a [bool],
    pub called: &'a [bool],
}

/// The frame by which the bits of a group are bounded from above.
pub(crate) fn above<'a>(
    problem: &Problem<'_, '_>,
    links: &'a Links,
    group: &Group<'a>,
    tables: &'a Tables,
) -> Frame<'a>
    requires linked { links.now ≡ record { program = problem.now.program; backward = is_backward problem.now.analysis } }
    requires group { IsGroup problem.now links.now group.now }
    requires tables { AreTables links.now tables.now }
    ensures linked { result.links.now ≡ links.now }
    ensures above { AreAbove problem.now group.now.columns.now result }
    ensures exact { AreExact problem.now group.now.columns.now result }
{
    // Its contract tells that there are few points, and that the edges fit together.
    let _ = links.points();
    let _ = links.procedures();
    Frame {
        links,
        inside: group.inside,
        points: group.points,
        places: group.places,
        gens: group.gens,
        kills: group.kills,
        boundary: group.boundary,
        through: tables.all.as_slice(),
        leads: group.leads,
        hung: tables.none.as_slice(),
        taken: tables.everywhere.as_slice(),
        called: group.called,
        joined: true,
    }
}

/// What is known of valid paths: to which points some lead, and by procedure the bits that its calls preserve, and those that are brought to
/// it.
#[derive(Clone, Copy)]
pub(crate) struct Known<'a> {
    pub paths: &'a [bool],
    pub through: &'a [u64],
    pub hung: &'a [u64],
}

/// The frame by which the bits of a group are bounded from below.
pub(crate) fn below<'a>(
    problem: &Problem<'_, '_>,
    links: &'a Links,
    group: &Group<'a>,
    tables: &'a Tables,
    known: Known<'a>,
) -> Frame<'a>
    requires linked { links.now ≡ record { program = problem.now.program; backward = is_backward problem.now.analysis } }
    requires group { IsGroup problem.now links.now group.now }
    requires tables { AreTables links.now tables.now }
    requires known { IsKnown problem.now links.now group.now.columns.now known }
    ensures linked { result.links.now ≡ links.now }
    ensures below { AreBelow problem.now group.now.columns.now result }
{
    // Its contract tells that there are few points, and that the edges fit together.
    let _ = links.points();
    let _ = links.procedures();
    Frame {
        links,
        inside: group.inside,
        points: group.points,
        places: group.places,
        gens: group.gens,
        kills: group.kills,
        boundary: group.boundary,
        through: known.through,
        leads: tables.never.as_slice(),
        hung: known.hung,
        taken: known.paths,
        called: tables.never.as_slice(),
        joined: false,
    }
}
