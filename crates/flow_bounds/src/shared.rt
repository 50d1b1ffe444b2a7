// What all groups of a problem's columns share.
ghost use Rattle.std.specs.Prelude.{◌≡◌, ℕ, IfOk, IfSome};
ghost use Rattle.flow_graph.specs.Analyses.{is_backward};
ghost use Rattle.flow_bounds.specs.code.Groups.{ArePaths};
ghost use Rattle.flow_bounds.specs.code.Shared.{IsBase, IsShared};

use crate::OutOfMemory;
use crate::asked::Ask;
use crate::group::Tables;
use crate::tables::tables;
use flow_links::Links;
use flow_regions::{
    Found, Lists, are_local, are_many, find, points_by_procedure, ranks_of, set_mark, touches_of,
};
use gen_kill::Problem;
use std::alloc::Global;

/// What is made once for all groups of a problem: by column whether it is asked, and the points that touch it then, by procedure its points and
/// ranks, tables, and how points are reached.
pub(crate) struct Base {
    pub marked: Vec<bool>,
    pub touches: Lists,
    pub listed: Lists,
    pub ranks: Vec<u32>,
    pub tables: Tables,
    pub found: Found,
}

impl Drop for Base {
    // By hand: who gives it up then makes one call.
    fn drop(self) {
        let Base {
            marked: _,
            touches: _,
            listed: _,
            ranks: _,
            tables: _,
            found: _,
        } = self;
    }
}

/// A problem, its edges, the points to which some valid path leads, and what is made for all groups.
#[derive(Clone, Copy)]
pub(crate) struct Shared<'a, 'g, 'p> {
    pub problem: &'a Problem<'g, 'p>,
    pub links: &'a Links,
    pub paths: &'a [bool],
    pub base: &'a Base,
}

// By column whether its bit is asked somewhere.
fn marks_of(
    alloc: Global,
    problem: &Problem<'_, '_>,
    asks: &[Ask],
) -> Result<Vec<bool>, OutOfMemory> {
    let mut marked = vec![in alloc; false; problem.bits() as usize]?;
    for ask in asks {
        set_mark(marked.as_mut_slice(), ask.column);
    }
    Ok(marked)
}

/// What is made for all groups of a problem; None where it has few columns, or too many points or procedures touch them. Fails only where memory
/// runs out.
pub(crate) fn base_of(
    alloc: Global,
    problem: &Problem<'_, '_>,
    links: &Links,
    asks: &[Ask],
) -> Result<Option<Base>, OutOfMemory>
    requires linked { links.now ≡ record { program = problem.now.program; backward = is_backward problem.now.analysis } }
    ensures { IfOk result (λ found. IfSome found (IsBase problem.now links.now)) }
{
    let marked = marks_of(alloc, problem, asks)?;
    if !are_many(problem, marked.as_slice()) {
        return Ok(None);
    }
    if !are_local(alloc, problem, marked.as_slice())? {
        return Ok(None);
    }
    let Some(touches) = touches_of(alloc, problem, marked.as_slice())? else {
        return Ok(None);
    };
    let listed = points_by_procedure(alloc, links)?;
    let ranks = ranks_of(alloc, links)?;
    let tables = tables(alloc, links)?;
    let found = find(alloc, links)?;
    Ok(Some(Base {
        marked,
        touches,
        listed,
        ranks,
        tables,
        found,
    }))
}
