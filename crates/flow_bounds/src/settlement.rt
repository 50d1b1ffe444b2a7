// What bounds tell of bits that are asked.
ghost use Rattle.std.specs.Prelude.{◌≡◌, ℕ, ◌*◌, ◌<◌, ◌≤◌, ◌^◌, IfOk, OnOk, length};
ghost use Rattle.flow_graph.specs.Analyses.{is_backward};
ghost use Rattle.flow_graph.specs.Points.{point_count};
ghost use Rattle.gen_kill.specs.Selections.{column_count};
ghost use Rattle.flow_bounds.specs.Asked.{AreAsksOf, AreToldOf};
ghost use Rattle.flow_regions.specs.code.Lists.{AreLow};
ghost use Rattle.flow_bounds.specs.code.Shared.{IsAsking, direction_of};

use crate::OutOfMemory;
use crate::answers::Asking;
use crate::asked::{Ask, Told};
use crate::columns::{by_column, in_order};
use crate::settling::{Room, Work, tell_columns};
use crate::shared::{Shared, base_of};
use crate::sparing::settled_count;
use flow_regions::{Wanted, allowance, are_marked, marked_count, solving};
use gen_kill::Problem;
use gk_solve::Routes;
use std::alloc::Global;

// The columns of a group of 64.
fn group_at(columns: &[u32], number: usize) -> &[u32]
    requires { 64 * number < length columns.now }
    ensures few { length result.now ≤ 64 }
    ensures low { (limit : ℕ) → AreLow limit columns.now → AreLow limit result.now }
{
    let from = 64 * number;
    let until = (from + 64).min(columns.len());
    &columns[from..until]
}

// Puts what is told of all bits that are asked, as far as bounds are made.
fn tell_all(alloc: Global, asking: Asking<'_, '_, '_>, told: &mut [Told]) -> Result<(), OutOfMemory>
    requires asking { IsAsking asking }
    requires before { AreToldOf asking.shared.problem.now asking.asks.now told.old }
    ensures { OnOk result (AreToldOf asking.entry.shared.problem.now asking.entry.asks.now told.new) }
{
    let columns = in_order(alloc, asking)?;
    let points = asking.shared.links.points();
    let mut room = Room {
        places: vec![in alloc; 0u32; points as usize]?,
        work: Work {
            rules: Vec::new(alloc),
            wanted: Wanted::none(alloc, asking.shared.links)?,
            left: allowance(points, marked_count(asking.shared.base.marked.as_slice())),
        },
    };
    for number in 0..columns.len().div_ceil(64) {
        if room.work.left == 0 {
            return Ok(());
        }
        let group = group_at(columns.as_slice(), number);
        if !are_marked(asking.shared.base.marked.as_slice(), group) {
            return Ok(());
        }
        tell_columns(alloc, asking, group, &mut room, &mut *told)?;
        let settled = settled_count(asking, group, &*told);
        room.work.left = room.work.left.saturating_add(solving(points, settled));
    }
    Ok(())
}

/// What bounds tell of bits that are asked of a problem: what is told is true, and of some bits nothing is told.
///
/// The columns of a problem are taken 64 at a time. Of each the procedures that touch one of them are looked at, and all others are taken as one:
/// from above as if each way through them were open, from below by paths that are known. Where it takes more than a fifth of the work of solving
/// all bits, by its own count and beside what it spares, it is given up. The conditions: routes and bits are the problem's, and there are
/// fewer than 2^32 bits. Fails only where memory runs out.
pub fn settle<'x>(
    alloc: Global,
    problem: &'x Problem<'_, '_>,
    routes: &'x Routes,
    asks: &'x [Ask],
) -> Result<Vec<Told>, OutOfMemory>
    requires routes { routes.now ≡ direction_of problem.now }
    requires asks { AreAsksOf problem.now asks.now }
    requires few { length asks.now < 2 ^ 32 }
    ensures { IfOk result (λ told. AreToldOf problem.now asks.now told.items) }
{
    let mut told = vec![in alloc; Told::Nothing; asks.len()]?;
    let links = routes.links();
    let Some(base) = base_of(alloc, problem, links, asks)? else {
        return Ok(told);
    };
    let by_column = by_column(alloc, problem, asks)?;
    let shared = Shared {
        problem,
        links,
        paths: routes.paths(),
        base: &base,
    };
    let asking = Asking {
        shared,
        asks,
        by_column: &by_column,
    };
    tell_all(alloc, asking, told.as_mut_slice())?;
    Ok(told)
}
