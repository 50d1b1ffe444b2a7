// In which order columns are put into groups. It bears on the time alone: columns of the same large procedure are best together.
ghost use Rattle.std.specs.Prelude.{◌≡◌, ◌+◌, ◌<◌, ◌≤◌, ◌^◌, IfOk, length};
ghost use Rattle.flow_links.specs.Shapes.{directed_shape};
ghost use Rattle.gen_kill.specs.Selections.{column_count};
ghost use Rattle.flow_bounds.specs.Asked.{AreAsksOf};
ghost use Rattle.flow_regions.specs.code.Lists.{AreLists, AreLow};
ghost use Rattle.flow_bounds.specs.code.Shared.{IsAsking};

use crate::OutOfMemory;
use crate::answers::Asking;
use crate::asked::Ask;
use flow_regions::{Lists, lists_of, numbers_below, size_of};
use gen_kill::Problem;
use std::alloc::Global;

// The columns of bits that are asked.
fn columns_of(
    alloc: Global,
    problem: &Problem<'_, '_>,
    asks: &[Ask],
) -> Result<Vec<u32>, OutOfMemory>
    requires asks { AreAsksOf problem.now asks.now }
    ensures count { IfOk result (λ columns. length columns.items ≡ length asks.now) }
    ensures low { IfOk result (λ columns. AreLow (column_count problem.now) columns.items) }
{
    let _ = problem;
    let mut columns = Vec::with_capacity(alloc, asks.len())?;
    for ask in asks {
        columns.push(ask.column)?;
    }
    Ok(columns)
}

/// The numbers of asks by their columns. Fails only where memory runs out.
pub(crate) fn by_column(
    alloc: Global,
    problem: &Problem<'_, '_>,
    asks: &[Ask],
) -> Result<Lists, OutOfMemory>
    requires asks { AreAsksOf problem.now asks.now }
    requires few { length asks.now < 2 ^ 32 }
    ensures { IfOk result (AreLists (column_count problem.now)) }
{
    let columns = columns_of(alloc, problem, asks)?;
    let numbers = numbers_below(alloc, asks.len() as u32)?;
    lists_of(
        alloc,
        columns.as_slice(),
        numbers.as_slice(),
        problem.bits(),
    )
}

// Of a procedure and that of a point the one with more points.
fn larger(asking: Asking<'_, '_, '_>, home: u32, point: u32) -> u32
    requires asking { IsAsking asking }
{
    let links = asking.shared.links;
    if point >= links.points() {
        return home;
    }
    let listed = &asking.shared.base.listed;
    let procedure = links.procedure_of(point);
    if size_of(links, listed, home) < size_of(links, listed, procedure) {
        procedure
    } else {
        home
    }
}

// The same for the point of a bit that is asked.
fn larger_asked(asking: Asking<'_, '_, '_>, home: u32, number: u32) -> u32
    requires asking { IsAsking asking }
{
    let number = number as usize;
    if number >= asking.asks.len() {
        return home;
    }
    larger(asking, home, asking.asks[number].point)
}

// The procedure with most points of those that touch a column, or where it is asked; the number of procedures, where there is none.
fn home(asking: Asking<'_, '_, '_>, column: u32) -> u32
    requires asking { IsAsking asking }
    requires low { column < column_count asking.shared.problem.now }
    ensures { result ≤ (directed_shape asking.entry.shared.links.now).procedures }
{
    let procedures = asking.shared.links.procedures();
    let mut home = procedures;
    let points = asking.shared.base.touches.of(column);
    for point in points {
        home = larger(asking, home, *point);
    }
    let numbers = asking.by_column.of(column);
    for number in numbers {
        home = larger_asked(asking, home, *number);
    }
    home.min(procedures)
}

// The columns that are asked, rising.
fn asked_columns(alloc: Global, asking: Asking<'_, '_, '_>) -> Result<Vec<u32>, OutOfMemory>
    requires asking { IsAsking asking }
    ensures low { IfOk result (λ columns. AreLow (column_count asking.entry.shared.problem.now) columns.items) }
    ensures few { IfOk result (λ columns. length columns.items ≤ column_count asking.entry.shared.problem.now) }
{
    let mut columns = Vec::new(alloc);
    for column in 0..asking.shared.problem.bits() {
        if !asking.by_column.of(column).is_empty() {
            columns.push(column)?;
        }
    }
    Ok(columns)
}

// The homes of columns.
fn homes(
    alloc: Global,
    asking: Asking<'_, '_, '_>,
    columns: &[u32],
) -> Result<Vec<u32>, OutOfMemory>
    requires asking { IsAsking asking }
    requires low { AreLow (column_count asking.shared.problem.now) columns.now }
    ensures count { IfOk result (λ homes. length homes.items ≡ length columns.now) }
    ensures low { IfOk result (λ homes. AreLow ((directed_shape asking.entry.shared.links.now).procedures + 1) homes.items) }
{
    let mut homes = Vec::with_capacity(alloc, columns.len())?;
    for column in columns {
        homes.push(home(asking, *column))?;
    }
    Ok(homes)
}

/// The columns that are asked, those side by side whose largest procedure is the same. Fails only where memory runs out.
pub(crate) fn in_order(alloc: Global, asking: Asking<'_, '_, '_>) -> Result<Vec<u32>, OutOfMemory>
    requires asking { IsAsking asking }
    ensures low { IfOk result (λ columns. AreLow (column_count asking.entry.shared.problem.now) columns.items) }
{
    // Its contract tells that there are few columns.
    let _ = asking.shared.problem.bits();
    let columns = asked_columns(alloc, asking)?;
    let homes = homes(alloc, asking, columns.as_slice())?;
    let procedures = asking.shared.links.procedures();
    let Lists { starts: _, values } = lists_of(
        alloc,
        homes.as_slice(),
        columns.as_slice(),
        procedures + 1,
    )?;
    Ok(values)
}
