// Which points touch a column: those where its bit may be generated or killed.
ghost use Rattle.std.specs.Prelude.{◌≡◌, ◌+◌, ◌<◌, ℕ, true, IfOk, IfSome, OnOk, length, slice_index};
ghost use Rattle.flow_graph.specs.Points.{point_count};
ghost use Rattle.gen_kill.specs.Selections.{column_count};
ghost use Rattle.gen_kill.specs.code.Effects.{marks};
ghost use Rattle.flow_regions.specs.code.Lists.{AreListsOf, AreLow, ArePairs, IsPair};
ghost use Rattle.flow_regions.specs.code.Touches.{AreDependentTo, AreDependents, AreTouchedTo, AreTouches, KeepsPairs};

use crate::OutOfMemory;
use crate::lists::{Lists, lists_of, put_pair};
use crate::search::is_marked;
use gen_kill::Problem;
use std::alloc::Global;

/// Pairs of keys and values.
#[derive(Drop)]
pub struct Pairs {
    pub keys: Vec<u32>,
    pub values: Vec<u32>,
}

// So many pairs there are at most for each point. What has more is given up.
const MOST: usize = 16;

// Puts a pair, if there is a key below a limit.
fn put_if(pairs: &mut Pairs, key: Option<u32>, count: u32, value: u32) -> Result<(), OutOfMemory>
    requires { length pairs.old.values.items ≡ length pairs.old.keys.items }
    ensures same { OnOk result (length pairs.new.values.items ≡ length pairs.new.keys.items) }
    ensures pairs { OnOk result ((limit : ℕ) → ArePairs count limit pairs.old.keys.items pairs.old.values.items → value < limit
        → ArePairs count limit pairs.new.keys.items pairs.new.values.items) }
    ensures here { OnOk result ((k : ℕ) → k < count → marks key k ≡ true
        → IsPair pairs.new.keys.items pairs.new.values.items (length pairs.new.keys.items) k value) }
    ensures kept { OnOk result (KeepsPairs pairs.old.keys.items pairs.old.values.items pairs.new.keys.items pairs.new.values.items) }
{
    match key {
        None => Ok(()),
        Some(key) => {
            if key >= count {
                return Ok(());
            }
            put_pair(&mut pairs.keys, &mut pairs.values, key, value)
        },
    }
}

// The values of pairs by their keys; None where there are too many.
fn lists_if_few(alloc: Global, pairs: &Pairs, count: u32) -> Result<Option<Lists>, OutOfMemory>
    requires same { length pairs.now.values.items ≡ length pairs.now.keys.items }
    requires low { AreLow count pairs.now.keys.items }
    ensures { IfOk result (λ found. IfSome found (AreListsOf count pairs.now.keys.items pairs.now.values.items)) }
{
    if pairs.keys.len() >= 1 << 32 {
        return Ok(None);
    }
    let lists = lists_of(alloc, pairs.keys.as_slice(), pairs.values.as_slice(), count)?;
    Ok(Some(lists))
}

// Puts the pairs of a column and the variables that it depends on, if it is marked.
fn put_dependent(
    problem: &Problem<'_, '_>,
    marked: &[bool],
    pairs: &mut Pairs,
    column: u32,
) -> Result<(), OutOfMemory>
    requires column { column < column_count problem.now }
    requires before { AreDependentTo problem.now marked.now column pairs.old.keys.items pairs.old.values.items }
    ensures { OnOk result (AreDependentTo problem.now marked.now (column + 1) pairs.new.keys.items pairs.new.values.items) }
{
    if !is_marked(marked, column) {
        return Ok(());
    }
    let variables = problem.variables();
    let (first, second) = problem.variables_of(column);
    put_if(pairs, first, variables, column)?;
    put_if(pairs, second, variables, column)?;
    Ok(())
}

// By variable the marked columns that depend on it.
fn dependents(
    alloc: Global,
    problem: &Problem<'_, '_>,
    marked: &[bool],
) -> Result<Option<Lists>, OutOfMemory>
    ensures { IfOk result (λ found. IfSome found (AreDependents problem.now marked.now)) }
{
    let variables = problem.variables();
    let mut pairs = Pairs {
        keys: Vec::new(alloc),
        values: Vec::new(alloc),
    };
    for column in 0..problem.bits() {
        put_dependent(problem, marked, &mut pairs, column)?;
    }
    lists_if_few(alloc, &pairs, variables)
}

// Puts pairs of columns and a point.
fn put_columns(
    pairs: &mut Pairs,
    columns: &[u32],
    count: u32,
    point: u32,
) -> Result<(), OutOfMemory>
    requires { length pairs.old.values.items ≡ length pairs.old.keys.items }
    ensures same { OnOk result (length pairs.new.values.items ≡ length pairs.new.keys.items) }
    ensures pairs { OnOk result ((limit : ℕ) → ArePairs count limit pairs.old.keys.items pairs.old.values.items → point < limit
        → ArePairs count limit pairs.new.keys.items pairs.new.values.items) }
    ensures here { OnOk result ((j : ℕ) → j < length columns.now → slice_index columns.now j < count
        → IsPair pairs.new.keys.items pairs.new.values.items (length pairs.new.keys.items) (slice_index columns.now j) point) }
    ensures kept { OnOk result (KeepsPairs pairs.old.keys.items pairs.old.values.items pairs.new.keys.items pairs.new.values.items) }
{
    for column in columns {
        put_if(pairs, Some(*column), count, point)?;
    }
    Ok(())
}

// Puts the pairs of a point.
fn put_point(
    problem: &Problem<'_, '_>,
    marked: &[bool],
    dependents: &Lists,
    pairs: &mut Pairs,
    point: u32,
) -> Result<(), OutOfMemory>
    requires point { point < point_count problem.now.program }
    requires dependents { AreDependents problem.now marked.now dependents.now }
    requires before { AreTouchedTo problem.now marked.now point pairs.old.keys.items pairs.old.values.items }
    ensures { OnOk result (AreTouchedTo problem.now marked.now (point + 1) pairs.new.keys.items pairs.new.values.items) }
{
    let _ = marked;
    let count = problem.bits();
    let effect = problem.touched(point);
    put_if(pairs, effect.first, count, point)?;
    put_if(pairs, effect.second, count, point)?;
    match effect.written {
        None => Ok(()),
        Some(variable) => put_columns(pairs, dependents.of(variable), count, point),
    }
}

// The pairs of all points; None where there are too many.
fn pairs_of(
    alloc: Global,
    problem: &Problem<'_, '_>,
    marked: &[bool],
    dependents: &Lists,
) -> Result<Option<Pairs>, OutOfMemory>
    requires { AreDependents problem.now marked.now dependents.now }
    ensures { IfOk result (λ found. IfSome found (λ pairs.
        AreTouchedTo problem.now marked.now (point_count problem.now.program) pairs.keys.items pairs.values.items)) }
{
    let points = problem.points();
    let mut pairs = Pairs {
        keys: Vec::new(alloc),
        values: Vec::new(alloc),
    };
    for point in 0..points {
        if pairs.keys.len() > MOST * points as usize {
            return Ok(None);
        }
        put_point(problem, marked, dependents, &mut pairs, point)?;
    }
    Ok(Some(pairs))
}

/// By column the points that touch it, of marked columns; None where there are too many. Fails only where memory runs out.
pub fn touches_of(
    alloc: Global,
    problem: &Problem<'_, '_>,
    marked: &[bool],
) -> Result<Option<Lists>, OutOfMemory>
    ensures { IfOk result (λ found. IfSome found (AreTouches problem.now marked.now)) }
{
    let dependents = match dependents(alloc, problem, marked)? {
        None => return Ok(None),
        Some(dependents) => dependents,
    };
    match pairs_of(alloc, problem, marked, &dependents)? {
        None => Ok(None),
        Some(pairs) => lists_if_few(alloc, &pairs, problem.bits()),
    }
}
