// Sets of numbers, side by side in one list.
ghost use Rattle.std.specs.Prelude.{◌≡◌, ℕ, ◌<◌, ◌≤◌, List, true, length, IfOk, OnOk};
ghost use Rattle.busy_bounds.specs.code.Sets.{Grows, IsAmong, IsIn, IsThere, Joins};
ghost use Rattle.busy_bounds.specs.declared.bound.Bound.TheVariants.{Among};

use crate::OutOfMemory;
use crate::bound::Bound;

// A set has so many numbers at most: a larger one is not kept.
const MOST: usize = 32;

/// The set that has none.
pub(crate) const EMPTY: Bound = Bound::Among { from: 0, until: 0 };

/// Whether a number stands at one of these places.
pub(crate) fn is_among(items: &[u32], from: usize, until: usize, number: u32) -> bool
    requires { until ≤ length items.now }
    ensures { result ≡ true → IsAmong items.now from until number }
{
    for place in from..until {
        if items[place] == number {
            return true;
        }
    }
    false
}

/// The set of all numbers from a place on; unknown where they are too many.
pub(crate) fn set_from(items: &[u32], from: usize) -> Bound
    requires { from ≤ length items.now }
    ensures there { IsThere items.now result }
    ensures has { (number : ℕ) → IsAmong items.now from (length items.now) number → IsIn items.now result number }
{
    let until = items.len();
    if until - from > MOST || until > u32::MAX as usize {
        return Bound::Unknown;
    }
    Bound::Among {
        from: from as u32,
        until: until as u32,
    }
}

// Puts a number last, unless it stands from a place on already.
pub(crate) fn put_once(items: &mut Vec<u32>, start: usize, number: u32) -> Result<(), OutOfMemory>
    requires { start ≤ length items.old.items }
    ensures grows { OnOk result (Grows items.old.items items.new.items) }
    ensures has { OnOk result (IsAmong items.new.items start (length items.new.items) number) }
{
    let end = items.len();
    if is_among(items.as_slice(), start, end, number) {
        return Ok(());
    }
    items.push(number)?;
    Ok(())
}

// Puts the numbers of some places last, unless they stand from a place on already.
fn put_all(items: &mut Vec<u32>, start: usize, from: u32, until: u32) -> Result<(), OutOfMemory>
    requires start { start ≤ length items.old.items }
    requires there { until ≤ length items.old.items }
    ensures grows { OnOk result (Grows items.old.items items.new.items) }
    ensures has { OnOk result ((number : ℕ) → IsAmong items.old.items from until number → IsAmong items.new.items start (length items.new.items) number) }
{
    for place in from..until {
        let number = items[place as usize];
        put_once(&mut *items, start, number)?;
    }
    Ok(())
}

// Whether a set is known to have no number.
fn is_empty(bound: Bound) -> bool
    ensures { (items : List ℕ) (number : ℕ) → result ≡ true → IsIn items bound number → ⊥ }
{
    match bound {
        Bound::Unknown => false,
        Bound::Among { from, until } => from >= until,
    }
}

// The numbers of some places and of a set in one.
fn joined_places(
    items: &mut Vec<u32>,
    from: u32,
    until: u32,
    other: Bound,
) -> Result<Bound, OutOfMemory>
    requires there { until ≤ length items.old.items }
    requires other { IsThere items.old.items other }
    ensures grows { OnOk result (Grows items.old.items items.new.items) }
    ensures joins { IfOk result (Joins items.old.items items.new.items (Among from until) other) }
{
    match other {
        Bound::Unknown => Ok(Bound::Unknown),
        Bound::Among {
            from: start,
            until: end,
        } => {
            let behind = items.len();
            put_all(&mut *items, behind, from, until)?;
            put_all(&mut *items, behind, start, end)?;
            Ok(set_from(items.as_slice(), behind))
        }
    }
}

/// The numbers of two sets in one. Fails only where memory runs out.
pub(crate) fn joined(
    items: &mut Vec<u32>,
    first: Bound,
    second: Bound,
) -> Result<Bound, OutOfMemory>
    requires first { IsThere items.old.items first }
    requires second { IsThere items.old.items second }
    ensures grows { OnOk result (Grows items.old.items items.new.items) }
    ensures joins { IfOk result (Joins items.old.items items.new.items first second) }
{
    if is_empty(first) {
        return Ok(second);
    }
    if is_empty(second) {
        return Ok(first);
    }
    match first {
        Bound::Unknown => Ok(Bound::Unknown),
        Bound::Among { from, until } => joined_places(items, from, until, second),
    }
}
