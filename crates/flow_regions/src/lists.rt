// Values by key.
ghost use Rattle.std.specs.Prelude.{◌≡◌, ◌+◌, ◌-◌, ◌<◌, ◌^◌, ℕ, IfOk, OnOk, length, slice_index};
ghost use Rattle.flow_regions.specs.code.Lists.{AreLists, AreLow, ArePairs, Has, IsPair};

use crate::OutOfMemory;
use std::alloc::Global;
use worklist::{Groups, group};

/// Values by key, side by side in one block: those of key `k` are `values[starts[k]..starts[k + 1]]`.
#[derive(Drop)]
pub struct Lists {
    pub starts: Vec<u32>,
    pub values: Vec<u32>,
}

// The values at these places.
fn values_at(alloc: Global, values: &[u32], places: &[u32]) -> Result<Vec<u32>, OutOfMemory>
    requires { (j : ℕ) → j < length places.now → slice_index places.now j < length values.now }
    ensures count { IfOk result (λ listed. length listed.items ≡ length places.now) }
    ensures each { IfOk result (λ listed. (j : ℕ) → j < length places.now
        → slice_index listed.items j ≡ slice_index values.now (slice_index places.now j)) }
{
    let mut listed = Vec::with_capacity(alloc, places.len())?;
    for place in places {
        listed.push(values[*place as usize])?;
    }
    Ok(listed)
}

/// The values of pairs by their keys, of which there are so many. Fails only where memory runs out.
pub fn lists_of(
    alloc: Global,
    keys: &[u32],
    values: &[u32],
    count: u32,
) -> Result<Lists, OutOfMemory>
    requires same { length values.now ≡ length keys.now }
    requires low { AreLow count keys.now }
    requires few { length keys.now < 2 ^ 32 }
    ensures lists { IfOk result (AreLists count) }
    ensures count { IfOk result (λ lists. length lists.values.items ≡ length values.now) }
    ensures low { IfOk result (λ lists. (limit : ℕ) → AreLow limit values.now → AreLow limit lists.values.items) }
    ensures has { IfOk result (λ lists. (i : ℕ) → i < length keys.now → Has lists (slice_index keys.now i) (slice_index values.now i)) }
{
    let groups = group(alloc, keys, count)?;
    let values = values_at(alloc, values, groups.places.as_slice())?;
    let Groups { starts, places: _ } = groups;
    Ok(Lists { starts, values })
}

impl Lists {
    /// The values of a key.
    pub fn of(&self, key: u32) -> &[u32]
        requires lists { AreLists (length self.now.starts.items - 1) self.now }
        requires key { key + 1 < length self.now.starts.items }
        ensures count { length result.now + slice_index self.now.starts.items key ≡ slice_index self.now.starts.items (key + 1) }
        ensures low { (limit : ℕ) → AreLow limit self.now.values.items → AreLow limit result.now }
        ensures has { (value : ℕ) → Has self.now key value → (j : ℕ) × (j < length result.now) × (slice_index result.now j ≡ value) }
    {
        let from = self.starts[key as usize];
        let until = self.starts[key as usize + 1];
        &self.values[from as usize..until as usize]
    }
}

/// Puts a pair behind others. Fails only where memory runs out.
pub fn put_pair(
    keys: &mut Vec<u32>,
    values: &mut Vec<u32>,
    key: u32,
    value: u32,
) -> Result<(), OutOfMemory>
    requires { length values.old.items ≡ length keys.old.items }
    ensures pairs { OnOk result ((count limit : ℕ) → ArePairs count limit keys.old.items values.old.items → key < count → value < limit
        → ArePairs count limit keys.new.items values.new.items) }
    ensures same { OnOk result (length values.new.items ≡ length keys.new.items) }
    ensures more { OnOk result (length keys.new.items ≡ length keys.old.items + 1) }
    ensures here { OnOk result (IsPair keys.new.items values.new.items (length keys.new.items) key value) }
    ensures kept { OnOk result ((k v : ℕ) → IsPair keys.old.items values.old.items (length keys.old.items) k v
        → IsPair keys.new.items values.new.items (length keys.new.items) k v) }
{
    keys.push(key)?;
    values.push(value)?;
    Ok(())
}
