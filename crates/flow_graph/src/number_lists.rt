// Tables of lists of numbers.

ghost use Rattle.std.specs.Prelude.{◌≡◌, ◌<◌, [], length, IfOk, OnOk};
ghost use Rattle.flow_graph.specs.code.NumberLists.{AreLists, contents, with_last};

use crate::OutOfMemory;
use smallvec::SmallVec;
use std::alloc::Global;

/// A list of numbers; a short one takes no block of its own.
pub type NumberList = SmallVec<u32, 4, Global>;

/// So many empty lists.
pub fn empty_lists(alloc: Global, count: usize) -> Result<Vec<NumberList>, OutOfMemory>
    ensures { IfOk result (λ lists. AreLists (contents lists.items) count (λ _. [])) }
{
    let mut lists = Vec::with_capacity(alloc, count)?;
    for _ in 0..count {
        lists.push(NumberList::new(alloc))?;
    }
    Ok(lists)
}

/// Puts a number last in the list of an index.
pub fn put_last(lists: &mut Vec<NumberList>, index: u32, number: u32) -> Result<(), OutOfMemory>
    requires { index < length (contents lists.old.items) }
    ensures { OnOk result (contents lists.new.items ≡ with_last (contents lists.old.items) index number) }
{
    let list = &mut lists[index as usize];
    list.push(number)?;
    Ok(())
}
