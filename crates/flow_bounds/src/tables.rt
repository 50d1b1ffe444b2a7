// Tables that all groups of a problem share.
ghost use Rattle.std.specs.Prelude.{◌≡◌, ◌<◌, ◌-◌, ◌^◌, ℕ, true, false, IfOk, length, slice_index, slice_index_or};
ghost use Rattle.flow_bounds.specs.code.Groups.{AreTables};

use crate::OutOfMemory;
use crate::group::Tables;
use flow_links::Links;
use std::alloc::Global;

// So many words with all bits.
fn full_words(alloc: Global, count: u32) -> Result<Vec<u64>, OutOfMemory>
    ensures count { IfOk result (λ words. length words.items ≡ count) }
    ensures each { IfOk result (λ words. (k : ℕ) → k < count → slice_index words.items k ≡ 2 ^ 64 - 1) }
{
    let words = vec![in alloc; u64::MAX; count as usize]?;
    Ok(words)
}

/// So many words without a bit. Fails only where memory runs out.
pub(crate) fn blank_words(alloc: Global, count: u32) -> Result<Vec<u64>, OutOfMemory>
    ensures count { IfOk result (λ words. length words.items ≡ count) }
    ensures each { IfOk result (λ words. (k : ℕ) → slice_index words.items k ≡ 0) }
{
    let words = vec![in alloc; 0u64; count as usize]?;
    Ok(words)
}

/// So many times no. Fails only where memory runs out.
pub(crate) fn blank_marks(alloc: Global, count: u32) -> Result<Vec<bool>, OutOfMemory>
    ensures count { IfOk result (λ marks. length marks.items ≡ count) }
    ensures each { IfOk result (λ marks. (k : ℕ) → slice_index_or marks.items k false ≡ false) }
{
    let marks = vec![in alloc; false; count as usize]?;
    Ok(marks)
}

// So many times yes.
fn full_marks(alloc: Global, count: u32) -> Result<Vec<bool>, OutOfMemory>
    ensures count { IfOk result (λ marks. length marks.items ≡ count) }
    ensures each { IfOk result (λ marks. (k : ℕ) → k < count → slice_index_or marks.items k false ≡ true) }
{
    let marks = vec![in alloc; true; count as usize]?;
    Ok(marks)
}

/// The tables of these edges. Fails only where memory runs out.
pub(crate) fn tables(alloc: Global, links: &Links) -> Result<Tables, OutOfMemory>
    ensures { IfOk result (AreTables links.now) }
{
    let procedures = links.procedures();
    let all = full_words(alloc, procedures)?;
    let none = blank_words(alloc, procedures)?;
    let never = blank_marks(alloc, procedures)?;
    let everywhere = full_marks(alloc, links.points())?;
    Ok(Tables {
        all,
        none,
        never,
        everywhere,
    })
}
