//! The variables of each part, and the constraints.
ghost use Rattle.std.specs.Prelude.{◌≡◌, ℕ, ◌+◌, ◌<◌, ◌≤◌, ◌^◌, ◌++◌, ◌∷◌, [], IfOk, List, length, map, replicate, slice_index, slice_index_or, slice_set};
ghost use Rattle.ff_basics.specs.NumberedLists.{lists_in};
ghost use Rattle.ff_parts.specs.Gathers.{Gathers, putting};

use ff_tables::NoMemory;
use std::alloc::Global;

// Empty lists.
fn empty_lists(alloc: Global, many: usize) -> Result<Vec<Vec<u32>>, NoMemory>
    ensures { IfOk result (λ lists. lists_in lists.items ≡ replicate many []) }
{
    let mut lists = Vec::with_capacity(alloc, many)?;
    for _k in 0..many {
        lists.push_reserved(Vec::new(alloc));
    }
    Ok(lists)
}

// Puts a number at the end of the list of its label.
fn put(lists: &mut [Vec<u32>], label: u32, number: u32) -> Result<(), NoMemory>
    requires { label ≤ length lists.old }
    ensures { IfOk result (λ _. lists_in lists.new ≡ putting label number (lists_in lists.old)) }
{
    if label == 0 {
        return Ok(());
    }
    let list = &mut lists[label as usize - 1];
    list.push(number)?;
    Ok(())
}

// Puts each number to the list of its label.
fn put_all(lists: &mut [Vec<u32>], labels: &[u32]) -> Result<(), NoMemory>
    requires few { length labels.now < 2 ^ 32 }
    requires within { (v : ℕ) → v < length labels.now → slice_index labels.now v ≤ length lists.old }
    requires empty { Gathers labels.now 0 (length lists.old) (lists_in lists.old) }
    ensures { IfOk result (λ _. Gathers labels.now (length labels.now) (length lists.old) (lists_in lists.new)) }
{
    for number in 0..labels.len() as u32 {
        put(lists, labels[number as usize], number)?;
    }
    Ok(())
}

/// For each of the parts the numbers that have its label, in increasing order.
pub(crate) fn gather(alloc: Global, labels: &[u32], many: usize) -> Result<Vec<Vec<u32>>, NoMemory>
    requires few { length labels.now < 2 ^ 32 }
    requires within { (v : ℕ) → v < length labels.now → slice_index labels.now v ≤ many }
    ensures { IfOk result (λ lists. Gathers labels.now (length labels.now) many (lists_in lists.items)) }
{
    let mut lists = empty_lists(alloc, many)?;
    put_all(lists.as_mut_slice(), labels)?;
    Ok(lists)
}
