//! Copies of lists of lists.
ghost use Rattle.std.specs.Prelude.{◌≡◌, IfOk};

use ff_tables::{Items, NoMemory};
use std::alloc::Global;

/// An equal list of lists.
pub(crate) fn copy_lists<T: Copy>(
    alloc: Global,
    lists: &Items<Items<T>>,
) -> Result<Items<Items<T>>, NoMemory>
    ensures { IfOk result (λ copied. copied ≡ lists.now) }
{
    let list = lists.as_slice();
    let mut copied = Vec::with_capacity(alloc, list.len())?;
    for i in 0..list.len() {
        copied.push_reserved(list[i].copy(alloc)?);
    }
    Ok(Items::of(copied))
}
