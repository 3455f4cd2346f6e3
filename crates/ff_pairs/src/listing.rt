//! The pairs of a table of flags, in order.
ghost use Rattle.std.specs.Prelude.{◌*◌, ◌+◌, ◌≡◌, ◌<◌, ◌≤◌, length, IfOk, OnOk};
ghost use Rattle.ff_types.specs.declared.limits.TheConstants.{MOST_FACES as most_faces};
ghost use Rattle.ff_pairs.specs.Tables.{IsReach, IsListedTo};

use ff_tables::NoMemory;
use std::alloc::{AllocError, Global};

// Appends the pairs of the face's row.
fn list_row(
    list: &mut Vec<(u32, u32)>,
    table: &[bool],
    reach: &[u32],
    width: usize,
    f: u32,
) -> Result<(), AllocError>
    requires few { width ≤ most_faces }
    requires size { length table.now ≡ width * width }
    requires reach { IsReach width table.now reach.now }
    requires within { f < width }
    requires listed { IsListedTo width table.now f 0 list.old.items }
    ensures { OnOk result (IsListedTo width table.now (f + 1) 0 list.new.items) }
{
    let row = f as usize * width;
    for h in f + 1..reach[f as usize] {
        if table[row + h as usize] {
            list.push((f, h))?;
        }
    }
    Ok(())
}

/// The pairs of faces that are marked in the table, in order.
pub fn list_rows(
    alloc: Global,
    table: &[bool],
    reach: &[u32],
    width: usize,
) -> Result<Vec<(u32, u32)>, NoMemory>
    requires few { width ≤ most_faces }
    requires size { length table.now ≡ width * width }
    requires reach { IsReach width table.now reach.now }
    ensures { IfOk result (λ list. IsListedTo width table.now width 0 list.items) }
{
    let mut list = Vec::new(alloc);
    for f in 0..width as u32 {
        list_row(&mut list, table, reach, width, f)?;
    }
    Ok(list)
}
