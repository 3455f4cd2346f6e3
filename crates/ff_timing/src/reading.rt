//! The pattern that a file spells.
ghost use Rattle.std.specs.Prelude.{◌≤◌, IfOk, IfSome, length};

use anyhow::Result;
use ff_read::read_fold;
use ff_types::{MOST_BYTES, Pattern};
use std::alloc::Global;
use std::io::Print;

/// The pattern, which has a vertex; None where the bytes are refused, and then why is told.
pub fn pattern_of(rt: &impl Print, alloc: Global, bytes: &[u8]) -> Result<Option<Pattern>>
    ensures { IfOk result (λ found. IfSome found (λ pattern. 1 ≤ length pattern.points)) }
{
    if bytes.len() > MOST_BYTES {
        return Ok(None);
    }
    match read_fold(alloc, bytes) {
        Ok(pattern) => {
            if pattern.points.as_slice().len() == 0 {
                return Ok(None);
            }
            Ok(Some(pattern))
        }
        Err(no) => {
            println!(rt; "{no}")?;
            Ok(None)
        }
    }
}
