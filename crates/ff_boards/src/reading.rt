//! The case that a file spells.
use anyhow::Result;
use ff_problem::problem;
use ff_read::read_fold;
use ff_types::{Case, MOST_BYTES, No};
use std::alloc::Global;

/// The case of the pattern that the bytes spell; None where they are too many, or spell a pattern with no vertex.
pub fn case_of_bytes(alloc: Global, bytes: &[u8]) -> Result<Option<Case>, No> {
    if bytes.len() > MOST_BYTES {
        return Ok(None);
    }
    let pattern = read_fold(alloc, bytes)?;
    if pattern.points.as_slice().len() == 0 {
        return Ok(None);
    }
    let found = problem(alloc, &pattern)?;
    Ok(Some(found.case))
}
