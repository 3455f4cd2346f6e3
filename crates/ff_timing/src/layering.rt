//! The stages from a pattern to its constraints.
ghost use Rattle.std.specs.Prelude.{◌≤◌, length};
ghost use Rattle.std.specs.List.{All};
ghost use Rattle.ff_types.specs.FoldedPatterns.{IsFoldedPattern};
ghost use Rattle.ff_cells.specs.FaceSets.{IsFaceList};

use crate::reading::pattern_of;
use crate::telling::{tell, tell_no, tell_time};
use anyhow::Result;
use ff_cells::{Cell, cells};
use ff_edges::{edge_faces, edge_pairs};
use ff_pairs::pairs;
use ff_problem::problem;
use ff_tables::Items;
use ff_types::{Faces, Folded, Pattern};
use std::alloc::Global;
use std::io::{Eprint, Print};
use std::rt::Clock;
use std::time::Instant;

fn time_pairs(rt: &(impl Clock + Print + Eprint), alloc: Global, cells: &Items<Cell>) -> Result<()>
    requires { All IsFaceList cells.now }
{
    let start = Instant::now(rt)?;
    let found = pairs(alloc, cells);
    tell_time(rt, "pairs", start.elapsed(rt)?.as_micros())?;
    match found {
        Ok(pairs) => tell(rt, "pairs", pairs.count()),
        Err(no) => tell_no(rt, "pairs", no),
    }
}

fn time_cells(
    rt: &(impl Clock + Print + Eprint),
    alloc: Global,
    pattern: &Pattern,
    faces: &Faces,
    folded: &Folded,
) -> Result<()>
    requires { IsFoldedPattern pattern.now faces.now folded.now }
{
    let _ = pattern;
    let start = Instant::now(rt)?;
    let found = cells(alloc, faces, folded);
    tell_time(rt, "cells", start.elapsed(rt)?.as_micros())?;
    match found {
        Ok(found) => {
            tell(rt, "cells", found.as_slice().len())?;
            time_pairs(rt, alloc, &found)
        },
        Err(no) => tell_no(rt, "cells", no),
    }
}

fn time_edge_pairs(
    rt: &(impl Clock + Print + Eprint),
    alloc: Global,
    pattern: &Pattern,
    faces: &Faces,
    folded: &Folded,
) -> Result<()>
    requires { IsFoldedPattern pattern.now faces.now folded.now }
{
    let start = Instant::now(rt)?;
    let found = edge_pairs(alloc, pattern, faces, folded);
    tell_time(rt, "edge_pairs", start.elapsed(rt)?.as_micros())?;
    match found {
        Ok(found) => tell(rt, "edge pairs", found.as_slice().len()),
        Err(no) => tell_no(rt, "edge_pairs", no),
    }
}

fn time_edge_faces(
    rt: &(impl Clock + Print + Eprint),
    alloc: Global,
    pattern: &Pattern,
    faces: &Faces,
    folded: &Folded,
) -> Result<()>
    requires { IsFoldedPattern pattern.now faces.now folded.now }
{
    let start = Instant::now(rt)?;
    let found = edge_faces(alloc, pattern, faces, folded);
    tell_time(rt, "edge_faces", start.elapsed(rt)?.as_micros())?;
    match found {
        Ok(found) => tell(rt, "edge faces", found.as_slice().len()),
        Err(no) => tell_no(rt, "edge_faces", no),
    }
}

fn time_stages(rt: &(impl Clock + Print + Eprint), alloc: Global, pattern: &Pattern) -> Result<()>
    requires some { 1 ≤ length pattern.now.points }
{
    let start = Instant::now(rt)?;
    let found = problem(alloc, pattern);
    tell_time(rt, "problem", start.elapsed(rt)?.as_micros())?;
    match found {
        Ok(found) => {
            tell(rt, "constraints", found.case.cites.as_slice().len())?;
            time_cells(rt, alloc, pattern, &found.faces, &found.folded)?;
            time_edge_pairs(rt, alloc, pattern, &found.faces, &found.folded)?;
            time_edge_faces(rt, alloc, pattern, &found.faces, &found.folded)
        }
        Err(no) => tell_no(rt, "problem", no),
    }
}

/// Times each stage of the pattern that the bytes spell.
pub fn time(rt: &(impl Clock + Print + Eprint), alloc: Global, bytes: &[u8]) -> Result<()> {
    match pattern_of(rt, alloc, bytes)? {
        Some(pattern) => time_stages(rt, alloc, &pattern),
        None => Ok(()),
    }
}
