//! The turns of each call.
ghost use Rattle.std.specs.Prelude.{◌≤◌, length};
ghost use Rattle.ff_types.specs.Drawings.{IsDrawing};
ghost use Rattle.ff_types.specs.Sides.{AreFaces};

use crate::reading::pattern_of;
use crate::telling::{tell, tell_no, tell_time};
use anyhow::Result;
use ff_planar::faces;
use ff_reflect::fold;
use ff_types::{Faces, Pattern};
use std::alloc::Global;
use std::io::{Eprint, Print};
use std::rt::Clock;
use std::time::Instant;

// How often each call is timed.
const TURNS: u32 = 9;

fn time_fold(
    rt: &(impl Clock + Print + Eprint),
    alloc: Global,
    pattern: &Pattern,
    faces: &Faces,
) -> Result<()>
    requires drawing { IsDrawing pattern.now.points pattern.now.edges }
    requires faces { AreFaces pattern.now.points pattern.now.edges pattern.now.marks faces.now.rings faces.now.sides faces.now.marks }
{
    let start = Instant::now(rt)?;
    let folded = fold(alloc, pattern, faces);
    tell_time(rt, "fold", start.elapsed(rt)?.as_micros())?;
    match folded {
        Ok(folded) => tell(rt, "fold scale", folded.scale),
        Err(no) => tell_no(rt, "fold", no),
    }
}

fn time_faces(rt: &(impl Clock + Print + Eprint), alloc: Global, pattern: &Pattern) -> Result<()>
    requires some { 1 ≤ length pattern.now.points }
{
    let start = Instant::now(rt)?;
    let found = faces(alloc, pattern);
    tell_time(rt, "faces", start.elapsed(rt)?.as_micros())?;
    match found {
        Ok(faces) => {
            tell(rt, "faces", faces.rings.as_slice().len())?;
            time_fold(rt, alloc, pattern, &faces)
        }
        Err(no) => tell_no(rt, "faces", no),
    }
}

/// Times the faces of the pattern that the bytes spell, and their folding.
pub fn time(rt: &(impl Clock + Print + Eprint), alloc: Global, bytes: &[u8]) -> Result<()> {
    if let Some(pattern) = pattern_of(rt, alloc, bytes)? {
        for _ in 0..TURNS {
            time_faces(rt, alloc, &pattern)?;
        }
    }
    Ok(())
}
