//! Whether a log is accepted.
ghost use Rattle.std.specs.Prelude.{◌≡◌, ◌<◌, ◌^◌, IfOk, length};
ghost use Rattle.std.specs.List.{All};
ghost use Rattle.ff_types.specs.FoldedPatterns.{IsFoldedPattern};
ghost use Rattle.ff_types.specs.Sheets.{sheet_of};
ghost use Rattle.ff_log.specs.Logs.{HasSmallLine};
ghost use Rattle.ff_log.specs.Grounds.{sheet_ground};
ghost use Rattle.ff_checker.specs.LogLaws.{HasNoStacking};
ghost use Rattle.ff_checker.specs.Verdicts.{ArePinned, IsVerdict};
ghost use Rattle.ff_checker.specs.declared.verdicts.Verdict.TheVariants.{Accepted as accepted};

use crate::progress::Progress;
use crate::taking::take;
use crate::verdicts::{Verdict, WhyNot};
use ff_log::Log;
use ff_tables::{Items, NoMemory};
use ff_types::{Faces, Folded, MOST_FACES, Pattern, Pin};
use std::alloc::Global;

/// Whether the log is accepted for the folded sheet and the pins: each line is allowed, and the last one closes with no branch open.
/// Else the first line that isn't allowed, and why. Takes a step for each line, each place and each edge of the cited faces, and 4 MB.
///
/// Where it is accepted, no geometric stacking keeps the creases and the pins.
pub fn check(
    alloc: Global,
    pattern: &Pattern,
    faces: &Faces,
    folded: &Folded,
    pins: &Items<Pin>,
    log: &Log,
) -> Result<Verdict, NoMemory>
    requires folded { IsFoldedPattern pattern.now faces.now folded.now }
    requires pins { ArePinned pins.now }
    requires small { All HasSmallLine log.now.lines }
    requires few { length log.now.lines < 2 ^ 32 }
    ensures verdict { IfOk result (IsVerdict (sheet_ground (sheet_of pattern.now faces.now folded.now) pins.now) log.now.lines) }
    ensures sound { IfOk result (λ v. v ≡ accepted → HasNoStacking (sheet_of pattern.now faces.now folded.now) pins.now) }
{
    let mut progress = Progress::of_none(alloc, MOST_FACES as u32)?;
    let lines = log.lines.as_slice();
    for i in 0..lines.len() {
        if progress.ended {
            return Ok(Verdict::Refused {
                line: i as u32,
                why: WhyNot::AfterEnd,
            });
        }
        if let Some(why) = take(
            &mut progress,
            pattern,
            faces,
            folded,
            pins.as_slice(),
            &lines[i],
        )? {
            return Ok(Verdict::Refused {
                line: i as u32,
                why,
            });
        }
    }
    if !progress.ended {
        return Ok(Verdict::Refused {
            line: lines.len() as u32,
            why: WhyNot::OpenBranch,
        });
    }
    Ok(Verdict::Accepted)
}
