//! The lines of a log that rest on the sheet and the pins.
ghost use Rattle.std.specs.Prelude.{◌≡◌, ◌≤◌, IfOk, OnOk, length, List};
ghost use Rattle.ff_types.specs.declared.limits.TheConstants.{MOST_FACES as most_faces};
ghost use Rattle.ff_types.specs.declared.pins.Pin.{Pin as PinSpec};
ghost use Rattle.ff_types.specs.FoldedPatterns.{IsFoldedPattern};
ghost use Rattle.ff_types.specs.Sheets.{Sheet, sheet_of};
ghost use Rattle.ff_log.specs.declared.logs.LogLine.TheVariants as line_of;
ghost use Rattle.ff_log.specs.Logs.{HasSmallLine};
ghost use Rattle.ff_log.specs.Grounds.{sheet_ground};
ghost use Rattle.ff_checker.specs.LogStates.{IsProgress, state_of};
ghost use Rattle.ff_checker.specs.Verdicts.{ArePinned, IsTaken};

use crate::progress::Progress;
use crate::reading::claimed;
use crate::verdicts::WhyNot;
use ff_log::LogLine;
use ff_tables::{NoMemory, Order};
use ff_types::{Cite, Faces, Folded, Pattern, Pin};
use ff_witness::{crease_claim, declared_by};

// Declares the constraint that the cite names, if the cite has its witness.
fn take_use(
    progress: &mut Progress,
    pattern: &Pattern,
    faces: &Faces,
    folded: &Folded,
    cite: &Cite,
) -> Result<Option<WhyNot>, NoMemory>
    requires folded { IsFoldedPattern pattern.now faces.now folded.now }
    requires small { HasSmallLine (line_of.Use cite.now) }
    requires progress { IsProgress progress.old }
    requires side { progress.old.held.side ≡ most_faces }
    ensures progress { OnOk result (IsProgress progress.new) }
    ensures side { OnOk result (progress.new.held.side ≡ most_faces) }
    ensures taken { (pins : List PinSpec) → IfOk result (λ w. IsTaken (sheet_ground (sheet_of pattern.now faces.now folded.now) pins)
        (state_of progress.old) (line_of.Use cite.now) (state_of progress.new) w) }
{
    match declared_by(pattern, faces, folded, cite) {
        None => Ok(Some(WhyNot::BadWitness)),
        Some(declared) => {
            progress.declare(declared)?;
            Ok(None)
        },
    }
}

// What the edge's mark says holds from now on, if the edge is marked M or V.
fn take_crease(
    progress: &mut Progress,
    pattern: &Pattern,
    faces: &Faces,
    folded: &Folded,
    e: u32,
) -> Result<Option<WhyNot>, NoMemory>
    requires folded { IsFoldedPattern pattern.now faces.now folded.now }
    requires progress { IsProgress progress.old }
    requires side { progress.old.held.side ≡ most_faces }
    ensures progress { OnOk result (IsProgress progress.new) }
    ensures side { OnOk result (progress.new.held.side ≡ most_faces) }
    ensures taken { (pins : List PinSpec) → IfOk result (λ w. IsTaken (sheet_ground (sheet_of pattern.now faces.now folded.now) pins)
        (state_of progress.old) (line_of.Crease e) (state_of progress.new) w) }
{
    match crease_claim(pattern, faces, folded, e) {
        None => Ok(Some(WhyNot::NotGiven)),
        Some(claim) => {
            progress.hold(claim)?;
            Ok(None)
        },
    }
}

// The pin with this number holds from now on, if there is one.
fn take_pin(progress: &mut Progress, pins: &[Pin], i: u32) -> Result<Option<WhyNot>, NoMemory>
    requires pins { ArePinned pins.now }
    requires progress { IsProgress progress.old }
    requires side { progress.old.held.side ≡ most_faces }
    ensures progress { OnOk result (IsProgress progress.new) }
    ensures side { OnOk result (progress.new.held.side ≡ most_faces) }
    ensures taken { (sheet : Sheet) → IfOk result (λ w. IsTaken (sheet_ground sheet pins.now)
        (state_of progress.old) (line_of.Pin i) (state_of progress.new) w) }
{
    if i as usize >= pins.len() {
        return Ok(Some(WhyNot::NotGiven));
    }
    let pin = pins[i as usize];
    progress.hold(claimed(pin.f, pin.g, pin.value))?;
    Ok(None)
}

// Opens a branch, if `f` and `g` are two different ones of so many faces.
fn take_try(
    progress: &mut Progress,
    count: usize,
    f: u32,
    g: u32,
    value: Order,
) -> Result<Option<WhyNot>, NoMemory>
    requires count { count ≤ most_faces }
    requires progress { IsProgress progress.old }
    requires side { progress.old.held.side ≡ most_faces }
    ensures progress { OnOk result (IsProgress progress.new) }
    ensures side { OnOk result (progress.new.held.side ≡ most_faces) }
    ensures taken { (sheet : Sheet) (pins : List PinSpec) → length sheet.rings ≡ count
        → IfOk result (λ w. IsTaken (sheet_ground sheet pins) (state_of progress.old) (line_of.Try f g value) (state_of progress.new) w) }
{
    if f as usize >= count {
        return Ok(Some(WhyNot::NotGiven));
    }
    if g as usize >= count {
        return Ok(Some(WhyNot::NotGiven));
    }
    if f == g {
        return Ok(Some(WhyNot::NotGiven));
    }
    progress.open(claimed(f, g, value))?;
    Ok(None)
}

/// Takes the line, or says why it isn't allowed.
pub(crate) fn take(
    progress: &mut Progress,
    pattern: &Pattern,
    faces: &Faces,
    folded: &Folded,
    pins: &[Pin],
    line: &LogLine,
) -> Result<Option<WhyNot>, NoMemory>
    requires folded { IsFoldedPattern pattern.now faces.now folded.now }
    requires pins { ArePinned pins.now }
    requires small { HasSmallLine line.now }
    requires progress { IsProgress progress.old }
    requires side { progress.old.held.side ≡ most_faces }
    ensures progress { OnOk result (IsProgress progress.new) }
    ensures side { OnOk result (progress.new.held.side ≡ most_faces) }
    ensures taken { IfOk result (IsTaken (sheet_ground (sheet_of pattern.now faces.now folded.now) pins.now)
        (state_of progress.old) line.now (state_of progress.new)) }
{
    match line {
        LogLine::Use(cite) => take_use(progress, pattern, faces, folded, cite),
        LogLine::Crease(e) => take_crease(progress, pattern, faces, folded, *e),
        LogLine::Pin(i) => take_pin(progress, pins, *i),
        LogLine::Force { f, g, value, by } => progress.force(*f, *g, *value, *by),
        LogLine::Try { f, g, value } => {
            take_try(progress, faces.rings.as_slice().len(), *f, *g, *value)
        },
        LogLine::Dead(k) => progress.dead(*k),
        LogLine::Clash { f, g } => progress.clash(*f, *g),
    }
}
