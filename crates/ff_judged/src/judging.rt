//! From bytes to a judgement on their log.
ghost use Rattle.std.specs.Prelude.{◌≡◌, ◌<◌, ◌≤◌, ◌^◌, IfErr, IfOk, MatchResult, length};
ghost use Rattle.ff_types.specs.FoldedPatterns.{IsFoldedPattern};
ghost use Rattle.ff_types.specs.Sheets.{sheet_of};
ghost use Rattle.ff_read.specs.Checks.{ArePins, IsCheck};
ghost use Rattle.ff_judged.specs.Judgements.{IsJudged, JudgesLog, WhyNotJudged, accepts};

use crate::sheets::{FoldedSheet, folded_sheet};
use ff_checker::{Verdict, accepted_logs_refute, check};
use ff_log::{LogNo, read_log};
use ff_read::{CheckInput, read_check};
use ff_tables::NoMemory;
use ff_types::No;
use std::alloc::Global;

/// The most bytes of an input of `check`. One byte more is read, to see that it is longer. The limit is this project's own.
pub const MOST_CHECK_BYTES: usize = 1 << 26;

/// What is answered to a log: the number of its first text that is no line, or the verdict on its lines. All texts are read before
/// any is checked, so a text that is no line comes before every verdict.
#[derive(Clone, Copy, Debug, PartialEq, Eq)]
pub enum Judgement {
    BadLine { line: u32 },
    Checked(Verdict),
}

impl Judgement {
    /// Whether the log is accepted.
    pub fn is_accepted(self) -> bool
        ensures { result ≡ accepts self }
    {
        match self {
            Judgement::Checked(Verdict::Accepted) => true,
            Judgement::Checked(Verdict::Refused { .. }) | Judgement::BadLine { .. } => false,
        }
    }
}

// The input that the bytes spell.
fn input_of(alloc: Global, bytes: &[u8]) -> Result<CheckInput, No>
    requires { length bytes.now ≤ MOST_CHECK_BYTES }
    ensures read { IfOk result (IsCheck bytes.now) }
    ensures some { IfOk result (λ input. 1 ≤ length input.pattern.points) }
    ensures lines { IfOk result (λ input. length input.lines < 2 ^ 32) }
    ensures pins { IfOk result (λ input. ArePins input.pins) }
    ensures refused { IfErr result (WhyNotJudged bytes.now) }
{
    read_check(alloc, bytes)
}

// The folded sheet of its crease pattern.
fn sheet_of_input(alloc: Global, bytes: &[u8], input: &CheckInput) -> Result<FoldedSheet, No>
    requires few { length bytes.now ≤ MOST_CHECK_BYTES }
    requires read { IsCheck bytes.now input.now }
    requires some { 1 ≤ length input.now.pattern.points }
    ensures made { IfOk result (λ s. IsFoldedPattern input.now.pattern s.faces s.folded) }
    ensures refused { IfErr result (WhyNotJudged bytes.now) }
{
    let _ = bytes;
    folded_sheet(alloc, &input.pattern)
}

// What is answered to its log on the folded sheet.
fn judgement_of(
    alloc: Global,
    input: &CheckInput,
    sheet: &FoldedSheet,
) -> Result<Judgement, NoMemory>
    requires folded { IsFoldedPattern input.now.pattern sheet.now.faces sheet.now.folded }
    requires pins { ArePins input.now.pins }
    requires few { length input.now.lines < 2 ^ 32 }
    ensures { IfOk result (JudgesLog (sheet_of input.now.pattern sheet.now.faces sheet.now.folded) input.now.pins input.now.lines) }
{
    match read_log(alloc, &input.lines) {
        Ok(log) => {
            let verdict = check(
                alloc,
                &input.pattern,
                &sheet.faces,
                &sheet.folded,
                &input.pins,
                &log,
            )?;
            Ok(Judgement::Checked(verdict))
        },
        Err(LogNo::BadLog { line }) => Ok(Judgement::BadLine { line }),
        Err(LogNo::NoMemory) => Err(NoMemory),
    }
}

/// What is answered to the log of an input of `check`, `{"fold": {..}, "pins": [..], "log": [..]}`, on the folded crease pattern, with
/// the pins. Refused as `read_check` refuses the bytes, or as the faces and the folding of the pattern are; no cell is made. Where the
/// log is accepted no geometric stacking keeps the creases and the pins.
pub fn judged(alloc: Global, bytes: &[u8]) -> Result<Judgement, No>
    requires { length bytes.now ≤ MOST_CHECK_BYTES }
    ensures { MatchResult result (IsJudged bytes.now) (WhyNotJudged bytes.now) }
{
    accepted_logs_refute();
    let input = input_of(alloc, bytes)?;
    let sheet = sheet_of_input(alloc, bytes, &input)?;
    Ok(judgement_of(alloc, &input, &sheet)?)
}
