//! The lines of what is answered to a log.
ghost use Rattle.std.specs.Prelude.{◌≡◌, ◌++◌, IfOk, OnOk, string_bytes};
ghost use Rattle.ff_judged.specs.Lines.{bad_line, judgement_line, refused_line, verdict_line, why_name};

use crate::judging::Judgement;
use ff_checker::{Verdict, WhyNot};
use ff_tables::{NoMemory, Text};
use std::alloc::{AllocError, Global};

fn name_of_why(why: WhyNot) -> &'static str
    ensures { result.now ≡ why_name why }
{
    match why {
        WhyNot::NotGiven => "not given",
        WhyNot::BadWitness => "bad witness",
        WhyNot::NotForced => "not forced",
        WhyNot::RowLeft => "row left",
        WhyNot::OpenBranch => "open branch",
        WhyNot::AfterEnd => "after end",
    }
}

fn push_refused(text: &mut String, line: u32, why: WhyNot) -> Result<(), AllocError>
    ensures { OnOk result (string_bytes text.new ≡ string_bytes text.old ++ refused_line line why) }
{
    write!(text, "refused log {line} ")?;
    text.push_str(name_of_why(why))?;
    text.push_str("\n")
}

// The line for a log that is refused.
fn refused_text(alloc: Global, line: u32, why: WhyNot) -> Result<Text, NoMemory>
    ensures { IfOk result (λ text. text ≡ refused_line line why) }
{
    let mut text = String::new(alloc);
    push_refused(&mut text, line, why)?;
    Ok(Text::of(text))
}

/// The line for the verdict on a log.
pub fn check_text(alloc: Global, verdict: &Verdict) -> Result<Text, NoMemory>
    ensures { IfOk result (λ text. text ≡ verdict_line verdict.now) }
{
    match *verdict {
        Verdict::Accepted => Ok(Text::of(String::from_str(alloc, "accepted\n")?)),
        Verdict::Refused { line, why } => refused_text(alloc, line, why),
    }
}

/// The line for a log with this first text that is no line, counted from 0.
pub fn bad_line_text(alloc: Global, line: u32) -> Result<Text, NoMemory>
    ensures { IfOk result (λ text. text ≡ bad_line line) }
{
    Ok(Text::of(format!(in alloc; "refused log {line} bad line\n")?))
}

// The line for what is answered to a log.
pub(crate) fn judgement_text(alloc: Global, judgement: Judgement) -> Result<Text, NoMemory>
    ensures { IfOk result (λ text. text ≡ judgement_line judgement) }
{
    match judgement {
        Judgement::BadLine { line } => bad_line_text(alloc, line),
        Judgement::Checked(verdict) => check_text(alloc, &verdict),
    }
}
