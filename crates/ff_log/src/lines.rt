//! The line that a text spells.
ghost use Rattle.std.specs.Prelude.{◌≡◌, IfOk, map};
ghost use Rattle.ff_log.specs.declared.logs.LogLine.TheVariants as line_kind;
ghost use Rattle.ff_log.specs.Reading.{order_of, alone, two_numbers, try_by, force_by, plain_by, line_words, line_by, line_of};

use crate::cites::cite_in;
use crate::logs::LogLine;
use crate::numbers::number;
use crate::places::pieces;
use ff_tables::Order;
use std::alloc::{AllocError, Global};

fn order_in(text: &str) -> Option<Order>
    ensures { result ≡ order_of text.now }
{
    match text {
        "above" => Some(Order::Above),
        "below" => Some(Order::Below),
        _ => None,
    }
}

fn number_alone(words: &[&str]) -> Option<u32>
    ensures { result ≡ alone (map (λ s. s.now) words.now) }
{
    match words {
        [word] => number(word),
        _ => None,
    }
}

fn try_in(words: &[&str]) -> Option<LogLine>
    ensures { result ≡ try_by (map (λ s. s.now) words.now) }
{
    match words {
        [f, g, value] => Some(LogLine::Try {
            f: number(f)?,
            g: number(g)?,
            value: order_in(value)?,
        }),
        _ => None,
    }
}

#[tactic(auto, using(crate::proofs::Others::force_other))]
fn force_in(words: &[&str]) -> Option<LogLine>
    ensures { result ≡ force_by (map (λ s. s.now) words.now) }
{
    match words {
        [f, g, value, by] => Some(LogLine::Force {
            f: number(f)?,
            g: number(g)?,
            value: order_in(value)?,
            by: number(by)?,
        }),
        _ => None,
    }
}

fn clash_in(words: &[&str]) -> Option<LogLine>
    ensures { result ≡ two_numbers (λ f g. line_kind.Clash f g) (map (λ s. s.now) words.now) }
{
    match words {
        [f, g] => Some(LogLine::Clash {
            f: number(f)?,
            g: number(g)?,
        }),
        _ => None,
    }
}

// A line that declares nothing.
fn plain_line(head: &str, words: &[&str]) -> Option<LogLine>
    ensures { result ≡ plain_by head.now (map (λ s. s.now) words.now) }
{
    match head {
        "crease" => Some(LogLine::Crease(number_alone(words)?)),
        "pin" => Some(LogLine::Pin(number_alone(words)?)),
        "dead" => Some(LogLine::Dead(number_alone(words)?)),
        "clash" => clash_in(words),
        "try" => try_in(words),
        "force" => force_in(words),
        _ => None,
    }
}

fn line_at(alloc: Global, head: &str, rest: &[&str]) -> Result<Option<LogLine>, AllocError>
    ensures { IfOk result (λ l. l ≡ line_words head.now (map (λ s. s.now) rest.now)) }
{
    if head == "use" {
        return Ok(cite_in(alloc, rest)?.map(|cite| LogLine::Use(cite)));
    }
    Ok(plain_line(head, rest))
}

#[tactic(auto, using(crate::proofs::Others::line_empty, crate::proofs::Others::line_more))]
fn line_in(alloc: Global, words: &[&str]) -> Result<Option<LogLine>, AllocError>
    ensures { IfOk result (λ l. l ≡ line_by (map (λ s. s.now) words.now)) }
{
    match words {
        [head, rest @ ..] => line_at(alloc, head, rest),
        [] => Ok(None),
    }
}

/// The line that the text spells.
pub(crate) fn read_line(alloc: Global, text: &str) -> Result<Option<LogLine>, AllocError>
    ensures { IfOk result (λ l. l ≡ line_of text.now) }
{
    line_in(alloc, pieces(alloc, text, ' ')?.as_slice())
}
