//! The command that a text spells.
ghost use Rattle.std.specs.Prelude.{◌≡◌, ◌==◌, ◌<◌, IfOk, map};
ghost use Rattle.std.specs.List.{list_all, slice_split};
ghost use Rattle.std.specs.Char.{is_ascii};
ghost use Rattle.ff_viewer.specs.Grammar.{two, pin_by, alone as alone_of, plain_by, stack_by, command_words, command_by, words_in, command_of};

use crate::commands::{Command, Question};
use crate::numbers::{number, numbers_in};
use crate::orders::read_order;
use ff_tables::{Items, NoMemory};
use std::alloc::{AllocError, Global};

fn pin_in(words: &[&str]) -> Option<Command>
    ensures { result ≡ pin_by (map (λ s. s.now) words.now) }
{
    match words {
        [f, g, value] => Some(Command::Pin {
            f: number(f)?,
            g: number(g)?,
            value: read_order(value)?,
        }),
        _ => None,
    }
}

fn two_numbers(words: &[&str]) -> Option<(u32, u32)>
    ensures { result ≡ two (map (λ s. s.now) words.now) }
{
    match words {
        [f, g] => Some((number(f)?, number(g)?)),
        _ => None,
    }
}

// The question, where no words are left.
fn alone(question: Question, words: &[&str]) -> Option<Command>
    ensures { result ≡ alone_of question (map (λ s. s.now) words.now) }
{
    if words.is_empty() {
        Some(Command::Ask(question))
    } else {
        None
    }
}

// A command but for `stack`.
fn plain_in(head: &str, words: &[&str]) -> Option<Command>
    ensures { result ≡ plain_by head.now (map (λ s. s.now) words.now) }
{
    match head {
        "pin" => pin_in(words),
        "unpin" => {
            let (f, g) = two_numbers(words)?;
            Some(Command::Unpin { f, g })
        }
        "board" => alone(Question::Board, words),
        "peek" => alone(Question::Peek, words),
        "parts" => alone(Question::Parts, words),
        "order" => {
            let (f, g) = two_numbers(words)?;
            Some(Command::Ask(Question::Order { f, g }))
        }
        "page" => {
            let (part, page) = two_numbers(words)?;
            Some(Command::Ask(Question::Page { part, page }))
        }
        "why" => {
            let (f, g) = two_numbers(words)?;
            Some(Command::Ask(Question::Why { f, g }))
        }
        _ => None,
    }
}

fn stack_in(alloc: Global, words: &[&str]) -> Result<Option<Command>, AllocError>
    ensures { IfOk result (λ command. command ≡ stack_by (map (λ s. s.now) words.now)) }
{
    match numbers_in(alloc, words)? {
        Some(list) => Ok(Some(Command::Ask(Question::Stack {
            choice: Items::of(list),
        }))),
        None => Ok(None),
    }
}

fn command_at(alloc: Global, head: &str, rest: &[&str]) -> Result<Option<Command>, AllocError>
    ensures { IfOk result (λ command. command ≡ command_words head.now (map (λ s. s.now) rest.now)) }
{
    if head == "stack" {
        return stack_in(alloc, rest);
    }
    Ok(plain_in(head, rest))
}

#[tactic(auto, using(crate::proofs::Words::command_more))]
fn command_in(alloc: Global, words: &[&str]) -> Result<Option<Command>, AllocError>
    ensures { IfOk result (λ command. command ≡ command_by (map (λ s. s.now) words.now)) }
{
    match words {
        [head, rest @ ..] => command_at(alloc, head, rest),
        [] => Ok(None),
    }
}

fn pieces(alloc: Global, text: &str, separator: char) -> Result<Vec<&str>, AllocError>
    requires { separator < 128 }
    ensures { IfOk result (λ v. map (λ s. s.now) v.items ≡ slice_split (λ b. b == separator) text.now) }
{
    text.split(separator).collect(alloc)
}

fn command_of_text(alloc: Global, text: &str) -> Result<Option<Command>, AllocError>
    ensures { IfOk result (λ command. command ≡ command_by (words_in text.now)) }
{
    command_in(alloc, pieces(alloc, text, ' ')?.as_slice())
}

fn is_ascii_text(bytes: &[u8]) -> bool
    ensures { result ≡ list_all is_ascii bytes.now }
{
    bytes.iter().all(|b| b.is_ascii())
}

fn command_of_bytes(alloc: Global, bytes: &[u8]) -> Result<Option<Command>, AllocError>
    ensures { IfOk result (λ command. command ≡ command_of bytes.now) }
{
    if !is_ascii_text(bytes) {
        return Ok(None);
    }
    match std::str::from_utf8(bytes) {
        Ok(text) => command_of_text(alloc, text),
        Err(_) => Ok(None),
    }
}

/// The command that the bytes spell, None exactly where they spell none: words stand apart by single spaces, a number is one to nine
/// decimal digits, and an order is `above` or `below`.
pub fn read_command(alloc: Global, text: &[u8]) -> Result<Option<Command>, NoMemory>
    ensures { IfOk result (λ command. command ≡ command_of text.now) }
{
    Ok(command_of_bytes(alloc, text)?)
}
