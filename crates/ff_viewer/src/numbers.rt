//! Numbers in commands.
ghost use Rattle.std.specs.Prelude.{◌≡◌, IfOk, map, option_map};
ghost use Rattle.std.specs.List.{list_all};
ghost use Rattle.std.specs.Char.{is_ascii_digit};
ghost use Rattle.ff_viewer.specs.Grammar.{number as number_of, numbers};

use std::alloc::{AllocError, Global};

fn is_digits(text: &str) -> bool
    ensures { result ≡ list_all is_ascii_digit text.now }
{
    text.as_bytes().iter().all(|b| b.is_ascii_digit())
}

/// The number that one to nine decimal digits write.
pub(crate) fn number(text: &str) -> Option<u32>
    ensures { result ≡ number_of text.now }
{
    if text.is_empty() || text.len() > 9 || !is_digits(text) {
        return None;
    }
    match text.parse::<u32>() {
        Ok(value) => Some(value),
        Err(_) => None,
    }
}

/// A number for each word, None where one isn't a number.
pub(crate) fn numbers_in(alloc: Global, words: &[&str]) -> Result<Option<Vec<u32>>, AllocError>
    ensures { IfOk result (λ list. option_map (λ v. v.items) list ≡ numbers (map (λ s. s.now) words.now)) }
{
    let mut list = Vec::new(alloc);
    for word in words {
        match number(word) {
            Some(n) => list.push(n)?,
            None => return Ok(None),
        }
    }
    Ok(Some(list))
}
