//! Numbers in words.
ghost use Rattle.std.specs.Prelude.{◌≡◌};
ghost use Rattle.std.specs.List.{list_all};
ghost use Rattle.std.specs.Char.{is_ascii_digit};
ghost use Rattle.ff_words.specs.Form.{number as number_of, setting as setting_of};
ghost use Rattle.ff_words.specs.App.{listed, shown};

// Whether each byte is a decimal digit.
fn is_digits(text: &str) -> bool
    ensures { result ≡ list_all is_ascii_digit text.now }
{
    text.as_bytes().iter().all(|b| b.is_ascii_digit())
}

/// The number that one to ten decimal digits write, from 1 to `most`.
pub(crate) fn number(text: &str, most: u64) -> Option<u64>
    ensures { result ≡ number_of most text.now }
{
    if text.is_empty() || text.len() > 10 || !is_digits(text) {
        return None;
    }
    match text.parse::<u64>() {
        Ok(value) if value >= 1 && value <= most => Some(value),
        _ => None,
    }
}

/// The value of an option that may be absent.
pub(crate) fn setting(text: Option<&str>, usual: u64, most: u64) -> Option<u64>
    ensures { result ≡ setting_of usual most (listed (shown text.entry)) }
{
    match text {
        Some(text) => number(text, most),
        None => Some(usual),
    }
}
