//! Numbers in texts.
ghost use Rattle.std.specs.Prelude.{◌≡◌, ◌^◌};
ghost use Rattle.std.specs.List.{list_all};
ghost use Rattle.std.specs.Char.{is_ascii_digit};
ghost use Rattle.ff_log.specs.Numbers.{has_no_zero, is_decimal, number_of, signed_of};

// Whether each byte is a decimal digit.
fn is_digits(text: &str) -> bool
    ensures { result ≡ list_all is_ascii_digit text.now }
{
    text.as_bytes().iter().all(|b| b.is_ascii_digit())
}

// Whether there is a byte, and no zero before others.
fn starts_well(text: &str) -> bool
    ensures { result ≡ has_no_zero text.now }
{
    match text.as_bytes() {
        [] => false,
        [_] => true,
        [first, ..] => *first != b'0',
    }
}

// Whether the text is decimal digits without a zero before others.
fn is_decimal_text(text: &str) -> bool
    ensures { result ≡ is_decimal text.now }
{
    is_digits(text) && starts_well(text)
}

/// The number below 2^32 that is written so.
pub(crate) fn number(text: &str) -> Option<u32>
    ensures { result ≡ number_of (2 ^ 32) text.now }
{
    if !is_decimal_text(text) {
        return None;
    }
    match text.parse::<u32>() {
        Ok(value) => Some(value),
        Err(_) => None,
    }
}

/// The number below `bound` that is written so.
pub(crate) fn wide_number(text: &str, bound: u128) -> Option<u128>
    ensures { result ≡ number_of bound text.now }
{
    if !is_decimal_text(text) {
        return None;
    }
    match text.parse::<u128>() {
        Ok(value) if value < bound => Some(value),
        _ => None,
    }
}
