//! A text against the one that is wanted.

// The text behind a front, where it has the front.
fn rest_of<'a>(text: &'a str, front: &str) -> Option<&'a str> {
    text.strip_prefix(front)
}

// Whether the text is this one. A line `...` of it stands for any lines.
fn is_text(got: &str, wanted: &str) -> bool {
    match wanted.split_once("...\n") {
        None => got == wanted,
        Some((front, end)) => match rest_of(got, front) {
            Some(rest) => rest.ends_with(end),
            None => false,
        },
    }
}

/// Whether the text is the wanted one, or one of those that lines `-- or --` part. A line `...` of a wanted text stands for any lines.
pub fn fits(got: &str, wanted: &str) -> bool {
    for text in wanted.split("-- or --\n") {
        if is_text(got, text) {
            return true;
        }
    }
    false
}
