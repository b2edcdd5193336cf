//! Whether an answer is one of those that may come.

// Whether the answer is the one that is wanted, or begins as one that ends in '*'.
fn fits(answer: &str, wanted: &str) -> bool {
    match wanted.strip_suffix('*') {
        Some(beginning) => answer.starts_with(beginning),
        None => answer == wanted,
    }
}

/// Whether the answer is one of those that may come, which stand with ` | ` between them.
pub(crate) fn is_one_of(answer: &str, wanted: &str) -> bool {
    for one in wanted.split(" | ") {
        if fits(answer, one) {
            return true;
        }
    }
    false
}

/// The text of bytes that are UTF-8.
pub(crate) fn text_of(bytes: &[u8]) -> &str {
    str::from_utf8(bytes).unwrap_or("no text")
}
