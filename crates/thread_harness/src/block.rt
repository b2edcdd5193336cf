//! How often a block of a text is played.

/// The lines of a block, how often they are played, and the answer at which they are played no more.
pub(crate) struct Block<'a> {
    pub times: u64,
    pub until: Option<&'a str>,
    pub lines: &'a str,
}

// The times and the answer of a block's first line. None where it isn't such a line.
fn times_of(first: &str) -> Option<(u64, Option<&str>)> {
    let rest = first.strip_prefix("times ")?;
    match rest.split_once(" until ") {
        Some((times, until)) => Some((times.parse().ok()?, Some(until))),
        None => Some((rest.parse().ok()?, None)),
    }
}

/// The block that stands in a text.
pub(crate) fn block_of(text: &str) -> Block<'_> {
    let text = text.trim();
    let (first, rest) = text.split_once('\n').unwrap_or((text, ""));
    match times_of(first) {
        Some((times, until)) => Block {
            times,
            until,
            lines: rest,
        },
        None => Block {
            times: 1,
            until: None,
            lines: text,
        },
    }
}
