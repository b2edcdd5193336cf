//! The line of an entry that was taken.
use comm_core::Entry;
use test_harness::TextBuilder;

/// Appends whose change an entry is, and its number among that client's: `took CLIENT NUMBER`, or `took end`.
pub(crate) fn push_entry_line(entry: &Entry, text: &mut TextBuilder) {
    match entry {
        Entry::Change { client, number, .. } => {
            text.push_counted("took", *client as u64);
            text.push_counted("", *number);
        }
        Entry::End => text.push("took end"),
    }
    text.push("\n");
}
