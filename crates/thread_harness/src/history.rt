//! A history as texts, and what must be true of them.
use crate::entry_line::push_entry_line;
use crate::report::RepliesByClient;
use comm_core::Entry;
use comm_messages::Parent;
use comm_script::append_reply;
use std::alloc::Global;
use std::sync::Arc;
use test_harness::{TextBuilder, append_answer};

/// What a history says.
#[derive(Drop)]
pub(crate) struct HistoryText {
    /// The replies to each client.
    pub(crate) replies: RepliesByClient,
    /// Of each entry the line that is noted where it's taken.
    pub(crate) entries: TextBuilder,
    /// The replies and the messages.
    pub(crate) whole: TextBuilder,
    /// How many changes each client has.
    pub(crate) counts: [u64; 4],
    /// Whether these are numbered from 1, one by one.
    pub(crate) are_numbered: bool,
    /// Whether an end stands last, and nowhere else.
    pub(crate) is_ended: bool,
}

// A change of this client has this number. Says whether that is the next of the client's.
fn count(counts: &mut [u64; 4], client: u8, number: u64) -> bool {
    match counts.get_mut(client as usize) {
        Some(count) => {
            *count = count.saturating_add(1);
            *count == number
        }
        None => false,
    }
}

impl HistoryText {
    fn add(&mut self, place: u64, entry: &Entry) {
        push_entry_line(entry, &mut self.entries);
        let Entry::Change {
            client,
            number,
            reply,
            outgoing,
            ..
        } = entry
        else {
            return;
        };
        let is_next = count(&mut self.counts, *client, *number);
        self.are_numbered = self.are_numbered && is_next;
        if let Some(replies) = self.replies.of_mut(*client) {
            let done = append_reply(place, reply, replies.bytes_mut());
            replies.note(done);
        }
        let parent = Parent::Call {
            client: *client,
            number: *number,
        };
        let text = self.whole.bytes_mut();
        let done = append_answer(place, &parent, reply, outgoing.as_slice(), text);
        self.whole.note(done);
    }
}

/// The texts of a history, or of what wasn't taken of one.
pub(crate) fn history_text(alloc: Global, entries: &[Arc<Entry, Global>]) -> HistoryText {
    let mut text = HistoryText {
        replies: RepliesByClient::new(alloc),
        entries: TextBuilder::new(alloc),
        whole: TextBuilder::new(alloc),
        counts: [0; 4],
        are_numbered: true,
        is_ended: false,
    };
    let mut is_between = true;
    for (place, entry) in entries.iter().enumerate() {
        is_between = is_between && !text.is_ended;
        text.is_ended = matches!(&**entry, Entry::End);
        text.add((place as u64).saturating_add(1), entry);
    }
    text.is_ended = text.is_ended && is_between;
    text
}
