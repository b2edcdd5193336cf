//! What the publisher takes.
use super::ClientPlayer;
use crate::entry_line::push_entry_line;
use comm_core::Entry;
use comm_manager::{ManagerId, Publisher};
use comm_messages::Parent;
use comm_script::append_outs;
use comm_targets::Target;
use std::sync::Wait;

impl<M: ManagerId, T: Target> ClientPlayer<'_, M, T> {
    // An entry that was taken: whose it is, or where `is_whole` what goes out.
    fn note_taken(&mut self, entry: &Entry, is_whole: bool) {
        push_entry_line(entry, &mut self.report.taken);
        match entry {
            Entry::Change {
                client,
                number,
                outgoing,
                ..
            } if is_whole => {
                let parent = Parent::Call {
                    client: *client,
                    number: *number,
                };
                let text = self.answer.bytes_mut();
                let done = append_outs(outgoing.as_slice(), &parent, text);
                self.answer.note(done);
            }
            _ => push_entry_line(entry, &mut self.answer),
        }
    }

    fn take<R: Wait>(&mut self, rt: &R, publisher: &mut Publisher<M>, is_whole: bool) {
        match publisher.take(rt) {
            Some(entry) => self.note_taken(&entry, is_whole),
            None => self.say("none"),
        }
    }

    /// What the publisher is asked.
    pub(super) fn ask_publisher<R: Wait>(
        &mut self,
        rt: &R,
        publisher: &mut Publisher<M>,
        words: &str,
    ) {
        match words {
            "take" => self.take(rt, publisher, false),
            "whole" => self.take(rt, publisher, true),
            "taken" => self.answer.push_counted("taken", publisher.taken()),
            _ => self.say("no_such_word"),
        }
    }
}
