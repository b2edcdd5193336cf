//! What plays a text over a manager, line by line.
ghost use Rattle.std.specs.Prelude.{◌≡◌};

use crate::block::{Block, block_of};
use crate::expected::{is_one_of, text_of};
use crate::flags::Flags;
use crate::report::Report;
use comm_manager::{Client, Manager, ManagerId, Publisher, Stamp};
use comm_targets::Target;
use std::alloc::Global;
use std::mem::replace;
use std::sync::Wait;
use std::thread::yield_now;
use test_harness::TextBuilder;

mod changes;
mod lines;
mod reads;
mod takes;

/// Room for the lines of one answer, taken before anything is asked, so that nothing that was done is lost where
/// memory is refused.
const ROOM: usize = 512;

/// What is said where memory runs out.
pub const NO_MEMORY: &str = "no_memory";

/// Who asks the clients and the publisher of a manager, a line at a time: the targets that aren't registered yet, of
/// which the last is the next, the last stamp, and what was answered.
#[derive(Drop)]
pub struct ClientPlayer<'a, M: ManagerId, T: Target> {
    alloc: Global,
    flags: &'a Flags,
    targets: Vec<T>,
    stamp: Option<Stamp<M>>,
    answer: TextBuilder,
    // Where the words of the answer begin.
    from: usize,
    // The number of the allocation that is refused, 0 for none, and whether one was.
    refused: u32,
    was_refused: bool,
    report: Report,
}

impl<'a, M: ManagerId, T: Target> ClientPlayer<'a, M, T> {
    /// A player with these targets that has asked nothing yet.
    pub fn new(alloc: Global, flags: &'a Flags, targets: Vec<T>) -> ClientPlayer<'a, M, T> {
        ClientPlayer {
            alloc,
            flags,
            targets,
            stamp: None,
            answer: TextBuilder::new(alloc),
            from: 0,
            refused: 0,
            was_refused: false,
            report: Report::new(alloc),
        }
    }

    /// The whole answer to the last line.
    pub fn answer(&self) -> &str {
        text_of(self.answer.as_bytes().trim_ascii_end())
    }

    /// Whether an allocation was refused in the last line, as it asked.
    pub fn was_refused(&self) -> bool
        ensures { result ≡ self.now.was_refused }
    {
        self.was_refused
    }

    // The words of the answer, without a reply's number.
    fn words(&self) -> &str {
        let words = self.answer.as_bytes().get(self.from..).unwrap_or(b"");
        text_of(words.trim_ascii_end())
    }

    fn say(&mut self, words: &str) {
        self.answer.push(words);
    }

    fn round<R: Wait>(
        &mut self,
        rt: &R,
        manager: Option<&Manager<M, T>>,
        clients: &mut [Client<M>],
        publishers: &mut [Publisher<M>],
        lines: &str,
        round: u64,
    ) -> bool {
        for line in lines.lines() {
            if line == "yield" {
                yield_now();
                continue;
            }
            let line = match after_of(line) {
                Some((answer, rest)) if is_one_of(self.words(), answer) => rest,
                Some(_) => continue,
                None => line,
            };
            if !self.line(rt, manager, clients, publishers, line, round) {
                return false;
            }
        }
        true
    }

    fn block<R: Wait>(
        &mut self,
        rt: &R,
        manager: Option<&Manager<M, T>>,
        clients: &mut [Client<M>],
        publishers: &mut [Publisher<M>],
        text: &str,
    ) -> bool {
        let Block {
            times,
            until,
            lines,
        } = block_of(text);
        for round in 0..times {
            let round = round.saturating_add(1);
            if !self.round(rt, manager, clients, publishers, lines, round) {
                return false;
            }
            if until.is_some_and(|answer| is_one_of(self.words(), answer)) {
                return true;
            }
        }
        if until.is_some() {
            self.note_wrong(lines, times);
        }
        until.is_none()
    }

    fn text<R: Wait>(
        &mut self,
        rt: &R,
        manager: Option<&Manager<M, T>>,
        clients: &mut [Client<M>],
        publishers: &mut [Publisher<M>],
        text: &str,
    ) -> bool {
        for block in text.split("\n\n") {
            if !self.block(rt, manager, clients, publishers, block) {
                return false;
            }
        }
        true
    }
}

// The answer after which the rest of the line is played, where it says so.
fn after_of(line: &str) -> Option<(&str, &str)> {
    line.strip_prefix("after ")?.split_once(": ")
}

/// Plays a text with these clients, who stand in the order of their numbers, and the publisher, if there is one.
/// Targets that aren't registered stay. Where a line isn't answered as it should be, the text ends, and nobody waits
/// for a flag any more.
pub(crate) fn play_text<M: ManagerId, T: Target, R: Wait>(
    rt: &R,
    alloc: Global,
    manager: Option<&Manager<M, T>>,
    clients: &mut [Client<M>],
    publishers: &mut [Publisher<M>],
    text: &str,
    targets: &mut Vec<T>,
    flags: &Flags,
) -> Report {
    let held = replace(targets, Vec::new(alloc));
    let mut player = ClientPlayer::new(alloc, flags, held);
    let is_well = player.text(rt, manager, clients, publishers, text);
    if !is_well {
        flags.release();
    }
    let ClientPlayer {
        targets: left,
        report,
        ..
    } = player;
    *targets = left;
    Report { is_well, ..report }
}
