//! What came of the texts of a scenario.
use std::alloc::{AllocError, Global};
use test_harness::TextBuilder;

/// The lines of the replies to each client.
#[derive(Drop)]
pub(crate) struct RepliesByClient {
    first: TextBuilder,
    second: TextBuilder,
    third: TextBuilder,
    fourth: TextBuilder,
}

impl RepliesByClient {
    /// No line.
    pub(crate) fn new(alloc: Global) -> RepliesByClient {
        RepliesByClient {
            first: TextBuilder::new(alloc),
            second: TextBuilder::new(alloc),
            third: TextBuilder::new(alloc),
            fourth: TextBuilder::new(alloc),
        }
    }

    /// Those to this client. None where there is no such client.
    pub(crate) fn of(&self, client: u8) -> Option<&TextBuilder> {
        match client {
            0 => Some(&self.first),
            1 => Some(&self.second),
            2 => Some(&self.third),
            3 => Some(&self.fourth),
            _ => None,
        }
    }

    /// Those to this client, to be appended to. None where there is no such client.
    pub(crate) fn of_mut(&mut self, client: u8) -> Option<&mut TextBuilder> {
        match client {
            0 => Some(&mut self.first),
            1 => Some(&mut self.second),
            2 => Some(&mut self.third),
            3 => Some(&mut self.fourth),
            _ => None,
        }
    }

    /// Makes room for `count` bytes of lines to this client. Says whether there is.
    pub(crate) fn reserve(&mut self, client: u8, count: usize) -> bool {
        match self.of_mut(client) {
            Some(lines) => lines.reserve(count).is_ok(),
            None => true,
        }
    }
}

/// What came of a text.
#[derive(Drop)]
pub(crate) struct Report {
    /// The line that wasn't answered as it should be, and its answer; nothing where all were.
    pub(crate) wrong: TextBuilder,
    /// The replies.
    pub(crate) replies: RepliesByClient,
    /// A line for each entry that was taken.
    pub(crate) taken: TextBuilder,
    /// Whether the text was played to its end.
    pub(crate) is_well: bool,
}

impl Report {
    /// Of a text that wasn't begun.
    pub(crate) fn new(alloc: Global) -> Report {
        Report {
            wrong: TextBuilder::new(alloc),
            replies: RepliesByClient::new(alloc),
            taken: TextBuilder::new(alloc),
            is_well: true,
        }
    }
}

/// What came of all texts of a scenario, in the order in which they began.
#[derive(Drop)]
pub(crate) struct Reports {
    pub(crate) list: Vec<Report>,
    /// What is wrong beside the texts.
    pub(crate) wrong: TextBuilder,
}

impl Reports {
    /// Of no text.
    pub(crate) fn new(alloc: Global) -> Reports {
        Reports {
            list: Vec::new(alloc),
            wrong: TextBuilder::new(alloc),
        }
    }

    /// The report of one text more.
    pub(crate) fn add(&mut self, report: Report) {
        if self.list.push(report).is_err() {
            self.wrong.push("no memory for a report\n");
        }
    }

    /// Whether a client was answered just these lines, in their order.
    pub(crate) fn has_replies(&self, alloc: Global, client: u8, lines: &[u8]) -> bool {
        let mut all = TextBuilder::new(alloc);
        for report in &self.list {
            if let Some(replies) = report.replies.of(client) {
                all.push_bytes(replies.as_bytes());
            }
        }
        all.is_whole() && all.as_bytes() == lines
    }

    /// Whether what was taken, and then what wasn't, are just these lines.
    pub(crate) fn has_taken(&self, alloc: Global, untaken: &[u8], lines: &[u8]) -> bool {
        let mut all = TextBuilder::new(alloc);
        for report in &self.list {
            all.push_bytes(report.taken.as_bytes());
        }
        all.push_bytes(untaken);
        all.is_whole() && all.as_bytes() == lines
    }
}
