//! What came of a client's lines.
use crate::wording::append_seen;
use comm_script::RunFault;
use std::alloc::{AllocError, Global};

/// What came of the lines of one client.
#[derive(Drop)]
pub struct Transcript {
    /// What its lines were answered, in their order.
    pub text: Vec<u8>,
    /// The line of each of its changes that was answered, in their order.
    pub changes: Vec<u64>,
    /// Why not all its lines were played.
    pub played: Result<(), RunFault>,
}

impl Transcript {
    /// A transcript with no answer.
    pub(crate) fn new(alloc: Global) -> Transcript {
        Transcript {
            text: Vec::new(alloc),
            changes: Vec::new(alloc),
            played: Ok(()),
        }
    }

    /// Notes what a line was answered, and how many entries its client had seen before it asked, and then. Err: memory.
    pub(crate) fn note(
        &mut self,
        alloc: Global,
        line: u64,
        client: u8,
        seen: (u64, u64),
        said: &[u8],
    ) -> Result<(), AllocError> {
        append_seen(alloc, line, client, seen.0, seen.1, &mut self.text)?;
        self.text.extend_from_slice(said)
    }

    /// The line of the change of this number, from 1. None can be missing; 0, which is no line, would tell of one.
    pub(crate) fn line_of(&self, number: u64) -> u64 {
        let Ok(place) = usize::try_from(number.saturating_sub(1)) else {
            return 0;
        };
        match self.changes.get(place) {
            Some(line) => *line,
            None => 0,
        }
    }
}
