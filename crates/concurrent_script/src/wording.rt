//! The lines that this program alone writes.
use crate::transcript::Transcript;
use comm_core::{Entry, Reply};
use comm_messages::Parent;
use comm_script::{append_outs, append_reply};
use std::alloc::{AllocError, Global};
use std::sync::Arc;

/// What stands before the words of a reply that is numbered 0.
const NUMBERED: &[u8] = b"reply 0 ";

/// Appends what stands before a line's answer: whose it is, and how many entries the client had seen before it asked,
/// and then. Err: memory.
pub(crate) fn append_seen(
    alloc: Global,
    line: u64,
    client: u8,
    before: u64,
    after: u64,
    out: &mut Vec<u8>,
) -> Result<(), AllocError> {
    let words = format!(in alloc; "line {line} client {client} seen {before} {after} ")?;
    out.extend_from_slice(words.as_bytes())
}

// A reply's words, and the line's end. They are those of a numbered reply without what stands before them.
fn append_words(alloc: Global, reply: &Reply, out: &mut Vec<u8>) -> Result<(), AllocError> {
    let mut numbered = Vec::new(alloc);
    append_reply(0, reply, &mut numbered)?;
    match numbered.get(NUMBERED.len()..) {
        Some(words) => out.extend_from_slice(words),
        None => Ok(()),
    }
}

// The lines of an entry that stands at this place.
fn append_entry(
    alloc: Global,
    place: u64,
    entry: &Entry,
    transcripts: &[Transcript],
    out: &mut Vec<u8>,
) -> Result<(), AllocError> {
    match entry {
        Entry::Change {
            client,
            number,
            call: _,
            outcome: _,
            reply,
            outgoing,
        } => {
            let (client, number) = (*client, *number);
            let line = match transcripts.get(usize::from(client)) {
                Some(transcript) => transcript.line_of(number),
                None => 0,
            };
            let words = format!(in alloc;
                "entry {place} client {client} call {number} line {line} "
            )?;
            out.extend_from_slice(words.as_bytes())?;
            append_words(alloc, reply, out)?;
            append_outs(outgoing.as_slice(), &Parent::Call { client, number }, out)
        }
        Entry::End => Ok(()),
    }
}

/// Appends the lines of each entry of a history; its end has none. Err: memory.
pub(crate) fn append_history(
    alloc: Global,
    history: &[Arc<Entry, Global>],
    transcripts: &[Transcript],
    out: &mut Vec<u8>,
) -> Result<(), AllocError> {
    let mut place = 0u64;
    for entry in history {
        place = place.saturating_add(1);
        append_entry(alloc, place, entry, transcripts, out)?;
    }
    Ok(())
}

/// Appends how many entries the publisher took, and how many it left, the end among them. Err: memory.
pub(crate) fn append_taken(
    alloc: Global,
    taken: u64,
    untaken: usize,
    out: &mut Vec<u8>,
) -> Result<(), AllocError> {
    let words = format!(in alloc; "taken {taken} untaken {untaken}\n")?;
    out.extend_from_slice(words.as_bytes())
}
