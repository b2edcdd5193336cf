//! What came of a call, in the words of scripts.
use comm_core::Reply;
use comm_messages::{Outgoing, Parent};
use comm_script::{append_outs, append_reply};
use std::alloc::AllocError;

/// The line `reply <place> <words>`, and a line `out <json>` of each message (docs/FORMATS.md, "The answers").
pub fn append_answer(
    place: u64,
    parent: &Parent,
    reply: &Reply,
    outgoing: &[Outgoing],
    text: &mut Vec<u8>,
) -> Result<(), AllocError> {
    append_reply(place, reply, text)?;
    append_outs(outgoing, parent, text)?;
    Ok(())
}
