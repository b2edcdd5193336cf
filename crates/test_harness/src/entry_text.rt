//! Calls, answers of targets, entries and rows as text.
use crate::reply_text::append_answer;
use crate::value_text::{
    append_body, append_custom, append_outgoing_body, append_state, append_words,
};
use comm_core::{Call, Entry, KeptAnswer, Row};
use comm_messages::{Body, Outgoing, OutgoingBody, Parent};
use comm_targets::{Answer, SharedCustom, TargetFault};
use comm_value::{Dict, Text};
use std::alloc::{AllocError, Global};

fn or_dash(version: &Option<Text>) -> &str {
    match version {
        Some(version) => version.as_str(),
        None => "-",
    }
}

// A word, a comm's id, and a body.
fn append_sent(
    alloc: Global,
    word: &str,
    id: &Text,
    body: &Body,
    text: &mut Vec<u8>,
) -> Result<(), AllocError> {
    append_words(&[word, id.as_str()], text)?;
    append_body(alloc, body, text)
}

// Words, and a state.
fn append_named(words: &[&str], state: &Dict, text: &mut Vec<u8>) -> Result<(), AllocError> {
    append_words(words, text)?;
    text.push(b' ')?;
    state.write_json(text)
}

/// The line of a call, as `call_of` reads it; a register is `register NAME KIND NOTES`.
pub(crate) fn append_call(
    alloc: Global,
    call: &Call,
    text: &mut Vec<u8>,
) -> Result<(), AllocError> {
    match call {
        Call::Register { name, kind, notes } => {
            let end = format!(in alloc; "{kind:?} {notes}")?;
            append_words(&["register", name.as_str(), end.as_str()], text)
        }
        Call::Open {
            id,
            target,
            version,
            body,
        } => {
            let words = &["open", id.as_str(), target.as_str(), or_dash(version)];
            append_words(words, text)?;
            append_body(alloc, body, text)
        }
        Call::Msg { id, body } => append_sent(alloc, "msg", id, body, text),
        Call::Send { id, body } => append_sent(alloc, "send", id, body, text),
        Call::Launch { id, target, state } => {
            let id = format!(in alloc; "{id}")?;
            append_named(&["launch", id.as_str(), target.as_str()], state, text)
        }
        Call::Push { id, state } => append_named(&["push", id.as_str()], state, text),
        Call::Close { id } => append_words(&["close", id.as_str()], text),
        Call::HangUp { id } => append_words(&["hang_up", id.as_str()], text),
        Call::Unregister { name } => append_words(&["unregister", name.as_str()], text),
    }
}

// A line for the state, if there is one.
fn append_given_state(
    alloc: Global,
    state: &Option<Dict>,
    text: &mut Vec<u8>,
) -> Result<(), AllocError> {
    if let Some(state) = state {
        append_words(&["given", "state"], text)?;
        append_state(alloc, state, text)?;
        text.push(b'\n')?;
    }
    Ok(())
}

// A line for a message of a target.
fn append_given_message(
    alloc: Global,
    message: &OutgoingBody,
    text: &mut Vec<u8>,
) -> Result<(), AllocError> {
    append_words(&["given", "message"], text)?;
    append_outgoing_body(alloc, message, text)?;
    text.push(b'\n')?;
    Ok(())
}

// A line for what the caller is handed, if anything.
fn append_given_custom(
    alloc: Global,
    custom: &Option<SharedCustom>,
    text: &mut Vec<u8>,
) -> Result<(), AllocError> {
    if let Some(custom) = custom {
        let custom = custom.parts();
        append_words(&["given", "custom"], text)?;
        append_custom(alloc, &custom.content, &custom.buffers, text)?;
        text.push(b'\n')?;
    }
    Ok(())
}

/// A line for the state, for each message and for what the caller is handed, as far as an answer has them, each
/// behind `given`.
pub fn append_target_answer(
    alloc: Global,
    answer: &Answer,
    text: &mut Vec<u8>,
) -> Result<(), AllocError> {
    append_given_state(alloc, &answer.state, text)?;
    for message in answer.messages.as_slice() {
        append_given_message(alloc, message, text)?;
    }
    append_given_custom(alloc, &answer.custom, text)
}

// The same of an answer that an entry keeps, whose messages are those of a comm that go out.
fn append_kept_answer(
    alloc: Global,
    answer: &KeptAnswer,
    outgoing: &[Outgoing],
    text: &mut Vec<u8>,
) -> Result<(), AllocError> {
    append_given_state(alloc, &answer.state, text)?;
    for message in outgoing {
        if let Outgoing::Msg { body, .. } = message {
            append_given_message(alloc, body, text)?;
        }
    }
    append_given_custom(alloc, &answer.custom, text)
}

// What a target gave, or that nobody was asked.
fn append_outcome(
    alloc: Global,
    outcome: &Option<Result<KeptAnswer, TargetFault>>,
    outgoing: &[Outgoing],
    text: &mut Vec<u8>,
) -> Result<(), AllocError> {
    match outcome {
        Some(Ok(answer)) => append_kept_answer(alloc, answer, outgoing, text),
        Some(Err(fault)) => {
            let line = format!(in alloc; "given {fault:?}\n")?;
            text.extend_from_slice(line.as_bytes())
        }
        None => append_words(&["nobody asked\n"], text),
    }
}

/// An entry: whose it is and its call, what a target gave, the reply and what goes out, a line each.
pub(crate) fn append_entry(
    alloc: Global,
    entry: &Entry,
    text: &mut Vec<u8>,
) -> Result<(), AllocError> {
    let Entry::Change {
        client,
        number,
        call,
        outcome,
        reply,
        outgoing,
    } = entry
    else {
        return append_words(&["entry end\n"], text);
    };
    let head = format!(in alloc; "entry {client} {number} ")?;
    text.extend_from_slice(head.as_bytes())?;
    append_call(alloc, call, text)?;
    text.push(b'\n')?;
    append_outcome(alloc, outcome, outgoing.as_slice(), text)?;
    let parent = Parent::Call {
        client: *client,
        number: *number,
    };
    append_answer(*number, &parent, reply, outgoing.as_slice(), text)
}

fn append_state_or_dash(
    alloc: Global,
    state: &Option<Dict>,
    text: &mut Vec<u8>,
) -> Result<(), AllocError> {
    match state {
        Some(state) => append_state(alloc, state, text),
        None => append_words(&["", "-"], text),
    }
}

/// What a change does to the comms that readers see: `row same`, `row put ID TARGET STATE` (`-`: none),
/// `row out ID..` or `row clear`.
pub(crate) fn append_row(alloc: Global, row: &Row, text: &mut Vec<u8>) -> Result<(), AllocError> {
    match row {
        Row::Same => append_words(&["row", "same"], text)?,
        Row::Put(comm) => {
            append_words(
                &["row", "put", comm.id().as_str(), comm.target().as_str()],
                text,
            )?;
            append_state_or_dash(alloc, comm.state(), text)?;
        }
        Row::Out(ids) => {
            append_words(&["row", "out"], text)?;
            for id in ids.as_slice() {
                append_words(&["", id.as_str()], text)?;
            }
        }
        Row::Clear => append_words(&["row", "clear"], text)?,
    }
    text.push(b'\n')?;
    Ok(())
}
