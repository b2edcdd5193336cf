//! The parts of a message that is sent and of a reply, by their numbers. `rolgunai.h` has the same.
ghost use Rattle.std.specs.Prelude.{◌≡◌, IfOk, option_map, slice_get};
ghost use Rattle.comm_value.specs.Places.{member_buffers};
ghost use Rattle.comm_messages.specs.Text.{parts_of};
ghost use Rattle.comm_c.specs.PartBytes.{bytes_of_part};
ghost use Rattle.comm_c.specs.Parts.{change_part, custom_part, id_in, ids_part, members_part, message_part};
ghost use Rattle.comm_c.specs.Parts.{part_replied, part_sent, reply_part, state_part, target_part};

use crate::call_result::{CallResult, MadeChange};
use comm_core::{Ids, Reply, StateAnswer};
use comm_messages::{Outgoing, append_content, append_ids, append_metadata};
use comm_script::append_state_content;
use comm_targets::Custom;
use comm_value::{Buffers, Bytes, Dict, Separated, Text, separate};
use std::alloc::{AllocError, Global};

/// The bytes of a part: those that the call's result has, a buffer that it shares, or JSON that was written when it was
/// asked for.
#[derive(Drop)]
pub enum PartBytes<'a> {
    Borrowed(&'a [u8]),
    Shared(Bytes),
    Written(Vec<u8>),
}

impl PartBytes<'_> {
    /// The bytes.
    pub fn as_slice(&self) -> &[u8]
        ensures { result.now ≡ bytes_of_part self.now }
    {
        match self {
            PartBytes::Borrowed(bytes) => bytes,
            PartBytes::Shared(bytes) => bytes.as_slice(),
            PartBytes::Written(bytes) => bytes,
        }
    }
}

/// The number of the first binary buffer.
const FIRST_BUFFER: usize = 5;

fn type_of(message: &Outgoing) -> &'static [u8]
    ensures { result.now ≡ (parts_of message.now).type }
{
    match message {
        Outgoing::Open { .. } => b"comm_open",
        Outgoing::Msg { .. } => b"comm_msg",
        Outgoing::Close { .. } => b"comm_close",
        Outgoing::InfoReply { .. } => b"comm_info_reply",
    }
}

fn id_in(message: &Outgoing) -> &[u8]
    ensures { result.now ≡ id_in message.now }
{
    match message {
        Outgoing::Open { id, .. } | Outgoing::Msg { id, .. } | Outgoing::Close { id } => id
            .as_str()
            .as_bytes(),
        Outgoing::InfoReply { .. } => b"",
    }
}

fn buffer_at(buffers: &Buffers, number: usize) -> Option<PartBytes<'_>>
    ensures { option_map bytes_of_part result ≡ slice_get buffers.now number }
{
    match buffers.as_slice().get(number) {
        Some(bytes) => Some(PartBytes::Borrowed(bytes.as_slice())),
        None => None,
    }
}

fn buffer_of(message: &Outgoing, number: usize) -> Option<PartBytes<'_>>
    ensures { option_map bytes_of_part result ≡ slice_get (parts_of message.now).buffers number }
{
    match message {
        Outgoing::Open { body, .. } | Outgoing::Msg { body, .. } => buffer_at(
            body.buffers(),
            number,
        ),
        Outgoing::Close { .. } | Outgoing::InfoReply { .. } => None,
    }
}

fn message_part(
    alloc: Global,
    message: &Outgoing,
    part: usize,
) -> Result<Option<PartBytes<'_>>, AllocError>
    ensures { IfOk result (λ p. option_map bytes_of_part p ≡ message_part message.now part) }
{
    if part == 0 {
        Ok(Some(PartBytes::Borrowed(type_of(message))))
    } else if part == 1 {
        Ok(Some(PartBytes::Borrowed(id_in(message))))
    } else if part == 2 {
        let mut text = Vec::new(alloc);
        append_content(message, &mut text)?;
        Ok(Some(PartBytes::Written(text)))
    } else if part == 3 {
        let mut text = Vec::new(alloc);
        append_metadata(message, &mut text)?;
        Ok(Some(PartBytes::Written(text)))
    } else if part == 4 {
        Ok(None)
    } else {
        Ok(buffer_of(message, part - FIRST_BUFFER))
    }
}

fn custom_part(
    alloc: Global,
    custom: &Custom,
    part: usize,
) -> Result<Option<PartBytes<'_>>, AllocError>
    ensures { IfOk result (λ p. option_map bytes_of_part p ≡ custom_part custom.now part) }
{
    if part == 2 {
        let mut text = Vec::new(alloc);
        custom.content.write_json(&mut text)?;
        Ok(Some(PartBytes::Written(text)))
    } else if part < FIRST_BUFFER {
        Ok(None)
    } else {
        Ok(buffer_at(&custom.buffers, part - FIRST_BUFFER))
    }
}

fn ids_part(alloc: Global, ids: &Ids, part: usize) -> Result<Option<PartBytes<'_>>, AllocError>
    ensures { IfOk result (λ p. option_map bytes_of_part p ≡ ids_part ids.now part) }
{
    if part == 2 {
        let mut text = Vec::new(alloc);
        append_ids(ids.as_slice(), &mut text)?;
        Ok(Some(PartBytes::Written(text)))
    } else {
        Ok(None)
    }
}

fn reply_part(
    alloc: Global,
    reply: &Reply,
    part: usize,
) -> Result<Option<PartBytes<'_>>, AllocError>
    ensures { IfOk result (λ p. option_map bytes_of_part p ≡ reply_part reply.now part) }
{
    match reply {
        Reply::Delivered(Some(custom)) => custom_part(alloc, custom.parts(), part),
        Reply::Unregistered(ids) => ids_part(alloc, ids, part),
        Reply::Replaced(ids) => ids_part(alloc, ids, part),
        _ => Ok(None),
    }
}

fn text_part(text: &Option<Text>) -> Option<PartBytes<'_>>
    ensures { option_map bytes_of_part result ≡ text.now }
{
    match text {
        Some(text) => Some(PartBytes::Borrowed(text.as_str().as_bytes())),
        None => None,
    }
}

fn target_part(name: &Option<Text>, part: usize) -> Option<PartBytes<'_>>
    ensures { option_map bytes_of_part result ≡ target_part name.now part }
{
    if part == 4 { text_part(name) } else { None }
}

fn change_part(
    alloc: Global,
    made: &MadeChange,
    part: usize,
) -> Result<Option<PartBytes<'_>>, AllocError>
    ensures { IfOk result (λ p. option_map bytes_of_part p ≡ change_part made.now part) }
{
    if part == 1 {
        Ok(text_part(&made.subject.comm))
    } else if part == 4 {
        Ok(text_part(&made.subject.target))
    } else {
        reply_part(alloc, &made.reply, part)
    }
}

// A buffer of a state, in the order of its paths. Err: memory.
fn state_buffer(
    alloc: Global,
    state: &Dict,
    number: usize,
) -> Result<Option<PartBytes<'_>>, AllocError>
    ensures { IfOk result
        (λ p. option_map bytes_of_part p ≡ slice_get (member_buffers state.now) number) }
{
    let Separated {
        plain,
        paths: _,
        buffers,
    } = separate(alloc, state)?;
    drop(plain);
    match buffers.as_slice().get(number) {
        Some(bytes) => Ok(Some(PartBytes::Shared(bytes.copy()?))),
        None => Ok(None),
    }
}

fn members_part(
    alloc: Global,
    state: &Dict,
    part: usize,
) -> Result<Option<PartBytes<'_>>, AllocError>
    ensures { IfOk result (λ p. option_map bytes_of_part p ≡ members_part state.now part) }
{
    if part == 2 {
        let mut text = Vec::new(alloc);
        append_state_content(alloc, state, &mut text)?;
        Ok(Some(PartBytes::Written(text)))
    } else if part < FIRST_BUFFER {
        Ok(None)
    } else {
        state_buffer(alloc, state, part - FIRST_BUFFER)
    }
}

fn state_part(
    alloc: Global,
    answer: &StateAnswer,
    part: usize,
) -> Result<Option<PartBytes<'_>>, AllocError>
    ensures { IfOk result (λ p. option_map bytes_of_part p ≡ state_part answer.now part) }
{
    match answer {
        StateAnswer::State(state) => members_part(alloc, state, part),
        StateAnswer::NoComm | StateAnswer::NoState => Ok(None),
    }
}

impl CallResult {
    /// A part of a message that the call sends, by the message's number; None where there is none. Err:
    /// memory.
    pub fn part(
        &self,
        alloc: Global,
        message: usize,
        part: usize,
    ) -> Result<Option<PartBytes<'_>>, AllocError>
        ensures { IfOk result (λ p. option_map bytes_of_part p ≡ part_sent self.now message part) }
    {
        match self.sent().get(message) {
            Some(message) => message_part(alloc, message, part),
            None => Ok(None),
        }
    }

    /// A part of the reply; None where there is none. Err: memory.
    pub fn reply_part(
        &self,
        alloc: Global,
        part: usize,
    ) -> Result<Option<PartBytes<'_>>, AllocError>
        ensures { IfOk result (λ p. option_map bytes_of_part p ≡ part_replied self.now part) }
    {
        match self {
            CallResult::Change(made) => change_part(alloc, made, part),
            CallResult::State { answer, .. } => state_part(alloc, answer, part),
            CallResult::Target { name, .. } => Ok(target_part(name, part)),
            CallResult::Nothing | CallResult::Bad { .. } | CallResult::Infos { .. } => Ok(None),
        }
    }
}
