ghost use Rattle.std.specs.Prelude.{◌≡◌, ◌<◌, IfOk, Some, option_map, codes};
ghost use Rattle.serde_json.specs.View.{view};
ghost use Rattle.serde_json.specs.Written.{outline};
ghost use Rattle.comm_messages.specs.Gives.{Gives};
ghost use Rattle.comm_messages.specs.Fields.{behind, fields};
ghost use Rattle.comm_messages.specs.Envelope.{buffers_in, envelope};
ghost use Rattle.comm_messages.specs.Message.{type_named, type_of, heading, text_at, filter_at};
ghost use Rattle.comm_messages.specs.Message.{object_of, object_at, version_of, body_with, body_of};
ghost use Rattle.comm_messages.specs.Message.{open_in, msg_in, unused_in, close_in, info_request_in};
ghost use Rattle.comm_messages.specs.Message.{incoming_in, message_from, message_in, message_of, message};

use crate::body::Body;
use crate::buffers::buffers_in;
use crate::envelope::{BuffersRef, EnvelopeRef, envelope_of_line};
use crate::fault::{Field, MessageFault};
use crate::fields::{
    Fields, client_of, dict_of, fields_of, member, object_in, object_or_empty, text, text_or_none,
};
use crate::incoming::Incoming;
use comm_json::{JsonKind, JsonRef, ObjectRef, ParseArena};
use comm_value::{Buffers, KnownTexts, Numbers, Text};
use serde_json::Value;
use std::alloc::{AllocError, Global};

/// The `msg_type` of a frontend's message.
#[derive(Clone, Copy, Debug, PartialEq, Eq, Drop)]
pub enum MessageType {
    Open,
    Msg,
    Close,
    InfoRequest,
}

/// Parses a line of JSON as a message of one of `clients` clients, whose numbers are integers. Gives the client's
/// index, from 0, and the message. Err: the first test that the line fails (see [`MessageFault`]), or Memory.
pub fn read_message(alloc: Global, line: &[u8], clients: u8) -> Result<(u8, Incoming), MessageFault>
    ensures message { Gives (λ r. (r.0, r.1)) result (message clients Numbers.Whole line.now) }
    ensures below { 0 < clients → IfOk result (λ r. r.0 < clients) }
{
    read_message_with(alloc, line, clients, Numbers::Whole)
}

/// Parses a line as [`read_message`] does, with these numbers as values. With [`Numbers::Any`] one that isn't whole is
/// kept as its text, and NotWhole doesn't come ([`crate::any_number_is_read`]).
pub fn read_message_with(
    alloc: Global,
    line: &[u8],
    clients: u8,
    numbers: Numbers,
) -> Result<(u8, Incoming), MessageFault>
    ensures message { Gives (λ r. (r.0, r.1)) result (message clients numbers line.now) }
    ensures below { 0 < clients → IfOk result (λ r. r.0 < clients) }
{
    let mut arena = ParseArena::new(alloc);
    let mut texts = KnownTexts::none(alloc);
    let object = object_in(line, &mut arena)?;
    message_in(alloc, fields_of(&object), clients, numbers, &mut texts)
}

/// Reads a message from a parsed JSON value, as [`read_message`] does from a line.
pub fn message_of(alloc: Global, value: &Value, clients: u8) -> Result<(u8, Incoming), MessageFault>
    ensures message { Gives (λ r. (r.0, r.1)) result
        (message_of clients Numbers.Whole (outline (view value.now))) }
    ensures below { 0 < clients → IfOk result (λ r. r.0 < clients) }
{
    match value {
        Value::Object(map) => {
            let mut texts = KnownTexts::none(alloc);
            let fields = Some(ObjectRef::Owned(map));
            message_in(alloc, fields, clients, Numbers::Whole, &mut texts)
        }
        _ => Err(MessageFault::NotJson),
    }
}

/// Reads a message from the members of a JSON object, as [`read_message_with`] does from a line. Its data shares the
/// short texts that were met before.
pub fn message_in(
    alloc: Global,
    line: Fields<'_, '_>,
    clients: u8,
    numbers: Numbers,
    texts: &mut KnownTexts,
) -> Result<(u8, Incoming), MessageFault>
    ensures message { Gives (λ r. (r.0, r.1)) result
        (message_in clients numbers (fields line.entry)) }
    ensures below { 0 < clients → IfOk result (λ r. r.0 < clients) }
{
    message_from(alloc, &envelope_of_line(line), clients, numbers, texts)
}

/// Makes the tests of a message's fields, with these numbers as values. Gives the client's index, from 0, and the
/// message. Err: the first test that fails (see [`MessageFault`]), or Memory.
#[tactic(auto, unfolding(crate::specs::Message::message_from))]
pub fn message_from(
    alloc: Global,
    from: &EnvelopeRef<'_, '_>,
    clients: u8,
    numbers: Numbers,
    texts: &mut KnownTexts,
) -> Result<(u8, Incoming), MessageFault>
    ensures message { Gives (λ r. (r.0, r.1)) result
        (message_from clients numbers (envelope from.now)) }
    ensures below { 0 < clients → IfOk result (λ r. r.0 < clients) }
{
    let (client, type_) = heading(from, clients)?;
    let content = object_of(Field::Content, from.content)?;
    let incoming = incoming_in(alloc, numbers, texts, type_, from, content)?;
    Ok((client, incoming))
}

/// The client's index and the type of a message, tested in this order. Err: BadClient, NoType or UnknownType.
#[tactic(auto, unfolding(crate::specs::Message::heading))]
pub fn heading(from: &EnvelopeRef<'_, '_>, clients: u8) -> Result<(u8, MessageType), MessageFault>
    ensures value { Gives (λ r. (r.0, r.1)) result (heading clients (envelope from.now)) }
    ensures below { 0 < clients → IfOk result (λ r. r.0 < clients) }
{
    let client = client_of(from.client, clients)?;
    let type_ = type_of(from.header)?;
    Ok((client, type_))
}

/// The type of a message that has this header. Err: NoType or UnknownType.
pub fn type_of(header: Option<JsonRef<'_, '_>>) -> Result<MessageType, MessageFault>
    ensures { Gives (λ t. t) result (type_of (behind header.entry)) }
{
    let Some(header) = header else {
        return Err(MessageFault::NoType);
    };
    match header.kind() {
        JsonKind::Object(object) => match text(member(Some(object), "msg_type")) {
            Some(name) => type_named(name),
            None => Err(MessageFault::NoType),
        },
        JsonKind::Null
        | JsonKind::Bool(_)
        | JsonKind::Number(_)
        | JsonKind::Text(_)
        | JsonKind::Items(_) => Err(MessageFault::NoType),
    }
}

/// The type of a message that has this `msg_type`. Err: UnknownType.
pub fn type_named(name: &str) -> Result<MessageType, MessageFault>
    ensures { Gives (λ t. t) result (type_named name.now) }
{
    if name == "comm_open" {
        Ok(MessageType::Open)
    } else if name == "comm_msg" {
        Ok(MessageType::Msg)
    } else if name == "comm_close" {
        Ok(MessageType::Close)
    } else if name == "comm_info_request" {
        Ok(MessageType::InfoRequest)
    } else {
        Err(MessageFault::UnknownType)
    }
}

#[inline(always)]
fn text_at<'v>(field: Field, key: &str, of: Fields<'v, '_>) -> Result<&'v str, MessageFault>
    ensures { Gives (λ t. t.now) result (text_at field key.now (fields of.entry)) }
{
    match text(member(of, key)) {
        Some(text) => Ok(text),
        None => Err(MessageFault::BadContent(field)),
    }
}

/// The members of an object; absent or null is an object without members. Err: BadContent(field) where the value is of
/// another kind.
pub fn object_of<'v, 'a>(
    field: Field,
    value: Option<JsonRef<'v, 'a>>,
) -> Result<Fields<'v, 'a>, MessageFault>
    ensures { Gives fields result (object_of field (behind value.entry)) }
{
    match object_or_empty(value) {
        Some(members) => Ok(members),
        None => Err(MessageFault::BadContent(field)),
    }
}

#[inline(always)]
fn object_at<'v, 'a>(
    field: Field,
    key: &str,
    of: Fields<'v, 'a>,
) -> Result<Fields<'v, 'a>, MessageFault>
    ensures { Gives fields result (object_at field key.now (fields of.entry)) }
{
    object_of(field, member(of, key))
}

fn version_of<'v>(metadata: Fields<'v, '_>) -> Option<&'v str>
    ensures { option_map (λ t. t.now) result ≡ version_of (fields metadata.entry) }
{
    text(member(metadata, "version"))
}

/// A body of `object` as its `data`, with the buffers at `line`'s member `buffers`. Err: NotWhole, BadContent(Buffers),
/// BadBuffer or Memory.
pub fn body_of(
    alloc: Global,
    numbers: Numbers,
    texts: &mut KnownTexts,
    object: Fields<'_, '_>,
    line: Fields<'_, '_>,
) -> Result<Body, MessageFault>
    ensures { Gives (λ b. b) result (body_of numbers (fields object.entry) (fields line.entry)) }
{
    body_with(
        alloc,
        numbers,
        texts,
        object,
        BuffersRef::Encoded(member(line, "buffers")),
    )
}

/// A body of `object` as its `data`, with these buffers. Err: NotWhole, what the buffers fail, or Memory.
pub fn body_with(
    alloc: Global,
    numbers: Numbers,
    texts: &mut KnownTexts,
    object: Fields<'_, '_>,
    buffers: BuffersRef<'_, '_>,
) -> Result<Body, MessageFault>
    ensures { Gives (λ b. b) result
        (body_with numbers (fields object.entry) (buffers_in buffers.entry)) }
{
    let content = dict_of(alloc, numbers, texts, object)?;
    let buffers = buffers_in(alloc, buffers)?;
    Ok(Body::new(content, buffers))
}

/// A message of this type, whose content has these members, in the order of the tests that follow those of its
/// [`heading`] and of its content. Err: the first of them that fails, or Memory.
pub fn incoming_in(
    alloc: Global,
    numbers: Numbers,
    texts: &mut KnownTexts,
    type_: MessageType,
    from: &EnvelopeRef<'_, '_>,
    content: Fields<'_, '_>,
) -> Result<Incoming, MessageFault>
    ensures { Gives (λ i. i) result
        (incoming_in numbers type_ (envelope from.now) (fields content.entry)) }
{
    match type_ {
        MessageType::Open => open_in(alloc, numbers, texts, from, content),
        MessageType::Msg => msg_in(alloc, numbers, texts, from, content),
        MessageType::Close => close_in(alloc, texts, from, content),
        MessageType::InfoRequest => info_request_in(alloc, texts, from, content),
    }
}

#[tactic(auto, unfolding(crate::specs::Message::open_in))]
fn open_in(
    alloc: Global,
    numbers: Numbers,
    texts: &mut KnownTexts,
    from: &EnvelopeRef<'_, '_>,
    content: Fields<'_, '_>,
) -> Result<Incoming, MessageFault>
    ensures { Gives (λ i. i) result (open_in numbers (envelope from.now) (fields content.entry)) }
{
    let id = text_at(Field::CommId, "comm_id", content)?;
    let target = text_at(Field::TargetName, "target_name", content)?;
    let data = object_at(Field::Body, "data", content)?;
    let metadata = object_of(Field::Metadata, from.metadata)?;
    let body = body_with(alloc, numbers, texts, data, from.buffers)?;
    Ok(open_message(alloc, texts, id, target, version_of(metadata), body)?)
}

fn open_message(
    alloc: Global,
    texts: &mut KnownTexts,
    id: &str,
    target: &str,
    version: Option<&str>,
    body: Body,
) -> Result<Incoming, AllocError>
    ensures { IfOk result
        (λ i. i ≡ Incoming.Open id.now target.now (option_map (λ s. s.now) version.entry) body) }
{
    let id = texts.text(alloc, id)?;
    let target = texts.text(alloc, target)?;
    let version = optional_text(alloc, texts, version)?;
    Ok(Incoming::Open {
        id,
        target,
        version,
        body,
    })
}

fn optional_text(
    alloc: Global,
    texts: &mut KnownTexts,
    text: Option<&str>,
) -> Result<Option<Text>, AllocError>
    ensures { IfOk result (λ t. t ≡ option_map (λ s. s.now) text.entry) }
{
    match text {
        None => Ok(None),
        Some(text) => Ok(Some(texts.text(alloc, text)?)),
    }
}

#[tactic(auto, unfolding(crate::specs::Message::msg_in))]
fn msg_in(
    alloc: Global,
    numbers: Numbers,
    texts: &mut KnownTexts,
    from: &EnvelopeRef<'_, '_>,
    content: Fields<'_, '_>,
) -> Result<Incoming, MessageFault>
    ensures { Gives (λ i. i) result (msg_in numbers (envelope from.now) (fields content.entry)) }
{
    let id = text_at(Field::CommId, "comm_id", content)?;
    let data = object_at(Field::Body, "data", content)?;
    object_of(Field::Metadata, from.metadata)?;
    let body = body_with(alloc, numbers, texts, data, from.buffers)?;
    Ok(Incoming::Msg {
        id: texts.text(alloc, id)?,
        body,
    })
}

#[tactic(auto, unfolding(crate::specs::Message::close_in))]
fn close_in(
    alloc: Global,
    texts: &mut KnownTexts,
    from: &EnvelopeRef<'_, '_>,
    content: Fields<'_, '_>,
) -> Result<Incoming, MessageFault>
    ensures { Gives (λ i. i) result (close_in (envelope from.now) (fields content.entry)) }
{
    let id = text_at(Field::CommId, "comm_id", content)?;
    object_at(Field::Body, "data", content)?;
    unused_in(alloc, from)?;
    Ok(Incoming::Close {
        id: texts.text(alloc, id)?,
    })
}

// Checks the metadata and the buffers of a message that uses neither.
fn unused_in(alloc: Global, from: &EnvelopeRef<'_, '_>) -> Result<Buffers, MessageFault>
    ensures { Gives (λ b. b) result (unused_in (envelope from.now)) }
{
    object_of(Field::Metadata, from.metadata)?;
    buffers_in(alloc, from.buffers)
}

#[tactic(auto, unfolding(crate::specs::Message::info_request_in))]
fn info_request_in(
    alloc: Global,
    texts: &mut KnownTexts,
    from: &EnvelopeRef<'_, '_>,
    content: Fields<'_, '_>,
) -> Result<Incoming, MessageFault>
    ensures { Gives (λ i. i) result (info_request_in (envelope from.now) (fields content.entry)) }
{
    let target = filter_at("target_name", content)?;
    unused_in(alloc, from)?;
    Ok(Incoming::InfoRequest {
        target: optional_text(alloc, texts, target)?,
    })
}

fn filter_at<'v>(key: &str, of: Fields<'v, '_>) -> Result<Option<&'v str>, MessageFault>
    ensures { Gives (λ o. option_map (λ t. t.now) o) result (filter_at key.now (fields of.entry)) }
{
    match text_or_none(member(of, key)) {
        Some(text) => Ok(text),
        None => Err(MessageFault::BadContent(Field::TargetName)),
    }
}
