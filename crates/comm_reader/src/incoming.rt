ghost use Rattle.std.specs.Prelude.{◌≡◌, false, Ok, IfSome, option_map};
ghost use Rattle.json.specs.Json.{Members};
ghost use Rattle.comm_value.specs.Places.{members_have_bytes};
ghost use Rattle.comm_messages.specs.Envelope.{Envelope};
ghost use Rattle.comm_messages.specs.Message.{close_in, incoming_in, info_request_in, msg_in, open_in};
ghost use Rattle.comm_value.specs.declared.from_json.Numbers.{Numbers};
ghost use Rattle.comm_reader.specs.Reader.{HasContent, HasRest};

use crate::content::Content;
use comm_messages::{Body, Incoming, MessageType};
use comm_value::{Buffers, KnownTexts, Text};
use std::alloc::Global;

fn known(alloc: Global, texts: &mut KnownTexts, text: Option<&str>) -> Option<Option<Text>>
    ensures { IfSome result (λ t. t ≡ option_map (λ s. s.now) text.entry) }
{
    match text {
        None => Some(None),
        Some(text) => Some(Some(texts.text(alloc, text).ok()?)),
    }
}

#[tactic(auto, unfolding(comm_messages::specs::Message::open_in))]
fn open_of(
    alloc: Global,
    texts: &mut KnownTexts,
    content: Content<'_>,
    version: Option<&str>,
    buffers: Buffers,
) -> Option<Incoming>
    requires { members_have_bytes content.dict ≡ false }
    ensures { IfSome result (λ i. (numbers : Numbers) (from : Envelope) (ms : Members)
        → HasContent numbers content.entry ms → HasRest from version.entry buffers
        → open_in numbers from ms ≡ Ok i) }
{
    let Content {
        dict,
        comm_id,
        target_name,
    } = content;
    let id = comm_id?;
    let target = target_name?;
    Some(Incoming::Open {
        id: texts.text(alloc, id).ok()?,
        target: texts.text(alloc, target).ok()?,
        version: known(alloc, texts, version)?,
        body: Body::new(dict, buffers),
    })
}

#[tactic(auto, unfolding(comm_messages::specs::Message::msg_in))]
fn msg_of(
    alloc: Global,
    texts: &mut KnownTexts,
    content: Content<'_>,
    version: Option<&str>,
    buffers: Buffers,
) -> Option<Incoming>
    requires { members_have_bytes content.dict ≡ false }
    ensures { IfSome result (λ i. (numbers : Numbers) (from : Envelope) (ms : Members)
        → HasContent numbers content.entry ms → HasRest from version.entry buffers
        → msg_in numbers from ms ≡ Ok i) }
{
    let Content { dict, comm_id, .. } = content;
    let id = comm_id?;
    Some(Incoming::Msg {
        id: texts.text(alloc, id).ok()?,
        body: Body::new(dict, buffers),
    })
}

#[tactic(auto, unfolding(comm_messages::specs::Message::close_in))]
fn close_of(
    alloc: Global,
    texts: &mut KnownTexts,
    content: &Content<'_>,
    version: Option<&str>,
    buffers: &Buffers,
) -> Option<Incoming>
    ensures { IfSome result (λ i. (numbers : Numbers) (from : Envelope) (ms : Members)
        → HasContent numbers content.now ms → HasRest from version.entry buffers.now
        → close_in from ms ≡ Ok i) }
{
    let id = content.comm_id?;
    Some(Incoming::Close {
        id: texts.text(alloc, id).ok()?,
    })
}

#[tactic(auto, unfolding(comm_messages::specs::Message::info_request_in))]
fn info_request_of(
    alloc: Global,
    texts: &mut KnownTexts,
    content: &Content<'_>,
    version: Option<&str>,
    buffers: &Buffers,
) -> Option<Incoming>
    ensures { IfSome result (λ i. (numbers : Numbers) (from : Envelope) (ms : Members)
        → HasContent numbers content.now ms → HasRest from version.entry buffers.now
        → info_request_in from ms ≡ Ok i) }
{
    Some(Incoming::InfoRequest {
        target: known(alloc, texts, content.target_name)?,
    })
}

/// The message of this type with this content, this version in its metadata, and these buffers. None: it fails a test
/// of its content, or memory ran out.
pub fn incoming_of(
    alloc: Global,
    texts: &mut KnownTexts,
    type_: MessageType,
    content: Content<'_>,
    version: Option<&str>,
    buffers: Buffers,
) -> Option<Incoming>
    requires { members_have_bytes content.dict ≡ false }
    ensures { IfSome result (λ i. (numbers : Numbers) (from : Envelope) (ms : Members)
        → HasContent numbers content.entry ms → HasRest from version.entry buffers
        → incoming_in numbers type_ from ms ≡ Ok i) }
{
    match type_ {
        MessageType::Open => open_of(alloc, texts, content, version, buffers),
        MessageType::Msg => msg_of(alloc, texts, content, version, buffers),
        MessageType::Close => close_of(alloc, texts, &content, version, &buffers),
        MessageType::InfoRequest => info_request_of(alloc, texts, &content, version, &buffers),
    }
}
