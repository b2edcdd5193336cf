//! What a frontend's message asks for. Of one for an opaque target neither data nor buffers count, whatever they are.
ghost use Rattle.std.specs.Prelude.{◌≡◌, ◌<◌, IfOk, IfSome, option_map};
ghost use Rattle.comm_messages.specs.Buffers.{raw_buffers};
ghost use Rattle.comm_messages.specs.Envelope.{envelope};
ghost use Rattle.comm_messages.specs.Fields.{fields};
ghost use Rattle.comm_core.specs.Ready.{HandsNothingIn, machine};
ghost use Rattle.comm_script.specs.Command.{HandsNothing};
ghost use Rattle.comm_script.specs.Line.{Gives as ReadGives};
ghost use Rattle.comm_c.specs.Handles.{IsAllowed};
ghost use Rattle.comm_c.specs.Inputs.{Gives, envelope_input, message_input, raw_tested};
ghost use Rattle.comm_c.specs.Opaque.{AskedByParts, asked_for, asked_of, bare, comm_id_in, is_for_opaque, is_opaque};
ghost use Rattle.comm_c.specs.Opaque.{is_opaque_comm, is_opaque_target};
ghost use Rattle.comm_c.specs.Opaque.{nothing_in, opaque_call, opaque_close, opaque_msg, opaque_open, opening_in};

use crate::builtin_target::BuiltinTarget;
use crate::input::{CallFault, Input, MAX_CLIENTS, test_buffers};
use bumpalo::Bump;
use comm_core::{Call, Core};
use comm_messages::{
    Body, EnvelopeRef, Field, Fields, Incoming, IncomingParts, MessageFault, MessageType,
    PartsScratch, RawBuffers, heading, incoming_in, member, object_of, parse_parts, text, type_of,
};
use comm_reader::parts_at_once;
use comm_script::{LineFault, Request, asked_by_message};
use comm_targets::Kind;
use comm_value::{Buffers, Dict, KnownTexts, Numbers, Text};
use std::alloc::{AllocError, Global};
use std::str;

/// The most bytes of a content that are read although nobody here may want them: less than it takes to look first.
const SMALL: usize = 1024;

fn is_opaque(kind: Option<Kind>) -> bool
    ensures { result ≡ is_opaque kind }
{
    match kind {
        Some(Kind::Opaque) => true,
        _ => false,
    }
}

fn comm_id_in<'v>(content: Fields<'v, '_>) -> Option<&'v str>
    ensures { option_map (λ t. t.now) result ≡ comm_id_in (fields content.entry) }
{
    text(member(content, "comm_id"))
}

// The id of the comm that a message opens, where the type and the id can be read. Err: memory.
fn opening_in(alloc: Global, from: &EnvelopeRef<'_, '_>) -> Result<Option<Text>, AllocError>
    ensures { IfOk result (λ o. o ≡ opening_in (envelope from.now)) }
{
    match type_of(from.header) {
        Ok(MessageType::Open) => match object_of(Field::Content, from.content) {
            Ok(content) => match comm_id_in(content) {
                Some(id) => Ok(Some(Text::copy_of(alloc, id)?)),
                None => Ok(None),
            },
            Err(MessageFault::Memory) => Err(AllocError),
            Err(_) => Ok(None),
        },
        Ok(MessageType::Msg | MessageType::Close | MessageType::InfoRequest) => Ok(None),
        Err(MessageFault::Memory) => Err(AllocError),
        Err(_) => Ok(None),
    }
}

// The id with which a content begins, as frontends write it. None: another member comes first.
fn leading_id(content: &[u8]) -> Option<&str> {
    let from = if content.starts_with(b"{\"comm_id\":\"") {
        12
    } else if content.starts_with(b"{\"comm_id\": \"") {
        13
    } else {
        return None;
    };
    let rest = content.get(from..)?;
    let end = rest.iter().position(|byte| *byte == b'"')?;
    str::from_utf8(rest.get(..end)?).ok()
}

// A body without data and without buffers.
fn nothing_in(alloc: Global) -> Body
    ensures { result ≡ nothing_in }
{
    Body::new(Dict::new(), Buffers::none(alloc))
}

fn is_opaque_target(core: &Core<BuiltinTarget>, name: &Text) -> bool
    ensures { result ≡ is_opaque_target (machine core.now) name.now }
{
    is_opaque(core.kind_of(name))
}

fn is_opaque_comm(core: &Core<BuiltinTarget>, id: &Text) -> bool
    ensures { result ≡ is_opaque_comm (machine core.now) id.now }
{
    match core.target_of(id) {
        Some(name) => is_opaque_target(core, name),
        None => false,
    }
}

fn opaque_open(
    alloc: Global,
    core: &Core<BuiltinTarget>,
    id: Option<&str>,
    target: Option<&str>,
) -> Result<Option<Call>, AllocError>
    ensures call { IfOk result (λ c. c ≡ opaque_open (machine core.now)
        (option_map (λ t. t.now) id.entry) (option_map (λ t. t.now) target.entry)) }
    ensures handless { IfOk result (λ c. IfSome c HandsNothingIn) }
{
    let Some(id) = id else {
        return Ok(None);
    };
    let Some(target) = target else {
        return Ok(None);
    };
    let target = Text::copy_of(alloc, target)?;
    if is_opaque_target(core, &target) {
        Ok(Some(Call::Open {
            id: Text::copy_of(alloc, id)?,
            target,
            version: None,
            body: nothing_in(alloc),
        }))
    } else {
        Ok(None)
    }
}

fn opaque_msg(
    alloc: Global,
    core: &Core<BuiltinTarget>,
    texts: &mut KnownTexts,
    id: Option<&str>,
) -> Result<Option<Call>, AllocError>
    ensures call { IfOk result (λ c. c ≡ opaque_msg (machine core.now)
        (option_map (λ t. t.now) id.entry)) }
    ensures handless { IfOk result (λ c. IfSome c HandsNothingIn) }
{
    let Some(id) = id else {
        return Ok(None);
    };
    let id = texts.text(alloc, id)?;
    if is_opaque_comm(core, &id) {
        Ok(Some(Call::Msg {
            id,
            body: nothing_in(alloc),
        }))
    } else {
        Ok(None)
    }
}

fn opaque_close(
    alloc: Global,
    core: &Core<BuiltinTarget>,
    texts: &mut KnownTexts,
    id: Option<&str>,
) -> Result<Option<Call>, AllocError>
    ensures call { IfOk result (λ c. c ≡ opaque_close (machine core.now)
        (option_map (λ t. t.now) id.entry)) }
    ensures handless { IfOk result (λ c. IfSome c HandsNothingIn) }
{
    let Some(id) = id else {
        return Ok(None);
    };
    let id = texts.text(alloc, id)?;
    if is_opaque_comm(core, &id) {
        Ok(Some(Call::Close { id }))
    } else {
        Ok(None)
    }
}

fn opaque_call(
    alloc: Global,
    core: &Core<BuiltinTarget>,
    texts: &mut KnownTexts,
    type_: MessageType,
    content: Fields<'_, '_>,
) -> Result<Option<Call>, AllocError>
    ensures call { IfOk result
        (λ c. c ≡ opaque_call (machine core.now) type_ (fields content.entry)) }
    ensures handless { IfOk result (λ c. IfSome c HandsNothingIn) }
{
    match type_ {
        MessageType::Open => {
            let target = text(member(content, "target_name"));
            opaque_open(alloc, core, comm_id_in(content), target)
        }
        MessageType::Msg => opaque_msg(alloc, core, texts, comm_id_in(content)),
        MessageType::Close => opaque_close(alloc, core, texts, comm_id_in(content)),
        MessageType::InfoRequest => Ok(None),
    }
}

// What the message of an envelope asks for, of an opaque target by its heading and the names in its content alone.
// Err: the first test that fails, or Memory.
#[tactic(auto, unfolding(comm_messages::specs::Message::message_from))]
fn asked_of(
    alloc: Global,
    core: &Core<BuiltinTarget>,
    numbers: Numbers,
    from: &EnvelopeRef<'_, '_>,
    texts: &mut KnownTexts,
) -> Result<(u8, Request), LineFault>
    ensures asked { ReadGives (λ r. (r.0, r.1)) result
        (asked_of (machine core.now) numbers (envelope from.now)) }
    ensures below { IfOk result (λ r. r.0 < 4) }
    ensures handless { IfOk result (λ r. HandsNothing r.1) }
{
    let (client, type_) = heading(from, MAX_CLIENTS)?;
    let content = object_of(Field::Content, from.content)?;
    let request = match opaque_call(alloc, core, texts, type_, content)? {
        Some(call) => Request::Change(call),
        None => asked_by_message(incoming_in(alloc, numbers, texts, type_, from, content)?),
    };
    Ok((client, request))
}

// What the message of an envelope asks for. Err: memory.
fn envelope_input(
    alloc: Global,
    core: &Core<BuiltinTarget>,
    numbers: Numbers,
    from: &EnvelopeRef<'_, '_>,
    texts: &mut KnownTexts,
) -> Result<Input, AllocError>
    ensures input { IfOk result (λ i. i
        ≡ envelope_input (machine core.now) numbers (envelope from.now)) }
    ensures allowed { IfOk result IsAllowed }
{
    match asked_of(alloc, core, numbers, from, texts) {
        Ok((client, request)) => Ok(Input::reading(Ok((client, request)))),
        Err(fault) if fault.is_memory() => Err(AllocError),
        Err(fault) => {
            let opening = opening_in(alloc, from)?;
            Ok(Input {
                asked: Some(Err(fault)),
                opening,
            })
        }
    }
}

fn is_for_opaque(core: &Core<BuiltinTarget>, message: &Incoming) -> bool
    ensures { result ≡ is_for_opaque (machine core.now) message.now }
{
    match message {
        Incoming::Open { target, .. } => is_opaque_target(core, target),
        Incoming::Msg { id, .. } => is_opaque_comm(core, id),
        Incoming::Close { id } => is_opaque_comm(core, id),
        Incoming::InfoRequest { .. } => false,
    }
}

// The message without its version, its data and its buffers.
fn bare(alloc: Global, message: Incoming) -> Incoming
    ensures { result ≡ bare message }
{
    match message {
        Incoming::Open { id, target, .. } => Incoming::Open {
            id,
            target,
            version: None,
            body: nothing_in(alloc),
        },
        Incoming::Msg { id, .. } => Incoming::Msg {
            id,
            body: nothing_in(alloc),
        },
        Incoming::Close { id } => Incoming::Close { id },
        Incoming::InfoRequest { target } => Incoming::InfoRequest { target },
    }
}

// What a message that was read asks for.
fn asked_for(alloc: Global, core: &Core<BuiltinTarget>, message: Incoming) -> Request
    ensures asked { result ≡ asked_for (machine core.now) message }
    ensures handless { HandsNothing result }
{
    if is_for_opaque(core, &message) {
        asked_by_message(bare(alloc, message))
    } else {
        asked_by_message(message)
    }
}

// Whether the content begins with the id of an opaque comm. It is a guess, which spares reading what nobody here
// wants: the message is read, and its id tested, in any case.
fn looks_opaque(
    alloc: Global,
    core: &Core<BuiltinTarget>,
    content: &[u8],
    texts: &mut KnownTexts,
) -> bool {
    let Some(id) = leading_id(content) else {
        return false;
    };
    match texts.text(alloc, id) {
        Ok(id) => is_opaque_comm(core, &id),
        Err(_) => false,
    }
}

fn has_bytes(buffers: RawBuffers<'_>) -> bool {
    match buffers {
        RawBuffers::Joined { bytes, sizes: _ } => !bytes.is_empty(),
        RawBuffers::Frames(frames) => !frames.is_empty(),
    }
}

// What a message by its parts asks for, if it can be read in one walk over its content, and doesn't look as if much of
// it would be read in vain, for an opaque target.
fn asked_at_once<'a>(
    alloc: Global,
    core: &Core<BuiltinTarget>,
    numbers: Numbers,
    client: u32,
    header: &'a [u8],
    metadata: &'a [u8],
    content: &'a [u8],
    buffers: RawBuffers<'a>,
    scratch: &'a mut PartsScratch,
    lists: &'a Bump,
    texts: &mut KnownTexts,
    has_opaque: bool,
) -> Option<(u8, Request)>
    ensures asked { IfSome result (λ r. AskedByParts (machine core.now) numbers
        client header.now metadata.now content.now (raw_buffers buffers.entry)
        (r.0, r.1)) }
    ensures below { IfSome result (λ r. r.0 < 4) }
    ensures handless { IfSome result (λ r. HandsNothing r.1) }
{
    let is_large = content.len() > SMALL || has_bytes(buffers);
    if has_opaque && is_large && looks_opaque(alloc, core, content, texts) {
        return None;
    }
    let parts = IncomingParts {
        client,
        header,
        metadata,
        content,
        buffers,
    };
    let (client, message) = parts_at_once(
        alloc,
        parts,
        MAX_CLIENTS,
        numbers,
        scratch,
        lists,
        texts,
    )?;
    Some((client, asked_for(alloc, core, message)))
}

/// What a message by its parts asks for. The sizes are tested first, then whether the texts are JSON. Where there
/// may be an opaque target, a large message for one is told by the id that its content begins with, before data and
/// buffers are read. Err: the first test that fails, or Memory.
#[tactic(auto, unfolding(crate::specs::Inputs::message_input))]
pub fn message_input<'a>(
    alloc: Global,
    core: &Core<BuiltinTarget>,
    numbers: Numbers,
    client: u32,
    header: &'a [u8],
    metadata: &'a [u8],
    content: &'a [u8],
    buffers: RawBuffers<'a>,
    scratch: &'a mut PartsScratch,
    texts: &mut KnownTexts,
    has_opaque: bool,
) -> Result<Input, CallFault>
    ensures input { Gives (λ i. i) result
        (message_input (machine core.now) numbers client header.now metadata.now
        content.now (raw_tested buffers.entry)) }
    ensures allowed { IfOk result IsAllowed }
{
    test_buffers(buffers)?;
    let lists = Bump::new(alloc);
    if let Some(asked) = asked_at_once(
        alloc, core, numbers, client, header, metadata, content, buffers, scratch, &lists, texts,
        has_opaque,
    ) {
        return Ok(Input::reading(Ok(asked)));
    }
    match parse_parts(client, header, metadata, content, buffers, scratch, &lists) {
        Ok(read) => Ok(envelope_input(alloc, core, numbers, &read.envelope(), texts)?),
        Err(MessageFault::Memory) => Err(CallFault::Memory),
        Err(_) => Err(CallFault::NotJson),
    }
}
