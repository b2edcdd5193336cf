ghost use Rattle.comm_value.specs.Gives.{or_fault};
ghost use Rattle.comm_messages.specs.Gives.{Gives};
ghost use Rattle.comm_messages.specs.Fields.{behind};
ghost use Rattle.comm_messages.specs.Buffers.{buffers_of, buffer_of, buffers_from};
ghost use Rattle.comm_messages.specs.Envelope.{buffers_in};
ghost use Rattle.comm_json.specs.Behind.{items};
ghost use Rattle.comm_json.specs.Behind.{behind as of_ref};
ghost use Rattle.comm_messages.specs.declared.fault.MessageFault.TheVariants.{BadBuffer};

use crate::envelope::BuffersRef;
use crate::fault::{Field, MessageFault};
use crate::raw_buffers::copy_buffers;
use base64::DecodeAllocError;
use base64::engine::general_purpose::STANDARD;
use comm_json::{ItemsRef, JsonKind, JsonRef};
use comm_value::{Buffers, Bytes};
use std::alloc::Global;

/// The buffers of a message. Those of a line are decoded as [`buffers_of`] does, with its errors; those beside it are
/// copied. Err: Memory.
pub fn buffers_in(alloc: Global, buffers: BuffersRef<'_, '_>) -> Result<Buffers, MessageFault>
    ensures { Gives (λ b. b) result (buffers_in buffers.entry) }
{
    match buffers {
        BuffersRef::Encoded(value) => buffers_of(alloc, value),
        BuffersRef::Raw(buffers) => Ok(copy_buffers(alloc, buffers)?),
    }
}

/// Decodes a JSON list of strings in base64 with padding (RFC 4648, section 4); absent or null is no buffer. Err:
/// BadContent(Buffers) where the value isn't a list, BadBuffer(n) of the first item that isn't such a string, or
/// Memory.
pub fn buffers_of(alloc: Global, value: Option<JsonRef<'_, '_>>) -> Result<Buffers, MessageFault>
    ensures { Gives (λ b. b) result (buffers_of (behind value.entry)) }
{
    let Some(value) = value else {
        return Ok(Buffers::none(alloc));
    };
    match value.kind() {
        JsonKind::Null => Ok(Buffers::none(alloc)),
        JsonKind::Items(texts) => decode_buffers(alloc, texts),
        JsonKind::Bool(_) | JsonKind::Number(_) | JsonKind::Text(_) | JsonKind::Object(_) => Err(
            MessageFault::BadContent(Field::Buffers),
        ),
    }
}

fn decode_buffers(alloc: Global, texts: ItemsRef<'_, '_>) -> Result<Buffers, MessageFault>
    ensures { Gives (λ b. b) result (buffers_from 0 (items texts.entry)) }
{
    let mut all = Vec::with_capacity(alloc, texts.len())?;
    while let Some(text) = texts.get(all.len()) {
        all.push(decode_buffer(alloc, all.len(), text)?)?;
    }
    Ok(Buffers::new(all))
}

fn decode_buffer(alloc: Global, number: usize, text: JsonRef<'_, '_>) -> Result<Bytes, MessageFault>
    ensures { Gives (λ b. b) result (or_fault (BadBuffer number) (buffer_of (of_ref text.entry))) }
{
    match text.kind() {
        JsonKind::Text(text) => match STANDARD.decode(alloc, text.as_bytes()) {
            Ok(bytes) => Ok(Bytes::new(alloc, bytes)?),
            Err(DecodeAllocError::DecodeError(_)) => Err(MessageFault::BadBuffer(number)),
            Err(DecodeAllocError::OutOfMemory) => Err(MessageFault::Memory),
        },
        JsonKind::Null
        | JsonKind::Bool(_)
        | JsonKind::Number(_)
        | JsonKind::Items(_)
        | JsonKind::Object(_) => Err(MessageFault::BadBuffer(number)),
    }
}
