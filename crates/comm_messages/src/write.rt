ghost use Rattle.std.specs.Prelude.{◌≡◌, ◌++◌, ◌∷◌, [], false, true, OnOk, IfOk, nat_lt, codes, decimal};
ghost use Rattle.base64.specs.GeneralPurpose.{encode_of};
ghost use Rattle.base64.specs.Engines.{standard};
ghost use Rattle.json.specs.Print.{quoted};
ghost use Rattle.serde_json.specs.Written.{comma_if};
ghost use Rattle.comm_json.specs.Text.{items_text, members_text, compact_text};
ghost use Rattle.json.specs.Json.{object};
ghost use Rattle.comm_value.specs.ToJson.{json_members};
ghost use Rattle.comm_messages.specs.declared.outgoing.Outgoing.TheVariants as outgoing;
ghost use Rattle.comm_messages.specs.declared.outgoing.Parent.TheVariants as parents;
ghost use Rattle.comm_messages.specs.Text.{text, buffer_texts, comm_members, goes_with};
ghost use Rattle.comm_messages.specs.Parts.{GrowsBy, buffers_text, parent_text, front_text};
ghost use Rattle.comm_messages.specs.Parts.{content_text, info_text, metadata_text, end_text, ids_text};

use crate::infos::{Info, Infos};
use crate::outgoing::{Outgoing, Parent};
use crate::outgoing_body::OutgoingBody;
use base64::encoded_len;
use base64::engine::general_purpose::STANDARD;
use comm_value::{Buffers, Bytes, Text, write_text};
use std::alloc::{AllocError, Global};

/// Serializes a message as compact JSON with its keys in byte order. Err: out of memory.
pub fn write_message(
    alloc: Global,
    message: &Outgoing,
    parent: &Parent,
) -> Result<Vec<u8>, AllocError>
    requires { goes_with message.now parent.now ≡ true }
    ensures { IfOk result (λ bytes. bytes.items ≡ text message.now parent.now) }
{
    let mut out = Vec::new(alloc);
    append_message(message, parent, &mut out)?;
    Ok(out)
}

/// Appends the JSON text of a message, as [`write_message`] gives it. Err: out of memory; `out` may hold a part of
/// the text.
pub fn append_message(
    message: &Outgoing,
    parent: &Parent,
    out: &mut Vec<u8>,
) -> Result<(), AllocError>
    ensures { OnOk result (out.new.items ≡ out.old.items ++ text message.now parent.now) }
{
    if let Outgoing::Msg { id, body } = message
        && let Parent::Call { client, number } = parent
        && body.buffers().as_slice().is_empty()
    {
        append_bare_msg(*client, *number, id, body, out)?;
        return Ok(());
    }
    append(b"{\"buffers\":[", out)?;
    append_buffers_of(message, out)?;
    append_parent(parent, out)?;
    append(b",\"content\":", out)?;
    append_content(message, out)?;
    append_front(parent, out)?;
    append_end(message, out)?;
    Ok(())
}

// A call's message without buffers, as most are: its text in fewer pieces.
fn append_bare_msg(
    client: u8,
    number: u64,
    id: &Text,
    body: &OutgoingBody,
    out: &mut Vec<u8>,
) -> Result<(), AllocError>
    requires { body.now.buffers ≡ [] }
    ensures { OnOk result (GrowsBy out.old.items
        (text (outgoing.Msg id.now body.now) (parents.Call client number)) out.new.items) }
{
    append(b"{\"buffers\":[],\"call\":", out)?;
    append_number(number, out)?;
    append_client(client, out)?;
    append(b",\"content\":{\"comm_id\":", out)?;
    append_text(id, out)?;
    append_data(body, out)?;
    append(
        b"},\"header\":{\"msg_type\":\"comm_msg\"},\"metadata\":{}}",
        out,
    )?;
    Ok(())
}

fn append_parent(parent: &Parent, out: &mut Vec<u8>) -> Result<(), AllocError>
    ensures { OnOk result (GrowsBy out.old.items (parent_text parent.now) out.new.items) }
{
    match parent {
        Parent::Call { client, number } => {
            append(b",\"call\":", out)?;
            append_number(*number, out)?;
            append_client(*client, out)?;
        }
        Parent::Read { client, .. } => append_client(*client, out)?,
    }
    Ok(())
}

fn append_client(client: u8, out: &mut Vec<u8>) -> Result<(), AllocError>
    ensures { OnOk result
        (GrowsBy out.old.items (codes ",\"client\":" ++ decimal client) out.new.items) }
{
    append(b",\"client\":", out)?;
    append_number(client as u64, out)?;
    Ok(())
}

fn append_front(parent: &Parent, out: &mut Vec<u8>) -> Result<(), AllocError>
    ensures { OnOk result (GrowsBy out.old.items (front_text parent.now) out.new.items) }
{
    match parent {
        Parent::Call { .. } => append(b"", out)?,
        Parent::Read { front, .. } => {
            append(b",\"front\":", out)?;
            append_number(*front, out)?;
        }
    }
    Ok(())
}

/// Appends the `content` of a message as compact JSON. Err: out of memory; `out` may hold a part of the text.
pub fn append_content(message: &Outgoing, out: &mut Vec<u8>) -> Result<(), AllocError>
    ensures { OnOk result (GrowsBy out.old.items (content_text message.now) out.new.items) }
{
    match message {
        Outgoing::Open {
            id,
            target,
            body,
            ..
        } => {
            append_id(id, out)?;
            append_data(body, out)?;
            append(b",\"target_name\":", out)?;
            append_text(target, out)?;
            append(b"}", out)?;
        }
        Outgoing::Msg { id, body } => {
            append_id(id, out)?;
            append_data(body, out)?;
            append(b"}", out)?;
        }
        Outgoing::Close { id } => {
            append_id(id, out)?;
            append(b",\"data\":{}}", out)?;
        }
        Outgoing::InfoReply { comms } => {
            append(b"{\"comms\":{", out)?;
            append_comms(comms, out)?;
            append(b",\"status\":\"ok\"}", out)?;
        }
    }
    Ok(())
}

/// Appends the `metadata` of a message as compact JSON. Err: out of memory; `out` may hold a part of the text.
pub fn append_metadata(message: &Outgoing, out: &mut Vec<u8>) -> Result<(), AllocError>
    ensures { OnOk result (GrowsBy out.old.items (metadata_text message.now) out.new.items) }
{
    match message {
        Outgoing::Open { version, .. } => {
            append(b"{\"version\":", out)?;
            append_text(version, out)?;
            append(b"}", out)?;
        }
        Outgoing::Msg { .. } | Outgoing::Close { .. } | Outgoing::InfoReply { .. } => append(
            b"{}", out,
        )?,
    }
    Ok(())
}

/// Appends ids as a JSON list of strings, in order. Err: out of memory; `out` may hold a part of the text.
pub fn append_ids(ids: &[Text], out: &mut Vec<u8>) -> Result<(), AllocError>
    ensures { OnOk result (out.new.items ≡ out.old.items ++ ids_text ids.now) }
{
    out.extend_from_slice(b"[")?;
    let mut later = false;
    for id in ids {
        if later {
            out.push(b',')?;
        }
        write_text(id.as_str(), out)?;
        later = true;
    }
    out.extend_from_slice(b"]")
}

// The members of the object and its closing bracket.
fn append_comms(comms: &Infos, out: &mut Vec<u8>) -> Result<(), AllocError>
    ensures { OnOk result
        (GrowsBy out.old.items (members_text false (comm_members comms.now)) out.new.items) }
{
    for (number, info) in comms.as_slice().iter().enumerate() {
        append_comm(number, info, out)?;
    }
    append(b"}", out)
}

fn append_comm(number: usize, info: &Info, out: &mut Vec<u8>) -> Result<(), AllocError>
    ensures { OnOk result
        (GrowsBy out.old.items (comma_if (nat_lt 0 number) ++ info_text info.now) out.new.items) }
{
    append_comma(number, out)?;
    append_text(&info.id, out)?;
    append(b":{\"target_name\":", out)?;
    append_text(&info.target, out)?;
    append(b"}", out)?;
    Ok(())
}

fn append_id(id: &Text, out: &mut Vec<u8>) -> Result<(), AllocError>
    ensures { OnOk result
        (GrowsBy out.old.items (codes "{\"comm_id\":" ++ quoted id.now) out.new.items) }
{
    append(b"{\"comm_id\":", out)?;
    append_text(id, out)?;
    Ok(())
}

fn append_data(body: &OutgoingBody, out: &mut Vec<u8>) -> Result<(), AllocError>
    ensures { OnOk result (GrowsBy out.old.items
        (codes ",\"data\":" ++ compact_text (object (json_members body.now.content)))
        out.new.items) }
{
    append(b",\"data\":", out)?;
    body.write_json(out)?;
    Ok(())
}

fn append_end(message: &Outgoing, out: &mut Vec<u8>) -> Result<(), AllocError>
    ensures { OnOk result (GrowsBy out.old.items (end_text message.now) out.new.items) }
{
    match message {
        Outgoing::Open { version, .. } => {
            append(
                b",\"header\":{\"msg_type\":\"comm_open\"},\"metadata\":{\"version\":",
                out,
            )?;
            append_text(version, out)?;
            append(b"}}", out)?;
        }
        Outgoing::Msg { .. } => append(
            b",\"header\":{\"msg_type\":\"comm_msg\"},\"metadata\":{}}",
            out,
        )?,
        Outgoing::Close { .. } => append(
            b",\"header\":{\"msg_type\":\"comm_close\"},\"metadata\":{}}",
            out,
        )?,
        Outgoing::InfoReply { .. } => append(
            b",\"header\":{\"msg_type\":\"comm_info_reply\"},\"metadata\":{}}",
            out,
        )?,
    }
    Ok(())
}

#[inline(always)]
fn append(bytes: &[u8], out: &mut Vec<u8>) -> Result<(), AllocError>
    ensures { OnOk result (GrowsBy out.old.items bytes.now out.new.items) }
{
    out.extend_from_slice(bytes)
}

fn append_text(text: &Text, out: &mut Vec<u8>) -> Result<(), AllocError>
    ensures { OnOk result (GrowsBy out.old.items (quoted text.now) out.new.items) }
{
    write_text(text.as_str(), out)
}

// A comma before each but the first.
fn append_comma(number: usize, out: &mut Vec<u8>) -> Result<(), AllocError>
    ensures { OnOk result (GrowsBy out.old.items (comma_if (nat_lt 0 number)) out.new.items) }
{
    if number > 0 {
        out.push(b',')?;
    }
    Ok(())
}

fn append_number(number: u64, out: &mut Vec<u8>) -> Result<(), AllocError>
    ensures { OnOk result (GrowsBy out.old.items (decimal number) out.new.items) }
{
    if number < 10 {
        return Ok(out.push(b'0' + number as u8)?); // Such as a client's.
    }
    let mut buffer = itoa::Buffer::new();
    out.extend_from_slice(buffer.format(number).as_bytes())
}

// The items of the list and its closing bracket.
fn append_buffers_of(message: &Outgoing, out: &mut Vec<u8>) -> Result<(), AllocError>
    ensures { OnOk result (GrowsBy out.old.items (buffers_text message.now) out.new.items) }
{
    match message {
        Outgoing::Open { body, .. } | Outgoing::Msg { body, .. } => append_buffers(
            body.buffers(),
            out,
        )?,
        Outgoing::Close { .. } | Outgoing::InfoReply { .. } => append(b"]", out)?,
    }
    Ok(())
}

/// Appends buffers in base64 with padding (RFC 4648, section 4), as the items of a JSON list and its closing bracket.
/// Err: out of memory; `out` may hold a part of the text.
pub fn append_buffers(buffers: &Buffers, out: &mut Vec<u8>) -> Result<(), AllocError>
    ensures { OnOk result
        (GrowsBy out.old.items (items_text false (buffer_texts buffers.now)) out.new.items) }
{
    for (number, buffer) in buffers.as_slice().iter().enumerate() {
        append_buffer(number, buffer, out)?;
    }
    append(b"]", out)
}

fn append_buffer(number: usize, buffer: &Bytes, out: &mut Vec<u8>) -> Result<(), AllocError>
    ensures { OnOk result (GrowsBy out.old.items
        (comma_if (nat_lt 0 number) ++ quoted (encode_of standard buffer.now)) out.new.items) }
{
    append_comma(number, out)?;
    append_base64(buffer.as_slice(), out)?;
    Ok(())
}

// Appends bytes in base64 as a JSON string; they are encoded right where they stay. Err: out of memory.
fn append_base64(bytes: &[u8], out: &mut Vec<u8>) -> Result<(), AllocError>
    ensures { OnOk result
        (GrowsBy out.old.items (quoted (encode_of standard bytes.now)) out.new.items) }
{
    let Some(len) = encoded_len(bytes.len(), true) else {
        return Err(AllocError);
    };
    append(b"\"", out)?;
    let start = out.len();
    let Some(end) = start.checked_add(len) else {
        return Err(AllocError);
    };
    out.resize(end, 0)?;
    let text = &mut out.as_mut_slice()[start..];
    if STANDARD.encode_slice(bytes, text).is_err() {
        unreachable!();
    }
    append(b"\"", out)?;
    Ok(())
}
