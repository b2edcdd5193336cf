ghost use Rattle.std.specs.Prelude.{◌≡◌, ◌<◌, false, decimal, Some, Ok, IfSome};
ghost use Rattle.json.specs.Json.{number};
ghost use Rattle.comm_value.specs.Places.{members_have_bytes};
ghost use Rattle.comm_messages.specs.Buffers.{raw_buffers};
ghost use Rattle.comm_messages.specs.Fields.{client_of};
ghost use Rattle.comm_messages.specs.Message.{message_by_parts};
ghost use Rattle.comm_reader.specs.Reader.{HasContent, IsType, IsVersion, ReadsLine};

use crate::content::{Content, read_content};
use crate::heading::{read_type, read_version};
use crate::incoming::incoming_of;
use crate::line::DEPTH;
use crate::walk::{end, reader_of};
use bumpalo::Bump;
use comm_json::TextScratch;
use comm_messages::{Incoming, IncomingParts, MessageType, PartsScratch, copy_buffers};
use comm_value::{KnownTexts, Numbers};
use std::alloc::Global;

fn type_in<'a>(
    bytes: &'a [u8],
    scratch: &'a mut TextScratch,
    lists: &'a Bump,
) -> Option<MessageType>
    ensures { IfSome result (λ t. ReadsLine bytes.now (IsType t)) }
{
    let mut reader = reader_of(bytes, scratch)?;
    let type_ = read_type(&mut reader, lists, DEPTH)?;
    end(&mut reader)?;
    Some(type_)
}

fn version_in<'a>(
    bytes: &'a [u8],
    scratch: &'a mut TextScratch,
    lists: &'a Bump,
) -> Option<Option<&'a str>>
    ensures { IfSome result (λ v. ReadsLine bytes.now (IsVersion v)) }
{
    // Metadata are so nearly always.
    if bytes == b"{}".as_slice() {
        return Some(None);
    }
    let mut reader = reader_of(bytes, scratch)?;
    let version = read_version(&mut reader, lists, DEPTH)?;
    end(&mut reader)?;
    Some(version)
}

fn content_in<'a>(
    alloc: Global,
    numbers: Numbers,
    texts: &mut KnownTexts,
    bytes: &'a [u8],
    scratch: &'a mut TextScratch,
    lists: &'a Bump,
) -> Option<Content<'a>>
    ensures reads { IfSome result (λ c. ReadsLine bytes.now (HasContent numbers c)) }
    ensures plain { IfSome result (λ c. members_have_bytes c.dict ≡ false) }
{
    let mut reader = reader_of(bytes, scratch)?;
    let mut content = None;
    read_content(
        alloc,
        numbers,
        texts,
        &mut reader,
        lists,
        DEPTH,
        &mut content,
    )?;
    end(&mut reader)?;
    content
}

fn client_below(client: u32, clients: u8) -> Option<u8>
    ensures value { IfSome result
        (λ n. client_of clients (Some (number (decimal client))) ≡ Ok n) }
    ensures below { IfSome result (λ n. n < clients) }
{
    if client < clients as u32 {
        Some(client as u8)
    } else {
        None
    }
}

// What was read of the JSON texts of a message.
#[derive(Drop)]
struct ReadParts<'a> {
    type_: MessageType,
    version: Option<&'a str>,
    content: Content<'a>,
}

fn read_parts<'a>(
    alloc: Global,
    numbers: Numbers,
    texts: &mut KnownTexts,
    parts: IncomingParts<'a>,
    scratch: &'a mut PartsScratch,
    lists: &'a Bump,
) -> Option<ReadParts<'a>>
    ensures header { IfSome result (λ p. ReadsLine parts.entry.header.now (IsType p.type_)) }
    ensures metadata { IfSome result
        (λ p. ReadsLine parts.entry.metadata.now (IsVersion p.version)) }
    ensures content { IfSome result
        (λ p. ReadsLine parts.entry.content.now (HasContent numbers p.content)) }
    ensures plain { IfSome result (λ p. members_have_bytes p.content.dict ≡ false) }
{
    let PartsScratch {
        header: for_header,
        metadata: for_metadata,
        content: for_content,
    } = scratch;
    let type_ = type_in(parts.header, for_header, lists)?;
    let version = version_in(parts.metadata, for_metadata, lists)?;
    let content = content_in(alloc, numbers, texts, parts.content, for_content, lists)?;
    Some(ReadParts {
        type_,
        version,
        content,
    })
}

/// Reads a message of one of `clients` clients from its parts, as [`comm_messages::message_by_parts`] does, with its
/// content in one walk. None: as of [`crate::message_at_once`].
pub fn parts_at_once<'a>(
    alloc: Global,
    parts: IncomingParts<'a>,
    clients: u8,
    numbers: Numbers,
    scratch: &'a mut PartsScratch,
    lists: &'a Bump,
    texts: &mut KnownTexts,
) -> Option<(u8, Incoming)>
    ensures message { IfSome result (λ r. message_by_parts clients numbers parts.entry.client
        parts.entry.header.now parts.entry.metadata.now parts.entry.content.now
        (raw_buffers parts.entry.buffers) ≡ Ok (r.0, r.1)) }
    ensures below { 0 < clients → IfSome result (λ r. r.0 < clients) }
{
    let read = read_parts(alloc, numbers, texts, parts, scratch, lists)?;
    let ReadParts {
        type_,
        version,
        content,
    } = read;
    let client = client_below(parts.client, clients)?;
    let buffers = copy_buffers(alloc, parts.buffers).ok()?;
    let incoming = incoming_of(alloc, texts, type_, content, version, buffers)?;
    Some((client, incoming))
}
