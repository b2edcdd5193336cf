ghost use Rattle.std.specs.Prelude.{◌≡◌, ◌<◌, ℕ, List, false, Some, Ok, IfSome, OnSome, length};
ghost use Rattle.std.specs.Str.{IsUtf8};
ghost use Rattle.json.specs.Json.{Members, no_members};
ghost use Rattle.json.specs.Value.{value_view};
ghost use Rattle.comm_json.specs.Behind.{tidy};
ghost use Rattle.comm_value.specs.Places.{members_have_bytes};
ghost use Rattle.comm_value.specs.declared.from_json.Numbers.{Numbers};
ghost use Rattle.comm_messages.specs.Buffers.{buffers_of};
ghost use Rattle.comm_messages.specs.Fields.{client_of};
ghost use Rattle.comm_reader.specs.Reader.{HasLine, HasNothing, HasTaken, IsKey, IsMessage, IsMessageOf, IsRareKey};
ghost use Rattle.comm_reader.specs.Reader.{ReadsMembers, ReadsText, ReadsValue, version_told};

use crate::content::{Content, read_content};
use crate::heading::{Metadata, read_metadata, read_type};
use crate::incoming::incoming_of;
use crate::walk::{end, enter, is_named, read_value, reader_of};
use bumpalo::Bump;
use comm_json::{JsonRef, LineValue, TextScratch};
use comm_messages::{Incoming, MessageType, buffers_of, client_of};
use comm_value::{Buffers, KnownTexts, Numbers};
use json::Reader;
use std::alloc::Global;

/// The levels of nesting of a text that `comm_json` reads.
pub const DEPTH: usize = 127;

/// Which part of a message the key of a line's member names.
#[derive(Clone, Copy, Drop)]
pub enum LineKey {
    Header,
    Content,
    Rare(RareKey),
}

/// The key of a part that few messages have, or of none.
#[derive(Clone, Copy, Drop)]
pub enum RareKey {
    Metadata,
    Buffers,
    Client,
    Other,
}

fn line_key(key: &str) -> LineKey
    ensures { IsKey result key.now }
{
    if is_named(key, "header") {
        LineKey::Header
    } else if is_named(key, "content") {
        LineKey::Content
    } else {
        LineKey::Rare(rare_key(key))
    }
}

fn rare_key(key: &str) -> RareKey
    ensures { IsRareKey result key.now }
{
    if is_named(key, "metadata") {
        RareKey::Metadata
    } else if is_named(key, "buffers") {
        RareKey::Buffers
    } else if is_named(key, "client") {
        RareKey::Client
    } else {
        RareKey::Other
    }
}

/// What a message is made of in its line.
#[derive(Drop)]
pub struct Line<'a> {
    pub type_: Option<MessageType>,
    pub client: u8,
    pub content: Option<Content<'a>>,
    pub metadata: Option<Metadata<'a>>,
    pub buffers: Buffers,
}

impl<'a> Line<'a> {
    // A line without members.
    fn none(alloc: Global) -> Line<'a>
        ensures { HasNothing result }
    {
        Line {
            type_: None,
            client: 0,
            content: None,
            metadata: None,
            buffers: Buffers::none(alloc),
        }
    }
}

fn client_in<'v, 'a>(value: &'v LineValue<'a>, clients: u8) -> Option<u8>
    ensures value { IfSome result
        (λ n. client_of clients (Some (tidy (value_view value.now))) ≡ Ok n) }
    ensures below { 0 < clients → IfSome result (λ n. n < clients) }
{
    client_of(Some(JsonRef::Borrowed(value)), clients).ok()
}

fn read_client<'a>(
    reader: &mut Reader<'a>,
    lists: &'a Bump,
    clients: u8,
    depth: usize,
) -> Option<u8>
    ensures reads { IfSome result (λ n. ReadsValue depth reader.old
        (λ j. client_of clients (Some j) ≡ Ok n) reader.new) }
    ensures below { 0 < clients → IfSome result (λ n. n < clients) }
    ensures shorter { OnSome result (length reader.new < length reader.old) }
{
    let value = read_value(reader, lists, depth)?;
    client_in(&value, clients)
}

fn buffers_in<'v, 'a>(alloc: Global, value: &'v LineValue<'a>) -> Option<Buffers>
    ensures { IfSome result (λ b. buffers_of (Some (tidy (value_view value.now))) ≡ Ok b) }
{
    buffers_of(alloc, Some(JsonRef::Borrowed(value))).ok()
}

fn read_buffers<'a>(
    alloc: Global,
    reader: &mut Reader<'a>,
    lists: &'a Bump,
    depth: usize,
) -> Option<Buffers>
    ensures reads { IfSome result (λ b. ReadsValue depth reader.old
        (λ j. buffers_of (Some j) ≡ Ok b) reader.new) }
    ensures shorter { OnSome result (length reader.new < length reader.old) }
{
    let value = read_value(reader, lists, depth)?;
    buffers_in(alloc, &value)
}

// Reads the value of a member with this key into the line that the members before it make. It stands apart since few
// lines have such a member.
#[inline(never)]
fn read_rare<'a>(
    alloc: Global,
    key: RareKey,
    clients: u8,
    reader: &mut Reader<'a>,
    lists: &'a Bump,
    depth: usize,
    line: &mut Line<'a>,
) -> Option<()>
    ensures reads { OnSome result (ReadsValue depth reader.old
        (HasTaken key clients line.old line.new) reader.new) }
    ensures content { OnSome result (line.new.content ≡ line.old.content) }
    ensures below { line.old.client < clients → OnSome result (line.new.client < clients) }
    ensures shorter { OnSome result (length reader.new < length reader.old) }
{
    match key {
        RareKey::Metadata => line.metadata = Some(read_metadata(reader, lists, depth)?),
        RareKey::Buffers => line.buffers = read_buffers(alloc, reader, lists, depth)?,
        RareKey::Client => line.client = read_client(reader, lists, clients, depth)?,
        RareKey::Other => drop(read_value(reader, lists, depth)?),
    }
    Some(())
}

// Reads the members of an object that has begun, none of which has this key, into a line that has nothing yet. Of
// several with one key the last counts.
fn read_members<'a>(
    alloc: Global,
    absent: &str,
    clients: u8,
    numbers: Numbers,
    texts: &mut KnownTexts,
    reader: &mut Reader<'a>,
    lists: &'a Bump,
    depth: usize,
    line: &mut Line<'a>,
) -> Option<()>
    requires { HasNothing line.old }
    ensures reads { OnSome result (ReadsMembers depth reader.old
        (HasLine absent.now clients numbers line.new) reader.new) }
    ensures plain { OnSome result
        (IfSome line.new.content (λ c. members_have_bytes c.dict ≡ false)) }
    ensures below { 0 < clients → OnSome result (line.new.client < clients) }
{
    while let Some(key) = reader.next_key().ok()? {
        if is_named(key, absent) {
            return None;
        }
        match line_key(key) {
            LineKey::Header => {
                line.type_ = Some(read_type(reader, lists, depth)?);
            }
            LineKey::Content => {
                read_content(
                    alloc,
                    numbers,
                    texts,
                    reader,
                    lists,
                    depth,
                    &mut line.content,
                )?;
            }
            LineKey::Rare(rare) => read_rare(alloc, rare, clients, reader, lists, depth, line)?,
        }
    }
    Some(())
}

fn read_line<'a>(
    alloc: Global,
    line: &'a [u8],
    absent: &str,
    clients: u8,
    numbers: Numbers,
    texts: &mut KnownTexts,
    scratch: &'a mut TextScratch,
    lists: &'a Bump,
) -> Option<Line<'a>>
    ensures utf8 { OnSome result (IsUtf8 line.now) }
    ensures reads { IfSome result
        (λ l. ReadsText line.now (HasLine absent.now clients numbers l)) }
    ensures plain { IfSome result (λ l. IfSome l.content (λ c. members_have_bytes c.dict ≡ false)) }
    ensures below { 0 < clients → IfSome result (λ l. l.client < clients) }
{
    let mut reader = reader_of(line, scratch)?;
    enter(&mut reader)?;
    let mut read = Line::none(alloc);
    read_members(
        alloc,
        absent,
        clients,
        numbers,
        texts,
        &mut reader,
        lists,
        DEPTH - 1,
        &mut read,
    )?;
    end(&mut reader)?;
    Some(read)
}

fn version_in<'a>(metadata: Option<Metadata<'a>>) -> Option<&'a str>
    ensures { result ≡ version_told metadata.entry }
{
    match metadata {
        Some(metadata) => metadata.version,
        None => None,
    }
}

fn message_of(alloc: Global, texts: &mut KnownTexts, line: Line<'_>) -> Option<(u8, Incoming)>
    requires { IfSome line.content (λ c. members_have_bytes c.dict ≡ false) }
    ensures message { IfSome result
        (λ r. (absent : List ℕ) (clients : ℕ) (numbers : Numbers) (ms : Members)
        → HasLine absent clients numbers line.entry ms
        → IsMessageOf absent clients numbers ms (r.0, r.1)) }
    ensures client { IfSome result (λ r. r.0 ≡ line.entry.client) }
{
    let Line {
        type_,
        client,
        content,
        metadata,
        buffers,
    } = line;
    let type_ = type_?;
    let content = content?;
    let version = version_in(metadata);
    let incoming = incoming_of(alloc, texts, type_, content, version, buffers)?;
    Some((client, incoming))
}

/// Reads a line as a message of one of `clients` clients, with these numbers as values, whose object has no member
/// `absent`. Short texts are shared with those that were met before; what is parsed beside the message lies in the
/// scratch and in the arena. None: there is no such message, it has null for an object, no content, or a version that
/// is no string, an object of its data has thousands of members, or memory ran out.
#[inline(always)]
pub fn message_at_once<'a>(
    alloc: Global,
    line: &'a [u8],
    absent: &str,
    clients: u8,
    numbers: Numbers,
    scratch: &'a mut TextScratch,
    lists: &'a Bump,
    texts: &mut KnownTexts,
) -> Option<(u8, Incoming)>
    ensures message { IfSome result
        (λ r. IsMessage absent.now clients numbers line.now (r.0, r.1)) }
    ensures below { 0 < clients → IfSome result (λ r. r.0 < clients) }
{
    let read = read_line(alloc, line, absent, clients, numbers, texts, scratch, lists)?;
    message_of(alloc, texts, read)
}
