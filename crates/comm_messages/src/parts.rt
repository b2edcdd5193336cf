// A message of a frontend by its parts, of which no line is made.
ghost use Rattle.std.specs.Prelude.{◌≡◌, ◌<◌, Some, Ok, IfOk, decimal};
ghost use Rattle.serde_json.specs.Data.{unsigned};
ghost use Rattle.serde_json.specs.View.{view};
ghost use Rattle.serde_json.specs.Written.{outline, number_text};
ghost use Rattle.json.specs.Json.{number};
ghost use Rattle.json.specs.Value.{value_view};
ghost use Rattle.comm_json.specs.Behind.{tidy, line_value};
ghost use Rattle.comm_value.specs.Gives.{or_fault};
ghost use Rattle.comm_messages.specs.Buffers.{raw_buffers};
ghost use Rattle.comm_messages.specs.Gives.{Gives};
ghost use Rattle.comm_messages.specs.Envelope.{envelope, parsed};
ghost use Rattle.comm_messages.specs.Message.{envelope_in, message_by_parts};
ghost use Rattle.comm_messages.specs.declared.fault.MessageFault.TheVariants.{NotJson};

use crate::envelope::{BuffersRef, EnvelopeRef};
use crate::fault::MessageFault;
use crate::incoming::Incoming;
use crate::raw_buffers::RawBuffers;
use crate::read::message_from;
use bumpalo::Bump;
use comm_json::{JsonFault, JsonRef, LineValue, TextScratch, read_among};
use comm_value::{KnownTexts, Numbers};
use serde_json::{Number, Value};
use std::alloc::Global;

/// The parts of a message: the client's index, three JSON texts, and buffers as bytes.
#[derive(Clone, Copy)]
pub struct IncomingParts<'a> {
    pub client: u32,
    pub header: &'a [u8],
    pub metadata: &'a [u8],
    pub content: &'a [u8],
    pub buffers: RawBuffers<'a>,
}

/// The memory that the strings of a message's parts are parsed into: keep one from message to message.
#[derive(Drop)]
pub struct PartsScratch {
    pub header: TextScratch,
    pub metadata: TextScratch,
    pub content: TextScratch,
}

impl PartsScratch {
    /// An empty one, which has allocated nothing.
    pub fn new(alloc: Global) -> PartsScratch {
        PartsScratch {
            header: TextScratch::new(alloc),
            metadata: TextScratch::new(alloc),
            content: TextScratch::new(alloc),
        }
    }
}

/// The parts of a message, whose JSON texts were parsed.
#[derive(Drop)]
pub struct ParsedParts<'a> {
    pub client: Value,
    pub header: LineValue<'a>,
    pub metadata: LineValue<'a>,
    pub content: LineValue<'a>,
    pub buffers: RawBuffers<'a>,
}

impl<'a> ParsedParts<'a> {
    /// The fields of the message.
    pub fn envelope<'v>(&'v self) -> EnvelopeRef<'v, 'a>
        ensures { envelope result ≡ parsed self.now }
    {
        EnvelopeRef {
            client: Some(JsonRef::Owned(&self.client)),
            header: Some(JsonRef::Borrowed(&self.header)),
            content: Some(JsonRef::Borrowed(&self.content)),
            metadata: Some(JsonRef::Borrowed(&self.metadata)),
            buffers: BuffersRef::Raw(self.buffers),
        }
    }
}

fn parse_text<'a>(
    text: &'a [u8],
    scratch: &'a mut TextScratch,
    lists: &'a Bump,
) -> Result<LineValue<'a>, MessageFault>
    ensures { Gives (λ v. tidy (value_view v)) result (or_fault NotJson (line_value text.now)) }
{
    match read_among(text, scratch, lists) {
        Ok(value) => Ok(value),
        Err(JsonFault::NotJson) => Err(MessageFault::NotJson),
        Err(JsonFault::Memory) => Err(MessageFault::Memory),
    }
}

/// Parses header, metadata and content, each as one JSON text. Strings are slices of the texts or of the scratch, lists
/// stand in the arena. Err: NotJson or Memory, after which scratch and arena serve the next message as before.
pub fn parse_parts<'a>(
    client: u32,
    header: &'a [u8],
    metadata: &'a [u8],
    content: &'a [u8],
    buffers: RawBuffers<'a>,
    scratch: &'a mut PartsScratch,
    lists: &'a Bump,
) -> Result<ParsedParts<'a>, MessageFault>
    ensures { Gives parsed result (envelope_in client header.now metadata.now content.now
        (raw_buffers buffers.entry)) }
{
    let PartsScratch {
        header: for_header,
        metadata: for_metadata,
        content: for_content,
    } = scratch;
    let header = parse_text(header, for_header, lists)?;
    let metadata = parse_text(metadata, for_metadata, lists)?;
    let content = parse_text(content, for_content, lists)?;
    Ok(ParsedParts {
        client: Value::Number(Number::from(client as u64)),
        header,
        metadata,
        content,
        buffers,
    })
}

/// Reads a message of one of `clients` clients from its parts, with these numbers as values, as
/// [`crate::read_message_with`] does from a line. Err: the first test that the parts fail, or Memory, after which the scratch serves the next message as before.
pub fn message_by_parts<'a>(
    alloc: Global,
    parts: IncomingParts<'a>,
    clients: u8,
    numbers: Numbers,
    scratch: &'a mut PartsScratch,
) -> Result<(u8, Incoming), MessageFault>
    ensures message { Gives (λ r. (r.0, r.1)) result
        (message_by_parts clients numbers parts.entry.client parts.entry.header.now
        parts.entry.metadata.now parts.entry.content.now
        (raw_buffers parts.entry.buffers)) }
    ensures below { 0 < clients → IfOk result (λ r. r.0 < clients) }
{
    let lists = Bump::new(alloc);
    let read = parse_parts(
        parts.client,
        parts.header,
        parts.metadata,
        parts.content,
        parts.buffers,
        scratch,
        &lists,
    )?;
    let mut texts = KnownTexts::none(alloc);
    message_from(alloc, &read.envelope(), clients, numbers, &mut texts)
}
