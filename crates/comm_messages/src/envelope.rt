// What a message is read from: the members of a line, or its parts.
ghost use Rattle.std.specs.Prelude.{◌≡◌};
ghost use Rattle.comm_messages.specs.Fields.{fields};
ghost use Rattle.comm_messages.specs.Envelope.{envelope, of_line};

use crate::fields::{Fields, member};
use crate::raw_buffers::RawBuffers;
use comm_json::JsonRef;

/// The buffers of a message that is read.
#[derive(Clone, Copy)]
pub enum BuffersRef<'v, 'a> {
    /// The value of a line's member `buffers`, which may be no list of strings in base64.
    Encoded(Option<JsonRef<'v, 'a>>),
    /// Bytes.
    Raw(RawBuffers<'v>),
}

/// The fields of a message, before any of them is tested. None: a line doesn't have the member.
#[derive(Clone, Copy)]
pub struct EnvelopeRef<'v, 'a> {
    pub client: Option<JsonRef<'v, 'a>>,
    pub header: Option<JsonRef<'v, 'a>>,
    pub content: Option<JsonRef<'v, 'a>>,
    pub metadata: Option<JsonRef<'v, 'a>>,
    pub buffers: BuffersRef<'v, 'a>,
}

/// The fields of a message among the members of a line's object.
pub fn envelope_of_line<'v, 'a>(line: Fields<'v, 'a>) -> EnvelopeRef<'v, 'a>
    ensures { envelope result ≡ of_line (fields line.entry) }
{
    EnvelopeRef {
        client: member(line, "client"),
        header: member(line, "header"),
        content: member(line, "content"),
        metadata: member(line, "metadata"),
        buffers: BuffersRef::Encoded(member(line, "buffers")),
    }
}
