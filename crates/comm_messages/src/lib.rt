//! Messages of Jupyter comms ('Messaging in Jupyter' 5.3, "Custom Messages" and "Comm info"): parsing and
//! serialization.
//!
//! [`read_message`] parses a line of JSON as a frontend's message, and [`read_message_with`] one whose numbers need not
//! be whole; [`object_in`], [`member`] and [`message_in`] do it by fields. [`message_by_parts`] reads a message whose
//! header, metadata and content are JSON texts of their own, with its buffers as bytes. Both ways give an
//! [`EnvelopeRef`], of which [`message_from`] makes the tests. [`write_message`] serializes a message of the kernel as
//! compact JSON with its keys in byte order; [`append_content`], [`append_metadata`] and [`append_buffers`] give its
//! parts. `specs/Message` defines the message of a line and of parts, or the first test that it fails, by the
//! definitions of `specs/Envelope`, `specs/Fields` and `specs/Buffers`; `specs/Text` defines each byte of the output.
//! The law [`written_is_read_again`] is the round trip, and [`any_number_is_read`] says that any JSON number is read
//! where any is asked for.
//!
//! A result other than out of memory is exactly the definition's. After [`MessageFault::Memory`] or `AllocError`
//! nothing is known of the line or the message (`specs/Gives`): an allocation failed, or a reference count was at its
//! maximum. No clause says when that comes, since a contract can't name what an allocator refuses.

#![tactic(auto)]

mod body;
mod buffers;
mod envelope;
mod fault;
mod fields;
mod incoming;
mod infos;
mod laws;
mod outgoing;
mod outgoing_body;
mod parts;
mod raw_buffers;
mod read;
mod telling;
mod write;

pub use body::Body;
pub use buffers::{buffers_in, buffers_of};
pub use envelope::{BuffersRef, EnvelopeRef, envelope_of_line};
pub use fault::{Field, MessageFault};
pub use fields::{
    Fields, client_of, dict_of, fields_of, member, object_among, object_in, object_or_empty, text,
    text_or_none,
};
pub use incoming::Incoming;
pub use infos::{Info, Infos};
pub use laws::{any_number_is_read, written_is_read_again};
pub use outgoing::{Outgoing, Parent};
pub use outgoing_body::OutgoingBody;
pub use parts::{IncomingParts, ParsedParts, PartsScratch, message_by_parts, parse_parts};
pub use raw_buffers::{Frame, RawBuffers, copy_buffers};
pub use read::{
    MessageType, body_of, body_with, heading, incoming_in, message_from, message_in, message_of,
    object_of, read_message, read_message_with, type_named, type_of,
};
pub use telling::Telling;
pub use write::{
    append_buffers, append_content, append_ids, append_message, append_metadata, write_message,
};
