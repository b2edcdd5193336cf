// What stands in a message's header and in its metadata.
ghost use Rattle.std.specs.Prelude.{◌≡◌, ◌<◌, length, IfSome, OnSome};
ghost use Rattle.comm_reader.specs.Reader.{IsType, IsVersion, ReadsMembers, ReadsObject};

use crate::walk::{enter, is_named, read_string, read_value};
use bumpalo::Bump;
use comm_messages::{MessageType, type_named};
use json::Reader;

// The type that the members of a header that has begun tell. Of several with one key the last counts.
fn type_in<'a>(reader: &mut Reader<'a>, lists: &'a Bump, depth: usize) -> Option<MessageType>
    ensures reads { IfSome result (λ t. ReadsMembers depth reader.old (IsType t) reader.new) }
    ensures shorter { OnSome result (length reader.new < length reader.old) }
{
    let mut name = None;
    while let Some(key) = reader.next_key().ok()? {
        if is_named(key, "msg_type") {
            name = Some(read_string(reader)?);
        } else {
            drop(read_value(reader, lists, depth)?);
        }
    }
    type_named(name?).ok()
}

/// Reads the next value as a header. None: it is no object with a known `msg_type`, or a member of it is no value.
pub fn read_type<'a>(reader: &mut Reader<'a>, lists: &'a Bump, depth: usize) -> Option<MessageType>
    ensures reads { IfSome result (λ t. ReadsObject depth reader.old (IsType t) reader.new) }
    ensures shorter { OnSome result (length reader.new < length reader.old) }
{
    enter(reader)?;
    if depth == 0 {
        return None;
    }
    type_in(reader, lists, depth - 1)
}

// The version that the members of metadata that have begun tell. Of several with one key the last counts.
fn version_in<'a>(reader: &mut Reader<'a>, lists: &'a Bump, depth: usize) -> Option<Option<&'a str>>
    ensures reads { IfSome result
        (λ v. ReadsMembers depth reader.old (IsVersion v) reader.new) }
    ensures shorter { OnSome result (length reader.new < length reader.old) }
{
    let mut version = None;
    while let Some(key) = reader.next_key().ok()? {
        if is_named(key, "version") {
            version = Some(read_string(reader)?);
        } else {
            drop(read_value(reader, lists, depth)?);
        }
    }
    Some(version)
}

/// Reads the next value as metadata. None: it is no object, its `version` is no string, or another member is no value.
pub fn read_version<'a>(
    reader: &mut Reader<'a>,
    lists: &'a Bump,
    depth: usize,
) -> Option<Option<&'a str>>
    ensures reads { IfSome result (λ v. ReadsObject depth reader.old (IsVersion v) reader.new) }
    ensures shorter { OnSome result (length reader.new < length reader.old) }
{
    enter(reader)?;
    if depth == 0 {
        return None;
    }
    version_in(reader, lists, depth - 1)
}

/// What a message is made of in its metadata.
#[derive(Drop)]
pub struct Metadata<'a> {
    pub version: Option<&'a str>,
}

/// Reads the next value as metadata, as [`read_version`] does.
pub fn read_metadata<'a>(
    reader: &mut Reader<'a>,
    lists: &'a Bump,
    depth: usize,
) -> Option<Metadata<'a>>
    ensures reads { IfSome result
        (λ m. ReadsObject depth reader.old (IsVersion m.version) reader.new) }
    ensures shorter { OnSome result (length reader.new < length reader.old) }
{
    let version = read_version(reader, lists, depth)?;
    Some(Metadata { version })
}
