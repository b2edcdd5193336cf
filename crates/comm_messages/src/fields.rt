ghost use Rattle.std.specs.Prelude.{◌≡◌, ◌<◌, false, option_map, IfOk};
ghost use Rattle.comm_json.specs.Behind.{get_member};
ghost use Rattle.comm_value.specs.Places.{members_have_bytes};
ghost use Rattle.comm_messages.specs.Gives.{Gives};
ghost use Rattle.comm_messages.specs.Fields.{behind, fields, read_fields, object_in};
ghost use Rattle.comm_messages.specs.Fields.{object_or_empty, text, text_or_none, client_of, below};
ghost use Rattle.comm_messages.specs.Message.{dict_of};

use crate::fault::MessageFault;
use bumpalo::Bump;
use comm_json::{
    JsonFault, JsonKind, JsonRef, LineMembers, ObjectRef, ParseArena, TextScratch, read_among,
    read_line,
};
use comm_value::{Dict, KnownTexts, Numbers, ValueFault};
use json::Value;
use std::alloc::Global;

/// The members of an object, behind a reference. None: an object without members.
pub type Fields<'v, 'a> = Option<ObjectRef<'v, 'a>>;

/// Parses a line as a JSON object, as `serde_json` does, and gives its members. Strings are slices of the line or of
/// the arena, which is kept from line to line. Err: NotJson or Memory.
pub fn object_in<'a>(
    line: &'a [u8],
    arena: &'a mut ParseArena,
) -> Result<LineMembers<'a>, MessageFault>
    ensures { Gives (λ ms. read_fields ms.items) result (object_in line.now) }
{
    match read_line(line, arena) {
        Ok(Value::Object(members)) => Ok(members),
        Ok(_) => Err(MessageFault::NotJson),
        Err(JsonFault::NotJson) => Err(MessageFault::NotJson),
        Err(JsonFault::Memory) => Err(MessageFault::Memory),
    }
}

/// Parses a line as [`object_in`] does, beside other texts: its strings are slices of the line or of the scratch, its
/// lists stand in the arena.
pub fn object_among<'a>(
    line: &'a [u8],
    scratch: &'a mut TextScratch,
    lists: &'a Bump,
) -> Result<LineMembers<'a>, MessageFault>
    ensures { Gives (λ ms. read_fields ms.items) result (object_in line.now) }
{
    let value = match read_among(line, scratch, lists) {
        Ok(value) => value,
        Err(JsonFault::NotJson) => return Err(MessageFault::NotJson),
        Err(JsonFault::Memory) => return Err(MessageFault::Memory),
    };
    match value {
        Value::Object(members) => Ok(members),
        _ => Err(MessageFault::NotJson),
    }
}

/// The members of a parsed line, for [`member`].
pub fn fields_of<'v, 'a>(object: &'v LineMembers<'a>) -> Fields<'v, 'a>
    ensures { fields result ≡ read_fields object.now.items }
{
    Some(ObjectRef::Borrowed(object))
}

/// The value of a member by its name. None: there is no such member.
#[inline(always)]
pub fn member<'v, 'a>(of: Fields<'v, 'a>, name: &str) -> Option<JsonRef<'v, 'a>>
    ensures { behind result ≡ get_member name.now (fields of.entry) }
{
    match of {
        None => None,
        Some(object) => object.get(name),
    }
}

/// The members of an object; absent or null counts as an object without members. None: the value is of another kind.
pub fn object_or_empty<'v, 'a>(value: Option<JsonRef<'v, 'a>>) -> Option<Fields<'v, 'a>>
    ensures { option_map fields result ≡ object_or_empty (behind value.entry) }
{
    let Some(value) = value else {
        return Some(None);
    };
    match value.kind() {
        JsonKind::Null => Some(None),
        JsonKind::Object(object) => Some(Some(object)),
        JsonKind::Bool(_) | JsonKind::Number(_) | JsonKind::Text(_) | JsonKind::Items(_) => None,
    }
}

/// The string of a value. None: it is absent or of another kind.
pub fn text<'v>(value: Option<JsonRef<'v, '_>>) -> Option<&'v str>
    ensures { option_map (λ t. t.now) result ≡ text (behind value.entry) }
{
    match value?.kind() {
        JsonKind::Text(text) => Some(text),
        JsonKind::Null
        | JsonKind::Bool(_)
        | JsonKind::Number(_)
        | JsonKind::Items(_)
        | JsonKind::Object(_) => None,
    }
}

/// The string of a value; absent or null is Some(None). None: the value is of another kind.
pub fn text_or_none<'v>(value: Option<JsonRef<'v, '_>>) -> Option<Option<&'v str>>
    ensures { option_map (λ t. option_map (λ s. s.now) t) result
        ≡ text_or_none (behind value.entry) }
{
    let Some(value) = value else {
        return Some(None);
    };
    match value.kind() {
        JsonKind::Text(text) => Some(Some(text)),
        JsonKind::Null => Some(None),
        JsonKind::Bool(_) | JsonKind::Number(_) | JsonKind::Items(_) | JsonKind::Object(_) => None,
    }
}

/// The client's index: absent or null is 0. Err: BadClient where the value isn't an integer from 0 to `clients` - 1.
pub fn client_of(value: Option<JsonRef<'_, '_>>, clients: u8) -> Result<u8, MessageFault>
    ensures value { Gives (λ n. n) result (client_of clients (behind value.entry)) }
    ensures below { 0 < clients → IfOk result (λ n. n < clients) }
{
    let Some(value) = value else {
        return Ok(0);
    };
    match value.kind() {
        JsonKind::Null => Ok(0),
        JsonKind::Number(number) => below(number.whole(), clients),
        JsonKind::Bool(_) | JsonKind::Text(_) | JsonKind::Items(_) | JsonKind::Object(_) => Err(
            MessageFault::BadClient,
        ),
    }
}

fn below(number: Option<i128>, clients: u8) -> Result<u8, MessageFault>
    ensures value { Gives (λ n. n) result (below clients number) }
    ensures below { IfOk result (λ n. n < clients) }
{
    match number {
        Some(n) if 0 <= n && n < clients as i128 => Ok(n as u8),
        _ => Err(MessageFault::BadClient),
    }
}

/// An object as a dict, with these numbers as values; short texts are shared with those that were met before. Err:
/// NotWhole where a number in it isn't one, or Memory.
#[tactic(auto, using(crate::proofs::NoBytes::no_bytes))]
pub fn dict_of(
    alloc: Global,
    numbers: Numbers,
    texts: &mut KnownTexts,
    object: Fields<'_, '_>,
) -> Result<Dict, MessageFault>
    ensures value { Gives (λ d. d) result (dict_of numbers (fields object.entry)) }
    ensures plain { IfOk result (λ d. members_have_bytes d ≡ false) }
{
    match object {
        None => Ok(Dict::new()),
        Some(object) => match Dict::from_ref(alloc, numbers, texts, object) {
            Ok(dict) => Ok(dict),
            Err(ValueFault::NotWhole) => Err(MessageFault::NotWhole),
            Err(ValueFault::Memory) => Err(MessageFault::Memory),
            Err(ValueFault::BadPath(_) | ValueFault::BufferMissing(_)) => unreachable!(),
        },
    }
}
