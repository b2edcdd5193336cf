ghost use Rattle.std.specs.Prelude.{◌≡◌, Some, None, IfSome, OnSome};
ghost use Rattle.json.specs.Json.{read_key};
ghost use Rattle.comm_value.specs.declared.from_json.Numbers.{Numbers};
ghost use Rattle.comm_reader.specs.Reader.{IsPush};

use crate::content::read_data;
use crate::line::DEPTH;
use crate::walk::{end, enter, is_named, read_string, reader_of};
use comm_json::TextScratch;
use comm_value::{Dict, KnownTexts, Numbers, Text};
use json::Reader;
use std::alloc::Global;

// Reads the key of an object's next member. None: the key is another one, or no member is left.
#[inline(always)]
fn enter_member(reader: &mut Reader<'_>, name: &str) -> Option<()>
    ensures { OnSome result (read_key reader.old ≡ Some (Some name.now, reader.new)) }
{
    let key = reader.next_key().ok()?;
    if is_named(key?, name) { Some(()) } else { None }
}

// Reads the brace that ends an object. None: a member is left.
#[inline(always)]
fn leave(reader: &mut Reader<'_>) -> Option<()>
    ensures { OnSome result (read_key reader.old ≡ Some (None, reader.new)) }
{
    match reader.next_key().ok()? {
        None => Some(()),
        Some(_) => None,
    }
}

/// Reads a line as the kernel's update of a widget without buffers, with these numbers as values: the comm's id, and
/// the update. None: its members aren't `call`, `id` and `state` in this order, an object in the state has thousands of
/// members, or memory ran out.
pub fn push_at_once<'a>(
    alloc: Global,
    line: &'a [u8],
    numbers: Numbers,
    scratch: &'a mut TextScratch,
    texts: &mut KnownTexts,
) -> Option<(Text, Dict)>
    ensures { IfSome result (λ p. IsPush numbers line.now (p.0, p.1)) }
{
    let mut reader = reader_of(line, scratch)?;
    enter(&mut reader)?;
    enter_member(&mut reader, "call")?;
    let call = read_string(&mut reader)?;
    if !is_named(call, "push") {
        return None;
    }
    enter_member(&mut reader, "id")?;
    let id = read_string(&mut reader)?;
    enter_member(&mut reader, "state")?;
    let state = read_data(alloc, numbers, texts, &mut reader, DEPTH - 1)?;
    leave(&mut reader)?;
    end(&mut reader)?;
    Some((texts.text(alloc, id).ok()?, state))
}
