// Values as JSON text.
ghost use Rattle.std.specs.Prelude.{◌≡◌, [], ◌∷◌, ◌++◌, false, if◌then◌else◌, OnOk, decimal};
ghost use Rattle.json.specs.Json.{object};
ghost use Rattle.serde_json.specs.Find.{of_integer};
ghost use Rattle.serde_json.specs.Written.{number_text};
ghost use Rattle.comm_json.specs.Text.{compact_text, items_text, members_text};
ghost use Rattle.comm_value.specs.ToJson.{json_of, json_items, json_members};
ghost use Rattle.comm_value.specs.View.{tree};

use crate::json_string::{push_byte, write_key, write_text};
use crate::val::{Dict, Items, Val};
use crate::whole::Whole;
use itoa::Buffer;
use std::alloc::AllocError;

impl Val {
    /// Appends the value as compact JSON (RFC 8259), a buffer as null. Err: out of memory; `out` may hold a part of
    /// the text.
    pub fn write_json(&self, out: &mut Vec<u8>) -> Result<(), AllocError>
        ensures { OnOk result
            (out.new.items ≡ out.old.items ++ compact_text (json_of (tree self.now))) }
    {
        write_value(self, out)
    }
}

impl Dict {
    /// Appends the dict as compact JSON with its keys in byte order, a buffer as null. Err: out of memory; `out` may
    /// hold a part of the text.
    pub fn write_json(&self, out: &mut Vec<u8>) -> Result<(), AllocError>
        ensures { OnOk result
            (out.new.items ≡ out.old.items ++ compact_text (object (json_members self.now))) }
    {
        write_members(self, out)
    }
}

fn write_whole(whole: Whole, out: &mut Vec<u8>) -> Result<(), AllocError>
    ensures { OnOk result (out.new.items ≡ out.old.items ++ number_text (of_integer whole)) }
{
    let number = whole.get();
    if number >= 0 {
        return write_number(number as u64, out);
    }
    let mut buffer = Buffer::new();
    out.extend_from_slice(buffer.format(number as i64).as_bytes())
}

// A single digit needs no buffer.
#[inline(always)]
fn write_number(number: u64, out: &mut Vec<u8>) -> Result<(), AllocError>
    ensures { OnOk result (out.new.items ≡ out.old.items ++ decimal number) }
{
    if number < 10 {
        push_byte(b'0' + number as u8, out)?;
        return Ok(());
    }
    let mut buffer = Buffer::new();
    out.extend_from_slice(buffer.format(number).as_bytes())
}

// What stands before an item or a member: the bracket that opens the whole, or a comma.
#[inline(always)]
fn first_byte(later: bool, bracket: u8) -> u8
    ensures { result ≡ (if later then 44 else bracket) }
{
    if later { b',' } else { bracket }
}

#[cycle(json_text)]
fn write_value(value: &Val, out: &mut Vec<u8>) -> Result<(), AllocError>
    ensures { OnOk result
        (out.new.items ≡ out.old.items ++ compact_text (json_of (tree value.now))) }
{
    match value {
        Val::Null => out.extend_from_slice(b"null"),
        Val::Bool(true) => out.extend_from_slice(b"true"),
        Val::Bool(false) => out.extend_from_slice(b"false"),
        Val::Whole(whole) => write_whole(*whole, out),
        Val::Decimal(number) => out.extend_from_slice(number.as_str().as_bytes()),
        Val::Text(text) => write_text(text.as_str(), out),
        Val::Bytes(_) => out.extend_from_slice(b"null"),
        Val::List(items) => write_items(items, out),
        Val::Dict(dict) => write_members(dict, out),
    }
}

#[cycle(json_text)]
fn write_items(items: &Items, out: &mut Vec<u8>) -> Result<(), AllocError>
    ensures { OnOk result
        (out.new.items ≡ out.old.items ++ 91 ∷ items_text false (json_items items.now)) }
{
    let mut later = false;
    for item in items.as_slice() {
        push_byte(first_byte(later, b'['), out)?;
        write_value(item, out)?;
        later = true;
    }
    if !later {
        return out.extend_from_slice(b"[]");
    }
    push_byte(b']', out)
}

#[cycle(json_text)]
fn write_members(dict: &Dict, out: &mut Vec<u8>) -> Result<(), AllocError>
    ensures { OnOk result
        (out.new.items ≡ out.old.items ++ 123 ∷ members_text false (json_members dict.now)) }
{
    let mut later = false;
    for chunk in dict.chunks() {
        for member in chunk.as_slice() {
            write_key(first_byte(later, b'{'), member.key.as_str(), out)?;
            write_value(&member.value, out)?;
            later = true;
        }
    }
    if !later {
        return out.extend_from_slice(b"{}");
    }
    push_byte(b'}', out)
}
