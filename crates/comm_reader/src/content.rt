ghost use Rattle.std.specs.Prelude.{◌≡◌, ◌<◌, length, false, Some, IfSome, MatchOption, OnSome};
ghost use Rattle.json.specs.Json.{no_members};
ghost use Rattle.comm_value.specs.Places.{members_have_bytes};
ghost use Rattle.comm_value.specs.declared.from_json.Numbers.{Numbers};
ghost use Rattle.comm_reader.specs.Reader.{ReadsMembers, ReadsObject, HasContent, IsData};

use crate::walk::{enter, is_named, read_string, read_value};
use bumpalo::Bump;
use comm_value::{Dict, KnownTexts, Numbers};
use json::Reader;
use std::alloc::Global;

/// What a message is made of in its content.
#[derive(Drop)]
pub struct Content<'a> {
    pub dict: Dict,
    pub comm_id: Option<&'a str>,
    pub target_name: Option<&'a str>,
}

/// Reads the next value as data, in which values nest at most so deep. None: it is no object, or none that
/// [`Dict::read`] reads.
#[inline(always)]
pub fn read_data(
    alloc: Global,
    numbers: Numbers,
    texts: &mut KnownTexts,
    reader: &mut Reader<'_>,
    depth: usize,
) -> Option<Dict>
    ensures reads { IfSome result (λ d. ReadsObject depth reader.old
        (IsData numbers d) reader.new) }
    ensures shorter { OnSome result (length reader.new < length reader.old) }
{
    enter(reader)?;
    if depth == 0 {
        return None;
    }
    Dict::read(alloc, numbers, texts, reader, depth - 1)
}

// Puts this content in the place of another, or of none.
#[inline(always)]
fn set_content<'a>(at: &mut Option<Content<'a>>, content: Content<'a>)
    ensures { at.new ≡ Some content.entry }
{
    *at = Some(content);
}

// The members of a content that has begun. Of several with one key the last counts.
fn read_members<'a>(
    alloc: Global,
    numbers: Numbers,
    texts: &mut KnownTexts,
    reader: &mut Reader<'a>,
    lists: &'a Bump,
    depth: usize,
    content: &mut Option<Content<'a>>,
) -> Option<()>
    ensures reads { OnSome result (MatchOption content.new ⊥ (λ c.
        ReadsMembers depth reader.old (HasContent numbers c) reader.new)) }
    ensures plain { OnSome result
        (IfSome content.new (λ c. members_have_bytes c.dict ≡ false)) }
    ensures shorter { OnSome result (length reader.new < length reader.old) }
{
    let mut dict = Dict::new();
    let mut comm_id = None;
    let mut target_name = None;
    while let Some(key) = reader.next_key().ok()? {
        if is_named(key, "data") {
            dict = read_data(alloc, numbers, texts, reader, depth)?;
        } else if is_named(key, "comm_id") {
            comm_id = Some(read_string(reader)?);
        } else if is_named(key, "target_name") {
            target_name = Some(read_string(reader)?);
        } else {
            drop(read_value(reader, lists, depth)?);
        }
    }
    set_content(
        content,
        Content {
            dict,
            comm_id,
            target_name,
        },
    );
    Some(())
}

/// Reads the next value as a content, in which values nest at most so deep, and puts it where the caller has it. None:
/// it is no object, its `data` is none that [`Dict::read`] reads, its `comm_id` or `target_name` is no string, or
/// another member is no value.
#[inline(always)]
pub fn read_content<'a>(
    alloc: Global,
    numbers: Numbers,
    texts: &mut KnownTexts,
    reader: &mut Reader<'a>,
    lists: &'a Bump,
    depth: usize,
    content: &mut Option<Content<'a>>,
) -> Option<()>
    ensures reads { OnSome result (MatchOption content.new ⊥ (λ c.
        ReadsObject depth reader.old (HasContent numbers c) reader.new)) }
    ensures plain { OnSome result
        (IfSome content.new (λ c. members_have_bytes c.dict ≡ false)) }
    ensures shorter { OnSome result (length reader.new < length reader.old) }
{
    enter(reader)?;
    if depth == 0 {
        return None;
    }
    read_members(alloc, numbers, texts, reader, lists, depth - 1, content)
}
