//! Dicts that are read straight from the tokens of a text, with no tree of the text beside.
ghost use Rattle.std.specs.Prelude.{◌≡◌, ◌<◌, true, is_some, Some, IfSome, IfOk, OnOk, OnSome, option_map};
ghost use Rattle.std.specs.Prelude.{[], ◌∷◌, ◌++◌, length, nat_le};
ghost use Rattle.serde_json.specs.Read.{number_of};
ghost use Rattle.comm_value.specs.FromJson.{taken_as};
ghost use Rattle.comm_value.specs.Order.{is_ordered, members_ordered};
ghost use Rattle.comm_value.specs.Put.{insert};
ghost use Rattle.comm_value.specs.Reading.{Reads, ReadsItems, ReadsMember, ReadsMembers, ReadsMore};
ghost use Rattle.comm_value.specs.View.{tree, members_of, flat, AllFilled};

use crate::chunks::{Chunk, chunks_from, put, put_member};
use crate::from_json::{Numbers, number_from};
use crate::known_texts::KnownTexts;
use crate::search::key_order;
use crate::val::{Dict, Items, Member, Val};
use comm_json::NumberRef;
use json::{Reader, Token};
use std::alloc::{AllocError, Global};
use std::cmp::Ordering;

impl Dict {
    /// Reads the members of an object that has begun, in which values nest at most so deep; short texts are shared with
    /// those that were met before. None: the text is no JSON, a number of it is no value, an object has thousands of
    /// members, or memory ran out. [`Dict::from_ref`] says which, and reads what is large.
    pub fn read(
        alloc: Global,
        numbers: Numbers,
        texts: &mut KnownTexts,
        reader: &mut Reader<'_>,
        depth: usize,
    ) -> Option<Dict>
        ensures reads { IfSome result (λ d. ReadsMembers numbers depth reader.old d reader.new) }
        ensures shorter { OnSome result (length reader.new < length reader.old) }
    {
        read_members(alloc, numbers, texts, reader, depth)
    }
}

#[inline(always)]
fn read_number(alloc: Global, numbers: Numbers, text: &str) -> Option<Val>
    ensures in_range { OnSome result (is_some (number_of text.now) ≡ true) }
    ensures taken { IfSome result (λ v. taken_as numbers text.now ≡ Some (tree v)) }
{
    number_from(alloc, numbers, NumberRef::Written(text)).ok()
}

#[cycle(read)]
#[inline(always)]
fn read_val(
    alloc: Global,
    numbers: Numbers,
    texts: &mut KnownTexts,
    reader: &mut Reader<'_>,
    depth: usize,
) -> Option<Val>
    ensures reads { IfSome result (λ v. Reads numbers depth reader.old (tree v) reader.new) }
    ensures shorter { OnSome result (length reader.new < length reader.old) }
{
    match reader.next()? {
        Token::Null => Some(Val::Null),
        Token::Bool(b) => Some(Val::Bool(b)),
        Token::Number(text) => read_number(alloc, numbers, text),
        Token::String(text) => Some(Val::Text(texts.text(alloc, text).ok()?)),
        Token::BeginArray => {
            if depth == 0 {
                return None;
            }
            let items = read_items(alloc, numbers, texts, reader, depth - 1)?;
            Some(Val::List(items))
        }
        Token::BeginObject => {
            if depth == 0 {
                return None;
            }
            let dict = read_members(alloc, numbers, texts, reader, depth - 1)?;
            Some(Val::Dict(dict))
        }
        Token::EndArray | Token::EndObject | Token::Key(_) | Token::Bad => None,
    }
}

#[cycle(read)]
fn read_items(
    alloc: Global,
    numbers: Numbers,
    texts: &mut KnownTexts,
    reader: &mut Reader<'_>,
    depth: usize,
) -> Option<Items>
    ensures reads { IfSome result (λ is. ReadsItems numbers depth reader.old is reader.new) }
    ensures shorter { OnSome result (length reader.new < length reader.old) }
{
    if reader.take_end_array() {
        return Some(Items::empty());
    }
    let mut found = Vec::with_capacity(alloc, 4).ok()?;
    loop {
        let value = read_val(alloc, numbers, texts, reader, depth)?;
        value.in_order();
        push_item(&mut found, value).ok()?;
        if reader.take_end_array() {
            return Items::new(alloc, found).ok();
        }
    }
}

// With room to spare the item is pushed where this is called.
#[inline(always)]
fn push_item(all: &mut Vec<Val>, item: Val) -> Result<(), AllocError>
    ensures { OnOk result (all.new.items ≡ all.old.items ++ item ∷ []) }
{
    if all.len() < all.capacity() {
        all.push_reserved(item);
        return Ok(());
    }
    Ok(all.push(item)?)
}

// The next member of an object; Some(None) is its end.
#[cycle(read)]
#[inline(always)]
fn read_member(
    alloc: Global,
    numbers: Numbers,
    texts: &mut KnownTexts,
    reader: &mut Reader<'_>,
    depth: usize,
) -> Option<Option<Member>>
    ensures reads { IfSome result (λ o. ReadsMember numbers depth reader.old
        (option_map (λ m. (m.key, tree m.value)) o) reader.new) }
    ensures ordered { IfSome result (λ o. IfSome o (λ m. is_ordered (tree m.value) ≡ true)) }
    ensures shorter { OnSome result (length reader.new < length reader.old) }
{
    let Some(name) = reader.next_key().ok()? else {
        return Some(None);
    };
    let key = texts.text(alloc, name).ok()?;
    let value = read_val(alloc, numbers, texts, reader, depth)?;
    value.in_order();
    Some(Some(Member { key, value }))
}

// Each member goes to its place as it is read. Of several with one key the last stands.
#[cycle(read)]
fn read_members(
    alloc: Global,
    numbers: Numbers,
    texts: &mut KnownTexts,
    reader: &mut Reader<'_>,
    depth: usize,
) -> Option<Dict>
    ensures reads { IfSome result (λ d. ReadsMembers numbers depth reader.old d reader.new) }
    ensures shorter { OnSome result (length reader.new < length reader.old) }
{
    let Some(first) = read_member(alloc, numbers, texts, reader, depth)? else {
        return Some(Dict::new());
    };
    let Some(second) = read_member(alloc, numbers, texts, reader, depth)? else {
        return Dict::of_one(alloc, first).ok();
    };
    let both = both(alloc, first, second).ok()?;
    read_rest(alloc, numbers, texts, reader, depth, both)
}

// The two members in the order of their keys, the second alone where they have the same.
fn both(alloc: Global, first: Member, second: Member) -> Result<Vec<Member>, AllocError>
    requires { is_ordered (tree first.value) ≡ true }
    ensures { IfOk result (λ all. members_of all.items
        ≡ insert second.key (tree second.value) (members_of (first ∷ []))) }
{
    let mut all = Vec::with_capacity(alloc, 4)?;
    match key_order(second.key.as_str(), first.key.as_str()) {
        Ordering::Less => {
            all.push_reserved(second);
            all.push_reserved(first);
        }
        Ordering::Equal => all.push_reserved(second),
        Ordering::Greater => {
            all.push_reserved(first);
            all.push_reserved(second);
        }
    }
    Ok(all)
}

// The dict of these members and of those that follow them.
#[cycle(read)]
#[inline(always)]
fn read_rest(
    alloc: Global,
    numbers: Numbers,
    texts: &mut KnownTexts,
    reader: &mut Reader<'_>,
    depth: usize,
    before: Vec<Member>,
) -> Option<Dict>
    requires { members_ordered (members_of before.items) ≡ true }
    ensures reads { IfSome result
        (λ d. ReadsMore numbers depth reader.old (members_of before.items) d reader.new) }
    ensures shorter { OnSome result (length reader.new < length reader.old) }
{
    let mut found = before;
    while let Some(member) = read_member(alloc, numbers, texts, reader, depth)? {
        if is_many(found.len()) {
            let chunks = chunks_from(alloc, found).ok()?;
            let more = put(alloc, chunks, member).ok()?;
            return read_many(alloc, numbers, texts, reader, depth, more);
        }
        found = put_among_few(found, member).ok()?;
    }
    Dict::from_members(alloc, found).ok()
}

// Whether so many members, or chunks, are the most that stand in one list, in which a new one moves those behind it.
#[inline(always)]
fn is_many(count: usize) -> bool
    ensures { result ≡ nat_le 64 count }
{
    64 <= count
}

// Puts a member at its place among less than 64.
#[inline(always)]
fn put_among_few(members: Vec<Member>, member: Member) -> Result<Vec<Member>, AllocError>
    requires few { length members.items < 64 }
    requires ordered { members_ordered (members_of members.items) ≡ true }
    ensures { IfOk result (λ all. members_of all.items
        ≡ insert member.key (tree member.value) (members_of members.items)) }
{
    put_member(members, member)
}

// The dict of the members in these chunks and of those that follow them, each of which goes to the chunk of its key.
#[cycle(read)]
#[inline(never)]
fn read_many(
    alloc: Global,
    numbers: Numbers,
    texts: &mut KnownTexts,
    reader: &mut Reader<'_>,
    depth: usize,
    before: Vec<Chunk>,
) -> Option<Dict>
    requires ordered { members_ordered (members_of (flat before.items)) ≡ true }
    requires filled { AllFilled before.items }
    ensures reads { IfSome result
        (λ d. ReadsMore numbers depth reader.old (members_of (flat before.items)) d reader.new) }
    ensures shorter { OnSome result (length reader.new < length reader.old) }
{
    let mut found = before;
    while let Some(member) = read_member(alloc, numbers, texts, reader, depth)? {
        if is_many(found.len()) {
            return None;
        }
        found = put(alloc, found, member).ok()?;
    }
    Dict::from_chunks(alloc, found).ok()
}
