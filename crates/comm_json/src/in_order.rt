ghost use Rattle.std.specs.Prelude.{◌≡◌, ◌-◌, Ok, IfOk, true};
ghost use Rattle.std.specs.BTreeMap.{insert_entry};
ghost use Rattle.json.specs.Value.{members_view};
ghost use Rattle.json.specs.Json.{no_members};
ghost use Rattle.serde_json.specs.View.{members_view as owned_view};
ghost use Rattle.serde_json.specs.Written.{members_outline};
ghost use Rattle.comm_json.specs.Behind.{behind, members, tidy_members, members_of};
ghost use Rattle.comm_json.specs.Behind.{member_refs, text_cmp, AreInOrder};

use crate::json_ref::{JsonRef, LineMembers, ObjectRef};
use bumpalo::Bump;
use serde_json::{Map, Value};
use std::alloc::{AllocError, Global};
use std::cmp::Ordering;
use std::collections::BTreeMap;

/// A member behind a reference: its key and its value.
pub type MemberRef<'v, 'a> = (&'v str, JsonRef<'v, 'a>);

/// An object's members in the order of their keys' bytes, each key once. A line's object has them in its arena.
#[derive(Drop)]
pub enum MembersInOrder<'v, 'a> {
    Owned(Vec<MemberRef<'v, 'a>>),
    Borrowed(Vec<MemberRef<'v, 'a>, &'a Bump>),
}

impl<'v, 'a> MembersInOrder<'v, 'a> {
    /// The members, the lowest key first.
    pub fn as_slice(&self) -> &[MemberRef<'v, 'a>]
        ensures { result.now ≡ member_refs self.now }
    {
        match self {
            MembersInOrder::Owned(all) => all,
            MembersInOrder::Borrowed(all) => all,
        }
    }
}

impl<'v, 'a> ObjectRef<'v, 'a> {
    /// Its members in the order of their keys' bytes, each key once. O(n) where they are nearly in order, else
    /// O(n log n). Err: out of memory.
    pub fn in_order(self, alloc: Global) -> Result<MembersInOrder<'v, 'a>, AllocError>
        ensures all { IfOk result (λ all. members_of (member_refs all) ≡ members self.entry) }
        ensures ordered { IfOk result (λ all. AreInOrder (member_refs all)) }
    {
        match self {
            ObjectRef::Owned(map) => Ok(MembersInOrder::Owned(all_of(alloc, map)?)),
            ObjectRef::Borrowed(list) => Ok(MembersInOrder::Borrowed(in_order(alloc, list)?)),
        }
    }
}

fn all_of<'v, 'a>(
    alloc: Global,
    map: &'v Map<String, Value>,
) -> Result<Vec<MemberRef<'v, 'a>>, AllocError>
    ensures all { IfOk result
        (λ all. members_of all.items ≡ members_outline (owned_view map.now.entries)) }
    ensures ordered { IfOk result (λ all. AreInOrder all.items) }
{
    let mut all = Vec::with_capacity(alloc, map.len())?;
    for (key, value) in map.iter() {
        all.push((key.as_str(), JsonRef::Owned(value)))?;
    }
    Ok(all)
}

fn in_order<'v, 'a>(
    alloc: Global,
    list: &'v LineMembers<'a>,
) -> Result<Vec<MemberRef<'v, 'a>, &'a Bump>, AllocError>
    ensures all { IfOk result
        (λ all. members_of all.items ≡ tidy_members (members_view list.now.items) no_members) }
    ensures ordered { IfOk result (λ all. AreInOrder all.items) }
{
    let mut all = Vec::with_capacity(*list.allocator(), list.len())?;
    for member in list {
        if !insert_near_end(&mut all, member.0, JsonRef::Borrowed(&member.1))? {
            return by_map(alloc, list);
        }
    }
    Ok(all)
}

// Inserts a member at its place, or in place of the one with its key. Ok(false): its place is too far from the end.
fn insert_near_end<'v, 'a>(
    all: &mut Vec<MemberRef<'v, 'a>, &'a Bump>,
    key: &'v str,
    value: JsonRef<'v, 'a>,
) -> Result<bool, AllocError>
    requires { AreInOrder all.old.items }
    ensures { result ≡ Ok true
        → all.new.items ≡ insert_entry text_cmp all.old.items key.entry value.entry }
{
    let mut place = all.len();
    let least = lowest_near(place);
    while place > least {
        match key.cmp(all[place - 1].0) {
            Ordering::Greater => {
                all.insert(place, (key, value))?;
                return Ok(true);
            }
            Ordering::Equal => {
                all[place - 1].1 = value;
                return Ok(true);
            }
            Ordering::Less => place -= 1,
        }
    }
    if place > 0 {
        return Ok(false);
    }
    all.insert(0, (key, value))?;
    Ok(true)
}

// The lowest place that is near the end: the last 64 members are the most that an insertion moves.
fn lowest_near(len: usize) -> usize
    ensures { result ≡ len - 64 }
{
    len.saturating_sub(64)
}

fn by_map<'v, 'a>(
    alloc: Global,
    list: &'v LineMembers<'a>,
) -> Result<Vec<MemberRef<'v, 'a>, &'a Bump>, AllocError>
    ensures all { IfOk result
        (λ all. members_of all.items ≡ tidy_members (members_view list.now.items) no_members) }
    ensures ordered { IfOk result (λ all. AreInOrder all.items) }
{
    let mut map: BTreeMap<&'v str, JsonRef<'v, 'a>> = BTreeMap::new(alloc);
    for member in list {
        map.insert(member.0, JsonRef::Borrowed(&member.1))?;
    }
    let mut all = Vec::with_capacity(*list.allocator(), map.len())?;
    for (key, value) in map.iter() {
        all.push((*key, *value))?;
    }
    Ok(all)
}
