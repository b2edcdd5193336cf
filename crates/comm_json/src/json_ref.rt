ghost use Rattle.std.specs.Prelude.{◌≡◌, ◌<◌, IfSome, option_map};
ghost use Rattle.json.specs.Json.{no_members};
ghost use Rattle.json.specs.Find.{get_item};
ghost use Rattle.json.specs.Value.{value_view, members_view};
ghost use Rattle.comm_json.specs.Behind.{behind, tidy, tidy_members, get_member, items, members, value_of_kind};
ghost use Rattle.comm_json.specs.Behind.{items_count};

use crate::json_number::NumberRef;
use bumpalo::Bump;
use serde_json::{Map, Value};

/// The JSON value that [`crate::read_line`] gives: strings are slices of the line, lists stand in the arena.
pub type LineValue<'a> = json::Value<'a, &'a Bump>;

/// A JSON value behind a reference: an owned one of `serde_json`, or one that [`crate::read_line`] gave.
#[derive(Clone, Copy)]
pub enum JsonRef<'v, 'a> {
    Owned(&'v Value),
    Borrowed(&'v LineValue<'a>),
}

/// The items of a JSON list behind a reference.
#[derive(Clone, Copy)]
pub enum ItemsRef<'v, 'a> {
    Owned(&'v Vec<Value>),
    Borrowed(&'v Vec<LineValue<'a>, &'a Bump>),
}

/// The members of an object in the order of the line. Of several with one key the last counts, as in `serde_json`.
pub type LineMembers<'a> = Vec<(&'a str, LineValue<'a>), &'a Bump>;

/// A JSON object behind a reference.
#[derive(Clone, Copy)]
pub enum ObjectRef<'v, 'a> {
    Owned(&'v Map<String, Value>),
    Borrowed(&'v LineMembers<'a>),
}

/// The kind of a JSON value, with its scalar, its items or its members behind a reference.
#[derive(Clone, Copy)]
pub enum JsonKind<'v, 'a> {
    Null,
    Bool(bool),
    Number(NumberRef<'v>),
    Text(&'v str),
    Items(ItemsRef<'v, 'a>),
    Object(ObjectRef<'v, 'a>),
}

impl<'v, 'a> JsonRef<'v, 'a> {
    /// Its kind.
    pub fn kind(self) -> JsonKind<'v, 'a>
        ensures { value_of_kind result ≡ behind self.entry }
    {
        match self {
            JsonRef::Owned(value) => kind_of_owned(value),
            JsonRef::Borrowed(value) => kind_of_borrowed(value),
        }
    }
}

fn kind_of_owned<'v, 'a>(value: &'v Value) -> JsonKind<'v, 'a>
    ensures { value_of_kind result ≡ behind (JsonRef.Owned value.entry) }
{
    match value {
        Value::Null => JsonKind::Null,
        Value::Bool(b) => JsonKind::Bool(*b),
        Value::Number(number) => JsonKind::Number(NumberRef::Read(*number)),
        Value::String(text) => JsonKind::Text(text.as_str()),
        Value::Array(items) => JsonKind::Items(ItemsRef::Owned(items)),
        Value::Object(members) => JsonKind::Object(ObjectRef::Owned(members)),
    }
}

fn kind_of_borrowed<'v, 'a>(value: &'v LineValue<'a>) -> JsonKind<'v, 'a>
    ensures { value_of_kind result ≡ behind (JsonRef.Borrowed value.entry) }
{
    match value {
        json::Value::Null => JsonKind::Null,
        json::Value::Bool(b) => JsonKind::Bool(*b),
        json::Value::Number(text) => JsonKind::Number(NumberRef::Written(text)),
        json::Value::String(text) => JsonKind::Text(text),
        json::Value::Array(items) => JsonKind::Items(ItemsRef::Borrowed(items)),
        json::Value::Object(list) => JsonKind::Object(ObjectRef::Borrowed(list)),
    }
}

impl<'v, 'a> ItemsRef<'v, 'a> {
    /// The number of items.
    pub fn len(self) -> usize
        ensures { result ≡ items_count (items self.entry) }
    {
        match self {
            ItemsRef::Owned(items) => items.len(),
            ItemsRef::Borrowed(items) => items.len(),
        }
    }

    /// The item at an index, from 0. None: the index is not below [`ItemsRef::len`]. O(1).
    pub fn get(self, index: usize) -> Option<JsonRef<'v, 'a>>
        ensures item { option_map behind result ≡ get_item index (items self.entry) }
        ensures within { IfSome result (λ _. index < items_count (items self.entry)) }
    {
        match self {
            ItemsRef::Owned(items) => if index < items.len() {
                Some(JsonRef::Owned(&items[index]))
            } else {
                None
            },
            ItemsRef::Borrowed(items) => if index < items.len() {
                Some(JsonRef::Borrowed(&items[index]))
            } else {
                None
            },
        }
    }
}

impl<'v, 'a> ObjectRef<'v, 'a> {
    /// The value at a key, compared by bytes. None: no member has it. O(n) in the members of a line's object.
    #[inline(always)]
    pub fn get(self, key: &str) -> Option<JsonRef<'v, 'a>>
        ensures { option_map behind result ≡ get_member key.now (members self.entry) }
    {
        match self {
            ObjectRef::Owned(map) => match map.get(key) {
                Some(member) => Some(JsonRef::Owned(member)),
                None => None,
            },
            ObjectRef::Borrowed(list) => match last_of(list, key) {
                Some(member) => Some(JsonRef::Borrowed(member)),
                None => None,
            },
        }
    }
}

// The value of the last member with this key. Inlined up to where the key is a constant, whose bytes are then compared
// in place.
#[inline(always)]
fn last_of<'v, 'a>(list: &'v LineMembers<'a>, key: &str) -> Option<&'v LineValue<'a>>
    ensures { option_map (λ v. tidy (value_view v.now)) result
        ≡ get_member key.now (tidy_members (members_view list.now.items) no_members) }
{
    let mut left = list.len();
    while left > 0 {
        left -= 1;
        let member = &list[left];
        if member.0 == key {
            return Some(&member.1);
        }
    }
    None
}
