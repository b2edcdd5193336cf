ghost use Rattle.std.specs.Prelude.{◌≡◌, is_some};
ghost use Rattle.serde_json.specs.Read.{number_of};
ghost use Rattle.json.specs.Value.{value_view, items_view, members_view};
ghost use Rattle.comm_json.specs.Behind.{in_range, items_in_range, members_in_range};

use crate::json_number::{few_digits, number_in};
use crate::json_ref::{LineMembers, LineValue};
use bumpalo::Bump;
use json::Value;

/// Whether each number of the value is in `serde_json`'s range, so that `serde_json` reads the value. O(n).
#[must_use]
#[cycle(in_range)]
pub fn numbers_are_in_range(value: &LineValue<'_>) -> bool
    ensures { result ≡ in_range (value_view value.now) }
{
    match value {
        Value::Null | Value::Bool(_) | Value::String(_) => true,
        Value::Number(text) => few_digits(text).is_some() || is_in_range(text),
        Value::Array(items) => items_are_in_range(items),
        Value::Object(members) => members_are_in_range(members),
    }
}

// Apart, as the two loops below, so that a value that is neither a list nor an object takes few instructions.
#[inline(never)]
fn is_in_range(text: &str) -> bool
    ensures { result ≡ is_some (number_of text.now) }
{
    number_in(text).is_some()
}

#[cycle(in_range)]
#[inline(never)]
fn items_are_in_range(items: &Vec<LineValue<'_>, &Bump>) -> bool
    ensures { result ≡ items_in_range (items_view items.now.items) }
{
    for item in items {
        if !numbers_are_in_range(item) {
            return false;
        }
    }
    true
}

#[cycle(in_range)]
#[inline(never)]
fn members_are_in_range(members: &LineMembers<'_>) -> bool
    ensures { result ≡ members_in_range (members_view members.now.items) }
{
    for member in members {
        if !numbers_are_in_range(&member.1) {
            return false;
        }
    }
    true
}
