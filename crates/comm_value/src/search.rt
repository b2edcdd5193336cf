ghost use Rattle.std.specs.Prelude.{◌≡◌, ◌<◌, ◌≤◌, true, IfOk, IfErr, length, take, drop, option_map};
ghost use Rattle.comm_value.specs.Order.{key_cmp, members_ordered};
ghost use Rattle.comm_value.specs.View.{tree, members_of};
ghost use Rattle.comm_value.specs.Node.{get};
ghost use Rattle.comm_value.specs.Search.{AllBelow, IsFound, IsAbsent};

use crate::val::{Member, Val};
use std::cmp::Ordering;

// So many members are looked through one by one for a key: most texts that differ from it do so in their length, so
// that this is quicker than a search by their order.
const FEW: usize = 4;

/// The value of the member with the key. None: no member has it.
pub(crate) fn value_of<'a>(members: &'a [Member], key: &str) -> Option<&'a Val>
    requires { members_ordered (members_of members.now) ≡ true }
    ensures { option_map (λ v. tree v.now) result ≡ get key.now (members_of members.now) }
{
    if members.len() <= FEW {
        return value_among(members, key);
    }
    match place_of(members, key) {
        Ok(i) => Some(&members[i].value),
        Err(_) => None,
    }
}

// The same, one member after another.
fn value_among<'a>(members: &'a [Member], key: &str) -> Option<&'a Val>
    ensures { option_map (λ v. tree v.now) result ≡ get key.now (members_of members.now) }
{
    for member in members {
        if member.key.is(key) {
            return Some(&member.value);
        }
    }
    None
}

/// The byte order of two keys. Most differ in their first byte, which tells it without a call.
#[inline(always)]
pub(crate) fn key_order(key: &str, other: &str) -> Ordering
    ensures { result ≡ key_cmp key.now other.now }
{
    let firsts = (key.as_bytes().first(), other.as_bytes().first());
    if let (Some(one), Some(two)) = firsts {
        if *one < *two {
            return Ordering::Less;
        }
        if *two < *one {
            return Ordering::Greater;
        }
    }
    key.cmp(other)
}

/// Binary search. Ok: the index of the member with the key. Err: the index at which it would be inserted.
pub(crate) fn place_of(members: &[Member], key: &str) -> Result<usize, usize>
    requires { members_ordered (members_of members.now) ≡ true }
    ensures found { IfOk result (λ i. (i < length members.now)
        × AllBelow key.now (take i members.now) × IsFound key.now (drop i members.now)) }
    ensures absent { IfErr result (λ i. (i ≤ length members.now)
        × AllBelow key.now (take i members.now) × IsAbsent key.now (drop i members.now)) }
{
    let mut low = 0;
    let mut high = members.len();
    while low < high {
        let middle = low + (high - low) / 2;
        let order = key_order(key, members[middle].key.as_str());
        match order {
            Ordering::Less => high = middle,
            Ordering::Equal => return Ok(middle),
            Ordering::Greater => low = middle + 1,
        }
    }
    Err(low)
}
