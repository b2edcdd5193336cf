// The members of a chunk: one alone stands inline, several stand in a list.
ghost use Rattle.std.specs.Prelude.{◌≡◌, ◌∷◌, [], IfSome};
ghost use Rattle.comm_value.specs.View.{grouped};

use crate::val::{Group, Member};
use std::slice;

impl Group {
    /// The group of these members, which are moved in.
    pub(crate) fn of(members: Vec<Member>) -> Group
        ensures { grouped result ≡ members.items }
    {
        let mut all = members;
        if all.len() == 1 {
            if let Some(member) = all.pop() {
                return Group::One(member);
            }
        }
        Group::Many(all)
    }

    /// The members.
    pub(crate) fn as_slice(&self) -> &[Member]
        ensures { result.now ≡ grouped self.now }
    {
        match self {
            Group::One(member) => slice::from_ref(member),
            Group::Many(members) => members.as_slice(),
        }
    }

    /// The member, where it is one.
    pub(crate) fn alone(&self) -> Option<&Member>
        ensures { IfSome result (λ m. grouped self.now ≡ m.now ∷ []) }
    {
        match self {
            Group::One(member) => Some(member),
            Group::Many(_) => None,
        }
    }
}
