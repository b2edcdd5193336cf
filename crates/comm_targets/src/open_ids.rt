//! The ids of a target's open comms, as contracts see them.
ghost use Rattle.std.specs.Prelude.{◌≡◌, List, ℕ, []};
ghost use Rattle.std.specs.Coded.{coded_list, coded_ℕ};
ghost use Rattle.comm_targets.specs.Meaning.{ids_after, without};

use crate::staged::Staged;
use std::marker::{Model, Send};

/// The ids of a target's open comms, in the order of opening. It has no bytes: nobody asks a target for them when it
/// runs, so that contracts alone see them.
pub(crate) struct OpenIds {
    pub ghost ids: { List (List ℕ) } by { coded_list (coded_list coded_ℕ) },
}

impl Model for OpenIds {
    ghost use base.Fml.{ftrue};

    ghost also_owns = { λ _. ftrue };
}

unsafe impl Send for OpenIds {}

impl Drop for OpenIds {
    fn drop(self) {
        let OpenIds {} = self;
    }
}

// What comes of the ids, where these are known.
#[derive(Drop)]
struct Opening<'a> {
    before: &'a OpenIds,
    staged: &'a Staged,
}

#[derive(Drop)]
struct Closing<'a> {
    before: &'a OpenIds,
    id: &'a str,
}

impl OpenIds {
    // The ids that a proof picks, by what the reference shows.
    fn picked<T>(from: &T) -> OpenIds
        ghost ids: { List (List ℕ) }
        ensures { result.ids ≡ ids }
    {
        let _ = from;
        OpenIds {}
    }

    /// No comm is open.
    pub fn none() -> OpenIds
        ensures { result.ids ≡ [] }
    {
        OpenIds::picked(&())
    }

    /// The ids once what is staged is done.
    pub fn after(&self, staged: &Staged) -> OpenIds
        ensures { result.ids ≡ ids_after self.now.ids staged.now.event }
    {
        OpenIds::picked(&Opening {
            before: self,
            staged,
        })
    }

    /// The ids without this one.
    pub fn without(&self, id: &str) -> OpenIds
        ensures { result.ids ≡ without id.now self.now.ids }
    {
        OpenIds::picked(&Closing { before: self, id })
    }
}
