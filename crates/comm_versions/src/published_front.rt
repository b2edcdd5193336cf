//! What is published, and since when it lists the same comms.
ghost use Rattle.std.specs.Prelude.{◌≡◌, ◌^◌, ◌<◌, ◌++◌, ◌∷◌, [], length, false, MatchBool};
ghost use Rattle.std.specs.Arc.{arc_value};
ghost use Rattle.comm_core.specs.History.{IsLegal, replay};
ghost use Rattle.comm_core.specs.Row.{rows};
ghost use Rattle.comm_versions.specs.Known.{known, origin_of};
ghost use Rattle.comm_versions.specs.Listing.{ListAlike};

use crate::comm_table::CommTable;
use crate::history::{Head, History};
use crate::stamp::Stamp;
use crate::version::Version;
use comm_core::Entry;
use std::alloc::Global;
use std::marker::Model;
use std::sync::Arc;

/// The front that is published, and the number of entries since when the listing is the same: after each prefix of
/// more entries the same comms are listed. Contracts see the front.
#[derive(Drop)]
pub struct PublishedFront<M: History> {
    front: Stamp<M>,
    listing_since: u64,
}

impl<M: History> Model for PublishedFront<M> {
    ghost use Rattle.std.specs.Prelude.{List};
    ghost use Rattle.comm_core.specs.declared.entry.Entry.{Entry};
    ghost use Rattle.comm_versions.specs.Code.{entries_code};
    ghost use Rattle.comm_versions.specs.Listing.{ListsAlikeSince};

    ghost Value = { List Entry };

    ghost coded = { entries_code };

    ghost view = { λ p. p.front };

    ghost invariant = { λ p. ListsAlikeSince M.limits.comms p.listing_since p.front };
}

impl<M: History> PublishedFront<M> {
    /// Publishes this front as the first; its listing is taken for new.
    pub fn new(front: Stamp<M>) -> PublishedFront<M>
        ensures { result ≡ front }
    {
        let listing_since = front.number();
        PublishedFront {
            front,
            listing_since,
        }
    }

    /// The front, to be copied for a stamp.
    pub fn front(&self) -> &Stamp<M>
        ensures { result.now ≡ self.now }
    {
        &self.front
    }

    /// Appends an entry, and says whether it did: not where the history is longer than this front. Where
    /// `changes_listing` is false, the entry has to leave the listing as it is.
    #[must_use]
    pub fn extend(
        &mut self,
        head: &Head<M>,
        entry: &Arc<Entry, Global>,
        changes_listing: bool,
    ) -> bool
        requires room { length self.old < 2 ^ 62 }
        requires legal { IsLegal M.limits.clients M.limits.comms
            (self.old ++ arc_value entry.now ∷ []) }
        requires lists { changes_listing ≡ false
            → ListAlike (rows (replay M.limits.comms self.old))
            (rows (replay M.limits.comms (self.old ++ arc_value entry.now ∷ []))) }
        ensures { MatchBool result (self.new ≡ self.old ++ arc_value entry.now ∷ [])
            (self.new ≡ self.old) }
    {
        let before = self.front.number();
        if !self.front.extend(head, entry) {
            return false;
        }
        if changes_listing {
            self.listing_since = before;
        }
        true
    }

    /// The version to be shown, with this root: the table after the front.
    pub fn version(&self, root: Arc<CommTable, Global>) -> Version
        requires { arc_value root ≡ rows (replay M.limits.comms self.now) }
        ensures { result.front ≡ known (origin_of M.book M.limits) self.now }
    {
        Version::with_listing_since(root, self.listing_since, self.front.raw().copy())
    }
}
