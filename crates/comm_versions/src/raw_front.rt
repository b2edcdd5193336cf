//! Prefixes of a history that were seen, without a type parameter: `left_right` keeps them in both copies of a
//! version.
ghost use Rattle.std.specs.Prelude.{◌≡◌, ◌<◌, ◌^◌, ◌++◌, ◌∷◌, [], length, true, MatchBool};
ghost use mathlib.Core.List.{IsPrefix};
ghost use Rattle.comm_core.specs.History.{has_end, IsLegal};
ghost use Rattle.comm_versions.specs.Known.{known, origin};

use crate::history::{AppendStep, EntrySource, HistoryRule, NoOffer, RawHead};
use comm_core::{Entry, an_end_comes_last};
use logbook::{Offer, Seen};
use std::marker::Model;

/// A prefix of some history that was seen. Contracts see which history it is, its limits, and the entries.
#[derive(Drop)]
pub struct RawFront {
    count: u64,
    clients: usize,
    comms: usize,
    seen: Seen<Entry, u64, HistoryRule>,
}

impl Model for RawFront {
    ghost use Rattle.std.specs.Prelude.{◌≡◌, length};
    ghost use Rattle.comm_core.specs.History.{IsLegal};
    ghost use Rattle.comm_versions.specs.Code.{known_code};
    ghost use Rattle.comm_versions.specs.Known.{Known, known, origin};

    ghost Value = { Known };

    ghost coded = { known_code };

    ghost view = { λ m. known (origin m.seen.book m.clients m.comms) m.seen.log };

    ghost invariant = { λ m. (m.count ≡ length m.seen.log) × IsLegal m.clients m.comms m.seen.log };
}

impl RawFront {
    /// The empty prefix of a new history, with the limits by which that is legal.
    pub(crate) fn first(
        clients: usize,
        comms: usize,
        seen: Seen<Entry, u64, HistoryRule>,
    ) -> RawFront
        requires { seen.log ≡ [] }
        ensures { result ≡ known (origin seen.book clients comms) [] }
    {
        RawFront {
            count: 0,
            clients,
            comms,
            seen,
        }
    }

    /// How many entries the prefix has.
    pub fn len(&self) -> u64
        ensures length { result ≡ length self.now.entries }
        ensures legal { IsLegal self.now.origin.clients self.now.origin.limit self.now.entries }
    {
        self.count
    }

    /// A copy. It takes no memory.
    pub fn copy(&self) -> RawFront
        ensures { result ≡ self.now }
    {
        RawFront {
            count: self.count,
            clients: self.clients,
            comms: self.comms,
            seen: self.seen.again(),
        }
    }

    /// Whether this is a prefix of the other, by their lengths. Of two prefixes of one history the shorter is one of
    /// the longer.
    #[must_use]
    pub fn is_prefix_of(&self, other: &RawFront) -> bool
        requires { other.now.origin.book ≡ self.now.origin.book }
        ensures begins { MatchBool result (IsPrefix self.now.entries other.now.entries)
            (IsPrefix other.now.entries self.now.entries
            × (length other.now.entries < length self.now.entries)) }
    {
        let mut both = self.seen.again();
        both.learn(&other.seen);
        self.count <= other.count
    }

    /// A proof step, which does nothing when it runs: where the other has an end, this is a prefix of it.
    pub fn learn_ended(&self, other: &RawFront)
        requires { other.now.origin.book ≡ self.now.origin.book }
        ensures { has_end other.now.entries ≡ true → IsPrefix self.now.entries other.now.entries }
    {
        an_end_comes_last();
        let mut both = self.seen.again();
        both.learn(&other.seen);
    }

    /// Appends an entry, and says whether it did: not where the history is longer than this prefix. It takes no memory.
    #[must_use]
    pub fn extend<X: EntrySource>(&mut self, head: &RawHead, source: &X) -> bool
        requires book { self.old.origin.book ≡ head.now }
        requires room { length self.old.entries < 2 ^ 62 }
        requires legal { IsLegal self.old.origin.clients self.old.origin.limit
            (self.old.entries ++ X.entry source.now ∷ []) }
        ensures { MatchBool result
            (self.new ≡ known self.old.origin (self.old.entries ++ X.entry source.now ∷ []))
            (self.new ≡ self.old) }
    {
        let mut seen = self.seen.again();
        let mut offer: Offer<Entry, u64, HistoryRule, NoOffer> = seen.plain::<
            NoOffer,
            X,
            AppendStep,
        >(source);
        let mut pen = seen.no_pen();
        let count = self.count;
        let found = head
            .word
            .compare_exchange::<AppendStep, NoOffer>(
                count,
                count + 1,
                &mut seen,
                &mut offer,
                &mut pen,
            );
        if found != count {
            return false;
        }
        self.count = count + 1;
        self.seen = seen;
        true
    }
}
