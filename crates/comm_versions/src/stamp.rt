//! Stamps: prefixes of the one history that were seen.
ghost use Rattle.std.specs.Prelude.{◌≡◌, ◌<◌, ◌^◌, ◌++◌, ◌∷◌, [], length, true, MatchBool};
ghost use mathlib.Core.List.{IsPrefix};
ghost use Rattle.std.specs.Arc.{arc_value};
ghost use Rattle.comm_core.specs.History.{has_end, IsLegal};
ghost use Rattle.comm_versions.specs.Known.{known, origin_of};

use crate::history::{Head, History};
use crate::raw_front::RawFront;
use comm_core::Entry;
use std::alloc::Global;
use std::marker::{Model, PhantomData};
use std::sync::Arc;

/// A prefix of the one history that was seen, as a value: it goes from one caller to another, and costs no memory.
/// Contracts see it as its entries.
#[derive(Drop)]
pub struct Stamp<M: History> {
    raw: RawFront,
    of: PhantomData<M>,
}

impl<M: History> Model for Stamp<M> {
    ghost use Rattle.std.specs.Prelude.{◌≡◌, List};
    ghost use Rattle.comm_core.specs.declared.entry.Entry.{Entry};
    ghost use Rattle.comm_versions.specs.Code.{entries_code};
    ghost use Rattle.comm_versions.specs.Known.{origin_of};

    ghost Value = { List Entry };

    ghost coded = { entries_code };

    ghost view = { λ f. f.raw.entries };

    ghost invariant = { λ f. f.raw.origin ≡ origin_of M.book M.limits };
}

impl<M: History> Stamp<M> {
    /// Says by its type which history the prefix is of.
    pub(crate) fn from_raw(raw: RawFront) -> Stamp<M>
        requires { raw.origin ≡ origin_of M.book M.limits }
        ensures { result ≡ raw.entries }
    {
        Stamp {
            raw,
            of: PhantomData,
        }
    }

    /// The prefix without the type parameter.
    pub(crate) fn raw(&self) -> &RawFront
        ensures { result.now ≡ known (origin_of M.book M.limits) self.now }
    {
        &self.raw
    }

    /// How many entries the prefix has; 0 for an empty history.
    #[must_use]
    pub fn number(&self) -> u64
        ensures length { result ≡ length self.now }
        ensures legal { IsLegal M.limits.clients M.limits.comms self.now }
    {
        self.raw.len()
    }

    /// A copy, for another caller. It takes no memory.
    #[must_use]
    pub fn copy(&self) -> Stamp<M>
        ensures { result ≡ self.now }
    {
        Stamp::from_raw(self.raw.copy())
    }

    /// Whether this is a prefix of the other, by their lengths. Of two fronts the shorter is a prefix of the longer.
    #[must_use]
    pub(crate) fn is_prefix_of(&self, other: &Stamp<M>) -> bool
        ensures begins { MatchBool result (IsPrefix self.now other.now)
            (IsPrefix other.now self.now × (length other.now < length self.now)) }
    {
        self.raw.is_prefix_of(&other.raw)
    }

    /// A proof step, which does nothing when it runs: where the other has an end, this is a prefix of it.
    pub(crate) fn learn_ended(&self, other: &Stamp<M>)
        ensures { has_end other.now ≡ true → IsPrefix self.now other.now }
    {
        self.raw.learn_ended(&other.raw)
    }

    /// Appends an entry, and says whether it did: not where the history is longer than this front.
    #[must_use]
    pub(crate) fn extend(&mut self, head: &Head<M>, entry: &Arc<Entry, Global>) -> bool
        requires room { length self.old < 2 ^ 62 }
        requires legal { IsLegal M.limits.clients M.limits.comms
            (self.old ++ arc_value entry.now ∷ []) }
        ensures { MatchBool result (self.new ≡ self.old ++ arc_value entry.now ∷ [])
            (self.new ≡ self.old) }
    {
        self.raw.extend(head.raw(), entry)
    }
}
