//! The history under the lock, kept or counted.
ghost use Rattle.std.specs.Prelude.{◌≡◌, ◌++◌, ◌∷◌, [], List, length, true, IfOk, OnOk};
ghost use Rattle.std.specs.Arc.{arc_value};
ghost use Rattle.comm_core.specs.declared.entry.Entry.{Entry};
ghost use Rattle.comm_manager.specs.JournalView.{IsShare};

use crate::manager_id::ManagerId;
use comm_core::Entry;
use comm_versions::Stamp;
use std::alloc::{AllocError, Global};
use std::marker::Model;
use std::sync::Arc;

/// What a manager keeps of its history: [`KeptHistory`] or [`CountedHistory`].
pub trait HistoryStore: Drop {
    ghost use Rattle.std.specs.Prelude.{Bool, List};
    ghost use Rattle.comm_core.specs.declared.entry.Entry.{Entry};

    // Whether it is what is kept of these entries, oldest first, while the manager lives.
    ghost keeps: { Self → List Entry → Type 0 };

    // Whether there is room for one more.
    ghost has_room: { Self → Bool };

    // Whether it keeps the entries.
    ghost keeps_entries: { Bool };

    // Whether it is what is left of these entries where the manager has ended.
    ghost leaves: { Self → List Entry → Type 0 };

    /// What is kept of no entry. It takes no memory.
    fn new(alloc: Global) -> Self
        ensures { keeps result [] };

    /// Makes room for one more entry. Err: memory.
    fn reserve(&mut self) -> Result<(), AllocError>
        ensures all { (all : List Entry) → keeps self.old all → keeps self.new all }
        ensures room { OnOk result (has_room self.new ≡ true) };

    /// What it keeps of an entry, which it shares. Err: memory.
    fn share(entry: &Arc<Entry, Global>) -> Result<Option<Arc<Entry, Global>>, AllocError>
        ensures { IfOk result (λ s. IsShare keeps_entries s (arc_value entry.now)) };

    /// Appends an entry, by what it keeps of it ([`HistoryStore::share`]). It takes no memory.
    fn add(&mut self, share: Option<Arc<Entry, Global>>)
        requires { has_room self.old ≡ true }
        ensures { (all : List Entry) (e : Entry) → IsShare keeps_entries share e
            → keeps self.old all → keeps self.new (all ++ e ∷ []) };

    /// What is left of so many entries.
    fn end(self, count: u64) -> Self
        ensures { (all : List Entry) → keeps self all → count ≡ length all → leaves result all };
}

/// Keeps each entry until the manager ends, and then hands out the list of them.
#[derive(Drop)]
pub struct KeptHistory {
    pub entries: Vec<Arc<Entry, Global>>,
}

impl HistoryStore for KeptHistory {
    ghost use Rattle.std.specs.Prelude.{◌≡◌, vec_len, vec_capacity, nat_lt, true};
    ghost use Rattle.comm_outbox.specs.Sides.{entries_of};

    ghost keeps = { λ s all. entries_of s.entries.items ≡ all };

    ghost has_room = { λ s. nat_lt (vec_len s.entries) (vec_capacity s.entries) };

    ghost keeps_entries = { true };

    ghost leaves = { λ s all. entries_of s.entries.items ≡ all };

    fn new(alloc: Global) -> KeptHistory {
        KeptHistory {
            entries: Vec::new(alloc),
        }
    }

    fn reserve(&mut self) -> Result<(), AllocError> {
        self.entries.reserve(1)
    }

    fn share(entry: &Arc<Entry, Global>) -> Result<Option<Arc<Entry, Global>>, AllocError> {
        Ok(Some(Arc::try_clone(entry)?))
    }

    fn add(&mut self, share: Option<Arc<Entry, Global>>) {
        if let Some(entry) = share {
            self.entries.push_reserved(entry);
        }
    }

    fn end(self, _count: u64) -> KeptHistory {
        self
    }
}

/// Keeps no entry: a change that was published and taken leaves nothing behind. Once the manager has ended, it says how
/// many there were.
#[derive(Drop)]
pub struct CountedHistory {
    /// 0 while the manager lives.
    pub count: u64,
}

impl HistoryStore for CountedHistory {
    ghost use Rattle.std.specs.Prelude.{◌≡◌, length, false, true};

    ghost keeps = { λ s all. Unit {0} };

    ghost has_room = { λ s. true };

    ghost keeps_entries = { false };

    ghost leaves = { λ s all. s.count ≡ length all };

    fn new(_alloc: Global) -> CountedHistory {
        CountedHistory { count: 0 }
    }

    fn reserve(&mut self) -> Result<(), AllocError> {
        Ok(())
    }

    fn share(_entry: &Arc<Entry, Global>) -> Result<Option<Arc<Entry, Global>>, AllocError> {
        Ok(None)
    }

    fn add(&mut self, _share: Option<Arc<Entry, Global>>) {}

    fn end(self, count: u64) -> CountedHistory {
        CountedHistory { count }
    }
}

/// The history. Contracts see its entries, and whether there is room for one more.
#[derive(Drop)]
pub struct Journal<M: ManagerId, S: HistoryStore> {
    store: S,
    // It has seen all of it.
    stamp: Stamp<M>,
}

impl<M: ManagerId, S: HistoryStore> Model for Journal<M, S> {
    ghost use Rattle.comm_manager.specs.JournalView.{JournalView, journal_code, journal_view};

    ghost Value = { JournalView };

    ghost coded = { journal_code };

    ghost view = { λ j. journal_view j.stamp (S.has_room j.store) };

    ghost invariant = { λ j. S.keeps j.store j.stamp };
}

impl<M: ManagerId, S: HistoryStore> Journal<M, S> {
    /// The empty history, by a stamp that has seen nothing. It takes no memory.
    pub fn new(alloc: Global, stamp: Stamp<M>) -> Journal<M, S>
        requires { stamp ≡ [] }
        ensures { result.all ≡ [] }
    {
        Journal {
            store: S::new(alloc),
            stamp,
        }
    }

    /// How many entries there are.
    pub fn len(&self) -> usize
        ensures { result ≡ length self.now.all }
    {
        self.stamp.number() as usize
    }

    /// Makes room for one more entry. Err: memory.
    pub fn reserve(&mut self) -> Result<(), AllocError>
        ensures all { self.new.all ≡ self.old.all }
        ensures room { OnOk result (self.new.room ≡ true) }
    {
        self.store.reserve()
    }

    /// Appends an entry, which the stamp is the first to have seen, by what is kept of it. It takes no memory.
    pub fn add(&mut self, share: Option<Arc<Entry, Global>>, stamp: Stamp<M>)
        requires room { self.old.room ≡ true }
        requires seen { (e : Entry) × IsShare S.keeps_entries share e
            × (stamp ≡ self.old.all ++ e ∷ []) }
        ensures { self.new.all ≡ stamp }
    {
        self.store.add(share);
        self.stamp = stamp;
    }

    /// What is left of the entries.
    pub fn end(self) -> S
        ensures { S.leaves result self.all }
    {
        let Journal { store, stamp } = self;
        store.end(stamp.number())
    }
}
