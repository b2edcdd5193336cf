//! The history's end: what appends entries and shows readers the comms after them.
ghost use Rattle.std.specs.Prelude.{◌≡◌, ◌^◌, ◌<◌, ◌++◌, ◌∷◌, [], length, false, IfOk, OnErr, OnOk};
ghost use Rattle.std.specs.Arc.{arc_value};
ghost use Rattle.comm_core.specs.History.{IsLegal, replay};
ghost use Rattle.comm_core.specs.Row.{rows, with_row};
ghost use Rattle.comm_versions.specs.Known.{known};

use crate::reader::SharedReader;
use crate::shown_version::ShownVersion;
use comm_core::Row;
use comm_versions::{
    BlankHistory, CommTable, EntrySource, NextTable, RawFront, RawHead, TableBuffers, Version,
};
use shelf::Shelf;
use std::alloc::{AllocError, Global};
use std::marker::Model;
use std::mem;
use std::sync::Arc;

// How many versions may stand side by side: the one that is shown, and those that a reader is just copying.
const SLOTS: usize = 8;

/// Appends entries to a history, and shows readers the comms after them. Contracts see the history.
#[derive(Drop)]
pub struct SharedWriter {
    head: RawHead,
    front: RawFront,
    // The tables after the front, unless the history turned out to be longer: then no more is appended. It never does.
    tables: TableBuffers,
    is_stuck: bool,
    alloc: Global,
    shelf: Arc<Shelf<ShownVersion>, Global>,
    // The slot of the version that is shown.
    current: usize,
    // Whether versions may stand in more than two slots.
    is_spread: bool,
    // The last version, where no slot was free for it.
    waiting: Option<ShownVersion>,
}

impl Model for SharedWriter {
    ghost use Rattle.std.specs.Prelude.{◌≡◌, false, IfSome};
    ghost use Rattle.std.specs.Arc.{arc_value};
    ghost use Rattle.comm_core.specs.History.{replay};
    ghost use Rattle.comm_core.specs.Row.{rows};
    ghost use Rattle.comm_versions.specs.Code.{known_code};
    ghost use Rattle.comm_versions.specs.Known.{Known};

    ghost Value = { Known };

    ghost coded = { known_code };

    ghost view = { λ w. w.front };

    ghost invariant = { λ w. (w.head ≡ w.front.origin.book)
        × ((arc_value w.shelf).tag.origin ≡ w.front.origin)
        × (w.is_stuck ≡ false → w.tables ≡ rows (replay w.front.origin.limit w.front.entries))
        × IfSome w.waiting (λ v. v.version.front.origin ≡ w.front.origin) };
}

impl SharedWriter {
    /// An empty history of so many clients, of whose comms so many may be open at a time. Err: memory.
    pub fn new(alloc: Global, clients: usize, comms: usize) -> Result<SharedWriter, AllocError>
        ensures entries { IfOk result (λ w. w.entries ≡ []) }
        ensures clients { IfOk result (λ w. w.origin.clients ≡ clients) }
        ensures limit { IfOk result (λ w. w.origin.limit ≡ comms) }
    {
        let (head, front) = BlankHistory::new().open_raw(clients, comms);
        let root = Arc::new(alloc, CommTable::new(alloc))?;
        let first = Version::new(Arc::try_clone(&root)?, front.copy());
        let shelf = Shelf::new(alloc, front.copy(), SLOTS)?;
        let current = shelf.show(0, ShownVersion { version: first }).unwrap_or(0);
        let shelf = Arc::new(alloc, shelf)?;
        Ok(SharedWriter {
            head,
            front,
            tables: TableBuffers::new(root),
            is_stuck: false,
            alloc,
            shelf,
            current,
            is_spread: false,
            waiting: None,
        })
    }

    // Shows a version, and says whether it did. Where no slot is free for it, it waits.
    fn show(&mut self, shown: ShownVersion) -> bool
        requires { shown.version.front.origin ≡ self.old.origin }
        ensures { self.new ≡ self.old }
    {
        match self.shelf.show(self.current, shown) {
            Ok(at) => {
                self.current = at;
                self.waiting = None;
                self.is_spread = (self.is_spread || at > 1) && !self.shelf.clear(at);
                true
            }
            Err(shown) => {
                self.waiting = Some(shown);
                false
            }
        }
    }

    /// Appends the entry of a change, and says whether readers see it already. The caller knows that the entry may come
    /// next, and that its row is what it changes. It waits for no one. Err: memory; nothing is appended.
    pub fn append<X: EntrySource>(&mut self, row: Row, source: &X) -> Result<bool, AllocError>
        requires legal { IsLegal self.old.origin.clients self.old.origin.limit
            (self.old.entries ++ X.entry source.now ∷ []) }
        requires row { with_row row (rows (replay self.old.origin.limit self.old.entries))
            ≡ rows (replay self.old.origin.limit (self.old.entries ++ X.entry source.now ∷ [])) }
        requires room { length self.old.entries < 2 ^ 62 }
        ensures appended { OnOk result
            (self.new ≡ known self.old.origin (self.old.entries ++ X.entry source.now ∷ [])) }
        ensures err { OnErr result (self.new ≡ self.old) }
    {
        if self.is_stuck {
            drop(row);
            return Err(AllocError);
        }
        let NextTable {
            root,
            changes_listing: _,
        } = self.tables.change(self.alloc, row)?;
        if !self.front.extend(&self.head, source) {
            self.is_stuck = true;
            return Err(AllocError);
        }
        let version = Version::new(root, self.front.copy());
        Ok(self.show(ShownVersion { version }))
    }

    /// Shows the last version, where it waits, and says whether readers see it.
    pub fn show_waiting(&mut self) -> bool
        ensures { self.new ≡ self.old }
    {
        match mem::replace(&mut self.waiting, None) {
            Some(shown) => self.show(shown),
            None => true,
        }
    }

    /// The history that was made.
    pub fn front(&self) -> RawFront
        ensures { result ≡ self.now }
    {
        self.front.copy()
    }

    /// How many entries there are.
    pub fn len(&self) -> u64
        ensures length { result ≡ length self.now.entries }
        ensures legal { IsLegal self.now.origin.clients self.now.origin.limit self.now.entries }
    {
        self.front.len()
    }

    /// A reader that has seen all that there is. Err: memory.
    pub fn reader(&self) -> Result<SharedReader, AllocError>
        ensures { IfOk result (λ r. r ≡ self.now) }
    {
        Ok(SharedReader::new(Arc::try_clone(&self.shelf)?, self.front.copy()))
    }
}
