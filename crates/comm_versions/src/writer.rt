//! The one writer of the versions.
ghost use Rattle.std.specs.Prelude.{◌≡◌, ◌^◌, ◌<◌, ◌+◌, ◌++◌, ◌∷◌, [], length, drop, OnErr, OnOk};
ghost use Rattle.std.specs.Arc.{arc_value};
ghost use Rattle.comm_core.specs.History.{IsLegal, replay};
ghost use Rattle.comm_core.specs.Row.{rows, with_row};
ghost use Rattle.comm_versions.specs.Known.{known, origin_of};

use crate::adding::{PendingEntry, add_all, prepare};
use crate::change::Change;
use crate::comm_table::CommTable;
use crate::history::{Head, History};
use crate::published_front::PublishedFront;
use crate::stamp::Stamp;
use crate::table_buffers::TableBuffers;
use crate::version::SnapshotWriter;
use std::alloc::{AllocError, Global};
use std::collections::VecDeque;
use std::marker::Model;
use std::sync::{Arc, Wait};

/// Appends entries to the history, and shows readers the comms after them. Contracts see the front that it has
/// published, and the entries that are pending. It can't be dropped: `end` ends it.
pub struct VersionWriter<M: History> {
    head: Head<M>,
    front: PublishedFront<M>,
    pending: VecDeque<PendingEntry>,
    // The table after all that is pending.
    next: TableBuffers,
    alloc: Global,
    snapshots: SnapshotWriter,
}

impl<M: History> Model for VersionWriter<M> {
    ghost use Rattle.std.specs.Prelude.{◌≡◌, ◌++◌, [], drop};
    ghost use Rattle.std.specs.Arc.{arc_value};
    ghost use Rattle.comm_core.specs.History.{IsLegal, replay};
    ghost use Rattle.comm_core.specs.Row.{rows};
    ghost use Rattle.comm_versions.specs.Code.{writer_code};
    ghost use Rattle.comm_versions.specs.Known.{WriterValue, known, origin_of};
    ghost use Rattle.comm_versions.specs.Pending.{FollowInOrder, entries_in};

    ghost Value = { WriterValue };

    ghost coded = { writer_code };

    ghost view = { λ w. record { front = w.front; pending = entries_in w.pending.items } };

    ghost invariant = { λ w.
        (w.snapshots.desk.shown.value.front ≡ known (origin_of M.book M.limits) w.front)
        × (drop w.snapshots.behind w.snapshots.log.items ≡ [])
        × IsLegal M.limits.clients M.limits.comms (w.front ++ entries_in w.pending.items)
        × FollowInOrder M.limits.comms w.front w.pending.items
        × (w.next ≡ rows (replay M.limits.comms (w.front ++ entries_in w.pending.items))) };
}

impl<M: History> VersionWriter<M> {
    /// A writer that has published this front, with this table.
    pub(crate) fn new(
        alloc: Global,
        head: Head<M>,
        front: Stamp<M>,
        next: Arc<CommTable, Global>,
        snapshots: SnapshotWriter,
    ) -> VersionWriter<M>
        requires rows { arc_value next ≡ rows (replay M.limits.comms front) }
        requires shown { snapshots.desk.shown.value.front
            ≡ known (origin_of M.book M.limits) front }
        requires pending { drop snapshots.behind snapshots.log.items ≡ [] }
        ensures front { result.front ≡ front }
        ensures pending { result.pending ≡ [] }
    {
        let _legal = front.number();
        VersionWriter {
            head,
            front: PublishedFront::new(front),
            pending: VecDeque::new(alloc),
            next: TableBuffers::new(next),
            alloc,
            snapshots,
        }
    }

    /// Makes a change pending. The caller knows that its entry may come next, and that its row is what the entry
    /// changes. Err: memory; nothing is changed. It is the last step of a change that may fail.
    pub fn append(&mut self, change: Change) -> Result<(), AllocError>
        requires legal { IsLegal M.limits.clients M.limits.comms
            ((self.old.front ++ self.old.pending) ++ arc_value change.entry ∷ []) }
        requires row { with_row change.row
            (rows (replay M.limits.comms (self.old.front ++ self.old.pending)))
            ≡ rows (replay M.limits.comms
            ((self.old.front ++ self.old.pending) ++ arc_value change.entry ∷ [])) }
        ensures front { self.new.front ≡ self.old.front }
        ensures pending { OnOk result
            (self.new.pending ≡ self.old.pending ++ arc_value change.entry ∷ []) }
        ensures err { OnErr result (self.new ≡ self.old) }
    {
        self.pending.reserve(1)?;
        let pending_entry = prepare(self.alloc, &mut self.next, change)?;
        self.pending.push_back_reserved(pending_entry);
        Ok(())
    }

    /// Publishes what is pending. It takes no memory. It waits for readers that look at the version before the last.
    pub fn publish<R: Wait>(&mut self, rt: &R)
        requires { length self.old.front + length self.old.pending < 2 ^ 62 }
        ensures front { self.new.front ≡ self.old.front ++ self.old.pending }
        ensures pending { self.new.pending ≡ [] }
    {
        add_all(
            rt,
            &self.head,
            &mut self.front,
            &mut self.snapshots,
            &mut self.pending,
        );
    }

    /// The front that is published, as a stamp. It takes no memory.
    #[must_use]
    pub fn stamp(&self) -> Stamp<M>
        ensures { result ≡ self.now.front }
    {
        self.front.front().copy()
    }

    /// Ends the writer: readers find no version from now on, and what is pending isn't published. It takes no memory,
    /// and waits for readers that are inside.
    pub fn end<R: Wait>(self, rt: &R) {
        let Self {
            head: _head,
            front: _front,
            pending: _pending,
            next: _next,
            alloc: _,
            snapshots,
        } = self;
        drop(snapshots.take(rt));
    }
}
