//! How entries are appended to the history and shown to the readers.
ghost use Rattle.std.specs.Prelude.{◌≡◌, ◌^◌, ◌<◌, ◌+◌, ◌++◌, ◌∷◌, [], false, length, drop, IfOk, OnErr, OnOk};
ghost use Rattle.std.specs.Arc.{arc_value};
ghost use Rattle.comm_core.specs.History.{IsLegal, replay};
ghost use Rattle.comm_core.specs.Row.{rows, with_row};
ghost use Rattle.comm_versions.specs.Known.{known, origin_of};
ghost use Rattle.comm_versions.specs.Listing.{ListAlike};
ghost use Rattle.comm_versions.specs.Pending.{FollowsFront, FollowInOrder, entries_in};

use crate::change::Change;
use crate::comm_table::CommTable;
use crate::history::{Head, History};
use crate::published_front::PublishedFront;
use crate::showing::{enqueue, show, stop};
use crate::table_buffers::{NextTable, TableBuffers};
use crate::version::SnapshotWriter;
use comm_core::{Entry, prefixes_of_legal_histories_are_legal};
use std::alloc::{AllocError, Global};
use std::collections::VecDeque;
use std::sync::{Arc, Wait};

/// An entry that is prepared: with the table of comms after it, and whether that may list other comms than the one
/// before.
#[derive(Drop)]
pub struct PendingEntry {
    pub entry: Arc<Entry, Global>,
    pub root: Arc<CommTable, Global>,
    pub changes_listing: bool,
}

/// Prepares a change: brings a table up to date for it. It is the last step that may run out of memory; Err leaves
/// all as it was.
pub fn prepare(
    alloc: Global,
    table_buffers: &mut TableBuffers,
    change: Change,
) -> Result<PendingEntry, AllocError>
    ensures entry { IfOk result (λ s. arc_value s.entry ≡ arc_value change.entry) }
    ensures rows { IfOk result (λ s. arc_value s.root ≡ with_row change.row table_buffers.old) }
    ensures lists { IfOk result (λ s.
        s.changes_listing ≡ false
        → ListAlike table_buffers.old (with_row change.row table_buffers.old)) }
    ensures next { OnOk result (table_buffers.new ≡ with_row change.row table_buffers.old) }
    ensures err { OnErr result (table_buffers.new ≡ table_buffers.old) }
{
    let Change { entry, row } = change;
    let NextTable {
        root,
        changes_listing,
    } = table_buffers.change(alloc, row)?;
    Ok(PendingEntry {
        entry,
        root,
        changes_listing,
    })
}

// Appends the next entry to the history. Nobody else appends, so the history is never longer than this front; if it
// were, this wouldn't return.
fn extend<M: History, R: Wait>(
    rt: &R,
    head: &Head<M>,
    front: &mut PublishedFront<M>,
    entry: &Arc<Entry, Global>,
    changes_listing: bool,
)
    requires room { length front.old < 2 ^ 62 }
    requires legal { IsLegal M.limits.clients M.limits.comms
        (front.old ++ arc_value entry.now ∷ []) }
    requires lists { changes_listing ≡ false
        → ListAlike (rows (replay M.limits.comms front.old))
        (rows (replay M.limits.comms (front.old ++ arc_value entry.now ∷ []))) }
    ensures { front.new ≡ front.old ++ arc_value entry.now ∷ [] }
{
    if !front.extend(head, entry, changes_listing) {
        stop(rt);
    }
}

// Appends one entry to the history, and shows the table after it to the readers.
fn add<M: History, R: Wait>(
    rt: &R,
    head: &Head<M>,
    front: &mut PublishedFront<M>,
    snapshots: &mut SnapshotWriter,
    pending_entry: PendingEntry,
)
    requires next { FollowsFront M.limits.comms front.old pending_entry }
    requires room { length front.old < 2 ^ 62 }
    requires legal { IsLegal M.limits.clients M.limits.comms
        (front.old ++ arc_value pending_entry.entry ∷ []) }
    requires shown { snapshots.old.desk.shown.value.front
        ≡ known (origin_of M.book M.limits) front.old }
    requires pending { drop snapshots.old.behind snapshots.old.log.items ≡ [] }
    ensures front { front.new ≡ front.old ++ arc_value pending_entry.entry ∷ [] }
    ensures shown { snapshots.new.desk.shown.value.front
        ≡ known (origin_of M.book M.limits) front.new }
    ensures pending { drop snapshots.new.behind snapshots.new.log.items ≡ [] }
{
    let PendingEntry {
        entry,
        root,
        changes_listing,
    } = pending_entry;
    extend(rt, head, front, &entry, changes_listing);
    enqueue(rt, snapshots, front.version(root));
    show(rt, snapshots);
}

/// Appends all pending entries, oldest first, and shows each. It takes no memory.
pub fn add_all<M: History, R: Wait>(
    rt: &R,
    head: &Head<M>,
    front: &mut PublishedFront<M>,
    snapshots: &mut SnapshotWriter,
    pending: &mut VecDeque<PendingEntry>,
)
    requires ready { FollowInOrder M.limits.comms front.old pending.old.items }
    requires room { length front.old + length pending.old.items < 2 ^ 62 }
    requires legal { IsLegal M.limits.clients M.limits.comms
        (front.old ++ entries_in pending.old.items) }
    requires shown { snapshots.old.desk.shown.value.front
        ≡ known (origin_of M.book M.limits) front.old }
    requires waits { drop snapshots.old.behind snapshots.old.log.items ≡ [] }
    ensures front { front.new ≡ front.old ++ entries_in pending.old.items }
    ensures shown { snapshots.new.desk.shown.value.front
        ≡ known (origin_of M.book M.limits) front.new }
    ensures waits { drop snapshots.new.behind snapshots.new.log.items ≡ [] }
    ensures done { pending.new.items ≡ [] }
{
    prefixes_of_legal_histories_are_legal();
    while let Some(pending_entry) = pending.pop_front() {
        add(rt, head, front, snapshots, pending_entry);
    }
}
