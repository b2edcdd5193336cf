//! How versions are made, with their writer and readers.
ghost use Rattle.std.specs.Prelude.{◌≡◌, ◌≤◌, [], All, drop, true, vec_len, IfOk, OnOk};
ghost use Rattle.std.specs.Arc.{arc_value};
ghost use Rattle.left_right.specs.Sides.{view};
ghost use Rattle.comm_core.specs.History.{replay};
ghost use Rattle.comm_core.specs.Row.{rows};
ghost use Rattle.comm_versions.specs.Known.{known, origin_of};

use crate::comm_table::CommTable;
use crate::history::{BlankHistory, History};
use crate::raw_front::RawFront;
use crate::reader::VersionReader;
use crate::showing::show;
use crate::stamp::Stamp;
use crate::version::{JoinStep, SnapshotReader, SnapshotWriter, Version};
use crate::writer::VersionWriter;
use std::alloc::{AllocError, Global};
use std::sync::{Arc, Wait};
use thiserror::Error;

/// Why no versions were made.
#[derive(Clone, Copy, Debug, PartialEq, Eq, Error)]
pub enum OpeningFault {
    /// Memory ran out.
    #[error("out of memory")]
    Memory,
    /// There was no place for a reader.
    #[error("there is no place for a reader")]
    NoReader,
}

// Shows the first version again. Err: memory.
fn warm<R: Wait>(
    rt: &R,
    snapshots: &mut SnapshotWriter,
    root: &Arc<CommTable, Global>,
    front: &RawFront,
) -> Result<(), AllocError>
    requires root { arc_value root.now ≡ rows (replay front.now.origin.limit front.now.entries) }
    requires shown { snapshots.old.desk.shown.value.front ≡ front.now }
    requires waits { drop snapshots.old.behind snapshots.old.log.items ≡ [] }
    ensures shown { OnOk result (snapshots.new.desk.shown.value.front ≡ front.now) }
    ensures knows { OnOk result (view snapshots.new.desk.place ≡ (true, front.now)) }
    ensures waits { OnOk result (drop snapshots.new.behind snapshots.new.log.items ≡ []) }
{
    let version = Version::new(Arc::try_clone(root)?, front.copy());
    match snapshots.append(version) {
        Ok(()) => {
            show(rt, snapshots);
            Ok(())
        }
        Err(_) => Err(AllocError),
    }
}

// Shows the first version twice more: after that there is room for as many versions as wait at any time, so a publish
// takes no memory.
fn warm_up<R: Wait>(
    rt: &R,
    snapshots: &mut SnapshotWriter,
    root: &Arc<CommTable, Global>,
    front: &RawFront,
) -> Result<(), AllocError>
    requires root { arc_value root.now ≡ rows (replay front.now.origin.limit front.now.entries) }
    requires shown { snapshots.old.desk.shown.value.front ≡ front.now }
    requires waits { drop snapshots.old.behind snapshots.old.log.items ≡ [] }
    ensures shown { OnOk result (snapshots.new.desk.shown.value.front ≡ front.now) }
    ensures knows { OnOk result (view snapshots.new.desk.place ≡ (true, front.now)) }
    ensures waits { OnOk result (drop snapshots.new.behind snapshots.new.log.items ≡ []) }
{
    warm(rt, snapshots, root, front)?;
    warm(rt, snapshots, root, front)
}

// A new reader, which knows what the writer knows. Err: there is no place for it.
fn add_reader(snapshots: &mut SnapshotWriter) -> Result<SnapshotReader, AllocError>
    ensures knows { IfOk result (λ l. view l.place ≡ view snapshots.old.desk.place) }
    ensures shown { snapshots.new.desk.shown.value ≡ snapshots.old.desk.shown.value }
    ensures same { view snapshots.new.desk.place ≡ view snapshots.old.desk.place }
    ensures pending { drop snapshots.new.behind snapshots.new.log.items
        ≡ drop snapshots.old.behind snapshots.old.log.items }
{
    let mut reader = snapshots.factory().reader()?;
    reader.learn::<JoinStep>(snapshots.tell::<JoinStep>());
    Ok(reader)
}

// As many readers as are wanted, all of which have seen the front.
fn add_readers<M: History>(
    alloc: Global,
    front: &Stamp<M>,
    snapshots: &mut SnapshotWriter,
    count: usize,
) -> Result<Vec<VersionReader<M>>, OpeningFault>
    requires { view snapshots.old.desk.place ≡ (true, known (origin_of M.book M.limits) front.now) }
    ensures count { IfOk result (λ v. vec_len v ≡ count) }
    ensures readers { IfOk result (λ v. All (λ r. r ≡ front.now) v.items) }
    ensures shown { snapshots.new.desk.shown.value ≡ snapshots.old.desk.shown.value }
    ensures pending { drop snapshots.new.behind snapshots.new.log.items
        ≡ drop snapshots.old.behind snapshots.old.log.items }
{
    let mut readers = Vec::new(alloc);
    for i in 0..count {
        if readers.reserve(1).is_err() {
            return Err(OpeningFault::Memory);
        }
        let Ok(reader) = add_reader(snapshots) else {
            return Err(OpeningFault::NoReader);
        };
        readers.push_reserved(VersionReader::new(reader, front.copy()));
    }
    Ok(readers)
}

// The two copies of the first version, and their root.
fn pair(
    alloc: Global,
    front: &RawFront,
    readers: usize,
) -> Result<(SnapshotWriter, Arc<CommTable, Global>), AllocError>
    requires empty { front.now.entries ≡ [] }
    requires readers { (1 ≤ readers) × (readers ≤ 4) }
    ensures shown { IfOk result (λ r. r.0.desk.shown.value.front ≡ front.now) }
    ensures waits { IfOk result (λ r. drop r.0.behind r.0.log.items ≡ []) }
    ensures rows { IfOk result (λ r. arc_value r.1 ≡ []) }
{
    let root = Arc::new(alloc, CommTable::new(alloc))?;
    let first = Version::new(Arc::try_clone(&root)?, front.copy());
    let second = Version::new(Arc::try_clone(&root)?, front.copy());
    let snapshots = SnapshotWriter::new(alloc, first, second, readers)?;
    Ok((snapshots, root))
}

// Readers that have seen the front that is shown.
fn open_readers<M: History, R: Wait>(
    rt: &R,
    alloc: Global,
    front: &Stamp<M>,
    snapshots: &mut SnapshotWriter,
    root: &Arc<CommTable, Global>,
    count: usize,
) -> Result<Vec<VersionReader<M>>, OpeningFault>
    requires root { arc_value root.now ≡ rows (replay M.limits.comms front.now) }
    requires shown { snapshots.old.desk.shown.value.front
        ≡ known (origin_of M.book M.limits) front.now }
    requires waits { drop snapshots.old.behind snapshots.old.log.items ≡ [] }
    ensures count { IfOk result (λ v. vec_len v ≡ count) }
    ensures readers { IfOk result (λ v. All (λ r. r ≡ front.now) v.items) }
    ensures shown { OnOk result
        (snapshots.new.desk.shown.value.front ≡ known (origin_of M.book M.limits) front.now) }
    ensures waits { OnOk result (drop snapshots.new.behind snapshots.new.log.items ≡ []) }
{
    if warm_up(rt, snapshots, root, front.raw()).is_err() {
        return Err(OpeningFault::Memory);
    }
    add_readers(alloc, front, snapshots, count)
}

/// Makes the versions of an empty history: a writer, and one reader for each client. The caller picks the history's
/// name, in its proof. Err: memory, or no place for a reader; the writer is then ended.
pub fn versions<M: History, R: Wait>(
    rt: &R,
    alloc: Global,
    history: BlankHistory,
    readers: u8,
    comms: usize,
) -> Result<(VersionWriter<M>, Vec<VersionReader<M>>), OpeningFault>
    requires book { history ≡ M.book }
    requires readers { (1 ≤ readers) × (readers ≤ 4) }
    requires clients { readers ≡ M.limits.clients }
    requires comms { comms ≡ M.limits.comms }
    ensures front { IfOk result (λ r. r.0.front ≡ []) }
    ensures pending { IfOk result (λ r. r.0.pending ≡ []) }
    ensures count { IfOk result (λ r. vec_len r.1 ≡ readers) }
    ensures readers { IfOk result (λ r. All (λ x. x ≡ []) r.1.items) }
{
    let (head, front) = history.open::<M>(readers, comms);
    let count = readers as usize;
    let Ok((mut snapshots, root)) = pair(alloc, front.raw(), count) else {
        return Err(OpeningFault::Memory);
    };
    match open_readers(rt, alloc, &front, &mut snapshots, &root, count) {
        Ok(readers) => Ok((
            VersionWriter::new(alloc, head, front, root, snapshots),
            readers,
        )),
        Err(fault) => {
            drop(snapshots.take(rt));
            Err(fault)
        }
    }
}
