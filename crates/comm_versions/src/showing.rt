//! How readers are shown a version.
ghost use Rattle.std.specs.Prelude.{◌≡◌, ◌++◌, ◌∷◌, [], drop, true, MatchBool};
ghost use Rattle.left_right.specs.Sides.{view};
ghost use Rattle.comm_versions.specs.Pending.{CanShow, last_front};

use crate::version::{SeeStep, SnapshotWriter, Version};
use core::mem::replace_with;
use std::sync::Wait;

// Shows the version that waits, and says whether it did: not where the count of its root can't be raised.
fn try_show<R: Wait>(snapshots: SnapshotWriter, rt: &R) -> (SnapshotWriter, bool)
    requires { CanShow snapshots.desk.shown.value.front
        (drop snapshots.behind snapshots.log.items) }
    ensures shown { MatchBool result.1
        (result.0.desk.shown.value.front
        ≡ last_front snapshots.desk.shown.value.front (drop snapshots.behind snapshots.log.items))
        (result.0.desk.shown.value ≡ snapshots.desk.shown.value) }
    ensures knows { MatchBool result.1
        (view result.0.desk.place ≡ (true, result.0.desk.shown.value.front)) (Unit {0}) }
    ensures pending { MatchBool result.1 (drop result.0.behind result.0.log.items ≡ [])
        (drop result.0.behind result.0.log.items ≡ drop snapshots.behind snapshots.log.items) }
{
    let (snapshots, done) = snapshots.publish_as::<SeeStep, R>(rt);
    (snapshots, done.is_ok())
}

/// Shows the version that waits, and waits for readers that look at the one before the last. It tries again where the
/// count of its root can't be raised.
pub fn show<R: Wait>(rt: &R, snapshots: &mut SnapshotWriter)
    requires { CanShow snapshots.old.desk.shown.value.front
        (drop snapshots.old.behind snapshots.old.log.items) }
    ensures shown { snapshots.new.desk.shown.value.front
        ≡ last_front snapshots.old.desk.shown.value.front
        (drop snapshots.old.behind snapshots.old.log.items) }
    ensures knows { view snapshots.new.desk.place ≡ (true, snapshots.new.desk.shown.value.front) }
    ensures pending { drop snapshots.new.behind snapshots.new.log.items ≡ [] }
{
    for _ in rt.forever() {
        if replace_with(snapshots, rt, |snapshots, rt| try_show(snapshots, rt)) {
            return;
        }
    }
    unreachable!()
}

/// Lets a version wait to be shown. It tries again where there is no memory; there is, once as many have waited as
/// wait at any time.
pub fn enqueue<R: Wait>(rt: &R, snapshots: &mut SnapshotWriter, version: Version)
    ensures shown { snapshots.new.desk.shown.value ≡ snapshots.old.desk.shown.value }
    ensures pending { drop snapshots.new.behind snapshots.new.log.items
        ≡ drop snapshots.old.behind snapshots.old.log.items ++ version ∷ [] }
{
    let mut version = version;
    for _ in rt.forever() {
        match snapshots.append(version) {
            Ok(()) => return,
            Err(back) => version = back,
        }
    }
    unreachable!()
}

/// Doesn't return.
pub fn stop<R: Wait>(rt: &R)
    ensures { ⊥ }
{
    for _ in rt.forever() {}
    unreachable!()
}
