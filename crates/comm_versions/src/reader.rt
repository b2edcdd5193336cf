//! Readers, which take no lock.
ghost use Rattle.std.specs.Prelude.{◌≡◌, ◌⊎◌, ◌<◌, ℕ, length, true, None, Some, IfOk, IfSome, OnErr, OnOk, IsErrOf};
ghost use Rattle.std.specs.Prelude.{option_map};
ghost use mathlib.Core.List.{IsPrefix};
ghost use Rattle.std.specs.Arc.{arc_value};
ghost use Rattle.left_right.specs.Sides.{view};
ghost use Rattle.comm_core.specs.History.{has_end, IsLegal, replay};
ghost use Rattle.comm_core.specs.Reads.{infos, state_of};
ghost use Rattle.comm_core.specs.Row.{rows};
ghost use Rattle.comm_versions.specs.Known.{origin_of};
ghost use Rattle.comm_versions.specs.Listing.{IsListedSince, ListsAlikeSince, WasListedAfter};
ghost use Rattle.comm_versions.specs.declared.reads.ReadFault.TheVariants as fault;

use crate::comm_table::CommTable;
use crate::history::History;
use crate::raw_front::RawFront;
use crate::reader_state::ReaderState;
use crate::reads::{InfoRead, ReadFault, StateRead};
use crate::stamp::Stamp;
use crate::version::{SeeStep, SnapshotReader, Version};
use comm_core::{StateAnswer, comms_in_order_are_the_comms, replays_are_consistent};
use comm_messages::Infos;
use comm_value::Text;
use core::mem::replace_with;
use std::alloc::{AllocError, Global};
use std::marker::Model;
use std::sync::Arc;

/// Reads the comms that are shown. Contracts see the front that it has seen.
#[derive(Drop)]
pub struct VersionReader<M: History> {
    snapshots: SnapshotReader,
    reader_state: ReaderState<M>,
}

impl<M: History> Model for VersionReader<M> {
    ghost use Rattle.std.specs.Prelude.{List, ◌≡◌, true};
    ghost use Rattle.left_right.specs.Sides.{view as known_at};
    ghost use Rattle.comm_core.specs.declared.entry.Entry.{Entry};
    ghost use Rattle.comm_versions.specs.Code.{entries_code};
    ghost use Rattle.comm_versions.specs.Known.{origin_of};

    ghost Value = { List Entry };

    ghost coded = { entries_code };

    ghost view = { λ r. r.reader_state.front };

    ghost invariant = { λ r.
        ((known_at r.snapshots.place).0 ≡ true)
        × ((known_at r.snapshots.place).1.origin ≡ origin_of M.book M.limits) };
}

// A front that is shown, and what was found of the version after it.
type Found<T> = (RawFront, T);

// The front that is shown, and the state after it of the comm of this id. None: nothing is shown any more.
//
// A publish waits for each reader between `enter_as` and `leave`. So there the comm is found, its state is shared and
// the front is copied, no more: nothing is allocated, and of all counts only those of this comm's state change. No
// contract says that.
fn look_up(
    snapshots: SnapshotReader,
    id: &Text,
) -> (
    SnapshotReader,
    Option<Found<Result<StateAnswer, AllocError>>>,
)
    requires { (view snapshots.place).0 ≡ true }
    ensures knows { ((view result.0.place).0 ≡ true)
        × ((view result.0.place).1.origin ≡ (view snapshots.place).1.origin) }
    ensures found { IfSome result.1 (λ r.
        (r.0.origin ≡ (view snapshots.place).1.origin)
        × IsPrefix (view snapshots.place).1.entries r.0.entries
        × IfOk r.1 (λ a. a ≡ state_of (replay r.0.origin.limit r.0.entries) id.now)) }
{
    match snapshots.enter_as::<SeeStep>() {
        Ok(reading) => {
            let found = state_in(reading.get(), id);
            (reading.leave(), Some(found))
        }
        Err(snapshots) => (snapshots, None),
    }
}

// The front of a version, and the state of the comm of this id in it.
fn state_in(shown: &Version, id: &Text) -> Found<Result<StateAnswer, AllocError>>
    ensures front { result.0 ≡ shown.now.front }
    ensures state { IfOk result.1 (λ a.
        a ≡ state_of (replay shown.now.front.origin.limit shown.now.front.entries) id.now) }
{
    let front = shown.front.copy();
    let _legal = front.len();
    replays_are_consistent();
    comms_in_order_are_the_comms();
    (front, shown.root.state(id))
}

// What was found of a version to list its comms.
#[derive(Drop)]
struct FoundListing {
    // Since when its listing is the same.
    listing_since: u64,
    // Its table. None: a list that was read after so many entries still holds.
    root: Option<Result<Arc<CommTable, Global>, AllocError>>,
}

// The front that is shown, and what its list of comms is made of, if not of the one that was read after so many
// entries. None: nothing is shown any more. It does no more inside than `look_up` does.
fn find_listing(
    snapshots: SnapshotReader,
    listed_at: Option<u64>,
) -> (SnapshotReader, Option<Found<FoundListing>>)
    requires { (view snapshots.place).0 ≡ true }
    ensures knows { ((view result.0.place).0 ≡ true)
        × ((view result.0.place).1.origin ≡ (view snapshots.place).1.origin) }
    ensures found { IfSome result.1 (λ r.
        (r.0.origin ≡ (view snapshots.place).1.origin)
        × IsPrefix (view snapshots.place).1.entries r.0.entries
        × ListsAlikeSince r.0.origin.limit r.1.listing_since r.0.entries
        × IfSome r.1.root (λ o. IfOk o (λ t.
        arc_value t ≡ rows (replay r.0.origin.limit r.0.entries)))) }
    ensures shared { IfSome result.1 (λ r. r.1.root ≡ None → IsListedSince listed_at r.1.listing_since) }
{
    match snapshots.enter_as::<SeeStep>() {
        Ok(reading) => {
            let found = listing_in(reading.get(), listed_at);
            (reading.leave(), Some(found))
        }
        Err(snapshots) => (snapshots, None),
    }
}

// The front of a version, and what its list of comms is made of.
fn listing_in(shown: &Version, listed_at: Option<u64>) -> Found<FoundListing>
    ensures front { result.0 ≡ shown.now.front }
    ensures settled { ListsAlikeSince shown.now.front.origin.limit result.1.listing_since
        shown.now.front.entries }
    ensures root { IfSome result.1.root (λ o. IfOk o (λ t.
        arc_value t ≡ rows (replay shown.now.front.origin.limit shown.now.front.entries))) }
    ensures shared { result.1.root ≡ None → IsListedSince listed_at result.1.listing_since }
{
    let listing_since = shown.listing_since;
    let root = match listed_at {
        Some(count) if listing_since < count => None,
        _ => {
            let root: Result<_, _> = Arc::try_clone(&shown.root);
            Some(root)
        }
    };
    (
        shown.front.copy(),
        FoundListing {
            listing_since,
            root,
        },
    )
}

// Takes note of a front that was found. A front that lags behind what was seen is want of memory: there is none, since
// a stamp is made after its front was published, but no contract says so.
fn see<M: History>(reader_state: &mut ReaderState<M>, raw: RawFront) -> Result<u64, ReadFault>
    requires { raw.origin ≡ origin_of M.book M.limits }
    ensures later { IsPrefix reader_state.old.front reader_state.new.front }
    ensures seen { OnOk result (reader_state.new.front ≡ raw.entries) }
    ensures listed { reader_state.new.listed ≡ reader_state.old.listed }
    ensures legal { OnOk result
        (IsLegal M.limits.clients M.limits.comms reader_state.new.front) }
    ensures length { IfOk result (λ n. n ≡ length reader_state.new.front) }
    ensures version { IsErrOf result fault.NoVersion → ⊥ }
    ensures lags { OnErr result (length raw.entries < length reader_state.old.front) }
{
    let front: Stamp<M> = Stamp::from_raw(raw);
    if !reader_state.front().is_prefix_of(&front) {
        return Err(ReadFault::Memory);
    }
    let number = front.number();
    reader_state.advance(front);
    Ok(number)
}

// The comms that are shown and asked for: the cached list, where no comm opened or closed since it was read. Err:
// memory.
fn list<M: History>(
    reader_state: &mut ReaderState<M>,
    alloc: Global,
    asked: Option<&Text>,
    found: FoundListing,
) -> Result<Infos, AllocError>
    requires settled { ListsAlikeSince M.limits.comms found.listing_since reader_state.old.front }
    requires root { IfSome found.root (λ o. IfOk o (λ t.
        arc_value t ≡ rows (replay M.limits.comms reader_state.old.front))) }
    requires cached { found.root ≡ None → (count : ℕ)
        × WasListedAfter reader_state.old count (option_map (λ t. t.now) asked)
        × (found.listing_since < count) }
    ensures seen { reader_state.new.front ≡ reader_state.old.front }
    ensures comms { IfOk result (λ i. i ≡ infos (replay M.limits.comms reader_state.old.front)
        (option_map (λ t. t.now) asked.entry)) }
{
    if let Some(comms) = reader_state.cached_infos(found.listing_since, asked) {
        return comms.copy();
    }
    let Some(root) = found.root else {
        unreachable!()
    };
    let comms = root?.infos(alloc, asked)?;
    reader_state.keep(asked, &comms)?;
    Ok(comms)
}

impl<M: History> VersionReader<M> {
    /// A reader that has seen this front.
    pub(crate) fn new(snapshots: SnapshotReader, front: Stamp<M>) -> VersionReader<M>
        requires { ((view snapshots.place).0 ≡ true)
            × ((view snapshots.place).1.origin ≡ origin_of M.book M.limits) }
        ensures { result ≡ front }
    {
        VersionReader {
            snapshots,
            reader_state: ReaderState::new(front),
        }
    }

    /// The open comms with the names of their targets, all or those of one target, after the entries that are then
    /// seen; these include all that was seen before. Where no comm opened or closed since this reader last read the
    /// same, it is the cached list, shared. Err: NoVersion leaves what was seen; Memory may have made it longer.
    pub fn read_infos(&mut self, alloc: Global, asked: Option<&Text>) -> Result<InfoRead, ReadFault>
        ensures later { IsPrefix self.old self.new }
        ensures legal { OnOk result (IsLegal M.limits.clients M.limits.comms self.new) }
        ensures front { IfOk result (λ r. r.front ≡ length self.new) }
        ensures answer { IfOk result (λ r.
            r.comms ≡ infos (replay M.limits.comms self.new)
            (option_map (λ t. t.now) asked.entry)) }
        ensures none { IsErrOf result fault.NoVersion → self.new ≡ self.old }
    {
        let listed_at = self.reader_state.listed_at(asked);
        let found = replace_with(
            &mut self.snapshots,
            listed_at,
            |snapshots, listed_at| find_listing(snapshots, listed_at),
        );
        let Some((raw, found)) = found else {
            return Err(ReadFault::NoVersion);
        };
        let front = see(&mut self.reader_state, raw)?;
        match list(&mut self.reader_state, alloc, asked, found) {
            Ok(comms) => Ok(InfoRead { front, comms }),
            Err(_) => Err(ReadFault::Memory),
        }
    }

    /// The state of the comm of this id after the entries that are then seen; these include all that was seen before.
    /// Err: NoVersion leaves what was seen; Memory may have made it longer.
    pub fn read_state(&mut self, id: &Text) -> Result<StateRead, ReadFault>
        ensures later { IsPrefix self.old self.new }
        ensures legal { OnOk result (IsLegal M.limits.clients M.limits.comms self.new) }
        ensures front { IfOk result (λ r. r.front ≡ length self.new) }
        ensures answer { IfOk result (λ r.
            r.answer ≡ state_of (replay M.limits.comms self.new) id.now) }
        ensures none { IsErrOf result fault.NoVersion → self.new ≡ self.old }
    {
        let found = replace_with(
            &mut self.snapshots,
            id,
            |snapshots, id| look_up(snapshots, id),
        );
        let Some((raw, answer)) = found else {
            return Err(ReadFault::NoVersion);
        };
        let front = see(&mut self.reader_state, raw)?;
        match answer {
            Ok(answer) => Ok(StateRead { front, answer }),
            Err(_) => Err(ReadFault::Memory),
        }
    }

    /// From now on this reader sees no less than the stamp's front. It takes no memory.
    #[inline]
    pub fn hear(&mut self, stamp: &Stamp<M>)
        ensures one { (self.new ≡ self.old) ⊎ (self.new ≡ stamp.now) }
        ensures own { IsPrefix self.old self.new }
        ensures stamp { IsPrefix stamp.now self.new }
    {
        if self.reader_state.front().is_prefix_of(stamp) {
            self.reader_state.advance(stamp.copy());
        }
    }

    /// A proof step, which does nothing when it runs: what the reader has seen is a prefix of a history that has
    /// ended.
    pub fn learn_ended(&self, stamp: &Stamp<M>)
        ensures { has_end stamp.now ≡ true → IsPrefix self.now stamp.now }
    {
        self.reader_state.front().learn_ended(stamp)
    }

    /// How many entries it has seen. It takes no memory.
    #[must_use]
    pub fn seen(&self) -> u64
        ensures length { result ≡ length self.now }
        ensures legal { IsLegal M.limits.clients M.limits.comms self.now }
    {
        self.reader_state.front().number()
    }
}
