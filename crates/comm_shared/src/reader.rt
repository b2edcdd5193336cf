//! What a client reads by.
ghost use Rattle.std.specs.Prelude.{◌≡◌, ◌≤◌, length, true, IfOk, OnErr, option_map};
ghost use mathlib.Core.List.{IsPrefix};
ghost use Rattle.std.specs.Arc.{arc_value};
ghost use Rattle.comm_core.specs.History.{replay};
ghost use Rattle.comm_core.specs.Machine.{at};
ghost use Rattle.comm_core.specs.Reads.{infos, state_of};
ghost use Rattle.comm_shared.specs.SharedView.{HasRead};

use crate::shown_version::ShownVersion;
use comm_core::{StateAnswer, comms_in_order_are_the_comms, replays_are_consistent};
use comm_messages::Infos;
use comm_value::Text;
use comm_versions::{InfoRead, RawFront, StateRead, Version};
use shelf::Shelf;
use std::alloc::{AllocError, Global};
use std::marker::Model;
use std::sync::Arc;
use thiserror::Error;

/// Why a read gives nothing. The reader is as it was.
#[derive(Clone, Copy, Debug, PartialEq, Eq, Error)]
pub enum SharedReadFault {
    /// Memory ran out, or a count of owners can't be raised.
    #[error("out of memory")]
    Memory,
    /// What is shown isn't as late as was asked for, or versions came faster than they could be looked at.
    #[error("the change isn't shown yet")]
    Again,
}

/// The name of the target of a comm, if that was open, and after how many entries.
#[derive(Drop)]
pub struct TargetRead {
    pub front: u64,
    pub name: Option<Text>,
}

/// Reads the comms that are shown, with no lock and no wait. Contracts see what it has seen of the history.
#[derive(Drop)]
pub struct SharedReader {
    shelf: Arc<Shelf<ShownVersion>, Global>,
    front: RawFront,
}

impl Model for SharedReader {
    ghost use Rattle.std.specs.Prelude.{◌≡◌};
    ghost use Rattle.std.specs.Arc.{arc_value};
    ghost use Rattle.comm_versions.specs.Code.{known_code};
    ghost use Rattle.comm_versions.specs.Known.{Known};

    ghost Value = { Known };

    ghost coded = { known_code };

    ghost view = { λ r. r.front };

    ghost invariant = { λ r. (arc_value r.shelf).tag.origin ≡ r.front.origin };
}

// The state of the comm of this id in a version.
fn state_in(version: &Version, id: &Text) -> Result<StateAnswer, AllocError>
    ensures { IfOk result (λ a. a
        ≡ state_of (replay version.now.front.origin.limit version.now.front.entries) id.now) }
{
    let _legal = version.front.len();
    replays_are_consistent();
    comms_in_order_are_the_comms();
    version.root.state(id)
}

// The name of the target of the comm of this id in a version. None: no comm has the id.
fn target_in(version: &Version, id: &Text) -> Result<Option<Text>, AllocError>
    ensures { IfOk result (λ n. n ≡ option_map (λ c. c.target)
        (at (replay version.now.front.origin.limit version.now.front.entries).comms id.now)) }
{
    let _legal = version.front.len();
    replays_are_consistent();
    comms_in_order_are_the_comms();
    match version.root.target(id) {
        Some(name) => Ok(Some(name.copy()?)),
        None => Ok(None),
    }
}

// The comms of a version that are asked for.
fn infos_in(alloc: Global, version: &Version, asked: Option<&Text>) -> Result<Infos, AllocError>
    ensures { IfOk result (λ i. i
        ≡ infos (replay version.now.front.origin.limit version.now.front.entries)
        (option_map (λ t. t.now) asked.entry)) }
{
    version.root.infos(alloc, asked)
}

impl SharedReader {
    /// A reader that has seen this front.
    pub(crate) fn new(shelf: Arc<Shelf<ShownVersion>, Global>, front: RawFront) -> SharedReader
        requires { (arc_value shelf).tag.origin ≡ front.origin }
        ensures { result ≡ front }
    {
        SharedReader { shelf, front }
    }

    /// Whether what it has seen is a prefix of this front.
    #[must_use]
    pub fn precedes(&self, front: &RawFront) -> bool
        requires { front.now.origin ≡ self.now.origin }
        ensures { result ≡ true → IsPrefix self.now.entries front.now.entries }
    {
        self.front.is_prefix_of(front)
    }

    /// From now on it has seen this front, which includes all that it had seen.
    pub fn advance(&mut self, front: RawFront)
        requires origin { front.origin ≡ self.old.origin }
        requires later { IsPrefix self.old.entries front.entries }
        ensures { self.new ≡ front }
    {
        self.front = front;
    }

    /// How many entries it has seen.
    #[must_use]
    pub fn seen(&self) -> u64
        ensures { result ≡ length self.now.entries }
    {
        self.front.len()
    }

    // The version that is shown, of at least so many entries and of all that was seen.
    fn look(&self, since: u64) -> Result<Version, SharedReadFault>
        ensures origin { IfOk result (λ v. v.front.origin ≡ self.now.origin) }
        ensures later { IfOk result (λ v. IsPrefix self.now.entries v.front.entries) }
        ensures since { IfOk result (λ v. since ≤ length v.front.entries) }
    {
        let Some(found) = self.shelf.look() else {
            return Err(SharedReadFault::Again);
        };
        let Ok(shown) = found else {
            return Err(SharedReadFault::Memory);
        };
        let ShownVersion { version } = shown;
        if version.front.len() < since || !self.front.is_prefix_of(&version.front) {
            return Err(SharedReadFault::Again);
        }
        Ok(version)
    }

    // It has seen the front of this version now: so many entries.
    fn arrive(&mut self, since: u64, version: &Version) -> u64
        requires origin { version.now.front.origin ≡ self.old.origin }
        requires later { IsPrefix self.old.entries version.now.front.entries }
        requires since { since ≤ length version.now.front.entries }
        ensures read { HasRead self.old self.new since result }
        ensures now { self.new ≡ version.now.front }
    {
        self.front = version.front.copy();
        version.front.len()
    }

    /// The open comms with the names of their targets, all or those of one target, after `since` entries or more, and
    /// after all that this reader had seen. Err: the reader is as it was, as after each read.
    pub fn read_infos(
        &mut self,
        alloc: Global,
        since: u64,
        asked: Option<&Text>,
    ) -> Result<InfoRead, SharedReadFault>
        ensures read { IfOk result (λ r. HasRead self.old self.new since r.front) }
        ensures answer { IfOk result (λ r. r.comms
            ≡ infos (replay self.new.origin.limit self.new.entries)
            (option_map (λ t. t.now) asked.entry)) }
        ensures err { OnErr result (self.new ≡ self.old) }
    {
        let version = self.look(since)?;
        let Ok(comms) = infos_in(alloc, &version, asked) else {
            return Err(SharedReadFault::Memory);
        };
        let front = self.arrive(since, &version);
        Ok(InfoRead { front, comms })
    }

    /// The state of the comm of this id, as `read_infos` reads.
    pub fn read_state(&mut self, since: u64, id: &Text) -> Result<StateRead, SharedReadFault>
        ensures read { IfOk result (λ r. HasRead self.old self.new since r.front) }
        ensures answer { IfOk result (λ r. r.answer
            ≡ state_of (replay self.new.origin.limit self.new.entries) id.now) }
        ensures err { OnErr result (self.new ≡ self.old) }
    {
        let version = self.look(since)?;
        let Ok(answer) = state_in(&version, id) else {
            return Err(SharedReadFault::Memory);
        };
        let front = self.arrive(since, &version);
        Ok(StateRead { front, answer })
    }

    /// The name of the target of the comm of this id, as `read_infos` reads. None: no comm has the id.
    pub fn read_target(&mut self, since: u64, id: &Text) -> Result<TargetRead, SharedReadFault>
        ensures read { IfOk result (λ r. HasRead self.old self.new since r.front) }
        ensures answer { IfOk result (λ r. r.name ≡ option_map (λ c. c.target)
            (at (replay self.new.origin.limit self.new.entries).comms id.now)) }
        ensures err { OnErr result (self.new ≡ self.old) }
    {
        let version = self.look(since)?;
        let Ok(name) = target_in(&version, id) else {
            return Err(SharedReadFault::Memory);
        };
        let front = self.arrive(since, &version);
        Ok(TargetRead { front, name })
    }
}
