//! A client: who makes changes and reads.
ghost use Rattle.std.specs.Prelude.{◌≡◌, length, true, IfOk, IfErr, IsErrOf, OnErr, OnOk, option_map};
ghost use mathlib.Core.List.{IsPrefix};
ghost use Rattle.comm_core.specs.History.{mine, replay};
ghost use Rattle.comm_core.specs.Machine.{at};
ghost use Rattle.comm_core.specs.Reads.{infos, state_of};
ghost use Rattle.comm_core.specs.Ready.{HandsNothingIn, register_of};
ghost use Rattle.comm_targets.specs.Meaning.{IsIdle};
ghost use Rattle.comm_shared.specs.SharedView.{HasMade, HasMadeNone, HasRead, most_changes, newcomer};
ghost use Rattle.comm_shared.specs.SharedView.{seen_of};
ghost use Rattle.comm_shared.specs.declared.change.ChangeFault.TheVariants as fault;

use crate::change::ChangeFault;
use crate::manager::{SharedChange, SharedManager};
use crate::reader::{SharedReadFault, SharedReader, TargetRead};
use comm_core::Call;
use comm_targets::Target;
use comm_value::Text;
use comm_versions::{InfoRead, StateRead};
use std::alloc::{AllocError, Global};
use std::marker::Model;

/// A client of a manager, for one thread at a time. Contracts see which history it belongs to, its seat, how many of its
/// changes were answered, and what it has seen.
#[derive(Drop)]
pub struct SharedClient {
    seat: u8,
    number: u64,
    reader: SharedReader,
}

impl Model for SharedClient {
    ghost use Rattle.std.specs.Prelude.{◌≤◌, length};
    ghost use Rattle.comm_core.specs.History.{mine};
    ghost use Rattle.comm_versions.specs.ClientView.{client_view};
    ghost use Rattle.comm_shared.specs.SharedView.{SharedView};
    ghost use Rattle.comm_shared.specs.SharedViewCode.{shared_view_code};

    ghost Value = { SharedView };

    ghost coded = { shared_view_code };

    ghost view = { λ c. record {
      origin = c.reader.origin;
      own = client_view c.seat c.number c.reader.entries;
    } };

    ghost invariant = { λ c. c.number ≤ length (mine c.reader.entries c.seat) };
}

impl SharedClient {
    /// A client in this seat, which has seen the whole history. The seat's changes are its own. Err: memory.
    pub fn join<T: Target>(manager: &SharedManager<T>, seat: u8) -> Result<SharedClient, AllocError>
        ensures { IfOk result (λ c. c ≡ newcomer manager.now seat) }
    {
        Ok(SharedClient {
            seat,
            number: manager.count_of(seat),
            reader: manager.reader()?,
        })
    }

    /// Its seat, from 0.
    pub fn seat(&self) -> u8
        ensures { result ≡ self.now.own.client }
    {
        self.seat
    }

    /// How many entries it has seen.
    pub fn seen(&self) -> u64
        ensures { result ≡ length self.now.own.seen }
    {
        self.reader.seen()
    }

    /// Whether the history has all that it has seen, and of its seat just what it made: so it has, where each client is
    /// used with its own manager and has a seat of its own. Only then a change of it is made.
    #[must_use]
    pub fn knows<T: Target>(&self, manager: &SharedManager<T>) -> bool
        requires { manager.now.origin ≡ self.now.origin }
        ensures seen { result ≡ true → IsPrefix self.now.own.seen manager.now.entries }
        ensures number { result ≡ true
            → length (mine manager.now.entries self.now.own.client) ≡ self.now.own.number }
    {
        let front = manager.front();
        manager.count_of(self.seat) == self.number && self.reader.precedes(&front)
    }

    /// Makes the change of a call that hands no target in. It is the last entry of the history, which begins with all
    /// that this client had seen. Err: it wasn't made, and all is as it was.
    pub fn change<T: Target>(
        &mut self,
        manager: &mut SharedManager<T>,
        call: Call,
    ) -> Result<SharedChange, ChangeFault>
        requires same { manager.old.origin ≡ self.old.origin }
        requires call { HandsNothingIn call }
        ensures made { IfOk result (λ a.
            HasMade self.old self.new call a.number a.reply a.outgoing.items
            manager.old manager.new) }
        ensures call { IfOk result (λ a. a.call ≡ self.new.own.number) }
        ensures err { OnErr result ((self.new ≡ self.old) × (manager.new ≡ manager.old)) }
        ensures full { IsErrOf result fault.Full → length manager.old.entries ≡ most_changes }
    {
        if !self.knows(manager) {
            drop(call);
            return Err(ChangeFault::Stranger);
        }
        let made = manager.change(self.seat, call)?;
        self.number = made.call;
        self.reader.advance(manager.front());
        Ok(made)
    }

    /// Registers a target under a name, as `change` makes a change, in the place of the one that has the name: that one
    /// ends. Err: it wasn't made, all is as it was, and the target comes back.
    pub fn register<T: Target>(
        &mut self,
        manager: &mut SharedManager<T>,
        name: Text,
        target: T,
    ) -> Result<SharedChange, (ChangeFault, T)>
        requires same { manager.old.origin ≡ self.old.origin }
        requires idle { IsIdle (T.means target) }
        ensures made { IfOk result (λ a. HasMade self.old self.new
            (register_of name (T.means target)) a.number a.reply a.outgoing.items
            manager.old manager.new) }
        ensures call { IfOk result (λ a. a.call ≡ self.new.own.number) }
        ensures err { OnErr result ((self.new ≡ self.old) × (manager.new ≡ manager.old)) }
        ensures back { IfErr result (λ e. T.means e.1 ≡ T.means target) }
        ensures full { IfErr result (λ e.
            e.0 ≡ fault.Full → length manager.old.entries ≡ most_changes) }
    {
        if !self.knows(manager) {
            drop(name);
            return Err((ChangeFault::Stranger, target));
        }
        let made = manager.register(self.seat, name, target)?;
        self.number = made.call;
        self.reader.advance(manager.front());
        Ok(made)
    }

    /// From now on it has seen the whole history, with no change of its own. Err, always Stranger: it is as it was.
    pub fn catch_up<T: Target>(&mut self, manager: &SharedManager<T>) -> Result<(), ChangeFault>
        requires same { manager.now.origin ≡ self.old.origin }
        ensures seen { OnOk result (seen_of self.new ≡ manager.now) }
        ensures later { IsPrefix self.old.own.seen self.new.own.seen }
        ensures made { HasMadeNone self.old self.new }
        ensures err { OnErr result (self.new ≡ self.old) }
        ensures stranger { IfErr result (λ e. e ≡ fault.Stranger) }
    {
        if !self.knows(manager) {
            return Err(ChangeFault::Stranger);
        }
        self.reader.advance(manager.front());
        Ok(())
    }

    /// The open comms with the names of their targets, all or those of one target, after `since` entries or more, and
    /// after all that this client had seen. Err: the client is as it was, as after each read.
    pub fn infos(
        &mut self,
        alloc: Global,
        since: u64,
        asked: Option<&Text>,
    ) -> Result<InfoRead, SharedReadFault>
        ensures read { IfOk result (λ r. HasRead (seen_of self.old) (seen_of self.new) since r.front) }
        ensures answer { IfOk result (λ r. r.comms
            ≡ infos (replay self.new.origin.limit self.new.own.seen)
            (option_map (λ t. t.now) asked.entry)) }
        ensures made { HasMadeNone self.old self.new }
        ensures err { OnErr result (self.new ≡ self.old) }
    {
        self.reader.read_infos(alloc, since, asked)
    }

    /// The state of the comm of this id, as `infos` reads.
    pub fn state(&mut self, since: u64, id: &Text) -> Result<StateRead, SharedReadFault>
        ensures read { IfOk result (λ r. HasRead (seen_of self.old) (seen_of self.new) since r.front) }
        ensures answer { IfOk result (λ r. r.answer
            ≡ state_of (replay self.new.origin.limit self.new.own.seen) id.now) }
        ensures made { HasMadeNone self.old self.new }
        ensures err { OnErr result (self.new ≡ self.old) }
    {
        self.reader.read_state(since, id)
    }

    /// The name of the target of the comm of this id, as `infos` reads. None: no comm has the id.
    pub fn target(&mut self, since: u64, id: &Text) -> Result<TargetRead, SharedReadFault>
        ensures read { IfOk result (λ r. HasRead (seen_of self.old) (seen_of self.new) since r.front) }
        ensures answer { IfOk result (λ r. r.name ≡ option_map (λ c. c.target)
            (at (replay self.new.origin.limit self.new.own.seen).comms id.now)) }
        ensures made { HasMadeNone self.old self.new }
        ensures err { OnErr result (self.new ≡ self.old) }
    {
        self.reader.read_target(since, id)
    }
}
