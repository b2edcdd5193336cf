//! A client of a manager that threads share: its own calls, and its own last result.
ghost use Rattle.std.specs.Prelude.{◌≡◌, ◌↔◌, ◌<◌, ◌≤◌, ◌^◌, [], IfErr, IfOk, IfSome, IsErrOf, IsTrue, OnErr, OnOk, length, option_map};
ghost use Rattle.std.specs.Arc.{arc_value};
ghost use Rattle.comm_core.specs.Limits.{IsCommsLimit};
ghost use Rattle.comm_shared.specs.SharedView.{most_changes};
ghost use Rattle.comm_c.specs.BuiltinTarget.{kind_of};
ghost use Rattle.comm_c.specs.Clients.{ClientPlays, ClientRegisters, IsFirstClient, IsNewcomer};
ghost use Rattle.comm_c.specs.Clients.{ReadsInfos, ReadsState, ReadsTarget};
ghost use Rattle.comm_c.specs.Handles.{IsAllowed};

use crate::builtin_target::{BuiltinKind, BuiltinTarget};
use crate::call_result::CallResult;
use crate::desk::Desk;
use crate::executing::one_reply;
use crate::gate::Gate;
use crate::held_manager::MAX_CALLS;
use crate::input::Input;
use crate::playing::Played;
use comm_core::Outgoings;
use comm_messages::Outgoing;
use comm_shared::{
    ChangeFault, OpenFault, Seats, SharedClient, SharedManager, SharedReadFault, TargetRead,
};
use comm_value::{Numbers, Text};
use comm_versions::{InfoRead, StateRead};
use std::alloc::{AllocError, Global};
use std::marker::Model;
use std::mem;
use std::sync::Arc;

/// What the clients of a manager share: its gate, and which seats are taken.
#[derive(Drop)]
pub struct Room {
    pub gate: Gate,
    seats: Seats,
}

/// A client, for one call at a time. It has a seat until it is dropped; with the last client the manager ends.
pub struct Client {
    room: Arc<Room, Global>,
    shared: SharedClient,
    numbers: Numbers,
    number: u64,
    call_result: CallResult,
    is_shown: bool,
}

impl Model for Client {
    ghost use Rattle.std.specs.Prelude.{◌≡◌, ◌≤◌, ◌^◌};
    ghost use Rattle.std.specs.Arc.{arc_value};
    ghost use Rattle.comm_c.specs.ClientState.{ClientState};
    ghost use Rattle.comm_c.specs.ClientStateCode.{client_state_code};

    ghost Value = { ClientState };

    ghost coded = { client_state_code };

    ghost view = { λ c. record {
      view = c.shared;
      number = c.number;
      call_result = c.call_result;
      numbers = c.numbers;
    } };

    ghost invariant = { λ c. ((arc_value c.room).gate.slot.origin ≡ c.shared.origin)
        × (c.number ≤ 2 ^ 62) };
}

/// Why there is no other client. All is as it was.
#[derive(Clone, Copy, Drop)]
pub enum JoinFault {
    /// There are as many clients as there may be at a time.
    NoSeat,
    /// Another call has the manager.
    Busy,
    Memory,
}

// A manager behind a gate, with a client in this seat. Err: memory.
fn open_in(
    alloc: Global,
    manager: SharedManager<BuiltinTarget>,
    seats: Seats,
    seat: u8,
    comms: usize,
    numbers: Numbers,
) -> Result<Client, AllocError>
    requires entries { manager.entries ≡ [] }
    requires limit { manager.origin.limit ≡ comms }
    ensures { IfOk result (λ c. IsFirstClient comms numbers c) }
{
    let desk = Desk::new(alloc, manager);
    let front = desk.front();
    let shared = desk.join(seat)?;
    let desk = Box::new(alloc, desk)?;
    let gate = Gate::new(desk, &front);
    let room = Arc::new(alloc, Room { gate, seats })?;
    Ok(Client {
        room,
        shared,
        numbers,
        number: 0,
        call_result: CallResult::Nothing,
        is_shown: true,
    })
}

impl Client {
    /// The first client of a new manager, of which at most `comms` comms are open at a time, and that takes these
    /// numbers as values. BadLimit exactly where `comms` isn't from 1 to 1,048,576.
    pub fn open(alloc: Global, comms: usize, numbers: Numbers) -> Result<Client, OpenFault>
        ensures first { IfOk result (λ c. IsFirstClient comms numbers c) }
        ensures bad_limit { IsErrOf result OpenFault.BadLimit ↔ ¬ (IsCommsLimit comms) }
    {
        let manager = SharedManager::new(alloc, comms)?;
        let seats = Seats::new();
        let seat = seats.take().unwrap_or(0);
        match open_in(alloc, manager, seats, seat, comms, numbers) {
            Ok(client) => Ok(client),
            Err(_) => Err(OpenFault::Memory),
        }
    }

    // Another client in this seat. Err: Busy or Memory.
    fn join_in(&self, seat: u8) -> Result<Client, JoinFault>
        ensures { IfOk result (λ c. IsNewcomer self.now c) }
    {
        let Some(desk) = self.enter() else {
            return Err(JoinFault::Busy);
        };
        let joined = desk.join(seat);
        self.leave(desk);
        let Ok(shared) = joined else {
            return Err(JoinFault::Memory);
        };
        let Ok(room) = Arc::try_clone(&self.room) else {
            return Err(JoinFault::Memory);
        };
        Ok(Client {
            room,
            shared,
            numbers: self.numbers,
            number: 0,
            call_result: CallResult::Nothing,
            is_shown: true,
        })
    }

    /// Another client of the same manager, which has seen the whole history. NoSeat is tested first, then Busy.
    pub fn join(&self) -> Result<Client, JoinFault>
        ensures { IfOk result (λ c. IsNewcomer self.now c) }
    {
        let Some(seat) = self.room.seats.take() else {
            return Err(JoinFault::NoSeat);
        };
        let joined = self.join_in(seat);
        if joined.is_err() {
            self.room.seats.give_back(seat);
        }
        joined
    }

    /// Which numbers are values.
    pub fn numbers(&self) -> Numbers
        ensures { result ≡ self.now.numbers }
    {
        self.numbers
    }

    /// Whether it has had as many calls as it makes.
    pub fn is_exhausted(&self) -> bool
        ensures { IsTrue result ↔ (2 ^ 62 ≤ self.now.number) }
    {
        self.number >= MAX_CALLS
    }

    /// The result of its last call.
    pub fn call_result(&self) -> &CallResult
        ensures { result.now ≡ self.now.call_result }
    {
        &self.call_result
    }

    /// How many entries of the history it has seen.
    pub fn seen(&self) -> u64
        ensures { result ≡ length self.now.view.own.seen }
    {
        self.shared.seen()
    }

    /// Whether readers saw its last change when it was made.
    pub fn is_shown(&self) -> bool {
        self.is_shown
    }

    /// Takes the desk. None: another call has it.
    #[must_use]
    pub fn enter(&self) -> Option<Box<Desk>>
        ensures { IfSome result (λ d. d.value.origin ≡ self.now.view.origin) }
    {
        self.room.gate.take()
    }

    /// Gives the desk back.
    pub fn leave(&self, desk: Box<Desk>)
        requires { desk.value.origin ≡ self.now.view.origin }
    {
        self.room.gate.give_back(desk)
    }

    /// Does what is asked for as the next call, at the desk. Err: all is as it was.
    pub fn play(&mut self, alloc: Global, desk: &mut Desk, input: Input) -> Result<(), ChangeFault>
        requires same { desk.old.origin ≡ self.old.view.origin }
        requires room { self.old.number < 2 ^ 62 }
        requires allowed { IsAllowed input }
        ensures plays { OnOk result (ClientPlays self.old desk.old input self.new desk.new) }
        ensures origin { self.new.view.origin ≡ self.old.view.origin }
        ensures origin_stays { desk.new.origin ≡ desk.old.origin }
        ensures err { OnErr result ((self.new ≡ self.old) × (desk.new ≡ desk.old)) }
        ensures full { IfErr result (λ e. e ≡ ChangeFault.Full
            → length desk.old.entries ≡ most_changes) }
    {
        let number = self.number + 1;
        let Played { call_result, shown } = desk.play(alloc, &mut self.shared, number, input)?;
        drop(mem::replace(&mut self.call_result, call_result));
        self.number = number;
        self.is_shown = shown.unwrap_or(self.is_shown);
        Ok(())
    }

    /// Registers a new target of the kind as the next call, at the desk. Err: all is as it was.
    pub fn register(
        &mut self,
        alloc: Global,
        desk: &mut Desk,
        kind: BuiltinKind,
        name: Text,
    ) -> Result<(), ChangeFault>
        requires same { desk.old.origin ≡ self.old.view.origin }
        requires room { self.old.number < 2 ^ 62 }
        ensures registers { OnOk result
            (ClientRegisters self.old desk.old (kind_of kind) name self.new desk.new) }
        ensures origin { self.new.view.origin ≡ self.old.view.origin }
        ensures origin_stays { desk.new.origin ≡ desk.old.origin }
        ensures err { OnErr result ((self.new ≡ self.old) × (desk.new ≡ desk.old)) }
        ensures full { IfErr result (λ e. e ≡ ChangeFault.Full
            → length desk.old.entries ≡ most_changes) }
    {
        let Played { call_result, shown } = desk.register(alloc, &mut self.shared, kind, name)?;
        drop(mem::replace(&mut self.call_result, call_result));
        self.number += 1;
        self.is_shown = shown.unwrap_or(self.is_shown);
        Ok(())
    }

    // ---- reads, which enter nothing; Err: the client is as it was

    /// Reads the state of a comm as the next call, after `since` entries or more and after all that it had seen.
    #[tactic(auto, using(crate::proofs::ClientRead::at_what_is_seen))]
    pub fn read_state(&mut self, since: u64, id: &Text) -> Result<(), SharedReadFault>
        requires room { self.old.number < 2 ^ 62 }
        ensures reads { OnOk result (ReadsState since id.now self.old self.new) }
        ensures err { OnErr result (self.new ≡ self.old) }
    {
        let StateRead { front, answer } = self.shared.state(since, id)?;
        drop(mem::replace(&mut self.call_result, CallResult::State { front, answer }));
        self.number += 1;
        Ok(())
    }

    /// Reads the name of a comm's target, as `read_state` reads its state.
    #[tactic(auto, using(crate::proofs::ClientRead::at_what_is_seen))]
    pub fn read_target(&mut self, since: u64, id: &Text) -> Result<(), SharedReadFault>
        requires room { self.old.number < 2 ^ 62 }
        ensures reads { OnOk result (ReadsTarget since id.now self.old self.new) }
        ensures err { OnErr result (self.new ≡ self.old) }
    {
        let TargetRead { front, name } = self.shared.target(since, id)?;
        drop(mem::replace(&mut self.call_result, CallResult::Target { front, name }));
        self.number += 1;
        Ok(())
    }

    /// Reads the open comms, all or those of one target, as `read_state` reads a state.
    #[tactic(auto, using(crate::proofs::ClientRead::at_what_is_seen))]
    pub fn read_infos(
        &mut self,
        alloc: Global,
        since: u64,
        asked: Option<&Text>,
    ) -> Result<(), SharedReadFault>
        requires room { self.old.number < 2 ^ 62 }
        ensures reads { OnOk result
            (ReadsInfos since (option_map (λ t. t.now) asked.entry) self.old self.new) }
        ensures err { OnErr result (self.new ≡ self.old) }
    {
        let Ok(mut sent) = one_reply(alloc) else {
            return Err(SharedReadFault::Memory);
        };
        let InfoRead { front, comms } = self.shared.infos(alloc, since, asked)?;
        sent[0] = Outgoing::InfoReply { comms };
        let call_result = CallResult::Infos {
            client: self.shared.seat(),
            front,
            sent: Outgoings::new(sent),
        };
        drop(mem::replace(&mut self.call_result, call_result));
        self.number += 1;
        Ok(())
    }
}

impl Drop for Client {
    fn drop(self) {
        let Client {
            room,
            shared,
            numbers: _,
            number: _,
            call_result,
            is_shown: _,
        } = self;
        room.seats.give_back(shared.seat());
        drop(call_result);
        drop(shared);
        drop(room);
    }
}
