//! A client: its reader, its sequence of changes, and what it may ask.
ghost use Rattle.std.specs.Prelude.{◌≡◌, ◌+◌, ◌<◌, ◌⊎◌, length, true, IfOk, IfErr, OnErr, OnOk, IsErrOf, option_map};
ghost use mathlib.Core.List.{IsPrefix};
ghost use Rattle.comm_targets.specs.Meaning.{IsIdle};
ghost use Rattle.comm_core.specs.History.{IsLegal, has_end, replay};
ghost use Rattle.comm_core.specs.Reads.{infos, state_of};
ghost use Rattle.comm_core.specs.Ready.{HandsNothingIn};
ghost use Rattle.comm_core.specs.Tables.{IdleWhere};
ghost use Rattle.comm_core.specs.declared.call.Call.TheVariants as call;
ghost use Rattle.comm_manager.specs.UnderLock.{counts};
ghost use Rattle.comm_versions.specs.Mine.{IsAnswered, IsSettled, made};
ghost use Rattle.comm_versions.specs.ClientView.{client_view};
ghost use Rattle.comm_manager.specs.Why.{IsReason};
ghost use Rattle.comm_versions.specs.declared.reads.ReadFault.TheVariants as fault;

use crate::answered::Answered;
use crate::change::AnsweredChange;
use crate::journal::HistoryStore;
use crate::ledger::{ClientSeq, SeqTotals};
use crate::manager_id::ManagerId;
use crate::shared::Manager;
use comm_core::{Call, Unavailable};
use comm_messages::Body;
use comm_targets::{Held, Target};
use comm_value::{Dict, Text};
use comm_versions::{InfoRead, ReadFault, Stamp, StateRead, VersionReader};
use std::alloc::Global;
use std::marker::Model;
use std::sync::Wait;
use uuid::Uuid;

/// A caller's handle on a manager. Contracts see its number, from 0, how many of its changes were answered, and what
/// it has seen.
#[derive(Drop)]
pub struct Client<M: ManagerId> {
    pub(crate) reader: VersionReader<M>,
    pub(crate) seq: ClientSeq<M>,
}

impl<M: ManagerId> Model for Client<M> {
    ghost use Rattle.std.specs.Prelude.{◌<◌, ◌≤◌, length};
    ghost use Rattle.comm_core.specs.History.{mine};
    ghost use Rattle.comm_versions.specs.Code.{client_code};
    ghost use Rattle.comm_versions.specs.ClientView.{ClientView, client_view};

    ghost Value = { ClientView };

    ghost coded = { client_code };

    ghost view = { λ c. client_view c.seq.client c.seq.number c.reader };

    ghost invariant = { λ c.
        (c.seq.client < M.limits.clients) × (c.seq.number ≤ length (mine c.reader c.seq.client)) };
}

// Ends a target that a change took out, if it did.
fn end<T: Target>(ended: Option<Held<T>>)
    requires { IdleWhere ended }
{
    if let Some(held) = ended {
        held.end();
    }
}

impl<M: ManagerId> Client<M> {
    /// A client that has made no change.
    pub(crate) fn new(reader: VersionReader<M>, seq: ClientSeq<M>) -> Client<M>
        requires below { seq.client < M.limits.clients }
        requires none { seq.number ≡ 0 }
        ensures { result ≡ client_view seq.client 0 reader }
    {
        Client { reader, seq }
    }

    /// Its number, from 0.
    #[must_use]
    pub fn id(&self) -> u8
        ensures { result ≡ self.now.client }
    {
        self.seq.client()
    }

    /// How many entries it has seen. It takes no memory.
    #[must_use]
    pub fn seen(&self) -> u64
        ensures length { result ≡ length self.now.seen }
        ensures legal { IsLegal M.limits.clients M.limits.comms self.now.seen }
    {
        self.reader.seen()
    }

    /// From now on it has seen no less than the stamp's front. It takes no memory.
    pub fn hear(&mut self, stamp: &Stamp<M>)
        ensures one { (self.new.seen ≡ self.old.seen) ⊎ (self.new.seen ≡ stamp.now) }
        ensures own { IsPrefix self.old.seen self.new.seen }
        ensures stamp { IsPrefix stamp.now self.new.seen }
        ensures made { (self.new.client ≡ self.old.client) × (self.new.number ≡ self.old.number)
            × (made self.new ≡ made self.old) }
    {
        self.reader.hear(stamp);
    }

    /// A proof step at the end: what the client has seen is a prefix of the history that ended, which has of it just
    /// what it made.
    pub(crate) fn settle(&mut self, totals: &mut SeqTotals<M>, last: &Stamp<M>)
        requires ended { has_end last.now ≡ true }
        requires totals { totals.old ≡ counts last.now }
        ensures same { (self.new ≡ self.old) × (totals.new ≡ totals.old) }
        ensures settled { IsSettled last.now self.old }
    {
        self.reader.learn_ended(last);
        totals.check(&mut self.seq);
    }

    /// Makes the change of a call that hands no target in; the functions below put that call together. Err: the
    /// change wasn't made, and why.
    pub fn ask<T: Target, S: HistoryStore, R: Wait>(
        &mut self,
        rt: &R,
        manager: &Manager<M, T, S>,
        call: Call,
    ) -> Result<Answered<M>, Unavailable<Stamp<M>>>
        requires { HandsNothingIn call }
        ensures answered { IfOk result (λ a.
            IsAnswered M.limits self.old self.new call a.number a.reply a.stamp) }
        ensures err { OnErr result (self.new ≡ self.old) }
        ensures why { IfErr result (λ e. IsReason M.limits e) }
    {
        let made = manager.inner.lock(rt).ask(rt, self, call);
        // Here the lock is let go: a target may take its time to end.
        match made {
            Ok(AnsweredChange { answered, ended }) => {
                end(ended);
                Ok(answered)
            }
            Err(why) => Err(why),
        }
    }

    /// Registers a target under a name, in the place of the one that has it, if there is one: that one ends. Err: the
    /// change wasn't made, and the target comes back as it was.
    pub fn register<T: Target, S: HistoryStore, R: Wait>(
        &mut self,
        rt: &R,
        manager: &Manager<M, T, S>,
        name: Text,
        target: T,
    ) -> Result<Answered<M>, (Unavailable<Stamp<M>>, T)>
        requires { IsIdle (T.means target) }
        ensures answered { IfOk result (λ a.
            IsAnswered M.limits self.old self.new
            (call.Register name (T.means target).kind (T.means target).notes)
            a.number a.reply a.stamp) }
        ensures err { OnErr result (self.new ≡ self.old) }
        ensures why { IfErr result (λ e. IsReason M.limits e.0) }
        ensures boxed { IfErr result (λ e. T.means e.1 ≡ T.means target) }
    {
        let made = manager.inner.lock(rt).register(rt, self, name, target);
        match made {
            Ok(AnsweredChange { answered, ended }) => {
                end(ended);
                Ok(answered)
            }
            Err(refused) => Err(refused),
        }
    }

    /// Opens a comm towards a target, as the frontend asks by `comm_open`. `version` is the widget protocol's, of the
    /// message's metadata. Err: as of `ask`.
    pub fn open_comm<T: Target, S: HistoryStore, R: Wait>(
        &mut self,
        rt: &R,
        manager: &Manager<M, T, S>,
        id: Text,
        target: Text,
        version: Option<Text>,
        body: Body,
    ) -> Result<Answered<M>, Unavailable<Stamp<M>>>
        ensures answered { IfOk result (λ a.
            IsAnswered M.limits self.old self.new
            (call.Open id target version body) a.number a.reply a.stamp) }
        ensures err { OnErr result (self.new ≡ self.old) }
        ensures why { IfErr result (λ e. IsReason M.limits e) }
    {
        self.ask(
            rt,
            manager,
            Call::Open {
                id,
                target,
                version,
                body,
            },
        )
    }

    /// Hands a `comm_msg` of the frontend to the comm's target. Err: as of `ask`.
    pub fn message<T: Target, S: HistoryStore, R: Wait>(
        &mut self,
        rt: &R,
        manager: &Manager<M, T, S>,
        id: Text,
        body: Body,
    ) -> Result<Answered<M>, Unavailable<Stamp<M>>>
        ensures answered { IfOk result (λ a.
            IsAnswered M.limits self.old self.new (call.Msg id body) a.number a.reply a.stamp) }
        ensures err { OnErr result (self.new ≡ self.old) }
        ensures why { IfErr result (λ e. IsReason M.limits e) }
    {
        self.ask(rt, manager, Call::Msg { id, body })
    }

    /// Closes a comm, as the frontend asks by `comm_close`. Err: as of `ask`.
    pub fn close_comm<T: Target, S: HistoryStore, R: Wait>(
        &mut self,
        rt: &R,
        manager: &Manager<M, T, S>,
        id: Text,
    ) -> Result<Answered<M>, Unavailable<Stamp<M>>>
        ensures answered { IfOk result (λ a.
            IsAnswered M.limits self.old self.new (call.Close id) a.number a.reply a.stamp) }
        ensures err { OnErr result (self.new ≡ self.old) }
        ensures why { IfErr result (λ e. IsReason M.limits e) }
    {
        self.ask(rt, manager, Call::Close { id })
    }

    /// Takes a target out: closes its comms, with a `comm_close` for each, and ends it. Err: as of `ask`.
    pub fn unregister<T: Target, S: HistoryStore, R: Wait>(
        &mut self,
        rt: &R,
        manager: &Manager<M, T, S>,
        name: Text,
    ) -> Result<Answered<M>, Unavailable<Stamp<M>>>
        ensures answered { IfOk result (λ a.
            IsAnswered M.limits self.old self.new (call.Unregister name) a.number a.reply a.stamp) }
        ensures err { OnErr result (self.new ≡ self.old) }
        ensures why { IfErr result (λ e. IsReason M.limits e) }
    {
        self.ask(rt, manager, Call::Unregister { name })
    }

    /// Opens a widget's comm for the kernel, with this state; sends `comm_open`. Err: as of `ask`.
    pub fn launch<T: Target, S: HistoryStore, R: Wait>(
        &mut self,
        rt: &R,
        manager: &Manager<M, T, S>,
        id: Uuid,
        target: Text,
        state: Dict,
    ) -> Result<Answered<M>, Unavailable<Stamp<M>>>
        ensures answered { IfOk result (λ a.
            IsAnswered M.limits self.old self.new
            (call.Launch id target state) a.number a.reply a.stamp) }
        ensures err { OnErr result (self.new ≡ self.old) }
        ensures why { IfErr result (λ e. IsReason M.limits e) }
    {
        self.ask(rt, manager, Call::Launch { id, target, state })
    }

    /// Changes these keys of a widget's state for the kernel; sends an `update` with just them. Err: as of
    /// `ask`.
    pub fn push<T: Target, S: HistoryStore, R: Wait>(
        &mut self,
        rt: &R,
        manager: &Manager<M, T, S>,
        id: Text,
        state: Dict,
    ) -> Result<Answered<M>, Unavailable<Stamp<M>>>
        ensures answered { IfOk result (λ a.
            IsAnswered M.limits self.old self.new (call.Push id state) a.number a.reply a.stamp) }
        ensures err { OnErr result (self.new ≡ self.old) }
        ensures why { IfErr result (λ e. IsReason M.limits e) }
    {
        self.ask(rt, manager, Call::Push { id, state })
    }

    /// Sends a `comm_msg` of the kernel on a comm, past its target. Err: as of `ask`.
    pub fn send<T: Target, S: HistoryStore, R: Wait>(
        &mut self,
        rt: &R,
        manager: &Manager<M, T, S>,
        id: Text,
        body: Body,
    ) -> Result<Answered<M>, Unavailable<Stamp<M>>>
        ensures answered { IfOk result (λ a.
            IsAnswered M.limits self.old self.new (call.Send id body) a.number a.reply a.stamp) }
        ensures err { OnErr result (self.new ≡ self.old) }
        ensures why { IfErr result (λ e. IsReason M.limits e) }
    {
        self.ask(rt, manager, Call::Send { id, body })
    }

    /// Closes a comm for the kernel; sends `comm_close`. Err: as of `ask`.
    pub fn hang_up<T: Target, S: HistoryStore, R: Wait>(
        &mut self,
        rt: &R,
        manager: &Manager<M, T, S>,
        id: Text,
    ) -> Result<Answered<M>, Unavailable<Stamp<M>>>
        ensures answered { IfOk result (λ a.
            IsAnswered M.limits self.old self.new (call.HangUp id) a.number a.reply a.stamp) }
        ensures err { OnErr result (self.new ≡ self.old) }
        ensures why { IfErr result (λ e. IsReason M.limits e) }
    {
        self.ask(rt, manager, Call::HangUp { id })
    }

    /// The open comms with the names of their targets, all or those of one target, after the changes that the client
    /// has then seen. It enters no lock. Err: NoVersion, as may come after the manager was discarded, leaves what was
    /// seen; Memory may have made it longer.
    pub fn comm_info(&mut self, alloc: Global, target: Option<&Text>) -> Result<InfoRead, ReadFault>
        ensures later { IsPrefix self.old.seen self.new.seen }
        ensures made { (self.new.client ≡ self.old.client) × (self.new.number ≡ self.old.number)
            × (made self.new ≡ made self.old) }
        ensures legal { OnOk result (IsLegal M.limits.clients M.limits.comms self.new.seen) }
        ensures front { IfOk result (λ r. r.front ≡ length self.new.seen) }
        ensures answer { IfOk result (λ r.
            r.comms ≡ infos (replay M.limits.comms self.new.seen)
            (option_map (λ t. t.now) target.entry)) }
        ensures none { IsErrOf result fault.NoVersion → self.new ≡ self.old }
    {
        self.reader.read_infos(alloc, target)
    }

    /// The state of a comm, after the changes that the client has then seen. It enters no lock. Err: NoVersion leaves
    /// what was seen; Memory may have made it longer.
    pub fn state(&mut self, id: &Text) -> Result<StateRead, ReadFault>
        ensures later { IsPrefix self.old.seen self.new.seen }
        ensures made { (self.new.client ≡ self.old.client) × (self.new.number ≡ self.old.number)
            × (made self.new ≡ made self.old) }
        ensures legal { OnOk result (IsLegal M.limits.clients M.limits.comms self.new.seen) }
        ensures front { IfOk result (λ r. r.front ≡ length self.new.seen) }
        ensures answer { IfOk result (λ r.
            r.answer ≡ state_of (replay M.limits.comms self.new.seen) id.now) }
        ensures none { IsErrOf result fault.NoVersion → self.new ≡ self.old }
    {
        self.reader.read_state(id)
    }
}
