//! What lies under the lock.
ghost use Rattle.std.specs.Prelude.{OnOk, ◌≡◌, ◌+◌, ◌<◌, ◌≤◌, ◌++◌, [], ◌∷◌, length, false, All, IfOk, IfErr, OnErr, true};
ghost use Rattle.std.specs.Prelude.{vec_capacity};
ghost use Rattle.std.specs.Arc.{arc_value};
ghost use Rattle.std.specs.Mem.{manually_drop_value};
ghost use Rattle.comm_core.specs.History.{IsLegal, has_end};
ghost use Rattle.comm_core.specs.Tables.{IdleWhere};
ghost use Rattle.comm_core.specs.Limits.{AreAllowed};
ghost use Rattle.comm_core.specs.Ready.{HandsNothingIn, state};
ghost use Rattle.comm_core.specs.declared.entry.Entry.TheVariants.{End};
ghost use Rattle.comm_core.specs.declared.row.Row.TheVariants as row;
ghost use Rattle.comm_targets.specs.Meaning.{IsIdle};
ghost use Rattle.comm_versions.specs.Asked.{IsNext};
ghost use Rattle.comm_manager.specs.JournalView.{IsShare};
ghost use Rattle.comm_outbox.specs.Sides.{entries_of, new_outbox};
ghost use Rattle.comm_manager.specs.Log.{register_call};
ghost use Rattle.comm_manager.specs.UnderLock.{OutboxInvariant, counts};
ghost use Rattle.comm_versions.specs.Mine.{IsAnswered, IsSettled};
ghost use Rattle.comm_manager.specs.Why.{IsReason, IsHistoryFirst};

use crate::change::{self, AnsweredChange};
use crate::change_log::ChangeLog;
use crate::client::Client;
use crate::journal::{HistoryStore, Journal, KeptHistory};
use crate::ledger::SeqTotals;
use crate::manager_id::ManagerId;
use crate::publisher::Publisher;
use comm_core::{
    Call, Core, Entry, Limits, Row, Unavailable, legal_histories_grow, rows_are_what_entries_change,
};
use comm_outbox::Outbox;
use comm_targets::Target;
use comm_value::Text;
use comm_versions::{Change, Stamp, VersionWriter};
use std::alloc::{AllocError, Global};
use std::marker::Model;
use std::mem::ManuallyDrop;
use std::sync::{Arc, Wait};

/// A one-thread manager with its history, which is published to the readers and goes out through the queue, and how
/// many changes each client made.
///
/// The history is legal, is what is published and what was put into the queue; its replay is the machine of the
/// tables and the targets, and nothing is staged. That is true whenever the lock is got, and is proved again of each
/// call that is made under it.
pub struct Inner<M: ManagerId, T: Target, S: HistoryStore> {
    core: Core<T>,
    // The kit can't prove how the log's writer would be dropped. It never is: `VersionWriter::end` alone ends it.
    log: ManuallyDrop<ChangeLog<M, S>>,
}

impl<M: ManagerId, T: Target, S: HistoryStore> Model for Inner<M, T, S> {
    ghost use Rattle.std.specs.Prelude.{◌≡◌, List};
    ghost use Rattle.comm_core.specs.declared.entry.Entry.{Entry};
    ghost use Rattle.comm_versions.specs.Code.{entries_code};
    ghost use Rattle.std.specs.Mem.{manually_drop_value};
    ghost use Rattle.comm_manager.specs.Log.{LogInvariant};

    ghost Value = { List Entry };

    ghost coded = { entries_code };

    ghost view = { λ s. (manually_drop_value s.log).journal.all };

    ghost invariant = { λ s. LogInvariant M.queue M.limits (manually_drop_value s.log) s.core };
}

impl<M: ManagerId, T: Target, S: HistoryStore> Inner<M, T, S> {
    /// A manager that has made no change.
    pub fn new(
        alloc: Global,
        limits: Limits,
        core: Core<T>,
        writer: VersionWriter<M>,
        outbox: Outbox,
        totals: SeqTotals<M>,
    ) -> Inner<M, T, S>
        requires limits { (limits ≡ M.limits) × AreAllowed limits }
        requires core { core ≡ state limits.comms [] [] true }
        requires writer { (writer.front ≡ []) × (writer.pending ≡ []) }
        requires outbox { outbox
            ≡ new_outbox M.queue limits.clients limits.comms (limits.outbox + 1) }
        requires totals { totals ≡ 0 ∷ 0 ∷ 0 ∷ 0 ∷ [] }
        ensures { result ≡ [] }
    {
        let log = ChangeLog {
            limits,
            journal: Journal::new(alloc, writer.stamp()),
            writer,
            outbox,
            totals,
        };
        Inner {
            core,
            log: wrap_log(log),
        }
    }

    /// How many clients there are.
    pub fn clients(&self) -> u8
        ensures { result ≡ M.limits.clients }
    {
        self.log.limits.clients
    }

    /// Makes one change of a client that hands no target in: one entry more, at the end of the history, which stays
    /// legal, is published and goes out. Err: nothing changed.
    pub fn ask<R: Wait>(
        &mut self,
        rt: &R,
        client: &mut Client<M>,
        call: Call,
    ) -> Result<AnsweredChange<M, T>, Unavailable<Stamp<M>>>
        requires { HandsNothingIn call }
        ensures answered { IfOk result (λ m.
            IsAnswered M.limits client.old client.new call
            m.answered.number m.answered.reply m.answered.stamp) }
        ensures next { IfOk result (λ m.
            IsNext self.old self.new client.old.client
            (client.old.number + 1) call m.answered.reply) }
        ensures history { IfOk result (λ m. self.new ≡ m.answered.stamp) }
        ensures idle { IfOk result (λ m. IdleWhere m.ended) }
        ensures err { OnErr result ((client.new ≡ client.old) × (self.new ≡ self.old)) }
        ensures why { IfErr result (λ e. IsReason M.limits e) }
        ensures first { IfErr result (λ e. IsHistoryFirst M.limits self.old e) }
    {
        change::ask(
            rt,
            &mut self.core,
            &mut *self.log,
            &mut client.reader,
            &mut client.seq,
            call,
        )
    }

    /// Makes the change that registers a target. Err: nothing changed, and the target comes back.
    pub fn register<R: Wait>(
        &mut self,
        rt: &R,
        client: &mut Client<M>,
        name: Text,
        boxed: T,
    ) -> Result<AnsweredChange<M, T>, (Unavailable<Stamp<M>>, T)>
        requires { IsIdle (T.means boxed) }
        ensures answered { IfOk result (λ m.
            IsAnswered M.limits client.old client.new
            (register_call name (T.means boxed))
            m.answered.number m.answered.reply m.answered.stamp) }
        ensures next { IfOk result (λ m.
            IsNext self.old self.new client.old.client (client.old.number + 1)
            (register_call name (T.means boxed)) m.answered.reply) }
        ensures history { IfOk result (λ m. self.new ≡ m.answered.stamp) }
        ensures idle { IfOk result (λ m. IdleWhere m.ended) }
        ensures err { OnErr result ((client.new ≡ client.old) × (self.new ≡ self.old)) }
        ensures why { IfErr result (λ e. IsReason M.limits e.0) }
        ensures first { IfErr result (λ e. IsHistoryFirst M.limits self.old e.0) }
        ensures boxed { IfErr result (λ e. T.means e.1 ≡ T.means boxed) }
    {
        change::register(
            rt,
            &mut self.core,
            &mut *self.log,
            &mut client.reader,
            &mut client.seq,
            name,
            boxed,
        )
    }

    /// Ends the history, and each target after its comms. All that the clients have seen is a prefix of it, it has of
    /// each just what it made, and what the publisher took followed by what it left is all of it. Err: there is no
    /// memory for an end; all is handed back.
    pub fn finish<R: Wait>(
        self,
        rt: &R,
        alloc: Global,
        clients: Vec<Client<M>>,
        publisher: Publisher<M>,
    ) -> Result<Farewell<S>, (Inner<M, T, S>, Vec<Client<M>>, Publisher<M>)>
        ensures history { IfOk result (λ f. S.leaves f.history (self ++ End ∷ [])) }
        ensures legal { OnOk result
            (IsLegal M.limits.clients M.limits.comms (self ++ End ∷ [])) }
        ensures few { length self ≤ M.limits.history }
        ensures settled { OnOk result
            (All (λ w. IsSettled (self ++ End ∷ []) w) clients.items) }
        ensures untaken { IfOk result (λ f.
            publisher ++ entries_of f.untaken.items ≡ self ++ End ∷ []) }
        ensures err { IfErr result (λ e. (e.0 ≡ self) × (e.1 ≡ clients) × (e.2 ≡ publisher)) }
    {
        let Inner { core, log } = self;
        let mut log = ManuallyDrop::into_inner(log);
        match end_history(
            rt,
            alloc,
            &mut log.journal,
            &mut log.writer,
            &mut log.outbox,
            &publisher,
        ) {
            Ok((last, room)) => {
                let ChangeLog {
                    limits: _limits,
                    journal,
                    writer,
                    outbox,
                    mut totals,
                } = log;
                settle_clients(&mut totals, clients, &last);
                writer.end(rt);
                core.stop_all();
                Ok(Farewell {
                    history: journal.end(),
                    untaken: outbox.take_rest(rt, publisher.into_side(), room),
                })
            }
            Err(_) => Err((
                Inner {
                    core,
                    log: wrap_log(log),
                },
                clients,
                publisher,
            )),
        }
    }

    /// Ends each target after its comms, and gives nothing back. It takes no memory.
    pub fn discard<R: Wait>(self, rt: &R) {
        let Inner { core, log } = self;
        let ChangeLog {
            limits: _limits,
            journal: _journal,
            writer,
            outbox: _outbox,
            totals: _totals,
        } = ManuallyDrop::into_inner(log);
        writer.end(rt);
        core.stop_all();
    }
}

// The log isn't dropped from now on. It is the one `unsafe` of this crate.
fn wrap_log<M: ManagerId, S: HistoryStore>(log: ChangeLog<M, S>) -> ManuallyDrop<ChangeLog<M, S>>
    ensures { manually_drop_value result ≡ log }
{
    unsafe { ManuallyDrop::new_unchecked(log) }
}

/// What a manager leaves: its history, all entries or how many there were, an end as the last; and those of them that its
/// publisher hadn't taken.
#[derive(Drop)]
pub struct Farewell<S = KeptHistory> {
    pub history: S,
    pub untaken: Vec<Arc<Entry, Global>>,
}

// The change of an end, what the history keeps of its entry, the entry once more, and an empty list with room for so
// many entries. Err: memory.
fn build_end<S: HistoryStore>(
    alloc: Global,
    count: usize,
) -> Result<
    (
        Change,
        Option<Arc<Entry, Global>>,
        Arc<Entry, Global>,
        Vec<Arc<Entry, Global>>,
    ),
    AllocError,
>
    ensures change { IfOk result (λ r. (arc_value r.0.entry ≡ End) × (r.0.row ≡ row.Clear)) }
    ensures kept { IfOk result (λ r. IsShare S.keeps_entries r.1 End) }
    ensures sent { IfOk result (λ r. arc_value r.2 ≡ End) }
    ensures room { IfOk result (λ r. (r.3.items ≡ []) × (count ≤ vec_capacity r.3)) }
{
    let entry = Arc::new(alloc, Entry::End)?;
    let share = S::share(&entry)?;
    let sent = Arc::try_clone(&entry)?;
    let mut room = Vec::new(alloc);
    room.reserve(count)?;
    Ok((Change::new(entry, Row::Clear), share, sent, room))
}

// Ends the history, publishes that, and lets it go out. Gives the stamp of the end, and a list with room for all that
// the publisher hasn't taken. Err: memory; nothing changed.
fn end_history<M: ManagerId, S: HistoryStore, R: Wait>(
    rt: &R,
    alloc: Global,
    journal: &mut Journal<M, S>,
    writer: &mut VersionWriter<M>,
    outbox: &mut Outbox,
    publisher: &Publisher<M>,
) -> Result<(Stamp<M>, Vec<Arc<Entry, Global>>), AllocError>
    requires front { (writer.old.front ≡ journal.old.all) × (writer.old.pending ≡ []) }
    requires puts { OutboxInvariant M.queue M.limits journal.old.all outbox.old }
    requires legal { IsLegal M.limits.clients M.limits.comms journal.old.all
        × (has_end journal.old.all ≡ false) }
    requires few { length journal.old.all ≤ 4294967295 }
    ensures stamp { IfOk result (λ r.
        (r.0 ≡ journal.old.all ++ End ∷ []) × IsLegal M.limits.clients M.limits.comms r.0) }
    ensures history { IfOk result (λ r. journal.new.all ≡ r.0) }
    ensures puts { IfOk result (λ r. (outbox.new.queue ≡ M.queue) × (outbox.new.puts ≡ r.0)) }
    ensures room { IfOk result (λ r.
        (r.1.items ≡ []) × (length journal.new.all ≤ length publisher.now + vec_capacity r.1)) }
    ensures err { OnErr result ((journal.new.all ≡ journal.old.all) × (writer.new ≡ writer.old)
        × (outbox.new ≡ outbox.old)) }
{
    legal_histories_grow();
    rows_are_what_entries_change();
    journal.reserve()?;
    let all = journal.len() as u64 + 1;
    let left = all.saturating_sub(publisher.taken());
    let (change, share, sent, room) = build_end::<S>(alloc, left as usize)?;
    writer.append(change)?;
    writer.publish(rt);
    let stamp = writer.stamp();
    journal.add(share, stamp.copy());
    outbox.put(rt, sent);
    let _legal = stamp.number();
    Ok((stamp, room))
}

// What each client has seen is a prefix of the history that ended, and it made as many changes as the totals say.
fn settle_clients<M: ManagerId>(totals: &mut SeqTotals<M>, clients: Vec<Client<M>>, last: &Stamp<M>)
    requires ended { has_end last.now ≡ true }
    requires totals { totals.old ≡ counts last.now }
    ensures { All (λ w. IsSettled last.now w) clients.items }
{
    let mut clients = clients;
    while let Some(mut client) = clients.pop() {
        client.settle(totals, last);
    }
}
