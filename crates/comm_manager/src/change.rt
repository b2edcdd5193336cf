//! One change, in its order.
ghost use Rattle.std.specs.Prelude.{◌≡◌, ◌+◌, ◌<◌, ◌≤◌, ◌^◌, ◌++◌, [], ◌∷◌, length, true, ◌⊎◌, IfOk, IfErr, IfSome};
ghost use Rattle.std.specs.Prelude.{OnErr, OnOk, MatchOption, MatchResult, option_map, slice_index, slice_set};
ghost use mathlib.Core.List.{IsPrefix};
ghost use Rattle.std.specs.Arc.{arc_value};
ghost use Rattle.comm_core.specs.History.{IsLegal, replay};
ghost use Rattle.comm_core.specs.Ready.{HandsNothingIn, IsReady, machine, row_at, undone};
ghost use Rattle.comm_core.specs.Row.{rows, with_row};
ghost use Rattle.comm_core.specs.Tables.{IdleWhere};
ghost use Rattle.comm_targets.specs.Meaning.{IsIdle};
ghost use Rattle.comm_versions.specs.Asked.{ready_entry};
ghost use Rattle.comm_manager.specs.JournalView.{IsShare};
ghost use Rattle.comm_manager.specs.Log.{HasRoom, HasSeenAll, IsAppended, IsCounted, IsStampOf, IsTotal, IsUnchanged};
ghost use Rattle.comm_manager.specs.Log.{LogInvariant, register_call};
ghost use Rattle.comm_manager.specs.UnderLock.{OutboxInvariant};
ghost use Rattle.comm_manager.specs.SeqView.{seq_view};
ghost use Rattle.comm_manager.specs.Why.{IsReason, IsHistoryFirst};

use crate::answered::Answered;
use crate::change_log::ChangeLog;
use crate::journal::HistoryStore;
use crate::ledger::ClientSeq;
use crate::manager_id::ManagerId;
use comm_core::{
    Call, Core, Entry, Limits, Recording, Row, Unavailable, legal_histories_grow, replays_grow,
    rows_are_what_entries_change,
};
use comm_outbox::Outbox;
use comm_targets::{Held, Target};
use comm_value::Text;
use comm_versions::{Change, Stamp, VersionReader, VersionWriter};
use std::alloc::{AllocError, Global};
use std::sync::{Arc, Wait};

/// A change that was made: its answer, and a target that has to be ended.
pub struct AnsweredChange<M: ManagerId, T: Target> {
    pub answered: Answered<M>,
    pub ended: Option<Held<T>>,
}

// Makes the change of this entry and this row pending. Gives what the history keeps of the entry, and the entry once
// more, for the queue. Err: memory; nothing is pending.
fn append<M: ManagerId, S: HistoryStore>(
    writer: &mut VersionWriter<M>,
    entry: Arc<Entry, Global>,
    row: Row,
) -> Result<(Option<Arc<Entry, Global>>, Arc<Entry, Global>), AllocError>
    requires legal { IsLegal M.limits.clients M.limits.comms
        ((writer.old.front ++ writer.old.pending) ++ arc_value entry ∷ []) }
    requires row { with_row row (rows (replay M.limits.comms (writer.old.front ++ writer.old.pending)))
        ≡ rows (replay M.limits.comms
        ((writer.old.front ++ writer.old.pending) ++ arc_value entry ∷ [])) }
    ensures kept { IfOk result (λ r. IsShare S.keeps_entries r.0 (arc_value entry)) }
    ensures sent { IfOk result (λ r. arc_value r.1 ≡ arc_value entry) }
    ensures front { writer.new.front ≡ writer.old.front }
    ensures pending { MatchResult result
        (λ _. writer.new.pending ≡ writer.old.pending ++ arc_value entry ∷ [])
        (λ _. writer.new.pending ≡ writer.old.pending) }
{
    let share = S::share(&entry)?;
    let sent = Arc::try_clone(&entry)?;
    writer.append(Change::new(entry, row))?;
    Ok((share, sent))
}

// Publishes what is pending, and lets the reader hear of it.
fn publish<M: ManagerId, R: Wait>(
    rt: &R,
    writer: &mut VersionWriter<M>,
    reader: &mut VersionReader<M>,
) -> Stamp<M>
    requires room { length writer.old.front + length writer.old.pending ≤ 4294967296 }
    ensures stamp { result ≡ writer.old.front ++ writer.old.pending }
    ensures front { writer.new.front ≡ writer.old.front ++ writer.old.pending }
    ensures pending { writer.new.pending ≡ [] }
    ensures one { (reader.new ≡ reader.old) ⊎ (reader.new ≡ result) }
    ensures own { IsPrefix reader.old reader.new }
    ensures heard { IsPrefix result reader.new }
{
    writer.publish(rt);
    let stamp = writer.stamp();
    reader.hear(&stamp);
    stamp
}

// Why no change can be made now, if so. Else a place of the queue was found free, and one more.
fn check_room<M: ManagerId, R: Wait>(
    rt: &R,
    limits: &Limits,
    made: usize,
    writer: &VersionWriter<M>,
    outbox: &mut Outbox,
) -> Option<Unavailable<Stamp<M>>>
    requires limits { limits.now ≡ M.limits }
    requires made { made ≡ length writer.now.front }
    requires few { made ≤ M.limits.history }
    requires puts { OutboxInvariant M.queue M.limits writer.now.front outbox.old }
    ensures why { MatchOption result ((length writer.now.front < M.limits.history)
        × (2 ≤ outbox.new.room)) (λ e. IsReason M.limits e) }
    ensures first { IfSome result (λ e. IsHistoryFirst M.limits writer.now.front e) }
    ensures puts { OutboxInvariant M.queue M.limits writer.now.front outbox.new }
{
    if made as u64 >= limits.history {
        return Some(Unavailable::HistoryFull(writer.stamp()));
    }
    let waiting = outbox.waiting(rt);
    if waiting >= limits.outbox as u64 {
        return Some(Unavailable::OutboxFull(waiting));
    }
    None
}

// Goes on where the reader has seen no more than so many entries, as each has. It doesn't return otherwise: by no
// contract of the versions could a reader have seen more than is published, but none says so before the history has
// ended.
fn check_seen<M: ManagerId, R: Wait>(rt: &R, reader: &VersionReader<M>, made: usize)
    ensures { length reader.now ≤ made }
{
    if reader.seen() <= made as u64 {
        return;
    }
    for _ in rt.forever() {}
    unreachable!()
}

// Whether a change may be made: there is room for it in the history and in the queue, and in the latter for an end
// besides. The client made as many changes as the totals say, and has seen no more than there is.
fn reserve<M: ManagerId, S: HistoryStore, R: Wait>(
    rt: &R,
    log: &mut ChangeLog<M, S>,
    reader: &VersionReader<M>,
    seq: &mut ClientSeq<M>,
) -> Result<(), Unavailable<Stamp<M>>>
    requires limits { log.old.limits ≡ M.limits }
    requires front { log.old.writer.front ≡ log.old.journal.all }
    requires few { length log.old.journal.all ≤ M.limits.history }
    requires puts { OutboxInvariant M.queue M.limits log.old.journal.all log.old.outbox }
    ensures history { log.new.journal.all ≡ log.old.journal.all }
    ensures limits { log.new.limits ≡ log.old.limits }
    ensures writer { log.new.writer ≡ log.old.writer }
    ensures puts { OutboxInvariant M.queue M.limits log.old.journal.all log.new.outbox }
    ensures same { (log.new.totals ≡ log.old.totals) × (seq.new ≡ seq.old) }
    ensures room { OnOk result (HasRoom M.limits log.new) }
    ensures known { OnOk result (IsTotal log.old seq.old) }
    ensures seen { OnOk result (length reader.now ≤ length log.old.journal.all) }
    ensures why { IfErr result (λ e. IsReason M.limits e) }
    ensures first { IfErr result (λ e. IsHistoryFirst M.limits log.old.journal.all e) }
{
    let made = log.journal.len();
    if let Some(why) = check_room(rt, &log.limits, made, &log.writer, &mut log.outbox) {
        return Err(why);
    }
    if log.journal.reserve().is_err() {
        return Err(Unavailable::Memory);
    }
    check_seen(rt, reader, made);
    log.totals.check(seq);
    Ok(())
}

// Completes a change whose entry is pending: it is published, its client hears of it, the entry is appended to the
// history, and it goes out. Gives the place of the entry, from 1, and the stamp. Nothing here takes memory or can fail.
fn complete<M: ManagerId, S: HistoryStore, R: Wait>(
    rt: &R,
    log: &mut ChangeLog<M, S>,
    reader: &mut VersionReader<M>,
    seq: &mut ClientSeq<M>,
    share: Option<Arc<Entry, Global>>,
    sent: Arc<Entry, Global>,
) -> (u64, Stamp<M>)
    requires room { (log.old.journal.room ≡ true) × (2 ≤ log.old.outbox.room) }
    requires puts { OutboxInvariant M.queue M.limits log.old.journal.all log.old.outbox }
    requires kept { IsShare S.keeps_entries share (arc_value sent) }
    requires front { log.old.writer.front ≡ log.old.journal.all }
    requires pending { log.old.writer.pending ≡ arc_value sent ∷ [] }
    requires few { length log.old.journal.all < 4294967296 }
    requires number { seq.old.number < 2 ^ 62 }
    requires seen { length reader.old ≤ length log.old.journal.all }
    ensures history { log.new.journal.all ≡ log.old.journal.all ++ arc_value sent ∷ [] }
    ensures limits { log.new.limits ≡ log.old.limits }
    ensures front { (log.new.writer.front ≡ log.new.journal.all) × (log.new.writer.pending ≡ []) }
    ensures stamp { IsStampOf log.new result.0 result.1 }
    ensures seen { HasSeenAll log.old log.new reader.old reader.new }
    ensures puts { OutboxInvariant M.queue M.limits log.new.journal.all log.new.outbox }
    ensures totals { log.new.totals ≡ slice_set log.old.totals seq.old.client (seq.old.number + 1) }
    ensures seq { seq.new ≡ seq_view seq.old.client (seq.old.number + 1) }
{
    let stamp = publish(rt, &mut log.writer, reader);
    log.journal.add(share, stamp.copy());
    log.outbox.put(rt, sent);
    log.totals.increment(seq);
    (stamp.number(), stamp)
}

// The number of the client's next change.
fn next_number<M: ManagerId>(seq: &ClientSeq<M>) -> u64
    requires { seq.now.number < 2 ^ 62 }
    ensures { result ≡ seq.now.number + 1 }
{
    seq.number() + 1
}

// Makes the change that was recorded by the client's next number, and for which there is room: its entry is made
// pending, the change is made, its entry is published, heard by its client, appended, and put into the queue. Err:
// memory; the change is taken back, and the target that a register handed in is given back.
#[inline(always)]
fn carry_out<M: ManagerId, T: Target, S: HistoryStore, R: Wait>(
    rt: &R,
    core: &mut Core<T>,
    log: &mut ChangeLog<M, S>,
    reader: &mut VersionReader<M>,
    seq: &mut ClientSeq<M>,
    recording: Recording<T>,
) -> Result<AnsweredChange<M, T>, Option<T>>
    requires kept { LogInvariant M.queue M.limits log.old (undone core.old) }
    requires same { machine core.old ≡ machine (undone core.old) }
    requires ready { IsReady core.old recording.change }
    requires entry { arc_value recording.entry
        ≡ ready_entry seq.old.client (seq.old.number + 1) recording.change }
    requires row { recording.row ≡ row_at core.old recording.change }
    requires room { HasRoom M.limits log.old }
    requires known { IsTotal log.old seq.old }
    requires seen { length reader.old ≤ length log.old.journal.all }
    requires below { seq.old.client < M.limits.clients }
    ensures kept { OnOk result (LogInvariant M.queue M.limits log.new core.new) }
    ensures next { IfOk result (λ m.
        IsAppended log.old log.new seq.old recording.change.call m.answered.reply) }
    ensures stamp { IfOk result (λ m. IsStampOf log.new m.answered.number m.answered.stamp) }
    ensures seen { OnOk result (HasSeenAll log.old log.new reader.old reader.new) }
    ensures seq { OnOk result (IsCounted log.old seq.old seq.new) }
    ensures idle { IfOk result (λ m. IdleWhere m.ended) }
    ensures err { OnErr result (LogInvariant M.queue M.limits log.new core.new
        × IsUnchanged log.old log.new seq.old seq.new reader.old reader.new) }
    ensures back { IfErr result (λ t. option_map T.means t ≡ recording.change.registered) }
{
    replays_grow();
    legal_histories_grow();
    rows_are_what_entries_change();
    let Recording { change, entry, row } = recording;
    match append::<M, S>(&mut log.writer, entry, row) {
        Ok((share, sent)) => {
            let (reply, ended) = core.commit_recorded(change);
            let (number, stamp) = complete(rt, log, reader, seq, share, sent);
            Ok(AnsweredChange {
                answered: Answered {
                    number,
                    reply,
                    stamp,
                },
                ended,
            })
        }
        Err(_) => Err(core.abort_recorded(change)),
    }
}

/// Makes one change of a client that hands no target in, in this order: room in the history and in the queue; the call
/// is prepared, and its entry is made, and made pending; the change is made; its entry is published, heard by its
/// client, appended, and put into the queue. Err: the change wasn't made, and all is as it was.
pub fn ask<M: ManagerId, T: Target, S: HistoryStore, R: Wait>(
    rt: &R,
    core: &mut Core<T>,
    log: &mut ChangeLog<M, S>,
    reader: &mut VersionReader<M>,
    seq: &mut ClientSeq<M>,
    call: Call,
) -> Result<AnsweredChange<M, T>, Unavailable<Stamp<M>>>
    requires kept { LogInvariant M.queue M.limits log.old core.old }
    requires below { seq.old.client < M.limits.clients }
    requires call { HandsNothingIn call }
    ensures kept { LogInvariant M.queue M.limits log.new core.new }
    ensures next { IfOk result (λ m. IsAppended log.old log.new seq.old call m.answered.reply) }
    ensures stamp { IfOk result (λ m. IsStampOf log.new m.answered.number m.answered.stamp) }
    ensures seen { IfOk result (λ m. HasSeenAll log.old log.new reader.old reader.new) }
    ensures seq { OnOk result (IsCounted log.old seq.old seq.new) }
    ensures idle { IfOk result (λ m. IdleWhere m.ended) }
    ensures err { OnErr result (IsUnchanged log.old log.new seq.old seq.new reader.old reader.new) }
    ensures why { IfErr result (λ e. IsReason M.limits e) }
    ensures first { IfErr result (λ e. IsHistoryFirst M.limits log.old.journal.all e) }
{
    if let Err(why) = reserve(rt, log, reader, seq) {
        drop(call);
        return Err(why);
    }
    let Ok(recording) = core.record(seq.client(), next_number(seq), call) else {
        return Err(Unavailable::Memory);
    };
    match carry_out(rt, core, log, reader, seq, recording) {
        Ok(made) => Ok(made),
        Err(_none) => Err(Unavailable::Memory),
    }
}

/// Registers a target, in the same order. Err: the change wasn't made, all is as it was, and the target comes back.
pub fn register<M: ManagerId, T: Target, S: HistoryStore, R: Wait>(
    rt: &R,
    core: &mut Core<T>,
    log: &mut ChangeLog<M, S>,
    reader: &mut VersionReader<M>,
    seq: &mut ClientSeq<M>,
    name: Text,
    boxed: T,
) -> Result<AnsweredChange<M, T>, (Unavailable<Stamp<M>>, T)>
    requires kept { LogInvariant M.queue M.limits log.old core.old }
    requires below { seq.old.client < M.limits.clients }
    requires idle { IsIdle (T.means boxed) }
    ensures kept { LogInvariant M.queue M.limits log.new core.new }
    ensures next { IfOk result (λ m.
        IsAppended log.old log.new seq.old (register_call name (T.means boxed)) m.answered.reply) }
    ensures stamp { IfOk result (λ m. IsStampOf log.new m.answered.number m.answered.stamp) }
    ensures seen { IfOk result (λ m. HasSeenAll log.old log.new reader.old reader.new) }
    ensures seq { OnOk result (IsCounted log.old seq.old seq.new) }
    ensures idle { IfOk result (λ m. IdleWhere m.ended) }
    ensures err { OnErr result (IsUnchanged log.old log.new seq.old seq.new reader.old reader.new) }
    ensures why { IfErr result (λ e. IsReason M.limits e.0) }
    ensures first { IfErr result (λ e. IsHistoryFirst M.limits log.old.journal.all e.0) }
    ensures boxed { IfErr result (λ e. T.means e.1 ≡ T.means boxed) }
{
    if let Err(why) = reserve(rt, log, reader, seq) {
        drop(name);
        return Err((why, boxed));
    }
    let recording = match core.record_register(seq.client(), next_number(seq), name, boxed) {
        Ok(recording) => recording,
        Err((_, boxed)) => return Err((Unavailable::Memory, boxed)),
    };
    match carry_out(rt, core, log, reader, seq, recording) {
        Ok(made) => Ok(made),
        Err(Some(boxed)) => Err((Unavailable::Memory, boxed)),
        Err(None) => unreachable!(),
    }
}
