//! A change whose entry was made before it is committed, so that what goes out is moved and not copied.
ghost use Rattle.std.specs.Prelude.{◌≡◌, true, IfOk, IfErr, OnOk, OnErr, None, Some, option_map};
ghost use Rattle.std.specs.Arc.{arc_value};
ghost use Rattle.comm_targets.specs.Meaning.{IsIdle};
ghost use Rattle.comm_core.specs.Evaluated.{evaluated};
ghost use Rattle.comm_core.specs.Planned.{updated_row};
ghost use Rattle.comm_core.specs.Ready.{HandsNothingIn, IsReady, IsStep, machine, register_of, row_at, undone};
ghost use Rattle.comm_core.specs.Ready.{HasAllowedOutcome, HasStagedAnswer, MakesItsStep};
ghost use Rattle.comm_core.specs.Tables.{TargetsMean, IdleWhere, ended_of};
ghost use Rattle.comm_core.specs.declared.entry.Entry.TheVariants.{Change};

use crate::apply::apply;
use crate::call::Call;
use crate::entry::{Entry, Outgoings};
use crate::evaluation::Evaluation;
use crate::kept_answer::StagedAnswer;
use crate::manager::Core;
use crate::prepared_change::{PreparedChange, Ready};
use crate::reply::Reply;
use crate::row::{Row, updated_row};
use crate::table_update::TableUpdate;
use comm_messages::Outgoing;
use comm_targets::{Held, Target};
use comm_value::Text;
use std::alloc::{AllocError, Global};
use std::marker::Model;
use std::snapshot::Snapshot;
use std::sync::Arc;

/// A change that stands ready, as a `PreparedChange`, whose entry was made: what goes out is in the entry, and here
/// contracts alone see it.
///
/// `Core::record` and `Core::record_register` give it, `Core::commit_recorded` or `Core::abort_recorded` takes it.
#[must_use]
pub struct RecordedChange<T: Target> {
    call: Snapshot<Call>,
    outcome: StagedAnswer,
    reply: Reply,
    outgoing: Snapshot<Vec<Outgoing>>,
    table_update: TableUpdate,
    registered: Option<T>,
}

impl<T: Target> Model for RecordedChange<T> {
    ghost use Rattle.std.specs.Prelude.{option_map};
    ghost use Rattle.comm_core.specs.Ready.{Readied, readied};
    ghost use Rattle.comm_core.specs.ReadyCode.{readied_code};

    ghost Value = { Readied };

    ghost coded = { readied_code };

    ghost view = { λ e. readied e.call.value e.outcome e.reply e.outgoing.value.items e.table_update
        (option_map T.means e.registered) };
}

/// A change that stands ready, its entry in a history, and what that changes in the comms that readers see.
#[must_use]
pub struct Recording<T: Target> {
    pub change: RecordedChange<T>,
    pub entry: Arc<Entry, Global>,
    pub row: Row,
}

// The change that comes of a call with its entry, into which the call moves, and what the target gave and what goes
// out. Err: memory, with what has to be taken back.
#[inline(always)]
fn record_of<T: Target>(
    alloc: Global,
    client: u8,
    number: u64,
    call: Call,
    evaluation: Evaluation,
    registered: Option<T>,
) -> Result<Recording<T>, (TableUpdate, Option<T>)>
    ensures change { IfOk result (λ r.
        r.change ≡ evaluated call evaluation (option_map T.means registered)) }
    ensures entry { IfOk result (λ r. arc_value r.entry ≡ Change client number
        call evaluation.outcome evaluation.reply evaluation.outgoing.items) }
    ensures row { IfOk result (λ r. r.row ≡ updated_row evaluation.table_update evaluation.outcome
        call evaluation.reply) }
    ensures err { IfErr result (λ e. (e.0 ≡ evaluation.table_update)
        × (option_map T.means e.1 ≡ option_map T.means registered)) }
{
    let Evaluation {
        outcome,
        reply,
        outgoing,
        table_update,
    } = evaluation;
    let seen = Snapshot::of(&call);
    let sent = Snapshot::of(&outgoing);
    let Ok(row) = updated_row(alloc, &table_update, &outcome, &call, &reply) else {
        drop((call, outcome, reply, outgoing));
        return Err((table_update, registered));
    };
    let (Ok(staged), Ok(copy)) = (StagedAnswer::of(&outcome), reply.copy(alloc)) else {
        drop((call, outcome, reply, outgoing, row));
        return Err((table_update, registered));
    };
    let entry = Entry::Change {
        client,
        number,
        call,
        outcome,
        reply: copy,
        outgoing: Outgoings::new(outgoing),
    };
    let Ok(entry) = Arc::new(alloc, entry) else {
        drop((staged, reply, row));
        return Err((table_update, registered));
    };
    let change = RecordedChange {
        call: seen,
        outcome: staged,
        reply,
        outgoing: sent,
        table_update,
        registered,
    };
    Ok(Recording { change, entry, row })
}

impl<T: Target> Core<T> {
    /// Prepares a call that hands no target in, as `prepare` does, and makes its entry, by the client and the call's
    /// number among that client's calls. Err: memory; everything is as it was.
    #[inline(always)]
    pub fn record(
        &mut self,
        client: u8,
        number: u64,
        call: Call,
    ) -> Result<Recording<T>, AllocError>
        requires settled { self.old.settled ≡ true }
        requires call { HandsNothingIn call }
        ensures ready { IfOk result (λ r. IsReady self.new r.change) }
        ensures call { IfOk result (λ r. r.change.call ≡ call) }
        ensures allowed { IfOk result (λ r. HasAllowedOutcome self.old r.change) }
        ensures staged { IfOk result (λ r.
            HasStagedAnswer self.old self.new.targets r.change) }
        ensures step { IfOk result (λ r. MakesItsStep self.old r.change) }
        ensures registered { IfOk result (λ r. r.change.registered ≡ None) }
        ensures entry { IfOk result (λ r. arc_value r.entry ≡ Change client number
            call r.change.outcome r.change.reply r.change.outgoing) }
        ensures row { IfOk result (λ r. r.row ≡ row_at self.new r.change) }
        ensures machine { OnOk result (machine self.new ≡ machine self.old) }
        ensures limit { self.new.limit ≡ self.old.limit }
        ensures undone { OnOk result (undone self.new ≡ self.old) }
        ensures err { OnErr result (self.new ≡ self.old) }
    {
        let Ok(kept) = call.copy(self.alloc) else {
            drop(call);
            return Err(AllocError);
        };
        let Ok(evaluation) = self.ready(call) else {
            drop(kept);
            return Err(AllocError);
        };
        match record_of(self.alloc, client, number, kept, evaluation, None) {
            Ok(recording) => Ok(recording),
            Err((table_update, _none)) => {
                self.take_back(&table_update);
                Err(AllocError)
            }
        }
    }

    /// Prepares the registration of a target, as `begin_register` does, and makes its entry. Err: memory, with the
    /// target back; everything is as it was.
    pub fn record_register(
        &mut self,
        client: u8,
        number: u64,
        name: Text,
        registered: T,
    ) -> Result<Recording<T>, (AllocError, T)>
        requires settled { self.old.settled ≡ true }
        requires idle { IsIdle (T.means registered) }
        ensures ready { IfOk result (λ r. IsReady self.new r.change) }
        ensures call { IfOk result (λ r. r.change.call ≡ register_of name (T.means registered)) }
        ensures allowed { IfOk result (λ r. HasAllowedOutcome self.old r.change) }
        ensures registered { IfOk result (λ r. r.change.registered ≡ Some (T.means registered)) }
        ensures entry { IfOk result (λ r. arc_value r.entry ≡ Change client number
            (register_of name (T.means registered))
            r.change.outcome r.change.reply r.change.outgoing) }
        ensures row { IfOk result (λ r. r.row ≡ row_at self.new r.change) }
        ensures machine { OnOk result (machine self.new ≡ machine self.old) }
        ensures limit { self.new.limit ≡ self.old.limit }
        ensures undone { OnOk result (undone self.new ≡ self.old) }
        ensures err { OnErr result (self.new ≡ self.old) }
        ensures back { IfErr result (λ e. T.means e.1 ≡ T.means registered) }
    {
        let Ready { call, prepared } = self.begin_register(name, registered)?;
        let PreparedChange {
            call: _,
            outcome,
            reply,
            outgoing,
            table_update,
            registered,
        } = prepared;
        let evaluation = Evaluation {
            outcome,
            reply,
            outgoing,
            table_update,
        };
        match record_of(self.alloc, client, number, call, evaluation, registered) {
            Ok(recording) => Ok(recording),
            Err((table_update, back)) => {
                self.take_back(&table_update);
                match back {
                    Some(registered) => Err((AllocError, registered)),
                    None => unreachable!(),
                }
            }
        }
    }

    /// Makes the change that stands ready, and gives its reply, with a target that it took out or replaced, whose comms
    /// are closed, and which has to be ended. It takes no memory and can't fail.
    #[inline(always)]
    pub fn commit_recorded(&mut self, change: RecordedChange<T>) -> (Reply, Option<Held<T>>)
        requires ready { IsReady self.old change }
        ensures step { IsStep self.old change.call change.outcome
            result.0 change.outgoing self.new }
        ensures reply { result.0 ≡ change.reply }
        ensures settled { self.new.settled ≡ true }
        ensures means { TargetsMean self.new.targets self.new.comms }
        ensures limit { self.new.limit ≡ self.old.limit }
        ensures ended { result.1 ≡ ended_of self.old.targets change.call }
        ensures idle { IdleWhere result.1 }
    {
        let RecordedChange {
            call: _,
            outcome,
            reply,
            outgoing: _,
            table_update,
            registered,
        } = change;
        let ended = apply(
            &mut self.targets,
            &mut self.comms,
            table_update,
            outcome,
            registered,
        );
        self.settled = true;
        (reply, ended)
    }

    /// Takes back what stands ready, as `abort` does: everything is as it was before `record`. It hands back the target
    /// that a register handed in. It takes no memory and can't fail.
    pub fn abort_recorded(&mut self, change: RecordedChange<T>) -> Option<T>
        requires ready { IsReady self.old change }
        ensures undone { self.new ≡ undone self.old }
        ensures registered { option_map T.means result ≡ change.registered }
    {
        let RecordedChange {
            call: _,
            outcome,
            reply,
            outgoing: _,
            table_update,
            registered,
        } = change;
        self.take_back(&table_update);
        drop((outcome, reply, table_update));
        registered
    }
}
