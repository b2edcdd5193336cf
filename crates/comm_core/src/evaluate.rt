//! What a call comes to.
ghost use Rattle.std.specs.Prelude.{◌≡◌, ℕ, List, [], ◌∷◌, IfNone, IfOk, IfSome, OnErr, None};
ghost use Rattle.comm_value.specs.Tree.{Members};
ghost use Rattle.comm_messages.specs.declared.outgoing.Outgoing.TheVariants as out;
ghost use Rattle.comm_targets.specs.declared.event.Event.TheVariants as event;
ghost use Rattle.comm_core.specs.Step.{AskTarget, Done, comm_id, judged};
ghost use Rattle.comm_core.specs.Tables.{Agrees, HaveStaged, machine_of, unstaged};
ghost use Rattle.comm_core.specs.Ready.{HandsNothingIn};
ghost use Rattle.comm_core.specs.Told.{IsTold, asked};
ghost use Rattle.comm_core.specs.Plans.{CanAsk, HasAnswered, HasCome};
ghost use Rattle.comm_core.specs.declared.call.Call.TheVariants as call;
ghost use Rattle.comm_core.specs.declared.reply.Reply.TheVariants as reply;
ghost use Rattle.comm_core.specs.declared.table_update.TableUpdate.TheVariants.{Nothing};

use crate::ask::ask;
use crate::call::Call;
use crate::comm::Comm;
use crate::comms::Comms;
use crate::evaluation::Evaluation;
use crate::judge::{judge_close, judge_hang_up, judge_send, judge_unregister};
use crate::outgoing::{comm_id, one};
use crate::reply::{Refusal, Reply};
use crate::table_update::TableUpdate;
use crate::target_table::TargetTable;
use comm_messages::{Body, Outgoing};
use comm_targets::{Event, Target};
use comm_value::{Dict, Text};
use std::alloc::{AllocError, Global};
use uuid::Uuid;

/// What comes of a call that hands no target in: the first of its tests that holds, or else what it does. What the call
/// has in it goes on to the target, or out.
pub fn evaluate<T: Target>(
    targets: &mut TargetTable<T>,
    comms: &Comms,
    limit: usize,
    alloc: Global,
    call: Call,
) -> Result<Evaluation, AllocError>
    requires none { HaveStaged targets.old.all (λ _. None) }
    requires agrees { Agrees (unstaged targets.old.all) comms.now.all }
    requires call { HandsNothingIn call }
    ensures came { IfOk result (λ r. HasCome limit targets.old.all comms.now.all call
        r.outcome r.reply r.outgoing.items r.table_update targets.new.all) }
    ensures told { IfOk result (λ r. IsTold r.outcome r.outgoing.items) }
    ensures err { OnErr result (targets.new.all ≡ targets.old.all) }
    ensures room { targets.new.room ≡ targets.old.room }
{
    match call {
        Call::Open {
            id,
            target,
            version,
            body,
        } => evaluate_open(targets, comms, limit, alloc, id, target, version, body),
        Call::Msg { id, body } => evaluate_msg(targets, comms, limit, alloc, id, body),
        Call::Close { id } => Ok(judge_close(comms, alloc, id)),
        Call::Unregister { name } => judge_unregister(targets, comms, alloc, name),
        Call::Launch { id, target, state } => {
            evaluate_launch(targets, comms, limit, alloc, id, target, state)
        }
        Call::Push { id, state } => evaluate_push(targets, comms, limit, alloc, id, state),
        Call::Send { id, body } => judge_send(comms, alloc, id, body),
        Call::HangUp { id } => judge_hang_up(comms, alloc, id),
        Call::Register { .. } => unreachable!(),
    }
}

// The reply to an open that is refused before its target is asked.
fn refused_open(alloc: Global, id: Text, why: Refusal) -> Result<Evaluation, AllocError>
    ensures { IfOk result (λ e. (e.outcome ≡ None) × (e.reply ≡ reply.OpenRefused why)
        × (e.outgoing.items ≡ out.Close id ∷ []) × (e.table_update ≡ Nothing)) }
{
    let outgoing = one(alloc, Outgoing::Close { id })?;
    Ok(Evaluation::of_no_target(Reply::OpenRefused(why), outgoing, TableUpdate::Nothing))
}

fn evaluate_open<T: Target>(
    targets: &mut TargetTable<T>,
    comms: &Comms,
    limit: usize,
    alloc: Global,
    id: Text,
    target: Text,
    version: Option<Text>,
    body: Body,
) -> Result<Evaluation, AllocError>
    requires none { HaveStaged targets.old.all (λ _. None) }
    requires agrees { Agrees (unstaged targets.old.all) comms.now.all }
    ensures came { IfOk result (λ r. HasCome limit targets.old.all comms.now.all (call.Open id target version body)
        r.outcome r.reply r.outgoing.items r.table_update targets.new.all) }
    ensures told { IfOk result (λ r. IsTold r.outcome r.outgoing.items) }
    ensures err { OnErr result (targets.new.all ≡ targets.old.all) }
    ensures room { targets.new.room ≡ targets.old.room }
{
    if comms.contains(&id) {
        drop((version, body));
        return Ok(Evaluation::of_reply(alloc, Reply::IdInUse));
    }
    if !targets.contains(&target) {
        drop((version, body));
        return refused_open(alloc, id, Refusal::NoTarget);
    }
    if comms.is_full(limit) {
        drop((version, body));
        return refused_open(alloc, id, Refusal::TooManyComms);
    }
    let event = Event::Open { id, version, body };
    match targets.shared(target) {
        Ok(name) => ask(targets, comms, alloc, name, event, 0, &None),
        Err(fault) => {
            drop(event);
            Err(fault)
        }
    }
}

fn evaluate_msg<T: Target>(
    targets: &mut TargetTable<T>,
    comms: &Comms,
    limit: usize,
    alloc: Global,
    id: Text,
    body: Body,
) -> Result<Evaluation, AllocError>
    requires none { HaveStaged targets.old.all (λ _. None) }
    requires agrees { Agrees (unstaged targets.old.all) comms.now.all }
    ensures came { IfOk result (λ r. HasCome limit targets.old.all comms.now.all (call.Msg id body)
        r.outcome r.reply r.outgoing.items r.table_update targets.new.all) }
    ensures told { IfOk result (λ r. IsTold r.outcome r.outgoing.items) }
    ensures err { OnErr result (targets.new.all ≡ targets.old.all) }
    ensures room { targets.new.room ≡ targets.old.room }
{
    match comms.find(&id) {
        Some((place, comm)) => {
            ask_of_comm(targets, comms, alloc, place, comm, Event::Msg { id, body })
        }
        None => {
            drop(body);
            Ok(Evaluation::of_reply(alloc, Reply::NoComm))
        }
    }
}

// Asks the target of this comm, which stands at this place.
#[inline(always)]
fn ask_of_comm<T: Target>(
    targets: &mut TargetTable<T>,
    comms: &Comms,
    alloc: Global,
    place: usize,
    comm: &Comm,
    event: Event,
) -> Result<Evaluation, AllocError>
    requires none { HaveStaged targets.old.all (λ _. None) }
    requires agrees { Agrees (unstaged targets.old.all) comms.now.all }
    requires asked { CanAsk targets.old.all comms.now.all
        (asked comm.now.target comm.now.state event) }
    ensures came { IfOk result (λ r. HasAnswered targets.old.all comms.now.all
        (asked comm.now.target comm.now.state event)
        r.outcome r.reply r.outgoing.items r.table_update targets.new.all) }
    ensures told { IfOk result (λ r. IsTold r.outcome r.outgoing.items) }
    ensures err { OnErr result (targets.new.all ≡ targets.old.all) }
    ensures room { targets.new.room ≡ targets.old.room }
{
    match comm.target.copy() {
        Ok(name) => ask(targets, comms, alloc, name, event, place, &comm.state),
        Err(fault) => {
            drop(event);
            Err(fault)
        }
    }
}

fn evaluate_launch<T: Target>(
    targets: &mut TargetTable<T>,
    comms: &Comms,
    limit: usize,
    alloc: Global,
    id: Uuid,
    target: Text,
    state: Dict,
) -> Result<Evaluation, AllocError>
    requires none { HaveStaged targets.old.all (λ _. None) }
    requires agrees { Agrees (unstaged targets.old.all) comms.now.all }
    ensures came { IfOk result (λ r. HasCome limit targets.old.all comms.now.all (call.Launch id target state)
        r.outcome r.reply r.outgoing.items r.table_update targets.new.all) }
    ensures told { IfOk result (λ r. IsTold r.outcome r.outgoing.items) }
    ensures err { OnErr result (targets.new.all ≡ targets.old.all) }
    ensures room { targets.new.room ≡ targets.old.room }
{
    let Ok((id, target)) = launch_names(targets, alloc, &id, target) else {
        drop(state);
        return Err(AllocError);
    };
    match launch_refusal(targets, comms, limit, &id, &target) {
        Some(reply) => {
            drop(state);
            Ok(Evaluation::of_reply(alloc, reply))
        }
        None => ask(
            targets,
            comms,
            alloc,
            target,
            Event::Launch { id, state },
            0,
            &None,
        ),
    }
}

// The comm's id, and the target's name, which shares the memory of the target's own.
fn launch_names<T: Target>(
    targets: &TargetTable<T>,
    alloc: Global,
    id: &Uuid,
    target: Text,
) -> Result<(Text, Text), AllocError>
    ensures { IfOk result (λ r. r ≡ (comm_id id.now, target)) }
{
    let id = comm_id(alloc, id)?;
    let target = targets.shared(target)?;
    Ok((id, target))
}

// Why a launch of this comm is refused, if it is.
fn launch_refusal<T: Target>(
    targets: &TargetTable<T>,
    comms: &Comms,
    limit: usize,
    id: &Text,
    target: &Text,
) -> Option<Reply>
    ensures refused { IfSome result (λ r. (uuid : List ℕ) (state : Members) → id.now ≡ comm_id uuid
        → judged limit (machine_of targets.now.all comms.now.all)
        (call.Launch uuid target.now state)
        ≡ Done r [] (machine_of targets.now.all comms.now.all)) }
    ensures asked { IfNone result ((uuid : List ℕ) (state : Members) → id.now ≡ comm_id uuid
        → judged limit (machine_of targets.now.all comms.now.all)
        (call.Launch uuid target.now state)
        ≡ AskTarget (asked target.now None (event.Launch id.now state))) }
    ensures feasible { IfNone result ((state : Members) → CanAsk targets.now.all comms.now.all
        (asked target.now None (event.Launch id.now state))) }
{
    if comms.contains(id) {
        return Some(Reply::IdInUse);
    }
    if !targets.contains(target) {
        return Some(Reply::NoTarget);
    }
    if !targets.has_widget(target) {
        return Some(Reply::NotWidget);
    }
    if comms.is_full(limit) {
        return Some(Reply::OpenRefused(Refusal::TooManyComms));
    }
    None
}

fn evaluate_push<T: Target>(
    targets: &mut TargetTable<T>,
    comms: &Comms,
    limit: usize,
    alloc: Global,
    id: Text,
    state: Dict,
) -> Result<Evaluation, AllocError>
    requires none { HaveStaged targets.old.all (λ _. None) }
    requires agrees { Agrees (unstaged targets.old.all) comms.now.all }
    ensures came { IfOk result (λ r. HasCome limit targets.old.all comms.now.all (call.Push id state)
        r.outcome r.reply r.outgoing.items r.table_update targets.new.all) }
    ensures told { IfOk result (λ r. IsTold r.outcome r.outgoing.items) }
    ensures err { OnErr result (targets.new.all ≡ targets.old.all) }
    ensures room { targets.new.room ≡ targets.old.room }
{
    let Some((place, comm)) = comms.find(&id) else {
        drop(state);
        return Ok(Evaluation::of_reply(alloc, Reply::NoComm));
    };
    if !targets.has_widget(&comm.target) {
        drop(state);
        return Ok(Evaluation::of_reply(alloc, Reply::NotWidget));
    }
    ask_of_comm(
        targets,
        comms,
        alloc,
        place,
        comm,
        Event::Push { id, state },
    )
}
