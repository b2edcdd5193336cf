//! What a target answers, and what that comes to.
ghost use Rattle.std.specs.Prelude.{◌≡◌, ℕ, Bool, IfOk, OnErr, None, Some, option_map};
ghost use Rattle.comm_targets.specs.declared.event.Event.{Event};
ghost use Rattle.comm_targets.specs.declared.answer.Answer.{Answer};
ghost use Rattle.comm_core.specs.Machine.{Machine};
ghost use Rattle.comm_core.specs.Step.{answer_step, refusal_step};
ghost use Rattle.comm_core.specs.Tables.{machine_of, Agrees, HaveStaged, unstaged};
ghost use Rattle.comm_core.specs.Told.{IsTold, asked};
ghost use Rattle.comm_core.specs.Plans.{CanAsk, CanRefuse, GivesReply, HasAnswered, is_memory};

use crate::comms::Comms;
use crate::evaluation::Evaluation;
use crate::kept_answer::KeptAnswer;
use crate::outgoing::{close_message, messages_of, open_message};
use crate::reply::{Refusal, Reply};
use crate::staged_request::StagedRequest;
use crate::table_update::TableUpdate;
use crate::target_table::TargetTable;
use comm_messages::Outgoing;
use comm_targets::{Bodies, Event, SharedCustom, Target, TargetFault};
use comm_value::{Dict, Text};
use std::alloc::{AllocError, Global};

/// Asks the target of this name about a comm, which has this state, and stands at this place.
pub fn ask<T: Target>(
    targets: &mut TargetTable<T>,
    comms: &Comms,
    alloc: Global,
    name: Text,
    event: Event,
    place: usize,
    state: &Option<Dict>,
) -> Result<Evaluation, AllocError>
    requires none { HaveStaged targets.old.all (λ _. None) }
    requires agrees { Agrees (unstaged targets.old.all) comms.now.all }
    requires asked { CanAsk targets.old.all comms.now.all (asked name state.now event) }
    ensures came { IfOk result (λ r. HasAnswered targets.old.all comms.now.all
        (asked name state.now event)
        r.outcome r.reply r.outgoing.items r.table_update targets.new.all) }
    ensures told { IfOk result (λ r. IsTold r.outcome r.outgoing.items) }
    ensures err { OnErr result (targets.new.all ≡ targets.old.all) }
    ensures room { targets.new.room ≡ targets.old.room }
{
    match targets.prepare(&name, &event, state.as_ref()) {
        Ok(answer) => {
            let (kept, messages) = KeptAnswer::take(answer);
            match answer_step(alloc, &name, &event, messages, &kept.custom) {
                Ok((reply, outgoing)) => Ok(Evaluation {
                    outcome: Some(Ok(kept)),
                    reply,
                    outgoing,
                    table_update: TableUpdate::Commit(StagedRequest::new(
                        name, event, place, state,
                    )),
                }),
                Err(_) => {
                    targets.abandon(&name);
                    drop((name, event, kept));
                    Err(AllocError)
                }
            }
        }
        Err(fault) => {
            drop(name);
            if is_memory(fault) {
                drop(event);
                return Err(AllocError);
            }
            let refusal = refusal_step(alloc, &event, fault);
            drop(event);
            let (reply, outgoing) = refusal?;
            Ok(Evaluation {
                outcome: Some(Err(fault)),
                reply,
                outgoing,
                table_update: TableUpdate::Nothing,
            })
        }
    }
}

/// The reply to an event that the target answers, and what goes out, into which the answer's messages move.
fn answer_step(
    alloc: Global,
    name: &Text,
    event: &Event,
    messages: Bodies,
    custom: &Option<SharedCustom>,
) -> Result<(Reply, Vec<Outgoing>), AllocError>
    ensures { (a : Answer) → messages ≡ a.messages → custom.now ≡ a.custom
        → IfOk result (λ r. (m : Machine) → GivesReply
        (answer_step m name.now event.now a) r.0 r.1.items) }
{
    match event {
        Event::Open { id, .. } => Ok((Reply::Opened, messages_of(alloc, id, messages)?)),
        Event::Msg { id, .. } => {
            let outgoing = messages_of(alloc, id, messages)?;
            let custom = custom_copy(custom)?;
            Ok((Reply::Delivered(custom), outgoing))
        }
        Event::Launch { id, state } => {
            drop(messages);
            Ok((Reply::Launched, open_message(alloc, id, name, state)?))
        }
        Event::Push { id, .. } => {
            Ok((Reply::Delivered(None), messages_of(alloc, id, messages)?))
        }
    }
}

/// What the caller is handed, shared.
pub fn custom_copy(custom: &Option<SharedCustom>) -> Result<Option<SharedCustom>, AllocError>
    ensures { IfOk result (λ c. c ≡ custom.now) }
{
    match custom {
        Some(custom) => Ok(Some(custom.copy()?)),
        None => Ok(None),
    }
}

/// The reply to an event that the target refuses, and what goes out. A widget refuses neither of the kernel's own
/// events.
fn refusal_step(
    alloc: Global,
    event: &Event,
    fault: TargetFault,
) -> Result<(Reply, Vec<Outgoing>), AllocError>
    requires { CanRefuse event.now }
    ensures { IfOk result (λ r. (m : Machine) → refusal_step m event.now fault
        ≡ Some (record { reply = r.0; outgoing = r.1.items; next = m })) }
{
    match event {
        Event::Open { id, .. } => Ok((
            Reply::OpenRefused(Refusal::Fault(fault)),
            close_message(alloc, id)?,
        )),
        Event::Msg { .. } => Ok((Reply::Fault(fault), Vec::new(alloc))),
        Event::Launch { .. } => unreachable!(),
        Event::Push { .. } => unreachable!(),
    }
}

/// Whether the target found no memory.
fn is_memory(fault: TargetFault) -> bool
    ensures { result ≡ is_memory fault }
{
    matches!(fault, TargetFault::Memory)
}
