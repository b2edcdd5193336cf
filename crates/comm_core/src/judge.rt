//! What a call comes to that asks no target.
ghost use Rattle.std.specs.Prelude.{◌≡◌, ℕ, IfOk, None, map};
ghost use Rattle.comm_messages.specs.declared.outgoing.Outgoing.TheVariants as out;
ghost use Rattle.comm_core.specs.Machine.{ids_of};
ghost use Rattle.comm_core.specs.Step.{Done, judged};
ghost use Rattle.comm_core.specs.Tables.{Targets, machine_of};
ghost use Rattle.comm_core.specs.Plans.{planned, registering, IsFeasible, HasVerdict};
ghost use Rattle.comm_core.specs.declared.call.Call.TheVariants as call;

use crate::comms::Comms;
use crate::evaluation::Evaluation;
use crate::ids::Ids;
use crate::outgoing::{close_message, close_messages, one};
use crate::reply::Reply;
use crate::table_update::TableUpdate;
use crate::target_table::TargetTable;
use comm_messages::{Body, Outgoing, OutgoingBody};
use comm_targets::{Kind, Target};
use comm_value::Text;
use std::alloc::{AllocError, Global};

/// What a close by the frontend comes to.
pub fn judge_close(comms: &Comms, alloc: Global, id: Text) -> Evaluation
    ensures verdict { (limit : ℕ) (targets : Targets)
        → HasVerdict limit targets comms.now.all (call.Close id) result }
    ensures feasible { (targets : Targets) → IsFeasible targets comms.now.all (call.Close id) result }
{
    let Some((place, _)) = comms.find(&id) else {
        return Evaluation::of_reply(alloc, Reply::NoComm);
    };
    let close = TableUpdate::Close { id, place };
    Evaluation::of_no_target(Reply::Closed, Vec::new(alloc), close)
}

/// What an unregister comes to.
pub fn judge_unregister<T: Target>(
    targets: &TargetTable<T>,
    comms: &Comms,
    alloc: Global,
    name: Text,
) -> Result<Evaluation, AllocError>
    ensures verdict { (limit : ℕ) → IfOk result
        (λ j. HasVerdict limit targets.now.all comms.now.all (call.Unregister name) j) }
    ensures feasible { IfOk result
        (λ j. IsFeasible targets.now.all comms.now.all (call.Unregister name) j) }
{
    if !targets.contains(&name) {
        return Ok(Evaluation::of_reply(alloc, Reply::NoTarget));
    }
    let (ids, outgoing) = ids_and_closes(comms, alloc, &name)?;
    Ok(Evaluation::of_no_target(
        Reply::Unregistered(ids),
        outgoing,
        TableUpdate::Unregister { name },
    ))
}

/// The comms that are closed where the target of this name ends, and a close of each.
fn ids_and_closes(
    comms: &Comms,
    alloc: Global,
    name: &Text,
) -> Result<(Ids, Vec<Outgoing>), AllocError>
    ensures ids { IfOk result (λ r. r.0 ≡ ids_of name.now comms.now.all) }
    ensures closes { IfOk result (λ r. r.1.items ≡ map out.Close (ids_of name.now comms.now.all)) }
{
    let ids = comms.ids_of(alloc, name)?;
    let outgoing = close_messages(alloc, ids.as_slice())?;
    Ok((ids, outgoing))
}

/// What the register of a target of this kind and with these notes comes to.
pub fn judge_register<T: Target>(
    targets: &TargetTable<T>,
    comms: &Comms,
    alloc: Global,
    name: &Text,
    kind: Kind,
    notes: u64,
) -> Result<(Reply, Vec<Outgoing>, TableUpdate), AllocError>
    ensures verdict { IfOk result (λ r. (limit : ℕ)
        → Done r.0 r.1.items (planned (machine_of targets.now.all comms.now.all) r.2 None)
        ≡ judged limit (machine_of targets.now.all comms.now.all)
        (call.Register name.now kind notes)) }
    ensures table_update { IfOk result (λ r. r.2 ≡ registering targets.now.all name.now kind notes) }
{
    let key = name.copy()?;
    if !targets.contains(name) {
        let table_update = TableUpdate::Register {
            name: key,
            kind,
            notes,
        };
        return Ok((Reply::Registered, Vec::new(alloc), table_update));
    }
    let (ids, outgoing) = ids_and_closes(comms, alloc, name)?;
    let table_update = TableUpdate::Replace {
        name: key,
        kind,
        notes,
    };
    Ok((Reply::Replaced(ids), outgoing, table_update))
}

/// What a send comes to.
pub fn judge_send(
    comms: &Comms,
    alloc: Global,
    id: Text,
    body: Body,
) -> Result<Evaluation, AllocError>
    ensures verdict { (limit : ℕ) (targets : Targets) → IfOk result
        (λ j. HasVerdict limit targets comms.now.all (call.Send id body) j) }
    ensures feasible { (targets : Targets) → IfOk result
        (λ j. IsFeasible targets comms.now.all (call.Send id body) j) }
{
    if !comms.contains(&id) {
        drop(body);
        return Ok(Evaluation::of_reply(alloc, Reply::NoComm));
    }
    let body = OutgoingBody::new(body);
    let outgoing = one(alloc, Outgoing::Msg { id, body })?;
    Ok(Evaluation::of_no_target(Reply::Delivered(None), outgoing, TableUpdate::Nothing))
}

/// What a close by the kernel comes to.
pub fn judge_hang_up(comms: &Comms, alloc: Global, id: Text) -> Result<Evaluation, AllocError>
    ensures verdict { (limit : ℕ) (targets : Targets) → IfOk result
        (λ j. HasVerdict limit targets comms.now.all (call.HangUp id) j) }
    ensures feasible { (targets : Targets) → IfOk result
        (λ j. IsFeasible targets comms.now.all (call.HangUp id) j) }
{
    let Some((place, _)) = comms.find(&id) else {
        return Ok(Evaluation::of_reply(alloc, Reply::NoComm));
    };
    let outgoing = close_message(alloc, &id)?;
    let close = TableUpdate::Close { id, place };
    Ok(Evaluation::of_no_target(Reply::Closed, outgoing, close))
}
