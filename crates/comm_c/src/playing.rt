//! What a client of a manager that threads share does for what a call asks for. Err: all is as it was.
ghost use Rattle.std.specs.Prelude.{◌≡◌, ◌≢◌, IfErr, IfOk, OnErr, OnOk, length, option_map};
ghost use Rattle.comm_shared.specs.SharedView.{most_changes};
ghost use Rattle.comm_core.specs.Ready.{HandsNothingIn};
ghost use Rattle.comm_script.specs.Command.{HandsNothing};
ghost use Rattle.comm_c.specs.BuiltinTarget.{kind_of};
ghost use Rattle.comm_c.specs.Clients.{ClientAnswers, ClientExecutes, GivesAfter, GivesChange, GivesRegister};
ghost use Rattle.comm_c.specs.Clients.{HasCaughtUp, infos_result, machine_of, state_result};
ghost use Rattle.comm_c.specs.Handles.{IsAllowed, closes_of};

use crate::builtin_target::{BuiltinKind, BuiltinTarget};
use crate::call_result::{CallResult, MadeChange};
use crate::executing::{closes_of, info_reply, target_kind};
use crate::input::Input;
use crate::subject::{Subject, subject_of};
use comm_core::{Call, Outgoings};
use comm_script::{LineFault, Request};
use comm_shared::{ChangeFault, SharedChange, SharedClient, SharedManager};
use comm_value::Text;
use std::alloc::Global;

/// What a call came to, and of a change whether readers see it already.
#[derive(Drop)]
pub struct Played {
    pub call_result: CallResult,
    pub shown: Option<bool>,
}

// What comes of a call that changes nothing.
fn unchanged(call_result: CallResult) -> Played
    ensures { result.call_result ≡ call_result }
{
    Played {
        call_result,
        shown: None,
    }
}

// What comes of a change of this seat.
fn changed(made: SharedChange, client: u8, subject: Subject) -> Played
    ensures { result.call_result ≡ CallResult.Change (record {
      number = made.number;
      client = client;
      call = made.call;
      subject = subject;
      reply = made.reply;
      sent = made.outgoing.items;
    }) }
{
    let SharedChange {
        number,
        call,
        reply,
        outgoing,
        is_shown,
    } = made;
    Played {
        call_result: CallResult::Change(MadeChange {
            number,
            client,
            call,
            subject,
            reply,
            sent: Outgoings::new(outgoing),
        }),
        shown: Some(is_shown),
    }
}

// The change of a call that hands no target in.
fn change(
    alloc: Global,
    manager: &mut SharedManager<BuiltinTarget>,
    client: &mut SharedClient,
    call: Call,
) -> Result<Played, ChangeFault>
    requires same { manager.old.origin ≡ client.old.origin }
    requires call { HandsNothingIn call }
    ensures change { IfOk result (λ p.
        GivesChange client.old client.new manager.old manager.new call p.call_result) }
    ensures origin { client.new.origin ≡ client.old.origin }
    ensures origin_stays { manager.new.origin ≡ manager.old.origin }
    ensures err { OnErr result ((client.new ≡ client.old) × (manager.new ≡ manager.old)) }
    ensures full { IfErr result (λ e. e ≡ ChangeFault.Full
        → length manager.old.entries ≡ most_changes) }
{
    let subject = match subject_of(alloc, manager.core(), &call) {
        Ok(subject) => subject,
        Err(_) => {
            drop(call);
            return Err(ChangeFault::Memory);
        }
    };
    let seat = client.seat();
    match client.change(manager, call) {
        Ok(made) => Ok(changed(made, seat, subject)),
        Err(fault) => {
            drop(subject);
            Err(fault)
        }
    }
}

/// Registers a new target of the kind under the name.
pub fn register(
    alloc: Global,
    manager: &mut SharedManager<BuiltinTarget>,
    client: &mut SharedClient,
    kind: BuiltinKind,
    name: Text,
) -> Result<Played, ChangeFault>
    requires same { manager.old.origin ≡ client.old.origin }
    ensures registers { IfOk result (λ p. GivesRegister client.old client.new manager.old manager.new
        (kind_of kind) name p.call_result) }
    ensures origin { client.new.origin ≡ client.old.origin }
    ensures origin_stays { manager.new.origin ≡ manager.old.origin }
    ensures err { OnErr result ((client.new ≡ client.old) × (manager.new ≡ manager.old)) }
    ensures full { IfErr result (λ e. e ≡ ChangeFault.Full
        → length manager.old.entries ≡ most_changes) }
{
    let subject = match Subject::of_target(&name) {
        Ok(subject) => subject,
        Err(_) => {
            drop(name);
            return Err(ChangeFault::Memory);
        }
    };
    let seat = client.seat();
    match client.register(manager, name, BuiltinTarget::new(alloc, kind)) {
        Ok(made) => Ok(changed(made, seat, subject)),
        Err((fault, target)) => {
            drop(target);
            drop(subject);
            Err(fault)
        }
    }
}

// The client has seen the whole history from now on: so many entries.
fn catch_up(
    manager: &SharedManager<BuiltinTarget>,
    client: &mut SharedClient,
) -> Result<u64, ChangeFault>
    requires same { manager.now.origin ≡ client.old.origin }
    ensures front { IfOk result (λ n. n ≡ length manager.now.entries) }
    ensures caught_up { OnOk result (HasCaughtUp client.old client.new manager.now) }
    ensures origin { client.new.origin ≡ client.old.origin }
    ensures err { OnErr result (client.new ≡ client.old) }
    ensures not_full { IfErr result (λ e. e ≢ ChangeFault.Full) }
{
    let front = manager.front().len();
    if client.catch_up(manager).is_err() {
        return Err(ChangeFault::Stranger);
    }
    Ok(front)
}

// The open comms, of one target's name or of all.
fn infos(
    alloc: Global,
    manager: &SharedManager<BuiltinTarget>,
    client: &mut SharedClient,
    target: Option<&Text>,
) -> Result<Played, ChangeFault>
    requires same { manager.now.origin ≡ client.old.origin }
    ensures infos { IfOk result (λ p. GivesAfter client.old client.new manager.now manager.now
        (infos_result client.old manager.now (option_map (λ t. t.now) target.entry))
        p.call_result) }
    ensures origin { client.new.origin ≡ client.old.origin }
    ensures err { OnErr result (client.new ≡ client.old) }
    ensures not_full { IfErr result (λ e. e ≢ ChangeFault.Full) }
{
    let Ok(comms) = manager.core().infos(target) else {
        return Err(ChangeFault::Memory);
    };
    let Ok(sent) = info_reply(alloc, comms) else {
        return Err(ChangeFault::Memory);
    };
    let seat = client.seat();
    let front = catch_up(manager, client)?;
    Ok(unchanged(CallResult::Infos {
        client: seat,
        front,
        sent,
    }))
}

// The state of a comm.
fn state(
    manager: &SharedManager<BuiltinTarget>,
    client: &mut SharedClient,
    id: &Text,
) -> Result<Played, ChangeFault>
    requires same { manager.now.origin ≡ client.old.origin }
    ensures state { IfOk result (λ p. GivesAfter client.old client.new manager.now manager.now
        (state_result manager.now id.now) p.call_result) }
    ensures origin { client.new.origin ≡ client.old.origin }
    ensures err { OnErr result (client.new ≡ client.old) }
    ensures not_full { IfErr result (λ e. e ≢ ChangeFault.Full) }
{
    let Ok(answer) = manager.core().state(id) else {
        return Err(ChangeFault::Memory);
    };
    let front = catch_up(manager, client)?;
    Ok(unchanged(CallResult::State { front, answer }))
}

// Why the client's call of this number can't be read, with the close that a frontend waits for.
fn bad(
    alloc: Global,
    manager: &SharedManager<BuiltinTarget>,
    client: &mut SharedClient,
    number: u64,
    fault: LineFault,
    opening: Option<Text>,
) -> Result<Played, ChangeFault>
    requires same { manager.now.origin ≡ client.old.origin }
    ensures bad { IfOk result (λ p. GivesAfter client.old client.new manager.now manager.now
        (CallResult.Bad number fault (closes_of (machine_of manager.now) opening))
        p.call_result) }
    ensures origin { client.new.origin ≡ client.old.origin }
    ensures err { OnErr result (client.new ≡ client.old) }
    ensures not_full { IfErr result (λ e. e ≢ ChangeFault.Full) }
{
    let Ok(closes) = closes_of(alloc, manager.core(), opening) else {
        return Err(ChangeFault::Memory);
    };
    catch_up(manager, client)?;
    Ok(unchanged(CallResult::Bad {
        number,
        fault,
        closes,
    }))
}

// Executes a client's request.
fn execute(
    alloc: Global,
    manager: &mut SharedManager<BuiltinTarget>,
    client: &mut SharedClient,
    asked: Request,
) -> Result<Played, ChangeFault>
    requires same { manager.old.origin ≡ client.old.origin }
    requires handless { HandsNothing asked }
    ensures executes { IfOk result (λ p.
        ClientExecutes client.old client.new manager.old manager.new asked p.call_result) }
    ensures origin { client.new.origin ≡ client.old.origin }
    ensures origin_stays { manager.new.origin ≡ manager.old.origin }
    ensures err { OnErr result ((client.new ≡ client.old) × (manager.new ≡ manager.old)) }
    ensures full { IfErr result (λ e. e ≡ ChangeFault.Full
        → length manager.old.entries ≡ most_changes) }
{
    match asked {
        Request::Change(call) => change(alloc, manager, client, call),
        Request::Register { kind, name } => {
            register(alloc, manager, client, target_kind(kind), name)
        }
        Request::Infos { target } => infos(alloc, manager, client, target.as_ref()),
        Request::State { id } => state(manager, client, &id),
    }
}

/// Does what the client's call of this number asks for.
#[tactic(auto, unfolding(crate::specs::Clients::ClientAnswers))]
pub fn play(
    alloc: Global,
    manager: &mut SharedManager<BuiltinTarget>,
    client: &mut SharedClient,
    number: u64,
    input: Input,
) -> Result<Played, ChangeFault>
    requires same { manager.old.origin ≡ client.old.origin }
    requires allowed { IsAllowed input }
    ensures answers { IfOk result (λ p.
        ClientAnswers client.old client.new manager.old manager.new number input p.call_result) }
    ensures origin { client.new.origin ≡ client.old.origin }
    ensures origin_stays { manager.new.origin ≡ manager.old.origin }
    ensures err { OnErr result ((client.new ≡ client.old) × (manager.new ≡ manager.old)) }
    ensures full { IfErr result (λ e. e ≡ ChangeFault.Full
        → length manager.old.entries ≡ most_changes) }
{
    let Input { asked, opening } = input;
    match asked {
        None => {
            catch_up(manager, client)?;
            Ok(unchanged(CallResult::Nothing))
        }
        Some(Ok((_client, request))) => execute(alloc, manager, client, request),
        Some(Err(fault)) => bad(alloc, manager, client, number, fault, opening),
    }
}
