//! A client's lines, played by its own thread.
ghost use Rattle.comm_script.specs.Command.{HandsNothing};

use crate::limits::CLIENTS;
use crate::reading::heard;
use crate::script::{ClientScript, ScriptLine};
use crate::shared_state::SharedState;
use crate::transcript::Transcript;
use comm_core::Unavailable;
use comm_manager::{Answered, Client, Manager, ManagerId, Stamp};
use comm_script::{
    LineFault, LineMemory, Request, RunFault, StockKind, append_bad, append_fault, append_reply,
    parse_line,
};
use comm_targets::Target;
use comm_value::{Numbers, Text};
use shared_script::{
    Full, append_full, append_infos_seen, append_state_seen, full_of, register_from_stock,
};
use std::sync::Wait;
use std::thread::yield_now;

// What came of a request.
#[derive(Clone, Copy, PartialEq, Eq)]
enum Attempt {
    Done,
    // A change was answered.
    Changed,
    // Too many entries wait to be taken, and nothing was changed or said.
    Retry,
}

// Says what a client's change came to, and shows its stamp to the others.
fn conclude<M: ManagerId, T: Target, R: Wait>(
    rt: &R,
    shared: &SharedState<M, T>,
    client: u8,
    line: u64,
    made: Result<Answered<M>, Unavailable<Stamp<M>>>,
    said: &mut Vec<u8>,
) -> Result<Attempt, RunFault> {
    let full = match made {
        Ok(answered) => {
            let written = append_reply(answered.number, &answered.reply, said);
            shared.publish_stamp(rt, client, answered.stamp);
            return match written {
                Ok(()) => Ok(Attempt::Changed),
                Err(_) => Err(RunFault::Memory),
            };
        }
        Err(why) => full_of(&why),
    };
    if full == Some(Full::Outbox) {
        return Ok(Attempt::Retry);
    }
    append_full(line, full, said)?;
    Ok(Attempt::Done)
}

// Registers the first target of the kind that the stock has, if it has one.
fn register<M: ManagerId, T: Target, R: Wait>(
    rt: &R,
    manager: &Manager<M, T>,
    shared: &SharedState<M, T>,
    client: &mut Client<M>,
    line: u64,
    kind: StockKind,
    name: Text,
    said: &mut Vec<u8>,
) -> Result<Attempt, RunFault> {
    match register_from_stock(rt, manager, client, &mut *shared.stock.lock(rt), kind, name) {
        Some(made) => conclude(rt, shared, client.id(), line, made, said),
        None => {
            append_bad(line, LineFault::NoStock, said)?;
            Ok(Attempt::Done)
        }
    }
}

// Does what a line asks for, if it can be done now.
fn try_execute<M: ManagerId, T: Target, R: Wait>(
    rt: &R,
    manager: &Manager<M, T>,
    shared: &SharedState<M, T>,
    client: &mut Client<M>,
    line: u64,
    request: &Request,
    said: &mut Vec<u8>,
) -> Result<Attempt, RunFault>
    requires { HandsNothing request.now }
{
    match request {
        Request::Change(call) => {
            let call = call.copy(shared.alloc)?;
            let made = client.ask(rt, manager, call);
            conclude(rt, shared, client.id(), line, made, said)
        }
        Request::Register { kind, name } => {
            let name = name.copy()?;
            register(rt, manager, shared, client, line, *kind, name, said)
        }
        Request::Infos { target } => {
            append_infos_seen(shared.alloc, client, target.as_ref(), said)?;
            Ok(Attempt::Done)
        }
        Request::State { id } => {
            append_state_seen(shared.alloc, client, id, said)?;
            Ok(Attempt::Done)
        }
    }
}

// Does what a line asks for, as soon as not too many entries wait to be taken. Tells whether a change was answered.
fn retry<M: ManagerId, T: Target, R: Wait>(
    rt: &R,
    manager: &Manager<M, T>,
    shared: &SharedState<M, T>,
    client: &mut Client<M>,
    line: u64,
    request: &Request,
    said: &mut Vec<u8>,
) -> Result<bool, RunFault>
    requires { HandsNothing request.now }
{
    for _ in rt.forever() {
        match try_execute(rt, manager, shared, client, line, request, said)? {
            Attempt::Done => return Ok(false),
            Attempt::Changed => return Ok(true),
            Attempt::Retry => yield_now(),
        }
    }
    unreachable!()
}

// Answers a line, and tells how many entries the client had seen when it asked, what it heard for this line counted;
// and whether a change was answered.
fn answer<M: ManagerId, T: Target, R: Wait>(
    rt: &R,
    manager: &Manager<M, T>,
    shared: &SharedState<M, T>,
    client: &mut Client<M>,
    line: &ScriptLine,
    memory: &mut LineMemory,
    said: &mut Vec<u8>,
) -> Result<(u64, bool), RunFault> {
    let other = heard(shared.alloc, &line.text)?;
    match parse_line(shared.alloc, &line.text, CLIENTS, Numbers::Whole, memory) {
        Ok((_client, request)) => {
            shared.hear(rt, client, other);
            let before = client.seen();
            let changed = retry(rt, manager, shared, client, line.number, &request, said);
            drop(request);
            Ok((before, changed?))
        }
        Err(fault) => {
            append_fault(line.number, fault, said)?;
            Ok((client.seen(), false))
        }
    }
}

// Plays a line, and notes what it was answered.
fn play<M: ManagerId, T: Target, R: Wait>(
    rt: &R,
    manager: &Manager<M, T>,
    shared: &SharedState<M, T>,
    client: &mut Client<M>,
    line: &ScriptLine,
    memory: &mut LineMemory,
    transcript: &mut Transcript,
) -> Result<(), RunFault> {
    let mut said = Vec::new(shared.alloc);
    let (before, changed) = answer(rt, manager, shared, client, line, memory, &mut said)?;
    transcript.note(
        shared.alloc,
        line.number,
        client.id(),
        (before, client.seen()),
        &said,
    )?;
    if changed {
        transcript.changes.push(line.number)?;
    }
    Ok(())
}

// Plays these lines. After each one the others may come, on one processor too.
fn play_all<M: ManagerId, T: Target, R: Wait>(
    rt: &R,
    manager: &Manager<M, T>,
    shared: &SharedState<M, T>,
    client: &mut Client<M>,
    lines: &[ScriptLine],
    transcript: &mut Transcript,
) -> Result<(), RunFault> {
    let mut memory = LineMemory::new(shared.alloc);
    for line in lines {
        play(rt, manager, shared, client, line, &mut memory, transcript)?;
        yield_now();
    }
    Ok(())
}

/// What a client's thread does: it plays its lines as soon as all threads have come, and notes in its transcript what
/// came of them.
pub(crate) fn played<M: ManagerId, T: Target, R: Wait>(
    rt: &R,
    manager: &Manager<M, T>,
    shared: &SharedState<M, T>,
    client: &mut Client<M>,
    script: &ClientScript,
) {
    let mut transcript = script.transcript.lock(rt);
    let transcript = &mut *transcript;
    shared.begin();
    transcript.played = play_all(rt, manager, shared, client, &script.lines, transcript);
}
