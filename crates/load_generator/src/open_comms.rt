//! The comms that the load works on.
ghost use Rattle.comm_targets.specs.Meaning.{IsIdle};

use crate::fixtures::{ids, keys, state};
use crate::load::Load;
use crate::load_fault::LoadFault;
use comm_core::Reply;
use comm_manager::{Client, CountedHistory, Manager, ManagerId};
use comm_messages::Body;
use comm_targets::Target;
use comm_value::{Buffers, Dict, Text, Val};
use std::alloc::{AllocError, Global};
use std::sync::Wait;

const TARGET: &str = "jupyter.widget";

// The data of an opening: `{"state":{..}}`.
fn opening_data(alloc: Global, keys: &[Text]) -> Result<Body, LoadFault> {
    let members = Val::Dict(state(alloc, keys)?);
    let data = Dict::new().insert(alloc, Text::copy_of(alloc, "state")?, members)?;
    if data.has_bytes() {
        return Err(LoadFault::WrongAnswer);
    }
    Ok(Body::new(data, Buffers::none(alloc)))
}

// The id, the target's name and the version of an opening.
fn names_of(alloc: Global, id: &Text) -> Result<(Text, Text, Text), AllocError> {
    let id = id.copy()?;
    let name = Text::copy_of(alloc, TARGET)?;
    let version = Text::copy_of(alloc, "2.0.0")?;
    Ok((id, name, version))
}

// Opens a comm. There are fewer of them than entries that may wait.
fn open<M: ManagerId, T: Target, R: Wait>(
    rt: &R,
    alloc: Global,
    manager: &Manager<M, T, CountedHistory>,
    client: &mut Client<M>,
    id: &Text,
    keys: &[Text],
) -> Result<(), LoadFault> {
    let (id, name, version) = names_of(alloc, id)?;
    let body = opening_data(alloc, keys)?;
    let answered = client.open_comm(rt, manager, id, name, Some(version), body);
    let is_open = match &answered {
        Ok(answered) => matches!(answered.reply, Reply::Opened),
        Err(_) => false,
    };
    drop(answered);
    if is_open {
        Ok(())
    } else {
        Err(LoadFault::WrongAnswer)
    }
}

// Opens comms with the same keys in their states.
fn open_each<M: ManagerId, T: Target, R: Wait>(
    rt: &R,
    alloc: Global,
    manager: &Manager<M, T, CountedHistory>,
    client: &mut Client<M>,
    ids: &[Text],
    keys: &[Text],
) -> Result<(), LoadFault> {
    for id in ids {
        open(rt, alloc, manager, client, id, keys)?;
    }
    Ok(())
}

// Registers the target.
fn register<M: ManagerId, T: Target, R: Wait>(
    rt: &R,
    alloc: Global,
    manager: &Manager<M, T, CountedHistory>,
    client: &mut Client<M>,
    target: T,
) -> Result<(), LoadFault>
    requires { IsIdle (T.means target) }
{
    let name = Text::copy_of(alloc, TARGET)?;
    if client.register(rt, manager, name, target).is_ok() {
        Ok(())
    } else {
        Err(LoadFault::WrongAnswer)
    }
}

/// Registers the target, and opens all comms of a load.
pub(crate) fn open_comms<M: ManagerId, T: Target, R: Wait>(
    rt: &R,
    alloc: Global,
    manager: &Manager<M, T, CountedHistory>,
    client: &mut Client<M>,
    load: &Load,
    target: T,
) -> Result<(), LoadFault>
    requires { IsIdle (T.means target) }
{
    register(rt, alloc, manager, client, target)?;
    let keys = keys(alloc, load.keys)?;
    let ids = ids(alloc, load.comms)?;
    open_each(rt, alloc, manager, client, &ids, &keys)
}
