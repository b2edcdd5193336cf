ghost use Rattle.std.specs.Prelude.{◌≡◌, IfOk};
ghost use Rattle.comm_core.specs.declared.call.Call.TheVariants as call;

use comm_messages::Body;
use comm_targets::Kind;
use comm_value::{Dict, Text};
use std::alloc::{AllocError, Global};
use uuid::Uuid;

/// A change that is asked of a manager.
///
/// The frontend asks for `Open`, `Msg` and `Close` by the messages of the same names ('Messaging in Jupyter' 5.3,
/// "Custom Messages"); the kernel itself asks for the others.
#[derive(Drop)]
pub enum Call {
    /// Registers a target of this kind and with these notes under a name, in the place of the target that has it, if
    /// there is one.
    Register {
        name: Text,
        kind: Kind,
        notes: u64,
    },
    /// The frontend opens a comm towards the target of this name. `version` is the text of the metadata's `version`,
    /// where it is one.
    Open {
        id: Text,
        target: Text,
        version: Option<Text>,
        body: Body,
    },
    /// The frontend sends a message on a comm.
    Msg {
        id: Text,
        body: Body,
    },
    /// The frontend closes a comm.
    Close {
        id: Text,
    },
    /// Takes a target out, closing its comms.
    Unregister {
        name: Text,
    },
    /// The kernel opens a widget's comm with this state. The comm's id is the hyphenated text of the UUID, in small
    /// letters.
    Launch {
        id: Uuid,
        target: Text,
        state: Dict,
    },
    /// The kernel changes these keys of a widget's state.
    Push {
        id: Text,
        state: Dict,
    },
    /// The kernel sends a message on a comm.
    Send {
        id: Text,
        body: Body,
    },
    /// The kernel closes a comm.
    HangUp {
        id: Text,
    },
}

impl Call {
    /// A copy, which shares the strings, states and buffers. Err: memory.
    pub fn copy(&self, alloc: Global) -> Result<Call, AllocError>
        ensures { IfOk result (λ c. c ≡ self.now) }
    {
        match self {
            Call::Register { name, kind, notes } => Ok(Call::Register {
                name: name.copy()?,
                kind: *kind,
                notes: *notes,
            }),
            Call::Open {
                id,
                target,
                version,
                body,
            } => open_copy(alloc, id, target, version, body),
            Call::Msg { id, body } => {
                let (id, body) = message_copy(alloc, id, body)?;
                Ok(Call::Msg { id, body })
            }
            Call::Close { id } => Ok(Call::Close { id: id.copy()? }),
            Call::Unregister { name } => Ok(Call::Unregister { name: name.copy()? }),
            Call::Launch { id, target, state } => {
                let (target, state) = state_copy(target, state)?;
                Ok(Call::Launch {
                    id: *id,
                    target,
                    state,
                })
            }
            Call::Push { id, state } => {
                let (id, state) = state_copy(id, state)?;
                Ok(Call::Push { id, state })
            }
            Call::Send { id, body } => {
                let (id, body) = message_copy(alloc, id, body)?;
                Ok(Call::Send { id, body })
            }
            Call::HangUp { id } => Ok(Call::HangUp { id: id.copy()? }),
        }
    }
}

fn open_copy(
    alloc: Global,
    id: &Text,
    target: &Text,
    version: &Option<Text>,
    body: &Body,
) -> Result<Call, AllocError>
    ensures { IfOk result (λ c. c ≡ call.Open id.now target.now version.now body.now) }
{
    let (id, body) = message_copy(alloc, id, body)?;
    let names = names_copy(target, version);
    match names {
        Ok((target, version)) => Ok(Call::Open {
            id,
            target,
            version,
            body,
        }),
        Err(fault) => {
            drop(body);
            Err(fault)
        }
    }
}

// A comm's id and a body.
fn message_copy(alloc: Global, id: &Text, body: &Body) -> Result<(Text, Body), AllocError>
    ensures { IfOk result (λ c. c ≡ (id.now, body.now)) }
{
    let id = id.copy()?;
    let body = body.copy(alloc)?;
    Ok((id, body))
}

// A name and a state.
fn state_copy(name: &Text, state: &Dict) -> Result<(Text, Dict), AllocError>
    ensures { IfOk result (λ c. c ≡ (name.now, state.now)) }
{
    let name = name.copy()?;
    let state = state.copy()?;
    Ok((name, state))
}

// A target's name and a version.
fn names_copy(target: &Text, version: &Option<Text>) -> Result<(Text, Option<Text>), AllocError>
    ensures { IfOk result (λ c. c ≡ (target.now, version.now)) }
{
    let target = target.copy()?;
    let version = version_copy(version)?;
    Ok((target, version))
}

fn version_copy(version: &Option<Text>) -> Result<Option<Text>, AllocError>
    ensures { IfOk result (λ v. v ≡ version.now) }
{
    match version {
        Some(version) => Ok(Some(version.copy()?)),
        None => Ok(None),
    }
}
