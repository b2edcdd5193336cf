//! What a call is about.
ghost use Rattle.std.specs.Prelude.{◌≡◌, IfOk};
ghost use Rattle.comm_core.specs.Ready.{machine};
ghost use Rattle.comm_c.specs.Subject.{of_comm, of_opening, of_target, subject_of};

use crate::builtin_target::BuiltinTarget;
use comm_core::{Call, Core, comm_id};
use comm_value::Text;
use std::alloc::{AllocError, Global};

/// What a call is about: a comm, by its id, and a target, by its name.
#[derive(Drop)]
pub struct Subject {
    pub comm: Option<Text>,
    pub target: Option<Text>,
}

impl Subject {
    /// A target alone. Err: memory.
    pub fn of_target(name: &Text) -> Result<Subject, AllocError>
        ensures { IfOk result (λ s. s ≡ of_target name.now) }
    {
        let target = name.copy()?;
        Ok(Subject {
            comm: None,
            target: Some(target),
        })
    }

    fn of_opening(id: Text, target: &Text) -> Result<Subject, AllocError>
        ensures { IfOk result (λ s. s ≡ of_opening id target.now) }
    {
        let target = target.copy()?;
        Ok(Subject {
            comm: Some(id),
            target: Some(target),
        })
    }
}

// A comm, with its target where it is open. Err: memory.
fn comm_subject(core: &Core<BuiltinTarget>, id: &Text) -> Result<Subject, AllocError>
    ensures { IfOk result (λ s. s ≡ of_comm (machine core.now) id.now) }
{
    let target = match core.target_of(id) {
        Some(name) => Some(name.copy()?),
        None => None,
    };
    Ok(Subject {
        comm: Some(id.copy()?),
        target,
    })
}

/// What a call is about, before it is made. Err: memory.
pub fn subject_of(
    alloc: Global,
    core: &Core<BuiltinTarget>,
    call: &Call,
) -> Result<Subject, AllocError>
    ensures { IfOk result (λ s. s ≡ subject_of (machine core.now) call.now) }
{
    match call {
        Call::Register { name, .. } | Call::Unregister { name } => Subject::of_target(name),
        Call::Open { id, target, .. } => Subject::of_opening(id.copy()?, target),
        Call::Launch { id, target, .. } => Subject::of_opening(comm_id(alloc, id)?, target),
        Call::Msg { id, .. }
        | Call::Close { id }
        | Call::Push { id, .. }
        | Call::Send { id, .. }
        | Call::HangUp { id } => comm_subject(core, id),
    }
}
