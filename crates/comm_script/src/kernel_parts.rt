//! What the kernel's calls ask for by their parts: values that were read, and buffers as bytes.
ghost use Rattle.std.specs.Prelude.{IfOk};
ghost use Rattle.comm_json.specs.Behind.{behind as of_ref};
ghost use Rattle.comm_messages.specs.Envelope.{buffers_in};
ghost use Rattle.comm_messages.specs.Fields.{fields};
ghost use Rattle.comm_script.specs.Line.{Gives};
ghost use Rattle.comm_script.specs.Command.{object_part, launch_with, push_with, send_with, HandsNothing};

use crate::asked::{Key, LineFault, Request};
use crate::command::{launched, state_with};
use comm_core::Call;
use comm_json::JsonRef;
use comm_messages::{BuffersRef, Fields, body_with, object_or_empty};
use comm_value::{KnownTexts, Numbers};
use std::alloc::Global;

fn object_part<'v, 'a>(key: Key, value: JsonRef<'v, 'a>) -> Result<Fields<'v, 'a>, LineFault>
    ensures { Gives fields result (object_part key (of_ref value.entry)) }
{
    match object_or_empty(Some(value)) {
        Some(object) => Ok(object),
        None => Err(LineFault::BadField(key)),
    }
}

/// What `launch` asks for, with this state, these paths of its buffers, and these numbers as values. Err: the first
/// test that fails, of those of a line's `launch`, or Memory.
#[tactic(auto, unfolding(crate::specs::Command::launch_with))]
pub fn launch_with(
    alloc: Global,
    numbers: Numbers,
    texts: &mut KnownTexts,
    name: &str,
    uuid: &str,
    state: JsonRef<'_, '_>,
    paths: JsonRef<'_, '_>,
    buffers: BuffersRef<'_, '_>,
) -> Result<Request, LineFault>
    ensures asked { Gives (λ a. a) result (launch_with numbers name.now uuid.now
        (of_ref state.entry) (of_ref paths.entry) (buffers_in buffers.entry)) }
    ensures handless { IfOk result HandsNothing }
{
    let object = object_part(Key::State, state)?;
    let state = state_with(alloc, numbers, texts, object, Some(paths), buffers)?;
    launched(alloc, name, uuid, state)
}

/// What `push` asks for, as [`launch_with`] of `launch`.
#[tactic(auto, unfolding(crate::specs::Command::push_with))]
pub fn push_with(
    alloc: Global,
    numbers: Numbers,
    texts: &mut KnownTexts,
    id: &str,
    state: JsonRef<'_, '_>,
    paths: JsonRef<'_, '_>,
    buffers: BuffersRef<'_, '_>,
) -> Result<Request, LineFault>
    ensures asked { Gives (λ a. a) result (push_with numbers id.now
        (of_ref state.entry) (of_ref paths.entry) (buffers_in buffers.entry)) }
    ensures handless { IfOk result HandsNothing }
{
    let object = object_part(Key::State, state)?;
    let id = texts.text(alloc, id)?;
    let state = state_with(alloc, numbers, texts, object, Some(paths), buffers)?;
    Ok(Request::Change(Call::Push { id, state }))
}

/// What `send` asks for, with this data, as [`launch_with`] of `launch`.
#[tactic(auto, unfolding(crate::specs::Command::send_with))]
pub fn send_with(
    alloc: Global,
    numbers: Numbers,
    texts: &mut KnownTexts,
    id: &str,
    data: JsonRef<'_, '_>,
    buffers: BuffersRef<'_, '_>,
) -> Result<Request, LineFault>
    ensures asked { Gives (λ a. a) result
        (send_with numbers id.now (of_ref data.entry) (buffers_in buffers.entry)) }
    ensures handless { IfOk result HandsNothing }
{
    let object = object_part(Key::Data, data)?;
    let id = texts.text(alloc, id)?;
    let body = body_with(alloc, numbers, texts, object, buffers)?;
    Ok(Request::Change(Call::Send { id, body }))
}
