ghost use Rattle.std.specs.Prelude.{◌≡◌, [], ◌∷◌, IfOk, codes};
ghost use Rattle.comm_value.specs.Merge.{merged};
ghost use Rattle.comm_value.specs.Node.{get};
ghost use Rattle.comm_value.specs.Places.{plain_members, member_paths, member_buffers};
ghost use Rattle.comm_targets.specs.Widget.{echoes, merge_answer, push_answer, state_message, update_answer};
ghost use Rattle.comm_messages.specs.Told.{method_name};
ghost use Rattle.widget_target.specs.Gives.{Gives};

use crate::state::state_of;
use comm_messages::{Body, OutgoingBody, Telling};
use comm_targets::{Answer, Bodies, TargetFault};
use comm_value::{Buffers, Dict, Separated, merge, separate};
use std::alloc::{AllocError, Global};

/// The answer to `update`: each top-level key of the data's `state` replaces that of the widget's state, and a widget
/// that echoes repeats them. Without `state` nothing is changed or sent. Err: a fault of the state, or Memory.
pub fn update_answer(
    alloc: Global,
    echoing: bool,
    body: &Body,
    now: &Dict,
) -> Result<Answer, TargetFault>
    ensures { Gives result
        (update_answer echoing (get (codes "state") body.now.content) now.now body.now) }
{
    let Some(state) = body.content().get("state") else {
        return Ok(Answer::empty(alloc));
    };
    let update = state_of(alloc, state, body)?;
    Ok(merge_answer(alloc, echoing, update, now)?)
}

// The answer to an update that brought these keys.
fn merge_answer(
    alloc: Global,
    echoing: bool,
    update: Dict,
    now: &Dict,
) -> Result<Answer, AllocError>
    ensures { IfOk result (λ a. a ≡ merge_answer echoing now.now update) }
{
    let Ok(messages) = echoes(alloc, echoing, &update) else {
        drop(update);
        return Err(AllocError);
    };
    let Ok(state) = merge_copy(alloc, now, update) else {
        drop(messages);
        return Err(AllocError);
    };
    Ok(Answer {
        state: Some(state),
        messages,
        custom: None,
    })
}

// The state with these keys in place of its own. Err: memory.
fn merge_copy(alloc: Global, now: &Dict, update: Dict) -> Result<Dict, AllocError>
    ensures { IfOk result (λ s. s ≡ merged now.now update) }
{
    merge(alloc, now.copy()?, update)
}

// What is told of an update that brought these keys.
fn echoes(alloc: Global, echoing: bool, update: &Dict) -> Result<Bodies, AllocError>
    ensures { IfOk result (λ m. m ≡ echoes echoing update.now) }
{
    if !echoing || update.is_empty() {
        return Ok(Bodies::new(alloc));
    }
    state_messages(alloc, Telling::EchoUpdate, update)
}

/// The answer to a change of these keys by the kernel: they replace those of the widget's state, and one `update`
/// message with just these keys goes out. Err: memory.
pub fn push_answer(alloc: Global, update: &Dict, now: &Dict) -> Result<Answer, AllocError>
    ensures { IfOk result (λ a. a ≡ push_answer now.now update.now) }
{
    let state = merge_copy(alloc, now, update.copy()?)?;
    let Ok(messages) = state_messages(alloc, Telling::Update, update) else {
        drop(state);
        return Err(AllocError);
    };
    Ok(Answer {
        state: Some(state),
        messages,
        custom: None,
    })
}

// The one message that tells these keys.
fn state_messages(alloc: Global, telling: Telling, update: &Dict) -> Result<Bodies, AllocError>
    ensures { IfOk result (λ m. m ≡ state_message (method_name telling) update.now ∷ []) }
{
    let body = state_message(alloc, telling, update)?;
    Bodies::one(alloc, body)
}

/// The message that tells a state, or some of its keys: `{"buffer_paths":..,"method":..,"state":..}`, with the
/// buffers in the order of the paths ("State update messages").
pub fn state_message(
    alloc: Global,
    telling: Telling,
    state: &Dict,
) -> Result<OutgoingBody, AllocError>
    ensures { IfOk result (λ b. b ≡ state_message (method_name telling) state.now) }
{
    let Separated {
        plain,
        paths,
        buffers,
    } = separate_state(alloc, state)?;
    OutgoingBody::told(alloc, telling, plain, paths.as_slice(), buffers)
}

// The state without its bytes, and where they stood. A state without bytes is shared.
fn separate_state(alloc: Global, state: &Dict) -> Result<Separated, AllocError>
    ensures plain { IfOk result (λ s. s.plain ≡ plain_members state.now) }
    ensures paths { IfOk result (λ s. s.paths.items ≡ member_paths state.now) }
    ensures buffers { IfOk result (λ s. s.buffers ≡ member_buffers state.now) }
{
    if state.has_bytes() {
        return separate(alloc, state);
    }
    Ok(Separated {
        plain: state.copy()?,
        paths: Vec::new(alloc),
        buffers: Buffers::none(alloc),
    })
}
