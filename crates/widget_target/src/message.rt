ghost use Rattle.std.specs.Prelude.{◌≡◌, IfOk, codes};
ghost use Rattle.comm_value.specs.Node.{get};
ghost use Rattle.comm_targets.specs.Widget.{message_answer, one_message, update_of, custom_answer};
ghost use Rattle.widget_target.specs.Gives.{Gives};

use crate::answers::one_message;
use crate::method::{Method, method_of};
use crate::update::{state_message, update_answer};
use comm_messages::{Body, Telling};
use comm_targets::{Answer, Custom, SharedCustom, TargetFault};
use comm_value::Dict;
use std::alloc::{AllocError, Global};

/// The answer to a message on the comm of a widget whose state is `now`, by the data's `method`.
/// Err: NoMethod, UnknownMethod, the faults of `update`, or Memory.
pub fn message_answer(
    alloc: Global,
    echoing: bool,
    body: &Body,
    now: &Dict,
) -> Result<Answer, TargetFault>
    ensures { Gives result
        (message_answer echoing (get (codes "method") body.now.content) now.now body.now) }
{
    match method_of(body.content())? {
        Method::Update => update_answer(alloc, echoing, body, now),
        Method::RequestState => Ok(request_answer(alloc, now)?),
        Method::Custom => Ok(custom_answer(alloc, body)?),
    }
}

// The answer to `request_state`: the whole state goes out.
fn request_answer(alloc: Global, now: &Dict) -> Result<Answer, AllocError>
    ensures { IfOk result (λ a. a ≡ one_message (update_of now.now)) }
{
    one_message(alloc, state_message(alloc, Telling::Update, now)?)
}

// The answer to `custom`: the caller is handed the data's `content` and all the message's buffers.
fn custom_answer(alloc: Global, body: &Body) -> Result<Answer, AllocError>
    ensures { IfOk result
        (λ a. a ≡ custom_answer (get (codes "content") body.now.content) body.now.buffers) }
{
    let Some(content) = body.content().get("content") else {
        return Ok(Answer::empty(alloc));
    };
    let custom = Custom {
        content: content.copy()?,
        buffers: body.buffers().copy(alloc)?,
    };
    let mut answer = Answer::empty(alloc);
    answer.custom = Some(SharedCustom::new(alloc, custom)?);
    Ok(answer)
}
