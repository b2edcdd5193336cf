ghost use Rattle.std.specs.Prelude.{◌≡◌, IfOk};
ghost use Rattle.comm_targets.specs.Widget.{new_state, one_message};

use comm_messages::OutgoingBody;
use comm_targets::{Answer, Bodies};
use comm_value::Dict;
use std::alloc::{AllocError, Global};

/// The answer that gives the comm this state, and says nothing.
pub fn new_state(alloc: Global, state: Dict) -> Answer
    ensures { result ≡ new_state state }
{
    let mut answer = Answer::empty(alloc);
    answer.state = Some(state);
    answer
}

/// The answer that sends this message, and leaves the state.
pub fn one_message(alloc: Global, body: OutgoingBody) -> Result<Answer, AllocError>
    ensures { IfOk result (λ a. a ≡ one_message body) }
{
    let mut answer = Answer::empty(alloc);
    answer.messages = Bodies::one(alloc, body)?;
    Ok(answer)
}
