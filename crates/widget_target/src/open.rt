ghost use Rattle.std.specs.Prelude.{option_map};
ghost use Rattle.comm_targets.specs.Widget.{opening_state};
ghost use Rattle.widget_target.specs.Gives.{Gives};

use crate::state::state_of;
use crate::version::is_supported;
use comm_messages::Body;
use comm_targets::TargetFault;
use comm_value::{Dict, Text};
use std::alloc::Global;

/// The state of a widget that is opened ("Instantiating a widget object"): the data's `state`, with its buffers.
/// WrongVersion, NoState, and the faults of the state, in this order.
pub fn opening_state(
    alloc: Global,
    version: Option<&Text>,
    body: &Body,
) -> Result<Dict, TargetFault>
    ensures { Gives result (opening_state (option_map (λ v. v.now) version.entry) body.now) }
{
    if !is_supported(version) {
        return Err(TargetFault::WrongVersion);
    }
    match body.content().get("state") {
        Some(state) => state_of(alloc, state, body),
        None => Err(TargetFault::NoState),
    }
}
