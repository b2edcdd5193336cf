use comm_targets::Event;
use comm_value::{Dict, Text};

/// What a target is asked, as contracts see it: the target of this name, about a comm whose state is `state`. What the
/// code keeps of it is a `StagedRequest`, without the state.
#[derive(Drop)]
pub struct TargetRequest {
    pub name: Text,
    pub state: Option<Dict>,
    pub event: Event,
}
