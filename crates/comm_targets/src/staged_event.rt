use crate::answer::Answer;
use crate::event::Event;

/// An event with the answer to it, as contracts see what is staged. `OpenComms` keep snapshots of both, which take no
/// memory.
#[derive(Drop)]
pub struct StagedEvent {
    pub event: Event,
    pub answer: Answer,
}
