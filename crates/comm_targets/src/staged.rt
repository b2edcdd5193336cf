ghost use Rattle.std.specs.Prelude.{◌≡◌};
ghost use Rattle.comm_targets.specs.Meaning.{is_message, is_opening};

use crate::answer::Answer;
use crate::event::Event;
use std::marker::Model;
use std::snapshot::Snapshot;

/// That an event is staged, with its answer: contracts see both, and only whether it is a message, and whether it opens
/// a comm, is kept.
#[derive(Drop)]
pub(crate) struct Staged {
    event: Snapshot<Event>,
    answer: Snapshot<Answer>,
    of_message: bool,
    of_opening: bool,
}

impl Model for Staged {
    ghost use Rattle.std.specs.Prelude.{◌≡◌};
    ghost use Rattle.comm_targets.specs.Meaning.{is_message, is_opening};
    ghost use Rattle.comm_targets.specs.declared.staged_event.StagedEvent.{StagedEvent};
    ghost use Rattle.comm_targets.specs.Code.{stage_code};

    ghost Value = { StagedEvent };

    ghost coded = { stage_code };

    ghost view = { λ s. record { event = s.event.value; answer = s.answer.value } };

    ghost invariant = { λ s. (s.of_message ≡ is_message s.event.value)
        × (s.of_opening ≡ is_opening s.event.value) };
}

impl Staged {
    /// Keeps snapshots of both, for contracts, and what kind of event it is. It takes no memory.
    pub fn new(event: &Event, answer: &Answer) -> Staged
        ensures { result ≡ record { event = event.now; answer = answer.now } }
    {
        Staged {
            event: Snapshot::of(event),
            answer: Snapshot::of(answer),
            of_message: matches!(event, Event::Msg { .. }),
            of_opening: matches!(event, Event::Open { .. } | Event::Launch { .. }),
        }
    }

    /// Whether the event is a message.
    pub fn is_message(&self) -> bool
        ensures { result ≡ is_message self.now.event }
    {
        self.of_message
    }

    /// Whether the event opens a comm.
    pub fn opens(&self) -> bool
        ensures { result ≡ is_opening self.now.event }
    {
        self.of_opening
    }
}
