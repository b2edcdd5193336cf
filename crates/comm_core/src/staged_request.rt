//! What is kept of a request between `prepare` and `commit`.
ghost use Rattle.std.specs.Prelude.{◌≡◌};
ghost use Rattle.comm_core.specs.Told.{asked, id_of, is_opening};

use comm_targets::Event;
use comm_value::{Dict, Text};
use std::marker::Model;
use std::snapshot::Snapshot;

/// What a commit needs of what a target was asked: the target's name, the comm, and whether that is opened by it.
/// Contracts see the whole request.
#[derive(Drop)]
pub struct StagedRequest {
    pub name: Text,
    pub id: Text,
    pub opens: bool,
    /// Where the comm stands among the open ones, as far as is known.
    pub place: usize,
    event: Snapshot<Event>,
    state: Snapshot<Option<Dict>>,
}

impl Model for StagedRequest {
    ghost use Rattle.std.specs.Prelude.{◌≡◌};
    ghost use Rattle.comm_core.specs.Told.{asked, id_of, is_opening};
    ghost use Rattle.comm_core.specs.declared.target_request.TargetRequest.{TargetRequest};
    ghost use Rattle.comm_core.specs.contracts.target_request.TargetRequest as request;

    ghost Value = { TargetRequest };

    ghost coded = { request.the_row.coded };

    ghost view = { λ r. asked r.name r.state.value r.event.value };

    ghost invariant = { λ r. (r.id ≡ id_of r.event.value) × (r.opens ≡ is_opening r.event.value) };
}

impl StagedRequest {
    /// What is kept of this event of the target of this name, about a comm that has this state, and stands at this
    /// place. The event's id is moved out.
    pub fn new(name: Text, event: Event, place: usize, state: &Option<Dict>) -> StagedRequest
        ensures { result ≡ asked name state.now event }
    {
        let seen = Snapshot::of(&event);
        let (id, opens) = split_event(event);
        StagedRequest {
            name,
            id,
            opens,
            place,
            event: seen,
            state: Snapshot::of(state),
        }
    }
}

// The id of the comm that the event is about, and whether that is opened by it.
#[inline(always)]
fn split_event(event: Event) -> (Text, bool)
    ensures id { result.0 ≡ id_of event }
    ensures opens { result.1 ≡ is_opening event }
{
    match event {
        Event::Open { id, version, body } => {
            drop((version, body));
            (id, true)
        }
        Event::Launch { id, state } => {
            drop(state);
            (id, true)
        }
        Event::Msg { id, body } => {
            drop(body);
            (id, false)
        }
        Event::Push { id, state } => {
            drop(state);
            (id, false)
        }
    }
}
