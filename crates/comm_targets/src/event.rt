ghost use Rattle.std.specs.Prelude.{◌≡◌, IfOk};
ghost use Rattle.comm_targets.specs.Event.{id_of};

use comm_messages::Body;
use comm_value::{Dict, Text};
use std::alloc::{AllocError, Global};

/// What a target is asked, of one comm.
#[derive(Drop)]
pub enum Event {
    /// The frontend opens the comm ('Messaging in Jupyter' 5.3, "Opening a Comm").
    /// `version` is the metadata's `version`, where that is a string.
    Open {
        id: Text,
        version: Option<Text>,
        body: Body,
    },
    /// The frontend sends a message on it ("Comm Messages").
    Msg {
        id: Text,
        body: Body,
    },
    /// The kernel opens it, as a widget with this state.
    Launch {
        id: Text,
        state: Dict,
    },
    /// The kernel changes these keys of the widget's state.
    Push {
        id: Text,
        state: Dict,
    },
}

impl Event {
    /// The comm's id.
    pub fn id(&self) -> &Text
        ensures { result.now ≡ id_of self.now }
    {
        match self {
            Event::Open { id, .. } => id,
            Event::Msg { id, .. } => id,
            Event::Launch { id, .. } => id,
            Event::Push { id, .. } => id,
        }
    }

    /// A copy, which shares the strings, states and buffers. Err: memory.
    pub fn copy(&self, alloc: Global) -> Result<Event, AllocError>
        ensures { IfOk result (λ e. e ≡ self.now) }
    {
        match self {
            Event::Open { id, version, body } => Ok(Event::Open {
                id: id.copy()?,
                version: copy_of(version)?,
                body: body.copy(alloc)?,
            }),
            Event::Msg { id, body } => Ok(Event::Msg {
                id: id.copy()?,
                body: body.copy(alloc)?,
            }),
            Event::Launch { id, state } => Ok(Event::Launch {
                id: id.copy()?,
                state: state.copy()?,
            }),
            Event::Push { id, state } => Ok(Event::Push {
                id: id.copy()?,
                state: state.copy()?,
            }),
        }
    }
}

fn copy_of(text: &Option<Text>) -> Result<Option<Text>, AllocError>
    ensures { IfOk result (λ t. t ≡ text.now) }
{
    match text {
        Some(text) => Ok(Some(text.copy()?)),
        None => Ok(None),
    }
}
