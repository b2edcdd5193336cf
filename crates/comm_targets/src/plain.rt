ghost use Rattle.std.specs.Prelude.{◌≡◌, IfOk};
ghost use Rattle.comm_targets.specs.Answers.{payload_of, plain_kind, plain_of};
ghost use Rattle.comm_targets.specs.Meaning.{new_of};

use crate::answer::{Answer, Custom};
use crate::event::Event;
use crate::fault::TargetFault;
use crate::kind::Kind;
use crate::open_comms::OpenComms;
use crate::shared_custom::SharedCustom;
use crate::target::Target;
use comm_messages::Body;
use comm_value::{Dict, Val};
use std::alloc::{AllocError, Global};

/// A target of kind Plain, or Opaque: it takes each opening, and hands each message whole to the caller. It sends
/// nothing.
///
/// It is for a kernel's own comms: the kernel reads the message in the reply, and answers by a call of its own. Its
/// comms have no state. The data of an opening isn't handed on, since the reply to an opening carries nothing: the
/// kernel has it in the message that it handed in.
#[derive(Drop)]
pub struct PlainTarget {
    alloc: Global,
    comms: OpenComms,
    is_opaque: bool,
}

impl PlainTarget {
    /// A target with no comm, of kind Plain. It takes no memory.
    pub fn new(alloc: Global) -> PlainTarget
        ensures { ⟦<PlainTarget as Target>⟧.means result ≡ new_of Kind.Plain }
    {
        PlainTarget::of_kind(alloc, false)
    }

    /// A target with no comm, of kind Opaque. It takes no memory.
    pub fn opaque(alloc: Global) -> PlainTarget
        ensures { ⟦<PlainTarget as Target>⟧.means result ≡ new_of Kind.Opaque }
    {
        PlainTarget::of_kind(alloc, true)
    }

    fn of_kind(alloc: Global, is_opaque: bool) -> PlainTarget
        ensures { ⟦<PlainTarget as Target>⟧.means result ≡ new_of (plain_kind is_opaque) }
    {
        PlainTarget {
            alloc,
            comms: OpenComms::new(),
            is_opaque,
        }
    }
}

// The data and the buffers of a message, shared.
fn payload_of(alloc: Global, body: &Body) -> Result<SharedCustom, AllocError>
    ensures { IfOk result (λ c. c ≡ payload_of body.now) }
{
    let custom = Custom {
        content: Val::Dict(body.content().copy()?),
        buffers: body.buffers().copy(alloc)?,
    };
    SharedCustom::new(alloc, custom)
}

fn plain_of(alloc: Global, event: &Event) -> Result<Answer, AllocError>
    ensures { IfOk result (λ a. a ≡ plain_of event.now) }
{
    let mut answer = Answer::empty(alloc);
    if let Event::Msg { body, .. } = event {
        answer.custom = Some(payload_of(alloc, body)?);
    }
    Ok(answer)
}

impl Target for PlainTarget {
    ghost use Rattle.comm_targets.specs.Answers.{plain_kind};

    ghost means = { λ t. record {
      kind = plain_kind t.is_opaque;
      notes = 0;
      ids = t.comms.ids;
      staged = t.comms.staged;
    } };

    fn kind(&self) -> Kind {
        if self.is_opaque {
            Kind::Opaque
        } else {
            Kind::Plain
        }
    }

    fn notes(&self) -> u64 {
        0
    }

    fn idle(&self) -> bool {
        self.comms.is_idle()
    }

    fn prepare(&mut self, event: &Event, _now: Option<&Dict>) -> Result<Answer, TargetFault> {
        let answer = plain_of(self.alloc, event)?;
        // Last, so that an error leaves all as it was.
        if self.comms.stage(event, &answer).is_err() {
            drop(answer);
            return Err(TargetFault::Memory);
        }
        Ok(answer)
    }

    fn commit(&mut self) {
        self.comms.commit();
    }

    fn abandon(&mut self) {
        self.comms.abandon();
    }

    fn close(&mut self, id: &str) {
        self.comms.close(id);
    }

    fn stop(&mut self) {}
}
