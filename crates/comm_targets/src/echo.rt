ghost use Rattle.std.specs.Prelude.{◌≡◌, IfOk};
ghost use Rattle.comm_targets.specs.Answers.{echo_of};
ghost use Rattle.comm_targets.specs.Meaning.{new_of};

use crate::answer::{Answer, Bodies};
use crate::event::Event;
use crate::fault::TargetFault;
use crate::kind::Kind;
use crate::open_comms::OpenComms;
use crate::target::Target;
use comm_messages::OutgoingBody;
use comm_value::Dict;
use std::alloc::{AllocError, Global};

/// A target of kind Echo: each message goes back with the same data and buffers.
#[derive(Drop)]
pub struct Echo {
    alloc: Global,
    comms: OpenComms,
}

impl Echo {
    /// A target with no comm. It takes no memory.
    pub fn new(alloc: Global) -> Echo
        ensures { ⟦<Echo as Target>⟧.means result ≡ new_of Kind.Echo }
    {
        Echo {
            alloc,
            comms: OpenComms::new(),
        }
    }
}

fn echo_of(alloc: Global, event: &Event) -> Result<Answer, AllocError>
    ensures { IfOk result (λ a. a ≡ echo_of event.now) }
{
    let messages = match event {
        Event::Msg { body, .. } => Bodies::one(alloc, OutgoingBody::new(body.copy(alloc)?))?,
        _ => Bodies::new(alloc),
    };
    Ok(Answer {
        state: None,
        messages,
        custom: None,
    })
}

impl Target for Echo {
    ghost use Rattle.comm_targets.specs.declared.kind.Kind.TheVariants as kind;

    ghost means = { λ e. record { kind = kind.Echo; notes = 0; ids = e.comms.ids; staged = e.comms.staged } };

    fn kind(&self) -> Kind {
        Kind::Echo
    }

    fn notes(&self) -> u64 {
        0
    }

    fn idle(&self) -> bool {
        self.comms.is_idle()
    }

    fn prepare(&mut self, event: &Event, _now: Option<&Dict>) -> Result<Answer, TargetFault> {
        let answer = echo_of(self.alloc, event)?;
        if self.comms.stage(event, &answer).is_err() {
            drop(answer);
            return Err(TargetFault::Memory);
        }
        Ok(answer)
    }

    fn commit(&mut self) {
        self.comms.commit();
    }

    fn abandon(&mut self) {
        self.comms.abandon();
    }

    fn close(&mut self, id: &str) {
        self.comms.close(id);
    }

    fn stop(&mut self) {}
}
