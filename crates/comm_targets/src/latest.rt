ghost use Rattle.std.specs.Prelude.{◌≡◌, IfOk, IfErr, OnErr};
ghost use Rattle.comm_targets.specs.Latest.{latest_of};
ghost use Rattle.comm_targets.specs.Meaning.{new_of};
ghost use Rattle.comm_targets.specs.OpenComms.{with_staged};

use crate::answer::{Answer, Bodies};
use crate::event::Event;
use crate::fault::TargetFault;
use crate::kind::Kind;
use crate::open_comms::OpenComms;
use crate::target::Target;
use comm_value::Dict;
use std::alloc::{AllocError, Global};

/// A target of kind Free: a comm's state is the data that came last on it.
///
/// It is also the pattern for a target of your own: the crate's page says what to change.
#[derive(Drop)]
pub struct Latest {
    alloc: Global,
    comms: OpenComms,
}

impl Latest {
    /// A target with no comm. It takes no memory.
    pub fn new(alloc: Global) -> Latest
        ensures { ⟦<Latest as Target>⟧.means result ≡ new_of Kind.Free }
    {
        Latest {
            alloc,
            comms: OpenComms::new(),
        }
    }
}

// The data of an opening or a message is the comm's state.
fn answer_to(alloc: Global, event: &Event) -> Result<Answer, AllocError>
    ensures { IfOk result (λ a. a ≡ latest_of event.now) }
{
    let state = match event {
        Event::Open { body, .. } => Some(body.content().copy()?),
        Event::Msg { body, .. } => Some(body.content().copy()?),
        Event::Launch { .. } => None,
        Event::Push { .. } => None,
    };
    Ok(Answer {
        state,
        messages: Bodies::new(alloc),
        custom: None,
    })
}

impl Target for Latest {
    ghost use Rattle.comm_targets.specs.declared.kind.Kind.TheVariants as kind;

    // What the comm manager relies on: the ids of the open comms and what is staged are what `comms` keeps.
    ghost means = { λ t. record { kind = kind.Free; notes = 0; ids = t.comms.ids; staged = t.comms.staged } };

    fn kind(&self) -> Kind {
        Kind::Free
    }

    fn notes(&self) -> u64 {
        0
    }

    fn idle(&self) -> bool {
        self.comms.is_idle()
    }

    // The trait lets a free target answer what it likes, so what this one answers is said here. A method with clauses
    // of its own has no others, so what the trait promises is said again.
    fn prepare(&mut self, event: &Event, _now: Option<&Dict>) -> Result<Answer, TargetFault>
        ensures latest { IfOk result (λ a. a ≡ latest_of event.now) }
        ensures takes { IfErr result (λ f. f ≡ TargetFault.Memory) }
        ensures staged { IfOk result
            (λ a. self.new.comms ≡ with_staged self.old.comms event.now a) }
        ensures unchanged { OnErr result (self.new.comms ≡ self.old.comms) }
    {
        let answer = answer_to(self.alloc, event)?;
        // Last, so that an error leaves all as it was.
        if self.comms.stage(event, &answer).is_err() {
            drop(answer);
            return Err(TargetFault::Memory);
        }
        Ok(answer)
    }

    fn commit(&mut self) {
        self.comms.commit();
    }

    fn abandon(&mut self) {
        self.comms.abandon();
    }

    fn close(&mut self, id: &str) {
        self.comms.close(id);
    }

    fn stop(&mut self) {}
}
