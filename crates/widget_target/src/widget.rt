ghost use Rattle.std.specs.Prelude.{◌≡◌, unwrap_or, option_map};
ghost use Rattle.comm_value.specs.Tree.{no_members};
ghost use Rattle.comm_targets.specs.Meaning.{new_of};
ghost use Rattle.comm_targets.specs.Widget.{answer_of};
ghost use Rattle.widget_target.specs.Gives.{Gives};
ghost use Rattle.widget_target.specs.Method.{kind_of};

use crate::answers::new_state;
use crate::message::message_answer;
use crate::open::opening_state;
use crate::update::push_answer;
use comm_targets::{Answer, Event, Kind, OpenComms, Target, TargetFault};
use comm_value::Dict;
use std::alloc::Global;

/// A target of kind Widget, or WidgetEcho: it keeps the states of Jupyter widgets ('Jupyter widgets messaging protocol'
/// 2.1.0).
#[derive(Drop)]
pub struct WidgetTarget {
    alloc: Global,
    comms: OpenComms,
    // Whether it repeats to the frontends what an update brought.
    echoing: bool,
}

impl WidgetTarget {
    /// A target with no comm, of kind Widget. It takes no memory.
    pub fn new(alloc: Global) -> WidgetTarget
        ensures { ⟦<WidgetTarget as Target>⟧.means result ≡ new_of Kind.Widget }
    {
        WidgetTarget::with_echoing(alloc, false)
    }

    /// A target with no comm, of kind WidgetEcho: where a frontend's `update` brings some keys, all frontends are
    /// told of them by `echo_update` ("State update messages"). It takes no memory.
    pub fn with_echo(alloc: Global) -> WidgetTarget
        ensures { ⟦<WidgetTarget as Target>⟧.means result ≡ new_of Kind.WidgetEcho }
    {
        WidgetTarget::with_echoing(alloc, true)
    }

    // A target with no comm, which echoes or doesn't.
    fn with_echoing(alloc: Global, echoing: bool) -> WidgetTarget
        ensures { ⟦<WidgetTarget as Target>⟧.means result ≡ new_of (kind_of echoing) }
    {
        WidgetTarget {
            alloc,
            comms: OpenComms::new(),
            echoing,
        }
    }
}

impl Target for WidgetTarget {
    ghost use Rattle.widget_target.specs.Method.{kind_of};

    ghost means = { λ w. record { kind = kind_of w.echoing; notes = 0; ids = w.comms.ids; staged = w.comms.staged } };

    fn kind(&self) -> Kind {
        if self.echoing {
            Kind::WidgetEcho
        } else {
            Kind::Widget
        }
    }

    fn notes(&self) -> u64 {
        0
    }

    fn idle(&self) -> bool {
        self.comms.is_idle()
    }

    fn prepare(&mut self, event: &Event, now: Option<&Dict>) -> Result<Answer, TargetFault> {
        let answer = answer_to(self.alloc, self.echoing, event, now)?;
        if self.comms.stage(event, &answer).is_err() {
            drop(answer);
            return Err(TargetFault::Memory);
        }
        Ok(answer)
    }

    fn commit(&mut self) {
        self.comms.commit();
    }

    fn abandon(&mut self) {
        self.comms.abandon();
    }

    fn close(&mut self, id: &str) {
        self.comms.close(id);
    }

    fn stop(&mut self) {}
}

// The answer to an event, of a comm whose state is `now`; with none the empty state.
fn answer_to(
    alloc: Global,
    echoing: bool,
    event: &Event,
    now: Option<&Dict>,
) -> Result<Answer, TargetFault>
    ensures { Gives result
        (answer_of echoing (unwrap_or (option_map (λ d. d.now) now.entry) no_members) event.now) }
{
    match now {
        Some(now) => answer_over(alloc, echoing, event, now),
        None => {
            let empty = Dict::new();
            let answer = answer_over(alloc, echoing, event, &empty);
            drop(empty);
            answer
        }
    }
}

// The answer to an event, of a comm with this state.
fn answer_over(
    alloc: Global,
    echoing: bool,
    event: &Event,
    now: &Dict,
) -> Result<Answer, TargetFault>
    ensures { Gives result (answer_of echoing now.now event.now) }
{
    match event {
        Event::Open { version, body, .. } => {
            Ok(new_state(alloc, opening_state(alloc, version.as_ref(), body)?))
        }
        Event::Msg { body, .. } => message_answer(alloc, echoing, body, now),
        Event::Launch { state, .. } => Ok(new_state(alloc, state.copy()?)),
        Event::Push { state, .. } => Ok(push_answer(alloc, state, now)?),
    }
}
