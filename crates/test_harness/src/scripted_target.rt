//! A target that does what the data of its events say.
ghost use Rattle.std.specs.Prelude.{◌≡◌, ◌⊎◌, [], None, IfOk, IfErr, option_map};
ghost use Rattle.comm_targets.specs.Answers.{IsFreeAnswer, IsFreeFault};

use crate::call_log::CallLog;
use comm_messages::{Body, OutgoingBody};
use comm_targets::{
    Answer, Bodies, Custom, Event, Kind, OpenComms, SharedCustom, Target, TargetFault,
};
use comm_value::{Buffers, Dict, Text, Val};
use std::alloc::{AllocError, Global};

/// A target of kind Free that answers an event as its data say.
///
/// `"code":n` refuses the event with `Other(n)`, and `"memory":true` with `Memory`. Else `first` and `second` are the
/// data of its messages, `state` is the comm's new state, and to a message `custom` is what the caller is handed,
/// with the buffers of the event. `"now":true` gives the state that it was asked with as its state, and first of all
/// messages `{"now":STATE}`, or `{"now":null}` where it was asked with none.
///
/// Each call of it, but for those that only ask what it is, is noted in a log that it is given: `open:ID`,
/// `message:ID`, `commit`, `abandon`, `close:ID` and `stop`, each behind whose it is.
#[derive(Drop)]
pub struct ScriptedTarget {
    alloc: Global,
    comms: OpenComms,
    whose: &'static str,
    log: Option<CallLog>,
}

impl ScriptedTarget {
    /// One that notes nothing.
    pub fn new(alloc: Global) -> ScriptedTarget
        ensures { ⟦<ScriptedTarget as Target>⟧.means result
            ≡ record { kind = Kind.Free; notes = 0; ids = []; staged = None } }
    {
        ScriptedTarget {
            alloc,
            comms: OpenComms::new(),
            whose: "",
            log: None,
        }
    }

    /// One that notes its calls, each behind `whose`, which may be empty.
    pub fn with_log(alloc: Global, whose: &'static str, log: CallLog) -> ScriptedTarget
        ensures { ⟦<ScriptedTarget as Target>⟧.means result
            ≡ record { kind = Kind.Free; notes = 0; ids = []; staged = None } }
    {
        ScriptedTarget {
            alloc,
            comms: OpenComms::new(),
            whose,
            log: Some(log),
        }
    }

    fn note(&self, word: &str, id: &str) {
        if let Some(log) = &self.log {
            log.note(self.whose, word, id);
        }
    }
}

fn code_in(data: &Dict) -> Option<u32> {
    match data.get("code") {
        Some(Val::Whole(code)) => u32::try_from(code.get()).ok(),
        _ => None,
    }
}

fn has_flag(data: &Dict, key: &str) -> bool {
    matches!(data.get(key), Some(Val::Bool(true)))
}

fn dict_in(data: &Dict, key: &str) -> Result<Option<Dict>, AllocError> {
    match data.get(key) {
        Some(Val::Dict(dict)) => Ok(Some(dict.copy()?)),
        _ => Ok(None),
    }
}

fn push_content(alloc: Global, content: Dict, messages: &mut Bodies) -> Result<(), AllocError> {
    if content.has_bytes() {
        return Ok(());
    }
    let body = Body::new(content, Buffers::none(alloc));
    messages.push(OutgoingBody::new(body))
}

fn push_message(
    alloc: Global,
    data: &Dict,
    key: &str,
    messages: &mut Bodies,
) -> Result<(), AllocError> {
    match dict_in(data, key)? {
        Some(content) => push_content(alloc, content, messages),
        None => Ok(()),
    }
}

// `{"now":STATE}`
fn push_now(alloc: Global, now: Option<&Dict>, messages: &mut Bodies) -> Result<(), AllocError> {
    let value = match now {
        Some(state) => Val::Dict(state.copy()?),
        None => Val::Null,
    };
    let key = Text::copy_of(alloc, "now")?;
    push_content(alloc, Dict::new().insert(alloc, key, value)?, messages)
}

fn push_messages(
    alloc: Global,
    data: &Dict,
    now: Option<&Dict>,
    messages: &mut Bodies,
) -> Result<(), AllocError> {
    if has_flag(data, "now") {
        push_now(alloc, now, messages)?;
    }
    push_message(alloc, data, "first", messages)?;
    push_message(alloc, data, "second", messages)
}

fn messages_in(alloc: Global, data: &Dict, now: Option<&Dict>) -> Result<Bodies, AllocError> {
    let mut messages = Bodies::new(alloc);
    push_messages(alloc, data, now, &mut messages)?;
    Ok(messages)
}

fn state_in(data: &Dict, now: Option<&Dict>) -> Result<Option<Dict>, AllocError> {
    match now {
        Some(state) if has_flag(data, "now") => Ok(Some(state.copy()?)),
        _ => dict_in(data, "state"),
    }
}

fn custom_in(alloc: Global, body: &Body) -> Result<Option<SharedCustom>, AllocError> {
    match body.content().get("custom") {
        Some(value) => {
            let custom = Custom {
                content: value.copy()?,
                buffers: body.buffers().copy(alloc)?,
            };
            Ok(Some(SharedCustom::new(alloc, custom)?))
        }
        None => Ok(None),
    }
}

fn answer_in(alloc: Global, data: &Dict, now: Option<&Dict>) -> Result<Answer, AllocError>
    ensures { IfOk result (λ a. a.custom ≡ None) }
{
    Ok(Answer {
        state: state_in(data, now)?,
        messages: messages_in(alloc, data, now)?,
        custom: None,
    })
}

fn answer_to(alloc: Global, event: &Event, now: Option<&Dict>) -> Result<Answer, TargetFault>
    ensures answers { IfOk result (IsFreeAnswer event.now) }
    ensures refuses { IfErr result (λ f. (f ≡ TargetFault.Memory) ⊎ IsFreeFault f) }
{
    let (body, custom) = match event {
        Event::Open { body, .. } => (body, None),
        Event::Msg { body, .. } => (body, custom_in(alloc, body)?),
        _ => return Err(TargetFault::Other(1)),
    };
    let data = body.content();
    if has_flag(data, "memory") {
        return Err(TargetFault::Memory);
    }
    if let Some(code) = code_in(data) {
        return Err(TargetFault::Other(code));
    }
    let mut answer = answer_in(alloc, data, now)?;
    answer.custom = custom;
    Ok(answer)
}

/// The word for what is asked.
fn word_of(event: &Event) -> &'static str {
    match event {
        Event::Open { .. } => "open:",
        Event::Msg { .. } => "message:",
        Event::Launch { .. } => "launch:",
        Event::Push { .. } => "push:",
    }
}

impl Target for ScriptedTarget {
    ghost use Rattle.comm_targets.specs.declared.kind.Kind.TheVariants as kind;

    ghost means = { λ t. record { kind = kind.Free; notes = 0; ids = t.comms.ids; staged = t.comms.staged } };

    fn kind(&self) -> Kind {
        Kind::Free
    }

    fn notes(&self) -> u64 {
        0
    }

    fn idle(&self) -> bool {
        self.comms.is_idle()
    }

    fn prepare(&mut self, event: &Event, now: Option<&Dict>) -> Result<Answer, TargetFault> {
        self.note(word_of(event), event.id().as_str());
        let answer = answer_to(self.alloc, event, now)?;
        self.comms.stage(event, &answer)?;
        Ok(answer)
    }

    fn commit(&mut self) {
        self.note("commit", "");
        self.comms.commit();
    }

    fn abandon(&mut self) {
        self.note("abandon", "");
        self.comms.abandon();
    }

    fn close(&mut self, id: &str) {
        self.note("close:", id);
        self.comms.close(id);
    }

    fn stop(&mut self) {
        self.note("stop", "");
    }
}
