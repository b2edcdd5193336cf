//! The result of a call, kept as values: its text and its parts are written when they are asked for.
ghost use Rattle.std.specs.Prelude.{◌≡◌, [], OnOk};
ghost use Rattle.comm_c.specs.CallResult.{delivered_number, reply_number, result_number, result_text, sent};
ghost use Rattle.comm_c.specs.CallResult.{state_number, target_number};

use crate::subject::Subject;
use comm_core::{Outgoings, Reply, StateAnswer};
use comm_messages::{Outgoing, Parent};
use comm_script::{LineFault, append_bad, append_outs, append_reply, append_state_line};
use comm_targets::SharedCustom;
use comm_value::Text;
use std::alloc::{AllocError, Global};

/// A change that was made: `number` among all changes, `call` among those of its client, what it is about, its reply,
/// and the messages that it sends.
#[derive(Drop)]
pub struct MadeChange {
    pub number: u64,
    pub client: u8,
    pub call: u64,
    pub subject: Subject,
    pub reply: Reply,
    pub sent: Outgoings,
}

/// What the last call gave.
#[derive(Drop)]
pub enum CallResult {
    /// Of a blank line, or before the first call.
    Nothing,
    /// Of the call of this number, which can't be read. A frontend that opens a comm by it is told to close it.
    Bad {
        number: u64,
        fault: LineFault,
        closes: Outgoings,
    },
    /// The open comms, in one message.
    Infos {
        client: u8,
        front: u64,
        sent: Outgoings,
    },
    /// The state of a comm.
    State {
        front: u64,
        answer: StateAnswer,
    },
    /// The name of the target of an open comm; None: no comm has the id. Clients alone ask for it.
    Target {
        front: u64,
        name: Option<Text>,
    },
    Change(MadeChange),
}

fn delivered_number(custom: &Option<SharedCustom>) -> u32
    ensures { result ≡ delivered_number custom.now }
{
    match custom {
        None => 8,
        Some(_) => 9,
    }
}

fn reply_number(reply: &Reply) -> u32
    ensures { result ≡ reply_number reply.now }
{
    match reply {
        Reply::Registered => 3,
        Reply::Replaced(_) => 4,
        Reply::Opened => 5,
        Reply::IdInUse => 6,
        Reply::OpenRefused(_) => 7,
        Reply::Delivered(custom) => delivered_number(custom),
        Reply::Fault(_) => 10,
        Reply::NoComm => 11,
        Reply::Closed => 12,
        Reply::Unregistered(_) => 13,
        Reply::NoTarget => 14,
        Reply::Launched => 15,
        Reply::NotWidget => 16,
    }
}

fn state_number(answer: &StateAnswer) -> u32
    ensures { result ≡ state_number answer.now }
{
    match answer {
        StateAnswer::NoComm => 11,
        StateAnswer::NoState => 18,
        StateAnswer::State(_) => 17,
    }
}

fn target_number(name: &Option<Text>) -> u32
    ensures { result ≡ target_number name.now }
{
    match name {
        None => 11,
        Some(_) => 19,
    }
}

impl CallResult {
    /// Its number for C. `rolgunai.h` has the same.
    pub fn number(&self) -> u32
        ensures { result ≡ result_number self.now }
    {
        match self {
            CallResult::Nothing => 0,
            CallResult::Bad { .. } => 1,
            CallResult::Infos { .. } => 2,
            CallResult::State { answer, .. } => state_number(answer),
            CallResult::Target { name, .. } => target_number(name),
            CallResult::Change(made) => reply_number(&made.reply),
        }
    }

    /// The messages that it sends, in their order.
    pub fn sent(&self) -> &[Outgoing]
        ensures { result.now ≡ sent self.now }
    {
        match self {
            CallResult::Bad { closes, .. } => closes.as_slice(),
            CallResult::Infos { sent, .. } => sent.as_slice(),
            CallResult::Change(made) => made.sent.as_slice(),
            CallResult::Nothing | CallResult::State { .. } | CallResult::Target { .. } => &[],
        }
    }

    /// Writes its text to an empty `text`. Err: memory; `text` may have a part of it.
    pub fn write_text(&self, alloc: Global, text: &mut Vec<u8>) -> Result<(), AllocError>
        requires { text.old.items ≡ [] }
        ensures { OnOk result (text.new.items ≡ result_text self.now) }
    {
        match self {
            CallResult::Nothing | CallResult::Target { .. } => {}
            CallResult::Bad { number, fault, .. } => append_bad(*number, *fault, text)?,
            CallResult::Infos {
                client,
                front,
                sent,
            } => {
                let parent = Parent::Read {
                    client: *client,
                    front: *front,
                };
                append_outs(sent.as_slice(), &parent, text)?;
            }
            CallResult::State { front, answer } => append_state_line(alloc, *front, answer, text)?,
            CallResult::Change(made) => {
                let parent = Parent::Call {
                    client: made.client,
                    number: made.call,
                };
                append_reply(made.number, &made.reply, text)?;
                append_outs(made.sent.as_slice(), &parent, text)?;
            }
        }
        Ok(())
    }
}
