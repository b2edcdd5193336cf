//! What a history is made of.
ghost use Rattle.std.specs.Prelude.{◌≡◌, ◌++◌, IfOk, OnOk};
ghost use Rattle.std.specs.Arc.{arc_value};
ghost use Rattle.comm_core.specs.Told.{IsTold, bodies_in, body_of};
ghost use Rattle.comm_core.specs.declared.entry.Entry.TheVariants.{Change};

use crate::ask::custom_copy;
use crate::call::Call;
use crate::kept_answer::KeptAnswer;
use crate::prepared_change::{PreparedChange, Ready};
use crate::reply::Reply;
use comm_messages::Outgoing;
use comm_targets::{Answer, Bodies, Target, TargetFault};
use std::alloc::{AllocError, Global};
use std::marker::Model;
use std::sync::Arc;

/// What goes out, in its order.
#[derive(Drop)]
pub struct Outgoings {
    all: Vec<Outgoing>,
}

impl Model for Outgoings {
    ghost use Rattle.std.specs.Prelude.{List};
    ghost use Rattle.std.specs.Coded.{coded_list};
    ghost use Rattle.comm_messages.specs.declared.outgoing.Outgoing.{Outgoing};
    ghost use Rattle.comm_messages.specs.contracts.outgoing.Outgoing as outgoing;

    ghost Value = { List Outgoing };

    ghost coded = { coded_list outgoing.the_row.coded };

    ghost view = { λ o. o.all.items };
}

/// An entry of a history.
#[derive(Drop)]
pub enum Entry {
    /// The call of a client, by its number among that client's calls, from 1, with what a target gave where one was
    /// asked, the reply, and what went out.
    Change {
        client: u8,
        number: u64,
        call: Call,
        outcome: Option<Result<KeptAnswer, TargetFault>>,
        reply: Reply,
        outgoing: Outgoings,
    },
    /// The end closes a history.
    End,
}

impl Outgoings {
    /// These messages, which are moved in.
    pub fn new(all: Vec<Outgoing>) -> Outgoings
        ensures { result ≡ all.items }
    {
        Outgoings { all }
    }

    /// A copy of these messages, which shares their strings and buffers. Err: memory.
    pub fn copy_of(alloc: Global, messages: &[Outgoing]) -> Result<Outgoings, AllocError>
        ensures { IfOk result (λ o. o ≡ messages.now) }
    {
        let mut all = Vec::with_capacity(alloc, messages.len())?;
        for message in messages {
            all.push(message.copy(alloc)?)?;
        }
        Ok(Outgoings { all })
    }

    /// The messages, in the order in which they go out.
    pub fn as_slice(&self) -> &[Outgoing]
        ensures { result.now ≡ self.now }
    {
        self.all.as_slice()
    }

    /// The messages, which are moved out.
    pub fn into_vec(self) -> Vec<Outgoing>
        ensures { result.items ≡ self }
    {
        let Outgoings { all } = self;
        all
    }
}

// Adds the body of a message on a comm, shared.
fn push_body(alloc: Global, message: &Outgoing, all: &mut Bodies) -> Result<(), AllocError>
    ensures { OnOk result (all.new ≡ all.old ++ body_of message.now) }
{
    match message {
        Outgoing::Msg { body, .. } => {
            let body = body.copy(alloc)?;
            all.push(body)
        }
        _ => Ok(()),
    }
}

// The bodies of those of these that are messages on a comm, shared.
fn bodies_in(alloc: Global, outgoing: &[Outgoing]) -> Result<Bodies, AllocError>
    ensures { IfOk result (λ b. b ≡ bodies_in outgoing.now) }
{
    let mut all = Bodies::new(alloc);
    for message in outgoing {
        push_body(alloc, message, &mut all)?;
    }
    Ok(all)
}

// A copy of this answer, shared. Its messages are among what goes out.
fn answer_copy(
    alloc: Global,
    answer: &KeptAnswer,
    outgoing: &[Outgoing],
) -> Result<KeptAnswer, AllocError>
    requires { answer.now.messages ≡ bodies_in outgoing.now }
    ensures { IfOk result (λ a. a ≡ answer.now) }
{
    let state = answer.state_copy()?;
    let custom = custom_copy(&answer.custom)?;
    let (kept, messages) = KeptAnswer::take(Answer {
        state,
        messages: bodies_in(alloc, outgoing)?,
        custom,
    });
    drop(messages);
    Ok(kept)
}

// A copy of what a target gave, shared.
fn outcome_copy(
    alloc: Global,
    outcome: &Option<Result<KeptAnswer, TargetFault>>,
    outgoing: &[Outgoing],
) -> Result<Option<Result<KeptAnswer, TargetFault>>, AllocError>
    requires { IsTold outcome.now outgoing.now }
    ensures { IfOk result (λ o. o ≡ outcome.now) }
{
    match outcome {
        Some(Ok(answer)) => Ok(Some(Ok(answer_copy(alloc, answer, outgoing)?))),
        Some(Err(fault)) => Ok(Some(Err(*fault))),
        None => Ok(None),
    }
}

impl<T: Target> Ready<T> {
    /// The entry of this change in a history: who asks for it, by the client and the call's number among that
    /// client's calls, the very call, what the target gave, the reply and what goes out. What these carry is shared.
    /// Err: memory.
    pub fn entry(
        &self,
        alloc: Global,
        client: u8,
        number: u64,
    ) -> Result<Arc<Entry, Global>, AllocError>
        ensures { IfOk result (λ e. arc_value e ≡ Change client number
            self.now.call self.now.outcome self.now.reply self.now.outgoing) }
    {
        self.prepared
            .entry(alloc, client, number, self.call.copy(alloc)?)
    }
}

impl<T: Target> PreparedChange<T> {
    /// The entry of this change in a history, as `Ready::entry`, with the copy of the call that the caller kept. What
    /// the others carry is shared. Err: memory.
    pub fn entry(
        &self,
        alloc: Global,
        client: u8,
        number: u64,
        call: Call,
    ) -> Result<Arc<Entry, Global>, AllocError>
        ensures { IfOk result (λ e. arc_value e ≡ Change client number
            call self.now.outcome self.now.reply self.now.outgoing) }
    {
        let Ok((outcome, reply, outgoing)) = self.result_copy(alloc) else {
            drop(call);
            return Err(AllocError);
        };
        Ok(Arc::new(
            alloc,
            Entry::Change {
                client,
                number,
                call,
                outcome,
                reply,
                outgoing,
            },
        )?)
    }

    // What the target gave, the reply and what goes out, shared.
    fn result_copy(
        &self,
        alloc: Global,
    ) -> Result<(Option<Result<KeptAnswer, TargetFault>>, Reply, Outgoings), AllocError>
        ensures { IfOk result (λ r. r ≡ (self.now.outcome, self.now.reply, self.now.outgoing)) }
    {
        let outgoing = Outgoings::copy_of(alloc, &self.outgoing)?;
        let reply = self.reply.copy(alloc)?;
        match outcome_copy(alloc, &self.outcome, &self.outgoing) {
            Ok(outcome) => Ok((outcome, reply, outgoing)),
            Err(fault) => {
                drop(reply);
                Err(fault)
            }
        }
    }
}
