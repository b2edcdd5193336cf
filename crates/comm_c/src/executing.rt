//! What a core does for what a call asks for.
ghost use Rattle.std.specs.Prelude.{◌≡◌, ◌^◌, ◌<◌, ◌∷◌, [], true, IfOk, OnErr, option_map};
ghost use Rattle.comm_messages.specs.declared.outgoing.Outgoing.TheVariants as out;
ghost use Rattle.comm_core.specs.Ready.{machine};
ghost use Rattle.comm_core.specs.Reads.{infos, state_of};
ghost use Rattle.comm_script.specs.Command.{HandsNothing};
ghost use Rattle.comm_c.specs.BuiltinTarget.{kind_of};
ghost use Rattle.comm_c.specs.CountedCore.{HasMadeAtMost};
ghost use Rattle.comm_c.specs.Handles.{Executes, Handles, IsAllowed, closes_of, target_kind};

use crate::builtin_target::{BuiltinKind, BuiltinTarget};
use crate::call_result::CallResult;
use crate::counted_core::CountedCore;
use crate::input::Input;
use comm_core::{Core, Outgoings};
use comm_messages::{Infos, Outgoing};
use comm_script::{LineFault, Request, StockKind};
use comm_value::Text;
use std::alloc::{AllocError, Global};

/// The kind of target that a line registers.
pub fn target_kind(kind: StockKind) -> BuiltinKind
    ensures { kind_of result ≡ target_kind kind }
{
    match kind {
        StockKind::Echo => BuiltinKind::Echo,
        StockKind::Counter => BuiltinKind::Counter,
        StockKind::Widget => BuiltinKind::Widget,
        StockKind::WidgetEcho => BuiltinKind::WidgetEcho,
    }
}

/// The close that a frontend waits for which opens a comm of this id by what can't be read: none where the comm is open.
/// Err: memory.
pub fn closes_of(
    alloc: Global,
    core: &Core<BuiltinTarget>,
    opening: Option<Text>,
) -> Result<Outgoings, AllocError>
    ensures { IfOk result (λ o. o ≡ closes_of (machine core.now) opening) }
{
    let mut closes = Vec::new(alloc);
    if let Some(id) = opening {
        if !core.has_comm(&id) {
            closes.push(Outgoing::Close { id })?;
        }
    }
    Ok(Outgoings::new(closes))
}

/// A list of comms as the one message that is sent. Err: memory.
pub fn info_reply(alloc: Global, comms: Infos) -> Result<Outgoings, AllocError>
    ensures { IfOk result (λ o. o ≡ out.InfoReply comms ∷ []) }
{
    let mut sent = Vec::new(alloc);
    sent.push(Outgoing::InfoReply { comms })?;
    Ok(Outgoings::new(sent))
}

/// A list of no comms as the one message that is sent, for a list that is put in its place. Err: memory.
pub fn one_reply(alloc: Global) -> Result<Vec<Outgoing>, AllocError>
    ensures { IfOk result (λ v. v.items ≡ out.InfoReply [] ∷ []) }
{
    let comms = Infos::new(alloc, Vec::new(alloc))?;
    let mut sent = Vec::new(alloc);
    sent.push(Outgoing::InfoReply { comms })?;
    Ok(sent)
}

impl CountedCore {
    // Why the call of this number can't be read, with the close that a frontend waits for. Err: memory.
    fn bad(
        &self,
        alloc: Global,
        number: u64,
        fault: LineFault,
        opening: Option<Text>,
    ) -> Result<CallResult, AllocError>
        ensures { IfOk result (λ r. r
            ≡ CallResult.Bad number fault (closes_of (machine self.now.core) opening)) }
    {
        let closes = closes_of(alloc, &self.core, opening)?;
        Ok(CallResult::Bad {
            number,
            fault,
            closes,
        })
    }

    // The open comms, of one target's name or of all. Err: memory.
    fn infos(
        &mut self,
        alloc: Global,
        client: u8,
        target: Option<&Text>,
    ) -> Result<CallResult, AllocError>
        ensures infos { IfOk result (λ r. r ≡ CallResult.Infos client self.old.changes
            (out.InfoReply (infos (machine self.old.core) (option_map (λ t. t.now) target.entry))
            ∷ [])) }
        ensures same { self.new ≡ self.old }
    {
        let comms = self.core.listing(target)?;
        let front = self.changes;
        let sent = info_reply(alloc, comms)?;
        Ok(CallResult::Infos {
            client,
            front,
            sent,
        })
    }

    // The state of a comm. Err: memory.
    fn state(&self, id: &Text) -> Result<CallResult, AllocError>
        ensures { IfOk result (λ r. r ≡ CallResult.State self.now.changes
            (state_of (machine self.now.core) id.now)) }
    {
        let answer = self.core.state(id)?;
        Ok(CallResult::State {
            front: self.changes,
            answer,
        })
    }

    // Executes a client's request. Err: memory; nothing has changed.
    fn execute(
        &mut self,
        alloc: Global,
        client: u8,
        asked: Request,
    ) -> Result<CallResult, AllocError>
        requires client { client < 4 }
        requires room { HasMadeAtMost (2 ^ 63) self.old }
        requires settled { self.old.core.settled ≡ true }
        requires handless { HandsNothing asked }
        ensures executes { IfOk result (λ r. Executes self.old client asked self.new r) }
        ensures settled { self.new.core.settled ≡ true }
        ensures same { OnErr result (self.new ≡ self.old) }
    {
        match asked {
            Request::Change(call) => self.change(alloc, client, call),
            Request::Register { kind, name } => {
                self.register(alloc, client, target_kind(kind), name)
            }
            Request::Infos { target } => self.infos(alloc, client, target.as_ref()),
            Request::State { id } => self.state(&id),
        }
    }

    /// Does what the call of this number asks for. Err: memory; nothing has changed.
    #[tactic(auto, unfolding(crate::specs::Handles::Handles))]
    pub fn handle(
        &mut self,
        alloc: Global,
        number: u64,
        input: Input,
    ) -> Result<CallResult, AllocError>
        requires room { HasMadeAtMost (2 ^ 63) self.old }
        requires settled { self.old.core.settled ≡ true }
        requires allowed { IsAllowed input }
        ensures handles { IfOk result (λ r. Handles self.old number input self.new r) }
        ensures settled { self.new.core.settled ≡ true }
        ensures same { OnErr result (self.new ≡ self.old) }
    {
        let Input { asked, opening } = input;
        match asked {
            None => Ok(CallResult::Nothing),
            Some(Ok((client, request))) => self.execute(alloc, client, request),
            Some(Err(fault)) => self.bad(alloc, number, fault, opening),
        }
    }
}
