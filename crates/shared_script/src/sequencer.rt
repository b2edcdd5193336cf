//! Requests of several clients, one after another: each client hears the stamp of the last change before its own
//! request.
ghost use Rattle.std.specs.Prelude.{◌≡◌, ◌++◌, Some, IfErr, IfOk, IfSome, OnOk, MatchResult, length, option_map};
ghost use mathlib.Core.List.{IsPrefix};
ghost use Rattle.comm_messages.specs.declared.outgoing.Outgoing.TheVariants as out;
ghost use Rattle.comm_messages.specs.declared.outgoing.Parent.TheVariants as parent;
ghost use Rattle.comm_core.specs.History.{replay};
ghost use Rattle.comm_core.specs.Reads.{infos, state_of};
ghost use Rattle.comm_core.specs.Ready.{HandsNothingIn};
ghost use Rattle.comm_script.specs.Command.{HandsNothing};
ghost use Rattle.comm_script.specs.Player.{IsBackendFault};
ghost use Rattle.comm_script.specs.Words.{out_line, state_line};
ghost use Rattle.shared_script.specs.Faults.{IsSaid, full_of};
ghost use Rattle.shared_script.specs.Heard.{HasHeard, IsLater};

use crate::wording::{append_full, full_of, run_fault};
use comm_core::{Call, Unavailable};
use comm_manager::{
    Answered, Client, CountedHistory, HistoryStore, InfoRead, Manager, ManagerId, Stamp,
};
use comm_script::{
    LineFault, Request, RunFault, Stock, StockKind, append_bad, append_infos, append_state_line,
};
use comm_targets::Target;
use comm_value::Text;
use std::alloc::Global;
use std::sync::Wait;

/// Registers the first target of the kind that the stock has; None where it has none. The target comes back to the
/// stock's end where the change isn't made.
pub fn register_from_stock<M: ManagerId, T: Target, S: HistoryStore, R: Wait>(
    rt: &R,
    manager: &Manager<M, T, S>,
    client: &mut Client<M>,
    stock: &mut Stock<T>,
    kind: StockKind,
    name: Text,
) -> Option<Result<Answered<M>, Unavailable<Stamp<M>>>>
    ensures seen { IsPrefix client.old.seen client.new.seen }
    ensures made { IfSome result (λ made. IfOk made (λ a. IsPrefix client.old.seen a.stamp)) }
{
    let target = stock.take(kind)?;
    match client.register(rt, manager, name, target) {
        Ok(answered) => Some(Ok(answered)),
        Err((why, target)) => {
            stock.put_back(target);
            Some(Err(why))
        }
    }
}

/// Appends the line of the open comms, those of one target where a name is given, as the client sees them. Err:
/// Memory or NoReader.
pub fn append_infos_seen<M: ManagerId>(
    alloc: Global,
    client: &mut Client<M>,
    target: Option<&Text>,
    text: &mut Vec<u8>,
) -> Result<(), RunFault>
    ensures seen { IsPrefix client.old.seen client.new.seen }
    ensures text { OnOk result (text.new.items ≡ text.old.items ++ out_line (out.InfoReply
        (infos (replay M.limits.comms client.new.seen) (option_map (λ t. t.now) target.entry)))
        (parent.Read client.new.client (length client.new.seen))) }
    ensures fault { IfErr result IsBackendFault }
{
    match client.comm_info(alloc, target) {
        Ok(InfoRead { front, comms }) => {
            append_infos(client.id(), front, comms, text)?;
            Ok(())
        }
        Err(fault) => Err(run_fault(fault)),
    }
}

/// Appends the line of a comm's state, as the client sees it. Err: Memory or NoReader.
pub fn append_state_seen<M: ManagerId>(
    alloc: Global,
    client: &mut Client<M>,
    id: &Text,
    text: &mut Vec<u8>,
) -> Result<(), RunFault>
    ensures seen { IsPrefix client.old.seen client.new.seen }
    ensures text { OnOk result (text.new.items ≡ text.old.items
        ++ state_line (length client.new.seen)
        (state_of (replay M.limits.comms client.new.seen) id.now)) }
    ensures fault { IfErr result IsBackendFault }
{
    match client.state(id) {
        Ok(read) => {
            let written = append_state_line(alloc, read.front, &read.answer, text);
            drop(read);
            written?;
            Ok(())
        }
        Err(fault) => Err(run_fault(fault)),
    }
}

/// The stock, and the stamp of the last change.
#[derive(Drop)]
pub struct Sequencer<M: ManagerId, T: Target> {
    pub stock: Stock<T>,
    pub last: Option<Stamp<M>>,
}

impl<M: ManagerId, T: Target> Sequencer<M, T> {
    // The client hears of the last change.
    fn catch_up(&self, client: &mut Client<M>)
        ensures { HasHeard self.now.last client.new.seen }
    {
        if let Some(stamp) = &self.last {
            client.hear(stamp);
        }
    }

    // Keeps the stamp of a change that was made, and says why one wasn't.
    #[inline(always)]
    fn note(
        &mut self,
        number: u64,
        made: Result<Answered<M>, Unavailable<Stamp<M>>>,
        text: &mut Vec<u8>,
    ) -> Result<(), RunFault>
        ensures last { MatchResult made (λ a. self.new.last ≡ Some a.stamp)
            (λ _. self.new.last ≡ self.old.last) }
        ensures said { IfErr made (λ why. OnOk result
            (IsSaid number (full_of why) text.old.items text.new.items)) }
        ensures fault { IfErr result (λ e. e ≡ RunFault.Memory) }
    {
        match made {
            Ok(answered) => {
                self.last = Some(answered.stamp);
                Ok(())
            }
            Err(why) => {
                let full = full_of(&why);
                drop(why);
                append_full(number, full, text)
            }
        }
    }

    // Makes the change that a call asks for. What it is answered is in the history; here only that is said, by the
    // line's number, what has no room for a change that isn't made.
    fn change<R: Wait>(
        &mut self,
        rt: &R,
        manager: &Manager<M, T, CountedHistory>,
        client: &mut Client<M>,
        number: u64,
        call: Call,
        text: &mut Vec<u8>,
    ) -> Result<(), RunFault>
        requires { HandsNothingIn call }
        ensures seen { IsPrefix client.old.seen client.new.seen }
        ensures later { HasHeard self.old.last client.old.seen
            → IsLater self.old.last self.new.last }
        ensures fault { IfErr result (λ e. e ≡ RunFault.Memory) }
    {
        let made = client.ask(rt, manager, call);
        self.note(number, made, text)
    }

    // Registers the first target of the kind that the stock has, and says where there is none, or no room for the
    // change.
    fn register<R: Wait>(
        &mut self,
        rt: &R,
        manager: &Manager<M, T, CountedHistory>,
        client: &mut Client<M>,
        number: u64,
        kind: StockKind,
        name: Text,
        text: &mut Vec<u8>,
    ) -> Result<(), RunFault>
        ensures seen { IsPrefix client.old.seen client.new.seen }
        ensures later { HasHeard self.old.last client.old.seen
            → IsLater self.old.last self.new.last }
        ensures fault { IfErr result (λ e. e ≡ RunFault.Memory) }
    {
        match register_from_stock(rt, manager, client, &mut self.stock, kind, name) {
            Some(made) => self.note(number, made, text),
            None => {
                append_bad(number, LineFault::NoStock, text)?;
                Ok(())
            }
        }
    }

    /// Does what a line asks for, by its client, that hears of the last change first. Of a change only that is said
    /// why it isn't made; what it is answered is in the history. Err: Memory or NoReader.
    #[inline(always)]
    pub fn execute<R: Wait>(
        &mut self,
        rt: &R,
        manager: &Manager<M, T, CountedHistory>,
        alloc: Global,
        client: &mut Client<M>,
        number: u64,
        request: Request,
        text: &mut Vec<u8>,
    ) -> Result<(), RunFault>
        requires { HandsNothing request }
        ensures heard { HasHeard self.old.last client.new.seen }
        ensures later { IsLater self.old.last self.new.last }
        ensures fault { IfErr result IsBackendFault }
    {
        self.catch_up(client);
        match request {
            Request::Change(call) => self.change(rt, manager, client, number, call, text),
            Request::Register { kind, name } => {
                self.register(rt, manager, client, number, kind, name, text)
            }
            Request::Infos { target } => append_infos_seen(alloc, client, target.as_ref(), text),
            Request::State { id } => append_state_seen(alloc, client, &id, text),
        }
    }
}
