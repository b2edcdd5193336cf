//! The manager of one thread, with its stock, as what a script is played over.
ghost use Rattle.std.specs.Prelude.{◌≡◌, ◌+◌, ◌^◌, ◌<◌, ◌≤◌, ◌++◌, ℕ, OnOk, IfOk, IfErr, [], true, slice_index};
ghost use Rattle.std.specs.Prelude.{slice_set, map, option_map};
ghost use Rattle.comm_messages.specs.declared.outgoing.Parent.TheVariants as parent;
ghost use Rattle.comm_messages.specs.declared.outgoing.Outgoing.TheVariants as out;
ghost use Rattle.comm_core.specs.declared.limits.Limits.{Limits};
ghost use Rattle.comm_core.specs.Limits.{AreAllowed};
ghost use Rattle.comm_core.specs.Reads.{infos, state_of};
ghost use Rattle.comm_core.specs.Ready.{HandsNothingIn, machine};
ghost use Rattle.comm_script.specs.Command.{HandsNothing};
ghost use Rattle.comm_script.specs.Played.{Standing, called, registered, executed};
ghost use Rattle.comm_script.specs.Stock.{first_of, shelved, AreIdle};
ghost use Rattle.comm_script.specs.Words.{reply_line, out_line, out_lines, state_line};

use crate::asked::{LineFault, Request};
use crate::backend::Backend;
use crate::fault::RunFault;
use crate::stock::{Stock, StockKind};
use crate::wording::{append_bad, append_infos, append_outs, append_reply, append_state_line};
use comm_core::{
    Call, Core, Limits, NewFault, Reply, exact_machines_leave_no_choice, steps_keep_machines_exact,
};
use comm_messages::{Outgoing, Parent};
use comm_targets::Target;
use comm_value::Text;
use std::alloc::Global;

/// A manager, the stock of targets, and how many changes were made, by each client too.
pub struct Session<T: Target> {
    pub limits: Limits,
    pub core: Core<T>,
    pub stock: Stock<T>,
    pub changes: u64,
    pub made: [u64; 4],
}

ghost use Rattle.comm_script.specs.Session.{Stands, IsSound};

impl<T: Target> Session<T> {
    /// A session that has played nothing. BadLimits: a limit is out of its bounds.
    pub fn new(alloc: Global, limits: Limits, targets: Vec<T>) -> Result<Session<T>, RunFault>
        requires { AreIdle (map T.means targets.items) }
        ensures stands { IfOk result (λ s. Stands limits
            (record { history = []; stock = shelved (map T.means targets.items) }) s) }
        ensures fresh { IfOk result (λ s. s.changes ≡ 0) }
        ensures sound { IfOk result IsSound }
        ensures fits { IfOk result (λ s. AreAllowed limits) }
        ensures fault { IfErr result (λ e. (e ≡ RunFault.BadLimits) × ¬ (AreAllowed limits)) }
    {
        match Core::new(alloc, limits) {
            Ok(core) => Ok(Session {
                limits,
                core,
                stock: Stock::new(targets),
                changes: 0,
                made: [0; 4],
            }),
            Err(NewFault::BadLimits) => Err(RunFault::BadLimits),
            Err(NewFault::Memory) => Err(RunFault::Memory),
        }
    }

    // Counts a change, and says what it came to.
    fn answer(
        &mut self,
        client: u8,
        reply: &Reply,
        outgoing: &[Outgoing],
        text: &mut Vec<u8>,
    ) -> Result<(), RunFault>
        requires client { client < 4 }
        requires few { self.old.changes < 2 ^ 63 }
        requires made { (c : ℕ) → slice_index self.old.made c ≤ self.old.changes }
        ensures text { OnOk result (text.new.items ≡ text.old.items
            ++ (reply_line (self.old.changes + 1) reply.now
            ++ out_lines outgoing.now
            (parent.Call client (slice_index self.old.made client + 1)))) }
        ensures counted { self.new ≡ record self.old {
          changes = self.old.changes + 1;
          made = slice_set self.old.made client (slice_index self.old.made client + 1);
        } }
        ensures made { (c : ℕ) → slice_index self.new.made c ≤ self.new.changes }
        ensures fault { IfErr result (λ e. e ≡ RunFault.Memory) }
    {
        self.changes += 1;
        let i = client as usize;
        self.made[i] += 1;
        let number = self.made[i];
        append_reply(self.changes, reply, text)?;
        append_outs(outgoing, &Parent::Call { client, number }, text)?;
        Ok(())
    }

    /// Ends every target that is registered, after its comms, and lets the rest of the stock go.
    pub fn end(self)
        requires { self.core.settled ≡ true }
    {
        let Session {
            limits: _,
            core,
            stock: _,
            changes: _,
            made: _,
        } = self;
        core.stop_all();
    }
}

impl<T: Target> Session<T> {
    // Makes the change that a call asks for, and says what it came to.
    fn change(&mut self, client: u8, call: Call, text: &mut Vec<u8>) -> Result<(), RunFault>
        requires client { client < 4 }
        requires few { self.old.changes < 2 ^ 63 }
        requires sound { IsSound self.old }
        requires call { HandsNothingIn call }
        ensures text { OnOk result ((limits : Limits) (now : Standing)
            → Stands limits now self.old
            → text.new.items ≡ text.old.items ++ (called limits now client call now.stock).text) }
        ensures stands { OnOk result ((limits : Limits) (now : Standing)
            → Stands limits now self.old
            → Stands limits (called limits now client call now.stock).after self.new) }
        ensures count { self.new.changes ≤ self.old.changes + 1 }
        ensures kept { IsSound self.new }
        ensures limits { self.new.limits ≡ self.old.limits }
        ensures fault { IfErr result (λ e. e ≡ RunFault.Memory) }
    {
        exact_machines_leave_no_choice();
        steps_keep_machines_exact();
        let (reply, outgoing) = self.core.step(call)?;
        let answered = self.answer(client, &reply, &outgoing, text);
        drop(reply);
        answered
    }

    // Registers the first target of the kind that the stock has, and says what that came to.
    fn register(
        &mut self,
        number: u64,
        client: u8,
        kind: StockKind,
        name: Text,
        text: &mut Vec<u8>,
    ) -> Result<(), RunFault>
        requires client { client < 4 }
        requires few { self.old.changes < 2 ^ 63 }
        requires sound { IsSound self.old }
        ensures text { OnOk result ((limits : Limits) (now : Standing)
            → Stands limits now self.old
            → text.new.items ≡ text.old.items
            ++ (registered limits now number client kind name (first_of kind now.stock)).text) }
        ensures stands { OnOk result ((limits : Limits) (now : Standing)
            → Stands limits now self.old
            → Stands limits (registered limits now number client kind name
            (first_of kind now.stock)).after self.new) }
        ensures count { self.new.changes ≤ self.old.changes + 1 }
        ensures kept { IsSound self.new }
        ensures limits { self.new.limits ≡ self.old.limits }
        ensures fault { IfErr result (λ e. e ≡ RunFault.Memory) }
    {
        exact_machines_leave_no_choice();
        steps_keep_machines_exact();
        match self.stock.take(kind) {
            None => {
                append_bad(number, LineFault::NoStock, text)?;
                Ok(())
            }
            Some(target) => match self.core.register(name, target) {
                Ok((reply, outgoing)) => {
                    let answered = self.answer(client, &reply, &outgoing, text);
                    drop(reply);
                    answered
                }
                Err((_, _target)) => Err(RunFault::Memory),
            },
        }
    }

    // Says which comms are open.
    fn infos(
        &mut self,
        client: u8,
        target: Option<&Text>,
        text: &mut Vec<u8>,
    ) -> Result<(), RunFault>
        ensures text { OnOk result (text.new.items ≡ text.old.items
            ++ out_line
            (out.InfoReply (infos (machine self.old.core) (option_map (λ t. t.now) target.entry)))
            (parent.Read client self.old.changes)) }
        ensures same { self.new ≡ self.old }
        ensures fault { IfErr result (λ e. e ≡ RunFault.Memory) }
    {
        let comms = self.core.listing(target)?;
        append_infos(client, self.changes, comms, text)?;
        Ok(())
    }

    // Says which state a comm has.
    fn state(&self, alloc: Global, id: &Text, text: &mut Vec<u8>) -> Result<(), RunFault>
        ensures text { OnOk result (text.new.items ≡ text.old.items
            ++ state_line self.now.changes (state_of (machine self.now.core) id.now)) }
        ensures fault { IfErr result (λ e. e ≡ RunFault.Memory) }
    {
        let answer = self.core.state(id)?;
        let written = append_state_line(alloc, self.changes, &answer, text);
        drop(answer);
        written?;
        Ok(())
    }

    /// Does what a line asks for, and says what came of it. Err: Memory.
    pub fn execute(
        &mut self,
        alloc: Global,
        number: u64,
        client: u8,
        request: Request,
        text: &mut Vec<u8>,
    ) -> Result<(), RunFault>
        requires client { client < 4 }
        requires few { self.old.changes < 2 ^ 63 }
        requires sound { IsSound self.old }
        requires handless { HandsNothing request }
        ensures text { OnOk result ((limits : Limits) (now : Standing)
            → Stands limits now self.old
            → text.new.items ≡ text.old.items ++ (executed limits now number client request).text) }
        ensures stands { OnOk result ((limits : Limits) (now : Standing)
            → Stands limits now self.old
            → Stands limits (executed limits now number client request).after self.new) }
        ensures count { self.new.changes ≤ self.old.changes + 1 }
        ensures kept { IsSound self.new }
        ensures limits { self.new.limits ≡ self.old.limits }
        ensures fault { IfErr result (λ e. e ≡ RunFault.Memory) }
    {
        match request {
            Request::Change(call) => self.change(client, call, text),
            Request::Register { kind, name } => { self.register(number, client, kind, name, text) }
            Request::Infos { target } => self.infos(client, target.as_ref(), text),
            Request::State { id } => self.state(alloc, &id, text),
        }
    }
}

impl<T: Target> Backend for Session<T> {
    ghost use Rattle.std.proofs.Common.{ap, refl, sym, ◌∙◌};
    ghost use Rattle.comm_script.specs.declared.fault.RunFault.TheVariants.{Memory};

    ghost is_sound = { λ clients s. IsSound s × (s.limits.clients ≡ clients) };

    ghost stands = { λ limits now s. Stands limits now s };

    ghost follows = { λ old new. new.limits ≡ old.limits };

    ghost change_count = { λ s. s.changes };

    ghost stops_by = { λ fault. fault ≡ Memory };

    ghost stops_by_memory = { refl };

    ghost follows_itself = { λ s. refl };

    ghost has_clients = { λ clients limits now s sound stands.
        ap (λ (l : Limits). l.clients) (sym stands.same) ∙ sound.1 };
}
