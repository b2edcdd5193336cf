//! A core with counts of its changes, and one change of it.
ghost use Rattle.std.specs.Prelude.{◌≡◌, ◌+◌, ◌<◌, ◌^◌, true, IfOk, OnErr, Some};
ghost use Rattle.std.specs.Prelude.{slice_index, slice_set};
ghost use Rattle.comm_core.specs.Ready.{HandsNothingIn, IsReady, machine};
ghost use Rattle.comm_core.specs.Step.{step};
ghost use Rattle.comm_c.specs.Subject.{subject_of};
ghost use Rattle.comm_c.specs.CountedCore.{Changes, Registers, HasMadeAtMost, made_change};
ghost use Rattle.comm_c.specs.BuiltinTarget.{kind_of};

use crate::builtin_target::{BuiltinKind, BuiltinTarget};
use crate::call_result::{CallResult, MadeChange};
use crate::subject::{Subject, subject_of};
use comm_core::{Call, Core, Finished, Outgoings, PreparedChange};
use comm_value::{Numbers, Text};
use std::alloc::{AllocError, Global};

/// A core, how many changes were made, and how many by each client.
pub struct CountedCore {
    pub core: Core<BuiltinTarget>,
    pub changes: u64,
    pub made: [u64; 4],
    /// Which numbers are values.
    pub numbers: Numbers,
}

impl CountedCore {
    // Commits a prepared change of a client, and counts it. It takes no memory and can't fail.
    fn commit(
        &mut self,
        client: u8,
        subject: Subject,
        prepared: PreparedChange<BuiltinTarget>,
    ) -> MadeChange
        requires client { client < 4 }
        requires ready { IsReady self.old.core prepared }
        requires room { HasMadeAtMost (2 ^ 63) self.old }
        ensures step { step self.old.core.limit (machine self.old.core)
            prepared.call prepared.outcome ≡ Some (record {
              reply = result.reply;
              outgoing = result.sent;
              next = machine self.new.core;
            }) }
        ensures gives { result
            ≡ made_change self.old client subject prepared.reply prepared.outgoing }
        ensures limit { self.new.core.limit ≡ self.old.core.limit }
        ensures numbers { self.new.numbers ≡ self.old.numbers }
        ensures settled { self.new.core.settled ≡ true }
        ensures changes { self.new.changes ≡ self.old.changes + 1 }
        ensures made { self.new.made
            ≡ slice_set self.old.made client (slice_index self.old.made client + 1) }
    {
        let Finished {
            reply,
            outgoing,
            ended,
        } = self.core.commit(prepared);
        if let Some(held) = ended {
            held.end();
        }
        let i = client as usize;
        let number = self.changes + 1;
        let call = self.made[i] + 1;
        self.changes = number;
        self.made[i] = call;
        MadeChange {
            number,
            client,
            call,
            subject,
            reply,
            sent: Outgoings::new(outgoing),
        }
    }

    /// Makes a change that registers no target. Err: out of memory; nothing has changed.
    pub fn change(
        &mut self,
        alloc: Global,
        client: u8,
        call: Call,
    ) -> Result<CallResult, AllocError>
        requires client { client < 4 }
        requires room { HasMadeAtMost (2 ^ 63) self.old }
        requires settled { self.old.core.settled ≡ true }
        requires call { HandsNothingIn call }
        ensures changes { IfOk result (λ r. Changes self.old client call self.new r) }
        ensures settled { self.new.core.settled ≡ true }
        ensures same { OnErr result (self.new ≡ self.old) }
    {
        let subject = match subject_of(alloc, &self.core, &call) {
            Ok(subject) => subject,
            Err(fault) => {
                drop(call);
                return Err(fault);
            }
        };
        match self.core.prepare(call) {
            Ok(prepared) => Ok(CallResult::Change(self.commit(client, subject, prepared))),
            Err(fault) => {
                drop(subject);
                Err(fault)
            }
        }
    }

    /// Registers a new target of the kind under the name. Err: out of memory; nothing has changed.
    pub fn register(
        &mut self,
        alloc: Global,
        client: u8,
        kind: BuiltinKind,
        name: Text,
    ) -> Result<CallResult, AllocError>
        requires client { client < 4 }
        requires room { HasMadeAtMost (2 ^ 63) self.old }
        requires settled { self.old.core.settled ≡ true }
        ensures registers { IfOk result (λ r.
            Registers self.old client (kind_of kind) name self.new r) }
        ensures settled { self.new.core.settled ≡ true }
        ensures same { OnErr result (self.new ≡ self.old) }
    {
        let subject = Subject::of_target(&name)?;
        match self
            .core
            .begin_register(name, BuiltinTarget::new(alloc, kind))
        {
            Ok(ready) => {
                let (call, prepared) = ready.into_parts();
                drop(call);
                Ok(CallResult::Change(self.commit(client, subject, prepared)))
            }
            Err((fault, target)) => {
                drop(target);
                drop(subject);
                Err(fault)
            }
        }
    }
}
