//! What a change needs to itself: the manager that clients share, and the memory that calls are read into.
ghost use Rattle.std.specs.Prelude.{◌≡◌, IfErr, IfOk, OnErr, length};
ghost use Rattle.comm_shared.specs.SharedView.{most_changes, newcomer, seats};
ghost use Rattle.comm_c.specs.BuiltinTarget.{kind_of};
ghost use Rattle.comm_c.specs.Clients.{ClientAnswers, GivesRegister, machine_of};
ghost use Rattle.comm_c.specs.Handles.{IsAllowed};
ghost use Rattle.comm_c.specs.Inputs.{Gives, launch_input, message_input, push_input, raw_tested, send_input};

use crate::builtin_target::{BuiltinKind, BuiltinTarget};
use crate::input::{CallFault, Input};
use crate::inputs::{launch_input, push_input, send_input};
use crate::opaque::message_input;
use crate::playing::{Played, play, register};
use comm_messages::{PartsScratch, RawBuffers};
use comm_shared::{ChangeFault, SharedClient, SharedManager};
use comm_value::{KnownTexts, Numbers, Text};
use comm_versions::RawFront;
use std::alloc::{AllocError, Global};
use std::marker::Model;

/// The manager, the memory that calls are parsed into, short texts that were met, and whether an opaque target was
/// registered. Contracts see the manager's history. To drop it is to end the manager.
pub struct Desk {
    manager: SharedManager<BuiltinTarget>,
    scratch: PartsScratch,
    texts: KnownTexts,
    has_opaque: bool,
}

impl Model for Desk {
    ghost use Rattle.comm_versions.specs.Code.{known_code};
    ghost use Rattle.comm_versions.specs.Known.{Known};

    ghost Value = { Known };

    ghost coded = { known_code };

    ghost view = { λ d. d.manager };
}

impl Desk {
    /// A desk for this manager.
    pub fn new(alloc: Global, manager: SharedManager<BuiltinTarget>) -> Desk
        ensures { result ≡ manager }
    {
        Desk {
            manager,
            scratch: PartsScratch::new(alloc),
            texts: KnownTexts::new(alloc),
            has_opaque: false,
        }
    }

    /// The history.
    pub fn front(&self) -> RawFront
        ensures front { result ≡ self.now }
        ensures clients { self.now.origin.clients ≡ seats }
    {
        self.manager.front()
    }

    /// A client in this seat, which has seen the whole history. Err: memory.
    pub fn join(&self, seat: u8) -> Result<SharedClient, AllocError>
        ensures { IfOk result (λ c. c ≡ newcomer self.now seat) }
    {
        SharedClient::join(&self.manager, seat)
    }

    /// Shows readers the last change, where they don't see it yet, and says whether they do.
    pub fn show(&mut self) -> bool
        ensures { self.new ≡ self.old }
    {
        self.manager.show_waiting()
    }

    // ---- what calls ask for; Err: the first test that fails, or Memory. Which client they name doesn't count.

    /// What a message by its parts asks for.
    pub fn message(
        &mut self,
        alloc: Global,
        numbers: Numbers,
        header: &[u8],
        metadata: &[u8],
        content: &[u8],
        buffers: RawBuffers<'_>,
    ) -> Result<Input, CallFault>
        ensures input { Gives (λ i. i) result
            (message_input (machine_of self.new) numbers 0 header.now metadata.now content.now
            (raw_tested buffers.entry)) }
        ensures allowed { IfOk result IsAllowed }
        ensures same { self.new ≡ self.old }
    {
        message_input(
            alloc,
            self.manager.core(),
            numbers,
            0,
            header,
            metadata,
            content,
            buffers,
            &mut self.scratch,
            &mut self.texts,
            self.has_opaque,
        )
    }

    /// What a launch by its parts asks for.
    pub fn launch(
        &mut self,
        alloc: Global,
        numbers: Numbers,
        target: &[u8],
        uuid: &[u8],
        state: &[u8],
        paths: &[u8],
        buffers: RawBuffers<'_>,
    ) -> Result<Input, CallFault>
        ensures input { Gives (λ i. i) result
            (launch_input numbers 0 target.now uuid.now state.now paths.now
            (raw_tested buffers.entry)) }
        ensures allowed { IfOk result IsAllowed }
        ensures same { self.new ≡ self.old }
    {
        launch_input(
            alloc,
            numbers,
            0,
            target,
            uuid,
            state,
            paths,
            buffers,
            &mut self.scratch,
            &mut self.texts,
        )
    }

    /// What a push by its parts asks for.
    pub fn push(
        &mut self,
        alloc: Global,
        numbers: Numbers,
        id: &[u8],
        state: &[u8],
        paths: &[u8],
        buffers: RawBuffers<'_>,
    ) -> Result<Input, CallFault>
        ensures input { Gives (λ i. i) result
            (push_input numbers 0 id.now state.now paths.now (raw_tested buffers.entry)) }
        ensures allowed { IfOk result IsAllowed }
        ensures same { self.new ≡ self.old }
    {
        push_input(
            alloc,
            numbers,
            0,
            id,
            state,
            paths,
            buffers,
            &mut self.scratch,
            &mut self.texts,
        )
    }

    /// What a send by its parts asks for.
    pub fn send(
        &mut self,
        alloc: Global,
        numbers: Numbers,
        id: &[u8],
        content: &[u8],
        buffers: RawBuffers<'_>,
    ) -> Result<Input, CallFault>
        ensures input { Gives (λ i. i) result
            (send_input numbers 0 id.now content.now (raw_tested buffers.entry)) }
        ensures allowed { IfOk result IsAllowed }
        ensures same { self.new ≡ self.old }
    {
        send_input(
            alloc,
            numbers,
            0,
            id,
            content,
            buffers,
            &mut self.scratch.content,
            &mut self.texts,
        )
    }

    // ---- calls of a client; Err: all is as it was

    /// Does what the client's call of this number asks for.
    pub fn play(
        &mut self,
        alloc: Global,
        client: &mut SharedClient,
        number: u64,
        input: Input,
    ) -> Result<Played, ChangeFault>
        requires same { self.old.origin ≡ client.old.origin }
        requires allowed { IsAllowed input }
        ensures answers { IfOk result (λ p.
            ClientAnswers client.old client.new self.old self.new number input p.call_result) }
        ensures origin { client.new.origin ≡ client.old.origin }
        ensures origin_stays { self.new.origin ≡ self.old.origin }
        ensures err { OnErr result ((client.new ≡ client.old) × (self.new ≡ self.old)) }
        ensures full { IfErr result (λ e. e ≡ ChangeFault.Full
            → length self.old.entries ≡ most_changes) }
    {
        play(alloc, &mut self.manager, client, number, input)
    }

    /// Registers a new target of the kind under the name.
    pub fn register(
        &mut self,
        alloc: Global,
        client: &mut SharedClient,
        kind: BuiltinKind,
        name: Text,
    ) -> Result<Played, ChangeFault>
        requires same { self.old.origin ≡ client.old.origin }
        ensures registers { IfOk result (λ p. GivesRegister client.old client.new self.old self.new
            (kind_of kind) name p.call_result) }
        ensures origin { client.new.origin ≡ client.old.origin }
        ensures origin_stays { self.new.origin ≡ self.old.origin }
        ensures err { OnErr result ((client.new ≡ client.old) × (self.new ≡ self.old)) }
        ensures full { IfErr result (λ e. e ≡ ChangeFault.Full
            → length self.old.entries ≡ most_changes) }
    {
        self.has_opaque = self.has_opaque || kind.is_opaque();
        register(alloc, &mut self.manager, client, kind, name)
    }
}

impl Drop for Desk {
    fn drop(self) {
        let Desk {
            manager,
            scratch: _,
            texts: _,
            has_opaque: _,
        } = self;
        manager.end();
    }
}
