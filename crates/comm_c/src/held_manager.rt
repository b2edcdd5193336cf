//! A manager that stays between the calls of a kernel.
ghost use Rattle.std.specs.Prelude.{◌≡◌, ◌≢◌, ◌⊎◌, ◌<◌, ◌+◌, ◌^◌, ◌↔◌, ◌≤◌, Some, IsTrue, IfOk, IsOk};
ghost use Rattle.std.specs.Prelude.{OnOk, OnErr};
ghost use Rattle.comm_core.specs.Limits.{IsCommsLimit};
ghost use Rattle.comm_core.specs.Ready.{machine};
ghost use Rattle.comm_c.specs.BuiltinTarget.{kind_of};
ghost use Rattle.comm_c.specs.CallResult.{result_text};
ghost use Rattle.comm_c.specs.Codes.{buffer_too_small, memory, ok};
ghost use Rattle.comm_c.specs.CountedCore.{Registers};
ghost use Rattle.comm_c.specs.Exports.{FillsPart, IsLongerPart};
ghost use Rattle.comm_c.specs.Handles.{IsAllowed};
ghost use Rattle.comm_c.specs.Inputs.{Gives, launch_input, line_input, message_input, push_input, raw_tested, send_input};
ghost use Rattle.comm_c.specs.ManagerState.{Plays, new_manager};

use crate::builtin_target::BuiltinKind;
use crate::call_result::CallResult;
use crate::codes::MEMORY;
use crate::copying::copy_to_buffer;
use crate::counted_core::CountedCore;
use crate::input::{CallFault, Input};
use crate::inputs::{launch_input, line_input, push_input, send_input};
use crate::opaque::message_input;
use comm_core::{BadCommsLimit, Core};
use comm_messages::{PartsScratch, RawBuffers};
use comm_value::{KnownTexts, Numbers, Text};
use std::alloc::{AllocError, Global};
use std::marker::Model;
use std::mem;

/// How many calls a manager takes.
pub const MAX_CALLS: u64 = 4_611_686_018_427_387_904;

/// A core with its counts, how many calls were made, and the result of the last one. The memory that calls are parsed
/// into is kept, and short texts that were met; so is the result's text, once it was asked for, and whether an opaque
/// target was registered, for a message that is read.
pub struct HeldManager {
    counted_core: CountedCore,
    number: u64,
    call_result: CallResult,
    scratch: PartsScratch,
    texts: KnownTexts,
    has_opaque: bool,
    text: Vec<u8>,
    is_written: bool,
}

impl Model for HeldManager {
    ghost use Rattle.comm_c.specs.ManagerState.{IsUsable, ManagerState};
    ghost use Rattle.comm_c.specs.ManagerStateCode.{manager_state_code};

    ghost Value = { ManagerState };

    ghost coded = { manager_state_code };

    ghost view = { λ m. record {
      counted_core = m.counted_core;
      number = m.number;
      call_result = m.call_result;
    } };

    ghost invariant = { λ m.
        IsUsable m.counted_core m.number m.call_result m.is_written m.text.items };
}

impl HeldManager {
    /// A manager that has had no call, of which at most `comms` comms are open at a time, and that takes these
    /// numbers as values. Err: `comms` isn't from 1 to 1,048,576.
    pub fn new(alloc: Global, comms: usize, numbers: Numbers) -> Result<HeldManager, BadCommsLimit>
        ensures opened { IfOk result (λ m. m ≡ new_manager comms numbers) }
        ensures allowed { IsOk result ↔ IsCommsLimit comms }
    {
        let core = Core::with_comms_limit(alloc, comms)?;
        Ok(HeldManager {
            counted_core: CountedCore {
                core,
                changes: 0,
                made: [0; 4],
                numbers,
            },
            number: 0,
            call_result: CallResult::Nothing,
            scratch: PartsScratch::new(alloc),
            texts: KnownTexts::new(alloc),
            has_opaque: false,
            text: Vec::new(alloc),
            is_written: false,
        })
    }

    /// Whether it has had as many calls as it takes.
    pub fn is_exhausted(&self) -> bool
        ensures { IsTrue result ↔ (2 ^ 62 ≤ self.now.number) }
    {
        self.number >= MAX_CALLS
    }

    /// The result of the last call.
    pub fn call_result(&self) -> &CallResult
        ensures { result.now ≡ self.now.call_result }
    {
        &self.call_result
    }

    // ---- what calls ask for; Err: the first test that fails, or Memory

    /// What a message by its parts asks for.
    pub fn message(
        &mut self,
        alloc: Global,
        client: u32,
        header: &[u8],
        metadata: &[u8],
        content: &[u8],
        buffers: RawBuffers<'_>,
    ) -> Result<Input, CallFault>
        ensures input { Gives (λ i. i) result
            (message_input (machine self.new.counted_core.core) self.new.counted_core.numbers client
            header.now metadata.now content.now (raw_tested buffers.entry)) }
        ensures allowed { IfOk result IsAllowed }
        ensures same { self.new ≡ self.old }
    {
        message_input(
            alloc,
            &self.counted_core.core,
            self.counted_core.numbers,
            client,
            header,
            metadata,
            content,
            buffers,
            &mut self.scratch,
            &mut self.texts,
            self.has_opaque,
        )
    }

    /// What a launch by its parts asks for.
    pub fn launch(
        &mut self,
        alloc: Global,
        client: u32,
        target: &[u8],
        uuid: &[u8],
        state: &[u8],
        paths: &[u8],
        buffers: RawBuffers<'_>,
    ) -> Result<Input, CallFault>
        ensures input { Gives (λ i. i) result
            (launch_input self.new.counted_core.numbers client target.now uuid.now state.now
            paths.now (raw_tested buffers.entry)) }
        ensures allowed { IfOk result IsAllowed }
        ensures same { self.new ≡ self.old }
    {
        launch_input(
            alloc,
            self.counted_core.numbers,
            client,
            target,
            uuid,
            state,
            paths,
            buffers,
            &mut self.scratch,
            &mut self.texts,
        )
    }

    /// What a push by its parts asks for.
    pub fn push(
        &mut self,
        alloc: Global,
        client: u32,
        id: &[u8],
        state: &[u8],
        paths: &[u8],
        buffers: RawBuffers<'_>,
    ) -> Result<Input, CallFault>
        ensures input { Gives (λ i. i) result
            (push_input self.new.counted_core.numbers client id.now state.now paths.now
            (raw_tested buffers.entry)) }
        ensures allowed { IfOk result IsAllowed }
        ensures same { self.new ≡ self.old }
    {
        push_input(
            alloc,
            self.counted_core.numbers,
            client,
            id,
            state,
            paths,
            buffers,
            &mut self.scratch,
            &mut self.texts,
        )
    }

    /// What a send by its parts asks for.
    pub fn send(
        &mut self,
        alloc: Global,
        client: u32,
        id: &[u8],
        content: &[u8],
        buffers: RawBuffers<'_>,
    ) -> Result<Input, CallFault>
        ensures input { Gives (λ i. i) result
            (send_input self.new.counted_core.numbers client id.now content.now
            (raw_tested buffers.entry)) }
        ensures allowed { IfOk result IsAllowed }
        ensures same { self.new ≡ self.old }
    {
        send_input(
            alloc,
            self.counted_core.numbers,
            client,
            id,
            content,
            buffers,
            &mut self.scratch.content,
            &mut self.texts,
        )
    }

    // ---- calls

    /// Does what is asked for as the next call. Err: memory; nothing has changed.
    pub fn play(&mut self, alloc: Global, input: Input) -> Result<(), AllocError>
        requires room { self.old.number < 2 ^ 62 }
        requires allowed { IsAllowed input }
        ensures plays { OnOk result (Plays self.old input self.new) }
        ensures same { OnErr result (self.new ≡ self.old) }
    {
        let number = self.number + 1;
        let call_result = self.counted_core.handle(alloc, number, input)?;
        drop(mem::replace(&mut self.call_result, call_result));
        self.number = number;
        self.is_written = false;
        Ok(())
    }

    /// Plays a line as the next call. Err: memory; nothing has changed.
    pub fn line(&mut self, alloc: Global, line: &[u8]) -> Result<(), AllocError>
        requires { self.old.number < 2 ^ 62 }
        ensures plays { OnOk result
            (Plays self.old (line_input self.old.counted_core.numbers line.now) self.new) }
        ensures same { OnErr result (self.new ≡ self.old) }
    {
        let input = line_input(
            alloc,
            self.counted_core.numbers,
            line,
            &mut self.scratch.content,
            &mut self.texts,
        )?;
        self.play(alloc, input)
    }

    /// Registers a new target of the kind as the next call. Err: memory; nothing has changed.
    pub fn register(
        &mut self,
        alloc: Global,
        client: u8,
        kind: BuiltinKind,
        name: Text,
    ) -> Result<(), AllocError>
        requires room { self.old.number < 2 ^ 62 }
        requires client { client < 4 }
        ensures number { OnOk result (self.new.number ≡ self.old.number + 1) }
        ensures registers { OnOk result (Registers self.old.counted_core client (kind_of kind) name
            self.new.counted_core self.new.call_result) }
        ensures same { OnErr result (self.new ≡ self.old) }
    {
        self.has_opaque = self.has_opaque || kind.is_opaque();
        let call_result = self.counted_core.register(alloc, client, kind, name)?;
        drop(mem::replace(&mut self.call_result, call_result));
        self.number += 1;
        self.is_written = false;
        Ok(())
    }

    /// Copies the text of the last result to `out`. It is written when it is first asked for. MEMORY: nothing is lost,
    /// and it may be asked for again.
    pub fn copy_text(&mut self, alloc: Global, out: &mut [u8], size: &mut usize) -> u32
        ensures whole { result ≡ ok
            → FillsPart (Some (result_text self.old.call_result)) out.old out.new size.new }
        ensures longer { result ≡ buffer_too_small
            → IsLongerPart (Some (result_text self.old.call_result)) out.old size.new }
        ensures kept { result ≢ ok → out.new ≡ out.old }
        ensures size_stays { result ≢ ok → result ≢ buffer_too_small → size.new ≡ size.old }
        ensures same { self.new ≡ self.old }
        ensures codes { (result ≡ ok) ⊎ (result ≡ memory) ⊎ (result ≡ buffer_too_small) }
    {
        if !self.is_written {
            self.text.clear();
            if self.call_result.write_text(alloc, &mut self.text).is_err() {
                return MEMORY;
            }
            self.is_written = true;
        }
        copy_to_buffer(&self.text, out, size)
    }
}

impl Drop for HeldManager {
    fn drop(self) {
        let HeldManager {
            counted_core,
            number: _,
            call_result,
            scratch: _,
            texts: _,
            has_opaque: _,
            text: _,
            is_written: _,
        } = self;
        drop(call_result);
        let CountedCore {
            core,
            changes: _,
            made: _,
            numbers: _,
        } = counted_core;
        core.stop_all();
    }
}
