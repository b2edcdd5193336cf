//! How a handle's manager is taken out and put back, and how it plays what a call asks for.
ghost use Rattle.std.specs.Prelude.{◌≡◌, ◌≢◌, ◌⊎◌, ◌↔◌, ◌≤◌, ◌^◌, None, Some, Err, IfOk, IsOk, IsSome, IsUtf8, Option};
ghost use Rattle.std.specs.Prelude.{option_map};
ghost use Rattle.comm_core.specs.Limits.{IsCommsLimit};
ghost use Rattle.comm_c.specs.Codes.{already_open, bad_kind, bad_limit, bad_name, bad_sizes, exhausted};
ghost use Rattle.comm_c.specs.Codes.{kind_numbered, memory, not_json, ok};
ghost use Rattle.comm_c.specs.Exports.{Ask, HasCalled, RegistersKind};
ghost use Rattle.comm_c.specs.Handles.{IsAllowed};
ghost use Rattle.comm_c.specs.Inputs.{Gives, Tested};
ghost use Rattle.comm_c.specs.ManagerState.{ManagerState, PlaysTested, new_manager};
ghost use Rattle.comm_c.specs.declared.input.CallFault.TheVariants.{BadName, BadSizes, NotJson};

use crate::codes::{
    ALREADY_OPEN, BAD_KIND, BAD_LIMIT, BAD_NAME, BAD_SIZES, CLOSED, EXHAUSTED, MEMORY, NOT_JSON,
    OK, kind_numbered,
};
use crate::copying::write_result;
use crate::handle::Handle;
use crate::held_manager::HeldManager;
use crate::input::{CallFault, Input};
use comm_messages::MessageFault;
use comm_script::LineFault;
use comm_value::{Numbers, Text};
use std::alloc::Global;
use std::{mem, str};

/// Takes the manager out of the handle, which has none afterwards.
pub fn take(handle: &mut Handle, alloc: Global) -> Option<Box<HeldManager>>
    ensures taken { option_map (λ b. b.value) result ≡ handle.old.value }
    ensures none { handle.new.value ≡ None }
{
    mem::replace(handle, Handle::empty()).into_box(alloc)
}

/// Puts the manager into the handle. A manager that was there is freed.
pub fn put(handle: &mut Handle, alloc: Global, manager: Box<HeldManager>)
    ensures { handle.new.value ≡ Some manager.value }
{
    let _freed = mem::replace(handle, Handle::of(manager)).into_box(alloc);
}

/// Makes a manager that takes these numbers as values, and puts it into a handle that has none. ALREADY_OPEN is
/// tested first, then BAD_LIMIT.
pub fn open_manager(alloc: Global, handle: &mut Handle, comms: usize, numbers: Numbers) -> u32
    ensures opened { result ≡ ok → handle.new.value ≡ Some (new_manager comms numbers) }
    ensures same { result ≢ ok → handle.new.value ≡ handle.old.value }
    ensures already_open { result ≡ already_open ↔ IsSome handle.old.value }
    ensures bad_limit { result ≡ bad_limit
        ↔ ((handle.old.value ≡ None) × ¬ (IsCommsLimit comms)) }
    ensures allowed { (result ≡ ok) ⊎ (result ≡ memory) → IsCommsLimit comms }
    ensures codes { (result ≡ ok) ⊎ (result ≡ memory) ⊎ (result ≡ bad_limit)
        ⊎ (result ≡ already_open) }
{
    match take(handle, alloc) {
        Some(held) => {
            put(handle, alloc, held);
            ALREADY_OPEN
        }
        None => {
            let Ok(manager) = HeldManager::new(alloc, comms, numbers) else {
                return BAD_LIMIT;
            };
            match Box::new(alloc, manager) {
                Ok(manager) => {
                    put(handle, alloc, manager);
                    OK
                }
                Err(_) => MEMORY,
            }
        }
    }
}

// Plays what a call asks for, or says which of its tests fails first. Whether the manager can have another call is
// tested last.
fn play(manager: &mut HeldManager, alloc: Global, input: Result<Input, CallFault>) -> u32
    requires { IfOk input IsAllowed }
    ensures plays { (asked : Tested) → Gives (λ i. i) input asked → result ≡ ok
        → PlaysTested manager.old asked manager.new }
    ensures same { result ≢ ok → manager.new ≡ manager.old }
    ensures sizes { (asked : Tested) → Gives (λ i. i) input asked → result ≡ bad_sizes
        → asked ≡ Err BadSizes }
    ensures name { (asked : Tested) → Gives (λ i. i) input asked → result ≡ bad_name
        → asked ≡ Err BadName }
    ensures json { (asked : Tested) → Gives (λ i. i) input asked → result ≡ not_json
        → asked ≡ Err NotJson }
    ensures full { result ≡ exhausted → 2 ^ 62 ≤ manager.old.number }
    ensures last { (asked : Tested) → Gives (λ i. i) input asked → result ≡ exhausted
        → IsOk asked }
    ensures codes { (result ≡ ok) ⊎ (result ≡ memory) ⊎ (result ≡ exhausted)
        ⊎ (result ≡ bad_sizes) ⊎ (result ≡ bad_name) ⊎ (result ≡ not_json) }
{
    match input {
        Ok(input) => {
            if manager.is_exhausted() {
                return EXHAUSTED;
            }
            match manager.play(alloc, input) {
                Ok(()) => OK,
                Err(_) => MEMORY,
            }
        }
        Err(CallFault::Memory) => MEMORY,
        Err(CallFault::BadName) => BAD_NAME,
        Err(CallFault::BadSizes) => BAD_SIZES,
        Err(CallFault::NotJson) => NOT_JSON,
    }
}

/// Plays what a call asks for, where its tests hold, and puts the manager back into the handle. `reply` gets the number
/// of its result, and `sent` how many messages it sends; both are 0 after an error.
#[tactic(auto, using(crate::proofs::Called::called))]
pub fn answer(
    alloc: Global,
    handle: &mut Handle,
    mut manager: Box<HeldManager>,
    input: Result<Input, CallFault>,
    reply: &mut u32,
    sent: &mut usize,
) -> u32
    requires { IfOk input IsAllowed }
    ensures { (ask : Ask) (old : Option ManagerState) → old ≡ Some manager.value
        → Gives (λ i. i) input (ask manager.value.counted_core)
        → HasCalled ask old handle.new.value result reply.new sent.new }
{
    *reply = 0;
    *sent = 0;
    let status = play(&mut manager, alloc, input);
    if status == OK {
        write_result(manager.call_result(), reply, sent);
    }
    put(handle, alloc, manager);
    status
}

/// The status of a call to a handle that has no manager; both numbers are 0.
#[tactic(auto, using(crate::proofs::Called::uncalled))]
pub fn without_manager(reply: &mut u32, sent: &mut usize) -> u32
    ensures { (ask : Ask) (old new : Option ManagerState) → old ≡ None → new ≡ None
        → HasCalled ask old new result reply.new sent.new }
{
    *reply = 0;
    *sent = 0;
    CLOSED
}

/// Registers a new target of the kind that has this number under a name. The kind is tested first, then the name, then
/// whether the manager can have another call.
#[tactic(auto, unfolding(crate::specs::Handles::Handles))]
pub fn register(
    manager: &mut HeldManager,
    alloc: Global,
    client: u32,
    kind: u32,
    name: &[u8],
) -> u32
    ensures registers { result ≡ ok
        → RegistersKind manager.old client (kind_numbered kind) name.now manager.new }
    ensures same { result ≢ ok → manager.new ≡ manager.old }
    ensures exhausted { result ≡ exhausted → 2 ^ 62 ≤ manager.old.number }
    ensures kind { result ≡ bad_kind → kind_numbered kind ≡ None }
    ensures known { result ≢ bad_kind → IsSome (kind_numbered kind) }
    ensures name { result ≡ bad_name → ¬ (IsUtf8 name.now) }
    ensures utf8 { result ≢ bad_kind → result ≢ bad_name → IsUtf8 name.now }
    ensures codes { (result ≡ ok) ⊎ (result ≡ memory) ⊎ (result ≡ exhausted) ⊎ (result ≡ bad_name)
        ⊎ (result ≡ bad_kind) }
{
    let Some(kind) = kind_numbered(kind) else {
        return BAD_KIND;
    };
    let Ok(name) = str::from_utf8(name) else {
        return BAD_NAME;
    };
    if manager.is_exhausted() {
        return EXHAUSTED;
    }
    if client < 4 {
        let Ok(name) = Text::copy_of(alloc, name) else {
            return MEMORY;
        };
        return match manager.register(alloc, client as u8, kind, name) {
            Ok(()) => OK,
            Err(_) => MEMORY,
        };
    }
    let fault = LineFault::Message(MessageFault::BadClient);
    match manager.play(alloc, Input::reading(Err(fault))) {
        Ok(()) => OK,
        Err(_) => MEMORY,
    }
}
