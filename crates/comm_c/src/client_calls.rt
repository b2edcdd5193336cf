//! How a handle's client is taken out and put back, and how it plays what a call asks for.
ghost use Rattle.std.specs.Prelude.{◌≡◌, ◌≢◌, ◌⊎◌, ◌↔◌, ◌≤◌, ◌^◌, None, Some, Err, IfErr, IfOk, IsSome, IsUtf8, OnErr, OnOk, length};
ghost use Rattle.std.specs.Prelude.{Option, option_map};
ghost use Rattle.comm_core.specs.Limits.{IsCommsLimit};
ghost use Rattle.comm_shared.specs.SharedView.{most_changes};
ghost use Rattle.comm_c.specs.ClientExports.{ClientAsk, HasClientCalled, HasOpened};
ghost use Rattle.comm_c.specs.ClientState.{ClientState};
ghost use Rattle.comm_c.specs.Clients.{ClientPlaysTested, machine_of};
ghost use Rattle.comm_c.specs.Codes.{already_open, bad_limit, bad_name, bad_sizes, busy, closed, exhausted};
ghost use Rattle.comm_c.specs.Codes.{memory, not_json, ok, stranger};
ghost use Rattle.comm_c.specs.Handles.{IsAllowed};
ghost use Rattle.comm_c.specs.Inputs.{Gives, Tested};
ghost use Rattle.comm_c.specs.declared.input.CallFault.TheVariants.{BadName, BadSizes, NotJson};

use crate::client::Client;
use crate::client_handle::ClientHandle;
use crate::codes::{
    ALREADY_OPEN, BAD_LIMIT, BAD_NAME, BAD_SIZES, BUSY, CLOSED, EXHAUSTED, MEMORY, NOT_JSON, OK,
    STRANGER,
};
use crate::copying::write_result;
use crate::desk::Desk;
use crate::input::{CallFault, Input};
use comm_shared::{ChangeFault, OpenFault};
use comm_value::Numbers;
use std::alloc::Global;
use std::mem;

/// Takes the client out of the handle, which has none afterwards.
pub fn take_client(handle: &mut ClientHandle, alloc: Global) -> Option<Box<Client>>
    ensures taken { option_map (λ b. b.value) result ≡ handle.old.value }
    ensures none { handle.new.value ≡ None }
{
    mem::replace(handle, ClientHandle::empty()).into_box(alloc)
}

/// Puts the client into the handle. A client that was there is freed.
pub fn put_client(handle: &mut ClientHandle, alloc: Global, client: Box<Client>)
    ensures { handle.new.value ≡ Some client.value }
{
    let _freed = mem::replace(handle, ClientHandle::of(client)).into_box(alloc);
}

/// Makes a manager that takes these numbers as values, and puts its first client into a handle that has none.
/// ALREADY_OPEN is tested first, then BAD_LIMIT.
#[tactic(auto, using(crate::proofs::Limited::limited))]
pub fn open_shared(alloc: Global, handle: &mut ClientHandle, comms: usize, numbers: Numbers) -> u32
    ensures opened { result ≡ ok → HasOpened comms numbers handle.new.value }
    ensures same { result ≢ ok → handle.new.value ≡ handle.old.value }
    ensures already_open { result ≡ already_open ↔ IsSome handle.old.value }
    ensures bad_limit { result ≡ bad_limit
        ↔ ((handle.old.value ≡ None) × ¬ (IsCommsLimit comms)) }
    ensures allowed { (result ≡ ok) ⊎ (result ≡ memory) → IsCommsLimit comms }
    ensures codes { (result ≡ ok) ⊎ (result ≡ memory) ⊎ (result ≡ bad_limit)
        ⊎ (result ≡ already_open) }
{
    match take_client(handle, alloc) {
        Some(held) => {
            put_client(handle, alloc, held);
            ALREADY_OPEN
        }
        None => {
            let client = match Client::open(alloc, comms, numbers) {
                Ok(client) => client,
                Err(OpenFault::BadLimit) => return BAD_LIMIT,
                Err(OpenFault::Memory) => return MEMORY,
            };
            match Box::new(alloc, client) {
                Ok(client) => {
                    put_client(handle, alloc, client);
                    OK
                }
                Err(_) => MEMORY,
            }
        }
    }
}

/// A client that has entered, with the desk.
pub struct Entered {
    pub client: Box<Client>,
    pub desk: Box<Desk>,
}

/// Takes the client out of the handle, and the desk through its gate. Err: CLOSED, or BUSY; all is as it was.
pub fn enter(alloc: Global, handle: &mut ClientHandle) -> Result<Entered, u32>
    ensures taken { IfOk result (λ e. handle.old.value ≡ Some e.client.value) }
    ensures none { OnOk result (handle.new.value ≡ None) }
    ensures same_history { IfOk result (λ e. e.desk.value.origin ≡ e.client.value.view.origin) }
    ensures same { OnErr result (handle.new.value ≡ handle.old.value) }
    ensures closed { IfErr result (λ status. (status ≡ closed) ↔ (handle.old.value ≡ None)) }
    ensures codes { IfErr result (λ status. (status ≡ closed) ⊎ (status ≡ busy)) }
{
    match take_client(handle, alloc) {
        Some(client) => match client.enter() {
            Some(desk) => Ok(Entered { client, desk }),
            None => {
                put_client(handle, alloc, client);
                Err(BUSY)
            }
        },
        None => Err(CLOSED),
    }
}

/// Gives the desk back, and puts the client into the handle.
pub fn leave(alloc: Global, handle: &mut ClientHandle, client: Box<Client>, desk: Box<Desk>)
    requires { desk.value.origin ≡ client.value.view.origin }
    ensures { handle.new.value ≡ Some client.value }
{
    client.leave(desk);
    put_client(handle, alloc, client);
}

/// The status of a change that wasn't made.
pub fn fault_status(fault: ChangeFault) -> u32
    ensures codes { (result ≡ memory) ⊎ (result ≡ exhausted) ⊎ (result ≡ stranger) }
    ensures full { result ≡ exhausted → fault ≡ ChangeFault.Full }
{
    match fault {
        ChangeFault::Memory => MEMORY,
        ChangeFault::Full => EXHAUSTED,
        ChangeFault::Stranger => STRANGER,
    }
}

// Plays what a call asks for, or says which of its tests fails first. Whether the client can have another call is tested
// last.
fn play(client: &mut Client, alloc: Global, desk: &mut Desk, input: Result<Input, CallFault>) -> u32
    requires same { desk.old.origin ≡ client.old.view.origin }
    requires allowed { IfOk input IsAllowed }
    ensures plays { (asked : Tested) → Gives (λ i. i) input asked → result ≡ ok
        → ClientPlaysTested client.old desk.old asked client.new desk.new }
    ensures same { result ≢ ok → client.new ≡ client.old }
    ensures stays { result ≢ ok → desk.new ≡ desk.old }
    ensures origin { desk.new.origin ≡ client.new.view.origin }
    ensures sizes { (asked : Tested) → Gives (λ i. i) input asked → result ≡ bad_sizes
        → asked ≡ Err BadSizes }
    ensures name { (asked : Tested) → Gives (λ i. i) input asked → result ≡ bad_name
        → asked ≡ Err BadName }
    ensures json { (asked : Tested) → Gives (λ i. i) input asked → result ≡ not_json
        → asked ≡ Err NotJson }
    ensures full { result ≡ exhausted
        → (2 ^ 62 ≤ client.old.number) ⊎ (length desk.old.entries ≡ most_changes) }
    ensures codes { (result ≡ ok) ⊎ (result ≡ memory) ⊎ (result ≡ exhausted)
        ⊎ (result ≡ bad_sizes) ⊎ (result ≡ bad_name) ⊎ (result ≡ not_json) ⊎ (result ≡ stranger) }
{
    match input {
        Ok(input) => {
            if client.is_exhausted() {
                return EXHAUSTED;
            }
            match client.play(alloc, desk, input) {
                Ok(()) => OK,
                Err(fault) => fault_status(fault),
            }
        }
        Err(CallFault::Memory) => MEMORY,
        Err(CallFault::BadName) => BAD_NAME,
        Err(CallFault::BadSizes) => BAD_SIZES,
        Err(CallFault::NotJson) => NOT_JSON,
    }
}

/// Plays what a call asks for, where its tests hold, gives the desk back and puts the client into the handle. `reply`
/// gets the number of its result, and `sent` how many messages it sends; both are 0 after an error.
#[tactic(auto, using(crate::proofs::ClientCalled::called))]
pub fn answer(
    alloc: Global,
    handle: &mut ClientHandle,
    mut client: Box<Client>,
    mut desk: Box<Desk>,
    input: Result<Input, CallFault>,
    reply: &mut u32,
    sent: &mut usize,
) -> u32
    requires same { desk.value.origin ≡ client.value.view.origin }
    requires allowed { IfOk input IsAllowed }
    ensures { (ask : ClientAsk) (old : Option ClientState) → old ≡ Some client.value
        → Gives (λ i. i) input (ask (machine_of desk.value) client.value.numbers)
        → HasClientCalled ask old handle.new.value result reply.new sent.new }
{
    *reply = 0;
    *sent = 0;
    let status = play(&mut client, alloc, &mut desk, input);
    if status == OK {
        write_result(client.call_result(), reply, sent);
    }
    leave(alloc, handle, client, desk);
    status
}

/// The status of a call that hasn't entered; both numbers are 0.
#[tactic(auto, using(crate::proofs::ClientCalled::not_entered))]
pub fn not_entered(status: u32, reply: &mut u32, sent: &mut usize) -> u32
    requires { (status ≡ closed) ⊎ (status ≡ busy) }
    ensures { (ask : ClientAsk) (old new : Option ClientState) → new ≡ old
        → ((status ≡ closed) ↔ (old ≡ None))
        → HasClientCalled ask old new result reply.new sent.new }
{
    *reply = 0;
    *sent = 0;
    status
}
