//! The kernel's own calls. Each gives the number of its result in `reply`, and how many messages it sends in `sent`;
//! both are 0 after an error. Tested are the handle, the kind, the sizes, the names in their order, the JSON texts in
//! theirs, and how many calls were made.
ghost use Rattle.std.specs.Prelude.{◌≡◌, ◌≢◌, ◌⊎◌, ◌↔◌, None, IsSome, IsUtf8};
ghost use Rattle.comm_c.specs.Codes.{bad_kind, bad_name, closed, exhausted, kind_numbered, memory, ok};
ghost use Rattle.comm_c.specs.Exports.{HasCalled, HasLastResult, HasRegistered, IsExhausted};
ghost use Rattle.comm_c.specs.Inputs.{buffers_tested, close_input, launch_input, push_input, send_input, state_input};
ghost use Rattle.comm_c.specs.Inputs.{unregister_input};

use crate::calls::{answer, put, register, take, without_manager};
use crate::codes::{CLOSED, OK};
use crate::copying::write_result;
use crate::handle::Handle;
use crate::inputs::{close_input, state_input, unregister_input};
use comm_messages::RawBuffers;
use std::alloc::Global;

/// Registers a new target of a kind (`ROLGUNAI_WIDGET`, `_PLAIN`, `_WIDGET_ECHO`, `_OPAQUE`) under a name, UTF-8. The
/// target is made for the call: there is no stock that could run out.
#[unsafe(no_mangle)]
pub extern "C" fn rolgunai_register(
    alloc: Global,
    handle: &mut Handle,
    client: u32,
    kind: u32,
    name: &[u8],
    reply: &mut u32,
    sent: &mut usize,
) -> u32
    ensures registered { result ≡ ok
        → HasRegistered handle.old.value client (kind_numbered kind) name.now handle.new.value }
    ensures result_is { result ≡ ok → HasLastResult handle.new.value reply.new sent.new }
    ensures same { result ≢ ok → handle.new.value ≡ handle.old.value }
    ensures nothing { result ≢ ok → (reply.new ≡ 0) × (sent.new ≡ 0) }
    ensures closed { result ≡ closed ↔ (handle.old.value ≡ None) }
    ensures full { result ≡ exhausted → IsExhausted handle.old.value }
    ensures kind { result ≡ bad_kind → kind_numbered kind ≡ None }
    ensures known { result ≢ closed → result ≢ bad_kind → IsSome (kind_numbered kind) }
    ensures name { result ≡ bad_name → ¬ (IsUtf8 name.now) }
    ensures utf8 { result ≢ closed → result ≢ bad_kind → result ≢ bad_name → IsUtf8 name.now }
    ensures codes { (result ≡ ok) ⊎ (result ≡ closed) ⊎ (result ≡ memory) ⊎ (result ≡ exhausted)
        ⊎ (result ≡ bad_name) ⊎ (result ≡ bad_kind) }
{
    *reply = 0;
    *sent = 0;
    match take(handle, alloc) {
        Some(mut manager) => {
            let status = register(&mut manager, alloc, client, kind, name);
            if status == OK {
                write_result(manager.call_result(), reply, sent);
            }
            put(handle, alloc, manager);
            status
        }
        None => CLOSED,
    }
}

/// Takes the target of a name out: its comms are closed, then it ends.
#[unsafe(no_mangle)]
pub extern "C" fn rolgunai_unregister(
    alloc: Global,
    handle: &mut Handle,
    client: u32,
    name: &[u8],
    reply: &mut u32,
    sent: &mut usize,
) -> u32
    ensures { HasCalled (λ d. unregister_input client name.now)
        handle.old.value handle.new.value result reply.new sent.new }
{
    match take(handle, alloc) {
        Some(manager) => {
            let input = unregister_input(alloc, client, name);
            answer(alloc, handle, manager, input, reply, sent)
        }
        None => without_manager(reply, sent),
    }
}

/// Opens a comm towards a widget target, with a state, a JSON object, and the buffers at the paths, a JSON list. The
/// comm's id is the UUID, in its form with hyphens.
#[unsafe(no_mangle)]
pub extern "C" fn rolgunai_launch(
    alloc: Global,
    handle: &mut Handle,
    client: u32,
    target: &[u8],
    uuid: &[u8],
    state: &[u8],
    paths: &[u8],
    buffers: &[u8],
    sizes: &[usize],
    reply: &mut u32,
    sent: &mut usize,
) -> u32
    ensures { HasCalled (λ d. launch_input d.numbers client target.now uuid.now state.now paths.now
        (buffers_tested buffers.now sizes.now))
        handle.old.value handle.new.value result reply.new sent.new }
{
    match take(handle, alloc) {
        Some(mut manager) => {
            let buffers = RawBuffers::Joined {
                bytes: buffers,
                sizes,
            };
            let input = manager.launch(alloc, client, target, uuid, state, paths, buffers);
            answer(alloc, handle, manager, input, reply, sent)
        }
        None => without_manager(reply, sent),
    }
}

/// Changes keys of a widget's state, and sends an `update` with just them. State and paths as of `rolgunai_launch`.
#[unsafe(no_mangle)]
pub extern "C" fn rolgunai_push(
    alloc: Global,
    handle: &mut Handle,
    client: u32,
    id: &[u8],
    state: &[u8],
    paths: &[u8],
    buffers: &[u8],
    sizes: &[usize],
    reply: &mut u32,
    sent: &mut usize,
) -> u32
    ensures { HasCalled (λ d. push_input d.numbers client id.now state.now paths.now
        (buffers_tested buffers.now sizes.now))
        handle.old.value handle.new.value result reply.new sent.new }
{
    match take(handle, alloc) {
        Some(mut manager) => {
            let buffers = RawBuffers::Joined {
                bytes: buffers,
                sizes,
            };
            let input = manager.push(alloc, client, id, state, paths, buffers);
            answer(alloc, handle, manager, input, reply, sent)
        }
        None => without_manager(reply, sent),
    }
}

/// Sends a `comm_msg` with this `data`, a JSON object, on a comm, past its target.
#[unsafe(no_mangle)]
pub extern "C" fn rolgunai_send(
    alloc: Global,
    handle: &mut Handle,
    client: u32,
    id: &[u8],
    content: &[u8],
    buffers: &[u8],
    sizes: &[usize],
    reply: &mut u32,
    sent: &mut usize,
) -> u32
    ensures { HasCalled (λ d. send_input d.numbers client id.now content.now
        (buffers_tested buffers.now sizes.now))
        handle.old.value handle.new.value result reply.new sent.new }
{
    match take(handle, alloc) {
        Some(mut manager) => {
            let buffers = RawBuffers::Joined {
                bytes: buffers,
                sizes,
            };
            let input = manager.send(alloc, client, id, content, buffers);
            answer(alloc, handle, manager, input, reply, sent)
        }
        None => without_manager(reply, sent),
    }
}

/// Closes a comm, and sends a `comm_close`.
#[unsafe(no_mangle)]
pub extern "C" fn rolgunai_close(
    alloc: Global,
    handle: &mut Handle,
    client: u32,
    id: &[u8],
    reply: &mut u32,
    sent: &mut usize,
) -> u32
    ensures { HasCalled (λ d. close_input client id.now)
        handle.old.value handle.new.value result reply.new sent.new }
{
    match take(handle, alloc) {
        Some(manager) => {
            let input = close_input(alloc, client, id);
            answer(alloc, handle, manager, input, reply, sent)
        }
        None => without_manager(reply, sent),
    }
}

/// Reads a comm's state: the content of the reply is the state and the paths of its buffers, which are the reply's.
#[unsafe(no_mangle)]
pub extern "C" fn rolgunai_state(
    alloc: Global,
    handle: &mut Handle,
    id: &[u8],
    reply: &mut u32,
    sent: &mut usize,
) -> u32
    ensures { HasCalled (λ d. state_input id.now)
        handle.old.value handle.new.value result reply.new sent.new }
{
    match take(handle, alloc) {
        Some(manager) => {
            let input = state_input(alloc, id);
            answer(alloc, handle, manager, input, reply, sent)
        }
        None => without_manager(reply, sent),
    }
}
