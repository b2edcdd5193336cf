//! The kernel's own calls of a client. Each gives the number of its result in `reply`, and how many messages it sends in
//! `sent`; both are 0 after an error. Tested are the handle, BUSY, the sizes, the names in their order, the JSON texts in
//! theirs, and how many calls were made.
ghost use Rattle.std.specs.Prelude.{◌≡◌, ◌≢◌, ◌⊎◌, ◌↔◌, None, IsSome, IsUtf8};
ghost use Rattle.comm_c.specs.ClientExports.{HasClientCalled, HasClientRegistered, HasClientResult, IsFull};
ghost use Rattle.comm_c.specs.Codes.{bad_kind, bad_name, busy, closed, exhausted, kind_numbered, memory, ok};
ghost use Rattle.comm_c.specs.Codes.{stranger};
ghost use Rattle.comm_c.specs.Inputs.{buffers_tested, close_input, launch_input, push_input, send_input};
ghost use Rattle.comm_c.specs.Inputs.{unregister_input};

use crate::client_calls::{Entered, answer, enter, not_entered, put_client, take_client};
use crate::client_handle::ClientHandle;
use crate::client_register::register;
use crate::codes::{CLOSED, OK};
use crate::copying::write_result;
use crate::inputs::{close_input, unregister_input};
use comm_messages::RawBuffers;
use std::alloc::Global;

/// Registers a new target of a kind (`ROLGUNAI_WIDGET`, `_PLAIN`, `_WIDGET_ECHO`, `_OPAQUE`) under a name, UTF-8. The
/// kind and the name are tested before BUSY.
#[unsafe(no_mangle)]
pub extern "C" fn rolgunai_client_register(
    alloc: Global,
    client: &mut ClientHandle,
    kind: u32,
    name: &[u8],
    reply: &mut u32,
    sent: &mut usize,
) -> u32
    ensures registered { result ≡ ok
        → HasClientRegistered (kind_numbered kind) name.now client.old.value client.new.value }
    ensures result_is { result ≡ ok → HasClientResult client.new.value reply.new sent.new }
    ensures same { result ≢ ok → client.new.value ≡ client.old.value }
    ensures nothing { result ≢ ok → (reply.new ≡ 0) × (sent.new ≡ 0) }
    ensures closed { result ≡ closed ↔ (client.old.value ≡ None) }
    ensures full { result ≡ exhausted → IsFull client.old.value }
    ensures kind { result ≡ bad_kind → kind_numbered kind ≡ None }
    ensures known { result ≢ closed → result ≢ bad_kind → IsSome (kind_numbered kind) }
    ensures name { result ≡ bad_name → ¬ (IsUtf8 name.now) }
    ensures utf8 { result ≢ closed → result ≢ bad_kind → result ≢ bad_name → IsUtf8 name.now }
    ensures codes { (result ≡ ok) ⊎ (result ≡ closed) ⊎ (result ≡ busy) ⊎ (result ≡ memory)
        ⊎ (result ≡ exhausted) ⊎ (result ≡ bad_name) ⊎ (result ≡ bad_kind)
        ⊎ (result ≡ stranger) }
{
    *reply = 0;
    *sent = 0;
    match take_client(client, alloc) {
        Some(mut here) => {
            let status = register(&mut here, alloc, kind, name);
            if status == OK {
                write_result(here.call_result(), reply, sent);
            }
            put_client(client, alloc, here);
            status
        }
        None => CLOSED,
    }
}

/// Takes the target of a name out: its comms are closed, then it ends.
#[unsafe(no_mangle)]
pub extern "C" fn rolgunai_client_unregister(
    alloc: Global,
    client: &mut ClientHandle,
    name: &[u8],
    reply: &mut u32,
    sent: &mut usize,
) -> u32
    ensures { HasClientCalled (λ m numbers. unregister_input 0 name.now)
        client.old.value client.new.value result reply.new sent.new }
{
    match enter(alloc, client) {
        Ok(entered) => {
            let Entered { client: here, desk } = entered;
            let input = unregister_input(alloc, 0, name);
            answer(alloc, client, here, desk, input, reply, sent)
        }
        Err(status) => not_entered(status, reply, sent),
    }
}

/// Opens a comm towards a widget target, with a state, a JSON object, and the buffers at the paths, a JSON list. The
/// comm's id is the UUID, in its form with hyphens.
#[unsafe(no_mangle)]
pub extern "C" fn rolgunai_client_launch(
    alloc: Global,
    client: &mut ClientHandle,
    target: &[u8],
    uuid: &[u8],
    state: &[u8],
    paths: &[u8],
    buffers: &[u8],
    sizes: &[usize],
    reply: &mut u32,
    sent: &mut usize,
) -> u32
    ensures { HasClientCalled (λ m numbers. launch_input numbers 0 target.now uuid.now state.now
        paths.now (buffers_tested buffers.now sizes.now))
        client.old.value client.new.value result reply.new sent.new }
{
    match enter(alloc, client) {
        Ok(entered) => {
            let Entered {
                client: here,
                mut desk,
            } = entered;
            let buffers = RawBuffers::Joined {
                bytes: buffers,
                sizes,
            };
            let input = desk.launch(alloc, here.numbers(), target, uuid, state, paths, buffers);
            answer(alloc, client, here, desk, input, reply, sent)
        }
        Err(status) => not_entered(status, reply, sent),
    }
}

/// Changes keys of a widget's state, and sends an `update` with just them. State and paths as of
/// `rolgunai_client_launch`.
#[unsafe(no_mangle)]
pub extern "C" fn rolgunai_client_push(
    alloc: Global,
    client: &mut ClientHandle,
    id: &[u8],
    state: &[u8],
    paths: &[u8],
    buffers: &[u8],
    sizes: &[usize],
    reply: &mut u32,
    sent: &mut usize,
) -> u32
    ensures { HasClientCalled (λ m numbers. push_input numbers 0 id.now state.now paths.now
        (buffers_tested buffers.now sizes.now))
        client.old.value client.new.value result reply.new sent.new }
{
    match enter(alloc, client) {
        Ok(entered) => {
            let Entered {
                client: here,
                mut desk,
            } = entered;
            let buffers = RawBuffers::Joined {
                bytes: buffers,
                sizes,
            };
            let input = desk.push(alloc, here.numbers(), id, state, paths, buffers);
            answer(alloc, client, here, desk, input, reply, sent)
        }
        Err(status) => not_entered(status, reply, sent),
    }
}

/// Sends a `comm_msg` with this `data`, a JSON object, on a comm, past its target.
#[unsafe(no_mangle)]
pub extern "C" fn rolgunai_client_send(
    alloc: Global,
    client: &mut ClientHandle,
    id: &[u8],
    content: &[u8],
    buffers: &[u8],
    sizes: &[usize],
    reply: &mut u32,
    sent: &mut usize,
) -> u32
    ensures { HasClientCalled (λ m numbers. send_input numbers 0 id.now content.now
        (buffers_tested buffers.now sizes.now))
        client.old.value client.new.value result reply.new sent.new }
{
    match enter(alloc, client) {
        Ok(entered) => {
            let Entered {
                client: here,
                mut desk,
            } = entered;
            let buffers = RawBuffers::Joined {
                bytes: buffers,
                sizes,
            };
            let input = desk.send(alloc, here.numbers(), id, content, buffers);
            answer(alloc, client, here, desk, input, reply, sent)
        }
        Err(status) => not_entered(status, reply, sent),
    }
}

/// Closes a comm, and sends a `comm_close`.
#[unsafe(no_mangle)]
pub extern "C" fn rolgunai_client_close(
    alloc: Global,
    client: &mut ClientHandle,
    id: &[u8],
    reply: &mut u32,
    sent: &mut usize,
) -> u32
    ensures { HasClientCalled (λ m numbers. close_input 0 id.now)
        client.old.value client.new.value result reply.new sent.new }
{
    match enter(alloc, client) {
        Ok(entered) => {
            let Entered { client: here, desk } = entered;
            let input = close_input(alloc, 0, id);
            answer(alloc, client, here, desk, input, reply, sent)
        }
        Err(status) => not_entered(status, reply, sent),
    }
}
