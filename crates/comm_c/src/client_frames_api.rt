//! The calls of a client that take buffers, with each where it lies.
ghost use Rattle.comm_c.specs.ClientExports.{HasClientCalled};
ghost use Rattle.comm_c.specs.Inputs.{frames_tested, launch_input, message_input, push_input, send_input};

use crate::client_calls::{Entered, answer, enter, not_entered};
use crate::client_handle::ClientHandle;
use comm_messages::{Frame, RawBuffers};
use std::alloc::Global;

/// As `rolgunai_client_handle_message`, with each buffer where it lies: it is copied once.
#[unsafe(no_mangle)]
pub extern "C" fn rolgunai_client_handle_frames(
    alloc: Global,
    client: &mut ClientHandle,
    header: &[u8],
    metadata: &[u8],
    content: &[u8],
    frames: &[Frame<'_>],
    reply: &mut u32,
    sent: &mut usize,
) -> u32
    ensures { HasClientCalled (λ m numbers. message_input m numbers 0 header.now metadata.now
        content.now (frames_tested frames.now))
        client.old.value client.new.value result reply.new sent.new }
{
    match enter(alloc, client) {
        Ok(entered) => {
            let Entered {
                client: here,
                mut desk,
            } = entered;
            let buffers = RawBuffers::Frames(frames);
            let input = desk.message(alloc, here.numbers(), header, metadata, content, buffers);
            answer(alloc, client, here, desk, input, reply, sent)
        }
        Err(status) => not_entered(status, reply, sent),
    }
}

/// As `rolgunai_client_launch`, with each buffer where it lies: it is copied once.
#[unsafe(no_mangle)]
pub extern "C" fn rolgunai_client_launch_frames(
    alloc: Global,
    client: &mut ClientHandle,
    target: &[u8],
    uuid: &[u8],
    state: &[u8],
    paths: &[u8],
    frames: &[Frame<'_>],
    reply: &mut u32,
    sent: &mut usize,
) -> u32
    ensures { HasClientCalled (λ m numbers. launch_input numbers 0 target.now uuid.now state.now
        paths.now (frames_tested frames.now))
        client.old.value client.new.value result reply.new sent.new }
{
    match enter(alloc, client) {
        Ok(entered) => {
            let Entered {
                client: here,
                mut desk,
            } = entered;
            let buffers = RawBuffers::Frames(frames);
            let input = desk.launch(alloc, here.numbers(), target, uuid, state, paths, buffers);
            answer(alloc, client, here, desk, input, reply, sent)
        }
        Err(status) => not_entered(status, reply, sent),
    }
}

/// As `rolgunai_client_push`, with each buffer where it lies: it is copied once.
#[unsafe(no_mangle)]
pub extern "C" fn rolgunai_client_push_frames(
    alloc: Global,
    client: &mut ClientHandle,
    id: &[u8],
    state: &[u8],
    paths: &[u8],
    frames: &[Frame<'_>],
    reply: &mut u32,
    sent: &mut usize,
) -> u32
    ensures { HasClientCalled (λ m numbers. push_input numbers 0 id.now state.now paths.now
        (frames_tested frames.now))
        client.old.value client.new.value result reply.new sent.new }
{
    match enter(alloc, client) {
        Ok(entered) => {
            let Entered {
                client: here,
                mut desk,
            } = entered;
            let buffers = RawBuffers::Frames(frames);
            let input = desk.push(alloc, here.numbers(), id, state, paths, buffers);
            answer(alloc, client, here, desk, input, reply, sent)
        }
        Err(status) => not_entered(status, reply, sent),
    }
}

/// As `rolgunai_client_send`, with each buffer where it lies: it is copied once.
#[unsafe(no_mangle)]
pub extern "C" fn rolgunai_client_send_frames(
    alloc: Global,
    client: &mut ClientHandle,
    id: &[u8],
    content: &[u8],
    frames: &[Frame<'_>],
    reply: &mut u32,
    sent: &mut usize,
) -> u32
    ensures { HasClientCalled (λ m numbers. send_input numbers 0 id.now content.now
        (frames_tested frames.now))
        client.old.value client.new.value result reply.new sent.new }
{
    match enter(alloc, client) {
        Ok(entered) => {
            let Entered {
                client: here,
                mut desk,
            } = entered;
            let buffers = RawBuffers::Frames(frames);
            let input = desk.send(alloc, here.numbers(), id, content, buffers);
            answer(alloc, client, here, desk, input, reply, sent)
        }
        Err(status) => not_entered(status, reply, sent),
    }
}
