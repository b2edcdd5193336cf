//! The calls that take buffers, with each where it lies, as the frames of a ZeroMQ message do.
ghost use Rattle.comm_core.specs.Ready.{machine};
ghost use Rattle.comm_c.specs.Exports.{HasCalled};
ghost use Rattle.comm_c.specs.Inputs.{frames_tested, launch_input, message_input, push_input, send_input};

use crate::calls::{answer, take, without_manager};
use crate::handle::Handle;
use comm_messages::{Frame, RawBuffers};
use std::alloc::Global;

/// As `rolgunai_handle_message`, with each buffer where it lies: it is copied once.
#[unsafe(no_mangle)]
pub extern "C" fn rolgunai_handle_frames(
    alloc: Global,
    handle: &mut Handle,
    client: u32,
    header: &[u8],
    metadata: &[u8],
    content: &[u8],
    frames: &[Frame<'_>],
    reply: &mut u32,
    sent: &mut usize,
) -> u32
    ensures { HasCalled (λ d. message_input (machine d.core) d.numbers client
        header.now metadata.now content.now (frames_tested frames.now))
        handle.old.value handle.new.value result reply.new sent.new }
{
    match take(handle, alloc) {
        Some(mut manager) => {
            let buffers = RawBuffers::Frames(frames);
            let input = manager.message(alloc, client, header, metadata, content, buffers);
            answer(alloc, handle, manager, input, reply, sent)
        }
        None => without_manager(reply, sent),
    }
}

/// As `rolgunai_launch`, with each buffer where it lies: it is copied once.
#[unsafe(no_mangle)]
pub extern "C" fn rolgunai_launch_frames(
    alloc: Global,
    handle: &mut Handle,
    client: u32,
    target: &[u8],
    uuid: &[u8],
    state: &[u8],
    paths: &[u8],
    frames: &[Frame<'_>],
    reply: &mut u32,
    sent: &mut usize,
) -> u32
    ensures { HasCalled (λ d. launch_input d.numbers client target.now uuid.now state.now paths.now
        (frames_tested frames.now))
        handle.old.value handle.new.value result reply.new sent.new }
{
    match take(handle, alloc) {
        Some(mut manager) => {
            let buffers = RawBuffers::Frames(frames);
            let input = manager.launch(alloc, client, target, uuid, state, paths, buffers);
            answer(alloc, handle, manager, input, reply, sent)
        }
        None => without_manager(reply, sent),
    }
}

/// As `rolgunai_push`, with each buffer where it lies: it is copied once.
#[unsafe(no_mangle)]
pub extern "C" fn rolgunai_push_frames(
    alloc: Global,
    handle: &mut Handle,
    client: u32,
    id: &[u8],
    state: &[u8],
    paths: &[u8],
    frames: &[Frame<'_>],
    reply: &mut u32,
    sent: &mut usize,
) -> u32
    ensures { HasCalled (λ d. push_input d.numbers client id.now state.now paths.now
        (frames_tested frames.now))
        handle.old.value handle.new.value result reply.new sent.new }
{
    match take(handle, alloc) {
        Some(mut manager) => {
            let buffers = RawBuffers::Frames(frames);
            let input = manager.push(alloc, client, id, state, paths, buffers);
            answer(alloc, handle, manager, input, reply, sent)
        }
        None => without_manager(reply, sent),
    }
}

/// As `rolgunai_send`, with each buffer where it lies: it is copied once.
#[unsafe(no_mangle)]
pub extern "C" fn rolgunai_send_frames(
    alloc: Global,
    handle: &mut Handle,
    client: u32,
    id: &[u8],
    content: &[u8],
    frames: &[Frame<'_>],
    reply: &mut u32,
    sent: &mut usize,
) -> u32
    ensures { HasCalled (λ d. send_input d.numbers client id.now content.now
        (frames_tested frames.now))
        handle.old.value handle.new.value result reply.new sent.new }
{
    match take(handle, alloc) {
        Some(mut manager) => {
            let buffers = RawBuffers::Frames(frames);
            let input = manager.send(alloc, client, id, content, buffers);
            answer(alloc, handle, manager, input, reply, sent)
        }
        None => without_manager(reply, sent),
    }
}
