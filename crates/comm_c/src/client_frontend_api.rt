//! The call of a client for what frontends send.
ghost use Rattle.comm_c.specs.ClientExports.{HasClientCalled};
ghost use Rattle.comm_c.specs.Inputs.{buffers_tested, message_input};

use crate::client_calls::{Entered, answer, enter, not_entered};
use crate::client_handle::ClientHandle;
use comm_messages::RawBuffers;
use std::alloc::Global;

/// Plays a message by its parts: three JSON texts, and binary buffers that stand one after another with their sizes
/// beside. `reply` gets the number of its result, and `sent` how many messages it sends; both are 0 after an error.
/// Tested are the handle, BUSY, the sizes, the JSON texts, and how many calls were made.
#[unsafe(no_mangle)]
pub extern "C" fn rolgunai_client_handle_message(
    alloc: Global,
    client: &mut ClientHandle,
    header: &[u8],
    metadata: &[u8],
    content: &[u8],
    buffers: &[u8],
    sizes: &[usize],
    reply: &mut u32,
    sent: &mut usize,
) -> u32
    ensures { HasClientCalled (λ m numbers. message_input m numbers 0 header.now metadata.now
        content.now (buffers_tested buffers.now sizes.now))
        client.old.value client.new.value result reply.new sent.new }
{
    match enter(alloc, client) {
        Ok(entered) => {
            let Entered {
                client: here,
                mut desk,
            } = entered;
            let buffers = RawBuffers::Joined {
                bytes: buffers,
                sizes,
            };
            let input = desk.message(alloc, here.numbers(), header, metadata, content, buffers);
            answer(alloc, client, here, desk, input, reply, sent)
        }
        Err(status) => not_entered(status, reply, sent),
    }
}
