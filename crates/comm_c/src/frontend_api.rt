//! The calls for what frontends send, and for lines.
ghost use Rattle.std.specs.Prelude.{◌≡◌, ◌≢◌, ◌⊎◌, ◌↔◌, ◌≤◌, ◌^◌, None, Some};
ghost use Rattle.comm_core.specs.Ready.{machine};
ghost use Rattle.comm_c.specs.CallResult.{result_text};
ghost use Rattle.comm_c.specs.Codes.{buffer_too_small, closed, exhausted, memory, no_text, ok};
ghost use Rattle.comm_c.specs.Exports.{FillsPart, HasCalled, HasPlayedLine, IsExhausted, IsLongerPart, text_of};
ghost use Rattle.comm_c.specs.Inputs.{buffers_tested, line_input, message_input};
ghost use Rattle.comm_c.specs.ManagerState.{Plays};

use crate::calls::{answer, put, take, without_manager};
use crate::codes::{CLOSED, EXHAUSTED, MEMORY, NO_TEXT};
use crate::handle::Handle;
use crate::held_manager::HeldManager;
use comm_messages::RawBuffers;
use std::alloc::Global;

/// Plays a message of a client by its parts: three JSON texts, and binary buffers that stand one after
/// another with their sizes beside. `reply` gets the number of its result, and `sent` how many messages it sends; both
/// are 0 after an error. Tested are the handle, the sizes, the JSON texts, and how many calls were made.
#[unsafe(no_mangle)]
pub extern "C" fn rolgunai_handle_message(
    alloc: Global,
    handle: &mut Handle,
    client: u32,
    header: &[u8],
    metadata: &[u8],
    content: &[u8],
    buffers: &[u8],
    sizes: &[usize],
    reply: &mut u32,
    sent: &mut usize,
) -> u32
    ensures { HasCalled (λ d. message_input (machine d.core) d.numbers client
        header.now metadata.now content.now (buffers_tested buffers.now sizes.now))
        handle.old.value handle.new.value result reply.new sent.new }
{
    match take(handle, alloc) {
        Some(mut manager) => {
            let buffers = RawBuffers::Joined {
                bytes: buffers,
                sizes,
            };
            let input = manager.message(alloc, client, header, metadata, content, buffers);
            answer(alloc, handle, manager, input, reply, sent)
        }
        None => without_manager(reply, sent),
    }
}

// Plays a line, and copies its text to `out`. EXHAUSTED: it isn't played. NO_TEXT: it is, and memory ran out for the
// text alone.
fn play_line(
    manager: &mut HeldManager,
    alloc: Global,
    line: &[u8],
    out: &mut [u8],
    size: &mut usize,
) -> u32
    ensures plays { (result ≡ ok) ⊎ (result ≡ buffer_too_small) ⊎ (result ≡ no_text)
        → Plays manager.old (line_input manager.old.counted_core.numbers line.now) manager.new }
    ensures whole { result ≡ ok
        → FillsPart (Some (result_text manager.new.call_result)) out.old out.new size.new }
    ensures longer { result ≡ buffer_too_small
        → IsLongerPart (Some (result_text manager.new.call_result)) out.old size.new }
    ensures kept { result ≢ ok → out.new ≡ out.old }
    ensures size_stays { result ≢ ok → result ≢ buffer_too_small → size.new ≡ size.old }
    ensures same { (result ≡ memory) ⊎ (result ≡ exhausted) → manager.new ≡ manager.old }
    ensures full { result ≡ exhausted → 2 ^ 62 ≤ manager.old.number }
    ensures codes { (result ≡ ok) ⊎ (result ≡ memory) ⊎ (result ≡ buffer_too_small)
        ⊎ (result ≡ exhausted) ⊎ (result ≡ no_text) }
{
    if manager.is_exhausted() {
        return EXHAUSTED;
    }
    if manager.line(alloc, line).is_err() {
        return MEMORY;
    }
    let status = manager.copy_text(alloc, out, size);
    if status == MEMORY { NO_TEXT } else { status }
}

/// Plays a line, a message of a frontend or a command of the kernel, and writes its text to `out` and the length of
/// that to `size`. At BUFFER_TOO_SMALL and at NO_TEXT the line is played too, and `rolgunai_copy_last_text` gives the
/// text. After any status but OK and BUFFER_TOO_SMALL `size` is 0.
#[unsafe(no_mangle)]
pub extern "C" fn rolgunai_play_line(
    alloc: Global,
    handle: &mut Handle,
    line: &[u8],
    out: &mut [u8],
    size: &mut usize,
) -> u32
    ensures played { (result ≡ ok) ⊎ (result ≡ buffer_too_small) ⊎ (result ≡ no_text)
        → HasPlayedLine handle.old.value line.now handle.new.value }
    ensures text { result ≡ ok → FillsPart (text_of handle.new.value) out.old out.new size.new }
    ensures longer { result ≡ buffer_too_small
        → IsLongerPart (text_of handle.new.value) out.old size.new }
    ensures kept { result ≢ ok → out.new ≡ out.old }
    ensures no_size { result ≢ ok → result ≢ buffer_too_small → size.new ≡ 0 }
    ensures same { (result ≡ closed) ⊎ (result ≡ memory) ⊎ (result ≡ exhausted)
        → handle.new.value ≡ handle.old.value }
    ensures closed { result ≡ closed ↔ (handle.old.value ≡ None) }
    ensures full { result ≡ exhausted → IsExhausted handle.old.value }
    ensures codes { (result ≡ ok) ⊎ (result ≡ closed) ⊎ (result ≡ memory)
        ⊎ (result ≡ buffer_too_small) ⊎ (result ≡ exhausted) ⊎ (result ≡ no_text) }
{
    *size = 0;
    match take(handle, alloc) {
        Some(mut manager) => {
            let status = play_line(&mut manager, alloc, line, out, size);
            put(handle, alloc, manager);
            status
        }
        None => CLOSED,
    }
}
