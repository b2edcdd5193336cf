//! What the last call came to: its numbers, its parts and its text. Nothing is changed.
ghost use Rattle.std.specs.Prelude.{◌≡◌, ◌≢◌, ◌⊎◌, ◌↔◌, None};
ghost use Rattle.comm_c.specs.Codes.{buffer_too_small, closed, memory, no_part, ok};
ghost use Rattle.comm_c.specs.Exports.{FillsPart, HasLastReason, HasLastResult, IsLongerPart};
ghost use Rattle.comm_c.specs.Exports.{reply_part_of, sent_part_of, text_of};

use crate::calls::{put, take};
use crate::codes::{CLOSED, OK};
use crate::copying::{copy_reply_part, copy_sent_part, write_reason, write_result};
use crate::handle::Handle;
use std::alloc::Global;

/// Writes the number of the last call's result to `reply`, and to `sent` how many messages that call sends; 0
/// where the handle has no manager.
#[unsafe(no_mangle)]
pub extern "C" fn rolgunai_last_result(
    alloc: Global,
    handle: &mut Handle,
    reply: &mut u32,
    sent: &mut usize,
) -> u32
    ensures result_is { result ≡ ok → HasLastResult handle.new.value reply.new sent.new }
    ensures nothing { result ≢ ok → (reply.new ≡ 0) × (sent.new ≡ 0) }
    ensures same { handle.new.value ≡ handle.old.value }
    ensures closed { result ≡ closed ↔ (handle.old.value ≡ None) }
    ensures codes { (result ≡ ok) ⊎ (result ≡ closed) }
{
    *reply = 0;
    *sent = 0;
    match take(handle, alloc) {
        Some(manager) => {
            write_result(manager.call_result(), reply, sent);
            put(handle, alloc, manager);
            OK
        }
        None => CLOSED,
    }
}

/// Writes why the last call's reply is BAD, REFUSED or FAULT to `reason`, and the number in it to `index`; both are 0
/// where it is another, and where the handle has no manager.
#[unsafe(no_mangle)]
pub extern "C" fn rolgunai_last_reason(
    alloc: Global,
    handle: &mut Handle,
    reason: &mut u32,
    index: &mut u64,
) -> u32
    ensures reason_is { result ≡ ok → HasLastReason handle.new.value reason.new index.new }
    ensures nothing { result ≢ ok → (reason.new ≡ 0) × (index.new ≡ 0) }
    ensures same { handle.new.value ≡ handle.old.value }
    ensures closed { result ≡ closed ↔ (handle.old.value ≡ None) }
    ensures codes { (result ≡ ok) ⊎ (result ≡ closed) }
{
    *reason = 0;
    *index = 0;
    match take(handle, alloc) {
        Some(manager) => {
            write_reason(manager.call_result(), reason, index);
            put(handle, alloc, manager);
            OK
        }
        None => CLOSED,
    }
}

/// Writes a part of a message that the last call sends to `out`, and its length to `size`. BUFFER_TOO_SMALL:
/// `size` is the length, and `out` stays. NO_PART: there is no message of this number, or it has no part of
/// this number. `size` is 0 after any other error. C calls it by `rolgunai_sent_part`, which takes no buffer too.
#[unsafe(no_mangle)]
pub extern "C" fn rolgunai_copy_sent_part(
    alloc: Global,
    handle: &mut Handle,
    message: usize,
    number: usize,
    out: &mut [u8],
    size: &mut usize,
) -> u32
    ensures part { result ≡ ok
        → FillsPart (sent_part_of handle.old.value message number) out.old out.new size.new }
    ensures longer { result ≡ buffer_too_small
        → IsLongerPart (sent_part_of handle.old.value message number) out.old size.new }
    ensures none { result ≡ no_part → sent_part_of handle.old.value message number ≡ None }
    ensures kept { result ≢ ok → out.new ≡ out.old }
    ensures no_size { result ≢ ok → result ≢ buffer_too_small → size.new ≡ 0 }
    ensures same { handle.new.value ≡ handle.old.value }
    ensures closed { result ≡ closed ↔ (handle.old.value ≡ None) }
    ensures codes { (result ≡ ok) ⊎ (result ≡ closed) ⊎ (result ≡ memory)
        ⊎ (result ≡ buffer_too_small) ⊎ (result ≡ no_part) }
{
    *size = 0;
    match take(handle, alloc) {
        Some(manager) => {
            let status = copy_sent_part(manager.call_result(), alloc, message, number, out, size);
            put(handle, alloc, manager);
            status
        }
        None => CLOSED,
    }
}

/// Writes a part of the reply to the last call to `out`, and its length to `size`. Errors, and `size` after
/// them, as of `rolgunai_copy_sent_part`.
#[unsafe(no_mangle)]
pub extern "C" fn rolgunai_copy_reply_part(
    alloc: Global,
    handle: &mut Handle,
    number: usize,
    out: &mut [u8],
    size: &mut usize,
) -> u32
    ensures part { result ≡ ok
        → FillsPart (reply_part_of handle.old.value number) out.old out.new size.new }
    ensures longer { result ≡ buffer_too_small
        → IsLongerPart (reply_part_of handle.old.value number) out.old size.new }
    ensures none { result ≡ no_part → reply_part_of handle.old.value number ≡ None }
    ensures kept { result ≢ ok → out.new ≡ out.old }
    ensures no_size { result ≢ ok → result ≢ buffer_too_small → size.new ≡ 0 }
    ensures same { handle.new.value ≡ handle.old.value }
    ensures closed { result ≡ closed ↔ (handle.old.value ≡ None) }
    ensures codes { (result ≡ ok) ⊎ (result ≡ closed) ⊎ (result ≡ memory)
        ⊎ (result ≡ buffer_too_small) ⊎ (result ≡ no_part) }
{
    *size = 0;
    match take(handle, alloc) {
        Some(manager) => {
            let status = copy_reply_part(manager.call_result(), alloc, number, out, size);
            put(handle, alloc, manager);
            status
        }
        None => CLOSED,
    }
}

/// Writes the text of the last call to `out`, and its length to `size`: at BUFFER_TOO_SMALL the length alone, and 0
/// after any other error. The text is made when it is first asked for: after MEMORY it may be asked for again.
#[unsafe(no_mangle)]
pub extern "C" fn rolgunai_copy_last_text(
    alloc: Global,
    handle: &mut Handle,
    out: &mut [u8],
    size: &mut usize,
) -> u32
    ensures text { result ≡ ok → FillsPart (text_of handle.old.value) out.old out.new size.new }
    ensures longer { result ≡ buffer_too_small
        → IsLongerPart (text_of handle.old.value) out.old size.new }
    ensures kept { result ≢ ok → out.new ≡ out.old }
    ensures no_size { result ≢ ok → result ≢ buffer_too_small → size.new ≡ 0 }
    ensures same { handle.new.value ≡ handle.old.value }
    ensures closed { result ≡ closed ↔ (handle.old.value ≡ None) }
    ensures codes { (result ≡ ok) ⊎ (result ≡ closed) ⊎ (result ≡ memory)
        ⊎ (result ≡ buffer_too_small) }
{
    *size = 0;
    match take(handle, alloc) {
        Some(mut manager) => {
            let status = manager.copy_text(alloc, out, size);
            put(handle, alloc, manager);
            status
        }
        None => CLOSED,
    }
}
