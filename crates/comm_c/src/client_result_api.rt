//! What a client's last call came to: its numbers and its parts. Nothing is changed, and no other client's call counts.
ghost use Rattle.std.specs.Prelude.{◌≡◌, ◌≢◌, ◌⊎◌, ◌↔◌, None};
ghost use Rattle.comm_c.specs.Codes.{buffer_too_small, closed, memory, no_part, ok};
ghost use Rattle.comm_c.specs.ClientExports.{HasClientReason, HasClientResult, client_reply_part, client_sent_part};
ghost use Rattle.comm_c.specs.Exports.{FillsPart, IsLongerPart};

use crate::client_calls::{put_client, take_client};
use crate::client_handle::ClientHandle;
use crate::codes::{CLOSED, OK};
use crate::copying::{copy_reply_part, copy_sent_part, write_reason, write_result};
use std::alloc::Global;

/// Writes the number of the client's last call's result to `reply`, and to `sent` how many messages that call sends; 0
/// where the handle has no client.
#[unsafe(no_mangle)]
pub extern "C" fn rolgunai_client_last_result(
    alloc: Global,
    client: &mut ClientHandle,
    reply: &mut u32,
    sent: &mut usize,
) -> u32
    ensures result_is { result ≡ ok → HasClientResult client.new.value reply.new sent.new }
    ensures nothing { result ≢ ok → (reply.new ≡ 0) × (sent.new ≡ 0) }
    ensures same { client.new.value ≡ client.old.value }
    ensures closed { result ≡ closed ↔ (client.old.value ≡ None) }
    ensures codes { (result ≡ ok) ⊎ (result ≡ closed) }
{
    *reply = 0;
    *sent = 0;
    match take_client(client, alloc) {
        Some(here) => {
            write_result(here.call_result(), reply, sent);
            put_client(client, alloc, here);
            OK
        }
        None => CLOSED,
    }
}

/// Writes why the client's last call's reply is BAD, REFUSED or FAULT to `reason`, and the number in it to `index`; both are 0
/// where it is another, and where the handle has no client.
#[unsafe(no_mangle)]
pub extern "C" fn rolgunai_client_last_reason(
    alloc: Global,
    client: &mut ClientHandle,
    reason: &mut u32,
    index: &mut u64,
) -> u32
    ensures reason_is { result ≡ ok → HasClientReason client.new.value reason.new index.new }
    ensures nothing { result ≢ ok → (reason.new ≡ 0) × (index.new ≡ 0) }
    ensures same { client.new.value ≡ client.old.value }
    ensures closed { result ≡ closed ↔ (client.old.value ≡ None) }
    ensures codes { (result ≡ ok) ⊎ (result ≡ closed) }
{
    *reason = 0;
    *index = 0;
    match take_client(client, alloc) {
        Some(here) => {
            write_reason(here.call_result(), reason, index);
            put_client(client, alloc, here);
            OK
        }
        None => CLOSED,
    }
}

/// Writes a part of a message that the client's last call sends to `out`, and its length to `size`. BUFFER_TOO_SMALL:
/// `size` is the length, and `out` stays. NO_PART: there is no message of this number, or it has no part of
/// this number. `size` is 0 after any other error. C calls it by `rolgunai_client_sent_part`, which takes no buffer too.
#[unsafe(no_mangle)]
pub extern "C" fn rolgunai_client_copy_sent_part(
    alloc: Global,
    client: &mut ClientHandle,
    message: usize,
    number: usize,
    out: &mut [u8],
    size: &mut usize,
) -> u32
    ensures part { result ≡ ok
        → FillsPart (client_sent_part client.old.value message number) out.old out.new size.new }
    ensures longer { result ≡ buffer_too_small
        → IsLongerPart (client_sent_part client.old.value message number) out.old size.new }
    ensures none { result ≡ no_part → client_sent_part client.old.value message number ≡ None }
    ensures kept { result ≢ ok → out.new ≡ out.old }
    ensures no_size { result ≢ ok → result ≢ buffer_too_small → size.new ≡ 0 }
    ensures same { client.new.value ≡ client.old.value }
    ensures closed { result ≡ closed ↔ (client.old.value ≡ None) }
    ensures codes { (result ≡ ok) ⊎ (result ≡ closed) ⊎ (result ≡ memory)
        ⊎ (result ≡ buffer_too_small) ⊎ (result ≡ no_part) }
{
    *size = 0;
    match take_client(client, alloc) {
        Some(here) => {
            let status = copy_sent_part(here.call_result(), alloc, message, number, out, size);
            put_client(client, alloc, here);
            status
        }
        None => CLOSED,
    }
}

/// Writes a part of the reply to the client's last call to `out`, and its length to `size`. Errors, and `size` after
/// them, as of `rolgunai_client_copy_sent_part`.
#[unsafe(no_mangle)]
pub extern "C" fn rolgunai_client_copy_reply_part(
    alloc: Global,
    client: &mut ClientHandle,
    number: usize,
    out: &mut [u8],
    size: &mut usize,
) -> u32
    ensures part { result ≡ ok
        → FillsPart (client_reply_part client.old.value number) out.old out.new size.new }
    ensures longer { result ≡ buffer_too_small
        → IsLongerPart (client_reply_part client.old.value number) out.old size.new }
    ensures none { result ≡ no_part → client_reply_part client.old.value number ≡ None }
    ensures kept { result ≢ ok → out.new ≡ out.old }
    ensures no_size { result ≢ ok → result ≢ buffer_too_small → size.new ≡ 0 }
    ensures same { client.new.value ≡ client.old.value }
    ensures closed { result ≡ closed ↔ (client.old.value ≡ None) }
    ensures codes { (result ≡ ok) ⊎ (result ≡ closed) ⊎ (result ≡ memory)
        ⊎ (result ≡ buffer_too_small) ⊎ (result ≡ no_part) }
{
    *size = 0;
    match take_client(client, alloc) {
        Some(here) => {
            let status = copy_reply_part(here.call_result(), alloc, number, out, size);
            put_client(client, alloc, here);
            status
        }
        None => CLOSED,
    }
}
