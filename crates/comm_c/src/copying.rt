//! How what a call came to gets into the caller's buffers.
ghost use Rattle.std.specs.Prelude.{◌≡◌, ◌≢◌, ◌⊎◌, ◌<◌, None, Some, length, option_map};
ghost use Rattle.comm_c.specs.CallResult.{result_number, sent};
ghost use Rattle.comm_c.specs.Codes.{buffer_too_small, memory, no_part, ok};
ghost use Rattle.comm_c.specs.Exports.{Fills, FillsPart, IsLongerPart};
ghost use Rattle.comm_c.specs.PartBytes.{bytes_of_part};
ghost use Rattle.comm_c.specs.Parts.{part_replied, part_sent};
ghost use Rattle.comm_c.specs.Reasons.{reason_of};

use crate::call_result::CallResult;
use crate::codes::{BUFFER_TOO_SMALL, MEMORY, NO_PART, OK};
use crate::part_bytes::PartBytes;
use crate::reasons::Reason;
use std::alloc::Global;

/// Copies bytes to `out` if they fit, and writes how many they are to `size` in any case.
pub fn copy_to_buffer(bytes: &[u8], out: &mut [u8], size: &mut usize) -> u32
    ensures whole { result ≡ ok → Fills bytes.now out.old out.new }
    ensures size { size.new ≡ length bytes.now }
    ensures longer { result ≡ buffer_too_small → length out.old < length bytes.now }
    ensures kept { result ≢ ok → out.new ≡ out.old }
    ensures codes { (result ≡ ok) ⊎ (result ≡ buffer_too_small) }
{
    let n = bytes.len();
    *size = n;
    if out.len() < n {
        return BUFFER_TOO_SMALL;
    }
    out[..n].copy_from_slice(bytes);
    OK
}

fn copy_part(part: &Option<PartBytes<'_>>, out: &mut [u8], size: &mut usize) -> u32
    ensures whole { result ≡ ok
        → FillsPart (option_map bytes_of_part part.now) out.old out.new size.new }
    ensures longer { result ≡ buffer_too_small
        → IsLongerPart (option_map bytes_of_part part.now) out.old size.new }
    ensures none { result ≡ no_part → option_map bytes_of_part part.now ≡ None }
    ensures kept { result ≢ ok → out.new ≡ out.old }
    ensures size_stays { result ≢ ok → result ≢ buffer_too_small → size.new ≡ size.old }
    ensures codes { (result ≡ ok) ⊎ (result ≡ buffer_too_small) ⊎ (result ≡ no_part) }
{
    match part {
        Some(part) => copy_to_buffer(part.as_slice(), out, size),
        None => NO_PART,
    }
}

/// Copies a part of a message that a call sends to `out`. Content and metadata are written as JSON for it.
pub fn copy_sent_part(
    call_result: &CallResult,
    alloc: Global,
    message: usize,
    part: usize,
    out: &mut [u8],
    size: &mut usize,
) -> u32
    ensures whole { result ≡ ok
        → FillsPart (part_sent call_result.now message part) out.old out.new size.new }
    ensures longer { result ≡ buffer_too_small
        → IsLongerPart (part_sent call_result.now message part) out.old size.new }
    ensures none { result ≡ no_part → part_sent call_result.now message part ≡ None }
    ensures kept { result ≢ ok → out.new ≡ out.old }
    ensures size_stays { result ≢ ok → result ≢ buffer_too_small → size.new ≡ size.old }
    ensures codes { (result ≡ ok) ⊎ (result ≡ memory) ⊎ (result ≡ buffer_too_small)
        ⊎ (result ≡ no_part) }
{
    match call_result.part(alloc, message, part) {
        Ok(part) => copy_part(&part, out, size),
        Err(_) => MEMORY,
    }
}

/// Copies a part of the reply to a call to `out`. Content is written as JSON for it.
pub fn copy_reply_part(
    call_result: &CallResult,
    alloc: Global,
    part: usize,
    out: &mut [u8],
    size: &mut usize,
) -> u32
    ensures whole { result ≡ ok
        → FillsPart (part_replied call_result.now part) out.old out.new size.new }
    ensures longer { result ≡ buffer_too_small
        → IsLongerPart (part_replied call_result.now part) out.old size.new }
    ensures none { result ≡ no_part → part_replied call_result.now part ≡ None }
    ensures kept { result ≢ ok → out.new ≡ out.old }
    ensures size_stays { result ≢ ok → result ≢ buffer_too_small → size.new ≡ size.old }
    ensures codes { (result ≡ ok) ⊎ (result ≡ memory) ⊎ (result ≡ buffer_too_small)
        ⊎ (result ≡ no_part) }
{
    match call_result.reply_part(alloc, part) {
        Ok(part) => copy_part(&part, out, size),
        Err(_) => MEMORY,
    }
}

/// Writes the number of a result to `reply`, and to `count` how many messages its call sends.
pub fn write_result(call_result: &CallResult, reply: &mut u32, count: &mut usize)
    ensures reply { reply.new ≡ result_number call_result.now }
    ensures count { count.new ≡ length (sent call_result.now) }
{
    *reply = call_result.number();
    *count = call_result.sent().len();
}

/// Writes why a reply is bad, refused or a fault, and the number in it.
pub fn write_reason(call_result: &CallResult, reason: &mut u32, index: &mut u64)
    ensures { (reason.new, index.new) ≡ reason_of call_result.now }
{
    let Reason {
        number,
        index: within,
    } = call_result.reason();
    *reason = number;
    *index = within;
}
