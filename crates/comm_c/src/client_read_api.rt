//! Reads of a client, which enter nothing: each is at no fewer than `since` changes, and after all that the client has
//! seen. AGAIN: what is shown isn't so late yet. Each gives the number of its result in `reply`, and how many messages it
//! sends in `sent`; both are 0 after an error. Tested are the handle, the name, and how many calls were made.
ghost use Rattle.std.specs.Prelude.{◌≡◌, ◌≢◌, ◌⊎◌, ◌↔◌, ◌≤◌, ◌^◌, None, Some, IsErr, IsOk, IsUtf8};
ghost use Rattle.comm_c.specs.ClientExports.{HasCalledMost, HasClientRead, HasClientResult, HasReadSo};
ghost use Rattle.comm_c.specs.Clients.{ReadsInfos, ReadsState, ReadsTarget};
ghost use Rattle.comm_c.specs.Codes.{again, bad_name, closed, exhausted, memory, ok};

use crate::client::Client;
use crate::client_calls::{put_client, take_client};
use crate::client_handle::ClientHandle;
use crate::codes::{AGAIN, BAD_NAME, CLOSED, EXHAUSTED, MEMORY, OK};
use crate::copying::write_result;
use comm_shared::SharedReadFault;
use comm_value::Text;
use std::alloc::Global;
use std::str;

// The status of a read.
fn read_status(read: Result<(), SharedReadFault>) -> u32
    ensures ok { result ≡ ok → IsOk read }
    ensures err { result ≢ ok → IsErr read }
    ensures codes { (result ≡ ok) ⊎ (result ≡ memory) ⊎ (result ≡ again) }
{
    match read {
        Ok(()) => OK,
        Err(SharedReadFault::Memory) => MEMORY,
        Err(SharedReadFault::Again) => AGAIN,
    }
}

// Reads the state of a comm.
fn read_state(client: &mut Client, alloc: Global, since: u64, id: &[u8]) -> u32
    ensures reads { result ≡ ok → ReadsState since id.now client.old client.new }
    ensures same { result ≢ ok → client.new ≡ client.old }
    ensures name { result ≡ bad_name → ¬ (IsUtf8 id.now) }
    ensures full { result ≡ exhausted → 2 ^ 62 ≤ client.old.number }
    ensures codes { (result ≡ ok) ⊎ (result ≡ memory) ⊎ (result ≡ exhausted) ⊎ (result ≡ bad_name)
        ⊎ (result ≡ again) }
{
    let Ok(id) = str::from_utf8(id) else {
        return BAD_NAME;
    };
    if client.is_exhausted() {
        return EXHAUSTED;
    }
    let Ok(id) = Text::copy_of(alloc, id) else {
        return MEMORY;
    };
    read_status(client.read_state(since, &id))
}

// Reads the name of a comm's target.
fn read_target(client: &mut Client, alloc: Global, since: u64, id: &[u8]) -> u32
    ensures reads { result ≡ ok → ReadsTarget since id.now client.old client.new }
    ensures same { result ≢ ok → client.new ≡ client.old }
    ensures name { result ≡ bad_name → ¬ (IsUtf8 id.now) }
    ensures full { result ≡ exhausted → 2 ^ 62 ≤ client.old.number }
    ensures codes { (result ≡ ok) ⊎ (result ≡ memory) ⊎ (result ≡ exhausted) ⊎ (result ≡ bad_name)
        ⊎ (result ≡ again) }
{
    let Ok(id) = str::from_utf8(id) else {
        return BAD_NAME;
    };
    if client.is_exhausted() {
        return EXHAUSTED;
    }
    let Ok(id) = Text::copy_of(alloc, id) else {
        return MEMORY;
    };
    read_status(client.read_target(since, &id))
}

// Reads the open comms of one target.
fn read_infos_of(client: &mut Client, alloc: Global, since: u64, target: &[u8]) -> u32
    ensures reads { result ≡ ok → ReadsInfos since (Some target.now) client.old client.new }
    ensures same { result ≢ ok → client.new ≡ client.old }
    ensures name { result ≡ bad_name → ¬ (IsUtf8 target.now) }
    ensures full { result ≡ exhausted → 2 ^ 62 ≤ client.old.number }
    ensures codes { (result ≡ ok) ⊎ (result ≡ memory) ⊎ (result ≡ exhausted) ⊎ (result ≡ bad_name)
        ⊎ (result ≡ again) }
{
    let Ok(target) = str::from_utf8(target) else {
        return BAD_NAME;
    };
    if client.is_exhausted() {
        return EXHAUSTED;
    }
    let Ok(target) = Text::copy_of(alloc, target) else {
        return MEMORY;
    };
    read_status(client.read_infos(alloc, since, Some(&target)))
}

// Reads the open comms.
fn read_infos(client: &mut Client, alloc: Global, since: u64) -> u32
    ensures reads { result ≡ ok → ReadsInfos since None client.old client.new }
    ensures same { result ≢ ok → client.new ≡ client.old }
    ensures full { result ≡ exhausted → 2 ^ 62 ≤ client.old.number }
    ensures codes { (result ≡ ok) ⊎ (result ≡ memory) ⊎ (result ≡ exhausted) ⊎ (result ≡ again) }
{
    if client.is_exhausted() {
        return EXHAUSTED;
    }
    read_status(client.read_infos(alloc, since, None))
}

/// Reads a comm's state: the content of the reply is the state and the paths of its buffers, which are the reply's.
#[tactic(auto, using(crate::proofs::ClientRead::has_read, crate::proofs::ClientRead::unread))]
#[unsafe(no_mangle)]
pub extern "C" fn rolgunai_client_state(
    alloc: Global,
    client: &mut ClientHandle,
    since: u64,
    id: &[u8],
    reply: &mut u32,
    sent: &mut usize,
) -> u32
    ensures { HasClientRead (ReadsState since id.now) id.now
        client.old.value client.new.value result reply.new sent.new }
{
    *reply = 0;
    *sent = 0;
    match take_client(client, alloc) {
        Some(mut here) => {
            let status = read_state(&mut here, alloc, since, id);
            if status == OK {
                write_result(here.call_result(), reply, sent);
            }
            put_client(client, alloc, here);
            status
        }
        None => CLOSED,
    }
}

/// Reads the name of the target of a comm, part `ROLGUNAI_PART_TARGET` of the reply: the comm is open where it has one.
#[tactic(auto, using(crate::proofs::ClientRead::has_read, crate::proofs::ClientRead::unread))]
#[unsafe(no_mangle)]
pub extern "C" fn rolgunai_client_target(
    alloc: Global,
    client: &mut ClientHandle,
    since: u64,
    id: &[u8],
    reply: &mut u32,
    sent: &mut usize,
) -> u32
    ensures { HasClientRead (ReadsTarget since id.now) id.now
        client.old.value client.new.value result reply.new sent.new }
{
    *reply = 0;
    *sent = 0;
    match take_client(client, alloc) {
        Some(mut here) => {
            let status = read_target(&mut here, alloc, since, id);
            if status == OK {
                write_result(here.call_result(), reply, sent);
            }
            put_client(client, alloc, here);
            status
        }
        None => CLOSED,
    }
}

/// Reads the open comms with the names of their targets, which are one message.
#[unsafe(no_mangle)]
pub extern "C" fn rolgunai_client_infos(
    alloc: Global,
    client: &mut ClientHandle,
    since: u64,
    reply: &mut u32,
    sent: &mut usize,
) -> u32
    ensures read { result ≡ ok
        → HasReadSo (ReadsInfos since None) client.old.value client.new.value }
    ensures result_is { result ≡ ok → HasClientResult client.new.value reply.new sent.new }
    ensures same { result ≢ ok → client.new.value ≡ client.old.value }
    ensures nothing { result ≢ ok → (reply.new ≡ 0) × (sent.new ≡ 0) }
    ensures closed { result ≡ closed ↔ (client.old.value ≡ None) }
    ensures full { result ≡ exhausted → HasCalledMost client.old.value }
    ensures codes { (result ≡ ok) ⊎ (result ≡ closed) ⊎ (result ≡ memory) ⊎ (result ≡ exhausted)
        ⊎ (result ≡ again) }
{
    *reply = 0;
    *sent = 0;
    match take_client(client, alloc) {
        Some(mut here) => {
            let status = read_infos(&mut here, alloc, since);
            if status == OK {
                write_result(here.call_result(), reply, sent);
            }
            put_client(client, alloc, here);
            status
        }
        None => CLOSED,
    }
}

/// Reads the open comms of one target, as `rolgunai_client_infos` reads all.
#[tactic(auto, using(crate::proofs::ClientRead::has_read, crate::proofs::ClientRead::unread))]
#[unsafe(no_mangle)]
pub extern "C" fn rolgunai_client_infos_of(
    alloc: Global,
    client: &mut ClientHandle,
    since: u64,
    target: &[u8],
    reply: &mut u32,
    sent: &mut usize,
) -> u32
    ensures { HasClientRead (ReadsInfos since (Some target.now)) target.now
        client.old.value client.new.value result reply.new sent.new }
{
    *reply = 0;
    *sent = 0;
    match take_client(client, alloc) {
        Some(mut here) => {
            let status = read_infos_of(&mut here, alloc, since, target);
            if status == OK {
                write_result(here.call_result(), reply, sent);
            }
            put_client(client, alloc, here);
            status
        }
        None => CLOSED,
    }
}
