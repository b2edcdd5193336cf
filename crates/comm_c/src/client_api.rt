//! The manager that threads share, for C: each thread has a client, made from another one. A change enters by a gate;
//! where another client's call is inside, it says BUSY, and nothing has changed. Reads enter nothing.
ghost use Rattle.std.specs.Prelude.{◌≡◌, ◌≢◌, ◌⊎◌, ◌↔◌, None, Some, IsSome};
ghost use Rattle.comm_core.specs.Limits.{IsCommsLimit};
ghost use Rattle.comm_c.specs.ClientExports.{HasJoined, HasOpened, HasSeen};
ghost use Rattle.comm_c.specs.Codes.{already_open, bad_limit, busy, closed, memory, no_seat, ok};

use crate::client::{Client, JoinFault};
use crate::client_calls::{Entered, enter, leave, open_shared, put_client, take_client};
use crate::client_handle::ClientHandle;
use crate::codes::{ALREADY_OPEN, BUSY, CLOSED, MEMORY, NO_SEAT, OK};
use comm_value::Numbers;
use std::alloc::Global;

/// Makes a manager of which at most `comms` comms are open at a time (1 to 1,048,576), and its first client. A number
/// that isn't whole makes a message BAD. ALREADY_OPEN: the handle has a client, which stays; this is tested first.
#[unsafe(no_mangle)]
pub extern "C" fn rolgunai_open_shared(
    alloc: Global,
    client: &mut ClientHandle,
    comms: usize,
) -> u32
    ensures opened { result ≡ ok → HasOpened comms Numbers.Whole client.new.value }
    ensures same { result ≢ ok → client.new.value ≡ client.old.value }
    ensures already_open { result ≡ already_open ↔ IsSome client.old.value }
    ensures bad_limit { result ≡ bad_limit
        ↔ ((client.old.value ≡ None) × ¬ (IsCommsLimit comms)) }
    ensures allowed { (result ≡ ok) ⊎ (result ≡ memory) → IsCommsLimit comms }
    ensures codes { (result ≡ ok) ⊎ (result ≡ memory) ⊎ (result ≡ bad_limit)
        ⊎ (result ≡ already_open) }
{
    open_shared(alloc, client, comms, Numbers::Whole)
}

/// As `rolgunai_open_shared`, but each JSON number is a value: one that isn't whole is kept and sent as the text that
/// came.
#[unsafe(no_mangle)]
pub extern "C" fn rolgunai_open_shared_with_decimals(
    alloc: Global,
    client: &mut ClientHandle,
    comms: usize,
) -> u32
    ensures opened { result ≡ ok → HasOpened comms Numbers.Any client.new.value }
    ensures same { result ≢ ok → client.new.value ≡ client.old.value }
    ensures already_open { result ≡ already_open ↔ IsSome client.old.value }
    ensures bad_limit { result ≡ bad_limit
        ↔ ((client.old.value ≡ None) × ¬ (IsCommsLimit comms)) }
    ensures allowed { (result ≡ ok) ⊎ (result ≡ memory) → IsCommsLimit comms }
    ensures codes { (result ≡ ok) ⊎ (result ≡ memory) ⊎ (result ≡ bad_limit)
        ⊎ (result ≡ already_open) }
{
    open_shared(alloc, client, comms, Numbers::Any)
}

// Makes another client, and puts it into a handle that has none.
fn join(alloc: Global, client: &Client, other: &mut ClientHandle) -> u32
    ensures joined { result ≡ ok → HasJoined (Some client.now) other.new.value }
    ensures same { result ≢ ok → other.new.value ≡ other.old.value }
    ensures already_open { result ≡ already_open ↔ IsSome other.old.value }
    ensures codes { (result ≡ ok) ⊎ (result ≡ already_open) ⊎ (result ≡ no_seat) ⊎ (result ≡ busy)
        ⊎ (result ≡ memory) }
{
    match take_client(other, alloc) {
        Some(held) => {
            put_client(other, alloc, held);
            ALREADY_OPEN
        }
        None => match client.join() {
            Ok(joined) => match Box::new(alloc, joined) {
                Ok(joined) => {
                    put_client(other, alloc, joined);
                    OK
                }
                Err(_) => MEMORY,
            },
            Err(JoinFault::NoSeat) => NO_SEAT,
            Err(JoinFault::Busy) => BUSY,
            Err(JoinFault::Memory) => MEMORY,
        },
    }
}

/// Gives `other`, which has none, another client of the same manager: it has seen the whole history. Tested are
/// CLOSED (`client` has none), ALREADY_OPEN (`other` has one), NO_SEAT (256 clients are there) and BUSY, in this order.
#[unsafe(no_mangle)]
pub extern "C" fn rolgunai_client_join(
    alloc: Global,
    client: &mut ClientHandle,
    other: &mut ClientHandle,
) -> u32
    ensures joined { result ≡ ok → HasJoined client.old.value other.new.value }
    ensures kept { client.new.value ≡ client.old.value }
    ensures same { result ≢ ok → other.new.value ≡ other.old.value }
    ensures closed { result ≡ closed ↔ (client.old.value ≡ None) }
    ensures already_open { result ≢ closed → (result ≡ already_open ↔ IsSome other.old.value) }
    ensures codes { (result ≡ ok) ⊎ (result ≡ closed) ⊎ (result ≡ already_open)
        ⊎ (result ≡ no_seat) ⊎ (result ≡ busy) ⊎ (result ≡ memory) }
{
    match take_client(client, alloc) {
        Some(here) => {
            let status = join(alloc, &here, other);
            put_client(client, alloc, here);
            status
        }
        None => CLOSED,
    }
}

/// Frees the client; with the last one its comms are closed, then its targets are stopped, then all memory is freed.
#[unsafe(no_mangle)]
pub extern "C" fn rolgunai_client_free(alloc: Global, client: &mut ClientHandle) -> u32
    ensures none { client.new.value ≡ None }
    ensures closed { result ≡ closed ↔ (client.old.value ≡ None) }
    ensures codes { (result ≡ ok) ⊎ (result ≡ closed) }
{
    match take_client(client, alloc) {
        Some(_) => OK,
        None => CLOSED,
    }
}

/// Shows readers the last change, where no slot was free for it when it was made. `shown` is 1 where readers see it.
#[unsafe(no_mangle)]
pub extern "C" fn rolgunai_client_show(
    alloc: Global,
    client: &mut ClientHandle,
    shown: &mut u32,
) -> u32
    ensures same { client.new.value ≡ client.old.value }
    ensures closed { result ≡ closed ↔ (client.old.value ≡ None) }
    ensures none { result ≢ ok → shown.new ≡ 0 }
    ensures codes { (result ≡ ok) ⊎ (result ≡ closed) ⊎ (result ≡ busy) }
{
    *shown = 0;
    match enter(alloc, client) {
        Ok(entered) => {
            let Entered {
                client: here,
                mut desk,
            } = entered;
            let is_shown = desk.show();
            leave(alloc, client, here, desk);
            *shown = is_shown as u32;
            OK
        }
        Err(status) => status,
    }
}

/// Writes to `seen` how many changes the client has seen: right after a change that is the change's place in the
/// history, from 1. `shown` is 0 where its last change wasn't shown to readers yet when it was made.
#[unsafe(no_mangle)]
pub extern "C" fn rolgunai_client_seen(
    alloc: Global,
    client: &mut ClientHandle,
    seen: &mut u64,
    shown: &mut u32,
) -> u32
    ensures seen { result ≡ ok → HasSeen client.old.value seen.new }
    ensures same { client.new.value ≡ client.old.value }
    ensures closed { result ≡ closed ↔ (client.old.value ≡ None) }
    ensures none { result ≢ ok → (seen.new ≡ 0) × (shown.new ≡ 0) }
    ensures codes { (result ≡ ok) ⊎ (result ≡ closed) }
{
    *seen = 0;
    *shown = 0;
    match take_client(client, alloc) {
        Some(here) => {
            *seen = here.seen();
            *shown = here.is_shown() as u32;
            put_client(client, alloc, here);
            OK
        }
        None => CLOSED,
    }
}
