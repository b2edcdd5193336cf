//! The library for C, and for whatever calls C: a comm manager behind a handle. `bindings/c/rolgunai.h`
//! declares each exported function, and says what its caller owes.
//!
//! No exported function has a `requires`, since nothing would check that C keeps it: a handle that has no
//! manager, a buffer that is too small, a name that isn't UTF-8, all give a status. After `MEMORY` nothing
//! has changed. A target takes no memory until a comm is open, so any number of targets may be registered.
//!
//! Messages of frontends and lines come by `frontend_api`, the kernel's own calls by `kernel_api`, both with frames by
//! `frames_api`; `result_api` gives what the last call came to.
#![tactic(auto)]

mod builtin_target;
mod call_result;
mod calls;
mod client;
pub mod client_api;
mod client_calls;
pub mod client_frames_api;
pub mod client_frontend_api;
mod client_handle;
pub mod client_kernel_api;
pub mod client_read_api;
mod client_register;
pub mod client_result_api;
mod codes;
mod copying;
mod counted_core;
mod desk;
mod executing;
pub mod frames_api;
pub mod frontend_api;
mod gate;
mod handle;
mod held_manager;
mod input;
mod inputs;
pub mod kernel_api;
mod laws;
mod opaque;
mod part_bytes;
mod playing;
mod raw_box;
mod reasons;
pub mod result_api;
mod subject;
pub mod version;

ghost use Rattle.std.specs.Prelude.{◌≡◌, ◌≢◌, ◌⊎◌, ◌↔◌, Some, None, IsSome};
ghost use Rattle.comm_core.specs.Limits.{IsCommsLimit};
ghost use Rattle.comm_c.specs.Codes.{already_open, bad_limit, closed, memory, ok};
ghost use Rattle.comm_c.specs.ManagerState.{new_manager};

use crate::calls::{open_manager, take};
use crate::codes::{CLOSED, OK};
use crate::handle::Handle;
use comm_value::Numbers;
pub use laws::{calls_make_legal_histories, calls_play_scripts, lines_play_scripts};
use std::alloc::Global;

/// Makes a manager of which at most `comms` comms are open at a time (1 to 1,048,576), and puts it into a handle
/// that has none. A number that isn't whole makes a line or a message BAD. BAD_LIMIT: `comms` is out of these
/// bounds. ALREADY_OPEN: the handle has a manager, which stays; this is tested first.
#[unsafe(no_mangle)]
pub extern "C" fn rolgunai_new(alloc: Global, handle: &mut Handle, comms: usize) -> u32
    ensures opened { result ≡ ok → handle.new.value ≡ Some (new_manager comms Numbers.Whole) }
    ensures same { result ≢ ok → handle.new.value ≡ handle.old.value }
    ensures already_open { result ≡ already_open ↔ IsSome handle.old.value }
    ensures bad_limit { result ≡ bad_limit
        ↔ ((handle.old.value ≡ None) × ¬ (IsCommsLimit comms)) }
    ensures allowed { (result ≡ ok) ⊎ (result ≡ memory) → IsCommsLimit comms }
    ensures codes { (result ≡ ok) ⊎ (result ≡ memory) ⊎ (result ≡ bad_limit)
        ⊎ (result ≡ already_open) }
{
    open_manager(alloc, handle, comms, Numbers::Whole)
}

/// Makes a manager as `rolgunai_new` does, but one that takes every JSON number as a value: one that isn't
/// whole is kept and sent as the text that came.
#[unsafe(no_mangle)]
pub extern "C" fn rolgunai_new_with_decimals(
    alloc: Global,
    handle: &mut Handle,
    comms: usize,
) -> u32
    ensures opened { result ≡ ok → handle.new.value ≡ Some (new_manager comms Numbers.Any) }
    ensures same { result ≢ ok → handle.new.value ≡ handle.old.value }
    ensures already_open { result ≡ already_open ↔ IsSome handle.old.value }
    ensures bad_limit { result ≡ bad_limit
        ↔ ((handle.old.value ≡ None) × ¬ (IsCommsLimit comms)) }
    ensures allowed { (result ≡ ok) ⊎ (result ≡ memory) → IsCommsLimit comms }
    ensures codes { (result ≡ ok) ⊎ (result ≡ memory) ⊎ (result ≡ bad_limit)
        ⊎ (result ≡ already_open) }
{
    open_manager(alloc, handle, comms, Numbers::Any)
}

/// Frees the manager: closes its comms, then stops its targets, then frees all memory. Afterwards the handle
/// has none, and `rolgunai_new` may give it another.
#[unsafe(no_mangle)]
pub extern "C" fn rolgunai_free(alloc: Global, handle: &mut Handle) -> u32
    ensures none { handle.new.value ≡ None }
    ensures closed { result ≡ closed ↔ (handle.old.value ≡ None) }
    ensures codes { (result ≡ ok) ⊎ (result ≡ closed) }
{
    match take(handle, alloc) {
        Some(_) => OK,
        None => CLOSED,
    }
}
