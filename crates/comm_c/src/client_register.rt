//! How a client registers a target.
ghost use Rattle.std.specs.Prelude.{◌≡◌, ◌≢◌, ◌⊎◌, ◌≤◌, ◌^◌, None, Some, IsSome, IsUtf8, length};
ghost use Rattle.comm_shared.specs.SharedView.{most_changes};
ghost use Rattle.comm_c.specs.BuiltinTarget.{kind_of};
ghost use Rattle.comm_c.specs.ClientExports.{IsFull, RegistersThere};
ghost use Rattle.comm_c.specs.Clients.{ClientRegisters};
ghost use Rattle.comm_c.specs.Codes.{bad_kind, bad_name, busy, exhausted, kind_numbered, memory, ok, stranger};

use crate::builtin_target::BuiltinKind;
use crate::client::Client;
use crate::client_calls::fault_status;
use crate::codes::{BAD_KIND, BAD_NAME, BUSY, EXHAUSTED, MEMORY, OK, kind_numbered};
use crate::desk::Desk;
use comm_value::Text;
use std::alloc::Global;
use std::str;

// Registers a new target of the kind under a name, at the desk.
fn register_at(
    client: &mut Client,
    alloc: Global,
    desk: &mut Desk,
    kind: BuiltinKind,
    name: &str,
) -> u32
    requires { desk.old.origin ≡ client.old.view.origin }
    ensures registers { result ≡ ok
        → ClientRegisters client.old desk.old (kind_of kind) name.now client.new desk.new }
    ensures same { result ≢ ok → client.new ≡ client.old }
    ensures stays { result ≢ ok → desk.new ≡ desk.old }
    ensures origin { desk.new.origin ≡ client.new.view.origin }
    ensures full { result ≡ exhausted
        → (2 ^ 62 ≤ client.old.number) ⊎ (length desk.old.entries ≡ most_changes) }
    ensures codes { (result ≡ ok) ⊎ (result ≡ memory) ⊎ (result ≡ exhausted)
        ⊎ (result ≡ stranger) }
{
    if client.is_exhausted() {
        return EXHAUSTED;
    }
    let Ok(name) = Text::copy_of(alloc, name) else {
        return MEMORY;
    };
    match client.register(alloc, desk, kind, name) {
        Ok(()) => OK,
        Err(fault) => fault_status(fault),
    }
}

/// Registers a new target of the kind that has this number under a name. The kind is tested first, then the name, then
/// whether another call is inside, then whether there can be another call.
#[tactic(auto, using(crate::proofs::ClientCalled::registered_there, crate::proofs::ClientCalled::full_at))]
pub fn register(client: &mut Client, alloc: Global, kind: u32, name: &[u8]) -> u32
    ensures registers { result ≡ ok
        → RegistersThere (kind_numbered kind) name.now client.old client.new }
    ensures same { result ≢ ok → client.new ≡ client.old }
    ensures full { result ≡ exhausted → IsFull (Some client.old) }
    ensures kind { result ≡ bad_kind → kind_numbered kind ≡ None }
    ensures known { result ≢ bad_kind → IsSome (kind_numbered kind) }
    ensures name { result ≡ bad_name → ¬ (IsUtf8 name.now) }
    ensures utf8 { result ≢ bad_kind → result ≢ bad_name → IsUtf8 name.now }
    ensures codes { (result ≡ ok) ⊎ (result ≡ busy) ⊎ (result ≡ memory) ⊎ (result ≡ exhausted)
        ⊎ (result ≡ bad_name) ⊎ (result ≡ bad_kind) ⊎ (result ≡ stranger) }
{
    let Some(kind) = kind_numbered(kind) else {
        return BAD_KIND;
    };
    let Ok(name) = str::from_utf8(name) else {
        return BAD_NAME;
    };
    let Some(mut desk) = client.enter() else {
        return BUSY;
    };
    let status = register_at(client, alloc, &mut desk, kind, name);
    client.leave(desk);
    status
}
