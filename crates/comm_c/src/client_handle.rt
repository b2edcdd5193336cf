//! A client as C holds it: a pointer, null where there is none.
ghost use Rattle.std.specs.Prelude.{◌≡◌, None, Some, Option, option_map};
ghost use Rattle.comm_c.specs.ClientState.{ClientState};
ghost use Rattle.comm_c.specs.contracts.client.Client.{the_row};
ghost use Rattle.std.specs.Coded.{coded_option};

use crate::client::Client;
use crate::raw_box::RawBox;
use std::alloc::Global;
use std::marker::Model;
use std::ptr;

/// A client, or none.
#[repr(C)]
pub struct ClientHandle {
    at: *mut u8,
    pub ghost value: { Option ClientState } by { coded_option the_row.coded },
}

impl Model for ClientHandle {
    ghost use Rattle.comm_c.specs.contracts.client.Client.{the_row};
    ghost use Rattle.comm_c.specs.Handle.{handle_owns};

    ghost also_owns = { λ s. handle_owns the_row s.at s.value };
}

impl ClientHandle {
    /// A handle that has no client.
    pub fn empty() -> ClientHandle
        ensures { result.value ≡ None }
    {
        ClientHandle {
            at: ptr::null_mut(),
        }
    }

    fn of_raw_box(raw_box: RawBox<Client, Global>) -> ClientHandle
        ensures { result.value ≡ Some raw_box.value }
    {
        let RawBox { at, alloc: _ } = raw_box;
        ClientHandle { at: at as *mut u8 }
    }

    fn into_raw_box(self, alloc: Global) -> Option<RawBox<Client, Global>>
        ensures { option_map (λ l. l.value) result ≡ self.value }
    {
        let ClientHandle { at } = self;
        if at.is_null() {
            None
        } else {
            Some(RawBox {
                at: at as *mut Client,
                alloc,
            })
        }
    }

    /// A handle that has the client in the box.
    pub fn of(boxed: Box<Client>) -> ClientHandle
        ensures { result.value ≡ Some boxed.value }
    {
        ClientHandle::of_raw_box(RawBox::of(boxed))
    }

    /// The client in its box; None where the handle has none.
    pub fn into_box(self, alloc: Global) -> Option<Box<Client>>
        ensures { option_map (λ b. b.value) result ≡ self.value }
    {
        match self.into_raw_box(alloc) {
            Some(raw_box) => Some(raw_box.into_box()),
            None => None,
        }
    }
}

// By `proofs/Crossing.antt`: C may hand it to another thread between two calls.
unsafe impl Send for ClientHandle {}
