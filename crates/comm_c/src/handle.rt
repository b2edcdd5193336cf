//! A manager as C holds it: a pointer, null where there is none.
ghost use Rattle.std.specs.Prelude.{◌≡◌, None, Some, Option, option_map};
ghost use Rattle.comm_c.specs.ManagerState.{ManagerState};
ghost use Rattle.comm_c.specs.contracts.held_manager.HeldManager.{the_row};
ghost use Rattle.std.specs.Coded.{coded_option};

use crate::held_manager::HeldManager;
use crate::raw_box::RawBox;
use std::alloc::Global;
use std::marker::Model;
use std::ptr;

/// A manager, or none.
#[repr(C)]
pub struct Handle {
    at: *mut u8,
    pub ghost value: { Option ManagerState } by { coded_option the_row.coded },
}

impl Model for Handle {
    ghost use Rattle.comm_c.specs.contracts.held_manager.HeldManager.{the_row};
    ghost use Rattle.comm_c.specs.Handle.{handle_owns};

    ghost also_owns = { λ s. handle_owns the_row s.at s.value };
}

impl Handle {
    /// A handle that has no manager.
    pub fn empty() -> Handle
        ensures { result.value ≡ None }
    {
        Handle {
            at: ptr::null_mut(),
        }
    }

    fn of_raw_box(raw_box: RawBox<HeldManager, Global>) -> Handle
        ensures { result.value ≡ Some raw_box.value }
    {
        let RawBox { at, alloc: _ } = raw_box;
        Handle { at: at as *mut u8 }
    }

    fn into_raw_box(self, alloc: Global) -> Option<RawBox<HeldManager, Global>>
        ensures { option_map (λ l. l.value) result ≡ self.value }
    {
        let Handle { at } = self;
        if at.is_null() {
            None
        } else {
            Some(RawBox {
                at: at as *mut HeldManager,
                alloc,
            })
        }
    }

    /// A handle that has the manager in the box.
    pub fn of(boxed: Box<HeldManager>) -> Handle
        ensures { result.value ≡ Some boxed.value }
    {
        Handle::of_raw_box(RawBox::of(boxed))
    }

    /// The manager in its box; None where the handle has none.
    pub fn into_box(self, alloc: Global) -> Option<Box<HeldManager>>
        ensures { option_map (λ b. b.value) result ≡ self.value }
    {
        match self.into_raw_box(alloc) {
            Some(raw_box) => Some(raw_box.into_box()),
            None => None,
        }
    }
}

// By `proofs/Crossing.antt`: C may hand it to another thread between two calls.
unsafe impl Send for Handle {}
