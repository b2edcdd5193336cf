//! The gate by which one call at a time has the desk. Nobody waits at it.
ghost use Rattle.std.specs.Prelude.{◌≡◌, IfSome, MatchResult};

use crate::desk::Desk;
use crate::raw_box::RawBox;
use comm_versions::RawFront;
use counted_slot::{Counted, FREE, Fits, TAKEN};
use std::alloc::Global;
use std::sync::atomic::{AtomicU64, Ordering};

/// A desk behind a raw pointer, so that a reference to it shows nothing of it to another thread.
pub struct SlotDesk {
    raw: RawBox<Desk, Global>,
}

impl Drop for SlotDesk {
    fn drop(self) {
        let Self { raw } = self;
        drop(raw.into_box());
    }
}

// It fits where its manager's history is that of the tag.
impl Fits for SlotDesk {
    type Tag = RawFront;

    ghost use Rattle.std.specs.Prelude.{◌≡◌};

    ghost fits = { λ tag s. s.raw.value.origin ≡ tag.origin };
}

impl SlotDesk {
    /// Puts the desk behind a pointer.
    pub fn of(desk: Box<Desk>) -> SlotDesk
        ensures { result.raw.value ≡ desk.value }
    {
        SlotDesk {
            raw: RawBox::of(desk),
        }
    }

    /// The desk.
    pub fn into_box(self) -> Box<Desk>
        ensures { result.value ≡ self.raw.value }
    {
        let Self { raw } = self;
        raw.into_box()
    }
}

// Puts this into the slot in place of what is there. Err: another thread is just doing that; it comes back.
fn trade(
    slot: &Counted<Option<SlotDesk>>,
    desk: Option<SlotDesk>,
) -> Result<Option<SlotDesk>, Option<SlotDesk>>
    requires { IfSome desk (λ s. s.raw.value.origin ≡ slot.now.origin) }
    ensures { MatchResult result (λ o. IfSome o (λ s. s.raw.value.origin ≡ slot.now.origin))
        (λ o. o ≡ desk) }
{
    let (found, claim) = slot.turn(FREE, TAKEN);
    if found != FREE {
        claim.done();
        return Err(desk);
    }
    Ok(claim.put(desk, FREE))
}

/// A desk that one call at a time has. The door is shut while a call has it. A call that finds the door shut goes away
/// with nothing done, and nobody touches the slot but who has opened the door.
#[derive(Drop)]
pub struct Gate {
    door: AtomicU64,
    pub slot: Counted<Option<SlotDesk>>,
}

impl Gate {
    /// A gate with this desk, whose manager's history is that of the front.
    pub fn new(desk: Box<Desk>, front: &RawFront) -> Gate
        requires { desk.value.origin ≡ front.now.origin }
        ensures { result.slot ≡ front.now }
    {
        Gate {
            door: AtomicU64::new(0),
            slot: Counted::new(Some(SlotDesk::of(desk)), front),
        }
    }

    /// Takes the desk. None: another call has it.
    #[must_use]
    pub fn take(&self) -> Option<Box<Desk>>
        ensures { IfSome result (λ d. d.value.origin ≡ self.now.slot.origin) }
    {
        if self
            .door
            .compare_exchange(0, 1, Ordering::SeqCst, Ordering::SeqCst)
            .is_err()
        {
            return None;
        }
        match trade(&self.slot, None) {
            Ok(Some(desk)) => Some(desk.into_box()),
            _ => {
                self.door.store(0, Ordering::SeqCst);
                None
            }
        }
    }

    /// Gives it back. Whoever has the desk is behind the door, so the slot is free; if it weren't, the manager would end
    /// here, rather than that a call waits.
    pub fn give_back(&self, desk: Box<Desk>)
        requires { desk.value.origin ≡ self.now.slot.origin }
    {
        drop(trade(&self.slot, Some(SlotDesk::of(desk))));
        self.door.store(0, Ordering::SeqCst);
    }
}
