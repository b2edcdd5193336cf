//! Managers of one thread.
ghost use Rattle.std.specs.Prelude.{◌≡◌, true, IfOk};

use crate::test_fault::TestFault;
use comm_core::{Core, Limits};
use comm_targets::Target;
use std::alloc::Global;

/// A manager of at most `comms` open comms, by the constructor that takes as many.
pub fn core_of_limit<T: Target>(alloc: Global, comms: usize) -> Result<Core<T>, TestFault>
    ensures { IfOk result (λ c. c.settled ≡ true) }
{
    let limits = Limits {
        clients: 4,
        comms,
        history: 1_000_000,
        outbox: 64,
    };
    if limits.are_allowed() {
        return Ok(Core::new(alloc, limits)?);
    }
    match Core::with_comms_limit(alloc, comms) {
        Ok(core) => Ok(core),
        Err(_) => Err(TestFault("bad limits")),
    }
}
