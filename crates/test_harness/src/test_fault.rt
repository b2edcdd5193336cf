//! Why a test fails.
ghost use Rattle.std.specs.Prelude.{⊤, ◌≡◌, true, false, OnOk, OnErr};

use comm_core::NewFault;
use comm_messages::MessageFault;
use comm_targets::TargetFault;
use comm_value::ValueFault;
use std::alloc::{AllocError, AllocFailed};
use thiserror::Error;

/// Why a test fails, in words.
#[derive(Clone, Copy, Debug, Error)]
#[error("{0}")]
pub struct TestFault(pub &'static str);

const NO_MEMORY: TestFault = TestFault("no memory where none is refused");

impl From<AllocError> for TestFault {
    ghost from_gives = { λ _ _. ⊤ };

    fn from(_error: AllocError) -> TestFault {
        NO_MEMORY
    }
}

impl<T: Drop> From<AllocFailed<T>> for TestFault {
    ghost from_gives = { λ _ _. ⊤ };

    fn from(_error: AllocFailed<T>) -> TestFault {
        NO_MEMORY
    }
}

impl From<MessageFault> for TestFault {
    ghost from_gives = { λ _ _. ⊤ };

    fn from(_fault: MessageFault) -> TestFault {
        TestFault("no JSON object of whole numbers")
    }
}

impl From<ValueFault> for TestFault {
    ghost from_gives = { λ _ _. ⊤ };

    fn from(_fault: ValueFault) -> TestFault {
        TestFault("no value")
    }
}

impl From<TargetFault> for TestFault {
    ghost from_gives = { λ _ _. ⊤ };

    fn from(_fault: TargetFault) -> TestFault {
        TestFault("a target refuses")
    }
}

impl From<NewFault> for TestFault {
    ghost from_gives = { λ _ _. ⊤ };

    fn from(_fault: NewFault) -> TestFault {
        TestFault("no manager of these limits")
    }
}

/// Err of these words where it isn't so.
pub fn holds(is: bool, what: &'static str) -> Result<(), TestFault>
    ensures holds { OnOk result (is ≡ true) }
    ensures fails { OnErr result (is ≡ false) }
{
    if is { Ok(()) } else { Err(TestFault(what)) }
}
