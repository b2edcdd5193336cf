ghost use Rattle.std.specs.Prelude.{◌≡◌};
ghost use Rattle.comm_script.specs.declared.fault.RunFault.TheVariants.{Memory};

use std::alloc::{AllocError, AllocFailed};
use thiserror::Error;

/// Why a script wasn't played to its end.
#[derive(Clone, Copy, Debug, PartialEq, Eq, Drop, Error)]
pub enum RunFault {
    /// The script couldn't be read to its end.
    #[error("the script can't be read to its end")]
    Read,
    /// What is said couldn't be written.
    #[error("the output can't be written")]
    Write,
    /// Out of memory.
    #[error("out of memory")]
    Memory,
    /// A limit is out of its bounds.
    #[error("a limit is out of its bounds")]
    BadLimits,
    /// A client of a shared manager had no version to read. Over a manager of one thread it doesn't come.
    #[error("a client has no version to read")]
    NoReader,
}

impl From<AllocError> for RunFault {
    ghost from_gives = { λ _ e. e ≡ Memory };

    fn from(_e: AllocError) -> RunFault {
        RunFault::Memory
    }
}

impl<T: Drop> From<AllocFailed<T>> for RunFault {
    ghost from_gives = { λ _ e. e ≡ Memory };

    fn from(_e: AllocFailed<T>) -> RunFault {
        RunFault::Memory
    }
}
