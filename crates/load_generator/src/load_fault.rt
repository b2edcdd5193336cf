//! Why a load isn't done.
ghost use Rattle.std.specs.Prelude.{⊤};

use comm_core::NewFault;
use comm_manager::{OpeningFault, ReadFault};
use std::alloc::{AllocError, AllocFailed};
use std::io;
use thiserror::Error;

/// Why a load isn't done.
#[derive(Clone, Copy, Debug, Error)]
pub enum LoadFault {
    /// There was no memory, or no place for a reader.
    #[error("out of memory, or of places for readers")]
    OutOfResources,
    /// A call wasn't answered as it should be.
    #[error("a call wasn't answered as it should be")]
    WrongAnswer,
    /// The clock couldn't be read, or the line not written.
    #[error("the clock or the output failed")]
    System,
}

impl From<AllocError> for LoadFault {
    ghost from_gives = { λ _ _. ⊤ };

    fn from(_error: AllocError) -> LoadFault {
        LoadFault::OutOfResources
    }
}

impl<T: Drop> From<AllocFailed<T>> for LoadFault {
    ghost from_gives = { λ _ _. ⊤ };

    fn from(_error: AllocFailed<T>) -> LoadFault {
        LoadFault::OutOfResources
    }
}

impl From<NewFault> for LoadFault {
    ghost from_gives = { λ _ _. ⊤ };

    fn from(_fault: NewFault) -> LoadFault {
        LoadFault::WrongAnswer
    }
}

impl From<OpeningFault> for LoadFault {
    ghost from_gives = { λ _ _. ⊤ };

    fn from(_fault: OpeningFault) -> LoadFault {
        LoadFault::OutOfResources
    }
}

impl From<ReadFault> for LoadFault {
    ghost from_gives = { λ _ _. ⊤ };

    fn from(fault: ReadFault) -> LoadFault {
        match fault {
            ReadFault::Memory => LoadFault::OutOfResources,
            ReadFault::NoVersion => LoadFault::WrongAnswer,
        }
    }
}

impl From<io::Error> for LoadFault {
    ghost from_gives = { λ _ _. ⊤ };

    fn from(_error: io::Error) -> LoadFault {
        LoadFault::System
    }
}
