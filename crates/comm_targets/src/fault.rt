ghost use Rattle.std.specs.Prelude.{◌≡◌};
ghost use Rattle.comm_targets.specs.declared.fault.TargetFault.TheVariants.{Memory};

use std::alloc::{AllocError, AllocFailed};
use thiserror::Error;

/// Why a target refuses an event.
#[derive(Clone, Copy, Debug, PartialEq, Eq, Error)]
pub enum TargetFault {
    /// The widget protocol's version isn't 2.
    #[error("the metadata's version isn't 2")]
    WrongVersion,
    /// A widget is opened without a state.
    #[error("the data has no state")]
    NoState,
    /// A state that isn't a dict.
    #[error("the state isn't a dict")]
    BadState,
    /// This path of the buffers can't be read, or has no place in the state.
    #[error("buffer path {0} can't be read or placed")]
    BadPath(usize),
    /// There is no buffer for this path.
    #[error("there is no buffer for buffer path {0}")]
    BufferMissing(usize),
    /// A widget's message without a method.
    #[error("the data has no method")]
    NoMethod,
    /// A widget's message of a method that isn't known.
    #[error("the method isn't known")]
    UnknownMethod,
    /// A refusal of a free target, by its own number.
    #[error("the target refused with code {0}")]
    Other(u32),
    /// Memory ran out.
    #[error("memory ran out")]
    Memory,
}

impl From<AllocError> for TargetFault {
    ghost from_gives = { λ _ e. e ≡ Memory };

    fn from(_error: AllocError) -> TargetFault {
        TargetFault::Memory
    }
}

impl<T: Drop> From<AllocFailed<T>> for TargetFault {
    ghost from_gives = { λ _ e. e ≡ Memory };

    fn from(_error: AllocFailed<T>) -> TargetFault {
        TargetFault::Memory
    }
}
