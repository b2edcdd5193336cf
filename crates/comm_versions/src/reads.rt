use comm_core::StateAnswer;
use comm_messages::Infos;
use thiserror::Error;

/// The comms that a read saw, and after how many entries.
#[derive(Drop)]
pub struct InfoRead {
    pub front: u64,
    pub comms: Infos,
}

/// The answer of a read of a comm's state, and after how many entries.
#[derive(Drop)]
pub struct StateRead {
    pub front: u64,
    pub answer: StateAnswer,
}

/// Why a read gives nothing.
#[derive(Clone, Copy, Debug, PartialEq, Eq, Error)]
pub enum ReadFault {
    /// Memory ran out, or a count of owners couldn't be raised.
    #[error("out of memory")]
    Memory,
    /// No version is shown any more.
    #[error("no version is shown any more")]
    NoVersion,
}
