ghost use Rattle.std.specs.Prelude.{◌≡◌, IfOk};

use crate::ids::Ids;
use comm_targets::{SharedCustom, TargetFault};
use comm_value::Dict;
use std::alloc::{AllocError, Global};
use thiserror::Error;

/// Why a comm isn't opened.
#[derive(Debug, Drop, Error)]
pub enum Refusal {
    /// No target has the name.
    #[error("no target has the name")]
    NoTarget,
    /// As many comms are open as the limit allows.
    #[error("as many comms are open as may be")]
    TooManyComms,
    /// The target refuses.
    #[error("{0}")]
    Fault(TargetFault),
}

/// What a call comes to.
#[derive(Drop)]
pub enum Reply {
    Registered,
    /// The target stands in the place of the one that had the name, whose comms, these, are closed, in the order of
    /// opening.
    Replaced(Ids),
    Opened,
    /// A comm has the id already.
    IdInUse,
    OpenRefused(Refusal),
    /// The target took the message; what the caller is handed, if anything.
    Delivered(Option<SharedCustom>),
    /// The target refuses the message. The comm stays open.
    Fault(TargetFault),
    /// No comm has the id.
    NoComm,
    Closed,
    /// The target is taken out, and these comms are closed, in the order of opening.
    Unregistered(Ids),
    /// No target has the name.
    NoTarget,
    Launched,
    /// The comm's target isn't a widget.
    NotWidget,
}

/// What a read of a comm's state gives.
#[derive(Drop)]
pub enum StateAnswer {
    /// No comm has the id.
    NoComm,
    /// The comm has no state.
    NoState,
    State(Dict),
}

impl Refusal {
    fn copy(&self) -> Refusal
        ensures { result ≡ self.now }
    {
        match self {
            Refusal::NoTarget => Refusal::NoTarget,
            Refusal::TooManyComms => Refusal::TooManyComms,
            Refusal::Fault(fault) => Refusal::Fault(*fault),
        }
    }
}

impl Reply {
    /// A copy, which shares what the reply carries. Err: memory.
    pub fn copy(&self, alloc: Global) -> Result<Reply, AllocError>
        ensures { IfOk result (λ r. r ≡ self.now) }
    {
        match self {
            Reply::Registered => Ok(Reply::Registered),
            Reply::Replaced(ids) => Ok(Reply::Replaced(ids.copy(alloc)?)),
            Reply::Opened => Ok(Reply::Opened),
            Reply::IdInUse => Ok(Reply::IdInUse),
            Reply::OpenRefused(why) => Ok(Reply::OpenRefused(why.copy())),
            Reply::Delivered(None) => Ok(Reply::Delivered(None)),
            Reply::Delivered(Some(custom)) => Ok(Reply::Delivered(Some(custom.copy()?))),
            Reply::Fault(fault) => Ok(Reply::Fault(*fault)),
            Reply::NoComm => Ok(Reply::NoComm),
            Reply::Closed => Ok(Reply::Closed),
            Reply::Unregistered(ids) => Ok(Reply::Unregistered(ids.copy(alloc)?)),
            Reply::NoTarget => Ok(Reply::NoTarget),
            Reply::Launched => Ok(Reply::Launched),
            Reply::NotWidget => Ok(Reply::NotWidget),
        }
    }
}
