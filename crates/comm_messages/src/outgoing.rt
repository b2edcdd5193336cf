ghost use Rattle.std.specs.Prelude.{◌≡◌, IfOk};

use crate::infos::Infos;
use crate::outgoing_body::OutgoingBody;
use comm_value::Text;
use std::alloc::{AllocError, Global};

/// A message that the kernel sends ('Messaging in Jupyter' 5.3, "Custom Messages").
#[derive(Drop)]
pub enum Outgoing {
    /// `comm_open` opens a comm at the frontend.
    Open {
        /// `content.comm_id`.
        id: Text,
        /// `content.target_name`.
        target: Text,
        /// `metadata.version`.
        version: Text,
        /// `content.data` and the buffers.
        body: OutgoingBody,
    },
    /// `comm_msg` goes to an open comm.
    Msg {
        /// `content.comm_id`.
        id: Text,
        /// `content.data` and the buffers.
        body: OutgoingBody,
    },
    /// `comm_close` closes a comm at the frontend.
    Close {
        /// `content.comm_id`.
        id: Text,
    },
    /// `comm_info_reply` lists the open comms ("Comm info").
    InfoReply {
        /// `content.comms`.
        comms: Infos,
    },
}

/// The request that an outgoing message belongs to.
#[derive(Clone, Copy, Debug, PartialEq, Eq, Drop)]
pub enum Parent {
    /// A call of a client, by its number within that client, from 1.
    Call { client: u8, number: u64 },
    /// A read of a client, by the number of changes that it saw.
    Read { client: u8, front: u64 },
}

impl Outgoing {
    /// A copy that shares strings, members and the bytes of buffers. Err: out of memory.
    pub fn copy(&self, alloc: Global) -> Result<Outgoing, AllocError>
        ensures { IfOk result (λ m. m ≡ self.now) }
    {
        match self {
            Outgoing::Open {
                id,
                target,
                version,
                body,
            } => Ok(Outgoing::Open {
                id: id.copy()?,
                target: target.copy()?,
                version: version.copy()?,
                body: body.copy(alloc)?,
            }),
            Outgoing::Msg { id, body } => Ok(Outgoing::Msg {
                id: id.copy()?,
                body: body.copy(alloc)?,
            }),
            Outgoing::Close { id } => Ok(Outgoing::Close { id: id.copy()? }),
            Outgoing::InfoReply { comms } => Ok(Outgoing::InfoReply {
                comms: comms.copy()?,
            }),
        }
    }
}
