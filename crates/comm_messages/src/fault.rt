ghost use Rattle.std.specs.Prelude.{◌≡◌};
ghost use Rattle.comm_messages.specs.declared.fault.MessageFault.TheVariants.{Memory};

use std::alloc::{AllocError, AllocFailed};
use std::fmt;
use thiserror::Error;

/// A part of a message that has the wrong type, in [`MessageFault::BadContent`].
#[derive(Clone, Copy, Debug, PartialEq, Eq, Drop)]
pub enum Field {
    /// `content` is to be an object.
    Content,
    /// `content.comm_id` is to be a string.
    CommId,
    /// `content.target_name` is to be a string; in a `comm_info_request` it may be null or absent.
    TargetName,
    /// `content.data` is to be an object, or null or absent.
    Body,
    /// `metadata` is to be an object, or null or absent.
    Metadata,
    /// `buffers` is to be a list, or null or absent.
    Buffers,
}

impl fmt::Display for Field {
    ghost use Rattle.std.specs.Prelude.{Some};
    ghost use Rattle.comm_messages.specs.Words.{field_text};

    ghost output = { λ field. Some (field_text field) };

    fn fmt<W: fmt::Write>(&self, f: &mut fmt::Formatter<W>) -> fmt::Result {
        match self {
            Field::Content => write!(f, "`content` is not an object"),
            Field::CommId => write!(f, "`comm_id` in `content` is not a text"),
            Field::TargetName => write!(f, "`target_name` in `content` is not a text"),
            Field::Body => write!(f, "`data` in `content` is not an object"),
            Field::Metadata => write!(f, "`metadata` is not an object"),
            Field::Buffers => write!(f, "`buffers` is not a list"),
        }
    }
}

/// Why a line, or parts, aren't a message of a comm: the first test that it fails, in the order of `specs/Message`.
#[derive(Clone, Copy, Debug, PartialEq, Eq, Drop, Error)]
pub enum MessageFault {
    /// The line isn't UTF-8, isn't JSON (RFC 8259), or isn't an object; or a part isn't UTF-8, or isn't JSON.
    #[error("the line is not a JSON object")]
    NotJson,
    /// `header` isn't an object with a string `msg_type`.
    #[error("`header` has no text `msg_type`")]
    NoType,
    /// `msg_type` isn't `comm_open`, `comm_msg`, `comm_close` or `comm_info_request`.
    #[error("`msg_type` names no message of a comm")]
    UnknownType,
    /// This part has the wrong type, or is missing where it is required.
    #[error("{0}")]
    BadContent(Field),
    /// A number in `data` isn't an integer from -2^63 to 2^64 - 1.
    #[error("a number in `data` is not a whole number from -2^63 to 2^64 - 1")]
    NotWhole,
    /// The buffer of this index, from 0, isn't a string in base64.
    #[error("buffer {0} is not a text in base64")]
    BadBuffer(usize),
    /// `client` isn't an integer from 0 to the number of clients less one.
    #[error("`client` is not a whole number below the number of clients")]
    BadClient,
    /// Out of memory.
    #[error("memory ran out")]
    Memory,
}

impl From<AllocError> for MessageFault {
    ghost from_gives = { λ _ e. e ≡ Memory };

    fn from(_e: AllocError) -> MessageFault {
        MessageFault::Memory
    }
}

impl<T: Drop> From<AllocFailed<T>> for MessageFault {
    ghost from_gives = { λ _ e. e ≡ Memory };

    fn from(_e: AllocFailed<T>) -> MessageFault {
        MessageFault::Memory
    }
}
