ghost use Rattle.std.specs.Prelude.{◌≡◌};
ghost use Rattle.comm_script.specs.Line.{is_memory};
ghost use Rattle.comm_script.specs.declared.asked.LineFault.TheVariants.{Message, Value};

use crate::stock::StockKind;
use comm_core::Call;
use comm_messages::MessageFault;
use comm_value::{Text, ValueFault};
use std::alloc::AllocError;
use std::fmt;
use thiserror::Error;

/// What a line asks for.
#[derive(Drop)]
pub enum Request {
    /// A change of the manager.
    Change(Call),
    /// The registration of the first target of this kind that the stock has.
    Register { kind: StockKind, name: Text },
    /// The open comms, those of one target where a name is given.
    Infos { target: Option<Text> },
    /// The state of a comm.
    State { id: Text },
}

/// A key of a command that can be of the wrong type.
#[derive(Clone, Copy, Debug, PartialEq, Eq, Drop)]
pub enum Key {
    /// `kind`: one of the words `echo`, `counter`, `widget`, `widget_echo`.
    Kind,
    /// `name`, a text.
    Name,
    /// `uuid`, a text.
    Uuid,
    /// `state`, an object.
    State,
    /// `id`, a text.
    Id,
    /// `data`, an object.
    Data,
    /// `buffers`, a list.
    Buffers,
}

impl fmt::Display for Key {
    ghost use Rattle.std.specs.Prelude.{Some};
    ghost use Rattle.comm_script.specs.Words.{key_words};

    ghost output = { λ key. Some (key_words key) };

    fn fmt<W: fmt::Write>(&self, f: &mut fmt::Formatter<W>) -> fmt::Result {
        match self {
            Key::Kind => write!(f, "kind"),
            Key::Name => write!(f, "name"),
            Key::Uuid => write!(f, "uuid"),
            Key::State => write!(f, "state"),
            Key::Id => write!(f, "id"),
            Key::Data => write!(f, "data"),
            Key::Buffers => write!(f, "buffers"),
        }
    }
}

/// Why a line can't be read: the first test that it fails.
#[derive(Clone, Copy, Debug, PartialEq, Eq, Drop, Error)]
pub enum LineFault {
    /// A part that messages have too.
    #[error("{0}")]
    Message(MessageFault),
    /// The command's name isn't known.
    #[error("`call` names no command")]
    UnknownCall,
    /// This key of the command is missing or of the wrong type.
    #[error("`{0}` of the command is missing or has the wrong type")]
    BadField(Key),
    /// A number in the state or its paths isn't whole, or a buffer can't be placed.
    #[error("{0}")]
    Value(ValueFault),
    /// The `uuid` isn't one.
    #[error("`uuid` is not a UUID")]
    BadUuid,
    /// No target of this kind is left.
    #[error("no target of this kind is left")]
    NoStock,
}

impl LineFault {
    /// Whether memory ran out while the line was read. Nothing is said of the line then.
    pub fn is_memory(self) -> bool
        ensures { result ≡ is_memory self }
    {
        match self {
            LineFault::Message(MessageFault::Memory) => true,
            LineFault::Value(ValueFault::Memory) => true,
            _ => false,
        }
    }
}

impl From<MessageFault> for LineFault {
    ghost from_gives = { λ e f. f ≡ Message e };

    fn from(e: MessageFault) -> LineFault {
        LineFault::Message(e)
    }
}

impl From<ValueFault> for LineFault {
    ghost from_gives = { λ e f. f ≡ Value e };

    fn from(e: ValueFault) -> LineFault {
        LineFault::Value(e)
    }
}

impl From<AllocError> for LineFault {
    ghost use Rattle.comm_messages.specs.declared.fault.MessageFault.TheVariants.{Memory};

    ghost from_gives = { λ _ f. f ≡ Message Memory };

    fn from(_e: AllocError) -> LineFault {
        LineFault::Message(MessageFault::Memory)
    }
}
