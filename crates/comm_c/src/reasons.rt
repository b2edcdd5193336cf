//! Why a call's reply is bad, refused or a fault: a number, and the number in it. `rolgunai.h` has the same.
ghost use Rattle.std.specs.Prelude.{◌≡◌};
ghost use Rattle.comm_c.specs.Reasons.{field_number, key_number, message_reason, value_reason, line_reason};
ghost use Rattle.comm_c.specs.Reasons.{target_reason, refusal_reason, reply_reason, reason_of};

use crate::call_result::CallResult;
use comm_core::{Refusal, Reply};
use comm_messages::{Field, MessageFault};
use comm_script::{Key, LineFault};
use comm_targets::TargetFault;
use comm_value::ValueFault;

/// A reason by its number, and the number in it, or 0.
#[derive(Clone, Copy, Drop)]
pub struct Reason {
    pub number: u32,
    pub index: u64,
}

const NONE: Reason = Reason {
    number: 0,
    index: 0,
};

const fn numbered(number: u32, index: u64) -> Reason
    ensures { result ≡ record { number = number; index = index } }
{
    Reason { number, index }
}

fn field_number(field: Field) -> u64
    ensures { result ≡ field_number field }
{
    match field {
        Field::Content => 0,
        Field::CommId => 1,
        Field::TargetName => 2,
        Field::Body => 3,
        Field::Metadata => 4,
        Field::Buffers => 5,
    }
}

fn key_number(key: Key) -> u64
    ensures { result ≡ key_number key }
{
    match key {
        Key::Data => 3,
        Key::Buffers => 5,
        Key::Kind => 6,
        Key::Name => 7,
        Key::Uuid => 8,
        Key::State => 9,
        Key::Id => 10,
    }
}

fn message_reason(fault: MessageFault) -> Reason
    ensures { (result.number, result.index) ≡ message_reason fault }
{
    match fault {
        MessageFault::NotJson => numbered(1, 0),
        MessageFault::NoType => numbered(2, 0),
        MessageFault::UnknownType => numbered(3, 0),
        MessageFault::BadContent(field) => numbered(4, field_number(field)),
        MessageFault::NotWhole => numbered(5, 0),
        MessageFault::BadBuffer(n) => numbered(6, n as u64),
        MessageFault::BadClient => numbered(7, 0),
        MessageFault::Memory => NONE,
    }
}

fn value_reason(fault: ValueFault) -> Reason
    ensures { (result.number, result.index) ≡ value_reason fault }
{
    match fault {
        ValueFault::NotWhole => numbered(5, 0),
        ValueFault::BadPath(n) => numbered(12, n as u64),
        ValueFault::BufferMissing(n) => numbered(13, n as u64),
        ValueFault::Memory => NONE,
    }
}

fn line_reason(fault: LineFault) -> Reason
    ensures { (result.number, result.index) ≡ line_reason fault }
{
    match fault {
        LineFault::Message(fault) => message_reason(fault),
        LineFault::UnknownCall => numbered(8, 0),
        LineFault::BadField(key) => numbered(9, key_number(key)),
        LineFault::BadUuid => numbered(10, 0),
        LineFault::NoStock => numbered(11, 0),
        LineFault::Value(fault) => value_reason(fault),
    }
}

fn target_reason(fault: TargetFault) -> Reason
    ensures { (result.number, result.index) ≡ target_reason fault }
{
    match fault {
        TargetFault::BadPath(n) => numbered(12, n as u64),
        TargetFault::BufferMissing(n) => numbered(13, n as u64),
        TargetFault::WrongVersion => numbered(16, 0),
        TargetFault::NoState => numbered(17, 0),
        TargetFault::BadState => numbered(18, 0),
        TargetFault::NoMethod => numbered(19, 0),
        TargetFault::UnknownMethod => numbered(20, 0),
        TargetFault::Other(code) => numbered(21, code as u64),
        TargetFault::Memory => NONE,
    }
}

fn refusal_reason(why: &Refusal) -> Reason
    ensures { (result.number, result.index) ≡ refusal_reason why.now }
{
    match why {
        Refusal::NoTarget => numbered(14, 0),
        Refusal::TooManyComms => numbered(15, 0),
        Refusal::Fault(fault) => target_reason(*fault),
    }
}

fn reply_reason(reply: &Reply) -> Reason
    ensures { (result.number, result.index) ≡ reply_reason reply.now }
{
    match reply {
        Reply::OpenRefused(why) => refusal_reason(why),
        Reply::Fault(fault) => target_reason(*fault),
        _ => NONE,
    }
}

impl CallResult {
    /// Why the reply is bad, refused or a fault; the number is 0 where it's another.
    pub fn reason(&self) -> Reason
        ensures { (result.number, result.index) ≡ reason_of self.now }
    {
        match self {
            CallResult::Bad { fault, .. } => line_reason(*fault),
            CallResult::Change(made) => reply_reason(&made.reply),
            CallResult::Nothing
            | CallResult::Infos { .. }
            | CallResult::State { .. }
            | CallResult::Target { .. } => NONE,
        }
    }
}
