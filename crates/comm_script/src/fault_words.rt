//! The words for faults and refusals, in the lines that are written (`docs/FORMATS.md`).
ghost use Rattle.std.specs.Prelude.{◌≡◌, ◌++◌, OnOk};
ghost use Rattle.comm_script.specs.Words.{target_words, field_words, message_words, value_words, key_words};
ghost use Rattle.comm_script.specs.Words.{fault_words, refusal_words};

use crate::asked::{Key, LineFault};
use crate::wording::{append, append_counted};
use comm_core::Refusal;
use comm_messages::{Field, MessageFault};
use comm_targets::TargetFault;
use comm_value::ValueFault;
use std::alloc::AllocError;

/// Appends why a target took no part. Err: memory; this is true of each function here, and a part may have been
/// appended then.
pub fn append_target_words(fault: TargetFault, out: &mut Vec<u8>) -> Result<(), AllocError>
    ensures { OnOk result (out.new.items ≡ out.old.items ++ target_words fault) }
{
    match fault {
        TargetFault::WrongVersion => append(b"wrong_version", out),
        TargetFault::NoState => append(b"no_state", out),
        TargetFault::BadState => append(b"bad_state", out),
        TargetFault::BadPath(n) => append_counted(b"bad_path ", n as u64, out),
        TargetFault::BufferMissing(n) => append_counted(b"buffer_missing ", n as u64, out),
        TargetFault::NoMethod => append(b"no_method", out),
        TargetFault::UnknownMethod => append(b"unknown_method", out),
        TargetFault::Other(code) => append_counted(b"other ", code as u64, out),
        TargetFault::Memory => Ok(()),
    }
}

fn field_words(field: Field) -> &'static str
    ensures { result.now ≡ field_words field }
{
    match field {
        Field::Content => "content",
        Field::CommId => "comm_id",
        Field::TargetName => "target_name",
        Field::Body => "data",
        Field::Metadata => "metadata",
        Field::Buffers => "buffers",
    }
}

fn append_message_words(fault: MessageFault, out: &mut Vec<u8>) -> Result<(), AllocError>
    ensures { OnOk result (out.new.items ≡ out.old.items ++ message_words fault) }
{
    match fault {
        MessageFault::NotJson => append(b"not_json", out),
        MessageFault::NoType => append(b"no_type", out),
        MessageFault::UnknownType => append(b"unknown_type", out),
        MessageFault::BadContent(field) => append_named(b"bad_content ", field_words(field), out),
        MessageFault::NotWhole => append(b"not_whole", out),
        MessageFault::BadBuffer(n) => append_counted(b"bad_buffer ", n as u64, out),
        MessageFault::BadClient => append(b"bad_client", out),
        MessageFault::Memory => Ok(()),
    }
}

fn append_named(words: &[u8], name: &str, out: &mut Vec<u8>) -> Result<(), AllocError>
    ensures { OnOk result (out.new.items ≡ out.old.items ++ (words.now ++ name.now)) }
{
    append(words, out)?;
    append(name.as_bytes(), out)?;
    Ok(())
}

fn append_value_words(fault: ValueFault, out: &mut Vec<u8>) -> Result<(), AllocError>
    ensures { OnOk result (out.new.items ≡ out.old.items ++ value_words fault) }
{
    match fault {
        ValueFault::NotWhole => append(b"not_whole", out),
        ValueFault::BadPath(n) => append_counted(b"bad_path ", n as u64, out),
        ValueFault::BufferMissing(n) => append_counted(b"buffer_missing ", n as u64, out),
        ValueFault::Memory => Ok(()),
    }
}

fn key_words(key: Key) -> &'static str
    ensures { result.now ≡ key_words key }
{
    match key {
        Key::Kind => "kind",
        Key::Name => "name",
        Key::Uuid => "uuid",
        Key::State => "state",
        Key::Id => "id",
        Key::Data => "data",
        Key::Buffers => "buffers",
    }
}

/// Appends why a line can't be read.
pub fn append_fault_words(fault: LineFault, out: &mut Vec<u8>) -> Result<(), AllocError>
    ensures { OnOk result (out.new.items ≡ out.old.items ++ fault_words fault) }
{
    match fault {
        LineFault::Message(fault) => append_message_words(fault, out),
        LineFault::UnknownCall => append(b"unknown_call", out),
        LineFault::BadField(key) => append_named(b"bad_field ", key_words(key), out),
        LineFault::Value(fault) => append_value_words(fault, out),
        LineFault::BadUuid => append(b"bad_uuid", out),
        LineFault::NoStock => append(b"no_stock", out),
    }
}

/// Appends why an open was refused.
pub fn append_refusal_words(why: &Refusal, out: &mut Vec<u8>) -> Result<(), AllocError>
    ensures { OnOk result (out.new.items ≡ out.old.items ++ refusal_words why.now) }
{
    match why {
        Refusal::NoTarget => append(b"no_target", out),
        Refusal::TooManyComms => append(b"too_many_comms", out),
        Refusal::Fault(fault) => append_target_words(*fault, out),
    }
}
