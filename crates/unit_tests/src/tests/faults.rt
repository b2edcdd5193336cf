//! What each fault says.
use comm_core::{BadCommsLimit, NewFault};
use comm_messages::{Field, MessageFault};
use comm_targets::TargetFault;
use comm_value::ValueFault;
use std::fmt::Display;
use std::test::Fail;
use test_harness::{TestFault, append_words, expect_text};

const VALUES: [(ValueFault, &str); 6] = [
    (
        ValueFault::NotWhole,
        "a number is not a whole number from -9223372036854775808 to 18446744073709551615",
    ),
    (
        ValueFault::BadPath(0),
        "path 0 of the buffer paths can't be read or has no place in the state",
    ),
    (
        ValueFault::BadPath(18_446_744_073_709_551_615),
        "path 18446744073709551615 of the buffer paths can't be read or has no place in the state",
    ),
    (
        ValueFault::BufferMissing(0),
        "there is no buffer for path 0 of the buffer paths",
    ),
    (
        ValueFault::BufferMissing(12),
        "there is no buffer for path 12 of the buffer paths",
    ),
    (ValueFault::Memory, "out of memory"),
];

const MESSAGES: [(MessageFault, &str); 14] = [
    (MessageFault::NotJson, "the line is not a JSON object"),
    (MessageFault::NoType, "`header` has no text `msg_type`"),
    (
        MessageFault::UnknownType,
        "`msg_type` names no message of a comm",
    ),
    (
        MessageFault::BadContent(Field::Content),
        "`content` is not an object",
    ),
    (
        MessageFault::BadContent(Field::CommId),
        "`comm_id` in `content` is not a text",
    ),
    (
        MessageFault::BadContent(Field::TargetName),
        "`target_name` in `content` is not a text",
    ),
    (
        MessageFault::BadContent(Field::Body),
        "`data` in `content` is not an object",
    ),
    (
        MessageFault::BadContent(Field::Metadata),
        "`metadata` is not an object",
    ),
    (
        MessageFault::BadContent(Field::Buffers),
        "`buffers` is not a list",
    ),
    (
        MessageFault::NotWhole,
        "a number in `data` is not a whole number from -2^63 to 2^64 - 1",
    ),
    (
        MessageFault::BadBuffer(0),
        "buffer 0 is not a text in base64",
    ),
    (
        MessageFault::BadBuffer(7),
        "buffer 7 is not a text in base64",
    ),
    (
        MessageFault::BadClient,
        "`client` is not a whole number below the number of clients",
    ),
    (MessageFault::Memory, "memory ran out"),
];

const TARGETS: [(TargetFault, &str); 12] = [
    (TargetFault::WrongVersion, "the metadata's version isn't 2"),
    (TargetFault::NoState, "the data has no state"),
    (TargetFault::BadState, "the state isn't a dict"),
    (
        TargetFault::BadPath(0),
        "buffer path 0 can't be read or placed",
    ),
    (
        TargetFault::BadPath(3),
        "buffer path 3 can't be read or placed",
    ),
    (
        TargetFault::BufferMissing(0),
        "there is no buffer for buffer path 0",
    ),
    (
        TargetFault::BufferMissing(5),
        "there is no buffer for buffer path 5",
    ),
    (TargetFault::NoMethod, "the data has no method"),
    (TargetFault::UnknownMethod, "the method isn't known"),
    (TargetFault::Other(0), "the target refused with code 0"),
    (
        TargetFault::Other(4_294_967_295),
        "the target refused with code 4294967295",
    ),
    (TargetFault::Memory, "memory ran out"),
];

const NEW: [(NewFault, &str); 2] = [
    (
        NewFault::BadLimits,
        "a limit is out of bounds: clients 1 to 4, comms 1 to 4096, history 1 to 4294967295, outbox 1 to 65536",
    ),
    (NewFault::Memory, "memory ran out"),
];

const LIMITS: [(BadCommsLimit, &str); 1] = [(
    BadCommsLimit,
    "the limit of comms is out of bounds: 1 to 1048576",
)];

// What each of these faults says, a line each.
fn say<F: Display>(rt: &HostRuntime, name: &str, rows: &[(F, &str)]) -> Result<(), TestFault> {
    let alloc = rt.alloc();
    let mut text = Vec::new(alloc);
    let mut want = Vec::new(alloc);
    for (fault, words) in rows {
        text.extend_from_slice(format!(in alloc; "{fault}\n")?.as_bytes())?;
        append_words(&[*words], &mut want)?;
        want.push(b'\n')?;
    }
    expect_text(rt, name, &text, &want)
}

#[test]
fn each_fault_says_what_was_wrong_and_where(rt: HostRuntime) -> Result<(), Fail> {
    say(&rt, "faults of values", &VALUES)?;
    say(&rt, "faults of messages", &MESSAGES)?;
    say(&rt, "faults of targets", &TARGETS)?;
    say(&rt, "faults of new managers", &NEW)?;
    Ok(say(&rt, "a bad limit of comms", &LIMITS)?)
}
