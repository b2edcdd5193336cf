//! Messages that go out, as lines that are read again.
ghost use Rattle.std.specs.Prelude.{◌≡◌, ℕ, true, IfOk};
ghost use Rattle.comm_messages.specs.Text.{goes_with};

use super::append_read;
use comm_core::Call;
use comm_messages::{Body, Outgoing, OutgoingBody, Parent, Telling, read_message, write_message};
use comm_value::{Buffers, Dict};
use std::alloc::{AllocError, Global};
use std::test::Fail;
use test_harness::{
    Case, Subject, TestFault, append_words, body_of, call_of, holds, run_cases, split_word,
};

// The message that a call would send if it were the kernel's.
fn outgoing_of(alloc: Global, line: &str) -> Result<Outgoing, TestFault>
    ensures { (c n : ℕ) → IfOk result (λ m. goes_with m (Parent.Call c n) ≡ true) }
{
    match call_of(alloc, line)? {
        Call::Open {
            id,
            target,
            version,
            body,
        } => match version {
            Some(version) => Ok(Outgoing::Open {
                id,
                target,
                version,
                body: OutgoingBody::new(body),
            }),
            None => Err(TestFault("no version")),
        },
        Call::Msg { id, body } => Ok(Outgoing::Msg {
            id,
            body: OutgoingBody::new(body),
        }),
        Call::Close { id } => Ok(Outgoing::Close { id }),
        _ => Err(TestFault("no message")),
    }
}

// The line of a copy of a message, which is let go first.
pub(super) fn line_of(
    alloc: Global,
    message: Outgoing,
    parent: &Parent,
) -> Result<Vec<u8>, AllocError>
    requires { goes_with message parent.now ≡ true }
{
    let copy = message.copy(alloc);
    drop(message);
    let copy = copy?;
    let line = write_message(alloc, &copy, parent);
    drop(copy);
    line
}

/// Reads `CLIENT NUMBER LINE`: tells the line of the message, as an answer to this call, and what it says where it is
/// read.
struct WrittenMessages;

impl Subject for WrittenMessages {
    fn answer(&self, alloc: Global, line: &str, text: &mut Vec<u8>) -> Result<(), TestFault> {
        let (client, words) = split_word(line);
        let (number, words) = split_word(words);
        let (Ok(client), Ok(number)) = (client.parse::<u8>(), number.parse::<u64>()) else {
            return Err(TestFault("no number"));
        };
        let message = outgoing_of(alloc, words)?;
        let line = line_of(alloc, message, &Parent::Call { client, number })?;
        text.extend_from_slice(&line)?;
        text.push(b'\n')?;
        append_read(alloc, read_message(alloc, &line, 4), text)
    }
}

const WRITTEN: [Case; 3] = [
    Case {
        name: "an open is written",
        lines: r#"0 2 open 67e55044-10b1-426f-9247-bb680e5fe0c8 jupyter.widget 2.0.0 {"state":{"value":1},"buffer_paths":[]}"#,
        want: r#"{"buffers":[],"call":2,"client":0,"content":{"comm_id":"67e55044-10b1-426f-9247-bb680e5fe0c8","data":{"buffer_paths":[],"state":{"value":1}},"target_name":"jupyter.widget"},"header":{"msg_type":"comm_open"},"metadata":{"version":"2.0.0"}}
0 open 67e55044-10b1-426f-9247-bb680e5fe0c8 jupyter.widget 2.0.0 {"buffer_paths":[],"state":{"value":1}}
"#,
    },
    Case {
        name: "a message is written with its buffers",
        lines: r#"0 3 msg a {"method":"update","state":{"y":{"z":[null]}},"buffer_paths":[["x"],["y","z",0]]} 0102 ff"#,
        want: r#"{"buffers":["AQI=","/w=="],"call":3,"client":0,"content":{"comm_id":"a","data":{"buffer_paths":[["x"],["y","z",0]],"method":"update","state":{"y":{"z":[null]}}}},"header":{"msg_type":"comm_msg"},"metadata":{}}
0 msg a {"buffer_paths":[["x"],["y","z",0]],"method":"update","state":{"y":{"z":[null]}}} 0102 ff
"#,
    },
    Case {
        name: "a close is written, its id quoted",
        lines: "3 18446744073709551615 close \"\u{1}\u{7f}/\u{2028}",
        want: "{\"buffers\":[],\"call\":18446744073709551615,\"client\":3,\"content\":{\"comm_id\":\"\\\"\\u0001\u{7f}/\u{2028}\",\"data\":{}},\"header\":{\"msg_type\":\"comm_close\"},\"metadata\":{}}
3 close \"\u{1}\u{7f}/\u{2028}
",
    },
];

#[test]
fn messages_are_written(rt: HostRuntime) -> Result<(), Fail> {
    Ok(run_cases(&rt, rt.alloc(), &WrittenMessages, &WRITTEN)?)
}

#[test]
fn a_body_gives_its_parts_back(rt: HostRuntime) -> Result<(), Fail> {
    let (content, buffers) = body_of(rt.alloc(), r#"{"x":1}"#)?.into_parts();
    holds(
        content.len() == 1 && buffers.as_slice().is_empty(),
        "other parts",
    )?;
    let body = Body::new(Dict::new(), buffers);
    holds(body.content().is_empty(), "another content")?;
    Ok(())
}

#[test]
fn a_told_state_is_data(rt: HostRuntime) -> Result<(), Fail> {
    let alloc = rt.alloc();
    let none = Buffers::none(alloc);
    let body = OutgoingBody::told(alloc, Telling::EchoUpdate, Dict::new(), &[], none)?;
    let content = body.content(alloc)?;
    let mut made = Vec::new(alloc);
    content.write_json(&mut made)?;
    let mut written = Vec::new(alloc);
    body.write_json(&mut written)?;
    let text: &[u8] = br#"{"buffer_paths":[],"method":"echo_update","state":{}}"#;
    holds(made.as_slice() == text, "other data")?;
    holds(written.as_slice() == text, "another text")?;
    Ok(())
}
