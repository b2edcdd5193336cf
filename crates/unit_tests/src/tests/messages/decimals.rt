//! Messages whose data has numbers that aren't whole, where any number is a value.
use super::append_read;
use super::writing::line_of;
use comm_messages::{Incoming, MessageFault, Outgoing, OutgoingBody, Parent, read_message_with};
use comm_value::Numbers;
use std::alloc::Global;
use std::test::Fail;
use test_harness::{Case, Subject, TestFault, holds, run_cases, split_word};

// Reads a line, writes the message as a kernel's, and reads it again.
fn append_again(alloc: Global, line: &str, text: &mut Vec<u8>) -> Result<(), TestFault> {
    let (client, incoming) = read_message_with(alloc, line.as_bytes(), 4, Numbers::Any)?;
    let Incoming::Msg { id, body } = incoming else {
        return Err(TestFault("no comm_msg"));
    };
    let body = OutgoingBody::new(body);
    let message = Outgoing::Msg { id, body };
    let line = line_of(alloc, message, &Parent::Call { client, number: 1 })?;
    text.extend_from_slice(&line)?;
    text.push(b'\n')?;
    append_read(
        alloc,
        read_message_with(alloc, &line, 4, Numbers::Any),
        text,
    )
}

/// Reads `read LINE` as a message, and `again LINE` as one that is written and read again.
struct AnyMessages;

impl Subject for AnyMessages {
    fn answer(&self, alloc: Global, line: &str, text: &mut Vec<u8>) -> Result<(), TestFault> {
        let (word, line) = split_word(line);
        if word == "again" {
            append_again(alloc, line, text)
        } else {
            let read = read_message_with(alloc, line.as_bytes(), 4, Numbers::Any);
            append_read(alloc, read, text)
        }
    }
}

const ANY: [Case; 3] = [
    Case {
        name: "decimals are read as their texts",
        lines: r#"read {"header":{"msg_type":"comm_msg"},"content":{"comm_id":"a","data":{"y":[-0,{"z":1E+2}],"x":1.50}}}
read {"header":{"msg_type":"comm_open"},"content":{"comm_id":"a","target_name":"t","data":{"state":{"value":0.0}}}}
read {"header":{"msg_type":"comm_msg"},"content":{"comm_id":"a","data":{"v":18446744073709551616,"w":1}}}
read {"header":{"msg_type":"comm_close"},"content":{"comm_id":"a","data":{"v":1.5}}}"#,
        want: r#"0 msg a {"x":1.50,"y":[-0,{"z":1E+2}]}
0 open a t - {"state":{"value":0.0}}
0 msg a {"v":18446744073709551616,"w":1}
0 close a
"#,
    },
    Case {
        name: "a client is a whole number still, and what is no number in a float's range is no JSON",
        lines: r#"read {"client":1.0,"header":{"msg_type":"comm_msg"},"content":{"comm_id":"a"}}
read {"client":-0,"header":{"msg_type":"comm_msg"},"content":{"comm_id":"a"}}
read {"header":{"msg_type":"comm_msg"},"content":{"comm_id":"a","data":{"x":1e400}}}
read {"header":{"msg_type":"comm_msg"},"content":{"comm_id":"a","data":{"x":1.}}}
read {"header":{"msg_type":"comm_msg"},"content":{"comm_id":1.5,"data":{"x":1.5}}}"#,
        want: "`client` is not a whole number below the number of clients
`client` is not a whole number below the number of clients
the line is not a JSON object
the line is not a JSON object
`comm_id` in `content` is not a text
",
    },
    Case {
        name: "decimals are written as their texts, and read again",
        lines: r#"again {"client":2,"header":{"msg_type":"comm_msg"},"content":{"comm_id":"a","data":{"b":[1.0,1.00,1e0],"a":-1.5E-3}},"buffers":["AQI="]}"#,
        want: r#"{"buffers":["AQI="],"call":1,"client":2,"content":{"comm_id":"a","data":{"a":-1.5E-3,"b":[1.0,1.00,1e0]}},"header":{"msg_type":"comm_msg"},"metadata":{}}
2 msg a {"a":-1.5E-3,"b":[1.0,1.00,1e0]} 0102
"#,
    },
];

#[test]
fn decimals_are_read_and_written(rt: HostRuntime) -> Result<(), Fail> {
    Ok(run_cases(&rt, rt.alloc(), &AnyMessages, &ANY)?)
}

const LINE: &[u8] =
    br#"{"header":{"msg_type":"comm_msg"},"content":{"comm_id":"a","data":{"x":[-1.50E+2,0.1]}}}"#;

#[test]
fn a_line_with_decimals_that_is_cut_is_no_json(rt: HostRuntime) -> Result<(), Fail> {
    let alloc = rt.alloc();
    let mut is_json = false;
    for end in 0..LINE.len() {
        match read_message_with(alloc, &LINE[..end], 4, Numbers::Any) {
            Err(MessageFault::NotJson) => (),
            _ => is_json = true,
        }
    }
    holds(!is_json, "a line that was cut is JSON")?;
    holds(
        read_message_with(alloc, LINE, 4, Numbers::Any).is_ok(),
        "the line isn't read",
    )?;
    Ok(())
}
