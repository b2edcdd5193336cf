//! Messages as they are read, the first test that one fails, and the parts of reading one by one.
use comm_json::{JsonRef, ParseArena};
use comm_messages::{
    Fields, Incoming, MessageFault, buffers_of, client_of, dict_of, fields_of, member, message_of,
    object_in, object_or_empty, read_message, text, text_or_none,
};
use comm_value::{KnownTexts, Numbers, Text};
use serde_json::Value;
use std::alloc::{AllocError, Global};
use std::test::Fail;
use test_harness::{
    Case, Subject, TestFault, append_body, append_buffers, append_words, expect_text, run_cases,
    split_word,
};

mod at_once;
mod decimals;
mod parts;
mod writing;

fn or_dash(text: &Option<Text>) -> &str {
    match text {
        Some(text) => text.as_str(),
        None => "-",
    }
}

// A client's message in words.
fn append_message(
    alloc: Global,
    client: u8,
    message: &Incoming,
    out: &mut Vec<u8>,
) -> Result<(), AllocError> {
    out.extend_from_slice(format!(in alloc; "{client} ")?.as_bytes())?;
    match message {
        Incoming::Open {
            id,
            target,
            version,
            body,
        } => {
            append_words(
                &["open", id.as_str(), target.as_str(), or_dash(version)],
                out,
            )?;
            append_body(alloc, body, out)
        }
        Incoming::Msg { id, body } => {
            append_words(&["msg", id.as_str()], out)?;
            append_body(alloc, body, out)
        }
        Incoming::Close { id } => append_words(&["close", id.as_str()], out),
        Incoming::InfoRequest { target } => append_words(&["info", or_dash(target)], out),
    }
}

// The message in words, or what is wrong with it.
fn append_read(
    alloc: Global,
    read: Result<(u8, Incoming), MessageFault>,
    out: &mut Vec<u8>,
) -> Result<(), TestFault> {
    match read {
        Ok((client, message)) => {
            let done = append_message(alloc, client, &message, out);
            drop(message);
            done?;
        }
        Err(fault) => out.extend_from_slice(format!(in alloc; "{fault}")?.as_bytes())?,
    }
    Ok(append_words(&["\n"], out)?)
}

// A message whose data nests so many lists; its first words.
fn append_nested(alloc: Global, lists: usize, out: &mut Vec<u8>) -> Result<(), TestFault> {
    let mut line = String::from_str(
        alloc,
        r#"{"header":{"msg_type":"comm_msg"},"content":{"comm_id":"a","data":{"x":"#,
    )?;
    for _ in 0..lists {
        line.push('[')?;
    }
    for _ in 0..lists {
        line.push(']')?;
    }
    line.push_str("}}}")?;
    let mut words = Vec::new(alloc);
    append_read(alloc, read_message(alloc, line.as_bytes(), 4), &mut words)?;
    words.truncate(14);
    out.extend_from_slice(&words)?;
    Ok(append_words(&["\n"], out)?)
}

fn append_base64(alloc: Global, json: &str, out: &mut Vec<u8>) -> Result<(), TestFault> {
    let Ok(value) = Value::from_str(alloc, json) else {
        return Err(TestFault("no JSON"));
    };
    let buffers = buffers_of(alloc, Some(JsonRef::Owned(&value)));
    drop(value);
    match buffers {
        Ok(buffers) => append_buffers(alloc, &buffers, out)?,
        Err(fault) => out.extend_from_slice(format!(in alloc; "{fault}")?.as_bytes())?,
    }
    Ok(append_words(&["\n"], out)?)
}

/// Reads `hex HEX` as a message of these bytes, `nested N` as one of so many lists inside one another, `base64 JSON`
/// as a list of buffers, and any other line as a message.
struct Messages;

impl Subject for Messages {
    fn answer(&self, alloc: Global, line: &str, text: &mut Vec<u8>) -> Result<(), TestFault> {
        let (word, rest) = split_word(line);
        if word == "hex" {
            match hex::decode(alloc, rest) {
                Ok(bytes) => append_read(alloc, read_message(alloc, &bytes, 4), text),
                Err(_) => Err(TestFault("no hexadecimal digits")),
            }
        } else if word == "nested" {
            match rest.parse::<usize>() {
                Ok(lists) => append_nested(alloc, lists, text),
                Err(_) => Err(TestFault("no number")),
            }
        } else if word == "base64" {
            append_base64(alloc, rest, text)
        } else {
            append_read(alloc, read_message(alloc, line.as_bytes(), 4), text)
        }
    }
}

const READ: [Case; 5] = [
    Case {
        name: "openings, messages and closes are read, with their buffers",
        lines: r#"{"header":{"msg_type":"comm_open"},"content":{"comm_id":"a","target_name":"t","data":{}}}
{"header":{"msg_type":"comm_open"},"content":{"comm_id":"a","target_name":"jupyter.widget","data":{"state":{"y":{"z":[null]}},"buffer_paths":[["x"],["y","z",0]]}},"metadata":{"version":"2.0.0"},"buffers":["AQI=","/w=="]}
{"client":1,"header":{"msg_type":"comm_msg"},"content":{"comm_id":"a","data":{"x":1}}}
{"header":{"msg_type":"comm_msg"},"content":{"comm_id":"q"}}
{"header":{"msg_type":"comm_close"},"content":{"comm_id":"q"}}
{"header":{"msg_type":"comm_msg"},"content":{"comm_id":"a","target_name":7,"data":{"v":18446744073709551615,"w":-9223372036854775808}}}"#,
        want: r#"0 open a t - {}
0 open a jupyter.widget 2.0.0 {"buffer_paths":[["x"],["y","z",0]],"state":{"y":{"z":[null]}}} 0102 ff
1 msg a {"x":1}
0 msg q {}
0 close q
0 msg a {"v":18446744073709551615,"w":-9223372036854775808}
"#,
    },
    Case {
        name: "absent and null are the same, and unknown keys and what isn't used are ignored",
        lines: r#"{"client":null,"header":{"msg_type":"comm_open","x":1.5},"content":{"comm_id":"","target_name":"","data":null,"y":[]},"metadata":null,"buffers":null,"z":0}
{"header":{"msg_type":"comm_open"},"content":{"comm_id":"a","target_name":"t"},"metadata":{"version":2}}
{"header":{"msg_type":"comm_close"},"content":{"comm_id":"a","data":{"v":1.5}}}"#,
        want: "0 open   - {}\n0 open a t - {}\n0 close a\n",
    },
    Case {
        name: "requests of infos are read",
        lines: r#"{"header":{"msg_type":"comm_info_request"}}
{"header":{"msg_type":"comm_info_request"},"content":{"target_name":null,"comm_id":7,"data":7},"buffers":["AQI="]}
{"header":{"msg_type":"comm_info_request"},"content":{"target_name":""}}"#,
        want: "0 info -\n0 info -\n0 info \n",
    },
    Case {
        name: "of a key that stands twice the last value stays",
        lines: r#"{"client":9,"client":3,"header":{"msg_type":"comm_msg"},"content":{"comm_id":7,"comm_id":"a","data":{"x":1.5,"x":2}}}"#,
        want: r#"3 msg a {"x":2}
"#,
    },
    Case {
        name: "at most 127 levels are read",
        lines: "nested 124\nnested 125",
        want: "0 msg a {\"x\":[\nthe line is no\n",
    },
];

const REFUSED: [Case; 7] = [
    Case {
        name: "a line that isn't one JSON object",
        lines: r#"{
[]

{"header":{"msg_type":"comm_open"},"cont
{} {}
{"x":1e400}
{"x":"\ud800"}
hex efbbbf7b7d
hex 0c7b7d
hex 7b2278223a220a227d
hex 7b2278223a22ff227d"#,
        want: "the line is not a JSON object
the line is not a JSON object
the line is not a JSON object
the line is not a JSON object
the line is not a JSON object
the line is not a JSON object
the line is not a JSON object
the line is not a JSON object
the line is not a JSON object
the line is not a JSON object
the line is not a JSON object
",
    },
    Case {
        name: "a client that isn't a whole number below their number",
        lines: r#"{"client":4,"header":{"msg_type":"comm_msg"}}
{"client":1.0}
{"client":-0}
{"client":-1}
{"client":1e2}
{"client":"0"}"#,
        want: "`client` is not a whole number below the number of clients
`client` is not a whole number below the number of clients
`client` is not a whole number below the number of clients
`client` is not a whole number below the number of clients
`client` is not a whole number below the number of clients
`client` is not a whole number below the number of clients
",
    },
    Case {
        name: "no type, or one that isn't known",
        lines: r#"{}
{"header":null}
{"header":{"msg_type":null}}
{"header":{"msg_type":"execute_request"},"content":7}"#,
        want: "`header` has no text `msg_type`
`header` has no text `msg_type`
`header` has no text `msg_type`
`msg_type` names no message of a comm
",
    },
    Case {
        name: "a content with a part of another type",
        lines: r#"{"header":{"msg_type":"comm_msg"},"content":7,"metadata":7}
{"header":{"msg_type":"comm_msg"},"content":{"comm_id":7,"data":7}}
{"header":{"msg_type":"comm_close"}}
{"header":{"msg_type":"comm_info_request"},"content":{"target_name":7},"metadata":7}
{"header":{"msg_type":"comm_open"},"content":{"comm_id":"a","target_name":null,"data":7}}
{"header":{"msg_type":"comm_close"},"content":{"comm_id":"a","data":[]},"metadata":7}"#,
        want: "`content` is not an object
`comm_id` in `content` is not a text
`comm_id` in `content` is not a text
`target_name` in `content` is not a text
`target_name` in `content` is not a text
`data` in `content` is not an object
",
    },
    Case {
        name: "metadata of another type, before numbers that aren't whole, and these before buffers",
        lines: r#"{"header":{"msg_type":"comm_msg"},"content":{"comm_id":"a","data":{"v":1.5}},"metadata":"2.0.0"}
{"header":{"msg_type":"comm_msg"},"content":{"comm_id":"a","data":{"v":1.5}},"buffers":{}}
{"header":{"msg_type":"comm_open"},"content":{"comm_id":"a","target_name":"t","data":{"v":[-0]}}}"#,
        want: "`metadata` is not an object
a number in `data` is not a whole number from -2^63 to 2^64 - 1
a number in `data` is not a whole number from -2^63 to 2^64 - 1
",
    },
    Case {
        name: "buffers of another type, and the first that isn't base64",
        lines: r#"{"header":{"msg_type":"comm_close"},"content":{"comm_id":"a"},"buffers":"AQI="}
{"header":{"msg_type":"comm_info_request"},"buffers":[7]}
{"header":{"msg_type":"comm_msg"},"content":{"comm_id":"a"},"buffers":["AQI"]}
{"header":{"msg_type":"comm_close"},"content":{"comm_id":"a"},"buffers":["AQI=",7,"*"]}"#,
        want: "`buffers` is not a list
buffer 0 is not a text in base64
buffer 0 is not a text in base64
buffer 1 is not a text in base64
",
    },
    Case {
        name: "base64: the vectors of RFC 4648, section 10, and what isn't in its alphabet, padded or whole",
        lines: r#"base64 ["","Zg==","Zm8=","Zm9v","Zm9vYg==","Zm9vYmE=","Zm9vYmFy"]
base64 ["AQJ="]
base64 ["AR=="]
base64 ["AQI"]
base64 ["AQI=="]
base64 [" AQI="]
base64 ["AQI=\n"]
base64 ["-_-_"]
base64 [null]
base64 7"#,
        want: " - 66 666f 666f6f 666f6f62 666f6f6261 666f6f626172
buffer 0 is not a text in base64
buffer 0 is not a text in base64
buffer 0 is not a text in base64
buffer 0 is not a text in base64
buffer 0 is not a text in base64
buffer 0 is not a text in base64
buffer 0 is not a text in base64
buffer 0 is not a text in base64
`buffers` is not a list
",
    },
];

#[test]
fn messages_are_read_or_the_first_test_that_fails_is_named(rt: HostRuntime) -> Result<(), Fail> {
    run_cases(&rt, rt.alloc(), &Messages, &READ)?;
    Ok(run_cases(&rt, rt.alloc(), &Messages, &REFUSED)?)
}

const COMMAND: &[u8] = br#"{"call":"send","client":2,"data":{"x":1},"state":null}"#;

// How many members the object at a key has, `-` for one that isn't there or is null, and `?` for another value.
fn append_object(
    alloc: Global,
    fields: Fields<'_, '_>,
    key: &str,
    out: &mut Vec<u8>,
) -> Result<(), TestFault> {
    match object_or_empty(member(fields, key)) {
        None => Ok(append_words(&["?"], out)?),
        Some(None) => Ok(append_words(&["-"], out)?),
        Some(object) => {
            let mut texts = KnownTexts::new(alloc);
            let members = dict_of(alloc, Numbers::Whole, &mut texts, object)?.len();
            Ok(out.extend_from_slice(format!(in alloc; "{members}")?.as_bytes())?)
        }
    }
}

// What the readers of fields make of the member at a key: as a text, as a text or none, as a client of 3 and of 2,
// and as an object.
fn append_field(
    alloc: Global,
    fields: Fields<'_, '_>,
    key: &str,
    out: &mut Vec<u8>,
) -> Result<(), TestFault> {
    let of_three = client_of(member(fields, key), 3);
    let of_two = client_of(member(fields, key), 2);
    let as_text = text(member(fields, key)).unwrap_or("?");
    let as_none = match text_or_none(member(fields, key)) {
        None => "?",
        Some(None) => "-",
        Some(Some(text)) => text,
    };
    let line = format!(in alloc; "{key} {as_text} {as_none} {of_three:?} {of_two:?} ")?;
    out.extend_from_slice(line.as_bytes())?;
    append_object(alloc, fields, key, out)?;
    Ok(append_words(&["\n"], out)?)
}

fn append_fields(alloc: Global, out: &mut Vec<u8>) -> Result<(), TestFault> {
    let mut room = ParseArena::new(alloc);
    let object = object_in(COMMAND, &mut room)?;
    for key in ["call", "client", "data", "state", "none"] {
        append_field(alloc, fields_of(&object), key, out)?;
    }
    Ok(())
}

// What becomes of a line that is read as a value.
fn append_value(alloc: Global, line: &[u8], out: &mut Vec<u8>) -> Result<(), TestFault> {
    let Ok(value) = Value::from_slice(alloc, line) else {
        return Err(TestFault("no JSON"));
    };
    let message = message_of(alloc, &value, 4);
    drop(value);
    append_read(alloc, message, out)
}

const OFFERED: &[u8] = b"call send send Err(BadClient) Err(BadClient) ?
client ? ? Ok(2) Err(BadClient) ?
data ? ? Err(BadClient) Err(BadClient) 1
state ? - Ok(0) Ok(0) -
none ? - Ok(0) Ok(0) -
`header` has no text `msg_type`
";

#[test]
fn the_parts_of_reading_can_be_called(rt: HostRuntime) -> Result<(), Fail> {
    let alloc = rt.alloc();
    let mut text = Vec::new(alloc);
    append_fields(alloc, &mut text)?;
    append_value(alloc, COMMAND, &mut text)?;
    Ok(expect_text(&rt, "the readers of fields and of values", &text, OFFERED)?)
}
