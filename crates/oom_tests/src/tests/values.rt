//! Values of widget states, and messages, that are made with an allocation refused.
use crate::tests::core_steps::PARENT;
use crate::tests::trial::MEMORY;
use comm_messages::{
    Incoming, MessageFault, Outgoing, OutgoingBody, message_of, read_message_with, write_message,
};
use comm_value::{
    Buffers, Dict, Numbers, Path, Separated, Text, Val, ValueFault, merge, paths_of, paths_val,
    put_all, separate,
};
use serde_json::Value;
use std::alloc::Global;
use test_harness::{TestFault, TextBuilder, body_of, buffers_of};
use test_support::{refuse, was_refused};

/// What meets the refusal.
#[derive(Clone, Copy, Debug, PartialEq, Eq, Drop)]
pub enum MadeBy {
    /// A value of JSON, JSON of that, and a value again.
    Json,
    /// A copy, which shares all that it is made of.
    Copy,
    /// A dict that another is merged into.
    Merged,
    /// Paths of a list, and a list of those.
    Paths,
    /// A state that three buffers are put into, and taken out of again.
    Placed,
    /// The message of a line.
    Read,
    /// The message of a line in which any number is a value.
    ReadAny,
    /// The message of a line's JSON.
    Taken,
    /// The line of a message.
    Written,
}

/// What is made of a text, and of another, and what comes, as a text.
pub struct MakingCase {
    pub made: MadeBy,
    pub of: &'static str,
    pub other: &'static str,
    pub text: &'static str,
}

const NESTED_STATE: &str =
    r#"{"k":1,"l":[null,true,"text",-5,{"z":"y"}],"m":{"a":{"b":{}},"c":[[],["deep"]]},"n":18446744073709551615}"#;

const PATHS: &str = r#"[["k"],["l",0],["m","c",1,0]]"#;

const LINE: &str =
    r#"{"buffers":["AQI=","AwQF"],"content":{"comm_id":"a","data":{"k":[1,"\u00e9",{"l":null}]},"target_name":"t"},
"header":{"msg_type":"comm_open"},"metadata":{"version":"2.0.0"}}"#;

const OPENS: &str = "client 0 opens a of t, with a version, 1 key and 2 buffers";

pub const VALUES: [MakingCase; 2] = [
    MakingCase {
        made: MadeBy::Json,
        of: NESTED_STATE,
        other: "{}",
        text: NESTED_STATE,
    },
    MakingCase {
        made: MadeBy::Merged,
        of: NESTED_STATE,
        other: r#"{"a":[1],"k":2,"z":{"new":"key"}}"#,
        text: r#"{"a":[1],"k":2,"l":[null,true,"text",-5,{"z":"y"}],"m":{"a":{"b":{}},"c":[[],["deep"]]},"n":18446744073709551615,"z":{"new":"key"}}"#,
    },
];

pub const PLACES: [MakingCase; 2] = [
    MakingCase {
        made: MadeBy::Paths,
        of: PATHS,
        other: "{}",
        text: PATHS,
    },
    MakingCase {
        made: MadeBy::Placed,
        of: NESTED_STATE,
        other: PATHS,
        text: r#"{"l":[null,true,"text",-5,{"z":"y"}],"m":{"a":{"b":{}},"c":[[],[null]]},"n":18446744073709551615}[["k"],["l",0],["m","c",1,0]]3 buffers"#,
    },
];

pub const COPIES: [MakingCase; 1] = [MakingCase {
    made: MadeBy::Copy,
    of: NESTED_STATE,
    other: "{}",
    text: NESTED_STATE,
}];

pub const MESSAGES: [MakingCase; 4] = [
    MakingCase {
        made: MadeBy::Read,
        of: LINE,
        other: "{}",
        text: OPENS,
    },
    MakingCase {
        made: MadeBy::ReadAny,
        of: r#"{"buffers":["AQI=","AwQF"],"content":{"comm_id":"a","data":{"k":[1.50,-0,{"l":[1e2]}]},"target_name":"t"},
"header":{"msg_type":"comm_open"},"metadata":{"version":"2.0.0"}}"#,
        other: "{}",
        text: OPENS,
    },
    MakingCase {
        made: MadeBy::Taken,
        of: LINE,
        other: "{}",
        text: OPENS,
    },
    MakingCase {
        made: MadeBy::Written,
        of: r#"{"k":[1,"x"]}"#,
        other: r#"{"k":[1,"x"]} 0102"#,
        text: r#"{"buffers":["AQI="],"call":1,"client":0,"content":{"comm_id":"a","data":{"k":[1,"x"]}},"header":{"msg_type":"comm_msg"},"metadata":{}}"#,
    },
];

/// Whether it is right that this came. The arena for lines asks again for less where it is refused a chunk, so a
/// refusal needn't end the reading of a line.
pub(super) fn expected_text(case: &MakingCase, is_refused: bool, came: &[u8]) -> &'static str {
    let is_read = matches!(case.made, MadeBy::Read | MadeBy::ReadAny);
    let may_do_without = is_read && came == case.text.as_bytes();
    if is_refused && !may_do_without {
        MEMORY
    } else {
        case.text
    }
}

fn json_of(alloc: Global, text: &str) -> Result<Value, TestFault> {
    match Value::from_str(alloc, text) {
        Ok(json) => Ok(json),
        Err(_) => Err(TestFault("no JSON")),
    }
}

fn val_of(alloc: Global, text: &str) -> Result<Val, TestFault> {
    let json = json_of(alloc, text)?;
    let value = Val::from_json(alloc, &json);
    drop(json);
    Ok(value?)
}

fn through_json(alloc: Global, json: &Value) -> Result<Val, ValueFault> {
    let value = Val::from_json(alloc, json)?;
    if value.has_bytes() {
        return Ok(value);
    }
    let again = value.to_json(alloc);
    drop(value);
    let again = again?;
    let value = Val::from_json(alloc, &again);
    drop(again);
    value
}

fn through_paths(alloc: Global, list: &Val) -> Result<Val, ValueFault> {
    let paths = paths_of(alloc, Some(list))?;
    let list = paths_val(alloc, paths.as_slice());
    drop(paths);
    Ok(list?)
}

// The first dict with the second merged into it; of other values the first.
fn merge_values(alloc: Global, value: Val, other: Val) -> Result<Val, ValueFault> {
    match (value, other) {
        (Val::Dict(state), Val::Dict(update)) => Ok(Val::Dict(merge(alloc, state, update)?)),
        (value, _) => Ok(value),
    }
}

fn push_json(value: Val, text: &mut TextBuilder) {
    if value.has_bytes() {
        text.push("bytes");
    } else {
        let done = value.write_json(text.bytes_mut());
        text.note(done);
    }
}

// What came, or that there was no memory for it.
fn push_val(given: Result<Val, ValueFault>, text: &mut TextBuilder) {
    match given {
        Ok(value) => push_json(value, text),
        Err(ValueFault::Memory) => text.push(MEMORY),
        Err(_) => text.push("another fault"),
    }
}

fn make_of_json(
    alloc: Global,
    case: &MakingCase,
    number: u32,
    text: &mut TextBuilder,
) -> Result<bool, TestFault> {
    let json = json_of(alloc, case.of)?;
    let _is_heard = refuse(alloc, number);
    let given = through_json(alloc, &json);
    let is_refused = was_refused(alloc);
    drop(json);
    push_val(given, text);
    Ok(is_refused)
}

fn make_of_value(
    alloc: Global,
    case: &MakingCase,
    number: u32,
    text: &mut TextBuilder,
) -> Result<bool, TestFault> {
    let value = val_of(alloc, case.of)?;
    let _is_heard = refuse(alloc, number);
    let given = match case.made {
        MadeBy::Copy => value.copy().map_err(ValueFault::from),
        _ => through_paths(alloc, &value),
    };
    let is_refused = was_refused(alloc);
    drop(value);
    push_val(given, text);
    Ok(is_refused)
}

fn make_of_two(
    alloc: Global,
    case: &MakingCase,
    number: u32,
    text: &mut TextBuilder,
) -> Result<bool, TestFault> {
    let value = val_of(alloc, case.of)?;
    let other = val_of(alloc, case.other)?;
    let _is_heard = refuse(alloc, number);
    let given = merge_values(alloc, value, other);
    let is_refused = was_refused(alloc);
    push_val(given, text);
    Ok(is_refused)
}

fn through_places(
    alloc: Global,
    state: Dict,
    paths: &[Path],
    buffers: Buffers,
) -> Result<Separated, ValueFault> {
    let placed = put_all(alloc, state, paths, buffers)?;
    Ok(separate(alloc, &placed)?)
}

fn push_separated(alloc: Global, given: Result<Separated, ValueFault>, text: &mut TextBuilder) {
    match given {
        Ok(
            Separated {
                plain,
                paths,
                buffers,
            },
        ) => {
            push_json(Val::Dict(plain), text);
            push_val(
                paths_val(alloc, paths.as_slice()).map_err(ValueFault::from),
                text,
            );
            text.push_number(buffers.as_slice().len() as u64);
            text.push(" buffers");
        }
        Err(fault) => push_val(Err(fault), text),
    }
}

// A dict, and paths into it.
fn places_of(alloc: Global, case: &MakingCase) -> Result<(Dict, Vec<Path>), TestFault> {
    let Val::Dict(state) = val_of(alloc, case.of)? else {
        return Err(TestFault("no dict"));
    };
    let list = val_of(alloc, case.other)?;
    let paths = paths_of(alloc, Some(&list));
    drop(list);
    Ok((state, paths?))
}

fn make_of_places(
    alloc: Global,
    case: &MakingCase,
    number: u32,
    text: &mut TextBuilder,
) -> Result<bool, TestFault> {
    let buffers = buffers_of(alloc, "01 02 03")?;
    let (state, paths) = places_of(alloc, case)?;
    let _is_heard = refuse(alloc, number);
    let given = through_places(alloc, state, paths.as_slice(), buffers);
    let is_refused = was_refused(alloc);
    drop(paths);
    push_separated(alloc, given, text);
    Ok(is_refused)
}

// What a client's message is.
fn push_incoming(client: u8, message: &Incoming, text: &mut TextBuilder) {
    let Incoming::Open {
        id,
        target,
        version: Some(_),
        body,
    } = message
    else {
        return text.push("another message");
    };
    text.push_counted("client", client as u64);
    text.push(" opens ");
    text.push(id.as_str());
    text.push(" of ");
    text.push(target.as_str());
    text.push_counted(", with a version,", body.content().len() as u64);
    text.push_counted(" key and", body.buffers().as_slice().len() as u64);
    text.push(" buffers");
}

fn push_message(given: Result<(u8, Incoming), MessageFault>, text: &mut TextBuilder) {
    match given {
        Ok((client, message)) => {
            push_incoming(client, &message, text);
            drop(message);
        }
        Err(MessageFault::Memory) => text.push(MEMORY),
        Err(_) => text.push("another fault"),
    }
}

fn read_line(alloc: Global, case: &MakingCase, number: u32, text: &mut TextBuilder) -> bool {
    let numbers = if case.made == MadeBy::ReadAny {
        Numbers::Any
    } else {
        Numbers::Whole
    };
    let _is_heard = refuse(alloc, number);
    let given = read_message_with(alloc, case.of.as_bytes(), 2, numbers);
    let is_refused = was_refused(alloc);
    push_message(given, text);
    is_refused
}

fn take_message(
    alloc: Global,
    case: &MakingCase,
    number: u32,
    text: &mut TextBuilder,
) -> Result<bool, TestFault> {
    let json = json_of(alloc, case.of)?;
    let _is_heard = refuse(alloc, number);
    let given = message_of(alloc, &json, 2);
    let is_refused = was_refused(alloc);
    drop(json);
    push_message(given, text);
    Ok(is_refused)
}

fn write_line(
    alloc: Global,
    case: &MakingCase,
    number: u32,
    text: &mut TextBuilder,
) -> Result<bool, TestFault> {
    let id = Text::copy_of(alloc, "a")?;
    let body = OutgoingBody::new(body_of(alloc, case.other)?);
    let message = Outgoing::Msg { id, body };
    let _is_heard = refuse(alloc, number);
    let given = write_message(alloc, &message, &PARENT);
    let is_refused = was_refused(alloc);
    drop(message);
    match given {
        Ok(line) => text.push_bytes(&line),
        Err(_) => text.push(MEMORY),
    }
    Ok(is_refused)
}

/// Makes it with the allocation of this number refused. Gives whether one was.
pub(super) fn make_once(
    alloc: Global,
    case: &MakingCase,
    number: u32,
    text: &mut TextBuilder,
) -> Result<bool, TestFault> {
    match case.made {
        MadeBy::Json => make_of_json(alloc, case, number, text),
        MadeBy::Copy | MadeBy::Paths => make_of_value(alloc, case, number, text),
        MadeBy::Merged => make_of_two(alloc, case, number, text),
        MadeBy::Placed => make_of_places(alloc, case, number, text),
        MadeBy::Read | MadeBy::ReadAny => Ok(read_line(alloc, case, number, text)),
        MadeBy::Taken => take_message(alloc, case, number, text),
        MadeBy::Written => write_line(alloc, case, number, text),
    }
}
