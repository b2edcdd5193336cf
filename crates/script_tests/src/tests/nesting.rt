//! What nests as deep as a line may, in a thread with a stack of 256 KiB: read, kept, merged, told apart, written and
//! dropped.
use super::harness::{ROOM, ScriptRun, expect_answers};
use std::alloc::{AllocError, Global};
use std::io::Eprint;
use std::sync::Wait;
use std::test::Fail;
use std::thread::Builder;
use test_harness::{BOTH_MANAGERS, ManagerKind, TestFault};

const STACK: usize = 262_144;

/// A script and its answers, in which `<`, `>` and `@` stand for as many of what opens, closes and leads into a level.
struct NestedCase {
    name: &'static str,
    levels: u8,
    script: &'static [u8],
    answers: &'static [u8],
}

/// What opens a level, what closes it, and the step of a path into it.
struct NestingLevel {
    opens: &'static [u8],
    closes: &'static [u8],
    step: &'static [u8],
}

const LEVELS: [NestingLevel; 2] = [
    NestingLevel {
        opens: b"[",
        closes: b"]",
        step: b",0",
    },
    NestingLevel {
        opens: b"{\"k\":",
        closes: b"}",
        step: b",\"k\"",
    },
];

/// The line and the state are around the levels, and a list with a buffer is in them: 127 in all.
const COMMANDS: NestedCase = NestedCase {
    name: "commands",
    levels: 124,
    script: br#"{"call":"register","kind":"widget","name":"w"}
{"call":"launch","name":"w","uuid":"67e5504410b1426f9247bb680e5fe0c8","state":{"s":<[null]>},"buffer_paths":[["s"@,0]],"buffers":["AQI="]}
{"call":"push","id":"67e55044-10b1-426f-9247-bb680e5fe0c8","state":{"s":<[null]>,"t":1},"buffer_paths":[["s"@,0]],"buffers":["/w=="]}
{"call":"state","id":"67e55044-10b1-426f-9247-bb680e5fe0c8"}
{"call":"push","id":"67e55044-10b1-426f-9247-bb680e5fe0c8","state":{"s":<[[null]]>}}
{"call":"push","id":"67e55044-10b1-426f-9247-bb680e5fe0c8","state":{"s":<[7]>}}
{"call":"unregister","name":"w"}
"#,
    answers: br#"reply 1 registered
reply 2 launched
out {"buffers":["AQI="],"call":2,"client":0,"content":{"comm_id":"67e55044-10b1-426f-9247-bb680e5fe0c8","data":{"buffer_paths":[["s"@,0]],"state":{"s":<[null]>}},"target_name":"w"},"header":{"msg_type":"comm_open"},"metadata":{"version":"2.1.0"}}
reply 3 delivered
out {"buffers":["/w=="],"call":3,"client":0,"content":{"comm_id":"67e55044-10b1-426f-9247-bb680e5fe0c8","data":{"buffer_paths":[["s"@,0]],"method":"update","state":{"s":<[null]>,"t":1}}},"header":{"msg_type":"comm_msg"},"metadata":{}}
state 3 {"buffer_paths":[["s"@,0]],"buffers":["/w=="],"state":{"s":<[null]>,"t":1}}
bad 5 not_json
reply 4 delivered
out {"buffers":[],"call":4,"client":0,"content":{"comm_id":"67e55044-10b1-426f-9247-bb680e5fe0c8","data":{"buffer_paths":[],"method":"update","state":{"s":<[7]>}}},"header":{"msg_type":"comm_msg"},"metadata":{}}
reply 5 unregistered ["67e55044-10b1-426f-9247-bb680e5fe0c8"]
out {"buffers":[],"call":5,"client":0,"content":{"comm_id":"67e55044-10b1-426f-9247-bb680e5fe0c8","data":{}},"header":{"msg_type":"comm_close"},"metadata":{}}
"#,
};

/// The line, the content, the data and the state are around the levels, and a list is in them: 127 in all.
const MESSAGES: NestedCase = NestedCase {
    name: "messages",
    levels: 122,
    script: br#"{"call":"register","kind":"widget","name":"w"}
{"header":{"msg_type":"comm_open"},"content":{"comm_id":"a","target_name":"w","data":{"state":{"s":<[null]>},"buffer_paths":[["s"@,0]]}},"metadata":{"version":"2"},"buffers":["AQI="]}
{"header":{"msg_type":"comm_msg"},"content":{"comm_id":"a","data":{"method":"update","state":{"t":<[7]>,"u":<[]>}}}}
{"header":{"msg_type":"comm_msg"},"content":{"comm_id":"a","data":{"method":"request_state"}}}
{"header":{"msg_type":"comm_msg"},"content":{"comm_id":"a","data":{"method":"update","state":{"s":<[8]>}}}}
{"header":{"msg_type":"comm_msg"},"content":{"comm_id":"a","data":{"method":"custom","content":<[[9]]>}}}
{"header":{"msg_type":"comm_msg"},"content":{"comm_id":"a","data":{"method":"custom","content":<[[[]]]>}}}
{"call":"state","id":"a"}
{"header":{"msg_type":"comm_close"},"content":{"comm_id":"a","data":{"x":<[[1.5]]>}},"metadata":{"x":<[[{}]]>}}
"#,
    answers: br#"reply 1 registered
reply 2 opened
reply 3 delivered
reply 4 delivered
out {"buffers":["AQI="],"call":4,"client":0,"content":{"comm_id":"a","data":{"buffer_paths":[["s"@,0]],"method":"update","state":{"s":<[null]>,"t":<[7]>,"u":<[]>}}},"header":{"msg_type":"comm_msg"},"metadata":{}}
reply 5 delivered
reply 6 custom {"buffers":[],"content":<[[9]]>}
bad 7 not_json
state 6 {"buffer_paths":[],"buffers":[],"state":{"s":<[8]>,"t":<[7]>,"u":<[]>}}
reply 7 closed
"#,
};

/// Messages to a widget that echoes what the updates bring.
const ECHOED: NestedCase = NestedCase {
    name: "messages that are echoed",
    levels: 122,
    script: br#"{"call":"register","kind":"widget_echo","name":"w"}
{"header":{"msg_type":"comm_open"},"content":{"comm_id":"a","target_name":"w","data":{"state":{"k":1}}},"metadata":{"version":"2"}}
{"header":{"msg_type":"comm_msg"},"content":{"comm_id":"a","data":{"method":"update","state":{"s":<[null]>},"buffer_paths":[["s"@,0]]}},"buffers":["AQI="]}
{"header":{"msg_type":"comm_msg"},"content":{"comm_id":"a","data":{"method":"update","state":{"t":<[7]>,"u":<[]>}}}}
{"header":{"msg_type":"comm_msg"},"content":{"comm_id":"a","data":{"method":"update","state":{"t":<[[7]]>}}}}
{"header":{"msg_type":"comm_msg"},"content":{"comm_id":"a","data":{"method":"request_state"}}}
"#,
    answers: br#"reply 1 registered
reply 2 opened
reply 3 delivered
out {"buffers":["AQI="],"call":3,"client":0,"content":{"comm_id":"a","data":{"buffer_paths":[["s"@,0]],"method":"echo_update","state":{"s":<[null]>}}},"header":{"msg_type":"comm_msg"},"metadata":{}}
reply 4 delivered
out {"buffers":[],"call":4,"client":0,"content":{"comm_id":"a","data":{"buffer_paths":[],"method":"echo_update","state":{"t":<[7]>,"u":<[]>}}},"header":{"msg_type":"comm_msg"},"metadata":{}}
bad 5 not_json
reply 5 delivered
out {"buffers":["AQI="],"call":5,"client":0,"content":{"comm_id":"a","data":{"buffer_paths":[["s"@,0]],"method":"update","state":{"k":1,"s":<[null]>,"t":<[7]>,"u":<[]>}}},"header":{"msg_type":"comm_msg"},"metadata":{}}
"#,
};

const SCRIPTS: [NestedCase; 3] = [COMMANDS, MESSAGES, ECHOED];

fn push_levels(bytes: &mut Vec<u8>, part: &[u8], levels: u8) -> Result<(), AllocError> {
    for _ in 0..levels {
        bytes.extend_from_slice(part)?;
    }
    Ok(())
}

/// The text with its levels.
fn with_levels(
    alloc: Global,
    text: &[u8],
    level: &NestingLevel,
    levels: u8,
) -> Result<Vec<u8>, AllocError> {
    let mut bytes = Vec::new(alloc);
    for byte in text {
        match *byte {
            b'<' => push_levels(&mut bytes, level.opens, levels)?,
            b'>' => push_levels(&mut bytes, level.closes, levels)?,
            b'@' => push_levels(&mut bytes, level.step, levels)?,
            other => bytes.push(other)?,
        }
    }
    Ok(bytes)
}

/// Each is answered as it must be, in this thread.
fn all_are_answered<R: Eprint + Wait>(
    rt: &R,
    alloc: Global,
    over: ManagerKind,
) -> Result<(), TestFault> {
    for level in &LEVELS {
        for case in &SCRIPTS {
            let bytes = with_levels(alloc, case.script, level, case.levels)?;
            let answers = with_levels(alloc, case.answers, level, case.levels)?;
            let script = ScriptRun {
                room: answers.len().saturating_add(ROOM),
                ..ScriptRun::over(over, &bytes)
            };
            expect_answers(rt, alloc, case.name, &script, Ok(()), &answers)?;
        }
    }
    Ok(())
}

#[test]
fn the_deepest_needs_little_stack(rt: HostRuntime) -> Result<(), Fail> {
    let alloc = rt.alloc();
    for over in BOTH_MANAGERS {
        let thread = Builder::new()
            .stack_size(STACK)
            .spawn(&rt, move || all_are_answered(&rt, alloc, over))?;
        thread.join(&rt)?;
    }
    Ok(())
}
