//! Readers and writers that are called more than a million times, a path of 100,000 steps, and lines that need memory
//! that the next ones use again.
use super::MAX_COMMS;
use super::harness::{ScriptRun, expect_answers, program_limits};
use comm_core::Limits;
use std::alloc::{AllocError, Global};
use std::test::Fail;
use test_harness::{BOTH_MANAGERS, holds};

const MANY: usize = 1_100_000;

const BEFORE: &[u8] = br#"{"call":"register","kind":"echo","name":"t"}
{"header":{"msg_type":"comm_open"},"content":{"comm_id":"a","target_name":"t","data":{}}}
{"header":{"msg_type":"comm_msg"},"content":{"comm_id":"a","data":{"x":""#;

const BEHIND: &[u8] = br#""}}}
"#;

const ANSWERS_BEFORE: &[u8] = br#"reply 1 registered
reply 2 opened
reply 3 delivered
out {"buffers":[],"call":3,"client":0,"content":{"comm_id":"a","data":{"x":""#;

const ANSWERS_BEHIND: &[u8] = br#""}},"header":{"msg_type":"comm_msg"},"metadata":{}}
"#;

/// What is said to a line behind them that isn't JSON.
const NOT_JSON: &[u8] = b"bad 1100001 not_json\n";

// The part `count` times between these.
fn repeat_between(
    alloc: Global,
    before: &[u8],
    part: &[u8],
    count: usize,
    behind: &[u8],
) -> Result<Vec<u8>, AllocError> {
    let mut all = Vec::new(alloc);
    all.extend_from_slice(before)?;
    for _ in 0..count {
        all.extend_from_slice(part)?;
    }
    all.extend_from_slice(behind)?;
    Ok(all)
}

/// A line to a call, of which the last isn't JSON.
#[test]
fn a_reader_may_be_called_often(rt: HostRuntime) -> Result<(), Fail> {
    let alloc = rt.alloc();
    let bytes = repeat_between(alloc, b"", b"\n", MANY, b"{")?;
    for over in BOTH_MANAGERS {
        let script = ScriptRun {
            read: 1,
            ..ScriptRun::over(over, &bytes)
        };
        let came = expect_answers(&rt, alloc, "many reads", &script, Ok(()), NOT_JSON)?;
        holds(came.reads > MANY as u64, "it isn't read often")?;
    }
    Ok(())
}

/// A long answer of which each call takes a byte.
#[test]
fn a_writer_may_be_called_often(rt: HostRuntime) -> Result<(), Fail> {
    let alloc = rt.alloc();
    let bytes = repeat_between(alloc, BEFORE, b"x", MANY, BEHIND)?;
    let answers = repeat_between(alloc, ANSWERS_BEFORE, b"x", MANY, ANSWERS_BEHIND)?;
    for over in BOTH_MANAGERS {
        let script = ScriptRun {
            write: 1,
            room: answers.len(),
            ..ScriptRun::over(over, &bytes)
        };
        let came = expect_answers(&rt, alloc, "many writes", &script, Ok(()), &answers)?;
        holds(came.writes > MANY as u64, "it isn't written often")?;
    }
    Ok(())
}

const PATH_BEFORE: &[u8] = br#"{"call":"register","kind":"widget","name":"jupyter.widget"}
{"header":{"msg_type":"comm_open"},"content":{"comm_id":"a","target_name":"jupyter.widget","data":{"state":{"k":1}}},"metadata":{"version":"2.0.0"}}
{"header":{"msg_type":"comm_msg"},"content":{"comm_id":"a","data":{"method":"update","state":{"l":[null]},"buffer_paths":[["d""#;

const ECHOED_PATH_BEFORE: &[u8] =
    br#"{"call":"register","kind":"widget_echo","name":"jupyter.widget"}
{"header":{"msg_type":"comm_open"},"content":{"comm_id":"a","target_name":"jupyter.widget","data":{"state":{"k":1}}},"metadata":{"version":"2.0.0"}}
{"header":{"msg_type":"comm_msg"},"content":{"comm_id":"a","data":{"method":"update","state":{"l":[null]},"buffer_paths":[["d""#;

const PATH_BEHIND: &[u8] = br#"]]}},"buffers":["AQI="]}
{"call":"state","id":"a"}
"#;

const PATH_ANSWERS: &[u8] = br#"reply 1 registered
reply 2 opened
reply 3 fault bad_path 0
state 3 {"buffer_paths":[],"buffers":[],"state":{"k":1}}
"#;

/// A path of 100,000 steps leads nowhere, and nothing is told of the update.
#[test]
fn a_long_path_changes_nothing(rt: HostRuntime) -> Result<(), Fail> {
    let alloc = rt.alloc();
    for before in [PATH_BEFORE, ECHOED_PATH_BEFORE] {
        let bytes = repeat_between(alloc, before, b",\"d\"", 99_999, PATH_BEHIND)?;
        for over in BOTH_MANAGERS {
            let script = ScriptRun::over(over, &bytes);
            expect_answers(&rt, alloc, "a long path", &script, Ok(()), PATH_ANSWERS)?;
        }
    }
    Ok(())
}

const LINES: usize = 100_000;

/// A command that is read as a tree. Its answer is always the same.
const TREE: &[u8] =
    br#"{"call":"state","id":"a","more":[[[1,[]],{"k":[2,{}],"l":"x"}],{"m":[[[3]]]}]}
"#;

const NO_COMM: &[u8] = b"state 0 no_comm\n";

/// More than any allocation of such a script has.
const LARGEST: u32 = 256 * 1024;

/// The memory of a line's tree is used again by the next line: no allocation grows with the number of lines.
#[test]
fn spared_lines_with_trees(rt: HostRuntime) -> Result<(), Fail> {
    let alloc = rt.alloc();
    let bytes = repeat_between(alloc, b"", TREE, LINES, b"")?;
    let answers = repeat_between(alloc, b"", NO_COMM, LINES, b"")?;
    for over in BOTH_MANAGERS {
        let script = ScriptRun {
            largest: LARGEST,
            room: answers.len(),
            ..ScriptRun::over(over, &bytes)
        };
        let came = expect_answers(&rt, alloc, "lines with trees", &script, Ok(()), &answers)?;
        holds(!came.is_refused, "a large block is asked for")?;
    }
    Ok(())
}

const CHANGES: usize = 1_600_000;

const CHANGE: &[u8] = br#"{"call":"hang_up","id":"a"}
"#;

// What is said to so many changes.
fn replies(alloc: Global, count: usize) -> Result<Vec<u8>, AllocError> {
    let mut all = Vec::new(alloc);
    for index in 0..count {
        let number = index + 1;
        let line = format!(in alloc; "reply {number} no_comm\n")?;
        all.extend_from_slice(line.as_bytes())?;
    }
    Ok(all)
}

/// More changes than the program's history takes: each is answered.
#[test]
fn many_changes_are_answered(rt: HostRuntime) -> Result<(), Fail> {
    let alloc = rt.alloc();
    let bytes = repeat_between(alloc, b"", CHANGE, CHANGES, b"")?;
    let answers = replies(alloc, CHANGES)?;
    for over in BOTH_MANAGERS {
        let script = ScriptRun {
            limits: Limits {
                history: 2_000_000,
                ..program_limits(MAX_COMMS)
            },
            write: answers.len(),
            room: answers.len(),
            ..ScriptRun::over(over, &bytes)
        };
        expect_answers(&rt, alloc, "many changes", &script, Ok(()), &answers)?;
    }
    Ok(())
}
