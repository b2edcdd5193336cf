//! What the shared manager alone says.
use super::harness::{ScriptRun, expect_answers, program_limits};
use super::{MAX_COMMS, ScriptCase};
use comm_core::Limits;
use comm_script::RunFault;
use std::alloc::Global;
use std::io::Eprint;
use std::sync::Wait;
use std::test::Fail;
use test_harness::{ManagerKind, TestFault, holds};

/// A history of two changes.
const FULL: [ScriptCase; 2] = [
    ScriptCase {
        name: "the history is full at the third change, and reads go on",
        comms: MAX_COMMS,
        script: br#"{"header":{"msg_type":"comm_close"},"content":{"comm_id":"q"}}
{"header":{"msg_type":"comm_close"},"content":{"comm_id":"q"}}
{"header":{"msg_type":"comm_close"},"content":{"comm_id":"q"}}
{"header":{"msg_type":"comm_info_request"}}
"#,
        answers: br#"reply 1 no_comm
reply 2 no_comm
unavailable 3 history_full
out {"buffers":[],"client":0,"content":{"comms":{},"status":"ok"},"front":2,"header":{"msg_type":"comm_info_reply"},"metadata":{}}
"#,
    },
    // Two counters are in stock, and one takes the echo's name. Were the other lost where it isn't registered, the
    // second of the lines that then ask for one would find none.
    ScriptCase {
        name: "a target comes back where it isn't registered",
        comms: MAX_COMMS,
        script: br#"{"call":"register","kind":"echo","name":"t"}
{"call":"register","kind":"counter","name":"t"}
{"call":"register","kind":"counter","name":"t"}
{"call":"register","kind":"counter","name":"v"}
{"call":"register","kind":"counter","name":"v"}
"#,
        answers: br#"reply 1 registered
reply 2 replaced []
unavailable 3 history_full
unavailable 4 history_full
unavailable 5 history_full
"#,
    },
];

/// One place for what goes out.
const ONE_PLACE: [ScriptCase; 1] = [ScriptCase {
    name: "one place is enough for all clients, since it is emptied after each line",
    comms: MAX_COMMS,
    script: br#"{"call":"register","kind":"echo","name":"t"}
{"client":1,"header":{"msg_type":"comm_open"},"content":{"comm_id":"a","target_name":"t","data":{}}}
{"client":2,"header":{"msg_type":"comm_info_request"}}
{"client":3,"header":{"msg_type":"comm_close"},"content":{"comm_id":"a"}}
{"client":1,"header":{"msg_type":"comm_info_request"}}
"#,
    answers: br#"reply 1 registered
reply 2 opened
out {"buffers":[],"client":2,"content":{"comms":{"a":{"target_name":"t"}},"status":"ok"},"front":2,"header":{"msg_type":"comm_info_reply"},"metadata":{}}
reply 3 closed
out {"buffers":[],"client":1,"content":{"comms":{},"status":"ok"},"front":3,"header":{"msg_type":"comm_info_reply"},"metadata":{}}
"#,
}];

fn play_within_limits<R: Eprint + Wait>(
    rt: &R,
    alloc: Global,
    cases: &[ScriptCase],
    limits: Limits,
) -> Result<(), TestFault> {
    for case in cases {
        for (read, write) in [(4096, 4096), (7, 3)] {
            let script = ScriptRun {
                limits,
                read,
                write,
                ..ScriptRun::over(ManagerKind::Shared, case.script)
            };
            expect_answers(rt, alloc, case.name, &script, Ok(()), case.answers)?;
        }
    }
    Ok(())
}

#[test]
fn a_full_history_is_said(rt: HostRuntime) -> Result<(), Fail> {
    let two = Limits {
        history: 2,
        ..program_limits(MAX_COMMS)
    };
    Ok(play_within_limits(&rt, rt.alloc(), &FULL, two)?)
}

#[test]
fn a_full_history_is_said_before_a_full_queue(rt: HostRuntime) -> Result<(), Fail> {
    let two = Limits {
        history: 2,
        outbox: 2,
        ..program_limits(MAX_COMMS)
    };
    Ok(play_within_limits(&rt, rt.alloc(), &FULL, two)?)
}

#[test]
fn one_place_to_wait_is_enough(rt: HostRuntime) -> Result<(), Fail> {
    let one = Limits {
        outbox: 1,
        ..program_limits(MAX_COMMS)
    };
    Ok(play_within_limits(&rt, rt.alloc(), &ONE_PLACE, one)?)
}

#[test]
fn shared_limits_that_fit_are_needed(rt: HostRuntime) -> Result<(), Fail> {
    let limits = Limits {
        outbox: 0,
        ..program_limits(MAX_COMMS)
    };
    let script = ScriptRun {
        limits,
        ..ScriptRun::over(ManagerKind::Shared, FULL[0].script)
    };
    let bad = Err(RunFault::BadLimits);
    let came = expect_answers(
        &rt,
        rt.alloc(),
        "no place for what goes out",
        &script,
        bad,
        b"",
    )?;
    Ok(holds(
        came.reads == 0 && came.writes == 0,
        "something was read or written",
    )?)
}
