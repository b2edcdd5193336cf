//! Readers, writers and heaps that fail at each of their calls in turn.
use super::harness::{ScriptResult, ScriptRun, run_script};
use comm_script::RunFault;
use std::alloc::{AllocError, Global};
use std::io::{Eprint, ErrorKind};
use std::sync::Wait;
use std::test::Fail;
use test_harness::{BOTH_MANAGERS, ManagerKind, TestFault, expect_text, holds};
use test_support::{WriteFault, has_leaked, mark};

/// What fails at a call.
#[derive(Clone, Copy, Debug, PartialEq, Eq)]
pub enum InjectedFault {
    Reader(ErrorKind),
    Writer(WriteFault),
    /// The arena for lines asks again for less where it is refused a chunk, so a refusal needn't end the script.
    Heap,
}

/// A script in which a fault comes at each call, and what it gives without one.
#[derive(Clone, Copy)]
pub struct FaultPlan {
    pub fault: InjectedFault,
    pub script: &'static [u8],
    pub answers: &'static [u8],
    /// How many bytes a call reads, and writes, at most.
    pub read: usize,
    pub write: usize,
    /// Whether the target of the stock counts how often it is ended.
    pub is_counted: bool,
}

const SCRIPT: &[u8] = br#"{"call":"register","kind":"echo","name":"t"}
{"header":{"msg_type":"comm_open"},"content":{"comm_id":"a","target_name":"t","data":{}}}
{"header":{"msg_type":"comm_msg"},"content":{"comm_id":"a","data":{"n":1}}}
{"#;

const ANSWERS: &[u8] = br#"reply 1 registered
reply 2 opened
reply 3 delivered
out {"buffers":[],"call":3,"client":0,"content":{"comm_id":"a","data":{"n":1}},"header":{"msg_type":"comm_msg"},"metadata":{}}
bad 4 not_json
"#;

/// What a script meets that has everything in it.
const LONG: &[u8] = br#"{"call":"register","kind":"widget","name":"jupyter.widget"}
{"header":{"msg_type":"comm_open"},"content":{"comm_id":"a","target_name":"jupyter.widget","data":{"state":{"l":[1],"n":null},"buffer_paths":[["x"]]}},"metadata":{"version":"2"},"buffers":["AQI="]}
{"call":"send","id":"a","data":{"n":1}}
{"call":"state","id":"a"}
{"header":{"msg_type":"comm_info_request"}}
{"call":"register","kind":"widget_echo","name":"jupyter.widget"}
{"header":{"msg_type":"comm_open"},"content":{"comm_id":"b","target_name":"jupyter.widget","data":{"state":{"k":1}}},"metadata":{"version":"2"}}
{"header":{"msg_type":"comm_msg"},"content":{"comm_id":"b","data":{"method":"update","state":{"k":[2]},"buffer_paths":[["x"]]}},"buffers":["AQI="]}
{"call":"unregister","name":"jupyter.widget"}
{"#;

const LONG_ANSWERS: &[u8] = br#"reply 1 registered
reply 2 opened
reply 3 delivered
out {"buffers":[],"call":3,"client":0,"content":{"comm_id":"a","data":{"n":1}},"header":{"msg_type":"comm_msg"},"metadata":{}}
state 3 {"buffer_paths":[["x"]],"buffers":["AQI="],"state":{"l":[1],"n":null}}
out {"buffers":[],"client":0,"content":{"comms":{"a":{"target_name":"jupyter.widget"}},"status":"ok"},"front":3,"header":{"msg_type":"comm_info_reply"},"metadata":{}}
reply 4 replaced ["a"]
out {"buffers":[],"call":4,"client":0,"content":{"comm_id":"a","data":{}},"header":{"msg_type":"comm_close"},"metadata":{}}
reply 5 opened
reply 6 delivered
out {"buffers":["AQI="],"call":6,"client":0,"content":{"comm_id":"b","data":{"buffer_paths":[["x"]],"method":"echo_update","state":{"k":[2]}}},"header":{"msg_type":"comm_msg"},"metadata":{}}
reply 7 unregistered ["b"]
out {"buffers":[],"call":7,"client":0,"content":{"comm_id":"b","data":{}},"header":{"msg_type":"comm_close"},"metadata":{}}
bad 10 not_json
"#;

// Whether a run may end so where the fault came.
fn may_end(fault: InjectedFault, ended: Result<(), RunFault>) -> bool {
    match fault {
        InjectedFault::Reader(ErrorKind::Interrupted) => ended == Ok(()),
        InjectedFault::Reader(_) => ended == Err(RunFault::Read),
        InjectedFault::Writer(WriteFault::Fail(ErrorKind::Other)) => ended == Err(RunFault::Write),
        // At a flush, one that takes nothing took all before.
        InjectedFault::Writer(_) => ended == Ok(()) || ended == Err(RunFault::Write),
        InjectedFault::Heap => ended == Ok(()) || ended == Err(RunFault::Memory),
    }
}

// Whether it wasn't called so often.
fn is_over(fault: InjectedFault, call: u64, came: &ScriptResult) -> bool {
    match fault {
        InjectedFault::Reader(_) => came.reads < call,
        InjectedFault::Writer(_) => came.writes < call,
        InjectedFault::Heap => !came.is_refused,
    }
}

// The target is ended once, if it was registered: where something was written, and where its line was read.
fn is_ended(faults: &FaultPlan, call: u64, came: &ScriptResult) -> bool {
    let before = call.saturating_sub(1).saturating_mul(faults.read as u64);
    let first = faults.script.iter().position(|byte| *byte == b'\n');
    let is_read = first.is_some_and(|at| before > at as u64);
    match faults.fault {
        InjectedFault::Heap if came.result != Ok(()) && came.text.is_empty() => came.ended <= 1,
        InjectedFault::Reader(_) if came.result != Ok(()) => came.ended == u64::from(is_read),
        _ => came.ended == 1,
    }
}

/// What was written is a beginning of what the script gives, and all of it where the run ended well.
fn check_result<R: Eprint>(
    rt: &R,
    name: &str,
    faults: &FaultPlan,
    call: u64,
    came: &ScriptResult,
) -> Result<(), TestFault> {
    let count = if came.result == Ok(()) {
        faults.answers.len()
    } else {
        came.text.len()
    };
    expect_text(
        rt,
        name,
        &came.text,
        faults.answers.get(..count).unwrap_or(faults.answers),
    )?;
    if is_over(faults.fault, call, came) {
        holds(came.result == Ok(()), "it failed without a fault")?;
    } else {
        holds(may_end(faults.fault, came.result), "it ended otherwise")?;
    }
    let is_last = came.result != Err(RunFault::Write) || came.writes == call;
    holds(is_last, "it is written on")?;
    holds(
        !faults.is_counted || is_ended(faults, call, came),
        "the target isn't ended once",
    )
}

fn script_of<'a>(faults: &'a FaultPlan, over: ManagerKind, call: u64) -> ScriptRun<'a> {
    let script = ScriptRun {
        read: faults.read,
        write: faults.write,
        is_counted: faults.is_counted,
        ..ScriptRun::over(over, faults.script)
    };
    match faults.fault {
        InjectedFault::Reader(kind) => ScriptRun {
            read_fails: call,
            kind,
            ..script
        },
        InjectedFault::Writer(fault) => ScriptRun {
            write_fails: call,
            write_fault: fault,
            ..script
        },
        InjectedFault::Heap => ScriptRun {
            refused: u32::try_from(call).unwrap_or(0),
            ..script
        },
    }
}

fn name_of(
    alloc: Global,
    faults: &FaultPlan,
    over: ManagerKind,
    call: u64,
) -> Result<String, AllocError> {
    let FaultPlan {
        fault,
        read,
        write,
        ..
    } = faults;
    format!(in alloc; "{fault:?} at {call}, {over:?}, by {read} and {write}")
}

/// The fault comes at this call. Tells whether it wasn't called so often.
fn fault_at<R: Eprint + Wait>(
    rt: &R,
    alloc: Global,
    faults: &FaultPlan,
    over: ManagerKind,
    call: u64,
) -> Result<bool, TestFault> {
    let came = run_script(rt, alloc, &script_of(faults, over, call))?;
    let name = name_of(alloc, faults, over, call)?;
    check_result(rt, name.as_str(), faults, call, &came)?;
    Ok(is_over(faults.fault, call, &came))
}

fn each_call<R: Eprint + Wait>(
    rt: &R,
    alloc: Global,
    faults: &FaultPlan,
    over: ManagerKind,
) -> Result<(), TestFault> {
    for call in 1..100_000u64 {
        mark(alloc);
        let done = fault_at(rt, alloc, faults, over, call);
        let has_leaked = has_leaked(alloc);
        if done.is_err() || has_leaked {
            let name = name_of(alloc, faults, over, call)?;
            let _is_printed = eprintln!(rt; "{name}: leaks {has_leaked}");
        }
        holds(!has_leaked, "more blocks are held behind a run than before")?;
        if done? {
            return Ok(());
        }
    }
    Err(TestFault("it never answered"))
}

/// The fault comes at the first call, then at the second, and so on until there is none, and nothing leaks.
pub fn each_fault<R: Eprint + Wait>(
    rt: &R,
    alloc: Global,
    faults: &FaultPlan,
) -> Result<(), TestFault> {
    for over in BOTH_MANAGERS {
        each_call(rt, alloc, faults, over)?;
    }
    Ok(())
}

/// The fault at each call of a short script, with a target that isn't counted.
pub const fn plan_of(fault: InjectedFault, read: usize, write: usize) -> FaultPlan {
    FaultPlan {
        fault,
        script: SCRIPT,
        answers: ANSWERS,
        read,
        write,
        is_counted: false,
    }
}

fn each_reader<R: Eprint + Wait>(rt: &R, alloc: Global, kind: ErrorKind) -> Result<(), TestFault> {
    for read in [1, 7, 4096] {
        each_fault(rt, alloc, &plan_of(InjectedFault::Reader(kind), read, 4096))?;
    }
    Ok(())
}

#[test]
fn a_reader_that_fails_gives_read(rt: HostRuntime) -> Result<(), Fail> {
    for kind in [
        ErrorKind::Other,
        ErrorKind::WouldBlock,
        ErrorKind::UnexpectedEof,
    ] {
        each_reader(&rt, rt.alloc(), kind)?;
    }
    Ok(())
}

#[test]
fn an_interrupted_reader_is_asked_again(rt: HostRuntime) -> Result<(), Fail> {
    Ok(each_reader(&rt, rt.alloc(), ErrorKind::Interrupted)?)
}

fn each_writer<R: Eprint + Wait>(
    rt: &R,
    alloc: Global,
    fault: WriteFault,
) -> Result<(), TestFault> {
    for write in [1, 7, 4096] {
        each_fault(rt, alloc, &plan_of(InjectedFault::Writer(fault), 64, write))?;
    }
    Ok(())
}

#[test]
fn a_writer_that_fails_gives_write(rt: HostRuntime) -> Result<(), Fail> {
    Ok(each_writer(&rt, rt.alloc(), WriteFault::Fail(ErrorKind::Other))?)
}

#[test]
fn a_writer_that_takes_nothing_gives_write(rt: HostRuntime) -> Result<(), Fail> {
    Ok(each_writer(&rt, rt.alloc(), WriteFault::TakeNothing)?)
}

#[test]
fn an_interrupted_writer_is_asked_again(rt: HostRuntime) -> Result<(), Fail> {
    Ok(each_writer(&rt, rt.alloc(), WriteFault::Fail(ErrorKind::Interrupted))?)
}

fn each_refusal<R: Eprint + Wait>(
    rt: &R,
    alloc: Global,
    over: ManagerKind,
) -> Result<(), TestFault> {
    let refusals = FaultPlan {
        script: LONG,
        answers: LONG_ANSWERS,
        ..plan_of(InjectedFault::Heap, 64, 4096)
    };
    each_call(rt, alloc, &refusals, over)
}

#[test]
fn refused_allocations_end_a_run(rt: HostRuntime) -> Result<(), Fail> {
    Ok(each_refusal(&rt, rt.alloc(), ManagerKind::OneThread)?)
}

#[test]
fn refused_allocations_end_a_shared_run(rt: HostRuntime) -> Result<(), Fail> {
    Ok(each_refusal(&rt, rt.alloc(), ManagerKind::Shared)?)
}
