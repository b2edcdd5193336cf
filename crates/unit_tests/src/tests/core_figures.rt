//! Many targets, and targets of many comms: what a call comes to at the figure at which something might stop.
use comm_targets::Echo;
use std::alloc::Global;
use std::test::Fail;
use test_harness::{
    CallLog, Case, CorePlayer, TestFault, TextBuilder, expect_text, play_over_core,
};

/// So many targets are registered, `t0`, `t1` and so on, and so many comms are opened towards `t0`, `c0`, `c1` and so
/// on, of which at most `limit` may be open. Then `end` ends all of them in one call, if it isn't empty; its reply is
/// the word `ended` with their ids. At last the case's lines are played, and what is wanted is what they come to.
#[derive(Clone, Copy)]
struct Figure {
    targets: u64,
    comms: u64,
    limit: usize,
    end: &'static str,
    ended: &'static str,
    case: Case,
}

const MANY_TARGETS: Figure = Figure {
    targets: 1_001,
    comms: 0,
    limit: 4_096,
    end: "",
    ended: "",
    case: Case {
        name: "each call is answered beside 1,001 targets",
        lines: r#"open a t1000 - {"n":1}
msg a {"n":1}
send a {"n":2}
push a
launch 67e55044-10b1-426f-9247-bb680e5fe0c8 t0
close a
open b t0 -
hang_up b
unregister t500
unregister t500
register t500
register t500
listing
"#,
        want: r#"reply 1002 opened
reply 1003 delivered
out {"buffers":[],"call":1003,"client":0,"content":{"comm_id":"a","data":{"n":1}},"header":{"msg_type":"comm_msg"},"metadata":{}}
reply 1004 delivered
out {"buffers":[],"call":1004,"client":0,"content":{"comm_id":"a","data":{"n":2}},"header":{"msg_type":"comm_msg"},"metadata":{}}
reply 1005 not_widget
reply 1006 not_widget
reply 1007 closed
reply 1008 opened
reply 1009 closed
out {"buffers":[],"call":1009,"client":0,"content":{"comm_id":"b","data":{}},"header":{"msg_type":"comm_close"},"metadata":{}}
reply 1010 unregistered []
reply 1011 no_target
reply 1012 registered
reply 1013 replaced []
out {"buffers":[],"client":2,"content":{"comms":{},"status":"ok"},"front":1013,"header":{"msg_type":"comm_info_reply"},"metadata":{}}
stopped 1001
log
"#,
    },
};

const UNREGISTERED: Figure = Figure {
    targets: 1,
    comms: 4_096,
    limit: 4_096,
    end: "unregister t0",
    ended: "unregistered",
    case: Case {
        name: "a target of 4,096 comms is unregistered",
        lines: r#"msg c4095
register t0
open c0 t0 -
listing
"#,
        want: r#"reply 4099 no_comm
reply 4100 registered
reply 4101 opened
out {"buffers":[],"client":2,"content":{"comms":{"c0":{"target_name":"t0"}},"status":"ok"},"front":4101,"header":{"msg_type":"comm_info_reply"},"metadata":{}}
stopped 1
log
"#,
    },
};

const REPLACED: Figure = Figure {
    targets: 1,
    comms: 4_096,
    limit: 4_096,
    end: "register t0",
    ended: "replaced",
    case: Case {
        name: "a target of 4,096 comms is replaced",
        lines: r#"msg c4095
open c0 t0 -
listing
"#,
        want: r#"reply 4099 no_comm
reply 4100 opened
out {"buffers":[],"client":2,"content":{"comms":{"c0":{"target_name":"t0"}},"status":"ok"},"front":4100,"header":{"msg_type":"comm_info_reply"},"metadata":{}}
stopped 1
log
"#,
    },
};

const FULL: Figure = Figure {
    targets: 1,
    comms: 4_097,
    limit: 4_097,
    end: "",
    ended: "",
    case: Case {
        name: "a manager of 4,097 comms is full with as many",
        lines: r#"open one_more t0 -
close c4096
open one_more t0 -
"#,
        want: r#"reply 4099 refused too_many_comms
out {"buffers":[],"call":4099,"client":0,"content":{"comm_id":"one_more","data":{}},"header":{"msg_type":"comm_close"},"metadata":{}}
reply 4100 closed
reply 4101 opened
stopped 1
log
"#,
    },
};

const LARGE: Figure = Figure {
    targets: 1,
    comms: 20_000,
    limit: 1_048_576,
    end: "unregister t0",
    ended: "unregistered",
    case: Case {
        name: "a target of 20,000 comms is unregistered, in a manager of 1,048,576",
        lines: r#"register t0
open c0 t0 -
listing
"#,
        want: r#"reply 20003 registered
reply 20004 opened
out {"buffers":[],"client":2,"content":{"comms":{"c0":{"target_name":"t0"}},"status":"ok"},"front":20004,"header":{"msg_type":"comm_info_reply"},"metadata":{}}
stopped 1
log
"#,
    },
};

// The lines of a figure, up to those of its case.
fn push_lines(figure: &Figure, lines: &mut TextBuilder) {
    for n in 0..figure.targets {
        lines.push("register t");
        lines.push_number(n);
        lines.push("\n");
    }
    for n in 0..figure.comms {
        lines.push("open c");
        lines.push_number(n);
        lines.push(" t0 -\n");
    }
    if !figure.end.is_empty() {
        lines.push(figure.end);
        lines.push("\n");
    }
}

// A list of the ids of the comms.
fn push_ids(comms: u64, want: &mut TextBuilder) {
    want.push("[");
    for n in 0..comms {
        want.push(if n == 0 { "\"c" } else { ",\"c" });
        want.push_number(n);
        want.push("\"");
    }
    want.push("]");
}

// A line `out` for each close that the call of this number sends.
fn push_closes(comms: u64, call: u64, want: &mut TextBuilder) {
    for n in 0..comms {
        want.push("out {\"buffers\":[],\"call\":");
        want.push_number(call);
        want.push(",\"client\":0,\"content\":{\"comm_id\":\"c");
        want.push_number(n);
        want.push("\",\"data\":{}},\"header\":{\"msg_type\":\"comm_close\"},\"metadata\":{}}\n");
    }
}

// What these lines come to.
fn push_wanted(figure: &Figure, want: &mut TextBuilder) {
    let mut number = 0_u64;
    for _ in 0..figure.targets {
        number = number.saturating_add(1);
        want.push_counted("reply", number);
        want.push(" registered\n");
    }
    for _ in 0..figure.comms {
        number = number.saturating_add(1);
        want.push_counted("reply", number);
        want.push(" opened\n");
    }
    if !figure.end.is_empty() {
        number = number.saturating_add(1);
        want.push_counted("reply", number);
        want.push(" ");
        want.push(figure.ended);
        want.push(" ");
        push_ids(figure.comms, want);
        want.push("\n");
        push_closes(figure.comms, number, want);
    }
}

fn play(alloc: Global, figure: &Figure, lines: &str) -> Result<Vec<u8>, TestFault> {
    let mut stock = Vec::new(alloc);
    for _ in 0..figure.targets.saturating_add(2) {
        stock.push(Echo::new(alloc))?;
    }
    let player = CorePlayer {
        stock,
        log: CallLog::new(alloc)?,
        answered: 0,
    };
    play_over_core(alloc, figure.limit, player, lines)
}

// Whether this text came, and not another or none.
fn is_expected_text(
    rt: &HostRuntime,
    name: &str,
    came: Result<Vec<u8>, TestFault>,
    want: &[u8],
) -> bool {
    match came {
        Ok(text) => expect_text(rt, name, &text, want).is_ok(),
        Err(TestFault(what)) => {
            let _is_printed = eprintln!(rt; "{name}: {what}");
            false
        }
    }
}

// Whether a figure comes to what is wanted; if not, that is printed.
fn is_as_wanted(rt: &HostRuntime, figure: &Figure) -> Result<bool, TestFault> {
    let alloc = rt.alloc();
    let mut lines = TextBuilder::new(alloc);
    push_lines(figure, &mut lines);
    lines.push(figure.case.lines);
    let lines = lines.finish()?;
    let mut want = TextBuilder::new(alloc);
    push_wanted(figure, &mut want);
    want.push(figure.case.want);
    let want = want.finish()?;
    match std::str::from_utf8(&lines) {
        Ok(lines) => Ok(is_expected_text(rt, figure.case.name, play(alloc, figure, lines), &want)),
        Err(_) => Err(TestFault("the lines are no text")),
    }
}

#[test]
fn calls_are_answered_at_each_figure(rt: HostRuntime) -> Result<(), Fail> {
    let mut all = true;
    for figure in &[MANY_TARGETS, UNREGISTERED, REPLACED, FULL, LARGE] {
        let is = is_as_wanted(&rt, figure)?;
        all = all && is;
    }
    if all {
        Ok(())
    } else {
        Err("a figure differs")?
    }
}
