//! How often a target is called, and in which order; what targets of the stock are answered, and how many comms may
//! be open.
use super::core_scenes::{CoreScene, play_scenes};
use comm_core::Limits;
use std::test::Fail;
use test_harness::{Case, TestFault, holds};

const CALLED: CoreScene = CoreScene {
    stocks: &["scripted"],
    comms: 3,
    case: Case {
        name: "a target is called once for each thing, and only for what is its own",
        lines: r#"register t
open a t - {"code":7}
open a t - {"n":1}
msg a {"n":1}
open a t - {"n":1}
msg q {"n":1}
launch 67e55044-10b1-426f-9247-bb680e5fe0c8 t
push a
send a {"n":1}
open deaf t - {"n":1}
msg deaf {"code":8}
open b t - {"n":1}
log
tell msg b {"n":1}
log
open c t - {"n":1}
close b
hang_up deaf
close b
open x t - {"n":1}
log
withdraw open z t - {"n":1}
withdraw msg a {"n":1}
withdraw close a
withdraw unregister t
log
open b t - {"n":1}
unregister t
unregister t
"#,
        want: r#"reply 1 registered
reply 2 refused other 7
out {"buffers":[],"call":2,"client":0,"content":{"comm_id":"a","data":{}},"header":{"msg_type":"comm_close"},"metadata":{}}
reply 3 opened
reply 4 delivered
reply 5 id_in_use
reply 6 no_comm
reply 7 not_widget
reply 8 not_widget
reply 9 delivered
out {"buffers":[],"call":9,"client":0,"content":{"comm_id":"a","data":{"n":1}},"header":{"msg_type":"comm_msg"},"metadata":{}}
reply 10 opened
reply 11 fault other 8
reply 12 opened
log open:a open:a commit message:a commit open:deaf commit message:deaf open:b commit
entry 2 9 msg b {"n":1}
reply 9 delivered
row same
log message:b commit
reply 14 refused too_many_comms
out {"buffers":[],"call":14,"client":0,"content":{"comm_id":"c","data":{}},"header":{"msg_type":"comm_close"},"metadata":{}}
reply 15 closed
reply 16 closed
out {"buffers":[],"call":16,"client":0,"content":{"comm_id":"deaf","data":{}},"header":{"msg_type":"comm_close"},"metadata":{}}
reply 17 no_comm
reply 18 opened
log close:b close:deaf open:x commit
withdrawn
withdrawn
withdrawn
withdrawn
log open:z abandon message:a abandon
reply 19 opened
reply 20 unregistered ["a","x","b"]
out {"buffers":[],"call":20,"client":0,"content":{"comm_id":"a","data":{}},"header":{"msg_type":"comm_close"},"metadata":{}}
out {"buffers":[],"call":20,"client":0,"content":{"comm_id":"x","data":{}},"header":{"msg_type":"comm_close"},"metadata":{}}
out {"buffers":[],"call":20,"client":0,"content":{"comm_id":"b","data":{}},"header":{"msg_type":"comm_close"},"metadata":{}}
reply 21 no_target
stopped 0
log open:b commit close:a close:x close:b stop
"#,
    },
};

const STOPPED: CoreScene = CoreScene {
    stocks: &["scripted"],
    comms: 3,
    case: Case {
        name: "a target hears of each close before it stops with its manager",
        lines: r#"register t
open b t - {"n":1}
open c t - {"n":1}
open a t - {"n":1}
"#,
        want: r#"reply 1 registered
reply 2 opened
reply 3 opened
reply 4 opened
stopped 1
log open:b commit open:c commit open:a commit close:b close:c close:a stop
"#,
    },
};

const REPLACED: CoreScene = CoreScene {
    stocks: &["scripted"],
    comms: 3,
    case: Case {
        name: "a target that is replaced hears of each close before it stops, and not where that is taken back",
        lines: r#"register t
open b t - {"n":1}
open c t - {"n":1}
open a t - {"n":1}
withdraw register t
msg a {"n":1}
register t
log
msg a {"n":1}
open a t - {"n":1}
msg a {"n":1}
"#,
        want: r#"reply 1 registered
reply 2 opened
reply 3 opened
reply 4 opened
withdrawn
reply 5 delivered
reply 6 replaced ["b","c","a"]
out {"buffers":[],"call":6,"client":0,"content":{"comm_id":"b","data":{}},"header":{"msg_type":"comm_close"},"metadata":{}}
out {"buffers":[],"call":6,"client":0,"content":{"comm_id":"c","data":{}},"header":{"msg_type":"comm_close"},"metadata":{}}
out {"buffers":[],"call":6,"client":0,"content":{"comm_id":"a","data":{}},"header":{"msg_type":"comm_close"},"metadata":{}}
log open:b commit open:c commit open:a commit message:a commit close:b close:c close:a stop
reply 7 no_comm
reply 8 opened
reply 9 delivered
stopped 1
log next.open:a next.commit next.message:a next.commit next.close:a next.stop
"#,
    },
};

const COUNTED: CoreScene = CoreScene {
    stocks: &["counter"],
    comms: 4096,
    case: Case {
        name: "a counter counts the messages of all its comms, and isn't a widget",
        lines: r#"register n
open b n -
open a n -
msg a {"n":1}
msg b {"n":1}
state a
infos
infos_of n
infos_of 
listing
listing
listing_of n
listing_of 
push a
launch 67e55044-10b1-426f-9247-bb680e5fe0c8 nowhere
launch 67e55044-10b1-426f-9247-bb680e5fe0c8 n
send a {"n":1}
hang_up a
hang_up a
listing
"#,
        want: r#"reply 1 registered
reply 2 opened
reply 3 opened
reply 4 delivered
out {"buffers":[],"call":4,"client":0,"content":{"comm_id":"a","data":{"count":1}},"header":{"msg_type":"comm_msg"},"metadata":{}}
reply 5 delivered
out {"buffers":[],"call":5,"client":0,"content":{"comm_id":"b","data":{"count":2}},"header":{"msg_type":"comm_msg"},"metadata":{}}
state 5 no_state
out {"buffers":[],"client":2,"content":{"comms":{"a":{"target_name":"n"},"b":{"target_name":"n"}},"status":"ok"},"front":5,"header":{"msg_type":"comm_info_reply"},"metadata":{}}
out {"buffers":[],"client":2,"content":{"comms":{"a":{"target_name":"n"},"b":{"target_name":"n"}},"status":"ok"},"front":5,"header":{"msg_type":"comm_info_reply"},"metadata":{}}
out {"buffers":[],"client":2,"content":{"comms":{},"status":"ok"},"front":5,"header":{"msg_type":"comm_info_reply"},"metadata":{}}
out {"buffers":[],"client":2,"content":{"comms":{"a":{"target_name":"n"},"b":{"target_name":"n"}},"status":"ok"},"front":5,"header":{"msg_type":"comm_info_reply"},"metadata":{}}
out {"buffers":[],"client":2,"content":{"comms":{"a":{"target_name":"n"},"b":{"target_name":"n"}},"status":"ok"},"front":5,"header":{"msg_type":"comm_info_reply"},"metadata":{}}
out {"buffers":[],"client":2,"content":{"comms":{"a":{"target_name":"n"},"b":{"target_name":"n"}},"status":"ok"},"front":5,"header":{"msg_type":"comm_info_reply"},"metadata":{}}
out {"buffers":[],"client":2,"content":{"comms":{},"status":"ok"},"front":5,"header":{"msg_type":"comm_info_reply"},"metadata":{}}
reply 6 not_widget
reply 7 no_target
reply 8 not_widget
reply 9 delivered
out {"buffers":[],"call":9,"client":0,"content":{"comm_id":"a","data":{"n":1}},"header":{"msg_type":"comm_msg"},"metadata":{}}
reply 10 closed
out {"buffers":[],"call":10,"client":0,"content":{"comm_id":"a","data":{}},"header":{"msg_type":"comm_close"},"metadata":{}}
reply 11 no_comm
out {"buffers":[],"client":2,"content":{"comms":{"b":{"target_name":"n"}},"status":"ok"},"front":11,"header":{"msg_type":"comm_info_reply"},"metadata":{}}
stopped 1
log
"#,
    },
};

const ECHOED: CoreScene = CoreScene {
    stocks: &["echo"],
    comms: 4096,
    case: Case {
        name: "a message comes back, an id in use is refused without a close, and an unknown target with one",
        lines: r#"infos
register t
register t
open a t -
open a nowhere -
open b nowhere -
msg a {"n":1}
msg q {"n":1}
close a
close a
"#,
        want: r#"out {"buffers":[],"client":2,"content":{"comms":{},"status":"ok"},"front":0,"header":{"msg_type":"comm_info_reply"},"metadata":{}}
reply 1 registered
reply 2 replaced []
reply 3 opened
reply 4 id_in_use
reply 5 refused no_target
out {"buffers":[],"call":5,"client":0,"content":{"comm_id":"b","data":{}},"header":{"msg_type":"comm_close"},"metadata":{}}
reply 6 delivered
out {"buffers":[],"call":6,"client":0,"content":{"comm_id":"a","data":{"n":1}},"header":{"msg_type":"comm_msg"},"metadata":{}}
reply 7 no_comm
reply 8 closed
reply 9 no_comm
stopped 1
log
"#,
    },
};

const LIMITED: CoreScene = CoreScene {
    stocks: &["echo"],
    comms: 1,
    case: Case {
        name: "as many comms are open as the limit allows, and there is room again after a close",
        lines: r#"register t
open a t -
open b t -
close a
open b t -
"#,
        want: r#"reply 1 registered
reply 2 opened
reply 3 refused too_many_comms
out {"buffers":[],"call":3,"client":0,"content":{"comm_id":"b","data":{}},"header":{"msg_type":"comm_close"},"metadata":{}}
reply 4 closed
reply 5 opened
stopped 1
log
"#,
    },
};

#[test]
fn calls_over_a_manager_are_answered(rt: HostRuntime) -> Result<(), Fail> {
    play_scenes(&rt, &[CALLED, STOPPED, REPLACED, COUNTED, ECHOED, LIMITED])
}

const LARGEST_LIMITS: Limits = Limits {
    clients: 4,
    comms: 4_096,
    history: 4_294_967_295,
    outbox: 65_536,
};

const TOO_LARGE: [Limits; 5] = [
    Limits {
        clients: 5,
        ..LARGEST_LIMITS
    },
    Limits {
        clients: 0,
        ..LARGEST_LIMITS
    },
    Limits {
        comms: 4_097,
        ..LARGEST_LIMITS
    },
    Limits {
        history: 0,
        ..LARGEST_LIMITS
    },
    Limits {
        outbox: 65_537,
        ..LARGEST_LIMITS
    },
];

#[test]
fn limits_have_bounds() -> Result<(), TestFault> {
    holds(
        LARGEST_LIMITS.are_allowed(),
        "the greatest limits are refused",
    )?;
    for limits in &TOO_LARGE {
        holds(
            !limits.are_allowed(),
            "a limit out of its bounds is allowed",
        )?;
    }
    Ok(())
}
