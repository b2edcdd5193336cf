//! What a free target is asked with, and that what it gives goes on unaltered: its code, or its messages, its state
//! and its value for the caller.
use super::core_scenes::{CoreScene, play_scenes};
use std::test::Fail;
use test_harness::Case;

const CODES: CoreScene = CoreScene {
    stocks: &["scripted"],
    comms: 2,
    case: Case {
        name: "each code of a free target goes on, to an opening and to a message",
        lines: r#"register t
open a t 2.0.0 {} 0102
open b t 2.0.0 {"code":0} 0102
msg a {"code":0} 0102
open b t 2.0.0 {"code":1} 0102
msg a {"code":1} 0102
open b t 2.0.0 {"code":255} 0102
msg a {"code":255} 0102
open b t 2.0.0 {"code":256} 0102
msg a {"code":256} 0102
open b t 2.0.0 {"code":65535} 0102
msg a {"code":65535} 0102
open b t 2.0.0 {"code":65536} 0102
msg a {"code":65536} 0102
open b t 2.0.0 {"code":4294967295} 0102
msg a {"code":4294967295} 0102
"#,
        want: r#"reply 1 registered
reply 2 opened
reply 3 refused other 0
out {"buffers":[],"call":3,"client":0,"content":{"comm_id":"b","data":{}},"header":{"msg_type":"comm_close"},"metadata":{}}
reply 4 fault other 0
reply 5 refused other 1
out {"buffers":[],"call":5,"client":0,"content":{"comm_id":"b","data":{}},"header":{"msg_type":"comm_close"},"metadata":{}}
reply 6 fault other 1
reply 7 refused other 255
out {"buffers":[],"call":7,"client":0,"content":{"comm_id":"b","data":{}},"header":{"msg_type":"comm_close"},"metadata":{}}
reply 8 fault other 255
reply 9 refused other 256
out {"buffers":[],"call":9,"client":0,"content":{"comm_id":"b","data":{}},"header":{"msg_type":"comm_close"},"metadata":{}}
reply 10 fault other 256
reply 11 refused other 65535
out {"buffers":[],"call":11,"client":0,"content":{"comm_id":"b","data":{}},"header":{"msg_type":"comm_close"},"metadata":{}}
reply 12 fault other 65535
reply 13 refused other 65536
out {"buffers":[],"call":13,"client":0,"content":{"comm_id":"b","data":{}},"header":{"msg_type":"comm_close"},"metadata":{}}
reply 14 fault other 65536
reply 15 refused other 4294967295
out {"buffers":[],"call":15,"client":0,"content":{"comm_id":"b","data":{}},"header":{"msg_type":"comm_close"},"metadata":{}}
reply 16 fault other 4294967295
stopped 1
log open:a commit open:b message:a open:b message:a open:b message:a open:b message:a open:b message:a open:b message:a open:b message:a close:a stop
"#,
    },
};

const MESSAGES: CoreScene = CoreScene {
    stocks: &["scripted"],
    comms: 2,
    case: Case {
        name: "the messages, the state and the value that a free target answers a message with go on, and without a state the comm keeps its own",
        lines: r#"register t
open a t 2.0.0 {} 0102
msg a {} 0102
state a
msg a {"state":{"s":1}} 0102
state a
msg a {"first":{"m":1}} 0102
state a
msg a {"first":{"m":1},"state":{"s":2}} 0102
state a
msg a {"first":{"m":1},"second":{"m":2,"k":[]}} 0102
state a
msg a {"first":{"m":1},"second":{"m":2,"k":[]},"state":{"s":3}} 0102
state a
msg a {"custom":{"c":null}} 0102
state a
msg a {"state":{"s":4},"custom":{"c":null}} 0102
state a
msg a {"first":{"m":1},"custom":{"c":null}} 0102
state a
msg a {"first":{"m":1},"state":{"s":5},"custom":{"c":null}} 0102
state a
msg a {"first":{"m":1},"second":{"m":2,"k":[]},"custom":{"c":null}} 0102
state a
msg a {"first":{"m":1},"second":{"m":2,"k":[]},"state":{"s":6},"custom":{"c":null}} 0102
state a
"#,
        want: r#"reply 1 registered
reply 2 opened
reply 3 delivered
state 3 no_state
reply 4 delivered
state 4 {"buffer_paths":[],"buffers":[],"state":{"s":1}}
reply 5 delivered
out {"buffers":[],"call":5,"client":0,"content":{"comm_id":"a","data":{"m":1}},"header":{"msg_type":"comm_msg"},"metadata":{}}
state 5 {"buffer_paths":[],"buffers":[],"state":{"s":1}}
reply 6 delivered
out {"buffers":[],"call":6,"client":0,"content":{"comm_id":"a","data":{"m":1}},"header":{"msg_type":"comm_msg"},"metadata":{}}
state 6 {"buffer_paths":[],"buffers":[],"state":{"s":2}}
reply 7 delivered
out {"buffers":[],"call":7,"client":0,"content":{"comm_id":"a","data":{"m":1}},"header":{"msg_type":"comm_msg"},"metadata":{}}
out {"buffers":[],"call":7,"client":0,"content":{"comm_id":"a","data":{"k":[],"m":2}},"header":{"msg_type":"comm_msg"},"metadata":{}}
state 7 {"buffer_paths":[],"buffers":[],"state":{"s":2}}
reply 8 delivered
out {"buffers":[],"call":8,"client":0,"content":{"comm_id":"a","data":{"m":1}},"header":{"msg_type":"comm_msg"},"metadata":{}}
out {"buffers":[],"call":8,"client":0,"content":{"comm_id":"a","data":{"k":[],"m":2}},"header":{"msg_type":"comm_msg"},"metadata":{}}
state 8 {"buffer_paths":[],"buffers":[],"state":{"s":3}}
reply 9 custom {"buffers":["AQI="],"content":{"c":null}}
state 9 {"buffer_paths":[],"buffers":[],"state":{"s":3}}
reply 10 custom {"buffers":["AQI="],"content":{"c":null}}
state 10 {"buffer_paths":[],"buffers":[],"state":{"s":4}}
reply 11 custom {"buffers":["AQI="],"content":{"c":null}}
out {"buffers":[],"call":11,"client":0,"content":{"comm_id":"a","data":{"m":1}},"header":{"msg_type":"comm_msg"},"metadata":{}}
state 11 {"buffer_paths":[],"buffers":[],"state":{"s":4}}
reply 12 custom {"buffers":["AQI="],"content":{"c":null}}
out {"buffers":[],"call":12,"client":0,"content":{"comm_id":"a","data":{"m":1}},"header":{"msg_type":"comm_msg"},"metadata":{}}
state 12 {"buffer_paths":[],"buffers":[],"state":{"s":5}}
reply 13 custom {"buffers":["AQI="],"content":{"c":null}}
out {"buffers":[],"call":13,"client":0,"content":{"comm_id":"a","data":{"m":1}},"header":{"msg_type":"comm_msg"},"metadata":{}}
out {"buffers":[],"call":13,"client":0,"content":{"comm_id":"a","data":{"k":[],"m":2}},"header":{"msg_type":"comm_msg"},"metadata":{}}
state 13 {"buffer_paths":[],"buffers":[],"state":{"s":5}}
reply 14 custom {"buffers":["AQI="],"content":{"c":null}}
out {"buffers":[],"call":14,"client":0,"content":{"comm_id":"a","data":{"m":1}},"header":{"msg_type":"comm_msg"},"metadata":{}}
out {"buffers":[],"call":14,"client":0,"content":{"comm_id":"a","data":{"k":[],"m":2}},"header":{"msg_type":"comm_msg"},"metadata":{}}
state 14 {"buffer_paths":[],"buffers":[],"state":{"s":6}}
stopped 1
log open:a commit message:a commit message:a commit message:a commit message:a commit message:a commit message:a commit message:a commit message:a commit message:a commit message:a commit message:a commit message:a commit close:a stop
"#,
    },
};

const OPENINGS: CoreScene = CoreScene {
    stocks: &["scripted"],
    comms: 2,
    case: Case {
        name: "the messages and the state that a free target answers an opening with go on",
        lines: r#"register t
open a t 2.0.0 {} 0102
open b t 2.0.0 {} 0102
state b
close b
open b t 2.0.0 {"first":{"m":1}} 0102
state b
close b
open b t 2.0.0 {"first":{"m":1},"second":{"m":2,"k":[]}} 0102
state b
close b
open b t 2.0.0 {"state":{"s":9}} 0102
state b
close b
open b t 2.0.0 {"first":{"m":1},"state":{"s":9}} 0102
state b
close b
open b t 2.0.0 {"first":{"m":1},"second":{"m":2,"k":[]},"state":{"s":9}} 0102
state b
close b
"#,
        want: r#"reply 1 registered
reply 2 opened
reply 3 opened
state 3 no_state
reply 4 closed
reply 5 opened
out {"buffers":[],"call":5,"client":0,"content":{"comm_id":"b","data":{"m":1}},"header":{"msg_type":"comm_msg"},"metadata":{}}
state 5 no_state
reply 6 closed
reply 7 opened
out {"buffers":[],"call":7,"client":0,"content":{"comm_id":"b","data":{"m":1}},"header":{"msg_type":"comm_msg"},"metadata":{}}
out {"buffers":[],"call":7,"client":0,"content":{"comm_id":"b","data":{"k":[],"m":2}},"header":{"msg_type":"comm_msg"},"metadata":{}}
state 7 no_state
reply 8 closed
reply 9 opened
state 9 {"buffer_paths":[],"buffers":[],"state":{"s":9}}
reply 10 closed
reply 11 opened
out {"buffers":[],"call":11,"client":0,"content":{"comm_id":"b","data":{"m":1}},"header":{"msg_type":"comm_msg"},"metadata":{}}
state 11 {"buffer_paths":[],"buffers":[],"state":{"s":9}}
reply 12 closed
reply 13 opened
out {"buffers":[],"call":13,"client":0,"content":{"comm_id":"b","data":{"m":1}},"header":{"msg_type":"comm_msg"},"metadata":{}}
out {"buffers":[],"call":13,"client":0,"content":{"comm_id":"b","data":{"k":[],"m":2}},"header":{"msg_type":"comm_msg"},"metadata":{}}
state 13 {"buffer_paths":[],"buffers":[],"state":{"s":9}}
reply 14 closed
stopped 1
log open:a commit open:b commit close:b open:b commit close:b open:b commit close:b open:b commit close:b open:b commit close:b open:b commit close:b close:a stop
"#,
    },
};

const FREE: CoreScene = CoreScene {
    stocks: &["scripted"],
    comms: 4096,
    case: Case {
        name: "a free target refuses to open, hands a value over, and ends once after its comms",
        lines: r#"register t
open c t - {"code":7}
open b t - {"n":1}
open a t - {"n":1}
msg a {"state":{"s":1},"custom":true}
state a
unregister t
unregister t
state a
"#,
        want: r#"reply 1 registered
reply 2 refused other 7
out {"buffers":[],"call":2,"client":0,"content":{"comm_id":"c","data":{}},"header":{"msg_type":"comm_close"},"metadata":{}}
reply 3 opened
reply 4 opened
reply 5 custom {"buffers":[],"content":true}
state 5 {"buffer_paths":[],"buffers":[],"state":{"s":1}}
reply 6 unregistered ["b","a"]
out {"buffers":[],"call":6,"client":0,"content":{"comm_id":"b","data":{}},"header":{"msg_type":"comm_close"},"metadata":{}}
out {"buffers":[],"call":6,"client":0,"content":{"comm_id":"a","data":{}},"header":{"msg_type":"comm_close"},"metadata":{}}
reply 7 no_target
state 7 no_comm
stopped 0
log open:c open:b commit open:a commit message:a commit close:b close:a stop
"#,
    },
};

/// An opening is asked without a state, a message with the one that the comm was given last, if any, each comm with
/// its own.
const ASKED_WITH_STATE: CoreScene = CoreScene {
    stocks: &["scripted"],
    comms: 4,
    case: Case {
        name: "a free target is asked with its comm's state",
        lines: r#"register t
open a t - {"now":true}
state a
msg a {"now":true}
state a
msg a {"state":{"s":1}}
msg a {"now":true}
state a
msg a {"n":1}
msg a {"now":true}
open b t - {"state":{"s":2}}
tell msg b {"now":true}
state b
msg a {"now":true}
msg b {"code":3}
msg b {"now":true}
"#,
        want: r#"reply 1 registered
reply 2 opened
out {"buffers":[],"call":2,"client":0,"content":{"comm_id":"a","data":{"now":null}},"header":{"msg_type":"comm_msg"},"metadata":{}}
state 2 no_state
reply 3 delivered
out {"buffers":[],"call":3,"client":0,"content":{"comm_id":"a","data":{"now":null}},"header":{"msg_type":"comm_msg"},"metadata":{}}
state 3 no_state
reply 4 delivered
reply 5 delivered
out {"buffers":[],"call":5,"client":0,"content":{"comm_id":"a","data":{"now":{"s":1}}},"header":{"msg_type":"comm_msg"},"metadata":{}}
state 5 {"buffer_paths":[],"buffers":[],"state":{"s":1}}
reply 6 delivered
reply 7 delivered
out {"buffers":[],"call":7,"client":0,"content":{"comm_id":"a","data":{"now":{"s":1}}},"header":{"msg_type":"comm_msg"},"metadata":{}}
reply 8 opened
entry 2 9 msg b {"now":true}
given state {"s":2} []
given message {"now":{"s":2}}
reply 9 delivered
out {"buffers":[],"call":9,"client":2,"content":{"comm_id":"b","data":{"now":{"s":2}}},"header":{"msg_type":"comm_msg"},"metadata":{}}
row put b t {"s":2} []
state 9 {"buffer_paths":[],"buffers":[],"state":{"s":2}}
reply 10 delivered
out {"buffers":[],"call":10,"client":0,"content":{"comm_id":"a","data":{"now":{"s":1}}},"header":{"msg_type":"comm_msg"},"metadata":{}}
reply 11 fault other 3
reply 12 delivered
out {"buffers":[],"call":12,"client":0,"content":{"comm_id":"b","data":{"now":{"s":2}}},"header":{"msg_type":"comm_msg"},"metadata":{}}
stopped 1
log open:a commit message:a commit message:a commit message:a commit message:a commit message:a commit open:b commit message:b commit message:a commit message:b message:b commit close:a close:b stop
"#,
    },
};

#[test]
fn what_a_free_target_gives_goes_on_unaltered(rt: HostRuntime) -> Result<(), Fail> {
    play_scenes(&rt, &[CODES, MESSAGES, OPENINGS, FREE])
}

#[test]
fn a_free_target_is_asked_with_the_state_of_its_comm(rt: HostRuntime) -> Result<(), Fail> {
    play_scenes(&rt, &[ASKED_WITH_STATE])
}
