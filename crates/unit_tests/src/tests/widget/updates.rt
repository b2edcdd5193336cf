//! Updates: what they change, and what a widget that echoes tells of them.
use crate::tests::core_scenes::{CoreScene, play_scenes};
use std::test::Fail;
use test_harness::Case;

const UPDATED: CoreScene = CoreScene {
    stocks: &["widget"],
    comms: 4096,
    case: Case {
        name: "an update changes key by key and places its buffers or is refused, of a widget that is silent",
        lines: r#"register w
open a w 2.0.0 {"state":{"value":1,"min":0},"buffer_paths":[]}
msg a {"method":"update","state":{"value":2,"max":9}}
state a
close a
open a w 2.0.0 {"state":{"k":1}}
msg a {"method":"update","state":{},"buffer_paths":[["x"],["y"]]} 0102
state a
close a
open a w 2.0.0 {"state":{"k":1}}
msg a {"method":"update","state":{},"buffer_paths":[["x"]]} 0102 ff
state a
close a
open a w 2.0.0 {"state":{"k":1}}
msg a {"method":"update","state":{},"buffer_paths":[["x"],["x"]]} 0102 ff
state a
close a
open a w 2.0.0 {"state":{"k":1}}
msg a {"method":"update","state":{"k":{"y":[0]}},"buffer_paths":[["k","y",0],["a"]]} 0102 ff
state a
close a
open a w 2.0.0 {"state":{"k":1}}
msg a {"method":"update","state":{},"buffer_paths":[]} 0102
state a
close a
open a w 2.0.0 {"state":{"k":1}}
msg a {"method":"update","state":{},"buffer_paths":[[]]} 0102
state a
close a
open a w 2.0.0 {"state":{"k":1}}
msg a {"method":"update","state":{"l":[null]},"buffer_paths":[["l",1]]} 0102
state a
close a
open a w 2.0.0 {"state":{"k":1}}
msg a {"method":"update","state":{},"buffer_paths":[["p"],["p","q"]]} 0102 ff
state a
close a
open a w 2.0.0 {"state":{"k":1}}
msg a {"method":"update","state":[],"buffer_paths":7} 0102
state a
close a
open a w 2.0.0 {"state":{"k":1}}
msg a {"method":"update","state":{},"buffer_paths":7} 0102
state a
close a
"#,
        want: r#"reply 1 registered
reply 2 opened
reply 3 delivered
state 3 {"buffer_paths":[],"buffers":[],"state":{"max":9,"min":0,"value":2}}
reply 4 closed
reply 5 opened
reply 6 fault buffer_missing 1
state 6 {"buffer_paths":[],"buffers":[],"state":{"k":1}}
reply 7 closed
reply 8 opened
reply 9 delivered
state 9 {"buffer_paths":[["x"]],"buffers":["AQI="],"state":{"k":1}}
reply 10 closed
reply 11 opened
reply 12 delivered
state 12 {"buffer_paths":[["x"]],"buffers":["/w=="],"state":{"k":1}}
reply 13 closed
reply 14 opened
reply 15 delivered
state 15 {"buffer_paths":[["a"],["k","y",0]],"buffers":["/w==","AQI="],"state":{"k":{"y":[null]}}}
reply 16 closed
reply 17 opened
reply 18 delivered
state 18 {"buffer_paths":[],"buffers":[],"state":{"k":1}}
reply 19 closed
reply 20 opened
reply 21 fault bad_path 0
state 21 {"buffer_paths":[],"buffers":[],"state":{"k":1}}
reply 22 closed
reply 23 opened
reply 24 fault bad_path 0
state 24 {"buffer_paths":[],"buffers":[],"state":{"k":1}}
reply 25 closed
reply 26 opened
reply 27 fault bad_path 1
state 27 {"buffer_paths":[],"buffers":[],"state":{"k":1}}
reply 28 closed
reply 29 opened
reply 30 fault bad_state
state 30 {"buffer_paths":[],"buffers":[],"state":{"k":1}}
reply 31 closed
reply 32 opened
reply 33 fault bad_path 0
state 33 {"buffer_paths":[],"buffers":[],"state":{"k":1}}
reply 34 closed
stopped 1
log
"#,
    },
};

const ECHOED: CoreScene = CoreScene {
    stocks: &["widget_echo"],
    comms: 4096,
    case: Case {
        name: "an update changes key by key and places its buffers or is refused, of a widget that echoes",
        lines: r#"register w
open a w 2.0.0 {"state":{"value":1,"min":0},"buffer_paths":[]}
msg a {"method":"update","state":{"value":2,"max":9}}
state a
close a
open a w 2.0.0 {"state":{"k":1}}
msg a {"method":"update","state":{},"buffer_paths":[["x"],["y"]]} 0102
state a
close a
open a w 2.0.0 {"state":{"k":1}}
msg a {"method":"update","state":{},"buffer_paths":[["x"]]} 0102 ff
state a
close a
open a w 2.0.0 {"state":{"k":1}}
msg a {"method":"update","state":{},"buffer_paths":[["x"],["x"]]} 0102 ff
state a
close a
open a w 2.0.0 {"state":{"k":1}}
msg a {"method":"update","state":{"k":{"y":[0]}},"buffer_paths":[["k","y",0],["a"]]} 0102 ff
state a
close a
open a w 2.0.0 {"state":{"k":1}}
msg a {"method":"update","state":{},"buffer_paths":[]} 0102
state a
close a
open a w 2.0.0 {"state":{"k":1}}
msg a {"method":"update","state":{},"buffer_paths":[[]]} 0102
state a
close a
open a w 2.0.0 {"state":{"k":1}}
msg a {"method":"update","state":{"l":[null]},"buffer_paths":[["l",1]]} 0102
state a
close a
open a w 2.0.0 {"state":{"k":1}}
msg a {"method":"update","state":{},"buffer_paths":[["p"],["p","q"]]} 0102 ff
state a
close a
open a w 2.0.0 {"state":{"k":1}}
msg a {"method":"update","state":[],"buffer_paths":7} 0102
state a
close a
open a w 2.0.0 {"state":{"k":1}}
msg a {"method":"update","state":{},"buffer_paths":7} 0102
state a
close a
"#,
        want: r#"reply 1 registered
reply 2 opened
reply 3 delivered
out {"buffers":[],"call":3,"client":0,"content":{"comm_id":"a","data":{"buffer_paths":[],"method":"echo_update","state":{"max":9,"value":2}}},"header":{"msg_type":"comm_msg"},"metadata":{}}
state 3 {"buffer_paths":[],"buffers":[],"state":{"max":9,"min":0,"value":2}}
reply 4 closed
reply 5 opened
reply 6 fault buffer_missing 1
state 6 {"buffer_paths":[],"buffers":[],"state":{"k":1}}
reply 7 closed
reply 8 opened
reply 9 delivered
out {"buffers":["AQI="],"call":9,"client":0,"content":{"comm_id":"a","data":{"buffer_paths":[["x"]],"method":"echo_update","state":{}}},"header":{"msg_type":"comm_msg"},"metadata":{}}
state 9 {"buffer_paths":[["x"]],"buffers":["AQI="],"state":{"k":1}}
reply 10 closed
reply 11 opened
reply 12 delivered
out {"buffers":["/w=="],"call":12,"client":0,"content":{"comm_id":"a","data":{"buffer_paths":[["x"]],"method":"echo_update","state":{}}},"header":{"msg_type":"comm_msg"},"metadata":{}}
state 12 {"buffer_paths":[["x"]],"buffers":["/w=="],"state":{"k":1}}
reply 13 closed
reply 14 opened
reply 15 delivered
out {"buffers":["/w==","AQI="],"call":15,"client":0,"content":{"comm_id":"a","data":{"buffer_paths":[["a"],["k","y",0]],"method":"echo_update","state":{"k":{"y":[null]}}}},"header":{"msg_type":"comm_msg"},"metadata":{}}
state 15 {"buffer_paths":[["a"],["k","y",0]],"buffers":["/w==","AQI="],"state":{"k":{"y":[null]}}}
reply 16 closed
reply 17 opened
reply 18 delivered
state 18 {"buffer_paths":[],"buffers":[],"state":{"k":1}}
reply 19 closed
reply 20 opened
reply 21 fault bad_path 0
state 21 {"buffer_paths":[],"buffers":[],"state":{"k":1}}
reply 22 closed
reply 23 opened
reply 24 fault bad_path 0
state 24 {"buffer_paths":[],"buffers":[],"state":{"k":1}}
reply 25 closed
reply 26 opened
reply 27 fault bad_path 1
state 27 {"buffer_paths":[],"buffers":[],"state":{"k":1}}
reply 28 closed
reply 29 opened
reply 30 fault bad_state
state 30 {"buffer_paths":[],"buffers":[],"state":{"k":1}}
reply 31 closed
reply 32 opened
reply 33 fault bad_path 0
state 33 {"buffer_paths":[],"buffers":[],"state":{"k":1}}
reply 34 closed
stopped 1
log
"#,
    },
};

#[test]
fn updates_of_widgets_are_merged(rt: HostRuntime) -> Result<(), Fail> {
    play_scenes(&rt, &[UPDATED, ECHOED])
}
