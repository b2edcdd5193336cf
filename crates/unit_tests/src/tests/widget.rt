//! Worked cases of the widgets' protocol, played with a widget and with one that echoes. The base64 AQI= is the bytes
//! 0102, /w== is ff.
use super::core_scenes::{CoreScene, play_scenes};
use std::test::Fail;
use test_harness::Case;

mod updates;

const PLACED: CoreScene = CoreScene {
    stocks: &["widget", "widget_echo"],
    comms: 4096,
    case: Case {
        name: "an opening places its buffers, and request_state tells the state and its buffers",
        lines: r#"register w
open a w 2.0.0 {"state":{"y":{"z":[null]}},"buffer_paths":[["x"],["y","z",0]]} 0102 ff
state a
msg a {"method":"request_state"}
state a
"#,
        want: r#"reply 1 registered
reply 2 opened
state 2 {"buffer_paths":[["x"],["y","z",0]],"buffers":["AQI=","/w=="],"state":{"y":{"z":[null]}}}
reply 3 delivered
out {"buffers":["AQI=","/w=="],"call":3,"client":0,"content":{"comm_id":"a","data":{"buffer_paths":[["x"],["y","z",0]],"method":"update","state":{"y":{"z":[null]}}}},"header":{"msg_type":"comm_msg"},"metadata":{}}
state 3 {"buffer_paths":[["x"],["y","z",0]],"buffers":["AQI=","/w=="],"state":{"y":{"z":[null]}}}
stopped 1
log
"#,
    },
};

const VERSIONS: CoreScene = CoreScene {
    stocks: &["widget", "widget_echo"],
    comms: 4096,
    case: Case {
        name: "only version two is spoken",
        lines: r#"register w
open a w 1.0.0 {"state":{}}
open a w - {"state":{}}
open a w 2 {"state":{}}
state a
close a
open a w 2.1.0 {"state":{}}
state a
close a
open a w 20.0 {"state":{}}
open a w  {"state":{}}
"#,
        want: r#"reply 1 registered
reply 2 refused wrong_version
out {"buffers":[],"call":2,"client":0,"content":{"comm_id":"a","data":{}},"header":{"msg_type":"comm_close"},"metadata":{}}
reply 3 refused wrong_version
out {"buffers":[],"call":3,"client":0,"content":{"comm_id":"a","data":{}},"header":{"msg_type":"comm_close"},"metadata":{}}
reply 4 opened
state 4 {"buffer_paths":[],"buffers":[],"state":{}}
reply 5 closed
reply 6 opened
state 6 {"buffer_paths":[],"buffers":[],"state":{}}
reply 7 closed
reply 8 refused wrong_version
out {"buffers":[],"call":8,"client":0,"content":{"comm_id":"a","data":{}},"header":{"msg_type":"comm_close"},"metadata":{}}
reply 9 refused wrong_version
out {"buffers":[],"call":9,"client":0,"content":{"comm_id":"a","data":{}},"header":{"msg_type":"comm_close"},"metadata":{}}
stopped 1
log
"#,
    },
};

const STATES: CoreScene = CoreScene {
    stocks: &["widget", "widget_echo"],
    comms: 4096,
    case: Case {
        name: "an opening needs a dict as its state, whose numbers are kept",
        lines: r#"register w
open a w 2.0.0 {}
open a w 2.0.0 {"state":[]}
open a w 2.0.0 {"state":null}
open a w 2.0.0 {"state":{"v":18446744073709551615}}
state a
"#,
        want: r#"reply 1 registered
reply 2 refused no_state
out {"buffers":[],"call":2,"client":0,"content":{"comm_id":"a","data":{}},"header":{"msg_type":"comm_close"},"metadata":{}}
reply 3 refused bad_state
out {"buffers":[],"call":3,"client":0,"content":{"comm_id":"a","data":{}},"header":{"msg_type":"comm_close"},"metadata":{}}
reply 4 refused bad_state
out {"buffers":[],"call":4,"client":0,"content":{"comm_id":"a","data":{}},"header":{"msg_type":"comm_close"},"metadata":{}}
reply 5 opened
state 5 {"buffer_paths":[],"buffers":[],"state":{"v":18446744073709551615}}
stopped 1
log
"#,
    },
};

const OTHERS: CoreScene = CoreScene {
    stocks: &["widget", "widget_echo"],
    comms: 4096,
    case: Case {
        name: "custom hands over its content, and other messages change nothing or are refused",
        lines: r#"register w
open a w 2.0.0 {"state":{"k":1}}
msg a {"method":"custom","content":{"go":true}} 0102
msg a {"method":"update"}
state a
msg a {"method":"custom"}
state a
msg a {"method":"zap"}
state a
msg a {"method":"echo_update","state":{}}
state a
msg a {}
state a
msg a {"method":7}
state a
"#,
        want: r#"reply 1 registered
reply 2 opened
reply 3 custom {"buffers":["AQI="],"content":{"go":true}}
reply 4 delivered
state 4 {"buffer_paths":[],"buffers":[],"state":{"k":1}}
reply 5 delivered
state 5 {"buffer_paths":[],"buffers":[],"state":{"k":1}}
reply 6 fault unknown_method
state 6 {"buffer_paths":[],"buffers":[],"state":{"k":1}}
reply 7 fault unknown_method
state 7 {"buffer_paths":[],"buffers":[],"state":{"k":1}}
reply 8 fault no_method
state 8 {"buffer_paths":[],"buffers":[],"state":{"k":1}}
reply 9 fault no_method
state 9 {"buffer_paths":[],"buffers":[],"state":{"k":1}}
stopped 1
log
"#,
    },
};

const PUSHED: CoreScene = CoreScene {
    stocks: &["widget", "widget_echo"],
    comms: 4096,
    case: Case {
        name: "a push tells just its keys, and nothing is echoed",
        lines: r#"register w
open a w 2.0.0 {"state":{"value":1,"min":0}}
push a {"value":5}
state a
push a {}
state a
"#,
        want: r#"reply 1 registered
reply 2 opened
reply 3 delivered
out {"buffers":[],"call":3,"client":0,"content":{"comm_id":"a","data":{"buffer_paths":[],"method":"update","state":{"value":5}}},"header":{"msg_type":"comm_msg"},"metadata":{}}
state 3 {"buffer_paths":[],"buffers":[],"state":{"min":0,"value":5}}
reply 4 delivered
out {"buffers":[],"call":4,"client":0,"content":{"comm_id":"a","data":{"buffer_paths":[],"method":"update","state":{}}},"header":{"msg_type":"comm_msg"},"metadata":{}}
state 4 {"buffer_paths":[],"buffers":[],"state":{"min":0,"value":5}}
stopped 1
log
"#,
    },
};

const LAUNCHED: CoreScene = CoreScene {
    stocks: &["widget"],
    comms: 4096,
    case: Case {
        name: "a launch of a widget gives its state, and is taken back",
        lines: r#"tell register w
withdraw launch 67e55044-10b1-426f-9247-bb680e5fe0c8 w {"value":1}
state 67e55044-10b1-426f-9247-bb680e5fe0c8
tell launch 67e55044-10b1-426f-9247-bb680e5fe0c8 w {"value":1}
state 67e55044-10b1-426f-9247-bb680e5fe0c8
"#,
        want: r#"entry 2 9 register w Widget 0
nobody asked
reply 9 registered
row same
withdrawn
state 1 no_comm
entry 2 9 launch 67e55044-10b1-426f-9247-bb680e5fe0c8 w {"value":1}
given state {"value":1} []
reply 9 launched
out {"buffers":[],"call":9,"client":2,"content":{"comm_id":"67e55044-10b1-426f-9247-bb680e5fe0c8","data":{"buffer_paths":[],"state":{"value":1}},"target_name":"w"},"header":{"msg_type":"comm_open"},"metadata":{"version":"2.1.0"}}
row put 67e55044-10b1-426f-9247-bb680e5fe0c8 w {"value":1} []
state 2 {"buffer_paths":[],"buffers":[],"state":{"value":1}}
stopped 1
log
"#,
    },
};

const LAUNCHED_ECHO: CoreScene = CoreScene {
    stocks: &["widget_echo"],
    comms: 4096,
    case: Case {
        name: "a launch of a widget_echo gives its state, and is taken back",
        lines: r#"tell register w
withdraw launch 67e55044-10b1-426f-9247-bb680e5fe0c8 w {"value":1}
state 67e55044-10b1-426f-9247-bb680e5fe0c8
tell launch 67e55044-10b1-426f-9247-bb680e5fe0c8 w {"value":1}
state 67e55044-10b1-426f-9247-bb680e5fe0c8
"#,
        want: r#"entry 2 9 register w WidgetEcho 0
nobody asked
reply 9 registered
row same
withdrawn
state 1 no_comm
entry 2 9 launch 67e55044-10b1-426f-9247-bb680e5fe0c8 w {"value":1}
given state {"value":1} []
reply 9 launched
out {"buffers":[],"call":9,"client":2,"content":{"comm_id":"67e55044-10b1-426f-9247-bb680e5fe0c8","data":{"buffer_paths":[],"state":{"value":1}},"target_name":"w"},"header":{"msg_type":"comm_open"},"metadata":{"version":"2.1.0"}}
row put 67e55044-10b1-426f-9247-bb680e5fe0c8 w {"value":1} []
state 2 {"buffer_paths":[],"buffers":[],"state":{"value":1}}
stopped 1
log
"#,
    },
};

#[test]
fn widgets_keep_to_their_protocol(rt: HostRuntime) -> Result<(), Fail> {
    play_scenes(
        &rt,
        &[
            PLACED,
            VERSIONS,
            STATES,
            OTHERS,
            PUSHED,
            LAUNCHED,
            LAUNCHED_ECHO,
        ],
    )
}
