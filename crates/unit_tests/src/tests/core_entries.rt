//! The entries and the rows of changes that stand ready.
use super::core_scenes::{CoreScene, play_scenes};
use std::test::Fail;
use test_harness::Case;

const SILENT: CoreScene = CoreScene {
    stocks: &["widget"],
    comms: 4096,
    case: Case {
        name: "what stands ready gives its entry and its row, with a widget",
        lines: r#"tell register w
tell launch 67e55044-10b1-426f-9247-bb680e5fe0c8 w {}
tell msg 67e55044-10b1-426f-9247-bb680e5fe0c8 {"method":"update","state":{"k":1}} 0102
tell hang_up 67e55044-10b1-426f-9247-bb680e5fe0c8
spend launch 67e55044-10b1-426f-9247-bb680e5fe0c8 w {}
spend push 67e55044-10b1-426f-9247-bb680e5fe0c8 {}
spend hang_up 67e55044-10b1-426f-9247-bb680e5fe0c8
"#,
        want: r#"entry 2 9 register w Widget 0
nobody asked
reply 9 registered
row same
entry 2 9 launch 67e55044-10b1-426f-9247-bb680e5fe0c8 w {}
given state {} []
reply 9 launched
out {"buffers":[],"call":9,"client":2,"content":{"comm_id":"67e55044-10b1-426f-9247-bb680e5fe0c8","data":{"buffer_paths":[],"state":{}},"target_name":"w"},"header":{"msg_type":"comm_open"},"metadata":{"version":"2.1.0"}}
row put 67e55044-10b1-426f-9247-bb680e5fe0c8 w {} []
entry 2 9 msg 67e55044-10b1-426f-9247-bb680e5fe0c8 {"method":"update","state":{"k":1}} 0102
given state {"k":1} []
reply 9 delivered
row put 67e55044-10b1-426f-9247-bb680e5fe0c8 w {"k":1} []
entry 2 9 hang_up 67e55044-10b1-426f-9247-bb680e5fe0c8
nobody asked
reply 9 closed
out {"buffers":[],"call":9,"client":2,"content":{"comm_id":"67e55044-10b1-426f-9247-bb680e5fe0c8","data":{}},"header":{"msg_type":"comm_close"},"metadata":{}}
row out 67e55044-10b1-426f-9247-bb680e5fe0c8
entry 2 9 launch 67e55044-10b1-426f-9247-bb680e5fe0c8 w {}
given state {} []
reply 9 launched
out {"buffers":[],"call":9,"client":2,"content":{"comm_id":"67e55044-10b1-426f-9247-bb680e5fe0c8","data":{"buffer_paths":[],"state":{}},"target_name":"w"},"header":{"msg_type":"comm_open"},"metadata":{"version":"2.1.0"}}
row put 67e55044-10b1-426f-9247-bb680e5fe0c8 w {} []
entry 2 9 push 67e55044-10b1-426f-9247-bb680e5fe0c8 {}
given state {} []
given message {"buffer_paths":[],"method":"update","state":{}}
reply 9 delivered
out {"buffers":[],"call":9,"client":2,"content":{"comm_id":"67e55044-10b1-426f-9247-bb680e5fe0c8","data":{"buffer_paths":[],"method":"update","state":{}}},"header":{"msg_type":"comm_msg"},"metadata":{}}
row put 67e55044-10b1-426f-9247-bb680e5fe0c8 w {} []
entry 2 9 hang_up 67e55044-10b1-426f-9247-bb680e5fe0c8
nobody asked
reply 9 closed
out {"buffers":[],"call":9,"client":2,"content":{"comm_id":"67e55044-10b1-426f-9247-bb680e5fe0c8","data":{}},"header":{"msg_type":"comm_close"},"metadata":{}}
row out 67e55044-10b1-426f-9247-bb680e5fe0c8
stopped 1
log
"#,
    },
};

const ECHOING: CoreScene = CoreScene {
    stocks: &["widget_echo"],
    comms: 4096,
    case: Case {
        name: "what stands ready gives its entry and its row, with a widget that echoes",
        lines: r#"tell register w
tell launch 67e55044-10b1-426f-9247-bb680e5fe0c8 w {}
tell msg 67e55044-10b1-426f-9247-bb680e5fe0c8 {"method":"update","state":{"k":1}} 0102
tell hang_up 67e55044-10b1-426f-9247-bb680e5fe0c8
spend launch 67e55044-10b1-426f-9247-bb680e5fe0c8 w {}
spend push 67e55044-10b1-426f-9247-bb680e5fe0c8 {}
spend hang_up 67e55044-10b1-426f-9247-bb680e5fe0c8
"#,
        want: r#"entry 2 9 register w WidgetEcho 0
nobody asked
reply 9 registered
row same
entry 2 9 launch 67e55044-10b1-426f-9247-bb680e5fe0c8 w {}
given state {} []
reply 9 launched
out {"buffers":[],"call":9,"client":2,"content":{"comm_id":"67e55044-10b1-426f-9247-bb680e5fe0c8","data":{"buffer_paths":[],"state":{}},"target_name":"w"},"header":{"msg_type":"comm_open"},"metadata":{"version":"2.1.0"}}
row put 67e55044-10b1-426f-9247-bb680e5fe0c8 w {} []
entry 2 9 msg 67e55044-10b1-426f-9247-bb680e5fe0c8 {"method":"update","state":{"k":1}} 0102
given state {"k":1} []
given message {"buffer_paths":[],"method":"echo_update","state":{"k":1}}
reply 9 delivered
out {"buffers":[],"call":9,"client":2,"content":{"comm_id":"67e55044-10b1-426f-9247-bb680e5fe0c8","data":{"buffer_paths":[],"method":"echo_update","state":{"k":1}}},"header":{"msg_type":"comm_msg"},"metadata":{}}
row put 67e55044-10b1-426f-9247-bb680e5fe0c8 w {"k":1} []
entry 2 9 hang_up 67e55044-10b1-426f-9247-bb680e5fe0c8
nobody asked
reply 9 closed
out {"buffers":[],"call":9,"client":2,"content":{"comm_id":"67e55044-10b1-426f-9247-bb680e5fe0c8","data":{}},"header":{"msg_type":"comm_close"},"metadata":{}}
row out 67e55044-10b1-426f-9247-bb680e5fe0c8
entry 2 9 launch 67e55044-10b1-426f-9247-bb680e5fe0c8 w {}
given state {} []
reply 9 launched
out {"buffers":[],"call":9,"client":2,"content":{"comm_id":"67e55044-10b1-426f-9247-bb680e5fe0c8","data":{"buffer_paths":[],"state":{}},"target_name":"w"},"header":{"msg_type":"comm_open"},"metadata":{"version":"2.1.0"}}
row put 67e55044-10b1-426f-9247-bb680e5fe0c8 w {} []
entry 2 9 push 67e55044-10b1-426f-9247-bb680e5fe0c8 {}
given state {} []
given message {"buffer_paths":[],"method":"update","state":{}}
reply 9 delivered
out {"buffers":[],"call":9,"client":2,"content":{"comm_id":"67e55044-10b1-426f-9247-bb680e5fe0c8","data":{"buffer_paths":[],"method":"update","state":{}}},"header":{"msg_type":"comm_msg"},"metadata":{}}
row put 67e55044-10b1-426f-9247-bb680e5fe0c8 w {} []
entry 2 9 hang_up 67e55044-10b1-426f-9247-bb680e5fe0c8
nobody asked
reply 9 closed
out {"buffers":[],"call":9,"client":2,"content":{"comm_id":"67e55044-10b1-426f-9247-bb680e5fe0c8","data":{}},"header":{"msg_type":"comm_close"},"metadata":{}}
row out 67e55044-10b1-426f-9247-bb680e5fe0c8
stopped 1
log
"#,
    },
};

const FREE: CoreScene = CoreScene {
    stocks: &["scripted"],
    comms: 4096,
    case: Case {
        name: "what stands ready gives its entry and its row, with a scripted target",
        lines: r#"tell register t
tell open a t 2.0.0 {"first":{"m":1},"state":{"s":1}} 0102
tell register t
spend open a t 2.0.0 {"first":{"m":1},"state":{"s":1}} 0102
spend open b nowhere - {"n":1}
spend msg a {"code":256} 0102
spend msg a {"custom":7} 0102
spend send a {"n":1}
spend close b
spend unregister t
spend unregister t
"#,
        want: r#"entry 2 9 register t Free 0
nobody asked
reply 9 registered
row same
entry 2 9 open a t 2.0.0 {"first":{"m":1},"state":{"s":1}} 0102
given state {"s":1} []
given message {"m":1}
reply 9 opened
out {"buffers":[],"call":9,"client":2,"content":{"comm_id":"a","data":{"m":1}},"header":{"msg_type":"comm_msg"},"metadata":{}}
row put a t {"s":1} []
entry 2 9 register t Free 0
nobody asked
reply 9 replaced ["a"]
out {"buffers":[],"call":9,"client":2,"content":{"comm_id":"a","data":{}},"header":{"msg_type":"comm_close"},"metadata":{}}
row out a
entry 2 9 open a t 2.0.0 {"first":{"m":1},"state":{"s":1}} 0102
given state {"s":1} []
given message {"m":1}
reply 9 opened
out {"buffers":[],"call":9,"client":2,"content":{"comm_id":"a","data":{"m":1}},"header":{"msg_type":"comm_msg"},"metadata":{}}
row put a t {"s":1} []
entry 2 9 open b nowhere - {"n":1}
nobody asked
reply 9 refused no_target
out {"buffers":[],"call":9,"client":2,"content":{"comm_id":"b","data":{}},"header":{"msg_type":"comm_close"},"metadata":{}}
row same
entry 2 9 msg a {"code":256} 0102
given Other(256)
reply 9 fault other 256
row same
entry 2 9 msg a {"custom":7} 0102
given custom 7 0102
reply 9 custom {"buffers":["AQI="],"content":7}
row same
entry 2 9 send a {"n":1}
nobody asked
reply 9 delivered
out {"buffers":[],"call":9,"client":2,"content":{"comm_id":"a","data":{"n":1}},"header":{"msg_type":"comm_msg"},"metadata":{}}
row same
entry 2 9 close b
nobody asked
reply 9 no_comm
row same
entry 2 9 unregister t
nobody asked
reply 9 unregistered ["a"]
out {"buffers":[],"call":9,"client":2,"content":{"comm_id":"a","data":{}},"header":{"msg_type":"comm_close"},"metadata":{}}
row out a
entry 2 9 unregister t
nobody asked
reply 9 no_target
row same
stopped 0
log open:a commit close:a stop next.open:a next.abandon next.open:a next.commit next.message:a next.message:a next.message:a next.abandon next.message:a next.commit next.close:a next.stop
"#,
    },
};

#[test]
fn what_stands_ready_gives_its_entry(rt: HostRuntime) -> Result<(), Fail> {
    play_scenes(&rt, &[SILENT, ECHOING, FREE])
}
