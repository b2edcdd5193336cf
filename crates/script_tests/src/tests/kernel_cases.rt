//! The kernel's own commands.
use super::{MAX_COMMS, ScriptCase};

pub const ROWS: [ScriptCase; 6] = [
    ScriptCase {
        name: "unregister closes the comms in the order of opening",
        comms: MAX_COMMS,
        script: br#"{"call":"register","kind":"echo","name":"t"}
{"header":{"msg_type":"comm_open"},"content":{"comm_id":"c","target_name":"t","data":{}}}
{"header":{"msg_type":"comm_open"},"content":{"comm_id":"b","target_name":"t","data":{}}}
{"header":{"msg_type":"comm_open"},"content":{"comm_id":"a","target_name":"t","data":{}}}
{"header":{"msg_type":"comm_close"},"content":{"comm_id":"c"}}
{"call":"unregister","name":"t"}
{"call":"unregister","name":"t"}
"#,
        answers: br#"reply 1 registered
reply 2 opened
reply 3 opened
reply 4 opened
reply 5 closed
reply 6 unregistered ["b","a"]
out {"buffers":[],"call":6,"client":0,"content":{"comm_id":"b","data":{}},"header":{"msg_type":"comm_close"},"metadata":{}}
out {"buffers":[],"call":6,"client":0,"content":{"comm_id":"a","data":{}},"header":{"msg_type":"comm_close"},"metadata":{}}
reply 7 no_target
"#,
    },
    ScriptCase {
        name: "a target that is replaced doesn't come back into the stock",
        comms: MAX_COMMS,
        script: br#"{"call":"register","kind":"echo","name":"t"}
{"call":"register","kind":"echo","name":"t"}
{"call":"register","kind":"echo","name":"u"}
{"call":"register","kind":"echo","name":"v"}
"#,
        answers: br#"reply 1 registered
reply 2 replaced []
bad 3 no_stock
bad 4 no_stock
"#,
    },
    ScriptCase {
        name: "a register of a taken name closes the comms and replaces the target",
        comms: MAX_COMMS,
        script: br#"{"call":"register","kind":"echo","name":"t"}
{"header":{"msg_type":"comm_open"},"content":{"comm_id":"b","target_name":"t","data":{}}}
{"header":{"msg_type":"comm_open"},"content":{"comm_id":"a","target_name":"t","data":{}}}
{"call":"register","kind":"counter","name":"t"}
{"header":{"msg_type":"comm_msg"},"content":{"comm_id":"a","data":{}}}
{"header":{"msg_type":"comm_open"},"content":{"comm_id":"a","target_name":"t","data":{}}}
{"header":{"msg_type":"comm_msg"},"content":{"comm_id":"a","data":{}}}
"#,
        answers: br#"reply 1 registered
reply 2 opened
reply 3 opened
reply 4 replaced ["b","a"]
out {"buffers":[],"call":4,"client":0,"content":{"comm_id":"b","data":{}},"header":{"msg_type":"comm_close"},"metadata":{}}
out {"buffers":[],"call":4,"client":0,"content":{"comm_id":"a","data":{}},"header":{"msg_type":"comm_close"},"metadata":{}}
reply 5 no_comm
reply 6 opened
reply 7 delivered
out {"buffers":[],"call":7,"client":0,"content":{"comm_id":"a","data":{"count":1}},"header":{"msg_type":"comm_msg"},"metadata":{}}
"#,
    },
    ScriptCase {
        name: "where no target of the kind is left, the one that has the name stays",
        comms: MAX_COMMS,
        script: br#"{"call":"register","kind":"echo","name":"t"}
{"call":"register","kind":"echo","name":"u"}
{"header":{"msg_type":"comm_open"},"content":{"comm_id":"a","target_name":"t","data":{}}}
{"call":"register","kind":"echo","name":"t"}
{"header":{"msg_type":"comm_msg"},"content":{"comm_id":"a","data":{"n":1}}}
"#,
        answers: br#"reply 1 registered
reply 2 registered
reply 3 opened
bad 4 no_stock
reply 4 delivered
out {"buffers":[],"call":4,"client":0,"content":{"comm_id":"a","data":{"n":1}},"header":{"msg_type":"comm_msg"},"metadata":{}}
"#,
    },
    ScriptCase {
        name: "launch, push and hang up",
        comms: MAX_COMMS,
        script: br#"{"call":"register","kind":"widget","name":"jupyter.widget"}
{"call":"launch","name":"jupyter.widget","uuid":"67e5504410b1426f9247bb680e5fe0c8","state":{"value":1}}
{"call":"push","id":"67e55044-10b1-426f-9247-bb680e5fe0c8","state":{"value":5}}
{"call":"hang_up","id":"67e55044-10b1-426f-9247-bb680e5fe0c8"}
{"call":"push","id":"67e55044-10b1-426f-9247-bb680e5fe0c8","state":{"value":5}}
{"call":"register","kind":"echo","name":"t"}
{"call":"launch","name":"t","uuid":"67e5504410b1426f9247bb680e5fe0c8","state":{"value":1}}
"#,
        answers: br#"reply 1 registered
reply 2 launched
out {"buffers":[],"call":2,"client":0,"content":{"comm_id":"67e55044-10b1-426f-9247-bb680e5fe0c8","data":{"buffer_paths":[],"state":{"value":1}},"target_name":"jupyter.widget"},"header":{"msg_type":"comm_open"},"metadata":{"version":"2.1.0"}}
reply 3 delivered
out {"buffers":[],"call":3,"client":0,"content":{"comm_id":"67e55044-10b1-426f-9247-bb680e5fe0c8","data":{"buffer_paths":[],"method":"update","state":{"value":5}}},"header":{"msg_type":"comm_msg"},"metadata":{}}
reply 4 closed
out {"buffers":[],"call":4,"client":0,"content":{"comm_id":"67e55044-10b1-426f-9247-bb680e5fe0c8","data":{}},"header":{"msg_type":"comm_close"},"metadata":{}}
reply 5 no_comm
reply 6 registered
reply 7 not_widget
"#,
    },
    ScriptCase {
        name: "reads, and commands in the order of their tests",
        comms: MAX_COMMS,
        script: br#"{"call":"register","kind":"echo","name":"t"}
{"call":"register","kind":"counter","name":"n"}
{"header":{"msg_type":"comm_open"},"content":{"comm_id":"b","target_name":"t","data":{}}}
{"header":{"msg_type":"comm_open"},"content":{"comm_id":"a","target_name":"n","data":{}}}
{"header":{"msg_type":"comm_open"},"content":{"comm_id":"c","target_name":"t","data":{}}}
{"header":{"msg_type":"comm_info_request"},"content":{"target_name":"t"}}
{"call":"state","id":"b"}
{"call":"state","id":"z"}
{"call":"launch","name":"jupyter.widget","uuid":"zz"}
{"call":"launch","name":"jupyter.widget","uuid":"67e5504410b1426f9247bb680e5fe0c8"}
{"call":"send","id":"b","data":{"n":2}}
{"call":"send","id":"z","data":{"n":2}}
{"call":"hang_up","id":"z"}
{"call":"push","state":[]}
{"call":"push","id":"b"}
"#,
        answers: br#"reply 1 registered
reply 2 registered
reply 3 opened
reply 4 opened
reply 5 opened
out {"buffers":[],"client":0,"content":{"comms":{"b":{"target_name":"t"},"c":{"target_name":"t"}},"status":"ok"},"front":5,"header":{"msg_type":"comm_info_reply"},"metadata":{}}
state 5 no_state
state 5 no_comm
bad 9 bad_uuid
reply 6 no_target
reply 7 delivered
out {"buffers":[],"call":7,"client":0,"content":{"comm_id":"b","data":{"n":2}},"header":{"msg_type":"comm_msg"},"metadata":{}}
reply 8 no_comm
reply 9 no_comm
bad 14 bad_field id
reply 10 not_widget
"#,
    },
];
