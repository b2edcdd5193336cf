//! Scripts of numbers that aren't whole, over managers that take them.
use super::{MAX_COMMS, ScriptCase};

pub const ROWS: [ScriptCase; 2] = [
    ScriptCase {
        name: "each number that isn't whole goes out as the text that came in",
        comms: MAX_COMMS,
        script: br#"{"call":"register","kind":"echo","name":"t"}
{"header":{"msg_type":"comm_open"},"content":{"comm_id":"a","target_name":"t","data":{"x":0.5}}}
{"header":{"msg_type":"comm_msg"},"content":{"comm_id":"a","data":{"x":[1.50,1e2,-0,18446744073709551616]}}}
{"call":"send","id":"a","data":{"y":2E-1}}
{"header":{"msg_type":"comm_msg"},"content":{"comm_id":"a","data":{"x":1e400}}}
{"client":0.0,"header":{"msg_type":"comm_close"},"content":{"comm_id":"a"}}
"#,
        answers: br#"reply 1 registered
reply 2 opened
reply 3 delivered
out {"buffers":[],"call":3,"client":0,"content":{"comm_id":"a","data":{"x":[1.50,1e2,-0,18446744073709551616]}},"header":{"msg_type":"comm_msg"},"metadata":{}}
reply 4 delivered
out {"buffers":[],"call":4,"client":0,"content":{"comm_id":"a","data":{"y":2E-1}},"header":{"msg_type":"comm_msg"},"metadata":{}}
bad 5 not_json
bad 6 bad_client
"#,
    },
    ScriptCase {
        name: "a widget's state keeps the text that the last update brought",
        comms: MAX_COMMS,
        script: br#"{"call":"register","kind":"widget","name":"w"}
{"header":{"msg_type":"comm_open"},"content":{"comm_id":"a","target_name":"w","data":{"state":{"max":10.0,"v":0.1}}},"metadata":{"version":"2.1.0"}}
{"header":{"msg_type":"comm_msg"},"content":{"comm_id":"a","data":{"method":"update","state":{"v":3}}}}
{"call":"state","id":"a"}
{"call":"push","id":"a","state":{"v":3.0}}
{"header":{"msg_type":"comm_msg"},"content":{"comm_id":"a","data":{"method":"update","state":{"l":[1.0,null]},"buffer_paths":[["l",1.0]]}},"buffers":["AQI="]}
{"header":{"msg_type":"comm_msg"},"content":{"comm_id":"a","data":{"method":"update","state":{"l":[1.0,null]},"buffer_paths":[["l",1]]}},"buffers":["AQI="]}
{"call":"state","id":"a"}
"#,
        answers: br#"reply 1 registered
reply 2 opened
reply 3 delivered
state 3 {"buffer_paths":[],"buffers":[],"state":{"max":10.0,"v":3}}
reply 4 delivered
out {"buffers":[],"call":4,"client":0,"content":{"comm_id":"a","data":{"buffer_paths":[],"method":"update","state":{"v":3.0}}},"header":{"msg_type":"comm_msg"},"metadata":{}}
reply 5 fault bad_path 0
reply 6 delivered
state 6 {"buffer_paths":[["l",1]],"buffers":["AQI="],"state":{"l":[1.0,null],"max":10.0,"v":3.0}}
"#,
    },
];
