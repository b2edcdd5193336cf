//! Widgets.
use super::{MAX_COMMS, ScriptCase};

pub const ROWS: [ScriptCase; 8] = [
    ScriptCase {
        name: "an update is merged, and shown where it is asked for",
        comms: MAX_COMMS,
        script: br#"{"call":"register","kind":"widget","name":"jupyter.widget"}
{"header":{"msg_type":"comm_open"},"content":{"comm_id":"a","target_name":"jupyter.widget","data":{"state":{"value":1},"buffer_paths":[]}},"metadata":{"version":"2.0.0"}}
{"header":{"msg_type":"comm_msg"},"content":{"comm_id":"a","data":{"method":"update","state":{"value":2,"max":9}}}}
{"header":{"msg_type":"comm_msg"},"content":{"comm_id":"a","data":{"method":"request_state"}}}
"#,
        answers: br#"reply 1 registered
reply 2 opened
reply 3 delivered
reply 4 delivered
out {"buffers":[],"call":4,"client":0,"content":{"comm_id":"a","data":{"buffer_paths":[],"method":"update","state":{"max":9,"value":2}}},"header":{"msg_type":"comm_msg"},"metadata":{}}
"#,
    },
    ScriptCase {
        name: "buffers at their paths",
        comms: MAX_COMMS,
        script: br#"{"call":"register","kind":"widget","name":"jupyter.widget"}
{"header":{"msg_type":"comm_open"},"content":{"comm_id":"a","target_name":"jupyter.widget","data":{"state":{"y":{"z":[null]}},"buffer_paths":[["x"],["y","z",0]]}},"metadata":{"version":"2.0.0"},"buffers":["AQI=","/w=="]}
{"header":{"msg_type":"comm_msg"},"content":{"comm_id":"a","data":{"method":"request_state"}}}
"#,
        answers: br#"reply 1 registered
reply 2 opened
reply 3 delivered
out {"buffers":["AQI=","/w=="],"call":3,"client":0,"content":{"comm_id":"a","data":{"buffer_paths":[["x"],["y","z",0]],"method":"update","state":{"y":{"z":[null]}}}},"header":{"msg_type":"comm_msg"},"metadata":{}}
"#,
    },
    ScriptCase {
        name: "an open that a widget refuses",
        comms: MAX_COMMS,
        script: br#"{"call":"register","kind":"widget","name":"jupyter.widget"}
{"header":{"msg_type":"comm_open"},"content":{"comm_id":"a","target_name":"jupyter.widget","data":{"state":{}}},"metadata":{"version":"1.0.0"}}
{"header":{"msg_type":"comm_open"},"content":{"comm_id":"b","target_name":"jupyter.widget","data":{"state":{}}}}
{"header":{"msg_type":"comm_open"},"content":{"comm_id":"c","target_name":"jupyter.widget","data":{"state":{}}},"metadata":{"version":"2"}}
{"header":{"msg_type":"comm_open"},"content":{"comm_id":"d","target_name":"jupyter.widget","data":{}},"metadata":{"version":"2.0.0"}}
{"header":{"msg_type":"comm_open"},"content":{"comm_id":"e","target_name":"jupyter.widget","data":{"state":[]}},"metadata":{"version":"2.0.0"}}
"#,
        answers: br#"reply 1 registered
reply 2 refused wrong_version
out {"buffers":[],"call":2,"client":0,"content":{"comm_id":"a","data":{}},"header":{"msg_type":"comm_close"},"metadata":{}}
reply 3 refused wrong_version
out {"buffers":[],"call":3,"client":0,"content":{"comm_id":"b","data":{}},"header":{"msg_type":"comm_close"},"metadata":{}}
reply 4 opened
reply 5 refused no_state
out {"buffers":[],"call":5,"client":0,"content":{"comm_id":"d","data":{}},"header":{"msg_type":"comm_close"},"metadata":{}}
reply 6 refused bad_state
out {"buffers":[],"call":6,"client":0,"content":{"comm_id":"e","data":{}},"header":{"msg_type":"comm_close"},"metadata":{}}
"#,
    },
    ScriptCase {
        name: "a buffer that is missing",
        comms: MAX_COMMS,
        script: br#"{"call":"register","kind":"widget","name":"jupyter.widget"}
{"header":{"msg_type":"comm_open"},"content":{"comm_id":"a","target_name":"jupyter.widget","data":{"state":{"k":1}}},"metadata":{"version":"2.0.0"}}
{"header":{"msg_type":"comm_msg"},"content":{"comm_id":"a","data":{"method":"update","state":{},"buffer_paths":[["x"],["y"]]}},"buffers":["AQI="]}
{"header":{"msg_type":"comm_msg"},"content":{"comm_id":"a","data":{"method":"update","state":{},"buffer_paths":[["x"]]}},"buffers":["AQI=","/w=="]}
{"call":"state","id":"a"}
"#,
        answers: br#"reply 1 registered
reply 2 opened
reply 3 fault buffer_missing 1
reply 4 delivered
state 4 {"buffer_paths":[["x"]],"buffers":["AQI="],"state":{"k":1}}
"#,
    },
    ScriptCase {
        name: "paths that lead nowhere",
        comms: MAX_COMMS,
        script: br#"{"call":"register","kind":"widget","name":"jupyter.widget"}
{"header":{"msg_type":"comm_open"},"content":{"comm_id":"a","target_name":"jupyter.widget","data":{"state":{"k":1}}},"metadata":{"version":"2.0.0"}}
{"header":{"msg_type":"comm_msg"},"content":{"comm_id":"a","data":{"method":"update","state":{},"buffer_paths":[["x"],["x"]]}},"buffers":["AQI=","/w=="]}
{"header":{"msg_type":"comm_msg"},"content":{"comm_id":"a","data":{"method":"update","state":{},"buffer_paths":[[]]}},"buffers":["AQI="]}
{"header":{"msg_type":"comm_msg"},"content":{"comm_id":"a","data":{"method":"update","state":{"l":[null]},"buffer_paths":[["l",1]]}},"buffers":["AQI="]}
{"header":{"msg_type":"comm_msg"},"content":{"comm_id":"a","data":{"method":"update","state":{},"buffer_paths":[["p"],["p","q"]]}},"buffers":["AQI=","/w=="]}
{"call":"state","id":"a"}
"#,
        answers: br#"reply 1 registered
reply 2 opened
reply 3 delivered
reply 4 fault bad_path 0
reply 5 fault bad_path 0
reply 6 fault bad_path 1
state 6 {"buffer_paths":[["x"]],"buffers":["/w=="],"state":{"k":1}}
"#,
    },
    ScriptCase {
        name: "numbers are whole",
        comms: MAX_COMMS,
        script: br#"{"call":"register","kind":"widget","name":"jupyter.widget"}
{"header":{"msg_type":"comm_open"},"content":{"comm_id":"a","target_name":"jupyter.widget","data":{"state":{"v":1.5}}},"metadata":{"version":"2.0.0"}}
{"header":{"msg_type":"comm_open"},"content":{"comm_id":"a","target_name":"jupyter.widget","data":{"state":{"v":18446744073709551615}}},"metadata":{"version":"2.0.0"}}
{"call":"state","id":"a"}
"#,
        answers: br#"reply 1 registered
bad 2 not_whole
reply 2 opened
state 2 {"buffer_paths":[],"buffers":[],"state":{"v":18446744073709551615}}
"#,
    },
    ScriptCase {
        name: "methods",
        comms: MAX_COMMS,
        script: br#"{"call":"register","kind":"widget","name":"jupyter.widget"}
{"header":{"msg_type":"comm_open"},"content":{"comm_id":"a","target_name":"jupyter.widget","data":{"state":{"k":1}}},"metadata":{"version":"2.0.0"}}
{"header":{"msg_type":"comm_msg"},"content":{"comm_id":"a","data":{"method":"update"}}}
{"header":{"msg_type":"comm_msg"},"content":{"comm_id":"a","data":{"method":"custom"}}}
{"header":{"msg_type":"comm_msg"},"content":{"comm_id":"a","data":{"method":"zap"}}}
{"header":{"msg_type":"comm_msg"},"content":{"comm_id":"a","data":{}}}
{"header":{"msg_type":"comm_msg"},"content":{"comm_id":"a","data":{"method":"custom","content":{"go":true}}},"buffers":["AQI="]}
{"header":{"msg_type":"comm_info_request"}}
"#,
        answers: br#"reply 1 registered
reply 2 opened
reply 3 delivered
reply 4 delivered
reply 5 fault unknown_method
reply 6 fault no_method
reply 7 custom {"buffers":["AQI="],"content":{"go":true}}
out {"buffers":[],"client":0,"content":{"comms":{"a":{"target_name":"jupyter.widget"}},"status":"ok"},"front":7,"header":{"msg_type":"comm_info_reply"},"metadata":{}}
"#,
    },
    ScriptCase {
        name: "hostile paths change nothing",
        comms: MAX_COMMS,
        script: br#"{"call":"register","kind":"widget","name":"jupyter.widget"}
{"header":{"msg_type":"comm_open"},"content":{"comm_id":"a","target_name":"jupyter.widget","data":{"state":{"k":1}}},"metadata":{"version":"2.0.0"}}
{"header":{"msg_type":"comm_msg"},"content":{"comm_id":"a","data":{"method":"update","state":{"l":[null]},"buffer_paths":[["l",18446744073709551615]]}},"buffers":["AQI="]}
{"header":{"msg_type":"comm_msg"},"content":{"comm_id":"a","data":{"method":"update","state":{"l":[null]},"buffer_paths":[["l",-1]]}},"buffers":["AQI="]}
{"header":{"msg_type":"comm_msg"},"content":{"comm_id":"a","data":{"method":"update","state":{"l":[null]},"buffer_paths":7}},"buffers":["AQI="]}
{"header":{"msg_type":"comm_msg"},"content":{"comm_id":"a","data":{"method":"update","state":{"l":[null]},"buffer_paths":[["x"],7]}},"buffers":[]}
{"header":{"msg_type":"comm_msg"},"content":{"comm_id":"a","data":{"method":"update","state":{"l":[null]},"buffer_paths":[["x"],["y"]]}},"buffers":[]}
{"client":-1,"header":{"msg_type":"comm_msg"}}
{"header":{"msg_type":"comm_msg"},"content":{"comm_id":"a","data":{"method":"custom","content":[[[[[[[[[[[[[[[[[[[[[[[[[[[[[[[[[[[[[[[[[[[[[[[[[[[[[[[[[[[[[[[[[[[[[[[[[[[[[[[[[[[[[[[[[[[[[[[[[[[[]]]]]]]]]]]]]]]]]]]]]]]]]]]]]]]]]]]]]]]]]]]]]]]]]]]]]]]]]]]]]]]]]]]]]]]]]]]]]]]]]]]]]]]]]]]]]]]]]]]]}}}
{"call":"state","id":"a"}
"#,
        answers: br#"reply 1 registered
reply 2 opened
reply 3 fault bad_path 0
reply 4 fault bad_path 0
reply 5 fault bad_path 0
reply 6 fault bad_path 1
reply 7 fault buffer_missing 0
bad 8 bad_client
reply 8 custom {"buffers":[],"content":[[[[[[[[[[[[[[[[[[[[[[[[[[[[[[[[[[[[[[[[[[[[[[[[[[[[[[[[[[[[[[[[[[[[[[[[[[[[[[[[[[[[[[[[[[[[[[[[[[[[]]]]]]]]]]]]]]]]]]]]]]]]]]]]]]]]]]]]]]]]]]]]]]]]]]]]]]]]]]]]]]]]]]]]]]]]]]]]]]]]]]]]]]]]]]]]]]]]]]]]}
state 8 {"buffer_paths":[],"buffers":[],"state":{"k":1}}
"#,
    },
];
