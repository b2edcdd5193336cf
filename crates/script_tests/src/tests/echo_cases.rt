//! Widgets that echo.
use super::{MAX_COMMS, ScriptCase};

pub const ROWS: [ScriptCase; 4] = [
    ScriptCase {
        name: "an update that brings some keys is echoed",
        comms: MAX_COMMS,
        script: br#"{"call":"register","kind":"widget_echo","name":"jupyter.widget"}
{"header":{"msg_type":"comm_open"},"content":{"comm_id":"a","target_name":"jupyter.widget","data":{"state":{"k":1}}},"metadata":{"version":"2.1.0"}}
{"header":{"msg_type":"comm_msg"},"content":{"comm_id":"a","data":{"method":"update","state":{"k":2}}}}
{"header":{"msg_type":"comm_msg"},"content":{"comm_id":"a","data":{"method":"update","state":{}}}}
{"header":{"msg_type":"comm_msg"},"content":{"comm_id":"a","data":{"method":"update","state":{},"buffer_paths":[["x"]]}},"buffers":["AQI="]}
{"header":{"msg_type":"comm_msg"},"content":{"comm_id":"a","data":{"method":"echo_update","state":{}}}}
"#,
        answers: br#"reply 1 registered
reply 2 opened
reply 3 delivered
out {"buffers":[],"call":3,"client":0,"content":{"comm_id":"a","data":{"buffer_paths":[],"method":"echo_update","state":{"k":2}}},"header":{"msg_type":"comm_msg"},"metadata":{}}
reply 4 delivered
reply 5 delivered
out {"buffers":["AQI="],"call":5,"client":0,"content":{"comm_id":"a","data":{"buffer_paths":[["x"]],"method":"echo_update","state":{}}},"header":{"msg_type":"comm_msg"},"metadata":{}}
reply 6 fault unknown_method
"#,
    },
    ScriptCase {
        name: "two frontends see each other's slider",
        comms: MAX_COMMS,
        script: br#"{"call":"register","kind":"widget_echo","name":"jupyter.widget"}
{"call":"launch","name":"jupyter.widget","uuid":"67e5504410b1426f9247bb680e5fe0c8","state":{"value":1,"max":9}}
{"client":1,"header":{"msg_type":"comm_msg"},"content":{"comm_id":"67e55044-10b1-426f-9247-bb680e5fe0c8","data":{"method":"update","state":{"value":5}}}}
{"client":2,"header":{"msg_type":"comm_msg"},"content":{"comm_id":"67e55044-10b1-426f-9247-bb680e5fe0c8","data":{"method":"update","state":{"value":7},"buffer_paths":[["x"]]}}}
{"client":2,"header":{"msg_type":"comm_msg"},"content":{"comm_id":"67e55044-10b1-426f-9247-bb680e5fe0c8","data":{"method":"update"}}}
{"client":2,"header":{"msg_type":"comm_msg"},"content":{"comm_id":"67e55044-10b1-426f-9247-bb680e5fe0c8","data":{"method":"update","state":{"value":6}}}}
{"call":"push","id":"67e55044-10b1-426f-9247-bb680e5fe0c8","state":{"max":8}}
{"client":1,"header":{"msg_type":"comm_msg"},"content":{"comm_id":"67e55044-10b1-426f-9247-bb680e5fe0c8","data":{"method":"request_state"}}}
"#,
        answers: br#"reply 1 registered
reply 2 launched
out {"buffers":[],"call":2,"client":0,"content":{"comm_id":"67e55044-10b1-426f-9247-bb680e5fe0c8","data":{"buffer_paths":[],"state":{"max":9,"value":1}},"target_name":"jupyter.widget"},"header":{"msg_type":"comm_open"},"metadata":{"version":"2.1.0"}}
reply 3 delivered
out {"buffers":[],"call":1,"client":1,"content":{"comm_id":"67e55044-10b1-426f-9247-bb680e5fe0c8","data":{"buffer_paths":[],"method":"echo_update","state":{"value":5}}},"header":{"msg_type":"comm_msg"},"metadata":{}}
reply 4 fault buffer_missing 0
reply 5 delivered
reply 6 delivered
out {"buffers":[],"call":3,"client":2,"content":{"comm_id":"67e55044-10b1-426f-9247-bb680e5fe0c8","data":{"buffer_paths":[],"method":"echo_update","state":{"value":6}}},"header":{"msg_type":"comm_msg"},"metadata":{}}
reply 7 delivered
out {"buffers":[],"call":3,"client":0,"content":{"comm_id":"67e55044-10b1-426f-9247-bb680e5fe0c8","data":{"buffer_paths":[],"method":"update","state":{"max":8}}},"header":{"msg_type":"comm_msg"},"metadata":{}}
reply 8 delivered
out {"buffers":[],"call":2,"client":1,"content":{"comm_id":"67e55044-10b1-426f-9247-bb680e5fe0c8","data":{"buffer_paths":[],"method":"update","state":{"max":8,"value":6}}},"header":{"msg_type":"comm_msg"},"metadata":{}}
"#,
    },
    ScriptCase {
        name: "an open that a widget with echo refuses",
        comms: MAX_COMMS,
        script: br#"{"call":"register","kind":"widget_echo","name":"jupyter.widget"}
{"header":{"msg_type":"comm_open"},"content":{"comm_id":"a","target_name":"jupyter.widget","data":{"state":{}}},"metadata":{"version":"1.0.0"}}
{"header":{"msg_type":"comm_open"},"content":{"comm_id":"b","target_name":"jupyter.widget","data":{"state":{}}}}
{"header":{"msg_type":"comm_open"},"content":{"comm_id":"c","target_name":"jupyter.widget","data":{"state":{}}},"metadata":{"version":"2"}}
{"header":{"msg_type":"comm_open"},"content":{"comm_id":"d","target_name":"jupyter.widget","data":{}},"metadata":{"version":"2.0.0"}}
{"header":{"msg_type":"comm_open"},"content":{"comm_id":"e","target_name":"jupyter.widget","data":{"state":[]}},"metadata":{"version":"2.1.0"}}
"#,
        answers: br#"reply 1 registered
reply 2 refused wrong_version
out {"buffers":[],"call":2,"client":0,"content":{"comm_id":"a","data":{}},"header":{"msg_type":"comm_close"},"metadata":{}}
reply 3 refused wrong_version
out {"buffers":[],"call":3,"client":0,"content":{"comm_id":"b","data":{}},"header":{"msg_type":"comm_close"},"metadata":{}}
reply 4 opened
reply 5 refused no_state
out {"buffers":[],"call":5,"client":0,"content":{"comm_id":"d","data":{}},"header":{"msg_type":"comm_close"},"metadata":{}}
reply 6 refused bad_state
out {"buffers":[],"call":6,"client":0,"content":{"comm_id":"e","data":{}},"header":{"msg_type":"comm_close"},"metadata":{}}
"#,
    },
    ScriptCase {
        name: "a widget with echo hands over what is custom",
        comms: MAX_COMMS,
        script: br#"{"call":"register","kind":"widget_echo","name":"jupyter.widget"}
{"header":{"msg_type":"comm_open"},"content":{"comm_id":"a","target_name":"jupyter.widget","data":{"state":{"k":1}}},"metadata":{"version":"2.1.0"}}
{"header":{"msg_type":"comm_msg"},"content":{"comm_id":"a","data":{"method":"custom","content":{"go":1}}},"buffers":["AQI="]}
{"header":{"msg_type":"comm_msg"},"content":{"comm_id":"a","data":{"state":{"k":2}}}}
{"call":"state","id":"a"}
"#,
        answers: br#"reply 1 registered
reply 2 opened
reply 3 custom {"buffers":["AQI="],"content":{"go":1}}
reply 4 fault no_method
state 4 {"buffer_paths":[],"buffers":[],"state":{"k":1}}
"#,
    },
];

/// What other widgets are asked, with what is echoed of it.
pub const AS_OTHERS: [ScriptCase; 8] = [
    ScriptCase {
        name: "an update is merged and echoed, and shown where it is asked for",
        comms: MAX_COMMS,
        script: br#"{"call":"register","kind":"widget_echo","name":"jupyter.widget"}
{"header":{"msg_type":"comm_open"},"content":{"comm_id":"a","target_name":"jupyter.widget","data":{"state":{"value":1},"buffer_paths":[]}},"metadata":{"version":"2.0.0"}}
{"header":{"msg_type":"comm_msg"},"content":{"comm_id":"a","data":{"method":"update","state":{"value":2,"max":9}}}}
{"header":{"msg_type":"comm_msg"},"content":{"comm_id":"a","data":{"method":"request_state"}}}
"#,
        answers: br#"reply 1 registered
reply 2 opened
reply 3 delivered
out {"buffers":[],"call":3,"client":0,"content":{"comm_id":"a","data":{"buffer_paths":[],"method":"echo_update","state":{"max":9,"value":2}}},"header":{"msg_type":"comm_msg"},"metadata":{}}
reply 4 delivered
out {"buffers":[],"call":4,"client":0,"content":{"comm_id":"a","data":{"buffer_paths":[],"method":"update","state":{"max":9,"value":2}}},"header":{"msg_type":"comm_msg"},"metadata":{}}
"#,
    },
    ScriptCase {
        name: "an open echoes nothing",
        comms: MAX_COMMS,
        script: br#"{"call":"register","kind":"widget_echo","name":"jupyter.widget"}
{"header":{"msg_type":"comm_open"},"content":{"comm_id":"a","target_name":"jupyter.widget","data":{"state":{"y":{"z":[null]}},"buffer_paths":[["x"],["y","z",0]]}},"metadata":{"version":"2.0.0"},"buffers":["AQI=","/w=="]}
{"header":{"msg_type":"comm_msg"},"content":{"comm_id":"a","data":{"method":"request_state"}}}
"#,
        answers: br#"reply 1 registered
reply 2 opened
reply 3 delivered
out {"buffers":["AQI=","/w=="],"call":3,"client":0,"content":{"comm_id":"a","data":{"buffer_paths":[["x"],["y","z",0]],"method":"update","state":{"y":{"z":[null]}}}},"header":{"msg_type":"comm_msg"},"metadata":{}}
"#,
    },
    ScriptCase {
        name: "what faults echoes nothing, and buffers alone are echoed",
        comms: MAX_COMMS,
        script: br#"{"call":"register","kind":"widget_echo","name":"jupyter.widget"}
{"header":{"msg_type":"comm_open"},"content":{"comm_id":"a","target_name":"jupyter.widget","data":{"state":{"k":1}}},"metadata":{"version":"2.0.0"}}
{"header":{"msg_type":"comm_msg"},"content":{"comm_id":"a","data":{"method":"update","state":{},"buffer_paths":[["x"],["y"]]}},"buffers":["AQI="]}
{"header":{"msg_type":"comm_msg"},"content":{"comm_id":"a","data":{"method":"update","state":{},"buffer_paths":[["x"]]}},"buffers":["AQI=","/w=="]}
{"call":"state","id":"a"}
"#,
        answers: br#"reply 1 registered
reply 2 opened
reply 3 fault buffer_missing 1
reply 4 delivered
out {"buffers":["AQI="],"call":4,"client":0,"content":{"comm_id":"a","data":{"buffer_paths":[["x"]],"method":"echo_update","state":{}}},"header":{"msg_type":"comm_msg"},"metadata":{}}
state 4 {"buffer_paths":[["x"]],"buffers":["AQI="],"state":{"k":1}}
"#,
    },
    ScriptCase {
        name: "what was placed last at a path is echoed",
        comms: MAX_COMMS,
        script: br#"{"call":"register","kind":"widget_echo","name":"jupyter.widget"}
{"header":{"msg_type":"comm_open"},"content":{"comm_id":"a","target_name":"jupyter.widget","data":{"state":{"k":1}}},"metadata":{"version":"2.0.0"}}
{"header":{"msg_type":"comm_msg"},"content":{"comm_id":"a","data":{"method":"update","state":{},"buffer_paths":[["x"],["x"]]}},"buffers":["AQI=","/w=="]}
{"header":{"msg_type":"comm_msg"},"content":{"comm_id":"a","data":{"method":"update","state":{},"buffer_paths":[[]]}},"buffers":["AQI="]}
{"header":{"msg_type":"comm_msg"},"content":{"comm_id":"a","data":{"method":"update","state":{"l":[null]},"buffer_paths":[["l",1]]}},"buffers":["AQI="]}
{"header":{"msg_type":"comm_msg"},"content":{"comm_id":"a","data":{"method":"update","state":{},"buffer_paths":[["p"],["p","q"]]}},"buffers":["AQI=","/w=="]}
{"call":"state","id":"a"}
"#,
        answers: br#"reply 1 registered
reply 2 opened
reply 3 delivered
out {"buffers":["/w=="],"call":3,"client":0,"content":{"comm_id":"a","data":{"buffer_paths":[["x"]],"method":"echo_update","state":{}}},"header":{"msg_type":"comm_msg"},"metadata":{}}
reply 4 fault bad_path 0
reply 5 fault bad_path 0
reply 6 fault bad_path 1
state 6 {"buffer_paths":[["x"]],"buffers":["/w=="],"state":{"k":1}}
"#,
    },
    ScriptCase {
        name: "numbers are whole where widgets echo",
        comms: MAX_COMMS,
        script: br#"{"call":"register","kind":"widget_echo","name":"jupyter.widget"}
{"header":{"msg_type":"comm_open"},"content":{"comm_id":"a","target_name":"jupyter.widget","data":{"state":{"v":1.5}}},"metadata":{"version":"2.0.0"}}
{"header":{"msg_type":"comm_open"},"content":{"comm_id":"a","target_name":"jupyter.widget","data":{"state":{"v":18446744073709551615}}},"metadata":{"version":"2.0.0"}}
{"call":"state","id":"a"}
"#,
        answers: br#"reply 1 registered
bad 2 not_whole
reply 2 opened
state 2 {"buffer_paths":[],"buffers":[],"state":{"v":18446744073709551615}}
"#,
    },
    ScriptCase {
        name: "methods of widgets that echo",
        comms: MAX_COMMS,
        script: br#"{"call":"register","kind":"widget_echo","name":"jupyter.widget"}
{"header":{"msg_type":"comm_open"},"content":{"comm_id":"a","target_name":"jupyter.widget","data":{"state":{"k":1}}},"metadata":{"version":"2.0.0"}}
{"header":{"msg_type":"comm_msg"},"content":{"comm_id":"a","data":{"method":"update"}}}
{"header":{"msg_type":"comm_msg"},"content":{"comm_id":"a","data":{"method":"custom"}}}
{"header":{"msg_type":"comm_msg"},"content":{"comm_id":"a","data":{"method":"zap"}}}
{"header":{"msg_type":"comm_msg"},"content":{"comm_id":"a","data":{}}}
{"header":{"msg_type":"comm_msg"},"content":{"comm_id":"a","data":{"method":"custom","content":{"go":true}}},"buffers":["AQI="]}
{"header":{"msg_type":"comm_info_request"}}
"#,
        answers: br#"reply 1 registered
reply 2 opened
reply 3 delivered
reply 4 delivered
reply 5 fault unknown_method
reply 6 fault no_method
reply 7 custom {"buffers":["AQI="],"content":{"go":true}}
out {"buffers":[],"client":0,"content":{"comms":{"a":{"target_name":"jupyter.widget"}},"status":"ok"},"front":7,"header":{"msg_type":"comm_info_reply"},"metadata":{}}
"#,
    },
    ScriptCase {
        name: "hostile paths echo nothing",
        comms: MAX_COMMS,
        script: br#"{"call":"register","kind":"widget_echo","name":"jupyter.widget"}
{"header":{"msg_type":"comm_open"},"content":{"comm_id":"a","target_name":"jupyter.widget","data":{"state":{"k":1}}},"metadata":{"version":"2.0.0"}}
{"header":{"msg_type":"comm_msg"},"content":{"comm_id":"a","data":{"method":"update","state":{"l":[null]},"buffer_paths":[["l",18446744073709551615]]}},"buffers":["AQI="]}
{"header":{"msg_type":"comm_msg"},"content":{"comm_id":"a","data":{"method":"update","state":{"l":[null]},"buffer_paths":[["l",-1]]}},"buffers":["AQI="]}
{"header":{"msg_type":"comm_msg"},"content":{"comm_id":"a","data":{"method":"update","state":{"l":[null]},"buffer_paths":7}},"buffers":["AQI="]}
{"header":{"msg_type":"comm_msg"},"content":{"comm_id":"a","data":{"method":"update","state":{"l":[null]},"buffer_paths":[["x"],7]}},"buffers":[]}
{"header":{"msg_type":"comm_msg"},"content":{"comm_id":"a","data":{"method":"update","state":{"l":[null]},"buffer_paths":[["x"],["y"]]}},"buffers":[]}
{"client":-1,"header":{"msg_type":"comm_msg"}}
{"header":{"msg_type":"comm_msg"},"content":{"comm_id":"a","data":{"method":"custom","content":[[[[[[[[[[[[[[[[[[[[[[[[[[[[[[[[[[[[[[[[[[[[[[[[[[[[[[[[[[[[[[[[[[[[[[[[[[[[[[[[[[[[[[[[[[[[[[[[[[[[]]]]]]]]]]]]]]]]]]]]]]]]]]]]]]]]]]]]]]]]]]]]]]]]]]]]]]]]]]]]]]]]]]]]]]]]]]]]]]]]]]]]]]]]]]]]]]]]]]]]}}}
{"call":"state","id":"a"}
"#,
        answers: br#"reply 1 registered
reply 2 opened
reply 3 fault bad_path 0
reply 4 fault bad_path 0
reply 5 fault bad_path 0
reply 6 fault bad_path 1
reply 7 fault buffer_missing 0
bad 8 bad_client
reply 8 custom {"buffers":[],"content":[[[[[[[[[[[[[[[[[[[[[[[[[[[[[[[[[[[[[[[[[[[[[[[[[[[[[[[[[[[[[[[[[[[[[[[[[[[[[[[[[[[[[[[[[[[[[[[[[[[[]]]]]]]]]]]]]]]]]]]]]]]]]]]]]]]]]]]]]]]]]]]]]]]]]]]]]]]]]]]]]]]]]]]]]]]]]]]]]]]]]]]]]]]]]]]]]]]]]]]]}
state 8 {"buffer_paths":[],"buffers":[],"state":{"k":1}}
"#,
    },
    ScriptCase {
        name: "launch, push and hang up, where widgets echo",
        comms: MAX_COMMS,
        script: br#"{"call":"register","kind":"widget_echo","name":"jupyter.widget"}
{"call":"launch","name":"jupyter.widget","uuid":"67e5504410b1426f9247bb680e5fe0c8","state":{"value":1}}
{"call":"push","id":"67e55044-10b1-426f-9247-bb680e5fe0c8","state":{"value":5}}
{"call":"push","id":"67e55044-10b1-426f-9247-bb680e5fe0c8","state":{}}
{"call":"send","id":"67e55044-10b1-426f-9247-bb680e5fe0c8","data":{"method":"echo_update","state":{}}}
{"call":"hang_up","id":"67e55044-10b1-426f-9247-bb680e5fe0c8"}
{"call":"push","id":"67e55044-10b1-426f-9247-bb680e5fe0c8","state":{"value":5}}
{"call":"register","kind":"widget_echo","name":"other"}
{"call":"register","kind":"widget_echo","name":"third"}
{"call":"launch","name":"third","uuid":"67e5504410b1426f9247bb680e5fe0c8","state":{"value":1}}
"#,
        answers: br#"reply 1 registered
reply 2 launched
out {"buffers":[],"call":2,"client":0,"content":{"comm_id":"67e55044-10b1-426f-9247-bb680e5fe0c8","data":{"buffer_paths":[],"state":{"value":1}},"target_name":"jupyter.widget"},"header":{"msg_type":"comm_open"},"metadata":{"version":"2.1.0"}}
reply 3 delivered
out {"buffers":[],"call":3,"client":0,"content":{"comm_id":"67e55044-10b1-426f-9247-bb680e5fe0c8","data":{"buffer_paths":[],"method":"update","state":{"value":5}}},"header":{"msg_type":"comm_msg"},"metadata":{}}
reply 4 delivered
out {"buffers":[],"call":4,"client":0,"content":{"comm_id":"67e55044-10b1-426f-9247-bb680e5fe0c8","data":{"buffer_paths":[],"method":"update","state":{}}},"header":{"msg_type":"comm_msg"},"metadata":{}}
reply 5 delivered
out {"buffers":[],"call":5,"client":0,"content":{"comm_id":"67e55044-10b1-426f-9247-bb680e5fe0c8","data":{"method":"echo_update","state":{}}},"header":{"msg_type":"comm_msg"},"metadata":{}}
reply 6 closed
out {"buffers":[],"call":6,"client":0,"content":{"comm_id":"67e55044-10b1-426f-9247-bb680e5fe0c8","data":{}},"header":{"msg_type":"comm_close"},"metadata":{}}
reply 7 no_comm
reply 8 registered
bad 9 no_stock
reply 9 no_target
"#,
    },
];
