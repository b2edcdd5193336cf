//! What frontends send, and what is answered.
use super::{MAX_COMMS, ScriptCase};

pub const ROWS: [ScriptCase; 13] = [
    ScriptCase {
        name: "an open towards nobody is refused with a close",
        comms: MAX_COMMS,
        script: br#"{"header":{"msg_type":"comm_open"},"content":{"comm_id":"a","target_name":"t","data":{}}}
"#,
        answers: br#"reply 1 refused no_target
out {"buffers":[],"call":1,"client":0,"content":{"comm_id":"a","data":{}},"header":{"msg_type":"comm_close"},"metadata":{}}
"#,
    },
    ScriptCase {
        name: "no comm is there to be told or closed",
        comms: MAX_COMMS,
        script: br#"{"header":{"msg_type":"comm_msg"},"content":{"comm_id":"q","data":{}}}
{"header":{"msg_type":"comm_close"},"content":{"comm_id":"q"}}
"#,
        answers: br#"reply 1 no_comm
reply 2 no_comm
"#,
    },
    ScriptCase {
        name: "nothing gives nothing",
        comms: MAX_COMMS,
        script: b"",
        answers: b"",
    },
    ScriptCase {
        name: "no comm is open",
        comms: MAX_COMMS,
        script: br#"{"header":{"msg_type":"comm_info_request"}}
"#,
        answers: br#"out {"buffers":[],"client":0,"content":{"comms":{},"status":"ok"},"front":0,"header":{"msg_type":"comm_info_reply"},"metadata":{}}
"#,
    },
    ScriptCase {
        name: "members stand in any order, and the last of those with one key counts",
        comms: MAX_COMMS,
        script: br#"{"name":"t","kind":"echo","call":"register"}
{"content":{"data":{},"target_name":"t","comm_id":"a"},"header":{"msg_type":"comm_open"}}
{"header":{"msg_type":"comm_close"},"content":{"data":{"n":1},"comm_id":"b","data":{"n":2,"m":3,"n":4},"comm_id":"a"},"header":{"msg_type":"comm_msg"}}
{"header":{"msg_type":"comm_msg"},"content":{"comm_id":"a","data":{"n":1}},"content":{"comm_id":"a"}}
{"header":{"msg_type":"comm_msg"},"content":{"comm_id":"a","data":{"n":1}},"id":"a","call":"hang_up"}
"#,
        answers: br#"reply 1 registered
reply 2 opened
reply 3 delivered
out {"buffers":[],"call":3,"client":0,"content":{"comm_id":"a","data":{"m":3,"n":4}},"header":{"msg_type":"comm_msg"},"metadata":{}}
reply 4 delivered
out {"buffers":[],"call":4,"client":0,"content":{"comm_id":"a","data":{}},"header":{"msg_type":"comm_msg"},"metadata":{}}
reply 5 closed
out {"buffers":[],"call":5,"client":0,"content":{"comm_id":"a","data":{}},"header":{"msg_type":"comm_close"},"metadata":{}}
"#,
    },
    ScriptCase {
        name: "an id in use is refused without a close",
        comms: MAX_COMMS,
        script: br#"{"call":"register","kind":"echo","name":"t"}
{"header":{"msg_type":"comm_open"},"content":{"comm_id":"a","target_name":"t","data":{}}}
{"header":{"msg_type":"comm_open"},"content":{"comm_id":"a","target_name":"nowhere","data":{}}}
{"header":{"msg_type":"comm_msg"},"content":{"comm_id":"a","data":{"n":1}}}
"#,
        answers: br#"reply 1 registered
reply 2 opened
reply 3 id_in_use
reply 4 delivered
out {"buffers":[],"call":4,"client":0,"content":{"comm_id":"a","data":{"n":1}},"header":{"msg_type":"comm_msg"},"metadata":{}}
"#,
    },
    ScriptCase {
        name: "one comm at most",
        comms: 1,
        script: br#"{"call":"register","kind":"echo","name":"t"}
{"header":{"msg_type":"comm_open"},"content":{"comm_id":"a","target_name":"t","data":{}}}
{"header":{"msg_type":"comm_open"},"content":{"comm_id":"b","target_name":"t","data":{}}}
{"header":{"msg_type":"comm_close"},"content":{"comm_id":"a"}}
{"header":{"msg_type":"comm_open"},"content":{"comm_id":"b","target_name":"t","data":{}}}
"#,
        answers: br#"reply 1 registered
reply 2 opened
reply 3 refused too_many_comms
out {"buffers":[],"call":3,"client":0,"content":{"comm_id":"b","data":{}},"header":{"msg_type":"comm_close"},"metadata":{}}
reply 4 closed
reply 5 opened
"#,
    },
    ScriptCase {
        name: "a counter counts the messages of all its comms",
        comms: MAX_COMMS,
        script: br#"{"call":"register","kind":"counter","name":"n"}
{"header":{"msg_type":"comm_open"},"content":{"comm_id":"a","target_name":"n","data":{}}}
{"header":{"msg_type":"comm_open"},"content":{"comm_id":"b","target_name":"n","data":{}}}
{"header":{"msg_type":"comm_msg"},"content":{"comm_id":"a","data":{}}}
{"header":{"msg_type":"comm_msg"},"content":{"comm_id":"b","data":{}}}
"#,
        answers: br#"reply 1 registered
reply 2 opened
reply 3 opened
reply 4 delivered
out {"buffers":[],"call":4,"client":0,"content":{"comm_id":"a","data":{"count":1}},"header":{"msg_type":"comm_msg"},"metadata":{}}
reply 5 delivered
out {"buffers":[],"call":5,"client":0,"content":{"comm_id":"b","data":{"count":2}},"header":{"msg_type":"comm_msg"},"metadata":{}}
"#,
    },
    ScriptCase {
        name: "the first test that fails names the fault",
        comms: MAX_COMMS,
        script: br#"{
{}
{"client":4,"header":{"msg_type":"comm_msg"}}
{"header":{"msg_type":"execute_request"}}
{"header":{"msg_type":"comm_msg"},"content":{"comm_id":7}}
{"header":{"msg_type":"comm_msg"},"content":{"comm_id":"a","data":{}},"buffers":["AQI"]}
{"call":"dance"}
"#,
        answers: br#"bad 1 not_json
bad 2 no_type
bad 3 bad_client
bad 4 unknown_type
bad 5 bad_content comm_id
bad 6 bad_buffer 0
bad 7 unknown_call
"#,
    },
    ScriptCase {
        name: "each client has its own numbers",
        comms: MAX_COMMS,
        script: br#"{"call":"register","kind":"echo","name":"t"}
{"header":{"msg_type":"comm_open"},"content":{"comm_id":"a","target_name":"t","data":{}},"client":1}
{"header":{"msg_type":"comm_msg"},"content":{"comm_id":"a","data":{"x":1}},"client":1}
"#,
        answers: br#"reply 1 registered
reply 2 opened
reply 3 delivered
out {"buffers":[],"call":2,"client":1,"content":{"comm_id":"a","data":{"x":1}},"header":{"msg_type":"comm_msg"},"metadata":{}}
"#,
    },
    ScriptCase {
        name: "a line that is cut",
        comms: MAX_COMMS,
        script: br#"{"header":{"msg_type":"comm_open"},"cont"#,
        answers: br#"bad 1 not_json
"#,
    },
    ScriptCase {
        name: "a list nested too deep",
        comms: MAX_COMMS,
        script: br#"{"header":{"msg_type":"comm_msg"},"content":{"comm_id":"a","data":{"l":[[[[[[[[[[[[[[[[[[[[[[[[[[[[[[[[[[[[[[[[[[[[[[[[[[[[[[[[[[[[[[[[[[[[[[[[[[[[[[[[[[[[[[[[[[[[[[[[[[[[[[[[[[[[[[[[[[[[[[[[[[[[[[[[[[[[[[[[[[[[[[[[[[[[[[[[[[[[[[[[[[[[[[[[[[[[[[[[[[[[[[[[[[[[[[[[[[[[[[[[]]]]]]]]]]]]]]]]]]]]]]]]]]]]]]]]]]]]]]]]]]]]]]]]]]]]]]]]]]]]]]]]]]]]]]]]]]]]]]]]]]]]]]]]]]]]]]]]]]]]]]]]]]]]]]]]]]]]]]]]]]]]]]]]]]]]]]]]]]]]]]]]]]]]]]]]]]]]]]]]]]]]]]]]]]]]]]]]]]]]]]]]]]]]]]]]]]]]]]]]}}}
"#,
        answers: br#"bad 1 not_json
"#,
    },
    ScriptCase {
        name: "blank lines count, and the last line needs no end",
        comms: MAX_COMMS,
        script: b"   \r\n\n{\"header\":{\"msg_type\":\"comm_close\"},\"content\":{\"comm_id\":\"q\"}}\n\xff\xfe\xfd\n\t\n[]\n{",
        answers: br#"reply 1 no_comm
bad 4 not_json
bad 6 not_json
bad 7 not_json
"#,
    },
];
