//! What is asked of a manager that has a target `w`, the comm `a`, and as many more comms of it as a case says.
use comm_targets::Kind;

/// A line, and what it is answered: the words of the reply, and the lines that go out with it.
pub struct LineCase {
    /// The kinds of the target.
    pub kinds: &'static [Kind],
    /// How many comms are open beside `a`.
    pub sizes: &'static [usize],
    pub line: &'static str,
    pub words: &'static str,
    pub outs: &'static str,
}

/// The data of an opening.
pub const OPENING_DATA: &str =
    r#"{"state":{"value":1,"other":[null,"text",{"k":2}]},"buffer_paths":[]}"#;

const WIDGETS: &[Kind] = &[Kind::Widget, Kind::WidgetEcho];

const ALONE: &[usize] = &[0];

const FIVE: &[usize] = &[5];

const FEW: &[usize] = &[0, 5];

// A table grows at some of them, and the readers' pieces at 64 comms.
const MANY: &[usize] = &[
    0, 1, 2, 3, 4, 5, 6, 7, 8, 9, 10, 11, 12, 13, 14, 15, 16, 62, 63, 64,
];

/// Changes of a widget.
pub const CHANGES: [LineCase; 15] = [
    LineCase {
        kinds: WIDGETS,
        sizes: MANY,
        line: r#"open b w 2.0.0 {"state":{"value":1,"other":[null,"text",{"k":2}]},"buffer_paths":[]}"#,
        words: "opened",
        outs: "",
    },
    LineCase {
        kinds: WIDGETS,
        sizes: FEW,
        line: r#"open b nowhere 2.0.0 {"state":{"value":1,"other":[null,"text",{"k":2}]},"buffer_paths":[]}"#,
        words: "refused no_target",
        outs: r#"out {"buffers":[],"call":1,"client":0,"content":{"comm_id":"b","data":{}},"header":{"msg_type":"comm_close"},"metadata":{}}
"#,
    },
    LineCase {
        kinds: &[Kind::Widget],
        sizes: FEW,
        line: r#"msg a {"method":"update","state":{"value":2,"more":[1]},"buffer_paths":[]}"#,
        words: "delivered",
        outs: "",
    },
    LineCase {
        kinds: &[Kind::WidgetEcho],
        sizes: FEW,
        line: r#"msg a {"method":"update","state":{"value":2,"more":[1]},"buffer_paths":[]}"#,
        words: "delivered",
        outs: r#"out {"buffers":[],"call":1,"client":0,"content":{"comm_id":"a","data":{"buffer_paths":[],"method":"echo_update","state":{"more":[1],"value":2}}},"header":{"msg_type":"comm_msg"},"metadata":{}}
"#,
    },
    LineCase {
        kinds: WIDGETS,
        sizes: FEW,
        line: r#"msg a {"method":"request_state"}"#,
        words: "delivered",
        outs: r#"out {"buffers":[],"call":1,"client":0,"content":{"comm_id":"a","data":{"buffer_paths":[],"method":"update","state":{"other":[null,"text",{"k":2}],"value":1}}},"header":{"msg_type":"comm_msg"},"metadata":{}}
"#,
    },
    LineCase {
        kinds: WIDGETS,
        sizes: FEW,
        line: r#"msg a {"method":"custom","content":{"go":[true,"on"]}}"#,
        words: r#"custom {"buffers":[],"content":{"go":[true,"on"]}}"#,
        outs: "",
    },
    LineCase {
        kinds: WIDGETS,
        sizes: FEW,
        line: r#"msg a {"n":1}"#,
        words: "fault no_method",
        outs: "",
    },
    LineCase {
        kinds: WIDGETS,
        sizes: FEW,
        line: "close a",
        words: "closed",
        outs: "",
    },
    LineCase {
        kinds: WIDGETS,
        sizes: FEW,
        line: "close q",
        words: "no_comm",
        outs: "",
    },
    LineCase {
        kinds: WIDGETS,
        sizes: ALONE,
        line: "unregister w",
        words: r#"unregistered ["a"]"#,
        outs: CLOSED_ALONE,
    },
    LineCase {
        kinds: WIDGETS,
        sizes: FIVE,
        line: "unregister w",
        words: r#"unregistered ["a","c0","c1","c2","c3","c4"]"#,
        outs: CLOSED_FIVE,
    },
    LineCase {
        kinds: WIDGETS,
        sizes: MANY,
        line: r#"launch 67e55044-10b1-426f-9247-bb680e5fe0c8 w {"value":1}"#,
        words: "launched",
        outs: r#"out {"buffers":[],"call":1,"client":0,"content":{"comm_id":"67e55044-10b1-426f-9247-bb680e5fe0c8","data":{"buffer_paths":[],"state":{"value":1}},"target_name":"w"},"header":{"msg_type":"comm_open"},"metadata":{"version":"2.1.0"}}
"#,
    },
    LineCase {
        kinds: WIDGETS,
        sizes: FEW,
        line: r#"push a {"value":3}"#,
        words: "delivered",
        outs: r#"out {"buffers":[],"call":1,"client":0,"content":{"comm_id":"a","data":{"buffer_paths":[],"method":"update","state":{"value":3}}},"header":{"msg_type":"comm_msg"},"metadata":{}}
"#,
    },
    LineCase {
        kinds: WIDGETS,
        sizes: FEW,
        line: r#"send a {"n":1}"#,
        words: "delivered",
        outs: SENT,
    },
    LineCase {
        kinds: WIDGETS,
        sizes: FEW,
        line: "hang_up a",
        words: "closed",
        outs: CLOSED_ALONE,
    },
];

const SENT: &str =
    r#"out {"buffers":[],"call":1,"client":0,"content":{"comm_id":"a","data":{"n":1}},"header":{"msg_type":"comm_msg"},"metadata":{}}
"#;

const CLOSED_ALONE: &str =
    r#"out {"buffers":[],"call":1,"client":0,"content":{"comm_id":"a","data":{}},"header":{"msg_type":"comm_close"},"metadata":{}}
"#;

const CLOSED_FIVE: &str =
    r#"out {"buffers":[],"call":1,"client":0,"content":{"comm_id":"a","data":{}},"header":{"msg_type":"comm_close"},"metadata":{}}
out {"buffers":[],"call":1,"client":0,"content":{"comm_id":"c0","data":{}},"header":{"msg_type":"comm_close"},"metadata":{}}
out {"buffers":[],"call":1,"client":0,"content":{"comm_id":"c1","data":{}},"header":{"msg_type":"comm_close"},"metadata":{}}
out {"buffers":[],"call":1,"client":0,"content":{"comm_id":"c2","data":{}},"header":{"msg_type":"comm_close"},"metadata":{}}
out {"buffers":[],"call":1,"client":0,"content":{"comm_id":"c3","data":{}},"header":{"msg_type":"comm_close"},"metadata":{}}
out {"buffers":[],"call":1,"client":0,"content":{"comm_id":"c4","data":{}},"header":{"msg_type":"comm_close"},"metadata":{}}
"#;

const OTHERS: &[Kind] = &[Kind::Echo, Kind::Counter];

/// Changes of targets other than widgets. A counter that was asked once answers 1, however often it was asked in vain.
pub const CHANGES_OF_OTHERS: [LineCase; 7] = [
    LineCase {
        kinds: OTHERS,
        sizes: MANY,
        line: r#"open b w 2.0.0 {"state":{"value":1,"other":[null,"text",{"k":2}]},"buffer_paths":[]}"#,
        words: "opened",
        outs: "",
    },
    LineCase {
        kinds: &[Kind::Echo],
        sizes: FEW,
        line: r#"msg a {"n":1}"#,
        words: "delivered",
        outs: SENT,
    },
    LineCase {
        kinds: &[Kind::Counter],
        sizes: FEW,
        line: r#"msg a {"n":1}"#,
        words: "delivered",
        outs: r#"out {"buffers":[],"call":1,"client":0,"content":{"comm_id":"a","data":{"count":1}},"header":{"msg_type":"comm_msg"},"metadata":{}}
"#,
    },
    LineCase {
        kinds: OTHERS,
        sizes: FEW,
        line: "close a",
        words: "closed",
        outs: "",
    },
    LineCase {
        kinds: OTHERS,
        sizes: ALONE,
        line: "unregister w",
        words: r#"unregistered ["a"]"#,
        outs: CLOSED_ALONE,
    },
    LineCase {
        kinds: OTHERS,
        sizes: FIVE,
        line: "unregister w",
        words: r#"unregistered ["a","c0","c1","c2","c3","c4"]"#,
        outs: CLOSED_FIVE,
    },
    LineCase {
        kinds: OTHERS,
        sizes: FEW,
        line: r#"send a {"n":1}"#,
        words: "delivered",
        outs: SENT,
    },
];

/// A target is registered under a new name.
pub const REGISTERS: [LineCase; 1] = [LineCase {
    kinds: WIDGETS,
    sizes: MANY,
    line: "register x",
    words: "registered",
    outs: "",
}];

/// A target is registered in the place of the one that has the comms, which are closed.
pub const REPLACEMENTS: [LineCase; 2] = [
    LineCase {
        kinds: WIDGETS,
        sizes: ALONE,
        line: "register w",
        words: r#"replaced ["a"]"#,
        outs: CLOSED_ALONE,
    },
    LineCase {
        kinds: WIDGETS,
        sizes: FIVE,
        line: "register w",
        words: r#"replaced ["a","c0","c1","c2","c3","c4"]"#,
        outs: CLOSED_FIVE,
    },
];

/// What the manager of one thread lists.
pub const LISTS: [LineCase; 6] = [
    LineCase {
        kinds: WIDGETS,
        sizes: ALONE,
        line: "infos",
        words: "comms 1",
        outs: "",
    },
    LineCase {
        kinds: WIDGETS,
        sizes: FIVE,
        line: "infos",
        words: "comms 6",
        outs: "",
    },
    LineCase {
        kinds: WIDGETS,
        sizes: ALONE,
        line: "infos w",
        words: "comms 1",
        outs: "",
    },
    LineCase {
        kinds: WIDGETS,
        sizes: FIVE,
        line: "infos w",
        words: "comms 6",
        outs: "",
    },
    LineCase {
        kinds: WIDGETS,
        sizes: ALONE,
        line: "listing",
        words: "comms 1",
        outs: "",
    },
    LineCase {
        kinds: WIDGETS,
        sizes: FIVE,
        line: "listing",
        words: "comms 6",
        outs: "",
    },
];

/// What a client reads: how many comms are listed.
pub const READS: [LineCase; 6] = [
    LineCase {
        kinds: WIDGETS,
        sizes: ALONE,
        line: "count",
        words: "comms 1",
        outs: "",
    },
    LineCase {
        kinds: WIDGETS,
        sizes: FIVE,
        line: "count",
        words: "comms 6",
        outs: "",
    },
    LineCase {
        kinds: WIDGETS,
        sizes: &[9],
        line: "count",
        words: "comms 10",
        outs: "",
    },
    LineCase {
        kinds: WIDGETS,
        sizes: ALONE,
        line: "count w",
        words: "comms 1",
        outs: "",
    },
    LineCase {
        kinds: WIDGETS,
        sizes: FIVE,
        line: "count w",
        words: "comms 6",
        outs: "",
    },
    LineCase {
        kinds: WIDGETS,
        sizes: &[9],
        line: "count w",
        words: "comms 10",
        outs: "",
    },
];

/// A state is read.
pub const STATES: [LineCase; 1] = [LineCase {
    kinds: WIDGETS,
    sizes: MANY,
    line: "state a",
    words: r#"{"buffer_paths":[],"buffers":[],"state":{"other":[null,"text",{"k":2}],"value":1}}"#,
    outs: "",
}];

/// A target that answers Memory of its own accord: each of the first three calls is unavailable, has no entry, and
/// leaves it as it was.
pub const RETRIES: [LineCase; 1] = [LineCase {
    kinds: &[Kind::Free],
    sizes: ALONE,
    line: "open b w - {\"memory\":true}\nopen b w - {\"memory\":true}\nopen b w - {\"memory\":true}\nopen b w -",
    words: "opened",
    outs: "",
}];

/// No line, with two comms open beside one.
pub const NOTHING: [LineCase; 1] = [LineCase {
    kinds: WIDGETS,
    sizes: &[2],
    line: "",
    words: "",
    outs: "",
}];
