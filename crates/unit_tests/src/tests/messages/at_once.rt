//! Messages, and the kernel's updates, that are read in one walk over their line.
use super::append_message;
use bumpalo::Bump;
use comm_json::TextScratch;
use comm_messages::Incoming;
use comm_reader::{message_at_once, push_at_once};
use comm_value::{KnownTexts, Numbers, Val};
use std::alloc::Global;
use std::test::Fail;
use test_harness::{Case, Subject, TestFault, append_words, run_cases, split_word};

fn found_in(alloc: Global, line: &[u8]) -> Option<(u8, Incoming)> {
    let mut scratch = TextScratch::new(alloc);
    let lists = Bump::new(alloc);
    let mut texts = KnownTexts::new(alloc);
    message_at_once(
        alloc,
        line,
        "call",
        4,
        Numbers::Whole,
        &mut scratch,
        &lists,
        &mut texts,
    )
}

/// The message in words, or `none`.
pub fn append_found(
    alloc: Global,
    found: Option<(u8, Incoming)>,
    out: &mut Vec<u8>,
) -> Result<(), TestFault> {
    match found {
        Some((client, message)) => {
            let done = append_message(alloc, client, &message, out);
            drop(message);
            done?;
        }
        None => append_words(&["none"], out)?,
    }
    Ok(append_words(&["\n"], out)?)
}

// Whether a message is read whose data has a list of so many items, or an object of so many members.
fn append_large(
    alloc: Global,
    word: &str,
    count: usize,
    out: &mut Vec<u8>,
) -> Result<(), TestFault> {
    let mut line = String::from_str(
        alloc,
        r#"{"header":{"msg_type":"comm_msg"},"content":{"comm_id":"a","data":{"x":"#,
    )?;
    line.push_str(if word == "items" { "[" } else { "{" })?;
    for n in 0..count {
        if n > 0 {
            line.push(',')?;
        }
        if word != "items" {
            line.push_str(&format!(in alloc; "\"{n}\":")?)?;
        }
        line.push('0')?;
    }
    line.push_str(if word == "items" { "]}}}" } else { "}}}}" })?;
    let answer = match found_in(alloc, line.as_bytes()) {
        Some((_, message)) => {
            drop(message);
            "read\n"
        }
        None => "none\n",
    };
    Ok(append_words(&[answer], out)?)
}

// The comm and the state of a push, or `none`.
fn append_push(alloc: Global, line: &[u8], out: &mut Vec<u8>) -> Result<(), TestFault> {
    let mut scratch = TextScratch::new(alloc);
    let mut texts = KnownTexts::new(alloc);
    match push_at_once(alloc, line, Numbers::Whole, &mut scratch, &mut texts) {
        Some((id, state)) => {
            append_words(&[id.as_str(), ""], out)?;
            let state = Val::Dict(state);
            let written = state.write_json(out);
            drop(state);
            written?;
        }
        None => append_words(&["none"], out)?,
    }
    Ok(append_words(&["\n"], out)?)
}

/// Reads `items N` as a message whose data has a list of so many items, `members N` as one with an object of so many
/// members, `line LINE` as a message, and `push LINE` as a push.
struct AtOnce;

impl Subject for AtOnce {
    fn answer(&self, alloc: Global, line: &str, text: &mut Vec<u8>) -> Result<(), TestFault> {
        let (word, rest) = split_word(line);
        if word == "line" {
            return append_found(alloc, found_in(alloc, rest.as_bytes()), text);
        }
        if word == "push" {
            return append_push(alloc, rest.as_bytes(), text);
        }
        match rest.parse::<usize>() {
            Ok(count) => append_large(alloc, word, count, text),
            Err(_) => Err(TestFault("no number")),
        }
    }
}

const ROWS: [Case; 8] = [
    Case {
        name: "a message is read, in whatever order its members stand",
        lines: r#"line {"header":{"msg_type":"comm_open"},"content":{"comm_id":"a","target_name":"t","data":{"x":1}},"metadata":{"version":"2.1.0"},"client":3,"buffers":["AQI="]}
line {"buffers":["AQI="],"content":{"data":{"y":[null,true,"\u0061"],"x":-1},"comm_id":"\u0061"},"header":{"msg_type":"comm_msg"}}
line {"content":{"comm_id":"a"},"header":{"msg_type":"comm_close","x":[1.5]}}
line {"header":{"msg_type":"comm_info_request"},"content":{"target_name":"t"},"metadata":{"version":"2.1.0","x":[]}}
line {"metadata":{},"header":{"msg_type":"comm_info_request"},"content":{"x":null}}"#,
        want: r#"3 open a t 2.1.0 {"x":1} 0102
0 msg a {"x":-1,"y":[null,true,"a"]} 0102
0 close a
0 info t
0 info -
"#,
    },
    Case {
        name: "of several members with one key the last stands",
        lines: r#"line {"header":{"msg_type":"comm_close"},"content":{"comm_id":"b","data":{"x":1},"comm_id":"a","data":{"y":1,"x":{"z":1},"y":2,"x":{}}},"header":{"msg_type":"comm_msg"}}
line {"client":3,"content":{"comm_id":"b","data":{"x":1}},"header":{"msg_type":"comm_msg"},"content":{"comm_id":"a"},"client":0}"#,
        want: r#"0 msg a {"x":{},"y":2}
0 msg a {}
"#,
    },
    Case {
        name: "what is no message, or has the member that may not be there, is left",
        lines: r#"line {"header":{"msg_type":"comm_msg"},"content":{"comm_id":"a"},"call":null}
line {"header":{"msg_type":"comm_msg"},"content":{"comm_id":"a"}} {}
line {"header":{"msg_type":"comm_msg"},"content":{"comm_id":"a"}
line {"header":{"msg_type":"comm_msg"},"content":{"comm_id":"a","data":{"x":1.5}}}
line {"header":{"msg_type":"comm_msg"},"content":{"comm_id":"a","data":[]}}
line {"header":{"msg_type":"comm_msg"},"content":{"comm_id":"a"},"x":1e400}
line {"header":{"msg_type":"comm_msg"},"content":{"comm_id":"a"},"client":4}
line {"header":{"msg_type":"comm_msg"},"content":{"comm_id":"a"},"metadata":[]}
line {"header":{"msg_type":"comm_msg"},"content":{"comm_id":"a"},"buffers":["A"]}
line {"header":{"msg_type":"comm_msg"},"content":{"comm_id":7}}
line {"header":{"msg_type":"status"},"content":{"comm_id":"a"}}
line []"#,
        want: "none\nnone\nnone\nnone\nnone\nnone\nnone\nnone\nnone\nnone\nnone\nnone\n",
    },
    Case {
        name: "what is null or absent and may be, and a version that is no text, is left too",
        lines: r#"line {"header":{"msg_type":"comm_info_request"}}
line {"header":{"msg_type":"comm_info_request"},"content":null}
line {"header":{"msg_type":"comm_info_request"},"content":{"target_name":null}}
line {"header":{"msg_type":"comm_msg"},"content":{"comm_id":"a","data":null}}
line {"header":{"msg_type":"comm_msg"},"content":{"comm_id":"a"},"metadata":null}
line {"header":{"msg_type":"comm_msg"},"content":{"comm_id":"a"},"metadata":{"version":2}}"#,
        want: "none\nnone\nnone\nnone\nnone\nnone\n",
    },
    Case {
        name: "any number of items is read so, and of members up to some thousand",
        lines: "items 64\nitems 10000\nmembers 64\nmembers 65\nmembers 1000\nmembers 5000",
        want: "read\nread\nread\nread\nread\nnone\n",
    },
    Case {
        name: "many members in falling order, the first key once more at the end",
        lines: r#"line {"header":{"msg_type":"comm_msg"},"content":{"comm_id":"a","data":{"zi":0,"zh":1,"zg":2,"zf":3,"ze":4,"zd":5,"zc":6,"zb":7,"za":8,"yi":9,"yh":10,"yg":11,"yf":12,"ye":13,"yd":14,"yc":15,"yb":16,"ya":17,"xi":18,"xh":19,"xg":20,"xf":21,"xe":22,"xd":23,"xc":24,"xb":25,"xa":26,"wi":27,"wh":28,"wg":29,"wf":30,"we":31,"wd":32,"wc":33,"wb":34,"wa":35,"vi":36,"vh":37,"vg":38,"vf":39,"ve":40,"vd":41,"vc":42,"vb":43,"va":44,"ui":45,"uh":46,"ug":47,"uf":48,"ue":49,"ud":50,"uc":51,"ub":52,"ua":53,"ti":54,"th":55,"tg":56,"tf":57,"te":58,"td":59,"tc":60,"tb":61,"ta":62,"si":63,"sh":64,"sg":65,"sf":66,"se":67,"sd":68,"sc":69,"sb":70,"sa":71,"zi":"last"}}}"#,
        want: r#"0 msg a {"sa":71,"sb":70,"sc":69,"sd":68,"se":67,"sf":66,"sg":65,"sh":64,"si":63,"ta":62,"tb":61,"tc":60,"td":59,"te":58,"tf":57,"tg":56,"th":55,"ti":54,"ua":53,"ub":52,"uc":51,"ud":50,"ue":49,"uf":48,"ug":47,"uh":46,"ui":45,"va":44,"vb":43,"vc":42,"vd":41,"ve":40,"vf":39,"vg":38,"vh":37,"vi":36,"wa":35,"wb":34,"wc":33,"wd":32,"we":31,"wf":30,"wg":29,"wh":28,"wi":27,"xa":26,"xb":25,"xc":24,"xd":23,"xe":22,"xf":21,"xg":20,"xh":19,"xi":18,"ya":17,"yb":16,"yc":15,"yd":14,"ye":13,"yf":12,"yg":11,"yh":10,"yi":9,"za":8,"zb":7,"zc":6,"zd":5,"ze":4,"zf":3,"zg":2,"zh":1,"zi":"last"}
"#,
    },
    Case {
        name: "a push without buffers is read, whatever its state holds",
        lines: r#"push {"call":"push","id":"a","state":{"value":1}}
push { "call" : "push" , "id" : "\u0061" , "state" : { "y" : [ { } , "\u00e9" ] , "x" : null , "y" : -1 } }
push {"call":"push","id":"","state":{}}"#,
        want: "a {\"value\":1}\na {\"x\":null,\"y\":-1}\n {}\n",
    },
    Case {
        name: "a push with more in it, in another order, or that is none, is left",
        lines: r#"push {"call":"push","id":"a","state":{"value":1},"buffer_paths":[]}
push {"call":"push","id":"a","state":{"value":1},"client":0}
push {"call":"push","state":{"value":1},"id":"a"}
push {"call":"push","id":"a","id":"a","state":{"value":1}}
push {"call":"push","id":"a","state":{"value":1},"state":{"value":2}}
push {"call":"push","id":"a","state":null}
push {"call":"push","id":"a","state":[]}
push {"call":"push","id":7,"state":{}}
push {"call":"push","id":"a"}
push {"call":"send","id":"a","state":{}}
push {"call":"push","id":"a","state":{"value":1.5}}
push {"call":"push","id":"a","state":{}} {}
push {"call":"push","id":"a","state":{}"#,
        want: "none\nnone\nnone\nnone\nnone\nnone\nnone\nnone\nnone\nnone\nnone\nnone\nnone\n",
    },
];

#[test]
fn messages_are_read_at_once(rt: HostRuntime) -> Result<(), Fail> {
    Ok(run_cases(&rt, rt.alloc(), &AtOnce, &ROWS)?)
}
