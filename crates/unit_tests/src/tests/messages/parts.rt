//! Messages by their parts: three JSON texts, and buffers as bytes.
use super::append_read;
use super::at_once::append_found;
use bumpalo::Bump;
use comm_messages::{IncomingParts, PartsScratch, RawBuffers, message_by_parts};
use comm_reader::parts_at_once;
use comm_value::{KnownTexts, Numbers};
use std::alloc::Global;
use std::test::Fail;
use test_harness::{Case, Subject, TestFault, run_cases, split_word};

/// Reads a message of one of 4 clients from a line of its parts: the client, the header, the metadata and the content,
/// which are JSON without a space, and a word of letters for each buffer. Any number is a value.
#[derive(Drop)]
struct MessagesByParts {
    at_once: bool,
}

fn parts_of<'a>(
    client: u32,
    header: &'a str,
    metadata: &'a str,
    content: &'a str,
    buffers: RawBuffers<'a>,
) -> IncomingParts<'a> {
    IncomingParts {
        client,
        header: header.as_bytes(),
        metadata: metadata.as_bytes(),
        content: content.as_bytes(),
        buffers,
    }
}

impl Subject for MessagesByParts {
    fn answer(&self, alloc: Global, line: &str, text: &mut Vec<u8>) -> Result<(), TestFault> {
        let (client, line) = split_word(line);
        let (header, line) = split_word(line);
        let (metadata, line) = split_word(line);
        let (content, words) = split_word(line);
        let Ok(client) = client.parse::<u32>() else {
            return Err(TestFault("the client isn't a number"));
        };
        let mut buffers = Vec::new(alloc);
        let mut sizes = Vec::new(alloc);
        if !words.is_empty() {
            for word in words.split(' ') {
                buffers.extend_from_slice(word.as_bytes())?;
                sizes.push(word.len())?;
            }
        }
        let joined = RawBuffers::Joined {
            bytes: &buffers,
            sizes: &sizes,
        };
        let parts = parts_of(client, header, metadata, content, joined);
        let mut scratch = PartsScratch::new(alloc);
        if self.at_once {
            let lists = Bump::new(alloc);
            let mut texts = KnownTexts::new(alloc);
            let found = parts_at_once(
                alloc,
                parts,
                4,
                Numbers::Any,
                &mut scratch,
                &lists,
                &mut texts,
            );
            return append_found(alloc, found, text);
        }
        let read = message_by_parts(alloc, parts, 4, Numbers::Any, &mut scratch);
        append_read(alloc, read, text)
    }
}

const READ: [Case; 1] = [Case {
    name: "each type of message is read, with its buffers as they are",
    lines: r#"3 {"msg_type":"comm_open"} {"version":"2.1.0"} {"comm_id":"\u0061","target_name":"t\n","data":{"b":"\"","a":[]}} ab c
0 {"msg_type":"comm_msg"} {} {"comm_id":"a","data":{"y":[-0,1.50],"x":1}} abc
0 {"msg_type":"comm_msg"} {} {"comm_id":"a"}
1 {"msg_type":"comm_close"} {} {"comm_id":"a"} a
2 {"msg_type":"comm_info_request"} {} {}"#,
    want: r#"3 open a t
 2.1.0 {"a":[],"b":"\""} 6162 63
0 msg a {"x":1,"y":[-0,1.50]} 616263
0 msg a {}
1 close a
2 info -
"#,
}];

const OTHERS: [Case; 2] = [
    Case {
        name: "metadata may be null",
        lines: r#"0 {"msg_type":"comm_msg"} null {"comm_id":"a"}"#,
        want: "0 msg a {}\n",
    },
    Case {
        name: "texts that aren't JSON, and then the first test that fails",
        lines: r#"4 {"msg_type":"comm_msg" {} {}
4 {} {}} {}
4 {} {} {},"client":0
4 {} {} {"x":1e400}
4 {} [] 1
0 {} [] 1
0 {"msg_type":"comm_msg"} [] 1
0 {"msg_type":"comm_msg"} [] {"comm_id":"a"}"#,
        want: "the line is not a JSON object
the line is not a JSON object
the line is not a JSON object
the line is not a JSON object
`client` is not a whole number below the number of clients
`header` has no text `msg_type`
`content` is not an object
`metadata` is not an object
",
    },
];

#[test]
fn messages_are_read_by_their_parts(rt: HostRuntime) -> Result<(), Fail> {
    let tested = MessagesByParts { at_once: false };
    run_cases(&rt, rt.alloc(), &tested, &READ)?;
    Ok(run_cases(&rt, rt.alloc(), &tested, &OTHERS)?)
}

#[test]
fn messages_by_their_parts_are_read_at_once(rt: HostRuntime) -> Result<(), Fail> {
    let tested = MessagesByParts { at_once: true };
    Ok(run_cases(&rt, rt.alloc(), &tested, &READ)?)
}
