//! Values: paths, buffers in states, merges, copies and texts.
use comm_value::{
    Buffers, Bytes, Dict, Path, Text, Val, ValueFault, Whole, merge, paths_of, paths_val, put_all,
    write_text,
};
use serde_json::Value;
use std::alloc::{AllocError, Global};
use std::test::Fail;
use test_harness::{
    Case, Subject, TestFault, append_buffers, append_state, append_words, buffers_of, dict_of,
    expect_text, holds, run_cases, split_word,
};

mod decimals;
mod large;

fn value_of(alloc: Global, json: &str) -> Result<Val, ValueFault> {
    let Ok(json) = Value::from_str(alloc, json) else {
        return Err(ValueFault::Memory);
    };
    let value = Val::from_json(alloc, &json);
    drop(json);
    value
}

// The text of a value without bytes, which is the one of `serde_json`'s value.
fn append_value(alloc: Global, value: &Val, text: &mut Vec<u8>) -> Result<(), TestFault> {
    if value.has_bytes() {
        return Ok(append_words(&["bytes"], text)?);
    }
    let from = text.len();
    value.write_json(text)?;
    let json = value.to_json(alloc)?;
    let written = json.to_string(alloc);
    drop(json);
    let written = written?;
    holds(
        &text[from..] == written.as_bytes(),
        "serde_json writes another text",
    )
}

fn append_fault(alloc: Global, fault: ValueFault, text: &mut Vec<u8>) -> Result<(), AllocError> {
    text.extend_from_slice(format!(in alloc; "{fault:?}")?.as_bytes())
}

// A copy of a value, which is let go first.
fn append_copy(
    alloc: Global,
    value: Result<Val, ValueFault>,
    text: &mut Vec<u8>,
) -> Result<(), TestFault> {
    let value = match value {
        Ok(value) => value,
        Err(fault) => return Ok(append_fault(alloc, fault, text)?),
    };
    let copy = value.copy();
    drop(value);
    let copy = copy?;
    let done = append_value(alloc, &copy, text);
    drop(copy);
    done
}

// The paths that a value lists, or none, by copies of them.
fn paths_in(alloc: Global, json: &str) -> Result<Vec<Path>, ValueFault> {
    if json.is_empty() {
        return paths_of(alloc, None);
    }
    let value = value_of(alloc, json)?;
    let paths = paths_of(alloc, Some(&value));
    drop(value);
    let mut copies = Vec::new(alloc);
    for path in paths? {
        copies.push(Path::copy_of(alloc, path.as_slice())?)?;
    }
    Ok(copies)
}

fn append_paths(alloc: Global, json: &str, text: &mut Vec<u8>) -> Result<(), TestFault> {
    match paths_in(alloc, json) {
        Ok(paths) => append_copy(alloc, Ok(paths_val(alloc, &paths)?), text),
        Err(fault) => Ok(append_fault(alloc, fault, text)?),
    }
}

// A state with these buffers at these paths, taken apart again, or the fault.
fn append_placed(alloc: Global, words: &str, text: &mut Vec<u8>) -> Result<(), TestFault> {
    let (json, words) = split_word(words);
    let (paths, words) = split_word(words);
    let buffers = buffers_of(alloc, words)?;
    let paths = paths_in(alloc, paths)?;
    let state = dict_of(alloc, json)?;
    match put_all(alloc, state, &paths, buffers) {
        Ok(placed) => {
            let done = append_state(alloc, &placed, text);
            drop(placed);
            Ok(done?)
        }
        Err(fault) => Ok(append_fault(alloc, fault, text)?),
    }
}

// How many keys a dict has, and it.
fn append_dict(alloc: Global, dict: &Dict, text: &mut Vec<u8>) -> Result<(), TestFault> {
    let len = dict.len();
    let (is_empty, has_bytes) = (dict.is_empty(), dict.has_bytes());
    holds(is_empty == (len == 0), "an empty dict has keys")?;
    let head = format!(in alloc; " {len} {has_bytes}")?;
    text.extend_from_slice(head.as_bytes())?;
    Ok(append_state(alloc, dict, text)?)
}

// A state, what an update makes of it, and the state as it still is.
fn append_merged(alloc: Global, words: &str, text: &mut Vec<u8>) -> Result<(), TestFault> {
    let (state, update) = split_word(words);
    let state = dict_of(alloc, state)?;
    let merged = merge(alloc, state.copy()?, dict_of(alloc, update)?)?;
    append_dict(alloc, &merged, text)?;
    append_dict(alloc, &state, text)
}

// A dict with bytes at a key, and a copy that was made before.
fn append_inserted(alloc: Global, words: &str, text: &mut Vec<u8>) -> Result<(), TestFault> {
    let (json, words) = split_word(words);
    let (key, bytes) = split_word(words);
    let Ok(bytes) = hex::decode(alloc, bytes) else {
        return Err(TestFault("no hexadecimal digits"));
    };
    let bytes = Bytes::new(alloc, bytes)?;
    let key = Text::new(alloc, String::from_str(alloc, key)?)?;
    let kept = dict_of(alloc, json)?;
    let dict = kept.copy()?.insert(alloc, key, Val::Bytes(bytes))?;
    append_dict(alloc, &dict, text)?;
    append_dict(alloc, &kept, text)
}

// Whether a copy of a text is it, and isn't another.
fn append_is(alloc: Global, words: &str, text: &mut Vec<u8>) -> Result<(), TestFault> {
    let (word, other) = split_word(words);
    let from = Text::copy_of(alloc, word)?;
    let copy = from.copy()?;
    drop(from);
    let line = format!(in alloc; "{} {}", copy.is(word), copy.is(other))?;
    Ok(text.extend_from_slice(line.as_bytes())?)
}

// A number, where it is whole.
fn append_whole(alloc: Global, digits: &str, text: &mut Vec<u8>) -> Result<(), TestFault> {
    let Ok(number) = digits.parse::<i128>() else {
        return Err(TestFault("no number"));
    };
    match Whole::new(number) {
        Some(whole) => {
            let number = whole.get();
            Ok(text.extend_from_slice(format!(in alloc; "{number}")?.as_bytes())?)
        }
        None => Ok(append_words(&["not whole"], text)?),
    }
}

// A copy of the last buffer.
fn append_last(alloc: Global, buffers: &Buffers, text: &mut Vec<u8>) -> Result<(), AllocError> {
    let Some(last) = buffers.as_slice().last() else {
        return append_words(&[" none"], text);
    };
    let digits = hex::encode(alloc, last.copy()?.as_slice())?;
    append_words(&[" last", digits.as_str()], text)
}

// A copy of buffers, which are let go first.
fn append_buffers_copy(alloc: Global, words: &str, text: &mut Vec<u8>) -> Result<(), TestFault> {
    let all = buffers_of(alloc, words)?;
    let copy = all.copy(alloc);
    drop(all);
    let copy = copy?;
    append_buffers(alloc, &copy, text)?;
    Ok(append_last(alloc, &copy, text)?)
}

// The JSON text of the text of these bytes.
fn append_quoted(alloc: Global, word: &str, text: &mut Vec<u8>) -> Result<(), TestFault> {
    let Ok(bytes) = hex::decode(alloc, word) else {
        return Err(TestFault("no hexadecimal digits"));
    };
    match std::str::from_utf8(&bytes) {
        Ok(of) => Ok(write_text(of, text)?),
        Err(_) => Err(TestFault("no text")),
    }
}

/// Reads `value JSON`, `paths JSON` (nothing for none), `placed STATE PATHS BUFFER..`, `merged STATE UPDATE`,
/// `inserted DICT KEY BYTES`, `is TEXT OTHER`, `whole NUMBER`, `buffers BUFFER..` and `quoted HEX`.
struct Values;

impl Subject for Values {
    fn answer(&self, alloc: Global, line: &str, text: &mut Vec<u8>) -> Result<(), TestFault> {
        let (kind, words) = split_word(line);
        let done = if kind == "value" {
            append_copy(alloc, value_of(alloc, words), text)
        } else if kind == "paths" {
            append_paths(alloc, words, text)
        } else if kind == "placed" {
            append_placed(alloc, words, text)
        } else if kind == "merged" {
            append_merged(alloc, words, text)
        } else if kind == "inserted" {
            append_inserted(alloc, words, text)
        } else if kind == "is" {
            append_is(alloc, words, text)
        } else if kind == "whole" {
            append_whole(alloc, words, text)
        } else if kind == "buffers" {
            append_buffers_copy(alloc, words, text)
        } else {
            append_quoted(alloc, words, text)
        };
        done?;
        Ok(append_words(&["\n"], text)?)
    }
}

const VALUES: [Case; 9] = [
    Case {
        name: "buffers are placed in a state and separated from it",
        lines: r#"placed {"y":{"z":[null]}} [["x"],["y","z",0]] 0102 ff
placed {"k":1} [["x"]] 0102 ff
placed {} [["x"],["x"]] 0102 ff
placed {"b":{"k":1},"a":[[2],3]} [["b","x"],["a",0,0]] 07 08"#,
        want: r#" {"y":{"z":[null]}} [["x"],["y","z",0]] 0102 ff
 {"k":1} [["x"]] 0102
 {} [["x"]] ff
 {"a":[[null],3],"b":{"k":1}} [["a",0,0],["b","x"]] 08 07
"#,
    },
    Case {
        name: "paths without a place, or without a buffer, are refused",
        lines: r#"placed {} [[]] 0102
placed {"l":[null]} [["l",1]] 0102
placed {"l":[null]} [["l",18446744073709551615]] 0102
placed {} [["p"],["p","q"]] 0102 ff
placed {} [["x"],["y"]] 0102
placed {} [[]]"#,
        want: "BadPath(0)\nBadPath(0)\nBadPath(0)\nBadPath(1)\nBufferMissing(1)\nBufferMissing(0)\n",
    },
    Case {
        name: "paths are read and written",
        lines: r#"paths [["a",18446744073709551615],[],["0",0]]
paths null
paths
paths 7
paths [["l",-1]]
paths [["x"],7]
paths [["x"],[true]]
paths [["key",7]]"#,
        want: r#"[["a",18446744073709551615],[],["0",0]]
[]
[]
BadPath(0)
BadPath(0)
BadPath(1)
BadPath(1)
[["key",7]]
"#,
    },
    Case {
        name: "whole numbers alone are read",
        lines: r#"value [-9223372036854775808,0,18446744073709551615,{"a":[],"b":"text"},true,null]
value {"v":[18446744073709551615]}
value {"v":[1.5]}
value 1e2
value -0
value 18446744073709551616
value -9223372036854775809
whole 18446744073709551616
whole -5"#,
        want: r#"[-9223372036854775808,0,18446744073709551615,{"a":[],"b":"text"},true,null]
{"v":[18446744073709551615]}
NotWhole
NotWhole
NotWhole
NotWhole
NotWhole
not whole
-5
"#,
    },
    Case {
        name: "an update changes top-level keys, and leaves the state that it was made of",
        lines: r#"merged {"a":{"old":1},"b":2,"d":4} {"a":{"new":1},"c":3}
merged {} {}"#,
        want: r#" 4 false {"a":{"new":1},"b":2,"c":3,"d":4} [] 3 false {"a":{"old":1},"b":2,"d":4} []
 0 false {} [] 0 false {} []
"#,
    },
    Case {
        name: "bytes are let in at a key, and copies are left as they were",
        lines: r#"inserted {"b":true} a 0102"#,
        want: r#" 2 true {"b":true} [["a"]] 0102 1 false {"b":true} []
"#,
    },
    Case {
        name: "texts, short and long, and buffers are copied",
        lines: "is key other
is more_than_four_and_twenty_bytes more_than
is more_than_the_forty_bytes_of_a_short_text more_than
buffers 0102 ff
buffers",
        want: "true false\ntrue false\ntrue false\n 0102 ff last ff\n none\n",
    },
    Case {
        name: "JSON texts are written",
        lines: r#"value {"a":[-9223372036854775808,18446744073709551615,[],{}],"b":null,"c":[true,false],"d":""}
value {}"#,
        want: r#"{"a":[-9223372036854775808,18446744073709551615,[],{}],"b":null,"c":[true,false],"d":""}
{}
"#,
    },
    Case {
        name: "a text is quoted, each control by its escape",
        lines: "quoted 225c2f080c0a0d09011f7fe280a8c3a9",
        want: "\"\\\"\\\\/\\b\\f\\n\\r\\t\\u0001\\u001f\u{7f}\u{2028}é\"\n",
    },
];

#[test]
fn values_are_read_and_written(rt: HostRuntime) -> Result<(), Fail> {
    Ok(run_cases(&rt, rt.alloc(), &Values, &VALUES)?)
}
