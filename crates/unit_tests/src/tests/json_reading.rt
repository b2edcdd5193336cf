//! Lines of JSON as they are read, and values of `serde_json` through the same door.
use comm_json::{
    JsonFault, JsonKind, JsonRef, ObjectRef, ParseArena, numbers_are_in_range, read_line,
};
use serde_json::Value;
use std::alloc::{AllocError, Global};
use std::test::Fail;
use test_harness::{
    Case, Subject, TestFault, append_words, expect_text, holds, run_cases, split_word,
};

// A whole number, the text of another, `?` where it has lost it, and `-` for what is no number.
fn append_number(
    alloc: Global,
    value: JsonRef<'_, '_>,
    text: &mut Vec<u8>,
) -> Result<(), AllocError> {
    let JsonKind::Number(number) = value.kind() else {
        return append_words(&["-"], text);
    };
    match number.whole() {
        Some(n) => text.extend_from_slice(format!(in alloc; "{n}")?.as_bytes()),
        None => {
            let of = number.other_text();
            append_words(&[if of.is_empty() { "?" } else { of }], text)
        }
    }
}

// A value, or how long a list is, and its items up to the first that it lacks.
fn append_value(
    alloc: Global,
    value: JsonRef<'_, '_>,
    text: &mut Vec<u8>,
) -> Result<(), AllocError> {
    let JsonKind::Items(items) = value.kind() else {
        return append_number(alloc, value, text);
    };
    let len = items.len();
    text.extend_from_slice(format!(in alloc; "{len}:")?.as_bytes())?;
    for index in 0..4 {
        if let Some(item) = items.get(index) {
            append_words(&["", ""], text)?;
            append_number(alloc, item, text)?;
        }
    }
    Ok(())
}

// The members of an object, in the order that it tells, or the one of this key.
fn append_members(
    alloc: Global,
    object: ObjectRef<'_, '_>,
    key: &str,
    text: &mut Vec<u8>,
) -> Result<(), TestFault> {
    if key != "*" {
        return match object.get(key) {
            Some(value) => Ok(append_value(alloc, value, text)?),
            None => Ok(append_words(&["none"], text)?),
        };
    }
    for member in object.in_order(alloc)?.as_slice() {
        append_words(&[member.0, ""], text)?;
        append_value(alloc, member.1, text)?;
        text.push(b';')?;
    }
    Ok(())
}

// The members of a line that is read as JSON, and as a value of `serde_json`, which are the same.
fn append_line(alloc: Global, line: &[u8], key: &str, text: &mut Vec<u8>) -> Result<(), TestFault> {
    let mut room = ParseArena::new(alloc);
    let value = match read_line(line, &mut room) {
        Ok(value) => value,
        Err(JsonFault::NotJson) => return Ok(append_words(&["not json\n"], text)?),
        Err(JsonFault::Memory) => return Err(TestFault("no memory")),
    };
    holds(numbers_are_in_range(&value), "a number is out of range")?;
    let JsonKind::Object(object) = JsonRef::Borrowed(&value).kind() else {
        return Err(TestFault("no object"));
    };
    append_members(alloc, object, key, text)?;
    text.push(b'\n')?;
    Ok(())
}

fn append_owned(alloc: Global, json: &str, key: &str, text: &mut Vec<u8>) -> Result<(), TestFault> {
    let Ok(value) = Value::from_str(alloc, json) else {
        return Err(TestFault("serde_json doesn't read it"));
    };
    let done = match &value {
        Value::Object(map) => append_members(alloc, ObjectRef::Owned(map), key, text),
        _ => Err(TestFault("no object")),
    };
    drop(value);
    text.push(b'\n')?;
    done
}

/// Reads `line KEY JSON` as a line, `owned KEY JSON` as `serde_json`'s value, of the key `*` as all members in order,
/// and `hex HEX` as a line of these bytes.
struct JsonLines;

impl Subject for JsonLines {
    fn answer(&self, alloc: Global, line: &str, text: &mut Vec<u8>) -> Result<(), TestFault> {
        let (word, rest) = split_word(line);
        let (key, json) = split_word(rest);
        if word == "line" {
            append_line(alloc, json.as_bytes(), key, text)
        } else if word == "owned" {
            append_owned(alloc, json, key, text)
        } else {
            match hex::decode(alloc, rest) {
                Ok(bytes) => append_line(alloc, &bytes, "*", text),
                Err(_) => Err(TestFault("no hexadecimal digits")),
            }
        }
    }
}

const LINES: [Case; 4] = [
    Case {
        name: "members are given in the order of their keys' bytes, and of a key that stands twice the last value",
        lines: r#"line * {}
line * {"a":1,"b":2}
line * {"b":2,"a":1,"c":3}
line * {"a":1,"é":2,"a":3,"Z":4}
line * {"\u0062":1,"b":2}
line * {"a":-1,"b":{},"c":1.5}"#,
        want: "\na 1;b 2;\na 1;b 2;c 3;\nZ 4;a 3;é 2;\nb 2;\na -1;b -;c 1.5;\n",
    },
    Case {
        name: "serde_json's values give the same members",
        lines: r#"owned * {}
owned * {"a":1,"b":2}
owned * {"b":2,"a":1,"c":3}
owned * {"a":1,"é":2,"a":3,"Z":4}
owned * {"\u0062":1,"b":2}
owned * {"a":-1,"b":{},"c":1.5}
owned l {"l":[7,true],"l":[8,false]}
owned m {"l":[7,true]}"#,
        want: "\na 1;b 2;\na 1;b 2;c 3;\nZ 4;a 3;é 2;\nb 2;\na -1;b -;c ?;\n2: 8 -\nnone\n",
    },
    Case {
        name: "a list tells its items, and an object the value at a key",
        lines: r#"line l {"l":[7,true],"l":[8,false]}
line m {"l":[7,true],"l":[8,false]}
line * {"l":[]}"#,
        want: "2: 8 -\nnone\nl 0:;\n",
    },
    Case {
        name: "no JSON: texts that RFC 8259 has not, what serde_json refuses besides, and bytes that are no text",
        lines: r#"line *
line * {
line * {} {}
line * {"a":1e400}
line * {"a":[1e400]}
line * {"a":01}
line * {"a":"\ud800"}
line * {'a':1}
line * {"a":1,}
hex 7b22ff223a317d"#,
        want: "not json\nnot json\nnot json\nnot json\nnot json\nnot json\nnot json\nnot json\nnot json\nnot json\n",
    },
];

#[test]
fn lines_of_json_give_their_members(rt: HostRuntime) -> Result<(), Fail> {
    Ok(run_cases(&rt, rt.alloc(), &JsonLines, &LINES)?)
}

// Keys that fall, more of them than are moved one by one.
fn falling_members(alloc: Global) -> Result<String, AllocError> {
    let mut line = String::from_str(alloc, "{")?;
    for n in (101..300u64).rev() {
        line.push_str(format!(in alloc; "\"k{n}\":{n},")?.as_str())?;
    }
    line.push_str("\"k100\":100}")?;
    Ok(line)
}

fn rising_members(alloc: Global) -> Result<String, AllocError> {
    let mut text = String::new(alloc);
    for n in 100..300u64 {
        text.push_str(format!(in alloc; "k{n} {n};")?.as_str())?;
    }
    text.push('\n')?;
    Ok(text)
}

#[test]
fn many_members_are_given_in_order(rt: HostRuntime) -> Result<(), Fail> {
    let alloc = rt.alloc();
    let line = falling_members(alloc)?;
    let mut text = Vec::new(alloc);
    append_line(alloc, line.as_bytes(), "*", &mut text)?;
    let want = rising_members(alloc)?;
    Ok(expect_text(
        &rt,
        "keys that fall are given in order",
        &text,
        want.as_bytes(),
    )?)
}
