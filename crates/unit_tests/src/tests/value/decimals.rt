//! Numbers that aren't whole: which texts are such numbers (RFC 8259, 6), and what is done with values that have them.
use super::append_fault;
use comm_json::{JsonFault, JsonRef, ParseArena, read_line};
use comm_value::{Decimal, KnownTexts, Numbers, Path, Val, ValueFault, merge, paths_of, put_all};
use std::alloc::{AllocError, Global};
use std::test::Fail;
use test_harness::{
    Case, Subject, TestFault, append_state, append_words, buffers_of, dict_with, expect_text,
    run_cases, split_word,
};

const NOT_JSON: &str = "not json";

// The value of a line with these numbers, or why there is none.
fn value_in(alloc: Global, numbers: Numbers, line: &str) -> Result<Val, &'static str> {
    let mut arena = ParseArena::new(alloc);
    let json = match read_line(line.as_bytes(), &mut arena) {
        Ok(json) => json,
        Err(JsonFault::NotJson) => return Err(NOT_JSON),
        Err(JsonFault::Memory) => return Err("no memory"),
    };
    let mut texts = KnownTexts::new(alloc);
    match Val::from_ref(alloc, numbers, &mut texts, JsonRef::Borrowed(&json)) {
        Ok(value) => Ok(value),
        Err(ValueFault::NotWhole) => Err("not whole"),
        Err(_) => Err("no value"),
    }
}

fn append_value(value: &Val, text: &mut Vec<u8>) -> Result<(), AllocError> {
    match value {
        Val::Whole(_) => append_words(&["whole", ""], text)?,
        Val::Decimal(_) => append_words(&["decimal", ""], text)?,
        _ => (),
    }
    value.write_json(text)
}

// A copy of the value of a line, which is let go first.
fn append_read(
    alloc: Global,
    numbers: Numbers,
    line: &str,
    text: &mut Vec<u8>,
) -> Result<(), TestFault> {
    let value = match value_in(alloc, numbers, line) {
        Ok(value) => value,
        Err(why) => return Ok(append_words(&[why], text)?),
    };
    let copy = value.copy();
    drop(value);
    let copy = copy?;
    let done = append_value(&copy, text);
    drop(copy);
    Ok(done?)
}

// The number that a text is, if it's a decimal.
fn append_decimal(alloc: Global, number: &str, text: &mut Vec<u8>) -> Result<(), TestFault> {
    let Some(decimal) = Decimal::copy_of(alloc, number)? else {
        return Ok(append_words(&["none"], text)?);
    };
    let copy = decimal.copy();
    drop(decimal);
    let copy = copy?;
    let done = append_words(&["decimal", copy.as_str()], text);
    drop(copy);
    Ok(done?)
}

// A state, what an update makes of it, and what the state makes of that again.
fn append_merged(alloc: Global, words: &str, text: &mut Vec<u8>) -> Result<(), TestFault> {
    let (state, update) = split_word(words);
    let state = dict_with(alloc, Numbers::Any, state)?;
    let update = dict_with(alloc, Numbers::Any, update)?;
    let merged = merge(alloc, state.copy()?, update)?;
    append_state(alloc, &merged, text)?;
    let again = merge(alloc, merged, state)?;
    Ok(append_state(alloc, &again, text)?)
}

fn paths_in(alloc: Global, json: &str) -> Result<Vec<Path>, ValueFault> {
    let Ok(value) = value_in(alloc, Numbers::Any, json) else {
        return Err(ValueFault::Memory);
    };
    let paths = paths_of(alloc, Some(&value));
    drop(value);
    paths
}

// A state with these buffers at these paths, taken apart again, or the fault.
fn append_placed(alloc: Global, words: &str, text: &mut Vec<u8>) -> Result<(), TestFault> {
    let (json, words) = split_word(words);
    let (paths, words) = split_word(words);
    let buffers = buffers_of(alloc, words)?;
    let paths = match paths_in(alloc, paths) {
        Ok(paths) => paths,
        Err(fault) => return Ok(append_fault(alloc, fault, text)?),
    };
    let state = dict_with(alloc, Numbers::Any, json)?;
    match put_all(alloc, state, &paths, buffers) {
        Ok(placed) => {
            let done = append_state(alloc, &placed, text);
            drop(placed);
            Ok(done?)
        }
        Err(fault) => Ok(append_fault(alloc, fault, text)?),
    }
}

/// Reads `any JSON` and `whole JSON` as a line's value with these numbers, `decimal TEXT` as a number that isn't whole,
/// and with any number `merged STATE UPDATE` and `placed STATE PATHS BUFFER..`.
struct Decimals;

impl Subject for Decimals {
    fn answer(&self, alloc: Global, line: &str, text: &mut Vec<u8>) -> Result<(), TestFault> {
        let (kind, words) = split_word(line);
        let done = if kind == "any" {
            append_read(alloc, Numbers::Any, words, text)
        } else if kind == "whole" {
            append_read(alloc, Numbers::Whole, words, text)
        } else if kind == "decimal" {
            append_decimal(alloc, words, text)
        } else if kind == "merged" {
            append_merged(alloc, words, text)
        } else {
            append_placed(alloc, words, text)
        };
        done?;
        Ok(append_words(&["\n"], text)?)
    }
}

const DECIMALS: [Case; 8] = [
    Case {
        name: "numbers that aren't whole are kept as their texts",
        lines: "any -0
any 0e0
any 1E+2
any 1.0
any 1.00
any 1e0
any -1.5E-3
any 18446744073709551616
any -9223372036854775809
any 0.1",
        want: "decimal -0
decimal 0e0
decimal 1E+2
decimal 1.0
decimal 1.00
decimal 1e0
decimal -1.5E-3
decimal 18446744073709551616
decimal -9223372036854775809
decimal 0.1
",
    },
    Case {
        name: "whole numbers are none of them",
        lines: "any 0
any -1
any 18446744073709551615
any -9223372036854775808
decimal 0
decimal 18446744073709551615
decimal -9223372036854775808",
        want: "whole 0
whole -1
whole 18446744073709551615
whole -9223372036854775808
none
none
none
",
    },
    Case {
        name: "what isn't a JSON number is no JSON, and neither is one beyond a float's range",
        lines: "any 1.
any .5
any +1
any 01
any 1e
any 1e+
any --1
any -
any -01
any 0x1
any NaN
any Infinity
any 1.5.5
any 1e400
any -1e400",
        want: "not json
not json
not json
not json
not json
not json
not json
not json
not json
not json
not json
not json
not json
not json
not json
",
    },
    Case {
        name: "a decimal is made of no other text",
        lines: "decimal 1.5
decimal -0
decimal 18446744073709551616
decimal 1.
decimal .5
decimal +1
decimal 01
decimal 1e
decimal --1
decimal 1e400
decimal 1.5 2
decimal",
        want: "decimal 1.5
decimal -0
decimal 18446744073709551616
none
none
none
none
none
none
none
none
none
",
    },
    Case {
        name: "whole numbers alone are values unless any is asked for",
        lines: r#"whole 5
whole 1.5
whole -0
whole 1e2
whole 18446744073709551616
whole {"a":[1,{"b":1.5}]}
whole 1."#,
        want: "whole 5\nnot whole\nnot whole\nnot whole\nnot whole\nnot whole\nnot json\n",
    },
    Case {
        name: "decimals stand in lists and dicts",
        lines: r#"any [1.50,[-0,2,{"z":1e-7,"a":0.0}],"1.5",null]
any {"b":[1.0,1.00],"a":{"c":18446744073709551616}}"#,
        want: r#"[1.50,[-0,2,{"a":0.0,"z":1e-7}],"1.5",null]
{"a":{"c":18446744073709551616},"b":[1.0,1.00]}
"#,
    },
    Case {
        name: "decimals are merged over whole numbers, and whole numbers over decimals",
        lines: r#"merged {"a":1,"b":2.50} {"a":1.0}
merged {"a":1.0,"b":[0.5]} {"a":1.00,"c":-0}
merged {"a":1e0} {"a":1}"#,
        want: r#" {"a":1.0,"b":2.50} [] {"a":1,"b":2.50} []
 {"a":1.00,"b":[0.5],"c":-0} [] {"a":1.0,"b":[0.5],"c":-0} []
 {"a":1} [] {"a":1e0} []
"#,
    },
    Case {
        name: "buffers are placed beside decimals, and a decimal is no step of a path",
        lines: r#"placed {"l":[1.5,null,2]} [["l",1],["x"]] 0102 ff
placed {"l":[1.5,null]} [["l",1.0]] 0102
placed {"l":[1.5,null]} [["l",-0]] 0102
placed {"l":[1.5]} [["l",0]] 0102
placed {"d":1.5} [["d","x"]] 0102
placed {} [["x"],[1e0]] 0102 ff"#,
        want: r#" {"l":[1.5,null,2]} [["l",1],["x"]] 0102 ff
BadPath(0)
BadPath(0)
 {"l":[null]} [["l",0]] 0102
BadPath(0)
BadPath(1)
"#,
    },
];

#[test]
fn decimals_are_kept_as_their_texts(rt: HostRuntime) -> Result<(), Fail> {
    Ok(run_cases(&rt, rt.alloc(), &Decimals, &DECIMALS)?)
}

// A number of so many digits behind these characters.
fn long_number(alloc: Global, front: &str, digits: usize) -> Result<String, AllocError> {
    let mut number = String::from_str(alloc, front)?;
    for _ in 0..digits {
        number.push('7')?;
    }
    Ok(number)
}

fn append_long(alloc: Global, text: &mut Vec<u8>) -> Result<(), TestFault> {
    append_read(
        alloc,
        Numbers::Any,
        long_number(alloc, "0.", 10_000)?.as_str(),
        text,
    )?;
    text.push(b'\n')?;
    Ok(append_read(
        alloc,
        Numbers::Any,
        long_number(alloc, "", 10_000)?.as_str(),
        text,
    )?)
}

fn append_wanted(alloc: Global, text: &mut Vec<u8>) -> Result<(), AllocError> {
    let number = long_number(alloc, "0.", 10_000)?;
    let done = append_words(&["decimal", number.as_str()], text);
    drop(number);
    done?;
    append_words(&["\n"], text)?;
    append_words(&[NOT_JSON], text)
}

#[test]
fn a_number_of_ten_thousand_digits_is_kept(rt: HostRuntime) -> Result<(), Fail> {
    let alloc = rt.alloc();
    let mut text = Vec::new(alloc);
    let mut want = Vec::new(alloc);
    append_long(alloc, &mut text)?;
    append_wanted(alloc, &mut want)?;
    Ok(expect_text(&rt, "numbers of 10,000 digits", &text, &want)?)
}
