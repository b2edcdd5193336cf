//! States of many keys.
use super::{append_value, dict_of};
use comm_value::{Dict, Text, Val, Whole, merge};
use std::alloc::Global;
use std::test::Fail;
use test_harness::{TestFault, append_words, expect_text, holds};

// The keys k000 to k199, let in from both ends.
fn two_hundred_keys(alloc: Global) -> Result<Dict, TestFault> {
    let mut state = Dict::new();
    for n in 0..200u32 {
        let at = if n % 2 == 0 { n } else { 200 - n };
        let key = format!(in alloc; "k{at:03}")?;
        let value = match Whole::new(i128::from(at)) {
            Some(whole) => Val::Whole(whole),
            None => Val::Null,
        };
        state = state.insert(alloc, Text::copy_of(alloc, key.as_str())?, value)?;
    }
    Ok(state)
}

// What stands at each of the keys k000 to k199.
fn append_all(alloc: Global, of: &Dict, text: &mut Vec<u8>) -> Result<(), TestFault> {
    for n in 0..200u32 {
        let key = format!(in alloc; "k{n:03}")?;
        match of.get(key.as_str()) {
            Some(value) => append_value(alloc, value, text)?,
            None => append_words(&["none"], text)?,
        }
        text.push(b'\n')?;
    }
    Ok(())
}

// The numbers 0 to 199, a line each, but for what stands for 100.
fn append_numbers(alloc: Global, hundred: &str, text: &mut Vec<u8>) -> Result<(), TestFault> {
    for n in 0..200u32 {
        let line = format!(in alloc; "{n}\n")?;
        text.extend_from_slice(if n == 100 { hundred } else { line.as_str() }.as_bytes())?;
    }
    Ok(())
}

// The states before and after an update, key by key; whether the one after is as wanted elsewhere.
fn append_states(
    alloc: Global,
    before: &Dict,
    after: &Dict,
    text: &mut Vec<u8>,
) -> Result<bool, TestFault> {
    append_all(alloc, before, text)?;
    append_all(alloc, after, text)?;
    let mut json = Vec::new(alloc);
    after.write_json(&mut json)?;
    let text = String::from_utf8_lossy(alloc, &json)?;
    Ok(
        before.len() == 200
            && before.get("k1005").is_none()
            && after.len() == 203
            && text.starts_with("{\"a\":1,\"k000\":0,\"k001\":1,")
            && text.contains("\"k099\":99,\"k100\":[2],\"k1005\":3,\"k101\":101,")
            && text.ends_with(",\"k199\":199,\"z\":4}"),
    )
}

fn append_updated(alloc: Global, text: &mut Vec<u8>) -> Result<bool, TestFault> {
    let update = dict_of(alloc, "{\"a\":1,\"k100\":[2],\"k1005\":3,\"z\":4}")?;
    let before = two_hundred_keys(alloc)?;
    let after = merge(alloc, before.copy()?, update)?;
    let is = append_states(alloc, &before, &after, text);
    drop(before);
    drop(after);
    is
}

fn append_wanted(alloc: Global, text: &mut Vec<u8>) -> Result<(), TestFault> {
    append_numbers(alloc, "100\n", text)?;
    append_numbers(alloc, "[2]\n", text)
}

#[test]
fn states_of_many_keys_share_what_an_update_leaves(rt: HostRuntime) -> Result<(), Fail> {
    let alloc = rt.alloc();
    let mut text = Vec::new(alloc);
    let mut want = Vec::new(alloc);
    let is = append_updated(alloc, &mut text)?;
    append_wanted(alloc, &mut want)?;
    expect_text(&rt, "the states before and after an update", &text, &want)?;
    Ok(holds(is, "another number of keys, or another text")?)
}
