//! The ids of comms, the keys of states, and what stands at them.
use comm_value::{Dict, Text, Val, Whole};
use std::alloc::{AllocError, Global};

/// `c0000`, `c0001` and so on: texts of their own.
pub(crate) fn ids(alloc: Global, count: usize) -> Result<Vec<Text>, AllocError> {
    let mut all = Vec::with_capacity(alloc, count)?;
    for number in 0..count {
        let id = format!(in alloc; "c{number:04}")?;
        all.push(Text::copy_of(alloc, &id)?)?;
    }
    Ok(all)
}

/// `k000`, `k001` and so on: texts of their own.
pub(crate) fn keys(alloc: Global, count: usize) -> Result<Vec<Text>, AllocError> {
    let mut all = Vec::with_capacity(alloc, count)?;
    for number in 0..count {
        let key = format!(in alloc; "k{number:03}")?;
        all.push(Text::copy_of(alloc, &key)?)?;
    }
    Ok(all)
}

/// A JSON integer.
pub(crate) fn integer(number: u64) -> Val {
    match Whole::new(i128::from(number)) {
        Some(whole) => Val::Whole(whole),
        None => Val::Null,
    }
}

/// At each key its place, from 1. No two states share their members.
pub(crate) fn state(alloc: Global, keys: &[Text]) -> Result<Dict, AllocError> {
    let mut state = Dict::new();
    let mut place = 0u64;
    for key in keys {
        place = place.saturating_add(1);
        state = state.insert(alloc, key.copy()?, integer(place))?;
    }
    Ok(state)
}
