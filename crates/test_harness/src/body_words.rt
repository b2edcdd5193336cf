//! Bodies, dicts and buffers from words.
ghost use Rattle.std.specs.Prelude.{◌≡◌, false, IfOk};
ghost use Rattle.comm_value.specs.Places.{members_have_bytes};

use crate::call_words::split_word;
use crate::test_fault::TestFault;
use comm_json::ParseArena;
use comm_messages::{Body, fields_of, object_in};
use comm_value::{Buffers, Bytes, Dict, KnownTexts, Numbers};
use std::alloc::Global;

/// The dict of a JSON object of whole numbers; an empty text is the empty dict.
pub fn dict_of(alloc: Global, json: &str) -> Result<Dict, TestFault>
    ensures { IfOk result (λ d. members_have_bytes d ≡ false) }
{
    dict_with(alloc, Numbers::Whole, json)
}

/// The dict of a JSON object with these numbers as values; an empty text is the empty dict.
pub fn dict_with(alloc: Global, numbers: Numbers, json: &str) -> Result<Dict, TestFault>
    ensures { IfOk result (λ d. members_have_bytes d ≡ false) }
{
    let json = if json.is_empty() { "{}" } else { json };
    let mut arena = ParseArena::new(alloc);
    let object = object_in(json.as_bytes(), &mut arena)?;
    let mut texts = KnownTexts::new(alloc);
    Ok(comm_messages::dict_of(alloc, numbers, &mut texts, fields_of(&object))?)
}

fn bytes_of(alloc: Global, word: &str) -> Result<Bytes, TestFault> {
    let digits = if word == "-" { "" } else { word };
    match hex::decode(alloc, digits) {
        Ok(bytes) => Ok(Bytes::new(alloc, bytes)?),
        Err(_) => Err(TestFault("a buffer isn't of hexadecimal digits")),
    }
}

/// Buffers of words of hexadecimal digits, of which `-` stands for no byte; an empty text has none.
pub fn buffers_of(alloc: Global, words: &str) -> Result<Buffers, TestFault> {
    let mut all = Vec::new(alloc);
    if words.is_empty() {
        return Ok(Buffers::new(all));
    }
    for word in words.split(' ') {
        all.push(bytes_of(alloc, word)?)?;
    }
    Ok(Buffers::new(all))
}

/// The body of words: its data, which are JSON without a space, and its buffers.
pub fn body_of(alloc: Global, words: &str) -> Result<Body, TestFault> {
    let (json, rest) = split_word(words);
    let buffers = buffers_of(alloc, rest)?;
    let content = dict_of(alloc, json)?;
    Ok(Body::new(content, buffers))
}
