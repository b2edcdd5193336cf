//! Values as text.
use comm_messages::{Body, OutgoingBody};
use comm_value::{Buffers, Dict, Path, Separated, Val, paths_val, separate};
use std::alloc::{AllocError, Global};

/// The words, with a space between each two.
pub fn append_words(words: &[&str], text: &mut Vec<u8>) -> Result<(), AllocError> {
    let mut later = false;
    for word in words {
        if later {
            text.push(b' ')?;
        }
        text.extend_from_slice(word.as_bytes())?;
        later = true;
    }
    Ok(())
}

/// For each buffer a space and its bytes in hexadecimal digits, `-` for none.
pub fn append_buffers(
    alloc: Global,
    buffers: &Buffers,
    text: &mut Vec<u8>,
) -> Result<(), AllocError> {
    for buffer in buffers.as_slice() {
        let digits = hex::encode(alloc, buffer.as_slice())?;
        let word = if digits.is_empty() {
            "-"
        } else {
            digits.as_str()
        };
        append_words(&["", word], text)?;
    }
    Ok(())
}

/// A space, the data, and the buffers.
pub fn append_body(alloc: Global, body: &Body, text: &mut Vec<u8>) -> Result<(), AllocError> {
    text.push(b' ')?;
    body.content().write_json(text)?;
    append_buffers(alloc, body.buffers(), text)
}

/// A space, the data that goes out, and the buffers.
pub(crate) fn append_outgoing_body(
    alloc: Global,
    body: &OutgoingBody,
    text: &mut Vec<u8>,
) -> Result<(), AllocError> {
    text.push(b' ')?;
    body.write_json(text)?;
    append_buffers(alloc, body.buffers(), text)
}

/// A space, the value, and the buffers beside it.
pub(crate) fn append_custom(
    alloc: Global,
    content: &Val,
    buffers: &Buffers,
    text: &mut Vec<u8>,
) -> Result<(), AllocError> {
    text.push(b' ')?;
    content.write_json(text)?;
    append_buffers(alloc, buffers, text)
}

fn append_paths(alloc: Global, paths: &[Path], text: &mut Vec<u8>) -> Result<(), AllocError> {
    let listed = paths_val(alloc, paths)?;
    let done = listed.write_json(text);
    drop(listed);
    done
}

/// A space, a state without its bytes, the paths at which they stood, and the bytes.
pub fn append_state(alloc: Global, state: &Dict, text: &mut Vec<u8>) -> Result<(), AllocError> {
    let Separated {
        plain,
        paths,
        buffers,
    } = separate(alloc, state)?;
    text.push(b' ')?;
    let done = plain.write_json(text);
    drop(plain);
    done?;
    text.push(b' ')?;
    append_paths(alloc, &paths, text)?;
    append_buffers(alloc, &buffers, text)
}
