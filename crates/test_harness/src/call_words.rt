//! Calls from lines of words.
ghost use Rattle.std.specs.Prelude.{IfOk};
ghost use Rattle.comm_core.specs.Ready.{HandsNothingIn};

use crate::body_words::{body_of, dict_of};
use crate::test_fault::TestFault;
use comm_core::Call;
use comm_messages::Body;
use comm_value::Text;
use std::alloc::{AllocError, Global};
use uuid::Uuid;

/// The first word of a line, and what follows the space behind it.
pub fn split_word(line: &str) -> (&str, &str) {
    match line.split_once(' ') {
        Some((word, rest)) => (word, rest),
        None => (line, ""),
    }
}

// The names of an opening. A version `-` is none.
fn names_of(
    alloc: Global,
    id: &str,
    target: &str,
    version: &str,
) -> Result<(Text, Text, Option<Text>), AllocError> {
    let id = Text::copy_of(alloc, id)?;
    let target = Text::copy_of(alloc, target)?;
    let version = if version == "-" {
        None
    } else {
        Some(Text::copy_of(alloc, version)?)
    };
    Ok((id, target, version))
}

fn open_of(alloc: Global, words: &str) -> Result<Call, TestFault>
    ensures { IfOk result HandsNothingIn }
{
    let (id, words) = split_word(words);
    let (target, words) = split_word(words);
    let (version, words) = split_word(words);
    let body = body_of(alloc, words)?;
    match names_of(alloc, id, target, version) {
        Ok((id, target, version)) => Ok(Call::Open {
            id,
            target,
            version,
            body,
        }),
        Err(error) => {
            drop(body);
            Err(error)?
        }
    }
}

// A comm's id, and a body.
fn id_and_body_of(alloc: Global, words: &str) -> Result<(Text, Body), TestFault> {
    let (id, words) = split_word(words);
    let id = Text::copy_of(alloc, id)?;
    let body = body_of(alloc, words)?;
    Ok((id, body))
}

fn launch_of(alloc: Global, words: &str) -> Result<Call, TestFault>
    ensures { IfOk result HandsNothingIn }
{
    let (uuid, words) = split_word(words);
    let (target, json) = split_word(words);
    let Ok(id) = Uuid::parse_str(uuid) else {
        return Err(TestFault("no UUID"));
    };
    let target = Text::copy_of(alloc, target)?;
    let state = dict_of(alloc, json)?;
    Ok(Call::Launch { id, target, state })
}

fn push_of(alloc: Global, words: &str) -> Result<Call, TestFault>
    ensures { IfOk result HandsNothingIn }
{
    let (id, json) = split_word(words);
    let id = Text::copy_of(alloc, id)?;
    let state = dict_of(alloc, json)?;
    Ok(Call::Push { id, state })
}

// A call that has a body or a state.
fn full_call(alloc: Global, kind: &str, words: &str) -> Result<Call, TestFault>
    ensures { IfOk result HandsNothingIn }
{
    if kind == "open" {
        open_of(alloc, words)
    } else if kind == "msg" {
        let (id, body) = id_and_body_of(alloc, words)?;
        Ok(Call::Msg { id, body })
    } else if kind == "send" {
        let (id, body) = id_and_body_of(alloc, words)?;
        Ok(Call::Send { id, body })
    } else if kind == "launch" {
        launch_of(alloc, words)
    } else if kind == "push" {
        push_of(alloc, words)
    } else {
        Err(TestFault("no call"))
    }
}

/// The call of a line. Its words stand at single spaces, JSON has no space in it, and buffers are words of
/// hexadecimal digits (`-`: no byte). Data or a state that are left out are `{}`; a version `-` is none.
///
/// `open ID TARGET VERSION DATA BUFFER..`, `msg ID DATA BUFFER..`, `send ID DATA BUFFER..`, `close ID`, `hang_up ID`,
/// `unregister NAME`, `launch UUID NAME STATE`, `push ID STATE`
pub fn call_of(alloc: Global, line: &str) -> Result<Call, TestFault>
    ensures { IfOk result HandsNothingIn }
{
    let (kind, words) = split_word(line);
    if kind == "close" {
        Ok(Call::Close {
            id: Text::copy_of(alloc, words)?,
        })
    } else if kind == "hang_up" {
        Ok(Call::HangUp {
            id: Text::copy_of(alloc, words)?,
        })
    } else if kind == "unregister" {
        Ok(Call::Unregister {
            name: Text::copy_of(alloc, words)?,
        })
    } else {
        full_call(alloc, kind, words)
    }
}
