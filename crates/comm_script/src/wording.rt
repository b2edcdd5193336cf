//! The lines that are written (`docs/FORMATS.md`).
ghost use Rattle.std.specs.Prelude.{◌≡◌, ◌++◌, ◌∷◌, [], true, OnOk, codes, decimal};
ghost use Rattle.json.specs.Print.{quoted};
ghost use Rattle.json.specs.Json.{array, object, member, no_members};
ghost use Rattle.comm_json.specs.Text.{compact_text, members_text};
ghost use Rattle.comm_value.specs.ToJson.{json_of};
ghost use Rattle.comm_value.specs.View.{tree};
ghost use Rattle.comm_value.specs.Paths.{paths_tree};
ghost use Rattle.comm_messages.specs.Text.{buffer_texts};
ghost use Rattle.comm_messages.specs.declared.outgoing.Outgoing.TheVariants as outgoing;
ghost use Rattle.comm_messages.specs.declared.outgoing.Parent.TheVariants as parent;
ghost use Rattle.comm_script.specs.Words.{custom_json, delivered_words, reply_words, state_content, state_json};
ghost use Rattle.comm_script.specs.Words.{state_words};
ghost use Rattle.comm_script.specs.Words.{reply_line, bad_line, state_line, out_line, out_lines};

use crate::asked::LineFault;
use crate::fault_words::{append_fault_words, append_refusal_words, append_target_words};
use comm_core::{Ids, Reply, StateAnswer};
use comm_messages::{Infos, Outgoing, Parent, append_buffers, append_ids, append_message};
use comm_targets::Custom;
use comm_value::{Buffers, Dict, Path, Separated, Text, Val, paths_val, separate, write_text};
use std::alloc::{AllocError, Global};

/// Appends these bytes. Err: memory; this is true of each function here, and a part may have been appended then.
#[inline(always)]
pub fn append(words: &[u8], out: &mut Vec<u8>) -> Result<(), AllocError>
    ensures { OnOk result (out.new.items ≡ out.old.items ++ words.now) }
{
    out.extend_from_slice(words)
}

/// Appends a number in decimal.
#[inline(always)]
pub fn append_number(number: u64, out: &mut Vec<u8>) -> Result<(), AllocError>
    ensures { OnOk result (out.new.items ≡ out.old.items ++ decimal number) }
{
    let mut digits = itoa::Buffer::new();
    out.extend_from_slice(digits.format(number).as_bytes())
}

/// Appends these bytes and a number in decimal.
#[inline(always)]
pub fn append_counted(words: &[u8], number: u64, out: &mut Vec<u8>) -> Result<(), AllocError>
    ensures { OnOk result (out.new.items ≡ out.old.items ++ (words.now ++ decimal number)) }
{
    append(words, out)?;
    append_number(number, out)?;
    Ok(())
}

// ---- replies

// The key of a member, with its colon.
fn append_key(key: &str, out: &mut Vec<u8>) -> Result<(), AllocError>
    ensures { OnOk result (out.new.items ≡ out.old.items ++ (quoted key.now ++ 58 ∷ [])) }
{
    write_text(key, out)?;
    append(b":", out)?;
    Ok(())
}

// An object's opening bracket, and its first member.
fn append_first(key: &str, value: &Val, out: &mut Vec<u8>) -> Result<(), AllocError>
    ensures { OnOk result (out.new.items ≡ out.old.items
        ++ (123 ∷ ((quoted key.now ++ 58 ∷ []) ++ compact_text (json_of (tree value.now))))) }
{
    append(b"{", out)?;
    append_key(key, out)?;
    value.write_json(out)?;
    Ok(())
}

// The last member of an object, its text handed in, and the closing bracket.
fn append_last(key: &str, value: &Val, out: &mut Vec<u8>) -> Result<(), AllocError>
    ensures { OnOk result (out.new.items ≡ out.old.items
        ++ members_text true (member key.now (json_of (tree value.now)) no_members)) }
{
    append(b",", out)?;
    append_key(key, out)?;
    value.write_json(out)?;
    append(b"}", out)?;
    Ok(())
}

fn append_custom(custom: &Custom, out: &mut Vec<u8>) -> Result<(), AllocError>
    ensures { OnOk result (out.new.items ≡ out.old.items ++ compact_text (custom_json custom.now)) }
{
    append(b"{", out)?;
    append_key("buffers", out)?;
    append(b"[", out)?;
    append_buffers(&custom.buffers, out)?;
    append_last("content", &custom.content, out)?;
    Ok(())
}

fn append_reply_words(reply: &Reply, out: &mut Vec<u8>) -> Result<(), AllocError>
    ensures { OnOk result (out.new.items ≡ out.old.items ++ reply_words reply.now) }
{
    match reply {
        Reply::Registered => append(b"registered", out),
        Reply::Replaced(ids) => {
            append(b"replaced ", out)?;
            append_ids(ids.as_slice(), out)?;
            Ok(())
        }
        Reply::Opened => append(b"opened", out),
        Reply::IdInUse => append(b"id_in_use", out),
        Reply::OpenRefused(why) => {
            append(b"refused ", out)?;
            append_refusal_words(why, out)?;
            Ok(())
        }
        Reply::Delivered(None) => append(b"delivered", out),
        Reply::Delivered(Some(custom)) => {
            append(b"custom ", out)?;
            append_custom(custom.parts(), out)?;
            Ok(())
        }
        Reply::Fault(fault) => {
            append(b"fault ", out)?;
            append_target_words(*fault, out)?;
            Ok(())
        }
        Reply::NoComm => append(b"no_comm", out),
        Reply::Closed => append(b"closed", out),
        Reply::Unregistered(ids) => {
            append(b"unregistered ", out)?;
            append_ids(ids.as_slice(), out)?;
            Ok(())
        }
        Reply::NoTarget => append(b"no_target", out),
        Reply::Launched => append(b"launched", out),
        Reply::NotWidget => append(b"not_widget", out),
    }
}

fn append_state(alloc: Global, state: &Dict, out: &mut Vec<u8>) -> Result<(), AllocError>
    ensures { OnOk result (out.new.items ≡ out.old.items ++ compact_text (state_json state.now)) }
{
    let Separated {
        plain,
        paths,
        buffers,
    } = separate(alloc, state)?;
    let plain = Val::Dict(plain);
    let written = append_parts(alloc, &plain, &paths, &buffers, out);
    drop(plain);
    written
}

fn append_parts(
    alloc: Global,
    plain: &Val,
    paths: &[Path],
    buffers: &Buffers,
    out: &mut Vec<u8>,
) -> Result<(), AllocError>
    ensures { OnOk result (out.new.items ≡ out.old.items
        ++ compact_text (object (member (codes "buffer_paths") (json_of (paths_tree paths.now))
        (member (codes "buffers") (array (buffer_texts buffers.now))
        (member (codes "state") (json_of (tree plain.now)) no_members))))) }
{
    append_paths(alloc, paths, out)?;
    append_state_rest(plain, buffers, out)?;
    Ok(())
}

fn append_paths(alloc: Global, paths: &[Path], out: &mut Vec<u8>) -> Result<(), AllocError>
    ensures { OnOk result (out.new.items ≡ out.old.items
        ++ (123 ∷ ((quoted (codes "buffer_paths") ++ 58 ∷ [])
        ++ compact_text (json_of (paths_tree paths.now))))) }
{
    let paths = paths_val(alloc, paths)?;
    let written = append_first("buffer_paths", &paths, out);
    drop(paths);
    written
}

fn append_state_rest(plain: &Val, buffers: &Buffers, out: &mut Vec<u8>) -> Result<(), AllocError>
    ensures { OnOk result (out.new.items ≡ out.old.items
        ++ members_text true (member (codes "buffers") (array (buffer_texts buffers.now))
        (member (codes "state") (json_of (tree plain.now)) no_members))) }
{
    append(b",", out)?;
    append_key("buffers", out)?;
    append(b"[", out)?;
    append_buffers(buffers, out)?;
    append_last("state", plain, out)?;
    Ok(())
}

/// Appends a state as the content of a reply: what travels as JSON, and the paths of the buffers, which go beside it.
pub fn append_state_content(
    alloc: Global,
    state: &Dict,
    out: &mut Vec<u8>,
) -> Result<(), AllocError>
    ensures { OnOk result (out.new.items ≡ out.old.items
        ++ compact_text (state_content state.now)) }
{
    let Separated {
        plain,
        paths,
        buffers: _,
    } = separate(alloc, state)?;
    let plain = Val::Dict(plain);
    let written = append_paths_and_state(alloc, &plain, &paths, out);
    drop(plain);
    written
}

fn append_paths_and_state(
    alloc: Global,
    plain: &Val,
    paths: &[Path],
    out: &mut Vec<u8>,
) -> Result<(), AllocError>
    ensures { OnOk result (out.new.items ≡ out.old.items
        ++ compact_text (object (member (codes "buffer_paths") (json_of (paths_tree paths.now))
        (member (codes "state") (json_of (tree plain.now)) no_members)))) }
{
    append_paths(alloc, paths, out)?;
    append_last("state", plain, out)?;
    Ok(())
}

fn append_state_words(
    alloc: Global,
    answer: &StateAnswer,
    out: &mut Vec<u8>,
) -> Result<(), AllocError>
    ensures { OnOk result (out.new.items ≡ out.old.items ++ state_words answer.now) }
{
    match answer {
        StateAnswer::NoComm => append(b"no_comm", out),
        StateAnswer::NoState => append(b"no_state", out),
        StateAnswer::State(state) => append_state(alloc, state, out),
    }
}

// ---- lines

/// Appends the line of a change's reply, by its number among all changes, from 1.
pub fn append_reply(number: u64, reply: &Reply, out: &mut Vec<u8>) -> Result<(), AllocError>
    ensures { OnOk result (out.new.items ≡ out.old.items ++ reply_line number reply.now) }
{
    append_counted(b"reply ", number, out)?;
    // The most frequent replies, each at once.
    match reply {
        Reply::Delivered(None) => append(b" delivered\n", out)?,
        Reply::Opened => append(b" opened\n", out)?,
        Reply::Closed => append(b" closed\n", out)?,
        _ => {
            append(b" ", out)?;
            append_reply_words(reply, out)?;
            append(b"\n", out)?;
        }
    }
    Ok(())
}

/// Appends the line that says why a line of the script can't be read, by its number, from 1.
pub fn append_bad(number: u64, fault: LineFault, out: &mut Vec<u8>) -> Result<(), AllocError>
    ensures { OnOk result (out.new.items ≡ out.old.items ++ bad_line number fault) }
{
    append_counted(b"bad ", number, out)?;
    append(b" ", out)?;
    append_fault_words(fault, out)?;
    append(b"\n", out)?;
    Ok(())
}

/// Appends the line of a comm's state, by the number of changes that it was read after.
pub fn append_state_line(
    alloc: Global,
    front: u64,
    answer: &StateAnswer,
    out: &mut Vec<u8>,
) -> Result<(), AllocError>
    ensures { OnOk result (out.new.items ≡ out.old.items ++ state_line front answer.now) }
{
    append_counted(b"state ", front, out)?;
    append(b" ", out)?;
    append_state_words(alloc, answer, out)?;
    append(b"\n", out)?;
    Ok(())
}

/// Appends the line of a message that goes out.
pub fn append_out(message: &Outgoing, parent: &Parent, out: &mut Vec<u8>) -> Result<(), AllocError>
    ensures { OnOk result (out.new.items ≡ out.old.items ++ out_line message.now parent.now) }
{
    append(b"out ", out)?;
    append_message(message, parent, out)?;
    append(b"\n", out)?;
    Ok(())
}

/// Appends the line of the open comms that a client reads after so many changes.
pub fn append_infos(
    client: u8,
    front: u64,
    comms: Infos,
    out: &mut Vec<u8>,
) -> Result<(), AllocError>
    ensures { OnOk result (out.new.items ≡ out.old.items
        ++ out_line (outgoing.InfoReply comms) (parent.Read client front)) }
{
    let message = Outgoing::InfoReply { comms };
    let written = append_out(&message, &Parent::Read { client, front }, out);
    drop(message);
    written
}

/// Appends the lines of messages that go out, in their order.
pub fn append_outs(
    messages: &[Outgoing],
    parent: &Parent,
    out: &mut Vec<u8>,
) -> Result<(), AllocError>
    ensures { OnOk result (out.new.items ≡ out.old.items ++ out_lines messages.now parent.now) }
{
    for message in messages {
        append_out(message, parent, out)?;
    }
    Ok(())
}
