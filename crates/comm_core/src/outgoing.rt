//! What goes out.
ghost use Rattle.std.specs.Prelude.{◌≡◌, [], ◌∷◌, false, IfOk, map, codes};
ghost use Rattle.comm_value.specs.Tree.{member, no_members};
ghost use Rattle.comm_value.specs.View.{tree};
ghost use Rattle.comm_value.specs.Put.{insert};
ghost use Rattle.comm_value.specs.Places.{has_bytes, members_have_bytes};
ghost use Rattle.comm_value.specs.Paths.{paths_tree};
ghost use Rattle.comm_messages.specs.declared.outgoing.Outgoing.TheVariants as out;
ghost use Rattle.comm_core.specs.Step.{comm_id, opening_of, messages_of};

use comm_messages::{Body, Outgoing, OutgoingBody};
use comm_targets::Bodies;
use comm_value::{Dict, Path, Separated, Text, Val, paths_val, separate};
use std::alloc::{AllocError, Global};
use uuid::Uuid;

/// A list of just this message. Err: out of memory, as of each function here.
pub fn one(alloc: Global, message: Outgoing) -> Result<Vec<Outgoing>, AllocError>
    ensures { IfOk result (λ v. v.items ≡ message ∷ []) }
{
    match Vec::with_capacity(alloc, 1) {
        Ok(mut all) => {
            all.push_reserved(message);
            Ok(all)
        }
        Err(fault) => {
            drop(message);
            Err(fault)
        }
    }
}

/// A list of just the close of this comm.
pub fn close_message(alloc: Global, id: &Text) -> Result<Vec<Outgoing>, AllocError>
    ensures { IfOk result (λ v. v.items ≡ out.Close id.now ∷ []) }
{
    one(alloc, Outgoing::Close { id: id.copy()? })
}

/// A close of each of these comms, in their order.
pub fn close_messages(alloc: Global, ids: &[Text]) -> Result<Vec<Outgoing>, AllocError>
    ensures { IfOk result (λ v. v.items ≡ map out.Close ids.now) }
{
    let mut all = Vec::with_capacity(alloc, ids.len())?;
    for id in ids {
        all.push(Outgoing::Close { id: id.copy()? })?;
    }
    Ok(all)
}

/// The messages of a comm, which these bodies move into.
pub fn messages_of(alloc: Global, id: &Text, messages: Bodies) -> Result<Vec<Outgoing>, AllocError>
    ensures { IfOk result (λ v. v.items ≡ messages_of id.now messages) }
{
    let mut rest = messages.into_vec();
    if rest.is_empty() {
        return Ok(Vec::new(alloc));
    }
    let mut all = Vec::with_capacity(alloc, rest.len())?;
    while let Some(body) = rest.pop() {
        let id = id.copy()?;
        all.push(Outgoing::Msg { id, body })?;
    }
    all.reverse(); // They were taken from the end.
    Ok(all)
}

/// The message by which the kernel opens a widget's comm ('Jupyter widgets messaging protocol' 2.1.0).
pub fn open_message(
    alloc: Global,
    id: &Text,
    target: &Text,
    state: &Dict,
) -> Result<Vec<Outgoing>, AllocError>
    ensures { IfOk result (λ v. v.items ≡ out.Open id.now target.now (codes "2.1.0")
        (opening_of state.now) ∷ []) }
{
    let id = id.copy()?;
    let target = target.copy()?;
    let version = Text::copy_of(alloc, "2.1.0")?;
    let body = opening_of(alloc, state)?;
    one(
        alloc,
        Outgoing::Open {
            id,
            target,
            version,
            body,
        },
    )
}

/// The body of that message: the state without its bytes, where they stood, and the bytes.
fn opening_of(alloc: Global, state: &Dict) -> Result<OutgoingBody, AllocError>
    ensures { IfOk result (λ b. b ≡ opening_of state.now) }
{
    let Separated {
        plain,
        paths,
        buffers,
    } = separate(alloc, state)?;
    match places(alloc, paths.as_slice()) {
        Ok(content) => {
            let content = with(alloc, content, "state", Val::Dict(plain))?;
            Ok(OutgoingBody::new(Body::new(content, buffers)))
        }
        Err(fault) => {
            drop(plain);
            Err(fault)
        }
    }
}

/// The member that says where bytes stood.
fn places(alloc: Global, paths: &[Path]) -> Result<Dict, AllocError>
    ensures listed { IfOk result
        (λ d. d ≡ member (codes "buffer_paths") (paths_tree paths.now) no_members) }
    ensures no_bytes { IfOk result (λ d. members_have_bytes d ≡ false) }
{
    let paths = paths_val(alloc, paths)?;
    with(alloc, Dict::new(), "buffer_paths", paths)
}

/// The content with one member more.
fn with(alloc: Global, content: Dict, key: &str, value: Val) -> Result<Dict, AllocError>
    ensures inserted { IfOk result (λ d. d ≡ insert key.now (tree value) content) }
    ensures no_bytes { has_bytes (tree value) ≡ false → members_have_bytes content ≡ false
        → IfOk result (λ d. members_have_bytes d ≡ false) }
{
    match Text::copy_of(alloc, key) {
        Ok(key) => content.insert(alloc, key, value),
        Err(fault) => {
            drop(content);
            drop(value);
            Err(fault)
        }
    }
}

/// The comm id of a UUID: its hyphenated text, in small letters.
pub fn comm_id(alloc: Global, uuid: &Uuid) -> Result<Text, AllocError>
    ensures { IfOk result (λ t. t ≡ comm_id uuid.now) }
{
    let mut buffer = Uuid::encode_buffer();
    let text = uuid.hyphenated().encode_lower(&mut buffer);
    Text::copy_of(alloc, text)
}
