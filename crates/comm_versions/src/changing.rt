//! How a row changes the comms in chunks: it changes the one chunk that it concerns, or a copy of that chunk where it
//! is shared.
ghost use Rattle.std.specs.Prelude.{◌≡◌, ◌+◌, ◌<◌, ◌++◌, Ok, OnOk, length, take, drop};
ghost use Rattle.std.specs.Arc.{arc_value};
ghost use Rattle.comm_core.specs.Machine.{without};
ghost use Rattle.comm_core.specs.Row.{with_row, without_all};
ghost use Rattle.comm_versions.specs.Chunks.{AllChunksFilled, IsInOrder, IsPosition, StandsAt, comms_in, upsert};

use crate::chunks::{join_chunks, longest, set_chunk, with_comm, without_at};
use crate::position::{Position, find_position, is_found, is_position};
use crate::prefixed_comm::PrefixedComm;
use crate::search::CommChunk;
use comm_core::Row;
use comm_value::Text;
use std::alloc::{AllocError, Global};
use std::sync::Arc;

// Inserts the comm at its index, or replaces the one of its id.
#[inline(always)]
fn put_among(
    comms: &mut Vec<PrefixedComm>,
    at: Result<usize, usize>,
    comm: PrefixedComm,
) -> Result<(), AllocError>
    requires { StandsAt comm.0 comms.old.items at }
    ensures { OnOk result (comms.new.items ≡ upsert comms.old.items comm) }
{
    match at {
        Ok(i) => comms[i].replace(comm),
        Err(i) => comms.insert(i, comm)?,
    }
    Ok(())
}

// Puts a copy of this chunk in its place, with the comm inserted, or in place of the one of its id.
#[inline(never)]
fn put_copied(
    alloc: Global,
    chunk: &mut CommChunk,
    at: Result<usize, usize>,
    comm: PrefixedComm,
) -> Result<(), AllocError>
    requires { StandsAt comm.0 (arc_value chunk.old).items at }
    ensures { OnOk result ((arc_value chunk.new).items ≡ upsert (arc_value chunk.old).items comm) }
{
    let comms = with_comm(alloc, chunk.as_slice(), at, comm)?;
    *chunk = Arc::new(alloc, comms)?;
    Ok(())
}

// Inserts the comm into this chunk, or replaces the one of its id there; a shared chunk is copied.
#[inline(always)]
fn put_into(
    alloc: Global,
    chunk: &mut CommChunk,
    at: Result<usize, usize>,
    comm: PrefixedComm,
) -> Result<(), AllocError>
    requires { StandsAt comm.0 (arc_value chunk.old).items at }
    ensures { OnOk result ((arc_value chunk.new).items ≡ upsert (arc_value chunk.old).items comm) }
{
    match Arc::get_mut(chunk) {
        Some(comms) => put_among(comms, at, comm),
        None => put_copied(alloc, chunk, at, comm),
    }
}

// Whether a comm may be put at this position as the chunks are: it replaces another, or its chunk has room.
fn fits(chunks: &[CommChunk], position: &Position) -> bool
    requires { position.now.chunk < length chunks.now }
{
    position.at.is_ok() || chunks[position.chunk].len() < longest(chunks.len())
}

// Inserts the comm at its position, or replaces the one of its id, in a copy of its chunk, which is cut in two where it
// is too long.
#[inline(never)]
fn put_cut(
    alloc: Global,
    chunks: &mut Vec<CommChunk>,
    position: &Position,
    comm: PrefixedComm,
) -> Result<(), AllocError>
    requires filled { AllChunksFilled chunks.old.items }
    requires position { IsPosition chunks.old.items comm.0 position.now }
    ensures upsert { OnOk result
        (comms_in chunks.new.items ≡ upsert (comms_in chunks.old.items) comm) }
    ensures filled { OnOk result (AllChunksFilled chunks.new.items) }
{
    let comms = chunks[position.chunk].as_slice();
    let changed = with_comm(alloc, comms, position.at, comm)?;
    set_chunk(alloc, chunks, position.chunk, changed)?;
    Ok(())
}

// Inserts the comm at its position, or replaces the one of its id.
#[inline(always)]
fn put_at(
    alloc: Global,
    chunks: &mut Vec<CommChunk>,
    position: &Position,
    comm: PrefixedComm,
) -> Result<(), AllocError>
    requires filled { AllChunksFilled chunks.old.items }
    requires position { IsPosition chunks.old.items comm.0 position.now }
    ensures upsert { OnOk result
        (comms_in chunks.new.items ≡ upsert (comms_in chunks.old.items) comm) }
    ensures filled { OnOk result (AllChunksFilled chunks.new.items) }
{
    if fits(chunks.as_slice(), position) {
        put_into(alloc, &mut chunks[position.chunk], position.at, comm)?;
        return Ok(());
    }
    put_cut(alloc, chunks, position, comm)
}

// Inserts the comm where a search finds its place, or replaces the one of its id.
#[inline(never)]
fn put_searched(
    alloc: Global,
    chunks: &mut Vec<CommChunk>,
    comm: PrefixedComm,
) -> Result<(), AllocError>
    requires filled { AllChunksFilled chunks.old.items }
    requires ordered { IsInOrder (comms_in chunks.old.items) }
    ensures upsert { OnOk result
        (comms_in chunks.new.items ≡ upsert (comms_in chunks.old.items) comm) }
    ensures filled { OnOk result (AllChunksFilled chunks.new.items) }
{
    match find_position(chunks.as_slice(), comm.comm().id()) {
        Some(position) => put_at(alloc, chunks, &position, comm),
        None => {
            let mut first = Vec::with_capacity(alloc, 1)?;
            first.push(comm)?;
            chunks.push(Arc::new(alloc, first)?)?;
            Ok(())
        }
    }
}

// Inserts the comm where the byte order wants it, or replaces the one of its id. The hint is tested first; where it is
// wrong, a search follows.
#[inline(always)]
fn put_in(
    alloc: Global,
    chunks: &mut Vec<CommChunk>,
    comm: PrefixedComm,
    hint: &Option<Position>,
) -> Result<(), AllocError>
    requires filled { AllChunksFilled chunks.old.items }
    requires ordered { IsInOrder (comms_in chunks.old.items) }
    ensures upsert { OnOk result
        (comms_in chunks.new.items ≡ upsert (comms_in chunks.old.items) comm) }
    ensures filled { OnOk result (AllChunksFilled chunks.new.items) }
{
    if let Some(position) = hint {
        if is_position(chunks.as_slice(), comm.prefix(), comm.comm().id(), position) {
            return put_at(alloc, chunks, position, comm);
        }
    }
    put_searched(alloc, chunks, comm)
}

// Puts a copy of this chunk in its place, without the comm at index i.
#[inline(never)]
fn take_copied(alloc: Global, chunk: &mut CommChunk, i: usize) -> Result<(), AllocError>
    requires { i < length (arc_value chunk.old).items }
    ensures { OnOk result
        ((arc_value chunk.new).items
        ≡ take i (arc_value chunk.old).items ++ drop (i + 1) (arc_value chunk.old).items) }
{
    let left = without_at(alloc, chunk.as_slice(), i)?;
    *chunk = Arc::new(alloc, left)?;
    Ok(())
}

// Removes the comm at index i of this chunk; a shared chunk is copied.
#[inline(always)]
fn take_from(alloc: Global, chunk: &mut CommChunk, i: usize) -> Result<(), AllocError>
    requires { i < length (arc_value chunk.old).items }
    ensures { OnOk result
        ((arc_value chunk.new).items
        ≡ take i (arc_value chunk.old).items ++ drop (i + 1) (arc_value chunk.old).items) }
{
    match Arc::get_mut(chunk) {
        Some(comms) => {
            comms.remove(i);
            Ok(())
        }
        None => take_copied(alloc, chunk, i),
    }
}

// Removes the comm of this id, which stands at index i of the chunk at `place`.
#[inline(always)]
fn take_at(
    alloc: Global,
    chunks: &mut Vec<CommChunk>,
    id: &Text,
    place: usize,
    i: usize,
) -> Result<(), AllocError>
    requires filled { AllChunksFilled chunks.old.items }
    requires ordered { IsInOrder (comms_in chunks.old.items) }
    requires position { IsPosition chunks.old.items id.now (record { chunk = place; at = Ok i }) }
    ensures out { OnOk result
        (comms_in chunks.new.items ≡ without (comms_in chunks.old.items) id.now) }
    ensures filled { OnOk result (AllChunksFilled chunks.new.items) }
{
    if chunks[place].len() == 1 {
        chunks.remove(place);
        return Ok(());
    }
    take_from(alloc, &mut chunks[place], i)?;
    Ok(())
}

// Removes the comm of this id, which stands at index i of the chunk at `place`, and joins that to a neighbour where
// both are short.
#[inline(always)]
fn take_found(
    alloc: Global,
    chunks: &mut Vec<CommChunk>,
    id: &Text,
    place: usize,
    i: usize,
) -> Result<(), AllocError>
    requires filled { AllChunksFilled chunks.old.items }
    requires ordered { IsInOrder (comms_in chunks.old.items) }
    requires position { IsPosition chunks.old.items id.now (record { chunk = place; at = Ok i }) }
    ensures out { OnOk result
        (comms_in chunks.new.items ≡ without (comms_in chunks.old.items) id.now) }
    ensures filled { OnOk result (AllChunksFilled chunks.new.items) }
{
    take_at(alloc, chunks, id, place, i)?;
    join_chunks(alloc, chunks, place)?;
    Ok(())
}

// Removes the comm of this id, if a search finds one.
#[inline(never)]
fn take_searched(alloc: Global, chunks: &mut Vec<CommChunk>, id: &Text) -> Result<(), AllocError>
    requires filled { AllChunksFilled chunks.old.items }
    requires ordered { IsInOrder (comms_in chunks.old.items) }
    ensures out { OnOk result
        (comms_in chunks.new.items ≡ without (comms_in chunks.old.items) id.now) }
    ensures filled { OnOk result (AllChunksFilled chunks.new.items) }
{
    let Some(position) = find_position(chunks.as_slice(), id) else {
        return Ok(());
    };
    match position.at {
        Ok(i) => take_found(alloc, chunks, id, position.chunk, i),
        Err(_) => Ok(()),
    }
}

// Removes the comm of this id, if there is one. The hint is tested first; where it is wrong, a search follows.
#[inline(always)]
fn take_out(
    alloc: Global,
    chunks: &mut Vec<CommChunk>,
    id: &Text,
    hint: &Option<Position>,
) -> Result<(), AllocError>
    requires filled { AllChunksFilled chunks.old.items }
    requires ordered { IsInOrder (comms_in chunks.old.items) }
    ensures out { OnOk result
        (comms_in chunks.new.items ≡ without (comms_in chunks.old.items) id.now) }
    ensures filled { OnOk result (AllChunksFilled chunks.new.items) }
{
    if let Some(position) = hint {
        if let Ok(i) = position.at {
            if is_found(chunks.as_slice(), id, position.chunk, i) {
                return take_found(alloc, chunks, id, position.chunk, i);
            }
        }
    }
    take_searched(alloc, chunks, id)
}

// Removes the comms of these ids.
#[inline(always)]
fn take_all(
    alloc: Global,
    chunks: &mut Vec<CommChunk>,
    ids: &[Text],
    hint: &Option<Position>,
) -> Result<(), AllocError>
    requires filled { AllChunksFilled chunks.old.items }
    requires ordered { IsInOrder (comms_in chunks.old.items) }
    ensures out { OnOk result
        (comms_in chunks.new.items ≡ without_all ids.now (comms_in chunks.old.items)) }
    ensures filled { OnOk result (AllChunksFilled chunks.new.items) }
{
    for id in ids {
        take_out(alloc, chunks, id, hint)?;
    }
    Ok(())
}

/// Applies the row to the chunks. The hint is where the first comm of the row may stand, or would; a wrong hint costs a
/// search. After an Err (memory) the chunks are of no use.
#[inline(always)]
pub fn apply_row(
    alloc: Global,
    chunks: &mut Vec<CommChunk>,
    row: &Row,
    hint: &Option<Position>,
) -> Result<(), AllocError>
    requires filled { AllChunksFilled chunks.old.items }
    requires ordered { IsInOrder (comms_in chunks.old.items) }
    ensures comms_in { OnOk result
        (comms_in chunks.new.items ≡ with_row row.now (comms_in chunks.old.items)) }
    ensures filled { OnOk result (AllChunksFilled chunks.new.items) }
{
    match row {
        Row::Same => Ok(()),
        Row::Put(comm) => put_in(alloc, chunks, PrefixedComm::new(comm.copy()?), hint),
        Row::Out(ids) => take_all(alloc, chunks, ids.as_slice(), hint),
        Row::Clear => {
            *chunks = Vec::new(alloc);
            Ok(())
        }
    }
}
