//! Comms in chunks of a bounded length.
ghost use Rattle.std.specs.Prelude.{◌≡◌, ◌+◌, ◌<◌, ◌≤◌, ◌++◌, ◌∷◌, [], IfOk, OnOk, length, take, drop, true};
ghost use Rattle.comm_versions.specs.Chunks.{AllChunksFilled, StandsAt, comms_in, upsert};

use crate::prefixed_comm::PrefixedComm;
use crate::search::CommChunk;
use std::alloc::{AllocError, Global};
use std::sync::Arc;

// How many comms may stand in a chunk, however few the chunks are.
const LONGEST: usize = 32;

/// How many comms may stand in one of so many chunks; a longer chunk is cut in two. So there are never many more
/// chunks than comms in one. A change that has to copy copies a pointer to each chunk and the comms of one chunk:
/// both grow like the root of the number of comms.
pub fn longest(chunks: usize) -> usize
    ensures { 2 ≤ result }
{
    LONGEST.max(chunks / 2)
}

/// A list of the same chunks, shared and not copied. Err: memory.
pub fn share_chunks(alloc: Global, chunks: &[CommChunk]) -> Result<Vec<CommChunk>, AllocError>
    requires { AllChunksFilled chunks.now }
    ensures comms_in { IfOk result (λ all. comms_in all.items ≡ comms_in chunks.now) }
    ensures filled { IfOk result (λ all. AllChunksFilled all.items) }
{
    let mut all = Vec::with_capacity(alloc, chunks.len() + 1)?;
    for chunk in chunks {
        all.push(Arc::try_clone(chunk)?)?;
    }
    Ok(all)
}

// Appends these comms, which are shared and not copied.
fn copy_all(comms: &[PrefixedComm], all: &mut Vec<PrefixedComm>) -> Result<(), AllocError>
    ensures { OnOk result (all.new.items ≡ all.old.items ++ comms.now) }
{
    for comm in comms {
        all.push(comm.copy()?)?;
    }
    Ok(())
}

// Copies the comms, with the new one in place of those from one index to the other.
fn splice(
    alloc: Global,
    comms: &[PrefixedComm],
    from: usize,
    to: usize,
    comm: PrefixedComm,
) -> Result<Vec<PrefixedComm>, AllocError>
    requires ordered { from ≤ to }
    requires within { to ≤ length comms.now }
    ensures spliced { IfOk result (λ all.
        all.items ≡ take from comms.now ++ comm ∷ drop to comms.now) }
    ensures some { IfOk result (λ all. 0 < length all.items) }
{
    let mut all = Vec::with_capacity(alloc, comms.len() + 1)?;
    copy_all(&comms[..from], &mut all)?;
    all.push(comm)?;
    copy_all(&comms[to..], &mut all)?;
    Ok(all)
}

/// A copy of the comms with this one inserted at its index, or in place of the one of its id. Err: memory.
pub fn with_comm(
    alloc: Global,
    comms: &[PrefixedComm],
    at: Result<usize, usize>,
    comm: PrefixedComm,
) -> Result<Vec<PrefixedComm>, AllocError>
    requires { StandsAt comm.0 comms.now at }
    ensures upsert { IfOk result (λ all. all.items ≡ upsert comms.now comm) }
    ensures some { IfOk result (λ all. 0 < length all.items) }
{
    match at {
        Ok(i) => splice(alloc, comms, i, i + 1, comm),
        Err(i) => splice(alloc, comms, i, i, comm),
    }
}

/// A copy of the comms without the one at index i. Err: memory.
pub fn without_at(
    alloc: Global,
    comms: &[PrefixedComm],
    i: usize,
) -> Result<Vec<PrefixedComm>, AllocError>
    requires { i < length comms.now }
    ensures { IfOk result (λ all. all.items ≡ take i comms.now ++ drop (i + 1) comms.now) }
{
    let mut all = Vec::with_capacity(alloc, comms.len())?;
    copy_all(&comms[..i], &mut all)?;
    copy_all(&comms[i + 1..], &mut all)?;
    Ok(all)
}

/// Puts these comms, if there are any, in place of the chunk there, as two chunks if they are too many. Err: memory.
pub fn set_chunk(
    alloc: Global,
    chunks: &mut Vec<CommChunk>,
    place: usize,
    comms: Vec<PrefixedComm>,
) -> Result<(), AllocError>
    requires within { place < length chunks.old.items }
    requires filled { AllChunksFilled chunks.old.items }
    ensures comms_in { OnOk result
        (comms_in chunks.new.items
        ≡ comms_in (take place chunks.old.items)
        ++ (comms.items ++ comms_in (drop (place + 1) chunks.old.items))) }
    ensures filled { OnOk result (AllChunksFilled chunks.new.items) }
{
    let mut head = comms;
    chunks.remove(place);
    if head.is_empty() {
        return Ok(());
    }
    let most = longest(chunks.len());
    if head.len() > most {
        let tail = head.split_off(head.len() / 2)?;
        chunks.insert(place, Arc::new(alloc, tail)?)?;
    }
    chunks.insert(place, Arc::new(alloc, head)?)?;
    Ok(())
}

// Whether the chunk at this place is too long to be joined to a neighbour.
fn is_long(chunks: &[CommChunk], place: usize) -> bool {
    place < chunks.len() && longest(chunks.len()) / 2 < chunks[place].len()
}

// Whether there is a chunk at this place, and one behind it, which are half a chunk at most together.
fn are_short(chunks: &[CommChunk], place: usize) -> bool
    ensures { result ≡ true → place + 1 < length chunks.now }
{
    if chunks.len() < 2 || chunks.len() - 2 < place {
        return false;
    }
    chunks[place].len() + chunks[place + 1].len() <= longest(chunks.len()) / 2
}

// Makes one chunk of the one at this place and the next.
fn join_two(alloc: Global, chunks: &mut Vec<CommChunk>, place: usize) -> Result<(), AllocError>
    requires within { place + 1 < length chunks.old.items }
    requires filled { AllChunksFilled chunks.old.items }
    ensures comms_in { OnOk result (comms_in chunks.new.items ≡ comms_in chunks.old.items) }
    ensures filled { OnOk result (AllChunksFilled chunks.new.items) }
{
    let first = chunks[place].as_slice();
    let second = chunks[place + 1].as_slice();
    let mut both = Vec::with_capacity(alloc, first.len() + second.len())?;
    copy_all(first, &mut both)?;
    copy_all(second, &mut both)?;
    chunks.remove(place);
    set_chunk(alloc, chunks, place, both)?;
    Ok(())
}

// Joins the chunk at this place to the next, or to the one before, where both together are half a chunk at most.
#[inline(never)]
fn join_short(alloc: Global, chunks: &mut Vec<CommChunk>, place: usize) -> Result<(), AllocError>
    requires { AllChunksFilled chunks.old.items }
    ensures comms_in { OnOk result (comms_in chunks.new.items ≡ comms_in chunks.old.items) }
    ensures filled { OnOk result (AllChunksFilled chunks.new.items) }
{
    if are_short(chunks.as_slice(), place) {
        join_two(alloc, chunks, place)?;
    }
    let before = place.saturating_sub(1);
    if are_short(chunks.as_slice(), before) {
        join_two(alloc, chunks, before)?;
    }
    Ok(())
}

/// Joins the chunk at this place to the next, or to the one before, where both together are half a chunk at most. So
/// there aren't many more chunks than the comms need, whatever was closed. Err: memory.
#[inline(always)]
pub fn join_chunks(
    alloc: Global,
    chunks: &mut Vec<CommChunk>,
    place: usize,
) -> Result<(), AllocError>
    requires { AllChunksFilled chunks.old.items }
    ensures comms_in { OnOk result (comms_in chunks.new.items ≡ comms_in chunks.old.items) }
    ensures filled { OnOk result (AllChunksFilled chunks.new.items) }
{
    if is_long(chunks.as_slice(), place) {
        return Ok(());
    }
    join_short(alloc, chunks, place)
}
