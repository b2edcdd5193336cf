// The members of a dict in chunks, which the dicts before and after a change share (copy-on-write).
ghost use Rattle.std.specs.Prelude.{◌≡◌, ◌+◌, ◌<◌, ◌≤◌, ◌++◌, ◌∷◌, List, true, false, IfOk, OnOk, length, take, drop};
ghost use Rattle.comm_value.specs.Order.{members_ordered};
ghost use Rattle.std.specs.Arc.{arc_value};
ghost use Rattle.comm_value.specs.View.{members_of, tree, grouped, flat, AllFilled};
ghost use Rattle.comm_value.specs.Search.{AllBelow, IsAbsent};
ghost use Rattle.comm_value.specs.Put.{insert};
ghost use Rattle.comm_value.specs.Merge.{merged};
ghost use Rattle.comm_value.specs.declared.val.Member.{Member};

use crate::search::place_of;
use crate::val::{Group, Member};
use std::alloc::{AllocError, Global};
use std::cmp::Ordering;
use std::sync::Arc;

/// Consecutive members of a dict, at least one.
pub(crate) type Chunk = Arc<Group, Global>;

/// The length that a chunk may have in any dict, in members. A chunk is copied whole when a member of it changes for
/// the first time; that member then gets a chunk of its own, so that later changes copy one member.
pub(crate) const SHORT_CHUNK: usize = 64;

// The maximal length of a chunk beside this number of others; a longer one is split in two. An update copies the
// chunk that it changes and the pointers to the others, and a pointer costs less than a member: a large dict has
// longer chunks.
fn max_length(others: usize) -> usize
    ensures { 8 ≤ result }
{
    let length = others / 2;
    if length < SHORT_CHUNK {
        SHORT_CHUNK
    } else {
        length
    }
}

// The maximal length of the chunks of a new dict with this number of members: its square root, so that a chunk has
// about as many members as there are chunks. For few members the root isn't worth its time.
fn max_length_of(members: usize) -> usize
    ensures { 8 ≤ result }
{
    if members < 256 {
        SHORT_CHUNK
    } else {
        max_length(2 * members.isqrt())
    }
}

/// Splits members into chunks.
pub(crate) fn chunks_from(alloc: Global, members: Vec<Member>) -> Result<Vec<Chunk>, AllocError>
    ensures flat { IfOk result (λ all. flat all.items ≡ members.items) }
    ensures filled { IfOk result (λ all. AllFilled all.items) }
{
    let max_length = max_length_of(members.len());
    let room = members.len() / (max_length / 2) + 1;
    push_chunks(alloc, Vec::with_capacity(alloc, room)?, members, max_length)
}

// Appends the members as chunks of at most this length, by halving.
fn push_chunks(
    alloc: Global,
    before: Vec<Chunk>,
    members: Vec<Member>,
    max_length: usize,
) -> Result<Vec<Chunk>, AllocError>
    requires filled { AllFilled before.items }
    requires some { 0 < max_length }
    ensures flat { IfOk result (λ all. flat all.items ≡ flat before.items ++ members.items) }
    ensures filled { IfOk result (λ all. AllFilled all.items) }
{
    let mut all = before;
    let mut head = members;
    if head.is_empty() {
        return Ok(all);
    }
    if head.len() <= max_length {
        all.push(Arc::new(alloc, Group::of(head))?)?;
        return Ok(all);
    }
    let tail = head.split_off(head.len() / 2)?;
    let all = push_chunks(alloc, all, head, max_length)?;
    push_chunks(alloc, all, tail, max_length)
}

/// A copy of the list of chunks, which shares their members.
pub(crate) fn share_chunks(alloc: Global, chunks: &[Chunk]) -> Result<Vec<Chunk>, AllocError>
    requires { AllFilled chunks.now }
    ensures flat { IfOk result (λ all. flat all.items ≡ flat chunks.now) }
    ensures filled { IfOk result (λ all. AllFilled all.items) }
{
    let mut all = Vec::with_capacity(alloc, chunks.len())?;
    for chunk in chunks {
        all.push_reserved(Arc::try_clone(chunk)?);
    }
    Ok(all)
}

/// The number of members of the chunks. Err: the number exceeds a usize. No memory holds as many members with different
/// keys, but the contracts don't say that different members take different memory.
pub(crate) fn count(chunks: &[Chunk]) -> Result<usize, AllocError>
    ensures { IfOk result (λ n. n ≡ length (flat chunks.now)) }
{
    let mut total = 0usize;
    for chunk in chunks {
        match total.checked_add(chunk.as_slice().len()) {
            Some(sum) => total = sum,
            None => return Err(AllocError),
        }
    }
    Ok(total)
}

/// The chunk that has the key or would have it, by binary search over the first keys of the chunks.
pub(crate) fn chunk_of(chunks: &[Chunk], key: &str) -> usize
    requires some { 0 < length chunks.now }
    requires filled { AllFilled chunks.now }
    requires ordered { members_ordered (members_of (flat chunks.now)) ≡ true }
    ensures within { result < length chunks.now }
    ensures below { AllBelow key.now (flat (take result chunks.now)) }
    ensures above { IsAbsent key.now (flat (drop (result + 1) chunks.now)) }
{
    let mut low = 0;
    let mut high = chunks.len();
    while low + 1 < high {
        let middle = low + (high - low) / 2;
        let members = chunks[middle].as_slice();
        let order = key.cmp(members[0].key.as_str());
        match order {
            Ordering::Less => high = middle,
            _ => low = middle,
        }
    }
    low
}

/// The chunks with the member inserted in the order of keys, or in place of the one with its key. Only that member's
/// chunk is copied, and only where it is shared.
pub(crate) fn put(
    alloc: Global,
    chunks: Vec<Chunk>,
    member: Member,
) -> Result<Vec<Chunk>, AllocError>
    requires filled { AllFilled chunks.items }
    requires ordered { members_ordered (members_of (flat chunks.items)) ≡ true }
    ensures put { IfOk result (λ all. members_of (flat all.items)
        ≡ insert member.key (tree member.value) (members_of (flat chunks.items))) }
    ensures filled { IfOk result (λ all. AllFilled all.items) }
{
    let mut all = chunks;
    if all.is_empty() {
        return insert_one(alloc, all, 0, member);
    }
    let place = chunk_of(all.as_slice(), member.key.as_str());
    match Arc::try_unwrap(all.remove(place)) {
        Ok(Group::Many(members)) => insert_chunk(alloc, all, place, put_member(members, member)?),
        Ok(alone) => put_shared(alloc, all, place, alone.as_slice(), member),
        Err(shared) => put_shared(alloc, all, place, shared.as_slice(), member),
    }
}

/// Puts a chunk of one member in place of one with the same key, as a merge mostly does: the chunk is shared, and no
/// other is looked at. False: nothing was done, since no chunk has the key alone, or this one has more members.
pub(crate) fn put_alone(all: &mut Vec<Chunk>, chunk: &Chunk) -> Result<bool, AllocError>
    requires filled { AllFilled all.old.items }
    requires ordered { members_ordered (members_of (flat all.old.items)) ≡ true }
    ensures put { IfOk result (λ done. done ≡ true → members_of (flat all.new.items)
        ≡ merged (members_of (flat all.old.items)) (members_of (grouped (arc_value chunk.now)))) }
    ensures as_many { IfOk result
        (λ done. length (flat all.new.items) ≡ length (flat all.old.items)) }
    ensures filled { IfOk result (λ done. AllFilled all.new.items) }
    ensures left { IfOk result (λ done. done ≡ false → all.new.items ≡ all.old.items) }
{
    if all.is_empty() {
        return Ok(false);
    }
    let Some(member) = chunk.alone() else {
        return Ok(false);
    };
    let place = chunk_of(all.as_slice(), member.key.as_str());
    let Some(before) = all[place].alone() else {
        return Ok(false);
    };
    if !before.key.is(member.key.as_str()) {
        return Ok(false);
    }
    all[place] = Arc::try_clone(chunk)?;
    Ok(true)
}

// The chunks with copies of these shared members inserted at an index, the new member among them.
fn put_shared(
    alloc: Global,
    chunks: Vec<Chunk>,
    place: usize,
    members: &[Member],
    member: Member,
) -> Result<Vec<Chunk>, AllocError>
    requires within { place ≤ length chunks.items }
    requires filled { AllFilled chunks.items }
    requires ordered { members_ordered (members_of members.now) ≡ true }
    ensures put { IfOk result (λ all. (changed : List Member)
        × (flat all.items
        ≡ flat (take place chunks.items) ++ (changed ++ flat (drop place chunks.items)))
        × (members_of changed
        ≡ insert member.key (tree member.value) (members_of members.now))) }
    ensures filled { IfOk result (λ all. AllFilled all.items) }
{
    match place_of(members, member.key.as_str()) {
        Ok(i) => {
            if members.len() == 1 {
                insert_one(alloc, chunks, place, member)
            } else if gets_own_chunk(members.len(), chunks.len()) {
                cut_out(alloc, chunks, place, members, i, member)
            } else {
                let changed = copies_with(alloc, members, i, i + 1, member)?;
                insert_chunk(alloc, chunks, place, changed)
            }
        }
        Err(i) => {
            let changed = copies_with(alloc, members, i, i, member)?;
            insert_chunk(alloc, chunks, place, changed)
        }
    }
}

// Whether a member that changes in a chunk of this length, beside this number of others, is cut out into a chunk of its
// own. What changed once is likely to change again, as a slider's value does, and is then copied alone. Where there are
// many chunks already, their pointers would cost more.
fn gets_own_chunk(length: usize, others: usize) -> bool {
    3 < length && others / 2 < length
}

// The chunks with copies of these members inserted at an index, the new member in place of member i and in its own
// chunk.
fn cut_out(
    alloc: Global,
    chunks: Vec<Chunk>,
    place: usize,
    members: &[Member],
    i: usize,
    member: Member,
) -> Result<Vec<Chunk>, AllocError>
    requires within { place ≤ length chunks.items }
    requires there { i < length members.now }
    requires filled { AllFilled chunks.items }
    ensures flat { IfOk result (λ all. flat all.items
        ≡ flat (take place chunks.items)
        ++ ((take i members.now ++ member ∷ drop (i + 1) members.now)
        ++ flat (drop place chunks.items))) }
    ensures filled { IfOk result (λ all. AllFilled all.items) }
{
    let behind = copies_of(alloc, &members[i + 1..])?;
    let all = insert_chunk(alloc, chunks, place, behind)?;
    let all = insert_one(alloc, all, place, member)?;
    let before = copies_of(alloc, &members[..i])?;
    insert_chunk(alloc, all, place, before)
}

// The chunks with these members, if any, inserted at an index as a chunk, or as two where one would be too long.
fn insert_chunk(
    alloc: Global,
    chunks: Vec<Chunk>,
    place: usize,
    members: Vec<Member>,
) -> Result<Vec<Chunk>, AllocError>
    requires within { place ≤ length chunks.items }
    requires filled { AllFilled chunks.items }
    ensures before { IfOk result (λ all. take place all.items ≡ take place chunks.items) }
    ensures behind { IfOk result
        (λ all. flat (drop place all.items) ≡ members.items ++ flat (drop place chunks.items)) }
    ensures longer { IfOk result (λ all. length chunks.items ≤ length all.items) }
    ensures filled { IfOk result (λ all. AllFilled all.items) }
{
    let mut all = chunks;
    let mut head = members;
    if head.is_empty() {
        return Ok(all);
    }
    if head.len() > max_length(all.len()) {
        let tail = head.split_off(head.len() / 2)?;
        all.insert(place, Arc::new(alloc, Group::of(tail))?)?;
    }
    all.insert(place, Arc::new(alloc, Group::of(head))?)?;
    Ok(all)
}

// The chunks with this member inserted at an index as a chunk of its own.
fn insert_one(
    alloc: Global,
    chunks: Vec<Chunk>,
    place: usize,
    member: Member,
) -> Result<Vec<Chunk>, AllocError>
    requires within { place ≤ length chunks.items }
    requires filled { AllFilled chunks.items }
    ensures before { IfOk result (λ all. take place all.items ≡ take place chunks.items) }
    ensures behind { IfOk result
        (λ all. flat (drop place all.items) ≡ member ∷ flat (drop place chunks.items)) }
    ensures longer { IfOk result (λ all. length chunks.items ≤ length all.items) }
    ensures filled { IfOk result (λ all. AllFilled all.items) }
{
    let mut all = chunks;
    all.insert(place, Arc::new(alloc, Group::One(member))?)?;
    Ok(all)
}

// Copies of the members, with the new one in place of those from index `from` to index `to`, exclusive.
fn copies_with(
    alloc: Global,
    members: &[Member],
    from: usize,
    to: usize,
    member: Member,
) -> Result<Vec<Member>, AllocError>
    requires ordered { from ≤ to }
    requires within { to ≤ length members.now }
    ensures { IfOk result
        (λ all. all.items ≡ take from members.now ++ member ∷ drop to members.now) }
{
    let mut all = Vec::with_capacity(alloc, members.len() - (to - from) + 1)?;
    push_copies(&members[..from], &mut all)?;
    all.push(member)?;
    push_copies(&members[to..], &mut all)?;
    Ok(all)
}

fn copies_of(alloc: Global, members: &[Member]) -> Result<Vec<Member>, AllocError>
    ensures { IfOk result (λ all. all.items ≡ members.now) }
{
    let mut all = Vec::with_capacity(alloc, members.len())?;
    push_copies(members, &mut all)?;
    Ok(all)
}

fn push_copies(members: &[Member], all: &mut Vec<Member>) -> Result<(), AllocError>
    ensures { OnOk result (all.new.items ≡ all.old.items ++ members.now) }
{
    for member in members {
        all.push(member.copy()?)?;
    }
    Ok(())
}

/// The members with the new one inserted in the order of keys, or in place of the one with its key.
#[inline(always)]
pub(crate) fn put_member(members: Vec<Member>, member: Member) -> Result<Vec<Member>, AllocError>
    requires { members_ordered (members_of members.items) ≡ true }
    ensures put { IfOk result (λ all. members_of all.items
        ≡ insert member.key (tree member.value) (members_of members.items)) }
    ensures some { IfOk result (λ all. 0 < length all.items) }
{
    let mut all = members;
    match place_of(all.as_slice(), member.key.as_str()) {
        Ok(i) => all[i] = member,
        Err(i) => all.insert(i, member)?,
    }
    Ok(all)
}
