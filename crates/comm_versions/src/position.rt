//! Where the comm of an id stands among comms in chunks.
ghost use Rattle.std.specs.Prelude.{◌≡◌, ◌<◌, [], IfNone, IfSome, Err, Ok, drop, length, true};
ghost use Rattle.std.specs.Int.{to_be_bytes, w64};
ghost use Rattle.comm_versions.specs.Chunks.{AllChunksFilled, IsBelowFirst, IsInOrder, IsPosition, comms_in};
ghost use Rattle.comm_versions.specs.IdPrefixes.{padded};

use crate::prefixed_comm::{IdPrefix, id_prefix};
use crate::search::{CommChunk, chunk_of, place_of};
use comm_value::Text;

/// The chunk in which the comm of an id stands, and its index there (Ok); or the index at which it would be inserted
/// (Err).
#[derive(Clone, Copy)]
pub struct Position {
    pub chunk: usize,
    pub at: Result<usize, usize>,
}

/// Whether the comm at this index of this chunk has the id.
#[inline(always)]
pub fn is_found(chunks: &[CommChunk], id: &Text, chunk: usize, i: usize) -> bool
    requires filled { AllChunksFilled chunks.now }
    requires ordered { IsInOrder (comms_in chunks.now) }
    ensures { result ≡ true → IsPosition chunks.now id.now (record { chunk = chunk; at = Ok i }) }
{
    if chunks.len() <= chunk {
        return false;
    }
    let comms = chunks[chunk].as_slice();
    i < comms.len() && id == comms[i].comm().id()
}

// Whether the id, which has this prefix, is below those of the chunks from this one on.
fn is_below(chunks: &[CommChunk], prefix: IdPrefix, id: &Text, from: usize) -> bool
    requires prefix { to_be_bytes w64 prefix ≡ padded 8 id.now }
    requires filled { AllChunksFilled chunks.now }
    ensures { result ≡ true → IsBelowFirst id.now (comms_in (drop from chunks.now)) }
{
    if chunks.len() <= from {
        return true;
    }
    let comms = chunks[from].as_slice();
    comms[0].is_above(prefix, id)
}

// Whether a comm of the id, which has this prefix, would be inserted at this index of this chunk, behind another.
#[inline(always)]
fn is_gap(chunks: &[CommChunk], prefix: IdPrefix, id: &Text, chunk: usize, i: usize) -> bool
    requires prefix { to_be_bytes w64 prefix ≡ padded 8 id.now }
    requires filled { AllChunksFilled chunks.now }
    requires ordered { IsInOrder (comms_in chunks.now) }
    ensures { result ≡ true → IsPosition chunks.now id.now (record { chunk = chunk; at = Err i }) }
{
    if chunks.len() <= chunk {
        return false;
    }
    let comms = chunks[chunk].as_slice();
    if i == 0 || comms.len() < i || !comms[i - 1].is_below(prefix, id) {
        return false;
    }
    if i < comms.len() {
        comms[i].is_above(prefix, id)
    } else {
        is_below(chunks, prefix, id, chunk + 1)
    }
}

/// Whether this is the position of the id, which has this prefix. It is false of a position before all comms.
#[inline(always)]
pub fn is_position(chunks: &[CommChunk], prefix: IdPrefix, id: &Text, position: &Position) -> bool
    requires prefix { to_be_bytes w64 prefix ≡ padded 8 id.now }
    requires filled { AllChunksFilled chunks.now }
    requires ordered { IsInOrder (comms_in chunks.now) }
    ensures { result ≡ true → IsPosition chunks.now id.now position.now }
{
    match position.at {
        Ok(i) => is_found(chunks, id, position.chunk, i),
        Err(i) => is_gap(chunks, prefix, id, position.chunk, i),
    }
}

/// The position of the id, by two binary searches; None where there is no chunk.
pub fn find_position(chunks: &[CommChunk], id: &Text) -> Option<Position>
    requires filled { AllChunksFilled chunks.now }
    requires ordered { IsInOrder (comms_in chunks.now) }
    ensures some { IfSome result (λ s. IsPosition chunks.now id.now s) }
    ensures none { IfNone result (chunks.now ≡ []) }
{
    if chunks.is_empty() {
        return None;
    }
    let prefix = id_prefix(id);
    let chunk = chunk_of(chunks, prefix, id);
    let at = place_of(chunks[chunk].as_slice(), prefix, id);
    Some(Position { chunk, at })
}
