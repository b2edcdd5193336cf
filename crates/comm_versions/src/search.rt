//! Binary searches for an id among comms in order.
ghost use Rattle.std.specs.Prelude.{◌≡◌, ◌<◌, ◌≤◌, ◌+◌, IfOk, IfErr, length, take, drop};
ghost use Rattle.std.specs.Int.{to_be_bytes, w64};
ghost use Rattle.comm_versions.specs.Chunks.{AllIdsBelow, AllChunksFilled, IsBelowFirst, StartsWithId, IsInOrder};
ghost use Rattle.comm_versions.specs.Chunks.{comms_in};
ghost use Rattle.comm_versions.specs.IdPrefixes.{padded};

use crate::prefixed_comm::{IdPrefix, PrefixedComm};
use comm_value::Text;
use std::alloc::Global;
use std::cmp::Ordering;
use std::sync::Arc;

/// Some comms that follow one another, at least one. The tables before and after a change share it.
pub type CommChunk = Arc<Vec<PrefixedComm, Global>, Global>;

/// The index of the comm of this id, which has this prefix (Ok), or the index at which it would be inserted (Err).
pub fn place_of(comms: &[PrefixedComm], prefix: IdPrefix, id: &Text) -> Result<usize, usize>
    requires prefix { to_be_bytes w64 prefix ≡ padded 8 id.now }
    requires ordered { IsInOrder comms.now }
    ensures found { IfOk result (λ i.
        (i < length comms.now) × AllIdsBelow id.now (take i comms.now)
        × StartsWithId id.now (drop i comms.now)) }
    ensures absent { IfErr result (λ i.
        (i ≤ length comms.now) × AllIdsBelow id.now (take i comms.now)
        × IsBelowFirst id.now (drop i comms.now)) }
{
    let mut low = 0;
    let mut high = comms.len();
    while low < high {
        let middle = low + (high - low) / 2;
        let comm = &comms[middle];
        if comm.starts_above(prefix, id) {
            high = middle;
        } else if comm.starts_below(prefix, id) {
            low = middle + 1;
        } else {
            match comm.order(id) {
                Ordering::Less => high = middle,
                Ordering::Equal => return Ok(middle),
                Ordering::Greater => low = middle + 1,
            }
        }
    }
    Err(low)
}

/// The chunk in which the comm of this id, which has this prefix, stands, or would, by a search over the first ids.
pub fn chunk_of(chunks: &[CommChunk], prefix: IdPrefix, id: &Text) -> usize
    requires prefix { to_be_bytes w64 prefix ≡ padded 8 id.now }
    requires some { 0 < length chunks.now }
    requires filled { AllChunksFilled chunks.now }
    requires ordered { IsInOrder (comms_in chunks.now) }
    ensures within { result < length chunks.now }
    ensures below { AllIdsBelow id.now (comms_in (take result chunks.now)) }
    ensures above { IsBelowFirst id.now (comms_in (drop (result + 1) chunks.now)) }
{
    let mut low = 0;
    let mut high = chunks.len();
    while low + 1 < high {
        let middle = low + (high - low) / 2;
        let comms = chunks[middle].as_slice();
        if comms[0].is_above(prefix, id) {
            high = middle;
        } else {
            low = middle;
        }
    }
    low
}
