//! What a row would change in comms in chunks.
ghost use Rattle.std.specs.Prelude.{◌≡◌, IfSome, Some, false, true, option_map, slice_get};
ghost use Rattle.comm_core.specs.Machine.{at};
ghost use Rattle.comm_versions.specs.Listing.{ListAlike};
ghost use Rattle.comm_versions.specs.Chunks.{AllChunksFilled, IsInOrder, IsPosition, comms_in, upsert};

use crate::position::{Position, find_position};
use crate::search::CommChunk;
use comm_core::OpenComm;
use comm_value::Text;

/// Where a row makes its first change, if that is known, and whether other comms may be listed after it.
#[derive(Clone, Copy)]
pub struct RowEffect {
    pub position: Option<Position>,
    pub changes_listing: bool,
}

impl RowEffect {
    /// An effect whose position isn't known, or that has none.
    pub fn without_position(changes_listing: bool) -> RowEffect
        ensures { result.changes_listing ≡ changes_listing }
    {
        RowEffect {
            position: None,
            changes_listing,
        }
    }
}

// Whether the comm at this position has this target.
fn has(chunks: &[CommChunk], id: &Text, position: Position, target: &Text) -> bool
    requires ordered { IsInOrder (comms_in chunks.now) }
    requires position { IsPosition chunks.now id.now position }
    ensures { result ≡ true
        → option_map (λ c. c.target) (at (comms_in chunks.now) id.now) ≡ Some target.now }
{
    match position.at {
        Ok(i) => chunks[position.chunk][i].comm().target() == target,
        Err(_) => false,
    }
}

/// What putting this comm changes: a comm that replaces one of its id and target leaves the listing as it is.
pub fn put_effect(chunks: &[CommChunk], comm: &OpenComm) -> RowEffect
    requires filled { AllChunksFilled chunks.now }
    requires ordered { IsInOrder (comms_in chunks.now) }
    ensures { result.changes_listing ≡ false
        → ListAlike (comms_in chunks.now) (upsert (comms_in chunks.now) comm.now) }
{
    match find_position(chunks, comm.id()) {
        Some(position) => RowEffect {
            position: Some(position),
            changes_listing: !has(chunks, comm.id(), position, comm.target()),
        },
        None => RowEffect::without_position(true),
    }
}

/// The position of the first of these ids, None where there is no id or no chunk.
pub fn first_position(chunks: &[CommChunk], ids: &[Text]) -> Option<Position>
    requires filled { AllChunksFilled chunks.now }
    requires ordered { IsInOrder (comms_in chunks.now) }
    ensures { IfSome result (λ s. IfSome (slice_get ids.now 0) (λ id. IsPosition chunks.now id s)) }
{
    match ids.first() {
        Some(id) => find_position(chunks, id),
        None => None,
    }
}
