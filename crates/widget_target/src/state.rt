ghost use Rattle.std.specs.Prelude.{◌≡◌};
ghost use Rattle.comm_value.specs.Gives as value;
ghost use Rattle.comm_value.specs.Paths.{is_memory};
ghost use Rattle.comm_value.specs.View.{tree};
ghost use Rattle.comm_targets.specs.Widget.{state_of, with_buffers, fault_of};
ghost use Rattle.widget_target.specs.Gives.{Gives};

use comm_messages::Body;
use comm_targets::TargetFault;
use comm_value::{Dict, Val, ValueFault, paths_of, put_all};
use std::alloc::Global;

/// A message's `state`, with its buffers at its `buffer_paths`.
/// BadState where it is no dict, else the first fault of the paths or of the placing.
pub fn state_of(alloc: Global, state: &Val, body: &Body) -> Result<Dict, TargetFault>
    ensures { Gives result (state_of (tree state.now) body.now) }
{
    match state {
        Val::Dict(state) => with_buffers(alloc, state, body).map_err(fault_of),
        _ => Err(TargetFault::BadState),
    }
}

// The message's buffers in the state, at its `buffer_paths`.
fn with_buffers(alloc: Global, state: &Dict, body: &Body) -> Result<Dict, ValueFault>
    ensures { value.Gives is_memory (λ d. d) result (with_buffers state.now body.now) }
{
    let paths = paths_of(alloc, body.content().get("buffer_paths"))?;
    let buffers = body.buffers().copy(alloc)?;
    put_all(alloc, state.copy()?, paths.as_slice(), buffers)
}

// A fault of reading or placing, as the target's.
fn fault_of(fault: ValueFault) -> TargetFault
    ensures { result ≡ fault_of fault }
{
    match fault {
        ValueFault::BadPath(path) => TargetFault::BadPath(path),
        ValueFault::BufferMissing(path) => TargetFault::BufferMissing(path),
        ValueFault::NotWhole => TargetFault::BadState,
        ValueFault::Memory => TargetFault::Memory,
    }
}
