use crate::staged_request::StagedRequest;
use comm_targets::Kind;
use comm_value::Text;

/// What a change does to the tables of targets and comms when it is committed.
#[derive(Drop)]
pub enum TableUpdate {
    /// They stay as they are.
    Nothing,
    /// Adds the target that was handed in.
    Register { name: Text, kind: Kind, notes: u64 },
    /// Puts the target that was handed in into the place of the one that has the name, whose comms are closed.
    Replace { name: Text, kind: Kind, notes: u64 },
    /// Takes the target out, and closes its comms.
    Unregister { name: Text },
    /// Takes the comm out, in its target first. It probably stands at this place.
    Close { id: Text, place: usize },
    /// Makes the change that the target staged, and notes its comm.
    Commit(StagedRequest),
}
