ghost use Rattle.std.specs.Prelude.{◌≡◌};

use comm_core::{Entry, Row};
use std::alloc::Global;
use std::sync::Arc;

/// An entry, with the row by which it changes the table of open comms.
#[derive(Drop)]
pub struct Change {
    pub entry: Arc<Entry, Global>,
    pub row: Row,
}

impl Change {
    /// Puts the two together. Which row belongs to an entry says the contract of `VersionWriter::append`.
    pub fn new(entry: Arc<Entry, Global>, row: Row) -> Change
        ensures entry { result.entry ≡ entry }
        ensures row { result.row ≡ row }
    {
        Change { entry, row }
    }
}
