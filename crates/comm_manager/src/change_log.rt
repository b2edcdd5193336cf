//! The history under the lock, and where each change of it goes.
use crate::journal::{HistoryStore, Journal};
use crate::ledger::SeqTotals;
use crate::manager_id::ManagerId;
use comm_core::Limits;
use comm_outbox::Outbox;
use comm_versions::VersionWriter;

/// The history, with all that a change of it is told to: the writer that publishes it to the readers, the queue on
/// which its entries go out, and how many changes each client made. It can't be dropped, as its writer can't.
pub struct ChangeLog<M: ManagerId, S: HistoryStore> {
    pub limits: Limits,
    pub journal: Journal<M, S>,
    pub writer: VersionWriter<M>,
    pub outbox: Outbox,
    pub totals: SeqTotals<M>,
}
