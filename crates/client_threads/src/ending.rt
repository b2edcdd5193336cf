//! The end of a manager whose threads are done.
ghost use Rattle.std.specs.Prelude.{◌≡◌, ◌++◌, length, All, IfOk};
ghost use Rattle.comm_core.specs.History.{IsLegal};
ghost use Rattle.comm_versions.specs.Mine.{IsSettled};
ghost use Rattle.comm_outbox.specs.Sides.{entries_of};

use comm_manager::{
    Cause, Client, Farewell, HistoryStore, KeptHistory, Manager, ManagerId, Publisher,
    ShutdownRefused,
};
use comm_targets::Target;
use std::sync::Wait;

/// What a manager leaves of its history, with what wasn't taken of it, and how many entries the publisher took.
#[derive(Drop)]
pub struct Ended<S = KeptHistory> {
    pub farewell: Farewell<S>,
    pub taken: u64,
}

/// Shuts a manager down; or discards it where that is refused, and says why.
pub fn shut_down<M: ManagerId, T: Target, S: HistoryStore, R: Wait>(
    rt: &R,
    manager: Manager<M, T, S>,
    clients: Vec<Client<M>>,
    publisher: Publisher<M>,
) -> Result<Ended<S>, Cause>
    ensures history { IfOk result (λ e.
        S.leaves e.farewell.history (publisher ++ entries_of e.farewell.untaken.items)) }
    ensures legal { IfOk result (λ e. IsLegal M.limits.clients M.limits.comms
        (publisher ++ entries_of e.farewell.untaken.items)) }
    ensures settled { IfOk result (λ e. All
        (λ w. IsSettled (publisher ++ entries_of e.farewell.untaken.items) w) clients.items) }
    ensures taken { IfOk result (λ e. e.taken ≡ length publisher) }
{
    let taken = publisher.taken();
    match manager.shutdown(rt, clients, publisher) {
        Ok(farewell) => Ok(Ended { farewell, taken }),
        Err(refused) => {
            let ShutdownRefused {
                cause,
                manager,
                clients: _clients,
                publisher: _publisher,
            } = refused;
            manager.discard(rt);
            Err(cause)
        }
    }
}
