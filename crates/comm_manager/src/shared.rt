//! The manager that threads share.
ghost use Rattle.std.specs.Prelude.{◌≡◌, ◌≤◌, ◌++◌, [], ◌∷◌, length, All, IfOk, IfErr, MatchResult, true, false, List};
ghost use Rattle.comm_core.specs.History.{IsLegal};
ghost use Rattle.comm_core.specs.declared.entry.Entry.{Entry};
ghost use Rattle.comm_core.specs.declared.entry.Entry.TheVariants.{End};
ghost use Rattle.comm_outbox.specs.Sides.{entries_of};
ghost use Rattle.comm_versions.specs.Mine.{IsSettled};
ghost use Rattle.comm_manager.specs.Names.{Named};
ghost use Rattle.comm_versions.specs.ClientView.{all_new};
ghost use Rattle.comm_manager.specs.Why.{IsMissing, all_here, is_here};

use crate::builder::{ManagerBuilder, first_clients};
use crate::client::Client;
use crate::inner::{Farewell, Inner};
use crate::journal::{HistoryStore, KeptHistory};
use crate::ledger::SeqTotals;
use crate::manager_id::ManagerId;
use crate::publisher::Publisher;
use comm_core::Core;
use comm_targets::Target;
use comm_versions::{OpeningFault, versions};
use std::alloc::Global;
use std::sync::{Mutex, Wait};
use thiserror::Error;

/// The manager, which threads share by reference. It can't be dropped: `shutdown` or `discard` ends it. With a
/// [`CountedHistory`](crate::CountedHistory) as `S` it doesn't keep the entries that were taken.
pub struct Manager<M: ManagerId, T: Target, S: HistoryStore = KeptHistory> {
    pub(crate) alloc: Global,
    pub(crate) inner: Mutex<Inner<M, T, S>>,
}

/// Why a manager isn't shut down.
#[derive(Clone, Copy, Debug, PartialEq, Eq, Error)]
pub enum Cause {
    /// There is no memory for the end of the history.
    #[error("out of memory")]
    Memory,
    /// A client of the manager isn't among those that were handed in.
    #[error("a client is missing")]
    MissingClients,
}

/// A shutdown that is refused: all that was handed in.
pub struct ShutdownRefused<M: ManagerId, T: Target, S: HistoryStore = KeptHistory> {
    pub cause: Cause,
    pub manager: Manager<M, T, S>,
    pub clients: Vec<Client<M>>,
    pub publisher: Publisher<M>,
}

// Whether a client of this number is among these.
fn is_here<M: ManagerId>(clients: &[Client<M>], id: u8) -> bool
    ensures { result ≡ is_here id clients.now }
{
    clients.iter().any(|client| client.id() == id)
}

// Whether the first clients are all among these.
fn are_here<M: ManagerId>(clients: &[Client<M>], count: u8) -> bool
    ensures { result ≡ all_here count clients.now }
{
    for id in 0..count {
        if !is_here(clients, id) {
            return false;
        }
    }
    true
}

impl<M: ManagerId, T: Target, S: HistoryStore> Manager<M, T, S> {
    /// Opens the manager that was built: gives it, its clients in the order of their numbers, who have made no change
    /// and seen nothing, and its publisher, which has taken nothing. Err: memory, or the versions had no place for a
    /// reader (NoReader).
    pub fn open<R: Wait>(
        rt: &R,
        alloc: Global,
        builder: ManagerBuilder,
    ) -> Result<(Manager<M, T, S>, Vec<Client<M>>, Publisher<M>), OpeningFault>
        requires { Named builder M.book M.ledgers M.queue M.limits }
        ensures clients { IfOk result (λ r. r.1.items ≡ all_new M.limits.clients) }
        ensures publisher { IfOk result (λ r. r.2 ≡ []) }
    {
        let ManagerBuilder {
            limits,
            history,
            outbox,
            publisher,
            first,
            second,
            third,
            fourth,
        } = builder;
        let (writer, readers) = versions::<M, R>(rt, alloc, history, limits.clients, limits.comms)?;
        let (totals, seqs) = SeqTotals::open(first, second, third, fourth);
        let Ok(clients) = first_clients(alloc, readers, seqs) else {
            writer.end(rt);
            return Err(OpeningFault::Memory);
        };
        match Core::new(alloc, limits) {
            Ok(core) => {
                let inner = Inner::new(alloc, limits, core, writer, outbox, totals);
                let inner = Mutex::new(inner);
                Ok((Manager { alloc, inner }, clients, Publisher::new(publisher)))
            }
            // The limits of a builder are allowed.
            Err(_fault) => unreachable!(),
        }
    }

    /// Ends the history, and each target after its comms, and gives the one history, in which an end stands last, or
    /// its length. It is what the publisher took followed by what it left. What each client has seen is a prefix of
    /// it, and it has of each client just the changes that were answered to it. Err: a client is missing, or else there is
    /// no memory for the end; all is handed back as it was, and another shutdown may follow.
    pub fn shutdown<R: Wait>(
        self,
        rt: &R,
        clients: Vec<Client<M>>,
        publisher: Publisher<M>,
    ) -> Result<Farewell<S>, ShutdownRefused<M, T, S>>
        ensures history { IfOk result (λ f.
            S.leaves f.history (publisher ++ entries_of f.untaken.items)) }
        ensures legal { IfOk result (λ f.
            IsLegal M.limits.clients M.limits.comms (publisher ++ entries_of f.untaken.items)) }
        ensures ended { IfOk result (λ f.
            (before : List Entry) × (publisher ++ entries_of f.untaken.items ≡ before ++ End ∷ [])
            × (length before ≤ M.limits.history)) }
        ensures settled { IfOk result (λ f.
            All (λ w. IsSettled (publisher ++ entries_of f.untaken.items) w) clients.items) }
        ensures missing { MatchResult result
            (λ _. all_here M.limits.clients clients.items ≡ true)
            (λ e. IsMissing M.limits.clients clients.items e.cause) }
        ensures err { IfErr result (λ e. (e.clients ≡ clients) × (e.publisher ≡ publisher)) }
    {
        let Manager { alloc, inner } = self;
        let inner = inner.into_inner();
        if !are_here(clients.as_slice(), inner.clients()) {
            return Err(hand_back(alloc, Cause::MissingClients, inner, clients, publisher));
        }
        match inner.finish(rt, alloc, clients, publisher) {
            Ok(farewell) => Ok(farewell),
            Err((inner, clients, publisher)) => {
                Err(hand_back(alloc, Cause::Memory, inner, clients, publisher))
            }
        }
    }

    /// Ends each target, after its comms, and gives nothing back. It takes no memory. Clients may outlive it, and
    /// read what was published last, or nothing.
    pub fn discard<R: Wait>(self, rt: &R) {
        let Manager {
            alloc: _alloc,
            inner,
        } = self;
        inner.into_inner().discard(rt);
    }
}

// The refusal of a shutdown, with all that was handed in.
fn hand_back<M: ManagerId, T: Target, S: HistoryStore>(
    alloc: Global,
    cause: Cause,
    inner: Inner<M, T, S>,
    clients: Vec<Client<M>>,
    publisher: Publisher<M>,
) -> ShutdownRefused<M, T, S>
    ensures { (result.cause ≡ cause) × (result.clients ≡ clients) × (result.publisher ≡ publisher) }
{
    let inner = Mutex::new(inner);
    ShutdownRefused {
        cause,
        manager: Manager { alloc, inner },
        clients,
        publisher,
    }
}
