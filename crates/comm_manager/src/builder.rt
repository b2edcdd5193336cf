//! What a manager is made of before it has a name.
ghost use Rattle.std.specs.Prelude.{◌≡◌, ◌≤◌, ◌++◌, [], ◌∷◌, All, IfOk, IfErr, nat_lt, ◌+◌, ◌<◌, ◌-◌, vec_len};
ghost use Rattle.std.specs.Prelude.{if◌then◌else◌};
ghost use Rattle.comm_core.specs.Limits.{AreAllowed};
ghost use Rattle.comm_manager.specs.SeqView.{seq_view};
ghost use Rattle.comm_versions.specs.ClientView.{client_view, all_new};
ghost use Rattle.comm_manager.specs.Why.{IsBarred};

use crate::client::Client;
use crate::ledger::{ClientSeq, ClientSeqs};
use crate::manager_id::ManagerId;
use comm_core::{Limits, NewFault};
use comm_outbox::{Outbox, outbox};
use comm_versions::{BlankHistory, VersionReader};
use std::alloc::{AllocError, Global};
use std::marker::Model;
use std::sync::ledger::Blank;

/// A manager that has no name yet. Contracts see what it is to be named by.
#[derive(Drop)]
pub struct ManagerBuilder {
    pub(crate) limits: Limits,
    pub(crate) history: BlankHistory,
    pub(crate) outbox: Outbox,
    pub(crate) publisher: comm_outbox::Publisher,
    pub(crate) first: Blank,
    pub(crate) second: Blank,
    pub(crate) third: Blank,
    pub(crate) fourth: Blank,
}

impl Model for ManagerBuilder {
    ghost use Rattle.std.specs.Prelude.{◌≡◌, ◌+◌};
    ghost use Rattle.comm_core.specs.Limits.{AreAllowed};
    ghost use Rattle.comm_outbox.specs.Sides.{new_outbox, new_publisher};
    ghost use Rattle.comm_manager.specs.Names.{Names};

    ghost Value = { Names };

    ghost view = { λ o. record {
      book = o.history;
      first = o.first.name;
      second = o.second.name;
      third = o.third.name;
      fourth = o.fourth.name;
      queue = o.outbox.queue;
      limits = o.limits;
    } };

    ghost invariant = { λ o.
        (o.first.parts ≡ 1) × (o.second.parts ≡ 1) × (o.third.parts ≡ 1) × (o.fourth.parts ≡ 1)
        × AreAllowed o.limits
        × (o.outbox ≡ new_outbox o.outbox.queue o.limits.clients o.limits.comms
        (o.limits.outbox + 1))
        × (o.publisher ≡ new_publisher o.outbox.queue o.limits.clients o.limits.comms) };
}

impl ManagerBuilder {
    /// Makes the parts of a manager. Err: BadLimits exactly where a limit is out of its bounds, else Memory.
    pub fn new(alloc: Global, limits: Limits) -> Result<ManagerBuilder, NewFault>
        ensures limits { IfOk result (λ o. (o.limits ≡ limits) × AreAllowed limits) }
        ensures err { IfErr result (λ e. IsBarred limits e) }
    {
        if !limits.are_allowed() {
            return Err(NewFault::BadLimits);
        }
        // One place more than entries may wait: for an end.
        match outbox(alloc, limits.outbox + 1, limits.clients, limits.comms) {
            Ok((outbox, publisher)) => Ok(ManagerBuilder {
                limits,
                history: BlankHistory::new(),
                outbox,
                publisher,
                first: Blank::new(1),
                second: Blank::new(1),
                third: Blank::new(1),
                fourth: Blank::new(1),
            }),
            Err(_) => Err(NewFault::Memory),
        }
    }
}

// Adds a client with this number, if a reader is left for it.
fn with_client<M: ManagerId>(
    clients: Vec<Client<M>>,
    readers: &mut Vec<VersionReader<M>>,
    seq: ClientSeq<M>,
) -> Result<Vec<Client<M>>, AllocError>
    requires seq { (seq.client < 4) × (seq.number ≡ 0) }
    requires readers { vec_len readers.old ≡ M.limits.clients - seq.client }
    requires none { All (λ r. r ≡ []) readers.old.items }
    ensures clients { IfOk result (λ v.
        v.items ≡ (if nat_lt seq.client M.limits.clients
        then clients.items ++ client_view seq.client 0 [] ∷ [] else clients.items)) }
    ensures readers { vec_len readers.new ≡ M.limits.clients - (seq.client + 1) }
    ensures none { All (λ r. r ≡ []) readers.new.items }
{
    let mut clients = clients;
    if let Some(reader) = readers.pop() {
        clients.push(Client::new(reader, seq))?;
    }
    Ok(clients)
}

/// The clients that a manager begins with, one for each reader, in the order of their numbers. Err: memory.
pub fn first_clients<M: ManagerId>(
    alloc: Global,
    readers: Vec<VersionReader<M>>,
    seqs: ClientSeqs<M>,
) -> Result<Vec<Client<M>>, AllocError>
    requires count { (1 ≤ M.limits.clients) × (M.limits.clients ≤ 4) }
    requires readers { (vec_len readers ≡ M.limits.clients) × All (λ r. r ≡ []) readers.items }
    requires seqs { (seqs.first ≡ seq_view 0 0) × (seqs.second ≡ seq_view 1 0)
        × (seqs.third ≡ seq_view 2 0) × (seqs.fourth ≡ seq_view 3 0) }
    ensures { IfOk result (λ v. v.items ≡ all_new M.limits.clients) }
{
    let ClientSeqs {
        first,
        second,
        third,
        fourth,
    } = seqs;
    let mut readers = readers;
    let one = with_client(Vec::new(alloc), &mut readers, first)?;
    let two = with_client(one, &mut readers, second)?;
    let three = with_client(two, &mut readers, third)?;
    with_client(three, &mut readers, fourth)
}
