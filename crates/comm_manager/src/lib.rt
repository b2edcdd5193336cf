//! A comm manager that threads share.
//!
//! **Whatever calls the client threads make and however their steps interleave, there is one history of a one-thread
//! comm manager that holds each answered change once, in which every reply, comm list and state read is that
//! manager's own at a point not before anything its caller had seen; and no target object ends while a comm of it is
//! open.**
//!
//! # What is proved of it, and by which contract
//!
//! A history is a list of entries, and it is legal where each entry is what the one-thread manager answers there
//! (`IsLegal`, in `comm_core`'s `specs/History`). A front is a prefix of it. Contracts see a client as its number,
//! how many changes it made, and the front that it has seen (`ClientView`); its answered changes are the first so
//! many of its entries in that front (`made`, in `comm_versions`' `specs/Mine`).
//!
//! *One history that holds each answered change once*:
//!
//! - An answered change ends a legal front, as its last entry: the very call, the client, the next of its numbers,
//!   and the very reply. It is one more of the client's changes, which are all that the front has of that client.
//!   This is `answered` of the ten functions of [`Client`] that make a change (`IsAnswered`).
//! - A change that isn't made leaves its client as it was, and has a reason that holds: a stamp of a whole history
//!   that is full, at least as many entries waiting as may, or want of memory (`err`, `why` there; `IsReason`).
//! - All clients' fronts are prefixes of the one legal history, which has of each just the changes that were answered
//!   to it, and an end last (`legal`, `ended`, `settled` of [`Manager::shutdown`]; `IsSettled`).
//!
//! *Every reply is that manager's own*: the front is legal with that reply in it (`answered`).
//!
//! *Every comm list and state read is*: the list and the state are those of the one-thread manager after the front
//! that the client has then seen, which is legal (`legal`, `answer`, `front` of [`Client::comm_info`] and
//! [`Client::state`]).
//!
//! *At a point not before anything its caller had seen*: what a client had seen is a prefix of what it has seen after
//! any call. A change comes after all that its client had seen; a client that hears a stamp has seen no less than the
//! stamp's front (`answered`, its part `seen`; `later` of the reads; `own`, `stamp` of [`Client::hear`]).
//!
//! *No target object ends while a comm of it is open*: a target is `Held`, which only `Held::end` lets go, and that
//! asks that no comm of it is open; `stop_all` alone ends a `Core`. Neither can be dropped, so a body that forgets a
//! target isn't accepted. That holds of code without `unsafe`: by `ManuallyDrop::new_unchecked` anything can be
//! forgotten. `wrap_log` in `src/inner.rt` is the one place of this crate that calls it, and what it wraps is the
//! log, whose writer of the versions `VersionWriter::end` alone ends. That no comm is open by the target's own list
//! means that none is by the machine's: this is the type of what lies under the lock (`comm_targets`, `comm_core`;
//! `src/inner.rt`).
//!
//! Besides:
//!
//! - A target that was handed in comes back as it was where the change isn't made (`boxed` of [`Client::register`]).
//! - A read, or a stamp that is heard, leaves the client's changes (`made` of the reads and of [`Client::hear`]).
//! - What is taken is the history from its beginning, each entry once and in order: it grows by the very entry, and
//!   is legal; and followed by what was left it is the whole history, which is handed out, or counted by a manager
//!   that keeps none (`next`, `legal` of [`Publisher::take`], `history` of [`Manager::shutdown`]; [`CountedHistory`]).
//! - A shutdown is refused for MissingClients just where a client is missing, and else for want of memory alone; the
//!   manager, the clients and the publisher come back as they were (`missing`, `err` of [`Manager::shutdown`]).
//! - The clients of a new manager are those of its limits, in the order of their numbers, and have made no change and
//!   seen nothing; its publisher has taken nothing (`clients`, `publisher` of [`Manager::open`]).
//! - There is no manager just where a limit is out of its bounds; or memory ran out, or the versions had no place for
//!   a reader ([`ManagerBuilder::new`], [`Manager::open`]).
//!
//! The history lies under one lock, with the tables and the targets, and all of this is the type of what lies there,
//! so it is true whenever the lock is got (`specs/UnderLock`): the history is legal, within the limits, and is what
//! is published to the readers and was put into the queue; the tables and the targets are those after it, with
//! nothing staged; and it has of each client as many entries as that client's ledger says, whose one share the client
//! has. The calls under the lock say more than the public ones, since there the history has a name (`src/inner.rt`).
//!
//! Premises: a boxed target keeps the contract of `Target`; a call that waits for the lock is spoken of if it
//! returns. That clients, publisher and stamps are used with the manager that they came with is no premise: they
//! share a type parameter, the manager's name. After [`Manager::discard`] nobody holds the one history.
//!
//! Reads take no lock and can't wait: they have no [`Wait`](std::sync::Wait). A publisher enters no lock either, but
//! may wait for the queue. Of the loops that try again, there is one here: a change of a client that had seen more
//! than the history under the lock wouldn't return (`check_seen` in `src/change.rt`). None can have, but that is
//! known only of a history that has ended. `comm_versions` and `comm_outbox` say of their loops why they end.
//!
//! # How a kernel uses it
//!
//! A kernel opens a manager under a name, in two functions. The first is generic in the name, and has all that is
//! done while the manager lives:
//!
//! ```text
//! fn serve<M: ManagerId + Send + Sync, T: Target, R: Threads + Wait + Sync>(
//!     rt: &R,
//!     alloc: Global,
//!     builder: ManagerBuilder,
//!     widgets: T,
//! ) -> Result<(), Fault>
//!     requires named { Named builder M.book M.ledgers M.queue M.limits }
//!     requires idle { IsIdle (T.means widgets) }
//! {
//!     let (manager, clients, publisher) = Manager::<M, T>::open(rt, alloc, builder)?;
//!     // a shell thread and a publishing thread
//!     let (clients, publisher) = both(rt, &manager, clients, publisher, widgets);
//!     match manager.shutdown(rt, clients, publisher) {
//!         Ok(farewell) => ..                                // the whole history, and what wasn't sent
//!         Err(refused) => ..                                // take it apart, and discard its manager
//!     }
//! }
//! ```
//!
//! The second picks the name. It isn't generic in it:
//!
//! ```text
//! fn named<T: Target, R: Threads + Wait + Sync>(rt: &R, alloc: Global, widgets: T) -> Result<(), Fault>
//!     requires { IsIdle (T.means widgets) }
//! {
//!     let builder = ManagerBuilder::new(alloc, LIMITS)?;
//!     serve::<Brand, T, R>(rt, alloc, builder, widgets)
//! }
//! ```
//!
//! with the pick in `proofs/named/Invariants.antt`:
//!
//! ```text
//! use Rattle.comm_manager.specs.Names.{named}
//! use Rattle.mine.proofs.named.Given as goal
//!
//! abbrev pub ghosts-serve-M-History : goal.ghosts-serve-M-History
//! ghosts-serve-M-History g a = record { book = a.builder.book; limits = a.builder.limits }
//!
//! abbrev pub ghosts-serve-M-ManagerId : goal.ghosts-serve-M-ManagerId
//! ghosts-serve-M-ManagerId g a = record {
//!   ledgers = named a.builder.first a.builder.second a.builder.third a.builder.fourth;
//!   queue = a.builder.queue;
//! }
//! ```
//!
//! A shell thread has a client, and answers each message of the frontend by a change:
//!
//! ```text
//! match client.message(rt, manager, id, body) {
//!     // what the target hands to the caller stands in answered.reply;
//!     // who hears answered.stamp reads no less than this change
//!     Ok(answered) => ..
//!     Err(Unavailable::OutboxFull(_)) => thread::yield_now(),
//!     Err(why) => return Err(why),
//! }
//! ```
//!
//! and a publishing thread writes what goes out, in the order of the history:
//!
//! ```text
//! while let Some(entry) = publisher.take(rt) {
//!     if let Entry::Change { client, number, outgoing, .. } = &*entry {
//!         for message in outgoing.as_slice() {
//!             send(message, &Parent::Call { client: *client, number: *number })?;
//!         }
//!     }
//! }
//! ```
//!
//! Where a function starts threads, the check asks that what it hands to them, and what they give back, may cross.
//! Put the call of `join` into a small function, `both`, and answer it in `proofs/both/Answers.antt`; the bounds, and
//! what follows of the manager's parts, are bound by name, so that the search finds them:
//!
//! ```text
//! use denote.Param.Send.{sendable}
//! use Rattle.std.proofs.Crossing.{crosses}
//! use Rattle.comm_manager.proofs.Crossing.{manager_sync, client_send, publisher_send}
//! use Rattle.mine.proofs.both.Goals as goal
//!
//! pub join-requires-send-F : goal.join-requires-send-F
//! join-requires-send-F g c κs within =
//!     let s = c.type_bounds.sync-R in
//!     let j = c.type_bounds.send-M in
//!     let k = c.type_bounds.sync-M in
//!     let t = c.type_bounds.send-T in
//!     let m = manager_sync _ g.M.ManagerId g.M.History j k _ g.T.Target t in
//!     let l = client_send _ g.M.ManagerId g.M.History j k in
//!     let p = publisher_send _ g.M.ManagerId g.M.History j k in
//!     search (sendable, crosses) depth 60
//!
//! pub join-requires-send-A : goal.join-requires-send-A
//! join-requires-send-A g c κs within =
//!     let j = c.type_bounds.send-M in
//!     let k = c.type_bounds.sync-M in
//!     let l = client_send _ g.M.ManagerId g.M.History j k in
//!     let p = publisher_send _ g.M.ManagerId g.M.History j k in
//!     search (sendable, crosses) depth 60
//! ```
//!
//! `thread_harness` has this whole: `src/harness.rt` has the two functions, `src/threads.rt` starts the threads.
//! `interleaving_tests` plays its tests over it.
#![tactic(auto)]

mod answered;
mod builder;
mod change;
mod change_log;
mod client;
mod inner;
mod journal;
mod ledger;
mod manager_id;
mod publisher;
mod shared;

pub use answered::Answered;
pub use builder::ManagerBuilder;
pub use client::Client;
pub use comm_versions::{InfoRead, OpeningFault, ReadFault, Stamp, StateRead};
pub use inner::Farewell;
pub use journal::{CountedHistory, HistoryStore, KeptHistory};
pub use manager_id::ManagerId;
pub use publisher::Publisher;
pub use shared::{Cause, Manager, ShutdownRefused};
