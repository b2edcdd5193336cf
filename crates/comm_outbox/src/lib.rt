//! Outgoing entries: one side of a queue puts them, the other takes them, in order and each once.
//!
//! **What a kernel's IOPub thread takes is the history from its beginning, each entry once and in order, and it
//! enters no lock of those who make the history; what it hasn't taken at the end is handed out then, so that both
//! together are the whole history.**
//!
//! [`outbox`] makes a bounded queue, which is `crossbeam_queue`'s, with its two sides. Each side may go to a thread.
//! The [`Outbox`] lies where the history is made, so under the lock of a shared manager; the [`Publisher`] belongs to
//! the thread that sends. What threads do at the same time is judged by a rule, which each step keeps whatever the
//! other side did before (`KeepsOrder`, in `specs/Order`): what was put is legal, and is what was taken followed by
//! what the queue holds.
//!
//! # What is proved
//!
//! A list of entries is legal where each is what the one-thread manager answers there (`IsLegal`, in `comm_core`'s
//! `specs/History`). What contracts see of either side stands in `specs/Sides`: `puts`, what was put, `taken`, what
//! was taken, and `queue`, which queue it is.
//!
//! - What is taken comes once and in order: `taken` grows by the very entry, or stays. It is legal itself, as a
//!   prefix of a legal list (`next`, `legal` of [`Publisher::take`]).
//! - It is a prefix of what was put: no entry that wasn't put, none left out, none before its turn
//!   ([`Outbox::give_up`]).
//! - Nothing is lost: what was taken followed by what nobody took is what was put; the latter is at most as many
//!   entries as there are places (`all`, `few` of [`Outbox::take_rest`]).
//! - An entry that is put is the next of `puts`, and nothing else changes but the room ([`Outbox::put`]).
//! - What was put is legal (`legal` of [`Outbox::put`], which asks for it, and of [`Outbox::waiting`]).
//! - At most as many entries wait as there are places, and as were put; the room is what was found free (`places`,
//!   `puts`, `room` of [`Outbox::waiting`]).
//! - A new queue is empty, and has room for as many entries as there are places; there is none only where memory ran
//!   out ([`outbox`]).
//! - The number of entries that were taken is exact ([`Publisher::taken`]).
//! - Both sides may go to another thread (`proofs/Crossing`).
//!
//! # The last step that may be refused
//!
//! A history must not have a change whose entry can't go out, so all that can be refused comes before the change is
//! made: memory for the entry, and the room check, [`Outbox::waiting`]. It is the last: `put` asks for room that such
//! a check found, takes no memory, and has no error. To keep a place for the end of the history, make the queue one
//! place longer than entries may wait: while each check that goes on found fewer than that many, `1 ≤ room` holds
//! after each put, so the end finds its place without another check.
//!
//! # What isn't proved
//!
//! - That `take` answers `None` only where nothing waits, and that as many entries wait as `waiting` says. Both are
//!   promises of `crossbeam_queue` on one moment of the call, and tests show them; no contract can say what lies in a
//!   queue that others use.
//! - That `put` finds its place at once. Where it found none, it would try again until the publisher takes. Its loop
//!   (`put_on`, in `src/outgoing.rt`) says why it doesn't.
//! - That anything is ever taken, or sent; and time. A call that takes a [`Wait`](std::sync::Wait) is spoken of if it
//!   returns.
//!
//! # How it is used
//!
//! Under the lock, for a change that is prepared:
//!
//! ```text
//! let waiting = outbox.waiting(rt);
//! if waiting >= limit {
//!     return Err(Unavailable::OutboxFull(waiting));          // nothing has happened yet
//! }
//! let entry = ready.entry(alloc, client, number)?;           // the last memory
//! ..                                                         // the change is made, and can't be taken back
//! outbox.put(rt, entry);                                     // can't fail
//! ```
//!
//! The thread that sends:
//!
//! ```text
//! while let Some(entry) = publisher.take(rt) {
//!     ..                                                     // write entry.outgoing
//! }
//! ```
//!
//! At the end, where both sides are back, with a list that was given room before anything was ended:
//!
//! ```text
//! let untaken = outbox.take_rest(rt, publisher, room);
//! ```
//!
//! `comm_manager` has all of this: `src/change.rt`, `src/inner.rt` and `src/publisher.rt`; `interleaving_tests` has a
//! queue that is refused memory, in `src/tests/new_queue.rt`. A structure that keeps an `Outbox` under a lock says of
//! which queue it is by a type parameter, as `comm_manager`'s `ManagerId` does, so that `queue` is known where lock
//! and publisher come together again.
#![tactic(auto)]

mod entry_queue;
mod opening;
mod outgoing;
mod publisher;

pub use opening::outbox;
pub use outgoing::Outbox;
pub use publisher::Publisher;
