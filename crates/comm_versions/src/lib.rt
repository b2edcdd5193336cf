//! One append-only history of entries, snapshots of the open comms for readers, and stamps that tell of them.
//!
//! The history itself exists in proofs alone. A [`VersionWriter`] appends entries to it and publishes the comms after
//! them. A [`VersionReader`] takes no lock: each of its reads is at a front, a prefix of the history, that includes
//! all that this reader had seen. A [`Stamp`] is such a front as a value: a reader that hears it sees no less from
//! then on.
//!
//! A version is one shared root, under which the comms stand in the byte order of their ids. The next version is one
//! that no reader looks at any more, brought up to date, or else a copy that shares what didn't change. A reader
//! caches the list of comms that it read last, and gives it again until a comm opens or closes.
//!
//! Whoever shows versions in another way makes them of the same parts: a [`RawHead`] and a [`RawFront`], which carry
//! the name of their history as a value, [`TableBuffers`] for the tables, and a [`Version`] of both.
#![tactic(auto)]

mod adding;
mod change;
mod changing;
mod chunks;
mod comm_table;
mod history;
mod opening;
mod position;
mod prefixed_comm;
mod published_front;
mod raw_front;
mod reader;
mod reader_state;
mod reads;
mod row_effect;
mod search;
mod showing;
mod stamp;
mod table_buffers;
mod version;
mod writer;

pub use change::Change;
pub use comm_table::CommTable;
pub use history::{BlankHistory, EntrySource, History, RawHead};
pub use opening::{OpeningFault, versions};
pub use raw_front::RawFront;
pub use reader::VersionReader;
pub use reads::{InfoRead, ReadFault, StateRead};
pub use stamp::Stamp;
pub use table_buffers::{NextTable, TableBuffers};
pub use version::Version;
pub use writer::VersionWriter;
