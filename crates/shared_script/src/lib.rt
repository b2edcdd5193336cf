//! Plays scripts of comm messages and commands over a manager that threads share, in the caller's thread.
//!
//! [`run_shared_with`] plays a script with a stock of targets of one type, [`run_shared`] with boxes, by the player
//! of `comm_script`. The client of a line hears the stamp of the last change first, so that it reads no less; and
//! after each change the publisher is emptied, and what it took is written, as a kernel's publishing thread would. A
//! change that isn't made for want of room has a line of its own (`docs/FORMATS.md`). What is written is else what
//! `comm_script` writes for the same script; tests compare the two.
//!
//! Whoever lets threads loose on a script takes [`register_from_stock`], [`append_infos_seen`] and
//! [`append_state_seen`] for a client's requests, and [`append_full`] for the line of a change that isn't made.
#![tactic(auto)]

mod running;
mod sequencer;
mod session;
mod wording;

pub use running::{run_shared, run_shared_with};
pub use sequencer::{append_infos_seen, append_state_seen, register_from_stock};
pub use wording::{Full, append_full, full_of};
