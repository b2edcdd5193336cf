//! The clients of a manager at work in threads of their own, and the manager's end after them.
//!
//! The clients stay where they are: [`run_workers`] lends each to its thread, and [`shut_down`] takes them all.
#![tactic(auto)]

mod ending;
mod workers;

pub use ending::{Ended, shut_down};
pub use workers::run_workers;
