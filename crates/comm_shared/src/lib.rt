//! A comm manager that threads share without a lock of its own, for a library that may not wait.
//!
//! A [`SharedManager`] is the machine of one thread with its history, which exists in proofs alone. Whoever has it makes
//! the changes of any [`SharedClient`]: each is the last entry of a legal history that begins with all that its client
//! had seen. How it is had by one thread at a time is the caller's. Clients read beside it: a version of the comms stands
//! on a [`Shelf`](shelf::Shelf), where each copies it with no lock and no wait.
#![tactic(auto)]

mod change;
mod client;
mod manager;
mod reader;
mod seats;
mod shown_version;
mod writer;

pub use change::ChangeFault;
pub use client::SharedClient;
pub use manager::{OpenFault, SharedChange, SharedManager};
pub use reader::{SharedReadFault, SharedReader, TargetRead};
pub use seats::Seats;
