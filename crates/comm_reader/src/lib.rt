//! Messages of frontends, read in one walk over their text.
//!
//! [`message_at_once`] reads a line as [`comm_messages::message_in`] reads its parsed object, but parses the `data` of
//! the message straight into a [`comm_value::Dict`]: no tree of it is built. It gives the message of a line that passes
//! each test, or nothing; then the line is read anew by [`comm_messages`], which says what is wrong with it, and reads
//! what is large. [`parts_at_once`] reads a message by its parts so, and [`push_at_once`] the kernel's update of a
//! widget. `specs/Reader` defines what is read.

#![tactic(auto)]

mod content;
mod heading;
mod incoming;
mod line;
mod parts;
mod push;
mod walk;

pub use line::message_at_once;
pub use parts::parts_at_once;
pub use push::push_at_once;
