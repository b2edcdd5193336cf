//! Maps that keep their entries in the order of insertion.
//!
//! [`Table`] removes an entry without moving the others: a tombstone (a gap) stays at its place. When more than half
//! of the places are gaps, all gaps are removed at once, so a removal costs O(1) amortized. `specs/Table` defines
//! what a table stands for in contracts.
#![tactic(auto)]

mod table;

pub use table::Table;
