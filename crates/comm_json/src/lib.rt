//! JSON values behind references: `serde_json`'s, and those whose texts stand in the line that they were read from.
//!
//! [`read_line`] parses a line once, by the kit's `json`, into a tree whose strings are slices of the line and whose
//! lists stand in an arena ([`ParseArena`]). Contracts see this tree and `serde_json`'s values alike, as the kit's
//! `Json`, in which a number is its text; so both are read through one type, [`JsonRef`].
//!
//! The definitions of the contracts are in `specs/Behind`: `line_value` is the JSON value of a line, `behind` the one
//! behind a reference, `items` and `members` those behind a list or an object, `value_of_kind` the value of a
//! [`JsonKind`], `tidy` a value with each key once and in order, `whole_of` the integer that a number's text denotes,
//! and `is_decimal` tells the text of any other number. `specs/Text` has the compact text of a value, and
//! `specs/Numbers` what the numbers of a line are.

#![tactic(auto)]

mod in_order;
mod json_number;
mod json_ref;
mod laws;
mod ranges;
mod reading;

pub use in_order::{MemberRef, MembersInOrder};
pub use json_number::{NumberRef, is_decimal, number_in};
pub use json_ref::{ItemsRef, JsonKind, JsonRef, LineMembers, LineValue, ObjectRef};
pub use laws::{compact_texts_are_the_same, lines_have_numbers_in_range};
pub use ranges::numbers_are_in_range;
pub use reading::{JsonFault, ParseArena, TextScratch, read_among, read_line};
