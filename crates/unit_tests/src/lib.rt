//! Tests of the crates below, of what no contract says: outside vectors, texts as they are written, ends that are
//! counted. They stand here, since a crate that has tests is proved twice.
#![tactic(auto)]

#[cfg(test)]
mod tests;
