//! Tests of whole scripts, over both managers. They stand apart from the other tests, so that neither are checked for
//! the others' sake.
#![tactic(auto)]

#[cfg(test)]
mod tests;
