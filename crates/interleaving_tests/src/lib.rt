//! Tests of the manager that threads share, of its versions, and of the queue of what goes out. They stand apart from
//! the other tests, so that neither are checked for the others' sake.
#![tactic(auto)]

#[cfg(test)]
mod tests;
