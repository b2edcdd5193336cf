//! Tests in which each allocation of a call is refused in turn, crate by crate up to the manager that threads share.
//! They need a heap that refuses (tools/refuse/run); a plain one refuses nothing, and then each goes round once. A
//! name that begins with `refused_` says that some allocation must be refused, one that begins with `spared_` that
//! none may be.
#![tactic(auto)]

#[cfg(test)]
mod tests;
