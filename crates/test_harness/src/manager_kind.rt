//! The managers that a test can be played over.

/// Which manager is asked.
#[derive(Clone, Copy, Debug, PartialEq, Eq, Drop)]
pub enum ManagerKind {
    /// `comm_core`'s, which one thread has.
    OneThread,
    /// `comm_manager`'s, which threads share.
    Shared,
}

/// Each of them.
pub const BOTH_MANAGERS: [ManagerKind; 2] = [ManagerKind::OneThread, ManagerKind::Shared];
