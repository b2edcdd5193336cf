//! What the program plays within: what `comm_driver` does.
use comm_core::Limits;

/// How many clients there are.
pub const CLIENTS: u8 = 4;

/// The limits of the manager.
pub const LIMITS: Limits = Limits {
    clients: CLIENTS,
    comms: 4096,
    history: 1_000_000,
    outbox: 64,
};
