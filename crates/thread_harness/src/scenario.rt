//! A test as data.
use crate::gated_target::Gates;
use comm_core::Limits;

/// How a manager ends.
#[derive(Clone, Copy, PartialEq, Eq)]
pub enum Ending {
    /// By a shutdown.
    Shutdown,
    /// By a shutdown that is refused, since the last client isn't handed in, and by one with all.
    ShutdownTwice,
    /// By a discard.
    Discard,
}

/// What is played over one manager. Each text is as the crate's page says.
#[derive(Clone, Copy)]
pub struct Scenario {
    /// What it shows.
    pub name: &'static str,
    /// Clients, open comms, changes, and entries that wait.
    pub limits: (u8, usize, u64, usize),
    /// How many targets are at hand to be registered.
    pub targets: usize,
    /// Whether they echo updates, of widgets.
    pub echoes: bool,
    /// At which calls they wait.
    pub gates: Gates,
    /// Played by all clients and the publisher, in one thread.
    pub before: &'static str,
    /// Played by four threads at once. The first half of the clients is the first two threads', one each, and of the
    /// second half the first client is the third's; who is left is the fourth's, and the publisher. The targets are
    /// the first's.
    pub threads: [&'static str; 4],
    /// Played as what was before.
    pub after: &'static str,
    pub end: Ending,
    /// Played where there is no manager any more, which is after a discard.
    pub last: &'static str,
    /// Lines that must be among these: `history N`, `untaken N` (the entries, of which the last is the end), `most N`
    /// (comms that were open after a change), `ends N` (targets), `of C N` (changes of a client). Of a manager that
    /// is discarded only `ends N` is known.
    pub sums: &'static str,
}

impl Scenario {
    /// Nothing is played over a manager of two clients, which is shut down.
    pub const NOTHING: Scenario = Scenario {
        name: "nothing",
        limits: (2, 4_096, 1_000, 65_536),
        targets: 0,
        echoes: false,
        gates: Gates::NONE,
        before: "",
        threads: ["", "", "", ""],
        after: "",
        end: Ending::Shutdown,
        last: "",
        sums: "",
    };

    /// The limits of its manager.
    pub(crate) fn limits(&self) -> Limits {
        let (clients, comms, history, outbox) = self.limits;
        Limits {
            clients,
            comms,
            history,
            outbox,
        }
    }
}
