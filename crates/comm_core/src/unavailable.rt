use std::error::Error;
use std::fmt;

/// Why a change isn't made. Nothing has changed, and no history has an entry of it.
#[derive(Drop)]
pub enum Unavailable<S> {
    /// Memory ran out.
    Memory,
    /// The history has as many changes as it may. What it carries tells which history that is.
    HistoryFull(S),
    /// So many entries wait to be taken.
    OutboxFull(u64),
}

impl<S> fmt::Display for Unavailable<S> {
    fn fmt<W: fmt::Write>(&self, f: &mut fmt::Formatter<W>) -> fmt::Result {
        match self {
            Unavailable::Memory => f.write_str("memory ran out"),
            Unavailable::HistoryFull(_) => f.write_str("the history has as many changes as it may"),
            Unavailable::OutboxFull(waiting) => write!(f, "{waiting} entries wait to be taken"),
        }
    }
}

impl<S> fmt::Debug for Unavailable<S> {
    fn fmt<W: fmt::Write>(&self, f: &mut fmt::Formatter<W>) -> fmt::Result {
        match self {
            Unavailable::Memory => f.write_str("Memory"),
            Unavailable::HistoryFull(_) => f.write_str("HistoryFull(..)"),
            Unavailable::OutboxFull(waiting) => write!(f, "OutboxFull({waiting})"),
        }
    }
}

impl<S: Drop> Error for Unavailable<S> {}
