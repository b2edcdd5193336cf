//! What the arguments ask for.
use std::string::String;

/// What readers do.
#[derive(Clone, Copy, PartialEq, Eq)]
pub enum ReadKind {
    State,
    Info,
}

/// A load: so many threads of each kind, and what they work on.
#[derive(Clone, Copy)]
pub struct Load {
    pub writers: u8,
    pub readers: u8,
    /// How many pushes each writer makes.
    pub each: u64,
    pub comms: usize,
    pub keys: usize,
    pub read: Option<ReadKind>,
}

/// What readers do; `none` is for a load without readers.
fn read_of(word: &str, readers: u8) -> Option<Option<ReadKind>> {
    match word {
        "state" if readers > 0 => Some(Some(ReadKind::State)),
        "info" if readers > 0 => Some(Some(ReadKind::Info)),
        "none" if readers == 0 => Some(None),
        _ => None,
    }
}

/// The load that these words ask for: WRITERS READERS CHANGES COMMS KEYS READ.
pub(crate) fn load_of(words: &[String]) -> Option<Load> {
    let [writers, readers, changes, comms, keys, read] = words else {
        return None;
    };
    let writers: u8 = writers.parse().ok()?;
    let readers: u8 = readers.parse().ok()?;
    let changes: u64 = changes.parse().ok()?;
    let comms: usize = comms.parse().ok()?;
    let keys: usize = keys.parse().ok()?;
    let read = read_of(read, readers)?;
    let are_few = writers >= 1 && writers <= 4 && readers <= 3 && readers <= 4 - writers;
    let is_small = changes <= 10_000_000
        && comms >= 1
        && comms <= 4_096
        && keys >= 1
        && keys <= 999;
    if !are_few || !is_small {
        return None;
    }
    Some(Load {
        writers,
        readers,
        each: changes / u64::from(writers),
        comms,
        keys,
        read,
    })
}
