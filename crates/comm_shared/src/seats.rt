//! Which seats of a manager have a client.
ghost use Rattle.std.specs.Prelude.{◌<◌, IfSome};

use std::sync::atomic::{AtomicU64, Ordering};

/// A bit for each of 256 seats, which is set while a client has the seat. That a seat has one client at a time is no
/// premise of any contract: a change of a client whose seat made another is refused.
#[derive(Drop)]
pub struct Seats {
    taken: [AtomicU64; 4],
}

// The first bit that isn't set, from 0.
fn first_free(word: u64) -> Option<u8>
    ensures { IfSome result (λ bit. bit < 64) }
{
    for bit in 0..64u8 {
        if word >> bit & 1 == 0 {
            return Some(bit);
        }
    }
    None
}

// Sets the first bit that isn't set. None: all are.
fn take_bit(word: &AtomicU64) -> Option<u8>
    ensures { IfSome result (λ bit. bit < 64) }
{
    let mut seen = word.load(Ordering::SeqCst);
    for _ in 0..u64::MAX {
        let bit = first_free(seen)?;
        match word.compare_exchange(seen, seen | 1u64 << bit, Ordering::SeqCst, Ordering::SeqCst) {
            Ok(_) => return Some(bit),
            Err(found) => seen = found,
        }
    }
    None
}

impl Seats {
    /// All are free.
    pub fn new() -> Seats {
        Seats {
            taken: [
                AtomicU64::new(0),
                AtomicU64::new(0),
                AtomicU64::new(0),
                AtomicU64::new(0),
            ],
        }
    }

    /// Takes a free seat, the one of the lowest number. None: each has a client.
    #[must_use]
    pub fn take(&self) -> Option<u8> {
        for word in 0..4u8 {
            if let Some(bit) = take_bit(&self.taken[word as usize]) {
                return Some(word * 64 + bit);
            }
        }
        None
    }

    /// Gives a seat back.
    pub fn give_back(&self, seat: u8) {
        let word = &self.taken[(seat / 64) as usize];
        let bit = 1u64 << (seat % 64);
        let mut seen = word.load(Ordering::SeqCst);
        for _ in 0..u64::MAX {
            match word.compare_exchange(seen, seen & !bit, Ordering::SeqCst, Ordering::SeqCst) {
                Ok(_) => return,
                Err(found) => seen = found,
            }
        }
    }
}
