//! What the threads and the targets of a scenario tell each other.
use std::hint::spin_loop;
use std::sync::atomic::{AtomicU64, Ordering};
use std::thread::yield_now;

/// A wait ends after so many turns, before each of which but the first other threads have theirs: some seconds in all
/// where nobody else has work.
const MAX_YIELDS: u32 = 5_000;

/// How often a flag is looked at in one turn.
const MAX_SPINS: u32 = 20_000;

/// Flags, by numbers below 64, which are set once; how many targets waited for one in vain; and how many ended.
#[derive(Drop)]
pub struct Flags {
    bits: AtomicU64,
    late: AtomicU64,
    ended: AtomicU64,
    ended_open: AtomicU64,
}

impl Flags {
    /// Flags of which none is set.
    pub fn new() -> Flags {
        Flags {
            bits: AtomicU64::new(0),
            late: AtomicU64::new(0),
            ended: AtomicU64::new(0),
            ended_open: AtomicU64::new(0),
        }
    }

    /// Sets it.
    pub(crate) fn set(&self, number: u64) {
        let _before = self.bits.fetch_or(1 << (number % 64), Ordering::SeqCst);
    }

    /// Whether it is set.
    pub(crate) fn is_set(&self, number: u64) -> bool {
        self.bits.load(Ordering::SeqCst) & (1 << (number % 64)) != 0
    }

    // Whether it is set within one turn.
    fn is_seen(&self, number: u64) -> bool {
        for _ in 0..MAX_SPINS {
            if self.is_set(number) {
                return true;
            }
            spin_loop();
        }
        false
    }

    /// Waits until it is set, which it says, or for as many turns as it may.
    pub(crate) fn wait(&self, number: u64) -> bool {
        for _ in 0..MAX_YIELDS {
            if self.is_seen(number) {
                return true;
            }
            yield_now();
        }
        false
    }

    /// Counts a target that waited in vain.
    pub(crate) fn miss(&self) {
        let _before = self.late.fetch_add(1, Ordering::SeqCst);
    }

    /// Sets all, so that nobody waits or tries again any more.
    pub(crate) fn release(&self) {
        self.bits.store(u64::MAX, Ordering::SeqCst);
    }

    /// Whether all are set.
    pub(crate) fn are_released(&self) -> bool {
        self.bits.load(Ordering::SeqCst) == u64::MAX
    }

    /// Counts a target that ends.
    pub(crate) fn end(&self, is_idle: bool) {
        let ends = if is_idle {
            &self.ended
        } else {
            &self.ended_open
        };
        let _before = ends.fetch_add(1, Ordering::SeqCst);
    }

    /// How many waits of targets were in vain.
    pub(crate) fn late(&self) -> u64 {
        self.late.load(Ordering::SeqCst)
    }

    /// How many targets ended with no comm open, and how many with one.
    pub(crate) fn ended(&self) -> (u64, u64) {
        (
            self.ended.load(Ordering::SeqCst),
            self.ended_open.load(Ordering::SeqCst),
        )
    }
}
