//! What targets note of their calls, for a test to read.
use std::alloc::{AllocError, Global};
use std::sync::Arc;
use std::sync::atomic::{AtomicU64, Ordering};

/// More than any text of a test is long.
const CAPACITY: usize = 512;

/// A text that targets write and a test reads: its bytes, each in a place of its own. 0 stands in the places behind its
/// end, and what finds no place is dropped.
#[derive(Drop)]
pub struct CallLog {
    places: Arc<Vec<AtomicU64>>,
}

impl CallLog {
    /// An empty log. Err: memory.
    pub fn new(alloc: Global) -> Result<CallLog, AllocError> {
        let mut places = Vec::with_capacity(alloc, CAPACITY)?;
        for _ in 0..CAPACITY {
            places.push(AtomicU64::new(0))?;
        }
        Ok(CallLog {
            places: Arc::new(alloc, places)?,
        })
    }

    /// A handle of this log for another who writes or reads it. Err: memory.
    pub fn share(&self) -> Result<CallLog, AllocError> {
        Ok(CallLog {
            places: Arc::try_clone(&self.places)?,
        })
    }

    fn push_byte(&self, byte: u8) {
        for place in self.places.iter() {
            let put = place.compare_exchange(
                0,
                u64::from(byte),
                Ordering::SeqCst,
                Ordering::SeqCst,
            );
            if put.is_ok() {
                return;
            }
        }
    }

    /// Writes a space, whose note it is, a word, and a comm's id.
    pub fn note(&self, whose: &str, word: &str, id: &str) {
        for part in [" ", whose, word, id] {
            for byte in part.as_bytes() {
                self.push_byte(*byte);
            }
        }
    }

    /// Appends what was written to `text`, and empties the log. Err: memory.
    pub fn take(&self, text: &mut Vec<u8>) -> Result<(), AllocError> {
        for place in self.places.iter() {
            match u8::try_from(place.swap(0, Ordering::SeqCst)) {
                Ok(byte) if byte != 0 => text.push(byte)?,
                _ => break,
            }
        }
        Ok(())
    }
}
