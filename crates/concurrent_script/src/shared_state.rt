//! What the threads share beside the manager.
ghost use Rattle.std.specs.Prelude.{map};
ghost use Rattle.comm_script.specs.Stock.{AreIdle};

use comm_manager::{Client, ManagerId, Stamp};
use comm_script::Stock;
use comm_targets::Target;
use std::alloc::{AllocError, Global};
use std::sync::atomic::{AtomicU64, Ordering};
use std::sync::{Mutex, Wait};
use std::thread::yield_now;

/// How often a thread looks at most whether the others have come.
const MAX_SPINS: u32 = 100_000;

/// The stock, the stamps that clients have got, and what the threads tell one another.
#[derive(Drop)]
pub struct SharedState<M: ManagerId, T: Target> {
    pub alloc: Global,
    /// Who registers has the lock until the box is registered or lies in the stock again, so no box is on its way
    /// when another looks.
    pub stock: Mutex<Stock<T>>,
    // each client's last
    stamps: Vec<Mutex<Option<Stamp<M>>>>,
    missing: AtomicU64,
}

impl<M: ManagerId, T: Target> SharedState<M, T> {
    /// For so many clients, whose threads begin at once. Err: memory; the stock is let go then.
    pub(crate) fn new(
        alloc: Global,
        stock: Vec<T>,
        clients: u8,
    ) -> Result<SharedState<M, T>, AllocError>
        requires { AreIdle (map T.means stock.items) }
    {
        let mut stamps = Vec::new(alloc);
        for _ in 0..clients {
            stamps.push(Mutex::new(None))?;
        }
        Ok(SharedState {
            alloc,
            stock: Mutex::new(Stock::new(stock)),
            stamps,
            missing: AtomicU64::new(u64::from(clients)),
        })
    }

    /// Shows the stamp of a client's change to the others.
    pub(crate) fn publish_stamp<R: Wait>(&self, rt: &R, client: u8, stamp: Stamp<M>) {
        if let Some(last) = self.stamps.get(usize::from(client)) {
            *last.lock(rt) = Some(stamp);
        }
    }

    /// The client hears the last stamp that the other one has got, if there is another and it has one.
    pub(crate) fn hear<R: Wait>(&self, rt: &R, client: &mut Client<M>, other: Option<u8>) {
        let Some(other) = other else {
            return;
        };
        if let Some(last) = self.stamps.get(usize::from(other)) {
            if let Some(stamp) = &*last.lock(rt) {
                client.hear(stamp);
            }
        }
    }

    /// Waits until all threads have come, so that they begin at once. Not for ever: one that can't be made is run by
    /// another, later.
    pub(crate) fn begin(&self) {
        let _missing = self.missing.fetch_sub(1, Ordering::AcqRel);
        for _ in 0..MAX_SPINS {
            if self.missing.load(Ordering::Acquire) == 0 {
                return;
            }
            yield_now();
        }
    }
}
