//! How a queue is made, with its two sides.
ghost use Rattle.std.specs.Prelude.{◌≡◌, ◌≤◌, IfOk};
ghost use Rattle.comm_outbox.specs.Sides.{new_outbox, new_publisher};

use crate::entry_queue::{EntryQueue, split};
use crate::outgoing::Outbox;
use crate::publisher::Publisher;
use std::alloc::{AllocError, Global};
use std::marker::Brand;
use std::sync::Arc;

/// A bounded queue with so many places, and its two sides. `clients` and `comms` are the limits by which its entries
/// are legal. Err: memory; nothing after this call takes any.
pub fn outbox(
    alloc: Global,
    places: usize,
    clients: u8,
    comms: usize,
) -> Result<(Outbox, Publisher), AllocError>
    requires places { (1 ≤ places) × (places ≤ 65537) }
    ensures puts { IfOk result (λ r. r.0 ≡ new_outbox r.0.queue clients comms places) }
    ensures takes { IfOk result (λ r. r.1 ≡ new_publisher r.0.queue clients comms) }
{
    let (queue, mut pass) = EntryQueue::ruled(alloc, places)?;
    let other = split::<Brand>(&queue, &mut pass, clients, comms);
    let queue = Arc::new(alloc, queue)?;
    let theirs = Arc::try_clone(&queue)?;
    Ok((
        Outbox {
            queue,
            pass,
            count: 0,
            room: places as u64,
        },
        Publisher {
            queue: theirs,
            pass: other,
            count: 0,
        },
    ))
}
