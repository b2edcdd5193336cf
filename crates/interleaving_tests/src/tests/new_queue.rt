//! Each allocation of a new queue is refused.
ghost use Rattle.std.specs.Prelude.{◌≡◌, ◌≤◌, [], vec_capacity};
ghost use Rattle.std.specs.Arc.{arc_value};

use comm_core::Entry;
use comm_outbox::outbox;
use std::alloc::{AllocError, Global};
use std::sync::{Arc, Wait};
use std::test::*;
use test_support::{has_leaked, mark, refuse, was_refused};

// A queue, in which the end is put and taken. Tells whether it was.
fn pass_end<R: Wait>(
    rt: &R,
    alloc: Global,
    end: Arc<Entry, Global>,
    room: Vec<Arc<Entry, Global>>,
) -> Result<bool, AllocError>
    requires end { arc_value end ≡ Entry.End }
    requires room { (room.items ≡ []) × (1 ≤ vec_capacity room) }
{
    let (mut outbox, mut publisher) = outbox(alloc, 2, 1, 16)?;
    outbox.put(rt, end);
    let is_taken = publisher.take(rt).is_some();
    let rest = outbox.take_rest(rt, publisher, room);
    Ok(is_taken && rest.is_empty())
}

/// Each allocation of a new queue is refused in turn: there is no queue then, and nothing leaks. What comes after it
/// asks for none.
#[test]
fn refused_allocations_make_no_queue(rt: HostRuntime) -> Result<(), Fail> {
    let alloc = rt.alloc();
    for number in 1..100u32 {
        mark(alloc);
        let end = Arc::new(alloc, Entry::End)?;
        let room = Vec::with_capacity(alloc, 1)?;
        let _is_heard = refuse(alloc, number);
        let is_passed = pass_end(&rt, alloc, end, room).unwrap_or(false);
        let is_whole = !was_refused(alloc);
        assert!(rt; is_passed == is_whole, "at {number}");
        assert!(rt; !has_leaked(alloc), "at {number}");
        if is_whole {
            return Ok(());
        }
    }
    panic!(rt; "it never answered");
}
