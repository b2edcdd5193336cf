//! All clients at work at once, beside a thread that takes what goes out.
ghost use Rattle.std.specs.Fork.{AcceptsEach};

use comm_manager::{ManagerId, Publisher};
use std::sync::Wait;
use std::sync::atomic::{AtomicBool, Ordering};
use std::thread::{Threads, for_each_mut, join, yield_now};

/// As many threads as a manager has clients at most.
const THREADS: usize = 4;

// Takes entries until all clients are done and none is left.
fn take_all<M: ManagerId, R: Wait>(rt: &R, is_over: &AtomicBool, publisher: &mut Publisher<M>) {
    for _ in rt.forever() {
        // Before it looks: what is put in later is put in by nobody.
        let is_done = is_over.load(Ordering::Acquire);
        if publisher.take(rt).is_none() {
            if is_done {
                break;
            }
            yield_now();
        }
    }
}

// All at once, and then the word to the thread that takes.
fn work_all<C: Send, R: Threads + Sync, W: Fn(usize, &mut C) + Sync>(
    rt: &R,
    is_over: &AtomicBool,
    work: &W,
    clients: &mut [C],
)
    requires { AcceptsEach W.Fn work.now clients.old }
{
    for_each_mut(rt, clients, THREADS, work);
    is_over.store(true, Ordering::Release);
}

/// Calls `work` at each client and its place, each in a thread of its own where one can be made, while one more
/// thread takes what goes out. It returns when all of them are done and nothing is left to be taken.
pub fn run_workers<
    M: ManagerId + Send + Sync,
    C: Send,
    R: Threads + Wait + Sync,
    W: Fn(usize, &mut C) + Sync,
>(rt: &R, publisher: &mut Publisher<M>, work: &W, clients: &mut [C])
    requires { AcceptsEach W.Fn work.now clients.old }
{
    let is_over = AtomicBool::new(false);
    let over = &is_over;
    join(
        rt,
        move || take_all(rt, over, publisher),
        move ||
            requires { AcceptsEach W.Fn work.now clients.now }
        { work_all(rt, over, work, clients) },
    );
}
