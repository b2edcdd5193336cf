//! All clients at work at once.
use crate::worker::{Job, Signals, work};
use client_threads::run_workers;
use comm_manager::{Client, CountedHistory, Manager, ManagerId, Publisher};
use comm_targets::Target;
use std::alloc::Global;
use std::rt::Clock;
use std::sync::Wait;
use std::thread::Threads;

// What the thread of the client at this place does.
fn work_at<M: ManagerId, T: Target, R: Wait + Clock>(
    rt: &R,
    alloc: Global,
    manager: &Manager<M, T, CountedHistory>,
    jobs: &[Job],
    signals: &Signals,
    place: usize,
    client: &mut Client<M>,
) {
    if let Some(job) = jobs.get(place) {
        work(rt, alloc, manager, client, job, signals);
    }
}

/// Lets each client do its job, and a thread of its own take what goes out.
pub(crate) fn work_at_once<M: ManagerId + Send + Sync, T: Target, R: Threads + Wait + Clock + Sync>(
    rt: &R,
    alloc: Global,
    manager: &Manager<M, T, CountedHistory>,
    jobs: &[Job],
    signals: &Signals,
    publisher: &mut Publisher<M>,
    clients: &mut [Client<M>],
) {
    run_workers(
        rt,
        publisher,
        &|place, client| work_at(rt, alloc, manager, jobs, signals, place, client),
        clients,
    );
}
