//! All clients at work at once.
use crate::player::played;
use crate::script::ClientScript;
use crate::shared_state::SharedState;
use client_threads::run_workers;
use comm_manager::{Client, Manager, ManagerId, Publisher};
use comm_targets::Target;
use std::sync::Wait;
use std::thread::Threads;

// What the thread of the client at this place does.
fn played_at<M: ManagerId, T: Target, R: Wait>(
    rt: &R,
    manager: &Manager<M, T>,
    shared: &SharedState<M, T>,
    parts: &[ClientScript],
    place: usize,
    client: &mut Client<M>,
) {
    if let Some(part) = parts.get(place) {
        played(rt, manager, shared, client, part);
    }
}

/// Lets each client play its part, and a thread of its own take what goes out.
pub(crate) fn play_at_once<M: ManagerId + Send + Sync, T: Target, R: Threads + Wait + Sync>(
    rt: &R,
    manager: &Manager<M, T>,
    shared: &SharedState<M, T>,
    parts: &[ClientScript],
    publisher: &mut Publisher<M>,
    clients: &mut [Client<M>],
) {
    run_workers(
        rt,
        publisher,
        &|place, client| played_at(rt, manager, shared, parts, place, client),
        clients,
    );
}
