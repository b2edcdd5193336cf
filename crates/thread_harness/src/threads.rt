//! A scenario's texts, each in a thread of its own.
use crate::flags::Flags;
use crate::player::play_text;
use crate::report::Report;
use comm_manager::{Client, Manager, ManagerId, Publisher};
use comm_targets::Target;
use std::alloc::Global;
use std::sync::Wait;
use std::thread::{Threads, join};

// With the targets, and no publisher.
fn play_with_targets<M: ManagerId, T: Target, R: Wait>(
    rt: &R,
    alloc: Global,
    manager: &Manager<M, T>,
    clients: &mut [Client<M>],
    text: &str,
    targets: &mut Vec<T>,
    flags: &Flags,
) -> Report {
    let mut none = Vec::new(alloc);
    play_text(
        rt,
        alloc,
        Some(manager),
        clients,
        none.as_mut_slice(),
        text,
        targets,
        flags,
    )
}

// With the publisher, and no targets.
fn play_with_publisher<M: ManagerId, T: Target, R: Wait>(
    rt: &R,
    alloc: Global,
    manager: &Manager<M, T>,
    clients: &mut [Client<M>],
    publishers: &mut [Publisher<M>],
    text: &str,
    flags: &Flags,
) -> Report {
    let mut none = Vec::new(alloc);
    play_text(
        rt,
        alloc,
        Some(manager),
        clients,
        publishers,
        text,
        &mut none,
        flags,
    )
}

// With neither.
fn play_alone<M: ManagerId, T: Target, R: Wait>(
    rt: &R,
    alloc: Global,
    manager: &Manager<M, T>,
    clients: &mut [Client<M>],
    text: &str,
    flags: &Flags,
) -> Report {
    let mut none = Vec::new(alloc);
    play_with_targets(rt, alloc, manager, clients, text, &mut none, flags)
}

// The first two threads.
fn first_two<M: ManagerId + Send + Sync, T: Target, R: Threads + Wait + Sync>(
    rt: &R,
    alloc: Global,
    manager: &Manager<M, T>,
    clients: &mut [Client<M>],
    texts: (&'static str, &'static str),
    targets: &mut Vec<T>,
    flags: &Flags,
) -> (Report, Report) {
    let (first, second) = texts;
    let (one, others) = clients.split_at_mut(clients.len().min(1));
    join(
        rt,
        move || play_with_targets(rt, alloc, manager, one, first, targets, flags),
        move || play_alone(rt, alloc, manager, others, second, flags),
    )
}

// The others.
fn last_two<M: ManagerId + Send + Sync, T: Target, R: Threads + Wait + Sync>(
    rt: &R,
    alloc: Global,
    manager: &Manager<M, T>,
    clients: &mut [Client<M>],
    publishers: &mut [Publisher<M>],
    texts: (&'static str, &'static str),
    flags: &Flags,
) -> (Report, Report) {
    let (first, second) = texts;
    let (one, others) = clients.split_at_mut(clients.len().min(1));
    join(
        rt,
        move || play_alone(rt, alloc, manager, one, first, flags),
        move || play_with_publisher(rt, alloc, manager, others, publishers, second, flags),
    )
}

/// Plays all four texts at once.
pub(crate) fn play_in_threads<M: ManagerId + Send + Sync, T: Target, R: Threads + Wait + Sync>(
    rt: &R,
    alloc: Global,
    manager: &Manager<M, T>,
    clients: &mut [Client<M>],
    publishers: &mut [Publisher<M>],
    texts: &[&'static str; 4],
    targets: &mut Vec<T>,
    flags: &Flags,
) -> ((Report, Report), (Report, Report)) {
    let [first, second, third, fourth] = *texts;
    let (front, back) = clients.split_at_mut(clients.len() / 2);
    join(
        rt,
        move || first_two(rt, alloc, manager, front, (first, second), targets, flags),
        move || last_two(rt, alloc, manager, back, publishers, (third, fourth), flags),
    )
}
