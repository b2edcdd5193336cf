//! How a manager that threads share ends.
use crate::tests::trial::{MEMORY, RefusedStep};
use client_threads::shut_down;
use comm_core::Entry;
use comm_manager::{Cause, Client, Farewell, Manager, ManagerId, Publisher, ShutdownRefused};
use comm_targets::Target;
use std::alloc::Global;
use std::sync::Wait;
use test_harness::{TestFault, TextBuilder, holds};
use test_support::{refuse, refuse_above, was_refused};

/// More bytes than a shutdown asks for at once, where one entry alone wasn't taken, and fewer than places for `MANY`
/// entries have.
const ENOUGH: u32 = 4_096;

// What a manager leaves.
fn push_farewell(farewell: &Farewell, text: &mut TextBuilder) {
    let is_ended = farewell
        .history
        .entries
        .last()
        .is_some_and(|it| matches!(&**it, Entry::End));
    text.push_counted("history", farewell.history.entries.len() as u64);
    text.push_counted(" untaken", farewell.untaken.len() as u64);
    text.push(if is_ended {
        " end true\n"
    } else {
        " end false\n"
    });
}

// Shuts down once more, after a refusal.
fn shut_down_again<M: ManagerId, T: Target, R: Wait>(
    rt: &R,
    refused: ShutdownRefused<M, T>,
    text: &mut TextBuilder,
) -> Result<(), TestFault> {
    let ShutdownRefused {
        cause,
        manager,
        clients,
        publisher,
    } = refused;
    match shut_down(rt, manager, clients, publisher) {
        Ok(ended) => {
            text.push(MEMORY);
            push_farewell(&ended.farewell, text);
            drop(ended);
            holds(cause == Cause::Memory, "another cause")
        }
        Err(_) => Err(TestFault("no shutdown where nothing is refused")),
    }
}

// Shuts down, and once more where that is refused.
fn shut_down_at_last<M: ManagerId, T: Target, R: Wait>(
    rt: &R,
    alloc: Global,
    manager: Manager<M, T>,
    clients: Vec<Client<M>>,
    publisher: Publisher<M>,
    text: &mut TextBuilder,
) -> Result<bool, TestFault> {
    let result = manager.shutdown(rt, clients, publisher);
    let is_refused = was_refused(alloc);
    let done = match result {
        Ok(farewell) => {
            push_farewell(&farewell, text);
            Ok(())
        }
        Err(refused) => shut_down_again(rt, refused, text),
    };
    done?;
    Ok(is_refused)
}

// The publisher takes an entry and the manager ends: nothing is refused.
fn discard<M: ManagerId, T: Target, R: Wait>(
    rt: &R,
    alloc: Global,
    manager: Manager<M, T>,
    publisher: Publisher<M>,
    text: &mut TextBuilder,
) -> Result<bool, TestFault> {
    let mut publisher = publisher;
    let _is_heard = refuse(alloc, 1);
    let is_taken = publisher.take(rt).is_some() && publisher.taken() == 1;
    manager.discard(rt);
    let is_refused = was_refused(alloc);
    drop(publisher);
    text.push("taken 1\n");
    holds(is_taken, "nothing is taken")?;
    Ok(is_refused)
}

/// Ends the manager, with the allocation of this number refused where its end is tried. Gives whether one was.
pub(super) fn end_manager<M: ManagerId, T: Target, R: Wait>(
    rt: &R,
    alloc: Global,
    manager: Manager<M, T>,
    clients: Vec<Client<M>>,
    publisher: Publisher<M>,
    step: RefusedStep,
    number: u32,
    text: &mut TextBuilder,
) -> Result<bool, TestFault> {
    if step == RefusedStep::Discard {
        drop(clients);
        return discard(rt, alloc, manager, publisher, text);
    }
    let _is_heard = match step {
        RefusedStep::Shutdown => refuse(alloc, number),
        RefusedStep::ShutdownTaken => refuse_above(alloc, ENOUGH),
        _ => refuse(alloc, 0),
    };
    shut_down_at_last(rt, alloc, manager, clients, publisher, text)
}
