//! A manager that counts its history: what it leaves is a number, and what goes out is as ever, for millions of changes.
ghost use Rattle.comm_manager.specs.Names.{Named};

use comm_core::Limits;
use comm_manager::{
    Client, CountedHistory, Manager, ManagerBuilder, ManagerId, Publisher, ShutdownRefused,
};
use comm_targets::Echo;
use comm_value::Text;
use std::alloc::Global;
use std::marker::Brand;
use std::sync::Wait;
use std::test::*;
use test_harness::{TestFault, holds};

const ROOM: u64 = 3;

// Closes comms that aren't open until the history is full. Gives how many changes were answered.
fn fill<M: ManagerId, R: Wait>(
    rt: &R,
    alloc: Global,
    manager: &Manager<M, Echo, CountedHistory>,
    client: &mut Client<M>,
) -> Result<u64, TestFault> {
    let mut made = 0u64;
    for _ in 0..ROOM + 2 {
        let id = Text::copy_of(alloc, "q")?;
        if client.close_comm(rt, manager, id).is_ok() {
            made = made.saturating_add(1);
        }
    }
    Ok(made)
}

fn count_over_manager<M: ManagerId, R: Wait>(
    rt: &R,
    alloc: Global,
    builder: ManagerBuilder,
) -> Result<(), TestFault>
    requires { Named builder M.book M.ledgers M.queue M.limits }
{
    let opened = Manager::<M, Echo, CountedHistory>::open(rt, alloc, builder);
    let Ok((manager, mut clients, mut publisher)) = opened else {
        return Err(TestFault("no manager"));
    };
    let made = match clients.first_mut() {
        Some(client) => fill(rt, alloc, &manager, client),
        None => Err(TestFault("no client")),
    };
    let is_taken = publisher.take(rt).is_some();
    match manager.shutdown(rt, clients, publisher) {
        Ok(farewell) => {
            let (count, untaken) = (farewell.history.count, farewell.untaken.len());
            drop(farewell);
            holds(made? == ROOM, "the history isn't full where it should be")?;
            holds(is_taken, "nothing goes out")?;
            holds(
                count == ROOM + 1,
                "another count than of the changes and the end",
            )?;
            holds(untaken == 3, "another number of entries that weren't taken")
        }
        Err(refused) => {
            let ShutdownRefused {
                cause: _cause,
                manager,
                clients: _clients,
                publisher: _publisher,
            } = refused;
            manager.discard(rt);
            Err(TestFault("no shutdown"))
        }
    }
}

fn count_changes<R: Wait>(rt: &R, alloc: Global) -> Result<(), TestFault> {
    let limits = Limits {
        clients: 1,
        comms: 10,
        history: ROOM,
        outbox: 10,
    };
    let Ok(builder) = ManagerBuilder::new(alloc, limits) else {
        return Err(TestFault("no builder"));
    };
    count_over_manager::<Brand, R>(rt, alloc, builder)
}

#[test]
fn a_history_that_is_counted_is_full_at_the_same_limit(rt: HostRuntime) -> Result<(), Fail> {
    count_changes(&rt, rt.alloc())?;
    Ok(())
}

/// So many changes are made, over a history that would take gigabytes.
const LONG: u64 = 1_600_000;

/// After so many the second client makes its first change.
const BEHIND: u64 = 200_000;

// The client makes the change of this number, and its entry goes out.
fn change<M: ManagerId, R: Wait>(
    rt: &R,
    alloc: Global,
    manager: &Manager<M, Echo, CountedHistory>,
    client: &mut Client<M>,
    publisher: &mut Publisher<M>,
    number: u64,
) -> Result<(), TestFault> {
    let id = Text::copy_of(alloc, "q")?;
    let Ok(answered) = client.close_comm(rt, manager, id) else {
        return Err(TestFault("a change isn't made"));
    };
    let made = answered.number;
    drop(answered);
    holds(made == number, "a change has another number")?;
    holds(publisher.take(rt).is_some(), "its entry doesn't go out")
}

// The client reads what is there after so many changes.
fn read<M: ManagerId>(alloc: Global, client: &mut Client<M>, number: u64) -> Result<(), TestFault> {
    let id = Text::copy_of(alloc, "q")?;
    let Ok(listed) = client.comm_info(alloc, None) else {
        return Err(TestFault("no list is read"));
    };
    holds(listed.front == number, "a list of another front is read")?;
    let Ok(state) = client.state(&id) else {
        return Err(TestFault("no state is read"));
    };
    let front = state.front;
    drop(state);
    holds(front == number, "a state of another front is read")
}

// One client makes almost all changes. The other makes one when it is far behind, and the last, and reads after each.
fn live_long<M: ManagerId, R: Wait>(
    rt: &R,
    alloc: Global,
    manager: &Manager<M, Echo, CountedHistory>,
    first: &mut Client<M>,
    second: &mut Client<M>,
    publisher: &mut Publisher<M>,
) -> Result<(), TestFault> {
    for number in 1..LONG + 1 {
        if number == BEHIND || number == LONG {
            change(rt, alloc, manager, second, publisher, number)?;
            read(alloc, second, number)?;
        } else {
            change(rt, alloc, manager, first, publisher, number)?;
        }
    }
    read(alloc, first, LONG)?;
    holds(publisher.take(rt).is_none(), "an entry more goes out")
}

fn live_long_over<M: ManagerId, R: Wait>(
    rt: &R,
    alloc: Global,
    builder: ManagerBuilder,
) -> Result<(), TestFault>
    requires { Named builder M.book M.ledgers M.queue M.limits }
{
    let opened = Manager::<M, Echo, CountedHistory>::open(rt, alloc, builder);
    let Ok((manager, mut clients, mut publisher)) = opened else {
        return Err(TestFault("no manager"));
    };
    let lived = match (clients.pop(), clients.pop()) {
        (Some(mut second), Some(mut first)) => {
            live_long(rt, alloc, &manager, &mut first, &mut second, &mut publisher)
        }
        _ => Err(TestFault("no two clients")),
    };
    manager.discard(rt);
    lived
}

fn open_long<R: Wait>(rt: &R, alloc: Global) -> Result<(), TestFault> {
    let limits = Limits {
        clients: 2,
        comms: 10,
        history: 2_000_000,
        outbox: 10,
    };
    let Ok(builder) = ManagerBuilder::new(alloc, limits) else {
        return Err(TestFault("no builder"));
    };
    live_long_over::<Brand, R>(rt, alloc, builder)
}

#[test]
fn a_client_far_behind_goes_on_after_millions_of_changes(rt: HostRuntime) -> Result<(), Fail> {
    open_long(&rt, rt.alloc())?;
    Ok(())
}
