//! A scenario is played over a manager, from its builder to its end. One call picks the manager's identity.
ghost use Rattle.std.specs.Prelude.{◌≡◌};
ghost use Rattle.comm_manager.specs.Names.{Named};

use crate::flags::Flags;
use crate::judge::{Judgement, judge_run};
use crate::player::play_text;
use crate::report::{Report, Reports};
use crate::scenario::{Ending, Scenario};
use crate::threads::play_in_threads;
use client_threads::shut_down;
use comm_manager::{
    Cause, Client, Farewell, Manager, ManagerBuilder, ManagerId, Publisher, ShutdownRefused,
};
use comm_targets::Target;
use std::alloc::Global;
use std::marker::Brand;
use std::slice::from_mut;
use std::sync::Wait;
use std::thread::Threads;
use test_harness::TestFault;

// What the clients do before the manager ends.
fn play_texts<M: ManagerId + Send + Sync, T: Target, R: Threads + Wait + Sync>(
    rt: &R,
    alloc: Global,
    manager: &Manager<M, T>,
    clients: &mut [Client<M>],
    publishers: &mut [Publisher<M>],
    scenario: &Scenario,
    targets: &mut Vec<T>,
    flags: &Flags,
) -> Reports {
    let mut reports = Reports::new(alloc);
    reports.add(play_text(
        rt,
        alloc,
        Some(manager),
        clients,
        publishers,
        scenario.before,
        targets,
        flags,
    ));
    let ((first, second), (third, fourth)) = play_in_threads(
        rt,
        alloc,
        manager,
        clients,
        publishers,
        &scenario.threads,
        targets,
        flags,
    );
    reports.add(first);
    reports.add(second);
    reports.add(third);
    reports.add(fourth);
    reports.add(play_text(
        rt,
        alloc,
        Some(manager),
        clients,
        publishers,
        scenario.after,
        targets,
        flags,
    ));
    reports
}

// A shutdown that must not be refused.
fn shut<M: ManagerId, T: Target, R: Wait>(
    rt: &R,
    manager: Manager<M, T>,
    clients: Vec<Client<M>>,
    publisher: Publisher<M>,
) -> Result<Farewell, TestFault> {
    match shut_down(rt, manager, clients, publisher) {
        Ok(ended) => Ok(ended.farewell),
        Err(_) => Err(TestFault("a shutdown is refused")),
    }
}

// A shutdown that was refused for want of this client is tried again with it.
fn shut_again<M: ManagerId, T: Target, R: Wait>(
    rt: &R,
    refused: ShutdownRefused<M, T>,
    last: Client<M>,
) -> Result<Farewell, TestFault> {
    let ShutdownRefused {
        cause,
        manager,
        mut clients,
        publisher,
    } = refused;
    let is_whole = clients.push(last).is_ok();
    let farewell = shut(rt, manager, clients, publisher);
    if is_whole && cause == Cause::MissingClients {
        farewell
    } else {
        Err(TestFault("a shutdown is refused for another cause"))
    }
}

// A shutdown without the last client, and then one with all.
fn shut_twice<M: ManagerId, T: Target, R: Wait>(
    rt: &R,
    manager: Manager<M, T>,
    clients: Vec<Client<M>>,
    publisher: Publisher<M>,
) -> Result<Farewell, TestFault> {
    let mut clients = clients;
    let Some(last) = clients.pop() else {
        manager.discard(rt);
        return Err(TestFault("no client"));
    };
    match manager.shutdown(rt, clients, publisher) {
        Ok(_) => Err(TestFault("a shutdown goes without a client")),
        Err(refused) => shut_again(rt, refused, last),
    }
}

// No manager, for as long as there are flags.
fn no_manager<M: ManagerId, T: Target>(_flags: &Flags) -> Option<&Manager<M, T>> {
    None
}

// A discard, and what clients see after it.
fn discard<M: ManagerId, T: Target, R: Wait>(
    rt: &R,
    alloc: Global,
    manager: Manager<M, T>,
    clients: &mut [Client<M>],
    publishers: &mut [Publisher<M>],
    scenario: &Scenario,
    flags: &Flags,
) -> Report {
    manager.discard(rt);
    let mut none: Vec<T> = Vec::new(alloc);
    let over = no_manager(flags);
    play_text(
        rt,
        alloc,
        over,
        clients,
        publishers,
        scenario.last,
        &mut none,
        flags,
    )
}

// The manager ends. A discard gives no farewell, nor does an end that isn't as it should be.
fn end_manager<M: ManagerId, T: Target, R: Wait>(
    rt: &R,
    alloc: Global,
    manager: Manager<M, T>,
    clients: Vec<Client<M>>,
    publisher: Publisher<M>,
    scenario: &Scenario,
    flags: &Flags,
    reports: &mut Reports,
) -> Option<Farewell> {
    let ended = match scenario.end {
        Ending::Shutdown => shut(rt, manager, clients, publisher),
        Ending::ShutdownTwice => shut_twice(rt, manager, clients, publisher),
        Ending::Discard => {
            let mut clients = clients;
            let mut publisher = publisher;
            let publishers = from_mut(&mut publisher);
            let all = clients.as_mut_slice();
            reports.add(discard(rt, alloc, manager, all, publishers, scenario, flags));
            return None;
        }
    };
    match ended {
        Ok(farewell) => Some(farewell),
        Err(TestFault(why)) => {
            reports.wrong.push(why);
            reports.wrong.push("\n");
            None
        }
    }
}

fn play_over_manager<M: ManagerId + Send + Sync, T: Target, R: Threads + Wait + Sync>(
    rt: &R,
    alloc: Global,
    builder: ManagerBuilder,
    scenario: &Scenario,
    targets: &mut Vec<T>,
    flags: &Flags,
) -> Result<(Reports, Option<Farewell>), TestFault>
    requires { Named builder M.book M.ledgers M.queue M.limits }
{
    let Ok((manager, mut clients, mut publisher)) = Manager::<M, T>::open(rt, alloc, builder) else {
        return Err(TestFault("no manager"));
    };
    let mut reports = play_texts(
        rt,
        alloc,
        &manager,
        clients.as_mut_slice(),
        from_mut(&mut publisher),
        scenario,
        targets,
        flags,
    );
    let farewell = end_manager(
        rt,
        alloc,
        manager,
        clients,
        publisher,
        scenario,
        flags,
        &mut reports,
    );
    Ok((reports, farewell))
}

/// Plays a scenario with these targets, of which the last is the next. Fresh ones of the same number play its history
/// again.
pub fn play_scenario<T: Target, R: Threads + Wait + Sync>(
    rt: &R,
    alloc: Global,
    scenario: &Scenario,
    targets: Vec<T>,
    fresh: Vec<T>,
    flags: &Flags,
) -> Result<Judgement, TestFault> {
    let mut targets = targets;
    let Ok(builder) = ManagerBuilder::new(alloc, scenario.limits()) else {
        return Err(TestFault("no builder"));
    };
    let (reports, farewell) = play_over_manager::<Brand, T, R>(
        rt,
        alloc,
        builder,
        scenario,
        &mut targets,
        flags,
    )?;
    let left = targets.len();
    drop(targets);
    judge_run(alloc, scenario, reports, farewell, left, fresh, flags)
}
