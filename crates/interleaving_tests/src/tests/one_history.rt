//! Whatever the threads' schedule was, the history is one of the manager of one thread.
use crate::tests::harness::{play_of, play_with};
use comm_targets::{Counter, Echo, Latest, Target};
use std::alloc::Global;
use std::io::Eprint;
use std::sync::Wait;
use std::test::*;
use std::thread::Threads;
use test_harness::{TestFault, holds};
use thread_harness::{Flags, Scenario};

const TWO: Scenario = Scenario {
    name: "two threads",
    limits: (2, 4_096, 1_000_000, 65_536),
    before: "0 register n => registered",
    threads: [
        "times 50
0 open a n - => opened
0 close a => closed",
        "",
        "times 50
1 open b n - => opened
1 close b => closed",
        "times 61
take => took * ~ none",
    ],
    sums: "history 202\nuntaken 141\nof 0 101\nof 1 100",
    ..Scenario::NOTHING
};

const FOUR: Scenario = Scenario {
    name: "four threads",
    limits: (4, 4_096, 1_000_000, 65_536),
    before: "0 register n => registered",
    threads: [
        "times 50
0 open a n - => opened
0 msg a => delivered
0 close a => closed",
        "times 50
1 open b n - => opened
1 msg b => delivered
1 close b => closed",
        "times 50
2 open c n - => opened
2 msg c => delivered
2 close c => closed",
        "times 50
3 open d n - => opened
3 msg d => delivered
3 close d => closed

times 61
take => took *",
    ],
    sums: "history 602\nuntaken 541\nof 0 151\nof 1 150\nof 2 150\nof 3 150",
    ..Scenario::NOTHING
};

// How many messages a counter answered, if its answers count them in the order of the history.
fn count_answers(history: &[u8]) -> Option<u64> {
    let mut count = 0u64;
    for line in str::from_utf8(history).ok()?.lines() {
        if let Some((_, rest)) = line.split_once(r#""data":{"count":"#) {
            let (number, _) = rest.split_once('}')?;
            count = count.saturating_add(1);
            if number.parse::<u64>().ok()? != count {
                return None;
            }
        }
    }
    Some(count)
}

// With counters in boxes, of which the history has so many messages.
fn play_counters<R: Threads + Wait + Sync + Eprint>(
    rt: &R,
    alloc: Global,
    scenario: &Scenario,
    messages: u64,
) -> Result<(), TestFault> {
    let target: Box<dyn Target> = Box::new(alloc, Counter::new(alloc))?;
    let other: Box<dyn Target> = Box::new(alloc, Counter::new(alloc))?;
    let mut targets = Vec::with_capacity(alloc, 1)?;
    let mut fresh = Vec::with_capacity(alloc, 1)?;
    targets.push(target)?;
    fresh.push(other)?;
    let history = play_with(rt, alloc, scenario, targets, fresh, &Flags::new())?;
    holds(
        count_answers(&history) == Some(messages),
        "a counter counts otherwise",
    )
}

#[test]
fn two_threads_give_one_history(rt: HostRuntime) -> Result<(), Fail> {
    play_counters(&rt, rt.alloc(), &TWO, 0)?;
    Ok(())
}

#[test]
fn four_threads_give_one_history(rt: HostRuntime) -> Result<(), Fail> {
    play_counters(&rt, rt.alloc(), &FOUR, 200)?;
    Ok(())
}

const COMING: Scenario = Scenario {
    name: "targets come, take each other's place and go while comms are opened towards them",
    limits: (2, 4_096, 1_000, 65_536),
    targets: 20,
    threads: [
        "times 10
0 register t => registered
yield
yield
yield
0 register t => replaced *
yield
yield
yield
0 unregister t => unregistered *
yield
yield
yield",
        "",
        "times 200
1 open # t - => opened | refused no_target
yield",
        "",
    ],
    sums: "history 231\nends 20\nof 0 30\nof 1 200",
    ..Scenario::NOTHING
};

// Whether a target stands registered after a reply; none where the reply isn't one of a time when one was, or wasn't.
fn registration_after(is_registered: bool, reply: &str) -> Option<bool> {
    if reply == "opened" || reply.starts_with("replaced ") {
        return if is_registered { Some(true) } else { None };
    }
    if reply.starts_with("unregistered ") {
        return if is_registered { Some(false) } else { None };
    }
    match reply {
        "registered" if !is_registered => Some(true),
        "refused no_target" if !is_registered => Some(false),
        _ => None,
    }
}

// Whether each open is answered by whether a target stands registered there.
fn goes_by_targets(history: &[u8]) -> Option<bool> {
    let mut is_registered = false;
    for line in str::from_utf8(history).ok()?.lines() {
        if let Some(reply) = line.strip_prefix("reply ") {
            let (_, words) = reply.split_once(' ')?;
            is_registered = registration_after(is_registered, words)?;
        }
    }
    Some(true)
}

#[test]
fn opens_are_answered_by_the_targets_that_come_and_go(rt: HostRuntime) -> Result<(), Fail> {
    let history = play_of::<Latest, HostRuntime>(&rt, rt.alloc(), &COMING)?;
    holds(
        goes_by_targets(&history) == Some(true),
        "an open is answered otherwise",
    )?;
    Ok(())
}

const VISITS: Scenario = Scenario {
    name: "one comm may be open, and two clients open one each",
    limits: (2, 1, 1_000, 65_536),
    targets: 1,
    before: "0 register t => registered",
    threads: [
        "times 50
0 open a t - => opened | refused too_many_comms
yield
after opened: 0 close a => closed",
        "",
        "times 50
1 open b t - => opened | refused too_many_comms
yield
after opened: 1 close b => closed",
        "",
    ],
    sums: "most 1",
    ..Scenario::NOTHING
};

const FILLING: Scenario = Scenario {
    name: "two clients make changes until the history is full, and both hear so",
    limits: (2, 16, 100, 65_536),
    threads: [
        "times 101 until history_full 100
0 close q => no_comm | history_full 100
yield

0 hear => heard 100
0 seen => seen 100
0 infos => infos 100",
        "",
        "times 101 until history_full 100
1 close q => no_comm | history_full 100
yield

1 hear => heard 100
1 seen => seen 100
1 infos => infos 100",
        "",
    ],
    sums: "history 101\nmost 0",
    ..Scenario::NOTHING
};

#[test]
fn one_comm_may_be_open(rt: HostRuntime) -> Result<(), Fail> {
    let _history = play_of::<Echo, HostRuntime>(&rt, rt.alloc(), &VISITS)?;
    Ok(())
}

#[test]
fn the_history_fills(rt: HostRuntime) -> Result<(), Fail> {
    let _history = play_of::<Echo, HostRuntime>(&rt, rt.alloc(), &FILLING)?;
    Ok(())
}

// A call that can't be made, for want of memory for its words, was refused by the other client.
const REFUSED: Scenario = Scenario {
    name: "one client has the heap refuse an allocation in each of its rounds, which meets whichever thread asks, while another works",
    limits: (2, 16, 10_000, 65_536),
    targets: 1,
    before: "0 register t => registered",
    threads: [
        "times 99
0 refusing # open a t - => opened | no_memory
after opened: 0 close a => closed
yield",
        "",
        "times 400
1 open b t - => opened | no_memory | no_call
after opened: 1 close b => closed ~ no_memory | no_call
yield",
        "",
    ],
    ..Scenario::NOTHING
};

#[test]
fn refused_allocations_beside_another_client_leave_one_history(
    rt: HostRuntime,
) -> Result<(), Fail> {
    let _history = play_of::<Echo, HostRuntime>(&rt, rt.alloc(), &REFUSED)?;
    Ok(())
}
