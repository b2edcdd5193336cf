//! Each limit is met and said.
use crate::tests::harness::play_all_of;
use comm_core::{Limits, NewFault};
use comm_manager::ManagerBuilder;
use comm_targets::Echo;
use std::alloc::Global;
use std::test::*;
use thread_harness::Scenario;

const ROWS: [Scenario; 6] = [
    Scenario {
        name: "an outbox of one: an entry must be taken before the next change",
        limits: (1, 4_096, 1_000, 1),
        before: "0 close q => no_comm
0 close q => outbox_full 1
take => took 0 1
0 close q => no_comm
take => took 0 2
take => none
taken => taken 2

times 100
0 close q => no_comm
0 close q => outbox_full 1
take => took 0 *
take => none",
        sums: "history 103\nuntaken 1",
        ..Scenario::NOTHING
    },
    Scenario {
        name: "an outbox of three: three changes, one that is refused, and three entries to take",
        limits: (2, 4_096, 1_000, 3),
        before: "times 100
0 close q => no_comm
0 close q => no_comm
0 close q => no_comm
0 close q => outbox_full 3
take => took 0 *
take => took 0 *
take => took 0 *
take => none

taken => taken 300",
        sums: "history 301\nuntaken 1",
        ..Scenario::NOTHING
    },
    Scenario {
        name: "a history of two is full whether or not entries wait; reads go on",
        limits: (1, 4_096, 2, 64),
        before: "0 close q => no_comm
0 close q => no_comm
0 close q => history_full 2
take => took 0 1
0 close q => history_full 2
0 infos => infos 2",
        sums: "history 3\nuntaken 2",
        ..Scenario::NOTHING
    },
    Scenario {
        name: "where the history is full and too many entries wait, the history is said to be full",
        limits: (1, 4_096, 2, 2),
        before: "0 close q => no_comm
0 close q => no_comm
0 close q => history_full 2
take => took 0 1
0 close q => history_full 2
take => took 0 2
0 close q => history_full 2",
        sums: "history 3\nuntaken 1",
        ..Scenario::NOTHING
    },
    Scenario {
        name: "one entry may wait, and two clients make changes while a third thread takes",
        limits: (2, 16, 1_000, 1),
        threads: [
            "times 100
0 close q => no_comm ~ outbox_full 1",
            "",
            "times 100
1 close q => no_comm ~ outbox_full 1",
            "times 200
take => took * ~ none

taken => taken 200",
        ],
        after: "take => none",
        sums: "history 201\nuntaken 1\nmost 0\nof 0 100\nof 1 100",
        ..Scenario::NOTHING
    },
    Scenario {
        name: "two threads put, and a third takes of it what it can",
        limits: (2, 16, 1_000, 64),
        threads: [
            "times 100
0 close a => no_comm ~ outbox_full 64",
            "",
            "times 100
1 close b => no_comm ~ outbox_full 64",
            "times 150
take => took * ~ none",
        ],
        after: "taken => taken 150",
        sums: "history 201\nuntaken 51\nof 0 100\nof 1 100",
        ..Scenario::NOTHING
    },
];

#[test]
fn limits_are_met_and_said(rt: HostRuntime) -> Result<(), Fail> {
    play_all_of::<Echo, HostRuntime>(&rt, rt.alloc(), &ROWS)?;
    Ok(())
}

// Whether there is no manager of these limits, since they are out of their bounds.
fn are_refused(alloc: Global, clients: u8, comms: usize, history: u64, outbox: usize) -> bool {
    let limits = Limits {
        clients,
        comms,
        history,
        outbox,
    };
    let opening = ManagerBuilder::new(alloc, limits);
    matches!(opening, Err(NewFault::BadLimits))
}

#[test]
fn limits_out_of_their_bounds_make_no_manager(rt: HostRuntime) {
    let bad = [
        (0, 1, 1, 1),
        (1, 0, 1, 1),
        (1, 1, 0, 1),
        (1, 1, 1, 0),
        (5, 4_096, 1, 1),
        (4, 4_097, 1, 1),
        (4, 4_096, 4_294_967_296, 1),
        (4, 4_096, 1, 65_537),
    ];
    let alloc = rt.alloc();
    for (clients, comms, history, outbox) in bad {
        assert!(rt;
            are_refused(alloc, clients, comms, history, outbox),
            "{clients} {comms} {history} {outbox}"
        );
    }
    assert!(rt;
        !are_refused(alloc, 4, 4_096, 4_294_967_295, 65_536),
        "the most"
    );
}
