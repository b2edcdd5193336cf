//! How a manager ends, and its targets.
use crate::tests::harness::play_all_of;
use comm_targets::{Echo, Latest};
use std::test::*;
use thread_harness::{Ending, Gates, Scenario};

const ROWS: [Scenario; 5] = [
    Scenario {
        name: "a shutdown lacks a client, and is tried again",
        limits: (2, 4_096, 10, 10),
        end: Ending::ShutdownTwice,
        sums: "history 1\nuntaken 1",
        ..Scenario::NOTHING
    },
    Scenario {
        name: "a target ends at an unregister",
        limits: (1, 4_096, 10, 10),
        targets: 1,
        before: r#"0 register t => registered
0 open a t - => opened
0 unregister t => unregistered ["a"]"#,
        end: Ending::Discard,
        sums: "ends 1",
        ..Scenario::NOTHING
    },
    Scenario {
        name: "a target ends where it is replaced, and the other at a discard",
        limits: (1, 4_096, 10, 10),
        targets: 2,
        before: r#"0 register t => registered
0 open a t - => opened
0 register t => replaced ["a"]"#,
        end: Ending::Discard,
        sums: "ends 2",
        ..Scenario::NOTHING
    },
    Scenario {
        name: "a target ends at a shutdown",
        limits: (1, 4_096, 10, 10),
        targets: 1,
        before: "0 register t => registered
0 open a t - => opened",
        sums: "history 3\nuntaken 3\nends 1",
        ..Scenario::NOTHING
    },
    Scenario {
        name: "a target ends at a discard",
        limits: (1, 4_096, 10, 10),
        targets: 1,
        before: "0 register t => registered
0 open a t - => opened",
        end: Ending::Discard,
        sums: "ends 1",
        ..Scenario::NOTHING
    },
];

#[test]
fn targets_end_once(rt: HostRuntime) -> Result<(), Fail> {
    play_all_of::<Echo, HostRuntime>(&rt, rt.alloc(), &ROWS)?;
    Ok(())
}

// A target's end waits for flag 1.
const LASTING: Gates = Gates {
    stop: Some(0),
    ..Gates::NONE
};

const LETTING_GO: [Scenario; 2] = [
    Scenario {
        name: "a target that an unregister ends waits for a change of another client",
        targets: 1,
        gates: LASTING,
        before: "0 register t => registered
0 open a t - => opened",
        threads: [
            r#"0 unregister t => unregistered ["a"]"#,
            "",
            "wait 0 => set
1 close q => no_comm
set 1",
            "",
        ],
        sums: "history 5\nends 1",
        ..Scenario::NOTHING
    },
    Scenario {
        name: "a target that is replaced waits for a change of another client",
        targets: 2,
        gates: LASTING,
        before: "0 register t => registered
0 open a t - => opened",
        threads: [
            r#"0 register t => replaced ["a"]"#,
            "",
            "wait 0 => set
1 close q => no_comm
set 1",
            "",
        ],
        sums: "history 5\nends 2",
        ..Scenario::NOTHING
    },
];

#[test]
fn targets_end_after_the_lock_is_let_go(rt: HostRuntime) -> Result<(), Fail> {
    play_all_of::<Latest, HostRuntime>(&rt, rt.alloc(), &LETTING_GO)?;
    Ok(())
}
