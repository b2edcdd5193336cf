//! What clients have seen: by their own calls, by stamps, and by reads that no lock holds up.
use crate::tests::harness::{play_all_of, play_of};
use comm_targets::{Echo, Latest};
use std::test::*;
use thread_harness::{Ending, Gates, Scenario};
use widget_target::WidgetTarget;

const HEARD: Scenario = Scenario {
    name: "what one changes the second hears of, and the third reads",
    limits: (3, 4_096, 100, 64),
    targets: 1,
    before: r#"0 register w => registered
0 open a w 2.0.0 {"state":{"value":1}} => opened
0 push a {"value":7} => delivered
1 seen => seen 0
2 seen => seen 0
1 hear => heard 3
1 seen => seen 3
1 state a => state 3 {"buffer_paths":[],"buffers":[],"state":{"value":7}}
1 seen => seen 3
1 infos => infos 3 a w
2 infos => infos 3 a w
2 seen => seen 3"#,
    ..Scenario::NOTHING
};

#[test]
fn what_is_heard_is_read(rt: HostRuntime) -> Result<(), Fail> {
    let rows = [
        HEARD,
        Scenario {
            name: "what one changes the second hears of, and the third reads, with a widget that echoes",
            echoes: true,
            ..HEARD
        },
    ];
    play_all_of::<WidgetTarget, HostRuntime>(&rt, rt.alloc(), &rows)?;
    Ok(())
}

// A message stays with its target until flag 1 is set.
const PATIENT: Gates = Gates {
    message: Some(0),
    ..Gates::NONE
};

// So does a target's first close, and then its end until flag 3 is.
const SLOW: Gates = Gates {
    close: Some(0),
    stop: Some(2),
    ..Gates::NONE
};

const HELD: [Scenario; 3] = [
    Scenario {
        name: "a read is answered while a change is with its target",
        limits: (2, 4_096, 100, 64),
        targets: 1,
        gates: PATIENT,
        before: r#"0 register w => registered
0 open a w 2.0.0 {"value":1} => opened
1 hear => heard 2"#,
        threads: [
            r#"0 msg a {"value":2} => delivered
0 seen => seen 3"#,
            "",
            r#"wait 0 => set
1 state a => state 2 {"buffer_paths":[],"buffers":[],"state":{"value":1}}
set 1"#,
            "",
        ],
        after: r#"1 state a => state 3 {"buffer_paths":[],"buffers":[],"state":{"value":2}}
0 state a => state 3 {"buffer_paths":[],"buffers":[],"state":{"value":2}}"#,
        ..Scenario::NOTHING
    },
    Scenario {
        name: "a target that takes its time keeps neither the publisher nor a reader waiting",
        limits: (2, 16, 100, 65_536),
        targets: 1,
        gates: PATIENT,
        before: r#"0 register t => registered
0 open a t - {"v":1} => opened
0 seen => seen 2
1 hear => heard 2
1 seen => seen 2"#,
        threads: [
            r#"0 msg a {"v":2} => delivered
0 seen => seen 3"#,
            "",
            "wait 0 => set
1 infos => infos 2 a t
1 seen => seen 2
wait 2 => set
set 1",
            "wait 0 => set
take => took 0 1
set 2",
        ],
        sums: "history 4\nuntaken 3\nmost 1",
        ..Scenario::NOTHING
    },
    Scenario {
        name: "who reads while a target is replaced sees all of its comms, or none",
        limits: (2, 16, 100, 65_536),
        targets: 2,
        gates: SLOW,
        before: "0 register t => registered
0 open b t - => opened
0 open c t - => opened
0 open a t - => opened",
        threads: [
            r#"0 register t => replaced ["b","c","a"]
0 seen => seen 5"#,
            "",
            "wait 0 => set
1 infos => infos 4 a t b t c t
is_set 2 => unset
set 1
wait 2 => set
1 infos => infos 5
set 3",
            "",
        ],
        sums: "history 6\nuntaken 6\nmost 3\nends 2",
        ..Scenario::NOTHING
    },
];

#[test]
fn nothing_waits_for_a_target(rt: HostRuntime) -> Result<(), Fail> {
    play_all_of::<Latest, HostRuntime>(&rt, rt.alloc(), &HELD)?;
    Ok(())
}

const READ: [Scenario; 3] = [
    Scenario {
        name: "an entry that was taken can be read by who heard of nothing",
        limits: (4, 4_096, 10_000, 65_536),
        threads: [
            "times 3000
0 close q => no_comm",
            "",
            "",
            "times 3000
take => took 0 # ~ none
3 keeps_up => keeps_up",
        ],
        after: "3 seen => seen 3000",
        ..Scenario::NOTHING
    },
    Scenario {
        name: "lists of two targets are read in turn, and neither is taken for the other",
        targets: 2,
        before: r#"0 register t => registered
0 register u => registered
0 open a t - => opened
0 open b u - => opened
1 infos t => infos 4 a t
1 infos u => infos 4 b u
1 infos => infos 4 a t b u
1 infos t => infos 4 a t
1 infos t => infos 4 a t
1 infos v => infos 4
1 infos u => infos 4 b u"#,
        ..Scenario::NOTHING
    },
    Scenario {
        name: "a read after a discard gives no version, and what was seen stays",
        targets: 1,
        before: r#"0 register t => registered
0 open a t - => opened
1 hear => heard 2
1 infos => infos 2 a t"#,
        end: Ending::Discard,
        last: "1 infos => no_version
1 infos t => no_version
1 state a => no_version
1 seen => seen 2
0 state a => no_version
0 seen => seen 2",
        sums: "ends 1",
        ..Scenario::NOTHING
    },
];

#[test]
fn what_can_be_read_after_what(rt: HostRuntime) -> Result<(), Fail> {
    play_all_of::<Echo, HostRuntime>(&rt, rt.alloc(), &READ)?;
    Ok(())
}
