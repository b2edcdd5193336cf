//! Each call of a client once, with a widget, and with one that echoes.
use crate::tests::harness::{play_all_of, play_of};
use std::test::*;
use test_harness::ScriptedTarget;
use thread_harness::Scenario;
use widget_target::WidgetTarget;

const TOUR: Scenario = Scenario {
    name: "each call once",
    limits: (2, 4_096, 100, 64),
    targets: 2,
    before: r#"1 id => id 1
1 register w => registered
1 register w => replaced []
1 launch 67e55044-10b1-426f-9247-bb680e5fe0c8 w {"value":1} => launched
1 push 67e55044-10b1-426f-9247-bb680e5fe0c8 {"value":7} => delivered
1 push 67e55044-10b1-426f-9247-bb680e5fe0c8 {} => delivered
1 send 67e55044-10b1-426f-9247-bb680e5fe0c8 => delivered
1 state 67e55044-10b1-426f-9247-bb680e5fe0c8 => state 6 {"buffer_paths":[],"buffers":[],"state":{"value":7}}
1 hang_up 67e55044-10b1-426f-9247-bb680e5fe0c8 => closed
1 open a w - => refused wrong_version
1 msg a => no_comm
1 close a => no_comm
1 infos => infos 10
1 unregister w => unregistered []
1 ask close a => no_comm"#,
    sums: "history 13\nuntaken 13\nends 2",
    ..Scenario::NOTHING
};

#[test]
fn each_call_is_made_once(rt: HostRuntime) -> Result<(), Fail> {
    let rows = [
        TOUR,
        Scenario {
            name: "each call once, of a widget that echoes",
            echoes: true,
            ..TOUR
        },
    ];
    play_all_of::<WidgetTarget, HostRuntime>(&rt, rt.alloc(), &rows)?;
    Ok(())
}

const NOW: Scenario = Scenario {
    name: "a free target is asked with its comm's state",
    limits: (1, 4_096, 100, 64),
    targets: 1,
    before: r#"0 register n => registered
0 open a n - {"state":{"v":1}} => opened
0 msg a {"now":true} => delivered
0 state a => state 3 {"buffer_paths":[],"buffers":[],"state":{"v":1}}
take => took 0 1
take => took 0 2
whole => out {"buffers":[],"call":3,"client":0,"content":{"comm_id":"a","data":{"now":{"v":1}}},"header":{"msg_type":"comm_msg"},"metadata":{}}"#,
    sums: "history 4",
    ..Scenario::NOTHING
};

#[test]
fn a_free_target_is_asked_with_the_state(rt: HostRuntime) -> Result<(), Fail> {
    play_of::<ScriptedTarget, HostRuntime>(&rt, rt.alloc(), &NOW)?;
    Ok(())
}
