//! As many entries wait as may, and as many changes are made as one client hardly makes.
use crate::tests::harness::play_of;
use comm_targets::Echo;
use std::test::*;
use thread_harness::Scenario;

// The publisher begins in any case, after a while: so a change that is put where no room is left waits for that
// while, and then has another answer.
const MANY_CHANGES: Scenario = Scenario {
    name: "65,536 entries wait; then changes go on beside the publisher, and reads after all",
    limits: (2, 4_096, 1_000_000, 65_536),
    threads: [
        "times 65536
0 close q => no_comm

0 close q => outbox_full 65536
set 0

times 8 until set
wait 1 => *

times 70001
0 close q => no_comm ~ outbox_full 65536",
        "",
        "times 8 until set
wait 1 => *

times 40000
1 close q => no_comm ~ outbox_full 65536",
        "times 4 until set
wait 0 => *

times 65536
take => took 0 #

take => none
set 1

times 110001
take => took * ~ none",
    ],
    after: "take => none
taken => taken 175537
0 infos => infos 175537
1 infos => infos 175537
0 state q => state 175537 no_comm
1 state q => state 175537 no_comm
0 close q => no_comm",
    sums: "history 175539\nuntaken 2\nmost 0\nof 0 135538\nof 1 40000",
    ..Scenario::NOTHING
};

#[test]
fn many_changes_are_made_while_entries_are_taken(rt: HostRuntime) -> Result<(), Fail> {
    play_of::<Echo, HostRuntime>(&rt, rt.alloc(), &MANY_CHANGES)?;
    Ok(())
}
