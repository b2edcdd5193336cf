//! Limits that don't fit.
use super::harness::{ScriptRun, expect_answers};
use comm_core::Limits;
use comm_script::RunFault;
use std::alloc::Global;
use std::io::Eprint;
use std::sync::Wait;
use std::test::Fail;
use test_harness::{BOTH_MANAGERS, ManagerKind, TestFault, holds};

/// Limits, and whether they fit.
const LIMITS: [(u8, usize, u64, usize, bool); 10] = [
    (4, 4096, 4_294_967_295, 65_536, true),
    (1, 1, 1, 1, true),
    (0, 1, 1, 1, false),
    (5, 1, 1, 1, false),
    (1, 0, 1, 1, false),
    (1, 4097, 1, 1, false),
    (1, 1, 0, 1, false),
    (1, 1, 4_294_967_296, 1, false),
    (1, 1, 1, 0, false),
    (1, 1, 1, 65_537, false),
];

fn play_within<R: Eprint + Wait>(
    rt: &R,
    alloc: Global,
    over: ManagerKind,
    limits: Limits,
    fit: bool,
) -> Result<(), TestFault> {
    let script = ScriptRun {
        limits,
        ..ScriptRun::over(over, b"{}")
    };
    if fit {
        let _came = expect_answers(
            rt,
            alloc,
            "limits that fit",
            &script,
            Ok(()),
            b"bad 1 no_type\n",
        )?;
        return Ok(());
    }
    let came = expect_answers(
        rt,
        alloc,
        "limits that don't fit",
        &script,
        Err(RunFault::BadLimits),
        b"",
    )?;
    holds(
        came.reads == 0 && came.writes == 0,
        "something was read or written",
    )
}

#[test]
fn limits_that_fit_are_needed(rt: HostRuntime) -> Result<(), Fail> {
    for (clients, comms, history, outbox, fit) in &LIMITS {
        let limits = Limits {
            clients: *clients,
            comms: *comms,
            history: *history,
            outbox: *outbox,
        };
        for over in BOTH_MANAGERS {
            play_within(&rt, rt.alloc(), over, limits, *fit)?;
        }
    }
    Ok(())
}
