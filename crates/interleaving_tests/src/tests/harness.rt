//! Scenarios are played, and what is wrong is printed.
use comm_targets::Target;
use std::alloc::Global;
use std::io::Eprint;
use std::sync::{Arc, Wait};
use std::thread::Threads;
use test_harness::{TestFault, expect_text};
use thread_harness::{Flags, Judgement, Scenario, TestTarget, play_scenario, targets_of};

/// Plays a scenario with these targets, and gives the history's replies and messages.
pub(super) fn play_with<T: Target, R: Threads + Wait + Sync + Eprint>(
    rt: &R,
    alloc: Global,
    scenario: &Scenario,
    targets: Vec<T>,
    fresh: Vec<T>,
    flags: &Flags,
) -> Result<Vec<u8>, TestFault> {
    let Judgement { wrong, history } = play_scenario(rt, alloc, scenario, targets, fresh, flags)?;
    expect_text(rt, scenario.name, &wrong, b"")?;
    Ok(history)
}

/// Plays a scenario with targets of this kind, and gives the history's replies and messages.
pub(super) fn play_of<K: TestTarget, R: Threads + Wait + Sync + Eprint>(
    rt: &R,
    alloc: Global,
    scenario: &Scenario,
) -> Result<Vec<u8>, TestFault> {
    let flags = Arc::new(alloc, Flags::new())?;
    let targets = targets_of::<K>(alloc, scenario, &flags)?;
    let fresh = targets_of::<K>(alloc, scenario, &flags)?;
    play_with(rt, alloc, scenario, targets, fresh, &flags)
}

/// Plays each of these scenarios with targets of this kind.
pub(super) fn play_all_of<K: TestTarget, R: Threads + Wait + Sync + Eprint>(
    rt: &R,
    alloc: Global,
    scenarios: &[Scenario],
) -> Result<(), TestFault> {
    for scenario in scenarios {
        let _history = play_of::<K, R>(rt, alloc, scenario)?;
    }
    Ok(())
}
