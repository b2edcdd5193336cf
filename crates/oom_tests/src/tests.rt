//! Each allocation is refused in turn (`refusals`) in what is tried (`trial`): `values` and messages that are made,
//! and the lines of `line_cases`, over the manager of one thread (`core_trial`, by `core_steps`) and over the one
//! that threads share (`shared_trial`, by the player of `thread_harness`, and `manager_end`).
mod core_steps;
mod core_trial;
mod line_cases;
mod manager_end;
mod refusals;
mod shared_trial;
mod trial;
mod values;

use line_cases::{
    CHANGES, CHANGES_OF_OTHERS, LISTS, NOTHING, READS, REGISTERS, REPLACEMENTS, RETRIES, STATES,
};
use refusals::{make_each, try_each};
use std::test::Fail;
use test_harness::ManagerKind;
use trial::RefusedStep;
use values::{COPIES, MESSAGES, PLACES, VALUES};

#[test]
fn refused_allocations_make_no_value(rt: HostRuntime) -> Result<(), Fail> {
    make_each(&rt, rt.alloc(), &VALUES)?;
    make_each(&rt, rt.alloc(), &PLACES)?;
    make_each(&rt, rt.alloc(), &MESSAGES)
}

/// A copy shares all that it is made of.
#[test]
fn spared_copies_take_no_memory(rt: HostRuntime) -> Result<(), Fail> {
    make_each(&rt, rt.alloc(), &COPIES)
}

#[test]
fn refused_allocations_leave_a_step_unmade(rt: HostRuntime) -> Result<(), Fail> {
    try_each(
        &rt,
        rt.alloc(),
        ManagerKind::OneThread,
        RefusedStep::Step,
        &CHANGES,
    )?;
    try_each(
        &rt,
        rt.alloc(),
        ManagerKind::OneThread,
        RefusedStep::Step,
        &CHANGES_OF_OTHERS,
    )
}

#[test]
fn refused_allocations_prepare_no_change(rt: HostRuntime) -> Result<(), Fail> {
    try_each(
        &rt,
        rt.alloc(),
        ManagerKind::OneThread,
        RefusedStep::Begin,
        &CHANGES,
    )
}

#[test]
fn refused_allocations_give_no_entry(rt: HostRuntime) -> Result<(), Fail> {
    try_each(
        &rt,
        rt.alloc(),
        ManagerKind::OneThread,
        RefusedStep::Entry,
        &CHANGES,
    )
}

#[test]
fn refused_allocations_give_no_row(rt: HostRuntime) -> Result<(), Fail> {
    try_each(
        &rt,
        rt.alloc(),
        ManagerKind::OneThread,
        RefusedStep::Row,
        &CHANGES,
    )
}

#[test]
fn refused_allocations_register_no_target(rt: HostRuntime) -> Result<(), Fail> {
    try_each(
        &rt,
        rt.alloc(),
        ManagerKind::OneThread,
        RefusedStep::Step,
        &REGISTERS,
    )?;
    try_each(
        &rt,
        rt.alloc(),
        ManagerKind::OneThread,
        RefusedStep::Step,
        &REPLACEMENTS,
    )
}

#[test]
fn refused_allocations_list_no_comms(rt: HostRuntime) -> Result<(), Fail> {
    try_each(
        &rt,
        rt.alloc(),
        ManagerKind::OneThread,
        RefusedStep::Read,
        &LISTS,
    )
}

/// A change that stands ready is made or withdrawn, a state is read, and each manager is stopped, without memory.
#[test]
fn spared_ends_take_no_memory(rt: HostRuntime) -> Result<(), Fail> {
    for step in [RefusedStep::Finish, RefusedStep::Withdraw] {
        try_each(&rt, rt.alloc(), ManagerKind::OneThread, step, &CHANGES)?;
        try_each(&rt, rt.alloc(), ManagerKind::OneThread, step, &REPLACEMENTS)?;
    }
    try_each(
        &rt,
        rt.alloc(),
        ManagerKind::OneThread,
        RefusedStep::Read,
        &STATES,
    )
}

#[test]
fn a_target_without_memory_is_asked_again(rt: HostRuntime) -> Result<(), Fail> {
    try_each(
        &rt,
        rt.alloc(),
        ManagerKind::OneThread,
        RefusedStep::Lines,
        &RETRIES,
    )?;
    try_each(
        &rt,
        rt.alloc(),
        ManagerKind::Shared,
        RefusedStep::Lines,
        &RETRIES,
    )
}

#[test]
fn refused_allocations_open_no_manager(rt: HostRuntime) -> Result<(), Fail> {
    try_each(
        &rt,
        rt.alloc(),
        ManagerKind::Shared,
        RefusedStep::Opening,
        &NOTHING,
    )
}

#[test]
fn refused_allocations_leave_a_shared_change_unmade(rt: HostRuntime) -> Result<(), Fail> {
    try_each(
        &rt,
        rt.alloc(),
        ManagerKind::Shared,
        RefusedStep::Step,
        &CHANGES,
    )
}

#[test]
fn refused_allocations_register_no_shared_target(rt: HostRuntime) -> Result<(), Fail> {
    try_each(
        &rt,
        rt.alloc(),
        ManagerKind::Shared,
        RefusedStep::Step,
        &REGISTERS,
    )?;
    try_each(
        &rt,
        rt.alloc(),
        ManagerKind::Shared,
        RefusedStep::Step,
        &REPLACEMENTS,
    )
}

#[test]
fn refused_allocations_read_nothing(rt: HostRuntime) -> Result<(), Fail> {
    try_each(
        &rt,
        rt.alloc(),
        ManagerKind::Shared,
        RefusedStep::Read,
        &READS,
    )?;
    try_each(
        &rt,
        rt.alloc(),
        ManagerKind::Shared,
        RefusedStep::Read,
        &STATES,
    )
}

#[test]
fn refused_allocations_shut_no_manager_down(rt: HostRuntime) -> Result<(), Fail> {
    try_each(
        &rt,
        rt.alloc(),
        ManagerKind::Shared,
        RefusedStep::Shutdown,
        &NOTHING,
    )
}

#[test]
fn spared_stamps_and_ends_take_no_memory(rt: HostRuntime) -> Result<(), Fail> {
    try_each(
        &rt,
        rt.alloc(),
        ManagerKind::Shared,
        RefusedStep::Discard,
        &NOTHING,
    )
}

/// A shutdown asks for room for what wasn't taken, and not for the whole history.
#[test]
fn spared_shutdown_copies_no_history_that_was_taken(rt: HostRuntime) -> Result<(), Fail> {
    try_each(
        &rt,
        rt.alloc(),
        ManagerKind::Shared,
        RefusedStep::ShutdownTaken,
        &NOTHING,
    )
}
