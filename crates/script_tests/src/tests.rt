//! Whole scripts. `frontend_cases`, `kernel_cases`, `widget_cases`, `echo_cases` and `decimal_cases` have scripts that
//! both managers answer alike, and `shared_manager` what the shared one alone says. `truncation` has the scripts cut
//! after each byte, `nesting` what nests as deep as a line may, with a small stack, `many_calls` readers and writers that are
//! called often, `limits` limits that don't fit, `injected_faults` readers, writers and heaps that fail, and
//! `target_ends` a target that counts how often it is ended. `harness` plays a script.
mod decimal_cases;
mod echo_cases;
mod frontend_cases;
mod harness;
mod injected_faults;
mod kernel_cases;
mod limits;
mod many_calls;
mod nesting;
mod shared_manager;
mod target_ends;
mod truncation;
mod widget_cases;

use comm_value::Numbers;
use harness::{ScriptRun, expect_answers, program_limits};
use std::alloc::Global;
use std::io::Eprint;
use std::sync::Wait;
use std::test::Fail;
use test_harness::{BOTH_MANAGERS, TestFault};

/// How many comms there may be, at most.
const MAX_COMMS: usize = 4096;

/// A script and what must be written for it.
struct ScriptCase {
    name: &'static str,
    comms: usize,
    script: &'static [u8],
    answers: &'static [u8],
}

/// The answers of each case are written and flushed, however many bytes are read and written at a time.
fn play_cases<R: Eprint + Wait>(
    rt: &R,
    alloc: Global,
    numbers: Numbers,
    cases: &[ScriptCase],
) -> Result<(), TestFault> {
    for case in cases {
        for over in BOTH_MANAGERS {
            for (read, write) in [(4096, 4096), (1, 4096), (4096, 1), (7, 3)] {
                let script = ScriptRun {
                    limits: program_limits(case.comms),
                    numbers,
                    read,
                    write,
                    ..ScriptRun::over(over, case.script)
                };
                expect_answers(rt, alloc, case.name, &script, Ok(()), case.answers)?;
            }
        }
    }
    Ok(())
}

#[test]
fn frontends_are_answered(rt: HostRuntime) -> Result<(), Fail> {
    Ok(play_cases(&rt, rt.alloc(), Numbers::Whole, &frontend_cases::ROWS)?)
}

#[test]
fn commands_are_answered(rt: HostRuntime) -> Result<(), Fail> {
    Ok(play_cases(&rt, rt.alloc(), Numbers::Whole, &kernel_cases::ROWS)?)
}

#[test]
fn widgets_are_answered(rt: HostRuntime) -> Result<(), Fail> {
    Ok(play_cases(&rt, rt.alloc(), Numbers::Whole, &widget_cases::ROWS)?)
}

#[test]
fn widgets_that_echo_are_answered(rt: HostRuntime) -> Result<(), Fail> {
    play_cases(&rt, rt.alloc(), Numbers::Whole, &echo_cases::ROWS)?;
    Ok(play_cases(&rt, rt.alloc(), Numbers::Whole, &echo_cases::AS_OTHERS)?)
}

#[test]
fn numbers_that_are_not_whole_are_kept(rt: HostRuntime) -> Result<(), Fail> {
    Ok(play_cases(&rt, rt.alloc(), Numbers::Any, &decimal_cases::ROWS)?)
}
