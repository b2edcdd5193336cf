//! Each allocation is refused in turn, until none is left.
use crate::tests::line_cases::LineCase;
use crate::tests::trial::{RefusedStep, Trial};
use crate::tests::values::{MakingCase, make_once};
use crate::tests::{core_trial, shared_trial, trial, values};
use std::alloc::{AllocError, Global};
use std::io::Eprint;
use std::process::Abort;
use std::sync::Wait;
use std::test::Fail;
use test_harness::{ManagerKind, TestFault, TextBuilder, expect_text, holds};
use test_support::{has_leaked, mark};

/// What is tried.
#[derive(Drop)]
pub enum RefusalCase {
    Making(&'static MakingCase),
    Trial(Trial),
}

fn name_of(alloc: Global, what: &RefusalCase, number: u32) -> Result<String, AllocError> {
    match what {
        RefusalCase::Making(case) => {
            let (made, of) = (case.made, case.of);
            format!(in alloc; "{made:?} of {of}, at {number}")
        }
        RefusalCase::Trial(trial) => {
            let Trial {
                over,
                step,
                kind,
                more,
                case,
            } = trial;
            let line = case.line;
            format!(in alloc;
                "{over:?}, {step:?} of {line} ({kind:?}, {more} comms more), at {number}"
            )
        }
    }
}

// Tries it with the allocation of this number refused. Gives whether one was.
fn try_once<R: Eprint + Wait>(
    rt: &R,
    alloc: Global,
    what: &RefusalCase,
    number: u32,
    came: &mut TextBuilder,
) -> Result<bool, TestFault> {
    match what {
        RefusalCase::Making(case) => make_once(alloc, case, number, came),
        RefusalCase::Trial(trial) => match trial.over {
            ManagerKind::OneThread => core_trial::try_once(alloc, trial, number, came),
            ManagerKind::Shared => shared_trial::try_once(rt, alloc, trial, number, came),
        },
    }
}

// Whether just this came, where an allocation was refused or wasn't.
fn expect<R: Eprint>(
    rt: &R,
    alloc: Global,
    what: &RefusalCase,
    name: &str,
    is_refused: bool,
    came: &[u8],
) -> Result<(), TestFault> {
    match what {
        RefusalCase::Making(case) => {
            let wanted = values::expected_text(case, is_refused, came);
            expect_text(rt, name, came, wanted.as_bytes())
        }
        RefusalCase::Trial(trial) => {
            let wanted = trial::expected_text(alloc, trial, is_refused)?;
            expect_text(rt, name, came, wanted.as_bytes())
        }
    }
}

// The allocation of this number is refused. Gives whether one was.
fn round<R: Eprint + Wait>(
    rt: &R,
    alloc: Global,
    what: &RefusalCase,
    name: &str,
    number: u32,
) -> Result<bool, TestFault> {
    let mut came = TextBuilder::new(alloc);
    let is_refused = try_once(rt, alloc, what, number, &mut came)?;
    holds(came.is_whole(), "no memory to say what came")?;
    expect(rt, alloc, what, name, is_refused, came.as_bytes())?;
    Ok(is_refused)
}

/// The first allocation is refused, then the second, and so on until none is, and nothing leaks. A heap that refuses
/// nothing goes round once.
fn refuse_each<R: Abort + Eprint + Wait>(
    rt: &R,
    alloc: Global,
    what: &RefusalCase,
) -> Result<(), Fail> {
    for number in 1..10_000u32 {
        let name = name_of(alloc, what, number)?;
        mark(alloc);
        let done = round(rt, alloc, what, name.as_str(), number);
        let has_leaked = has_leaked(alloc);
        assert!(rt;
            !has_leaked,
            "{name}: more blocks are held behind it than before"
        );
        match done {
            Ok(true) => {}
            Ok(false) => return Ok(()),
            Err(TestFault(why)) => panic!(rt; "{name}: {why}"),
        }
    }
    panic!(rt; "it never answered");
}

/// Each of these values and messages.
pub(super) fn make_each<R: Abort + Eprint + Wait>(
    rt: &R,
    alloc: Global,
    cases: &'static [MakingCase],
) -> Result<(), Fail> {
    for case in cases {
        refuse_each(rt, alloc, &RefusalCase::Making(case))?;
    }
    Ok(())
}

/// Each of these cases, by each kind of target and each number of comms.
pub(super) fn try_each<R: Abort + Eprint + Wait>(
    rt: &R,
    alloc: Global,
    over: ManagerKind,
    step: RefusedStep,
    cases: &'static [LineCase],
) -> Result<(), Fail> {
    for case in cases {
        for kind in case.kinds {
            for more in case.sizes {
                let trial = Trial {
                    over,
                    step,
                    kind: *kind,
                    more: *more,
                    case,
                };
                refuse_each(rt, alloc, &RefusalCase::Trial(trial))?;
            }
        }
    }
    Ok(())
}
