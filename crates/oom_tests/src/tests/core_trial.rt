//! A trial over the manager of one thread.
ghost use Rattle.std.specs.Prelude.{◌≡◌, true};
ghost use Rattle.comm_targets.specs.Meaning.{IsIdle};

use crate::tests::core_steps::{look, play, register, try_line, try_register};
use crate::tests::line_cases::OPENING_DATA;
use crate::tests::trial::{LIMITS, RefusedStep, Trial, is_made};
use comm_core::Core;
use comm_targets::{Counter, Echo, Kind, PlainTarget, Target};
use std::alloc::{AllocError, Global};
use test_harness::{ScriptedTarget, TestFault, TextBuilder, holds, split_word};
use test_support::{refuse, was_refused};
use thread_harness::TestTarget;
use widget_target::WidgetTarget;

/// The lines of the openings of `a`, and of as many comms more. Err: memory.
pub(super) fn openings(alloc: Global, more: usize) -> Result<String, AllocError> {
    let mut lines = format!(in alloc; "open a w 2.0.0 {OPENING_DATA}\n")?;
    for number in 0..more {
        let line = format!(in alloc; "open c{number} w 2.0.0 {OPENING_DATA}\n")?;
        lines.push_str(line.as_str())?;
    }
    Ok(lines)
}

// Registers the target, opens the comms, and looks at what the manager then has.
fn fill<T: Target>(
    alloc: Global,
    core: &mut Core<T>,
    target: T,
    more: usize,
    text: &mut TextBuilder,
) -> Result<(), TestFault>
    requires settled { core.old.settled ≡ true }
    requires idle { IsIdle (T.means target) }
    ensures { core.new.settled ≡ true }
{
    let mut unheard = TextBuilder::new(alloc);
    let (_is_refused, _back) = register(alloc, core, "w", 0, target, &mut unheard)?;
    let lines = openings(alloc, more)?;
    play(alloc, core, lines.as_str(), &mut unheard)?;
    look(alloc, core, text)
}

// A change. Where it wasn't made by then, all is as before, and it is made.
fn change_twice<T: Target>(
    alloc: Global,
    core: &mut Core<T>,
    trial: &Trial,
    number: u32,
    text: &mut TextBuilder,
) -> Result<bool, TestFault>
    requires settled { core.old.settled ≡ true }
    ensures { core.new.settled ≡ true }
{
    let line = trial.case.line;
    if trial.step == RefusedStep::Lines {
        play(alloc, core, line, text)?;
        return Ok(false);
    }
    let is_refused = try_line(alloc, core, trial.step, line, number, text)?;
    if !is_made(trial.step, is_refused) {
        look(alloc, core, text)?;
        let again = match trial.step {
            RefusedStep::Read => RefusedStep::Read,
            _ => RefusedStep::Step,
        };
        let _is_refused = try_line(alloc, core, again, line, 0, text)?;
    }
    Ok(is_refused)
}

// A register. Where it wasn't made by then, all is as before, and the target comes back idle and is registered.
fn register_twice<T: Target>(
    alloc: Global,
    core: &mut Core<T>,
    trial: &Trial,
    number: u32,
    target: T,
    text: &mut TextBuilder,
) -> Result<bool, TestFault>
    requires settled { core.old.settled ≡ true }
    requires idle { IsIdle (T.means target) }
    ensures { core.new.settled ≡ true }
{
    let (_, name) = split_word(trial.case.line);
    let (is_refused, back) = try_register(alloc, core, trial.step, name, number, target, text)?;
    if let Some(target) = back {
        look(alloc, core, text)?;
        if !target.idle() {
            return Err(TestFault("another target"));
        }
        let (_is_refused, _back) = register(alloc, core, name, 0, target, text)?;
    }
    Ok(is_refused)
}

fn play_trial<T: Target>(
    alloc: Global,
    core: &mut Core<T>,
    trial: &Trial,
    number: u32,
    target: T,
    other: T,
    text: &mut TextBuilder,
) -> Result<bool, TestFault>
    requires settled { core.old.settled ≡ true }
    requires target { IsIdle (T.means target) }
    requires other { IsIdle (T.means other) }
    ensures { core.new.settled ≡ true }
{
    fill(alloc, core, target, trial.more, text)?;
    if trial.case.line.starts_with("register ") {
        register_twice(alloc, core, trial, number, other, text)
    } else {
        change_twice(alloc, core, trial, number, text)
    }
}

// To stop the manager takes no memory.
fn try_with<T: Target>(
    alloc: Global,
    trial: &Trial,
    number: u32,
    target: T,
    other: T,
    text: &mut TextBuilder,
) -> Result<bool, TestFault>
    requires target { IsIdle (T.means target) }
    requires other { IsIdle (T.means other) }
{
    let Ok(mut core) = Core::new(alloc, LIMITS) else {
        return Err(TestFault("no manager"));
    };
    let done = play_trial(alloc, &mut core, trial, number, target, other, text);
    let _is_heard = refuse(alloc, 1);
    core.stop_all();
    holds(!was_refused(alloc), "memory was asked for at the end")?;
    done
}

// A trial with two targets of this type.
fn try_kind<K: TestTarget>(
    alloc: Global,
    trial: &Trial,
    number: u32,
    echoes: bool,
    text: &mut TextBuilder,
) -> Result<bool, TestFault> {
    let target = K::build(alloc, echoes);
    if !target.idle() {
        return Err(TestFault("a target isn't idle"));
    }
    let other = K::build(alloc, echoes);
    if !other.idle() {
        return Err(TestFault("a target isn't idle"));
    }
    try_with(alloc, trial, number, target, other, text)
}

/// The trial with the allocation of this number refused. Gives whether one was.
pub(super) fn try_once(
    alloc: Global,
    trial: &Trial,
    number: u32,
    text: &mut TextBuilder,
) -> Result<bool, TestFault> {
    match trial.kind {
        Kind::Widget => try_kind::<WidgetTarget>(alloc, trial, number, false, text),
        Kind::WidgetEcho => try_kind::<WidgetTarget>(alloc, trial, number, true, text),
        Kind::Echo => try_kind::<Echo>(alloc, trial, number, false, text),
        Kind::Counter => try_kind::<Counter>(alloc, trial, number, false, text),
        Kind::Plain | Kind::Opaque => try_kind::<PlainTarget>(alloc, trial, number, false, text),
        Kind::Free => try_kind::<ScriptedTarget>(alloc, trial, number, false, text),
    }
}
