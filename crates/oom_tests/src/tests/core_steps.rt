//! Steps of the manager of one thread, and what came of them in words.
ghost use Rattle.std.specs.Prelude.{◌≡◌, true};
ghost use Rattle.comm_core.specs.Ready.{IsReady};
ghost use Rattle.comm_targets.specs.Meaning.{IsIdle};

use crate::tests::trial::{ENDED, MEMORY, READY, RefusedStep, refuse_at, was_refused_at};
use comm_core::{Core, Finished, Ready, Reply, StateAnswer};
use comm_messages::{Infos, Outgoing, Parent};
use comm_script::append_state_line;
use comm_targets::Target;
use comm_value::Text;
use std::alloc::{AllocError, Global};
use test_harness::{TestFault, TextBuilder, append_answer, call_of, holds, split_word};

/// Whom what goes out answers.
pub const PARENT: Parent = Parent::Call {
    client: 0,
    number: 1,
};

// What a change gave.
fn push_change(given: Result<(Reply, Vec<Outgoing>), AllocError>, text: &mut TextBuilder) {
    match given {
        Ok((reply, outgoing)) => {
            let done = append_answer(1, &PARENT, &reply, &outgoing, text.bytes_mut());
            drop(reply);
            drop(outgoing);
            text.note(done);
        }
        Err(_) => text.push(MEMORY),
    }
}

// The step of a line, in which the allocation of this number is refused. Each of these gives whether one was.
fn step_line<T: Target>(
    alloc: Global,
    core: &mut Core<T>,
    line: &str,
    number: u32,
    text: &mut TextBuilder,
) -> Result<bool, TestFault>
    requires settled { core.old.settled ≡ true }
    ensures { core.new.settled ≡ true }
{
    let call = call_of(alloc, line)?;
    refuse_at(alloc, number);
    let given = core.step(call);
    let is_refused = was_refused_at(alloc, number);
    push_change(given, text);
    Ok(is_refused)
}

/// The step of each line, in which nothing is refused.
pub(super) fn play<T: Target>(
    alloc: Global,
    core: &mut Core<T>,
    lines: &str,
    text: &mut TextBuilder,
) -> Result<(), TestFault>
    requires settled { core.old.settled ≡ true }
    ensures { core.new.settled ≡ true }
{
    for line in lines.lines() {
        let _is_refused = step_line(alloc, core, line, 0, text)?;
    }
    Ok(())
}

// A change stands ready, or doesn't, and is taken back.
fn begin<T: Target>(
    alloc: Global,
    core: &mut Core<T>,
    line: &str,
    number: u32,
    text: &mut TextBuilder,
) -> Result<bool, TestFault>
    requires settled { core.old.settled ≡ true }
    ensures { core.new.settled ≡ true }
{
    let call = call_of(alloc, line)?;
    refuse_at(alloc, number);
    let given = core.begin(call);
    let is_refused = was_refused_at(alloc, number);
    let words = match given {
        Ok(ready) => {
            let _back = core.withdraw(ready);
            READY
        }
        Err(_) => MEMORY,
    };
    text.push(words);
    Ok(is_refused)
}

// Makes the change that stands ready, and ends a target that it takes out.
fn finish<T: Target>(
    alloc: Global,
    core: &mut Core<T>,
    ready: Ready<T>,
    number: u32,
    text: &mut TextBuilder,
) -> bool
    requires ready { IsReady core.old ready }
    ensures { core.new.settled ≡ true }
{
    refuse_at(alloc, number);
    let Finished {
        reply,
        outgoing,
        ended,
    } = core.finish(ready);
    let words = match ended {
        Some(held) => {
            held.end();
            ENDED
        }
        None => "",
    };
    let is_refused = was_refused_at(alloc, number);
    push_change(Ok((reply, outgoing)), text);
    text.push(words);
    is_refused
}

// Takes the change back that stands ready. A target that it had comes back.
fn withdraw<T: Target>(
    alloc: Global,
    core: &mut Core<T>,
    ready: Ready<T>,
    number: u32,
    text: &mut TextBuilder,
) -> (bool, Option<T>)
    requires ready { IsReady core.old ready }
    ensures { core.new.settled ≡ true }
{
    refuse_at(alloc, number);
    let back = core.withdraw(ready);
    let is_refused = was_refused_at(alloc, number);
    text.push(READY);
    (is_refused, back)
}

fn can_be_shown<T: Target>(alloc: Global, ready: &Ready<T>, step: RefusedStep) -> bool {
    match step {
        RefusedStep::Entry => ready.entry(alloc, 1, 7).is_ok(),
        _ => ready.row(alloc).is_ok(),
    }
}

// What stands ready is shown with a refusal, and then without. Then the change is made where nothing was refused,
// else withdrawn.
fn show<T: Target>(
    alloc: Global,
    core: &mut Core<T>,
    step: RefusedStep,
    line: &str,
    number: u32,
    text: &mut TextBuilder,
) -> Result<bool, TestFault>
    requires settled { core.old.settled ≡ true }
    ensures { core.new.settled ≡ true }
{
    let call = call_of(alloc, line)?;
    let ready = core.begin(call)?;
    refuse_at(alloc, number);
    let is_first = can_be_shown(alloc, &ready, step);
    let is_refused = was_refused_at(alloc, number);
    let is_next = can_be_shown(alloc, &ready, step);
    if is_refused {
        let _back = core.withdraw(ready);
        text.push(MEMORY);
    } else {
        let _is_refused = finish(alloc, core, ready, 0, text);
    }
    holds(
        is_first != is_refused,
        "it is shown in the face of a refusal",
    )?;
    holds(is_next, "it isn't shown after a refusal")?;
    Ok(is_refused)
}

// What stands ready is made or taken back.
fn end<T: Target>(
    alloc: Global,
    core: &mut Core<T>,
    step: RefusedStep,
    line: &str,
    number: u32,
    text: &mut TextBuilder,
) -> Result<bool, TestFault>
    requires settled { core.old.settled ≡ true }
    ensures { core.new.settled ≡ true }
{
    let call = call_of(alloc, line)?;
    let ready = core.begin(call)?;
    if step == RefusedStep::Finish {
        Ok(finish(alloc, core, ready, number, text))
    } else {
        let (is_refused, _back) = withdraw(alloc, core, ready, number, text);
        Ok(is_refused)
    }
}

/// The line of a trial.
pub(super) fn try_line<T: Target>(
    alloc: Global,
    core: &mut Core<T>,
    step: RefusedStep,
    line: &str,
    number: u32,
    text: &mut TextBuilder,
) -> Result<bool, TestFault>
    requires settled { core.old.settled ≡ true }
    ensures { core.new.settled ≡ true }
{
    match step {
        RefusedStep::Begin => begin(alloc, core, line, number, text),
        RefusedStep::Entry | RefusedStep::Row => show(alloc, core, step, line, number, text),
        RefusedStep::Finish | RefusedStep::Withdraw => end(alloc, core, step, line, number, text),
        RefusedStep::Read => read(alloc, core, line, number, text),
        _ => step_line(alloc, core, line, number, text),
    }
}

/// A target is registered under a name. It comes back where it isn't.
pub(super) fn register<T: Target>(
    alloc: Global,
    core: &mut Core<T>,
    name: &str,
    number: u32,
    target: T,
    text: &mut TextBuilder,
) -> Result<(bool, Option<T>), TestFault>
    requires settled { core.old.settled ≡ true }
    requires idle { IsIdle (T.means target) }
    ensures { core.new.settled ≡ true }
{
    let name = Text::copy_of(alloc, name)?;
    refuse_at(alloc, number);
    let given = core.register(name, target);
    let is_refused = was_refused_at(alloc, number);
    let (given, back) = match given {
        Ok(given) => (Ok(given), None),
        Err((error, target)) => (Err(error), Some(target)),
    };
    push_change(given, text);
    Ok((is_refused, back))
}

/// A target is registered at once, or readied and then made or taken back.
pub(super) fn try_register<T: Target>(
    alloc: Global,
    core: &mut Core<T>,
    step: RefusedStep,
    name: &str,
    number: u32,
    target: T,
    text: &mut TextBuilder,
) -> Result<(bool, Option<T>), TestFault>
    requires settled { core.old.settled ≡ true }
    requires idle { IsIdle (T.means target) }
    ensures { core.new.settled ≡ true }
{
    if step == RefusedStep::Step {
        return register(alloc, core, name, number, target, text);
    }
    let name = Text::copy_of(alloc, name)?;
    let Ok(ready) = core.begin_register(name, target) else {
        return Err(TestFault("no change stands ready where nothing is refused"));
    };
    if step == RefusedStep::Finish {
        Ok((finish(alloc, core, ready, number, text), None))
    } else {
        Ok(withdraw(alloc, core, ready, number, text))
    }
}

fn push_state(alloc: Global, given: Result<StateAnswer, AllocError>, text: &mut TextBuilder) {
    match given {
        Ok(state) => {
            let done = append_state_line(alloc, 0, &state, text.bytes_mut());
            drop(state);
            text.note(done);
        }
        Err(_) => text.push(MEMORY),
    }
}

// How many comms are listed.
fn push_count(given: Result<Infos, AllocError>, text: &mut TextBuilder) {
    match given {
        Ok(infos) => {
            text.push_counted("comms", infos.as_slice().len() as u64);
            text.push("\n");
        }
        Err(_) => text.push(MEMORY),
    }
}

// The list or the state that a line asks for.
fn read<T: Target>(
    alloc: Global,
    core: &mut Core<T>,
    line: &str,
    number: u32,
    text: &mut TextBuilder,
) -> Result<bool, TestFault>
    ensures { core.new ≡ core.old }
{
    let (word, name) = split_word(line);
    let name = Text::copy_of(alloc, name)?;
    let target = if name.is("") { None } else { Some(&name) };
    refuse_at(alloc, number);
    if word == "state" {
        let given = core.state(&name);
        let is_refused = was_refused_at(alloc, number);
        push_state(alloc, given, text);
        return Ok(is_refused);
    }
    let given = if word == "listing" {
        core.listing(None)
    } else {
        core.infos(target)
    };
    let is_refused = was_refused_at(alloc, number);
    push_count(given, text);
    Ok(is_refused)
}

/// What the manager has.
pub(super) fn look<T: Target>(
    alloc: Global,
    core: &mut Core<T>,
    text: &mut TextBuilder,
) -> Result<(), TestFault>
    ensures { core.new ≡ core.old }
{
    if core.settled() {
        text.push("settled\n");
    }
    let _is_refused = read(alloc, core, "infos", 0, text)?;
    let _is_refused = read(alloc, core, "state a", 0, text)?;
    Ok(())
}
