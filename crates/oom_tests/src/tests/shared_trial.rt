//! A trial over the manager that threads share: after a refusal it is as before, and in the end its history has just
//! what was answered. Client 0 makes the changes, and client 1 has seen nothing before it reads.
ghost use Rattle.std.specs.Prelude.{◌≡◌};
ghost use Rattle.comm_manager.specs.Names.{Named};

use crate::tests::core_trial::openings;
use crate::tests::manager_end::end_manager;
use crate::tests::trial::{LIMITS, MANY, MEMORY, RefusedStep, Trial};
use comm_core::NewFault;
use comm_manager::{Client, Manager, ManagerBuilder, ManagerId, OpeningFault, Publisher};
use comm_targets::{Kind, Target};
use std::alloc::{AllocError, Global};
use std::marker::Brand;
use std::slice::from_mut;
use std::sync::Wait;
use test_harness::{ScriptedTarget, TestFault, TextBuilder, holds};
use test_support::{refuse, was_refused};
use thread_harness::{ClientPlayer, Flags, TestTarget};
use widget_target::WidgetTarget;

// Asks what a line does, and appends the answer. Gives whether an allocation was refused.
fn ask<M: ManagerId, T: Target, R: Wait>(
    rt: &R,
    manager: &Manager<M, T>,
    clients: &mut [Client<M>],
    publishers: &mut [Publisher<M>],
    player: &mut ClientPlayer<'_, M, T>,
    line: &str,
    text: &mut TextBuilder,
) -> bool {
    player.ask(rt, Some(manager), clients, publishers, line);
    text.push(player.answer());
    text.push("\n");
    player.was_refused()
}

// What client 0 has seen, and what it reads.
fn look<M: ManagerId, T: Target, R: Wait>(
    rt: &R,
    manager: &Manager<M, T>,
    clients: &mut [Client<M>],
    publishers: &mut [Publisher<M>],
    player: &mut ClientPlayer<'_, M, T>,
    text: &mut TextBuilder,
) {
    for line in ["0 seen", "0 count", "0 state a"] {
        let _is_refused = ask(rt, manager, clients, publishers, player, line, text);
    }
}

// Client 0 asks for what each of the lines does.
fn ask_lines<M: ManagerId, T: Target, R: Wait>(
    rt: &R,
    alloc: Global,
    manager: &Manager<M, T>,
    clients: &mut [Client<M>],
    publishers: &mut [Publisher<M>],
    player: &mut ClientPlayer<'_, M, T>,
    lines: &str,
    text: &mut TextBuilder,
) -> Result<bool, TestFault> {
    for line in lines.lines() {
        let line = format!(in alloc; "0 {line}")?;
        let _is_refused = ask(
            rt,
            manager,
            clients,
            publishers,
            player,
            line.as_str(),
            text,
        );
    }
    Ok(false)
}

// A line of a client, in which the allocation of this number is refused. Where one was, all is as before, and it is
// asked again.
fn ask_refused<M: ManagerId, T: Target, R: Wait>(
    rt: &R,
    alloc: Global,
    manager: &Manager<M, T>,
    clients: &mut [Client<M>],
    publishers: &mut [Publisher<M>],
    player: &mut ClientPlayer<'_, M, T>,
    client: u8,
    line: &str,
    number: u32,
    text: &mut TextBuilder,
) -> Result<bool, TestFault> {
    let refusing = format!(in alloc; "{client} refusing {number} {line}")?;
    let again = format!(in alloc; "{client} {line}")?;
    let is_refused = ask(
        rt,
        manager,
        clients,
        publishers,
        player,
        refusing.as_str(),
        text,
    );
    if is_refused {
        look(rt, manager, clients, publishers, player, text);
        let _is_refused = ask(
            rt,
            manager,
            clients,
            publishers,
            player,
            again.as_str(),
            text,
        );
    }
    Ok(is_refused)
}

// How much client 1 has seen.
fn seen_by_reader<M: ManagerId>(clients: &[Client<M>]) -> u64 {
    match clients {
        [_, reader, ..] => reader.seen(),
        _ => 0,
    }
}

// Client 1 hears the stamp of another's change, which takes no memory.
fn hear<M: ManagerId, T: Target, R: Wait>(
    rt: &R,
    manager: &Manager<M, T>,
    clients: &mut [Client<M>],
    publishers: &mut [Publisher<M>],
    player: &mut ClientPlayer<'_, M, T>,
    text: &mut TextBuilder,
) -> bool {
    player.ask(rt, Some(manager), clients, publishers, "0 close q");
    let mut is_refused = false;
    for line in ["1 refusing 1 hear", "1 refusing 1 seen", "1 refusing 1 id"] {
        let is = ask(rt, manager, clients, publishers, player, line, text);
        is_refused = is_refused || is;
    }
    is_refused
}

// A long history that is taken, entry by entry.
fn make_and_take<M: ManagerId, T: Target, R: Wait>(
    rt: &R,
    manager: &Manager<M, T>,
    clients: &mut [Client<M>],
    publishers: &mut [Publisher<M>],
    player: &mut ClientPlayer<'_, M, T>,
) {
    for _ in 0..MANY {
        player.ask(rt, Some(manager), clients, publishers, "0 close q");
        for _ in 0..MANY {
            player.ask(rt, Some(manager), clients, publishers, "take");
            if player.answer() == "none" {
                break;
            }
        }
    }
}

// What is tried, behind the target's registration and the openings, up to the manager's end.
fn play_step<M: ManagerId, T: Target, R: Wait>(
    rt: &R,
    alloc: Global,
    manager: &Manager<M, T>,
    clients: &mut [Client<M>],
    publishers: &mut [Publisher<M>],
    player: &mut ClientPlayer<'_, M, T>,
    trial: &Trial,
    number: u32,
    text: &mut TextBuilder,
) -> Result<bool, TestFault> {
    let line = trial.case.line;
    match trial.step {
        RefusedStep::Opening | RefusedStep::Shutdown => Ok(false),
        RefusedStep::ShutdownTaken => {
            make_and_take(rt, manager, clients, publishers, player);
            Ok(false)
        }
        RefusedStep::Discard => Ok(hear(rt, manager, clients, publishers, player, text)),
        RefusedStep::Lines => ask_lines(
            rt, alloc, manager, clients, publishers, player, line, text,
        ),
        RefusedStep::Read => {
            let before = seen_by_reader(clients);
            let done = ask_refused(
                rt, alloc, manager, clients, publishers, player, 1, line, number, text,
            );
            holds(seen_by_reader(clients) >= before, "less was seen")?;
            done
        }
        _ => ask_refused(
            rt, alloc, manager, clients, publishers, player, 0, line, number, text,
        ),
    }
}

// Registers a target, opens the comms, and tries the step.
fn play_trial<M: ManagerId, T: Target, R: Wait>(
    rt: &R,
    alloc: Global,
    manager: &Manager<M, T>,
    clients: &mut [Client<M>],
    publishers: &mut [Publisher<M>],
    player: &mut ClientPlayer<'_, M, T>,
    trial: &Trial,
    number: u32,
    text: &mut TextBuilder,
) -> Result<bool, TestFault> {
    let mut unheard = TextBuilder::new(alloc);
    let lines = openings(alloc, trial.more)?;
    player.ask(rt, Some(manager), clients, publishers, "0 register w");
    let _is_refused = ask_lines(
        rt,
        alloc,
        manager,
        clients,
        publishers,
        player,
        lines.as_str(),
        &mut unheard,
    )?;
    look(rt, manager, clients, publishers, player, text);
    play_step(
        rt, alloc, manager, clients, publishers, player, trial, number, text,
    )
}

// Tries it, and ends the manager.
fn play_to_the_end<M: ManagerId, T: Target, R: Wait>(
    rt: &R,
    alloc: Global,
    manager: Manager<M, T>,
    clients: Vec<Client<M>>,
    publisher: Publisher<M>,
    trial: &Trial,
    number: u32,
    targets: Vec<T>,
    text: &mut TextBuilder,
) -> Result<bool, TestFault> {
    let (mut clients, mut publisher) = (clients, publisher);
    let flags = Flags::new();
    let mut player = ClientPlayer::new(alloc, &flags, targets);
    let done = play_trial(
        rt,
        alloc,
        &manager,
        clients.as_mut_slice(),
        from_mut(&mut publisher),
        &mut player,
        trial,
        number,
        text,
    );
    drop(player);
    let ended = end_manager(
        rt, alloc, manager, clients, publisher, trial.step, number, text,
    );
    Ok(ended? || done?)
}

fn try_over_manager<M: ManagerId, T: Target, R: Wait>(
    rt: &R,
    alloc: Global,
    builder: ManagerBuilder,
    trial: &Trial,
    number: u32,
    targets: Vec<T>,
    text: &mut TextBuilder,
) -> Result<bool, TestFault>
    requires { Named builder M.book M.ledgers M.queue M.limits }
{
    let opened = Manager::<M, T>::open(rt, alloc, builder);
    let is_refused = was_refused(alloc);
    match opened {
        Ok((manager, clients, publisher)) => {
            let done = play_to_the_end(
                rt, alloc, manager, clients, publisher, trial, number, targets, text,
            );
            holds(!is_refused, "a manager in the face of a refusal")?;
            done
        }
        Err(OpeningFault::Memory) => {
            text.push(MEMORY);
            Ok(is_refused)
        }
        Err(OpeningFault::NoReader) => Err(TestFault("no reader")),
    }
}

fn two_targets<K: TestTarget>(alloc: Global, echoes: bool) -> Result<Vec<K>, AllocError> {
    let mut targets = Vec::with_capacity(alloc, 2)?;
    targets.push(K::build(alloc, echoes))?;
    targets.push(K::build(alloc, echoes))?;
    Ok(targets)
}

// A trial with a new manager, whose identity the call picks, and two targets of this type.
fn try_with<K: TestTarget, R: Wait>(
    rt: &R,
    alloc: Global,
    trial: &Trial,
    number: u32,
    echoes: bool,
    text: &mut TextBuilder,
) -> Result<bool, TestFault> {
    let targets = two_targets::<K>(alloc, echoes)?;
    let refused = if trial.step == RefusedStep::Opening {
        number
    } else {
        0
    };
    let _is_heard = refuse(alloc, refused);
    match ManagerBuilder::new(alloc, LIMITS) {
        Ok(builder) => try_over_manager::<Brand, K, R>(
            rt, alloc, builder, trial, number, targets, text,
        ),
        Err(NewFault::Memory) => {
            text.push(MEMORY);
            Ok(was_refused(alloc))
        }
        Err(NewFault::BadLimits) => Err(TestFault("bad limits")),
    }
}

/// The trial with the allocation of this number refused. Gives whether one was.
pub(super) fn try_once<R: Wait>(
    rt: &R,
    alloc: Global,
    trial: &Trial,
    number: u32,
    text: &mut TextBuilder,
) -> Result<bool, TestFault> {
    match trial.kind {
        Kind::Free => try_with::<ScriptedTarget, R>(rt, alloc, trial, number, false, text),
        Kind::WidgetEcho => try_with::<WidgetTarget, R>(rt, alloc, trial, number, true, text),
        _ => try_with::<WidgetTarget, R>(rt, alloc, trial, number, false, text),
    }
}
