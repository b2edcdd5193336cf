// Lets threads loose on a script of comm messages and commands, and tells all that anybody saw.
#![tactic(auto)]

mod limits;
mod player;
mod reading;
mod running;
mod script;
mod shared_state;
mod threads;
mod transcript;
mod wording;

use crate::running::run;
use comm_script::{RunFault, boxed_stock, exit_status};
use comm_targets::{Counter, Echo, Target};
use std::alloc::Global;
use std::io::{Read, Write};
use std::process::ExitCode;
use std::sync::Wait;
use std::thread::Threads;
use std::{env, io};
use widget_target::WidgetTarget;

/// Plays a script with two targets of each kind in stock, as `comm_driver` does.
fn play<I: Read, O: Write, R: Threads + Wait + Sync>(
    rt: &R,
    alloc: Global,
    reader: &mut I,
    writer: &mut O,
) -> Result<(), RunFault> {
    let stock = boxed_stock!(alloc);
    run(rt, alloc, reader, writer, stock)
}

// Whether there is no argument.
fn is_bare(rt: &HostRuntime) -> bool {
    let Ok(words) = env::args(rt) else {
        return false;
    };
    let mut words = words;
    let _program = words.next();
    words.next().is_none()
}

/// Plays standard input, and writes on standard output what came of it; the exit status is 3 for any argument.
fn main(rt: HostRuntime) -> ExitCode {
    if !is_bare(&rt) {
        return ExitCode::from(3);
    }
    let end = play(&rt, rt.alloc(), &mut rt.reader(), &mut io::writer(&rt));
    ExitCode::from(exit_status(end))
}
