//! Puts a load on the manager that threads share, and tells what it came to.
#![tactic(auto)]

mod fixtures;
mod load;
mod load_fault;
mod open_comms;
mod report;
mod running;
mod threads;
mod worker;

use crate::load::{Load, load_of};
use crate::running::run;
use comm_targets::Target;
use std::env;
use std::process::ExitCode;
use std::string::String;
use widget_target::WidgetTarget;

// The load that the arguments ask for.
fn load_in_args(rt: &HostRuntime) -> Option<Load> {
    let mut args = env::args(rt).ok()?;
    let _program = args.next();
    let mut words: Vec<String> = Vec::new(rt.alloc());
    let mut are_all = true;
    // One more than a load has.
    for _ in 0..7u8 {
        match args.next() {
            Some(word) => are_all = are_all && words.push(word).is_ok(),
            None => break,
        }
    }
    if are_all { load_of(&words) } else { None }
}

/// The exit status is 3 for arguments that ask for no load, and 2 for a load that isn't done.
fn main(rt: HostRuntime) -> ExitCode {
    let Some(load) = load_in_args(&rt) else {
        return ExitCode::from(3);
    };
    let Ok(boxed) = Box::new(rt.alloc(), WidgetTarget::new(rt.alloc())) else {
        return ExitCode::from(2);
    };
    let target: Box<dyn Target> = boxed;
    match run(&rt, rt.alloc(), &load, target) {
        Ok(report) if println!(rt; "{report}").is_ok() => ExitCode::from(0),
        _ => ExitCode::from(2),
    }
}
