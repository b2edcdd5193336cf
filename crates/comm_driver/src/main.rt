// Plays a script of comm messages and commands, over a manager of one thread or over one that threads share.
#![tactic(auto)]

ghost use Rattle.std.specs.Prelude.{◌≡◌, ◌≢◌, [], None, Some, OnOk, IfErr, IfSome, IsSome, drop, map, string_bytes};
ghost use Rattle.std.specs.Vec.Iter.{into_iter_items};
ghost use Rattle.std.specs.Io.KnownBytes.{Appends};
ghost use Rattle.comm_script.specs.Played.{played};
ghost use Rattle.comm_driver.specs.Program.{over_of, program_limits, program_status, program_stock};

use comm_core::Limits;
use comm_script::{RunFault, exit_status, push_target, run_with};
use comm_targets::{Counter, Echo, Target};
use comm_value::Numbers;
use shared_script::run_shared_with;
use std::alloc::Global;
use std::env::Args;
use std::io::{Read, Write};
use std::process::ExitCode;
use std::sync::Wait;
use std::{env, io};
use widget_target::WidgetTarget;

/// What the program plays within.
const LIMITS: Limits = Limits {
    clients: 4,
    comms: 4096,
    history: 1_000_000,
    outbox: 64,
};

/// Which manager a script is played over.
#[derive(Clone, Copy, PartialEq, Eq, Debug)]
enum Over {
    /// The manager of one thread.
    OneThread,
    /// The manager that threads share.
    Shared,
}

/// Plays a script with the program's limits, and two targets of each kind in stock. The fault is never BadLimits.
fn play<R: Read, W: Write, H: Wait>(
    rt: &H,
    alloc: Global,
    over: Over,
    reader: &mut R,
    writer: &mut W,
) -> Result<(), RunFault>
    ensures one_thread { over ≡ Over.OneThread
        → OnOk result (IfSome (R.remaining reader.old) (λ input.
        Appends (W.contents writer.old) (W.contents writer.new)
        (played Numbers.Whole program_limits program_stock input))) }
    ensures whole { OnOk result (IfSome (R.remaining reader.old) (λ _.
        R.remaining reader.new ≡ Some [])) }
    ensures limits { IfErr result (λ e. e ≢ RunFault.BadLimits) }
{
    let mut stock = Vec::new(alloc);
    let echo: Box<dyn Target> = Box::new(alloc, Echo::new(alloc))?;
    push_target(&mut stock, echo)?;
    let other_echo: Box<dyn Target> = Box::new(alloc, Echo::new(alloc))?;
    push_target(&mut stock, other_echo)?;
    let counter: Box<dyn Target> = Box::new(alloc, Counter::new(alloc))?;
    push_target(&mut stock, counter)?;
    let other_counter: Box<dyn Target> = Box::new(alloc, Counter::new(alloc))?;
    push_target(&mut stock, other_counter)?;
    let widget: Box<dyn Target> = Box::new(alloc, WidgetTarget::new(alloc))?;
    push_target(&mut stock, widget)?;
    let other_widget: Box<dyn Target> = Box::new(alloc, WidgetTarget::new(alloc))?;
    push_target(&mut stock, other_widget)?;
    let echoing: Box<dyn Target> = Box::new(alloc, WidgetTarget::with_echo(alloc))?;
    push_target(&mut stock, echoing)?;
    let other_echoing: Box<dyn Target> = Box::new(alloc, WidgetTarget::with_echo(alloc))?;
    push_target(&mut stock, other_echoing)?;
    match over {
        Over::OneThread => run_with(alloc, reader, writer, LIMITS, Numbers::Whole, stock),
        Over::Shared => run_shared_with(rt, alloc, reader, writer, LIMITS, Numbers::Whole, stock),
    }
}

/// Which manager the program's name and the arguments after it ask for: no argument for that of one thread, the one word
/// `shared` for the shared one.
fn over_of(mut words: Args) -> Option<Over>
    ensures { result ≡ over_of (drop 1 (map string_bytes (into_iter_items words))) }
{
    let _name = words.next();
    let Some(word) = words.next() else {
        return Some(Over::OneThread);
    };
    if word.as_str() == "shared" && words.next().is_none() {
        Some(Over::Shared)
    } else {
        None
    }
}

/// Which manager the program is asked for; None where its arguments can't be read, or ask for none.
fn asked(rt: &HostRuntime) -> Option<Over> {
    over_of(env::args(rt).ok()?)
}

/// Plays a script over the manager that is asked for. None: none is, and nothing is read or written.
fn run<R: Read, W: Write, H: Wait>(
    rt: &H,
    alloc: Global,
    asked: Option<Over>,
    reader: &mut R,
    writer: &mut W,
) -> Option<Result<(), RunFault>>
    ensures none { asked ≡ None → (result ≡ None)
        × (reader.new ≡ reader.old) × (writer.new ≡ writer.old) }
    ensures some { IsSome asked → IsSome result }
    ensures whole { IfSome result (λ end. OnOk end (IfSome (R.remaining reader.old) (λ _.
        R.remaining reader.new ≡ Some []))) }
    ensures one_thread { asked ≡ Some Over.OneThread → IfSome result (λ end.
        OnOk end (IfSome (R.remaining reader.old) (λ input.
        Appends (W.contents writer.old) (W.contents writer.new)
        (played Numbers.Whole program_limits program_stock input)))) }
{
    match asked {
        Some(over) => Some(play(rt, alloc, over, reader, writer)),
        None => None,
    }
}

/// The exit status by how the script ended; 3 where no manager was asked for.
fn program_status(end: Option<Result<(), RunFault>>) -> u8
    ensures { result ≡ program_status end }
{
    match end {
        Some(end) => exit_status(end),
        None => 3,
    }
}

/// Plays standard input to standard output; the exit status is 3 for any argument but the one word `shared`.
fn main(rt: HostRuntime) -> ExitCode {
    let end = run(
        &rt,
        rt.alloc(),
        asked(&rt),
        &mut rt.reader(),
        &mut io::writer(&rt),
    );
    ExitCode::from(program_status(end))
}
