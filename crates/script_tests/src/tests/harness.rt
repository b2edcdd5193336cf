//! A script is played over either manager, and what is written for it is as wanted.
ghost use Rattle.std.specs.Prelude.{IfOk, map};
ghost use Rattle.comm_script.specs.Stock.{AreIdle};

use super::MAX_COMMS;
use super::target_ends::counted_stock;
use comm_core::Limits;
use comm_script::{RunFault, push_target, run_with};
use comm_targets::{Counter, Echo, Target};
use comm_value::Numbers;
use shared_script::run_shared_with;
use std::alloc::{AllocError, Global};
use std::io::{Eprint, ErrorKind};
use std::sync::atomic::{AtomicU64, Ordering};
use std::sync::{Arc, Wait};
use test_harness::{ManagerKind, TestFault, expect_text, holds};
use test_support::{FailingReader, FailingWriter, WriteFault, refuse, refuse_above, was_refused};
use widget_target::WidgetTarget;

/// More than any answer here is long, but for the deepest and the longest.
pub const ROOM: usize = 8192;

/// The program's limits, but for the number of comms.
pub const fn program_limits(comms: usize) -> Limits {
    Limits {
        clients: 4,
        comms,
        history: 1_000_000,
        outbox: 64,
    }
}

/// A script, and how it is read and written.
#[derive(Clone, Copy)]
pub struct ScriptRun<'a> {
    pub over: ManagerKind,
    pub limits: Limits,
    pub numbers: Numbers,
    pub bytes: &'a [u8],
    /// How many bytes a call reads, at most.
    pub read: usize,
    /// The call that fails, if there is one, and how.
    pub read_fails: u64,
    pub kind: ErrorKind,
    /// How many bytes a call writes, at most.
    pub write: usize,
    /// How many bytes there is room for.
    pub room: usize,
    /// The call that does something else, if there is one, and what.
    pub write_fails: u64,
    pub write_fault: WriteFault,
    /// The number of the allocation that is refused, if there is one.
    pub refused: u32,
    /// The most bytes that an allocation may have, if there is such a bound.
    pub largest: u32,
    /// Whether the stock is a target that counts how often it is ended, and not two of each kind.
    pub is_counted: bool,
}

impl<'a> ScriptRun<'a> {
    /// A script that is read and written in large pieces, where nothing goes wrong.
    pub fn over(over: ManagerKind, bytes: &'a [u8]) -> ScriptRun<'a> {
        ScriptRun {
            over,
            limits: program_limits(MAX_COMMS),
            numbers: Numbers::Whole,
            bytes,
            read: 4096,
            read_fails: 0,
            kind: ErrorKind::Other,
            write: ROOM,
            room: ROOM,
            write_fails: 0,
            write_fault: WriteFault::TakeNothing,
            refused: 0,
            largest: 0,
            is_counted: false,
        }
    }
}

/// What came of a script.
#[derive(Drop)]
pub struct ScriptResult {
    pub result: Result<(), RunFault>,
    pub text: Vec<u8>,
    /// How many bytes had been taken at the last flush.
    pub flushed: usize,
    pub reads: u64,
    pub writes: u64,
    pub is_refused: bool,
    /// How often the target of the stock that counts was ended where no comm of it was open, and 100 for each end
    /// where one was.
    pub ended: u64,
}

/// Two targets of each kind.
fn stock(alloc: Global) -> Result<Vec<Box<dyn Target>>, RunFault>
    ensures { IfOk result (λ v. AreIdle (map (λ b. means b) v.items)) }
{
    let mut stock = Vec::new(alloc);
    let echo: Box<dyn Target> = Box::new(alloc, Echo::new(alloc))?;
    push_target(&mut stock, echo)?;
    let echo: Box<dyn Target> = Box::new(alloc, Echo::new(alloc))?;
    push_target(&mut stock, echo)?;
    let counter: Box<dyn Target> = Box::new(alloc, Counter::new(alloc))?;
    push_target(&mut stock, counter)?;
    let counter: Box<dyn Target> = Box::new(alloc, Counter::new(alloc))?;
    push_target(&mut stock, counter)?;
    let widget: Box<dyn Target> = Box::new(alloc, WidgetTarget::new(alloc))?;
    push_target(&mut stock, widget)?;
    let widget: Box<dyn Target> = Box::new(alloc, WidgetTarget::new(alloc))?;
    push_target(&mut stock, widget)?;
    let echoing: Box<dyn Target> = Box::new(alloc, WidgetTarget::with_echo(alloc))?;
    push_target(&mut stock, echoing)?;
    let echoing: Box<dyn Target> = Box::new(alloc, WidgetTarget::with_echo(alloc))?;
    push_target(&mut stock, echoing)?;
    Ok(stock)
}

fn play(
    rt: &impl Wait,
    alloc: Global,
    script: &ScriptRun<'_>,
    reader: &mut FailingReader<'_>,
    writer: &mut FailingWriter,
    ends: &Arc<AtomicU64>,
) -> Result<(), RunFault> {
    let stock = if script.is_counted {
        counted_stock(alloc, ends)?
    } else {
        stock(alloc)?
    };
    let ScriptRun {
        limits,
        numbers,
        ..
    } = *script;
    match script.over {
        ManagerKind::OneThread => run_with(alloc, reader, writer, limits, numbers, stock),
        ManagerKind::Shared => run_shared_with(rt, alloc, reader, writer, limits, numbers, stock),
    }
}

/// Plays a script.
pub fn run_script(
    rt: &impl Wait,
    alloc: Global,
    script: &ScriptRun<'_>,
) -> Result<ScriptResult, AllocError> {
    let ends = Arc::new(alloc, AtomicU64::new(0))?;
    let mut reader = FailingReader::new(script.bytes, script.read, script.read_fails, script.kind);
    let mut writer = FailingWriter::new(
        alloc,
        script.room,
        script.write,
        script.write_fails,
        script.write_fault,
    )?;
    let mut text = Vec::with_capacity(alloc, script.room)?;
    let _is_heard = script.refused > 0 && refuse(alloc, script.refused);
    let _is_bounded = script.largest > 0 && refuse_above(alloc, script.largest);
    let result = play(rt, alloc, script, &mut reader, &mut writer, &ends);
    let asks = script.refused > 0 || script.largest > 0;
    let is_refused = asks && was_refused(alloc);
    text.extend_from_slice(writer.taken())?;
    Ok(ScriptResult {
        result,
        text,
        flushed: writer.flushed(),
        reads: reader.calls(),
        writes: writer.calls(),
        is_refused,
        ended: ends.load(Ordering::SeqCst),
    })
}

/// How a script ended and what was written are this. Err, and the first line that differs is printed behind the name,
/// where they aren't.
pub fn expect_result<R: Eprint>(
    rt: &R,
    alloc: Global,
    name: &str,
    script: &ScriptRun<'_>,
    came: &ScriptResult,
    ended: Result<(), RunFault>,
    text: &[u8],
) -> Result<(), TestFault> {
    let (over, read, write) = (script.over, script.read, script.write);
    let name = format!(in alloc; "{name}, {over:?}, by {read} and {write}")?;
    expect_text(rt, name.as_str(), &came.text, text)?;
    let (came, wanted) = (came.result, ended);
    let came = format!(in alloc; "{came:?}")?;
    let wanted = format!(in alloc; "{wanted:?}")?;
    expect_text(rt, name.as_str(), came.as_bytes(), wanted.as_bytes())
}

/// Plays a script: it ends so, and just this is written and flushed.
pub fn expect_answers<R: Eprint + Wait>(
    rt: &R,
    alloc: Global,
    name: &str,
    script: &ScriptRun<'_>,
    ended: Result<(), RunFault>,
    text: &[u8],
) -> Result<ScriptResult, TestFault> {
    let came = run_script(rt, alloc, script)?;
    expect_result(rt, alloc, name, script, &came, ended, text)?;
    holds(came.flushed == text.len(), "not all is flushed")?;
    Ok(came)
}
