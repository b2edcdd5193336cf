//! A script that comes in chunks, played over any backend.
ghost use Rattle.std.specs.Prelude.{◌≡◌, ◌+◌, ◌^◌, ◌<◌, ◌≤◌, ◌++◌, ◌≢◌, ℕ, List, [], Some, OnOk, IfErr, IfSome, IsErrOf};
ghost use Rattle.std.specs.Prelude.{length, false};
ghost use Rattle.std.specs.Io.KnownBytes.{Appends};
ghost use Rattle.comm_core.specs.declared.limits.Limits.{Limits};
ghost use Rattle.comm_core.specs.Machine.{Registered};
ghost use Rattle.comm_script.specs.Lines.{has_line_feed};
ghost use Rattle.comm_script.specs.Played.{played, Begins, Stops, Pauses};
ghost use Rattle.comm_script.specs.Player.{line_turn, AppendsTurn, TakesTurn, Says, Cuts, Executes, IsBackendFault, IsScriptFault};

use crate::asked::Request;
use crate::backend::Backend;
use crate::fault::RunFault;
use crate::line::LineMemory;
use crate::lines::split_line;
use crate::player::play_line;
use crate::reads::max_reads;
use comm_value::Numbers;
use std::alloc::Global;
use std::io::{ErrorKind, Read, Write};

/// How many bytes of a script are read at a time, at most. What they say waits in memory until the last is played.
const CHUNK: usize = 16_384;

// Plays the line that what is pending and its end make; nothing is pending then. A line that lies in one chunk isn't
// put together so, but played where it is.
fn play_joined<B: Backend, F: Fn(&mut B, u64, u8, Request, &mut Vec<u8>) -> Result<(), RunFault>>(
    backend: &mut B,
    execute: &F,
    alloc: Global,
    clients: u8,
    numbers: Numbers,
    number: u64,
    pending: &mut Vec<u8>,
    end: &[u8],
    memory: &mut LineMemory,
    text: &mut Vec<u8>,
) -> Result<(), RunFault>
    requires some { 0 < clients }
    requires sound { B.is_sound clients backend.old }
    requires few { B.change_count backend.old < 2 ^ 63 }
    requires executes { Executes F.Fn execute.now B.stands (B.is_sound clients) B.follows
        B.change_count B.stops_by clients }
    ensures text { OnOk result (AppendsTurn B.stands
        (line_turn numbers number (pending.old.items ++ end.now))
        backend.old text.old.items text.new.items) }
    ensures turn { OnOk result (TakesTurn B.stands
        (line_turn numbers number (pending.old.items ++ end.now)) backend.old backend.new) }
    ensures count { B.change_count backend.new ≤ B.change_count backend.old + 1 }
    ensures kept { B.is_sound clients backend.new }
    ensures empty { OnOk result (pending.new.items ≡ []) }
    ensures fault { IfErr result IsBackendFault }
    ensures stops { IfErr result B.stops_by }
{
    pending.extend_from_slice(end)?;
    play_line(
        backend, execute, alloc, clients, numbers, number, pending, memory, text,
    )?;
    pending.clear();
    Ok(())
}

// Plays the lines that end in a chunk of the script. What follows them is pending.
fn play_chunk<B: Backend, F: Fn(&mut B, u64, u8, Request, &mut Vec<u8>) -> Result<(), RunFault>>(
    backend: &mut B,
    execute: &F,
    alloc: Global,
    clients: u8,
    numbers: Numbers,
    memory: &mut LineMemory,
    number: &mut u64,
    pending: &mut Vec<u8>,
    chunk: &[u8],
    text: &mut Vec<u8>,
) -> Result<(), RunFault>
    requires some { 0 < clients }
    requires sound { B.is_sound clients backend.old }
    requires executes { Executes F.Fn execute.now B.stands (B.is_sound clients) B.follows
        B.change_count B.stops_by clients }
    requires within { B.change_count backend.old ≤ number.old }
    requires few { number.old + length chunk.now < 2 ^ 62 }
    requires small { length chunk.now ≤ CHUNK }
    requires one_line { has_line_feed pending.old.items ≡ false }
    ensures says { OnOk result (Cuts numbers B.stands
        backend.old number.old pending.old.items chunk.now text.old.items
        backend.new number.new pending.new.items text.new.items) }
    ensures few { OnOk result (number.new ≤ number.old + CHUNK) }
    ensures within { OnOk result (B.change_count backend.new ≤ number.new) }
    ensures kept { B.is_sound clients backend.new }
    ensures one_line { OnOk result (has_line_feed pending.new.items ≡ false) }
    ensures fault { IfErr result IsBackendFault }
    ensures stops { IfErr result B.stops_by }
{
    let mut rest = chunk;
    let mut n = *number;
    while let Some((line, more)) = split_line(rest) {
        n += 1;
        if pending.is_empty() {
            play_line(
                backend, execute, alloc, clients, numbers, n, line, memory, text,
            )?;
        } else {
            play_joined(
                backend, execute, alloc, clients, numbers, n, pending, line, memory, text,
            )?;
        }
        rest = more;
    }
    *number = n;
    pending.extend_from_slice(rest)?;
    Ok(())
}

// Plays what no line feed ended, as the last line.
fn play_last<B: Backend, F: Fn(&mut B, u64, u8, Request, &mut Vec<u8>) -> Result<(), RunFault>>(
    backend: &mut B,
    execute: &F,
    alloc: Global,
    clients: u8,
    numbers: Numbers,
    memory: &mut LineMemory,
    number: u64,
    pending: &[u8],
    text: &mut Vec<u8>,
) -> Result<(), RunFault>
    requires some { 0 < clients }
    requires sound { B.is_sound clients backend.old }
    requires executes { Executes F.Fn execute.now B.stands (B.is_sound clients) B.follows
        B.change_count B.stops_by clients }
    requires within { B.change_count backend.old ≤ number }
    requires few { number < 2 ^ 62 }
    requires one_line { has_line_feed pending.now ≡ false }
    ensures says { OnOk result ((limits : Limits) (stock : List Registered) (input written : List ℕ)
        → Says numbers B.stands limits stock input backend.old number pending.now
        (written ++ text.old.items)
        → written ++ text.new.items ≡ played numbers limits stock input) }
    ensures kept { B.is_sound clients backend.new }
    ensures fault { IfErr result IsBackendFault }
    ensures stops { IfErr result B.stops_by }
{
    if pending.is_empty() {
        return Ok(());
    }
    play_line(
        backend,
        execute,
        alloc,
        clients,
        numbers,
        number + 1,
        pending,
        memory,
        text,
    )?;
    Ok(())
}

/// Plays the script that the reader has, each line as it ends, over a backend that has played nothing, and writes
/// what is said to it.
///
/// What the lines of a chunk of 16 KiB say is written before the next chunk is read. A reader that was called
/// 4,294,967,295 times without ending gives Read, and so does one that fails; a call that was interrupted is made
/// again.
pub fn play_script<
    B: Backend,
    F: Fn(&mut B, u64, u8, Request, &mut Vec<u8>) -> Result<(), RunFault>,
    R: Read,
    W: Write,
>(
    backend: &mut B,
    execute: &F,
    alloc: Global,
    clients: u8,
    numbers: Numbers,
    reader: &mut R,
    writer: &mut W,
) -> Result<(), RunFault>
    requires some { 0 < clients }
    requires sound { B.is_sound clients backend.old }
    requires executes { Executes F.Fn execute.now B.stands (B.is_sound clients) B.follows
        B.change_count B.stops_by clients }
    requires fresh { B.change_count backend.old ≡ 0 }
    ensures played { OnOk result ((limits : Limits) (stock : List Registered)
        → B.stands limits (record { history = []; stock = stock }) backend.old
        → IfSome (R.remaining reader.old) (λ input.
        Appends (W.contents writer.old) (W.contents writer.new)
        (played numbers limits stock input))) }
    ensures begun { (limits : Limits) (stock : List Registered)
        → B.stands limits (record { history = []; stock = stock }) backend.old
        → IfSome (R.remaining reader.old) (λ input.
        Begins (W.contents writer.old) (W.contents writer.new)
        (played numbers limits stock input)) }
    ensures read { IsErrOf result RunFault.Read → (limits : Limits) (stock : List Registered)
        → B.stands limits (record { history = []; stock = stock }) backend.old
        → IfSome (R.remaining reader.old) (λ input.
        Stops numbers limits stock input (R.remaining reader.new)
        (W.contents writer.old) (W.contents writer.new)) }
    ensures memory { IsErrOf result RunFault.Memory → (limits : Limits) (stock : List Registered)
        → B.stands limits (record { history = []; stock = stock }) backend.old
        → IfSome (R.remaining reader.old) (λ input.
        Pauses numbers limits stock input (R.remaining reader.new)
        (W.contents writer.old) (W.contents writer.new)) }
    ensures whole { OnOk result (IfSome (R.remaining reader.old) (λ _.
        R.remaining reader.new ≡ Some [])) }
    ensures grown { (said : List ℕ)
        × Appends (W.contents writer.old) (W.contents writer.new) said }
    ensures kept { B.is_sound clients backend.new }
    ensures fault { IfErr result (λ e. e ≢ RunFault.BadLimits) }
    ensures stops { IfErr result (IsScriptFault B.stops_by) }
{
    let mut memory = LineMemory::new(alloc);
    let mut number = 0u64;
    let mut pending = Vec::new(alloc);
    let mut text = Vec::new(alloc);
    let mut chunk = [0u8; CHUNK];
    let most = max_reads();
    for _ in 0..most {
        match reader.read(&mut chunk) {
            Ok(0) => {
                play_last(
                    backend,
                    execute,
                    alloc,
                    clients,
                    numbers,
                    &mut memory,
                    number,
                    &pending,
                    &mut text,
                )?;
                write_all_and_flush(writer, &mut text)?;
                return Ok(());
            }
            Ok(n) => {
                play_chunk(
                    backend,
                    execute,
                    alloc,
                    clients,
                    numbers,
                    &mut memory,
                    &mut number,
                    &mut pending,
                    &chunk[..n],
                    &mut text,
                )?;
                write_all_and_flush(writer, &mut text)?;
            }
            Err(e) => if e.kind() != ErrorKind::Interrupted {
                return Err(RunFault::Read);
            },
        }
    }
    Err(RunFault::Read)
}

/// Writes the whole text, flushes the writer, and empties the text. Nothing is done where the text is empty. Err is
/// Write: then the writer took a beginning of the text.
pub fn write_all_and_flush<W: Write>(writer: &mut W, text: &mut Vec<u8>) -> Result<(), RunFault>
    ensures sent { OnOk result (Appends (W.contents writer.old) (W.contents writer.new)
        text.old.items) }
    ensures begun { Begins (W.contents writer.old) (W.contents writer.new) text.old.items }
    ensures empty { OnOk result (text.new.items ≡ []) }
    ensures fault { IfErr result (λ e. e ≡ RunFault.Write) }
{
    if text.is_empty() {
        return Ok(());
    }
    write_whole(writer, text)?;
    if writer.flush().is_err() {
        return Err(RunFault::Write);
    }
    text.clear();
    Ok(())
}

// Writes a text. A call that was interrupted is made again; one that takes no byte, where there are some, is a fault.
fn write_whole<W: Write>(writer: &mut W, text: &[u8]) -> Result<(), RunFault>
    ensures sent { OnOk result (Appends (W.contents writer.old) (W.contents writer.new) text.now) }
    ensures begun { Begins (W.contents writer.old) (W.contents writer.new) text.now }
    ensures fault { IfErr result (λ e. e ≡ RunFault.Write) }
{
    let mut rest = text;
    for _ in 0..u64::MAX {
        if rest.is_empty() {
            return Ok(());
        }
        match writer.write(rest) {
            Ok(0) => return Err(RunFault::Write),
            Ok(n) => rest = &rest[n..],
            Err(e) => if e.kind() != ErrorKind::Interrupted {
                return Err(RunFault::Write);
            },
        }
    }
    Err(RunFault::Write)
}
