//! One line of a script, played over any backend.
ghost use Rattle.std.specs.Prelude.{◌≡◌, ◌+◌, ◌^◌, ◌<◌, ◌≤◌, ◌++◌, false, OnOk, IfErr};
ghost use Rattle.comm_script.specs.Line.{is_memory};
ghost use Rattle.comm_script.specs.Words.{bad_line};
ghost use Rattle.comm_script.specs.Player.{line_turn, AppendsTurn, TakesTurn, Executes, IsBackendFault};

use crate::asked::{LineFault, Request};
use crate::backend::Backend;
use crate::fault::RunFault;
use crate::line::{LineMemory, parse_line};
use crate::lines::is_blank;
use crate::wording::append_bad;
use comm_value::Numbers;
use std::alloc::Global;

/// Appends, by its number in the script, why a line can't be read. Err is Memory: where memory ran out nothing is
/// said of the line.
pub fn append_fault(number: u64, fault: LineFault, text: &mut Vec<u8>) -> Result<(), RunFault>
    ensures known { OnOk result (is_memory fault ≡ false) }
    ensures text { OnOk result (text.new.items ≡ text.old.items ++ bad_line number fault) }
    ensures fault { IfErr result (λ e. e ≡ RunFault.Memory) }
{
    if fault.is_memory() {
        return Err(RunFault::Memory);
    }
    append_bad(number, fault, text)?;
    Ok(())
}

/// Plays the line of this number: `execute` does what it asks for, for one of so many clients. A number in it that
/// isn't one of `numbers` makes it a bad line. A blank line asks for nothing, and a line that can't be read is answered
/// with why. Err: what `execute` gives, or Memory.
#[inline(always)]
#[tactic(auto, unfolding(crate::specs::Played::turn))]
pub fn play_line<B: Backend, F: Fn(&mut B, u64, u8, Request, &mut Vec<u8>) -> Result<(), RunFault>>(
    backend: &mut B,
    execute: &F,
    alloc: Global,
    clients: u8,
    numbers: Numbers,
    number: u64,
    line: &[u8],
    memory: &mut LineMemory,
    text: &mut Vec<u8>,
) -> Result<(), RunFault>
    requires some { 0 < clients }
    requires sound { B.is_sound clients backend.old }
    requires few { B.change_count backend.old < 2 ^ 63 }
    requires executes { Executes F.Fn execute.now B.stands (B.is_sound clients) B.follows
        B.change_count B.stops_by clients }
    ensures text { OnOk result (AppendsTurn B.stands (line_turn numbers number line.now)
        backend.old text.old.items text.new.items) }
    ensures turn { OnOk result (TakesTurn B.stands (line_turn numbers number line.now)
        backend.old backend.new) }
    ensures count { B.change_count backend.new ≤ B.change_count backend.old + 1 }
    ensures kept { B.is_sound clients backend.new }
    ensures later { B.follows backend.old backend.new }
    ensures fault { IfErr result IsBackendFault }
    ensures stops { IfErr result B.stops_by }
{
    if is_blank(line) {
        return Ok(());
    }
    match parse_line(alloc, line, clients, numbers, memory) {
        Ok((client, request)) => execute(backend, number, client, request, text),
        Err(fault) => append_fault(number, fault, text),
    }
}
