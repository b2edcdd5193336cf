//! The lines that a manager gives which threads share.
ghost use Rattle.std.specs.Prelude.{◌≡◌, ◌++◌, OnOk, IfErr};
ghost use Rattle.comm_script.specs.Player.{IsBackendFault};
ghost use Rattle.shared_script.specs.Faults.{IsSaid, full_of, run_fault};
ghost use Rattle.shared_script.specs.Words.{full_words, unavailable_line, entry_lines};

use comm_core::{Entry, Unavailable};
use comm_manager::ReadFault;
use comm_messages::Parent;
use comm_script::{RunFault, append, append_counted, append_outs, append_reply};
use std::alloc::AllocError;

/// What has no room for a change.
#[derive(Clone, Copy, Debug, PartialEq, Eq, Drop)]
pub enum Full {
    /// The history has as many entries as the limits allow.
    History,
    /// As many entries as the limits allow wait to be taken.
    Outbox,
}

fn append_full_words(full: Full, out: &mut Vec<u8>) -> Result<(), AllocError>
    ensures { OnOk result (out.new.items ≡ out.old.items ++ full_words full) }
{
    match full {
        Full::History => append(b"history_full", out),
        Full::Outbox => append(b"outbox_full", out),
    }
}

/// What has no room for a change that isn't made; None where memory ran out.
pub fn full_of<S>(why: &Unavailable<S>) -> Option<Full>
    ensures { result ≡ full_of why.now }
{
    match why {
        Unavailable::Memory => None,
        Unavailable::HistoryFull(_) => Some(Full::History),
        Unavailable::OutboxFull(_) => Some(Full::Outbox),
    }
}

/// Why a read that gives nothing ends a script.
pub fn run_fault(fault: ReadFault) -> RunFault
    ensures given { result ≡ run_fault fault }
    ensures known { IsBackendFault result }
{
    match fault {
        ReadFault::Memory => RunFault::Memory,
        ReadFault::NoVersion => RunFault::NoReader,
    }
}

// The line of a change that isn't made, by its line's number in the script.
fn append_unavailable(number: u64, full: Full, out: &mut Vec<u8>) -> Result<(), AllocError>
    ensures { OnOk result (out.new.items ≡ out.old.items ++ unavailable_line number full) }
{
    append_counted(b"unavailable ", number, out)?;
    append(b" ", out)?;
    append_full_words(full, out)?;
    append(b"\n", out)?;
    Ok(())
}

/// Appends, by its line's number in the script, what has no room for a change that isn't made. None says that memory
/// ran out, and gives Memory.
pub fn append_full(number: u64, full: Option<Full>, out: &mut Vec<u8>) -> Result<(), RunFault>
    ensures said { OnOk result (IsSaid number full out.old.items out.new.items) }
    ensures fault { IfErr result (λ e. e ≡ RunFault.Memory) }
{
    match full {
        Some(full) => {
            append_unavailable(number, full, out)?;
            Ok(())
        }
        None => Err(RunFault::Memory),
    }
}

/// Appends the lines of the entry that stands at this place of the history, from 1: its reply, and what it sends. The
/// end has none. Err: memory.
pub fn append_entry(place: u64, entry: &Entry, out: &mut Vec<u8>) -> Result<(), AllocError>
    ensures { OnOk result (out.new.items ≡ out.old.items ++ entry_lines place entry.now) }
{
    match entry {
        Entry::Change {
            client,
            number,
            call: _,
            outcome: _,
            reply,
            outgoing,
        } => {
            let parent = Parent::Call {
                client: *client,
                number: *number,
            };
            append_reply(place, reply, out)?;
            append_outs(outgoing.as_slice(), &parent, out)?;
            Ok(())
        }
        Entry::End => Ok(()),
    }
}
